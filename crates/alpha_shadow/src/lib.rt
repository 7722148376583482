//! The checker of trap shadows: it accepts code that can be restarted after an overflow trap that
//! is reported late, or names the least place that breaks a shadow (Architecture Handbook,
//! arithmetic trap completion; the exact form is this project's own).
//!
//! Comments call the Alpha Architecture Handbook, version 4, the Architecture Handbook.
//!
//! - [`Condition`] is one of the nine conditions, C1 to C9, and [`Broken`] a broken place.
//! - [`judge`] is the verdict on the instructions that a [`Fetch`] gives. It looks at each word once at
//!   most, in their order, and takes no memory. A [`Checker`] gives one verdict after another, in the
//!   same room. [`InsnCode`] is the code of instructions in a slice, or the rest of it from a place on. [`Counted`]
//!   makes a [`Fetch`] of any [`Code`], and counts the looks.
//! - [`judge_words`] is the verdict on words, for who has neither an image nor a [`Fetch`] of his own, or a
//!   [`Refusal`].
//! - [`laws_of_verdicts`] says that each condition is decided, and that every list of words is
//!   accepted or has a least broken place.
//!
//! `specs/Code.antt` reads the columns of the code by place, `specs/Broken.antt` says when a place is broken and
//! which code is accepted, `specs/Least.antt` which broken place is the least. The body is `verdict.rt` (the walk
//! over the words, which `first_trigger.rt` brings to the next trigger where no shadow is open) over `place.rt` (the
//! least broken place at one word, condition by condition), `window.rt` (what is known of the words before a place,
//! whose meaning is `specs/Window.antt`), `triggers.rt` and `loads.rt` (the open triggers, and the loads after the
//! first of them), `last.rt` (the last place of each register) and `columns.rt` (what is read of one word).
//! `broken.rt` has what a verdict names, `fetch.rt` and `insn_code.rt` where the words come from, and `words.rt` the
//! verdict on a slice of them.
//!
//! `proofs/Shadows.antt`, `OpenLoads.antt` and `LastPlaces.antt` follow the open triggers, the open loads and the
//! registers' places word by word; `BreakingTriggers.antt` ties each condition to them, `LeastBrokenSteps.antt` joins
//! the conditions, `WindowSteps.antt` and `CodeWalk.antt` make the walk, and `Decided.antt` has the laws.
//! `NextTriggers.antt` goes over the words where no shadow is open, and `LoneTriggers.antt` has a trigger there.
//! `Covers.antt` has what a cover of loads covers. `WordColumns.antt` alone looks into the instruction table, and
//! `Barriers.antt` has what a barrier leaves.
#![tactic(auto)]

mod broken;
mod columns;
mod fetch;
mod first_trigger;
mod insn_code;
mod last;
mod laws;
mod loads;
mod looks;
mod place;
mod triggers;
mod verdict;
mod window;
mod words;

pub use broken::{Broken, Condition};
pub use fetch::{Fetch, NextTrigger};
pub use insn_code::InsnCode;
pub use laws::laws_of_verdicts;
pub use looks::{Code, Counted};
pub use verdict::{Checker, judge};
pub use words::{Refusal, judge_words};
