//! The imprecise machine: a trap of an overflow is reported late, and until then what the program writes
//! may be anything (Architecture Handbook, arithmetic traps; the exact form is this project's own).
//!
//! - [`Wild`] is the machine: a sequential machine, and a trap that may be pending, a [`Pending`].
//!   [`Wild::new`] makes it of a machine, and [`Wild::with_rows`] one that makes rows of its program in a long run.
//!   [`Wild::step_by`] makes one step by the choices of a [`ChoiceSource`], [`Wild::step`] one by the words of a
//!   [`Chooser`], and [`Wild::run_fast`] many steps that only go on.
//! - A [`Chooser`] answers the words of 64 bits by which a step chooses: [`ListChooser`] has them from bytes,
//!   [`PcgChooser`] from a seeded generator. A [`CountingChooser`] counts the words of another one. It picks by them.
//! - [`laws_of_chosen_runs`]: a run by such words uses its units or is over before, takes 1,026 steps a unit at most,
//!   and draws 2,049 words a unit at most. [`laws_of_free_runs`]: how runs whose steps are given anything stand to
//!   the run over one input.
//!
//! `specs/StepResult.antt` has what the machine is at a moment and what it is free to choose, `specs/Step.antt` the
//! step, `specs/Run.antt` the runs, `specs/Chosen.antt` the choices that are made by words of 64 bits,
//! `specs/ChosenRun.antt` the runs that coming words make over an input, `specs/Fronts.antt` what is told of a run
//! that a device's fault cut short, `specs/Restart.antt` what it means that a program can be restarted after each
//! trap, and `specs/Shown.antt` what such a program's runs show. `specs/ImpreciseStepEffect.antt` says what the
//! code's step did against that, for choosers and devices that may tell nothing, `specs/ChoiceSource.antt` what a
//! step asks of who chooses, `specs/Oracle.antt` how a chooser goes on, and `specs/ImpreciseFastSteps.antt` what
//! steps are that only go on behind one another.
//!
//! `src/wild.rt` is the machine and `src/pending.rt` its pending trap; `src/step.rt` has the step by what it is,
//! `src/choice_source.rt` who chooses in it, and how a chooser does by its words, `src/look.rt` what the word at the
//! PC would do, `src/unpredictable.rt` the words that are executed while a trap is pending, `src/report.rt` the
//! report, through the kernel's frame and the handler, and `src/laws.rt` the laws.
#![tactic(auto)]

mod choice_source;
mod chooser;
mod counting;
mod laws;
mod list;
mod look;
mod pcg;
mod pending;
mod report;
mod step;
mod unpredictable;
mod wild;

pub use choice_source::ChoiceSource;
pub use chooser::Chooser;
pub use counting::CountingChooser;
pub use laws::{laws_of_chosen_runs, laws_of_free_runs};
pub use list::ListChooser;
pub use pcg::PcgChooser;
pub use pending::Pending;
pub use wild::Wild;
