//! What the operate instructions compute, when the `/V` ones overflow and what completes them,
//! which conditions hold, and the addresses that LDA, LDAH and the accesses to memory compute.
//! No call takes memory. A register is a `u64`; signed numbers stand in it in two's complement.
//!
//! Comments call the Alpha Architecture Handbook, version 4, the Architecture Handbook.
//!
//! - [`operate_at`] is the result of each instruction at a level, from Ra, Rb or the literal, and
//!   what the destination had; a `/V` row gives the wrapped result. [`operate`] is that of level one, and [`outcome`]
//!   is `None` where a `/V` row overflows.
//! - [`overflows`] says whether a `/V` instruction overflows, [`completed`] which value completes it.
//!   [`compute`] gives both and the result in one call.
//! - [`taken`] is the test of the conditional branches and moves.
//! - [`address`] and [`high_address`] add a displacement to a base register, and [`access_address`]
//!   is where an access begins.
//! - The functions of `src/laws.rt` do nothing: their contracts are the laws. [`laws_of_results`]:
//!   each result fits a register. [`laws_of_completion`]: completed by wrap or stop a value is that of
//!   [`operate_at`], and without an overflow the exact result. [`laws_of_lists`]: logic and the byte
//!   forms are operations on lists of bits and bytes. [`laws_of_addresses`]: two accesses by one base
//!   touch a common byte only where their spans meet.
//!
//! The definitions go by whole numbers, the code by machine words. `specs/Numbers.antt` has signed
//! numbers and wrapped results, `specs/Bits.antt` a register's bits and bytes, `specs/Op.antt` the
//! result of each instruction in the Handbook's words, `specs/TrapOp.antt` overflow and completed
//! values, `specs/Outcome.antt` both in one, `specs/Cond.antt` the conditions, `specs/Source.antt` second sources, and
//! `specs/Address.antt` the addresses; `specs/Lists.antt` has logic and the byte forms once more, by
//! lists. `src/results.rt` has the table of the instructions; `sums.rt`, `counts.rt`, `shifts.rt` and
//! `bytes.rt` have the work by families, `trap.rt` that of the `/V` rows.
#![tactic(auto)]

mod bytes;
mod cond;
mod counts;
mod displaced;
mod laws;
mod number;
mod results;
mod shifts;
mod sums;
mod trap;

pub use cond::taken;
pub use displaced::{access_address, address, high_address};
pub use laws::{laws_of_addresses, laws_of_completion, laws_of_lists, laws_of_results};
pub use results::{Computed, compute, operate, operate_at, outcome};
pub use trap::{completed, overflows};
