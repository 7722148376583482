//! Runs over rows that are made once of a program's words.
//!
//! - [`RowMachine`] is the sequential machine with the rows of its program. [`RowMachine::run_fast`] makes steps as
//!   long as each only goes on, as [`alpha_seq::Machine::run_fast`] does, at about half its cost. The rows are made
//!   late, once a run has made many steps for each word of the program, so that a short run of a large program doesn't
//!   pay for them. Where there is no memory for them, the machine's own loop makes all steps.
//!
//! A clause sees the machine alone. A row says which instruction its word is, with its operands apart
//! (`specs/Meaning.antt`), or that the loop is left there, as it is at a barrier, at an access by the lock flag and
//! behind the last word. `specs/Rows.antt` says when rows are those of a program, and what executing one of them
//! leaves.
//!
//! `src/machine.rt` has the machine, `src/row.rt` what a row is, and `src/make.rt` makes the rows. `src/fast.rt` is the
//! loop over them, `src/execute.rt` has what is done at one row, `src/effects.rt` what rows of each kind do,
//! `src/regions.rt` their loads and stores, `src/row_values.rt` the values of operate rows, and `src/values.rt` the
//! results of which they are made.
#![tactic(auto)]

mod effects;
mod execute;
mod fast;
mod machine;
mod make;
mod program_rows;
mod regions;
mod row;
mod row_values;
mod values;

pub use machine::RowMachine;
pub use program_rows::ProgramRows;
