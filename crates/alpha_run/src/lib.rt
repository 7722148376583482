//! The run of a machine: one loop for the sequential machine and for the imprecise one.
//!
//! - [`Steps`] is a machine that makes steps, as [`alpha_seq::Machine`], [`alpha_rows::RowMachine`] and
//!   [`alpha_imprecise::Wild`] do. An [`Observer`] looks at each step, and may stop the run.
//! - [`run`] makes steps until the program is over, the observer stops or a number of units is used up.
//! - [`Notes`] is the observer that writes the lines of a run; [`NoWords`] is the chooser of a machine that asks none.
//! - [`run_sequential`] and [`run_imprecise`] are the runs of the two machines, whose lines are written. The first goes
//!   by rows.
//! - [`laws_of_cut_runs`]: what a run has shown that a device's fault cut short is a front of what a whole run shows.
//!   [`laws_of_told_runs`]: where the input is told, that is the run over it. [`laws_of_told_words`]: where the words
//!   are told too, it is the one by those words.
//!
//! `specs/Row.antt` says what steps in a row are, `specs/RunEffect.antt` what a run did by its answer,
//! `specs/Noted.antt`
//! which lines are written of a step, and `specs/SeqRun.antt` and `specs/ImpreciseRan.antt` what the runs of the two
//! machines did, as runs of the definitions. `specs/Shows.antt` says what such a run shows, and `specs/Stays.antt` what
//! no step changes.
//!
//! `src/steps.rt` and `src/observer.rt` have the two traits, `src/seq.rt`, `src/by_rows.rt` and `src/imprecise.rt` the
//! machines, `src/notes.rt` and `src/no_words.rt` the observer and the chooser, `src/observed.rt` one step with its
//! lines, `src/runs.rt` the loop, and `src/seq_run.rt` and `src/imprecise_run.rt` the runs, `src/laws.rt` the laws.
#![tactic(auto)]

mod by_rows;
mod imprecise;
mod imprecise_run;
mod laws;
mod no_words;
mod notes;
mod observed;
mod observer;
mod runs;
mod seq;
mod seq_run;
mod steps;

pub use imprecise_run::run_imprecise;
pub use laws::{laws_of_cut_runs, laws_of_told_runs, laws_of_told_words};
pub use no_words::NoWords;
pub use notes::Notes;
pub use observer::Observer;
pub use runs::run;
pub use seq_run::run_sequential;
pub use steps::Steps;
