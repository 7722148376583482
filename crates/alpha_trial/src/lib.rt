//! The trial: a program of any size that overflows often, made by a number and run on both machines.
//!
//! - [`trial_image`] is the image of the trial with a number: so many blocks, each with two instructions that may
//!   trap, by the words of a generator that the number seeds. The checker accepts it.
//! - [`trial`] judges the image, runs it on the sequential machine and on the imprecise one, and writes a line for
//!   each run to a sink. [`TrialFault`] says why that wasn't done.
//! - [`laws_of_trials`]: what the words of the program are, how many there are, that each such program is accepted,
//!   whatever numbers are drawn, that its image is good, and that both runs exit with 0 after a step a word, with the
//!   same overflows and the same output.
//!
//! `specs/Program.antt` has the program by its instructions, `specs/Words.antt` the same by words and the image,
//! `specs/Report.antt` the lines, from the runs of both machines, `specs/Lines.antt` what the two have in common, and
//! `specs/Counted.antt` what the code's runs did.
//! `src/program.rt` makes the program, `src/runs.rt` runs it and says how many units were used, `src/report.rt` writes
//! the lines, and `src/trials.rt` puts them together.
//!
//! In `proofs/`, `DecodedProgram.antt` ties words to instructions, `TrialShadows.antt` shows that the program is
//! accepted, `WordCounts.antt` and `GoodImage.antt` the other laws, and `RunTotals.antt` says what was counted in the
//! code's runs. `RunStages.antt` says where the sequential run stands after so many steps, `StepsWithoutEffect.antt`
//! takes it through the blocks, `DataBuffer.antt` and `ExitBlock.antt` through the words behind them;
//! `OverflowDraws.antt` counts what an imprecise run draws, and `TrialRunsAlike.antt` has both runs.
#![tactic(auto)]

mod laws;
mod program;
mod report;
mod runs;
mod trials;

pub use laws::laws_of_trials;
pub use program::trial_image;
pub use trials::{TrialFault, trial};
