//! The sequential machine: it runs programs exactly, one word a step.
//!
//! Comments call the Alpha Architecture Handbook, version 4, the Architecture Handbook.
//!
//! - [`Machine`] is the machine, all parts of which are open. [`Machine::new`] makes it in the state at the start.
//! - [`Machine::step`] makes one step, [`Machine::step_by`] the same for a caller that has looked at the instruction,
//!   and [`Machine::next`] says what that step would do, as a [`Next`].
//! - [`Machine::run_fast`] makes steps as long as each only goes on, many at a time: the loop of a run, of either
//!   machine.
//! - [`Event`] is how a step went, with [`Passed`] what a barrier took or put and [`Wait`] what an instruction did
//!   while a trap was pending; [`Fault`] is the device that failed in a step, [`End`] how a program ends.
//! - [`Machine::insn`], [`Machine::source`], [`Machine::accessed_address`], [`Machine::set`] and [`Machine::advance`]
//!   are the parts of a step that other machines share, with [`memory_access`], [`size`] and [`branch_target`].
//! - [`write_overflow`], [`write_barrier`], [`write_registers`] and [`write_end`] write the lines of an overflow, of a
//!   barrier, of the registers alone and of an end; [`line_of_end`] is the last of these.
//! - [`laws_of_steps`]: a step leaves how many registers there are and where the blocks of memory lie, and one that
//!   ends the program leaves all. [`laws_of_runs`]: a run that is over stays, and one that isn't has made all its
//!   steps. [`laws_of_inputs`]: the run over an input is the list of events that the input feeds, and a run that
//!   reads nothing is the same over every input.
//!
//! `specs/State.antt` says what a program and a state are and what comes of a step, `specs/Start.antt` what the state
//! at the start is, `specs/Step.antt` what each class of words does, `specs/Run.antt` what a run is, whatever its steps
//! are given or over one input, and what one sees of it, `specs/Notes.antt` what its lines are, and `specs/Next.antt`
//! what a word would do. `specs/Machine.antt` says how the code's machine stands to programs and states.
//! `specs/StepLabel.antt` says what a step of a machine was, `specs/StepEffect.antt` what the code's step did by its
//! answer, for each machine, `specs/Sequential.antt` the same for this one, and `specs/Devices.antt` what it did to
//! devices that tell their bytes and to others. `specs/Fronts.antt` says what is told of a run that a device's fault
//! cut short. `specs/StartMemory.antt` and `specs/Executed.antt` say what the helpers of the start and of the step do,
//! `specs/FastSteps.antt` what steps are that only go on behind one another.
//!
//! `src/machine.rt` has the machine, `src/event.rt` and `src/end.rt` its answers; `src/step.rt` has the step. Its
//! layers are `src/execute.rt`, which executes each word that is no barrier, `src/words.rt` and `src/access.rt` with
//! the families of these words, the second with those that have a displacement from a base register, `src/barrier.rt`
//! with the PAL calls, and `src/parts.rt` with what they share. `src/look.rt` says what a word would do. `src/start.rt`
//! makes the machine, `src/fast.rt` executes words that only go on, `src/lines.rt` writes the lines, `src/laws.rt` has
//! the laws, and `proofs/Examples.antt` has programs whose runs the definitions compute.
#![tactic(auto)]

mod access;
mod barrier;
mod end;
mod event;
mod execute;
mod fast;
mod laws;
mod lines;
mod look;
mod machine;
mod parts;
mod start;
mod step;
mod words;

pub use access::{memory_access, size};
pub use alpha_pal::{Fault, Passed};
pub use end::{End, Next};
pub use event::{Event, Wait};
pub use laws::{laws_of_inputs, laws_of_runs, laws_of_steps};
pub use lines::{line_of_end, write_barrier, write_end, write_overflow, write_registers};
pub use machine::Machine;
pub use words::branch_target;
