//! A debugger of programs: it runs a script of commands, and writes what they answer.
//!
//! - [`debug`] is the session over an [`Image`](alpha_image::Image). [`DebugEnd`] says how it ended. The commands
//!   come line by line from a source, and each is answered before the next line is looked at.
//! - [`laws_of_transcripts`]: every script has a transcript at every image, and by one verdict it has one.
//!
//! The commands are `step`, `go`, `barrier`, `break`, `clear`, `regs`, `mem`, `dis`, `shadow`, `log` and `quit`; any
//! other line is answered by `?`. The program runs on the sequential machine, over an empty input, and its output
//! goes where the answers go, in their order. An overflow is completed by wrapping. What is written waits in a block
//! of 16 KiB, which is put where it is full, behind a line in which the program put something, before more of the
//! script is asked for, and at the end.
//!
//! `specs/Command.antt` says what a line says, `specs/Lines.antt` what the lines of the answers are,
//! `specs/Session.antt` how a session stands and what it answers to a command, `specs/Script.antt` what the
//! transcript of a script is, and `specs/Handed.antt` how much of it is put where each line is begun.
//! `specs/Effects.antt` says what the code did against these, where devices may tell nothing,
//! `specs/OutputChange.antt` what was put and what waits, `specs/Watched.antt` what is made of each step, and
//! `specs/DebugEffect.antt` what a session did.
//!
//! `src/command.rt` reads a line, `src/word.rt` its words and numbers. `src/debugger.rt` has the session and answers
//! a command. `src/stepping.rt` makes the steps, by the loop of `alpha_run` over an empty input, and `src/watcher.rt`
//! looks at each there: it stops the run at the breakpoints of `src/breakpoints.rt`, and takes what the program puts.
//! `src/print.rt` writes the lines, and `src/block.rt` has the block that they wait in. `src/script.rt` cuts the
//! script into lines, in pieces of a fixed size, and `src/transcript.rt` is the whole, whose ends `src/end.rt` has;
//! `src/laws.rt` has the laws.
#![tactic(auto)]

mod block;
mod breakpoints;
mod command;
mod debugger;
mod end;
mod laws;
mod print;
mod script;
mod stepping;
mod transcript;
mod watcher;
mod word;

pub use end::DebugEnd;
pub use laws::laws_of_transcripts;
pub use transcript::{SCRIPT_LIMIT, debug};
