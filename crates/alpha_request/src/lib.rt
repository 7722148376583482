//! The command line: from the words after the program's name to what they ask for.
//!
//! - [`Words`] are the words, in their order.
//! - [`Request`] is what good words ask for, [`Refusal`] why there is no request. [`RunOptions`] is
//!   how a program is run, [`Choices`] where the choices of the imprecise machine come from, and
//!   [`FileNames`] the names of the files that are linked.
//! - [`request_of`] reads the words. The first is a command's name exactly. `clap` reads the others
//!   by the definition that it has of a simple command, which has no subcommands, no help and no
//!   version flag. Then the product's own rules decide. So words ask for one command at most, and
//!   which one is a function of them (`specs/Asked.antt`, `asked`). [`laws_of_words`] says that what
//!   they ask for is told by the words of one command alone (`specs/AsksBy.antt`), and what plain words
//!   ask for (`specs/Plain.antt`). [`laws_of_trial_words`] says how many blocks a trial has that they
//!   ask for.
//!
//! `words.rt` has the words, `name.rt` the names of the commands, `matches.rt` what is read of the
//! matches of `clap`, and `request.rt` the requests. Words of one shape are one module of `commands.rt`
//! and its namesake of `specs/Commands.antt`: what `clap` is told (`args.rt`, `specs/Rules.antt`), and
//! the request that the matches make. So the commands of an image ([`ImageCommand`]) have one, and so
//! have those of a source ([`SourceCommand`]). `options.rt` and `specs/Options.antt` have the options
//! of a run, and `files.rt` has the files of a link. What a further command touches is listed in
//! docs/ARCHITECTURE.md.
#![tactic(auto)]

mod args;
mod commands;
mod files;
mod laws;
mod matches;
mod name;
mod options;
mod request;
mod words;

pub use files::FileNames;
pub use laws::{laws_of_trial_words, laws_of_words};
pub use options::{Choices, RunOptions};
pub use request::{ImageCommand, Refusal, Request, SourceCommand, request_of};
pub use words::Words;
