//! The commands of the program, from its words to a status and to bytes written.
//!
//! - [`Words`] are the words after the program's name, [`Status`] is how a call ended.
//! - [`alpha_top`] does what the words ask. Words, files and input have one answer: a status, the
//!   bytes for the output and for the notes, the input left, and the file that is kept. A command is
//!   put together from stages, whose order is the order of refusals (`specs/Outcome.antt`), and has
//!   one module (`specs/Commands.antt`); what is the same of all of them is said by their form
//!   (`specs/Form.antt`). A fault of a device or want of memory may cut a call short, and then a part
//!   of an answer, or the line of that status, was written (`specs/Attempts.antt`, `specs/Ends.antt`).
//! - [`alpha_main`] is that call by all that stands on the command line: the program, but for its real
//!   devices. [`alpha_sure`] is the same call over devices that never fail.
//! - [`image_of`] makes the image of a file's bytes.
//! - [`laws_of_answers`] says that words have one answer where what their command reads is told, and
//!   some where files are told and are of bytes. [`laws_of_listed_files`] says that what a `dis` writes that is
//!   done is a source of the image of its file.
//! - [`laws_of_checked_runs`] says that accepted images can be restarted, and so that a run of the
//!   imprecise machine of a file that `check` accepts has the answer of the sequential run, but for
//!   the number of words that it draws, where files are told and its choices have words
//!   (`specs/AlikeByAnswers.antt`). [`laws_of_told_runs`] says that this is, over a told input, the answer
//!   of the sequential run of the image which the file spells (`specs/Alike.antt`). [`laws_of_records`] says
//!   that a journal that `record` has kept of a run over a told input is never refused by `replay`, as
//!   long as the image's file spells that image, and [`laws_of_recorded_runs`] that it is the journal of
//!   the run whose answer was given (`specs/RecordedRun.antt`). [`laws_of_checkable_files`] says that a
//!   file which spells an accepted image meets what those laws ask.
//! - [`laws_of_unread_inputs`] says that a program which reads nothing in the steps that are asked for has
//!   one answer over every source, told or not, where its file is told (`specs/ReadsNothing.antt`).
//! - [`laws_of_kept_modules`] says that a file which `module` keeps is one of those that make a link
//!   accepted.
//!
//! A command makes a `Decision` (`decision.rt`), which writes what is then still to be written: all
//! of it, but for a command that writes while it works, as `run.rt`. `alpha_request` reads the
//! words, and `top.rt` matches what is asked; `entry.rt` and `sure.rt` call it. `image.rt` has the
//! stages that lead to an image, `chooser.rt` the one that leads to the words of an imprecise run,
//! `keep.rt` the one that keeps a file. A stage of any command that goes no further answers a
//! `Stop` (`stop.rt`). Each command has a module: `run.rt`, `imprecise.rt`, `record.rt`,
//! `replay.rt`, `link.rt`, `trial.rt`. What is made of a source and kept is one command,
//! `source_commands.rt`, and what is asked of an image is another, `of_image.rt`: a value says what, and the
//! stage of each has a module below: `making/asm.rt`, `fix.rt` and `module.rt`, and
//! `of_image/check.rt`, `debug.rt` and `dis.rt`.
//!
//! What a command did to the devices (`devices.rt`) is one relation, `specs/CommandEffect.antt`, and what a
//! stage did is in `specs/Stage.antt`; `laws.rt` has what follows of answers alone. `status.rt`,
//! `line.rt` and `specs/Status.antt` have the number, the line and the class of each status,
//! `specs/Kept.antt` says what becomes of files. What a further command or status touches is listed
//! in docs/ARCHITECTURE.md.
#![tactic(auto)]

mod chooser;
mod decision;
mod devices;
mod entry;
mod image;
mod imprecise;
mod keep;
mod laws;
mod line;
mod link;
mod of_image;
mod record;
mod replay;
mod run;
mod source_commands;
mod status;
mod stop;
mod sure;
mod top;
mod trial;

pub use alpha_request::Words;
pub use alpha_trial::trial_image;
pub use devices::Devices;
pub use entry::alpha_main;
pub use image::{IMAGE_LIMIT, image_of};
pub use laws::{
    laws_of_answers, laws_of_checkable_files, laws_of_checked_runs, laws_of_kept_modules,
    laws_of_listed_files, laws_of_recorded_runs, laws_of_records, laws_of_told_runs,
    laws_of_unread_inputs,
};
pub use link::MODULE_LIMIT;
pub use source_commands::SOURCE_LIMIT;
pub use status::Status;
pub use sure::alpha_sure;
pub use top::alpha_top;
