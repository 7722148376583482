//! The devices of the outside: where input comes from, where output goes, where files lie.
//!
//! - [`Source`], [`Sink`] and [`Shelf`] are the traits. Each tells its content or nothing, and has
//!   a count of its faults. [`Failed`] is the one answer of a device that failed.
//! - [`read_whole`] reads a file of a shelf up to a limit, [`write_whole`] writes all of some bytes.
//! - [`Line`] is a line of text in the making, in a buffer of its own.
//! - In memory: [`MemorySource`], [`SureSource`] and [`EmptySource`], [`MemorySink`], [`TrickleSink`]
//!   and [`NullSink`], [`MemoryShelf`] and [`SureShelf`]. The sure ones, the empty one and the null one
//!   never fail.
//! - On a real system: [`ReadSource`] over a reader, [`WriteSink`] over a writer, [`DiskShelf`] over
//!   the file system. A read or a write that a signal interrupts is made again.
//! - [`History`] is what a device's calls answered so far, in proofs alone. Each source and each
//!   shelf has one, and [`WriteSink`]: so clauses speak of what a real disk or a terminal gave, which
//!   tells nothing beforehand.
//!
//! The laws: a count of faults never falls. An `Ok` leaves it, and a call answers `Failed` only
//! where it rose or stands at the last value of a `u64`. Two refusals of a shelf that tells its
//! files are no faults: of a piece of a file that isn't there, and of a file that isn't taken. What
//! is told changes only as an `Ok` says; a `keep` that failed may leave anything under its name.
//!
//! `DiskShelf` promises no more, and does more: a file is replaced whole or stays as it was. `src/replace.rt` has
//! the order of the calls, whose clause over calls that are told says so by `specs/FileReplacement.antt`; `src/keep.rt`
//! makes these calls on a file system, and says which files are written in place. `src/again.rt` makes calls again.
//!
//! The functions of `src/laws.rt` do nothing: their contracts are the laws over calls in a row.
//! [`laws_of_counts`]: a count that rose stays risen, and isn't calm. [`laws_of_prefixes`] and
//! [`laws_of_sinks`]: what was written in calls in a row, whole or in part. [`laws_of_files`]: files
//! that stayed. [`laws_of_reading`]: what [`read_whole`] answers of files that are told.
//!
//! `specs/History.antt` has the words on what was answered, `specs/Faults.antt` those on counts,
//! `specs/Written.antt` and `specs/SinkChange.antt` those on what was written, `specs/Files.antt` and
//! `specs/ShelfChange.antt` those on files, and `specs/ReadWhole.antt` the answers of `read_whole`. The
//! other files say what a clause sees of an object.
#![tactic(auto)]

mod again;
mod beside;
mod disk;
mod fault;
mod history;
mod keep;
mod laws;
mod line;
mod memory;
mod place;
mod read;
mod replace;
mod shelf;
mod sink;
mod source;
mod stream;

pub use disk::DiskShelf;
pub use history::History;
pub use laws::{laws_of_counts, laws_of_files, laws_of_prefixes, laws_of_reading, laws_of_sinks};
pub use line::{LINE_ROOM, Line};
pub use memory::shelf::MemoryShelf;
pub use memory::sink::{MemorySink, NullSink};
pub use memory::source::{EmptySource, MemorySource, SureSource};
pub use memory::sure_shelf::SureShelf;
pub use memory::trickle::TrickleSink;
pub use read::{ReadFault, read_whole};
pub use shelf::Shelf;
pub use sink::{Sink, write_whole};
pub use source::Source;
pub use stream::{ReadSource, WriteSink};
use thiserror::Error;

/// The one answer of a device that failed.
#[derive(Clone, Copy, Debug, PartialEq, Eq, Error)]
#[error("the device failed")]
pub struct Failed;
