//! Why bytes spell no journal.

ghost use Rattle.std.specs.Prelude.{◌≡◌};
ghost use Rattle.alpha_replay.specs.declared.fault.JournalFault.TheVariants.{NoMemory};

use std::alloc::{AllocError, AllocFailed};
use thiserror::Error;

/// Why there is no journal. The first fault is told, in the order of the variants, but that `Short`
/// comes twice: first below 38 bytes, and again behind `Field`, where the input and the output aren't
/// whole.
///
/// The fields are numbered 1 completion, 2 end, 3 a number that the end doesn't use and that isn't 0, 4 input
/// bytes, 5 output bytes and 6 items.
#[derive(Clone, Copy, Debug, PartialEq, Eq, Error)]
pub enum JournalFault {
    /// There are only so many bytes, fewer than stand before the items.
    #[error("the journal has {0} bytes, fewer than stand before its items")]
    Short(u64),
    /// The first eight bytes are not `ALPHAJR1`.
    #[error("the journal doesn't begin with ALPHAJR1")]
    Magic,
    /// The least number of a bad field.
    #[error("field {0} of the journal is bad")]
    Field(u8),
    /// The number of the first item that isn't whole or is bad.
    #[error("item {0} of the journal is cut short or bad")]
    Item(u32),
    /// The items use more than 1,000,000,000 units.
    #[error("the journal has more than 1,000,000,000 units")]
    Units,
    /// Where the bytes begin that stand behind the items.
    #[error("the journal has bytes behind its items, from {0} on")]
    Rest(u64),
    /// Memory ran out.
    #[error("out of memory")]
    NoMemory,
}

impl From<AllocError> for JournalFault {
    ghost from_gives = { λ _ e. e ≡ NoMemory };

    fn from(_: AllocError) -> Self {
        JournalFault::NoMemory
    }
}

impl<T: Drop> From<AllocFailed<T>> for JournalFault {
    ghost from_gives = { λ _ e. e ≡ NoMemory };

    fn from(_: AllocFailed<T>) -> Self {
        JournalFault::NoMemory
    }
}
