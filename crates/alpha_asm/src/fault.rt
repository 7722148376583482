ghost use Rattle.std.specs.Prelude.{◌≡◌};
ghost use Rattle.alpha_asm.specs.declared.fault.AsmFault.TheVariants.{NoMemory};

use alpha_text::LineFault;
use std::alloc::{AllocError, AllocFailed};
use thiserror::Error;

/// Why a source has no image. Lines are numbered from 1.
///
/// The first refusal in this order is told: the least line with `LongLine`, `Line`, `Section` or
/// `Duplicate`, at one line in this order; `NoEntry`; `Undefined` with the least line; `ImageField`
/// with the least field; `Reach` with the least line.
#[derive(Clone, Copy, Debug, PartialEq, Eq, Error)]
pub enum AsmFault {
    /// A line is not of the line grammar: its first fault.
    #[error("line {0} is no line of source")]
    Line(u32, LineFault),
    /// A label or a field statement stands for the second time.
    #[error("line {0} repeats a label or a field statement")]
    Duplicate(u32),
    /// A label has no definition.
    #[error("line {0} names a label without a definition")]
    Undefined(u32),
    /// The address of a label doesn't fit where it is named.
    #[error("line {0} names an address that doesn't fit there")]
    Reach(u32),
    /// A statement stands where its section or its level doesn't take it.
    #[error("line {0} has a statement that may not stand there")]
    Section(u32),
    /// There is no `.entry`.
    #[error("the source has no .entry")]
    NoEntry,
    /// A line has more than 1,024 bytes without its end.
    #[error("line {0} has more than 1,024 bytes")]
    LongLine(u32),
    /// The image would have a bad field: the least one's number.
    #[error("field {0} of the image is bad")]
    ImageField(u8),
    /// Memory ran out.
    #[error("out of memory")]
    NoMemory,
}

impl From<AllocError> for AsmFault {
    ghost from_gives = { λ _ e. e ≡ NoMemory };

    fn from(_: AllocError) -> Self {
        AsmFault::NoMemory
    }
}

impl<T: Drop> From<AllocFailed<T>> for AsmFault {
    ghost from_gives = { λ _ e. e ≡ NoMemory };

    fn from(_: AllocFailed<T>) -> Self {
        AsmFault::NoMemory
    }
}
