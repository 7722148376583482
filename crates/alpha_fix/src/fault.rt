ghost use Rattle.std.specs.Prelude.{◌≡◌};
ghost use Rattle.alpha_fix.specs.declared.fault.CutFault.TheVariants as cut_faults;
ghost use Rattle.alpha_fix.specs.declared.fault.FixFault.TheVariants.{NoMemory};

use alpha_asm::AsmFault;
use alpha_shadow::Broken;
use std::alloc::{AllocError, AllocFailed};
use thiserror::Error;

/// Why no barriers make code accepted.
#[derive(Clone, Copy, Debug, PartialEq, Eq, Error)]
pub enum CutFault {
    /// A trigger is broken at its own place, which no barrier changes: the first one, by its first
    /// condition.
    #[error("a trigger is broken at its own place")]
    Unfixable(Broken),
    /// Memory ran out.
    #[error("out of memory")]
    NoMemory,
}

impl<T: Drop> From<AllocFailed<T>> for CutFault {
    ghost from_gives = { λ _ e. e ≡ cut_faults.NoMemory };

    fn from(_: AllocFailed<T>) -> Self {
        CutFault::NoMemory
    }
}

/// Why a source isn't fixed. The first of these that applies is told.
#[derive(Clone, Copy, Debug, PartialEq, Eq, Error)]
pub enum FixFault {
    /// The source has no image: its refusal.
    #[error("the source has no image")]
    Source(AsmFault),
    /// A trigger is broken at its own place, which no barrier changes: the first one, by its first
    /// condition; and the code base of the source's image.
    #[error("a trigger is broken at its own place")]
    Unfixable(Broken, u64),
    /// A barrier is needed, and a line fixes where words of the code stand: the first such line.
    /// Lines are numbered from 1.
    #[error("line {0} fixes where words stand")]
    Fixed(u32),
    /// The source with the barriers has no image: the refusal, with its line in that source.
    #[error("the source with barriers has no image")]
    Far(AsmFault),
    /// Memory ran out.
    #[error("out of memory")]
    NoMemory,
}

impl From<AllocError> for FixFault {
    ghost from_gives = { λ _ e. e ≡ NoMemory };

    fn from(_: AllocError) -> Self {
        FixFault::NoMemory
    }
}
