ghost use Rattle.std.specs.Prelude.{◌≡◌};
ghost use Rattle.alpha_mem.specs.Size.{size_of};

use thiserror::Error;

/// How many bytes a load or a store has (Architecture Handbook, section 2.2).
#[derive(Clone, Copy, Debug, PartialEq, Eq)]
pub enum Size {
    /// A byte.
    B1,
    /// A word: two bytes.
    B2,
    /// A longword: four bytes.
    B4,
    /// A quadword: eight bytes.
    B8,
}

impl Size {
    /// The number of bytes.
    #[inline(always)]
    pub fn bytes(self) -> u64
        ensures { result ≡ size_of self }
    {
        match self {
            Size::B1 => 1,
            Size::B2 => 2,
            Size::B4 => 4,
            Size::B8 => 8,
        }
    }
}

/// Why a load or a store is refused.
#[derive(Clone, Copy, Debug, PartialEq, Eq, Error)]
pub enum MemFault {
    /// The address is no multiple of the size (Architecture Handbook, section 4.2). This is checked
    /// first.
    #[error("the address is no multiple of the size")]
    Align,
    /// A byte lies in no region or, for a store, in a region that isn't writable.
    #[error("a byte lies in no region, or a store meets one that isn't writable")]
    Region,
}
