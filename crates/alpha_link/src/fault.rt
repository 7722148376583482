//! Why bytes are no module, and why modules link to no image.

ghost use Rattle.std.specs.Prelude.{◌≡◌};
ghost use Rattle.alpha_link.specs.declared.fault.ModuleFault.TheVariants.{NoMemory};
ghost use Rattle.alpha_link.specs.declared.fault.LinkFault.TheVariants as links;

use std::alloc::{AllocError, AllocFailed};
use thiserror::Error;

/// Why bytes are no module. The bytes are read from the front: the first item that isn't whole is
/// `Cut`, and the first whole item that is bad has a fault of its own.
#[derive(Clone, Copy, Debug, PartialEq, Eq, Error)]
pub enum ModuleFault {
    /// There are fewer than 28 bytes, or they don't begin with `ALPHAOB1`.
    #[error("the bytes have no header of a module")]
    Header,
    /// The least size that is too great: 1 of the code words, above 262,144; 2 of the data bytes, above
    /// 16,777,216; 3 of the data and zeroed bytes together, above the same.
    #[error("size {0} of the module is too great")]
    Size(u8),
    /// An item isn't whole. The number of all bytes.
    #[error("the {0} bytes end within an item")]
    Cut(u64),
    /// The place of a code word that is outside the instruction table or of level 2.
    #[error("code word {0} is no instruction of level 1")]
    Word(u32),
    /// The number of a symbol, from 0, that breaks a rule of symbols.
    #[error("symbol {0} is bad")]
    Symbol(u32),
    /// The number of a relocation, from 0, that breaks a rule of relocations.
    #[error("relocation {0} is bad")]
    Relocation(u32),
    /// Where bytes stand behind the last item.
    #[error("bytes stand behind the last item, from offset {0} on")]
    Rest(u64),
    /// Memory ran out.
    #[error("out of memory")]
    NoMemory,
}

impl From<AllocError> for ModuleFault {
    ghost from_gives = { λ _ e. e ≡ NoMemory };

    fn from(_: AllocError) -> Self {
        ModuleFault::NoMemory
    }
}

impl<T: Drop> From<AllocFailed<T>> for ModuleFault {
    ghost from_gives = { λ _ e. e ≡ NoMemory };

    fn from(_: AllocFailed<T>) -> Self {
        ModuleFault::NoMemory
    }
}

/// Why modules link to no image. Modules, symbols and relocations are numbered from 0. The first refusal
/// in the order of the variants is told, each with the least numbers.
#[derive(Clone, Copy, Debug, PartialEq, Eq, Error)]
pub enum LinkFault {
    /// A module and its symbol that an earlier module defines too.
    #[error("symbol {1} of module {0} is defined before")]
    Duplicate(u32, u32),
    /// A module and its symbol that no module defines.
    #[error("symbol {1} of module {0} has no definition")]
    Undefined(u32, u32),
    /// The entry names no word of the code.
    #[error("the entry names no word of the code")]
    Entry,
    /// The image would have a bad field: the least one's number.
    #[error("field {0} of the image is bad")]
    ImageField(u8),
    /// A module and its relocation whose address doesn't fit.
    #[error("relocation {1} of module {0} doesn't fit")]
    Reach(u32, u32),
    /// Memory ran out.
    #[error("out of memory")]
    NoMemory,
}

impl From<AllocError> for LinkFault {
    ghost from_gives = { λ _ e. e ≡ links.NoMemory };

    fn from(_: AllocError) -> Self {
        LinkFault::NoMemory
    }
}
