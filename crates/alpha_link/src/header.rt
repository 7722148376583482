//! The sizes that a module begins with.

ghost use Rattle.std.specs.Prelude.{◌≡◌, ◌≢◌, ◌++◌, OnOk, IfErr};
ghost use Rattle.alpha_link.specs.declared.fault.ModuleFault.TheVariants as faults;
ghost use Rattle.alpha_link.specs.Header.{bad_size, header_at, header_bytes};
ghost use Rattle.alpha_link.specs.Reading.{Gives};

use crate::ModuleFault;
use alpha_image::{longword_at, push_longword};
use std::alloc::AllocError;

// What a module's bytes begin with.
const MAGIC: [u8; 8] = *b"ALPHAOB1";

/// How many bytes the magic and the sizes have.
pub(crate) const HEADER_BYTES: usize = 28;

/// How many code words a module has at most.
pub(crate) const MOST_WORDS: u32 = 262_144;

/// How many data and zeroed bytes it has at most.
pub(crate) const MOST_DATA: u32 = 16_777_216;

/// How many items of each sort a module has.
#[derive(Clone, Copy, Debug)]
pub(crate) struct Sizes {
    /// Code words.
    pub words: u32,
    /// Data bytes.
    pub filled: u32,
    /// Zeroed bytes behind the data.
    pub zeroed: u32,
    /// Symbols.
    pub symbols: u32,
    /// Relocations.
    pub relocations: u32,
}

impl Sizes {
    // The least size that is too great.
    fn bad_size(&self) -> Option<u8>
        ensures { result ≡ bad_size self.now }
    {
        if self.words > MOST_WORDS {
            return Some(1);
        }
        if self.filled > MOST_DATA {
            return Some(2);
        }
        if self.zeroed > MOST_DATA - self.filled {
            return Some(3);
        }
        None
    }
}

/// The sizes at the front of the bytes, and the bytes behind them.
#[tactic(auto, unfolding(crate::specs::Header::header_at))]
pub(crate) fn read_header(bytes: &[u8]) -> Result<(Sizes, &[u8]), ModuleFault>
    ensures value { Gives (λ x. (x.0, x.1.now)) result (header_at bytes.now) }
    ensures memory { IfErr result (λ fault. fault ≢ faults.NoMemory) }
{
    if bytes.len() < HEADER_BYTES || !bytes.starts_with(&MAGIC) {
        return Err(ModuleFault::Header);
    }
    let sizes = Sizes {
        words: longword_at(bytes, 8),
        filled: longword_at(bytes, 12),
        zeroed: longword_at(bytes, 16),
        symbols: longword_at(bytes, 20),
        relocations: longword_at(bytes, 24),
    };
    if let Some(which) = sizes.bad_size() {
        return Err(ModuleFault::Size(which));
    }
    let (_, behind) = bytes.split_at(HEADER_BYTES);
    Ok((sizes, behind))
}

/// Appends the magic and the sizes.
#[tactic(auto, unfolding(crate::specs::Header::header_bytes))]
pub(crate) fn push_header(out: &mut Vec<u8>, sizes: &Sizes) -> Result<(), AllocError>
    ensures ok { OnOk result (out.new.items ≡ out.old.items ++ header_bytes sizes.now) }
{
    out.extend_from_slice(&MAGIC)?;
    push_longword(out, sizes.words)?;
    push_longword(out, sizes.filled)?;
    push_longword(out, sizes.zeroed)?;
    push_longword(out, sizes.symbols)?;
    push_longword(out, sizes.relocations)
}
