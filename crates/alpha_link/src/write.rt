//! The bytes of a module.

ghost use Rattle.std.specs.Prelude.{◌≡◌, IfOk};
ghost use Rattle.alpha_link.specs.Parts.{sizes_of, IsModule};
ghost use Rattle.alpha_link.specs.Spelled.{spelling};

use crate::header::{HEADER_BYTES, Sizes, push_header};
use crate::module::Module;
use crate::relocations::{RELOCATION_BYTES, push_relocations};
use crate::symbols::{push_symbols, size_of_symbols};
use alpha_image::push_words;
use alpha_words::NoMemory;
use std::alloc::Global;

impl Module<'_> {
    // How many items of each sort it has.
    fn sizes(&self) -> Sizes
        ensures value { result ≡ sizes_of self.now }
        ensures good { IsModule self.now }
    {
        Sizes {
            words: self.insns.len() as u32,
            filled: self.bytes.len() as u32,
            zeroed: self.zeroed,
            symbols: self.symbols.len() as u32,
            relocations: self.relocations.len() as u32,
        }
    }

    // How many bytes its spelling has, or the last number of a usize.
    fn size(&self) -> usize {
        HEADER_BYTES
            .saturating_add(self.insns.len().saturating_mul(4))
            .saturating_add(self.bytes.len())
            .saturating_add(size_of_symbols(&self.symbols))
            .saturating_add(self.relocations.len().saturating_mul(RELOCATION_BYTES))
    }
}

/// The one spelling of a module. Memory taken is that of these bytes; `NoMemory` where there is none.
pub fn module_bytes(alloc: Global, module: &Module<'_>) -> Result<Vec<u8>, NoMemory>
    ensures value { IfOk result (λ bytes. bytes.items ≡ spelling «module».now) }
{
    let mut out = Vec::with_capacity(alloc, module.size())?;
    push_header(&mut out, &module.sizes())?;
    push_words(&mut out, &module.insns)?;
    out.extend_from_slice(&module.bytes)?;
    push_symbols(&mut out, &module.symbols)?;
    push_relocations(&mut out, &module.relocations)?;
    Ok(out)
}
