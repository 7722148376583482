//! The code and the data bytes of an image that modules link to, one behind the other.

ghost use Rattle.std.specs.Prelude.{◌≡◌, ◌+◌, ◌-◌, ◌++◌, ◌≤◌, [], length, All, replicate, None, Ok, OnOk, IfOk, IfSome};
ghost use Rattle.std.specs.Prelude.{not, position};
ghost use Rattle.std.specs.List.{filter_map};
ghost use Rattle.alpha_words.specs.declared.Level.TheVariants.{One};
ghost use Rattle.alpha_table.specs.Decoded.{decoded};
ghost use Rattle.alpha_image.specs.Insns.{IsCodeInsn};
ghost use Rattle.alpha_asm.specs.Patches.{IsNear};
ghost use Rattle.alpha_link.specs.Parts.{IsModule};
ghost use Rattle.alpha_link.specs.Linked.{relocation_target, is_in_range, addresses_by};
ghost use Rattle.alpha_link.specs.Addresses.{Knows};
ghost use Rattle.alpha_link.specs.Names.{found_in};
ghost use Rattle.alpha_link.specs.Output.{code_with, bytes_with, code_with_all, bytes_with_all, JoinsOne};

use crate::addresses::Addresses;
use crate::located::Located;
use crate::relocation::Relocation;
use crate::table::Names;
use alpha_asm::{CODE_BASE, RelocationKind, put_insn, put_quad};
use alpha_table::Insn;
use std::alloc::{AllocError, Global};

// The address that a relocation puts in: its symbol's, and its addend.
fn relocation_target(addresses: &Addresses<'_, '_>, relocation: &Relocation) -> Option<i128>
    ensures value { result ≡ relocation_target addresses.now relocation.now }
    ensures in_range { IfSome result IsNear }
{
    let address = addresses.get(relocation.symbol as usize)?;
    Some(i128::from(address) + i128::from(relocation.addend))
}

/// What is joined so far.
#[derive(Drop)]
pub(crate) struct Output {
    pub code: Vec<Insn>,
    pub bytes: Vec<u8>,
}

impl Output {
    /// Nothing yet, with room for so many words and data bytes.
    pub(crate) fn empty(alloc: Global, words: u32, filled: u32) -> Result<Output, AllocError>
        ensures code { IfOk result (λ output. output.code.items ≡ []) }
        ensures bytes { IfOk result (λ output. output.bytes.items ≡ []) }
    {
        Ok(Output {
            code: Vec::with_capacity(alloc, words as usize)?,
            bytes: Vec::with_capacity(alloc, filled as usize)?,
        })
    }

    // Puts in what a relocation of the last module asks for, whatever stands there. Whether it fits.
    fn put_relocation(
        &mut self,
        addresses: &Addresses<'_, '_>,
        located: &Located<'_>,
        relocation: &Relocation,
    ) -> bool
        ensures fits { result ≡ is_in_range addresses.now located.now relocation.now }
        ensures code { self.new.code.items
            ≡ code_with addresses.now located.now relocation.now self.old.code.items }
        ensures bytes { self.new.bytes.items
            ≡ bytes_with addresses.now located.now relocation.now self.old.bytes.items }
    {
        let Some(address) = relocation_target(addresses, relocation) else {
            return false;
        };
        let words = located.words;
        let offset = relocation.offset;
        match relocation.kind {
            RelocationKind::Insn(by) => {
                let pc = CODE_BASE + 4 * u64::from(words) + u64::from(offset);
                let place = words as usize + (offset / 4) as usize;
                put_insn(by, u128::from(pc), place, address, &mut self.code)
            }
            RelocationKind::Quad => {
                let at = located.filled as usize + offset as usize;
                put_quad(address, at, &mut self.bytes)
            }
        }
    }

    // Puts in all that the last module asks for. The least relocation that doesn't fit.
    fn put_relocations(
        &mut self,
        addresses: &Addresses<'_, '_>,
        located: &Located<'_>,
    ) -> Option<u32>
        ensures out_of_range { result ≡ position (λ r. not (is_in_range addresses.now located.now r))
            located.now.parts.relocations }
        ensures code { result ≡ None → self.new.code.items
            ≡ code_with_all addresses.now located.now located.now.parts.relocations
            self.old.code.items }
        ensures bytes { result ≡ None → self.new.bytes.items
            ≡ bytes_with_all addresses.now located.now located.now.parts.relocations
            self.old.bytes.items }
    {
        let module = located.module;
        for (number, relocation) in module.relocations.iter().enumerate() {
            if !self.put_relocation(addresses, located, relocation) {
                return Some(number as u32);
            }
        }
        None
    }

    // Appends the code and the data bytes of a module. Zero bytes stand before its data.
    fn append(&mut self, located: &Located<'_>) -> Result<(), AllocError>
        requires { length self.old.bytes.items ≤ located.now.filled }
        ensures code { OnOk result (self.new.code.items
            ≡ self.old.code.items ++ filter_map decoded located.now.parts.words) }
        ensures bytes { OnOk result (self.new.bytes.items
            ≡ self.old.bytes.items
            ++ (replicate (located.now.filled - length self.old.bytes.items) 0
            ++ located.now.parts.bytes)) }
        ensures size { OnOk result (length self.new.code.items
            ≡ length self.old.code.items + length located.now.parts.words) }
        ensures good { IsModule located.now.parts }
    {
        let module = located.module;
        self.code.extend_from_slice(&module.insns)?;
        self.bytes.resize(located.filled as usize, 0)?;
        self.bytes.extend_from_slice(&module.bytes)
    }

    /// Joins a further module. The least relocation that doesn't fit.
    pub(crate) fn join<'m>(
        &mut self,
        alloc: Global,
        names: &Names<'_, 'm>,
        located: &Located<'m>,
    ) -> Result<Option<u32>, AllocError>
        requires words { located.now.words ≡ length self.old.code.items }
        requires filled { length self.old.bytes.items ≤ located.now.filled }
        requires own { Knows (found_in names.now) located.now }
        ensures out_of_range { let addresses = addresses_by (found_in names.now) located.now in
            IfOk result (λ unmet. unmet
            ≡ position (λ r. not (is_in_range addresses located.now r)) located.now.parts.relocations) }
        ensures joined { result ≡ Ok None →
            JoinsOne (addresses_by (found_in names.now) located.now) located.now self.old self.new }
        ensures insns { result ≡ Ok None → All (IsCodeInsn One) self.old.code.items
            → All (IsCodeInsn One) self.new.code.items }
    {
        let addresses = names.addresses(alloc, located)?;
        self.append(located)?;
        Ok(self.put_relocations(&addresses, located))
    }
}
