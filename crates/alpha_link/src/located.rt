//! Modules where they stand among those that are linked.

ghost use Rattle.std.specs.Prelude.{◌≡◌, ◌≤◌, length, IfOk};
ghost use Rattle.alpha_link.specs.Linked.{places, room, section_address};

use crate::module::Module;
use crate::symbol::{Symbol, SymbolSection};
use alpha_asm::{CODE_BASE, DATA_BASE, padding};
use std::alloc::{AllocError, Global};
use std::marker::Model;

/// The data of each module begin at a multiple of 2^13 bytes.
const DATA_UNIT: u8 = 13;

/// A module where it stands among those that are linked.
#[derive(Drop)]
pub(crate) struct Located<'m> {
    /// Its number, from 0.
    pub number: u32,
    /// How many code words stand before its own.
    pub words: u32,
    /// How many data bytes of the image stand before its own.
    pub filled: u32,
    /// The module.
    pub module: &'m Module<'m>,
}

impl<'m> Model for Located<'m> {
    ghost use Rattle.std.specs.Prelude.{◌<◌, ◌≤◌, ◌*◌};
    ghost use Rattle.alpha_link.specs.Linked.{Located as LocatedThere};

    ghost Value = { LocatedThere };

    ghost view = { λ l. record {
      number = l.number;
      words = l.words;
      filled = l.filled;
      parts = l.«module».now;
    } };

    ghost invariant = { λ l. (l.number < 64) × (l.words ≤ 64 * 262144)
        × (l.filled ≤ 64 * 16785407) };
}

impl Module<'_> {
    /// How many code words it has.
    pub(crate) fn words(&self) -> u32
        ensures value { result ≡ length self.now.words }
        ensures bound { result ≤ 262144 }
    {
        self.insns.len() as u32
    }

    /// How many bytes of the data segment it takes, with those behind it to the next multiple of 8,192.
    pub(crate) fn room(&self) -> u32
        ensures value { result ≡ room self.now }
        ensures bound { result ≤ 16785407 }
    {
        let size = self.bytes.len() as u32 + self.zeroed;
        size + u32::from(padding(DATA_UNIT, u64::from(size)))
    }
}

impl Located<'_> {
    /// The address of one of its symbols, which an undefined one has none of.
    pub(crate) fn address(&self, symbol: &Symbol<'_>) -> Option<u64>
        ensures { result ≡ section_address self.now symbol.now.section symbol.now.offset }
    {
        let offset = u64::from(symbol.offset);
        match symbol.section {
            SymbolSection::Code => Some(CODE_BASE + 4 * u64::from(self.words) + offset),
            SymbolSection::Data => Some(DATA_BASE + u64::from(self.filled) + offset),
            SymbolSection::Undefined => None,
        }
    }
}

/// The modules in their order, the first one at both bases.
pub(crate) fn places<'m>(
    alloc: Global,
    modules: &'m [Module<'m>],
) -> Result<Vec<Located<'m>>, AllocError>
    requires { length modules.now ≤ 64 }
    ensures { IfOk result (λ all. all.items ≡ places modules.now) }
{
    let mut all = Vec::with_capacity(alloc, modules.len())?;
    let mut words = 0;
    let mut filled = 0;
    for (number, module) in modules.iter().enumerate() {
        all.push(Located {
            number: number as u32,
            words,
            filled,
            module,
        })?;
        words += module.words();
        filled += module.room();
    }
    Ok(all)
}
