//! Modules.

ghost use Rattle.std.specs.Prelude.{◌≡◌};

use crate::relocation::Relocation;
use crate::symbol_list::SymbolList;
use alpha_table::Insn;
use std::marker::Model;

/// A module: code and data that were assembled apart, with the labels that they define and name. A
/// clause sees its parts. The code is held as its instructions, each of which has one word. The names of
/// its labels stand in the bytes that it was read from, or in the source that it was made of.
#[derive(Debug, Drop)]
pub struct Module<'a> {
    pub(crate) insns: Vec<Insn>,
    pub(crate) bytes: Vec<u8>,
    pub(crate) zeroed: u32,
    pub(crate) symbols: SymbolList<'a>,
    pub(crate) relocations: Vec<Relocation>,
}

impl<'a> Model for Module<'a> {
    ghost use Rattle.alpha_link.specs.Parts.{ModuleParts};

    ghost Value = { ModuleParts };

    ghost use Rattle.alpha_link.specs.Module.{parts_in, IsWhole};

    ghost view = { parts_in };

    ghost invariant = { IsWhole };
}

impl<'a> Module<'a> {
    /// Its symbols, whose names rise: the labels that it defines, and those that another module has to define.
    pub fn symbols(&self) -> &SymbolList<'a>
        ensures { result.now ≡ self.now.symbols }
    {
        &self.symbols
    }

    /// Its relocations, those of the code first: the places that take the address of a symbol.
    pub fn relocations(&self) -> &[Relocation]
        ensures { result.now ≡ self.now.relocations }
    {
        &self.relocations
    }
}
