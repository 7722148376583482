//! Relocations: where an address is put in when modules are linked.

ghost use Rattle.std.specs.Prelude.{◌≡◌};
ghost use Rattle.alpha_link.specs.Relocations.{kind_of, kind_number};

use alpha_asm::{RelocField, RelocationKind};

/// The kind of a number, `None` exactly above 3.
pub(crate) fn kind_of(number: u8) -> Option<RelocationKind>
    ensures { result ≡ kind_of number }
{
    match number {
        0 => Some(RelocationKind::Insn(RelocField::Branch)),
        1 => Some(RelocationKind::Insn(RelocField::High)),
        2 => Some(RelocationKind::Insn(RelocField::Low)),
        3 => Some(RelocationKind::Quad),
        _ => None,
    }
}

/// The number of a kind, 0 to 3.
pub(crate) fn kind_number(kind: RelocationKind) -> u8
    ensures { result ≡ kind_number kind }
{
    match kind {
        RelocationKind::Insn(RelocField::Branch) => 0,
        RelocationKind::Insn(RelocField::High) => 1,
        RelocationKind::Insn(RelocField::Low) => 2,
        RelocationKind::Quad => 3,
    }
}

/// A place that takes the address of a symbol.
#[derive(Clone, Copy, Debug, PartialEq, Eq)]
pub struct Relocation {
    /// What the address is put into: the displacement of a branch, an LDAH or an LDA, or a quadword.
    pub kind: RelocationKind,
    /// How many bytes of the code, or of the data where the kind is `Quad`, stand before it.
    pub offset: u32,
    /// The number of its symbol, from 0.
    pub symbol: u32,
    /// What is added to the symbol's address, from -(2^31 - 1) to 2^31 - 1.
    pub addend: i32,
}
