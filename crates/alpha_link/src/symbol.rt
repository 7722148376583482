//! Symbols: the labels of a module, by name.

ghost use Rattle.std.specs.Prelude.{◌≡◌};
ghost use Rattle.alpha_link.specs.Symbols.{section_of, section_number};

/// Where a symbol stands.
#[derive(Clone, Copy, Debug, PartialEq, Eq)]
pub enum SymbolSection {
    /// In the code.
    Code,
    /// In the data, or in the zeroed bytes behind it.
    Data,
    /// In another module.
    Undefined,
}

impl SymbolSection {
    /// The section of a number, `None` exactly above 2.
    pub(crate) fn of(number: u8) -> Option<SymbolSection>
        ensures { result ≡ section_of number }
    {
        match number {
            0 => Some(SymbolSection::Code),
            1 => Some(SymbolSection::Data),
            2 => Some(SymbolSection::Undefined),
            _ => None,
        }
    }

    /// 0, 1 or 2.
    pub(crate) fn number(self) -> u8
        ensures { result ≡ section_number self }
    {
        match self {
            SymbolSection::Code => 0,
            SymbolSection::Data => 1,
            SymbolSection::Undefined => 2,
        }
    }
}

/// A label of a module. Its name stands in the bytes that the module was read from, or in its source.
#[derive(Clone, Copy, Debug)]
pub struct Symbol<'a> {
    /// Where it stands.
    pub section: SymbolSection,
    /// How many bytes of its section stand before it, 0 where it is undefined.
    pub offset: u32,
    /// Its name, a label of at most 1,024 bytes.
    pub name: &'a [u8],
}

/// What stands before a symbol's name in a module's bytes.
#[derive(Clone, Copy)]
pub(crate) struct SymbolHeader {
    /// The number of its section.
    pub section: u8,
    /// How many bytes the name has.
    pub size: u16,
    /// How many bytes of the section stand before it.
    pub offset: u32,
}
