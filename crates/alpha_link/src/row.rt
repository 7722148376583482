//! The symbols of the modules that are linked, in one row.

ghost use Rattle.alpha_link.specs.Starts.{AreStarts};

use crate::located::Located;

/// So many symbols of modules, those of the first module first.
#[derive(Clone, Copy)]
pub(crate) struct Row<'p, 'm> {
    /// The modules.
    pub places: &'p [Located<'m>],
    /// Where the symbols of each module begin.
    pub starts: &'p [usize],
    /// How many symbols.
    pub count: usize,
    ghost begun: { AreStarts starts.now places.now },
}

/// A symbol of a row.
#[derive(Clone, Copy)]
pub(crate) struct GlobalSymbol<'m> {
    /// Its name.
    pub name: &'m [u8],
    /// Its address, where it is defined.
    pub address: Option<u64>,
}
