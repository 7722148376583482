//! The table of names.

ghost use Rattle.alpha_names.specs.Finder.{number_in};
ghost use Rattle.alpha_link.specs.GlobalSymbols.{used_symbols, AreEntered};

use crate::row::Row;
use alpha_names::Numbers;

/// The addresses of names: the symbols that define them, each found by its number in the row.
#[derive(Drop)]
pub(crate) struct Names<'p, 'm> {
    /// The symbols so far.
    pub row: Row<'p, 'm>,
    /// The numbers of those that are defined.
    pub numbers: Numbers<'m>,
    ghost entered: { AreEntered (used_symbols row) (number_in numbers) },
}
