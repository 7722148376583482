ghost use Rattle.std.specs.Prelude.{◌≡◌, ◌<◌, ◌≤◌, length, slice_get, Some, IfOk, IfSome};
ghost use Rattle.std.specs.Option.{option_map};
ghost use Rattle.alpha_link.specs.GlobalSymbols.{global_symbol, global_symbols_in, global_symbols, used_symbols, is_of};
ghost use Rattle.alpha_link.specs.Starts.{AreStarts};

use crate::located::Located;
use crate::row::{GlobalSymbol, Row};
use alpha_names::Source;
use std::alloc::{AllocError, Global};

// How many symbols a module has.
fn count_of(located: &Located<'_>) -> usize
    ensures { result ≡ length (global_symbols_in located.now) }
{
    let module = located.module;
    module.symbols.len()
}

/// How many symbols stand before those of each module.
pub(crate) fn starts_of(alloc: Global, places: &[Located<'_>]) -> Result<Vec<usize>, AllocError>
    ensures { IfOk result (λ starts. AreStarts starts.items places.now) }
{
    let mut starts = Vec::with_capacity(alloc, places.len())?;
    let mut count = 0usize;
    for located in places {
        starts.push(count)?;
        let Some(behind) = count.checked_add(count_of(located)) else {
            return Err(AllocError);
        };
        count = behind;
    }
    Ok(starts)
}

// The last module whose symbols begin at a number or before it, and where they begin.
fn begun_at(starts: &[usize], number: usize) -> Option<(usize, usize)>
    ensures here { IfSome result (λ begun. slice_get starts.now begun.0 ≡ Some begun.1) }
    ensures before { IfSome result (λ begun. begun.1 ≤ number) }
{
    let at = starts
        .partition_point(|start| *start <= number)
        .checked_sub(1)?;
    let start = *starts.get(at)?;
    if start <= number {
        Some((at, start))
    } else {
        None
    }
}

// The symbol of a module with a number.
fn global_symbol_in<'m>(located: &Located<'m>, number: usize) -> Option<GlobalSymbol<'m>>
    ensures { option_map global_symbol result ≡ slice_get (global_symbols_in located.now) number }
{
    let module = located.module;
    let symbol = module.symbols.get(number)?;
    Some(GlobalSymbol {
        name: symbol.name,
        address: located.address(&symbol),
    })
}

// The symbol with a number, of all that modules have.
fn global_symbol_at<'m>(places: &[Located<'m>], number: usize) -> Option<GlobalSymbol<'m>>
    ensures { option_map global_symbol result ≡ slice_get (global_symbols places.now) number }
{
    let mut rest = number;
    for located in places {
        let count = count_of(located);
        if rest < count {
            return global_symbol_in(located, rest);
        }
        rest -= count;
    }
    None
}

impl<'p, 'm> Row<'p, 'm> {
    /// The symbol with a number.
    pub(crate) fn get(&self, number: usize) -> Option<GlobalSymbol<'m>>
        ensures { option_map global_symbol result ≡ slice_get (used_symbols self.now) number }
    {
        if number >= self.count {
            return None;
        }
        // The way from there is short; it is right from any module that begins before.
        match begun_at(self.starts, number) {
            Some((at, start)) => global_symbol_at(&self.places[at..], number - start),
            None => global_symbol_at(self.places, number),
        }
    }
}

impl<'p, 'm> Source for Row<'p, 'm> {
    ghost named = { λ row. is_of (used_symbols row) };

    fn is_named(&self, number: usize, name: &[u8]) -> bool {
        match self.get(number) {
            Some(standing) => standing.address.is_some() && standing.name == name,
            None => false,
        }
    }
}
