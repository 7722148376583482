//! The addresses of a module's symbols, for the relocations that ask for them.

ghost use Rattle.std.specs.Prelude.{◌≡◌, map, slice_get, Some};
ghost use Rattle.std.specs.Option.{option_and_then};
ghost use Rattle.alpha_link.specs.Addresses.{owned};
ghost use Rattle.alpha_link.specs.Linked.{section_address};

use crate::located::Located;
use std::marker::Model;

/// The addresses of a module's symbols, all of which have one: listed, or those that it defines them at.
#[derive(Drop)]
pub(crate) struct Addresses<'p, 'm> {
    located: &'p Located<'m>,
    listed: Option<Vec<u64>>,
}

impl<'p, 'm> Model for Addresses<'p, 'm> {
    ghost use Rattle.std.specs.Prelude.{ℕ, List, Option};

    ghost Value = { List (Option ℕ) };

    ghost use Rattle.alpha_link.specs.Addresses.{addresses_in};

    ghost view = { addresses_in };
}

// The address at which a module defines the symbol with a number.
fn own_address(located: &Located<'_>, number: usize) -> Option<u64>
    ensures { result ≡ option_and_then (λ address. address)
        (slice_get (owned located.now) number) }
{
    let module = located.module;
    let symbol = module.symbols.get(number)?;
    located.address(&symbol)
}

impl<'p, 'm> Addresses<'p, 'm> {
    /// The addresses at which a module defines its symbols.
    pub(crate) fn of_module(located: &'p Located<'m>) -> Addresses<'p, 'm>
        ensures { result ≡ map (λ s. section_address located.entry.now s.section s.offset)
            located.entry.now.parts.symbols }
    {
        Addresses {
            located,
            listed: None,
        }
    }

    /// These addresses.
    pub(crate) fn new(located: &'p Located<'m>, addresses: Vec<u64>) -> Addresses<'p, 'm>
        ensures { result ≡ map Some addresses.items }
    {
        Addresses {
            located,
            listed: Some(addresses),
        }
    }

    /// The address of the symbol with a number.
    pub(crate) fn get(&self, number: usize) -> Option<u64>
        ensures { result ≡ option_and_then (λ address. address) (slice_get self.now number) }
    {
        match &self.listed {
            Some(addresses) => addresses.get(number).copied(),
            None => own_address(self.located, number),
        }
    }
}
