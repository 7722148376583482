//! The names that modules define, with their addresses.

ghost use Rattle.std.specs.Prelude.{◌≡◌, ◌≢◌, ◌&&◌, ◌+◌, take, drop, slice_get, length, ℕ, List, [], None, Some, OnOk};
ghost use Rattle.std.specs.Prelude.{OnErr, IfOk, IfErr, is_some, is_none, not, true, false, map, position};
ghost use Rattle.std.specs.Prelude.{if◌then◌else◌};
ghost use Rattle.std.specs.Option.{option_map, option_or};
ghost use Rattle.std.specs.List.{list_all};
ghost use Rattle.std.specs.Str.{bytes_eq};
ghost use Rattle.alpha_link.specs.declared.fault.LinkFault.TheVariants as faults;
ghost use Rattle.alpha_link.specs.Linked.{address_in, address_of, is_defined, repeated};
ghost use Rattle.alpha_link.specs.Names.{found_in, again_in};
ghost use Rattle.alpha_link.specs.Addresses.{address_by_own, Knows, AllKnow};
ghost use Rattle.alpha_link.specs.Symbols.{named};
ghost use Rattle.alpha_link.specs.GlobalSymbols.{global_symbols, global_symbols_in};
ghost use Rattle.alpha_link.specs.Starts.{AreStarts};

use crate::LinkFault;
use crate::addresses::Addresses;
use crate::located::Located;
use crate::row::Row;
use crate::symbol::{Symbol, SymbolSection};
use crate::symbol_list::SymbolList;
use crate::table::Names;
use alpha_names::Numbers;
use std::alloc::{AllocError, Global};

impl SymbolSection {
    // Whether a symbol of it is defined.
    fn is_defined(self) -> bool
        ensures { result ≡ is_defined self }
    {
        self != SymbolSection::Undefined
    }
}

impl<'p, 'm> Names<'p, 'm> {
    /// No names, of modules that may have some.
    fn empty(alloc: Global, places: &'p [Located<'m>], starts: &'p [usize]) -> Names<'p, 'm>
        requires { AreStarts starts.now places.now }
        ensures count { result.row.count ≡ 0 }
        ensures places { result.row.places.now ≡ places.entry.now }
    {
        Names {
            row: Row {
                places,
                starts,
                count: 0,
            },
            numbers: Numbers::empty(alloc),
        }
    }

    /// The addresses of the names that the modules define.
    ///
    /// # Errors
    ///
    /// `Duplicate`, with the least symbol that an earlier module defines too.
    pub(crate) fn of(
        alloc: Global,
        places: &'p [Located<'m>],
        starts: &'p [usize],
    ) -> Result<Names<'p, 'm>, LinkFault>
        requires { AreStarts starts.now places.now }
        ensures found { IfOk result (λ names. (name : List ℕ) →
            found_in names name ≡ address_of places.now name) }
        ensures own { IfOk result (λ names. AllKnow (found_in names) places.now) }
        ensures single { OnOk result (repeated [] places.now ≡ None) }
        ensures refused { IfErr result (λ fault. fault ≢ faults.NoMemory →
            option_map (λ p. faults.Duplicate p.0 p.1) (repeated [] places.now) ≡ Some fault) }
    {
        let mut names = Names::empty(alloc, places, starts);
        for located in places {
            names.define_all(located)?;
        }
        Ok(names)
    }

    /// The address of a name.
    #[tactic(auto, unfolding(crate::specs::Names::found_in))]
    pub(crate) fn address(&self, name: &[u8]) -> Option<u64>
        ensures { result ≡ found_in self.now name.now }
    {
        let number = self.numbers.number(&self.row, name)?;
        let standing = self.row.get(number)?;
        standing.address
    }

    // Adds the next symbol of the row, which has this name and address, unless it defines a name
    // that has an address. Answers whether it did.
    fn enter(&mut self, name: &'m [u8], address: Option<u64>) -> Result<bool, AllocError>
        requires { slice_get (global_symbols self.old.row.places.now) self.old.row.count
            ≡ Some (record { name = name.now; address = address }) }
        ensures value { IfOk result (λ added. added
            ≡ not (is_some address && is_some (found_in self.old name.entry.now))) }
        ensures found { IfOk result (λ added. added ≡ true →
            (other : List ℕ) → found_in self.new other
            ≡ option_or (found_in self.old other)
            (if bytes_eq name.entry.now other then address else None)) }
        ensures count { IfOk result (λ added. added ≡ true →
            self.new.row.count ≡ self.old.row.count + 1) }
        ensures places { self.new.row.places.now ≡ self.old.row.places.now }
    {
        let Some(count) = self.row.count.checked_add(1) else {
            return Err(AllocError);
        };
        match address {
            Some(_) => {
                if !self.numbers.add(&self.row, name, self.row.count)? {
                    return Ok(false);
                }
                self.row.count = count;
                Ok(true)
            }
            None => {
                self.row.count = count;
                Ok(true)
            }
        }
    }

    // Gives the names that the next module defines their addresses. The names of its symbols differ,
    // so what is defined before is so by another module.
    fn define_all(&mut self, located: &Located<'m>) -> Result<(), LinkFault>
        requires { take (length located.now.parts.symbols)
            (drop self.old.row.count (global_symbols self.old.row.places.now))
            ≡ global_symbols_in located.now }
        ensures found { OnOk result ((name : List ℕ) →
            found_in self.new name
            ≡ option_or (found_in self.old name) (address_in name located.now)) }
        ensures single { OnOk result (again_in (found_in self.old) located.now ≡ None) }
        ensures refused { IfErr result (λ fault. fault ≢ faults.NoMemory →
            option_map (faults.Duplicate located.now.number)
            (again_in (found_in self.old) located.now) ≡ Some fault) }
        ensures count { OnOk result (self.new.row.count
            ≡ self.old.row.count + length located.now.parts.symbols) }
        ensures places { self.new.row.places.now ≡ self.old.row.places.now }
    {
        let module = located.module;
        let symbols = &module.symbols;
        for number in 0..symbols.len() {
            let symbol = symbols.at(number);
            if !self.enter(symbol.name, located.address(&symbol))? {
                return Err(LinkFault::Duplicate(located.number, number as u32));
            }
        }
        Ok(())
    }

    // The address of a symbol: that at which the module defines it, or that of its name.
    fn address_of(&self, located: &Located<'_>, symbol: &Symbol<'_>) -> Option<u64>
        ensures { result ≡ address_by_own (found_in self.now) located.now (named symbol.now) }
    {
        match located.address(symbol) {
            Some(address) => Some(address),
            None => self.address(symbol.name),
        }
    }

    /// The least symbol of a module whose name has no address.
    pub(crate) fn first_unresolved(&self, located: &Located<'m>) -> Option<u32>
        requires { Knows (found_in self.now) located.now }
        ensures { result ≡ position (λ s. is_none (found_in self.now s.name))
            located.now.parts.symbols }
    {
        let module = located.module;
        let symbols = &module.symbols;
        for number in 0..symbols.len() {
            if self.address_of(located, &symbols.at(number)).is_none() {
                return Some(number as u32);
            }
        }
        None
    }

    // The addresses of a module's symbols. One that has none counts as want of memory: such symbols are told before.
    fn addresses_of(&self, alloc: Global, located: &Located<'m>) -> Result<Vec<u64>, AllocError>
        ensures { IfOk result (λ all. map Some all.items
            ≡ map (address_by_own (found_in self.now) located.now) located.now.parts.symbols) }
    {
        let module = located.module;
        let symbols = &module.symbols;
        let mut all = Vec::with_capacity(alloc, symbols.len())?;
        for number in 0..symbols.len() {
            let Some(address) = self.address_of(located, &symbols.at(number)) else {
                return Err(AllocError);
            };
            all.push(address)?;
        }
        Ok(all)
    }

    /// The addresses of a module's symbols. They take memory only where the module doesn't define all of them.
    pub(crate) fn addresses<'q>(
        &self,
        alloc: Global,
        located: &'q Located<'m>,
    ) -> Result<Addresses<'q, 'm>, AllocError>
        requires { Knows (found_in self.now) located.now }
        ensures value { IfOk result (λ all. all
            ≡ map (λ s. found_in self.now s.name) located.entry.now.parts.symbols) }
        ensures memory { OnErr result
            (list_all (λ s. is_defined s.section) located.entry.now.parts.symbols ≡ false) }
    {
        let module = located.module;
        if defines_all(&module.symbols) {
            return Ok(Addresses::of_module(located));
        }
        let listed = self.addresses_of(alloc, located)?;
        Ok(Addresses::new(located, listed))
    }
}

// Whether all symbols are defined.
fn defines_all(symbols: &SymbolList<'_>) -> bool
    ensures { result ≡ list_all (λ s. is_defined s.section) symbols.now }
{
    for number in 0..symbols.len() {
        if !symbols.at(number).section.is_defined() {
            return false;
        }
    }
    true
}
