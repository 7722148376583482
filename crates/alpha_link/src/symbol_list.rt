//! The symbols of a module, in order.

ghost use Rattle.std.specs.Prelude.{◌≡◌, ◌<◌, ◌-◌, ◌++◌, ◌∷◌, [], length, map, take, drop, slice_get, Some, OnOk, IfOk};
ghost use Rattle.std.specs.Option.{option_map};
ghost use Rattle.alpha_link.specs.Symbols.{named};
ghost use Rattle.alpha_link.specs.Listed.{symbol_from, read_in};

use crate::number::halfword_at;
use crate::symbol::{Symbol, SymbolSection};
use alpha_image::longword_at;
use std::alloc::{AllocError, Global};
use std::marker::Model;

/// How many bytes of a symbol stand before its name.
pub(crate) const FRONT_BYTES: usize = 7;

/// Symbols that stand in bytes.
#[derive(Debug, Drop)]
pub(crate) struct ReadSymbols<'a> {
    /// The bytes.
    pub bytes: &'a [u8],
    /// Where each symbol begins.
    pub begins: Vec<u32>,
}

// What has the symbols.
#[derive(Debug, Drop)]
enum Origin<'a> {
    // They were made of a source.
    Made(Vec<Symbol<'a>>),
    // They stand in the bytes that a module was read from.
    Read(ReadSymbols<'a>),
}

/// The symbols of a module, whose names rise. A clause sees them as a list. One that was read takes four bytes beside
/// those that it was read from.
#[derive(Debug, Drop)]
pub struct SymbolList<'a> {
    origin: Origin<'a>,
}

impl<'a> Model for SymbolList<'a> {
    ghost use Rattle.std.specs.Prelude.{List};
    ghost use Rattle.alpha_link.specs.Symbols.{Named};

    ghost Value = { List Named };

    ghost use Rattle.alpha_link.specs.Listed.{symbols_in};

    ghost view = { symbols_in };
}

// So many bytes at the front, or all where there are fewer.
#[inline(always)]
fn bytes_up_to(bytes: &[u8], count: usize) -> &[u8]
    ensures { result.now ≡ take count bytes.now }
{
    let (front, _) = bytes.split_at(count.min(bytes.len()));
    front
}

// The bytes behind so many.
#[inline(always)]
fn bytes_from(bytes: &[u8], count: usize) -> &[u8]
    ensures { result.now ≡ drop count bytes.now }
{
    let (_, behind) = bytes.split_at(count.min(bytes.len()));
    behind
}

// The symbol that bytes begin with. Those of a module that was read are never too few.
#[tactic(auto, unfolding(crate::specs::Listed::symbol_from))]
fn symbol_from(bytes: &[u8]) -> Symbol<'_>
    ensures { named result ≡ symbol_from bytes.now }
{
    if bytes.len() < FRONT_BYTES {
        return Symbol {
            section: SymbolSection::Undefined,
            offset: 0,
            name: &[],
        };
    }
    let size = halfword_at(bytes, 1);
    Symbol {
        section: SymbolSection::of(bytes[0]).unwrap_or(SymbolSection::Undefined),
        offset: longword_at(bytes, 3),
        name: bytes_up_to(bytes_from(bytes, FRONT_BYTES), usize::from(size)),
    }
}

// One of the symbols of a source.
fn source_symbol_at<'a>(symbols: &[Symbol<'a>], number: usize) -> Symbol<'a>
    requires { number < length (map named symbols.now) }
    ensures { slice_get (map named symbols.now) number ≡ Some (named result) }
{
    symbols[number]
}

impl<'a> ReadSymbols<'a> {
    /// No symbols yet, with room for so many.
    pub(crate) fn empty(
        alloc: Global,
        bytes: &'a [u8],
        count: usize,
    ) -> Result<ReadSymbols<'a>, AllocError>
        ensures none { IfOk result (λ symbols. read_in symbols ≡ []) }
        ensures bytes { IfOk result (λ symbols. symbols.bytes.now ≡ bytes.entry.now) }
    {
        Ok(ReadSymbols {
            bytes,
            begins: Vec::with_capacity(alloc, count)?,
        })
    }

    /// How many.
    pub(crate) fn len(&self) -> usize
        ensures { result ≡ length (read_in self.now) }
    {
        self.begins.len()
    }

    /// The symbol with a number.
    pub(crate) fn at(&self, number: usize) -> Symbol<'a>
        requires { number < length (read_in self.now) }
        ensures { slice_get (read_in self.now) number ≡ Some (named result) }
    {
        symbol_from(bytes_from(self.bytes, self.begins[number] as usize))
    }

    /// The last one.
    pub(crate) fn last(&self) -> Option<Symbol<'a>>
        ensures { option_map named result
            ≡ slice_get (read_in self.now) (length (read_in self.now) - 1) }
    {
        let count = self.len();
        if count == 0 {
            return None;
        }
        Some(self.at(count - 1))
    }

    /// Adds the symbol that begins at a place.
    pub(crate) fn push(&mut self, begin: usize) -> Result<(), AllocError>
        ensures ok { OnOk result (read_in self.new
            ≡ read_in self.old ++ symbol_from (drop begin self.old.bytes.now) ∷ []) }
        ensures bytes { self.new.bytes.now ≡ self.old.bytes.now }
    {
        let Ok(begin) = u32::try_from(begin) else {
            return Err(AllocError);
        };
        self.begins.push(begin)?;
        Ok(())
    }
}

impl<'a> SymbolList<'a> {
    /// Symbols that were made of a source.
    pub(crate) fn of_source(symbols: Vec<Symbol<'a>>) -> SymbolList<'a>
        ensures { result ≡ map named symbols.entry.items }
    {
        SymbolList {
            origin: Origin::Made(symbols),
        }
    }

    /// Symbols that stand in bytes.
    pub(crate) fn read(symbols: ReadSymbols<'a>) -> SymbolList<'a>
        ensures { result ≡ read_in symbols.entry }
    {
        SymbolList {
            origin: Origin::Read(symbols),
        }
    }

    /// How many.
    pub fn len(&self) -> usize
        ensures { result ≡ length self.now }
    {
        match &self.origin {
            Origin::Made(symbols) => symbols.len(),
            Origin::Read(symbols) => symbols.len(),
        }
    }

    /// The symbol with a number, from 0, that is below how many there are.
    pub(crate) fn at(&self, number: usize) -> Symbol<'a>
        requires { number < length self.now }
        ensures { slice_get self.now number ≡ Some (named result) }
    {
        match &self.origin {
            Origin::Made(symbols) => source_symbol_at(symbols, number),
            Origin::Read(symbols) => symbols.at(number),
        }
    }

    /// The symbol with a number, from 0.
    pub fn get(&self, number: usize) -> Option<Symbol<'a>>
        ensures { option_map named result ≡ slice_get self.now number }
    {
        if number < self.len() {
            Some(self.at(number))
        } else {
            None
        }
    }
}
