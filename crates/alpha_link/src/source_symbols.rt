//! The symbols of a module that is made of a source, and the ranks of its labels.

ghost use Rattle.std.specs.Prelude.{◌≡◌, ℕ, List, All, map, length, slice_get, Some, not, true, IfOk, IfSome, IfNone};
ghost use Rattle.std.specs.List.{dedup};
ghost use Rattle.std.specs.Str.{bytes_eq};
ghost use Rattle.alpha_asm.specs.Labels.{location_named};
ghost use Rattle.alpha_link.specs.Symbols.{named};
ghost use Rattle.alpha_link.specs.Made.{symbol_at_location};
ghost use Rattle.alpha_link.specs.NameKeys.{IsKeyed};
ghost use Rattle.alpha_link.specs.Numbered.{texts, IsNumbered, HasRank};
ghost use Rattle.alpha_link.specs.Unlinked.{IsNear};

use crate::keyed::KeyedName;
use crate::labels::to_u32;
use crate::symbol::{Symbol, SymbolSection};
use alpha_asm::{LabelLocation, Labels};
use alpha_words::NoMemory;
use std::alloc::Global;

// The section of a label that is defined there, or nowhere, and how many bytes of the section stand
// before it.
fn section_and_offset(location: Option<LabelLocation>) -> (SymbolSection, u32)
    requires { IfSome location IsNear }
    ensures { (name : List ℕ) →
        symbol_at_location name location ≡ record { section = result.0; offset = result.1; name = name } }
{
    match location {
        None => (SymbolSection::Undefined, 0),
        Some(LabelLocation::Code(words)) => (SymbolSection::Code, 4 * words),
        Some(LabelLocation::Data(_, offset)) => (SymbolSection::Data, offset as u32),
    }
}

// The symbol of a label that is defined there, or nowhere.
fn symbol_at_location<'a>(name: &'a [u8], location: Option<LabelLocation>) -> Symbol<'a>
    requires { IfSome location IsNear }
    ensures { named result ≡ symbol_at_location name.entry.now location }
{
    let (section, offset) = section_and_offset(location);
    Symbol {
        section,
        offset,
        name,
    }
}

// The symbol of a label, whose definition is found by its number.
fn symbol_of<'a>(labels: &Labels<'a>, keyed: &KeyedName<'a>) -> Symbol<'a>
    requires in_range { (name : List ℕ) → IfSome (location_named labels.now name) IsNear }
    requires number { (names : List (List ℕ)) × IsNumbered labels.now names
        × (slice_get names keyed.now.number ≡ Some keyed.now.name.now) }
    ensures { named result
        ≡ symbol_at_location keyed.now.name.now (location_named labels.now keyed.now.name.now) }
{
    symbol_at_location(keyed.name, labels.location_of_number(keyed.number as usize))
}

// Whether a name is the one before it. Names with different keys are told apart by these.
fn is_repeated(before: &KeyedName<'_>, keyed: &KeyedName<'_>) -> bool
    requires { (front : List ℕ) × IsKeyed front before.now.key before.now.name.now
        × IsKeyed front keyed.now.key keyed.now.name.now }
    ensures { result ≡ bytes_eq keyed.now.name.now before.now.name.now }
{
    keyed.key == before.key && keyed.name == before.name
}

// Whether a name isn't the one before it.
fn is_new(before: Option<&KeyedName<'_>>, keyed: &KeyedName<'_>) -> bool
    requires { (front : List ℕ) × IfSome before (λ b. IsKeyed front b.now.key b.now.name.now)
        × IsKeyed front keyed.now.key keyed.now.name.now }
    ensures none { IfNone before.entry (result ≡ true) }
    ensures some { IfSome before.entry (λ b. result
        ≡ not (bytes_eq keyed.now.name.now b.now.name.now)) }
{
    match before {
        Some(before) => !is_repeated(before, keyed),
        None => true,
    }
}

/// Symbols in the order of their names, and the ranks of labels: how many symbols stand before that of a label.
#[derive(Drop)]
pub(crate) struct Ranked<'a> {
    /// The symbols.
    pub symbols: Vec<Symbol<'a>>,
    /// The rank of the label with each number.
    pub ranks: Vec<u32>,
}

impl<'a> Ranked<'a> {
    /// Of names in order, in which equal ones stand together.
    pub(crate) fn build(
        alloc: Global,
        labels: &Labels<'a>,
        keyed: &[KeyedName<'a>],
    ) -> Result<Ranked<'a>, NoMemory>
        requires in_range { (name : List ℕ) → IfSome (location_named labels.now name) IsNear }
        requires keys { (front : List ℕ) × All (λ k. IsKeyed front k.key k.name.now) keyed.now }
        requires numbers { (names : List (List ℕ)) × IsNumbered labels.now names
            × (length names ≡ length keyed.now)
            × All (λ k. slice_get names k.number ≡ Some k.name.now) keyed.now }
        ensures symbols { let names = dedup (λ a b. bytes_eq a.now b.now)
            (map (λ k. k.name) keyed.now) in
            IfOk result (λ ranked. map named ranked.symbols.items
            ≡ map (λ n. symbol_at_location n.now (location_named labels.now n.now)) names) }
        ensures ranks { let names = dedup (λ a b. bytes_eq a.now b.now)
            (map (λ k. k.name) keyed.now) in
            IfOk result (λ ranked. All (HasRank ranked.ranks.items (texts names)) keyed.now) }
    {
        let mut symbols = Vec::with_capacity(alloc, keyed.len())?;
        let mut ranks = vec![in alloc; 0u32; keyed.len()]?;
        let mut last: Option<&KeyedName<'a>> = None;
        let mut rank = 0;
        for keyed_name in keyed {
            if is_new(last, keyed_name) {
                rank = to_u32(symbols.len())?;
                symbols.push(symbol_of(labels, keyed_name))?;
                last = Some(keyed_name);
            }
            ranks[keyed_name.number as usize] = rank;
        }
        Ok(Ranked { symbols, ranks })
    }
}
