//! The symbols of a module, read and written.

ghost use Rattle.std.specs.Prelude.{◌≡◌, ◌≢◌, ◌≤◌, ◌<◌, ◌^◌, ◌++◌, [], length, All, OnOk, IfErr};
ghost use Rattle.std.specs.List.{flat_map};
ghost use Rattle.alpha_link.specs.declared.fault.ModuleFault.TheVariants as faults;
ghost use Rattle.alpha_link.specs.Reading.{Gives, items_at};
ghost use Rattle.alpha_link.specs.Listed.{read_in};
ghost use Rattle.alpha_link.specs.Symbols.{named, offset_fits, comes_behind, symbol_fits, symbol_header_at, symbol_at};
ghost use Rattle.alpha_link.specs.Symbols.{symbol_bytes};

use crate::ModuleFault;
use crate::header::Sizes;
use crate::number::{halfword_at, push_halfword};
use crate::read::take_bytes;
use crate::symbol::{Symbol, SymbolHeader, SymbolSection};
use crate::symbol_list::{FRONT_BYTES, ReadSymbols, SymbolList};
use alpha_image::{longword_at, push_longword};
use alpha_token::is_label;
use std::alloc::{AllocError, Global};

/// The most bytes of a symbol's name.
const LONGEST_NAME: usize = 1024;

// What stands before a name, and the bytes behind it.
fn header_at(total: u64, bytes: &[u8]) -> Result<(SymbolHeader, &[u8]), ModuleFault>
    ensures value { Gives (λ x. (x.0, x.1.now)) result (symbol_header_at total bytes.now) }
    ensures memory { IfErr result (λ fault. fault ≢ faults.NoMemory) }
{
    if bytes.len() < FRONT_BYTES {
        return Err(ModuleFault::Cut(total));
    }
    let front = SymbolHeader {
        section: bytes[0],
        size: halfword_at(bytes, 1),
        offset: longword_at(bytes, 3),
    };
    let (_, behind) = bytes.split_at(FRONT_BYTES);
    Ok((front, behind))
}

// Whether an offset lies in its section, or at its end.
fn offset_fits(sizes: &Sizes, section: SymbolSection, offset: u32) -> bool
    requires { sizes.now.words ≤ 262144 }
    ensures { result ≡ offset_fits sizes.now section offset }
{
    match section {
        SymbolSection::Code => offset % 4 == 0 && offset <= 4 * sizes.words,
        SymbolSection::Data => u64::from(offset)
            <= u64::from(sizes.filled) + u64::from(sizes.zeroed),
        SymbolSection::Undefined => offset == 0,
    }
}

// Whether a name is above that of the last symbol before it.
fn comes_behind(before: &ReadSymbols<'_>, name: &[u8]) -> bool
    ensures { result ≡ comes_behind (read_in before.now) name.now }
{
    match before.last() {
        Some(last) => last.name.cmp(name).is_lt(),
        None => true,
    }
}

/// Whether a symbol is good behind those before it.
#[tactic(auto, unfolding(crate::specs::Symbols::symbol_fits))]
pub(crate) fn symbol_fits(
    sizes: &Sizes,
    before: &ReadSymbols<'_>,
    section: SymbolSection,
    offset: u32,
    name: &[u8],
) -> bool
    requires { sizes.now.words ≤ 262144 }
    ensures { result ≡ symbol_fits sizes.now (read_in before.now)
        (record { section = section; offset = offset; name = name.now }) }
{
    name.len() <= LONGEST_NAME
        && is_label(name)
        && offset_fits(sizes, section, offset)
        && comes_behind(before, name)
}

// The symbol that stands behind so many others, and the bytes behind it.
#[tactic(auto, unfolding(crate::specs::Symbols::symbol_at))]
fn symbol_at<'a>(
    total: u64,
    sizes: &Sizes,
    before: &ReadSymbols<'_>,
    bytes: &'a [u8],
) -> Result<(Symbol<'a>, &'a [u8]), ModuleFault>
    requires words { sizes.now.words ≤ 262144 }
    requires number { length (read_in before.now) < 2 ^ 32 }
    ensures value { Gives (λ x. (named x.0, x.1.now)) result
        (symbol_at total sizes.now (read_in before.now) bytes.now) }
    ensures memory { IfErr result (λ fault. fault ≢ faults.NoMemory) }
{
    let (front, behind) = header_at(total, bytes)?;
    let (name, rest) = take_bytes(total, usize::from(front.size), behind)?;
    let bad = ModuleFault::Symbol(before.len() as u32);
    let Some(section) = SymbolSection::of(front.section) else {
        return Err(bad);
    };
    if !symbol_fits(sizes, before, section, front.offset, name) {
        return Err(bad);
    }
    let symbol = Symbol {
        section,
        offset: front.offset,
        name,
    };
    Ok((symbol, rest))
}

/// So many symbols, and the bytes behind them.
pub(crate) fn read_symbols<'a>(
    alloc: Global,
    total: u64,
    sizes: &Sizes,
    bytes: &'a [u8],
) -> Result<(SymbolList<'a>, &'a [u8]), ModuleFault>
    requires { sizes.now.words ≤ 262144 }
    ensures { Gives (λ x. (x.0, x.1.now)) result
        (items_at (symbol_at total sizes.now) sizes.now.symbols [] bytes.now) }
{
    // No more than the bytes can have, whatever the header says.
    let most = bytes.len() / FRONT_BYTES;
    let mut symbols = ReadSymbols::empty(alloc, bytes, most.min(sizes.symbols as usize))?;
    let mut rest = bytes;
    for _number in 0..sizes.symbols {
        let (_, behind) = symbol_at(total, sizes, &symbols, rest)?;
        symbols.push(bytes.len().saturating_sub(rest.len()))?;
        rest = behind;
    }
    Ok((SymbolList::read(symbols), rest))
}

/// How many bytes the symbols have, or the last number of a usize.
pub(crate) fn size_of_symbols(symbols: &SymbolList<'_>) -> usize {
    let mut size = 0usize;
    for number in 0..symbols.len() {
        size = size
            .saturating_add(FRONT_BYTES)
            .saturating_add(symbols.at(number).name.len());
    }
    size
}

// Appends the bytes of a symbol.
#[tactic(auto, unfolding(crate::specs::Symbols::symbol_bytes))]
fn push_symbol(out: &mut Vec<u8>, symbol: &Symbol<'_>) -> Result<(), AllocError>
    requires { length symbol.now.name.now ≤ 1024 }
    ensures ok { OnOk result (out.new.items ≡ out.old.items ++ symbol_bytes (named symbol.now)) }
{
    out.push(symbol.section.number())?;
    push_halfword(out, symbol.name.len() as u16)?;
    push_longword(out, symbol.offset)?;
    out.extend_from_slice(symbol.name)
}

/// Appends the bytes of the symbols.
pub(crate) fn push_symbols(out: &mut Vec<u8>, symbols: &SymbolList<'_>) -> Result<(), AllocError>
    requires { All (λ s. length s.name ≤ 1024) symbols.now }
    ensures ok { OnOk result (out.new.items ≡ out.old.items ++ flat_map symbol_bytes symbols.now) }
{
    for number in 0..symbols.len() {
        push_symbol(out, &symbols.at(number))?;
    }
    Ok(())
}
