//! Modules that are made of sources.

ghost use Rattle.std.specs.Prelude.{◌≡◌, ◌≢◌, ◌+◌, ◌<◌, ◌≤◌, ◌^◌, length, Ok, Err, All, IfOk, IfErr, IfNone};
ghost use Rattle.alpha_words.specs.declared.Level.TheVariants.{One};
ghost use Rattle.alpha_image.specs.Insns.{IsCodeInsn};
ghost use Rattle.alpha_asm.specs.Unlinked.{IsUnlinkedOf};
ghost use Rattle.alpha_asm.specs.declared.fault.AsmFault.TheVariants as faults;
ghost use Rattle.alpha_link.specs.Made.{bad_field, module_within_limits, module_of, made_module};
ghost use Rattle.alpha_link.specs.Unlinked.{IsOfLines};

use crate::header::{MOST_DATA, MOST_WORDS};
use crate::keyed::by_keys;
use crate::module::Module;
use crate::source_relocations::{Numbered, put_ranks};
use crate::source_symbols::Ranked;
use crate::symbol_list::SymbolList;
use alpha_asm::{AsmFault, Unlinked};
use alpha_words::NoMemory;
use std::alloc::Global;

// The least field of an image that such sizes make bad.
fn bad_field(words: usize, filled: usize, zeroed: u64) -> Option<u8>
    ensures value { result ≡ bad_field words filled zeroed }
    ensures words { IfNone result (words ≤ 262144) }
    ensures data { IfNone result (filled + zeroed ≤ 16777216) }
{
    if words > MOST_WORDS as usize {
        return Some(3);
    }
    if filled > MOST_DATA as usize {
        return Some(4);
    }
    if zeroed > u64::from(MOST_DATA) - filled as u64 {
        return Some(5);
    }
    None
}

// The module of what was read.
fn module_of<'a>(alloc: Global, unlinked: Unlinked<'a>) -> Result<Module<'a>, NoMemory>
    requires words { length unlinked.code.items ≤ 262144 }
    requires filled { unlinked.filled ≤ 16777216 }
    requires data { length unlinked.bytes.items + unlinked.zeroed ≤ 16777216 }
    requires lines { IsOfLines unlinked }
    requires level { All (IsCodeInsn One) unlinked.code.items }
    ensures value { IfOk result (λ m. (is : _) → IsUnlinkedOf is unlinked.entry → module_of is ≡ m) }
{
    let labels = unlinked.labels;
    let patches = unlinked.patches;
    let Numbered {
        names,
        mut relocations,
        room,
    } = Numbered::build(alloc, &labels, patches)?;
    let sorted = by_keys(alloc, names, room)?;
    let Ranked { symbols, ranks } = Ranked::build(alloc, &labels, &sorted)?;
    // A module's counts have 32 bits. No clause says that a source of fewer than 2^32 bytes makes no more, so more
    // count as want of memory.
    if symbols.len() > 0xffff_ffff || relocations.len() > 0xffff_ffff {
        return Err(NoMemory);
    }
    put_ranks(&mut relocations, &ranks);
    Ok(Module {
        insns: unlinked.code,
        bytes: unlinked.bytes,
        zeroed: unlinked.zeroed as u32,
        symbols: SymbolList::of_source(symbols),
        relocations,
    })
}

// The module of what was read, unless its sizes are too great.
fn module_within_limits<'a>(alloc: Global, unlinked: Unlinked<'a>) -> Result<Module<'a>, AsmFault>
    requires few { length unlinked.bytes.items ≤ unlinked.filled }
    requires lines { IsOfLines unlinked }
    requires level { All (IsCodeInsn One) unlinked.code.items }
    ensures ok { IfOk result (λ m. (is : _) → IsUnlinkedOf is unlinked.entry → module_within_limits (module_of is)
        ≡ Ok m) }
    ensures refused { IfErr result (λ fault. fault ≢ faults.NoMemory →
        (is : _) → IsUnlinkedOf is unlinked.entry → module_within_limits (module_of is) ≡ Err fault) }
{
    let bad = bad_field(unlinked.code.len(), unlinked.filled, unlinked.zeroed);
    if let Some(field) = bad {
        return Err(AsmFault::ImageField(field));
    }
    module_of(alloc, unlinked).map_err(|_| AsmFault::NoMemory)
}

/// The module that a source makes: each label is a symbol, and each address that a statement names a
/// relocation. A label that is named and not defined is an undefined symbol.
///
/// # Errors
///
/// The least line with `LongLine`, `Line`, `Section` or `Duplicate`, at one line in this order; then
/// `ImageField` 3, 4 or 5, where there are more than 262,144 code words, more than 16,777,216 data bytes,
/// or more than that of data and zeroed bytes together. `NoMemory` may come in place of any answer.
#[tactic(auto, unfolding(crate::specs::Made::made_module))]
pub fn make_module<'a>(alloc: Global, source: &'a [u8]) -> Result<Module<'a>, AsmFault>
    requires { length source.now < 2 ^ 32 }
    ensures ok { IfOk result (λ m. made_module source.now ≡ Ok m) }
    ensures refused { IfErr result (λ fault. fault ≢ faults.NoMemory → made_module source.now
        ≡ Err fault) }
{
    module_within_limits(alloc, Unlinked::of(alloc, source)?)
}
