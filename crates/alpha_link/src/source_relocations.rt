//! The relocations of a module that is made of a source.

ghost use Rattle.std.specs.Prelude.{◌≡◌, ◌<◌, ◌≤◌, ◌^◌, ◌||◌, ◌&&◌, ◌++◌, ℕ, List, [], All, map, length, is_some};
ghost use Rattle.std.specs.Prelude.{is_none, IfOk, OnOk, OnErr, IfSome, IfNone};
ghost use Rattle.std.specs.List.{cons_option, list_any};
ghost use Rattle.std.specs.Str.{bytes_eq};
ghost use Rattle.alpha_asm.specs.Labels.{location_named, are_among};
ghost use Rattle.alpha_asm.specs.Patches.{fix_of, target_of};
ghost use Rattle.alpha_asm.specs.declared.place.Section.TheVariants as sides;
ghost use Rattle.alpha_link.specs.Made.{kind_in, offset_in, relocation_with};
ghost use Rattle.alpha_link.specs.Numbered.{texts, IsNumbered, ByNumbers, IsTooGreat, relocation_at, relocations_at};
ghost use Rattle.alpha_link.specs.Numbered.{ranked};

use crate::keyed::KeyedName;
use crate::labels::numbers_of;
use crate::relocation::Relocation;
use alpha_asm::{Labels, Patch, RelocationKind, Section, Target};
use alpha_words::NoMemory;
use std::alloc::Global;

// What a link puts in for an address that is needed in the code, or in the data.
fn kind_in(side: Section, target: Target) -> Option<RelocationKind>
    ensures { (at : ℕ) → result ≡ kind_in side (target_of at target) }
{
    match (side, target) {
        (Section::Code, Target::Put(RelocationKind::Insn(by))) => Some(RelocationKind::Insn(by)),
        (Section::Data, Target::Put(RelocationKind::Quad)) => Some(RelocationKind::Quad),
        _ => None,
    }
}

// How many bytes of its section stand before what needs an address, `None` from 2^32 on.
fn offset_of(patch: &Patch<'_>) -> Option<u32>
    ensures value { IfSome result (λ n. n
        ≡ offset_in (fix_of patch.now).at (fix_of patch.now).name.target) }
    ensures none { IfNone result
        (2 ^ 32 ≤ offset_in (fix_of patch.now).at (fix_of patch.now).name.target) }
{
    match patch.target {
        Target::Put(RelocationKind::Insn(_)) => u32::try_from(patch.at).ok()?.checked_mul(4),
        Target::Put(RelocationKind::Quad) => u32::try_from(patch.at).ok(),
        Target::Entry => Some(0),
    }
}

// The relocation of a kind at a patch, by the number of its label. The numbers of a source are small,
// so there is one.
fn relocation_with(kind: RelocationKind, number: u32, patch: &Patch<'_>) -> Option<Relocation>
    ensures value { let fix = fix_of patch.now in
        IfSome result (λ r. relocation_with kind (offset_in fix.at fix.name.target)
        patch.now.to.offset number ≡ r) }
    ensures none { IfNone result (IsTooGreat (fix_of patch.now)) }
{
    let offset = offset_of(patch)?;
    let addend = i32::try_from(patch.to.offset).ok()?;
    Some(Relocation {
        kind,
        offset,
        symbol: number,
        addend,
    })
}

// The relocation of a patch that one of the two sections needs, if it does, by the number of its
// label. Too great a number counts as want of memory, of which it takes none.
fn relocation_at(
    side: Section,
    patch: &Patch<'_>,
    number: u32,
) -> Result<Option<Relocation>, NoMemory>
    ensures value { IfOk result (λ r. relocation_at side (fix_of patch.now) number ≡ r) }
    ensures refused { OnErr result (IsTooGreat (fix_of patch.now)) }
{
    match kind_in(side, patch.target) {
        Some(kind) => Ok(Some(relocation_with(kind, number, patch).ok_or(NoMemory)?)),
        None => Ok(None),
    }
}

// Appends the relocation of a patch that one of the two sections needs, if it does.
fn push_relocation_at(
    relocations: &mut Vec<Relocation>,
    side: Section,
    patch: &Patch<'_>,
    number: u32,
) -> Result<(), NoMemory>
    ensures { OnOk result (relocations.new.items ≡ relocations.old.items
        ++ cons_option (relocation_at side (fix_of patch.now) number) []) }
{
    match relocation_at(side, patch, number)? {
        Some(relocation) => Ok(relocations.push(relocation)?),
        None => Ok(()),
    }
}

// Appends the relocations of patches that one of the two sections needs.
fn push_relocations_at(
    relocations: &mut Vec<Relocation>,
    side: Section,
    patches: &[Patch<'_>],
    numbers: &[u32],
) -> Result<(), NoMemory>
    requires { length numbers.now ≡ length patches.now }
    ensures { OnOk result (relocations.new.items ≡ relocations.old.items
        ++ relocations_at side (map fix_of patches.now) numbers.now) }
{
    for (at, patch) in patches.iter().enumerate() {
        push_relocation_at(relocations, side, patch, numbers[at])?;
    }
    Ok(())
}

// The relocations of patches, which aren't needed any more: those of the code, and then those of the data.
fn relocations_of(
    alloc: Global,
    patches: Vec<Patch<'_>>,
    numbers: &[u32],
) -> Result<Vec<Relocation>, NoMemory>
    requires { length numbers.now ≡ length patches.items }
    ensures { IfOk result (λ relocations. relocations.items
        ≡ relocations_at sides.Code (map fix_of patches.entry.items) numbers.now
        ++ relocations_at sides.Data (map fix_of patches.entry.items) numbers.now) }
{
    let mut relocations = Vec::with_capacity(alloc, patches.len())?;
    push_relocations_at(&mut relocations, Section::Code, &patches, numbers)?;
    push_relocations_at(&mut relocations, Section::Data, &patches, numbers)?;
    Ok(relocations)
}

/// The labels that a source defines or names, by number, and the relocations that are made by these numbers.
#[derive(Drop)]
pub(crate) struct Numbered<'a> {
    /// The labels that it defines, and behind them those that it only names.
    pub names: Vec<&'a [u8]>,
    /// Its relocations. Each has the number of its label in place of that of a symbol.
    pub relocations: Vec<Relocation>,
    /// An empty list with room for the labels with their keys.
    pub room: Vec<KeyedName<'a>>,
}

impl<'a> Numbered<'a> {
    /// By the labels and the patches of a source, of which the latter aren't needed any more.
    pub(crate) fn build(
        alloc: Global,
        labels: &Labels<'a>,
        patches: Vec<Patch<'a>>,
    ) -> Result<Numbered<'a>, NoMemory>
        ensures names { IfOk result (λ made. IsNumbered labels.now (texts made.names.items)) }
        ensures among { IfOk result (λ made. (q : List ℕ) →
            are_among made.names.items q ≡ (is_some (location_named labels.now q)
            || list_any (λ p. is_none (location_named labels.now p.to.label.now)
            && bytes_eq q p.to.label.now) patches.entry.items)) }
        ensures relocations { IfOk result (λ made.
            ByNumbers (texts made.names.items) patches.entry.items made.relocations.items) }
        ensures room { IfOk result (λ made. made.room.items ≡ []) }
    {
        let mut names = labels.names(alloc)?;
        let numbers = numbers_of(&mut names, labels, &patches)?;
        // It is taken before the patches are freed: once glibc's allocator has freed a large block, it takes blocks
        // up to that size from its heap, where this one would leave a gap when it is freed.
        let room = Vec::with_capacity(alloc, names.len())?;
        let relocations = relocations_of(alloc, patches, &numbers)?;
        Ok(Numbered {
            names,
            relocations,
            room,
        })
    }
}

/// Puts the ranks of labels in place of their numbers.
pub(crate) fn put_ranks(relocations: &mut Vec<Relocation>, ranks: &[u32])
    requires { All (λ r. r.symbol < length ranks.now) relocations.old.items }
    ensures { relocations.new.items ≡ map (ranked ranks.now) relocations.old.items }
{
    for relocation in relocations.iter_mut() {
        relocation.symbol = ranks[relocation.symbol as usize];
    }
}
