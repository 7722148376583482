//! The relocations of a module, read and written.

ghost use Rattle.std.specs.Prelude.{◌≡◌, ◌≢◌, ◌≤◌, ◌<◌, ◌^◌, ◌++◌, ◌==◌, [], length, map, Some, slice_get, OnOk, IfErr};
ghost use Rattle.std.specs.List.{flat_map, list_all};
ghost use Rattle.std.specs.Option.{option_and_then};
ghost use Rattle.alpha_table.specs.Decoded.{decoded};
ghost use Rattle.alpha_table.specs.Encoded.{encoded};
ghost use Rattle.alpha_asm.specs.Unlinked.{is_undisplaced};
ghost use Rattle.alpha_link.specs.declared.fault.ModuleFault.TheVariants as faults;
ghost use Rattle.alpha_link.specs.Reading.{Gives, items_at};
ghost use Rattle.alpha_link.specs.Relocations.{is_taken_at, is_quad_at, stands_at, follows, follows_all};
ghost use Rattle.alpha_link.specs.Relocations.{relocation_fits, relocation_in, relocation_at, relocation_bytes, body};

use crate::ModuleFault;
use crate::header::Sizes;
use crate::relocation::{Relocation, kind_number, kind_of};
use alpha_asm::{RelocField, RelocationKind};
use alpha_image::{longword_at, push_longword};
use alpha_table::{Form, Insn};
use std::alloc::{AllocError, Global};

/// How many bytes a relocation has.
pub(crate) const RELOCATION_BYTES: usize = 13;

const QUAD_BYTES: usize = 8;

// Whether an instruction has a displacement, and it is 0.
fn is_undisplaced(insn: &Insn) -> bool
    ensures { result ≡ is_undisplaced insn.now }
{
    match insn.form() {
        Form::Branch { disp, .. } => disp == 0,
        Form::Mem { disp, .. } => disp == 0,
        _ => false,
    }
}

// The instruction of the word at a place, if there is one.
fn insn_at(insns: &[Insn], place: usize) -> Option<Insn>
    requires { map decoded (map encoded insns.now) ≡ map Some insns.now }
    ensures { result ≡ option_and_then decoded (slice_get (map encoded insns.now) place) }
{
    insns.get(place).copied()
}

// Whether the code has an instruction at an offset that an address is put into.
fn is_taken_at(insns: &[Insn], field: RelocField, offset: u32) -> bool
    requires { map decoded (map encoded insns.now) ≡ map Some insns.now }
    ensures { result ≡ is_taken_at (map encoded insns.now) field offset }
{
    if offset % 4 != 0 {
        return false;
    }
    match insn_at(insns, (offset / 4) as usize) {
        Some(insn) => field.applies_to(&insn) && is_undisplaced(&insn),
        None => false,
    }
}

fn are_zero(bytes: &[u8]) -> bool
    ensures { result ≡ list_all (λ b. b == 0) bytes.now }
{
    bytes.iter().all(|b| *b == 0)
}

// Whether eight zero bytes stand at an offset.
fn is_quad_at(filled: &[u8], offset: u32) -> bool
    ensures { result ≡ is_quad_at filled.now offset }
{
    let offset = offset as usize;
    if filled.len() < QUAD_BYTES || offset > filled.len() - QUAD_BYTES {
        return false;
    }
    let (_, behind) = filled.split_at(offset);
    let (quad, _) = behind.split_at(QUAD_BYTES);
    are_zero(quad)
}

// Whether what a relocation puts in has its place there.
fn stands_at(insns: &[Insn], filled: &[u8], kind: RelocationKind, offset: u32) -> bool
    requires { map decoded (map encoded insns.now) ≡ map Some insns.now }
    ensures { result ≡ stands_at (body (map encoded insns.now) filled.now) kind offset }
{
    match kind {
        RelocationKind::Quad => is_quad_at(filled, offset),
        RelocationKind::Insn(by) => is_taken_at(insns, by, offset),
    }
}

// Whether a relocation stands behind another one.
fn follows(last: &Relocation, kind: RelocationKind, offset: u32) -> bool
    ensures { result ≡ follows last.now.kind last.now.offset kind offset }
{
    match last.kind {
        RelocationKind::Quad => {
            kind == RelocationKind::Quad
                && u64::from(last.offset) + QUAD_BYTES as u64 <= u64::from(offset)
        }
        RelocationKind::Insn(_) => kind == RelocationKind::Quad || last.offset < offset,
    }
}

// Whether a relocation stands behind those before it.
fn follows_all(before: &[Relocation], relocation: &Relocation) -> bool
    ensures { result ≡ follows_all before.now relocation.now }
{
    match before.last() {
        Some(last) => follows(last, relocation.kind, relocation.offset),
        None => true,
    }
}

/// Whether a relocation is good behind those before it.
#[tactic(auto, unfolding(crate::specs::Relocations::relocation_fits))]
pub(crate) fn relocation_fits(
    sizes: &Sizes,
    insns: &[Insn],
    filled: &[u8],
    before: &[Relocation],
    relocation: &Relocation,
) -> bool
    requires { map decoded (map encoded insns.now) ≡ map Some insns.now }
    ensures { result ≡ relocation_fits sizes.now (body (map encoded insns.now) filled.now)
        before.now relocation.now }
{
    relocation.symbol < sizes.symbols
        && relocation.addend > i32::MIN
        && stands_at(insns, filled, relocation.kind, relocation.offset)
        && follows_all(before, relocation)
}

// The relocation that bytes begin with, if they have a kind.
fn relocation_in(bytes: &[u8]) -> Option<Relocation>
    requires { 13 ≤ length bytes.now }
    ensures { result ≡ relocation_in bytes.now }
{
    let kind = kind_of(bytes[0])?;
    Some(Relocation {
        kind,
        offset: longword_at(bytes, 1),
        symbol: longword_at(bytes, 5),
        addend: longword_at(bytes, 9).cast_signed(),
    })
}

// The relocation that stands behind so many others, and the bytes behind it.
#[tactic(auto, unfolding(crate::specs::Relocations::relocation_at))]
fn relocation_at<'a>(
    total: u64,
    sizes: &Sizes,
    insns: &[Insn],
    filled: &[u8],
    before: &[Relocation],
    bytes: &'a [u8],
) -> Result<(Relocation, &'a [u8]), ModuleFault>
    requires known { map decoded (map encoded insns.now) ≡ map Some insns.now }
    requires number { length before.now < 2 ^ 32 }
    ensures value { Gives (λ x. (x.0, x.1.now)) result
        (relocation_at total sizes.now (body (map encoded insns.now) filled.now) before.now
        bytes.now) }
    ensures memory { IfErr result (λ fault. fault ≢ faults.NoMemory) }
{
    if bytes.len() < RELOCATION_BYTES {
        return Err(ModuleFault::Cut(total));
    }
    let bad = ModuleFault::Relocation(before.len() as u32);
    let Some(relocation) = relocation_in(bytes) else {
        return Err(bad);
    };
    if !relocation_fits(sizes, insns, filled, before, &relocation) {
        return Err(bad);
    }
    let (_, rest) = bytes.split_at(RELOCATION_BYTES);
    Ok((relocation, rest))
}

/// So many relocations, and the bytes behind them.
pub(crate) fn read_relocations<'a>(
    alloc: Global,
    total: u64,
    sizes: &Sizes,
    insns: &[Insn],
    filled: &[u8],
    bytes: &'a [u8],
) -> Result<(Vec<Relocation>, &'a [u8]), ModuleFault>
    requires { map decoded (map encoded insns.now) ≡ map Some insns.now }
    ensures { Gives (λ x. (x.0.items, x.1.now)) result
        (items_at (relocation_at total sizes.now (body (map encoded insns.now) filled.now))
        sizes.now.relocations [] bytes.now) }
{
    // No more than the bytes can have, whatever the header says.
    let most = bytes.len() / RELOCATION_BYTES;
    let mut relocations = Vec::with_capacity(alloc, most.min(sizes.relocations as usize))?;
    let mut rest = bytes;
    for _number in 0..sizes.relocations {
        let (relocation, behind) = relocation_at(total, sizes, insns, filled, &relocations, rest)?;
        relocations.push(relocation)?;
        rest = behind;
    }
    Ok((relocations, rest))
}

// Appends the bytes of a relocation.
#[tactic(auto, unfolding(crate::specs::Relocations::relocation_bytes))]
fn push_relocation(out: &mut Vec<u8>, relocation: &Relocation) -> Result<(), AllocError>
    ensures ok { OnOk result (out.new.items ≡ out.old.items ++ relocation_bytes relocation.now) }
{
    out.push(kind_number(relocation.kind))?;
    push_longword(out, relocation.offset)?;
    push_longword(out, relocation.symbol)?;
    push_longword(out, relocation.addend.cast_unsigned())
}

/// Appends the bytes of the relocations.
pub(crate) fn push_relocations(
    out: &mut Vec<u8>,
    relocations: &[Relocation],
) -> Result<(), AllocError>
    ensures ok { OnOk result
        (out.new.items ≡ out.old.items ++ flat_map relocation_bytes relocations.now) }
{
    for relocation in relocations {
        push_relocation(out, relocation)?;
    }
    Ok(())
}
