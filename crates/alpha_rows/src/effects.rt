//! What rows of each kind do.

ghost use Rattle.std.specs.Prelude.{◌≡◌, ◌+◌, ◌*◌, ◌%◌, ◌^◌, ◌<◌, true, false, IsTrue, List, IfSome, Some, length};
ghost use Rattle.std.specs.Int.{w16, w32};
ghost use Rattle.alpha_words.specs.Regs.{reg};
ghost use Rattle.alpha_table.specs.Rows.{mem_row};
ghost use Rattle.alpha_table.specs.declared.rows.MemRole.TheVariants.{Address, Load, Store};
ghost use Rattle.alpha_mem.specs.Block.{Block};
ghost use Rattle.alpha_mem.specs.Memory.{IsMemory};
ghost use Rattle.alpha_image.specs.Parts.{IsImage};
ghost use Rattle.alpha_values.specs.Numbers.{signed, register_of};
ghost use Rattle.alpha_seq.specs.Executed.{IsSized, row_access, filled};
ghost use Rattle.alpha_seq.specs.Step.{lda_value};
ghost use Rattle.alpha_rows.specs.Meaning.{meaning_of, value_in, idles, accesses, tests, branches, links, jumps};
ghost use Rattle.alpha_rows.specs.Rows.{IsRowAt, ExecutesRow};

use crate::regions::{load_in, store_in};
use crate::row::Row;
use alpha_image::Image;
use alpha_mem::Region;
use alpha_seq::{memory_access, size};
use alpha_table::{Cond, Extension, MemAccess, MemOp};
use alpha_values::{access_address, address, high_address, taken};
use alpha_words::{Level, RegFile};

// An operate instruction writes its value, and leaves where there is none.
#[inline(always)]
pub(crate) fn operate(
    value: Option<u64>,
    image: &Image,
    level: Level,
    row: &Row,
    regs: &mut RegFile,
    place: &mut u64,
) -> bool
    requires level { image.now.level ≡ level }
    requires value { IfSome value (λ v. Some v ≡ value_in level (meaning_of row.now.op) row.now regs.old) }
    requires row { IsRowAt image.now place.old row.now }
    ensures went { IsTrue result → (mem : List Block)
        → ExecutesRow image.now regs.old mem place.old regs.new mem place.new }
    ensures regs { result ≡ false → regs.new ≡ regs.old }
    ensures place { result ≡ false → place.new ≡ place.old }
{
    match value {
        Some(value) => {
            regs.set(row.c, value);
            advance(place);
            true
        }
        None => false,
    }
}

// A word that changes nothing.
#[inline(always)]
pub(crate) fn idle(image: &Image, row: &Row, regs: &RegFile, place: &mut u64) -> bool
    requires row { IsRowAt image.now place.old row.now }
    requires meaning { meaning_of row.now.op ≡ idles }
    ensures value { IsTrue result }
    ensures went { (mem : List Block) → ExecutesRow image.now regs.now mem place.old regs.now mem place.new }
{
    advance(place);
    true
}

// LDA and LDAH.
#[inline(always)]
pub(crate) fn load_address(
    op: MemOp,
    image: &Image,
    row: &Row,
    regs: &mut RegFile,
    place: &mut u64,
) -> bool
    requires row { IsRowAt image.now place.old row.now }
    requires meaning { meaning_of row.now.op ≡ accesses op }
    requires role { (mem_row op).role ≡ Address }
    ensures value { IsTrue result }
    ensures went { (mem : List Block) → ExecutesRow image.now regs.old mem place.old regs.new mem place.new }
{
    let value = lda_value(op, row, regs);
    regs.set(row.a, value);
    advance(place);
    true
}

// A load into R31 makes no access: where one would not fault it changes nothing either.
#[inline(always)]
pub(crate) fn load(
    op: MemOp,
    extension: Extension,
    image: &Image,
    row: &Row,
    regions: &[Region],
    region_hint: &mut usize,
    regs: &mut RegFile,
    place: &mut u64,
) -> bool
    requires row { IsRowAt image.now place.old row.now }
    requires meaning { meaning_of row.now.op ≡ accesses op }
    requires role { (mem_row op).role ≡ Load extension }
    requires size { IsSized (mem_row op).bytes }
    requires memory { IsMemory regions.now }
    requires region_hint { region_hint.old < length regions.now }
    ensures went { IsTrue result → ExecutesRow image.now
        regs.old regions.now place.old regs.new regions.now place.new }
    ensures region_hint { region_hint.new < length regions.now }
    ensures regs { result ≡ false → regs.new ≡ regs.old }
    ensures place { result ≡ false → place.new ≡ place.old }
{
    let at = access_in(op, row);
    let addr = access_address(&at, regs.get(row.b));
    match load_in(regions, region_hint, addr, size(op.row().bytes)) {
        Some(number) => {
            regs.set(row.a, extend(extension, number));
            advance(place);
            true
        }
        None => false,
    }
}

// A store.
#[inline(always)]
pub(crate) fn store(
    op: MemOp,
    image: &Image,
    row: &Row,
    regions: &mut [Region],
    region_hint: &mut usize,
    regs: &RegFile,
    place: &mut u64,
) -> bool
    requires row { IsRowAt image.now place.old row.now }
    requires meaning { meaning_of row.now.op ≡ accesses op }
    requires role { (mem_row op).role ≡ Store }
    requires size { IsSized (mem_row op).bytes }
    requires memory { IsMemory regions.old }
    requires region_hint { region_hint.old < length regions.old }
    ensures went { IsTrue result → ExecutesRow image.now
        regs.now regions.old place.old regs.now regions.new place.new }
    ensures memory { IsMemory regions.new }
    ensures region_hint { region_hint.new < length regions.new }
    ensures regions { result ≡ false → regions.new ≡ regions.old }
    ensures place { result ≡ false → place.new ≡ place.old }
{
    let at = access_in(op, row);
    let addr = access_address(&at, regs.get(row.b));
    if store_in(
        regions,
        region_hint,
        addr,
        size(op.row().bytes),
        regs.get(row.a),
    ) {
        advance(place);
        true
    } else {
        false
    }
}

// A branch with a condition.
#[inline(always)]
pub(crate) fn branch(
    condition: Cond,
    image: &Image,
    row: &Row,
    regs: &RegFile,
    place: &mut u64,
) -> bool
    requires good { IsImage image.now }
    requires row { IsRowAt image.now place.old row.now }
    requires meaning { meaning_of row.now.op ≡ tests condition }
    ensures value { IsTrue result }
    ensures went { (mem : List Block) → ExecutesRow image.now regs.now mem place.old regs.now mem place.new }
{
    if taken(condition, regs.get(row.a)) {
        *place = u64::from(row.imm);
        true
    } else {
        advance(place);
        true
    }
}

// A branch without a condition, whose register is R31.
#[inline(always)]
pub(crate) fn branch_always(image: &Image, row: &Row, regs: &RegFile, place: &mut u64) -> bool
    requires good { IsImage image.now }
    requires row { IsRowAt image.now place.old row.now }
    requires meaning { meaning_of row.now.op ≡ branches }
    ensures value { IsTrue result }
    ensures went { (mem : List Block) → ExecutesRow image.now regs.now mem place.old regs.now mem place.new }
{
    *place = u64::from(row.imm);
    true
}

// A branch without a condition, which leaves the next address.
#[inline(always)]
pub(crate) fn branch_with_link(
    image: &Image,
    row: &Row,
    regs: &mut RegFile,
    place: &mut u64,
) -> bool
    requires good { IsImage image.now }
    requires row { IsRowAt image.now place.old row.now }
    requires meaning { meaning_of row.now.op ≡ links }
    ensures value { IsTrue result }
    ensures went { (mem : List Block) → ExecutesRow image.now regs.old mem place.old regs.new mem place.new }
{
    advance(place);
    regs.set(row.a, address_of(image, *place));
    *place = u64::from(row.imm);
    true
}

// A jump to a place of the rows.
#[inline(always)]
pub(crate) fn jump(image: &Image, row: &Row, regs: &mut RegFile, place: &mut u64) -> bool
    requires good { IsImage image.now }
    requires row { IsRowAt image.now place.old row.now }
    requires meaning { meaning_of row.now.op ≡ jumps }
    ensures went { IsTrue result → (mem : List Block)
        → ExecutesRow image.now regs.old mem place.old regs.new mem place.new }
    ensures regs { result ≡ false → regs.new ≡ regs.old }
    ensures place { result ≡ false → place.new ≡ place.old }
{
    let target = regs.get(row.b) / 4 * 4;
    let to = target.wrapping_sub(image.code_base()) / 4;
    if to <= u64::from(image.words()) {
        advance(place);
        regs.set(row.a, address_of(image, *place));
        *place = to;
        true
    } else {
        false
    }
}

// What LDA and LDAH compute.
#[inline(always)]
fn lda_value(op: MemOp, row: &Row, regs: &RegFile) -> u64
    ensures { let base = reg regs.now row.now.b in result ≡ lda_value op base (signed w16 row.now.imm) }
{
    let base = regs.get(row.b);
    match op {
        MemOp::Ldah => high_address(base, displacement(row)),
        _ => address(base, displacement(row)),
    }
}

// The access of a memory row.
#[inline(always)]
fn access_in(op: MemOp, row: &Row) -> MemAccess
    ensures { result ≡ row_access op row.now.b (signed w16 row.now.imm) }
{
    memory_access(op, row.b, displacement(row))
}

// The displacement of a memory row.
#[inline(always)]
fn displacement(row: &Row) -> i16
    ensures { result ≡ signed w16 row.now.imm }
{
    ((row.imm & 0xffff) as u16).cast_signed()
}

// A number as a load fills its register with it.
#[inline(always)]
fn extend(extension: Extension, number: u64) -> u64
    ensures { result ≡ filled extension number }
{
    match extension {
        Extension::Zero => number,
        Extension::Sign => sign_extend(number),
    }
}

// A longword with its sign.
#[inline(always)]
fn sign_extend(number: u64) -> u64
    ensures { result ≡ register_of (signed w32 number) }
{
    i64::from(((number & 0xffff_ffff) as u32).cast_signed()).cast_unsigned()
}

// Goes on to the next row.
#[inline(always)]
fn advance(place: &mut u64)
    ensures { place.new ≡ (place.old + 1) % 2 ^ 64 }
{
    *place = place.wrapping_add(1);
}

// The address of a place.
#[inline(always)]
pub(crate) fn address_of(image: &Image, place: u64) -> u64
    ensures { result ≡ (image.now.code_base + 4 * place) % 2 ^ 64 }
{
    image.code_base().wrapping_add(place.wrapping_mul(4))
}
