//! The loop over rows.

ghost use Rattle.std.specs.Prelude.{◌≡◌, ◌-◌, ◌<◌, ◌≤◌, ℕ, true, false, List, None, IsTrue, length};
ghost use Rattle.alpha_table.specs.Class.{barrier};
ghost use Rattle.alpha_table.specs.ClassOf.{class_of};
ghost use Rattle.alpha_mem.specs.Block.{Block};
ghost use Rattle.alpha_mem.specs.Memory.{IsMemory};
ghost use Rattle.alpha_image.specs.Parts.{IsImage};
ghost use Rattle.alpha_rows.specs.PassingSteps.{PassingSteps, RunsOn, GoesOnRow, PassesRow};
ghost use Rattle.alpha_rows.specs.Rows.{IsRows, IsRowAt};

use crate::effects::address_of;
use crate::execute::execute;
use crate::row::{Row, RowOp};
use alpha_image::Image;
use alpha_mem::Region;
use alpha_seq::Machine;
use alpha_table::{Form, Insn, InsnKind, kind};
use alpha_words::{Level, RegFile};

/// Makes steps as long as each only goes on, or passes a barrier that is no PAL call where these are passed, `units` of
/// them at most, and answers how many it made. It may stop early: what a step does then is what [`Machine::step`] says.
/// The rows are those of the machine's program.
#[inline(never)]
pub(crate) fn run_fast(machine: &mut Machine, rows: &[Row], units: u64, barriers: bool) -> u64
    requires { IsRows machine.old.image rows.now }
    ensures most { result ≤ units }
    ensures went { PassingSteps barriers result machine.old machine.new }
{
    let Some(first) = machine.image.place_of(machine.pc) else {
        return 0;
    };
    if is_leaving(&rows[first as usize])
        && !(barriers && is_barrier(&machine.image.insn_at(first)))
    {
        return 0;
    }
    let mut place = u64::from(first);
    let mut regions = machine.memory.take_regions();
    let left = if regions.is_empty() {
        units
    } else {
        run_fast_from(
            &machine.image,
            rows,
            regions.as_mut_slice(),
            &mut machine.regs,
            &mut place,
            units,
            barriers,
        )
    };
    machine.memory.put_regions(regions);
    machine.pc = address_of(&machine.image, place);
    units - left
}

// Whether the loop is left at a row, unless a barrier is passed there.
#[inline(always)]
fn is_leaving(row: &Row) -> bool {
    matches!(row.op, RowOp::Leave)
}

// The rows from a place on. It answers how many of the units are left.
#[inline(always)]
fn run_fast_from(
    image: &Image,
    rows: &[Row],
    regions: &mut [Region],
    regs: &mut RegFile,
    place: &mut u64,
    units: u64,
    barriers: bool,
) -> u64
    requires rows { IsRows image.now rows.now }
    requires place { place.old ≤ length image.now.words }
    requires memory { IsMemory regions.old }
    requires some { 0 < length regions.old }
    ensures most { result ≤ units }
    ensures memory { IsMemory regions.new }
    ensures went { RunsOn barriers (units - result) image.now regs.old regions.old place.old
        regs.new regions.new place.new }
{
    let level = image.level();
    let _base = image.code_base();
    let mut region_hint = regions.len() - 1;
    let mut left = units;
    let mut at = *place;
    'words: while left != 0 {
        let row = &rows[at as usize];
        if !retires_row(
            image,
            level,
            row,
            regions,
            &mut region_hint,
            regs,
            &mut at,
            barriers,
        ) {
            *place = at;
            return left;
        }
        left -= 1;
    }
    *place = at;
    left
}

// Does what a row says, if the word there only goes on, or is a barrier that is passed, and answers whether it did.
#[inline(always)]
fn retires_row(
    image: &Image,
    level: Level,
    row: &Row,
    regions: &mut [Region],
    region_hint: &mut usize,
    regs: &mut RegFile,
    place: &mut u64,
    barriers: bool,
) -> bool
    requires good { IsImage image.now }
    requires level { image.now.level ≡ level }
    requires row { IsRowAt image.now place.old row.now }
    requires place { place.old ≤ length image.now.words }
    requires memory { IsMemory regions.old }
    requires region_hint { region_hint.old < length regions.old }
    ensures went { IsTrue result → GoesOnRow barriers image.now
        regs.old regions.old place.old regs.new regions.new place.new }
    ensures memory { IsMemory regions.new }
    ensures region_hint { region_hint.new < length regions.new }
    ensures regs { result ≡ false → regs.new ≡ regs.old }
    ensures regions { result ≡ false → regions.new ≡ regions.old }
    ensures place { result ≡ false → place.new ≡ place.old }
{
    execute(image, level, row, regions, region_hint, regs, place)
        || pass_barrier(image, place, barriers)
}

// Goes on behind a barrier where these are passed. Its row leaves, so its word is looked at.
#[inline(always)]
fn pass_barrier(image: &Image, place: &mut u64, barriers: bool) -> bool
    requires { place.old ≤ length image.now.words }
    ensures went { IsTrue result → (barriers ≡ true) × ((regs : List ℕ) (mem : List Block)
        → PassesRow image.now regs mem place.old regs mem place.new) }
    ensures place { result ≡ false → place.new ≡ place.old }
{
    if !barriers || *place == u64::from(image.words()) {
        return false;
    }
    if !is_barrier(&image.insn_at(*place as u32)) {
        return false;
    }
    *place = place.wrapping_add(1);
    true
}

// Whether an instruction is a barrier that is no PAL call.
#[inline(always)]
fn is_barrier(insn: &Insn) -> bool
    ensures { IsTrue result → class_of insn.now ≡ barrier None }
{
    match insn.form() {
        Form::Misc(_) => matches!(kind(insn), InsnKind::Barrier),
        _ => false,
    }
}
