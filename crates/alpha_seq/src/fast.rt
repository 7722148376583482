//! Steps that only go on, many behind one another.

ghost use Rattle.std.specs.Prelude.{◌≡◌, ◌==◌, ◌+◌, ◌-◌, ◌*◌, ◌%◌, ◌^◌, ◌≤◌, ◌+ℤ◌, pos, false, IsTrue, List};
ghost use Rattle.std.specs.Prelude.{if◌then◌else◌};
ghost use Rattle.alpha_words.specs.Regs.{put};
ghost use Rattle.alpha_table.specs.Class.{address, load, store, jump, idle};
ghost use Rattle.alpha_table.specs.ClassOf.{class_of};
ghost use Rattle.alpha_table.specs.declared.form.Form.TheVariants.{Operate, Mem, Branch};
ghost use Rattle.alpha_values.specs.Numbers.{register_of};
ghost use Rattle.alpha_values.specs.Source.{source_value};
ghost use Rattle.alpha_mem.specs.Block.{Block};
ghost use Rattle.alpha_image.specs.Parts.{Parts};
ghost use Rattle.alpha_seq.specs.Executed.{IsSized};
ghost use Rattle.alpha_seq.specs.FastSteps.{FastSteps, RunsFast, ExecutesFast};

use crate::Machine;
use crate::access::{extend, memory_access, size};
use crate::words::lda_value;
use alpha_image::Image;
use alpha_mem::Memory;
use alpha_table::{BranchOp, Extension, Form, Insn, InsnKind, MemAccess, MemOp, Op, Src, kind};
use alpha_values::{access_address, outcome, taken};
use alpha_words::{Level, Reg, RegFile};

impl Machine {
    /// Makes steps as long as each only goes on, `units` of them at most, and answers how many it made. It may stop
    /// early: what a step does then is what [`Machine::step`] says.
    #[inline(never)]
    pub fn run_fast(&mut self, units: u64) -> u64
        ensures most { result ≤ units }
        ensures went { FastSteps result self.old self.new }
    {
        let Some(first) = self.image.place_of(self.pc) else {
            return 0;
        };
        let mut place = u64::from(first);
        let left = run_fast_from(
            &self.image,
            &mut self.memory,
            &mut self.regs,
            &mut place,
            units,
        );
        self.pc = address_of(&self.image, place);
        units - left
    }
}

// The words from a place on. The place stands for the PC, so that no step asks at which word it is. It answers how many
// of the units are left.
#[inline(always)]
fn run_fast_from(
    image: &Image,
    memory: &mut Memory,
    regs: &mut RegFile,
    place: &mut u64,
    units: u64,
) -> u64
    ensures most { result ≤ units }
    ensures went { RunsFast (units - result) image.now regs.old memory.old place.old
        regs.new memory.new place.new }
{
    let insns = image.insns();
    let level = image.level();
    let mut region_hint = 0;
    let mut left = units;
    'words: while left != 0 {
        if *place >= insns.len() as u64 {
            return left;
        }
        let insn = &insns[*place as usize];
        if !pass(image, level, insn, memory, &mut region_hint, regs, place) {
            return left;
        }
        left -= 1;
    }
    left
}

// Executes an instruction, if it only goes on. One that accesses memory by the lock flag is left for `Machine::step`.
#[inline(always)]
fn pass(
    image: &Image,
    level: Level,
    insn: &Insn,
    memory: &mut Memory,
    region_hint: &mut usize,
    regs: &mut RegFile,
    place: &mut u64,
) -> bool
    requires { image.now.level ≡ level }
    ensures went { IsTrue result → ExecutesFast image.now (class_of insn.now)
        regs.old memory.old place.old regs.new memory.new place.new }
    ensures regs { result ≡ false → regs.new ≡ regs.old }
    ensures memory { result ≡ false → memory.new ≡ memory.old }
    ensures place { result ≡ false → place.new ≡ place.old }
{
    match insn.form() {
        Form::Operate { op, ra, src, rc } => return operate(level, op, ra, &src, rc, regs, place),
        Form::Mem { op, ra, rb, disp } => {
            return access(op, ra, rb, disp, memory, region_hint, regs, place);
        }
        Form::Branch { op, ra, disp } => branch(image, op, ra, disp, regs, place),
        Form::Jump { ra, rb, .. } => jump(image, ra, rb, regs, place),
        Form::Misc(_) => match kind(insn) {
            InsnKind::Barrier => return false,
            _ => advance(place),
        },
        Form::Fetch { .. } => advance(place),
        Form::Pal(_) => return false,
    }
    true
}

#[inline(always)]
fn operate(
    level: Level,
    op: Op,
    ra: Reg,
    src: &Src,
    rc: Reg,
    regs: &mut RegFile,
    place: &mut u64,
) -> bool
    ensures went { IsTrue result → (image : Parts) (mem : List Block) → image.level ≡ level
        → ExecutesFast image (class_of (Operate op ra src.now rc))
        regs.old mem place.old regs.new mem place.new }
    ensures regs { result ≡ false → regs.new ≡ regs.old }
    ensures place { result ≡ false → place.new ≡ place.old }
{
    let a = regs.get(ra);
    let b = source(regs, src);
    let old = regs.get(rc);
    match outcome(level, op, a, b, old) {
        Some(value) => {
            set(regs, place, rc, value);
            true
        }
        None => false,
    }
}

// The value of a second source (Architecture Handbook, section 3.3.3).
#[inline(always)]
fn source(regs: &RegFile, src: &Src) -> u64
    ensures { result ≡ source_value regs.now src.now }
{
    match *src {
        Src::Reg(rb) => regs.get(rb),
        Src::Lit(n) => u64::from(n),
    }
}

// An arm an operation, so that its row is known where it is executed.
#[inline(always)]
fn access(
    op: MemOp,
    ra: Reg,
    rb: Reg,
    disp: i16,
    memory: &mut Memory,
    region_hint: &mut usize,
    regs: &mut RegFile,
    place: &mut u64,
) -> bool
    ensures went { IsTrue result → (image : Parts) → ExecutesFast image (class_of (Mem op ra rb disp))
        regs.old memory.old place.old regs.new memory.new place.new }
    ensures regs { result ≡ false → regs.new ≡ regs.old }
    ensures memory { result ≡ false → memory.new ≡ memory.old }
    ensures place { result ≡ false → place.new ≡ place.old }
{
    match op {
        MemOp::Lda => load_address(MemOp::Lda, ra, rb, disp, regs, place),
        MemOp::Ldah => load_address(MemOp::Ldah, ra, rb, disp, regs, place),
        MemOp::Ldbu => {
            let at = memory_access(MemOp::Ldbu, rb, disp);
            load(Extension::Zero, &at, ra, memory, region_hint, regs, place)
        }
        MemOp::Ldwu => {
            let at = memory_access(MemOp::Ldwu, rb, disp);
            load(Extension::Zero, &at, ra, memory, region_hint, regs, place)
        }
        MemOp::Ldl => {
            let at = memory_access(MemOp::Ldl, rb, disp);
            load(Extension::Sign, &at, ra, memory, region_hint, regs, place)
        }
        MemOp::Ldq => {
            let at = memory_access(MemOp::Ldq, rb, disp);
            load(Extension::Zero, &at, ra, memory, region_hint, regs, place)
        }
        MemOp::LdqU => {
            let at = memory_access(MemOp::LdqU, rb, disp);
            load(Extension::Zero, &at, ra, memory, region_hint, regs, place)
        }
        MemOp::Stb => store(
            &memory_access(MemOp::Stb, rb, disp),
            ra,
            memory,
            region_hint,
            regs,
            place,
        ),
        MemOp::Stw => store(
            &memory_access(MemOp::Stw, rb, disp),
            ra,
            memory,
            region_hint,
            regs,
            place,
        ),
        MemOp::Stl => store(
            &memory_access(MemOp::Stl, rb, disp),
            ra,
            memory,
            region_hint,
            regs,
            place,
        ),
        MemOp::Stq => store(
            &memory_access(MemOp::Stq, rb, disp),
            ra,
            memory,
            region_hint,
            regs,
            place,
        ),
        MemOp::StqU => store(
            &memory_access(MemOp::StqU, rb, disp),
            ra,
            memory,
            region_hint,
            regs,
            place,
        ),
        MemOp::LdlL | MemOp::LdqL | MemOp::StlC | MemOp::StqC => false,
    }
}

#[inline(always)]
fn load_address(op: MemOp, ra: Reg, rb: Reg, disp: i16, regs: &mut RegFile, place: &mut u64) -> bool
    ensures value { IsTrue result }
    ensures went { (image : Parts) (mem : List Block) → ExecutesFast image (address op ra rb disp)
        regs.old mem place.old regs.new mem place.new }
{
    let value = lda_value(op, regs.get(rb), disp);
    set(regs, place, ra, value);
    true
}

// A load into R31 makes no access. Where the access of one would not fault it changes nothing either, so that there is
// no test of the register; where it would fault the word is left for `Machine::step`.
#[inline(always)]
fn load(
    extension: Extension,
    at: &MemAccess,
    ra: Reg,
    memory: &Memory,
    region_hint: &mut usize,
    regs: &mut RegFile,
    place: &mut u64,
) -> bool
    requires { IsSized at.now.bytes }
    ensures went { let class = if ra == 31 then idle else load extension at.now ra in
        IsTrue result → (image : Parts) → ExecutesFast image class
        regs.old memory.now place.old regs.new memory.now place.new }
    ensures regs { result ≡ false → regs.new ≡ regs.old }
    ensures place { result ≡ false → place.new ≡ place.old }
{
    let addr = access_address(at, regs.get(at.base));
    match memory.load_with_hint(region_hint, addr, size(at.bytes)) {
        Ok(value) => {
            set(regs, place, ra, extend(extension, value));
            true
        }
        Err(_) => false,
    }
}

#[inline(always)]
fn store(
    at: &MemAccess,
    ra: Reg,
    memory: &mut Memory,
    region_hint: &mut usize,
    regs: &RegFile,
    place: &mut u64,
) -> bool
    requires { IsSized at.now.bytes }
    ensures went { IsTrue result → (image : Parts) → ExecutesFast image (store at.now ra)
        regs.now memory.old place.old regs.now memory.new place.new }
    ensures memory { result ≡ false → memory.new ≡ memory.old }
    ensures place { result ≡ false → place.new ≡ place.old }
{
    let addr = access_address(at, regs.get(at.base));
    match memory.store_with_hint(region_hint, addr, size(at.bytes), regs.get(ra)) {
        Ok(()) => {
            advance(place);
            true
        }
        Err(_) => false,
    }
}

// A displacement is added only where the branch is taken.
#[inline(always)]
fn branch(image: &Image, op: BranchOp, ra: Reg, disp: i32, regs: &mut RegFile, place: &mut u64)
    ensures { (mem : List Block) → ExecutesFast image.now (class_of (Branch op ra disp))
        regs.old mem place.old regs.new mem place.new }
{
    match op.row().condition {
        None => {
            advance(place);
            regs.set(ra, address_of(image, *place));
            *place = displace(*place, disp);
        }
        Some(condition) => {
            advance(place);
            if taken(condition, regs.get(ra)) {
                *place = displace(*place, disp);
            }
        }
    }
}

#[inline(always)]
fn jump(image: &Image, ra: Reg, rb: Reg, regs: &mut RegFile, place: &mut u64)
    ensures { (mem : List Block) → ExecutesFast image.now (jump ra rb)
        regs.old mem place.old regs.new mem place.new }
{
    let target = regs.get(rb) / 4 * 4;
    advance(place);
    regs.set(ra, address_of(image, *place));
    *place = target.wrapping_sub(image.code_base()) / 4;
}

// Writes a register, and goes on to the next word.
#[inline(always)]
fn set(regs: &mut RegFile, place: &mut u64, r: Reg, value: u64)
    ensures regs { regs.new ≡ put regs.old r value }
    ensures place { place.new ≡ (place.old + 1) % 2 ^ 64 }
{
    regs.set(r, value);
    advance(place);
}

// Goes on to the next word.
#[inline(always)]
fn advance(place: &mut u64)
    ensures { place.new ≡ (place.old + 1) % 2 ^ 64 }
{
    *place = place.wrapping_add(1);
}

// The place so many words away.
#[inline(always)]
fn displace(place: u64, disp: i32) -> u64
    ensures { result ≡ register_of (pos place +ℤ disp) }
{
    place.wrapping_add_signed(i64::from(disp))
}

// The address of a place.
#[inline(always)]
fn address_of(image: &Image, place: u64) -> u64
    ensures { result ≡ (image.now.code_base + 4 * place) % 2 ^ 64 }
{
    image.code_base().wrapping_add(place.wrapping_mul(4))
}
