//! Words that are executed while a trap waits: what they write is any value.

ghost use Rattle.std.specs.Prelude.{◌≡◌, true, Some};
ghost use Rattle.alpha_table.specs.Class.{store, load_locked, store_conditional, branch, jump};
ghost use Rattle.alpha_table.specs.ClassOf.{class_of};
ghost use Rattle.alpha_table.specs.declared.form.Form.TheVariants.{Mem};
ghost use Rattle.alpha_table.specs.Rows.{branch_row};
ghost use Rattle.alpha_seq.specs.Executed.{IsSized};
ghost use Rattle.alpha_seq.specs.Machine.{state_of};
ghost use Rattle.alpha_imprecise.specs.Step.{can_wait};
ghost use Rattle.alpha_imprecise.specs.ImpreciseState.{ExecutesUnpredictable};

use alpha_seq::{Machine, branch_target, memory_access, size};
use alpha_table::{BranchOp, Extension, Form, Insn, MemAccess, MemOp, MemRole};
use alpha_values::taken;
use alpha_words::Reg;

/// Executes an instruction that is no barrier and doesn't fault, by this value for its destination
/// and the bytes that it stores.
#[inline(never)]
pub(crate) fn execute_unpredictable(machine: &mut Machine, insn: &Insn, value: u64)
    requires { can_wait (Some (class_of insn.now)) (state_of machine.old) ≡ true }
    ensures { ExecutesUnpredictable (class_of insn.now) value machine.old machine.new }
{
    match insn.form() {
        Form::Operate { rc, .. } => machine.set(rc, value),
        Form::Mem { op, ra, rb, disp } => memory_word(machine, op, ra, rb, disp, value),
        Form::Branch { op, ra, disp } => branch(machine, op, ra, disp, value),
        Form::Jump { ra, rb, .. } => jump(machine, ra, rb, value),
        Form::Misc(_) | Form::Fetch { .. } => machine.advance(),
        Form::Pal(_) => unreachable!(),
    }
}

fn memory_word(machine: &mut Machine, op: MemOp, ra: Reg, rb: Reg, disp: i16, value: u64)
    requires { can_wait (Some (class_of (Mem op ra rb disp))) (state_of machine.old) ≡ true }
    ensures { ExecutesUnpredictable (class_of (Mem op ra rb disp)) value machine.old machine.new }
{
    let at = memory_access(op, rb, disp);
    match op.row().role {
        MemRole::Address => machine.set(ra, value),
        MemRole::Load(_) if ra == Reg::ZERO => machine.advance(),
        MemRole::Load(_) => machine.set(ra, value),
        MemRole::Store => store(machine, &at, ra, value),
        MemRole::LoadLocked(extension) => load_locked(machine, extension, &at, ra, value),
        MemRole::StoreConditional => store_conditional(machine, &at, ra, value),
    }
}

fn store(machine: &mut Machine, at: &MemAccess, ra: Reg, value: u64)
    requires size { IsSized at.now.bytes }
    requires good { can_wait (Some (store at.now ra)) (state_of machine.old) ≡ true }
    ensures { ExecutesUnpredictable (store at.now ra) value machine.old machine.new }
{
    let addr = machine.accessed_address(at);
    // The access was looked at before: it doesn't fault.
    let _ = machine.memory.store(addr, size(at.bytes), value);
    machine.advance();
}

fn load_locked(machine: &mut Machine, extension: Extension, at: &MemAccess, ra: Reg, value: u64)
    ensures { ExecutesUnpredictable (load_locked extension at.now ra) value machine.old machine.new }
{
    machine.lock = Some(machine.accessed_address(at) / 16);
    machine.set(ra, value);
}

fn store_conditional(machine: &mut Machine, at: &MemAccess, ra: Reg, value: u64)
    requires size { IsSized at.now.bytes }
    requires good { can_wait (Some (store_conditional at.now ra)) (state_of machine.old) ≡ true }
    ensures { ExecutesUnpredictable (store_conditional at.now ra) value machine.old machine.new }
{
    let addr = machine.accessed_address(at);
    if machine.lock == Some(addr / 16) {
        // The access was looked at before: it doesn't fault.
        let _ = machine.memory.store(addr, size(at.bytes), value);
    }
    machine.lock = None;
    machine.set(ra, value);
}

fn branch(machine: &mut Machine, op: BranchOp, ra: Reg, disp: i32, value: u64)
    ensures { ExecutesUnpredictable (branch (branch_row op).condition ra disp) value machine.old machine.new }
{
    let target = branch_target(machine.pc, disp);
    match op.row().condition {
        None => {
            machine.regs.set(ra, value);
            machine.pc = target;
        }
        Some(condition) if taken(condition, machine.regs.get(ra)) => machine.pc = target,
        Some(_) => machine.advance(),
    }
}

fn jump(machine: &mut Machine, ra: Reg, rb: Reg, value: u64)
    ensures { ExecutesUnpredictable (jump ra rb) value machine.old machine.new }
{
    let target = machine.regs.get(rb);
    machine.regs.set(ra, value);
    machine.pc = target / 4 * 4;
}
