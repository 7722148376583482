//! What the word at the PC would do.

ghost use Rattle.std.specs.Prelude.{◌≡◌, true, false, IfSome, IfNone, Some};
ghost use Rattle.alpha_table.specs.ClassOf.{class_of};
ghost use Rattle.alpha_seq.specs.Next.{next_insn};
ghost use Rattle.alpha_seq.specs.Machine.{program_of, class_here, state_of};
ghost use Rattle.alpha_imprecise.specs.Step.{triggers, trap_destination, can_wait};
ghost use Rattle.alpha_imprecise.specs.ImpreciseState.{OverflowsAt, WaitsAt};

use alpha_seq::{Machine, Next};
use alpha_table::{Form, Insn};
use alpha_values::overflows;
use alpha_words::Reg;

/// A word that overflows.
#[derive(Clone, Copy)]
pub(crate) struct Overflow {
    /// Its place.
    pub place: u32,
    /// Its destination.
    pub rc: Reg,
}

/// The word at the PC, by its instruction, if it overflows.
#[inline(always)]
pub(crate) fn overflow_of(machine: &Machine, insn: &Insn) -> Option<Overflow>
    requires { Some insn.now ≡ next_insn (program_of machine.now) machine.now.pc }
    ensures found { IfSome result (λ o. OverflowsAt machine.now o.place o.rc) }
    ensures none { IfNone result (triggers (class_here machine.now) (state_of machine.now) ≡ false) }
{
    let rc = overflow_destination(machine, insn)?;
    let place = machine.image.place_of(machine.pc)?;
    Some(Overflow { place, rc })
}

// The destination of an instruction with `/V` that overflows by the registers of a machine (Architecture
// Handbook, arithmetic traps), which may be R31; `None` for one that doesn't overflow, and for any other
// instruction.
#[inline(always)]
fn overflow_destination(machine: &Machine, insn: &Insn) -> Option<Reg>
    ensures found { IfSome result (λ rc. triggers (Some (class_of insn.now)) (state_of machine.now)
        ≡ true) }
    ensures into { IfSome result (λ rc. trap_destination (Some (class_of insn.now)) ≡ rc) }
    ensures none { IfNone result (triggers (Some (class_of insn.now)) (state_of machine.now) ≡ false) }
{
    let Form::Operate { op, ra, src, rc } = insn.form() else {
        return None;
    };
    let op = op.trap()?;
    let b = machine.source(&src);
    if overflows(op, machine.regs.get(ra), b) {
        Some(rc)
    } else {
        None
    }
}

/// The word at the PC, if it can be executed while a trap waits: it is no barrier, and an access of
/// it doesn't fault.
#[inline(never)]
pub(crate) fn waits_here(machine: &Machine) -> Option<Insn>
    ensures found { IfSome result (λ insn. WaitsAt machine.now (class_of insn)) }
    ensures none { IfNone result (can_wait (class_here machine.now) (state_of machine.now) ≡ false) }
{
    match machine.next() {
        Next::Plain(insn) | Next::Overflows(insn) => Some(insn),
        Next::Outside | Next::Barrier(_) | Next::Faults(_) => None,
    }
}
