//! The report of a trap, through the kernel's frame and the handler.

ghost use Rattle.std.specs.Prelude.{◌≡◌, ◌≤◌, IfOk, IfErr, OnErr, IfSome, Some, None, IsTrue, false};
ghost use Rattle.alpha_values.specs.TrapOp.{stops};
ghost use Rattle.alpha_trap.specs.Handler.{going_on, reported};
ghost use Rattle.alpha_trap.specs.Scan.{scan};
ghost use Rattle.alpha_imprecise.specs.Chosen.{reporting};
ghost use Rattle.alpha_imprecise.specs.ImpreciseState.{returned_kernel, imprecise_state};
ghost use Rattle.alpha_imprecise.specs.ImpreciseStepEffect.{StepsAs};
ghost use Rattle.alpha_imprecise.specs.Report.{handler_trap, answer_at, machine_at};

use crate::Pending;
use alpha_seq::{End, Event, Machine};
use alpha_trap::{Lost, handle};
use alpha_words::{Completion, Reg, RegSet};

/// Reports the pending trap of a machine in user mode. It is pending no more behind it, but where it is lost.
#[inline(never)]
pub(crate) fn report(machine: &mut Machine, pending: &mut Option<Pending>, trap: &Pending) -> Event
    requires user { IsTrue machine.old.kernel.user }
    requires trap { pending.old ≡ Some trap.now }
    requires few { trap.now.waited ≤ 1024 }
    ensures step { StepsAs result (imprecise_state machine.old pending.old)
        (imprecise_state machine.new pending.new) (reporting 0).choice }
    ensures user { IsTrue machine.new.kernel.user }
    ensures bound { IfSome pending.new (λ p. p.waited ≤ 1024) }
{
    match run_handler(machine, trap.mask) {
        Ok(pc) => {
            *pending = None;
            land(machine, pc)
        }
        Err(lost) => Event::Lost(lost.trap_pc, lost.mask),
    }
}

// Goes on at the PC that the handler answered.
fn land(machine: &mut Machine, pc: u64) -> Event
    requires { stops machine.old.completion ≡ false → 4 ≤ pc }
    ensures answer { result ≡ answer_at (stops machine.old.completion) pc }
    ensures state { machine.new ≡ machine_at (stops machine.old.completion) machine.old pc }
{
    machine.pc = pc;
    if machine.completion == Completion::Stop {
        return Event::Ended(End::Overflow { pc });
    }
    machine.lock = None;
    machine.overflows = machine.overflows.wrapping_add(1);
    machine.last = pc - 4;
    Event::Reported(pc - 4)
}

// Enters the kernel with the PC and this mask, runs the handler, and returns to the user. The answer
// is the PC to go on at.
fn run_handler(machine: &mut Machine, mask: RegSet) -> Result<u64, Lost>
    requires { IsTrue machine.old.kernel.user }
    ensures ok { IfOk result (λ pc.
        reported machine.old.image machine.old.completion machine.old.pc mask machine.old.regs
        ≡ Some (going_on pc machine.new.regs)) }
    ensures frame { IfOk result (λ pc.
        machine.new ≡ record machine.old {
          regs = machine.new.regs;
          kernel = returned_kernel pc machine.new.regs;
        }) }
    ensures refused { OnErr result (scan machine.old.image machine.old.pc mask ≡ None) }
    ensures lost { IfErr result (λ lost. lost ≡ handler_trap machine.old.pc mask) }
    ensures same { OnErr result (machine.new ≡ record machine.old {
      kernel = returned_kernel machine.old.pc machine.old.regs;
    }) }
{
    // This read tells the proof that there are 32 registers.
    let zero = machine.regs.get(Reg::ZERO);
    prove!(zero == 0);
    machine
        .kernel
        .enter_arith(&mut machine.regs, machine.pc, mask);
    match handle(
        &machine.image,
        &mut machine.kernel,
        &mut machine.regs,
        machine.completion,
    ) {
        Ok(pc) => Ok(pc),
        Err(lost) => {
            machine.kernel.rti(&mut machine.regs);
            Err(lost)
        }
    }
}
