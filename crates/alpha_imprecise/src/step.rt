//! A step, by what it is: precise, a trigger, a word that is executed while a trap waits, or a report.

ghost use Rattle.std.specs.Prelude.{◌≡◌, ◌<◌, ◌≤◌, false, IfSome, IfOk, IfErr, IsTrue, None, Some};
ghost use Rattle.alpha_io.specs.SinkChange.{sink_change};
ghost use Rattle.alpha_table.specs.ClassOf.{class_of};
ghost use Rattle.alpha_seq.specs.Next.{next_insn};
ghost use Rattle.alpha_seq.specs.Machine.{class_here, program_of, state_of};
ghost use Rattle.alpha_seq.specs.Devices.{drawn};
ghost use Rattle.alpha_imprecise.specs.Chosen.{reporting, triggering};
ghost use Rattle.alpha_imprecise.specs.StepResult.{Triggered, with_register};
ghost use Rattle.alpha_imprecise.specs.Step.{triggers, trap_destination, adds_here};
ghost use Rattle.alpha_imprecise.specs.ChoiceSource.{choice_by};
ghost use Rattle.alpha_imprecise.specs.ImpreciseState.{mask_after, imprecise_state, OverflowsAt, WaitsAt};
ghost use Rattle.alpha_imprecise.specs.ImpreciseStepEffect.{ImpreciseStepBy, imprecise_units, imprecise_core};
ghost use Rattle.alpha_imprecise.specs.ImpreciseStepEffect.{ImpreciseStateAfterFault, StepMadeByChoice};
ghost use Rattle.alpha_imprecise.specs.ImpreciseStepEffect.{StepFaultedByChoice, Chose, StepsBy, StepsAs};
ghost use Rattle.alpha_seq.specs.StepEffect.{StepEffect, FaultedStepEffect};
ghost use Rattle.alpha_seq.specs.Sequential.{no_words};

use crate::look::{Overflow, overflow_of};
use crate::report::report;
use crate::unpredictable::execute_unpredictable;
use crate::{ChoiceSource, Pending};
use alpha_io::{Sink, Source};
use alpha_seq::{Event, Fault, Machine, Wait};
use alpha_table::{Form, Insn};
use alpha_words::{Reg, RegSet};

/// Makes a step of a machine in user mode, with a trap that may be pending.
#[inline(always)]
pub(crate) fn step<P: ChoiceSource, S: Source, K: Sink>(
    machine: &mut Machine,
    pending: &mut Option<Pending>,
    choices: &mut P,
    input: &mut S,
    out: &mut K,
) -> Result<Event, Fault>
    requires user { IsTrue machine.old.kernel.user }
    requires few { IfSome pending.old (λ p. p.waited ≤ 1024) }
    ensures made { IfOk result (λ event. StepMadeByChoice P.gives_pick P.values event
        (imprecise_state machine.old pending.old) (imprecise_state machine.new pending.new)
        choices.old choices.new
        (drawn S.Source input.old input.new)
        (sink_change K.Sink out.old out.new)) }
    ensures broken { IfErr result (λ fault. StepFaultedByChoice P.gives_pick P.values fault
        (imprecise_state machine.old pending.old) (imprecise_state machine.new pending.new)
        choices.old choices.new
        (drawn S.Source input.old input.new)
        (sink_change K.Sink out.old out.new)) }
    ensures program { program_of machine.new ≡ program_of machine.old }
    ensures user { IsTrue machine.new.kernel.user }
    ensures bound { IfSome pending.new (λ p. p.waited ≤ 1024) }
{
    match *pending {
        None => step_with_none_pending(machine, pending, choices, input, out),
        Some(trap) => Ok(step_with_pending(machine, pending, &trap, choices)),
    }
}

// Makes a step with nothing pending. The loop of a run has made most steps that only go on before, so this is rare, and
// never inlined there.
#[inline(never)]
fn step_with_none_pending<P: ChoiceSource, S: Source, K: Sink>(
    machine: &mut Machine,
    pending: &mut Option<Pending>,
    choices: &mut P,
    input: &mut S,
    out: &mut K,
) -> Result<Event, Fault>
    requires user { IsTrue machine.old.kernel.user }
    requires none { pending.old ≡ None }
    ensures made { IfOk result (λ event. StepMadeByChoice P.gives_pick P.values event
        (imprecise_state machine.old pending.old) (imprecise_state machine.new pending.new)
        choices.old choices.new
        (drawn S.Source input.old input.new)
        (sink_change K.Sink out.old out.new)) }
    ensures broken { IfErr result (λ fault. StepFaultedByChoice P.gives_pick P.values fault
        (imprecise_state machine.old pending.old) (imprecise_state machine.new pending.new)
        choices.old choices.new
        (drawn S.Source input.old input.new)
        (sink_change K.Sink out.old out.new)) }
    ensures program { program_of machine.new ≡ program_of machine.old }
    ensures user { IsTrue machine.new.kernel.user }
    ensures bound { IfSome pending.new (λ p. p.waited ≤ 1024) }
{
    let Some(insn) = machine.insn() else {
        return precise(machine, None, input, out);
    };
    match overflow_of(machine, &insn) {
        Some(overflow) => {
            let value = choices.value();
            trigger(machine, pending, &overflow, value);
            Ok(Event::Triggered(value))
        }
        None => precise(machine, Some(insn), input, out),
    }
}

// Makes a step while a trap is pending.
#[inline(always)]
fn step_with_pending<P: ChoiceSource>(
    machine: &mut Machine,
    pending: &mut Option<Pending>,
    trap: &Pending,
    choices: &mut P,
) -> Event
    requires user { IsTrue machine.old.kernel.user }
    requires trap { pending.old ≡ Some trap.now }
    requires few { trap.now.waited ≤ 1024 }
    ensures made { Chose P.gives_pick P.values (imprecise_state machine.old pending.old) choices.old choices.new
        (StepsAs result (imprecise_state machine.old pending.old) (imprecise_state machine.new pending.new)) }
    ensures program { program_of machine.new ≡ program_of machine.old }
    ensures user { IsTrue machine.new.kernel.user }
    ensures bound { IfSome pending.new (λ p. p.waited ≤ 1024) }
{
    match trap.waiting_insn(machine) {
        Some(insn) => match choices.pick() {
            Some(choice) => wait(machine, pending, trap, &insn, &choice),
            None => report(machine, pending, trap),
        },
        None => report(machine, pending, trap),
    }
}

// Makes a precise step, at a word that doesn't overflow.
#[inline(always)]
fn precise<S: Source, K: Sink>(
    machine: &mut Machine,
    insn: Option<Insn>,
    input: &mut S,
    out: &mut K,
) -> Result<Event, Fault>
    requires user { IsTrue machine.old.kernel.user }
    requires here { insn ≡ next_insn (program_of machine.old) machine.old.pc }
    requires exact { triggers (class_here machine.old) (state_of machine.old) ≡ false }
    ensures made { IfOk result (λ event.
        StepEffect (ImpreciseStepBy (reporting 0).choice) imprecise_units imprecise_core no_words event
        (imprecise_state machine.old None) (imprecise_state machine.new None)
        (drawn S.Source input.old input.new)
        (sink_change K.Sink out.old out.new)) }
    ensures broken { IfErr result (λ fault.
        FaultedStepEffect (ImpreciseStepBy (reporting 0).choice) imprecise_units imprecise_core
        ImpreciseStateAfterFault no_words fault
        (imprecise_state machine.old None) (imprecise_state machine.new None)
        (drawn S.Source input.old input.new)
        (sink_change K.Sink out.old out.new)) }
    ensures program { program_of machine.new ≡ program_of machine.old }
    ensures user { IsTrue machine.new.kernel.user }
{
    machine.step_by(insn, input, out)
}

// Executes a word that overflows by this value for its destination. Its trap is pending then.
#[inline(never)]
fn trigger(machine: &mut Machine, pending: &mut Option<Pending>, overflow: &Overflow, value: u64)
    requires none { pending.old ≡ None }
    requires overflows { OverflowsAt machine.old overflow.now.place overflow.now.rc }
    ensures step { StepsBy (Triggered value) (triggering value).choice
        (imprecise_state machine.old pending.old) (imprecise_state machine.new pending.new) }
    ensures user { machine.new.kernel ≡ machine.old.kernel }
    ensures bound { IfSome pending.new (λ p. p.waited ≤ 1024) }
{
    machine.set(overflow.rc, value);
    *pending = Some(Pending {
        trigger: overflow.place,
        mask: mask_with(RegSet::empty(), overflow.rc),
        waited: 0,
    });
}

// Executes a word while a trap waits.
#[inline(always)]
fn wait(
    machine: &mut Machine,
    pending: &mut Option<Pending>,
    trap: &Pending,
    insn: &Insn,
    choice: &Wait,
) -> Event
    requires trap { pending.old ≡ Some trap.now }
    requires few { trap.now.waited < 1024 }
    requires waits { WaitsAt machine.old (class_of insn.now) }
    ensures step { StepsAs result (imprecise_state machine.old pending.old)
        (imprecise_state machine.new pending.new) (choice_by (Some choice.now)) }
    ensures user { machine.new.kernel ≡ machine.old.kernel }
    ensures bound { IfSome pending.new (λ p. p.waited ≤ 1024) }
{
    let adds = choice.adds && adds_here(insn);
    execute_unpredictable(machine, insn, choice.value);
    *pending = Some(Pending {
        trigger: trap.trigger,
        mask: mask_after(insn, trap.mask, adds),
        waited: trap.waited + 1,
    });
    Event::Waited(Wait {
        adds,
        value: choice.value,
    })
}

// Whether an instruction may add its destination to the mask.
#[inline(always)]
fn adds_here(insn: &Insn) -> bool
    ensures { result ≡ adds_here (Some (class_of insn.now)) }
{
    trap_destination(insn) != Reg::ZERO
}

// The mask after an instruction, which adds its destination to it where that is asked for.
#[inline(always)]
fn mask_after(insn: &Insn, mask: RegSet, adds: bool) -> RegSet
    ensures { result ≡ mask_after (Some (class_of insn.now)) mask adds }
{
    if adds {
        mask_with(mask, trap_destination(insn))
    } else {
        mask
    }
}

// The destination of an instruction that may trap, R31 for every other one.
#[inline(always)]
fn trap_destination(insn: &Insn) -> Reg
    ensures { result ≡ trap_destination (Some (class_of insn.now)) }
{
    match insn.form() {
        Form::Operate { op, rc, .. } => match op.trap() {
            Some(_) => rc,
            None => Reg::ZERO,
        },
        _ => Reg::ZERO,
    }
}

// The mask and one register more, if it isn't R31.
fn mask_with(mask: RegSet, r: Reg) -> RegSet
    ensures { result ≡ with_register mask r }
{
    mask.with(r)
}
