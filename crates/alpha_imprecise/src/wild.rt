ghost use Rattle.std.specs.Prelude.{◌≡◌, ◌<◌, ◌≤◌, ◌+◌, ◌*◌, false, None, IfSome, IfOk, IfErr, IsTrue};
ghost use Rattle.alpha_rows.specs.PassingSteps.{PassingSteps, AreRowsOf};

use crate::step::step;
use crate::{ChoiceSource, Chooser, Pending};
use alpha_io::{Sink, Source};
use alpha_rows::ProgramRows;
use alpha_seq::{Event, Fault, Machine};
use std::alloc::Global;
use std::marker::Model;

/// The imprecise machine: a sequential machine, and a trap that may be pending. Rows of its program make its steps
/// cheaper, where it has them.
#[derive(Debug, Drop)]
pub struct Wild {
    machine: Machine,
    pending: Option<Pending>,
    rows: Option<ProgramRows>,
}

impl Model for Wild {
    ghost use Rattle.std.specs.Prelude.{◌≡◌, ◌≤◌, true, IfSome};
    ghost use Rattle.alpha_rows.specs.PassingSteps.{AreRowsOf};
    ghost use Rattle.alpha_imprecise.specs.ImpreciseState.{ImpreciseState};

    ghost Value = { ImpreciseState };

    ghost view = { λ w. record { machine = w.machine; pending = w.pending } };

    ghost invariant = { λ w. (w.machine.kernel.user ≡ true)
        × IfSome w.pending (λ p. p.waited ≤ 1024)
        × IfSome w.rows (λ kept. AreRowsOf w.machine.image kept) };
}

impl Wild {
    ghost use Rattle.alpha_io.specs.SinkChange.{sink_change};
    ghost use Rattle.alpha_seq.specs.Devices.{drawn};
    ghost use Rattle.alpha_seq.specs.StepLabel.{is_over};
    ghost use Rattle.alpha_seq.specs.Machine.{Stays};
    ghost use Rattle.alpha_imprecise.specs.Run.{unit_of};
    ghost use Rattle.alpha_imprecise.specs.Oracle.{oracle_of};
    ghost use Rattle.alpha_imprecise.specs.ImpreciseState.{trap_in};
    ghost use Rattle.alpha_imprecise.specs.ImpreciseFastSteps.{ImpreciseFastSteps, ImprecisePassingSteps};
    ghost use Rattle.alpha_imprecise.specs.ImpreciseStepEffect.{imprecise_units, waits_left, ImpreciseStepMade};
    ghost use Rattle.alpha_imprecise.specs.ImpreciseStepEffect.{ImpreciseStepFaulted, StepMadeByChoice};
    ghost use Rattle.alpha_imprecise.specs.ImpreciseStepEffect.{StepFaultedByChoice};

    /// The imprecise machine with nothing pending, over a machine in user mode. It makes no rows of its program, and
    /// takes no memory.
    pub fn new(machine: Machine) -> Wild
        requires { IsTrue machine.kernel.user }
        ensures machine { result.machine ≡ machine }
        ensures pending { result.pending ≡ None }
    {
        Wild {
            machine,
            pending: None,
            rows: None,
        }
    }

    /// The same machine, but it makes rows of its program, late in a long run: steps that only go on cost about half
    /// then. Where there is no memory for rows it goes on without.
    pub fn with_rows(alloc: Global, machine: Machine) -> Wild
        requires { IsTrue machine.kernel.user }
        ensures machine { result.machine ≡ machine }
        ensures pending { result.pending ≡ None }
    {
        let rows = ProgramRows::new(alloc, &machine.image);
        Wild {
            machine,
            pending: None,
            rows: Some(rows),
        }
    }

    /// The machine.
    #[inline(always)]
    pub fn machine(&self) -> &Machine
        ensures { result.now ≡ self.now.machine }
    {
        &self.machine
    }

    /// The trap that is pending.
    #[inline(always)]
    pub fn pending(&self) -> Option<Pending>
        ensures value { result ≡ self.now.pending }
        ensures bound { IfSome result (λ p. p.waited ≤ 1024) }
    {
        self.pending
    }

    /// The units that the next step uses: one with nothing pending, else none.
    #[inline(always)]
    pub fn unit(&self) -> u64
        ensures value { result ≡ unit_of (trap_in self.now.pending) }
        ensures pending { IfSome self.now.pending (λ p. p.waited ≤ 1024) }
    {
        match self.pending {
            None => 1,
            Some(_) => 0,
        }
    }

    /// Makes steps with nothing pending as long as each only goes on, `units` of them at most, and answers how many it
    /// made. It may stop early: what a step does then is what [`Wild::step`] says.
    #[inline(always)]
    pub fn run_fast(&mut self, units: u64) -> u64
        ensures most { result ≤ units }
        ensures went { ImpreciseFastSteps result self.old self.new }
        ensures pending { self.new.pending ≡ self.old.pending }
        ensures same { Stays self.old.machine self.new.machine }
    {
        self.run_on(units, false)
    }

    /// The same, but where `barriers` says so it may pass barriers that are no PAL calls too: those whose rows are
    /// made.
    #[inline(always)]
    pub fn run_on(&mut self, units: u64, barriers: bool) -> u64
        ensures most { result ≤ units }
        ensures went { ImprecisePassingSteps barriers result self.old self.new }
        ensures pending { self.new.pending ≡ self.old.pending }
        ensures same { Stays self.old.machine self.new.machine }
    {
        match self.pending {
            None => run_machine(&mut self.machine, &mut self.rows, units, barriers),
            _ => 0,
        }
    }

    /// Makes one step by the choices of `picks`. With nothing pending it is a precise step, or asks for
    /// the value of the destination of an instruction that overflows. While a trap is pending it
    /// reports unasked where the instruction is a barrier, faults or isn't there, and after 1,024
    /// words; else it asks for a pick, and reports where that is none; else it executes, by the pick's
    /// value for the destination and the bytes that are stored, and adds the destination of an
    /// instruction with `/V` to the mask where the pick says so.
    ///
    /// Whoever makes the steps writes the line of a report that logs, after the handler has returned.
    /// `Fault::Input` comes only where the input failed in this step, and `Fault::Output` where the
    /// output did. Nothing is pending then, nor was before, and the machine is what
    /// [`Machine::step`] leaves of it.
    #[inline(always)]
    pub fn step_by<P: ChoiceSource, S: Source, K: Sink>(
        &mut self,
        choices: &mut P,
        input: &mut S,
        out: &mut K,
    ) -> Result<Event, Fault>
        ensures made { IfOk result (λ event. StepMadeByChoice P.gives_pick P.values event self.old self.new
            choices.old choices.new
            (drawn S.Source input.old input.new)
            (sink_change K.Sink out.old out.new)) }
        ensures broken { IfErr result (λ fault. StepFaultedByChoice P.gives_pick P.values fault self.old self.new
            choices.old choices.new
            (drawn S.Source input.old input.new)
            (sink_change K.Sink out.old out.new)) }
        ensures same { Stays self.old.machine self.new.machine }
    {
        step(&mut self.machine, &mut self.pending, choices, input, out)
    }

    /// Makes one step by the chooser's words, as [`Wild::step_by`] does: no word is drawn where nothing
    /// is asked, one for a value or for a pick that is a report, and two for another pick.
    #[inline(always)]
    pub fn step<C: Chooser, S: Source, K: Sink>(
        &mut self,
        chooser: &mut C,
        input: &mut S,
        out: &mut K,
    ) -> Result<Event, Fault>
        ensures made { IfOk result (λ event. ImpreciseStepMade event self.old self.new
            (oracle_of C.ahead C.drawn chooser.old) (oracle_of C.ahead C.drawn chooser.new)
            (drawn S.Source input.old input.new)
            (sink_change K.Sink out.old out.new)) }
        ensures nearer { IfOk result (λ event. is_over event ≡ false
            → waits_left self.new < waits_left self.old + 1026 * imprecise_units self.old) }
        ensures broken { IfErr result (λ fault. ImpreciseStepFaulted fault self.old self.new
            (oracle_of C.ahead C.drawn chooser.old) (oracle_of C.ahead C.drawn chooser.new)
            (drawn S.Source input.old input.new)
            (sink_change K.Sink out.old out.new)) }
        ensures same { Stays self.old.machine self.new.machine }
    {
        self.step_by(chooser, input, out)
    }
}

// The steps of a machine that go on, by the rows of its program where it has them, else each by its word.
#[inline(always)]
fn run_machine(
    machine: &mut Machine,
    rows: &mut Option<ProgramRows>,
    units: u64,
    barriers: bool,
) -> u64
    requires { IfSome rows.old (λ kept. AreRowsOf machine.old.image kept) }
    ensures most { result ≤ units }
    ensures went { PassingSteps barriers result machine.old machine.new }
    ensures rows { IfSome rows.new (λ kept. AreRowsOf machine.new.image kept) }
{
    match rows {
        Some(rows) => rows.run_fast(machine, units, barriers),
        None => machine.run_fast(units),
    }
}
