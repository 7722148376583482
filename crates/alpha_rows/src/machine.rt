ghost use Rattle.std.specs.Prelude.{◌≡◌, ◌≤◌, IsTrue, IfOk, IfErr};
ghost use Rattle.alpha_io.specs.SinkChange.{sink_change};
ghost use Rattle.alpha_mem.specs.Block.{shapes};
ghost use Rattle.alpha_seq.specs.Machine.{Stays};
ghost use Rattle.alpha_seq.specs.Devices.{drawn};
ghost use Rattle.alpha_seq.specs.FastSteps.{FastSteps};
ghost use Rattle.alpha_rows.specs.PassingSteps.{PassingSteps};
ghost use Rattle.alpha_seq.specs.Sequential.{SeqStepEffect, FaultedSeqStep};

use crate::ProgramRows;
use alpha_io::{Sink, Source};
use alpha_seq::{Event, Fault, Machine};
use std::alloc::Global;
use std::marker::Model;

/// The sequential machine with the rows of its program, once they are made. A clause sees the machine.
#[derive(Drop)]
pub struct RowMachine {
    machine: Machine,
    rows: ProgramRows,
}

impl Model for RowMachine {
    ghost use Rattle.alpha_seq.specs.declared.machine.Machine.{Machine};
    ghost use Rattle.alpha_rows.specs.PassingSteps.{AreRowsOf};

    ghost Value = { Machine };

    ghost view = { λ m. m.machine };

    ghost invariant = { λ m. AreRowsOf m.machine.image m.rows };
}

impl RowMachine {
    /// The machine, with no row made.
    pub fn new(alloc: Global, machine: Machine) -> RowMachine
        ensures { result ≡ machine }
    {
        let rows = ProgramRows::new(alloc, &machine.image);
        RowMachine { machine, rows }
    }

    /// The machine.
    #[inline(always)]
    pub fn machine(&self) -> &Machine
        ensures { result.now ≡ self.now }
    {
        &self.machine
    }

    /// The machine alone, without the rows.
    pub fn into_machine(self) -> Machine
        ensures { result ≡ self }
    {
        self.machine
    }

    /// Makes steps as long as each only goes on, `units` of them at most, and answers how many it made. It may stop
    /// early: what a step does then is what [`RowMachine::step`] says.
    #[inline(always)]
    pub fn run_fast(&mut self, units: u64) -> u64
        ensures most { result ≤ units }
        ensures went { FastSteps result self.old self.new }
    {
        self.run_on(units, false)
    }

    /// The same, but it passes barriers that are no PAL calls too where `barriers` says so.
    #[inline(always)]
    pub fn run_on(&mut self, units: u64, barriers: bool) -> u64
        ensures most { result ≤ units }
        ensures went { PassingSteps barriers result self.old self.new }
    {
        self.rows.run_fast(&mut self.machine, units, barriers)
    }

    /// Makes one step, as [`Machine::step`] does, in user mode.
    #[inline(always)]
    pub fn step<S: Source, K: Sink>(&mut self, input: &mut S, out: &mut K) -> Result<Event, Fault>
        requires { IsTrue self.old.kernel.user }
        ensures made { IfOk result (λ event. SeqStepEffect event self.old self.new
            (drawn S.Source input.old input.new)
            (sink_change K.Sink out.old out.new)) }
        ensures broken { IfErr result (λ fault. FaultedSeqStep fault self.old self.new
            (drawn S.Source input.old input.new)
            (sink_change K.Sink out.old out.new)) }
        ensures shapes { shapes self.new.memory ≡ shapes self.old.memory }
        ensures same { Stays self.old self.new }
    {
        let insn = self.machine.insn();
        self.machine.step_by(insn, input, out)
    }
}
