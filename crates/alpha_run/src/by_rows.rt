//! The sequential machine with the rows of its program, as one that makes steps.

use crate::Steps;
use alpha_imprecise::Chooser;
use alpha_io::{Sink, Source};
use alpha_rows::RowMachine;
use alpha_seq::{Event, Fault, Machine};

impl Steps for RowMachine {
    ghost use Rattle.std.specs.Prelude.{IsTrue};
    ghost use Rattle.alpha_seq.specs.Sequential.{SeqStep, SeqStateAfterFault, one_unit, no_wait, itself};
    ghost use Rattle.alpha_run.specs.Stays.{SeqStays, seq_own, seq_on};

    ghost steps_to = { SeqStep };

    ghost ready = { λ m. IsTrue m.kernel.user };

    ghost uses = { one_unit };

    ghost waits = { no_wait };

    ghost core = { itself };

    ghost leaves = { SeqStateAfterFault };

    ghost stays = { SeqStays };

    ghost stays_own = { seq_own };

    ghost stays_on = { seq_on };

    #[inline(always)]
    fn unit(&self) -> u64 {
        1
    }

    #[inline(always)]
    fn machine(&self) -> &Machine {
        RowMachine::machine(self)
    }

    #[inline(always)]
    fn run_fast(&mut self, units: u64, barriers: bool) -> u64 {
        self.run_on(units, barriers)
    }

    #[inline(always)]
    fn step<C: Chooser, S: Source, K: Sink>(
        &mut self,
        _chooser: &mut C,
        input: &mut S,
        out: &mut K,
    ) -> Result<Event, Fault> {
        RowMachine::step(self, input, out)
    }
}
