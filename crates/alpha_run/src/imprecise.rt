//! The imprecise machine, as one that makes steps.

use crate::Steps;
use alpha_imprecise::{Chooser, Wild};
use alpha_io::{Sink, Source};
use alpha_seq::{Event, Fault, Machine};

impl Steps for Wild {
    ghost use Rattle.std.specs.Prelude.{⊤};
    ghost use Rattle.alpha_imprecise.specs.ImpreciseStepEffect.{ImpreciseStep};
    ghost use Rattle.alpha_imprecise.specs.ImpreciseStepEffect.{ImpreciseStateAfterFault, imprecise_units, waits_left};
    ghost use Rattle.alpha_imprecise.specs.ImpreciseStepEffect.{imprecise_core};
    ghost use Rattle.alpha_run.specs.Stays.{ImpreciseStays, imprecise_own, imprecise_on};

    ghost steps_to = { ImpreciseStep };

    ghost ready = { λ _. ⊤ };

    ghost uses = { imprecise_units };

    ghost waits = { waits_left };

    ghost core = { imprecise_core };

    ghost leaves = { ImpreciseStateAfterFault };

    ghost stays = { ImpreciseStays };

    ghost stays_own = { imprecise_own };

    ghost stays_on = { imprecise_on };

    #[inline(always)]
    fn unit(&self) -> u64 {
        Wild::unit(self)
    }

    #[inline(always)]
    fn machine(&self) -> &Machine {
        Wild::machine(self)
    }

    #[inline(always)]
    fn run_fast(&mut self, units: u64, barriers: bool) -> u64 {
        self.run_on(units, barriers)
    }

    #[inline(always)]
    fn step<C: Chooser, S: Source, K: Sink>(
        &mut self,
        chooser: &mut C,
        input: &mut S,
        out: &mut K,
    ) -> Result<Event, Fault> {
        Wild::step(self, chooser, input, out)
    }
}
