ghost use Rattle.std.specs.Prelude.{◌≡◌, ◌<◌, ◌≤◌, ◌+◌, ◌*◌, ℕ, false, IfOk, IfErr};
ghost use Rattle.alpha_io.specs.SinkChange.{SinkChange, sink_change};
ghost use Rattle.alpha_pal.specs.declared.fault.Fault.{Fault as Failure};
ghost use Rattle.alpha_seq.specs.declared.machine.Machine.{Machine as Core};
ghost use Rattle.alpha_seq.specs.Devices.{Drawn, drawn};
ghost use Rattle.alpha_imprecise.specs.Oracle.{OracleDraws, oracle_of};
ghost use Rattle.alpha_seq.specs.StepLabel.{StepLabel, is_over};
ghost use Rattle.alpha_seq.specs.StepEffect.{StepEffect, FaultedStepEffect};
ghost use Rattle.alpha_run.specs.Row.{FastSteps};

use alpha_imprecise::Chooser;
use alpha_io::{Sink, Source};
use alpha_seq::{Event, Fault, Machine};

/// A machine that makes steps.
pub trait Steps {
    /// The step of the definition from one machine to another.
    ghost steps_to: { Self → StepLabel → Self → Type 0 };

    /// The machine may make a step.
    ghost ready: { Self → Type 0 };

    /// The units that the next step uses.
    ghost uses: { Self → ℕ };

    /// How many steps without a unit may follow.
    ghost waits: { Self → ℕ };

    /// The registers, memory and PC.
    ghost core: { Self → Core };

    /// What a device that failed leaves of the machine, from the machine before the step to the one behind it.
    ghost leaves: { Failure → Self → Self → Drawn → SinkChange → Type 0 };

    /// All that no step changes is the same.
    ghost stays: { Self → Self → Type 0 };

    /// The units that the next step uses: one, or none while a trap is pending.
    fn unit(&self) -> u64
        ensures { result ≡ uses self.now };

    /// The registers, memory and PC.
    fn machine(&self) -> &Machine
        ensures { result.now ≡ core self.now };

    /// Makes steps as long as each only goes on, or passes a barrier that takes and puts nothing where `barriers` says
    /// that these are passed, `units` of them at most, and answers how many it made. It may stop early: what a step
    /// does then is what [`Steps::step`] says.
    fn run_fast(&mut self, units: u64, barriers: bool) -> u64
        requires { ready self.old }
        ensures most { result ≤ units }
        ensures went { FastSteps steps_to barriers result self.old self.new }
        ensures nearer { waits self.new ≤ waits self.old }
        ensures same { stays self.old self.new }
        ensures ready { ready self.new };

    /// Makes one step.
    fn step<C: Chooser, S: Source, K: Sink>(
        &mut self,
        chooser: &mut C,
        input: &mut S,
        out: &mut K,
    ) -> Result<Event, Fault>
        requires { ready self.old }
        ensures made { IfOk result (λ event. StepEffect steps_to uses core
            (OracleDraws (oracle_of C.ahead C.drawn chooser.old) (oracle_of C.ahead C.drawn chooser.new))
            event self.old self.new
            (drawn S.Source input.old input.new)
            (sink_change K.Sink out.old out.new)) }
        ensures nearer { IfOk result (λ event. is_over event ≡ false
            → waits self.new < waits self.old + 1026 * uses self.old) }
        ensures broken { IfErr result (λ fault. FaultedStepEffect steps_to uses core leaves
            (OracleDraws (oracle_of C.ahead C.drawn chooser.old) (oracle_of C.ahead C.drawn chooser.new))
            fault self.old self.new
            (drawn S.Source input.old input.new)
            (sink_change K.Sink out.old out.new)) }
        ensures same { stays self.old self.new }
        ensures ready { ready self.new };

    /// So it is where no step was made.
    ghost stays_own: { (m : Self) → stays m m };

    /// And where two were made behind each other.
    ghost stays_on: { (m n o : Self) → stays m n → stays n o → stays m o };
}
