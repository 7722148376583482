ghost use Rattle.std.specs.Prelude.{◌≡◌, ◌≤◌, ℕ, List, Bool, IfOk, OnOk, OnErr};
ghost use Rattle.alpha_io.specs.SinkChange.{sink_change, Puts, WritesPartly, HasFailed};
ghost use Rattle.alpha_seq.specs.declared.machine.Machine.{Machine as Core};
ghost use Rattle.alpha_seq.specs.declared.event.Event.{Event as SeenEvent};
ghost use Rattle.alpha_run.specs.RunEffect.{watching, PassesOver};

use alpha_io::{Failed, Sink};
use alpha_seq::{Event, Machine};

/// Who looks at each step of a run.
pub trait Observer {
    /// The lines that it writes of a step.
    ghost lines: { Self → SeenEvent → Core → List ℕ };

    /// What it is after a step.
    ghost after: { Self → SeenEvent → Core → Self };

    /// Whether it stops the run after a step.
    ghost stops: { Self → SeenEvent → Core → Bool };

    /// How many steps that only go on it need not be shown one by one.
    ghost room: { Self → ℕ };

    /// Whether barriers that take and put nothing are to it as steps that only go on.
    ghost passing: { Self → Bool };

    /// How many steps that only go on it need not be shown one by one.
    fn room(&self) -> u64
        ensures { result ≡ room self.now };

    /// Whether barriers that take and put nothing are to it as steps that only go on.
    fn passes_barriers(&self) -> bool
        ensures { result ≡ passing self.now };

    /// Passes over so many steps that only went on, or passed such barriers, as if it had seen each.
    fn pass(&mut self, count: u64)
        requires { count ≤ room self.old }
        ensures { PassesOver (watching after lines stops) (passing self.old) count self.old self.new };

    /// Looks at a step and at the machine behind it, and answers whether the run stops here.
    fn see<N: Sink>(
        &mut self,
        event: &Event,
        machine: &Machine,
        notes: &mut N,
    ) -> Result<bool, Failed>
        ensures lines { OnOk result (Puts (sink_change N.Sink notes.old notes.new)
            (lines self.old event.now machine.now)) }
        ensures part { OnErr result (WritesPartly (sink_change N.Sink notes.old notes.new)
            (lines self.old event.now machine.now)) }
        ensures cause { OnErr result (HasFailed (sink_change N.Sink notes.old notes.new)) }
        ensures after { OnOk result (self.new ≡ after self.old event.now machine.now) }
        ensures stops { IfOk result (λ stop. stop ≡ stops self.old event.now machine.now) };
}
