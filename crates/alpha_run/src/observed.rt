ghost use Rattle.std.specs.Prelude.{◌≡◌, ◌<◌, ◌+◌, ◌*◌, ◌||◌, false, IfOk, IfErr};
ghost use Rattle.alpha_io.specs.SinkChange.{sink_change};
ghost use Rattle.alpha_seq.specs.Devices.{drawn};
ghost use Rattle.alpha_imprecise.specs.Oracle.{oracle_of};
ghost use Rattle.alpha_seq.specs.StepLabel.{is_over};
ghost use Rattle.alpha_run.specs.RunEffect.{watching, IsObservedStep, FaultedStep};

use crate::{Observer, Steps};
use alpha_imprecise::Chooser;
use alpha_io::{Failed, Sink, Source};
use alpha_seq::{Event, Fault};

/// What a step was, and whether the run ends there.
pub(crate) struct ObservedStep {
    /// How the step went.
    pub event: Event,
    /// Whether the run ends behind it.
    pub last: bool,
}

/// Makes one step, and shows it to the observer.
#[inline(always)]
pub(crate) fn observed_step<M: Steps, O: Observer, C: Chooser, S: Source, K: Sink, N: Sink>(
    machine: &mut M,
    observer: &mut O,
    chooser: &mut C,
    input: &mut S,
    out: &mut K,
    notes: &mut N,
) -> Result<ObservedStep, Fault>
    requires { M.ready machine.old }
    ensures made { IfOk result (λ t. IsObservedStep M.steps_to M.uses (watching O.after O.lines O.stops) t.event t.last
        machine.old machine.new observer.old observer.new
        (oracle_of C.ahead C.drawn chooser.old) (oracle_of C.ahead C.drawn chooser.new)
        (drawn S.Source input.old input.new)
        (sink_change K.Sink out.old out.new)
        (sink_change N.Sink notes.old notes.new)) }
    ensures nearer { IfOk result (λ t. t.last ≡ false
        → M.waits machine.new < M.waits machine.old + 1026 * M.uses machine.old) }
    ensures broken { IfErr result (λ fault. FaultedStep M.steps_to M.uses M.leaves
        (watching O.after O.lines O.stops) fault
        machine.old machine.new observer.old
        (oracle_of C.ahead C.drawn chooser.old) (oracle_of C.ahead C.drawn chooser.new)
        (drawn S.Source input.old input.new)
        (sink_change K.Sink out.old out.new)
        (sink_change N.Sink notes.old notes.new)) }
    ensures same { M.stays machine.old machine.new }
    ensures ready { M.ready machine.new }
{
    let event = machine.step(chooser, input, out)?;
    match observer.see(&event, machine.machine(), notes) {
        Ok(stop) => {
            let last = is_last(stop, &event);
            Ok(ObservedStep { event, last })
        }
        Err(Failed) => Err(Fault::Notes),
    }
}

// Whether the run ends behind a step: the observer stops it, or it is over.
#[inline(always)]
fn is_last(stop: bool, event: &Event) -> bool
    ensures { result ≡ (stop || is_over event.now) }
{
    stop || event.is_over()
}
