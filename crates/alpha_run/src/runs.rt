ghost use Rattle.std.specs.Prelude.{◌≤◌, ◌+◌, ◌*◌, IfOk, IfErr};
ghost use Rattle.alpha_io.specs.SinkChange.{sink_change};
ghost use Rattle.alpha_seq.specs.Devices.{drawn};
ghost use Rattle.alpha_imprecise.specs.Oracle.{oracle_of};
ghost use Rattle.alpha_run.specs.RunEffect.{watching, RunsFast, RunsTo, IsPrefixRun};

use crate::observed::{ObservedStep, observed_step};
use crate::{Observer, Steps};
use alpha_imprecise::Chooser;
use alpha_io::{Sink, Source};
use alpha_seq::{Event, Fault};

/// Makes steps until the program is over, the observer stops, or the next step would use more units than are left. It
/// answers the step behind which the run is over or was stopped, and `None` where the units are used. Steps that only
/// go on are made many at a time, as far as the observer need not be shown each.
#[inline(always)]
pub fn run<M: Steps, O: Observer, C: Chooser, S: Source, K: Sink, N: Sink>(
    machine: &mut M,
    observer: &mut O,
    chooser: &mut C,
    input: &mut S,
    out: &mut K,
    notes: &mut N,
    left: &mut u64,
) -> Result<Option<Event>, Fault>
    requires { M.ready machine.old }
    ensures made { IfOk result (λ last. RunsTo last M.steps_to M.uses (watching O.after O.lines O.stops)
        left.old left.new
        machine.old machine.new observer.old observer.new
        (oracle_of C.ahead C.drawn chooser.old) (oracle_of C.ahead C.drawn chooser.new)
        (drawn S.Source input.old input.new)
        (sink_change K.Sink out.old out.new)
        (sink_change N.Sink notes.old notes.new)) }
    ensures broken { IfErr result (λ fault. IsPrefixRun fault M.steps_to M.leaves
        (watching O.after O.lines O.stops)
        left.old left.new
        machine.old machine.new observer.old
        (oracle_of C.ahead C.drawn chooser.old) (oracle_of C.ahead C.drawn chooser.new)
        (drawn S.Source input.old input.new)
        (sink_change K.Sink out.old out.new)
        (sink_change N.Sink notes.old notes.new)) }
    ensures same { M.stays machine.old machine.new }
    ensures ready { M.ready machine.new }
{
    run_fast(machine, observer, left);
    'steps: while machine.unit() <= *left {
        *left -= machine.unit();
        let ObservedStep { event, last } = observed_step(
            machine, observer, chooser, input, out, notes,
        )?;
        if last {
            return Ok(Some(event));
        }
        run_fast(machine, observer, left);
    }
    Ok(None)
}

// Makes steps that only go on, or pass barriers that the observer need not be shown, no more than the units that are
// left and than the observer has room for.
#[inline(always)]
fn run_fast<M: Steps, O: Observer>(machine: &mut M, observer: &mut O, left: &mut u64)
    requires { M.ready machine.old }
    ensures went { RunsFast M.steps_to (watching O.after O.lines O.stops) left.old left.new
        machine.old machine.new observer.old observer.new }
    ensures nearer { left.new * 1026 + M.waits machine.new ≤ left.old * 1026 + M.waits machine.old }
    ensures same { M.stays machine.old machine.new }
    ensures ready { M.ready machine.new }
{
    let room = observer.room();
    if room == 0 {
        return;
    }
    let count = machine.run_fast(room.min(*left), observer.passes_barriers());
    observer.pass(count);
    *left -= count;
}
