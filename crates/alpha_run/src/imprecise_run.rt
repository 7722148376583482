//! The run of the imprecise machine.

ghost use Rattle.std.specs.Prelude.{◌≡◌, ℕ, List, Some, None, IfOk, IfErr};
ghost use Rattle.alpha_io.specs.SinkChange.{sink_change};
ghost use Rattle.alpha_seq.specs.Machine.{Stays};
ghost use Rattle.alpha_seq.specs.Devices.{drawn};
ghost use Rattle.alpha_imprecise.specs.Oracle.{oracle_of};
ghost use Rattle.alpha_imprecise.specs.ImpreciseState.{IsFresh};
ghost use Rattle.alpha_imprecise.specs.Restart.{IsRestartable, NeverLoses};
ghost use Rattle.alpha_run.specs.ImpreciseRan.{ImpreciseRanAs, ImprecisePrefixRun};
ghost use Rattle.alpha_run.specs.Shows.{LosesNone, ShowsSequential};

use crate::{Notes, run};
use alpha_imprecise::{Chooser, Wild};
use alpha_io::{Sink, Source};
use alpha_seq::{Event, Fault};

/// Makes steps by the chooser's words until the program ends, a trap is lost, or no unit is left and nothing is
/// pending, and writes their lines to the notes: a line for each overflow, and with `watch` the lines of each barrier.
/// `left` is the number of units that may be used, and the rest of them behind the call: a step uses one, or none
/// while a trap is pending. The answer is the last event, `Ended` or `Lost`, or `None` where no unit is left before one
/// comes.
///
/// From a machine at the start of an image that can be restarted it is the sequential run whatever the chooser answers,
/// and `Lost` never comes. Nor does it where no such run loses a trap.
///
/// # Errors
///
/// `Input`, `Output` or `Notes`, the device that failed. What the steps before put stays, with a front of what the step
/// puts in which it failed.
#[inline(never)]
pub fn run_imprecise<C: Chooser, S: Source, K: Sink, N: Sink>(
    wild: &mut Wild,
    chooser: &mut C,
    input: &mut S,
    out: &mut K,
    notes: &mut N,
    left: &mut u64,
    watch: bool,
) -> Result<Option<Event>, Fault>
    ensures made { IfOk result (λ last. ImpreciseRanAs last left.old left.new watch wild.old wild.new
        (oracle_of C.ahead C.drawn chooser.old) (oracle_of C.ahead C.drawn chooser.new)
        (drawn S.Source input.old input.new)
        (sink_change K.Sink out.old out.new)
        (sink_change N.Sink notes.old notes.new)) }
    ensures broken { IfErr result (λ fault. ImprecisePrefixRun fault left.old left.new watch wild.old wild.new
        (oracle_of C.ahead C.drawn chooser.old) (oracle_of C.ahead C.drawn chooser.new)
        (drawn S.Source input.old input.new)
        (sink_change K.Sink out.old out.new)
        (sink_change N.Sink notes.old notes.new)) }
    ensures restarted { (bytes : List ℕ) → S.left input.old ≡ Some bytes
        → IsFresh wild.old → IsRestartable wild.old.machine.image
        → ShowsSequential left.old watch bytes result wild.old.machine
        (drawn S.Source input.old input.new)
        (sink_change K.Sink out.old out.new)
        (sink_change N.Sink notes.old notes.new) }
    ensures found { wild.old.pending ≡ None → NeverLoses wild.old.machine.image
        → IfOk result LosesNone }
    ensures same { Stays wild.old.machine wild.new.machine }
{
    run(wild, &mut Notes { watch }, chooser, input, out, notes, left)
}
