//! The run of the sequential machine.

ghost use Rattle.std.specs.Prelude.{◌≡◌, IsTrue, IfOk, IfErr};
ghost use Rattle.alpha_io.specs.SinkChange.{sink_change};
ghost use Rattle.alpha_mem.specs.Block.{shapes};
ghost use Rattle.alpha_seq.specs.Machine.{Stays};
ghost use Rattle.alpha_seq.specs.Devices.{drawn};
ghost use Rattle.alpha_run.specs.SeqRun.{SeqRan, SeqPrefixRun};

use crate::{NoWords, Notes, run};
use alpha_io::{Sink, Source};
use alpha_rows::RowMachine;
use alpha_seq::{Event, Fault};

/// Makes steps, in user mode and a unit each, until the program ends or no unit is left, and writes their lines to the
/// notes: a line for each overflow, and with `watch` the lines of each barrier. `left` is the number of units that may
/// be used, and the rest of them behind the call. The answer is the last event, with which the program ended, or `None`
/// where no unit is left before that: a further call goes on.
///
/// # Errors
///
/// `Input`, `Output` or `Notes`, the device that failed. What the steps before put stays, with a front of what the step
/// puts in which it failed.
#[inline(never)]
pub fn run_sequential<S: Source, K: Sink, N: Sink>(
    machine: &mut RowMachine,
    input: &mut S,
    out: &mut K,
    notes: &mut N,
    left: &mut u64,
    watch: bool,
) -> Result<Option<Event>, Fault>
    requires { IsTrue machine.old.kernel.user }
    ensures made { IfOk result (λ last. SeqRan last left.old left.new watch machine.old machine.new
        (drawn S.Source input.old input.new)
        (sink_change K.Sink out.old out.new)
        (sink_change N.Sink notes.old notes.new)) }
    ensures broken { IfErr result (λ fault. SeqPrefixRun fault left.old left.new watch
        machine.old machine.new
        (drawn S.Source input.old input.new)
        (sink_change K.Sink out.old out.new)
        (sink_change N.Sink notes.old notes.new)) }
    ensures shapes { shapes machine.new.memory ≡ shapes machine.old.memory }
    ensures same { Stays machine.old machine.new }
{
    run(
        machine,
        &mut Notes { watch },
        &mut NoWords,
        input,
        out,
        notes,
        left,
    )
}
