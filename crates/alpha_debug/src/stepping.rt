//! The steps that a command makes.

ghost use Rattle.std.specs.Prelude.{◌≡◌, false, IsTrue, IfOk, OnOk, OnErr};
ghost use Rattle.alpha_seq.specs.Machine.{Stays};
ghost use Rattle.alpha_debug.specs.OutputChange.{output_change};
ghost use Rattle.alpha_debug.specs.Watched.{end_by};
ghost use Rattle.alpha_debug.specs.Effects.{StepsUntil, StepUntilFails, PutsNothing};

use crate::watcher::Watcher;
use alpha_io::{EmptySource, Failed, NullSink, Sink};
use alpha_run::{NoWords, run};
use alpha_seq::{End, Event, Machine};

/// Makes at most so many steps, fewer where the program ends or the wanted step came, and answers how the program
/// ended. The watcher takes what they put, so that the run's own output goes nowhere.
pub(crate) fn step_until<K: Sink>(
    machine: &mut Machine,
    watcher: &mut Watcher,
    most: u64,
    out: &mut K,
) -> Result<Option<End>, Failed>
    requires { IsTrue machine.old.kernel.user }
    ensures ok { IfOk result (λ end. StepsUntil watcher.old.until watcher.old.points.items most end
        machine.old machine.new
        (output_change K.Sink out.old watcher.old.block out.new watcher.new.block)) }
    ensures kept { OnOk result (watcher.new
        ≡ record watcher.old { block = watcher.new.block; has_put = watcher.new.has_put }) }
    ensures quiet { OnOk result (watcher.new.has_put ≡ false
        → PutsNothing watcher.old.until watcher.old.points.items most machine.old) }
    ensures refused { OnErr result (StepUntilFails watcher.old.until watcher.old.points.items most
        machine.old
        (output_change K.Sink out.old watcher.old.block out.new watcher.new.block)) }
    ensures same { Stays machine.old machine.new }
{
    let mut left = most;
    let last = run(
        machine,
        watcher,
        &mut NoWords,
        &mut EmptySource::new(),
        &mut NullSink::new(),
        out,
        &mut left,
    );
    match last {
        Ok(last) => Ok(end_by(&last)),
        Err(_) => Err(Failed),
    }
}

// How the program ended, by the last step, if it has.
fn end_by(last: &Option<Event>) -> Option<End>
    ensures { result ≡ end_by last.now }
{
    match last {
        Some(Event::Ended(end)) => Some(*end),
        _ => None,
    }
}
