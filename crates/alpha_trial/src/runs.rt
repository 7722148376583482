//! The runs of a trial, and how many units they used.

ghost use Rattle.std.specs.Prelude.{◌≡◌, [], None, IsTrue, IfOk};
ghost use Rattle.alpha_imprecise.specs.Pcg.{pcg_word};
ghost use Rattle.alpha_trial.specs.Counted.{RunsTo, MakesTo};

use alpha_imprecise::{CountingChooser, PcgChooser, Wild};
use alpha_io::{MemorySink, NullSink, SureSource};
use alpha_rows::RowMachine;
use alpha_words::NoMemory;

/// Runs a machine, in user mode, for so many steps at most, and answers how many it made. `NoMemory` where the output
/// had no room.
pub(crate) fn run_sequential(
    machine: &mut RowMachine,
    input: &mut SureSource,
    out: &mut MemorySink,
    units: u64,
) -> Result<u64, NoMemory>
    requires user { IsTrue machine.old.kernel.user }
    requires input { input.old.left ≡ [] }
    requires out { out.old.written ≡ [] }
    ensures counts { IfOk result
        (λ steps. RunsTo units machine.old machine.new out.new.written steps) }
{
    let mut left = units;
    let mut notes = NullSink::new();
    match alpha_run::run_sequential(machine, input, out, &mut notes, &mut left, false) {
        Ok(_) => Ok(units - left),
        Err(_) => Err(NoMemory),
    }
}

/// Runs a machine with nothing pending for so many units at most, and answers how many it used. `NoMemory` where the
/// output had no room.
pub(crate) fn run_imprecise(
    wild: &mut Wild,
    chooser: &mut CountingChooser<PcgChooser>,
    input: &mut SureSource,
    out: &mut MemorySink,
    units: u64,
) -> Result<u64, NoMemory>
    requires pending { wild.old.pending ≡ None }
    requires input { input.old.left ≡ [] }
    requires out { out.old.written ≡ [] }
    requires drawn { chooser.old.drawn ≡ 0 }
    ensures counts { IfOk result (λ used. MakesTo units (pcg_word chooser.old.chooser)
        wild.old wild.new out.new.written used chooser.new.drawn) }
{
    let mut left = units;
    let mut notes = NullSink::new();
    match alpha_run::run_imprecise(wild, chooser, input, out, &mut notes, &mut left, false) {
        Ok(_) => Ok(units - left),
        Err(_) => Err(NoMemory),
    }
}
