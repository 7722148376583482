//! A run of the imprecise machine, with its journal.

ghost use Rattle.std.specs.Prelude.{◌≡◌, ℕ, List, None, Some, false, IfOk, IfErr};
ghost use Rattle.alpha_io.specs.SinkChange.{sink_change};
ghost use Rattle.alpha_seq.specs.Devices.{drawn};
ghost use Rattle.alpha_seq.specs.Machine.{Stays, program_of};
ghost use Rattle.alpha_imprecise.specs.Restart.{NeverLoses};
ghost use Rattle.alpha_imprecise.specs.Oracle.{oracle_of};
ghost use Rattle.alpha_imprecise.specs.ImpreciseState.{IsFresh};
ghost use Rattle.alpha_imprecise.specs.ImpreciseStepEffect.{ImpreciseStep, ImpreciseStateAfterFault, imprecise_units};
ghost use Rattle.alpha_run.specs.RunEffect.{IsPrefixRun, RunsTo};
ghost use Rattle.alpha_replay.specs.Endings.{FitsEnding};
ghost use Rattle.alpha_replay.specs.JournalEnd.{JournalLosesNone, JournalTold, MakesJournal};
ghost use Rattle.alpha_replay.specs.Recorder.{last_ending, outcome, recording};

use crate::journal_builder::JournalBuilder;
use crate::recorder::Recorder;
use crate::{Ending, JournalEnd};
use alpha_imprecise::{Chooser, Wild};
use alpha_io::{Sink, Source};
use alpha_run::run;
use alpha_seq::{Event, Fault};
use alpha_words::Completion;
use std::alloc::Global;

/// Makes the run that [`alpha_run::run_imprecise`] makes of so many units without `watch`, together with its journal,
/// whose input is the bytes that the run has taken. `Full` comes directly after the first step that brings the run
/// past one of the four limits of a journal, before its end is looked at; a device's fault in the same step comes
/// before it. All memory that it needs is taken before the first step; rows of the code are made where there is more.
///
/// From a machine at the start and with nothing pending the items list the run, as [`crate::laws_of_journaled_runs`]
/// says. Over a source that tells nothing too its journal has the moves, the bytes taken and the bytes put of just
/// the steps that were made.
pub fn make_journal<C: Chooser, S: Source, K: Sink, N: Sink>(
    alloc: Global,
    wild: &mut Wild,
    chooser: &mut C,
    input: &mut S,
    out: &mut K,
    notes: &mut N,
    units: u64,
) -> JournalEnd
    ensures made { MakesJournal result units wild.old wild.new
        (oracle_of C.ahead C.drawn chooser.old) (oracle_of C.ahead C.drawn chooser.new)
        (drawn S.Source input.old input.new)
        (sink_change K.Sink out.old out.new)
        (sink_change N.Sink notes.old notes.new) }
    ensures told { (bytes : List ℕ) (ahead : ℕ → ℕ) → S.left input.old ≡ Some bytes
        → C.ahead chooser.old ≡ Some ahead → IsFresh wild.old
        → JournalTold result units bytes ahead (program_of wild.old.machine)
        (drawn S.Source input.old input.new)
        (sink_change K.Sink out.old out.new)
        (sink_change N.Sink notes.old notes.new) }
    ensures found { wild.old.pending ≡ None → NeverLoses wild.old.machine.image
        → JournalLosesNone result }
    ensures same { Stays wild.old.machine wild.new.machine }
{
    let Ok(tape) = JournalBuilder::new(alloc) else {
        return JournalEnd::NoMemory;
    };
    let completion = wild.machine().completion;
    let mut recorder = Recorder {
        builder: tape,
        full: false,
    };
    match run_and_record(&mut recorder, wild, chooser, input, out, notes, units) {
        Ok(last) => outcome(recorder, completion, last),
        Err(fault) => JournalEnd::Failed(fault),
    }
}

// Makes the run, and notes it, until it is over, a device fails or the tape is full. It is never inlined, so that the
// loop of the run is compiled by itself.
#[inline(never)]
fn run_and_record<C: Chooser, S: Source, K: Sink, N: Sink>(
    recorder: &mut Recorder,
    wild: &mut Wild,
    chooser: &mut C,
    input: &mut S,
    out: &mut K,
    notes: &mut N,
    units: u64,
) -> Result<Option<Event>, Fault>
    ensures made { IfOk result (λ last. (left : ℕ) × RunsTo last ImpreciseStep imprecise_units recording units left
        wild.old wild.new recorder.old recorder.new
        (oracle_of C.ahead C.drawn chooser.old) (oracle_of C.ahead C.drawn chooser.new)
        (drawn S.Source input.old input.new)
        (sink_change K.Sink out.old out.new)
        (sink_change N.Sink notes.old notes.new)) }
    ensures broken { IfErr result (λ fault. (left : ℕ)
        × IsPrefixRun fault ImpreciseStep ImpreciseStateAfterFault recording units left
        wild.old wild.new recorder.old
        (oracle_of C.ahead C.drawn chooser.old) (oracle_of C.ahead C.drawn chooser.new)
        (drawn S.Source input.old input.new)
        (sink_change K.Sink out.old out.new)
        (sink_change N.Sink notes.old notes.new)) }
    ensures same { Stays wild.old.machine wild.new.machine }
{
    let mut left = units;
    run(wild, recorder, chooser, input, out, notes, &mut left)
}

// What was made of a run that no device's fault cut short, by its last step.
fn outcome(recorder: Recorder, completion: Completion, last: Option<Event>) -> JournalEnd
    ensures { result ≡ outcome last completion recorder }
{
    if recorder.full {
        return JournalEnd::Full;
    }
    let ending = ending_of(&last);
    JournalEnd::Made(last, recorder.builder.journal(completion, ending))
}

// The ending that a journal has of a run with this last step.
fn ending_of(last: &Option<Event>) -> Ending
    ensures value { result ≡ last_ending last.now }
    ensures fits { FitsEnding result }
{
    match last {
        Some(event) => Ending::of_event(event),
        None => Ending::Spent,
    }
}
