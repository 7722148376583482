//! `record FILE OUT`: a run of the image's program by the imprecise machine, whose journal is kept as a
//! file.

ghost use Rattle.std.specs.Prelude.{◌≡◌, ◌≢◌, ◌⊎◌, ◌++◌, ◌∷◌, [], ℕ, List, Bool, false, true, Option, length};
ghost use Rattle.alpha_io.specs.Faults.{Faulted};
ghost use Rattle.alpha_io.specs.Files.{HasFile, Refuses};
ghost use Rattle.alpha_io.specs.History.{Kept, Reply};
ghost use Rattle.alpha_io.specs.ShelfChange.{shelf_change};
ghost use Rattle.alpha_io.specs.SinkChange.{sink_change};
ghost use Rattle.alpha_request.specs.Options.{origin_of};
ghost use Rattle.alpha_seq.specs.Devices.{LeavesEnd, drawn};
ghost use Rattle.alpha_seq.specs.declared.end.End.{End};
ghost use Rattle.alpha_imprecise.specs.ChosenRun.{LostTrap};
ghost use Rattle.alpha_replay.specs.Journal.{IsJournal, Parts, spelling};
ghost use Rattle.alpha_cmd.specs.AnswerBy.{world};
ghost use Rattle.alpha_cmd.specs.Commands.Imprecise.{IsBegun, IsEndStatus, MayRun, plan_in, imprecise_status};
ghost use Rattle.alpha_cmd.specs.Commands.Record as recordings;
ghost use Rattle.alpha_cmd.specs.Commands.Record.{HasJournal, IsOver, KeepsRun, KeptBehind, RunsOn, WhenMade, WhenOver};
ghost use Rattle.alpha_cmd.specs.CommandEffect.{CommandEffect};
ghost use Rattle.alpha_cmd.specs.Ends.{status_in};
ghost use Rattle.alpha_cmd.specs.Kept.{Serves};
ghost use Rattle.alpha_cmd.specs.RecordRan.{DecidesRecord, ReadsAndKeeps};
ghost use Rattle.alpha_cmd.specs.RunsAsked.{EndsRecord, EndsWhereRecord, HasEnded, WhereEnded};

use crate::Status;
use crate::decision::Decision;
use crate::devices::Devices;
use crate::imprecise::{Begun, ImpreciseCall, prepare};
use alpha_io::{Failed, Shelf, Sink, Source};
use alpha_replay::{Journal, JournalEnd, journal_bytes, make_journal};
use alpha_request::RunOptions;
use std::alloc::Global;

// A run with its journal, or why there is none.
#[derive(Drop)]
enum Recorded {
    // It was made: what is decided behind it, and its journal.
    Made(Decision, Journal),
    // It was stopped or cut short, or it wasn't begun.
    Over(Result<Decision, Failed>),
}

/// Reads the image of a file and the choices, judges the image unless the verdict is passed over, runs
/// it over the input, and keeps the journal of the run under another name.
#[inline(never)]
pub(crate) fn record<H: Shelf, S: Source, K: Sink, N: Sink>(
    alloc: Global,
    asked: ImpreciseCall<'_>,
    name: &str,
    devices: &mut Devices<H, S, K, N>,
) -> Result<Decision, Failed>
    ensures does { CommandEffect H.Shelf S.Source K.Sink N.Sink
        (recordings.form asked.entry.options (origin_of asked.entry.choices) asked.entry.force
        asked.entry.file.now name.now) result devices.old devices.new }
    ensures ran { WhereEnded result (λ decision. IsEndStatus true decision.status
        → ReadsAndKeeps (shelf_change H.Shelf devices.old.shelf devices.new.shelf) (origin_of asked.entry.choices)
        asked.entry.file.now name.now
        (λ plan journal. DecidesRecord asked.entry.options asked.entry.force plan journal decision
        (drawn S.Source devices.old.input devices.new.input)
        (sink_change K.Sink devices.old.out devices.new.out)
        (sink_change N.Sink devices.old.notes devices.new.notes))) }
    ensures ends { EndsWhereRecord asked.entry.force (origin_of asked.entry.choices) asked.entry.file.now name.now
        (status_in result) (shelf_change H.Shelf devices.old.shelf devices.new.shelf) }
    ensures keeps { (end : Option End) (lost : Option LostTrap) (n : ℕ)
        → status_in result ≡ imprecise_status end lost n
        → KeepsRun asked.entry.options (origin_of asked.entry.choices) asked.entry.force
        asked.entry.file.now name.now (world H.Shelf S.Source devices.old.shelf devices.old.input)
        (H.files devices.new.shelf) }
{
    match prepare(alloc, &asked, &mut devices.shelf) {
        Ok(mut begun) => record_from_start(alloc, &mut begun, asked.options, name, devices),
        Err(stop) => Ok(Decision::of_stop(stop)),
    }
}

// Runs a machine from the start, and keeps the journal of the run. The keep comes behind the run: before it
// no file is changed. What the run puts and notes is written while it is made.
fn record_from_start<H: Shelf, S: Source, K: Sink, N: Sink>(
    alloc: Global,
    begun: &mut Begun,
    options: RunOptions,
    name: &str,
    devices: &mut Devices<H, S, K, N>,
) -> Result<Decision, Failed>
    requires { IsBegun options begun.old }
    ensures does { (force : Bool) → MayRun force (plan_in begun.old)
        → CommandEffect H.Shelf S.Source K.Sink N.Sink
        (recordings.on options force name.now (plan_in begun.old)) result devices.old devices.new }
    ensures ran { (force : Bool) → MayRun force (plan_in begun.old)
        → WhereEnded result (λ decision. IsEndStatus true decision.status → (p : Parts) × IsJournal p
        × (H.replies devices.new.shelf ≡ H.replies devices.old.shelf ++ Kept name.now (spelling p) true ∷ [])
        × DecidesRecord options force (plan_in begun.old) p decision
        (drawn S.Source devices.old.input devices.new.input)
        (sink_change K.Sink devices.old.out devices.new.out)
        (sink_change N.Sink devices.old.notes devices.new.notes)) }
    ensures ends { (force : Bool) → MayRun force (plan_in begun.old) → (replies : List Reply)
        × (H.replies devices.new.shelf ≡ H.replies devices.old.shelf ++ replies)
        × EndsRecord force name.now replies (status_in result) }
    ensures keeps { (force : Bool) → MayRun force (plan_in begun.old)
        → (end : Option End) (lost : Option LostTrap) (n : ℕ)
        → status_in result ≡ imprecise_status end lost n
        → (p : Parts) × IsJournal p × HasJournal options (S.left devices.old.input) (plan_in begun.old) p
        × HasFile (H.files devices.new.shelf) name.now (spelling p) }
{
    match run_with_journal(alloc, begun, options, devices) {
        Recorded::Made(decision, journal) => {
            Ok(keep_journal(alloc, &journal, name, decision, &mut devices.shelf))
        }
        Recorded::Over(result) => result,
    }
}

// Keeps a journal behind its run, of which this was decided.
fn keep_journal<H: Shelf>(
    alloc: Global,
    journal: &Journal,
    name: &str,
    decision: Decision,
    shelf: &mut H,
) -> Decision
    ensures kept { KeptBehind
        (Refuses (H.files shelf.old) (H.takes shelf.old name.now (length (spelling journal.now))))
        (Faulted (H.faults shelf.old) (H.faults shelf.new)) name.now (spelling journal.now)
        (shelf_change H.Shelf shelf.old shelf.new) decision result }
    ensures good { IsJournal journal.now }
    ensures stands { HasEnded result.status → (result ≡ decision)
        × (H.replies shelf.new ≡ H.replies shelf.old ++ Kept name.now (spelling journal.now) true ∷ []) }
    ensures ends { ((result.status ≡ Status.NoMemory) × (H.replies shelf.new ≡ H.replies shelf.old))
        ⊎ (((result ≡ decision)
        × (H.replies shelf.new ≡ H.replies shelf.old ++ Kept name.now (spelling journal.now) true ∷ []))
        ⊎ ((result.status ≡ Status.ShelfFault)
        × (H.replies shelf.new ≡ H.replies shelf.old ++ Kept name.now (spelling journal.now) false ∷ []))) }
    ensures shelf { decision.status ≢ Status.ShelfFault
        → Serves (shelf_change H.Shelf shelf.old shelf.new)
        (result.status ≢ Status.ShelfFault) }
{
    match journal_bytes(alloc, journal) {
        Ok(bytes) => match shelf.keep(name, bytes.as_slice()) {
            Ok(()) => decision,
            Err(_) => Decision::of_status(Status::ShelfFault),
        },
        Err(_) => Decision::of_status(Status::NoMemory),
    }
}

// Runs a machine from the start, with its journal.
#[inline(never)]
fn run_with_journal<H: Shelf, S: Source, K: Sink, N: Sink>(
    alloc: Global,
    begun: &mut Begun,
    options: RunOptions,
    devices: &mut Devices<H, S, K, N>,
) -> Recorded
    requires { IsBegun options begun.old }
    ensures made { WhenMade result (λ decision journal. (force : Bool)
        → MayRun force (plan_in begun.old)
        → RunsOn options force (S.left devices.old.input) (plan_in begun.old) journal decision
        (S.left devices.new.input) (sink_change K.Sink devices.old.out devices.new.out)
        (sink_change N.Sink devices.old.notes devices.new.notes)) }
    ensures ran { WhenMade result (λ decision journal. (force : Bool) → MayRun force (plan_in begun.old)
        → DecidesRecord options force (plan_in begun.old) journal decision
        (drawn S.Source devices.old.input devices.new.input)
        (sink_change K.Sink devices.old.out devices.new.out)
        (sink_change N.Sink devices.old.notes devices.new.notes)) }
    ensures faults_unchanged { WhenMade result (λ decision journal.
        S.faults devices.new.input ≡ S.faults devices.old.input) }
    ensures rest { WhenMade result (λ decision journal.
        LeavesEnd (drawn S.Source devices.old.input devices.new.input)) }
    ensures over { WhenOver result (λ r. (force : Bool) (name : List ℕ)
        → MayRun force (plan_in begun.old)
        → CommandEffect H.Shelf S.Source K.Sink N.Sink (recordings.on options force name (plan_in begun.old)) r
        devices.old devices.new) }
    ensures status { WhenOver result (λ r. IsOver (status_in r)) }
    ensures shelf { devices.new.shelf ≡ devices.old.shelf }
{
    match make_journal(
        alloc,
        &mut begun.wild,
        &mut begun.chooser,
        &mut devices.input,
        &mut devices.out,
        &mut devices.notes,
        options.steps,
    ) {
        JournalEnd::Made(last, journal) => {
            Recorded::Made(Decision::after_run(last, begun.chooser.drawn()), journal)
        }
        JournalEnd::Failed(fault) => Recorded::Over(Decision::of_device_fault(fault)),
        JournalEnd::Full => Recorded::Over(Ok(Decision::of_status(Status::JournalFull))),
        JournalEnd::NoMemory => Recorded::Over(Ok(Decision::of_status(Status::NoMemory))),
    }
}
