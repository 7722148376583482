//! `replay FILE JOURNAL`: whether a journal lists a run of an image.

ghost use Rattle.std.specs.Prelude.{◌≡◌, ◌≢◌, ◌⊎◌, ℕ, List, IfOk, IfErr, None};
ghost use Rattle.alpha_io.specs.History.{IsReadInPart, IsReadWhole};
ghost use Rattle.alpha_io.specs.ShelfChange.{shelf_change};
ghost use Rattle.alpha_io.specs.SinkChange.{sink_change};
ghost use Rattle.alpha_image.specs.Parts as images;
ghost use Rattle.alpha_replay.specs.Journal.{IsJournal, Parts, spelling};
ghost use Rattle.alpha_replay.specs.JournalFault.{first_fault};
ghost use Rattle.alpha_replay.specs.Replay.{replayed};
ghost use Rattle.alpha_cmd.specs.Outcome.{continues, stops};
ghost use Rattle.alpha_cmd.specs.Commands.Replay as replays;
ghost use Rattle.alpha_cmd.specs.Commands.Replay.{SpellsJournal, JournalOf, Plays, RunOf};
ghost use Rattle.alpha_cmd.specs.CommandEffect.{CommandEffect};
ghost use Rattle.alpha_cmd.specs.Ends.{status_in};
ghost use Rattle.alpha_cmd.specs.ReplayRan.{EndsWhereReplay, IsReplayRead, ReplaysFiles, status_replayed};
ghost use Rattle.alpha_cmd.specs.RunsAsked.{WhereEnded};
ghost use Rattle.alpha_cmd.specs.ShowsDone.{DecidesDone, IsOrFails};
ghost use Rattle.alpha_cmd.specs.Stage.{Computes, Stage, stop_status, stop_line};

use crate::Status;
use crate::decision::Decision;
use crate::devices::Devices;
use crate::image::{load, read_file};
use crate::stop::Stop;
use alpha_image::Image;
use alpha_io::{Failed, Shelf, Sink, Source};
use alpha_replay::{Journal, JournalFault, ReplayFault, Replayed, read_journal};
use std::alloc::Global;

/// The most bytes of a journal file.
const JOURNAL_LIMIT: u64 = 33_554_432;

/// Reads the image of a file and the journal of another, and replays the journal on the image.
#[inline(never)]
pub(crate) fn replay<H: Shelf, S: Source, K: Sink, N: Sink>(
    alloc: Global,
    file: &str,
    journal: &str,
    devices: &mut Devices<H, S, K, N>,
) -> Result<Decision, Failed>
    ensures ran { WhereEnded result (λ decision.
        ReplaysFiles (shelf_change H.Shelf devices.old.shelf devices.new.shelf) file.now journal.now
        (λ r. DecidesDone (replays.run_line r.units r.reports) decision
        (sink_change K.Sink devices.old.out devices.new.out)
        (sink_change N.Sink devices.old.notes devices.new.notes))) }
    ensures ends { EndsWhereReplay file.now journal.now (status_in result)
        (shelf_change H.Shelf devices.old.shelf devices.new.shelf) }
    ensures does { CommandEffect H.Shelf S.Source K.Sink N.Sink (replays.form file.now journal.now) result
        devices.old devices.new }
{
    match run_of(alloc, file, journal, &mut devices.shelf) {
        Ok(replayed) => Ok(Decision::of_replay(&replayed)),
        Err(stop) => Ok(Decision::of_stop(stop)),
    }
}

// The run of a file's journal on the image of another file, which is read first.
fn run_of<H: Shelf>(
    alloc: Global,
    file: &str,
    journal: &str,
    shelf: &mut H,
) -> Result<Replayed, Stop>
    ensures read { IfOk result (λ replayed.
        ReplaysFiles (shelf_change H.Shelf shelf.old shelf.new) file.now journal.now (λ r. r ≡ replayed)) }
    ensures whole { (image : images.Parts) (listed : Parts)
        → IsReplayRead (H.replies shelf.old) (H.replies shelf.new) file.now journal.now image listed
        → IfErr result (λ stop. IsOrFails (status_replayed (replayed image listed)) (stop_status stop)) }
    ensures stage { Stage (RunOf (H.files shelf.old) file.now journal.now) (λ replayed. replayed) result
        (shelf_change H.Shelf shelf.old shelf.new) }
{
    let image = load(alloc, shelf, file)?;
    let journal = load_journal(alloc, shelf, journal)?;
    play(alloc, image, &journal)
}

// The journal of a file.
fn load_journal<H: Shelf>(alloc: Global, shelf: &mut H, name: &str) -> Result<Journal, Stop>
    ensures read { IfOk result (λ journal. IsJournal journal
        × IsReadWhole (H.replies shelf.old) (H.replies shelf.new) name.now (spelling journal)) }
    ensures part { IfErr result (λ stop. (stop ≡ Stop.OfStatus Status.NoMemory)
        ⊎ (IsReadInPart (H.replies shelf.old) (H.replies shelf.new) name.now
        ⊎ ((bytes : List ℕ) × IsReadWhole (H.replies shelf.old) (H.replies shelf.new) name.now bytes
        × (first_fault bytes ≢ None)))) }
    ensures stage { Stage (JournalOf (H.files shelf.old) name.now) (λ journal. journal) result
        (shelf_change H.Shelf shelf.old shelf.new) }
{
    let bytes = read_file(alloc, shelf, name, JOURNAL_LIMIT)?;
    journal_of(alloc, bytes.as_slice())
}

// The journal that the bytes of a file spell.
fn journal_of(alloc: Global, bytes: &[u8]) -> Result<Journal, Stop>
    ensures ok { IfOk result (λ journal. SpellsJournal bytes.now (continues journal)) }
    ensures refused { IfErr result (λ stop.
        SpellsJournal bytes.now (stops (stop_status stop) (stop_line stop))
        ⊎ ((stop ≡ Stop.OfStatus Status.NoMemory) × (first_fault bytes.now ≡ None))) }
{
    match read_journal(alloc, bytes) {
        Ok(journal) => Ok(journal),
        Err(JournalFault::NoMemory) => Err(Stop::OfStatus(Status::NoMemory)),
        Err(fault) => Err(Stop::OfStatus(Status::BadJournal(fault))),
    }
}

// The run of a journal on an image.
fn play(alloc: Global, image: Image, journal: &Journal) -> Result<Replayed, Stop>
    ensures { Computes (Plays image journal.now) (λ replayed. replayed) result }
{
    match alpha_replay::replay(alloc, image, journal) {
        Ok(replayed) => Ok(replayed),
        Err(ReplayFault::NoMemory) => Err(Stop::OfStatus(Status::NoMemory)),
        Err(fault) => Err(Stop::OfStatus(Status::NotARun(fault))),
    }
}
