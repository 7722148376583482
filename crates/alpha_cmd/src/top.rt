ghost use Rattle.std.specs.Prelude.{◌≡◌, ◌≢◌, ◌<◌, ◌≤◌, ◌⊎◌, ℕ, List, IfOk};
ghost use Rattle.alpha_io.specs.Faults.{Faulted};
ghost use Rattle.alpha_io.specs.ShelfChange.{shelf_change};
ghost use Rattle.alpha_io.specs.SinkChange.{sink_change};
ghost use Rattle.alpha_request.specs.Command as commands;
ghost use Rattle.alpha_request.specs.Command.{Command};
ghost use Rattle.alpha_request.specs.CommandOf.{command_of};
ghost use Rattle.alpha_seq.specs.Devices.{LeavesEnd, drawn};
ghost use Rattle.alpha_cmd.specs.Alike.{Alike};
ghost use Rattle.alpha_cmd.specs.AnswerBy.{world};
ghost use Rattle.alpha_cmd.specs.Asks.{AsksFor};
ghost use Rattle.alpha_cmd.specs.Call.{called};
ghost use Rattle.alpha_cmd.specs.Checked.{Checked};
ghost use Rattle.alpha_cmd.specs.Commands.{form_of, MayTake};
ghost use Rattle.alpha_cmd.specs.OfImage.Debug.{LeavesOfScript};
ghost use Rattle.alpha_cmd.specs.Commands.Link.{KeepsLinks};
ghost use Rattle.alpha_cmd.specs.SourceCommands.Module.{KeepsModules};
ghost use Rattle.alpha_cmd.specs.Commands.Record.{KeepsUnder};
ghost use Rattle.alpha_cmd.specs.CommandEffect.{CommandEffect};
ghost use Rattle.alpha_cmd.specs.Ends.{OutcomeOrFault, status_in};
ghost use Rattle.alpha_cmd.specs.Fixed.{Fixes};
ghost use Rattle.alpha_cmd.specs.Kept.{Serves};
ghost use Rattle.alpha_cmd.specs.Listed.{Listed};
ghost use Rattle.alpha_cmd.specs.Promises.{EndsWhole, EndsCut, GivesOne, GivesThe, ServesUnder, SparesFiles};
ghost use Rattle.alpha_cmd.specs.Promises.{TakesInput, DrawsUnder, LeavesScript, EndsAsked, LosesNone};
ghost use Rattle.alpha_cmd.specs.Ran.{Ran};
ghost use Rattle.alpha_cmd.specs.RunsAsked.{DecidesAsked, EndsAsRun, RunsAsked, WhereEnded};
ghost use Rattle.alpha_cmd.specs.ReadsNothing.{Unread, UnreadAlike};
ghost use Rattle.alpha_cmd.specs.Replayed.{ShowsRuns};
ghost use Rattle.alpha_cmd.specs.Replied.{Replied, Replies};
ghost use Rattle.alpha_cmd.specs.Restarts.{Restarts};
ghost use Rattle.alpha_cmd.specs.Accepts.{Accepts};
ghost use Rattle.alpha_cmd.specs.ToldRun.{RanTold};
ghost use Rattle.alpha_cmd.specs.Tried.{AttemptedBy};
ghost use Rattle.alpha_cmd.specs.Attempts.{CountStays};

use crate::Status;
use crate::decision::Decision;
use crate::devices::Devices;
use crate::imprecise::{ImpreciseCall, imprecise};
use crate::link::link;
use crate::of_image::of_image;
use crate::record::record;
use crate::replay::replay;
use crate::run::run;
use crate::source_commands::make;
use crate::trial::trial;
use alpha_io::{Failed, Shelf, Sink, Source};
use alpha_request::{Refusal, Request, Words, request_of};
use std::alloc::Global;

/// Does what the words ask, and answers the status.
///
/// - `check FILE` judges the image of the file: `accepted` goes to the output, or the line of the
///   least broken place to the notes.
/// - `dis FILE` writes its listing to the output.
/// - `asm FILE OUT` assembles the source of the file, and keeps its image as OUT.
/// - `fix FILE OUT` keeps the source with the barriers that it needs as OUT.
/// - `module FILE OUT` keeps the module of the source as OUT, if its code is accepted.
/// - `link [--entry NAME] OUT FILE...` links modules, and keeps their image as OUT.
/// - `run FILE` runs an image's program over the input: what it puts goes to the output, and the lines
///   of the run to the notes.
/// - `run --imprecise FILE` does so by the imprecise machine: an image that `check` refuses is refused,
///   unless `--force` is given, and an accepted one has what `run FILE` has.
/// - `record FILE OUT` does that too, and keeps the journal of the run as OUT.
/// - `replay FILE JOURNAL` replays the journal on the image of FILE: the numbers of units and of reports
///   go to the output, or why it is no run of it to the notes.
/// - `debug FILE` answers the input as a script on the program, and what it answers goes to the output.
/// - `trial N` writes a line for each of its runs there.
///
/// Each other status has its line on the notes.
pub fn alpha_top<H: Shelf, S: Source, K: Sink, N: Sink>(
    alloc: Global,
    words: &Words,
    devices: &mut Devices<H, S, K, N>,
) -> Status
    // The status, all that is written and the input left are an answer to the words, or what a fault
    // of the shelf or of the input or want of memory leaves of it.
    ensures whole { EndsWhole words.now result (called H.Shelf S.Source K.Sink N.Sink devices.old devices.new) }

    // Where something couldn't be written, a sink failed, and a prefix of that was written.
    ensures part { EndsCut words.now result (called H.Shelf S.Source K.Sink N.Sink devices.old devices.new) }

    // The shelf fails only under its status, or under that of a sink. Told files stay, but for the
    // one that a command keeps; under the status of the shelf's fault but for one whose keep failed.
    ensures shelf { ServesUnder result (shelf_change H.Shelf devices.old.shelf devices.new.shelf) }
    ensures files { SparesFiles words.now result (called H.Shelf S.Source K.Sink N.Sink devices.old devices.new) }

    // Input is not touched, but by a run or a session that was begun, and it fails only under its
    // status, or under that of a sink.
    ensures input { (devices.new.input ≡ devices.old.input) ⊎ TakesInput words.now result }
    ensures source { DrawsUnder result (drawn S.Source devices.old.input devices.new.input) }

    // Whatever fails, what is left of an input that told its bytes is an end of them.
    ensures rest { LeavesEnd (drawn S.Source devices.old.input devices.new.input) }

    // The status of a program that didn't end by exit, or that wasn't run to its end, is one of the
    // end of the words' command. So a run of the imprecise machine never loses a trap, whatever the
    // input tells, unless the verdict is passed over.
    ensures ended { EndsAsked words.now result }
    ensures found { LosesNone words.now result }

    // Of a script no more is taken than the bytes that count and one.
    ensures script { LeavesScript words.now (drawn S.Source devices.old.input devices.new.input) }

    // Where no device fails, one of the words' answers is given, or memory ran out.
    ensures given { GivesOne words.now result (called H.Shelf S.Source K.Sink N.Sink devices.old devices.new) }

    // Where what the words' command reads is told and no device fails, the words' answer is given,
    // or memory ran out.
    ensures exact { GivesThe words.now result (called H.Shelf S.Source K.Sink N.Sink devices.old devices.new) }

    // Where a command is done that judges an image or keeps what it makes of files, the shelf was asked for
    // these files alone, from their start to their end, and to keep just what is made of the bytes that it
    // gave, which it did. Whatever the shelf tells.
    ensures replied { Replies words.now result (shelf_change H.Shelf devices.old.shelf devices.new.shelf) }

    // Where a check is done, the bytes that the shelf's calls gave of its file, from its start to its end
    // and nothing else, spell an image that can be restarted after each late trap, whatever the shelf tells.
    // So it is of the two plain words `check FILE`.
    ensures restarts { Restarts words.now result (shelf_change H.Shelf devices.old.shelf devices.new.shelf) }
    ensures checked { Checked words.now result (shelf_change H.Shelf devices.old.shelf devices.new.shelf) }

    // Where the shelf tells that the file spells an accepted image and no device fails, a check of it
    // is done, or memory ran out.
    ensures accepted { Accepts words.now result (called H.Shelf S.Source K.Sink N.Sink devices.old devices.new) }

    // A run of a told file that spells an accepted image, over a told input, has the answer of the
    // sequential run of that image by either machine, whatever words the imprecise one draws and whether
    // the verdict is passed over: only the number of words, which the status carries where the program
    // has exited, is its own. So it is of the plain words `run FILE` and `run --imprecise FILE`.
    ensures alike { Alike words.now result (called H.Shelf S.Source K.Sink N.Sink devices.old devices.new) }
    ensures ran_told { RanTold words.now result (called H.Shelf S.Source K.Sink N.Sink devices.old devices.new) }

    // Under the status of a run's end, the bytes that the shelf's calls gave of the file, from its start to
    // its end and nothing else, spell an image, accepted where the imprecise machine ran it by a seed and
    // unforced. Status, output and notes are those of a run of the sequential machine whose reads are what the
    // source's calls gave, and nothing else was asked of it, but for the number of words in the status. And
    // where those bytes spell such an image, the status is one of a run's end, but where memory ran out or the
    // input or a sink failed. Whatever shelf and source tell. `ran` says so of the plain words `run FILE` and
    // `run --imprecise FILE`.
    ensures runs { RunsAsked words.now result (called H.Shelf S.Source K.Sink N.Sink devices.old devices.new) }
    ensures ran { Ran words.now result (called H.Shelf S.Source K.Sink N.Sink devices.old devices.new) }

    // Where a listing is done, the bytes that the shelf's calls gave of the file, from its start to its end and
    // nothing else, spell an image, and just its listing was put, whatever the shelf tells. And where those bytes
    // spell one, it is done, but where memory ran out or a sink failed.
    ensures listed { Listed words.now result (called H.Shelf S.Source K.Sink N.Sink devices.old devices.new) }

    // A run of a told file whose program reads nothing in the steps that are asked for has the answer of
    // the sequential run over no input, whatever the source tells or doesn't tell. So has a run of the
    // imprecise machine of such a file that a check accepts, but for the number of words that it draws.
    ensures unread { Unread words.now result (called H.Shelf S.Source K.Sink N.Sink devices.old devices.new) }
    ensures unread_alike { UnreadAlike words.now result
        (called H.Shelf S.Source K.Sink N.Sink devices.old devices.new) }

    // Where barriers were put into a source, the file kept is that source with a barrier at each cut of
    // its code. Its image is accepted and can be restarted, and needs each of the barriers.
    ensures fixed { Fixes words.now result (H.files devices.old.shelf) (H.files devices.new.shelf) }

    // Where a module is made, the file that is kept spells the one that the source makes, and no place
    // of its code is broken.
    ensures modules { KeepsModules words.now result (H.files devices.old.shelf) (H.files devices.new.shelf) }

    // Where modules are linked, each of the files spells one, and the file that is kept spells the image
    // that they link to. Where no place of any module's code is broken, the image is accepted and can be
    // restarted.
    ensures links { KeepsLinks words.now result (H.files devices.old.shelf) (H.files devices.new.shelf) }

    // Where a replay is done, its file spells an image, and its journal lists a run of it: over the
    // journal's input, with its output and its end. On an accepted image the sequential run is that too.
    ensures replays { ShowsRuns words.now result (H.files devices.old.shelf) }

    // Under the status of a run's end a journal was kept, and it is a good one. Where the input is told,
    // it is that of the run that the words make, to its end or to all its units.
    ensures recorded { KeepsUnder (AsksFor words.now) result
        (world H.Shelf S.Source devices.old.shelf devices.old.input)
        (H.files devices.new.shelf) }
{
    match decide(alloc, words, devices) {
        Ok(decision) => decision.deliver(&mut devices.out, &mut devices.notes),
        Err(Failed) => Status::SinkFault,
    }
}

// What the words ask for is decided. A command that writes while it works has then written all but
// what its decision has.
fn decide<H: Shelf, S: Source, K: Sink, N: Sink>(
    alloc: Global,
    words: &Words,
    devices: &mut Devices<H, S, K, N>,
) -> Result<Decision, Failed>
    ensures tried { OutcomeOrFault (AttemptedBy (Faulted (H.faults devices.old.shelf) (H.faults devices.new.shelf))
        (Faulted (S.faults devices.old.input) (S.faults devices.new.input)) words.now
        (world H.Shelf S.Source devices.old.shelf devices.old.input)) result (S.left devices.new.input)
        (shelf_change H.Shelf devices.old.shelf devices.new.shelf)
        (sink_change K.Sink devices.old.out devices.new.out) (sink_change N.Sink devices.old.notes devices.new.notes) }
    ensures shelf { Serves (shelf_change H.Shelf devices.old.shelf devices.new.shelf)
        (IfOk result (λ decision. decision.status ≢ Status.ShelfFault)) }
    ensures files { SparesFiles words.now (status_in result)
        (called H.Shelf S.Source K.Sink N.Sink devices.old devices.new) }
    ensures input { (devices.new.input ≡ devices.old.input)
        ⊎ ((command : Command) × AsksFor words.now command × MayTake command (status_in result)) }
    ensures source { CountStays (drawn S.Source devices.old.input devices.new.input)
        (IfOk result (λ decision. decision.status ≢ Status.InputFault)) }
    ensures rest { LeavesEnd (drawn S.Source devices.old.input devices.new.input) }
    ensures script { (file : List ℕ) → AsksFor words.now (commands.debug file)
        → LeavesOfScript (drawn S.Source devices.old.input devices.new.input) }
    ensures replied { Replies words.now (status_in result)
        (shelf_change H.Shelf devices.old.shelf devices.new.shelf) }
    ensures ran { (command : Command) → AsksFor words.now command → WhereEnded result (λ decision.
        DecidesAsked command decision (shelf_change H.Shelf devices.old.shelf devices.new.shelf)
        (drawn S.Source devices.old.input devices.new.input)
        (sink_change K.Sink devices.old.out devices.new.out) (sink_change N.Sink devices.old.notes devices.new.notes)) }
    ensures ends { (command : Command) → AsksFor words.now command
        → EndsAsRun command (status_in result) (shelf_change H.Shelf devices.old.shelf devices.new.shelf) }
    ensures recorded { KeepsUnder (AsksFor words.now) (status_in result)
        (world H.Shelf S.Source devices.old.shelf devices.old.input) (H.files devices.new.shelf) }
{
    match request_of(alloc, words) {
        Ok(request) => perform(alloc, request, devices),
        Err(Refusal::BadWords) => Ok(Decision::of_status(Status::BadWords)),
        Err(Refusal::NoMemory) => Ok(Decision::of_status(Status::NoMemory)),
    }
}

// What a request asks for is decided. Each command is a function that isn't put into this one: what it takes of the
// stack no other one has to have.
fn perform<H: Shelf, S: Source, K: Sink, N: Sink>(
    alloc: Global,
    request: Request<'_>,
    devices: &mut Devices<H, S, K, N>,
) -> Result<Decision, Failed>
    requires blocks { (n : ℕ) → command_of request ≡ commands.trial n → (0 < n) × (n ≤ 20000) }
    ensures does { CommandEffect H.Shelf S.Source K.Sink N.Sink (form_of (command_of request.entry)) result
        devices.old devices.new }
    ensures script { (file : List ℕ) → command_of request.entry ≡ commands.debug file
        → LeavesOfScript (drawn S.Source devices.old.input devices.new.input) }
    ensures replied { status_in result ≡ Status.Done 0 → Replied (command_of request.entry)
        (shelf_change H.Shelf devices.old.shelf devices.new.shelf) }
    ensures ran { WhereEnded result (λ decision. DecidesAsked (command_of request.entry) decision
        (shelf_change H.Shelf devices.old.shelf devices.new.shelf)
        (drawn S.Source devices.old.input devices.new.input)
        (sink_change K.Sink devices.old.out devices.new.out) (sink_change N.Sink devices.old.notes devices.new.notes)) }
    ensures ends { EndsAsRun (command_of request.entry) (status_in result)
        (shelf_change H.Shelf devices.old.shelf devices.new.shelf) }
    ensures recorded { KeepsUnder (λ command. command_of request.entry ≡ command) (status_in result)
        (world H.Shelf S.Source devices.old.shelf devices.old.input) (H.files devices.new.shelf) }
{
    match request {
        Request::OfImage { command, file } => of_image(alloc, command, file, devices),
        Request::Make { command, file, out } => make(alloc, command, file, out, devices),
        Request::Link { entry, out, files } => link(alloc, entry, out, files.as_slice(), devices),
        Request::Replay { file, journal } => replay(alloc, file, journal, devices),
        Request::RunImprecise {
            options,
            choices,
            force,
            file,
        } => {
            let asked = ImpreciseCall {
                options,
                choices,
                force,
                file,
            };
            imprecise(alloc, asked, devices)
        }
        Request::Record {
            options,
            choices,
            force,
            file,
            out,
        } => {
            let asked = ImpreciseCall {
                options,
                choices,
                force,
                file,
            };
            record(alloc, asked, out, devices)
        }
        Request::Run { options, file } => run(alloc, options, file, devices),
        Request::Trial { blocks } => trial(alloc, blocks, devices),
    }
}
