//! The program, but for its real devices.

ghost use Rattle.std.specs.Prelude.{◌≡◌, ◌⊎◌, [], IfOk, OnOk, map, string_bytes};
ghost use Rattle.alpha_io.specs.ShelfChange.{shelf_change};
ghost use Rattle.alpha_seq.specs.Devices.{LeavesEnd, drawn};
ghost use Rattle.alpha_cmd.specs.Alike.{Alike};
ghost use Rattle.alpha_cmd.specs.AnswerBy.{world};
ghost use Rattle.alpha_cmd.specs.Asks.{AsksFor};
ghost use Rattle.alpha_cmd.specs.Call.{called};
ghost use Rattle.alpha_cmd.specs.Called.{words_in};
ghost use Rattle.alpha_cmd.specs.Checked.{Checked};
ghost use Rattle.alpha_cmd.specs.Commands.Link.{KeepsLinks};
ghost use Rattle.alpha_cmd.specs.SourceCommands.Module.{KeepsModules};
ghost use Rattle.alpha_cmd.specs.Commands.Record.{KeepsUnder};
ghost use Rattle.alpha_cmd.specs.Fixed.{Fixes};
ghost use Rattle.alpha_cmd.specs.Listed.{Listed};
ghost use Rattle.alpha_cmd.specs.Promises.{EndsWhole, EndsCut, GivesOne, GivesThe, ServesUnder, SparesFiles};
ghost use Rattle.alpha_cmd.specs.Promises.{TakesInput, DrawsUnder, LeavesScript, EndsAsked, LosesNone};
ghost use Rattle.alpha_cmd.specs.Ran.{Ran};
ghost use Rattle.alpha_cmd.specs.RunsAsked.{RunsAsked};
ghost use Rattle.alpha_cmd.specs.ReadsNothing.{Unread, UnreadAlike};
ghost use Rattle.alpha_cmd.specs.Replayed.{ShowsRuns};
ghost use Rattle.alpha_cmd.specs.Replied.{Replies};
ghost use Rattle.alpha_cmd.specs.Restarts.{Restarts};
ghost use Rattle.alpha_cmd.specs.Accepts.{Accepts};
ghost use Rattle.alpha_cmd.specs.ToldRun.{RanTold};

use crate::devices::Devices;
use crate::{Status, alpha_top};
use alpha_io::{Shelf, Sink, Source};
use alpha_request::Words;
use alpha_words::NoMemory;
use std::alloc::Global;

/// Does what all that stands on the command line asks, the program's name first, as [`alpha_top`] does
/// it of the words behind that name. Where memory runs out before these are gathered, it answers `NoMemory`,
/// and nothing is written.
pub fn alpha_main<H: Shelf, S: Source, K: Sink, N: Sink>(
    alloc: Global,
    arguments: &[String],
    devices: &mut Devices<H, S, K, N>,
) -> Status
    // All that the words behind the program's name ask for was done, or memory ran out before these were
    // gathered, and nothing was done or written.
    ensures whole { EndsWhole (words_in arguments.now) result
        (called H.Shelf S.Source K.Sink N.Sink devices.old devices.new)
        ⊎ ((result ≡ Status.NoMemory)
        × (devices.new.shelf ≡ devices.old.shelf) × (devices.new.input ≡ devices.old.input)
        × (devices.new.out ≡ devices.old.out) × (devices.new.notes ≡ devices.old.notes)) }

    // The others are those of `alpha_top`, of the same words.
    ensures part { EndsCut (words_in arguments.now) result
        (called H.Shelf S.Source K.Sink N.Sink devices.old devices.new) }
    ensures shelf { ServesUnder result (shelf_change H.Shelf devices.old.shelf devices.new.shelf) }
    ensures files { SparesFiles (words_in arguments.now) result
        (called H.Shelf S.Source K.Sink N.Sink devices.old devices.new) }
    ensures input { (devices.new.input ≡ devices.old.input) ⊎ TakesInput (words_in arguments.now) result }
    ensures source { DrawsUnder result (drawn S.Source devices.old.input devices.new.input) }
    ensures rest { LeavesEnd (drawn S.Source devices.old.input devices.new.input) }
    ensures ended { EndsAsked (words_in arguments.now) result }
    ensures found { LosesNone (words_in arguments.now) result }
    ensures script { LeavesScript (words_in arguments.now) (drawn S.Source devices.old.input devices.new.input) }
    ensures given { GivesOne (words_in arguments.now) result
        (called H.Shelf S.Source K.Sink N.Sink devices.old devices.new) }
    ensures exact { GivesThe (words_in arguments.now) result
        (called H.Shelf S.Source K.Sink N.Sink devices.old devices.new) }
    ensures replied { Replies (words_in arguments.now) result
        (shelf_change H.Shelf devices.old.shelf devices.new.shelf) }
    ensures restarts { Restarts (words_in arguments.now) result
        (shelf_change H.Shelf devices.old.shelf devices.new.shelf) }
    ensures checked { Checked (words_in arguments.now) result
        (shelf_change H.Shelf devices.old.shelf devices.new.shelf) }
    ensures accepted { Accepts (words_in arguments.now) result
        (called H.Shelf S.Source K.Sink N.Sink devices.old devices.new) }
    ensures ran_told { RanTold (words_in arguments.now) result
        (called H.Shelf S.Source K.Sink N.Sink devices.old devices.new) }
    ensures alike { Alike (words_in arguments.now) result
        (called H.Shelf S.Source K.Sink N.Sink devices.old devices.new) }
    ensures runs { RunsAsked (words_in arguments.now) result
        (called H.Shelf S.Source K.Sink N.Sink devices.old devices.new) }
    ensures ran { Ran (words_in arguments.now) result (called H.Shelf S.Source K.Sink N.Sink devices.old devices.new) }
    ensures listed { Listed (words_in arguments.now) result
        (called H.Shelf S.Source K.Sink N.Sink devices.old devices.new) }
    ensures unread { Unread (words_in arguments.now) result
        (called H.Shelf S.Source K.Sink N.Sink devices.old devices.new) }
    ensures unread_alike { UnreadAlike (words_in arguments.now) result
        (called H.Shelf S.Source K.Sink N.Sink devices.old devices.new) }
    ensures fixed { Fixes (words_in arguments.now) result (H.files devices.old.shelf) (H.files devices.new.shelf) }
    ensures modules { KeepsModules (words_in arguments.now) result
        (H.files devices.old.shelf) (H.files devices.new.shelf) }
    ensures links { KeepsLinks (words_in arguments.now) result (H.files devices.old.shelf) (H.files devices.new.shelf) }
    ensures replays { ShowsRuns (words_in arguments.now) result (H.files devices.old.shelf) }
    ensures recorded { KeepsUnder (AsksFor (words_in arguments.now)) result
        (world H.Shelf S.Source devices.old.shelf devices.old.input) (H.files devices.new.shelf) }
{
    match words_of(alloc, arguments) {
        Ok(words) => alpha_top(alloc, &words, devices),
        Err(NoMemory) => Status::NoMemory,
    }
}

// The words behind the program's name.
fn words_of(alloc: Global, arguments: &[String]) -> Result<Words, NoMemory>
    ensures { IfOk result (λ words. words ≡ words_in arguments.now) }
{
    let mut words = Words::new(alloc);
    if let Some((_, rest)) = arguments.split_first() {
        push_all(&mut words, rest)?;
    }
    Ok(words)
}

// Appends these words, in their order, to a list that is still empty.
fn push_all(words: &mut Words, rest: &[String]) -> Result<(), NoMemory>
    requires { words.old ≡ [] }
    ensures { OnOk result (words.new ≡ map (λ word. string_bytes word) rest.now) }
{
    for word in rest {
        words.push(word.as_str())?;
    }
    Ok(())
}
