ghost use Rattle.std.specs.Prelude.{◌≡◌, ◌≢◌, ◌⊎◌};
ghost use Rattle.alpha_request.specs.Command.{Command};
ghost use Rattle.alpha_seq.specs.Devices.{LeavesEnd};
ghost use Rattle.alpha_cmd.specs.Answer.{Answer};
ghost use Rattle.alpha_cmd.specs.Asks.{AsksFor};
ghost use Rattle.alpha_cmd.specs.Commands.{there_of, MayTake};
ghost use Rattle.alpha_cmd.specs.Answered.{Answered};
ghost use Rattle.alpha_cmd.specs.Promises.{EndsWhole, LeavesScript, SparesFiles};
ghost use Rattle.alpha_cmd.specs.Sure.{sure_world, sure_call};
ghost use Rattle.alpha_cmd.specs.Tried.{IsAnswer};

use crate::devices::Devices;
use crate::{Status, alpha_top};
use alpha_io::{NullSink, SureShelf, SureSource};
use alpha_request::Words;
use std::alloc::Global;

/// Does what the words ask over devices that never fail, whose output and notes drop what is written:
/// the status, the file that is kept and the input left are those of the words' answer, or memory ran out.
pub fn alpha_sure(
    alloc: Global,
    words: &Words,
    devices: &mut Devices<SureShelf, SureSource, NullSink, NullSink>,
) -> Status
    ensures answer { (a : Answer) → IsAnswer words.now (sure_world devices.old.shelf devices.old.input) a
        → Answered a result (sure_call devices.old devices.new) }

    // Where memory runs out, files and input are what `alpha_top` leaves of them, and so is a script.
    ensures whole { EndsWhole words.now result (sure_call devices.old devices.new) }
    ensures rest { LeavesEnd (sure_call devices.old devices.new).input }
    ensures script { LeavesScript words.now (sure_call devices.old devices.new).input }

    // No stream fails, and the shelf answers only for a file that it doesn't have or doesn't take.
    ensures streams { (result ≢ Status.InputFault) × (result ≢ Status.SinkFault) }
    ensures shelf { (command : Command) → AsksFor words.now command
        → there_of command (sure_world devices.old.shelf devices.old.input) → result ≢ Status.ShelfFault }

    // Files stay, but for the one that a command keeps, and so does input but for a run or a session.
    ensures files { SparesFiles words.now result (sure_call devices.old devices.new) }
    ensures input { (devices.new.input ≡ devices.old.input)
        ⊎ ((command : Command) × AsksFor words.now command × MayTake command result) }
{
    alpha_top(alloc, words, devices)
}
