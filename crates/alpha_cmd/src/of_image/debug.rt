//! `debug`: a session of the debugger on an image's program.

ghost use Rattle.std.specs.Prelude.{◌≡◌};
ghost use Rattle.alpha_io.specs.SinkChange.{sink_change};
ghost use Rattle.alpha_seq.specs.Devices.{drawn};
ghost use Rattle.alpha_request.specs.declared.request.ImageCommand.TheVariants as asked;
ghost use Rattle.alpha_cmd.specs.OfImage.Debug.{LeavesOfScript};
ghost use Rattle.alpha_cmd.specs.CommandEffect.{CommandEffect};
ghost use Rattle.alpha_cmd.specs.Ends.{status_in};
ghost use Rattle.alpha_cmd.specs.OfImage as images;
ghost use Rattle.alpha_cmd.specs.RunsAsked.{EndsOf, WhereEnded};
ghost use Rattle.alpha_cmd.specs.SessionRan.{DecidesSession};

use crate::Status;
use crate::decision::Decision;
use crate::devices::Devices;
use alpha_debug::{DebugEnd, SCRIPT_LIMIT, debug};
use alpha_image::Image;
use alpha_io::{Failed, Shelf, Sink, Source};
use std::alloc::Global;

/// Answers the commands of the input on an image's program. Nothing is put and nothing taken before the
/// session has all of its memory.
#[inline(never)]
pub(crate) fn session<H: Shelf, S: Source, K: Sink, N: Sink>(
    alloc: Global,
    image: Image,
    devices: &mut Devices<H, S, K, N>,
) -> Result<Decision, Failed>
    ensures ran { WhereEnded result (λ decision. DecidesSession image decision
        (drawn S.Source devices.old.input devices.new.input)
        (sink_change K.Sink devices.old.out devices.new.out) (sink_change N.Sink devices.old.notes devices.new.notes)) }
    ensures ends { EndsOf asked.Debug image (status_in result) }
    ensures does { CommandEffect H.Shelf S.Source K.Sink N.Sink
        (images.on asked.Debug image) result devices.old devices.new }
    ensures script { LeavesOfScript (drawn S.Source devices.old.input devices.new.input) }
    ensures shelf { devices.new.shelf ≡ devices.old.shelf }
{
    match debug(alloc, image, &mut devices.input, &mut devices.out) {
        DebugEnd::Done => Ok(Decision::of_status(Status::Done(0))),
        DebugEnd::TooLarge => Ok(Decision::of_status(Status::TooLarge(SCRIPT_LIMIT as u64))),
        DebugEnd::InputFault => Ok(Decision::of_status(Status::InputFault)),
        DebugEnd::SinkFault => Err(Failed),
        DebugEnd::NoMemory => Ok(Decision::of_status(Status::NoMemory)),
    }
}
