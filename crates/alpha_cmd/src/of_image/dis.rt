//! `dis`: the listing of an image.

ghost use Rattle.std.specs.Prelude.{◌≡◌};
ghost use Rattle.alpha_dis.specs.Listing.{listing};
ghost use Rattle.alpha_io.specs.SinkChange.{sink_change};
ghost use Rattle.alpha_cmd.specs.CommandEffect.{CommandEffect};
ghost use Rattle.alpha_cmd.specs.Ends.{status_in};
ghost use Rattle.alpha_cmd.specs.OfImage as images;
ghost use Rattle.alpha_cmd.specs.RunsAsked.{WhereEnded};
ghost use Rattle.alpha_cmd.specs.ShowsDone.{DecidesDone, IsDoneOrFails};
ghost use Rattle.alpha_request.specs.declared.request.ImageCommand.TheVariants as asked;

use crate::Status;
use crate::decision::Decision;
use crate::devices::Devices;
use alpha_dis::{ListFault, list};
use alpha_image::Image;
use alpha_io::{Failed, Shelf, Sink, Source};

/// Writes the listing of an image.
#[inline(never)]
pub(crate) fn list_image<H: Shelf, S: Source, K: Sink, N: Sink>(
    image: &Image,
    devices: &mut Devices<H, S, K, N>,
) -> Result<Decision, Failed>
    ensures does { CommandEffect H.Shelf S.Source K.Sink N.Sink
        (images.on asked.Dis image.now) result devices.old devices.new }
    ensures shows { WhereEnded result (λ decision. DecidesDone (listing image.now) decision
        (sink_change K.Sink devices.old.out devices.new.out) (sink_change N.Sink devices.old.notes devices.new.notes)) }
    ensures ends { IsDoneOrFails (status_in result) }
    ensures shelf { devices.new.shelf ≡ devices.old.shelf }
{
    match list(image, &mut devices.out) {
        Ok(()) => Ok(Decision::of_status(Status::Done(0))),
        Err(ListFault::Sink) => Err(Failed),
    }
}
