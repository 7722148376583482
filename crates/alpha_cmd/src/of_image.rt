//! `check FILE`, `dis FILE` and `debug FILE`: what is asked of an image.

ghost use Rattle.std.specs.Prelude.{◌≡◌};
ghost use Rattle.alpha_io.specs.ShelfChange.{shelf_change};
ghost use Rattle.alpha_io.specs.SinkChange.{sink_change};
ghost use Rattle.alpha_shadow.specs.Broken.{IsAccepted};
ghost use Rattle.alpha_seq.specs.Devices.{drawn};
ghost use Rattle.alpha_request.specs.Command as commands;
ghost use Rattle.alpha_request.specs.declared.request.ImageCommand.TheVariants as asked;
ghost use Rattle.alpha_cmd.specs.OfImage.Debug.{LeavesOfScript};
ghost use Rattle.alpha_cmd.specs.Checked.{ReadsImage};
ghost use Rattle.alpha_cmd.specs.CommandEffect.{CommandEffect};
ghost use Rattle.alpha_cmd.specs.Ends.{status_in};
ghost use Rattle.alpha_cmd.specs.OfImage as images;
ghost use Rattle.alpha_cmd.specs.RunsAsked.{DecidesAsked, DecidesOf, EndsAsRun, EndsOf, WhereEnded};

use crate::Status;
use crate::decision::Decision;
use crate::devices::Devices;
use crate::image::load;
use alpha_image::Image;
use alpha_io::{Failed, Shelf, Sink, Source};
use alpha_request::ImageCommand;
use std::alloc::Global;

mod check;
mod debug;
mod dis;

/// Reads the image of a file, and does what is asked of it.
#[inline(never)]
pub(crate) fn of_image<H: Shelf, S: Source, K: Sink, N: Sink>(
    alloc: Global,
    command: ImageCommand,
    file: &str,
    devices: &mut Devices<H, S, K, N>,
) -> Result<Decision, Failed>
    ensures checked { command ≡ asked.Check → status_in result ≡ Status.Done 0
        → ReadsImage (shelf_change H.Shelf devices.old.shelf devices.new.shelf) file.now
        (λ image. IsAccepted image.words) }
    ensures ran { WhereEnded result (λ decision. DecidesAsked (commands.of_image command file.now) decision
        (shelf_change H.Shelf devices.old.shelf devices.new.shelf)
        (drawn S.Source devices.old.input devices.new.input)
        (sink_change K.Sink devices.old.out devices.new.out) (sink_change N.Sink devices.old.notes devices.new.notes)) }
    ensures ends { EndsAsRun (commands.of_image command file.now) (status_in result)
        (shelf_change H.Shelf devices.old.shelf devices.new.shelf) }
    ensures does { CommandEffect H.Shelf S.Source K.Sink N.Sink
        (images.form command file.now) result devices.old devices.new }
    ensures script { command ≡ asked.Debug
        → LeavesOfScript (drawn S.Source devices.old.input devices.new.input) }
{
    match load(alloc, &mut devices.shelf, file) {
        Ok(image) => on_image(alloc, command, image, devices),
        Err(stop) => Ok(Decision::of_stop(stop)),
    }
}

// Does what is asked of an image.
fn on_image<H: Shelf, S: Source, K: Sink, N: Sink>(
    alloc: Global,
    command: ImageCommand,
    image: Image,
    devices: &mut Devices<H, S, K, N>,
) -> Result<Decision, Failed>
    ensures shelf { devices.new.shelf ≡ devices.old.shelf }
    ensures ran { WhereEnded result (λ decision. DecidesOf command image decision
        (drawn S.Source devices.old.input devices.new.input)
        (sink_change K.Sink devices.old.out devices.new.out) (sink_change N.Sink devices.old.notes devices.new.notes)) }
    ensures ends { EndsOf command image (status_in result) }
    ensures accepted { command ≡ asked.Check → status_in result ≡ Status.Done 0 → IsAccepted image.words }
    ensures does { CommandEffect H.Shelf S.Source K.Sink N.Sink (images.on command image) result
        devices.old devices.new }
    ensures script { command ≡ asked.Debug
        → LeavesOfScript (drawn S.Source devices.old.input devices.new.input) }
{
    match command {
        ImageCommand::Check => Ok(check::check_image(&image)),
        ImageCommand::Dis => dis::list_image(&image, devices),
        ImageCommand::Debug => debug::session(alloc, image, devices),
    }
}
