//! The stages that lead to a file and to its image.

ghost use Rattle.std.specs.Prelude.{◌≡◌, ◌⊎◌, ◌^◌, ◌<◌, ◌++◌, ℕ, List, IfOk, IfErr, OnOk, OnErr, None};
ghost use Rattle.alpha_io.specs.History.{Reply, IsReadInPart, IsReadWhole};
ghost use Rattle.alpha_io.specs.ShelfChange.{shelf_change};
ghost use Rattle.alpha_image.specs.ImageFault.{first_fault};
ghost use Rattle.alpha_image.specs.Parts.{Parts, IsImage, image_spelling};
ghost use Rattle.alpha_cmd.specs.Outcome.{continues, stops};
ghost use Rattle.alpha_cmd.specs.Status.{status_line};
ghost use Rattle.alpha_shadow.specs.Broken.{IsAccepted};
ghost use Rattle.alpha_cmd.specs.Image.{Reads, Spells, ImageOf, IsRefused};
ghost use Rattle.alpha_cmd.specs.Stage.{Stage, stop_status, stop_line};

use crate::Status;
use crate::stop::Stop;
use alpha_image::{Image, ImageFault, image_bytes, take_image};
use alpha_io::{ReadFault, Shelf, read_whole};
use alpha_verdict::judge_image;
use std::alloc::Global;

/// The most bytes of an image file.
pub const IMAGE_LIMIT: u64 = 18_874_368;

/// The image that the bytes of a file spell. It may hold those very bytes.
///
/// # Errors
///
/// `BadImage` with the first fault of the bytes. Memory runs out only where they have none.
pub fn image_of(alloc: Global, bytes: Vec<u8>) -> Result<Image, Status>
    ensures ok { IfOk result (λ image. Spells bytes.items (continues image)) }
    ensures refused { IfErr result (λ status. Spells bytes.items (stops status (status_line status))
        ⊎ ((status ≡ Status.NoMemory) × (first_fault bytes.items ≡ None))) }
{
    match take_image(alloc, bytes) {
        Ok(image) => Ok(image),
        Err(ImageFault::NoMemory) => Err(Status::NoMemory),
        Err(fault) => Err(Status::BadImage(fault)),
    }
}

/// The bytes of a file within a limit.
pub(crate) fn read_file<H: Shelf>(
    alloc: Global,
    shelf: &mut H,
    name: &str,
    limit: u64,
) -> Result<Vec<u8>, Stop>
    requires { limit < 2 ^ 32 }
    ensures read { IfOk result (λ bytes.
        IsReadWhole (H.replies shelf.old) (H.replies shelf.new) name.now bytes.items) }
    ensures whole { (file : List ℕ) → IsReadWhole (H.replies shelf.old) (H.replies shelf.new) name.now file
        → IfErr result (λ stop. stop ≡ Stop.OfStatus Status.NoMemory) }
    ensures part { IfErr result (λ stop. (stop ≡ Stop.OfStatus Status.NoMemory)
        ⊎ IsReadInPart (H.replies shelf.old) (H.replies shelf.new) name.now) }
    ensures stage { Stage (Reads (H.files shelf.old) name.now limit) (λ bytes. bytes.items) result
        (shelf_change H.Shelf shelf.old shelf.new) }
{
    match read_whole(alloc, shelf, name, limit) {
        Ok(bytes) => Ok(bytes),
        Err(ReadFault::Shelf) => Err(Stop::OfStatus(Status::ShelfFault)),
        Err(ReadFault::TooLarge) => Err(Stop::OfStatus(Status::TooLarge(limit))),
        Err(ReadFault::NoMemory) => Err(Stop::OfStatus(Status::NoMemory)),
    }
}

/// The spelling of an image.
pub(crate) fn bytes_of_image(alloc: Global, image: &Image) -> Result<Vec<u8>, Stop>
    ensures ok { IfOk result (λ bytes. bytes.items ≡ image_spelling image.now) }
    ensures refused { IfErr result (λ stop. stop ≡ Stop.OfStatus Status.NoMemory) }
{
    match image_bytes(alloc, image) {
        Ok(bytes) => Ok(bytes),
        Err(_) => Err(Stop::OfStatus(Status::NoMemory)),
    }
}

/// The image of a file.
pub(crate) fn load<H: Shelf>(alloc: Global, shelf: &mut H, name: &str) -> Result<Image, Stop>
    ensures read { IfOk result (λ image. IsImage image
        × IsReadWhole (H.replies shelf.old) (H.replies shelf.new) name.now (image_spelling image)) }
    ensures whole { (image : Parts) → IsImage image
        → IsReadWhole (H.replies shelf.old) (H.replies shelf.new) name.now (image_spelling image)
        → IfErr result (λ stop. stop ≡ Stop.OfStatus Status.NoMemory) }
    ensures first { (image : Parts) (middle rest : List Reply) → IsImage image
        → IsReadWhole (H.replies shelf.old) middle name.now (image_spelling image)
        → H.replies shelf.new ≡ middle ++ rest → IfErr result (λ stop. stop ≡ Stop.OfStatus Status.NoMemory) }
    ensures stage { Stage (ImageOf (H.files shelf.old) name.now) (λ image. image) result
        (shelf_change H.Shelf shelf.old shelf.new) }
{
    let bytes = read_file(alloc, shelf, name, IMAGE_LIMIT)?;
    match image_of(alloc, bytes) {
        Ok(image) => Ok(image),
        Err(status) => Err(Stop::OfStatus(status)),
    }
}

/// Judges an image.
pub(crate) fn require_accepted(image: &Image) -> Result<(), Stop>
    ensures ok { OnOk result (IsAccepted image.now.words) }
    ensures refused { IfErr result (λ stop.
        IsRefused image.now (stop_status stop) (stop_line stop)) }
    ensures whole { IsAccepted image.now.words → OnErr result ⊥ }
{
    match judge_image(image) {
        Ok(()) => Ok(()),
        Err(broken) => Err(Stop::Broken(broken, image.code_base())),
    }
}
