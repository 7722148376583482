//! Images that are read from their bytes.

ghost use Rattle.std.specs.Prelude.{◌≡◌, ◌≢◌, None, IfOk, IfErr, OnOk};
ghost use Rattle.alpha_image.specs.Header.{header_numbers};
ghost use Rattle.alpha_image.specs.Reading.{version_of, numbers_of};
ghost use Rattle.alpha_image.specs.Parts.{IsImage, image_spelling};
ghost use Rattle.alpha_image.specs.PartsOf.{HasForm};
ghost use Rattle.alpha_image.specs.ImageFault.{form_fault, first_fault};
ghost use Rattle.alpha_image.specs.Tells.{Tells};

use crate::header::Header;
use crate::segment::data_size;
use crate::{Image, ImageFault};
use std::alloc::Global;

// The header of bytes that are an image but for its code words.
#[tactic(auto, unfolding(crate::specs::ImageFault::form_fault, crate::specs::ImageFault::field_fault))]
fn check_header(bytes: &[u8]) -> Result<Header, ImageFault>
    ensures fault { Tells result (form_fault bytes.now) }
    ensures memory { IfErr result (λ e. e ≢ ImageFault.NoMemory) }
    ensures version { IfOk result (λ h. h.version ≡ version_of bytes.now) }
    ensures numbers { IfOk result (λ h. header_numbers h ≡ numbers_of bytes.now) }
    ensures form { OnOk result (HasForm bytes.now) }
{
    let header = Header::read(bytes)?;
    if let Some(field) = header.bad_field() {
        return Err(ImageFault::Field(field));
    }
    let given = bytes.len() as u64;
    let wanted = header.size();
    if given != wanted {
        return Err(ImageFault::Length(given, wanted));
    }
    Ok(header)
}

// The image of bytes with this header, with data bytes of its own.
fn image_of_copy(alloc: Global, header: Header, bytes: &[u8]) -> Result<Image, ImageFault>
    requires fault { form_fault bytes.now ≡ None }
    requires version { header.version ≡ version_of bytes.now }
    requires numbers { header_numbers header ≡ numbers_of bytes.now }
    requires form { HasForm bytes.now }
    ensures good { IfOk result IsImage }
    ensures spelled { IfOk result (λ image. bytes.now ≡ image_spelling image) }
    ensures fault { Tells result (first_fault bytes.now) }
{
    let (code, data) = bytes[header.front_size()..].split_at(4 * header.words as usize);
    Image::build_from_bytes(alloc, header, code, data)
}

/// The image that the bytes spell. Memory taken is that of its instructions and data bytes.
///
/// # Errors
///
/// The first fault, in the order that [`ImageFault`] has. `NoMemory` comes only where there is no fault.
pub fn read_image(alloc: Global, bytes: &[u8]) -> Result<Image, ImageFault>
    ensures good { IfOk result IsImage }
    ensures spelled { IfOk result (λ image. bytes.now ≡ image_spelling image) }
    ensures fault { Tells result (first_fault bytes.now) }
{
    let header = check_header(bytes)?;
    image_of_copy(alloc, header, bytes)
}

/// The image that the bytes spell, as [`read_image`] answers it. Where more than half of the bytes are data,
/// the image holds them as they are, and memory taken is that of its instructions. Else it has its data
/// bytes on its own, which are the fewer, and the others are given back.
///
/// # Errors
///
/// Those of [`read_image`].
pub fn take_image(alloc: Global, bytes: Vec<u8>) -> Result<Image, ImageFault>
    ensures good { IfOk result IsImage }
    ensures spelled { IfOk result (λ image. bytes.items ≡ image_spelling image) }
    ensures fault { Tells result (first_fault bytes.items) }
{
    let header = check_header(bytes.as_slice())?;
    if data_size(&header.segments) <= bytes.len() as u64 / 2 {
        return image_of_copy(alloc, header, bytes.as_slice());
    }
    Image::of_file(alloc, header, bytes)
}
