//! The bytes of an image.

ghost use Rattle.std.specs.Prelude.{◌≡◌, ◌≤◌, ◌++◌, [], ◌∷◌, length, All, OnOk, IfOk};
ghost use Rattle.std.specs.List.{concat, flat_map};
ghost use Rattle.alpha_image.specs.Header.{header_numbers};
ghost use Rattle.alpha_image.specs.Layout.{magic, quadword, longword, image_header, segment_numbers};
ghost use Rattle.alpha_image.specs.Parts.{image_spelling};
ghost use Rattle.alpha_image.specs.Rules.{FieldsFit, size_of_segment};

use crate::header::Header;
use crate::number::{push_longword, push_quadword};
use crate::{Image, Segment, Version};
use alpha_words::NoMemory;
use std::alloc::{AllocError, Global};

impl Header {
    // Appends what stands before the code.
    fn push_onto(&self, out: &mut Vec<u8>) -> Result<(), AllocError>
        requires { FieldsFit (header_numbers self.now) }
        ensures ok { OnOk result (out.new.items ≡ out.old.items
            ++ image_header self.now.version (header_numbers self.now)) }
    {
        match self.version {
            Version::One => self.push_first(out),
            Version::Two => self.push_level(out),
        }
    }

    // In version 1.
    #[tactic(auto, unfolding(crate::specs::Layout::image_header))]
    fn push_first(&self, out: &mut Vec<u8>) -> Result<(), AllocError>
        requires { FieldsFit (header_numbers self.now) }
        ensures ok { OnOk result (out.new.items ≡ out.old.items
            ++ image_header Version.One (header_numbers self.now)) }
    {
        let segment = self.first_segment();
        self.push_addresses(out, segment)?;
        self.push_sizes(out, segment)
    }

    fn push_addresses(&self, out: &mut Vec<u8>, segment: Segment) -> Result<(), AllocError>
        ensures ok { OnOk result (out.new.items ≡ out.old.items
            ++ concat (magic Version.One ∷ quadword self.now.fields.code_base
            ∷ quadword segment.base ∷ quadword self.now.fields.entry ∷ [])) }
    {
        out.extend_from_slice(&Version::One.magic())?;
        push_quadword(out, self.fields.code_base)?;
        push_quadword(out, segment.base)?;
        push_quadword(out, self.fields.entry)
    }

    fn push_sizes(&self, out: &mut Vec<u8>, segment: Segment) -> Result<(), AllocError>
        requires fits { FieldsFit (header_numbers self.now) }
        requires filled { segment.filled ≤ 16777216 }
        requires zeroed { segment.zeroed ≤ 16777216 }
        ensures ok { OnOk result (out.new.items ≡ out.old.items
            ++ concat (longword self.now.words ∷ longword segment.filled ∷ longword segment.zeroed
            ∷ longword self.now.fields.stack ∷ [])) }
    {
        push_longword(out, self.words as u32)?;
        push_longword(out, segment.filled as u32)?;
        push_longword(out, segment.zeroed as u32)?;
        push_longword(out, self.fields.stack as u32)
    }

    // In version 2.
    #[tactic(auto, unfolding(crate::specs::Layout::image_header))]
    fn push_level(&self, out: &mut Vec<u8>) -> Result<(), AllocError>
        requires { FieldsFit (header_numbers self.now) }
        ensures ok { OnOk result (out.new.items ≡ out.old.items
            ++ image_header Version.Two (header_numbers self.now)) }
    {
        self.push_level_addresses(out)?;
        self.push_level_sizes(out)?;
        push_segments(out, &self.segments)
    }

    fn push_level_addresses(&self, out: &mut Vec<u8>) -> Result<(), AllocError>
        ensures ok { OnOk result (out.new.items ≡ out.old.items
            ++ concat (magic Version.Two ∷ quadword self.now.fields.code_base
            ∷ quadword self.now.fields.entry ∷ [])) }
    {
        out.extend_from_slice(&Version::Two.magic())?;
        push_quadword(out, self.fields.code_base)?;
        push_quadword(out, self.fields.entry)
    }

    fn push_level_sizes(&self, out: &mut Vec<u8>) -> Result<(), AllocError>
        requires { FieldsFit (header_numbers self.now) }
        ensures ok { OnOk result (out.new.items ≡ out.old.items
            ++ concat (longword self.now.words ∷ longword self.now.fields.stack
            ∷ longword self.now.fields.level ∷ longword (length self.now.segments.items) ∷ [])) }
    {
        push_longword(out, self.words as u32)?;
        push_longword(out, self.fields.stack as u32)?;
        push_longword(out, self.fields.level as u32)?;
        push_longword(out, self.segments.len() as u32)
    }
}

// Appends the numbers of the segments.
fn push_segments(out: &mut Vec<u8>, segments: &[Segment]) -> Result<(), AllocError>
    requires { All (λ s. size_of_segment s ≤ 16777216) segments.now }
    ensures ok { OnOk result (out.new.items
        ≡ out.old.items ++ flat_map segment_numbers segments.now) }
{
    for segment in segments {
        push_segment(out, segment)?;
    }
    Ok(())
}

fn push_segment(out: &mut Vec<u8>, segment: &Segment) -> Result<(), AllocError>
    requires { size_of_segment segment.now ≤ 16777216 }
    ensures ok { OnOk result (out.new.items ≡ out.old.items ++ segment_numbers segment.now) }
{
    push_quadword(out, segment.base)?;
    push_longword(out, segment.filled as u32)?;
    push_longword(out, segment.zeroed as u32)
}

/// The one spelling of an image. Memory taken is that of these bytes; `NoMemory` where it runs out.
pub fn image_bytes(alloc: Global, image: &Image) -> Result<Vec<u8>, NoMemory>
    ensures value { IfOk result (λ bytes. bytes.items ≡ image_spelling image.now) }
{
    let header = image.header();
    let size = header.front_size() + 4 * image.words() as usize + image.data_bytes().len();
    let mut out = Vec::with_capacity(alloc, size)?;
    header.push_onto(&mut out)?;
    image.push_code(&mut out)?;
    out.extend_from_slice(image.data_bytes())?;
    Ok(out)
}
