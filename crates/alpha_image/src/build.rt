//! Images that are made of their parts.

ghost use Rattle.std.specs.Prelude.{◌≡◌, ◌%◌, ◌/◌, ◌≤◌, length, map, All, Some, IfOk};
ghost use Rattle.alpha_table.specs.Decoded.{decoded};
ghost use Rattle.alpha_image.specs.Fields.{level_numbers, first_numbers};
ghost use Rattle.alpha_image.specs.Layout.{filled_size};
ghost use Rattle.alpha_image.specs.Reading.{words_of, numbered_level};
ghost use Rattle.alpha_image.specs.Parts.{IsImage, SuitsVersion};
ghost use Rattle.alpha_image.specs.Insns.{IsCodeInsn};
ghost use Rattle.alpha_image.specs.PartsOf.{parts_with};
ghost use Rattle.alpha_image.specs.Rules.{FieldsFit};
ghost use Rattle.alpha_image.specs.Tells.{Tells, parts_fault};

use crate::header::Header;
use crate::segment::MOST_SEGMENTS;
use crate::{Fields, Image, ImageFault, LevelFields, Segment, Version};
use alpha_table::Insn;
use arrayvec::ArrayVec;
use std::alloc::Global;

impl Image {
    /// The image of version 1 with these fields, code words and data bytes. The code has each word as
    /// four bytes with the lowest first. Memory taken is that of the code and data bytes.
    ///
    /// # Errors
    ///
    /// `Field` with the least number of a bad field, else `BadWord` with the first code word that is
    /// outside the instruction table or of level 2. `NoMemory` comes only where there is neither.
    pub fn build(
        alloc: Global,
        fields: &Fields,
        code: &[u8],
        filled: &[u8],
    ) -> Result<Image, ImageFault>
        requires { length code.now % 4 ≡ 0 }
        ensures parts { let words = words_of code.now in
            let n = first_numbers fields.now (length words) (length filled.now) in
            IfOk result (λ image. image ≡ parts_with Version.One n words filled.now) }
        ensures good { IfOk result IsImage }
        ensures fault { let words = words_of code.now in
            let n = first_numbers fields.now (length words) (length filled.now) in
            Tells result (parts_fault n words) }
    {
        let segment = fields.segment(filled.len() as u64);
        let fields = fields.level_fields();
        build(alloc, Version::One, &fields, &[segment], code, filled)
    }

    /// The image of version 2 with these fields, segments, code words and data bytes. The code has each
    /// word as four bytes with the lowest first, and the data bytes are those of the segments in order.
    /// Memory taken is that of the code and data bytes.
    ///
    /// # Errors
    ///
    /// `Field` with the least number of a bad field, else `BadWord` with the first code word that is
    /// outside the instruction table or above the level. `NoMemory` comes only where there is neither.
    pub fn build_level(
        alloc: Global,
        fields: &LevelFields,
        segments: &[Segment],
        code: &[u8],
        bytes: &[u8],
    ) -> Result<Image, ImageFault>
        requires code { length code.now % 4 ≡ 0 }
        requires bytes { length bytes.now ≡ filled_size segments.now }
        ensures parts { let words = words_of code.now in
            let n = level_numbers fields.now (length words) segments.now in
            IfOk result (λ image. image ≡ parts_with Version.Two n words bytes.now) }
        ensures good { IfOk result IsImage }
        ensures fault { let words = words_of code.now in
            let n = level_numbers fields.now (length words) segments.now in
            Tells result (parts_fault n words) }
    {
        build(alloc, Version::Two, fields, segments, code, bytes)
    }

    /// The image of a version with these fields, segments, instructions and data bytes, which are those
    /// of the segments in order. No field is bad, as [`LevelFields::bad_field`] tells, and each
    /// instruction is there at the level. The list of instructions and that of bytes are taken as they
    /// are, so it takes no memory and decodes nothing.
    pub fn of_program(
        version: Version,
        fields: &LevelFields,
        segments: &[Segment],
        insns: Vec<Insn>,
        bytes: Vec<u8>,
    ) -> Image
        requires fields { FieldsFit (level_numbers fields.now (length insns.items) segments.now) }
        requires matches_version { let words = length insns.items in
            SuitsVersion version (level_numbers fields.now words segments.now) }
        requires insns { All (IsCodeInsn (numbered_level fields.now.level)) insns.items }
        requires bytes { length bytes.items ≡ filled_size segments.now }
        ensures insns { map decoded result.words ≡ map Some insns.items }
        ensures parts { let n = level_numbers fields.now (length insns.items) segments.now in
            result ≡ parts_with version n result.words bytes.items }
        ensures good { IsImage result }
    {
        let header = Header {
            version,
            fields: *fields,
            words: insns.len() as u64,
            segments: segment_array(segments),
        };
        Image::of_parts(header, insns, bytes)
    }
}

// The image of a version with these fields, segments, code words and data bytes.
#[tactic(auto, unfolding(crate::specs::Tells::parts_fault, crate::specs::ImageFault::field_fault))]
fn build(
    alloc: Global,
    version: Version,
    fields: &LevelFields,
    segments: &[Segment],
    code: &[u8],
    bytes: &[u8],
) -> Result<Image, ImageFault>
    requires code { length code.now % 4 ≡ 0 }
    requires bytes { length bytes.now ≡ filled_size segments.now }
    requires matches_version { let words = length code.now / 4 in
        SuitsVersion version (level_numbers fields.now words segments.now) }
    ensures parts { let words = words_of code.now in
        let n = level_numbers fields.now (length words) segments.now in
        IfOk result (λ image. image ≡ parts_with version n words bytes.now) }
    ensures good { IfOk result IsImage }
    ensures fault { let words = words_of code.now in
        let n = level_numbers fields.now (length words) segments.now in
        Tells result (parts_fault n words) }
{
    let words = code.len() as u64 / 4;
    if let Some(field) = fields.bad_field(words, segments) {
        return Err(ImageFault::Field(field));
    }
    let header = Header {
        version,
        fields: *fields,
        words,
        segments: segment_array(segments),
    };
    Image::build_from_bytes(alloc, header, code, bytes)
}

// At most eight segments, without memory.
fn segment_array(segments: &[Segment]) -> ArrayVec<Segment, MOST_SEGMENTS>
    requires { length segments.now ≤ 8 }
    ensures value { result.items ≡ segments.now }
{
    let mut few = ArrayVec::new();
    for segment in segments {
        few.push(*segment);
    }
    few
}
