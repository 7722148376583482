ghost use Rattle.std.specs.Prelude.{◌≡◌, ◌+◌, ◌*◌, ◌<◌, ◌≢◌, ◌↔◌, ◌++◌, ℕ, length, map, slice_index, slice_get, Some};
ghost use Rattle.std.specs.Prelude.{IfSome, IfNone, IfOk, OnOk, IsSome, All};
ghost use Rattle.std.specs.List.{flat_map};
ghost use Rattle.std.specs.Option.{option_map, option_and_then};
ghost use Rattle.alpha_table.specs.Decoded.{decoded};
ghost use Rattle.alpha_table.specs.Encoded.{encoded};
ghost use Rattle.alpha_table.specs.ClassOf.{class_of};
ghost use Rattle.alpha_table.specs.Code.{class_at};
ghost use Rattle.alpha_image.specs.Header.{header_numbers};
ghost use Rattle.alpha_image.specs.Layout.{longword, first_segment, filled_size};
ghost use Rattle.alpha_image.specs.Reading.{words_of, words_in, version_of, numbers_of};
ghost use Rattle.alpha_image.specs.Parts.{IsByte, IsCodeWord};
ghost use Rattle.alpha_image.specs.Insns.{IsCodeInsn};
ghost use Rattle.alpha_image.specs.PartsOf.{HasForm, parts_of};
ghost use Rattle.alpha_image.specs.Rules.{FieldsFit};
ghost use Rattle.alpha_image.specs.ImageFault.{word_fault};
ghost use Rattle.alpha_image.specs.Tells.{Tells};

use crate::header::Header;
use crate::words::{push_words, read_words};
use crate::{ImageFault, Segment};
use alpha_table::{Insn, encode};
use alpha_words::{Level, NoMemory, Word};
use std::alloc::{AllocError, Global};
use std::marker::Model;

/// A program image. A clause sees its parts, a record of the version, the level, the addresses, the
/// number of stack bytes, the segments, the code words and the data bytes. The code is held as its
/// instructions, each of which has one word. The data is held as the bytes of the image, which may stand
/// behind others: behind the front of the file that the image was read from, and its code.
#[derive(Debug, Drop)]
pub struct Image {
    header: Header,
    insns: Vec<Insn>,
    bytes: Vec<u8>,
    data_at: usize,
}

impl Model for Image {
    ghost use Rattle.alpha_image.specs.Parts.{Parts};

    ghost Value = { Parts };

    ghost use Rattle.alpha_image.specs.Image.{parts_in, IsWhole};

    ghost view = { parts_in };

    ghost invariant = { IsWhole };
}

impl Image {
    ghost use Rattle.alpha_image.specs.Parts.{IsImage, SuitsVersion, numbers, pieces, place_of};
    ghost use Rattle.alpha_image.specs.PartsOf.{version_number, parts_with};
    ghost use Rattle.alpha_image.specs.Reading.{numbered_level};

    /// The version of the layout, 1 or 2.
    pub fn version(&self) -> u8
        ensures value { result ≡ version_number self.now.version }
    {
        self.header.version.number()
    }

    /// Which instructions the code may have.
    pub fn level(&self) -> Level
        ensures value { result ≡ self.now.level }
    {
        self.header.level()
    }

    /// The address of the first code word, a multiple of 8,192 below 2^30.
    pub fn code_base(&self) -> u64
        ensures value { result ≡ self.now.code_base }
        ensures good { IsImage self.now }
    {
        self.header.fields.code_base
    }

    /// The address of the first data byte of the first segment, a multiple of 8,192 below 2^30. It is 0
    /// where there is no segment.
    pub fn data_base(&self) -> u64
        ensures value { result ≡ (first_segment self.now.segments).base }
        ensures good { IsImage self.now }
    {
        self.header.first_segment().base
    }

    /// The address of the code word that runs first.
    pub fn entry(&self) -> u64
        ensures value { result ≡ self.now.entry }
        ensures good { IsImage self.now }
    {
        self.header.fields.entry
    }

    /// The number of code words, 1 to 262,144.
    pub fn words(&self) -> u32
        ensures value { result ≡ length self.now.words }
        ensures good { IsImage self.now }
    {
        self.header.words as u32
    }

    /// The number of zero bytes that follow the data bytes of the first segment. It is 0 where there is
    /// no segment.
    pub fn zeroed(&self) -> u32
        ensures value { result ≡ (first_segment self.now.segments).zeroed }
        ensures good { IsImage self.now }
    {
        self.header.first_segment().zeroed as u32
    }

    /// The number of stack bytes, a multiple of 16 from 16 to 1,048,576. The stack ends at 2^30.
    pub fn stack(&self) -> u32
        ensures value { result ≡ self.now.stack }
        ensures good { IsImage self.now }
    {
        self.header.fields.stack as u32
    }

    /// The number of data segments, 0 to 8.
    pub fn segments(&self) -> u32
        ensures value { result ≡ length self.now.segments }
        ensures good { IsImage self.now }
    {
        self.header.segments.len() as u32
    }

    /// A data segment, `None` exactly where the number is not below that of the segments. The bases rise,
    /// and no two segments overlap.
    pub fn segment(&self, n: u32) -> Option<Segment>
        ensures value { result ≡ slice_get self.now.segments n }
        ensures good { IsImage self.now }
    {
        self.header.segments.get(n as usize).copied()
    }

    /// The data bytes of a segment, `None` exactly where the number is not below that of the segments.
    pub fn segment_bytes(&self, n: u32) -> Option<&[u8]>
        ensures found { IsSome result ↔ (n < length self.now.segments) }
        ensures value { option_map (λ bytes. bytes.now) result
            ≡ option_map (λ piece. piece.bytes) (slice_get (pieces self.now) n) }
        ensures good { IsImage self.now }
    {
        let segment = self.segment(n)?;
        let before = self.header.data_size_before(n as usize);
        let (_, behind) = self.data_bytes().split_at(before);
        let (bytes, _) = behind.split_at(segment.filled as usize);
        Some(bytes)
    }

    /// The instruction of the code word at a place, `None` exactly where the place is not below the
    /// number of words.
    pub fn insn(&self, place: u32) -> Option<Insn>
        ensures value { result ≡ option_and_then decoded (slice_get self.now.words place) }
        ensures found { IsSome result ↔ (place < length self.now.words) }
        ensures good { IsImage self.now }
    {
        if place < self.words() {
            Some(self.insn_at(place))
        } else {
            None
        }
    }

    /// The instruction of the code word at a place below the number of words.
    pub fn insn_at(&self, place: u32) -> Insn
        requires { place < length self.now.words }
        ensures value { decoded (slice_index self.now.words place) ≡ Some result }
        ensures found { option_and_then decoded (slice_get self.now.words place) ≡ Some result }
        ensures word { slice_index self.now.words place ≡ encoded result }
        ensures class { class_at self.now.words place ≡ Some (class_of result) }
        ensures good { IsImage self.now }
    {
        insn_in(&self.insns, place as usize)
    }

    /// The instructions of the code words, in order.
    pub fn insns(&self) -> &[Insn]
        ensures value { map decoded self.now.words ≡ map Some result.now }
        ensures words { self.now.words ≡ map encoded result.now }
        ensures good { IsImage self.now }
    {
        self.insns.as_slice()
    }

    /// The code words, each as four bytes with the lowest first. `NoMemory` where memory runs out.
    pub fn code_bytes(&self, alloc: Global) -> Result<Vec<u8>, NoMemory>
        ensures value { IfOk result (λ code. code.items ≡ flat_map longword self.now.words) }
        ensures good { IsImage self.now }
    {
        let mut code = Vec::with_capacity(alloc, 4 * self.insns.len())?;
        self.push_code(&mut code)?;
        Ok(code)
    }

    /// Appends the bytes of the code words.
    pub(crate) fn push_code(&self, out: &mut Vec<u8>) -> Result<(), AllocError>
        ensures ok { OnOk result
            (out.new.items ≡ out.old.items ++ flat_map longword self.now.words) }
    {
        push_words(out, &self.insns)
    }

    /// The data bytes of all segments, in order.
    pub fn data_bytes(&self) -> &[u8]
        ensures value { result.now ≡ self.now.bytes }
        ensures good { IsImage self.now }
    {
        let (_, data) = self.bytes.split_at(self.data_at);
        data
    }

    /// The place of the code word at an address, `None` exactly where the address is not that of a
    /// code word.
    #[tactic(auto, unfolding(crate::specs::Parts::place_of))]
    pub fn place_of(&self, pc: u64) -> Option<u32>
        ensures value { result ≡ place_of self.now pc }
        ensures found { IfSome result (λ place.
            (place < length self.now.words) × (pc ≡ self.now.code_base + 4 * place)) }
        ensures none { IfNone result ((place : ℕ) →
            place < length self.now.words → pc ≢ self.now.code_base + 4 * place) }
    {
        // Below the code base the difference wraps, and is greater than any offset of the code.
        let offset = pc.wrapping_sub(self.code_base());
        if offset % 4 == 0 && offset / 4 < u64::from(self.words()) {
            Some((offset / 4) as u32)
        } else {
            None
        }
    }

    /// The image with this header, these code bytes and these data bytes, if each code word is in the
    /// instruction table at the header's level.
    pub(crate) fn build_from_bytes(
        alloc: Global,
        header: Header,
        code: &[u8],
        bytes: &[u8],
    ) -> Result<Image, ImageFault>
        requires fields { FieldsFit (header_numbers header) }
        requires matches_version { SuitsVersion header.version (header_numbers header) }
        requires words { length code.now ≡ 4 * header.words }
        requires filled { length bytes.now ≡ filled_size header.segments.items }
        ensures fault { let level = numbered_level header.fields.level in
            Tells result (word_fault level (words_of code.now)) }
        ensures good { IfOk result IsImage }
        ensures parts { let n = header_numbers header in IfOk result (λ image.
            image ≡ parts_with header.version n (words_of code.now) bytes.now) }
    {
        let insns = read_words(alloc, header.level(), code)?;
        Ok(Image {
            header,
            insns,
            bytes: Vec::from_slice(alloc, bytes)?,
            data_at: 0,
        })
    }

    /// The image that the bytes spell, which have this header, if each code word is in the instruction
    /// table at the header's level. The bytes stay as they are.
    pub(crate) fn of_file(
        alloc: Global,
        header: Header,
        bytes: Vec<u8>,
    ) -> Result<Image, ImageFault>
        requires version { header.version ≡ version_of bytes.items }
        requires numbers { header_numbers header ≡ numbers_of bytes.items }
        requires form { HasForm bytes.items }
        ensures fault { let level = numbered_level header.fields.level in
            Tells result (word_fault level (words_in bytes.items)) }
        ensures good { IfOk result IsImage }
        ensures parts { IfOk result (λ image. image ≡ parts_of bytes.items) }
    {
        let behind = &bytes[header.front_size()..];
        let (code, data) = behind.split_at(4 * header.words as usize);
        let insns = read_words(alloc, header.level(), code)?;
        let data_at = bytes.len() - data.len();
        Ok(Image {
            header,
            insns,
            bytes,
            data_at,
        })
    }

    /// The image with this header, these instructions and these data bytes.
    pub(crate) fn of_parts(header: Header, insns: Vec<Insn>, bytes: Vec<u8>) -> Image
        requires fields { FieldsFit (header_numbers header) }
        requires matches_version { SuitsVersion header.version (header_numbers header) }
        requires words { length insns.items ≡ header.words }
        requires insns { All (IsCodeInsn (numbered_level header.fields.level)) insns.items }
        requires bytes { All IsByte bytes.items }
        requires filled { length bytes.items ≡ filled_size header.segments.items }
        ensures good { IsImage result }
        ensures insns { map decoded result.words ≡ map Some insns.items }
        ensures parts { let n = header_numbers header in
            result ≡ parts_with header.version n (map encoded insns.items) bytes.items }
    {
        Image {
            header,
            insns,
            bytes,
            data_at: 0,
        }
    }

    /// The numbers that the image begins with.
    pub(crate) fn header(&self) -> &Header
        ensures version { result.now.version ≡ self.now.version }
        ensures numbers { header_numbers result.now ≡ numbers self.now }
        ensures good { IsImage self.now }
    {
        &self.header
    }
}

// The instruction at a place.
fn insn_in(insns: &[Insn], place: usize) -> Insn
    requires { place < length insns.now }
    ensures { slice_get insns.now place ≡ Some result }
{
    insns[place]
}

/// The code word at a place, `None` exactly where the place is not below the number of words. The word is
/// in the instruction table, and its instruction is there at the image's level.
pub fn code_word(image: &Image, n: u32) -> Option<Word>
    ensures found { IsSome result ↔ (n < length image.now.words) }
    ensures value { IfSome result (λ word. word.0 ≡ slice_index image.now.words n) }
    ensures table { IfSome result (λ word. IsCodeWord image.now.level word.0) }
{
    if n < image.words() {
        Some(encode(&image.insn_at(n)))
    } else {
        None
    }
}
