//! What the scan and the handler read of code: one body of each serves an image as well as words with an address.

ghost use Rattle.std.specs.Prelude.{◌≡◌, ◌<◌, length};
ghost use Rattle.std.specs.Option.{option_map};
ghost use Rattle.alpha_table.specs.ClassOf.{class_of};
ghost use Rattle.alpha_table.specs.Code.{class_at};
ghost use Rattle.alpha_image.specs.Parts.{Parts};
ghost use Rattle.alpha_trap.specs.RawCode.{raw_code};

use alpha_image::Image;
use alpha_table::{Insn, decode, laws_of_classes};
use alpha_words::Word;

/// Code in which a late trap is looked for.
pub(crate) trait TrapCode {
    /// The parts of an image that has this code.
    ghost parts: { Self → Parts };

    /// The address of the first word, in bytes.
    fn base(&self) -> u64
        ensures { result ≡ (parts self.now).code_base };

    /// How many words there are.
    fn word_count(&self) -> usize
        ensures { result ≡ length (parts self.now).words };

    /// The instruction of the word at a place, if it is one.
    fn insn_if_any(&self, place: usize) -> Option<Insn>
        requires { place < length (parts self.now).words }
        ensures { class_at (parts self.now).words place ≡ option_map class_of result };
}

impl TrapCode for Image {
    ghost parts = { λ image. image };

    fn base(&self) -> u64 {
        self.code_base()
    }

    fn word_count(&self) -> usize {
        self.words() as usize
    }

    fn insn_if_any(&self, place: usize) -> Option<Insn> {
        // The count tells the proof that each place is a u32.
        let _count = self.words();
        Some(self.insn_at(place as u32))
    }
}

/// Words of which each may be an instruction or none, and the address of the first one.
#[derive(Drop)]
pub(crate) struct RawCode<'a> {
    /// The words.
    pub words: &'a [u32],
    /// The address of the first one, in bytes.
    pub base: u64,
}

impl<'a> TrapCode for RawCode<'a> {
    ghost parts = { λ code. raw_code code.words.now code.base };

    fn base(&self) -> u64 {
        self.base
    }

    fn word_count(&self) -> usize {
        self.words.len()
    }

    fn insn_if_any(&self, place: usize) -> Option<Insn> {
        laws_of_classes();
        decode(Word(self.words[place]))
    }
}
