//! Code words: read from little-endian bytes as instructions, and written as bytes again.

ghost use Rattle.std.specs.Prelude.{◌≡◌, ◌+◌, ◌*◌, ◌≤◌, ◌<◌, ◌^◌, ◌++◌, length, map, slice_index, Some, is_some, IfOk};
ghost use Rattle.std.specs.Prelude.{IfSome, OnOk};
ghost use Rattle.std.specs.List.{flat_map};
ghost use Rattle.alpha_table.specs.Decoded.{decoded};
ghost use Rattle.alpha_table.specs.Encoded.{encoded};
ghost use Rattle.alpha_image.specs.declared.fault.ImageFault.TheVariants.{BadWord};
ghost use Rattle.alpha_image.specs.Layout.{longword};
ghost use Rattle.alpha_image.specs.Reading.{words_of};
ghost use Rattle.alpha_image.specs.ImageFault.{is_there, word_fault};
ghost use Rattle.alpha_image.specs.Tells.{Refuses, Tells};

use crate::ImageFault;
use crate::number::{longword_at, push_longword};
use alpha_table::{Insn, decode_inline, encode, level_of};
use alpha_words::{Level, Word};
use std::alloc::{AllocError, Global};

/// The instructions of code words, each as four bytes with the lowest first.
///
/// # Errors
///
/// `BadWord` with the first word outside the instruction table or above the level. `NoMemory` comes only
/// where there is none.
pub fn read_words(alloc: Global, level: Level, code: &[u8]) -> Result<Vec<Insn>, ImageFault>
    requires { length code.now < 2 ^ 32 }
    ensures fault { Tells result (word_fault level (words_of code.now)) }
    ensures insns { IfOk result (λ insns.
        map decoded (words_of code.now) ≡ map Some insns.items) }
{
    let words = code.len() / 4;
    let Ok(mut insns) = Vec::with_capacity(alloc, words) else {
        return Err(fault_without_memory(level, code));
    };
    for place in 0..words {
        let word = word_at(code, place);
        let Some(insn) = insn_at(level, word) else {
            return Err(bad_word(place as u32, word.0));
        };
        insns.push_reserved(insn);
    }
    Ok(insns)
}

// The fault of the word at a place. It is made apart, so that the loop above has its list in registers.
#[cold]
#[inline(never)]
fn bad_word(place: u32, word: u32) -> ImageFault
    ensures { result ≡ BadWord place word }
{
    ImageFault::BadWord(place, word)
}

// Why there are no instructions, where no list of them could be had: memory ran out only if no word is bad.
#[cold]
#[inline(never)]
fn fault_without_memory(level: Level, code: &[u8]) -> ImageFault
    requires { length code.now < 2 ^ 32 }
    ensures { Refuses result (word_fault level (words_of code.now)) }
{
    for place in 0..code.len() / 4 {
        let word = word_at(code, place);
        if insn_at(level, word).is_none() {
            return ImageFault::BadWord(place as u32, word.0);
        }
    }
    ImageFault::NoMemory
}

// The code word at a place.
fn word_at(code: &[u8], place: usize) -> Word
    requires { 4 * place + 4 ≤ length code.now }
    ensures value { result.0 ≡ slice_index (words_of code.now) place }
{
    Word(longword_at(code, 4 * place))
}

// The instruction of the word, if there is one at the level. Only one opcode has instructions that are above level one.
#[inline(always)]
fn insn_at(level: Level, word: Word) -> Option<Insn>
    ensures found { IfSome result (λ insn. decoded word.0 ≡ Some insn) }
    ensures value { is_some result ≡ is_there level (decoded word.0) }
{
    let insn = decode_inline(word)?;
    if word.opcode() != 0x1c || level == Level::Two || level_of(&insn) == Level::One {
        Some(insn)
    } else {
        None
    }
}

/// Appends the words of the instructions, each as four bytes with the lowest first. Where memory runs out,
/// some of them may stand in `out`.
pub fn push_words(out: &mut Vec<u8>, insns: &[Insn]) -> Result<(), AllocError>
    ensures ok { OnOk result
        (out.new.items ≡ out.old.items ++ flat_map longword (map encoded insns.now)) }
{
    for insn in insns {
        push_longword(out, encode(insn).0)?;
    }
    Ok(())
}
