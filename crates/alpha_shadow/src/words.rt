ghost use Rattle.std.specs.Prelude.{◌≡◌, ◌<◌, ◌^◌, length, OnOk, IfErr, IfNone, is_none, position};
ghost use Rattle.std.specs.List.{All};
ghost use Rattle.alpha_table.specs.Decoded.{decoded};
ghost use Rattle.alpha_shadow.specs.Broken.{IsAccepted};
ghost use Rattle.alpha_shadow.specs.Words.{AreKnown, IsInTable, Refuses};

use crate::{Broken, Code, Counted, judge};
use alpha_table::{Insn, decode, decode_inline};
use alpha_words::Word;
use thiserror::Error;

/// Why words are refused.
#[derive(Clone, Copy, Debug, PartialEq, Eq, Error)]
pub enum Refusal {
    /// There are 2^32 words or more.
    #[error("there are 2^32 words or more")]
    TooMany,
    /// The word at this place, the first such, is outside the instruction table.
    #[error("word {0} is no instruction")]
    Unknown(u32),
    /// This place breaks a shadow, and no lesser one does.
    #[error("{0}")]
    Broken(Broken),
}

/// The verdict on words, for who has no image: `Ok` exactly where there are fewer than 2^32, each is an
/// instruction, and no place is broken, as [`judge`](crate::judge) says it.
///
/// It takes no memory.
///
/// # Errors
///
/// `TooMany`, else `Unknown` with the first word outside the instruction table, else `Broken` with the least
/// broken place.
pub fn judge_words(words: &[u32]) -> Result<(), Refusal>
    ensures known { OnOk result (AreKnown words.now) }
    ensures accepted { OnOk result (IsAccepted words.now) }
    ensures refused { IfErr result (Refuses words.now) }
{
    if words.len() >= 0x1_0000_0000 {
        return Err(Refusal::TooMany);
    }
    if let Some(place) = first_unknown(words) {
        return Err(Refusal::Unknown(place as u32));
    }
    match judge(&mut Counted::new(WordsCode { words })) {
        Ok(()) => Ok(()),
        Err(broken) => Err(Refusal::Broken(broken)),
    }
}

// The place of the first word outside the instruction table.
fn first_unknown(words: &[u32]) -> Option<usize>
    ensures first { result ≡ position (λ word. is_none (decoded word)) words.now }
    ensures none { IfNone result (All IsInTable words.now) }
{
    words.iter().position(|word| is_unknown(*word))
}

// Whether a word is outside the instruction table.
#[inline(always)]
fn is_unknown(word: u32) -> bool
    ensures { result ≡ is_none (decoded word) }
{
    decode_inline(Word(word)).is_none()
}

// The words, each an instruction's.
#[derive(Drop)]
struct WordsCode<'a> {
    words: &'a [u32],
    ghost known: { AreKnown words.now },
}

impl<'a> Code for WordsCode<'a> {
    ghost code = { λ c. c.words.now };

    fn words(&self) -> u32 {
        self.words.len() as u32
    }

    fn insn(&self, place: u32) -> Insn {
        decode(Word(self.words[place as usize])).unwrap()
    }
}
