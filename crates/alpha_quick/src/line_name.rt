//! The name at the front of a line that has no label, found by the word of eight bytes that it stands in, and the line
//! read by that name.
ghost use Rattle.std.specs.Prelude.{◌≡◌, ◌<◌, ◌≤◌, ◌+◌, ◌*◌, ◌++◌, ℕ, List, IfSome, IfOk, IfErr, IsTrue, Ok, length};
ghost use Rattle.std.specs.Prelude.{take};
ghost use Rattle.alpha_token.specs.Tokens.{tokens};
ghost use Rattle.alpha_text.specs.declared.head.PseudoOp.{PseudoOp};
ghost use Rattle.alpha_text.specs.Heads.{pseudo_op_name};
ghost use Rattle.alpha_text.specs.Statements.{code};
ghost use Rattle.alpha_text.specs.SuffixWords.{IsApart};
ghost use Rattle.alpha_text.specs.Reading.{line_of, statement_of};
ghost use Rattle.alpha_quick.specs.Keys.{is_named};
ghost use Rattle.alpha_quick.specs.InsnPrefix.{PrefixSays, HasStatement};
ghost use Rattle.alpha_quick.specs.Prescanned.{IsPrescanned};
ghost use Rattle.alpha_quick.specs.Parts.{StandsFor, unlabelled};
ghost use Rattle.alpha_quick.specs.TerminatedLine.{IsTerminated, rest_from};

use crate::forms::{InsnPrefix, insn_of_pseudo_op};
use crate::key::NameKey;
use crate::line::Prescanned;
use crate::rows::{place_of, pseudo_op_at, row_at};
use crate::terminated_line::TerminatedLine;
use alpha_table::Insn;

// How many bytes of a word stand before its first blank. It may be too few where a byte before the blank is the next
// higher one, so nothing rests on it: the name of so many bytes is sought, and a blank behind it.
#[inline(always)]
fn bytes_before_blank(word: u64) -> usize
    ensures { result ≤ 8 }
{
    let mask = word.wrapping_sub(0x2121_2121_2121_2121) & !word & 0x8080_8080_8080_8080;
    (mask.leading_zeros() >> 3) as usize
}

// How many bytes of a word stand before its first blank, of so many that are left of the line.
#[inline(always)]
fn name_length(word: u64, left: usize) -> usize
    ensures few { result ≤ 8 }
    ensures within { result ≤ left }
{
    let n = bytes_before_blank(word);
    if left < n { left } else { n }
}

// Eight bytes as one number, the last of them in its low bits. The compiler makes one load of them.
#[inline(always)]
fn word_of_bytes(a: u8, b: u8, c: u8, d: u8, e: u8, f: u8, g: u8, h: u8) -> u64
    ensures bytes { (a < 256) × (b < 256) × (c < 256) × (d < 256) × (e < 256) × (f < 256) × (g < 256) × (h < 256) }
    ensures value { result ≡ ((((((a * 256 + b) * 256 + c) * 256 + d) * 256 + e) * 256 + f) * 256 + g) * 256 + h }
{
    u64::from_be_bytes([a, b, c, d, e, f, g, h])
}

// Whether a line with an instruction may begin with this byte.
#[inline(always)]
fn may_begin_line(byte: u8) -> bool {
    byte >= b'a' || byte == b' ' || byte == b'\t'
}

impl<'a> TerminatedLine<'a> {
    // The place behind a space, where one stands at this place.
    #[inline(always)]
    fn after_space(&self, i: usize) -> Option<usize>
        requires ended { IsTerminated self.now }
        requires within { i ≤ self.now.end }
        ensures order { IfSome result (λ j. i < j) }
        ensures within { IfSome result (λ j. j ≤ self.now.end) }
        ensures apart { IfSome result (λ j. IsApart (rest_from self.now i)) }
        ensures line { IfSome result (λ j. tokens (rest_from self.now i) ≡ tokens (rest_from self.now j)) }
    {
        if self.is_byte_at(i, b' ') {
            Some(i + 1)
        } else {
            None
        }
    }

    // The place behind the spaces at a place. It is a call, since canonical lines have none.
    #[inline(never)]
    fn after_spaces(&self, start: usize) -> usize
        requires ended { IsTerminated self.now }
        requires within { start ≤ self.now.end }
        ensures within { result ≤ self.now.end }
        ensures line { tokens (rest_from self.now start) ≡ tokens (rest_from self.now result) }
    {
        let mut i = start;
        while i < self.end {
            match self.after_space(i) {
                Some(next) => i = next,
                None => break,
            }
        }
        i
    }

    // The place behind the blanks at the front, a tab or spaces.
    #[inline(always)]
    fn text_start(&self) -> usize
        requires ended { IsTerminated self.now }
        ensures within { result ≤ self.now.end }
        ensures line { tokens (rest_from self.now 0) ≡ tokens (rest_from self.now result) }
    {
        let front = self.bytes[0];
        if front >= b'a' {
            0
        } else if front == b' ' {
            self.after_spaces(0)
        } else {
            match self.after_tab(0) {
                Some(i) => i,
                None => 0,
            }
        }
    }

    // The place behind the blanks at a place, a tab or spaces, where one stands there.
    #[inline(always)]
    fn after_blanks(&self, i: usize) -> Option<usize>
        requires ended { IsTerminated self.now }
        requires within { i ≤ self.now.end }
        ensures within { IfSome result (λ j. j ≤ self.now.end) }
        ensures apart { IfSome result (λ j. IsApart (rest_from self.now i)) }
        ensures line { IfSome result (λ j. tokens (rest_from self.now i) ≡ tokens (rest_from self.now j)) }
    {
        match self.after_space(i) {
            Some(j) => {
                if self.is_byte_at(j, b' ') {
                    Some(self.after_spaces(j))
                } else {
                    Some(j)
                }
            }
            None => self.after_tab(i),
        }
    }

    // The place behind a tab, where one stands at this place.
    #[inline(always)]
    fn after_tab(&self, i: usize) -> Option<usize>
        requires ended { IsTerminated self.now }
        requires within { i ≤ self.now.end }
        ensures within { IfSome result (λ j. j ≤ self.now.end) }
        ensures apart { IfSome result (λ j. IsApart (rest_from self.now i)) }
        ensures line { IfSome result (λ j. tokens (rest_from self.now i) ≡ tokens (rest_from self.now j)) }
    {
        if i < self.end && self.is_any_byte_at(i, b'\t') {
            Some(i + 1)
        } else {
            None
        }
    }

    // The place of the words behind a name that ends at this place, which are none where the line ends there.
    #[inline(always)]
    fn operands_start(&self, i: usize) -> Option<usize>
        requires ended { IsTerminated self.now }
        requires within { i ≤ self.now.end }
        ensures within { IfSome result (λ j. j ≤ self.now.end) }
        ensures apart { IfSome result (λ j. IsApart (rest_from self.now i)) }
        ensures line { IfSome result (λ j. tokens (rest_from self.now i) ≡ tokens (rest_from self.now j)) }
    {
        match self.after_blanks(i) {
            Some(j) => Some(j),
            None => { if i == self.end { Some(i) } else { None } }
        }
    }

    // The place behind the name at a place, and its key, where it has eight bytes at most and a blank or the line's end
    // behind it. Those bytes of the word are the name of each row that has their key.
    #[inline(always)]
    fn name_and_key(&self, i: usize) -> Option<(usize, NameKey)>
        requires ended { IsTerminated self.now }
        requires within { i ≤ self.now.end }
        ensures order { IfSome result (λ r. i ≤ r.0) }
        ensures within { IfSome result (λ r. r.0 ≤ self.now.end) }
        ensures key { IfSome result (λ r. (name : List ℕ) → IsTrue (is_named name r.1.0)
            → rest_from self.now i ≡ name ++ rest_from self.now r.0) }
    {
        let bytes = self.bytes;
        if bytes.len() - i < 8 {
            return None;
        }
        let first = bytes[i];
        let word = word_of_bytes(
            first,
            bytes[i + 1],
            bytes[i + 2],
            bytes[i + 3],
            bytes[i + 4],
            bytes[i + 5],
            bytes[i + 6],
            bytes[i + 7],
        );
        let n = name_length(word, self.end - i);
        if n < 1 || first == 0 || n == 8 && bytes[i + 8] > b' ' {
            return None;
        }
        Some((i + n, NameKey(word >> (64 - 8 * n))))
    }

    // What stands between two places.
    #[inline(always)]
    fn slice(&self, start: usize, end: usize) -> &'a [u8]
        requires ended { IsTerminated self.now }
        requires order { start ≤ end }
        requires within { end ≤ self.now.end }
        ensures { rest_from self.now start ≡ result.now ++ rest_from self.now end }
    {
        let (part, _) = self.rest_from(start).split_at(end - start);
        part
    }

    // The instruction that a pseudo-operation stands for, whose name stands between two places, with the words at
    // another.
    #[inline(always)]
    fn insn_of_pseudo_op(
        &self,
        start: usize,
        end: usize,
        words: usize,
        place: usize,
    ) -> Option<Insn>
        requires ended { IsTerminated self.now }
        requires order { start ≤ end }
        requires within { end ≤ self.now.end }
        requires words { words ≤ self.now.end }
        ensures { IfSome result (λ i. (pseudo_op : PseudoOp)
            × (rest_from self.now start ≡ pseudo_op_name pseudo_op ++ rest_from self.now end)
            × StandsFor pseudo_op (rest_from self.now words) i) }
    {
        let pseudo_op = pseudo_op_at(self.slice(start, end), place)?;
        insn_of_pseudo_op(pseudo_op, self.rest_from(words))
    }

    // The instruction of the line with a name at a place, or the front of it.
    #[inline(always)]
    fn insn_prefix(&self, start: usize) -> Option<InsnPrefix<'a>>
        requires ended { IsTerminated self.now }
        requires within { start ≤ self.now.end }
        ensures { IfSome result (PrefixSays (HasStatement (rest_from self.now start))) }
    {
        if self.bytes[start] < b'a' {
            return None;
        }
        let (end, key) = self.name_and_key(start)?;
        let words = self.operands_start(end)?;
        let place = place_of(key)?;
        match row_at(place, key) {
            Some(row) => self.of_row(row, words),
            None => {
                if key.0 & 0xff == u64::from(b':') {
                    None
                } else {
                    let insn = self.insn_of_pseudo_op(start, end, words, place)?;
                    Some(InsnPrefix::without_label(insn, self.bytes))
                }
            }
        }
    }

    // The instruction of the line, or the line as far as it was read.
    #[inline(always)]
    fn read(&self) -> Result<Insn, Prescanned<'a>>
        requires ended { IsTerminated self.now }
        ensures ok { IfOk result (λ i. HasStatement (rest_from self.now 0) (code i)) }
        ensures left { IfErr result (IsPrescanned (rest_from self.now 0)) }
    {
        let start = self.text_start();
        match self.insn_prefix(start) {
            Some(prefix) => prefix.insn_alone(),
            None => Err(Prescanned {
                insn: None,
                left: self.rest_from(start),
            }),
        }
    }
}

/// The instruction of a canonical line that has no label and names none, or the line as far as it was read. The line
/// stands at the front of bytes of its source, as far as its end at least: what stands behind it tells where it ends.
#[inline(always)]
pub fn read_canonical<'a>(line: &'a [u8], bytes: &'a [u8]) -> Result<Insn, Prescanned<'a>>
    requires { line.now ≡ take (length line.now) bytes.now }
    ensures line { IfOk result (λ i. line_of (tokens line.now) ≡ Ok (unlabelled i)) }
    ensures statement { IfOk result (λ i. statement_of (tokens line.now) ≡ Ok (code i)) }
    ensures left { IfErr result (IsPrescanned line.now) }
{
    let end = line.len();
    let ended = TerminatedLine { bytes, end };
    if end < bytes.len() && bytes[end] < 14 && may_begin_line(bytes[0]) {
        ended.read()
    } else {
        Err(Prescanned {
            insn: None,
            left: line,
        })
    }
}
