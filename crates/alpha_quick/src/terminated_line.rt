//! Lines that are read by places. Behind such a line stands a control byte, as the line feed that ends it, and no byte
//! that is looked for is one: so whatever is found stands before the line's end, and no place is compared with the end
//! before its byte is looked at.
ghost use Rattle.std.specs.Prelude.{◌≡◌, ◌<◌, ◌≤◌, ◌+◌, ◌∷◌, ◌++◌, [], IfSome, IsTrue, decimal, true, false};
ghost use Rattle.std.specs.Char.{is_ascii_alphanumeric};
ghost use Rattle.alpha_token.specs.Tokens.{tokens};
ghost use Rattle.alpha_text.specs.SuffixWords.{BeginsWithout};
ghost use Rattle.alpha_quick.specs.TerminatedLine.{IsTerminated, rest_from};
ghost use Rattle.alpha_quick.specs.Words.{HasEnd, HasRegister, HasNumber, HasFirst, HasLast};

use crate::words::{ends_after_blanks, ends_word};
use alpha_words::Reg;

/// A line in the bytes of its source, which begin with it.
#[derive(Clone, Copy)]
pub(crate) struct TerminatedLine<'a> {
    /// These bytes.
    pub bytes: &'a [u8],
    /// How many of them are the line's.
    pub end: usize,
}

impl<'a> TerminatedLine<'a> {
    /// Whether this byte stands at a place. It isn't a control byte, so where it stands the line goes on.
    #[inline(always)]
    pub(crate) fn is_byte_at(&self, i: usize, byte: u8) -> bool
        requires ended { IsTerminated self.now }
        requires within { i ≤ self.now.end }
        requires other { 13 < byte }
        ensures within { IsTrue result → i < self.now.end }
        ensures line { IsTrue result → rest_from self.now i ≡ byte ∷ rest_from self.now (i + 1) }
    {
        self.bytes[i] == byte
    }

    /// Whether any byte stands at a place before the end.
    #[inline(always)]
    pub(crate) fn is_any_byte_at(&self, i: usize, byte: u8) -> bool
        requires ended { IsTerminated self.now }
        requires within { i < self.now.end }
        ensures { IsTrue result → rest_from self.now i ≡ byte ∷ rest_from self.now (i + 1) }
    {
        self.bytes[i] == byte
    }

    // The digit at a place, if one stands there. It isn't a control byte either.
    #[inline(always)]
    fn digit(&self, i: usize) -> Option<u32>
        requires ended { IsTerminated self.now }
        requires within { i ≤ self.now.end }
        ensures bound { IfSome result (λ d. d < 10) }
        ensures within { IfSome result (λ d. i < self.now.end) }
        ensures line { IfSome result (λ d. rest_from self.now i ≡ (48 + d) ∷ rest_from self.now (i + 1)) }
    {
        let byte = self.bytes[i];
        if byte.is_ascii_digit() {
            Some(u32::from(byte - b'0'))
        } else {
            None
        }
    }

    // The number of a register whose mark and first digit stand at a place, as far as that digit tells it.
    #[tactic(auto, using(std::proofs::lemmas::Fmt::decimal_digit))]
    #[inline(always)]
    fn register_digit(&self, i: usize) -> Option<u32>
        requires ended { IsTerminated self.now }
        requires within { i ≤ self.now.end }
        ensures bound { IfSome result (λ r. r < 10) }
        ensures within { IfSome result (λ r. i + 2 ≤ self.now.end) }
        ensures line { IfSome result (λ r. rest_from self.now i ≡ 36 ∷ (decimal r ++ rest_from self.now (i + 2))) }
    {
        if self.is_byte_at(i, b'$') {
            self.digit(i + 1)
        } else {
            None
        }
    }

    // The number of a register of two digits, of which the first was read.
    #[tactic(auto, using(crate::proofs::CanonicalLines::decimal_next_digit))]
    #[inline(always)]
    fn register_two_digits(&self, i: usize, first: u32) -> Option<u32>
        requires ended { IsTerminated self.now }
        requires within { i + 2 ≤ self.now.end }
        requires bound { first < 10 }
        requires line { rest_from self.now i ≡ 36 ∷ (decimal first ++ rest_from self.now (i + 2)) }
        ensures bound { IfSome result (λ r. r < 32) }
        ensures within { IfSome result (λ r. i + 3 ≤ self.now.end) }
        ensures line { IfSome result (λ r. rest_from self.now i ≡ 36 ∷ (decimal r ++ rest_from self.now (i + 3))) }
    {
        let second = self.digit(i + 2)?;
        let n = 10 * first + second;
        if first > 0 && n < 32 { Some(n) } else { None }
    }

    // A letter or a digit at a place. It isn't a control byte either.
    #[inline(always)]
    fn alphanumeric(&self, i: usize) -> Option<u8>
        requires ended { IsTerminated self.now }
        requires within { i ≤ self.now.end }
        ensures within { IfSome result (λ b. i < self.now.end) }
        ensures kind { IfSome result (λ b. is_ascii_alphanumeric b ≡ true) }
        ensures line { IfSome result (λ b. rest_from self.now i ≡ b ∷ rest_from self.now (i + 1)) }
    {
        let byte = self.bytes[i];
        if byte.is_ascii_alphanumeric() {
            Some(byte)
        } else {
            None
        }
    }

    // The two letters or digits behind the mark of a register at a place.
    #[inline(always)]
    fn register_letters(&self, i: usize) -> Option<(u8, u8)>
        requires ended { IsTerminated self.now }
        requires within { i ≤ self.now.end }
        ensures within { IfSome result (λ r. i + 3 ≤ self.now.end) }
        ensures first { IfSome result (λ r. is_ascii_alphanumeric r.0 ≡ true) }
        ensures second { IfSome result (λ r. is_ascii_alphanumeric r.1 ≡ true) }
        ensures line { IfSome result (λ r. rest_from self.now i ≡ 36 ∷ r.0 ∷ r.1 ∷ rest_from self.now (i + 3)) }
    {
        if self.is_byte_at(i, b'$') {
            let first = self.alphanumeric(i + 1)?;
            let second = self.alphanumeric(i + 2)?;
            Some((first, second))
        } else {
            None
        }
    }

    // The register by such a name, where this mark stands behind it. It is a call, since most registers are written
    // by their numbers; names of other lengths are left to `words.rt`.
    #[inline(never)]
    fn register_name_before(&self, i: usize, mark: u8) -> Option<Reg>
        requires ended { IsTerminated self.now }
        requires within { i ≤ self.now.end }
        requires mark { is_ascii_alphanumeric mark ≡ false }
        requires other { 13 < mark }
        ensures within { IfSome result (λ r. i + 4 ≤ self.now.end) }
        ensures line { IfSome result (λ r. HasRegister (rest_from self.now i) r (mark ∷ rest_from self.now (i + 4))) }
    {
        let (first, second) = self.register_letters(i)?;
        if self.is_byte_at(i + 3, mark) {
            let r = alpha_operands::register(&[b'$', first, second])?;
            Some(r)
        } else {
            None
        }
    }

    // The register by such a name, where the line ends behind it.
    #[inline(never)]
    fn register_name_last(&self, i: usize) -> Option<Reg>
        requires ended { IsTerminated self.now }
        requires within { i ≤ self.now.end }
        ensures { IfSome result (λ r. HasLast (rest_from self.now i) r) }
    {
        let (first, second) = self.register_letters(i)?;
        if self.is_line_end(i + 3) {
            let r = alpha_operands::register(&[b'$', first, second])?;
            Some(r)
        } else {
            None
        }
    }

    /// The register at a place, where this mark stands behind it, and the place behind the mark.
    #[inline(always)]
    pub(crate) fn register_before(&self, i: usize, mark: u8) -> Option<(Reg, usize)>
        requires ended { IsTerminated self.now }
        requires within { i ≤ self.now.end }
        requires mark { is_ascii_alphanumeric mark ≡ false }
        requires other { 13 < mark }
        ensures within { IfSome result (λ r. r.1 ≤ self.now.end) }
        ensures line { IfSome result (λ r. HasRegister (rest_from self.now i) r.0 (mark ∷ rest_from self.now r.1)) }
    {
        match self.register_number_before(i, mark) {
            Some(found) => Some(found),
            None => {
                if self.is_byte_at(i, b'$') {
                    let r = self.register_name_before(i, mark)?;
                    Some((r, i + 4))
                } else {
                    None
                }
            }
        }
    }

    // The register by its number at a place, where this mark stands behind it, and the place behind the mark.
    #[inline(always)]
    fn register_number_before(&self, i: usize, mark: u8) -> Option<(Reg, usize)>
        requires ended { IsTerminated self.now }
        requires within { i ≤ self.now.end }
        requires mark { is_ascii_alphanumeric mark ≡ false }
        requires other { 13 < mark }
        ensures within { IfSome result (λ r. r.1 ≤ self.now.end) }
        ensures line { IfSome result (λ r. HasRegister (rest_from self.now i) r.0 (mark ∷ rest_from self.now r.1)) }
    {
        let first = self.register_digit(i)?;
        let j = i + 2;
        if self.is_byte_at(j, mark) {
            let r = Reg::new(first as u8)?;
            return Some((r, j + 1));
        }
        let n = self.register_two_digits(i, first)?;
        let k = i + 3;
        if self.is_byte_at(k, mark) {
            let r = Reg::new(n as u8)?;
            Some((r, k + 1))
        } else {
            None
        }
    }

    /// What is left of the line from a place on.
    #[inline(always)]
    pub(crate) fn rest_from(&self, i: usize) -> &'a [u8]
        requires ended { IsTerminated self.now }
        requires within { i ≤ self.now.end }
        ensures { result.now ≡ rest_from self.now i }
    {
        &self.bytes[i..self.end]
    }

    /// Whether the line ends at a place behind a word, or its comment begins there behind blanks.
    #[inline(always)]
    pub(crate) fn is_line_end(&self, i: usize) -> bool
        requires ended { IsTerminated self.now }
        requires within { i ≤ self.now.end }
        ensures word { IsTrue result → BeginsWithout is_ascii_alphanumeric (rest_from self.now i) }
        ensures end { IsTrue result → HasEnd (rest_from self.now i) }
    {
        i == self.end || ends_behind_blanks(self.rest_from(i))
    }

    /// The register at a place, where a comma stands behind it, and the place behind the comma.
    #[inline(always)]
    pub(crate) fn first_register(&self, i: usize) -> Option<(Reg, usize)>
        requires ended { IsTerminated self.now }
        requires within { i ≤ self.now.end }
        ensures within { IfSome result (λ r. r.1 ≤ self.now.end) }
        ensures line { IfSome result (λ r. HasFirst (rest_from self.now i) r.0 (rest_from self.now r.1)) }
    {
        let (r, j) = self.register_before(i, b',')?;
        Some((r, self.after_comma(j)))
    }

    /// The place behind a space, where one stands at this place, or this place.
    #[inline(always)]
    pub(crate) fn after_comma(&self, i: usize) -> usize
        requires ended { IsTerminated self.now }
        requires within { i ≤ self.now.end }
        ensures within { result ≤ self.now.end }
        ensures line { tokens (rest_from self.now i) ≡ tokens (rest_from self.now result) }
    {
        if self.is_byte_at(i, b' ') { i + 1 } else { i }
    }

    /// The register at a place, where the line ends behind it.
    #[inline(always)]
    pub(crate) fn last_register(&self, i: usize) -> Option<Reg>
        requires ended { IsTerminated self.now }
        requires within { i ≤ self.now.end }
        ensures { IfSome result (λ r. HasLast (rest_from self.now i) r) }
    {
        match self.register_number_last(i) {
            Some(r) => Some(r),
            None => self.register_name_last(i),
        }
    }

    // The register by its number at a place, where the line ends behind it.
    #[inline(always)]
    fn register_number_last(&self, i: usize) -> Option<Reg>
        requires ended { IsTerminated self.now }
        requires within { i ≤ self.now.end }
        ensures { IfSome result (λ r. HasLast (rest_from self.now i) r) }
    {
        let first = self.register_digit(i)?;
        if i + 2 == self.end {
            return Reg::new(first as u8);
        }
        match self.register_two_digits(i, first) {
            Some(n) => self.last_register_of(i, i + 3, n),
            None => self.last_register_of(i, i + 2, first),
        }
    }

    // The register of this number, where the line ends at the place behind its digits.
    #[inline(always)]
    fn last_register_of(&self, i: usize, j: usize, n: u32) -> Option<Reg>
        requires ended { IsTerminated self.now }
        requires within { j ≤ self.now.end }
        requires bound { n < 32 }
        requires line { rest_from self.now i ≡ 36 ∷ (decimal n ++ rest_from self.now j) }
        ensures { IfSome result (λ r. HasLast (rest_from self.now i) r) }
    {
        if self.is_line_end(j) {
            Reg::new(n as u8)
        } else {
            None
        }
    }

    // The number at a place, as far as its first eight digits tell it, and the place behind these.
    #[tactic(auto, using(std::proofs::lemmas::Fmt::decimal_digit, crate::proofs::CanonicalLines::decimal_next_digit))]
    #[inline(always)]
    fn number(&self, i: usize) -> Option<(u32, usize)>
        requires ended { IsTerminated self.now }
        requires within { i ≤ self.now.end }
        ensures within { IfSome result (λ r. r.1 ≤ self.now.end) }
        ensures line { IfSome result (λ r. rest_from self.now i ≡ decimal r.0 ++ rest_from self.now r.1) }
    {
        let first = self.digit(i)?;
        if first == 0 {
            Some((0, i + 1))
        } else {
            Some(self.append_digits(first, i + 1))
        }
    }

    // The number of a first digit and of those at a place and behind it, and the place behind these.
    #[tactic(auto, using(crate::proofs::CanonicalLines::decimal_next_digit))]
    #[inline(always)]
    fn append_digits(&self, first: u32, i: usize) -> (u32, usize)
        requires ended { IsTerminated self.now }
        requires within { i ≤ self.now.end }
        requires some { 0 < first }
        requires one { first < 10 }
        ensures within { result.1 ≤ self.now.end }
        ensures line { decimal first ++ rest_from self.now i ≡ decimal result.0 ++ rest_from self.now result.1 }
    {
        let mut n = first;
        let mut j = i;
        while n < 10_000_000 {
            match self.digit(j) {
                Some(d) => {
                    n = 10 * n + d;
                    j += 1;
                }
                None => break,
            }
        }
        (n, j)
    }

    /// The number at a place, where this mark stands behind it, and the place behind the mark.
    #[inline(always)]
    pub(crate) fn number_before(&self, i: usize, mark: u8) -> Option<(u32, usize)>
        requires ended { IsTerminated self.now }
        requires within { i ≤ self.now.end }
        requires mark { is_ascii_alphanumeric mark ≡ false }
        requires other { 13 < mark }
        ensures within { IfSome result (λ r. r.1 ≤ self.now.end) }
        ensures line { IfSome result (λ r. HasNumber (rest_from self.now i) r.0 (mark ∷ rest_from self.now r.1)) }
    {
        let (n, j) = self.number(i)?;
        if self.is_byte_at(j, mark) {
            Some((n, j + 1))
        } else {
            None
        }
    }

    /// The number at a place, where the line ends behind it.
    #[inline(always)]
    pub(crate) fn number_last(&self, i: usize) -> Option<u32>
        requires ended { IsTerminated self.now }
        requires within { i ≤ self.now.end }
        ensures { IfSome result (λ n. HasNumber (rest_from self.now i) n []) }
    {
        let (n, j) = self.number(i)?;
        if j == self.end { Some(n) } else { None }
    }
}

// Whether a line ends behind a word, or its comment begins behind blanks. It is a call, since canonical lines end
// where their last word does.
#[inline(never)]
fn ends_behind_blanks(s: &[u8]) -> bool
    ensures word { IsTrue result → BeginsWithout is_ascii_alphanumeric s.now }
    ensures end { IsTrue result → HasEnd s.now }
{
    ends_word(s) && ends_after_blanks(s)
}
