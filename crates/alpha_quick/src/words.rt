//! The words of operands, each read at the front of what is left of a line. Blanks may stand before each; what
//! stands behind a comma is read on behind its blanks, so that most words have none before them.
ghost use Rattle.std.specs.Prelude.{◌≡◌, ◌<◌, ◌+◌, ◌∷◌, ◌++◌, IfSome, IsTrue, decimal, true};
ghost use Rattle.std.specs.Char.{is_ascii_alphanumeric};
ghost use Rattle.alpha_token.specs.declared.token.TokenKind.TheVariants as kinds;
ghost use Rattle.alpha_token.specs.Tokens.{tokens};
ghost use Rattle.alpha_quick.specs.Words.{HasMark, HasComma, HasRegister, HasNumber, HasLabel, HasOpened, HasEnd};
ghost use Rattle.alpha_quick.specs.Words.{HasSigned};
ghost use Rattle.alpha_text.specs.SuffixWords.{BeginsWithout};

use crate::lexeme::{Lexeme, ends_name};
use alpha_operands::{Half, Sign};
use alpha_token::{Step, TokenKind, next, without_blanks};
use alpha_words::Reg;

/// What stands behind the blanks at the front, which most words don't have before them.
#[inline(always)]
pub(crate) fn after_blanks(s: &[u8]) -> &[u8]
    ensures { tokens s.now ≡ tokens result.now }
{
    match s {
        [b' ' | b'\t', ..] => without_blanks(s),
        _ => s,
    }
}

/// Whether no letter and no digit goes on a word here.
#[inline(always)]
pub(crate) fn ends_word(s: &[u8]) -> bool
    ensures { IsTrue result → BeginsWithout is_ascii_alphanumeric s.now }
{
    match s {
        [first, ..] => *first < b'0' || !first.is_ascii_alphanumeric(),
        [] => true,
    }
}

/// What stands behind a byte at the front.
#[inline(always)]
pub(crate) fn after_byte(byte: u8, s: &[u8]) -> Option<&[u8]>
    ensures { IfSome result (λ r. s.now ≡ byte ∷ r.now) }
{
    match s {
        [first, rest @ ..] if *first == byte => Some(rest),
        _ => None,
    }
}

// A digit at the front, and what stands behind it.
#[inline(always)]
fn digit(s: &[u8]) -> Option<(u32, &[u8])>
    ensures value { IfSome result (λ d. s.now ≡ (48 + d.0) ∷ d.1.now) }
    ensures bound { IfSome result (λ d. d.0 < 10) }
{
    match s {
        [first, rest @ ..] if first.is_ascii_digit() => Some((u32::from(*first - b'0'), rest)),
        _ => None,
    }
}

// A number with the digits behind it, eight at most.
#[tactic(auto, using(crate::proofs::CanonicalLines::decimal_next_digit))]
#[inline(always)]
fn with_digits(first: u32, s: &[u8]) -> (u32, &[u8])
    requires some { 0 < first }
    requires one { first < 10 }
    ensures { decimal first ++ s.now ≡ decimal result.0 ++ result.1.now }
{
    let mut n = first;
    let mut rest = s;
    while n < 10_000_000 {
        match digit(rest) {
            Some((d, behind)) => {
                n = 10 * n + d;
                rest = behind;
            }
            None => break,
        }
    }
    (n, rest)
}

// A number without leading zeros at the front, and what stands behind it.
#[tactic(auto, using(std::proofs::lemmas::Fmt::decimal_digit))]
#[inline(always)]
fn decimal(s: &[u8]) -> Option<(u32, &[u8])>
    ensures { IfSome result (λ r. s.now ≡ decimal r.0 ++ r.1.now) }
{
    let (first, rest) = digit(s)?;
    if first == 0 {
        Some((0, rest))
    } else {
        Some(with_digits(first, rest))
    }
}

// A number of one digit or two at the front, and what stands behind it.
#[tactic(auto, using(std::proofs::lemmas::Fmt::decimal_digit, crate::proofs::CanonicalLines::decimal_next_digit))]
#[inline(always)]
fn register_number(s: &[u8]) -> Option<(u32, &[u8])>
    ensures { IfSome result (λ r. s.now ≡ decimal r.0 ++ r.1.now) }
{
    let (first, rest) = digit(s)?;
    match digit(rest) {
        Some((second, behind)) if first > 0 => Some((10 * first + second, behind)),
        _ => Some((first, rest)),
    }
}

/// What stands behind any blanks at the front. It is a call, since few words need it.
#[inline(never)]
pub(crate) fn without_any_blanks(s: &[u8]) -> &[u8]
    ensures { tokens s.now ≡ tokens result.now }
{
    without_blanks(s)
}

// What stands behind a byte at the front, behind blanks.
#[inline(always)]
fn after_blanks_and_byte(byte: u8, s: &[u8]) -> Option<&[u8]>
    ensures { IfSome result (λ r. tokens s.now ≡ tokens (byte ∷ r.now)) }
{
    after_byte(byte, without_any_blanks(s))
}

/// What stands behind a comma at the front and the blanks behind it.
#[inline(always)]
pub(crate) fn after_comma(s: &[u8]) -> Option<&[u8]>
    ensures { IfSome result (λ r. HasComma s.now r.now) }
{
    match after_byte(b',', s) {
        Some(rest) => Some(after_blanks(rest)),
        None => {
            let rest = after_blanks_and_byte(b',', s)?;
            Some(after_blanks(rest))
        }
    }
}

/// What stands behind `(` at the front.
#[inline(always)]
pub(crate) fn after_open(s: &[u8]) -> Option<&[u8]>
    ensures { IfSome result (λ r. HasMark s.now kinds.Open r.now) }
{
    match after_byte(b'(', s) {
        Some(rest) => Some(rest),
        None => after_blanks_and_byte(b'(', s),
    }
}

/// What stands behind `)` at the front.
#[inline(always)]
pub(crate) fn after_close(s: &[u8]) -> Option<&[u8]>
    ensures { IfSome result (λ r. HasMark s.now kinds.Close r.now) }
{
    match after_byte(b')', s) {
        Some(rest) => Some(rest),
        None => after_blanks_and_byte(b')', s),
    }
}

/// Whether the line ends behind blanks, or its comment begins there.
#[inline(never)]
pub(crate) fn ends_after_blanks(s: &[u8]) -> bool
    ensures { IsTrue result → HasEnd s.now }
{
    match without_blanks(s) {
        [] | [b'#', ..] => true,
        _ => false,
    }
}

/// Whether the line ends here, or its comment begins.
#[inline(always)]
pub(crate) fn is_end(s: &[u8]) -> bool
    ensures { IsTrue result → HasEnd s.now }
{
    s.is_empty() || ends_after_blanks(s)
}

// A register by its number, with nothing before it.
#[inline(always)]
fn register_by_number(s: &[u8]) -> Option<(Reg, &[u8])>
    ensures { IfSome result (λ r. HasRegister s.now r.0 r.1.now) }
{
    let digits = after_byte(b'$', s)?;
    let (n, rest) = register_number(digits)?;
    if n < 32 && ends_word(rest) {
        let r = Reg::new(n as u8)?;
        Some((r, rest))
    } else {
        None
    }
}

// Any register, behind blanks, and what stands behind it.
fn any_register(s: &[u8]) -> Option<(Reg, &[u8])>
    ensures { IfSome result (λ r. HasRegister s.now r.0 r.1.now) }
{
    match next(s) {
        Step::Token(token) => match token.kind {
            TokenKind::Register => {
                let r = alpha_operands::register(token.text)?;
                Some((r, token.rest))
            }
            _ => None,
        },
        _ => None,
    }
}

// A letter or a digit at the front, and what stands behind it.
#[inline(always)]
fn letter(s: &[u8]) -> Option<(u8, &[u8])>
    ensures value { IfSome result (λ r. s.now ≡ r.0 ∷ r.1.now) }
    ensures kind { IfSome result (λ r. is_ascii_alphanumeric r.0 ≡ true) }
{
    match s {
        [first, rest @ ..] if first.is_ascii_alphanumeric() => Some((*first, rest)),
        _ => None,
    }
}

// A register by a name of two letters or digits, with nothing before it.
fn register_by_letters(s: &[u8]) -> Option<(Reg, &[u8])>
    ensures { IfSome result (λ r. HasRegister s.now r.0 r.1.now) }
{
    let name = after_byte(b'$', s)?;
    let (first, behind) = letter(name)?;
    let (second, rest) = letter(behind)?;
    if ends_word(rest) {
        let r = alpha_operands::register(&[b'$', first, second])?;
        Some((r, rest))
    } else {
        None
    }
}

// A register that isn't written by its number, or stands behind blanks, and what stands behind it.
#[inline(never)]
fn other_register(s: &[u8]) -> Option<(Reg, &[u8])>
    ensures { IfSome result (λ r. HasRegister s.now r.0 r.1.now) }
{
    match register_by_letters(s) {
        Some(found) => Some(found),
        None => any_register(s),
    }
}

// The same. The caller of `other_register` clears a place for the answer before the call; this function is
// inlined and has that place, so that registers by their numbers don't wait for it.
#[inline(always)]
fn sought_register(s: &[u8]) -> Option<(Reg, &[u8])>
    ensures { IfSome result (λ r. HasRegister s.now r.0 r.1.now) }
{
    other_register(s)
}

/// A register at the front, and what stands behind it.
#[inline(always)]
pub(crate) fn register(s: &[u8]) -> Option<(Reg, &[u8])>
    ensures { IfSome result (λ r. HasRegister s.now r.0 r.1.now) }
{
    match register_by_number(s) {
        Some(found) => Some(found),
        None => sought_register(s),
    }
}

// A number of eight digits at most, with nothing before it.
#[inline(always)]
fn short_number(s: &[u8]) -> Option<(u64, &[u8])>
    ensures { IfSome result (λ r. HasNumber s.now r.0 r.1.now) }
{
    let (n, rest) = decimal(s)?;
    if ends_word(rest) {
        Some((u64::from(n), rest))
    } else {
        None
    }
}

// Any number, behind blanks, and what stands behind it.
#[inline(never)]
fn any_number(s: &[u8]) -> Option<(u64, &[u8])>
    ensures { IfSome result (λ r. HasNumber s.now r.0 r.1.now) }
{
    match next(s) {
        Step::Token(token) => match token.kind {
            TokenKind::Number => {
                let n = alpha_token::number(token.text)?;
                Some((n, token.rest))
            }
            _ => None,
        },
        _ => None,
    }
}

// The same. The caller of `any_number` clears a place for the answer before the call; this function is inlined
// and has that place, so that short numbers don't wait for it.
#[inline(always)]
fn sought_number(s: &[u8]) -> Option<(u64, &[u8])>
    ensures { IfSome result (λ r. HasNumber s.now r.0 r.1.now) }
{
    any_number(s)
}

/// A number at the front, and what stands behind it.
#[inline(always)]
pub(crate) fn number(s: &[u8]) -> Option<(u64, &[u8])>
    ensures { IfSome result (λ r. HasNumber s.now r.0 r.1.now) }
{
    match short_number(s) {
        Some(found) => Some(found),
        None => sought_number(s),
    }
}

/// A number with its sign at the front, and what stands behind it.
#[inline(always)]
pub(crate) fn signed_number(s: &[u8]) -> Option<(Sign, u64, &[u8])>
    ensures { IfSome result (λ r. HasSigned s.now r.0 r.1 r.2.now) }
{
    match after_byte(b'-', s) {
        Some(digits) => {
            let (n, rest) = number(digits)?;
            Some((Sign::Minus, n, rest))
        }
        None => {
            let (n, rest) = number(s)?;
            Some((Sign::Plus, n, rest))
        }
    }
}

/// A label at the front, and what stands behind it.
#[inline(always)]
pub(crate) fn label(s: &[u8]) -> Option<(&[u8], &[u8])>
    ensures { IfSome result (λ r. HasLabel s.now r.0.now r.1.now) }
{
    let lexeme = Lexeme::of(s);
    if lexeme.is_label() && ends_name(lexeme.rest) {
        Some((lexeme.name, lexeme.rest))
    } else {
        None
    }
}

// What stands behind two letters and `(` at the front.
#[inline(always)]
fn after_letters(first: u8, second: u8, s: &[u8]) -> Option<&[u8]>
    ensures { IfSome result (λ r. s.now ≡ first ∷ second ∷ 40 ∷ r.now) }
{
    let rest = after_byte(first, s)?;
    let rest = after_byte(second, rest)?;
    after_byte(b'(', rest)
}

/// `%hi` or `%lo` and `(` at the front, and what stands behind them.
#[inline(always)]
pub(crate) fn half(s: &[u8]) -> Option<(Half, &[u8])>
    ensures { IfSome result (λ r. HasOpened s.now r.0 r.1.now) }
{
    let name = after_byte(b'%', s)?;
    match after_letters(b'h', b'i', name) {
        Some(inner) => Some((Half::High, inner)),
        None => {
            let inner = after_letters(b'l', b'o', name)?;
            Some((Half::Low, inner))
        }
    }
}
