//! Directives of data as most programs write them: with numbers or one address. Others are read along the
//! patterns of their operands.
ghost use Rattle.std.specs.Prelude.{◌≡◌, IfSome};
ghost use Rattle.alpha_token.specs.Tokens.{tokens};
ghost use Rattle.alpha_text.specs.declared.head.Head.TheVariants as heads;
ghost use Rattle.alpha_text.specs.declared.head.PseudoOp.TheVariants as owns;
ghost use Rattle.alpha_text.specs.Statements.{stmt_of};
ghost use Rattle.alpha_text.specs.SuffixWords.{SaysBy};
ghost use Rattle.alpha_quick.specs.Parts.{values_of};
ghost use Rattle.alpha_quick.specs.Listed.{HasValues};
ghost use Rattle.alpha_quick.specs.Words.{HasValue};

use crate::groups::expr;
use crate::words::{after_comma, is_end, number, signed_number};
use alpha_operands::{Number, Piece, Sign, number_at};
use alpha_text::{Head, PseudoOp, Statement, list_in, with_operands};

// How many bytes a value of a directive has, and the piece of its numbers.
#[inline(always)]
fn values_of(pseudo_op: PseudoOp) -> Option<(u8, Piece)>
    ensures { result ≡ values_of pseudo_op }
{
    match pseudo_op {
        PseudoOp::Byte => Some((1, Piece::Byte)),
        PseudoOp::Word => Some((2, Piece::Word)),
        PseudoOp::Long => Some((4, Piece::Long)),
        PseudoOp::Quad => Some((8, Piece::Quad)),
        _ => None,
    }
}

// A number of a piece at the front, and what stands behind it.
#[inline(always)]
fn value(piece: Piece, words: &[u8]) -> Option<(Number, &[u8])>
    ensures { IfSome result (λ r. HasValue piece words.now r.0 r.1.now) }
{
    let (sign, n, rest) = signed_number(words)?;
    let value = number_at(piece, sign, n)?;
    Some((value, rest))
}

// What stands behind numbers of a piece with commas between, to the end. There are no more of them than bytes.
fn after_values(piece: Piece, words: &[u8]) -> Option<&[u8]>
    ensures { IfSome result (λ rest. HasValues piece words.now rest.now) }
{
    let mut rest = words;
    for _ in 0..words.len() {
        let (_, behind) = value(piece, rest)?;
        if is_end(behind) {
            return Some(behind);
        }
        rest = after_comma(behind)?;
    }
    None
}

// A directive of values with numbers.
#[inline(always)]
fn value_list<'a>(pseudo_op: PseudoOp, text: &'a [u8], words: &'a [u8]) -> Option<Statement<'a>>
    requires { tokens text.now ≡ tokens words.now }
    ensures { IfSome result (λ s. SaysBy (heads.PseudoOp pseudo_op) text.now (stmt_of s)) }
{
    let (bytes, piece) = values_of(pseudo_op)?;
    let rest = after_values(piece, words)?;
    let list = list_in(text, rest.len());
    Some(Statement::Values { bytes, list })
}

// `.quad` with an address.
#[inline(always)]
fn address_list<'a>(text: &'a [u8], words: &'a [u8]) -> Option<Statement<'a>>
    requires { tokens text.now ≡ tokens words.now }
    ensures { IfSome result (λ s. SaysBy (heads.PseudoOp owns.Quad) text.now (stmt_of s)) }
{
    let (_, rest) = expr(words)?;
    if is_end(rest) {
        let list = list_in(text, rest.len());
        Some(Statement::Values { bytes: 8, list })
    } else {
        None
    }
}

// `.zero`.
#[inline(always)]
fn zero_statement<'a>(text: &'a [u8], words: &'a [u8]) -> Option<Statement<'a>>
    requires { tokens text.now ≡ tokens words.now }
    ensures { IfSome result (λ s. SaysBy (heads.PseudoOp owns.Zero) text.now (stmt_of s)) }
{
    let (n, rest) = number(words)?;
    let Some(Number::Zeroed(n)) = number_at(Piece::Zeroed, Sign::Plus, n) else {
        return None;
    };
    if is_end(rest) {
        Some(Statement::Zero(n))
    } else {
        None
    }
}

// `.align`.
#[inline(always)]
fn align_statement<'a>(text: &'a [u8], words: &'a [u8]) -> Option<Statement<'a>>
    requires { tokens text.now ≡ tokens words.now }
    ensures { IfSome result (λ s. SaysBy (heads.PseudoOp owns.Align) text.now (stmt_of s)) }
{
    let (n, rest) = number(words)?;
    let Some(Number::Align(n)) = number_at(Piece::Align, Sign::Plus, n) else {
        return None;
    };
    if is_end(rest) {
        Some(Statement::Align(n))
    } else {
        None
    }
}

// A name beside the table, read along the patterns of its operands.
fn statement_by_patterns(pseudo_op: PseudoOp, text: &[u8]) -> Option<Statement<'_>>
    ensures { IfSome result (λ s. SaysBy (heads.PseudoOp pseudo_op) text.now (stmt_of s)) }
{
    match with_operands(Head::PseudoOp(pseudo_op), text) {
        Ok(statement) => Some(statement),
        Err(_) => None,
    }
}

// What a name beside the table says that stands before `rest`; `words` are the same behind its blanks.
#[inline(never)]
fn statement_of_directive<'a>(
    pseudo_op: PseudoOp,
    text: &'a [u8],
    words: &'a [u8],
) -> Option<Statement<'a>>
    requires { tokens text.now ≡ tokens words.now }
    ensures { IfSome result (λ s. SaysBy (heads.PseudoOp pseudo_op) text.now (stmt_of s)) }
{
    match pseudo_op {
        PseudoOp::Zero => zero_statement(text, words),
        PseudoOp::Align => align_statement(text, words),
        PseudoOp::Byte | PseudoOp::Word | PseudoOp::Long => value_list(pseudo_op, text, words),
        PseudoOp::Quad => match words {
            [b'-' | b'0'..=b'9', ..] => value_list(pseudo_op, text, words),
            _ => address_list(text, words),
        },
        _ => statement_by_patterns(pseudo_op, text),
    }
}

/// What a name beside the table says that stands before `rest`; `words` are the same behind its blanks. The caller of
/// [`statement_of_directive`] clears a place for the answer before the call. This function is inlined and has that
/// place, so that only such names wait for it.
#[inline(always)]
pub(crate) fn of_directive<'a>(
    pseudo_op: PseudoOp,
    text: &'a [u8],
    words: &'a [u8],
) -> Option<Statement<'a>>
    requires { tokens text.now ≡ tokens words.now }
    ensures { IfSome result (λ s. SaysBy (heads.PseudoOp pseudo_op) text.now (stmt_of s)) }
{
    statement_of_directive(pseudo_op, text, words)
}
