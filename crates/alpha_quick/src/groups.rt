//! Words of a line that stand together: a register with its comma, a base, a label with its offset, and what
//! stands to the end of a line.
ghost use Rattle.std.specs.Prelude.{IfSome};
ghost use Rattle.alpha_quick.specs.Words.{HasFirst, HasBase, HasExpr, HasLastBase, HasTail, HasSource, HasLast};
ghost use Rattle.alpha_quick.specs.Words.{HasPair, HasUnary, HasBinary, HasWrittenHint, HasHint, HasJump, HasTarget};
ghost use Rattle.alpha_quick.specs.Words.{HasOffset, HasWords, HasDistance, HasAddress};

use crate::words::{
    after_byte, after_close, after_comma, after_open, half, is_end, label, number, register,
};
use alpha_operands::{Expr, Half, Number, Piece, Sign, number_at, offset_at};
use alpha_table::Src;
use alpha_words::Reg;

/// A register and a comma at the front, and what stands behind them.
#[inline(always)]
pub(crate) fn first(s: &[u8]) -> Option<(Reg, &[u8])>
    ensures { IfSome result (λ r. HasFirst s.now r.0 r.1.now) }
{
    let Some((r, rest)) = register(s) else {
        return None;
    };
    let rest = after_comma(rest)?;
    Some((r, rest))
}

// A register between parentheses at the front, and what stands behind it.
#[inline(always)]
fn base(s: &[u8]) -> Option<(Reg, &[u8])>
    ensures { IfSome result (λ r. HasBase s.now r.0 r.1.now) }
{
    let inner = after_open(s)?;
    let Some((r, rest)) = register(inner) else {
        return None;
    };
    let rest = after_close(rest)?;
    Some((r, rest))
}

// The offset of a label behind its sign, and what stands behind it.
#[inline(always)]
fn offset(sign: Sign, digits: &[u8]) -> Option<(i64, &[u8])>
    ensures { IfSome result (λ r. HasOffset sign digits.now r.0 r.1.now) }
{
    let (n, rest) = number(digits)?;
    let offset = offset_at(sign, n)?;
    Some((offset, rest))
}

/// A label with an offset or without at the front, and what stands behind them.
#[inline(always)]
pub(crate) fn expr(s: &[u8]) -> Option<(Expr<'_>, &[u8])>
    ensures { IfSome result (λ r. HasExpr s.now r.0.label.now r.0.offset r.1.now) }
{
    let (label, behind) = label(s)?;
    if let Some(digits) = after_byte(b'+', behind) {
        let (offset, rest) = offset(Sign::Plus, digits)?;
        return Some((Expr { label, offset }, rest));
    }
    if let Some(digits) = after_byte(b'-', behind) {
        let (offset, rest) = offset(Sign::Minus, digits)?;
        return Some((Expr { label, offset }, rest));
    }
    Some((Expr { label, offset: 0 }, behind))
}

/// A base, to the end.
#[inline(always)]
pub(crate) fn last_base(s: &[u8]) -> Option<Reg>
    ensures { IfSome result (λ r. HasLastBase s.now r) }
{
    let Some((r, rest)) = base(s) else {
        return None;
    };
    if is_end(rest) { Some(r) } else { None }
}

/// A base to the end, or none.
#[inline(always)]
pub(crate) fn tail(s: &[u8]) -> Option<Reg>
    ensures { IfSome result (λ r. HasTail s.now r) }
{
    match s {
        [b'(', ..] => last_base(s),
        _ => { if is_end(s) { Some(Reg::ZERO) } else { None } }
    }
}

// A second source and a comma at the front, and what stands behind them.
#[inline(always)]
fn source(s: &[u8]) -> Option<(Src, &[u8])>
    ensures { IfSome result (λ r. HasSource s.now r.0 r.1.now) }
{
    match s {
        [b'$', ..] => {
            let Some((r, rest)) = first(s) else {
                return None;
            };
            Some((Src::Reg(r), rest))
        }
        _ => {
            let (n, rest) = number(s)?;
            let Some(Number::Literal(n)) = number_at(Piece::Literal, Sign::Plus, n) else {
                return None;
            };
            let rest = after_comma(rest)?;
            Some((Src::Lit(n), rest))
        }
    }
}

/// A register, to the end.
#[inline(always)]
pub(crate) fn last(s: &[u8]) -> Option<Reg>
    ensures { IfSome result (λ r. HasLast s.now r) }
{
    let Some((r, rest)) = register(s) else {
        return None;
    };
    if is_end(rest) { Some(r) } else { None }
}

/// A register and the destination.
#[derive(Clone, Copy)]
pub(crate) struct Registers {
    pub rb: Reg,
    pub rc: Reg,
}

/// A register and the destination, to the end.
#[inline(always)]
pub(crate) fn pair(s: &[u8]) -> Option<Registers>
    ensures { IfSome result (λ r. HasPair s.now r.rb r.rc) }
{
    let Some((rb, rest)) = first(s) else {
        return None;
    };
    let rc = last(rest)?;
    Some(Registers { rb, rc })
}

/// A source and the destination, to the end.
#[inline(always)]
pub(crate) fn unary(s: &[u8]) -> Option<(Src, Reg)>
    ensures { IfSome result (λ r. HasUnary s.now r.0 r.1) }
{
    let Some((src, rest)) = source(s) else {
        return None;
    };
    let rc = last(rest)?;
    Some((src, rc))
}

/// Two sources and the destination.
#[derive(Clone, Copy)]
pub(crate) struct Sources {
    pub ra: Reg,
    pub src: Src,
    pub rc: Reg,
}

/// Two sources and the destination, to the end.
#[inline(always)]
pub(crate) fn binary(s: &[u8]) -> Option<Sources>
    ensures { IfSome result (λ r. HasBinary s.now r.ra r.src r.rc) }
{
    let Some((ra, rest)) = first(s) else {
        return None;
    };
    let Some((src, rc)) = unary(rest) else {
        return None;
    };
    Some(Sources { ra, src, rc })
}

// The hint of a jump behind its comma, to the end.
#[inline(always)]
fn written_hint(s: &[u8]) -> Option<u16>
    ensures { IfSome result (λ hint. HasWrittenHint s.now hint) }
{
    let digits = after_comma(s)?;
    let (n, rest) = number(digits)?;
    let Some(Number::Hint(hint)) = number_at(Piece::Hint, Sign::Plus, n) else {
        return None;
    };
    if is_end(rest) { Some(hint) } else { None }
}

// The hint of a jump, 0 where none is written.
#[inline(always)]
fn hint(s: &[u8]) -> Option<u16>
    ensures { IfSome result (λ hint. HasHint s.now hint) }
{
    match s {
        [b',', ..] => written_hint(s),
        _ => { if is_end(s) { Some(0) } else { None } }
    }
}

/// The registers of a jump and its hint.
#[derive(Clone, Copy)]
pub(crate) struct JumpOperands {
    pub ra: Reg,
    pub rb: Reg,
    pub hint: u16,
}

/// The registers of a jump and its hint, 0 where none is written.
#[inline(always)]
pub(crate) fn jump(s: &[u8]) -> Option<JumpOperands>
    ensures { IfSome result (λ r. HasJump s.now r.ra r.rb r.hint) }
{
    let Some((ra, rest)) = first(s) else {
        return None;
    };
    let Some((rb, rest)) = base(rest) else {
        return None;
    };
    let hint = hint(rest)?;
    Some(JumpOperands { ra, rb, hint })
}

/// A label with its offset, to the end.
#[inline(always)]
pub(crate) fn target(s: &[u8]) -> Option<Expr<'_>>
    ensures { IfSome result (λ to. HasTarget s.now to.label.now to.offset) }
{
    let Some((to, rest)) = expr(s) else {
        return None;
    };
    if is_end(rest) { Some(to) } else { None }
}

// The displacement in words of a distance with this sign, to the end.
#[inline(always)]
fn displacement(sign: Sign, digits: &[u8]) -> Option<i32>
    ensures { IfSome result (λ words. HasWords sign digits.now words) }
{
    let (n, rest) = number(digits)?;
    let Some(Number::Words(words)) = number_at(Piece::Distance, sign, n) else {
        return None;
    };
    if is_end(rest) { Some(words) } else { None }
}

/// The displacement in words of a branch over a distance, to the end.
#[inline(always)]
pub(crate) fn distance(s: &[u8]) -> Option<i32>
    ensures { IfSome result (λ words. HasDistance s.now words) }
{
    let behind = after_byte(b'.', s)?;
    if let Some(digits) = after_byte(b'+', behind) {
        return displacement(Sign::Plus, digits);
    }
    let digits = after_byte(b'-', behind)?;
    displacement(Sign::Minus, digits)
}

/// Half of the address of a label at the front, and what stands behind it.
#[inline(always)]
pub(crate) fn address(s: &[u8]) -> Option<(Half, Expr<'_>, &[u8])>
    ensures { IfSome result (λ r. HasAddress s.now r.0 r.1.label.now r.1.offset r.2.now) }
{
    let (half, inner) = half(s)?;
    let Some((to, rest)) = expr(inner) else {
        return None;
    };
    let rest = after_close(rest)?;
    Some((half, to, rest))
}
