ghost use Rattle.std.specs.Prelude.{◌≡◌, ◌<◌, ◌∷◌, List, ℕ, Some, IfSome, length};
ghost use Rattle.std.specs.Option.{option_map};
ghost use Rattle.alpha_token.specs.Tokens.{tokens, lexeme};
ghost use Rattle.alpha_operands.specs.declared.number.Sign.TheVariants as signs;
ghost use Rattle.alpha_operands.specs.declared.shape.Shape.TheVariants as shapes;
ghost use Rattle.alpha_operands.specs.Shapes.{patterns};
ghost use Rattle.alpha_operands.specs.Operands.{slots};
ghost use Rattle.alpha_operands.specs.Reached.{front_of, IsReached};
ghost use Rattle.alpha_operands.specs.Values.{view, list_shape, first_operands, value_of, first_value, next_of};
ghost use Rattle.alpha_operands.specs.Values.{IsOfSize, number as value, label, number_piece, HasNumber, HasLabel};
ghost use Rattle.alpha_operands.specs.Values.{IsPast};

use crate::operands::{NOTHING, fill, number_of};
use crate::walk::{Reached, sign_after};
use crate::{Number, Operands, Piece, Shape, Sign};
use alpha_token::{Step, Token, TokenKind, is_label, next};

/// A label with an offset, 0 where none stands behind it.
#[derive(Clone, Copy, Debug)]
pub struct Expr<'a> {
    /// The label's name.
    pub label: &'a [u8],
    /// From -(2^31 - 1) to 2^31 - 1, in bytes.
    pub offset: i64,
}

/// A value of a list.
#[derive(Clone, Copy, Debug)]
pub enum ListValue<'a> {
    /// A number modulo 2^64.
    Number(u64),
    /// The address of a label with its offset.
    Label(Expr<'a>),
}

// Fills the operands of the first value of what is left of a list in, behind what is read of the
// patterns. The list behind the value's comma.
fn first_operands<'a>(
    shape: Shape,
    list: &'a [u8],
    reached: &Reached,
    sign: Sign,
    operands: &mut Operands<'a>,
) -> Option<&'a [u8]>
    requires { IsReached (patterns shape) reached.now }
    ensures { option_map (λ rest. (slots operands.new, rest.now)) result
        ≡ first_operands (patterns shape) (front_of reached.now) sign (tokens list.entry.now)
        (slots operands.old) }
{
    let token = match next(list) {
        Step::Token(token) => token,
        Step::Bad(_) => return None,
        Step::End(left) => {
            return if left == 0 && reached.is_whole(shape) {
                Some(&[])
            } else {
                None
            };
        }
    };
    let Some(longer) = reached.extend(shape, token.kind) else {
        return None;
    };
    match longer.piece {
        Piece::Again => Some(token.rest),
        piece => match fill(piece, &token, sign, operands) {
            Ok(()) => first_operands(
                shape,
                token.rest,
                &longer.reached,
                sign_after(piece),
                operands,
            ),
            Err(_) => None,
        },
    }
}

// The value that the operands of one are.
fn value_of<'a>(operands: &Operands<'a>) -> Option<ListValue<'a>>
    ensures { option_map view result ≡ value_of (slots operands.now) }
{
    match operands.label {
        Some(label) => Some(ListValue::Label(Expr {
            label,
            offset: operands.offset,
        })),
        None => match operands.number {
            Some(Number::Value(n)) => Some(ListValue::Number(n)),
            _ => None,
        },
    }
}

// The shape of a list of values of a size.
fn list_shape(bytes: u8) -> Option<Shape>
    ensures { result ≡ list_shape bytes }
{
    match bytes {
        1 => Some(Shape::Bytes),
        2 => Some(Shape::Words),
        4 => Some(Shape::Longs),
        8 => Some(Shape::Quads),
        _ => None,
    }
}

// The first value of a list of a shape, and the list behind its comma, by the patterns of the shape.
#[tactic(auto, unfolding(crate::specs::Values::first_value))]
fn sought_value(shape: Shape, list: &[u8]) -> Option<(ListValue<'_>, &[u8])>
    ensures { option_map (λ v. (view v.0, v.1.now)) result ≡ first_value shape list.now }
{
    let mut operands = NOTHING;
    let rest = first_operands(shape, list, &Reached::NONE, Sign::Plus, &mut operands)?;
    Some((value_of(&operands)?, rest))
}

// The piece of the numbers of a list. Other shapes have none.
#[inline(always)]
fn number_piece(shape: Shape) -> Option<Piece>
    ensures { result ≡ number_piece shape }
{
    match shape {
        Shape::Bytes => Some(Piece::Byte),
        Shape::Words => Some(Piece::Word),
        Shape::Longs => Some(Piece::Long),
        Shape::Quads => Some(Piece::Quad),
        _ => None,
    }
}

// The number behind a minus.
#[inline(always)]
fn behind_minus(list: &[u8]) -> Option<Token<'_>>
    ensures { IfSome result (λ t. HasNumber list.now signs.Plus (lexeme t)) }
{
    match next(list) {
        Step::Token(token) => match token.kind {
            TokenKind::Number => Some(token),
            _ => None,
        },
        _ => None,
    }
}

// The list behind the comma at the front.
#[inline(always)]
fn behind_comma(behind: &[u8]) -> Option<&[u8]>
    ensures { IfSome result (λ rest. behind.now ≡ 44 ∷ rest.now) }
{
    match behind {
        [b',', rest @ ..] => Some(rest),
        _ => None,
    }
}

// The list behind a value: behind a comma, or at its end.
#[inline(always)]
fn past_value(behind: &[u8]) -> Option<&[u8]>
    ensures { IfSome result (λ rest. IsPast behind.now rest.now) }
{
    if behind.is_empty() {
        Some(&[])
    } else {
        let rest = behind_comma(behind)?;
        Some(rest)
    }
}

// The value of a number's token, and the list behind its comma.
#[inline(always)]
fn number_item<'a>(shape: Shape, sign: Sign, token: &Token<'a>) -> Option<(u64, &'a [u8])>
    ensures { IfSome result (λ v. (list : List ℕ) → HasNumber list sign (lexeme token.now)
        → first_value shape list ≡ Some (value v.0, v.1.now)) }
{
    let piece = number_piece(shape)?;
    let Some(Number::Value(n)) = number_of(piece, sign, token.text) else {
        return None;
    };
    let rest = past_value(token.rest)?;
    Some((n, rest))
}

// The label of a token in a list of quadwords, and the list behind its comma.
#[inline(always)]
fn label_item<'a>(token: &Token<'a>) -> Option<(Expr<'a>, &'a [u8])>
    ensures { IfSome result (λ v. (list : List ℕ) → HasLabel list (lexeme token.now)
        → first_value shapes.Quads list ≡ Some (label v.0.label.now v.0.offset, v.1.now)) }
{
    if is_label(token.text) {
        let rest = past_value(token.rest)?;
        let (label, offset) = (token.text, 0);
        Some((Expr { label, offset }, rest))
    } else {
        None
    }
}

// The first value of a list of a shape, and the list behind its comma, where it is a number or a label with
// nothing else before the comma.
#[inline(always)]
fn plain_value(shape: Shape, list: &[u8]) -> Option<(ListValue<'_>, &[u8])>
    ensures { IfSome result (λ v. first_value shape list.now ≡ Some (view v.0, v.1.now)) }
{
    let token = match next(list) {
        Step::Token(token) => token,
        _ => return None,
    };
    match token.kind {
        TokenKind::Number => {
            let (n, rest) = number_item(shape, Sign::Plus, &token)?;
            Some((ListValue::Number(n), rest))
        }
        TokenKind::Minus => {
            let digits = behind_minus(token.rest)?;
            let (n, rest) = number_item(shape, Sign::Minus, &digits)?;
            Some((ListValue::Number(n), rest))
        }
        TokenKind::Name => match shape {
            Shape::Quads => {
                let (to, rest) = label_item(&token)?;
                Some((ListValue::Label(to), rest))
            }
            _ => None,
        },
        _ => None,
    }
}

// The first value of a list of a shape, and the list behind its comma.
fn first_value(shape: Shape, list: &[u8]) -> Option<(ListValue<'_>, &[u8])>
    ensures { option_map (λ v. (view v.0, v.1.now)) result ≡ first_value shape list.now }
{
    match plain_value(shape, list) {
        Some(found) => Some(found),
        None => sought_value(shape, list),
    }
}

/// The first value of a list of values of 1, 2, 4 or 8 bytes, and the list behind its comma, which
/// is empty behind the last value. `None` exactly where the list doesn't begin with a value of
/// that size that ends it or has a comma behind it.
pub fn next_value(list: &[u8], bytes: u8) -> Option<(ListValue<'_>, &[u8])>
    ensures value { option_map (λ v. (view v.0, v.1.now)) result ≡ next_of bytes list.now }
    ensures sized { IfSome result (λ v. IsOfSize bytes (view v.0)) }
    ensures shorter { IfSome result (λ v. length v.1.now < length list.now) }
{
    if list.is_empty() {
        return None;
    }
    let shape = list_shape(bytes)?;
    first_value(shape, list)
}
