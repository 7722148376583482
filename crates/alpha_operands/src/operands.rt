ghost use Rattle.std.specs.Prelude.{◌≡◌, Ok, Err, OnOk, IfErr};
ghost use Rattle.alpha_token.specs.Numeral.{number_value};
ghost use Rattle.alpha_token.specs.Tokens.{lexeme};
ghost use Rattle.alpha_operands.specs.Ranges.{number_of, offset_of};
ghost use Rattle.alpha_operands.specs.Operands.{slots, between_quotes, filled};

use crate::number::number_at;
use crate::{Half, Number, Piece, Sign, operator, register};
use alpha_token::{Token, is_label, number};
use alpha_words::Reg;
use thiserror::Error;

/// What is wrong with a line, in the order in which it is answered at one column.
#[derive(Clone, Copy, Debug, PartialEq, Eq, Error)]
pub enum LineFaultKind {
    /// A byte begins no token.
    #[error("a byte begins no token")]
    BadToken = 1,
    /// A mnemonic, a directive, a register or an operator that isn't in the tables.
    #[error("a name is not in the tables")]
    UnknownName,
    /// The tokens are of no pattern, or a label has a wrong form.
    #[error("the tokens are of no pattern")]
    BadOperands,
    /// A number is outside its range.
    #[error("a number is outside its range")]
    OutOfRange,
}

/// The operands of a statement: each value where its piece puts it, `None` where there is none.
#[derive(Clone, Copy, Debug)]
pub struct Operands<'a> {
    /// The first register.
    pub ra: Option<Reg>,
    /// The second register, or a base.
    pub rb: Option<Reg>,
    /// The destination.
    pub rc: Option<Reg>,
    /// The number, with what it is for.
    pub number: Option<Number>,
    /// The half of the address of a label.
    pub half: Option<Half>,
    /// The label's name.
    pub label: Option<&'a [u8]>,
    /// The offset behind a label, from -(2^31 - 1) to 2^31 - 1, or 0.
    pub offset: i64,
    /// What stands between the quotes of a string.
    pub text: Option<&'a [u8]>,
    /// How many bytes of the line stand behind the last token.
    pub left: usize,
}

/// No operands.
pub(crate) const NOTHING: Operands<'static> = Operands {
    ra: None,
    rb: None,
    rc: None,
    number: None,
    half: None,
    label: None,
    offset: 0,
    text: None,
    left: 0,
};

/// The number at a piece, `None` exactly where it is outside the piece's range.
pub(crate) fn number_of(piece: Piece, sign: Sign, text: &[u8]) -> Option<Number>
    ensures { result ≡ number_of piece sign (number_value text.now) }
{
    number_at(piece, sign, number(text)?)
}

/// A label's offset, `None` exactly where it is outside its range.
#[inline(always)]
pub fn offset_at(sign: Sign, n: u64) -> Option<i64>
    ensures { result ≡ offset_of sign n }
{
    match sign {
        Sign::Plus if n < 1 << 31 => Some(n as i64),
        Sign::Minus if n < 1 << 31 => Some(-(n as i64)),
        _ => None,
    }
}

// The offset that a number's text stands for, `None` exactly where it is outside its range.
fn offset_of(sign: Sign, text: &[u8]) -> Option<i64>
    ensures { result ≡ offset_of sign (number_value text.now) }
{
    offset_at(sign, number(text)?)
}

// What stands between the quotes of a string.
fn between_quotes(text: &[u8]) -> &[u8]
    ensures { result.now ≡ between_quotes text.now }
{
    match text {
        [_, inner @ .., _] => inner,
        _ => &[],
    }
}

// Fills the value of a token in, at its piece.
#[tactic(auto, unfolding(crate::specs::Operands::filled))]
#[inline(always)]
pub(crate) fn fill<'a>(
    piece: Piece,
    token: &Token<'a>,
    sign: Sign,
    operands: &mut Operands<'a>,
) -> Result<(), LineFaultKind>
    ensures ok { OnOk result (filled piece (lexeme token.now) sign (slots operands.old)
        ≡ Ok (slots operands.new)) }
    ensures fault { IfErr result (λ why. filled piece (lexeme token.now) sign (slots operands.old)
        ≡ Err why) }
{
    operands.left = token.rest.len();
    match piece {
        Piece::Ra => match register(token.text) {
            Some(r) => {
                operands.ra = Some(r);
                Ok(())
            }
            None => Err(LineFaultKind::UnknownName),
        },
        Piece::Rb => match register(token.text) {
            Some(r) => {
                operands.rb = Some(r);
                Ok(())
            }
            None => Err(LineFaultKind::UnknownName),
        },
        Piece::Rc => match register(token.text) {
            Some(r) => {
                operands.rc = Some(r);
                Ok(())
            }
            None => Err(LineFaultKind::UnknownName),
        },
        Piece::Operator => match operator(token.text) {
            Some(half) => {
                operands.half = Some(half);
                Ok(())
            }
            None => Err(LineFaultKind::UnknownName),
        },
        Piece::Label => {
            if is_label(token.text) {
                operands.label = Some(token.text);
                Ok(())
            } else {
                Err(LineFaultKind::BadOperands)
            }
        }
        Piece::Offset => match offset_of(sign, token.text) {
            Some(offset) => {
                operands.offset = offset;
                Ok(())
            }
            None => Err(LineFaultKind::OutOfRange),
        },
        Piece::Text => {
            operands.text = Some(between_quotes(token.text));
            Ok(())
        }
        Piece::Comma
        | Piece::Again
        | Piece::Open
        | Piece::Close
        | Piece::Minus
        | Piece::Plus
        | Piece::Less
        | Piece::Dot => Ok(()),
        _ => match number_of(piece, sign, token.text) {
            Some(n) => {
                operands.number = Some(n);
                Ok(())
            }
            None => Err(LineFaultKind::OutOfRange),
        },
    }
}
