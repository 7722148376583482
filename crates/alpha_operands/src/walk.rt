ghost use Rattle.std.specs.Prelude.{◌≡◌, ◌≤◌, true, false, length, map, IfSome, IfOk, IfErr, OnOk, Ok, Err};
ghost use Rattle.std.specs.Option.{option_map};
ghost use Rattle.alpha_token.specs.Tokens.{tokens, lexeme};
ghost use Rattle.alpha_operands.specs.Pieces.{kind_of};
ghost use Rattle.alpha_operands.specs.Shapes.{patterns};
ghost use Rattle.alpha_operands.specs.Ranges.{IsNumber};
ghost use Rattle.alpha_operands.specs.Operands.{slots, Gives};
ghost use Rattle.alpha_operands.specs.Grammar.{IsOneOf, fault_at};
ghost use Rattle.alpha_operands.specs.Reached.{front_of, IsReached, HasBehind};
ghost use Rattle.alpha_operands.specs.Walk.{rest_of, is_empty, is_whole, head_of_kind, piece_behind, front_after};
ghost use Rattle.alpha_operands.specs.Walk.{sign_after, is_unknown, stuck_at, follow, operands};
ghost use Rattle.alpha_operands.specs.declared.operands.LineFaultKind.TheVariants.{BadOperands};

use crate::operands::{NOTHING, fill};
use crate::piece::same_kind;
use crate::{LineFaultKind, Operands, Piece, Shape, Sign, operator, register};
use alpha_token::{Step, Token, TokenKind, next};
use thiserror::Error;

/// The first fault of the operands of a line.
#[derive(Clone, Copy, Debug, PartialEq, Eq, Error)]
#[error("{kind}, {left} bytes before the end of the line")]
pub struct OperandFault {
    /// How many bytes of the line are left where it stands.
    pub left: usize,
    /// What is wrong.
    pub kind: LineFaultKind,
}

// What a pattern has behind a front, `None` where it doesn't begin so.
fn rest_of(front: &[Piece], pattern: &'static [Piece]) -> Option<&'static [Piece]>
    ensures { option_map (λ q. q.now) result ≡ rest_of front.now pattern.now }
{
    pattern.strip_prefix(front)
}

// Whether a pattern is a front and nothing behind it.
fn is_same(front: &[Piece], pattern: &'static [Piece]) -> bool
    ensures { result ≡ is_empty (rest_of front.now pattern.now) }
{
    match rest_of(front, pattern) {
        Some(rest) => rest.is_empty(),
        None => false,
    }
}

// Whether a front is a whole pattern.
pub(crate) fn is_whole(patterns: &[&'static [Piece]], front: &[Piece]) -> bool
    ensures { result ≡ is_whole (map (λ p. p.now) patterns.now) front.now }
{
    for pattern in patterns {
        if is_same(front, pattern) {
            return true;
        }
    }
    false
}

// The piece of a pattern behind a front, where it has the form of a token.
fn head_of_kind(kind: TokenKind, front: &[Piece], pattern: &'static [Piece]) -> Option<Piece>
    ensures { result ≡ head_of_kind kind (rest_of front.now pattern.now) }
{
    match pattern.get(front.len()) {
        Some(piece) if same_kind(piece.kind(), kind) => match rest_of(front, pattern)? {
            [piece, ..] if same_kind(piece.kind(), kind) => Some(*piece),
            _ => None,
        },
        _ => None,
    }
}

// The piece behind a front, in the first pattern that goes on with a token of this form.
#[inline(never)]
fn piece_behind(
    patterns: &[&'static [Piece]],
    front: &[Piece],
    kind: TokenKind,
) -> Option<(Piece, &'static [Piece])>
    ensures value { option_map (λ found. found.0) result
        ≡ piece_behind (map (λ p. p.now) patterns.now) front.now kind }
    ensures pattern { IfSome result (λ found. IsOneOf found.1.now (map (λ p. p.now) patterns.now)) }
    ensures behind { IfSome result (λ found. HasBehind found.1.now front.now found.0) }
{
    for pattern in patterns {
        if let Some(piece) = head_of_kind(kind, front, pattern) {
            return Some((piece, *pattern));
        }
    }
    None
}

// How far a pattern of a shape is read: so many of its pieces.
#[derive(Clone, Copy)]
pub(crate) struct Reached {
    pub(crate) pattern: &'static [Piece],
    pub(crate) pieces: usize,
}

// A piece of a pattern, and the pieces with it.
#[derive(Clone, Copy)]
pub(crate) struct Longer {
    pub(crate) piece: Piece,
    pub(crate) reached: Reached,
}

// A front of a pattern and a further piece: behind the comma of a list the patterns begin anew.
#[inline(always)]
fn with_piece(front: &[Piece], piece: Piece, pattern: &'static [Piece]) -> Longer
    requires { HasBehind pattern.now front.now piece }
    ensures piece { result.piece ≡ piece }
    ensures pattern { result.reached.pattern.now ≡ pattern.now }
    ensures front { front_of result.reached ≡ front_after front.now piece }
    ensures within { result.reached.pieces ≤ length pattern.now }
{
    let pieces = match piece {
        Piece::Again => 0,
        _ => front.len() + 1,
    };
    Longer {
        piece,
        reached: Reached { pattern, pieces },
    }
}

impl Reached {
    /// No piece yet, of any pattern.
    pub(crate) const NONE: Reached = Reached {
        pattern: &[],
        pieces: 0,
    };

    // The piece of the pattern behind it, where it has the form of a token.
    #[inline(always)]
    fn next_piece(&self, kind: TokenKind) -> Option<Piece>
        ensures kind { IfSome result (λ p. kind_of p ≡ kind) }
        ensures behind { IfSome result (λ p. HasBehind self.now.pattern.now (front_of self.now) p) }
    {
        match self.pattern.get(self.pieces) {
            Some(piece) if same_kind(piece.kind(), kind) => Some(*piece),
            _ => None,
        }
    }

    /// With the piece behind it, where a pattern goes on with a token of this form. The pattern
    /// that was read so far is tried first: where two patterns go on with tokens of one form, they
    /// go on with one piece.
    #[inline(always)]
    pub(crate) fn extend(&self, shape: Shape, kind: TokenKind) -> Option<Longer>
        requires { IsReached (patterns shape) self.now }
        ensures value { option_map (λ l. l.piece) result
            ≡ piece_behind (patterns shape) (front_of self.now) kind }
        ensures front { IfSome result (λ l. front_of l.reached
            ≡ front_after (front_of self.now) l.piece) }
        ensures reached { IfSome result (λ l. IsReached (patterns shape) l.reached) }
    {
        let front = &self.pattern[..self.pieces];
        match self.next_piece(kind) {
            Some(piece) => Some(with_piece(front, piece, self.pattern)),
            None => {
                let (piece, pattern) = piece_behind(shape.patterns(), front, kind)?;
                Some(with_piece(front, piece, pattern))
            }
        }
    }

    /// Whether a pattern ends here.
    pub(crate) fn is_whole(&self, shape: Shape) -> bool
        requires { IsReached (patterns shape) self.now }
        ensures { result ≡ is_whole (patterns shape) (front_of self.now) }
    {
        if 0 < self.pieces && self.pieces == self.pattern.len() {
            true
        } else {
            is_whole(shape.patterns(), &self.pattern[..self.pieces])
        }
    }
}

// The sign of a number behind a piece.
pub(crate) fn sign_after(piece: Piece) -> Sign
    ensures { result ≡ sign_after piece }
{
    match piece {
        Piece::Minus | Piece::Less => Sign::Minus,
        _ => Sign::Plus,
    }
}

// Whether a token is a register or an operator that isn't in the tables.
fn is_unknown(kind: TokenKind, text: &[u8]) -> bool
    ensures { result ≡ is_unknown kind text.now }
{
    match kind {
        TokenKind::Register => register(text).is_none(),
        TokenKind::Operator => operator(text).is_none(),
        _ => false,
    }
}

/// What is wrong at a token with which no pattern goes on.
#[inline(never)]
pub fn stuck_at(token: &Token<'_>) -> LineFaultKind
    ensures { result ≡ stuck_at (lexeme token.now) }
{
    if is_unknown(token.kind, token.text) {
        LineFaultKind::UnknownName
    } else {
        LineFaultKind::BadOperands
    }
}

// The end of a line, where a pattern ends.
fn at_end(shape: Shape, reached: &Reached, left: usize) -> Result<(), OperandFault>
    requires { IsReached (patterns shape) reached.now }
    ensures ok { OnOk result (is_whole (patterns shape) (front_of reached.now) ≡ true) }
    ensures fault { IfErr result (λ f. (is_whole (patterns shape) (front_of reached.now) ≡ false)
        × (f ≡ fault_at left BadOperands)) }
{
    if reached.is_whole(shape) {
        Ok(())
    } else {
        Err(OperandFault {
            left,
            kind: LineFaultKind::BadOperands,
        })
    }
}

// Fills the operands of what is left of a line in, behind what is read of the patterns.
fn follow<'a>(
    shape: Shape,
    line: &'a [u8],
    reached: &Reached,
    sign: Sign,
    operands: &mut Operands<'a>,
) -> Result<(), OperandFault>
    requires { IsReached (patterns shape) reached.now }
    ensures ok { OnOk result
        (follow (patterns shape) (front_of reached.now) sign (tokens line.entry.now)
        (slots operands.old) ≡ Ok (slots operands.new)) }
    ensures fault { IfErr result
        (λ f. follow (patterns shape) (front_of reached.now) sign (tokens line.entry.now)
        (slots operands.old) ≡ Err f) }
{
    let token = match next(line) {
        Step::Token(token) => token,
        Step::End(left) => return at_end(shape, reached, left),
        Step::Bad(left) => {
            return Err(OperandFault {
                left,
                kind: LineFaultKind::BadToken,
            });
        }
    };
    let left = token.text.len() + token.rest.len();
    let Some(longer) = reached.extend(shape, token.kind) else {
        return Err(OperandFault {
            left,
            kind: stuck_at(&token),
        });
    };
    match fill(longer.piece, &token, sign, operands) {
        Ok(()) => follow(
            shape,
            token.rest,
            &longer.reached,
            sign_after(longer.piece),
            operands,
        ),
        Err(kind) => Err(OperandFault { left, kind }),
    }
}

impl Shape {
    /// The operands of a line, or its first fault.
    #[tactic(auto, unfolding(crate::specs::Walk::operands))]
    pub fn operands(self, line: &[u8]) -> Result<Operands<'_>, OperandFault>
        ensures value { Gives slots result (operands (patterns self) (tokens line.now)) }
        ensures good { IfOk result (λ o. IfSome o.number IsNumber) }
    {
        let mut operands = NOTHING;
        follow(self, line, &Reached::NONE, Sign::Plus, &mut operands)?;
        Ok(operands)
    }
}
