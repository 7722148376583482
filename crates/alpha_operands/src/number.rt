ghost use Rattle.std.specs.Prelude.{◌≡◌, ◌==◌, ◌%◌, ◌&&◌, ◌^◌, Some, None, nat_lt, if◌then◌else◌};
ghost use Rattle.std.specs.Option.{option_map};
ghost use Rattle.alpha_table.specs.Decoded.{decoded};
ghost use Rattle.alpha_operands.specs.Ranges.{signed, in_range, words_of, modulo, call_of, if_in, number_of};
ghost use Rattle.alpha_operands.specs.declared.number.Number.TheVariants.{Call, Value};

use crate::Piece;
use alpha_table::{Form, decode};
use alpha_words::{PalCall, Word};

// The most zeroed bytes that a line asks for: as many as an image has data bytes.
const MOST_ZEROED: u64 = 16_777_216;

/// The sign before a number.
#[derive(Clone, Copy, Debug, PartialEq, Eq)]
pub enum Sign {
    /// `+`, or none.
    Plus,
    /// `-`
    Minus,
}

/// A number among operands, within the range of its piece.
#[derive(Clone, Copy, Debug, PartialEq, Eq)]
pub enum Number {
    /// The displacement of a memory instruction, in bytes.
    Displacement(i16),
    /// The number that `mov` has in the place of a register.
    Immediate(i16),
    /// The literal of an operate instruction.
    Literal(u8),
    /// The hint of a jump, below 2^14.
    Hint(u16),
    /// The displacement in words, from the next instruction on, of a branch over a distance.
    Words(i32),
    /// The number of a field of the image.
    Whole(u64),
    /// A count of zeroed bytes, at most 2^24.
    Zeroed(u32),
    /// The power of two of an alignment, at most 13.
    Align(u8),
    /// A level, 1 or 2.
    Level(u8),
    /// The PALcode call of a function.
    Call(PalCall),
    /// The 0 before the base of a prefetch.
    Nothing,
    /// A value of data, modulo 2^64.
    Value(u64),
}

// Whether a number is at most `most`, or behind a minus at most `least`.
fn in_range(most: u64, least: u64, sign: Sign, n: u64) -> bool
    ensures { result ≡ in_range most least sign n }
{
    match sign {
        Sign::Plus => n <= most,
        Sign::Minus => n <= least,
    }
}

// A number of a halfword with its sign, within the signed range.
fn halfword(sign: Sign, n: u64) -> Option<i16>
    ensures { result ≡ (if in_range 32767 32768 sign n then Some (signed sign n) else None) }
{
    match sign {
        Sign::Plus if n <= 32767 => Some(n as i16),
        Sign::Minus if n <= 32768 => Some((-(n as i32)) as i16),
        _ => None,
    }
}

// The displacement in words of a branch over a distance in bytes, within its field.
fn branch_words(sign: Sign, distance: u64) -> Option<i32>
    ensures { result ≡ (if distance % 4 == 0 && in_range 4194304 4194300 sign distance
        then Some (words_of sign distance) else None) }
{
    if distance % 4 == 0 && in_range(4_194_304, 4_194_300, sign, distance) {
        let words = (distance / 4) as i32;
        match sign {
            Sign::Plus => Some(words - 1),
            Sign::Minus => Some(-words - 1),
        }
    } else {
        None
    }
}

// The PALcode call with this function.
fn palcode_call(function: u64) -> Option<Number>
    ensures { result ≡ (if nat_lt function (2 ^ 26)
        then option_map Call (call_of (decoded function)) else None) }
{
    if function < 1 << 26 {
        match decode(Word(function as u32))?.form() {
            Form::Pal(call) => Some(Number::Call(call)),
            _ => None,
        }
    } else {
        None
    }
}

// A value of data within its range, modulo 2^64.
fn data_value(most: u64, least: u64, sign: Sign, n: u64) -> Option<Number>
    ensures { result ≡ if_in (in_range most least sign n) (Value (modulo sign n)) }
{
    if in_range(most, least, sign, n) {
        Some(Number::Value(match sign {
            Sign::Plus => n,
            Sign::Minus => n.wrapping_neg(),
        }))
    } else {
        None
    }
}

/// The number at a piece of a pattern, `None` exactly where it is outside the piece's range.
#[tactic(auto, unfolding(crate::specs::Ranges::number_of))]
#[inline(always)]
pub fn number_at(piece: Piece, sign: Sign, n: u64) -> Option<Number>
    ensures { result ≡ number_of piece sign n }
{
    match piece {
        Piece::Displacement => Some(Number::Displacement(halfword(sign, n)?)),
        Piece::Immediate => Some(Number::Immediate(halfword(sign, n)?)),
        Piece::Distance => Some(Number::Words(branch_words(sign, n)?)),
        Piece::Literal if n <= 255 => Some(Number::Literal(n as u8)),
        Piece::Hint if n <= 16383 => Some(Number::Hint(n as u16)),
        Piece::Whole => Some(Number::Whole(n)),
        Piece::Zeroed if n <= MOST_ZEROED => Some(Number::Zeroed(n as u32)),
        Piece::Align if n <= 13 => Some(Number::Align(n as u8)),
        Piece::Level if n == 1 || n == 2 => Some(Number::Level(n as u8)),
        Piece::Pal => palcode_call(n),
        Piece::Nothing if n == 0 => Some(Number::Nothing),
        Piece::Byte => data_value(0xff, 0x80, sign, n),
        Piece::Word => data_value(0xffff, 0x8000, sign, n),
        Piece::Long => data_value(0xffff_ffff, 0x8000_0000, sign, n),
        Piece::Quad => data_value(u64::MAX, 1 << 63, sign, n),
        _ => None,
    }
}
