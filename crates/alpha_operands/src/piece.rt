ghost use Rattle.std.specs.Prelude.{◌≡◌};
ghost use Rattle.alpha_operands.specs.Pieces.{kind_of, same_kind};

use alpha_token::TokenKind;

/// A piece of a pattern of operands: a token by its form, and where its value goes.
#[derive(Clone, Copy, Debug, PartialEq, Eq)]
pub enum Piece {
    /// The first register.
    Ra,
    /// The second register, or a base.
    Rb,
    /// The register that is the destination.
    Rc,
    /// A comma.
    Comma,
    /// A comma behind which the operands begin anew.
    Again,
    /// `(`
    Open,
    /// `)`
    Close,
    /// The `-` of a number, or of a distance behind `.`.
    Minus,
    /// The `+` of a distance behind `.`, or between a label and its offset.
    Plus,
    /// The `-` between a label and its offset.
    Less,
    /// `.`, the address of this instruction.
    Dot,
    /// `%hi` or `%lo`.
    Operator,
    /// A label.
    Label,
    /// A label's offset, 0 to 2^31 - 1.
    Offset,
    /// A string.
    Text,
    /// A number from -32768 to 32767, of bytes.
    Displacement,
    /// A number from -32768 to 32767.
    Immediate,
    /// A number from 0 to 255.
    Literal,
    /// A number from 0 to 16383.
    Hint,
    /// A distance in bytes that a branch reaches.
    Distance,
    /// A number of 64 bits.
    Whole,
    /// A number from 0 to 16777216.
    Zeroed,
    /// A number from 0 to 13.
    Align,
    /// 1 or 2.
    Level,
    /// The function of a PALcode call of the table.
    Pal,
    /// 0.
    Nothing,
    /// A value of 1 byte, signed or unsigned.
    Byte,
    /// One of 2 bytes.
    Word,
    /// One of 4 bytes.
    Long,
    /// One of 8 bytes.
    Quad,
}

impl Piece {
    /// The form of the token that spells it.
    pub(crate) fn kind(self) -> TokenKind
        ensures { result ≡ kind_of self }
    {
        match self {
            Piece::Ra | Piece::Rb | Piece::Rc => TokenKind::Register,
            Piece::Comma | Piece::Again => TokenKind::Comma,
            Piece::Open => TokenKind::Open,
            Piece::Close => TokenKind::Close,
            Piece::Minus | Piece::Less => TokenKind::Minus,
            Piece::Plus => TokenKind::Plus,
            Piece::Dot => TokenKind::Dot,
            Piece::Operator => TokenKind::Operator,
            Piece::Label => TokenKind::Name,
            Piece::Text => TokenKind::Text,
            _ => TokenKind::Number,
        }
    }
}

// Whether two kinds of tokens are the same.
pub(crate) fn same_kind(a: TokenKind, b: TokenKind) -> bool
    ensures { result ≡ same_kind a b }
{
    a == b
}
