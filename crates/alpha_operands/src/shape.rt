ghost use Rattle.std.specs.Prelude.{◌≡◌, map};
ghost use Rattle.alpha_operands.specs.Shapes.{patterns};

use crate::Piece;
use crate::Piece::*;

/// What stands behind the name of a statement: each shape is a list of patterns.
#[derive(Clone, Copy, Debug, PartialEq, Eq)]
pub enum Shape {
    /// A register, a displacement and a base, the one or the other left out.
    Memory,
    /// A register and a target.
    Branch,
    /// A register and a target, where the register may be left out.
    Call,
    /// A register, a register or a literal, and the destination.
    Operate,
    /// A register or a literal, and the destination.
    Unary,
    /// A register and the destination.
    Pair,
    /// The destination.
    Single,
    /// A register, the register with the address, and a hint, which may be left out.
    Jump,
    /// The operands of a jump, or none.
    Return,
    /// Nothing.
    Alone,
    /// A base, with a 0 before it or without.
    Prefetch,
    /// The function of a PALcode call.
    CallPal,
    /// A register or a number, and the destination.
    Move,
    /// A number of 64 bits.
    Field,
    /// A number of 64 bits or a label.
    Entry,
    /// A level.
    Level,
    /// A count of zeroed bytes.
    Zeroed,
    /// A power of two.
    Align,
    /// Values of 1 byte.
    Bytes,
    /// Values of 2 bytes.
    Words,
    /// Values of 4 bytes.
    Longs,
    /// Values of 8 bytes, where labels may stand too.
    Quads,
    /// A string.
    Text,
}

const MEMORY: &[&[Piece]] = &[
    &[Ra, Comma, Displacement, Open, Rb, Close],
    &[Ra, Comma, Minus, Displacement, Open, Rb, Close],
    &[Ra, Comma, Operator, Open, Label, Close, Open, Rb, Close],
    &[
        Ra, Comma, Operator, Open, Label, Plus, Offset, Close, Open, Rb, Close,
    ],
    &[
        Ra, Comma, Operator, Open, Label, Less, Offset, Close, Open, Rb, Close,
    ],
    &[Ra, Comma, Displacement],
    &[Ra, Comma, Minus, Displacement],
    &[Ra, Comma, Operator, Open, Label, Close],
    &[Ra, Comma, Operator, Open, Label, Plus, Offset, Close],
    &[Ra, Comma, Operator, Open, Label, Less, Offset, Close],
    &[Ra, Comma, Open, Rb, Close],
];

const BRANCH: &[&[Piece]] = &[
    &[Ra, Comma, Dot, Plus, Distance],
    &[Ra, Comma, Dot, Minus, Distance],
    &[Ra, Comma, Label],
    &[Ra, Comma, Label, Plus, Offset],
    &[Ra, Comma, Label, Less, Offset],
];

const CALL: &[&[Piece]] = &[
    &[Ra, Comma, Dot, Plus, Distance],
    &[Ra, Comma, Dot, Minus, Distance],
    &[Ra, Comma, Label],
    &[Ra, Comma, Label, Plus, Offset],
    &[Ra, Comma, Label, Less, Offset],
    &[Dot, Plus, Distance],
    &[Dot, Minus, Distance],
    &[Label],
    &[Label, Plus, Offset],
    &[Label, Less, Offset],
];

const OPERATE: &[&[Piece]] = &[
    &[Ra, Comma, Rb, Comma, Rc],
    &[Ra, Comma, Literal, Comma, Rc],
];

const UNARY: &[&[Piece]] = &[&[Rb, Comma, Rc], &[Literal, Comma, Rc]];

const PAIR: &[&[Piece]] = &[&[Rb, Comma, Rc]];

const SINGLE: &[&[Piece]] = &[&[Rc]];

const JUMP: &[&[Piece]] = &[
    &[Ra, Comma, Open, Rb, Close, Comma, Hint],
    &[Ra, Comma, Open, Rb, Close],
];

const RETURN: &[&[Piece]] = &[
    &[Ra, Comma, Open, Rb, Close, Comma, Hint],
    &[Ra, Comma, Open, Rb, Close],
    &[],
];

const ALONE: &[&[Piece]] = &[&[]];

const PREFETCH: &[&[Piece]] = &[&[Nothing, Open, Rb, Close], &[Open, Rb, Close]];

const CALL_PAL: &[&[Piece]] = &[&[Pal]];

const MOVE: &[&[Piece]] = &[
    &[Rb, Comma, Rc],
    &[Immediate, Comma, Rc],
    &[Minus, Immediate, Comma, Rc],
];

const FIELD: &[&[Piece]] = &[&[Whole]];

const ENTRY: &[&[Piece]] = &[
    &[Whole],
    &[Label],
    &[Label, Plus, Offset],
    &[Label, Less, Offset],
];

const LEVEL: &[&[Piece]] = &[&[Level]];

const ZEROED: &[&[Piece]] = &[&[Zeroed]];

const ALIGN: &[&[Piece]] = &[&[Align]];

const BYTES: &[&[Piece]] = &[
    &[Byte],
    &[Minus, Byte],
    &[Byte, Again],
    &[Minus, Byte, Again],
];

const WORDS: &[&[Piece]] = &[
    &[Word],
    &[Minus, Word],
    &[Word, Again],
    &[Minus, Word, Again],
];

const LONGS: &[&[Piece]] = &[
    &[Long],
    &[Minus, Long],
    &[Long, Again],
    &[Minus, Long, Again],
];

const QUADS: &[&[Piece]] = &[
    &[Quad],
    &[Minus, Quad],
    &[Label],
    &[Label, Plus, Offset],
    &[Label, Less, Offset],
    &[Quad, Again],
    &[Minus, Quad, Again],
    &[Label, Again],
    &[Label, Plus, Offset, Again],
    &[Label, Less, Offset, Again],
];

const TEXT: &[&[Piece]] = &[&[Text]];

impl Shape {
    /// The patterns of this shape.
    #[tactic(auto, unfolding(crate::specs::Shapes::patterns))]
    pub(crate) fn patterns(self) -> &'static [&'static [Piece]]
        ensures { map (λ p. p.now) result.now ≡ patterns self }
    {
        match self {
            Shape::Memory => MEMORY,
            Shape::Branch => BRANCH,
            Shape::Call => CALL,
            Shape::Operate => OPERATE,
            Shape::Unary => UNARY,
            Shape::Pair => PAIR,
            Shape::Single => SINGLE,
            Shape::Jump => JUMP,
            Shape::Return => RETURN,
            Shape::Alone => ALONE,
            Shape::Prefetch => PREFETCH,
            Shape::CallPal => CALL_PAL,
            Shape::Move => MOVE,
            Shape::Field => FIELD,
            Shape::Entry => ENTRY,
            Shape::Level => LEVEL,
            Shape::Zeroed => ZEROED,
            Shape::Align => ALIGN,
            Shape::Bytes => BYTES,
            Shape::Words => WORDS,
            Shape::Longs => LONGS,
            Shape::Quads => QUADS,
            Shape::Text => TEXT,
        }
    }
}
