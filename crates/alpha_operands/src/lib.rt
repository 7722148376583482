//! The operands of a line of source: what stands behind the name of a statement.
//!
//! - A [`Piece`] is a token by its form, and where its value goes; a [`Shape`] is a list of patterns
//!   of pieces. [`Shape::operands`] reads the [`Operands`] of a line, or its first [`OperandFault`].
//! - [`next_value`] is the first value of a list of data.
//! - [`register`] and [`operator`] are the tables of the names that begin with `$` and `%`;
//!   [`number_at`] holds a number to the range of its piece.
//! - [`laws_of_operands`] says that what is read is what a pattern of the shape spells, and that the
//!   fault that is read is the first of all that the line has; [`laws_of_lists`] that lists and texts
//!   are read to their ends.
//!
//! The patterns stand once, in `shape.rt` and, as definitions, in `specs/Shapes.antt`;
//! `number.rt` and `specs/Ranges.antt` have the range of each number, `walk.rt` and
//! `specs/Walk.antt` the walk along the patterns. `specs/Grammar.antt` has the grammar and the
//! faults apart from the walk.
#![tactic(auto)]

mod laws;
mod names;
mod number;
mod operands;
mod piece;
mod shape;
mod values;
mod walk;

pub use laws::{laws_of_lists, laws_of_operands};
pub use names::{Half, operator, register};
pub use number::{Number, Sign, number_at};
pub use operands::{LineFaultKind, Operands, offset_at};
pub use piece::Piece;
pub use shape::Shape;
pub use values::{Expr, ListValue, next_value};
pub use walk::{OperandFault, stuck_at};
