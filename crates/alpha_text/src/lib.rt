//! Lines of source, read and written.
//!
//! - [`read_line`] gives the [`Item`] of a line, a label and a [`Statement`], or its first
//!   [`LineFault`]. [`write_line`] leaves the canonical line of an instruction in a [`LineBuf`].
//! - [`next_value`] and [`next_byte`] read the values of a list and the bytes of a text.
//! - For a reader that cuts a line up itself: [`Head`] is what a name stands for, [`with_operands`] gives the
//!   statement of a head with the operands behind it; [`with_half`] and [`list_in`] are parts of statements; [`link`],
//!   [`return_register`], [`RETURN_HINT`], [`of_zero`] and [`of_no_source`] say what stands for operands that a line
//!   leaves out, [`operation`], [`clear_insn`] and [`move_number`] what pseudo-operations stand for.
//! - [`laws_of_lines`] says that a line is read by its grammar, that the fault that is read is the
//!   first, that the canonical line of an instruction reads back, and that different instructions
//!   have different ones; [`laws_of_items`] that an item's list and text are read to their ends;
//!   [`laws_of_references`] what a line says of labels: they are whole and no longer than the line,
//!   offsets are of 32 bits, and a displacement that is put in later is 0 until then.
//!
//! The names of instructions are those of the instruction table; those of pseudo-operations and
//! directives, and the shape of what stands behind each, are the rows of `head.rt` and
//! `specs/Heads.antt`. `statement.rt` and `specs/Statements.antt` say what a name and its operands
//! stand for, `instruction.rt`, `pseudo.rt` and `directive.rt` each for one kind of names.
//! `reader.rt` and `specs/Reading.antt` read a line along the patterns of its operands, `writer.rt`
//! and `specs/Canon.antt` write one. `specs/Grammar.antt` has the line grammar and the faults apart
//! from reading, `specs/SuffixWords.antt` what stands behind a name apart from the name.
#![tactic(auto)]

mod directive;
mod head;
mod instruction;
mod laws;
mod pseudo;
mod reader;
mod statement;
mod writer;

pub use alpha_operands::{Expr, LineFaultKind, ListValue, next_value};
pub use alpha_token::next_byte;
pub use head::{Head, PseudoOp};
pub use instruction::{RETURN_HINT, link, of_no_source, of_zero, return_register, with_half};
pub use laws::{laws_of_items, laws_of_lines, laws_of_references};
pub use pseudo::{clear_insn, move_number, operation};
pub use reader::{Item, LineFault, list_in, read_line, with_operands};
pub use statement::Statement;
pub use writer::{LineBuf, write_line};
