//! The instruction table: which word stands for which instruction, what each instruction uses, sets,
//! accesses and is to a trap shadow, and its name (Architecture Handbook, section 3.3 on formats and
//! chapter 4 on instructions; integer instructions with the byte and word extension and the count
//! extension, and seven of the OSF/1 PALcode calls).
//!
//! Comments call the Alpha Architecture Handbook, version 4, the Architecture Handbook.
//!
//! - [`Form`] is an instruction with its operands, by format. [`Insn`] is one whose fields are
//!   within its row of the table: it is held as its row and its word, in eight bytes, and
//!   [`Insn::form`] cuts out those fields that its caller matches. [`Insn::memory`], [`Insn::branch`]
//!   and [`Insn::operate`] (`built.rt`) make one of a known format without a [`Form`].
//! - [`decode`] and [`encode`] are the table in both directions. Each instruction has one word, so
//!   a word with other values in fields that the table fixes is outside it.
//! - [`uses`], [`sets`], [`kind`], [`access`], [`span`], [`trap_op`] and [`level_of`] are its
//!   columns. R31 is never counted. [`Op::row`], [`MemOp::row`] and [`BranchOp::row`] have those
//!   that depend on the row alone.
//! - [`Mnemonic`] is what a name stands for: [`Mnemonic::of`] finds it, [`Mnemonic::name`] gives
//!   the name, and [`Form::mnemonic`] says which name an instruction has.
//! - [`laws_of_the_table`] says that each instruction has one word and each word one instruction at
//!   most, [`laws_of_classes`] that the tables by which machines and checker sort words agree with
//!   it, and [`laws_of_names`] that no two rows have one name.
//!
//! The rows stand in `operate.rt` for the operate instructions, in `formats.rt` for all others.
//! `op.rt` and `rows.rt` have their types; `encoder.rt`, `names.rt` and `columns.rt` read them. For
//! `decoder.rt`, `table.rt` names them once more, by opcode and function, each proved to be the row
//! of its place (`specs/Insn.antt`). `insn.rt` has [`Insn`], `laws.rt` the laws. `specs/Row.antt`
//! says which word stands for which instruction, from the rows of `specs/Op.antt` and
//! `specs/Rows.antt`; `specs/Decoded.antt` is the look-up from a word; `specs/Names.antt` has the
//! names. What machines and checker know of a word is shorter, and needs none of these:
//! `specs/Class.antt` has the classes, `specs/Words.antt` the class of a word, `specs/Code.antt` the
//! class at a place and what it is to a trap shadow, `specs/Uses.antt` its registers and its access.
//! `specs/ClassOf.antt` and `specs/Columns.antt` have the class and the columns of an instruction,
//! `specs/Spans.antt` the bytes that accesses may touch as the code compares them.
#![tactic(auto)]

mod built;
mod columns;
mod decoder;
mod encoder;
mod form;
mod formats;
mod insn;
mod laws;
mod names;
mod op;
mod operate;
mod rows;
mod table;

pub use columns::{
    ByteSpan, InsnKind, MemAccess, access, kind, level_of, sets, span, trap_op, uses,
};
pub use decoder::{decode, decode_inline};
pub use encoder::encode;
pub use form::{Form, Src};
pub use insn::Insn;
pub(crate) use insn::InsnRow;
pub use laws::{laws_of_classes, laws_of_names, laws_of_the_table};
pub use names::Mnemonic;
pub use op::{Cond, Op, OpRole, OpRow, OperandRule, TrapOp};
pub use rows::{BranchOp, BranchRow, Extension, JumpKind, MemOp, MemRole, MemRow, MiscOp};
