ghost use Rattle.std.specs.Prelude.{◌≡◌, IfSome};
ghost use Rattle.alpha_operands.specs.Ranges.{IsNumber};
ghost use Rattle.alpha_operands.specs.Operands.{slots};
ghost use Rattle.alpha_text.specs.Statements.{stmt_of, stmt_by};

use crate::directive::of_directive;
use crate::head::Head;
use crate::instruction::of_insn;
use crate::pseudo::of_pseudo;
use alpha_operands::{Expr, Operands};
use alpha_table::Insn;

/// A statement of a line.
#[derive(Clone, Copy, Debug)]
pub enum Statement<'a> {
    /// The line has no statement.
    Empty,
    /// An instruction.
    Code(Insn),
    /// A branch to a label. The instruction has displacement 0.
    Target {
        /// The branch.
        insn: Insn,
        /// Where it goes.
        target: Expr<'a>,
    },
    /// A memory instruction with the high half of an address, and displacement 0.
    High {
        /// The instruction.
        insn: Insn,
        /// The address.
        address: Expr<'a>,
    },
    /// A memory instruction with the low half of an address, and displacement 0.
    Low {
        /// The instruction.
        insn: Insn,
        /// The address.
        address: Expr<'a>,
    },
    /// `.level`, 1 or 2.
    Level(u8),
    /// `.segment`, with its base.
    Segment(u64),
    /// `.codebase`.
    CodeBase(u64),
    /// `.database`.
    DataBase(u64),
    /// `.stack`, in bytes.
    Stack(u64),
    /// `.entry` at an address.
    EntryAt(u64),
    /// `.entry` at a label.
    EntryLabel(Expr<'a>),
    /// `.code`.
    CodeSection,
    /// `.data`.
    DataSection,
    /// `.zero`, at most 2^24 zero bytes.
    Zero(u32),
    /// `.align`, zero bytes up to a multiple of 2^0 to 2^13.
    Align(u8),
    /// Values of 1, 2, 4 or 8 bytes.
    Values {
        /// The size of each.
        bytes: u8,
        /// The line from its first value to the end of its last one.
        list: &'a [u8],
    },
    /// `.ascii`: what stands between the quotes.
    Text(&'a [u8]),
}

/// What a statement of this name says with these operands, which stand in `list`.
pub(crate) fn of_head<'a>(head: Head, o: &Operands<'a>, list: &'a [u8]) -> Statement<'a>
    requires { IfSome o.now.number IsNumber }
    ensures { stmt_of result ≡ stmt_by head (slots o.now) list.now }
{
    match head {
        Head::Insn(mnemonic) => of_insn(mnemonic, o),
        Head::PseudoOp(pseudo_op) => match of_pseudo(pseudo_op, o) {
            Some(insn) => Statement::Code(insn),
            None => of_directive(pseudo_op, o, list),
        },
    }
}
