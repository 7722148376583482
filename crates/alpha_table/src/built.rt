//! Instructions of the frequent formats, each put together from its row and its fields. The format is known
//! where they are called, so that no [`Form`](crate::Form) is made and matched.

ghost use Rattle.std.specs.Prelude.{◌≡◌};
ghost use Rattle.alpha_table.specs.Op.{op_row};
ghost use Rattle.alpha_table.specs.Row.{IsSigned, OperandsFit};
ghost use Rattle.alpha_table.specs.declared.form.Form.TheVariants.{Mem, Branch, Operate};

use crate::{BranchOp, Insn, InsnRow, MemOp, Op, Src, encoder};
use alpha_words::{Reg, Word};

impl Insn {
    /// The memory instruction with these fields.
    #[inline(always)]
    pub fn memory(op: MemOp, ra: Reg, rb: Reg, disp: i16) -> Insn
        ensures { result ≡ Mem op ra rb disp }
    {
        let word = Word(encoder::memory(op, ra, rb, disp));
        Insn::at(InsnRow::Mem(op), word)
    }

    /// The branch with these fields. The displacement has 21 bits.
    #[inline(always)]
    pub fn branch(op: BranchOp, ra: Reg, disp: i32) -> Insn
        requires { IsSigned 20 disp }
        ensures { result ≡ Branch op ra disp }
    {
        let word = Word(encoder::branch(op, ra, disp));
        Insn::at(InsnRow::Branch(op), word)
    }

    /// The operate instruction with these fields, where its row takes these operands.
    #[inline(always)]
    pub fn operate(op: Op, ra: Reg, src: Src, rc: Reg) -> Insn
        requires { OperandsFit (op_row op).operands ra src }
        ensures { result ≡ Operate op ra src rc }
    {
        let word = Word(encoder::operate(op, ra, &src, rc));
        Insn::at(InsnRow::Operate(op), word)
    }
}
