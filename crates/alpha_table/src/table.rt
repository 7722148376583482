//! The rows by opcode and function, so that a word's row is found by one look-up. That each is the
//! row of its place, and that none is left out, is proved.

use crate::{BranchOp, InsnRow, MemOp, Op};

// The row of a function: `_` where no operate instruction has it, and in parentheses where not all
// operands are taken.
macro_rules! function_row {
    (_) => {
        InsnRow::Other
    };
    (($op:ident)) => {
        InsnRow::Ruled(Op::$op)
    };
    ($op:ident) => {
        InsnRow::Operate(Op::$op)
    };
}

// The rows of the 128 functions of an opcode, sixteen a line.
macro_rules! functions {
    ($($op:tt)*) => {
        [$(function_row!($op),)*]
    };
}

/// The rows of the functions of each opcode.
pub(crate) static ROWS: [[InsnRow; 128]; 64] = [
    [InsnRow::Other; 128],
    [InsnRow::Other; 128],
    [InsnRow::Other; 128],
    [InsnRow::Other; 128],
    [InsnRow::Other; 128],
    [InsnRow::Other; 128],
    [InsnRow::Other; 128],
    [InsnRow::Other; 128],
    [InsnRow::Mem(MemOp::Lda); 128],
    [InsnRow::Mem(MemOp::Ldah); 128],
    [InsnRow::Mem(MemOp::Ldbu); 128],
    [InsnRow::Mem(MemOp::LdqU); 128],
    [InsnRow::Mem(MemOp::Ldwu); 128],
    [InsnRow::Mem(MemOp::Stw); 128],
    [InsnRow::Mem(MemOp::Stb); 128],
    [InsnRow::Mem(MemOp::StqU); 128],
    functions! {
        Addl _ S4addl _ _ _ _ _ _ Subl _ S4subl _ _ _ Cmpbge
        _ _ S8addl _ _ _ _ _ _ _ _ S8subl _ Cmpult _ _
        Addq _ S4addq _ _ _ _ _ _ Subq _ S4subq _ Cmpeq _ _
        _ _ S8addq _ _ _ _ _ _ _ _ S8subq _ Cmpule _ _
        AddlV _ _ _ _ _ _ _ _ SublV _ _ _ Cmplt _ _
        _ _ _ _ _ _ _ _ _ _ _ _ _ _ _ _
        AddqV _ _ _ _ _ _ _ _ SubqV _ _ _ Cmple _ _
        _ _ _ _ _ _ _ _ _ _ _ _ _ _ _ _
    },
    functions! {
        And _ _ _ _ _ _ _ Bic _ _ _ _ _ _ _
        _ _ _ _ Cmovlbs _ Cmovlbc _ _ _ _ _ _ _ _ _
        Bis _ _ _ Cmoveq _ Cmovne _ Ornot _ _ _ _ _ _ _
        _ _ _ _ _ _ _ _ _ _ _ _ _ _ _ _
        Xor _ _ _ Cmovlt _ Cmovge _ Eqv _ _ _ _ _ _ _
        _ _ _ _ _ _ _ _ _ _ _ _ _ _ _ _
        _ (Amask) _ _ Cmovle _ Cmovgt _ _ _ _ _ (Implver) _ _ _
        _ _ _ _ _ _ _ _ _ _ _ _ _ _ _ _
    },
    functions! {
        _ _ Mskbl _ _ _ Extbl _ _ _ _ Insbl _ _ _ _
        _ _ Mskwl _ _ _ Extwl _ _ _ _ Inswl _ _ _ _
        _ _ Mskll _ _ _ Extll _ _ _ _ Insll _ _ _ _
        Zap Zapnot Mskql _ Srl _ Extql _ _ Sll _ Insql Sra _ _ _
        _ _ _ _ _ _ _ _ _ _ _ _ _ _ _ _
        _ _ Mskwh _ _ _ _ Inswh _ _ Extwh _ _ _ _ _
        _ _ Msklh _ _ _ _ Inslh _ _ Extlh _ _ _ _ _
        _ _ Mskqh _ _ _ _ Insqh _ _ Extqh _ _ _ _ _
    },
    functions! {
        Mull _ _ _ _ _ _ _ _ _ _ _ _ _ _ _
        _ _ _ _ _ _ _ _ _ _ _ _ _ _ _ _
        Mulq _ _ _ _ _ _ _ _ _ _ _ _ _ _ _
        Umulh _ _ _ _ _ _ _ _ _ _ _ _ _ _ _
        MullV _ _ _ _ _ _ _ _ _ _ _ _ _ _ _
        _ _ _ _ _ _ _ _ _ _ _ _ _ _ _ _
        MulqV _ _ _ _ _ _ _ _ _ _ _ _ _ _ _
        _ _ _ _ _ _ _ _ _ _ _ _ _ _ _ _
    },
    [InsnRow::Other; 128],
    [InsnRow::Other; 128],
    [InsnRow::Other; 128],
    [InsnRow::Other; 128],
    [InsnRow::Other; 128],
    [InsnRow::Other; 128],
    [InsnRow::Jump; 128],
    [InsnRow::Other; 128],
    functions! {
        (Sextb) (Sextw) _ _ _ _ _ _ _ _ _ _ _ _ _ _
        _ _ _ _ _ _ _ _ _ _ _ _ _ _ _ _
        _ _ _ _ _ _ _ _ _ _ _ _ _ _ _ _
        (Ctpop) _ (Ctlz) (Cttz) _ _ _ _ _ _ _ _ _ _ _ _
        _ _ _ _ _ _ _ _ _ _ _ _ _ _ _ _
        _ _ _ _ _ _ _ _ _ _ _ _ _ _ _ _
        _ _ _ _ _ _ _ _ _ _ _ _ _ _ _ _
        _ _ _ _ _ _ _ _ _ _ _ _ _ _ _ _
    },
    [InsnRow::Other; 128],
    [InsnRow::Other; 128],
    [InsnRow::Other; 128],
    [InsnRow::Other; 128],
    [InsnRow::Other; 128],
    [InsnRow::Other; 128],
    [InsnRow::Other; 128],
    [InsnRow::Other; 128],
    [InsnRow::Other; 128],
    [InsnRow::Other; 128],
    [InsnRow::Other; 128],
    [InsnRow::Mem(MemOp::Ldl); 128],
    [InsnRow::Mem(MemOp::Ldq); 128],
    [InsnRow::Mem(MemOp::LdlL); 128],
    [InsnRow::Mem(MemOp::LdqL); 128],
    [InsnRow::Mem(MemOp::Stl); 128],
    [InsnRow::Mem(MemOp::Stq); 128],
    [InsnRow::Mem(MemOp::StlC); 128],
    [InsnRow::Mem(MemOp::StqC); 128],
    [InsnRow::Branch(BranchOp::Br); 128],
    [InsnRow::Other; 128],
    [InsnRow::Other; 128],
    [InsnRow::Other; 128],
    [InsnRow::Branch(BranchOp::Bsr); 128],
    [InsnRow::Other; 128],
    [InsnRow::Other; 128],
    [InsnRow::Other; 128],
    [InsnRow::Branch(BranchOp::Blbc); 128],
    [InsnRow::Branch(BranchOp::Beq); 128],
    [InsnRow::Branch(BranchOp::Blt); 128],
    [InsnRow::Branch(BranchOp::Ble); 128],
    [InsnRow::Branch(BranchOp::Blbs); 128],
    [InsnRow::Branch(BranchOp::Bne); 128],
    [InsnRow::Branch(BranchOp::Bge); 128],
    [InsnRow::Branch(BranchOp::Bgt); 128],
];
