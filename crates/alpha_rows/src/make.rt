//! The rows of a program, made once.

ghost use Rattle.std.specs.Prelude.{◌≡◌, ◌≤◌, ◌<◌, ◌^◌, ◌⊎◌, ◌+ℤ◌, pos, ℕ, true, false, IfOk, IfSome, IsTrue};
ghost use Rattle.alpha_table.specs.declared.form.Form.TheVariants.{Operate, Mem, Branch};
ghost use Rattle.alpha_table.specs.declared.columns.MemAccess.{MemAccess};
ghost use Rattle.alpha_table.specs.ClassOf.{memory_class};
ghost use Rattle.alpha_table.specs.Rows.{mem_row, branch_row};
ghost use Rattle.alpha_rows.specs.Meaning.{leaves, idles, operates, accesses, tests, meaning_of};
ghost use Rattle.alpha_rows.specs.Meaning.{branch_meaning, IsIdle, Denotes};
ghost use Rattle.alpha_rows.specs.Rows.{IsRows};

use crate::row::{Row, RowOp};
use alpha_image::Image;
use alpha_table::{BranchOp, Cond, Form, Insn, InsnKind, MemOp, MemRole, Op, Src, kind};
use alpha_words::{NoMemory, Reg};
use std::alloc::Global;

/// The rows of a program: one a word, and one behind them that leaves. `NoMemory` where memory runs out.
pub(crate) fn rows_of(alloc: Global, image: &Image) -> Result<Vec<Row>, NoMemory>
    ensures { IfOk result (λ rows. IsRows image.now rows.items) }
{
    let insns = image.insns();
    let words = image.words();
    let mut rows = Vec::with_capacity(alloc, insns.len() + 1)?;
    'words: for place in 0..words {
        rows.push(row_of(&insns[place as usize], place, words))?;
    }
    rows.push(leaving_row())?;
    Ok(rows)
}

// The row of an instruction at a place of a program of so many words.
fn row_of(insn: &Insn, place: u32, words: u32) -> Row
    requires place { place < words }
    requires words { words ≤ 2 ^ 18 }
    ensures { Denotes (meaning_of result.op) result words place insn.now }
{
    match insn.form() {
        Form::Operate { op, ra, src, rc } => row_of_operate(op, ra, &src, rc),
        Form::Mem { op, ra, rb, disp } => row_of_memory(op, ra, rb, disp),
        Form::Branch { op, ra, disp } => row_of_branch(op, ra, disp, place, words),
        Form::Misc(_) => match kind(insn) {
            InsnKind::Barrier => leaving_row(),
            _ => idle_row(),
        },
        Form::Fetch { .. } => idle_row(),
        Form::Jump { ra, rb, .. } => Row {
            op: RowOp::Jump,
            a: ra,
            b: rb,
            c: Reg::ZERO,
            imm: 0,
        },
        Form::Pal(_) => leaving_row(),
    }
}

// A row that leaves.
fn leaving_row() -> Row
    ensures { meaning_of result.op ≡ leaves }
{
    row_without_operands(RowOp::Leave)
}

// A row that goes on to the next.
fn idle_row() -> Row
    ensures { meaning_of result.op ≡ idles }
{
    row_without_operands(RowOp::Idle)
}

// A row that has no operands.
fn row_without_operands(op: RowOp) -> Row
    ensures { result.op ≡ op }
{
    Row {
        op,
        a: Reg::ZERO,
        b: Reg::ZERO,
        c: Reg::ZERO,
        imm: 0,
    }
}

// A word whose destination is R31 changes nothing, unless it overflows.
fn row_of_operate(op: Op, ra: Reg, src: &Src, rc: Reg) -> Row
    ensures { (n k : ℕ) → Denotes (meaning_of result.op) result n k (Operate op ra src.now rc) }
{
    if rc == Reg::ZERO {
        return match op.trap() {
            None => idle_row(),
            Some(_) => leaving_row(),
        };
    }
    match *src {
        Src::Reg(rb) => Row {
            op: register_op(op),
            a: ra,
            b: rb,
            c: rc,
            imm: 0,
        },
        Src::Lit(n) => Row {
            op: literal_op(op),
            a: ra,
            b: Reg::ZERO,
            c: rc,
            imm: u32::from(n),
        },
    }
}

// The row of an operate instruction with a register as second source.
fn register_op(op: Op) -> RowOp
    ensures { (meaning_of result ≡ operates op false) ⊎ (meaning_of result ≡ leaves) }
{
    match op {
        Op::Addl => RowOp::AddlReg,
        Op::Subl => RowOp::SublReg,
        Op::Mull => RowOp::MullReg,
        Op::Addq => RowOp::AddqReg,
        Op::Subq => RowOp::SubqReg,
        Op::Mulq => RowOp::MulqReg,
        Op::AddlV => RowOp::AddlVReg,
        Op::SublV => RowOp::SublVReg,
        Op::MullV => RowOp::MullVReg,
        Op::AddqV => RowOp::AddqVReg,
        Op::SubqV => RowOp::SubqVReg,
        Op::MulqV => RowOp::MulqVReg,
        Op::S4addq => RowOp::S4addqReg,
        Op::S8addq => RowOp::S8addqReg,
        Op::Cmpeq => RowOp::CmpeqReg,
        Op::Cmplt => RowOp::CmpltReg,
        Op::Cmple => RowOp::CmpleReg,
        Op::Cmpult => RowOp::CmpultReg,
        Op::Cmpule => RowOp::CmpuleReg,
        Op::And => RowOp::AndReg,
        Op::Bis => RowOp::BisReg,
        Op::Xor => RowOp::XorReg,
        Op::Bic => RowOp::BicReg,
        Op::Ornot => RowOp::OrnotReg,
        Op::Eqv => RowOp::EqvReg,
        Op::Sll => RowOp::SllReg,
        Op::Srl => RowOp::SrlReg,
        Op::Sra => RowOp::SraReg,
        Op::S4addl => RowOp::S4addlReg,
        Op::S8addl => RowOp::S8addlReg,
        Op::S4subl => RowOp::S4sublReg,
        Op::S8subl => RowOp::S8sublReg,
        Op::S4subq => RowOp::S4subqReg,
        Op::S8subq => RowOp::S8subqReg,
        Op::Umulh => RowOp::UmulhReg,
        Op::Sextb => RowOp::SextbReg,
        Op::Sextw => RowOp::SextwReg,
        Op::Cmovlbs => RowOp::CmovlbsReg,
        Op::Cmovlbc => RowOp::CmovlbcReg,
        Op::Cmoveq => RowOp::CmoveqReg,
        Op::Cmovne => RowOp::CmovneReg,
        Op::Cmovlt => RowOp::CmovltReg,
        Op::Cmovle => RowOp::CmovleReg,
        Op::Cmovge => RowOp::CmovgeReg,
        Op::Cmovgt => RowOp::CmovgtReg,
        Op::Cmpbge => RowOp::CmpbgeReg,
        Op::Mskbl => RowOp::MskblReg,
        Op::Extbl => RowOp::ExtblReg,
        Op::Insbl => RowOp::InsblReg,
        Op::Mskwl => RowOp::MskwlReg,
        Op::Extwl => RowOp::ExtwlReg,
        Op::Inswl => RowOp::InswlReg,
        Op::Mskll => RowOp::MskllReg,
        Op::Extll => RowOp::ExtllReg,
        Op::Insll => RowOp::InsllReg,
        Op::Zap => RowOp::ZapReg,
        Op::Zapnot => RowOp::ZapnotReg,
        Op::Mskql => RowOp::MskqlReg,
        Op::Extql => RowOp::ExtqlReg,
        Op::Insql => RowOp::InsqlReg,
        Op::Mskwh => RowOp::MskwhReg,
        Op::Inswh => RowOp::InswhReg,
        Op::Extwh => RowOp::ExtwhReg,
        Op::Msklh => RowOp::MsklhReg,
        Op::Inslh => RowOp::InslhReg,
        Op::Extlh => RowOp::ExtlhReg,
        Op::Mskqh => RowOp::MskqhReg,
        Op::Insqh => RowOp::InsqhReg,
        Op::Extqh => RowOp::ExtqhReg,
        Op::Ctpop => RowOp::CtpopReg,
        Op::Ctlz => RowOp::CtlzReg,
        Op::Cttz => RowOp::CttzReg,
        _ => RowOp::Leave,
    }
}

// The row of an operate instruction with a literal as second source.
fn literal_op(op: Op) -> RowOp
    ensures { (meaning_of result ≡ operates op true) ⊎ (meaning_of result ≡ leaves) }
{
    match op {
        Op::Addl => RowOp::AddlLit,
        Op::Subl => RowOp::SublLit,
        Op::Mull => RowOp::MullLit,
        Op::Addq => RowOp::AddqLit,
        Op::Subq => RowOp::SubqLit,
        Op::Mulq => RowOp::MulqLit,
        Op::AddlV => RowOp::AddlVLit,
        Op::SublV => RowOp::SublVLit,
        Op::MullV => RowOp::MullVLit,
        Op::AddqV => RowOp::AddqVLit,
        Op::SubqV => RowOp::SubqVLit,
        Op::MulqV => RowOp::MulqVLit,
        Op::S4addq => RowOp::S4addqLit,
        Op::S8addq => RowOp::S8addqLit,
        Op::Cmpeq => RowOp::CmpeqLit,
        Op::Cmplt => RowOp::CmpltLit,
        Op::Cmple => RowOp::CmpleLit,
        Op::Cmpult => RowOp::CmpultLit,
        Op::Cmpule => RowOp::CmpuleLit,
        Op::And => RowOp::AndLit,
        Op::Bis => RowOp::BisLit,
        Op::Xor => RowOp::XorLit,
        Op::Bic => RowOp::BicLit,
        Op::Ornot => RowOp::OrnotLit,
        Op::Eqv => RowOp::EqvLit,
        Op::Sll => RowOp::SllLit,
        Op::Srl => RowOp::SrlLit,
        Op::Sra => RowOp::SraLit,
        Op::S4addl => RowOp::S4addlLit,
        Op::S8addl => RowOp::S8addlLit,
        Op::S4subl => RowOp::S4sublLit,
        Op::S8subl => RowOp::S8sublLit,
        Op::S4subq => RowOp::S4subqLit,
        Op::S8subq => RowOp::S8subqLit,
        Op::Umulh => RowOp::UmulhLit,
        Op::Sextb => RowOp::SextbLit,
        Op::Sextw => RowOp::SextwLit,
        Op::Cmovlbs => RowOp::CmovlbsLit,
        Op::Cmovlbc => RowOp::CmovlbcLit,
        Op::Cmoveq => RowOp::CmoveqLit,
        Op::Cmovne => RowOp::CmovneLit,
        Op::Cmovlt => RowOp::CmovltLit,
        Op::Cmovle => RowOp::CmovleLit,
        Op::Cmovge => RowOp::CmovgeLit,
        Op::Cmovgt => RowOp::CmovgtLit,
        Op::Cmpbge => RowOp::CmpbgeLit,
        Op::Mskbl => RowOp::MskblLit,
        Op::Extbl => RowOp::ExtblLit,
        Op::Insbl => RowOp::InsblLit,
        Op::Mskwl => RowOp::MskwlLit,
        Op::Extwl => RowOp::ExtwlLit,
        Op::Inswl => RowOp::InswlLit,
        Op::Mskll => RowOp::MskllLit,
        Op::Extll => RowOp::ExtllLit,
        Op::Insll => RowOp::InsllLit,
        Op::Zap => RowOp::ZapLit,
        Op::Zapnot => RowOp::ZapnotLit,
        Op::Mskql => RowOp::MskqlLit,
        Op::Extql => RowOp::ExtqlLit,
        Op::Insql => RowOp::InsqlLit,
        Op::Mskwh => RowOp::MskwhLit,
        Op::Inswh => RowOp::InswhLit,
        Op::Extwh => RowOp::ExtwhLit,
        Op::Msklh => RowOp::MsklhLit,
        Op::Inslh => RowOp::InslhLit,
        Op::Extlh => RowOp::ExtlhLit,
        Op::Mskqh => RowOp::MskqhLit,
        Op::Insqh => RowOp::InsqhLit,
        Op::Extqh => RowOp::ExtqhLit,
        _ => RowOp::Leave,
    }
}

// A memory instruction that stays in the loop. A load into R31 changes nothing.
fn row_of_memory(op: MemOp, ra: Reg, rb: Reg, disp: i16) -> Row
    ensures { (n k : ℕ) → Denotes (meaning_of result.op) result n k (Mem op ra rb disp) }
{
    if ra == Reg::ZERO && is_load(op) {
        return idle_row();
    }
    Row {
        op: memory_op(op),
        a: ra,
        b: rb,
        c: Reg::ZERO,
        imm: u32::from(disp.cast_unsigned()),
    }
}

// Whether an instruction writes its register and does nothing else where that is R31.
fn is_load(op: MemOp) -> bool
    ensures { IsTrue result → (at : MemAccess) → IsIdle (memory_class (mem_row op).role op at 31) }
{
    match op.row().role {
        MemRole::Load(_) | MemRole::Address => true,
        _ => false,
    }
}

// The row of a memory instruction, which leaves where the lock flag is used.
fn memory_op(op: MemOp) -> RowOp
    ensures { (meaning_of result ≡ accesses op) ⊎ (meaning_of result ≡ leaves) }
{
    match op {
        MemOp::Lda => RowOp::Lda,
        MemOp::Ldah => RowOp::Ldah,
        MemOp::Ldbu => RowOp::Ldbu,
        MemOp::Ldwu => RowOp::Ldwu,
        MemOp::Ldl => RowOp::Ldl,
        MemOp::Ldq => RowOp::Ldq,
        MemOp::LdqU => RowOp::LdqU,
        MemOp::Stb => RowOp::Stb,
        MemOp::Stw => RowOp::Stw,
        MemOp::Stl => RowOp::Stl,
        MemOp::Stq => RowOp::Stq,
        MemOp::StqU => RowOp::StqU,
        _ => RowOp::Leave,
    }
}

// A branch whose target is no place of the program leaves.
fn row_of_branch(op: BranchOp, ra: Reg, disp: i32, place: u32, words: u32) -> Row
    requires place { place < words }
    requires words { words ≤ 2 ^ 18 }
    ensures { Denotes (meaning_of result.op) result words place (Branch op ra disp) }
{
    let Some(target) = target_place(place + 1, disp, words) else {
        return leaving_row();
    };
    Row {
        op: branch_op(op, ra),
        a: ra,
        b: Reg::ZERO,
        c: Reg::ZERO,
        imm: target,
    }
}

// The place so many words away, if a row stands there: that of a word, or the one behind the last.
fn target_place(next: u32, disp: i32, words: u32) -> Option<u32>
    requires next { next ≤ 2 ^ 18 }
    requires words { words ≤ 2 ^ 18 }
    ensures there { IfSome result (λ to. pos to ≡ pos next +ℤ disp) }
    ensures within { IfSome result (λ to. to ≤ words) }
{
    let to = next.wrapping_add_signed(disp);
    if to <= words { Some(to) } else { None }
}

// The row of a branch: one without a condition has no link where its register is R31.
fn branch_op(op: BranchOp, ra: Reg) -> RowOp
    ensures { meaning_of result ≡ branch_meaning (branch_row op).condition ra }
{
    match op.row().condition {
        None if ra == Reg::ZERO => RowOp::Branch,
        None => RowOp::BranchLink,
        Some(condition) => test_op(condition),
    }
}

// The row of a branch with a condition.
fn test_op(condition: Cond) -> RowOp
    ensures { meaning_of result ≡ tests condition }
{
    match condition {
        Cond::Lbc => RowOp::Blbc,
        Cond::Eq => RowOp::Beq,
        Cond::Lt => RowOp::Blt,
        Cond::Le => RowOp::Ble,
        Cond::Lbs => RowOp::Blbs,
        Cond::Ne => RowOp::Bne,
        Cond::Ge => RowOp::Bge,
        Cond::Gt => RowOp::Bgt,
    }
}
