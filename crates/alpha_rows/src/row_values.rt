//! What operate rows leave, `None` where they overflow.
//!
//! Who calls [`row_value`] knows the operation, so that one arm is left of the functions behind that call, and no
//! table: each has the common rows of one kind, for a short proof. The rare ones stand in one function, and cost its
//! table.
#![tactic(auto, using(crate::proofs::OperateRowValues::if_some_equal), unfolding(alpha_values::specs::Op::result_of, alpha_values::specs::TrapOp::completed_of))]

ghost use Rattle.std.specs.Prelude.{◌≡◌, IfSome, Some};
ghost use Rattle.alpha_rows.specs.Meaning.{meaning_of, value_in};

use crate::row::{Row, RowOp};
use crate::values::{
    cmov_result, exact_result, high_product, quadword, rare_result, scaled_difference,
    scaled_long_difference, scaled_long_sum, scaled_sum, shift_left, shift_right,
    shift_right_signed, sign_extend_byte, sign_extend_word, wrapped_result,
};
use alpha_table::{Cond, Op, TrapOp};
use alpha_words::{Level, RegFile};

/// What a common operate row leaves, `None` where it overflows: here sums and products.
#[inline(always)]
pub(crate) fn row_value(level: Level, op: RowOp, row: &Row, regs: &RegFile) -> Option<u64>
    ensures { IfSome result (λ v. Some v ≡ value_in level (meaning_of op) row.now regs.now) }
{
    match op {
        RowOp::AddlReg => Some(wrapped_result(TrapOp::AddlV, regs.get(row.a), regs.get(row.b))),
        RowOp::AddlLit => Some(wrapped_result(TrapOp::AddlV, regs.get(row.a), u64::from(row.imm))),
        RowOp::SublReg => Some(wrapped_result(TrapOp::SublV, regs.get(row.a), regs.get(row.b))),
        RowOp::SublLit => Some(wrapped_result(TrapOp::SublV, regs.get(row.a), u64::from(row.imm))),
        RowOp::MullReg => Some(wrapped_result(TrapOp::MullV, regs.get(row.a), regs.get(row.b))),
        RowOp::MullLit => Some(wrapped_result(TrapOp::MullV, regs.get(row.a), u64::from(row.imm))),
        RowOp::AddqReg => Some(wrapped_result(TrapOp::AddqV, regs.get(row.a), regs.get(row.b))),
        RowOp::AddqLit => Some(wrapped_result(TrapOp::AddqV, regs.get(row.a), u64::from(row.imm))),
        RowOp::SubqReg => Some(wrapped_result(TrapOp::SubqV, regs.get(row.a), regs.get(row.b))),
        RowOp::SubqLit => Some(wrapped_result(TrapOp::SubqV, regs.get(row.a), u64::from(row.imm))),
        RowOp::MulqReg => Some(wrapped_result(TrapOp::MulqV, regs.get(row.a), regs.get(row.b))),
        RowOp::MulqLit => Some(wrapped_result(TrapOp::MulqV, regs.get(row.a), u64::from(row.imm))),
        RowOp::AddlVReg => exact_result(TrapOp::AddlV, regs.get(row.a), regs.get(row.b)),
        RowOp::AddlVLit => exact_result(TrapOp::AddlV, regs.get(row.a), u64::from(row.imm)),
        RowOp::SublVReg => exact_result(TrapOp::SublV, regs.get(row.a), regs.get(row.b)),
        RowOp::SublVLit => exact_result(TrapOp::SublV, regs.get(row.a), u64::from(row.imm)),
        RowOp::AddqVReg => exact_result(TrapOp::AddqV, regs.get(row.a), regs.get(row.b)),
        RowOp::AddqVLit => exact_result(TrapOp::AddqV, regs.get(row.a), u64::from(row.imm)),
        RowOp::SubqVReg => exact_result(TrapOp::SubqV, regs.get(row.a), regs.get(row.b)),
        RowOp::SubqVLit => exact_result(TrapOp::SubqV, regs.get(row.a), u64::from(row.imm)),
        RowOp::S4addqReg => Some(scaled_sum(4, regs.get(row.a), regs.get(row.b))),
        RowOp::S4addqLit => Some(scaled_sum(4, regs.get(row.a), u64::from(row.imm))),
        RowOp::S8addqReg => Some(scaled_sum(8, regs.get(row.a), regs.get(row.b))),
        RowOp::S8addqLit => Some(scaled_sum(8, regs.get(row.a), u64::from(row.imm))),
        RowOp::S4addlReg => Some(scaled_long_sum(4, regs.get(row.a), regs.get(row.b))),
        RowOp::S4addlLit => Some(scaled_long_sum(4, regs.get(row.a), u64::from(row.imm))),
        _ => logic_row_value(level, op, row, regs),
    }
}

// The same of compares, of logic, of shifts and of the moves that are common.
#[inline(always)]
fn logic_row_value(level: Level, op: RowOp, row: &Row, regs: &RegFile) -> Option<u64>
    ensures { IfSome result (λ v. Some v ≡ value_in level (meaning_of op) row.now regs.now) }
{
    match op {
        RowOp::CmpeqReg => Some(u64::from(regs.get(row.a) == regs.get(row.b))),
        RowOp::CmpeqLit => Some(u64::from(regs.get(row.a) == u64::from(row.imm))),
        RowOp::CmpltReg => Some(u64::from(quadword(regs.get(row.a)) < quadword(regs.get(row.b)))),
        RowOp::CmpltLit => Some(u64::from(
            quadword(regs.get(row.a)) < quadword(u64::from(row.imm)),
        )),
        RowOp::CmpleReg => Some(u64::from(quadword(regs.get(row.a)) <= quadword(regs.get(row.b)))),
        RowOp::CmpleLit => Some(u64::from(
            quadword(regs.get(row.a)) <= quadword(u64::from(row.imm)),
        )),
        RowOp::CmpultReg => Some(u64::from(regs.get(row.a) < regs.get(row.b))),
        RowOp::CmpultLit => Some(u64::from(regs.get(row.a) < u64::from(row.imm))),
        RowOp::CmpuleReg => Some(u64::from(regs.get(row.a) <= regs.get(row.b))),
        RowOp::CmpuleLit => Some(u64::from(regs.get(row.a) <= u64::from(row.imm))),
        RowOp::AndReg => Some(regs.get(row.a) & regs.get(row.b)),
        RowOp::AndLit => Some(regs.get(row.a) & u64::from(row.imm)),
        RowOp::BisReg => Some(regs.get(row.a) | regs.get(row.b)),
        RowOp::BisLit => Some(regs.get(row.a) | u64::from(row.imm)),
        RowOp::XorReg => Some(regs.get(row.a) ^ regs.get(row.b)),
        RowOp::XorLit => Some(regs.get(row.a) ^ u64::from(row.imm)),
        RowOp::BicReg => Some(regs.get(row.a) & !regs.get(row.b)),
        RowOp::BicLit => Some(regs.get(row.a) & !u64::from(row.imm)),
        RowOp::OrnotReg => Some(regs.get(row.a) | !regs.get(row.b)),
        RowOp::OrnotLit => Some(regs.get(row.a) | !u64::from(row.imm)),
        RowOp::SllReg => Some(shift_left(regs.get(row.a), regs.get(row.b))),
        RowOp::SllLit => Some(shift_left(regs.get(row.a), u64::from(row.imm))),
        RowOp::SrlReg => Some(shift_right(regs.get(row.a), regs.get(row.b))),
        RowOp::SrlLit => Some(shift_right(regs.get(row.a), u64::from(row.imm))),
        RowOp::SraReg => Some(shift_right_signed(regs.get(row.a), regs.get(row.b))),
        RowOp::SraLit => Some(shift_right_signed(regs.get(row.a), u64::from(row.imm))),
        RowOp::SextbReg => Some(sign_extend_byte(regs.get(row.b))),
        RowOp::SextbLit => Some(sign_extend_byte(u64::from(row.imm))),
        RowOp::SextwReg => Some(sign_extend_word(regs.get(row.b))),
        RowOp::SextwLit => Some(sign_extend_word(u64::from(row.imm))),
        RowOp::CmoveqReg => Some(cmov_result(
            Cond::Eq,
            regs.get(row.a),
            regs.get(row.b),
            regs.get(row.c),
        )),
        RowOp::CmoveqLit => Some(cmov_result(
            Cond::Eq,
            regs.get(row.a),
            u64::from(row.imm),
            regs.get(row.c),
        )),
        RowOp::CmovneReg => Some(cmov_result(
            Cond::Ne,
            regs.get(row.a),
            regs.get(row.b),
            regs.get(row.c),
        )),
        RowOp::CmovneLit => Some(cmov_result(
            Cond::Ne,
            regs.get(row.a),
            u64::from(row.imm),
            regs.get(row.c),
        )),
        _ => None,
    }
}

/// What a less common operate row leaves, `None` where it overflows.
#[inline(always)]
pub(crate) fn rare_row_value(level: Level, op: RowOp, row: &Row, regs: &RegFile) -> Option<u64>
    ensures { IfSome result (λ v. Some v ≡ value_in level (meaning_of op) row.now regs.now) }
{
    match op {
        RowOp::MullVReg => exact_result(TrapOp::MullV, regs.get(row.a), regs.get(row.b)),
        RowOp::MullVLit => exact_result(TrapOp::MullV, regs.get(row.a), u64::from(row.imm)),
        RowOp::MulqVReg => exact_result(TrapOp::MulqV, regs.get(row.a), regs.get(row.b)),
        RowOp::MulqVLit => exact_result(TrapOp::MulqV, regs.get(row.a), u64::from(row.imm)),
        RowOp::EqvReg => Some(regs.get(row.a) ^ !regs.get(row.b)),
        RowOp::EqvLit => Some(regs.get(row.a) ^ !u64::from(row.imm)),
        RowOp::S8addlReg => Some(scaled_long_sum(8, regs.get(row.a), regs.get(row.b))),
        RowOp::S8addlLit => Some(scaled_long_sum(8, regs.get(row.a), u64::from(row.imm))),
        RowOp::S4sublReg => Some(scaled_long_difference(4, regs.get(row.a), regs.get(row.b))),
        RowOp::S4sublLit => Some(scaled_long_difference(4, regs.get(row.a), u64::from(row.imm))),
        RowOp::S8sublReg => Some(scaled_long_difference(8, regs.get(row.a), regs.get(row.b))),
        RowOp::S8sublLit => Some(scaled_long_difference(8, regs.get(row.a), u64::from(row.imm))),
        RowOp::S4subqReg => Some(scaled_difference(4, regs.get(row.a), regs.get(row.b))),
        RowOp::S4subqLit => Some(scaled_difference(4, regs.get(row.a), u64::from(row.imm))),
        RowOp::S8subqReg => Some(scaled_difference(8, regs.get(row.a), regs.get(row.b))),
        RowOp::S8subqLit => Some(scaled_difference(8, regs.get(row.a), u64::from(row.imm))),
        RowOp::UmulhReg => Some(high_product(regs.get(row.a), regs.get(row.b))),
        RowOp::UmulhLit => Some(high_product(regs.get(row.a), u64::from(row.imm))),
        RowOp::CmovlbsReg => Some(cmov_result(
            Cond::Lbs,
            regs.get(row.a),
            regs.get(row.b),
            regs.get(row.c),
        )),
        RowOp::CmovlbsLit => Some(cmov_result(
            Cond::Lbs,
            regs.get(row.a),
            u64::from(row.imm),
            regs.get(row.c),
        )),
        RowOp::CmovlbcReg => Some(cmov_result(
            Cond::Lbc,
            regs.get(row.a),
            regs.get(row.b),
            regs.get(row.c),
        )),
        RowOp::CmovlbcLit => Some(cmov_result(
            Cond::Lbc,
            regs.get(row.a),
            u64::from(row.imm),
            regs.get(row.c),
        )),
        RowOp::CmovltReg => Some(cmov_result(
            Cond::Lt,
            regs.get(row.a),
            regs.get(row.b),
            regs.get(row.c),
        )),
        RowOp::CmovltLit => Some(cmov_result(
            Cond::Lt,
            regs.get(row.a),
            u64::from(row.imm),
            regs.get(row.c),
        )),
        RowOp::CmovleReg => Some(cmov_result(
            Cond::Le,
            regs.get(row.a),
            regs.get(row.b),
            regs.get(row.c),
        )),
        RowOp::CmovleLit => Some(cmov_result(
            Cond::Le,
            regs.get(row.a),
            u64::from(row.imm),
            regs.get(row.c),
        )),
        RowOp::CmovgeReg => Some(cmov_result(
            Cond::Ge,
            regs.get(row.a),
            regs.get(row.b),
            regs.get(row.c),
        )),
        RowOp::CmovgeLit => Some(cmov_result(
            Cond::Ge,
            regs.get(row.a),
            u64::from(row.imm),
            regs.get(row.c),
        )),
        RowOp::CmovgtReg => Some(cmov_result(
            Cond::Gt,
            regs.get(row.a),
            regs.get(row.b),
            regs.get(row.c),
        )),
        RowOp::CmovgtLit => Some(cmov_result(
            Cond::Gt,
            regs.get(row.a),
            u64::from(row.imm),
            regs.get(row.c),
        )),
        RowOp::CmpbgeReg => Some(rare_result(Op::Cmpbge, regs.get(row.a), regs.get(row.b))),
        RowOp::CmpbgeLit => Some(rare_result(Op::Cmpbge, regs.get(row.a), u64::from(row.imm))),
        RowOp::MskblReg => Some(rare_result(Op::Mskbl, regs.get(row.a), regs.get(row.b))),
        RowOp::MskblLit => Some(rare_result(Op::Mskbl, regs.get(row.a), u64::from(row.imm))),
        RowOp::ExtblReg => Some(rare_result(Op::Extbl, regs.get(row.a), regs.get(row.b))),
        RowOp::ExtblLit => Some(rare_result(Op::Extbl, regs.get(row.a), u64::from(row.imm))),
        RowOp::InsblReg => Some(rare_result(Op::Insbl, regs.get(row.a), regs.get(row.b))),
        RowOp::InsblLit => Some(rare_result(Op::Insbl, regs.get(row.a), u64::from(row.imm))),
        RowOp::MskwlReg => Some(rare_result(Op::Mskwl, regs.get(row.a), regs.get(row.b))),
        RowOp::MskwlLit => Some(rare_result(Op::Mskwl, regs.get(row.a), u64::from(row.imm))),
        RowOp::ExtwlReg => Some(rare_result(Op::Extwl, regs.get(row.a), regs.get(row.b))),
        RowOp::ExtwlLit => Some(rare_result(Op::Extwl, regs.get(row.a), u64::from(row.imm))),
        RowOp::InswlReg => Some(rare_result(Op::Inswl, regs.get(row.a), regs.get(row.b))),
        RowOp::InswlLit => Some(rare_result(Op::Inswl, regs.get(row.a), u64::from(row.imm))),
        RowOp::MskllReg => Some(rare_result(Op::Mskll, regs.get(row.a), regs.get(row.b))),
        RowOp::MskllLit => Some(rare_result(Op::Mskll, regs.get(row.a), u64::from(row.imm))),
        RowOp::ExtllReg => Some(rare_result(Op::Extll, regs.get(row.a), regs.get(row.b))),
        RowOp::ExtllLit => Some(rare_result(Op::Extll, regs.get(row.a), u64::from(row.imm))),
        RowOp::InsllReg => Some(rare_result(Op::Insll, regs.get(row.a), regs.get(row.b))),
        RowOp::InsllLit => Some(rare_result(Op::Insll, regs.get(row.a), u64::from(row.imm))),
        RowOp::ZapReg => Some(rare_result(Op::Zap, regs.get(row.a), regs.get(row.b))),
        RowOp::ZapLit => Some(rare_result(Op::Zap, regs.get(row.a), u64::from(row.imm))),
        RowOp::ZapnotReg => Some(rare_result(Op::Zapnot, regs.get(row.a), regs.get(row.b))),
        RowOp::ZapnotLit => Some(rare_result(Op::Zapnot, regs.get(row.a), u64::from(row.imm))),
        RowOp::MskqlReg => Some(rare_result(Op::Mskql, regs.get(row.a), regs.get(row.b))),
        RowOp::MskqlLit => Some(rare_result(Op::Mskql, regs.get(row.a), u64::from(row.imm))),
        RowOp::ExtqlReg => Some(rare_result(Op::Extql, regs.get(row.a), regs.get(row.b))),
        RowOp::ExtqlLit => Some(rare_result(Op::Extql, regs.get(row.a), u64::from(row.imm))),
        RowOp::InsqlReg => Some(rare_result(Op::Insql, regs.get(row.a), regs.get(row.b))),
        RowOp::InsqlLit => Some(rare_result(Op::Insql, regs.get(row.a), u64::from(row.imm))),
        RowOp::MskwhReg => Some(rare_result(Op::Mskwh, regs.get(row.a), regs.get(row.b))),
        RowOp::MskwhLit => Some(rare_result(Op::Mskwh, regs.get(row.a), u64::from(row.imm))),
        RowOp::InswhReg => Some(rare_result(Op::Inswh, regs.get(row.a), regs.get(row.b))),
        RowOp::InswhLit => Some(rare_result(Op::Inswh, regs.get(row.a), u64::from(row.imm))),
        RowOp::ExtwhReg => Some(rare_result(Op::Extwh, regs.get(row.a), regs.get(row.b))),
        RowOp::ExtwhLit => Some(rare_result(Op::Extwh, regs.get(row.a), u64::from(row.imm))),
        RowOp::MsklhReg => Some(rare_result(Op::Msklh, regs.get(row.a), regs.get(row.b))),
        RowOp::MsklhLit => Some(rare_result(Op::Msklh, regs.get(row.a), u64::from(row.imm))),
        RowOp::InslhReg => Some(rare_result(Op::Inslh, regs.get(row.a), regs.get(row.b))),
        RowOp::InslhLit => Some(rare_result(Op::Inslh, regs.get(row.a), u64::from(row.imm))),
        RowOp::ExtlhReg => Some(rare_result(Op::Extlh, regs.get(row.a), regs.get(row.b))),
        RowOp::ExtlhLit => Some(rare_result(Op::Extlh, regs.get(row.a), u64::from(row.imm))),
        RowOp::MskqhReg => Some(rare_result(Op::Mskqh, regs.get(row.a), regs.get(row.b))),
        RowOp::MskqhLit => Some(rare_result(Op::Mskqh, regs.get(row.a), u64::from(row.imm))),
        RowOp::InsqhReg => Some(rare_result(Op::Insqh, regs.get(row.a), regs.get(row.b))),
        RowOp::InsqhLit => Some(rare_result(Op::Insqh, regs.get(row.a), u64::from(row.imm))),
        RowOp::ExtqhReg => Some(rare_result(Op::Extqh, regs.get(row.a), regs.get(row.b))),
        RowOp::ExtqhLit => Some(rare_result(Op::Extqh, regs.get(row.a), u64::from(row.imm))),
        RowOp::CtpopReg => Some(rare_result(Op::Ctpop, regs.get(row.a), regs.get(row.b))),
        RowOp::CtlzReg => Some(rare_result(Op::Ctlz, regs.get(row.a), regs.get(row.b))),
        RowOp::CttzReg => Some(rare_result(Op::Cttz, regs.get(row.a), regs.get(row.b))),
        _ => None,
    }
}
