ghost use Rattle.std.specs.Prelude.{◌≡◌, if◌then◌else◌, Some, None, false};
ghost use Rattle.alpha_values.specs.Cond.{is_taken};
ghost use Rattle.alpha_table.specs.Op.{trap_of};
ghost use Rattle.alpha_values.specs.Outcome.{outcome_of, overflows_at};
ghost use Rattle.alpha_values.specs.TrapOp.{overflow_of, completed_of};
ghost use Rattle.alpha_words.specs.declared.Level.TheVariants.{One};
ghost use Rattle.alpha_values.specs.Op.{features, implementation, result_of};

use crate::bytes::{
    compare_bytes, extract_high, extract_low, insert_high, insert_low, mask_high, mask_low, zap,
    zap_not,
};
use crate::counts::{ones, zeros_above, zeros_below};
use crate::number::quadword;
use crate::shifts::{shift_left, shift_right, shift_right_signed};
use crate::sums::{
    high_product, scaled_difference, scaled_long_difference, scaled_long_sum, scaled_sum,
    sign_extend_byte, sign_extend_word,
};
use crate::{completed, laws_of_completion, overflows, taken};
use alpha_table::{Cond, Op, TrapOp};
use alpha_words::{Completion, Level};

/// The result of an operate instruction of an implementation of level one: [`operate_at`] there.
pub fn operate(op: Op, a: u64, b: u64, old: u64) -> u64
    ensures { result ≡ result_of One op a b old }
{
    operate_at(Level::One, op, a, b, old)
}

/// The result of an operate instruction (Architecture Handbook, sections 4.4 to 4.6 and 4.11): `a`
/// is Ra, `b` is Rb or the literal, and `old` is what the destination had, which a conditional move
/// may leave there. A `/V` row gives the wrapped result. AMASK and IMPLVER alone depend on the level.
#[inline(always)]
pub fn operate_at(level: Level, op: Op, a: u64, b: u64, old: u64) -> u64
    ensures { result ≡ result_of level op a b old }
{
    match outcome(level, op, a, b, old) {
        Some(value) => value,
        None => wrapped_result_of(op, a, b),
    }
}

/// What [`operate_at`] gives, `None` where the row has `/V` and overflows.
#[tactic(auto, unfolding(crate::specs::Op::result_of, crate::specs::TrapOp::completed_of))]
#[inline(always)]
pub fn outcome(level: Level, op: Op, a: u64, b: u64, old: u64) -> Option<u64>
    ensures { result ≡ outcome_of level op a b old }
{
    match op {
        Op::AddlV => exact_result(TrapOp::AddlV, a, b),
        Op::SublV => exact_result(TrapOp::SublV, a, b),
        Op::MullV => exact_result(TrapOp::MullV, a, b),
        Op::AddqV => exact_result(TrapOp::AddqV, a, b),
        Op::SubqV => exact_result(TrapOp::SubqV, a, b),
        Op::MulqV => exact_result(TrapOp::MulqV, a, b),
        Op::Addl => Some(wrapped_result(TrapOp::AddlV, a, b)),
        Op::Subl => Some(wrapped_result(TrapOp::SublV, a, b)),
        Op::Mull => Some(wrapped_result(TrapOp::MullV, a, b)),
        Op::Addq => Some(wrapped_result(TrapOp::AddqV, a, b)),
        Op::Subq => Some(wrapped_result(TrapOp::SubqV, a, b)),
        Op::Mulq => Some(wrapped_result(TrapOp::MulqV, a, b)),
        Op::S4addl => Some(scaled_long_sum(4, a, b)),
        Op::S8addl => Some(scaled_long_sum(8, a, b)),
        Op::S4subl => Some(scaled_long_difference(4, a, b)),
        Op::S8subl => Some(scaled_long_difference(8, a, b)),
        Op::S4addq => Some(scaled_sum(4, a, b)),
        Op::S8addq => Some(scaled_sum(8, a, b)),
        Op::S4subq => Some(scaled_difference(4, a, b)),
        Op::S8subq => Some(scaled_difference(8, a, b)),
        Op::Umulh => Some(high_product(a, b)),
        Op::Sextb => Some(sign_extend_byte(b)),
        Op::Sextw => Some(sign_extend_word(b)),
        Op::Cmpeq => Some(u64::from(a == b)),
        Op::Cmplt => Some(u64::from(quadword(a) < quadword(b))),
        Op::Cmple => Some(u64::from(quadword(a) <= quadword(b))),
        Op::Cmpult => Some(u64::from(a < b)),
        Op::Cmpule => Some(u64::from(a <= b)),
        Op::Cmpbge => Some(compare_bytes(a, b)),
        Op::And => Some(a & b),
        Op::Bis => Some(a | b),
        Op::Xor => Some(a ^ b),
        Op::Bic => Some(a & !b),
        Op::Ornot => Some(a | !b),
        Op::Eqv => Some(a ^ !b),
        Op::Amask => Some(b & !features(level)),
        Op::Implver => Some(implementation(level)),
        Op::Ctpop => Some(ones(b)),
        Op::Ctlz => Some(zeros_above(b)),
        Op::Cttz => Some(zeros_below(b)),
        Op::Cmovlbs => Some(cmov_result(Cond::Lbs, a, b, old)),
        Op::Cmovlbc => Some(cmov_result(Cond::Lbc, a, b, old)),
        Op::Cmoveq => Some(cmov_result(Cond::Eq, a, b, old)),
        Op::Cmovne => Some(cmov_result(Cond::Ne, a, b, old)),
        Op::Cmovlt => Some(cmov_result(Cond::Lt, a, b, old)),
        Op::Cmovle => Some(cmov_result(Cond::Le, a, b, old)),
        Op::Cmovge => Some(cmov_result(Cond::Ge, a, b, old)),
        Op::Cmovgt => Some(cmov_result(Cond::Gt, a, b, old)),
        Op::Sll => Some(shift_left(a, b)),
        Op::Srl => Some(shift_right(a, b)),
        Op::Sra => Some(shift_right_signed(a, b)),
        Op::Extbl => Some(extract_low(1, a, b)),
        Op::Extwl => Some(extract_low(2, a, b)),
        Op::Extll => Some(extract_low(4, a, b)),
        Op::Extql => Some(extract_low(8, a, b)),
        Op::Extwh => Some(extract_high(2, a, b)),
        Op::Extlh => Some(extract_high(4, a, b)),
        Op::Extqh => Some(extract_high(8, a, b)),
        Op::Insbl => Some(insert_low(1, a, b)),
        Op::Inswl => Some(insert_low(2, a, b)),
        Op::Insll => Some(insert_low(4, a, b)),
        Op::Insql => Some(insert_low(8, a, b)),
        Op::Inswh => Some(insert_high(2, a, b)),
        Op::Inslh => Some(insert_high(4, a, b)),
        Op::Insqh => Some(insert_high(8, a, b)),
        Op::Mskbl => Some(mask_low(1, a, b)),
        Op::Mskwl => Some(mask_low(2, a, b)),
        Op::Mskll => Some(mask_low(4, a, b)),
        Op::Mskql => Some(mask_low(8, a, b)),
        Op::Mskwh => Some(mask_high(2, a, b)),
        Op::Msklh => Some(mask_high(4, a, b)),
        Op::Mskqh => Some(mask_high(8, a, b)),
        Op::Zap => Some(zap(a, b)),
        Op::Zapnot => Some(zap_not(a, b)),
    }
}

/// What an operate instruction computes, and what completes it where it overflows.
#[derive(Clone, Copy, Debug, PartialEq, Eq)]
pub struct Computed {
    /// The value for its destination. A `/V` row gives the wrapped result.
    pub value: u64,
    /// Whether it has `/V`, and the exact result lies outside the signed range of its size.
    pub overflows: bool,
    /// The value that completes it: that for its destination, where it doesn't overflow.
    pub completed: u64,
}

/// The result of an operate instruction, whether it overflows, and the value that completes it, in one call:
/// what [`operate_at`], [`overflows`] and [`completed`] say (Architecture Handbook, sections 4.4 to 4.6 and 4.11).
/// `a` is Ra, `b` is Rb or the literal, and `old` is what the destination had.
pub fn compute(level: Level, op: Op, a: u64, b: u64, old: u64, completion: Completion) -> Computed
    ensures value { result.value ≡ result_of level op a b old }
    ensures overflows { result.overflows ≡ overflows_at op a b }
    ensures completed { (trap : _) → trap_of op ≡ Some trap
        → result.completed ≡ completed_of trap a b completion }
    ensures same { result.overflows ≡ false → result.completed ≡ result.value }
{
    laws_of_completion();
    let value = operate_at(level, op, a, b, old);
    match op.trap() {
        Some(trap) => Computed {
            value,
            overflows: overflows(trap, a, b),
            completed: completed(trap, a, b, completion),
        },
        None => Computed {
            value,
            overflows: false,
            completed: value,
        },
    }
}

// The exact result of a `/V` row, if it fits.
#[inline(always)]
fn exact_result(op: TrapOp, a: u64, b: u64) -> Option<u64>
    ensures { result ≡ (if overflow_of op a b then None else Some (completed_of op a b Completion.Wrap)) }
{
    if overflows(op, a, b) {
        return None;
    }
    Some(wrapped_result(op, a, b))
}

// The wrapped result of a `/V` row.
#[inline(never)]
fn wrapped_result_of(op: Op, a: u64, b: u64) -> u64
    ensures { (trap : _) → trap_of op ≡ Some trap → result ≡ completed_of trap a b Completion.Wrap }
{
    match op.trap() {
        Some(trap) => wrapped_result(trap, a, b),
        None => 0,
    }
}

// The exact result of a `/V` row as its size wraps it, which its row without `/V` gives too.
fn wrapped_result(op: TrapOp, a: u64, b: u64) -> u64
    ensures { result ≡ completed_of op a b Completion.Wrap }
{
    completed(op, a, b, Completion::Wrap)
}

// Rb where Ra meets the condition, else what the destination had.
fn cmov_result(c: Cond, a: u64, b: u64, old: u64) -> u64
    ensures { result ≡ (if is_taken c a then b else old) }
{
    if taken(c, a) { b } else { old }
}

// The features of an implementation, which AMASK clears: bit 0 for the byte and word instructions,
// bit 2 for the counts. It is rare, and never inlined where it would crowd the loop of a run.
#[inline(never)]
fn features(level: Level) -> u64
    ensures { result ≡ features level }
{
    match level {
        Level::One => 1,
        Level::Two => 5,
    }
}

// What IMPLVER answers: 1 for a 21164, 2 for a 21264.
#[inline(never)]
fn implementation(level: Level) -> u64
    ensures { result ≡ implementation level }
{
    match level {
        Level::One => 1,
        Level::Two => 2,
    }
}
