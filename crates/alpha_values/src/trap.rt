ghost use Rattle.std.specs.Prelude.{◌≡◌};
ghost use Rattle.std.specs.Int.{int_wrap, saturate_signed};
ghost use Rattle.alpha_values.specs.TrapOp.{size_of, exact, overflow_of, completed_of};

use crate::number::{longword, quadword, register};
use alpha_table::TrapOp;
use alpha_words::Completion;

/// Whether the exact result of Ra and Rb lies outside the signed range of the operation's size, 32
/// bits for a longword and 64 for a quadword (Architecture Handbook, section 4.4). A longword
/// operation uses the low 32 bits of both.
#[tactic(auto, using(crate::proofs::SignedRanges::overflow_out_of_range), unfolding(crate::specs::TrapOp::overflow_of))]
#[inline(always)]
pub fn overflows(op: TrapOp, a: u64, b: u64) -> bool
    ensures { result ≡ overflow_of op a b }
{
    match op {
        TrapOp::AddlV => longword(a).overflowing_add(longword(b)).1,
        TrapOp::SublV => longword(a).overflowing_sub(longword(b)).1,
        TrapOp::MullV => longword(a).overflowing_mul(longword(b)).1,
        TrapOp::AddqV => quadword(a).overflowing_add(quadword(b)).1,
        TrapOp::SubqV => quadword(a).overflowing_sub(quadword(b)).1,
        TrapOp::MulqV => quadword(a).overflowing_mul(quadword(b)).1,
    }
}

/// The value that completes the instruction, from Ra and Rb: the exact result where it lies in the
/// signed range of the size, else by wrap the number of the range that is congruent to it
/// (Architecture Handbook, section 4.4), and by saturate the nearest bound. Stop has the value of
/// wrap, since the instruction completes by it where nothing overflows.
#[tactic(auto, unfolding(crate::specs::TrapOp::completed_of))]
pub fn completed(op: TrapOp, a: u64, b: u64, completion: Completion) -> u64
    ensures { result ≡ completed_of op a b completion }
{
    register(match completion {
        Completion::Wrap | Completion::Stop => wrap(op, a, b),
        Completion::Saturate => saturate(op, a, b),
    })
}

// The number of the size's signed range that is congruent to the exact result.
fn wrap(op: TrapOp, a: u64, b: u64) -> i64
    ensures { result ≡ int_wrap (size_of op) (exact op a b) }
{
    match op {
        TrapOp::AddlV => i64::from(longword(a).wrapping_add(longword(b))),
        TrapOp::SublV => i64::from(longword(a).wrapping_sub(longword(b))),
        TrapOp::MullV => i64::from(longword(a).wrapping_mul(longword(b))),
        TrapOp::AddqV => quadword(a).wrapping_add(quadword(b)),
        TrapOp::SubqV => quadword(a).wrapping_sub(quadword(b)),
        TrapOp::MulqV => quadword(a).wrapping_mul(quadword(b)),
    }
}

// The number of the size's signed range that is nearest to the exact result.
fn saturate(op: TrapOp, a: u64, b: u64) -> i64
    ensures { result ≡ saturate_signed (size_of op) (exact op a b) }
{
    match op {
        TrapOp::AddlV => i64::from(longword(a).saturating_add(longword(b))),
        TrapOp::SublV => i64::from(longword(a).saturating_sub(longword(b))),
        TrapOp::MullV => i64::from(longword(a).saturating_mul(longword(b))),
        TrapOp::AddqV => quadword(a).saturating_add(quadword(b)),
        TrapOp::SubqV => quadword(a).saturating_sub(quadword(b)),
        TrapOp::MulqV => quadword(a).saturating_mul(quadword(b)),
    }
}
