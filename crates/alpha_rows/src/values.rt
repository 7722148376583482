//! What operate instructions leave.

ghost use Rattle.std.specs.Prelude.{◌≡◌, ◌*◌, ◌/◌, ◌%◌, ◌^◌, ◌+ℤ◌, ◌-ℤ◌, ◌*ℤ◌, if◌then◌else◌, Some, None};
ghost use Rattle.std.specs.Int.{w8, w16, w32, w64, int_shr};
ghost use Rattle.alpha_values.specs.Cond.{is_taken};
ghost use Rattle.alpha_values.specs.Op.{result_of};
ghost use Rattle.alpha_words.specs.declared.Level.TheVariants.{One};
ghost use Rattle.alpha_values.specs.Numbers.{signed, register_of, wrapped};
ghost use Rattle.alpha_values.specs.TrapOp.{overflow_of, completed_of};

use alpha_table::{Cond, Op, TrapOp};
use alpha_values::{completed, operate, overflows, taken};
use alpha_words::Completion;

#[inline(always)]
pub(crate) fn exact_result(op: TrapOp, a: u64, b: u64) -> Option<u64>
    ensures { result ≡ (if overflow_of op a b then None else Some (completed_of op a b Completion.Wrap)) }
{
    if overflows(op, a, b) {
        return None;
    }
    Some(wrapped_result(op, a, b))
}

#[inline(always)]
pub(crate) fn wrapped_result(op: TrapOp, a: u64, b: u64) -> u64
    ensures { result ≡ completed_of op a b Completion.Wrap }
{
    completed(op, a, b, Completion::Wrap)
}

// An operate instruction that is rare, behind a call.
#[inline(never)]
pub(crate) fn rare_result(op: Op, a: u64, b: u64) -> u64
    ensures { result ≡ result_of One op a b 0 }
{
    operate(op, a, b, 0)
}

#[inline(always)]
pub(crate) fn cmov_result(c: Cond, a: u64, b: u64, old: u64) -> u64
    ensures { result ≡ (if is_taken c a then b else old) }
{
    if taken(c, a) { b } else { old }
}

#[inline(always)]
pub(crate) fn scaled_long_sum(scale: i32, a: u64, b: u64) -> u64
    ensures { result ≡ wrapped w32 (signed w32 a *ℤ scale +ℤ signed w32 b) }
{
    let scaled = longword(a).wrapping_mul(scale);
    register(i64::from(scaled.wrapping_add(longword(b))))
}

#[inline(always)]
pub(crate) fn scaled_long_difference(scale: i32, a: u64, b: u64) -> u64
    ensures { result ≡ wrapped w32 (signed w32 a *ℤ scale -ℤ signed w32 b) }
{
    let scaled = longword(a).wrapping_mul(scale);
    register(i64::from(scaled.wrapping_sub(longword(b))))
}

#[inline(always)]
pub(crate) fn scaled_difference(scale: i64, a: u64, b: u64) -> u64
    ensures { result ≡ wrapped w64 (signed w64 a *ℤ scale -ℤ signed w64 b) }
{
    let scaled = quadword(a).wrapping_mul(scale);
    register(scaled.wrapping_sub(quadword(b)))
}

#[inline(always)]
pub(crate) fn high_product(a: u64, b: u64) -> u64
    ensures { result ≡ a * b / 2 ^ 64 }
{
    (u128::from(a) * u128::from(b) >> 64) as u64
}

#[inline(always)]
pub(crate) fn sign_extend_byte(b: u64) -> u64
    ensures { result ≡ register_of (signed w8 b) }
{
    register(i64::from(((b & 0xff) as u8).cast_signed()))
}

#[inline(always)]
pub(crate) fn sign_extend_word(b: u64) -> u64
    ensures { result ≡ register_of (signed w16 b) }
{
    register(i64::from(((b & 0xffff) as u16).cast_signed()))
}

#[inline(always)]
fn longword(register: u64) -> i32
    ensures { result ≡ signed w32 register }
{
    ((register & 0xffff_ffff) as u32).cast_signed()
}

#[inline(always)]
pub(crate) fn scaled_sum(scale: i64, a: u64, b: u64) -> u64
    ensures { result ≡ wrapped w64 (signed w64 a *ℤ scale +ℤ signed w64 b) }
{
    let scaled = quadword(a).wrapping_mul(scale);
    register(scaled.wrapping_add(quadword(b)))
}

#[inline(always)]
pub(crate) fn quadword(register: u64) -> i64
    ensures { result ≡ signed w64 register }
{
    register.cast_signed()
}

#[inline(always)]
fn register(number: i64) -> u64
    ensures { result ≡ register_of number }
{
    number.cast_unsigned()
}

#[inline(always)]
pub(crate) fn shift_left(a: u64, b: u64) -> u64
    ensures { result ≡ a * 2 ^ (b % 64) % 2 ^ 64 }
{
    a << (b & 63)
}

#[inline(always)]
pub(crate) fn shift_right(a: u64, b: u64) -> u64
    ensures { result ≡ a / 2 ^ (b % 64) }
{
    a >> (b & 63)
}

#[inline(always)]
pub(crate) fn shift_right_signed(a: u64, b: u64) -> u64
    ensures { result ≡ register_of (int_shr (signed w64 a) (b % 64)) }
{
    register(quadword(a) >> (b & 63))
}
