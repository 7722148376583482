ghost use Rattle.std.specs.Prelude.{◌≡◌, ◌+ℤ◌, ◌-ℤ◌, ◌*ℤ◌, ◌*◌, ◌/◌, ◌^◌};
ghost use Rattle.std.specs.Int.{w8, w16, w32, w64};
ghost use Rattle.alpha_values.specs.Numbers.{signed, register_of, wrapped};

use crate::number::{longword, quadword, register};

/// The longword Ra times the scale, plus the longword Rb.
pub(crate) fn scaled_long_sum(scale: i32, a: u64, b: u64) -> u64
    ensures { result ≡ wrapped w32 (signed w32 a *ℤ scale +ℤ signed w32 b) }
{
    let scaled = longword(a).wrapping_mul(scale);
    register(i64::from(scaled.wrapping_add(longword(b))))
}

/// The longword Ra times the scale, less the longword Rb.
pub(crate) fn scaled_long_difference(scale: i32, a: u64, b: u64) -> u64
    ensures { result ≡ wrapped w32 (signed w32 a *ℤ scale -ℤ signed w32 b) }
{
    let scaled = longword(a).wrapping_mul(scale);
    register(i64::from(scaled.wrapping_sub(longword(b))))
}

/// Ra times the scale, plus Rb.
pub(crate) fn scaled_sum(scale: i64, a: u64, b: u64) -> u64
    ensures { result ≡ wrapped w64 (signed w64 a *ℤ scale +ℤ signed w64 b) }
{
    let scaled = quadword(a).wrapping_mul(scale);
    register(scaled.wrapping_add(quadword(b)))
}

/// Ra times the scale, less Rb.
pub(crate) fn scaled_difference(scale: i64, a: u64, b: u64) -> u64
    ensures { result ≡ wrapped w64 (signed w64 a *ℤ scale -ℤ signed w64 b) }
{
    let scaled = quadword(a).wrapping_mul(scale);
    register(scaled.wrapping_sub(quadword(b)))
}

/// The high half of the unsigned product.
pub(crate) fn high_product(a: u64, b: u64) -> u64
    ensures { result ≡ a * b / 2 ^ 64 }
{
    (u128::from(a) * u128::from(b) >> 64) as u64
}

/// The low byte, as a signed number.
pub(crate) fn sign_extend_byte(b: u64) -> u64
    ensures { result ≡ register_of (signed w8 b) }
{
    register(i64::from(((b & 0xff) as u8).cast_signed()))
}

/// The low word of 16 bits, as a signed number.
pub(crate) fn sign_extend_word(b: u64) -> u64
    ensures { result ≡ register_of (signed w16 b) }
{
    register(i64::from(((b & 0xffff) as u16).cast_signed()))
}
