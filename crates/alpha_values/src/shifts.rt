ghost use Rattle.std.specs.Prelude.{◌≡◌, ◌*◌, ◌/◌, ◌%◌, ◌^◌};
ghost use Rattle.std.specs.Int.{w64, int_shr};
ghost use Rattle.alpha_values.specs.Numbers.{signed, register_of};

use crate::number::{quadword, register};

/// Ra shifted left by Rb modulo 64.
pub(crate) fn shift_left(a: u64, b: u64) -> u64
    ensures { result ≡ a * 2 ^ (b % 64) % 2 ^ 64 }
{
    a << (b & 63)
}

/// Ra shifted right by Rb modulo 64, with zeros shifted in.
pub(crate) fn shift_right(a: u64, b: u64) -> u64
    ensures { result ≡ a / 2 ^ (b % 64) }
{
    a >> (b & 63)
}

/// Ra shifted right by Rb modulo 64, with the sign shifted in.
pub(crate) fn shift_right_signed(a: u64, b: u64) -> u64
    ensures { result ≡ register_of (int_shr (signed w64 a) (b % 64)) }
{
    register(quadword(a) >> (b & 63))
}
