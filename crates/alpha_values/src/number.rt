ghost use Rattle.std.specs.Prelude.{◌≡◌};
ghost use Rattle.std.specs.Int.{w32, w64};
ghost use Rattle.alpha_values.specs.Numbers.{signed, register_of};

/// The signed number in the low 32 bits.
pub(crate) fn longword(register: u64) -> i32
    ensures { result ≡ signed w32 register }
{
    ((register & 0xffff_ffff) as u32).cast_signed()
}

/// The signed number in all 64 bits.
pub(crate) fn quadword(register: u64) -> i64
    ensures { result ≡ signed w64 register }
{
    register.cast_signed()
}

/// The register that holds a number.
pub(crate) fn register(number: i64) -> u64
    ensures { result ≡ register_of number }
{
    number.cast_unsigned()
}
