ghost use Rattle.std.specs.Prelude.{◌≡◌, ◌*◌, ◌/◌};
ghost use Rattle.alpha_values.specs.Address.{address_of, high_address_of, access_address};

use alpha_table::MemAccess;

/// The base plus the displacement in bytes, modulo 2^64 (Architecture Handbook, section 4.2).
pub fn address(base: u64, disp: i16) -> u64
    ensures { result ≡ address_of base disp }
{
    base.wrapping_add_signed(i64::from(disp))
}

/// The base plus 65,536 times the displacement, modulo 2^64, as LDAH has it (Architecture Handbook,
/// section 4.2).
pub fn high_address(base: u64, disp: i16) -> u64
    ensures { result ≡ high_address_of base disp }
{
    base.wrapping_add_signed(i64::from(disp) * 0x1_0000)
}

/// The address of an access whose base register has this value, with the three low bits cleared for
/// LDQ_U and STQ_U (Architecture Handbook, section 4.2).
#[tactic(auto, unfolding(crate::specs::Address::access_address))]
pub fn access_address(access: &MemAccess, base: u64) -> u64
    ensures { result ≡ access_address access.now base }
{
    let MemAccess { disp, clears, .. } = *access;
    let at = address(base, disp);
    if clears { clear_low_bits(at) } else { at }
}

// The number with its three low bits cleared.
fn clear_low_bits(at: u64) -> u64
    ensures { result ≡ at / 8 * 8 }
{
    at >> 3 << 3
}
