ghost use Rattle.std.specs.Prelude.{◌≡◌, ◌≤◌, length};
ghost use Rattle.alpha_words.specs.Digits.{little};

/// The number whose bytes these are, at most eight, the lowest first (Architecture Handbook,
/// section 2.1).
#[inline(always)]
pub fn number_of(bytes: &[u8]) -> u64
    requires { length bytes.now ≤ 8 }
    ensures { result ≡ little bytes.now }
{
    match *bytes {
        [a] => u64::from(a),
        [a, b] => u64::from(u16::from_le_bytes([a, b])),
        [a, b, c, d] => u64::from(u32::from_le_bytes([a, b, c, d])),
        [a, b, c, d, e, f, g, h] => u64::from_le_bytes([a, b, c, d, e, f, g, h]),
        _ => number_of_odd_length(bytes),
    }
}

// The number that bytes are of which no integer type has so many: 0, 3, 5, 6 or 7.
fn number_of_odd_length(bytes: &[u8]) -> u64
    requires { length bytes.now ≤ 8 }
    ensures { result ≡ little bytes.now }
{
    let mut whole = [0; 8];
    whole[..bytes.len()].copy_from_slice(bytes);
    u64::from_le_bytes(whole)
}
