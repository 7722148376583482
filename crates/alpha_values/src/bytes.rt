ghost use Rattle.std.specs.Prelude.{◌≡◌, ◌*◌, ◌/◌, ◌%◌, ◌^◌, ◌<◌, ◌≤◌, ◌==◌, nat_le, if◌then◌else◌};
ghost use Rattle.alpha_values.specs.Op.{complement, extracted_low, extracted_high, inserted, byte_mask, zapped};
ghost use Rattle.alpha_values.specs.Op.{bytes_compared};

/// EXTxL: the bytes of Ra from Rb's place on, as many as the size has (Architecture Handbook,
/// section 4.6, as all of this file). A size is in bytes.
pub(crate) fn extract_low(size: u32, a: u64, b: u64) -> u64
    requires some { 0 < size }
    requires most { size ≤ 8 }
    ensures { result ≡ extracted_low size a b }
{
    low_bytes(a >> (8 * place(b)), size)
}

/// EXTxH: the low bytes of Ra moved up by as many places as are left above Rb's.
pub(crate) fn extract_high(size: u32, a: u64, b: u64) -> u64
    requires some { 0 < size }
    requires most { size ≤ 8 }
    ensures { result ≡ extracted_high size a b }
{
    let up = (8 - place(b)) % 8;
    low_bytes(a << (8 * up), size)
}

/// INSxL: the low quadword of the low bytes of Ra that are shifted to Rb's place.
pub(crate) fn insert_low(size: u32, a: u64, b: u64) -> u64
    requires some { 0 < size }
    requires most { size ≤ 8 }
    ensures { result ≡ inserted size a b % 2 ^ 64 }
{
    (place_bytes(size, a, b) & u128::from(u64::MAX)) as u64
}

/// INSxH: the high quadword of the low bytes of Ra that are shifted to Rb's place.
pub(crate) fn insert_high(size: u32, a: u64, b: u64) -> u64
    requires some { 0 < size }
    requires most { size ≤ 8 }
    ensures { result ≡ inserted size a b / 2 ^ 64 }
{
    (place_bytes(size, a, b) >> 64) as u64
}

/// MSKxL: as many bytes as the size has, from Rb's place on, are cleared.
pub(crate) fn mask_low(size: u32, a: u64, b: u64) -> u64
    requires some { 0 < size }
    requires most { size ≤ 8 }
    ensures { result ≡ zapped a (byte_mask size b) }
{
    clear(a, byte_mask(size, b))
}

/// MSKxH: of as many bytes as the size has, from Rb's place on, those past the eighth are cleared
/// from the first on.
pub(crate) fn mask_high(size: u32, a: u64, b: u64) -> u64
    requires some { 0 < size }
    requires most { size ≤ 8 }
    ensures { result ≡ zapped a (byte_mask size b / 2 ^ 8) }
{
    clear(a, byte_mask(size, b) >> 8)
}

/// ZAP: the bytes that Rb marks are cleared.
pub(crate) fn zap(a: u64, b: u64) -> u64
    ensures { result ≡ zapped a b }
{
    clear(a, b)
}

/// ZAPNOT: the bytes that Rb doesn't mark are cleared.
pub(crate) fn zap_not(a: u64, b: u64) -> u64
    ensures { result ≡ zapped a (complement b) }
{
    clear(a, !b)
}

/// CMPBGE: for each byte of Ra whether it is at least that of Rb.
pub(crate) fn compare_bytes(a: u64, b: u64) -> u64
    ensures { result ≡ bytes_compared a b }
{
    let mut answers = 0;
    for k in (0..8).rev() {
        answers = answers << 1 | at_least(a, b, k);
    }
    answers
}

// 1 where the byte of Ra at a place is at least that of Rb, else 0.
fn at_least(a: u64, b: u64, k: u32) -> u64
    requires { k < 8 }
    ensures answer { result
        ≡ (if nat_le (b / 2 ^ (8 * k) % 256) (a / 2 ^ (8 * k) % 256) then 1 else 0) }
    ensures bit { result < 2 }
{
    u64::from(byte(b, k) <= byte(a, k))
}

// Clears the bytes that the low eight bits mark.
fn clear(a: u64, marks: u64) -> u64
    ensures { result ≡ zapped a marks }
{
    let mut left = 0;
    for k in (0..8).rev() {
        left = left << 8 | byte_left(a, marks, k);
    }
    left
}

// The byte at a place, or 0 where it is marked.
fn byte_left(a: u64, marks: u64, k: u32) -> u64
    requires { k < 8 }
    ensures left { result ≡ (if marks / 2 ^ k % 2 == 1 then 0 else a / 2 ^ (8 * k) % 256) }
    ensures byte { result < 256 }
{
    if marks >> k & 1 == 1 { 0 } else { byte(a, k) }
}

// The byte at a place.
fn byte(a: u64, k: u32) -> u64
    requires { k < 8 }
    ensures { result ≡ a / 2 ^ (8 * k) % 256 }
{
    a >> (8 * k) & 0xff
}

// The place that a register gives.
fn place(b: u64) -> u32
    ensures { result ≡ b % 8 }
{
    (b & 7) as u32
}

// The lowest bytes, as many as the size has.
fn low_bytes(a: u64, size: u32) -> u64
    requires some { 0 < size }
    requires most { size ≤ 8 }
    ensures { result ≡ a % 2 ^ (8 * size) }
{
    a & u64::MAX >> (64 - 8 * size)
}

// The low bytes of Ra at Rb's place.
fn place_bytes(size: u32, a: u64, b: u64) -> u128
    requires some { 0 < size }
    requires most { size ≤ 8 }
    ensures { result ≡ inserted size a b }
{
    u128::from(low_bytes(a, size)) << (8 * place(b))
}

// A bit for each of the sixteen bytes, 1 at as many as the size has from Rb's place on.
fn byte_mask(size: u32, b: u64) -> u64
    requires some { 0 < size }
    requires most { size ≤ 8 }
    ensures { result ≡ byte_mask size b }
{
    ((1 << size) - 1) << place(b)
}
