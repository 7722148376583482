ghost use Rattle.std.specs.Prelude.{◌≡◌, ◌≤◌, ◌<◌, ◌+◌, ◌*◌, ◌^◌, length, MatchOption, SomeIff};
ghost use Rattle.std.specs.Char.{digit_value};
ghost use Rattle.std.specs.Str.Parse.{digits_value};
ghost use Rattle.alpha_token.specs.Numeral.{hex_len, number_more, number_value};

use crate::bytes::{bytes_from, digits_len, hex_digits_len};

// How many hexadecimal digits there are behind `0x`, where `first` is the byte before `rest`.
fn hex_len(first: u8, rest: &[u8]) -> usize
    ensures value { result ≡ hex_len first rest.now }
    ensures within { 0 < result → result + 1 ≤ length rest.now }
{
    match rest {
        [second, digits @ ..] if first == b'0' && *second == b'x' => hex_digits_len(digits),
        _ => 0,
    }
}

// How many further bytes the number has that begins with the digit `first`.
pub(crate) fn number_more(first: u8, rest: &[u8]) -> usize
    ensures value { result ≡ number_more first rest.now }
    ensures within { result ≤ length rest.now }
{
    let digits = hex_len(first, rest);
    if digits == 0 {
        digits_len(rest)
    } else {
        1 + digits
    }
}

// The value of a digit of a radix up to 36, and 36 for other bytes.
pub(crate) fn digit_value(digit: u8) -> u8
    ensures value { result ≡ digit_value digit }
    ensures bound { result ≤ 36 }
{
    match digit {
        b'0'..=b'9' => digit - b'0',
        b'A'..=b'Z' => digit - b'A' + 10,
        b'a'..=b'z' => digit - b'a' + 10,
        _ => 36,
    }
}

// A number with a further digit behind it, `None` exactly from 2^64 on.
fn with_digit(n: u64, radix: u64, digit: u8) -> Option<u64>
    ensures { SomeIff result (n * radix + digit_value digit < 2 ^ 64)
        (n * radix + digit_value digit) }
{
    n.checked_mul(radix)?
        .checked_add(u64::from(digit_value(digit)))
}

// The number that digits stand for, `None` exactly from 2^64 on.
fn digits_value(radix: u64, digits: &[u8]) -> Option<u64>
    requires { 1 ≤ radix }
    ensures { MatchOption result (2 ^ 64 ≤ digits_value radix digits.now)
        (λ n. n ≡ digits_value radix digits.now) }
{
    let mut n: u64 = 0;
    for digit in digits {
        n = with_digit(n, radix, *digit)?;
    }
    Some(n)
}

/// The number that a number's text stands for, `None` exactly from 2^64 on.
pub fn number(text: &[u8]) -> Option<u64>
    ensures { MatchOption result (2 ^ 64 ≤ number_value text.now) (λ n. n ≡ number_value text.now) }
{
    match text {
        [] => Some(0),
        [first, rest @ ..] => {
            if hex_len(*first, rest) == 0 {
                digits_value(10, text)
            } else {
                digits_value(16, bytes_from(rest, 1))
            }
        }
    }
}
