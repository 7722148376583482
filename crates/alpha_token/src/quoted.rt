ghost use Rattle.std.specs.Prelude.{◌≡◌, ◌≤◌, ◌<◌, ◌+◌, length, IfSome};
ghost use Rattle.std.specs.Option.{option_map};
ghost use Rattle.alpha_token.specs.Quoted.{is_printable, unescape, hex_pair, escape, byte_at, first_byte, is_closed};
ghost use Rattle.alpha_token.specs.Quoted.{quoted_len};

use crate::bytes::bytes_from;
use crate::numeral::digit_value;

fn is_printable(b: u8) -> bool
    ensures { result ≡ is_printable b }
{
    (b' '..=b'~').contains(&b)
}

// The byte that a letter stands for behind a backslash.
fn unescape(letter: u8) -> Option<u8>
    ensures { result ≡ unescape letter }
{
    match letter {
        b'n' => Some(b'\n'),
        b't' => Some(b'\t'),
        b'\\' => Some(b'\\'),
        b'"' => Some(b'"'),
        b'0' => Some(0),
        _ => None,
    }
}

// The byte that two hexadecimal digits stand for behind `\x`, and how many bytes follow the backslash.
fn hex_pair(digits: &[u8]) -> Option<(u8, usize)>
    ensures value { result ≡ hex_pair digits.now }
    ensures within { IfSome result (λ v. v.1 ≤ length digits.now + 1) }
{
    match digits {
        [high, low, ..] if high.is_ascii_hexdigit() && low.is_ascii_hexdigit() => {
            Some((16 * digit_value(*high) + digit_value(*low), 3))
        }
        _ => None,
    }
}

// The byte that an escape stands for, and how many bytes follow the backslash.
fn escape(behind_backslash: &[u8]) -> Option<(u8, usize)>
    ensures value { result ≡ escape behind_backslash.now }
    ensures within { IfSome result (λ v. v.1 ≤ length behind_backslash.now) }
{
    match behind_backslash {
        [] => None,
        [b'x', digits @ ..] => hex_pair(digits),
        [letter, ..] => unescape(*letter).map(|value| (value, 1)),
    }
}

// The byte that the text of a string stands for first, and how many bytes follow the first one for it.
#[tactic(auto, unfolding(crate::specs::Quoted::byte_at))]
fn byte_at(text: &[u8]) -> Option<(u8, usize)>
    ensures value { result ≡ byte_at text.now }
    ensures within { IfSome result (λ v. v.1 < length text.now) }
{
    match text {
        [] => None,
        [b'\\', rest @ ..] => escape(rest),
        [b, ..] if is_printable(*b) && *b != b'"' => Some((*b, 0)),
        _ => None,
    }
}

/// The first byte that the text of a string stands for, what stands between its quotes, and the
/// rest of the text. `None` exactly where the text is empty or begins neither with an escape nor
/// with a printable byte other than `\` and `"`.
pub fn next_byte(text: &[u8]) -> Option<(u8, &[u8])>
    ensures value { option_map (λ v. (v.0, v.1.now)) result ≡ first_byte text.now }
    ensures shorter { IfSome result (λ v. length v.1.now < length text.now) }
{
    let (value, more) = byte_at(text)?;
    Some((value, bytes_from(text, 1 + more)))
}

// Whether the closing quote stands at the front.
fn is_closed(text: &[u8]) -> bool
    ensures { result ≡ is_closed text.now }
{
    matches!(text, [b'"', ..])
}

// How many bytes stand before the closing quote, `None` where there is none.
pub(crate) fn quoted_len(text: &[u8]) -> Option<usize>
    ensures value { result ≡ quoted_len 0 text.now }
    ensures within { IfSome result (λ n. n < length text.now) }
{
    let mut rest = text;
    while !is_closed(rest) {
        let (_, more) = next_byte(rest)?;
        rest = more;
    }
    Some(text.len() - rest.len())
}
