//! Hexadecimal digits.

ghost use Rattle.std.specs.Prelude.{◌≡◌, ◌+◌, ◌<◌, ◌≤◌, ◌++◌, false, drop, length};
ghost use Rattle.std.specs.Fmt.{digits, digit_glyph};
ghost use Rattle.alpha_dis.specs.declared.block.TheConstants.{BLOCK_ROOM};
ghost use Rattle.alpha_dis.specs.Listing.{hexadecimal};

use crate::block::Block;

/// Appends `0x` and a number's hexadecimal digits in lower case, without leading zeros: at most 18 bytes.
#[tactic(auto, unfolding(crate::specs::Listing::hexadecimal))]
pub(crate) fn push_hexadecimal(block: &mut Block, number: u64)
    requires { length block.old + 18 ≤ BLOCK_ROOM }
    ensures state { block.new ≡ block.old ++ hexadecimal number }
    ensures size { length block.new ≤ length block.old + 18 }
{
    let mut digits = [b'0'; 16];
    let first = write_digits(number, &mut digits);
    block.push(b"0x");
    block.push(&digits[first..]);
}

// Leaves a number's hexadecimal digits at the end of the array, and answers where they begin.
fn write_digits(number: u64, out: &mut [u8; 16]) -> usize
    ensures bound { result ≤ 16 }
    ensures value { drop result out.new ≡ digits 16 false number }
{
    let mut at = 15;
    let mut rest = number;
    out[15] = digit(rest % 16);
    while rest >= 16 {
        rest /= 16;
        at -= 1;
        out[at] = digit(rest % 16);
    }
    at
}

// The lower-case digit of a number below 16.
fn digit(number: u64) -> u8
    requires { number < 16 }
    ensures { result ≡ digit_glyph false number }
{
    if number < 10 {
        b'0' + number as u8
    } else {
        b'a' + (number - 10) as u8
    }
}
