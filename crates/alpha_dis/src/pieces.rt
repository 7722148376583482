//! Pieces of a line, put into the room behind a block's bytes.
//!
//! Each is copied in sizes that are known when the program is compiled, by a few loads and stores. What stands
//! behind the last byte that counts is never seen.

ghost use Rattle.std.specs.Prelude.{◌≡◌, ◌+◌, ◌*◌, ◌/◌, ◌%◌, ◌^◌, ◌<◌, ◌≤◌, [], ◌∷◌, ◌++◌, decimal, length, take};
ghost use Rattle.alpha_dis.specs.declared.block.TheConstants.{BLOCK_ROOM};
ghost use Rattle.alpha_dis.specs.Written.{before};

use crate::block::BLOCK_ROOM;

// The two digits of each number below 100.
static PAIRS: [u8; 200] = *b"\
    0001020304050607080910111213141516171819\
    2021222324252627282930313233343536373839\
    4041424344454647484950515253545556575859\
    6061626364656667686970717273747576777879\
    8081828384858687888990919293949596979899";

// Puts a piece at a place. Answers the place behind its first bytes, so many as count.
#[inline(always)]
#[tactic(auto, unfolding(crate::specs::Written::before))]
fn put_part(bytes: &mut [u8; BLOCK_ROOM], at: usize, piece: &[u8], count: usize) -> usize
    requires room { at + length piece.now ≤ BLOCK_ROOM }
    requires count { count ≤ length piece.now }
    ensures value { before result bytes.new ≡ before at bytes.old ++ take count piece.now }
    ensures place { result ≡ at + count }
{
    bytes[at..at + piece.len()].copy_from_slice(piece);
    at + count
}

/// Puts a piece at a place. Answers the place behind it.
#[inline(always)]
pub(crate) fn put(bytes: &mut [u8; BLOCK_ROOM], at: usize, piece: &[u8]) -> usize
    requires { at + length piece.now ≤ BLOCK_ROOM }
    ensures value { before result bytes.new ≡ before at bytes.old ++ piece.now }
    ensures place { result ≡ at + length piece.now }
{
    put_part(bytes, at, piece, piece.len())
}

/// Puts a name of 2 to 16 bytes.
#[inline(always)]
pub(crate) fn put_name(bytes: &mut [u8; BLOCK_ROOM], at: usize, name: &[u8]) -> usize
    requires room { at + length name.now ≤ BLOCK_ROOM }
    requires least { 2 ≤ length name.now }
    requires most { length name.now ≤ 16 }
    ensures value { before result bytes.new ≡ before at bytes.old ++ name.now }
    ensures place { result ≡ at + length name.now }
{
    if name.len() < 4 {
        put_ends(bytes, at, name, 2)
    } else if name.len() <= 8 {
        put_ends(bytes, at, name, 4)
    } else {
        put_ends(bytes, at, name, 8)
    }
}

// Puts bytes in two pieces of one size, of which the second may begin within the first.
#[inline(always)]
fn put_ends(bytes: &mut [u8; BLOCK_ROOM], at: usize, name: &[u8], size: usize) -> usize
    requires room { at + length name.now ≤ BLOCK_ROOM }
    requires least { size ≤ length name.now }
    requires most { length name.now ≤ 2 * size }
    ensures value { before result bytes.new ≡ before at bytes.old ++ name.now }
    ensures place { result ≡ at + length name.now }
{
    let more = name.len() - size;
    let next = put_part(bytes, at, &name[..size], more);
    put(bytes, next, &name[more..])
}

/// Puts the decimal digits of a number below 100.
#[inline(always)]
pub(crate) fn put_small(bytes: &mut [u8; BLOCK_ROOM], at: usize, number: u32) -> usize
    requires room { at + 2 ≤ BLOCK_ROOM }
    requires small { number < 100 }
    ensures value { before result bytes.new ≡ before at bytes.old ++ decimal number }
    ensures place { result ≤ at + 2 }
{
    if number < 10 {
        put(bytes, at, &[b'0' + number as u8])
    } else {
        put_pair(bytes, at, number)
    }
}

// Puts the two digits of a number below 100.
#[inline(always)]
fn put_pair(bytes: &mut [u8; BLOCK_ROOM], at: usize, number: u32) -> usize
    requires room { at + 2 ≤ BLOCK_ROOM }
    requires small { number < 100 }
    ensures value { before result bytes.new
        ≡ before at bytes.old ++ (48 + number / 10) ∷ (48 + number % 10) ∷ [] }
    ensures place { result ≡ at + 2 }
{
    let from = 2 * number as usize;
    put(bytes, at, &[PAIRS[from], PAIRS[from + 1]])
}

/// Puts the decimal digits of a number of at most eight.
#[inline(always)]
pub(crate) fn put_number(bytes: &mut [u8; BLOCK_ROOM], at: usize, number: u32) -> usize
    requires room { at + 8 ≤ BLOCK_ROOM }
    requires small { number < 10 ^ 8 }
    ensures value { before result bytes.new ≡ before at bytes.old ++ decimal number }
    ensures place { result ≤ at + 8 }
{
    if number < 100 {
        put_small(bytes, at, number)
    } else {
        put_large(bytes, at, number)
    }
}

// Puts the digits of a number of three to eight.
fn put_large(bytes: &mut [u8; BLOCK_ROOM], at: usize, number: u32) -> usize
    requires room { at + 8 ≤ BLOCK_ROOM }
    requires large { 100 ≤ number }
    requires small { number < 10 ^ 8 }
    ensures value { before result bytes.new ≡ before at bytes.old ++ decimal number }
    ensures place { result ≤ at + 8 }
{
    if number < 10_000 {
        put_hundreds(bytes, at, number)
    } else {
        let front = number / 10_000;
        let next = if front < 100 {
            put_small(bytes, at, front)
        } else {
            put_hundreds(bytes, at, front)
        };
        let next = put_pair(bytes, next, number / 100 % 100);
        put_pair(bytes, next, number % 100)
    }
}

// Puts the digits of a number of three or four.
#[inline(always)]
fn put_hundreds(bytes: &mut [u8; BLOCK_ROOM], at: usize, number: u32) -> usize
    requires room { at + 4 ≤ BLOCK_ROOM }
    requires large { 100 ≤ number }
    requires small { number < 10_000 }
    ensures value { before result bytes.new ≡ before at bytes.old ++ decimal number }
    ensures place { result ≤ at + 4 }
{
    let next = put_small(bytes, at, number / 100);
    put_pair(bytes, next, number % 100)
}
