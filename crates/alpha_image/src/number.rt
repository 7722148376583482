//! Little-endian numbers, in images and in the other files that consist of such fields.

ghost use Rattle.std.specs.Prelude.{◌≡◌, ◌+◌, ◌≤◌, ◌++◌, length, OnOk};
ghost use Rattle.alpha_image.specs.Layout.{quadword, longword};
ghost use Rattle.alpha_image.specs.Reading.{quadword_at, longword_at};

use byteorder::{ByteOrder, LittleEndian};
use std::alloc::AllocError;

/// The number in the eight bytes at an offset.
#[tactic(auto, unfolding(crate::specs::Reading::quadword_at))]
pub fn quadword_at(bytes: &[u8], offset: usize) -> u64
    requires { offset + 8 ≤ length bytes.now }
    ensures value { result ≡ quadword_at offset bytes.now }
{
    LittleEndian::read_u64(&bytes[offset..])
}

/// The number in the four bytes at an offset.
#[tactic(auto, unfolding(crate::specs::Reading::longword_at))]
pub fn longword_at(bytes: &[u8], offset: usize) -> u32
    requires { offset + 4 ≤ length bytes.now }
    ensures value { result ≡ longword_at offset bytes.now }
{
    LittleEndian::read_u32(&bytes[offset..])
}

/// Appends the eight bytes of a number. Where memory runs out nothing is said of `out`.
#[tactic(auto, unfolding(crate::specs::Layout::quadword))]
pub fn push_quadword(out: &mut Vec<u8>, number: u64) -> Result<(), AllocError>
    ensures ok { OnOk result (out.new.items ≡ out.old.items ++ quadword number) }
{
    let mut bytes = [0; 8];
    LittleEndian::write_u64(&mut bytes, number);
    out.extend_from_slice(&bytes)
}

/// Appends the four bytes of a number. Where memory runs out nothing is said of `out`.
#[tactic(auto, unfolding(crate::specs::Layout::longword))]
pub fn push_longword(out: &mut Vec<u8>, number: u32) -> Result<(), AllocError>
    ensures ok { OnOk result (out.new.items ≡ out.old.items ++ longword number) }
{
    let mut bytes = [0; 4];
    LittleEndian::write_u32(&mut bytes, number);
    out.extend_from_slice(&bytes)
}
