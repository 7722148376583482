//! Little-endian numbers of two bytes; those of four are read and written by `alpha_image`.

ghost use Rattle.std.specs.Prelude.{◌≡◌, ◌+◌, ◌≤◌, ◌++◌, length, OnOk};
ghost use Rattle.alpha_link.specs.Bytes.{halfword, halfword_at};

use byteorder::{ByteOrder, LittleEndian};
use std::alloc::AllocError;

/// The number in the two bytes at an offset.
#[tactic(auto, unfolding(crate::specs::Bytes::halfword_at))]
pub(crate) fn halfword_at(bytes: &[u8], offset: usize) -> u16
    requires { offset + 2 ≤ length bytes.now }
    ensures value { result ≡ halfword_at offset bytes.now }
{
    LittleEndian::read_u16(&bytes[offset..])
}

/// Appends the two bytes of a number.
#[tactic(auto, unfolding(crate::specs::Bytes::halfword))]
pub(crate) fn push_halfword(out: &mut Vec<u8>, number: u16) -> Result<(), AllocError>
    ensures ok { OnOk result (out.new.items ≡ out.old.items ++ halfword number) }
{
    let mut bytes = [0; 2];
    LittleEndian::write_u16(&mut bytes, number);
    out.extend_from_slice(&bytes)
}
