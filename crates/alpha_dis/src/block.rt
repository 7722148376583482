//! A block of bytes on their way to a sink.

ghost use Rattle.std.specs.Prelude.{◌≡◌, ◌+◌, ◌≤◌, [], ◌∷◌, ◌++◌, length, decimal, OnOk, OnErr};
ghost use Rattle.alpha_io.specs.SinkChange.{sink_change, Puts};
ghost use Rattle.alpha_text.specs.Canon.{canon};
ghost use Rattle.alpha_dis.specs.Listing.{ended};
ghost use Rattle.alpha_dis.specs.SinkEffect.{Takes, SinkFails};

use crate::code::put_code;
use alpha_io::{Failed, Sink, write_whole};
use alpha_table::Insn;
use itoa::Buffer;
use std::marker::Model;

/// How many bytes a [`Block`] holds at most.
pub(crate) const BLOCK_ROOM: usize = 16_384;

/// The room that [`Block::make_room`] makes at least.
pub(crate) const ROOM: usize = 160;

/// Bytes that were not put yet. A clause sees them. It takes no memory.
#[derive(Drop)]
pub(crate) struct Block {
    bytes: [u8; BLOCK_ROOM],
    len: usize,
}

impl Model for Block {
    ghost use Rattle.std.specs.Prelude.{◌≡◌, ◌≤◌, List, ℕ, length, take};
    ghost use Rattle.alpha_dis.specs.declared.block.TheConstants.{BLOCK_ROOM};

    ghost Value = { List ℕ };

    ghost view = { λ b. take b.len b.bytes };

    ghost invariant = { λ b. (b.len ≤ BLOCK_ROOM) × (length b.bytes ≡ BLOCK_ROOM) };
}

impl Block {
    /// The empty block.
    pub fn new() -> Block
        ensures { result ≡ [] }
    {
        Block {
            bytes: [0; BLOCK_ROOM],
            len: 0,
        }
    }

    /// Puts all bytes, without which the block is empty.
    pub fn flush<K: Sink>(&mut self, out: &mut K) -> Result<(), Failed>
        ensures ok { OnOk result (Puts (sink_change K.Sink out.old out.new) self.old) }
        ensures empty { OnOk result (self.new ≡ []) }
        ensures refused { OnErr result (SinkFails (sink_change K.Sink out.old out.new) self.old) }
    {
        write_whole(out, &self.bytes[..self.len])?;
        self.len = 0;
        Ok(())
    }

    /// Puts all bytes where the block has less room than [`ROOM`].
    pub fn make_room<K: Sink>(&mut self, out: &mut K) -> Result<(), Failed>
        ensures ok { OnOk result
            (Takes (sink_change K.Sink out.old out.new) self.old self.new []) }
        ensures room { OnOk result (length self.new + ROOM ≤ BLOCK_ROOM) }
        ensures refused { OnErr result (SinkFails (sink_change K.Sink out.old out.new) self.old) }
    {
        if self.len + ROOM <= BLOCK_ROOM {
            Ok(())
        } else {
            self.flush(out)
        }
    }

    /// Appends bytes.
    pub fn push(&mut self, bytes: &[u8])
        requires { length self.old + length bytes.now ≤ BLOCK_ROOM }
        ensures { self.new ≡ self.old ++ bytes.now }
    {
        let end = self.len + bytes.len();
        self.bytes[self.len..end].copy_from_slice(bytes);
        self.len = end;
    }

    /// Appends a number's decimal digits, at most 20.
    pub fn push_decimal(&mut self, number: u64)
        requires { length self.old + 20 ≤ BLOCK_ROOM }
        ensures state { self.new ≡ self.old ++ decimal number }
        ensures size { length (decimal number) ≤ 20 }
    {
        let mut buffer = Buffer::new();
        self.push(buffer.format(number).as_bytes());
    }

    /// Appends the canonical line of an instruction and its line feed.
    #[inline(always)]
    #[tactic(auto, unfolding(crate::specs::Written::before))]
    pub fn push_code(&mut self, i: &Insn)
        requires { length self.old + ROOM ≤ BLOCK_ROOM }
        ensures { self.new ≡ self.old ++ ended (canon i.now) }
    {
        self.len = put_code(&mut self.bytes, self.len, i);
    }

    /// Appends the line feed that ends a line.
    pub fn end(&mut self)
        requires { length self.old + 1 ≤ BLOCK_ROOM }
        ensures { self.new ≡ self.old ++ 10 ∷ [] }
    {
        self.push(b"\n");
    }
}
