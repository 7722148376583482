//! A block of bytes on their way to a sink.

ghost use Rattle.std.specs.Prelude.{◌≡◌, ◌+◌, ◌-◌, ◌≤◌, true, [], ◌++◌, length, take, OnOk, OnErr};
ghost use Rattle.alpha_io.specs.SinkChange.{sink_change, Puts};
ghost use Rattle.alpha_debug.specs.OutputChange.{output_change, put_for, waits_for};
ghost use Rattle.alpha_debug.specs.OutputChange.{AppendsOutput, CutShort, SinkFailsWith};

use alpha_io::{Failed, Sink, write_whole};
use std::marker::Model;

/// How many bytes a [`Block`] holds at most.
pub(crate) const BLOCK_ROOM: usize = 16_384;

/// Bytes that were not put yet. A clause sees them. It takes no memory.
///
/// A block is a sink too, which fails where it is full. That is no device's fault, so its count of faults
/// stands at the last value.
#[derive(Drop)]
pub(crate) struct Block {
    bytes: [u8; BLOCK_ROOM],
    len: usize,
}

impl Model for Block {
    ghost use Rattle.std.specs.Prelude.{◌≡◌, ◌≤◌, List, ℕ, length, take};
    ghost use Rattle.alpha_debug.specs.declared.block.TheConstants.{BLOCK_ROOM};

    ghost Value = { List ℕ };

    ghost view = { λ b. take b.len b.bytes };

    ghost invariant = { λ b. (b.len ≤ BLOCK_ROOM) × (length b.bytes ≡ BLOCK_ROOM) };
}

impl Block {
    /// The empty block.
    pub fn new() -> Block
        ensures { result ≡ [] }
    {
        Block {
            bytes: [0; BLOCK_ROOM],
            len: 0,
        }
    }

    /// How many bytes wait.
    pub fn len(&self) -> usize
        ensures value { result ≡ length self.now }
        ensures bound { result ≤ BLOCK_ROOM }
    {
        self.len
    }

    /// Forgets the bytes from a place on.
    pub fn truncate(&mut self, len: usize)
        ensures { self.new ≡ take len self.old }
    {
        self.len = self.len.min(len);
    }

    /// Puts all bytes, without which the block is empty.
    pub fn flush<K: Sink>(&mut self, out: &mut K) -> Result<(), Failed>
        ensures ok { OnOk result (Puts (sink_change K.Sink out.old out.new) self.old) }
        ensures empty { OnOk result (self.new ≡ []) }
        ensures refused { OnErr result
            (SinkFailsWith (output_change K.Sink out.old self.old out.new self.new) []) }
    {
        write_whole(out, &self.bytes[..self.len])?;
        self.len = 0;
        Ok(())
    }

    /// Puts all bytes where they are due.
    pub fn flush_due<K: Sink>(&mut self, due: bool, out: &mut K) -> Result<(), Failed>
        ensures ok { OnOk result (AppendsOutput (output_change K.Sink out.old self.old out.new self.new) []) }
        ensures empty { OnOk result (due ≡ true → self.new ≡ []) }
        ensures refused { OnErr result (SinkFailsWith (output_change K.Sink out.old self.old out.new self.new) []) }
    {
        if !due {
            return Ok(());
        }
        self.flush(out)
    }

    /// Takes all of the bytes, and puts those before them where they don't fit.
    pub fn gather<K: Sink>(&mut self, bytes: &[u8], out: &mut K) -> Result<(), Failed>
        ensures puts { OnOk result (Puts (sink_change K.Sink out.old out.new) (put_for self.old bytes.now)) }
        ensures waits { OnOk result (self.new ≡ waits_for self.old bytes.now) }
        ensures refused { OnErr result
            (CutShort (sink_change K.Sink out.old out.new) (put_for self.old bytes.now)) }
    {
        if bytes.len() <= BLOCK_ROOM - self.len {
            self.push(bytes);
            return Ok(());
        }
        self.flush(out)?;
        if bytes.len() > BLOCK_ROOM {
            return write_whole(out, bytes);
        }
        self.push(bytes);
        Ok(())
    }

    // Appends bytes.
    fn push(&mut self, bytes: &[u8])
        requires { length self.old + length bytes.now ≤ BLOCK_ROOM }
        ensures { self.new ≡ self.old ++ bytes.now }
    {
        let end = self.len + bytes.len();
        self.bytes[self.len..end].copy_from_slice(bytes);
        self.len = end;
    }
}

impl Sink for Block {
    ghost use Rattle.std.specs.Prelude.{◌^◌, ◌-◌, Some};

    ghost written = { λ b. Some b };

    ghost faults = { λ _. 2 ^ 64 - 1 };

    fn put(&mut self, bytes: &[u8]) -> Result<usize, Failed> {
        let count = bytes.len().min(BLOCK_ROOM - self.len);
        if count == 0 {
            return Err(Failed);
        }
        self.push(&bytes[..count]);
        Ok(count)
    }
}
