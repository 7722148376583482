ghost use Rattle.std.specs.Prelude.{◌≡◌, ◌+◌, ◌%◌, ◌^◌, ◌≤◌, true, false, IsTrue, IfOk, IfSome, length};
ghost use Rattle.alpha_words.specs.Digits.{little, low_bytes};
ghost use Rattle.alpha_mem.specs.Size.{size_of};
ghost use Rattle.alpha_mem.specs.Block.{shape_of, holds, part, overwritten, block};

use crate::Size;
use crate::number::number_of;
use alpha_words::NoMemory;
use std::alloc::Global;
use std::marker::Model;

/// Bytes that stand in a row from an address on, and end at or below 2 ^ 30. A clause sees the block.
#[derive(Debug, Drop)]
pub struct Region {
    first: u64,
    bytes: Vec<u8>,
    writable: bool,
}

impl Model for Region {
    ghost use Rattle.std.specs.Prelude.{◌+◌, ◌^◌, ◌≤◌, length};
    ghost use Rattle.alpha_mem.specs.Block.{Block};

    ghost Value = { Block };

    ghost view = { λ r. record { first = r.first; bytes = r.bytes.items; writable = r.writable } };

    ghost invariant = { λ r. r.first + length r.bytes.items ≤ 2 ^ 30 };
}

impl Region {
    /// A region of these bytes and then `zeroed` zeros.
    pub fn new(
        alloc: Global,
        first: u64,
        bytes: &[u8],
        zeroed: u64,
        writable: bool,
    ) -> Result<Region, NoMemory>
        requires { first + length bytes.now + zeroed ≤ 2 ^ 30 }
        ensures { IfOk result (λ b. b ≡ block first bytes.now zeroed writable) }
    {
        let size = bytes.len() + zeroed as usize;
        let mut all = Vec::with_capacity(alloc, size)?;
        all.extend_from_slice(bytes)?;
        all.resize(size, 0)?;
        Ok(Region {
            first,
            bytes: all,
            writable,
        })
    }

    /// Whether the range lies within the region.
    // An address below the region has a place past its end, modulo 2^64.
    #[inline(always)]
    pub fn holds(&self, addr: u64, len: u64) -> bool
        ensures { result ≡ holds (shape_of self.now) addr len }
    {
        let at = addr.wrapping_sub(self.first);
        let size = self.bytes.len() as u64;
        at <= size && len <= size - at
    }

    /// Whether stores may write the region.
    #[inline(always)]
    pub fn writable(&self) -> bool
        ensures { result ≡ self.now.writable }
    {
        self.writable
    }

    /// The bytes of a range of the region.
    #[inline(always)]
    pub fn part(&self, addr: u64, len: u64) -> &[u8]
        requires { IsTrue (holds (shape_of self.now) addr len) }
        ensures { result.now ≡ part self.now addr len }
    {
        let at = (addr - self.first) as usize;
        &self.bytes[at..at + len as usize]
    }

    /// Writes a range of the region.
    #[inline(always)]
    pub fn put(&mut self, addr: u64, bytes: &[u8])
        requires { IsTrue (holds (shape_of self.old) addr (length bytes.now)) }
        ensures { self.new ≡ overwritten self.old addr bytes.now }
    {
        let at = (addr - self.first) as usize;
        self.bytes[at..at + bytes.len()].copy_from_slice(bytes);
    }

    /// Writes the number's low bytes, as many as the size says, the lowest first (Architecture
    /// Handbook, section 2.1).
    #[inline(always)]
    pub fn put_number(&mut self, addr: u64, size: Size, value: u64)
        requires { IsTrue (holds (shape_of self.old) addr (size_of size)) }
        ensures { self.new ≡ overwritten self.old addr (low_bytes (size_of size) value) }
    {
        let low = value.to_le_bytes();
        self.put(addr, &low[..size.bytes() as usize]);
    }

    /// The little-endian number of the size's bytes at the address, extended with zeros (Architecture Handbook,
    /// section 4.2). `None` where the address is no multiple of the size, or a byte lies outside the region.
    #[inline(always)]
    pub fn load(&self, addr: u64, size: Size) -> Option<u64>
        ensures aligned { IfSome result (λ v. addr % size_of size ≡ 0) }
        ensures within { IfSome result (λ v. holds (shape_of self.now) addr (size_of size) ≡ true) }
        ensures value { IfSome result (λ v. v ≡ little (part self.now addr (size_of size))) }
    {
        let len = size.bytes();
        if addr % len != 0 {
            return None;
        }
        if !self.holds(addr, len) {
            return None;
        }
        Some(number_of(self.part(addr, len)))
    }

    /// Writes the number's low bytes at the address, as many as the size says, the lowest first (Architecture
    /// Handbook, section 4.2), and answers whether it did. It doesn't where the address is no multiple of the size, a
    /// byte lies outside the region, or the region isn't writable.
    #[inline(always)]
    pub fn store(&mut self, addr: u64, size: Size, value: u64) -> bool
        ensures aligned { result ≡ true → addr % size_of size ≡ 0 }
        ensures within { result ≡ true → holds (shape_of self.old) addr (size_of size) ≡ true }
        ensures writes { result ≡ true → self.old.writable ≡ true }
        ensures value { result ≡ true → self.new ≡ overwritten self.old addr (low_bytes (size_of size) value) }
        ensures refused { result ≡ false → self.new ≡ self.old }
    {
        let len = size.bytes();
        if addr % len != 0 {
            return false;
        }
        if !self.holds(addr, len) {
            return false;
        }
        if !self.writable() {
            return false;
        }
        self.put_number(addr, size, value);
        true
    }
}
