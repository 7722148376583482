ghost use Rattle.std.specs.Prelude.{◌≡◌, ◌+◌, ◌%◌, ◌^◌, ◌<◌, ◌≤◌, ◌↔◌, [], ◌∷◌, ◌++◌, ◌&&◌, length, position, IsTrue};
ghost use Rattle.std.specs.Prelude.{IsSome, IfSome, IfOk, OnOk, OnErr};
ghost use Rattle.std.specs.List.{list_any};
ghost use Rattle.std.specs.Result.{result_err};
ghost use Rattle.alpha_mem.specs.Size.{size_of};
ghost use Rattle.alpha_words.specs.Digits.{little, low_bytes};
ghost use Rattle.alpha_mem.specs.Intent.{Load, Store};
ghost use Rattle.alpha_mem.specs.Block.{shape_of, shapes, holds, within, block};
ghost use Rattle.alpha_mem.specs.Fault.{fault_of};
ghost use Rattle.alpha_mem.specs.Memory.{bytes_at, write_bytes, IsFree, IsLayout, IsMemory};

use crate::number::number_of;
use crate::region::Region;
use crate::{MemFault, Size};
use alpha_words::NoMemory;
use std::alloc::Global;
use std::marker::Model;

/// Regions of bytes, each at an address of its own. A clause sees the list of their blocks, in the
/// order in which they were added. They begin at multiples of 16, end at or below 2 ^ 30, and share
/// no address.
#[derive(Debug, Drop)]
pub struct Memory {
    pub(crate) regions: Vec<Region>,
}

impl Model for Memory {
    ghost use Rattle.std.specs.Prelude.{List};
    ghost use Rattle.alpha_mem.specs.Block.{Block};
    ghost use Rattle.alpha_mem.specs.Memory.{IsMemory};

    ghost Value = { List Block };

    ghost view = { λ m. m.regions.items };

    ghost invariant = { λ m. IsMemory m.regions.items };
}

impl Memory {
    /// A memory of no regions.
    pub fn empty(alloc: Global) -> Memory
        ensures blocks { result ≡ [] }
        ensures good { IsMemory result }
    {
        Memory {
            regions: Vec::new(alloc),
        }
    }

    /// Takes the regions out, and leaves a memory of none.
    pub fn take_regions(&mut self) -> Vec<Region>
        ensures regions { result.items ≡ self.old }
        ensures good { IsMemory result.items }
        ensures left { self.new ≡ [] }
    {
        let alloc = *self.regions.allocator();
        std::mem::replace(&mut self.regions, Vec::new(alloc))
    }

    /// Puts these regions in the place of its own. They are those of a memory: at multiples of 16, apart, and at or
    /// below 2 ^ 30.
    pub fn put_regions(&mut self, regions: Vec<Region>)
        requires { IsMemory regions.items }
        ensures { self.new ≡ regions.items }
    {
        self.regions = regions;
    }

    /// Adds a region at `base`: the bytes and then `zeroed` zeros. Its base is a multiple of 16, it ends at 2^30 at
    /// most, and it shares no address with another region. Stores may write it where it is `writable`. It copies the
    /// bytes. `NoMemory` changes nothing.
    pub fn add(
        &mut self,
        base: u64,
        bytes: &[u8],
        zeroed: u64,
        writable: bool,
    ) -> Result<(), NoMemory>
        requires aligned { base % 16 ≡ 0 }
        requires below { base + length bytes.now + zeroed ≤ 2 ^ 30 }
        requires free { IsFree (shapes self.old) base (length bytes.now + zeroed) }
        ensures ok { OnOk result
            (self.new ≡ self.old ++ block base bytes.now zeroed writable ∷ []) }
        ensures refused { OnErr result (self.new ≡ self.old) }
        ensures good { IsMemory self.new }
    {
        let alloc = *self.regions.allocator();
        let region = Region::new(alloc, base, bytes, zeroed, writable)?;
        self.regions.push(region)?;
        Ok(())
    }

    /// The little-endian number of the size's bytes at the address, extended with zeros
    /// (Architecture Handbook, section 4.2). `Align` where the address is no multiple of the size,
    /// else `Region` where a byte lies in no region.
    #[inline(always)]
    pub fn load(&self, addr: u64, size: Size) -> Result<u64, MemFault>
        ensures fault { result_err result ≡ fault_of (shapes self.now) Load addr (size_of size) }
        ensures ok { IfOk result (λ v. v ≡ little (bytes_at self.now addr (size_of size))) }
        ensures good { IsMemory self.now }
    {
        let len = size.bytes();
        let bytes = self.bytes(addr, len);
        if addr % len != 0 {
            return Err(MemFault::Align);
        }
        match bytes {
            Some(bytes) => Ok(number_of(bytes)),
            None => Err(MemFault::Region),
        }
    }

    /// Writes the number's low bytes at the address, as many as the size says, the lowest first
    /// (Architecture Handbook, section 4.2). `Align` where the address is no multiple of the size,
    /// else `Region` where a byte lies in no region that is writable. A fault changes nothing.
    #[inline(always)]
    pub fn store(&mut self, addr: u64, size: Size, value: u64) -> Result<(), MemFault>
        ensures fault { result_err result ≡ fault_of (shapes self.old) Store addr (size_of size) }
        ensures ok { OnOk result
            (self.new ≡ write_bytes self.old addr (low_bytes (size_of size) value)) }
        ensures refused { OnErr result (self.new ≡ self.old) }
        ensures shapes { shapes self.new ≡ shapes self.old }
        ensures good { IsMemory self.new }
    {
        let len = size.bytes();
        let place = place_to_write(self.regions.as_slice(), addr, len);
        if addr % len != 0 {
            return Err(MemFault::Align);
        }
        match place {
            Some(i) => {
                let region = &mut self.regions[i];
                region.put_number(addr, size, value);
                Ok(())
            }
            None => Err(MemFault::Region),
        }
    }

    /// What a store of this size at this address would answer, which changes nothing.
    ///
    /// # Errors
    ///
    /// `Align` where the address is no multiple of the size, else `Region` where a byte lies in no region that is
    /// writable.
    pub fn writable(&self, addr: u64, size: Size) -> Result<(), MemFault>
        ensures fault { result_err result ≡ fault_of (shapes self.now) Store addr (size_of size) }
        ensures good { IsMemory self.now }
    {
        let len = size.bytes();
        let there = self.can_write(addr, len);
        if addr % len != 0 {
            return Err(MemFault::Align);
        }
        if !there {
            return Err(MemFault::Region);
        }
        Ok(())
    }

    /// The bytes of a range: `None` where it has bytes and doesn't lie within one region.
    #[inline(always)]
    pub fn bytes(&self, addr: u64, len: u64) -> Option<&[u8]>
        ensures none { IsSome result ↔ IsTrue (within (shapes self.now) Load addr len) }
        ensures found { IfSome result (λ bytes. bytes.now ≡ bytes_at self.now addr len) }
        ensures good { IsMemory self.now }
    {
        let regions = self.regions.as_slice();
        if len == 0 {
            return Some(&[]);
        }
        let i = place_of(regions, addr, len)?;
        let region = &regions[i];
        Some(region.part(addr, len))
    }

    /// Whether the range has no bytes, or lies within one region that is writable.
    pub fn can_write(&self, addr: u64, len: u64) -> bool
        ensures value { IsTrue result ↔ IsTrue (within (shapes self.now) Store addr len) }
        ensures good { IsMemory self.now }
    {
        len == 0 || any_writable(self.regions.as_slice(), addr, len)
    }

    /// Writes the bytes at the address. All other bytes stay. `can_write` says where it may.
    pub fn write(&mut self, addr: u64, bytes: &[u8])
        requires { IsTrue (within (shapes self.old) Store addr (length bytes.now)) }
        ensures value { self.new ≡ write_bytes self.old addr bytes.now }
        ensures shapes { shapes self.new ≡ shapes self.old }
        ensures good { IsMemory self.new }
    {
        if let Some(i) = index_of(self.regions.as_slice(), addr, bytes.len() as u64) {
            let region = &mut self.regions[i];
            region.put(addr, bytes);
        }
    }
}

// The place in the list of the first region that the range lies within.
fn index_of(regions: &[Region], addr: u64, len: u64) -> Option<usize>
    ensures { result ≡ position (λ b. holds (shape_of b) addr len) regions.now }
{
    regions.iter().position(|r| r.holds(addr, len))
}

// The place in the list of the region that the range lies within. Regions share no address, so it is one. The last
// are asked first: the stack is the last one, and the code the first.
#[inline(always)]
pub(crate) fn place_of(regions: &[Region], addr: u64, len: u64) -> Option<usize>
    requires layout { IsLayout (shapes regions.now) }
    requires some { 0 < len }
    ensures { result ≡ position (λ b. holds (shape_of b) addr len) regions.now }
{
    for i in (0..regions.len()).rev() {
        if regions[i].holds(addr, len) {
            return Some(i);
        }
    }
    None
}

// The same of a region that is writable.
#[inline(always)]
fn place_to_write(regions: &[Region], addr: u64, len: u64) -> Option<usize>
    requires layout { IsLayout (shapes regions.now) }
    requires some { 0 < len }
    ensures { result ≡ position (λ b. b.writable && holds (shape_of b) addr len) regions.now }
{
    let i = place_of(regions, addr, len)?;
    if regions[i].writable() { Some(i) } else { None }
}

// Whether the range lies within a region that is writable.
fn any_writable(regions: &[Region], addr: u64, len: u64) -> bool
    ensures { result ≡ list_any (λ b. b.writable && holds (shape_of b) addr len) regions.now }
{
    regions.iter().any(|r| r.writable() && r.holds(addr, len))
}
