//! Loads and stores that look at one region first.

ghost use Rattle.std.specs.Prelude.{◌≡◌, ◌<◌, ◌↔◌, ◌&&◌, position, IsTrue, IsSome, IfSome, IfOk, OnOk, OnErr};
ghost use Rattle.std.specs.Result.{result_err};
ghost use Rattle.alpha_mem.specs.Size.{size_of};
ghost use Rattle.alpha_words.specs.Digits.{little, low_bytes};
ghost use Rattle.alpha_mem.specs.Intent.{Load, Store};
ghost use Rattle.alpha_mem.specs.Block.{shape_of, shapes, holds, within};
ghost use Rattle.alpha_mem.specs.Fault.{fault_of};
ghost use Rattle.alpha_mem.specs.Memory.{bytes_at, write_bytes, IsLayout, IsMemory};

use crate::memory::place_of;
use crate::number::number_of;
use crate::region::Region;
use crate::{MemFault, Memory, Size};

impl Memory {
    /// What [`Memory::load`] answers. `region_hint` is the number of a region, as that of the last access: the region
    /// that is looked at first. Which one it is, or a number that no region has, changes no answer.
    #[inline(always)]
    pub fn load_with_hint(
        &self,
        region_hint: &mut usize,
        addr: u64,
        size: Size,
    ) -> Result<u64, MemFault>
        ensures fault { result_err result ≡ fault_of (shapes self.now) Load addr (size_of size) }
        ensures ok { IfOk result (λ v. v ≡ little (bytes_at self.now addr (size_of size))) }
        ensures good { IsMemory self.now }
    {
        let len = size.bytes();
        let bytes = self.bytes_with_hint(region_hint, addr, len);
        if addr % len != 0 {
            return Err(MemFault::Align);
        }
        match bytes {
            Some(bytes) => Ok(number_of(bytes)),
            None => Err(MemFault::Region),
        }
    }

    /// What [`Memory::store`] does and answers, with a region that is looked at first.
    #[inline(always)]
    pub fn store_with_hint(
        &mut self,
        region_hint: &mut usize,
        addr: u64,
        size: Size,
        value: u64,
    ) -> Result<(), MemFault>
        ensures fault { result_err result ≡ fault_of (shapes self.old) Store addr (size_of size) }
        ensures ok { OnOk result
            (self.new ≡ write_bytes self.old addr (low_bytes (size_of size) value)) }
        ensures refused { OnErr result (self.new ≡ self.old) }
        ensures shapes { shapes self.new ≡ shapes self.old }
        ensures good { IsMemory self.new }
    {
        let len = size.bytes();
        let place = place_to_write_by_hint(self.regions.as_slice(), region_hint, addr, len);
        if addr % len != 0 {
            return Err(MemFault::Align);
        }
        match place {
            Some(i) => {
                let region = &mut self.regions[i];
                region.put_number(addr, size, value);
                Ok(())
            }
            None => Err(MemFault::Region),
        }
    }

    // The bytes of a range that isn't empty, with a region that is looked at first.
    #[inline(always)]
    fn bytes_with_hint(&self, region_hint: &mut usize, addr: u64, len: u64) -> Option<&[u8]>
        requires some { 0 < len }
        ensures none { IsSome result ↔ IsTrue (within (shapes self.now) Load addr len) }
        ensures found { IfSome result (λ bytes. bytes.now ≡ bytes_at self.now addr len) }
        ensures good { IsMemory self.now }
    {
        let regions = self.regions.as_slice();
        let i = place_by_hint(regions, region_hint, addr, len)?;
        let region = &regions[i];
        Some(region.part(addr, len))
    }
}

// The place in the list of the region that the range lies within. The region at the given place is asked first, and
// that place becomes the one found.
#[inline(always)]
fn place_by_hint(regions: &[Region], region_hint: &mut usize, addr: u64, len: u64) -> Option<usize>
    requires layout { IsLayout (shapes regions.now) }
    requires some { 0 < len }
    ensures { result ≡ position (λ b. holds (shape_of b) addr len) regions.now }
{
    let first = *region_hint;
    if first < regions.len() {
        if regions[first].holds(addr, len) {
            return Some(first);
        }
    }
    let i = place_far(regions, addr, len)?;
    *region_hint = i;
    Some(i)
}

// The same of all regions. It is never inlined, so that what it needs doesn't crowd the loop of a run.
#[inline(never)]
fn place_far(regions: &[Region], addr: u64, len: u64) -> Option<usize>
    requires layout { IsLayout (shapes regions.now) }
    requires some { 0 < len }
    ensures { result ≡ position (λ b. holds (shape_of b) addr len) regions.now }
{
    place_of(regions, addr, len)
}

// The same as `place_by_hint` of a region that is writable.
#[inline(always)]
fn place_to_write_by_hint(
    regions: &[Region],
    region_hint: &mut usize,
    addr: u64,
    len: u64,
) -> Option<usize>
    requires layout { IsLayout (shapes regions.now) }
    requires some { 0 < len }
    ensures { result ≡ position (λ b. b.writable && holds (shape_of b) addr len) regions.now }
{
    let i = place_by_hint(regions, region_hint, addr, len)?;
    if regions[i].writable() { Some(i) } else { None }
}
