//! Loads and stores by the regions of a memory, the one of the last access first.

ghost use Rattle.std.specs.Prelude.{◌≡◌, ◌<◌, true, false, None, IfSome, length};
ghost use Rattle.alpha_words.specs.Digits.{little, low_bytes};
ghost use Rattle.alpha_mem.specs.Block.{shapes};
ghost use Rattle.alpha_mem.specs.Fault.{fault_of};
ghost use Rattle.alpha_mem.specs.Intent as intents;
ghost use Rattle.alpha_mem.specs.Memory.{IsMemory, bytes_at, write_bytes};
ghost use Rattle.alpha_mem.specs.Size.{size_of};

use alpha_mem::{Region, Size};

// The number that a load gives, `None` where it faults. `region_hint` is the place of the region of the last access.
#[inline(always)]
pub(crate) fn load_in(
    regions: &[Region],
    region_hint: &mut usize,
    addr: u64,
    size: Size,
) -> Option<u64>
    requires memory { IsMemory regions.now }
    requires region_hint { region_hint.old < length regions.now }
    ensures fault { IfSome result (λ v. fault_of (shapes regions.now) intents.Load addr (size_of size) ≡ None) }
    ensures value { IfSome result (λ v. v ≡ little (bytes_at regions.now addr (size_of size))) }
    ensures region_hint { region_hint.new < length regions.now }
{
    let region = &regions[*region_hint];
    match region.load(addr, size) {
        Some(value) => Some(value),
        None => load_far(regions, region_hint, addr, size),
    }
}

// The same by whichever region has the address. It is never inlined, so that what it needs doesn't crowd the loop.
#[inline(never)]
fn load_far(regions: &[Region], region_hint: &mut usize, addr: u64, size: Size) -> Option<u64>
    requires memory { IsMemory regions.now }
    requires region_hint { region_hint.old < length regions.now }
    ensures fault { IfSome result (λ v. fault_of (shapes regions.now) intents.Load addr (size_of size) ≡ None) }
    ensures value { IfSome result (λ v. v ≡ little (bytes_at regions.now addr (size_of size))) }
    ensures region_hint { region_hint.new < length regions.now }
{
    let found = region_at(regions, addr);
    if found >= regions.len() {
        return None;
    }
    let region = &regions[found];
    match region.load(addr, size) {
        Some(value) => {
            *region_hint = found;
            Some(value)
        }
        None => None,
    }
}

// Stores, and answers whether it did: it doesn't where the access faults.
#[inline(always)]
pub(crate) fn store_in(
    regions: &mut [Region],
    region_hint: &mut usize,
    addr: u64,
    size: Size,
    value: u64,
) -> bool
    requires memory { IsMemory regions.old }
    requires region_hint { region_hint.old < length regions.old }
    ensures fault { result ≡ true → fault_of (shapes regions.old) intents.Store addr (size_of size) ≡ None }
    ensures value { result ≡ true → regions.new ≡ write_bytes regions.old addr (low_bytes (size_of size) value) }
    ensures memory { IsMemory regions.new }
    ensures region_hint { region_hint.new < length regions.new }
    ensures refused { result ≡ false → regions.new ≡ regions.old }
{
    if store_at(regions, *region_hint, addr, size, value) {
        return true;
    }
    store_far(regions, region_hint, addr, size, value)
}

// The same into whichever region has the address.
#[inline(never)]
fn store_far(
    regions: &mut [Region],
    region_hint: &mut usize,
    addr: u64,
    size: Size,
    value: u64,
) -> bool
    requires memory { IsMemory regions.old }
    requires region_hint { region_hint.old < length regions.old }
    ensures fault { result ≡ true → fault_of (shapes regions.old) intents.Store addr (size_of size) ≡ None }
    ensures value { result ≡ true → regions.new ≡ write_bytes regions.old addr (low_bytes (size_of size) value) }
    ensures memory { IsMemory regions.new }
    ensures region_hint { region_hint.new < length regions.new }
    ensures refused { result ≡ false → regions.new ≡ regions.old }
{
    let found = region_at(regions, addr);
    if found >= regions.len() {
        return false;
    }
    if store_at(regions, found, addr, size, value) {
        *region_hint = found;
        return true;
    }
    false
}

// The same into the region at a place.
#[inline(always)]
fn store_at(regions: &mut [Region], i: usize, addr: u64, size: Size, value: u64) -> bool
    requires memory { IsMemory regions.old }
    requires inside { i < length regions.old }
    ensures fault { result ≡ true → fault_of (shapes regions.old) intents.Store addr (size_of size) ≡ None }
    ensures value { result ≡ true → regions.new ≡ write_bytes regions.old addr (low_bytes (size_of size) value) }
    ensures memory { IsMemory regions.new }
    ensures refused { result ≡ false → regions.new ≡ regions.old }
{
    let region = &mut regions[i];
    region.store(addr, size, value)
}

// The place of the region that has a byte at the address, or how many regions there are where none has.
#[inline(always)]
fn region_at(regions: &[Region], addr: u64) -> usize {
    for i in (0..regions.len()).rev() {
        if regions[i].holds(addr, 1) {
            return i;
        }
    }
    regions.len()
}
