ghost use Rattle.std.specs.Prelude.{◌≡◌, ℕ, ◌+◌, ◌^◌, ◌<◌, [], false, nat_eq, slice_index_or, IfOk, OnOk, OnErr};
ghost use Rattle.alpha_names.specs.Tree.{seek_in, none, slot_at, slot_in, slot_of, IsNear, Fills};

use std::alloc::{AllocError, Global};

// What a tree holds of a slot.
#[derive(Clone, Copy)]
pub(crate) struct Entry {
    // The low half of the hash of the name.
    mark: u32,
    // One more than the number; 0 where the slot is free.
    next: u32,
}

// What an entry is to begin with.
const NONE: Entry = Entry { mark: 0, next: 0 };

// A place for a name's number.
#[derive(Clone, Copy)]
pub(crate) struct Slot {
    // The low half of the hash of the name.
    mark: u32,
    // The number.
    number: u32,
    // Where the two slots below this one begin; 0 where it is free.
    below: usize,
}

// A free slot.
const FREE: Slot = Slot {
    mark: 0,
    number: 0,
    below: 0,
};

// How many slots have none above them. The highest bits of a hash choose one.
const ROOTS: usize = 4096;

// How many slots a search goes over at most.
const LEVELS: u32 = 20;

/// What a search for a hash finds.
#[derive(Clone, Copy)]
pub(crate) enum Look {
    /// No name, and the place of the free slot for it.
    Free(usize),
    /// The number of a name that has the hash, or one like it.
    Taken(usize),
    /// No name among so many slots as a search goes over, and no free one.
    Deep,
}

impl Entry {
    // The slot that it stands for.
    #[inline(always)]
    fn slot(self) -> Slot
        ensures value { result ≡ slot_of self }
        ensures bound { result.below < 2 ^ 34 }
    {
        if self.next == 0 {
            return FREE;
        }
        let number = self.next - 1;
        Slot {
            mark: self.mark,
            number,
            below: ROOTS + 2 * number as usize,
        }
    }
}

/// Numbers of names by their hashes. A search begins at one of the roots, and goes down from slot to slot by a bit of
/// the hash each time, until it finds a free slot or one whose mark is that of the hash. The two slots below one have
/// their places by its number, so that a slot takes eight bytes.
#[derive(Drop)]
pub(crate) struct Tree {
    entries: Vec<Entry>,
}

impl Tree {
    /// No numbers.
    pub(crate) fn empty(alloc: Global) -> Tree
        ensures { (place : ℕ) → slot_in result place ≡ slot_at [] place }
    {
        Tree {
            entries: Vec::new(alloc),
        }
    }

    // The slot at a place. One that isn't there yet is free.
    #[inline(always)]
    fn slot(&self, place: usize) -> Slot
        ensures value { result ≡ slot_in self.now place }
        ensures bound { result.below < 2 ^ 34 }
    {
        match self.entries.get(place) {
            Some(entry) => entry.slot(),
            None => FREE,
        }
    }

    /// Searches for a hash.
    pub(crate) fn seek(&self, hash: u64) -> Look
        ensures value { result ≡ seek_in (slot_in self.now) hash }
        ensures bound { IsNear result }
    {
        let mark = (hash % 4_294_967_296) as u32;
        let mut path = hash / 4_294_967_296;
        let mut place = (hash / 4_503_599_627_370_496) as usize;
        for _level in 0..LEVELS {
            let slot = self.slot(place);
            if slot.below == 0 {
                return Look::Free(place);
            }
            if slot.mark == mark {
                return Look::Taken(slot.number as usize);
            }
            place = slot.below + (path % 2) as usize;
            path /= 2;
        }
        Look::Deep
    }

    /// Puts a number into the free slot that a search for the hash of its name found.
    pub(crate) fn fill(&mut self, place: usize, hash: u64, number: usize) -> Result<(), AllocError>
        requires { place < 2 ^ 63 }
        ensures ok { OnOk result (Fills place hash number (slot_in self.old) (slot_in self.new)) }
        ensures same { OnErr result ((other : ℕ) → slot_in self.new other ≡ slot_in self.old other) }
    {
        let entry = Entry {
            mark: (hash % 4_294_967_296) as u32,
            next: next_number(number)?,
        };
        let below = ROOTS + 2 * number;
        self.put(place, entry, below + 2)
    }

    // Puts an entry at a place, with room for so many of them.
    fn put(&mut self, place: usize, entry: Entry, room: usize) -> Result<(), AllocError>
        requires { place < 2 ^ 63 }
        ensures here { OnOk result (slice_index_or self.new.entries.items place none ≡ entry) }
        ensures others { OnOk result ((other : ℕ) → nat_eq other place ≡ false →
            slice_index_or self.new.entries.items other none
            ≡ slice_index_or self.old.entries.items other none) }
        ensures same { OnErr result ((other : ℕ) → slot_in self.new other ≡ slot_in self.old other) }
    {
        let size = self.entries.len().max(place + 1).max(room);
        self.entries.resize(size, NONE)?;
        self.entries[place] = entry;
        Ok(())
    }
}

// One more than a number, in 32 bits. That a source has fewer names, or modules fewer symbols, is no clause: a greater
// number counts as want of memory.
fn next_number(number: usize) -> Result<u32, AllocError>
    ensures value { IfOk result (λ n. n ≡ number + 1) }
    ensures bound { IfOk result (λ n. n < 2 ^ 32) }
{
    match u32::try_from(number) {
        Ok(n) if n < u32::MAX => Ok(n + 1),
        _ => Err(AllocError),
    }
}
