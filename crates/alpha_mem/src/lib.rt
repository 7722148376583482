//! The memory of regions: loads and stores that fault exactly as defined, and change exactly the
//! bytes that they name.
//!
//! Comments call the Alpha Architecture Handbook, version 4, the Architecture Handbook.
//!
//! - [`Memory`] is a list of regions of bytes, each at an address of its own. Every region may be
//!   read, and the writable ones may be written. Loads and stores are aligned and little-endian
//!   (Architecture Handbook, sections 2.1 and 4.2); ranges of any length are read and written by
//!   `bytes` and `write`. A loop takes the list of [`Region`]s out by `take_regions` and puts it back.
//! - [`Size`] is how many bytes a load or a store has, [`MemFault`] why one is refused. [`number_of`]
//!   is the number that bytes are in memory.
//! - The functions of `src/laws.rt` do nothing: their contracts are the laws of memory.
//!   [`laws_of_writes`]: a write leaves each region where it lies and each byte outside its range as it
//!   was, and puts its bytes inside; two writes that follow one another are one. [`laws_of_reads`]: two
//!   memories whose regions lie alike and whose bytes are equal are equal. [`laws_of_accesses`]: an
//!   aligned access has its bytes in one region, and one without a fault ends at or below 2 ^ 30.
//!   [`laws_of_ranges`] has ranges within one region, [`laws_of_numbers`] numbers in memory, and
//!   [`laws_of_adding`] what a new region leaves free.
//!
//! A clause sees a memory as a list of blocks (`specs/Block.antt`). `specs/Memory.antt` says what
//! stands at an address and what a write leaves, and what holds of each memory. `specs/Fault.antt`
//! says when a load or a store (`specs/Intent.antt`) faults, from where the blocks lie alone. Numbers
//! are stored as their bytes, the lowest first (`alpha_words`, `specs/Digits.antt`). `src/region.rt`
//! has one region, `src/memory.rt` all of them, and `src/region_hint.rt` the loads and stores that look at one region
//! first.
#![tactic(auto)]

mod access;
mod laws;
mod memory;
mod number;
mod region;
mod region_hint;

pub use access::{MemFault, Size};
pub use laws::{
    laws_of_accesses, laws_of_adding, laws_of_numbers, laws_of_ranges, laws_of_reads,
    laws_of_writes,
};
pub use memory::Memory;
pub use number::number_of;
pub use region::Region;
