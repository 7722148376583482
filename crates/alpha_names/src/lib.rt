//! Names with numbers, in tables that whoever chooses the names can't crowd.
//!
//! [`Names`] gives each name that is added a number, from 0 in the order in which they are added, and finds a
//! name's number and a number's name. [`Numbers`] has numbers alone, for whoever has the names elsewhere: a
//! [`Source`] tells which name has a number.
//!
//! `tree.rt` has the tables, trees over the bits of a hash, in which a look-up goes over 20 slots at most,
//! whatever the names are; `hash.rt` has the two hashes. `numbers.rt` searches by the first, `crowd.rt` by the second
//! and `others.rt` by the order of names; `names.rt` has the names.
#![tactic(auto)]

mod crowd;
mod hash;
mod names;
mod numbers;
mod others;
mod source;
mod tree;

pub use names::Names;
pub use numbers::Numbers;
pub use source::Source;
