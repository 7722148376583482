//! Examples of what the crates do, those of a crate in a module of its name: values from outside, printed text, and
//! that each call succeeds where memory is there. They use the crates as whoever stands on them does, and are proved
//! without proving these again.
//!
//! Tests of commands, and of what commands show of a crate, are cases in `alpha_cases/data`, those of images lines of
//! `alpha_vectors/data/images.tsv`; what no case can be of the crates at the top is in `alpha_top_tests`.
#![tactic(auto)]

#[cfg(test)]
mod common;
#[cfg(test)]
mod io;
#[cfg(test)]
mod keep;
#[cfg(test)]
mod mem;
#[cfg(test)]
mod names;
#[cfg(test)]
mod operands;
#[cfg(test)]
mod pal;
#[cfg(test)]
mod table;
#[cfg(test)]
mod text;
#[cfg(test)]
mod token;
#[cfg(test)]
mod trap;
#[cfg(test)]
mod values;
#[cfg(test)]
mod words;
