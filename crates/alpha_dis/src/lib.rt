//! The listing of an image: lines of source that say all of it.
//!
//! - [`list`] writes the listing of an [`Image`](alpha_image::Image) to a sink. It takes no memory.
//! - [`ListFault`] says why a listing wasn't written whole.
//!
//! A listing begins with the fields of the image and `.code`. Then come the canonical line of each code
//! word, and the segments, each with its data bytes, sixteen a line, and the number of zero bytes that
//! follow them. Version 1 has `.database` and `.data`; version 2 has `.level`, and a `.segment` for each
//! segment.
//!
//! `specs/Listing.antt` has the lines. `lines.rt` writes those of directives and bytes, `digits.rt` the
//! digits of an address, and `listing.rt` all of the lines. They go into a [`Block`](block::Block), which
//! is put to the sink where it is full and at the end (`block.rt`, `specs/SinkEffect.antt`). Most lines of most
//! listings are those of instructions: `code.rt` puts them straight into the room behind the block's bytes,
//! in pieces that a few loads and stores copy (`pieces.rt`, `specs/Written.antt`).
#![tactic(auto)]

mod block;
mod code;
mod digits;
mod lines;
mod listing;
mod pieces;

pub use listing::{ListFault, list};
