//! Holds the layers below the commands against vectors, and prints what differs.
//!
//! - The instruction table, the results, the checker and the image. `data/encodings.tsv` has instruction words
//!   that GNU as made: each decodes to an instruction that encodes to it again. `data/values.tsv` has measured
//!   results: each name is a row, the row's word decodes, and what it then computes is what was measured.
//!   `data/shadows.tsv` has short programs with their verdicts, `data/images.tsv` bytes and numbers with the
//!   image that they make, or why they make none.
//! - [`compared`]: lists of words that are made here are judged by the checker and by its conditions tried
//!   one after another.
//!
//! The head of each file of data/ says where it comes from, and what its columns are. `data/programs.tsv`, of
//! programs from outside, is for companions/tests, which run them by the program.
#![tactic(auto)]

mod compared;
mod encodings;
mod images;
mod parts;
mod plain;
mod shadows;
mod values;
mod words;

use std::fs;

fn main(rt: HostRuntime) -> anyhow::Result<()> {
    let text = fs::read_to_string(&rt, "encodings.tsv")?;
    encodings::run(&rt, text.as_str())?;
    let text = fs::read_to_string(&rt, "values.tsv")?;
    values::run(&rt, text.as_str())?;
    let text = fs::read_to_string(&rt, "shadows.tsv")?;
    shadows::run(&rt, rt.alloc(), text.as_str())?;
    compared::run(&rt, rt.alloc())?;
    let text = fs::read_to_string(&rt, "images.tsv")?;
    images::run(&rt, rt.alloc(), text.as_str())
}
