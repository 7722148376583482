//! The quick reader of lines of source.
//!
//! [`read_line`] gives what the reader of `alpha_text` gives, and takes a fraction of its time for lines as
//! programs write them, which it reads in one pass. [`read_canonical`] reads the instruction of a line that has no
//! label and names none, as most lines, by the places of its bytes, a name by one word of eight bytes; of a line that
//! it doesn't read so it gives the [`Prescanned`], which goes on to its item. [`read_insn`] does the same of a line
//! alone, and gives the [`Unparsed`].
//!
//! `line.rt` cuts a line into a label, a name and the words behind it, by `lexeme.rt`; `rows.rt` finds what the
//! name stands for by its key, a number of `key.rt`; `words.rt` and `groups.rt` read the words, and `forms.rt`
//! has the instruction that a name gives with them, `reach.rt` the label that such an instruction names, and
//! `data.rt` what directives of data say. `line_name.rt` finds a name by a word, and `canonical.rt` reads the words
//! behind it, by the places of `terminated_line.rt`. `specs/Words.antt` and `Listed.antt` define the words,
//! `specs/Parts.antt` and `InsnPrefix.antt` what a line says by its parts, `specs/Unparsed.antt` and `Prescanned.antt`
//! a line as far as it was read, `specs/TerminatedLine.antt` a line read by places, `specs/Keys.antt` the keys of
//! names.
#![tactic(auto)]

mod canonical;
mod data;
mod forms;
mod groups;
mod key;
mod lexeme;
mod line;
mod line_name;
mod reach;
mod rows;
mod terminated_line;
mod words;

pub use line::{Prescanned, Unparsed, read_insn, read_line};
pub use line_name::read_canonical;
