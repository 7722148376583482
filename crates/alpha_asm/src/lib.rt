//! The assembler: from a source to the image that it defines.
//!
//! - [`assemble`] gives the image of a source, or the first refusal, an [`AsmFault`].
//! - [`assemble_with_symbols`] gives beside the image what is gathered of its source, [`Symbols`]: which labels name
//!   words of the code, what each line is to whoever puts instructions before it, a [`LineKind`], and the instructions.
//! - [`assemble_known`] gives what `assemble` gives of a source of which some lines are known, and doesn't read these.
//! - [`laws_of_sources`] says by the relations of the line grammar what the lines, the lists and the texts
//!   of a source are read as.
//! - [`Unlinked`] is what the source of a module makes: instructions, data bytes, labels, and the
//!   addresses that a link puts in.
//!
//! It goes over the lines once. What it knows of the lines so far is a [`Pass`](pass::Pass): where the
//! next item stands, the instructions and data bytes, the labels, the field statements, and a patch for
//! each address of a label that a statement names. When the last line is read, the patches are applied
//! (`bases.rt`), and the image is built (`program.rt`). A module's source goes through the same pass, by
//! the same grammar: [`SourceKind`] (`kind.rt`) says which statements it may have, and `unlinked.rt` what
//! the pass has made of it.
//!
//! `lines.rt` cuts a source into lines, here and in `alpha_fix`; `statement.rt` says what a statement asks,
//! apart from where it stands; `place.rt` is the place that a line stands at, `fields.rt` the field statements,
//! `label.rt`
//! and `labels.rt` the labels, `output.rt` the instructions and data bytes, which `data.rt` holds without their
//! paddings, `patch.rt` the addresses that are put in later, and `pass.rt` the state with the steps that
//! each line takes. The image takes the instructions and the data bytes as they are: nothing is encoded
//! or decoded.
//!
//! [`Line`] is the first line of a source, and what stands behind it.
//!
//! [`Section`], [`LabelLocation`], [`RelocField`] and [`Displacement`] are what its definitions speak of, for crates
//! that cite them, and [`Labels`], [`Patch`], [`Target`] and [`RelocationKind`] what [`Unlinked`] has. [`put_insn`]
//! and [`put_quad`] put an address in, here and in a link, [`RelocField::applies_to`] says which instruction it goes
//! into, and [`padding`] rounds sizes. [`CODE_BASE`], [`DATA_BASE`] and [`STACK_BYTES`] are what an image has without
//! statements of them.
//!
//! `specs/Statement.antt` has what a statement asks, `specs/Layout.antt` where each item stands,
//! `specs/Program.antt` the program that the items make, and `specs/Assembled.antt` the image of a
//! source or its first refusal; `specs/SourceLines.antt` has the lines of a source with their ends. None of
//! them knows of a pass or a patch; `specs/Patches.antt` and `specs/Pass.antt` say what the state of the pass is, and
//! `specs/Finished.antt` what it comes to;
//! `specs/Labels.antt`, `specs/Unlinked.antt`, `specs/Symbols.antt`, `specs/LineKinds.antt` and
//! `specs/KnownLines.antt` what other crates get of it.
#![tactic(auto)]

mod assembler;
mod bases;
mod data;
mod fault;
mod fields;
mod kind;
mod known_lines;
mod label;
mod labels;
mod laws;
mod line_kind;
mod lines;
mod output;
mod pass;
mod patch;
mod place;
mod program;
mod statement;
mod symbols;
mod unlinked;

pub use assembler::assemble;
pub use bases::{put_insn, put_quad};
pub use fault::AsmFault;
pub use kind::SourceKind;
pub use known_lines::assemble_known;
pub use label::Labels;
pub use laws::laws_of_sources;
pub use line_kind::LineKind;
pub use lines::Line;
pub use patch::{Displacement, Patch, RelocationKind, Target};
pub use place::{LabelLocation, Section, padding};
pub use program::{CODE_BASE, DATA_BASE, STACK_BYTES};
pub use statement::RelocField;
pub use symbols::{Symbols, assemble_with_symbols};
pub use unlinked::Unlinked;
