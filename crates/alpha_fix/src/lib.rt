//! The barrier inserter: from a source to one that the checker accepts, with `trapb` lines added
//! where, and only where, they are needed.
//!
//! - [`fix`] gives the fixed source of a source, or says why there is none, a [`FixFault`].
//! - [`cuts_of`] gives the cuts of code: the places before which a barrier is needed, or at the end
//!   behind the last word; or a [`CutFault`].
//! - [`laws_of_cuts`] says that code with a barrier at each cut is accepted and needs each of them,
//!   [`laws_of_fixed_sources`] that the image of a fixed source is accepted, needs each of the added
//!   barriers, and that a source whose image is accepted comes back unchanged.
//!
//! The image of a fixed source hasn't the words of the source's image with barriers between: labels
//! of the code name other addresses, so branches, LDA and LDAH have other displacements. No
//! condition of a shadow depends on these. Some lines fix where words stand, by a distance or an
//! address: a source with such a line is refused where it needs a barrier.
//!
//! `specs/Cuts.antt` has the cuts and the code with barriers, `specs/FixedSource.antt` the source with
//! barriers, `specs/FixedLines.antt` which lines fix where words stand, and `specs/Fix.antt` what `fix`
//! answers.
//!
//! `cuts.rt` judges the code, and again from each cut on. `fixed_line.rt` tests a line, `barriers.rt`
//! builds the text, with what is known of its lines, and `inserter.rt` puts the steps together.
//!
//! `proofs/StretchesAlike.antt` says that a shadow is broken by the columns of its words, wherever it stands;
//! `BarredCode.antt`, `CutSteps.antt` and `CutExistence.antt` have the cuts. `FixedItems.antt` has the items of a
//! text's lines, `PlaceCores.antt` where these stand, `SteadyClasses.antt` what a verdict needs of a word,
//! `BarredWords.antt` and `BarrierMarks.antt` the words of the text, `SourcePrograms.antt` and `FixedSources.antt` the
//! laws. `ValueOffsets.antt`, `FixedText.antt`, `KnownLines.antt` and `FixAnswers.antt` follow the code.
#![tactic(auto)]

mod barriers;
mod cuts;
mod fault;
mod fixed_line;
mod inserter;
mod laws;

pub use cuts::cuts_of;
pub use fault::{CutFault, FixFault};
pub use inserter::fix;
pub use laws::{laws_of_cuts, laws_of_fixed_sources};
