//! The laws that tie sources, images and listings. The crate has no code; its functions are laws.
//!
//! - [`laws_of_listings`] says that the listing of every good image, of either version, is a source that
//!   assembles to that image.
//! - [`laws_of_sources`] says that a source which is not refused assembles to an image, and to one alone.
//!
//! What a listing is is defined in `alpha_dis` (`specs/Listing.antt`), what a source assembles to in
//! `alpha_asm` (`specs/Assembled.antt`). `specs/Source.antt` puts the two together: the image that a
//! source is a source of. So where `alpha_dis::list` wrote all of its text, that text is a source of the
//! image; and where `alpha_asm::assemble` gives an image for a text, the text is a source of that one.
//!
//! The proofs of the law of listings, lowest first: `ListingItems.antt` has the statements that the lines of a
//! listing say. `JoinedLines.antt` (joined lines are cut into these lines again), `NumberTexts.antt` (texts of
//! numbers), `DataRows.antt` (the values of a row of bytes), `StatementsAlone.antt` (statements without labels: none is
//! refused, and what they make), `ListedProgram.antt` (what the statements of a listing make), `ListingPlaces.antt` and
//! `SegmentStatements.antt` (where they lead), `ItemsOfListing.antt` (they make the program of the image),
//! `DirectiveLines.antt` and `CodeLines.antt` (each line reads back), `ListingRoundTrip.antt` (the law),
//! `SameImage.antt` (a source is one of one image) and `ListingSizes.antt` (the length of a listing). Of the laws of
//! sources: `LineInsns.antt` (what a line says is an instruction of the table) and `UnrefusedSources.antt` (the image).
#![tactic(auto)]

mod laws;

pub use laws::{laws_of_listings, laws_of_sources};
