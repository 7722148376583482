//! Program images. An image stands for exactly one list of bytes, and every other list of bytes is
//! refused with its first fault, so that a user can repair what made it.
//!
//! An image has a version, which is the layout of its bytes. All numbers are little-endian. Version 1
//! has one data segment, and its code is of level 1:
//!
//! | Offset | Field |
//! |---|---|
//! | 0 | the 8 bytes `ALPHAIM1` |
//! | 8, 16, 24 | code base, data base and entry, of 64 bits each |
//! | 32, 36, 40, 44 | code words, data bytes, zeroed bytes and stack bytes, of 32 bits each |
//! | 48 | the code words, then the data bytes |
//!
//! Version 2 has a level and k data segments, 0 to 8:
//!
//! | Offset | Field |
//! |---|---|
//! | 0 | the 8 bytes `ALPHAIM2` |
//! | 8, 16 | code base and entry, of 64 bits each |
//! | 24, 28, 32, 36 | code words, stack bytes, level and k, of 32 bits each |
//! | 40 + 16 * n | of segment n: its base, of 64 bits, its data bytes and zeroed bytes, of 32 bits each |
//! | 40 + 16 * k | the code words, then the data bytes of the segments in order |
//!
//! - [`Image`] is a good image: no field is bad, and each code word is in the instruction table at the
//!   image's level. A clause sees its `Parts`, one record for both versions. The code is held as
//!   instructions, which are decoded once, where the words are read: [`Image::insn`],
//!   [`Image::insn_at`] and [`Image::insns`] give them, and [`Image::code_bytes`] their words.
//! - [`ImageFault`] says why there is no image, and [`ImageField`] which field its number is.
//! - [`Fields`] are the numbers that [`Image::build`] makes an image of version 1 of, with its code and
//!   data bytes. [`LevelFields`] and [`Segment`] are those of [`Image::build_level`], for version 2. The
//!   least bad field of such numbers is [`Fields::bad_field`] and [`LevelFields::bad_field`], which need
//!   no code or data bytes but only their sizes. [`Image::of_program`] makes an image of instructions and
//!   of numbers that were judged so.
//!
//! The laws, each with the call that carries it:
//!
//! - What [`read_image`] answers is good, and the bytes are its spelling. A refusal is the first fault of
//!   the bytes. Memory runs out only where there is none. [`take_image`] answers the same of a file's
//!   bytes, which the image may hold as they are: most of them aren't copied then.
//! - [`image_bytes`] gives the spelling.
//! - [`Image::build`] and [`Image::build_level`] give the image of the parts given, or the least bad
//!   field, or the first bad word. [`Image::of_program`] gives that of its instructions.
//! - [`laws_of_spelling`]: bytes have no fault exactly where they are the spelling of a good image, and
//!   that is one image. [`laws_of_fields`]: the tests of the fields decide their rules.
//!   [`laws_of_places`]: where the code words stand. [`laws_of_pieces`]: the data bytes are those of the
//!   segments.
//! - [`longword_at`], [`quadword_at`], [`push_longword`] and [`push_quadword`] read and write a number,
//!   for the other kinds of files too.
//! - [`Image::insn`], [`code_word`] and [`Image::place_of`] answer `None` exactly outside the code, with
//!   constant work and no memory.
//!
//! The tests of the front come before the first memory is taken, and memory runs out only where each
//! code word has an instruction. `src/header.rt` reads what stands before the code, `src/rules.rt` tests
//! the fields, `src/words.rt` makes words instructions, `src/number.rt` reads and writes numbers;
//! `src/read.rt`, `src/build.rt` and `src/write.rt` are the ways in and out, and `src/image.rt` is what
//! there is between. `src/version.rt`, `src/segment.rt`, `src/fields.rt` and `src/fault.rt` have the types
//! beside, `src/region.rt` tests whether two regions share an address, and `src/laws.rt` has the laws.
//!
//! Of a good image, `specs/Parts.antt` has what it is and its spelling, `specs/Layout.antt` the layout of
//! its bytes, and `specs/Rules.antt` the rules of its fields over the `specs/Numbers.antt` of either
//! version. Of other bytes, `specs/Reading.antt` has what they are read as, `specs/FieldTests.antt` the
//! rules as tests, which decide them by `specs/TestsDecide.antt`, and `specs/ImageFault.antt` the first
//! fault, by `specs/FirstOf.antt`; `specs/Tells.antt` has what a refusal tells of it, `specs/PartsOf.antt`
//! the parts that bytes give. `specs/Image.antt`, `specs/Header.antt` and `specs/Insns.antt` have what an
//! [`Image`] holds, `specs/Fields.antt` what one is made of.
#![tactic(auto)]

mod build;
mod fault;
mod field;
mod fields;
mod header;
mod image;
mod laws;
mod number;
mod read;
mod region;
mod rules;
mod segment;
mod version;
mod words;
mod write;

pub use fault::ImageFault;
pub use field::ImageField;
pub use fields::{Fields, LevelFields};
pub use image::{Image, code_word};
pub use laws::{laws_of_fields, laws_of_pieces, laws_of_places, laws_of_spelling};
pub use number::{longword_at, push_longword, push_quadword, quadword_at};
pub use read::{read_image, take_image};
pub use segment::Segment;
pub use version::Version;
pub use words::{push_words, read_words};
pub use write::image_bytes;
