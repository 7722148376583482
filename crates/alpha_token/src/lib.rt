//! The tokens of a line of source.
//!
//! - [`next`] reads the token at the front of a line, after blanks: a [`Step`] with a [`Token`],
//!   the line's end or comment, or a byte that begins no token. Tokens are the longest possible.
//! - [`number`] is the value of a number's text, [`next_byte`] the first byte that the text of a
//!   string stands for.
//! - [`is_label`] tells the names that a label may have, and [`begins_label`] the first byte of one.
//! - [`is_blank`] tells the bytes between tokens, and [`without_return`] takes a line's carriage return off.
//! - [`laws_of_strings`] says that what stands between the quotes of a string is read to its end.
//!
//! `specs/Tokens.antt` has the tokens of a line as a list, `specs/Numeral.antt` and
//! `specs/Quoted.antt` the spelling of numbers and strings.
#![tactic(auto)]

mod bytes;
mod laws;
mod numeral;
mod quoted;
mod token;

pub use bytes::{begins_label, is_blank, is_label, without_return};
pub use laws::laws_of_strings;
pub use numeral::number;
pub use quoted::next_byte;
pub use token::{Step, Token, TokenKind, next, without_blanks};
