//! The verdict on an image, and the line that says it, over the checker of `alpha_shadow`, which knows of
//! words alone.
//!
//! - [`judge_image`] is the verdict on the code of an image, and [`code_of`] is that code, for a
//!   [`Checker`](alpha_shadow::Checker).
//! - [`write_broken`] writes the line of a broken place, [`line_of_broken`] has it, and [`place_address`] is the
//!   address of a place. `specs/Report.antt` says what it is.
#![tactic(auto)]

mod image;
mod report;

pub use image::{code_of, judge_image};
pub use report::{line_of_broken, place_address, write_broken};
