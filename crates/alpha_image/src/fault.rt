//! Why an image could not be made.

ghost use Rattle.std.specs.Prelude.{◌≡◌, ◌≢◌, IfSome, IfNone};
ghost use Rattle.alpha_image.specs.ImageField.{field_number};
ghost use Rattle.alpha_image.specs.declared.fault.ImageFault.TheVariants.{Field, NoMemory};

use crate::ImageField;
use std::alloc::{AllocError, AllocFailed};
use thiserror::Error;

/// Why there is no image. The first fault in this order is told: for bytes that begin with `ALPHAIM2`,
/// `Short` below 40 bytes, field 10, `Short` below the end of the segments' numbers, the least bad
/// `Field`, `Length`, `BadWord`; for all other bytes the order of the variants.
///
/// The fields are numbered 1 code base, 2 data bases, 3 code words, 4 data bytes, 5 zeroed bytes,
/// 6 stack bytes, 7 entry, 8 overlap, 9 level and 10 number of segments, as [`ImageField`](crate::ImageField) has them.
#[derive(Clone, Copy, Debug, PartialEq, Eq, Error)]
pub enum ImageFault {
    /// There are only so many bytes, fewer than stand before the code.
    #[error("the image has {0} bytes, fewer than stand before its code")]
    Short(u64),
    /// The first eight bytes are neither `ALPHAIM1` nor `ALPHAIM2`.
    #[error("the image begins with neither ALPHAIM1 nor ALPHAIM2")]
    Magic,
    /// The least number of a bad field.
    #[error("field {0} of the image is bad")]
    Field(u8),
    /// The given number of bytes is not the number wanted.
    #[error("the image has {0} bytes in place of {1}")]
    Length(u64, u64),
    /// The place of the first code word that is outside the instruction table or above the image's level,
    /// and the word.
    #[error("code word {0} is {1:#010x}, which is no instruction of the image's level")]
    BadWord(u32, u32),
    /// Memory ran out.
    #[error("out of memory")]
    NoMemory,
}

impl ImageFault {
    /// The bad field that it names. `None` where the fault is another one, or no field has the number.
    pub fn field(&self) -> Option<ImageField>
        ensures found { IfSome result (λ field. self.now ≡ Field (field_number field)) }
        ensures none { IfNone result ((field : _) → self.now ≢ Field (field_number field)) }
    {
        match *self {
            ImageFault::Field(number) => ImageField::of(number),
            _ => None,
        }
    }
}

impl From<AllocError> for ImageFault {
    ghost from_gives = { λ _ e. e ≡ NoMemory };

    fn from(_: AllocError) -> Self {
        ImageFault::NoMemory
    }
}

impl<T: Drop> From<AllocFailed<T>> for ImageFault {
    ghost from_gives = { λ _ e. e ≡ NoMemory };

    fn from(_: AllocFailed<T>) -> Self {
        ImageFault::NoMemory
    }
}
