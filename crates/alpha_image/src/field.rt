//! The fields of an image, whose numbers faults tell.

ghost use Rattle.std.specs.Prelude.{◌≡◌, ◌≢◌, Some, IfSome, IfNone};
ghost use Rattle.alpha_image.specs.ImageField.{field_name, field_number};

use std::fmt;

/// A field of an image's front, or a rule of several of them. [`ImageFault::Field`](crate::ImageFault::Field) and the
/// calls that are named `bad_field` tell its number.
#[derive(Clone, Copy, Debug, PartialEq, Eq)]
pub enum ImageField {
    /// 1: the code base.
    CodeBase,
    /// 2: the bases of the data segments.
    DataBases,
    /// 3: the number of code words.
    CodeWords,
    /// 4: the number of data bytes.
    DataBytes,
    /// 5: the number of zeroed bytes.
    ZeroedBytes,
    /// 6: the number of stack bytes.
    StackBytes,
    /// 7: the entry.
    Entry,
    /// 8: two regions share an address.
    Overlap,
    /// 9: the level.
    Level,
    /// 10: the number of segments.
    Segments,
}

impl fmt::Display for ImageField {
    ghost output = { λ field. Some (field_name field) };

    fn fmt<W: fmt::Write>(&self, f: &mut fmt::Formatter<W>) -> fmt::Result {
        f.pad(self.name())
    }
}

impl ImageField {
    /// Its name, as `code base`.
    pub fn name(self) -> &'static str
        ensures { result.now ≡ field_name self }
    {
        match self {
            ImageField::CodeBase => "code base",
            ImageField::DataBases => "data bases",
            ImageField::CodeWords => "code words",
            ImageField::DataBytes => "data bytes",
            ImageField::ZeroedBytes => "zeroed bytes",
            ImageField::StackBytes => "stack bytes",
            ImageField::Entry => "entry",
            ImageField::Overlap => "overlap",
            ImageField::Level => "level",
            ImageField::Segments => "number of segments",
        }
    }

    /// Its number, 1 to 10.
    pub fn number(self) -> u8
        ensures { result ≡ field_number self }
    {
        match self {
            ImageField::CodeBase => 1,
            ImageField::DataBases => 2,
            ImageField::CodeWords => 3,
            ImageField::DataBytes => 4,
            ImageField::ZeroedBytes => 5,
            ImageField::StackBytes => 6,
            ImageField::Entry => 7,
            ImageField::Overlap => 8,
            ImageField::Level => 9,
            ImageField::Segments => 10,
        }
    }

    /// The field with this number, `None` exactly for other numbers than 1 to 10.
    pub fn of(number: u8) -> Option<ImageField>
        ensures found { IfSome result (λ field. field_number field ≡ number) }
        ensures none { IfNone result ((field : _) → field_number field ≢ number) }
    {
        match number {
            1 => Some(ImageField::CodeBase),
            2 => Some(ImageField::DataBases),
            3 => Some(ImageField::CodeWords),
            4 => Some(ImageField::DataBytes),
            5 => Some(ImageField::ZeroedBytes),
            6 => Some(ImageField::StackBytes),
            7 => Some(ImageField::Entry),
            8 => Some(ImageField::Overlap),
            9 => Some(ImageField::Level),
            10 => Some(ImageField::Segments),
            _ => None,
        }
    }
}
