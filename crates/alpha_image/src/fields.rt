//! The numbers that an image is made of, beside its code and data bytes, and the least field that is bad.

ghost use Rattle.std.specs.Prelude.{◌≡◌, IfNone};
ghost use Rattle.alpha_image.specs.Fields.{level_fields, segment_of, first_numbers};
ghost use Rattle.alpha_image.specs.Rules.{FieldsFit};
ghost use Rattle.alpha_image.specs.FieldTests.{least_bad_field};

use crate::Segment;

/// The numbers of an image of version 1 that its code and data bytes do not give.
#[derive(Clone, Copy, Debug, PartialEq, Eq)]
pub struct Fields {
    /// The address of the first code word.
    pub code_base: u64,
    /// The address of the first data byte.
    pub data_base: u64,
    /// The address of the code word that runs first.
    pub entry: u64,
    /// The number of zero bytes that follow the data bytes.
    pub zeroed: u64,
    /// The number of stack bytes.
    pub stack: u64,
}

/// The numbers of an image of version 2 that its segments, code and data bytes do not give.
#[derive(Clone, Copy, Debug, PartialEq, Eq)]
pub struct LevelFields {
    /// The address of the first code word.
    pub code_base: u64,
    /// The address of the code word that runs first.
    pub entry: u64,
    /// The number of stack bytes.
    pub stack: u64,
    /// 1 or 2: which instructions the code may have.
    pub level: u64,
}

impl Fields {
    /// The least number of a bad field of an image of version 1 with these fields, so many code words
    /// and so many data bytes.
    pub fn bad_field(&self, words: u64, filled: u64) -> Option<u8>
        ensures value { result ≡ least_bad_field (first_numbers self.now words filled) }
        ensures good { IfNone result (FieldsFit (first_numbers self.now words filled)) }
    {
        self.level_fields()
            .bad_field(words, &[self.segment(filled)])
    }

    /// The fields without those of the segment, at level 1.
    pub(crate) fn level_fields(&self) -> LevelFields
        ensures value { result ≡ level_fields self.now }
    {
        LevelFields {
            code_base: self.code_base,
            entry: self.entry,
            stack: self.stack,
            level: 1,
        }
    }

    /// The segment, with so many data bytes.
    pub(crate) fn segment(&self, filled: u64) -> Segment
        ensures value { result ≡ segment_of self.now filled }
    {
        Segment {
            base: self.data_base,
            filled,
            zeroed: self.zeroed,
        }
    }
}
