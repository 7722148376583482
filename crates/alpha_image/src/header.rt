//! The front of an image: what stands before its code.

ghost use Rattle.std.specs.Prelude.{◌≡◌, ◌≢◌, ◌<◌, ◌≤◌, length, take, IfNone, IfOk, IfErr};
ghost use Rattle.alpha_image.specs.Header.{header_numbers};
ghost use Rattle.alpha_image.specs.Layout.{filled_size, first_segment};
ghost use Rattle.alpha_image.specs.Reading.{version_of, numbers_in, numbers_of, size_of, image_header_size};
ghost use Rattle.alpha_image.specs.Reading.{numbered_level};
ghost use Rattle.alpha_image.specs.Rules.{FieldsFit};
ghost use Rattle.alpha_image.specs.FieldTests.{least_bad_field};
ghost use Rattle.alpha_image.specs.ImageFault.{image_header_fault};
ghost use Rattle.alpha_image.specs.Tells.{Tells};

use crate::number::{longword_at, quadword_at};
use crate::segment::{MOST_SEGMENTS, data_size, read_segments};
use crate::{ImageFault, LevelFields, Segment, Version};
use alpha_words::Level;
use arrayvec::ArrayVec;

// How many bytes the front has in version 1.
const FIRST_BYTES: usize = 48;

// How many bytes stand before the segments in version 2.
const LEVEL_BYTES: usize = 40;

const SEGMENT_BYTES: usize = 16;

/// The numbers that an image begins with. At most eight segments fit in, so it takes no memory.
#[derive(Debug, Drop)]
pub(crate) struct Header {
    pub version: Version,
    pub fields: LevelFields,
    /// The number of code words.
    pub words: u64,
    pub segments: ArrayVec<Segment, MOST_SEGMENTS>,
}

impl Header {
    /// The numbers at the front of the bytes.
    pub fn read(bytes: &[u8]) -> Result<Header, ImageFault>
        ensures fault { Tells result (image_header_fault (version_of bytes.now) bytes.now) }
        ensures memory { IfErr result (λ e. e ≢ ImageFault.NoMemory) }
        ensures version { IfOk result (λ h. h.version ≡ version_of bytes.now) }
        ensures numbers { IfOk result (λ h. header_numbers h ≡ numbers_of bytes.now) }
    {
        match Version::of(bytes) {
            Version::One => Header::read_first(bytes),
            Version::Two => Header::read_level(bytes),
        }
    }

    // The header in bytes of version 1.
    #[tactic(auto, unfolding(crate::specs::ImageFault::image_header_fault))]
    fn read_first(bytes: &[u8]) -> Result<Header, ImageFault>
        ensures fault { Tells result (image_header_fault Version.One bytes.now) }
        ensures memory { IfErr result (λ e. e ≢ ImageFault.NoMemory) }
        ensures version { IfOk result (λ h. h.version ≡ Version.One) }
        ensures numbers { IfOk result (λ h. header_numbers h ≡ numbers_in Version.One bytes.now) }
    {
        if bytes.len() < FIRST_BYTES {
            return Err(ImageFault::Short(bytes.len() as u64));
        }
        if !bytes.starts_with(&Version::One.magic()) {
            return Err(ImageFault::Magic);
        }
        let mut segments = ArrayVec::new();
        segments.push(Segment {
            base: quadword_at(bytes, 16),
            filled: u64::from(longword_at(bytes, 36)),
            zeroed: u64::from(longword_at(bytes, 40)),
        });
        Ok(Header {
            version: Version::One,
            fields: LevelFields {
                code_base: quadword_at(bytes, 8),
                entry: quadword_at(bytes, 24),
                stack: u64::from(longword_at(bytes, 44)),
                level: 1,
            },
            words: u64::from(longword_at(bytes, 32)),
            segments,
        })
    }

    // The header in bytes of version 2.
    #[tactic(auto, unfolding(crate::specs::ImageFault::image_header_fault))]
    fn read_level(bytes: &[u8]) -> Result<Header, ImageFault>
        ensures fault { Tells result (image_header_fault Version.Two bytes.now) }
        ensures memory { IfErr result (λ e. e ≢ ImageFault.NoMemory) }
        ensures version { IfOk result (λ h. h.version ≡ Version.Two) }
        ensures numbers { IfOk result (λ h. header_numbers h ≡ numbers_in Version.Two bytes.now) }
    {
        let short = ImageFault::Short(bytes.len() as u64);
        if bytes.len() < LEVEL_BYTES {
            return Err(short);
        }
        let count = longword_at(bytes, 36) as usize;
        if count > MOST_SEGMENTS {
            return Err(ImageFault::Field(10));
        }
        if bytes.len() < LEVEL_BYTES + SEGMENT_BYTES * count {
            return Err(short);
        }
        Ok(Header {
            version: Version::Two,
            fields: LevelFields {
                code_base: quadword_at(bytes, 8),
                entry: quadword_at(bytes, 16),
                stack: u64::from(longword_at(bytes, 28)),
                level: u64::from(longword_at(bytes, 32)),
            },
            words: u64::from(longword_at(bytes, 24)),
            segments: read_segments(&bytes[LEVEL_BYTES..], count),
        })
    }

    /// The least number of a bad field.
    pub fn bad_field(&self) -> Option<u8>
        ensures value { result ≡ least_bad_field (header_numbers self.now) }
        ensures good { IfNone result (FieldsFit (header_numbers self.now)) }
    {
        self.fields.bad_field(self.words, &self.segments)
    }

    /// How many bytes stand before the code.
    pub fn front_size(&self) -> usize
        ensures value { result ≡ image_header_size self.now.version (header_numbers self.now) }
        ensures bound { result ≤ 168 }
    {
        match self.version {
            Version::One => FIRST_BYTES,
            Version::Two => LEVEL_BYTES + SEGMENT_BYTES * self.segments.len(),
        }
    }

    /// How many bytes an image with these numbers has.
    pub fn size(&self) -> u64
        requires { FieldsFit (header_numbers self.now) }
        ensures value { result ≡ size_of self.now.version (header_numbers self.now) }
    {
        self.front_size() as u64 + 4 * self.words + data_size(&self.segments)
    }

    /// How many data bytes the segments before one have.
    pub fn data_size_before(&self, n: usize) -> usize
        requires fits { FieldsFit (header_numbers self.now) }
        requires there { n < length self.now.segments.items }
        ensures value { result ≡ filled_size (take n self.now.segments.items) }
    {
        data_size(&self.segments[..n]) as usize
    }

    /// Which instructions the code may have.
    pub fn level(&self) -> Level
        ensures value { result ≡ numbered_level self.now.fields.level }
    {
        if self.fields.level == 2 {
            Level::Two
        } else {
            Level::One
        }
    }

    /// The first segment, one of zeros where there is none.
    pub fn first_segment(&self) -> Segment
        ensures value { result ≡ first_segment self.now.segments.items }
    {
        self.segments.first().copied().unwrap_or_default()
    }
}
