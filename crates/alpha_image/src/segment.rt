//! Data segments.

ghost use Rattle.std.specs.Prelude.{◌≡◌, ◌*◌, ◌^◌, ◌<◌, ◌≤◌, length};
ghost use Rattle.alpha_image.specs.Layout.{filled_size};
ghost use Rattle.alpha_image.specs.Reading.{segment_in, segments_in};
ghost use Rattle.alpha_image.specs.Rules.{size_of_segment};
ghost use Rattle.alpha_image.specs.FieldTests.{segment_region};

use crate::number::{longword_at, quadword_at};
use crate::region::Region;
use arrayvec::ArrayVec;

/// The most segments that an image has.
pub(crate) const MOST_SEGMENTS: usize = 8;

/// A data segment: where it stands, and how long it is.
#[derive(Clone, Copy, Debug, Default, PartialEq, Eq)]
pub struct Segment {
    /// The address of its first byte.
    pub base: u64,
    /// The number of its data bytes.
    pub filled: u64,
    /// The number of zero bytes that follow the data bytes.
    pub zeroed: u64,
}

impl Segment {
    // The segment whose numbers the bytes begin with.
    fn read(bytes: &[u8]) -> Segment
        requires { 16 ≤ length bytes.now }
        ensures value { result ≡ segment_in bytes.now }
    {
        Segment {
            base: quadword_at(bytes, 0),
            filled: u64::from(longword_at(bytes, 8)),
            zeroed: u64::from(longword_at(bytes, 12)),
        }
    }

    /// Where it stands.
    pub(crate) fn region(&self) -> Region
        requires { size_of_segment self.now < 2 ^ 64 }
        ensures value { result ≡ segment_region self.now }
    {
        Region {
            base: self.base,
            size: self.filled + self.zeroed,
        }
    }
}

/// So many segments, one behind the other.
pub(crate) fn read_segments(bytes: &[u8], count: usize) -> ArrayVec<Segment, MOST_SEGMENTS>
    requires few { count ≤ 8 }
    requires there { 16 * count ≤ length bytes.now }
    ensures value { result.items ≡ segments_in count bytes.now }
{
    let mut segments = ArrayVec::new();
    for n in 0..count {
        segments.push(Segment::read(&bytes[16 * n..]));
    }
    segments
}

/// How many data bytes the segments have.
pub(crate) fn data_size(segments: &[Segment]) -> u64
    requires { filled_size segments.now < 2 ^ 64 }
    ensures value { result ≡ filled_size segments.now }
{
    segments.iter().map(|s| s.filled).sum()
}
