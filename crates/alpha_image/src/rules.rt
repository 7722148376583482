//! The rules of an image's numbered fields.

ghost use Rattle.std.specs.Prelude.{◌≡◌, ◌+◌, ◌≤◌, ◌^◌, nat_le, map, sum_by, IsTrue, IfNone, All};
ghost use Rattle.std.specs.List.{list_all};
ghost use Rattle.alpha_image.specs.Fields.{level_numbers};
ghost use Rattle.alpha_image.specs.Rules.{FieldsFit, size_of_segment};
ghost use Rattle.alpha_image.specs.FieldTests.{least_bad_field, is_base, rise, data_bases_fit, code_words_fit};
ghost use Rattle.alpha_image.specs.FieldTests.{data_bytes_fit, zeroed_bytes_fit, stack_bytes_fit, entry_fits};
ghost use Rattle.alpha_image.specs.FieldTests.{regions_fit, level_fits, segments_fit, all_apart, are_apart};
ghost use Rattle.alpha_image.specs.FieldTests.{segment_region};

use crate::region::Region;
use crate::segment::MOST_SEGMENTS;
use crate::{LevelFields, Segment};

// Every region ends here or below.
const END: u64 = 1 << 30;

const BASE_STEP: u64 = 8192;

const MOST_WORDS: u64 = 262_144;

const MOST_DATA: u64 = 16_777_216;

const LEAST_STACK: u64 = 16;

const MOST_STACK: u64 = 1_048_576;

impl LevelFields {
    /// The least number of a bad field of an image of version 2 with these fields, so many code words
    /// and these segments.
    #[tactic(auto, unfolding(crate::specs::FieldTests::least_bad_field))]
    pub fn bad_field(&self, words: u64, segments: &[Segment]) -> Option<u8>
        ensures value { result ≡ least_bad_field (level_numbers self.now words segments.now) }
        ensures good { IfNone result (FieldsFit (level_numbers self.now words segments.now)) }
    {
        if !is_base(self.code_base) {
            return Some(1);
        }
        if !data_bases_fit(segments) {
            return Some(2);
        }
        if !code_words_fit(self.code_base, words) {
            return Some(3);
        }
        if !data_bytes_fit(segments) {
            return Some(4);
        }
        if !zeroed_bytes_fit(segments) {
            return Some(5);
        }
        if !stack_bytes_fit(self.stack) {
            return Some(6);
        }
        if !entry_fits(self.code_base, words, self.entry) {
            return Some(7);
        }
        if !self.regions_fit(words, segments) {
            return Some(8);
        }
        if !level_fits(self.level) {
            return Some(9);
        }
        if !count_fits(segments) {
            return Some(10);
        }
        None
    }

    #[tactic(auto, unfolding(crate::specs::FieldTests::regions_fit))]
    fn regions_fit(&self, words: u64, segments: &[Segment]) -> bool
        requires words { words ≤ 262144 }
        requires stack { self.now.stack ≤ 1048576 }
        requires sizes { All (λ s. s.base + size_of_segment s ≤ 2 ^ 30) segments.now }
        requires rise { IsTrue (rise (map (λ s. s.base) segments.now)) }
        ensures value { result ≡ regions_fit (level_numbers self.now words segments.now) }
    {
        let code = Region {
            base: self.code_base,
            size: 4 * words,
        };
        let stack = Region {
            base: END - self.stack,
            size: self.stack,
        };
        code.is_apart(stack)
            && are_all_apart(code, segments)
            && are_all_apart(stack, segments)
            && segments_apart(segments)
    }
}

#[tactic(auto, unfolding(crate::specs::FieldTests::is_base))]
fn is_base(base: u64) -> bool
    ensures value { result ≡ is_base base }
{
    base % BASE_STEP == 0 && base < END
}

#[tactic(auto, unfolding(crate::specs::FieldTests::data_bases_fit))]
fn data_bases_fit(segments: &[Segment]) -> bool
    ensures value { result ≡ data_bases_fit segments.now }
    ensures rise { IsTrue result → IsTrue (rise (map (λ s. s.base) segments.now)) }
{
    are_bases(segments) && bases_rise(segments)
}

fn are_bases(segments: &[Segment]) -> bool
    ensures value { result ≡ list_all (λ s. is_base s.base) segments.now }
{
    segments.iter().all(|s| is_base(s.base))
}

// Whether each base is above the base before it.
fn bases_rise(segments: &[Segment]) -> bool
    ensures value { result ≡ rise (map (λ s. s.base) segments.now) }
{
    for n in 1..segments.len() {
        if segments[n].base <= segments[n - 1].base {
            return false;
        }
    }
    true
}

#[tactic(auto, unfolding(crate::specs::FieldTests::code_words_fit))]
fn code_words_fit(base: u64, words: u64) -> bool
    ensures value { result ≡ code_words_fit base words }
    ensures bound { IsTrue result → words ≤ 262144 }
{
    0 < words && words <= MOST_WORDS && base <= END - 4 * words
}

#[tactic(auto, unfolding(crate::specs::FieldTests::data_bytes_fit))]
fn data_bytes_fit(segments: &[Segment]) -> bool
    ensures value { result ≡ data_bytes_fit segments.now }
{
    segments.iter().all(|s| s.filled <= MOST_DATA)
}

#[tactic(auto, unfolding(crate::specs::FieldTests::zeroed_bytes_fit))]
fn zeroed_bytes_fit(segments: &[Segment]) -> bool
    ensures value { result ≡ zeroed_bytes_fit segments.now }
    ensures bound { IsTrue result → All (λ s. s.base + size_of_segment s ≤ 2 ^ 30) segments.now }
{
    sizes_fit(segments) && ends_fit(segments)
}

// Whether all data and zeroed bytes together are few enough.
fn sizes_fit(segments: &[Segment]) -> bool
    ensures value { result ≡ nat_le (sum_by size_of_segment segments.now) 16777216 }
{
    let mut room = MOST_DATA;
    for s in segments {
        if s.filled > room || s.zeroed > room - s.filled {
            return false;
        }
        room -= s.filled + s.zeroed;
    }
    true
}

// Whether each segment ends where regions may end.
fn ends_fit(segments: &[Segment]) -> bool
    ensures value { result
        ≡ list_all (λ s. nat_le (s.base + size_of_segment s) (2 ^ 30)) segments.now }
{
    segments.iter().all(|s| s.base <= END
        && s.filled <= END - s.base
        && s.zeroed <= END - s.base - s.filled)
}

#[tactic(auto, unfolding(crate::specs::FieldTests::stack_bytes_fit))]
fn stack_bytes_fit(stack: u64) -> bool
    ensures value { result ≡ stack_bytes_fit stack }
    ensures bound { IsTrue result → stack ≤ 1048576 }
{
    LEAST_STACK <= stack && stack <= MOST_STACK && stack % 16 == 0
}

#[tactic(auto, unfolding(crate::specs::FieldTests::entry_fits))]
fn entry_fits(base: u64, words: u64, entry: u64) -> bool
    ensures value { result ≡ entry_fits base words entry }
{
    entry % 4 == 0 && base <= entry && (entry - base) / 4 < words
}

#[tactic(auto, unfolding(crate::specs::FieldTests::level_fits))]
fn level_fits(level: u64) -> bool
    ensures value { result ≡ level_fits level }
{
    level == 1 || level == 2
}

#[tactic(auto, unfolding(crate::specs::FieldTests::segments_fit))]
fn count_fits(segments: &[Segment]) -> bool
    ensures value { result ≡ segments_fit segments.now }
{
    segments.len() <= MOST_SEGMENTS
}

// Whether the region shares no address with a segment.
fn are_all_apart(region: Region, segments: &[Segment]) -> bool
    requires sizes { All (λ s. s.base + size_of_segment s ≤ 2 ^ 30) segments.now }
    ensures value { result ≡ list_all (are_apart region) (map segment_region segments.now) }
{
    for s in segments {
        if !region.is_apart(s.region()) {
            return false;
        }
    }
    true
}

// Whether no two segments share an address. Their bases rise, so a segment that shares one with any
// before it also does with the one that ends last.
fn segments_apart(segments: &[Segment]) -> bool
    requires sizes { All (λ s. s.base + size_of_segment s ≤ 2 ^ 30) segments.now }
    requires rise { IsTrue (rise (map (λ s. s.base) segments.now)) }
    ensures value { result ≡ all_apart (map segment_region segments.now) }
{
    let mut end = 0;
    for s in segments {
        let region = s.region();
        if region.size > 0 && region.base < end {
            return false;
        }
        end = end.max(region.base + region.size);
    }
    true
}
