//! The output of a replay, held against the journal's while it grows.

ghost use Rattle.std.specs.Prelude.{◌≡◌, ◌<◌, ◌≤◌, ◌+◌, ℕ, List, ◌++◌, drop, length, Some};
ghost use Rattle.alpha_replay.specs.Compared.{Sees, first_difference};

/// What was seen of an output so far.
#[derive(Clone, Copy, Debug, PartialEq, Eq)]
pub(crate) struct Compared {
    /// How many bytes are as expected, from the front.
    pub(crate) at: usize,
    /// Whether it has another byte behind them, or one more than is expected.
    pub(crate) differs: bool,
}

impl Compared {
    /// Of no output.
    pub(crate) const NOTHING: Compared = Compared {
        at: 0,
        differs: false,
    };

    /// What is seen with these bytes more.
    #[inline(always)]
    pub(crate) fn with(self, bytes: &[u8], expected: &[u8]) -> Compared
        requires { self.at ≤ length expected.now }
        ensures sees { (output : List ℕ) → Sees expected.now self output
            → Sees expected.now result (output ++ bytes.now) }
        ensures bound { result.at ≤ length expected.now }
    {
        if bytes.is_empty() {
            return self;
        }
        if self.differs {
            return self;
        }
        let more = same_prefix(bytes, &expected[self.at..]);
        Compared {
            at: self.at + more,
            differs: more < bytes.len(),
        }
    }

    /// Where the output differs from what is expected.
    pub(crate) fn difference(self, expected: &[u8]) -> Option<u64>
        requires { self.at ≤ length expected.now }
        ensures { (output : List ℕ) → Sees expected.now self output
            → first_difference 0 output expected.now ≡ result }
    {
        if self.differs {
            return Some(self.at as u64);
        }
        if self.at < expected.len() {
            return Some(self.at as u64);
        }
        None
    }
}

// How many bytes of two lists are the same, from the front.
fn same_prefix(bytes: &[u8], expected: &[u8]) -> usize
    ensures bytes { result ≤ length bytes.now }
    ensures expected { result ≤ length expected.now }
    ensures same { (n : ℕ) (more : List ℕ) → first_difference n (bytes.now ++ more) expected.now
        ≡ first_difference (n + result) (drop result bytes.now ++ more) (drop result expected.now) }
    ensures other { result < length bytes.now → (n : ℕ) (more : List ℕ)
        → first_difference n (drop result bytes.now ++ more) (drop result expected.now) ≡ Some n }
{
    let mut count = 0;
    while count < bytes.len() {
        if expected.len() <= count {
            return count;
        }
        if bytes[count] != expected[count] {
            return count;
        }
        count += 1;
    }
    count
}
