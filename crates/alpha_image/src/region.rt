//! Regions of addresses, and whether they overlap.

ghost use Rattle.std.specs.Prelude.{◌≡◌, ◌+◌, nat_le};
ghost use Rattle.alpha_image.specs.FieldTests.{are_apart};

/// So many addresses from the base on.
#[derive(Clone, Copy, Debug)]
pub(crate) struct Region {
    pub base: u64,
    pub size: u64,
}

impl Region {
    /// Whether no address is in both.
    #[tactic(auto, unfolding(crate::specs::FieldTests::are_apart))]
    pub fn is_apart(self, other: Region) -> bool
        ensures value { result ≡ are_apart self other }
    {
        self.size == 0 || other.size == 0 || self.is_below(other) || other.is_below(self)
    }

    // Whether the region ends where the other one begins, or before it.
    fn is_below(self, other: Region) -> bool
        ensures value { result ≡ nat_le (self.base + self.size) other.base }
    {
        self.base <= other.base && self.size <= other.base - self.base
    }
}
