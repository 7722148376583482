ghost use Rattle.std.specs.Prelude.{◌≡◌, ℕ, List, Bool};
ghost use Rattle.alpha_names.specs.Finder.{is_named};

/// What tells which numbers are those of a name.
pub trait Source {
    /// Whether a name has a number.
    ghost named: { Self → List ℕ → ℕ → Bool };

    /// Whether a name has a number.
    fn is_named(&self, number: usize, name: &[u8]) -> bool
        ensures { result ≡ named self.now name.now number };
}

impl<'a> Source for Vec<&'a [u8]> {
    ghost named = { λ names. is_named names.items };

    fn is_named(&self, number: usize, name: &[u8]) -> bool {
        match self.get(number) {
            Some(other) => *other == name,
            None => false,
        }
    }
}
