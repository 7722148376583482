ghost use Rattle.std.specs.Prelude.{◌≡◌};
ghost use Rattle.alpha_quick.specs.Keys.{with_byte};

/// The last eight bytes of a name as one number, the last of them in its low bits. Two names of eight
/// bytes at most are equal exactly where their keys are.
#[derive(Clone, Copy, PartialEq, Eq)]
pub(crate) struct NameKey(pub u64);

impl NameKey {
    /// The key of a name without bytes.
    pub(crate) const EMPTY: NameKey = NameKey(0);

    /// The key of a name with a further byte at its end.
    #[inline(always)]
    pub(crate) fn with_byte(self, byte: u8) -> NameKey
        ensures { result.0 ≡ with_byte self.0 byte }
    {
        NameKey(self.0.wrapping_mul(256).wrapping_add(u64::from(byte)))
    }
}
