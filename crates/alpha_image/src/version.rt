//! The two versions of an image's layout.

ghost use Rattle.std.specs.Prelude.{◌≡◌};
ghost use Rattle.alpha_image.specs.Layout.{magic};
ghost use Rattle.alpha_image.specs.Reading.{version_of};
ghost use Rattle.alpha_image.specs.PartsOf.{version_number};

/// Which layout an image's bytes have.
#[derive(Clone, Copy, Debug, PartialEq, Eq)]
pub enum Version {
    /// The image has level one and one data segment.
    One,
    /// The image has a level, and 0 to 8 data segments.
    Two,
}

impl Version {
    /// 1 or 2.
    pub fn number(self) -> u8
        ensures value { result ≡ version_number self }
    {
        match self {
            Version::One => 1,
            Version::Two => 2,
        }
    }

    /// The version of bytes: those that do not begin as the second does are looked at as the first.
    #[tactic(auto, unfolding(crate::specs::Reading::version_of))]
    pub(crate) fn of(bytes: &[u8]) -> Version
        ensures value { result ≡ version_of bytes.now }
    {
        if bytes.starts_with(&Version::Two.magic()) {
            Version::Two
        } else {
            Version::One
        }
    }

    /// What the bytes of an image begin with: `ALPHAIM1` or `ALPHAIM2`.
    pub(crate) fn magic(self) -> [u8; 8]
        ensures value { result ≡ magic self }
    {
        match self {
            Version::One => *b"ALPHAIM1",
            Version::Two => *b"ALPHAIM2",
        }
    }
}
