//! The lines of a source.

ghost use Rattle.std.specs.Prelude.{◌≡◌, ◌<◌, ◌∷◌, length, take};
ghost use Rattle.std.specs.Str.Lines.{lines};
ghost use Rattle.alpha_asm.specs.SourceLines.{IsFirst};

use alpha_token::without_return;
use memchr::memchr;

/// The first line of a source, and the source behind it.
#[derive(Clone, Copy)]
pub struct Line<'a> {
    /// What it says, without its end: a line feed, before which one carriage return may stand. The last line may do
    /// without.
    pub text: &'a [u8],
    /// Its bytes with its end.
    pub bytes: &'a [u8],
    /// Whether it ends with a line feed.
    pub ended: bool,
    /// What stands behind it.
    pub rest: &'a [u8],
}

impl<'a> Line<'a> {
    /// The first line of a source that isn't empty.
    #[inline(always)]
    pub fn first(source: &'a [u8]) -> Line<'a>
        requires { 0 < length source.now }
        ensures first { IsFirst source.now result }
        ensures lines { lines source.now ≡ result.text.now ∷ lines result.rest.now }
        ensures front { result.text.now ≡ take (length result.text.now) source.now }
        ensures shorter { length result.rest.now < length source.now }
    {
        match memchr(b'\n', source) {
            Some(n) => Line {
                text: without_return(&source[..n]),
                bytes: &source[..n + 1],
                ended: true,
                rest: &source[n + 1..],
            },
            None => Line {
                text: source,
                bytes: source,
                ended: false,
                rest: &[],
            },
        }
    }
}
