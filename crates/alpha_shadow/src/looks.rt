ghost use Rattle.std.specs.Prelude.{◌≡◌, ℕ, ◌<◌, List, Some, length, slice_get};
ghost use Rattle.std.specs.Option.{option_and_then};
ghost use Rattle.alpha_table.specs.Decoded.{decoded};

use crate::Fetch;
use alpha_table::Insn;

/// Code whose instructions can be read by place. A [`Counted`] of it is a [`Fetch`], so that no code keeps a count.
pub trait Code {
    /// The words.
    ghost code: { Self → List ℕ };

    /// How many words there are.
    fn words(&self) -> u32
        ensures { result ≡ length (code self.now) };

    /// The instruction of the word at a place.
    fn insn(&self, place: u32) -> Insn
        requires { place < length (code self.now) }
        ensures { option_and_then decoded (slice_get (code self.now) place) ≡ Some result };
}

/// Code that counts how often one of its words is looked at. [`judge`](crate::judge) says that a verdict on it takes as
/// many looks as there are words, at most.
#[derive(Debug, Drop)]
pub struct Counted<C: Code> {
    /// The code.
    pub code: C,
    /// How many looks there were, up to the last value of a `u64`.
    pub looks: u64,
}

impl<C: Code> Counted<C> {
    /// This code, not looked at so far.
    pub fn new(code: C) -> Counted<C>
        ensures code { result.code ≡ code }
        ensures looks { result.looks ≡ 0 }
    {
        Counted { code, looks: 0 }
    }
}

impl<C: Code> Fetch for Counted<C> {
    ghost code = { λ c. C.code c.code };

    ghost fetches = { λ c. c.looks };

    fn words(&self) -> u32 {
        self.code.words()
    }

    #[inline(always)]
    fn insn(&mut self, place: u32) -> Insn {
        self.looks = self.looks.saturating_add(1);
        self.code.insn(place)
    }
}
