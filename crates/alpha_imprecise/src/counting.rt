ghost use Rattle.std.specs.Prelude.{◌≡◌, Some};

use crate::Chooser;

/// A chooser that counts the words which it has answered.
#[derive(Debug, Drop)]
pub struct CountingChooser<C: Chooser> {
    /// Where its words come from.
    pub chooser: C,
    /// How many words it has answered, modulo 2^64.
    pub drawn: u64,
}

impl<C: Chooser> CountingChooser<C> {
    /// A chooser whose words come from this one, and that has answered none so far.
    pub fn new(chooser: C) -> CountingChooser<C>
        ensures chooser { result.chooser ≡ chooser }
        ensures drawn { result.drawn ≡ 0 }
    {
        CountingChooser { chooser, drawn: 0 }
    }

    /// How many words it has answered, modulo 2^64.
    pub fn drawn(&self) -> u64
        ensures { result ≡ self.now.drawn }
    {
        self.drawn
    }
}

impl<C: Chooser> Chooser for CountingChooser<C> {
    ghost ahead = { λ c. C.ahead c.chooser };

    ghost drawn = { λ c. Some c.drawn };

    fn next(&mut self) -> u64 {
        let word = self.chooser.next();
        self.drawn = self.drawn.wrapping_add(1);
        word
    }
}
