ghost use Rattle.std.specs.Prelude.{ℕ};
ghost use Rattle.alpha_imprecise.specs.ChoiceSource.{Pick};

use crate::Chooser;
use alpha_seq::Wait;

/// Who makes the choices of a step.
pub trait ChoiceSource {
    /// From one to another by a pick.
    ghost gives_pick: { Self → Pick → Self → Type 0 };

    /// From one to another by a value.
    ghost values: { Self → ℕ → Self → Type 0 };

    /// How a word is executed while a trap is pending, or `None` where the trap is reported before it.
    fn pick(&mut self) -> Option<Wait>
        ensures { gives_pick self.old result self.new };

    /// The value that the destination of an instruction that overflows gets.
    fn value(&mut self) -> u64
        ensures { values self.old result self.new };
}

/// A chooser picks by its words. A pick is one word or two: a report where the first is a multiple of 4, else the
/// second is the value, and bit 2 of the first says whether the destination is added to the mask.
impl<C: Chooser> ChoiceSource for C {
    ghost use Rattle.alpha_imprecise.specs.ChoiceSource.{reads_pick, reads_value};

    ghost gives_pick = { reads_pick C.ahead C.drawn };

    ghost values = { reads_value C.ahead C.drawn };

    #[inline(always)]
    fn pick(&mut self) -> Option<Wait> {
        let c = self.next();
        if c % 4 == 0 {
            return None;
        }
        let value = self.next();
        Some(Wait {
            adds: c / 4 % 2 == 1,
            value,
        })
    }

    #[inline(always)]
    fn value(&mut self) -> u64 {
        self.next()
    }
}
