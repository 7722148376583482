ghost use Rattle.std.specs.Prelude.{◌≡◌};
ghost use Rattle.alpha_seq.specs.StepLabel.{is_over};

use crate::End;
use alpha_pal::Passed;
use alpha_words::RegSet;

/// How a step went whose devices didn't fail, of the sequential machine and of the imprecise one.
#[derive(Clone, Copy, Debug, PartialEq, Eq)]
pub enum Event {
    /// An instruction was executed with nothing pending.
    Went,
    /// A barrier was executed, and this passed between memory and a device.
    Barrier(Passed),
    /// The instruction at this address overflowed, and was completed and logged.
    Overflowed(u64),
    /// An instruction overflowed, its trap is pending, and its destination got this value.
    Triggered(u64),
    /// An instruction was executed while a trap is pending, so.
    Waited(Wait),
    /// The pending trap was reported, and the word at this address completed and logged.
    Reported(u64),
    /// The program ended, and the state is as before but for a report.
    Ended(End),
    /// The pending trap was reported, and the handler found no word for its PC and its mask. The
    /// state and the trap are as before.
    Lost(u64, RegSet),
}

/// What an instruction did that was executed while a trap is pending.
#[derive(Clone, Copy, Debug, PartialEq, Eq)]
pub struct Wait {
    /// Whether its destination was added to the set of registers that the trap may have spoilt: never
    /// R31, nor the destination of a word that can't trap.
    pub adds: bool,
    /// What its destination got, or the bytes that it stored.
    pub value: u64,
}

impl Event {
    /// Whether the run is over behind it.
    #[inline(always)]
    pub fn is_over(&self) -> bool
        ensures { result ≡ is_over self.now }
    {
        matches!(self, Event::Ended(_) | Event::Lost(..))
    }
}
