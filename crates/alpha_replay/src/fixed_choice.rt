//! The choices of a replay's steps.

use crate::Move;
use alpha_imprecise::ChoiceSource;
use alpha_seq::Wait;

/// Who chooses as a move says, where the step asks for what the move has; else it has a report, or a value of 0.
#[derive(Clone, Copy, Debug)]
pub(crate) struct FixedChoice {
    /// The move.
    pub(crate) step: Move,
}

impl ChoiceSource for FixedChoice {
    ghost use Rattle.alpha_replay.specs.FixedChoice.{gives_pick, gives_value};

    ghost gives_pick = { gives_pick };

    ghost values = { gives_value };

    #[inline(always)]
    fn pick(&mut self) -> Option<Wait> {
        match self.step {
            Move::Waits { adds, value } => Some(Wait { adds, value }),
            Move::One | Move::Trips(_) | Move::Reports => None,
        }
    }

    #[inline(always)]
    fn value(&mut self) -> u64 {
        match self.step {
            Move::Trips(value) => value,
            Move::One | Move::Waits { .. } | Move::Reports => 0,
        }
    }
}
