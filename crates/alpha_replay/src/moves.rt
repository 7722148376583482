//! The moves of a run.

ghost use Rattle.std.specs.Prelude.{◌≡◌};
ghost use Rattle.alpha_replay.specs.Events.{move_by};

use alpha_seq::{End, Event, Wait};

/// One step of the imprecise machine, as the items of a journal have it.
#[derive(Clone, Copy, Debug, PartialEq, Eq)]
pub enum Move {
    /// A step with nothing pending that doesn't overflow.
    One,
    /// A step that overflows, with this value for its destination.
    Trips(u64),
    /// A word that is executed while a trap is pending.
    Waits {
        /// Whether it adds its destination to the trap's mask.
        adds: bool,
        /// The value of its destination, or the bytes that it stores.
        value: u64,
    },
    /// A report of the pending trap.
    Reports,
}

impl Move {
    /// The move that a step was, by how it went. Only a report stops the program at an overflow.
    #[inline(always)]
    pub(crate) fn of(event: &Event) -> Move
        ensures { result ≡ move_by event.now }
    {
        match *event {
            Event::Triggered(value) => Move::Trips(value),
            Event::Waited(Wait { adds, value }) => Move::Waits { adds, value },
            Event::Reported(_) | Event::Ended(End::Overflow { .. }) | Event::Lost(..) => {
                Move::Reports
            }
            Event::Went | Event::Barrier(_) | Event::Overflowed(_) | Event::Ended(_) => Move::One,
        }
    }
}
