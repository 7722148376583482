ghost use Rattle.std.specs.Prelude.{◌≡◌};

use std::fmt;
use thiserror::Error;

/// A condition of a trap shadow, C1 to C9 in this order (Architecture Handbook, arithmetic trap
/// completion; the exact form is this project's own). At a place of the shadow:
#[derive(Clone, Copy, Debug, PartialEq, Eq)]
pub enum Condition {
    /// C1: the trigger's destination is R31.
    ZeroDestination,
    /// C2: the word sets a register that the shadow used before it was set there.
    SourceLost,
    /// C3: the word may trap too, with the trigger's destination.
    SameDestination,
    /// C4: the word accesses memory by a register that the shadow set before.
    WildBase,
    /// C5: the word is a store that may touch a byte of an earlier load of the shadow.
    LoadThenStore,
    /// C6: the word is a locked load or a conditional store.
    Locked,
    /// C7: the word is a branch or a jump.
    Turn,
    /// C8: the code has ended.
    Open,
    /// C9: more than 1,024 words follow the trigger.
    Long,
}

impl fmt::Display for Condition {
    ghost use Rattle.std.specs.Prelude.{◌∷◌, Some, decimal};
    ghost use Rattle.alpha_shadow.specs.Least.{condition_number};

    ghost output = { λ c. Some (67 ∷ decimal (condition_number c)) };

    // As `C5`.
    fn fmt<W: fmt::Write>(&self, f: &mut fmt::Formatter<W>) -> fmt::Result {
        let number = self.number();
        write!(f, "C{number}")
    }
}

impl Condition {
    ghost use Rattle.alpha_shadow.specs.Least.{condition_number};

    /// Its number, 1 to 9.
    pub fn number(self) -> u8
        ensures { result ≡ condition_number self }
    {
        match self {
            Condition::ZeroDestination => 1,
            Condition::SourceLost => 2,
            Condition::SameDestination => 3,
            Condition::WildBase => 4,
            Condition::LoadThenStore => 5,
            Condition::Locked => 6,
            Condition::Turn => 7,
            Condition::Open => 8,
            Condition::Long => 9,
        }
    }
}

/// A broken place: the trigger's word number, the word number of the place, and the condition.
#[derive(Clone, Copy, Debug, PartialEq, Eq, Error)]
#[error("word {at} breaks {condition} of the trigger at word {trigger}")]
pub struct Broken {
    /// The word number of the trigger.
    pub trigger: u32,
    /// The word number of the place, which is that of the trigger or a greater one.
    pub at: u32,
    /// The condition that is broken there.
    pub condition: Condition,
}
