ghost use Rattle.std.specs.Prelude.{◌≡◌, ◌<◌, ◌++◌, ◌∷◌, [], length};

use alpha_words::Reg;
use std::marker::Model;

/// How many triggers can be open where no place is broken so far: as many as a shadow of 1,024 words
/// has places, with that of its trigger. No more loads can stand there.
pub(crate) const MOST: usize = 1_025;

/// An instruction that may trap.
#[derive(Clone, Copy)]
pub(crate) struct Trigger {
    pub(crate) place: u32,
    pub(crate) destination: Reg,
}

/// The triggers whose shadows reach a place, in order. A clause sees the list of them.
#[derive(Drop)]
pub(crate) struct Triggers {
    held: [Trigger; MOST],
    len: usize,
}

impl Model for Triggers {
    ghost use Rattle.std.specs.Prelude.{◌≡◌, ◌≤◌, length, take};
    ghost use Rattle.alpha_shadow.specs.declared.triggers.TheConstants.{MOST};
    ghost use Rattle.alpha_shadow.specs.OpenLists.{OpenTriggers};

    ghost Value = { OpenTriggers };

    ghost view = { λ t. record { items = take t.len t.held } };

    ghost invariant = { λ t. (t.len ≤ MOST) × (length t.held ≡ MOST) };
}

impl Triggers {
    /// No trigger.
    pub(crate) fn empty() -> Triggers
        ensures { result.items ≡ [] }
    {
        let blank = Trigger {
            place: 0,
            destination: Reg::ZERO,
        };
        Triggers {
            held: [blank; MOST],
            len: 0,
        }
    }

    /// The triggers.
    pub(crate) fn as_slice(&self) -> &[Trigger]
        ensures { result.now ≡ self.now.items }
    {
        &self.held[..self.len]
    }

    /// Adds one behind the others.
    pub(crate) fn push(&mut self, trigger: Trigger)
        requires { length self.old.items < MOST }
        ensures { self.new.items ≡ self.old.items ++ trigger ∷ [] }
    {
        self.held[self.len] = trigger;
        self.len += 1;
    }

    /// Leaves none, whatever stands in the array.
    pub(crate) fn clear(&mut self)
        ensures { self.new.items ≡ [] }
    {
        self.len = 0;
    }
}
