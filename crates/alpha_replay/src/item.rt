//! The items of a journal.

ghost use Rattle.std.specs.Prelude.{◌≡◌, ◌≤◌};
ghost use Rattle.alpha_replay.specs.Items.{item_size, item_units, is_units, item_in};

use alpha_image::{longword_at, quadword_at};

/// Steps of the imprecise machine, as a journal has them.
#[derive(Clone, Copy, Debug, PartialEq, Eq)]
pub enum Item {
    /// So many steps with nothing pending that don't overflow, at least 1.
    Units(u32),
    /// A step that overflows, with this value for its destination.
    Trigger(u64),
    /// A word that is executed while a trap is pending.
    Wait {
        /// Whether it adds its destination to the trap's mask.
        adds: bool,
        /// The value of its destination, or the bytes that it stores.
        value: u64,
    },
    /// A report of the pending trap.
    Report,
}

impl Item {
    /// The item that the bytes begin with, `None` where it isn't whole or is bad. `behind` says that it
    /// stands behind a Units.
    pub(crate) fn read(after_units: bool, bytes: &[u8]) -> Option<Item>
        ensures value { result ≡ item_in after_units bytes.now }
    {
        match *bytes.first()? {
            0 if !after_units && 5 <= bytes.len() => {
                let units = longword_at(bytes, 1);
                if units == 0 {
                    None
                } else {
                    Some(Item::Units(units))
                }
            }
            1 if 9 <= bytes.len() => Some(Item::Trigger(quadword_at(bytes, 1))),
            2 if 10 <= bytes.len() && bytes[1] <= 1 => Some(Item::Wait {
                adds: bytes[1] == 1,
                value: quadword_at(bytes, 2),
            }),
            3 => Some(Item::Report),
            _ => None,
        }
    }

    /// How many bytes it has.
    pub(crate) fn size(&self) -> usize
        ensures value { result ≡ item_size self.now }
        ensures bound { result ≤ 10 }
    {
        match self {
            Item::Units(_) => 5,
            Item::Trigger(_) => 9,
            Item::Wait { .. } => 10,
            Item::Report => 1,
        }
    }

    /// How many units it uses.
    pub(crate) fn units(&self) -> u32
        ensures value { result ≡ item_units self.now }
    {
        match *self {
            Item::Units(units) => units,
            Item::Trigger(_) => 1,
            Item::Wait { .. } | Item::Report => 0,
        }
    }

    /// Whether it is a Units.
    pub(crate) fn is_units(&self) -> bool
        ensures value { result ≡ is_units self.now }
    {
        matches!(self, Item::Units(_))
    }
}
