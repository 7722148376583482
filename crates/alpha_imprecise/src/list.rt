ghost use Rattle.std.specs.Prelude.{◌≡◌, ◌≤◌, ◌*◌, Some, None, IfOk, length};
ghost use Rattle.alpha_words.specs.Digits.{little_at};

use crate::Chooser;
use alpha_mem::number_of;
use alpha_words::NoMemory;
use std::alloc::Global;
use std::marker::Model;

/// The words that bytes write, eight bytes a word and the lowest byte first. A short rest is filled
/// with zeros, and behind it come words that are 0. A clause sees the bytes that are left.
#[derive(Debug, Drop)]
pub struct ListChooser {
    bytes: Vec<u8>,
    at: usize,
}

impl Model for ListChooser {
    ghost use Rattle.std.specs.Prelude.{◌≤◌, ℕ, List, drop, length};

    ghost Value = { List ℕ };

    ghost view = { λ c. drop c.at c.bytes.items };

    ghost invariant = { λ c. c.at ≤ length c.bytes.items };
}

impl ListChooser {
    /// The words of these bytes. `NoMemory` where memory runs out.
    pub fn new(alloc: Global, bytes: &[u8]) -> Result<ListChooser, NoMemory>
        ensures { IfOk result (λ c. c ≡ bytes.now) }
    {
        let bytes = bytes.to_vec(alloc)?;
        Ok(ListChooser { bytes, at: 0 })
    }
}

impl Chooser for ListChooser {
    ghost ahead = { λ left. Some (λ k. little_at 8 (8 * k) left) };

    ghost drawn = { λ _. None };

    fn next(&mut self) -> u64 {
        let left = &self.bytes[self.at..];
        let count = if left.len() < 8 { left.len() } else { 8 };
        let word = number_of(&left[..count]);
        self.at += count;
        word
    }
}
