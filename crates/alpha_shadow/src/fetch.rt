ghost use Rattle.std.specs.Prelude.{◌≡◌, ℕ, ◌+◌, ◌-◌, ◌^◌, ◌<◌, ◌≤◌, List, Some, min, length, slice_get, IfSome};
ghost use Rattle.std.specs.Prelude.{IfNone};
ghost use Rattle.std.specs.Option.{option_and_then};
ghost use Rattle.alpha_table.specs.Decoded.{decoded};
ghost use Rattle.alpha_shadow.specs.NoTrigger.{AreNoTriggers, IsNextTrigger};

use crate::columns::is_trigger;
use alpha_table::Insn;

/// A word with `/V`, and its place.
#[derive(Clone, Copy, Debug)]
pub struct NextTrigger {
    /// The word number.
    pub place: u32,
    /// The instruction.
    pub insn: Insn,
}

/// Where the checker reads the code's instructions, one at a time. Each look is counted.
pub trait Fetch {
    /// The words, which no call changes.
    ghost code: { Self → List ℕ };

    /// How often a word was looked at, up to the last value of a `u64`.
    ghost fetches: { Self → ℕ };

    /// How many words there are.
    fn words(&self) -> u32
        ensures { result ≡ length (code self.now) };

    /// The instruction of the word at a place.
    fn insn(&mut self, place: u32) -> Insn
        requires { place < length (code self.old) }
        ensures found { option_and_then decoded (slice_get (code self.old) place) ≡ Some result }
        ensures code { code self.new ≡ code self.old }
        ensures count { fetches self.new ≡ min (fetches self.old + 1) (2 ^ 64 - 1) };

    /// The first word with `/V` from a place on, each word up to it looked at once.
    fn next_trigger(&mut self, from: u32) -> Option<NextTrigger>
        requires { from ≤ length (code self.old) }
        ensures found { IfSome result (λ next. IsNextTrigger (code self.old) from next) }
        ensures none { IfNone result (AreNoTriggers (code self.old) from (length (code self.old))) }
        ensures code { code self.new ≡ code self.old }
        ensures looked { IfSome result (λ next.
            fetches self.new + from ≤ fetches self.old + next.place + 1) }
        ensures looked_at_all { IfNone result
            (fetches self.new + from ≤ fetches self.old + length (code self.old)) }
    {
        for place in from..self.words() {
            let insn = self.insn(place);
            if is_trigger(&insn) {
                return Some(NextTrigger { place, insn });
            }
        }
        None
    }
}
