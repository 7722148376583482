ghost use Rattle.std.specs.Prelude.{◌≡◌, ℕ, ◌<◌, List, [], ◌∷◌, ◌++◌, length, take, Option, IfOk, OnErr};
ghost use Rattle.std.specs.Io.{ReadsAtMost};
ghost use Rattle.std.specs.Io.KnownBytes.{Consumes, Keeps, IsAtEnd};
ghost use Rattle.alpha_io.specs.History.{Reply, take_reply};
ghost use Rattle.alpha_io.specs.Faults.{HasCause};

use crate::Failed;

/// Where input comes from.
pub trait Source {
    /// The bytes still to come, or `None` where the source tells nothing.
    ghost left: { Self → Option (List ℕ) };

    /// What its calls answered so far.
    ghost replies: { Self → List Reply };

    /// How often the source has failed, at most the last value of a `u64`.
    ghost faults: { Self → ℕ };

    /// Takes bytes into the front of the buffer, and answers how many: none exactly at the end.
    /// `Failed` leaves the bytes still to come as they were.
    fn take(&mut self, buf: &mut [u8]) -> Result<usize, Failed>
        requires { 0 < length buf.old }
        ensures bound { ReadsAtMost result buf.new }
        ensures bytes { IfOk result (λ n.
            Consumes (left self.old) (left self.new) (take n buf.new)) }
        ensures end { IfOk result (λ n. n ≡ 0 → IsAtEnd (left self.old)) }
        ensures failed { OnErr result (Keeps (left self.old) (left self.new)) }
        ensures replies { replies self.new ≡ replies self.old ++ take_reply result buf.new ∷ [] }
        ensures cause { HasCause (faults self.old) (faults self.new) result };
}
