ghost use Rattle.std.specs.Prelude.{ℕ, ◌<◌, ◌≤◌, List, length, take, Option, IfOk, OnOk, OnErr};
ghost use Rattle.std.specs.Io.KnownBytes.{Appends, Keeps};
ghost use Rattle.alpha_io.specs.Faults.{HasCause};
ghost use Rattle.alpha_io.specs.Written.{WritesPrefix};

use crate::Failed;

/// Where output goes.
pub trait Sink {
    /// The bytes written so far, or `None` where the sink tells nothing.
    ghost written: { Self → Option (List ℕ) };

    /// How often the sink has failed, at most the last value of a `u64`.
    ghost faults: { Self → ℕ };

    /// Appends bytes from the front, at least one, and answers how many. `Failed` leaves the bytes written so
    /// far as they were.
    fn put(&mut self, bytes: &[u8]) -> Result<usize, Failed>
        requires { 0 < length bytes.now }
        ensures some { IfOk result (λ n. 0 < n) }
        ensures bound { IfOk result (λ n. n ≤ length bytes.now) }
        ensures bytes { IfOk result (λ n.
            Appends (written self.old) (written self.new) (take n bytes.now)) }
        ensures failed { OnErr result (Keeps (written self.old) (written self.new)) }
        ensures cause { HasCause (faults self.old) (faults self.new) result };
}

/// Appends all the bytes, which may be none, or on `Failed` a prefix of them.
pub fn write_whole<K: Sink>(out: &mut K, bytes: &[u8]) -> Result<(), Failed>
    ensures written { OnOk result (Appends (K.written out.old) (K.written out.new) bytes.now) }
    ensures prefix { WritesPrefix (K.written out.old) (K.written out.new) bytes.now }
    ensures cause { HasCause (K.faults out.old) (K.faults out.new) result }
{
    let mut rest = bytes;
    while !rest.is_empty() {
        let count = out.put(rest)?;
        rest = &rest[count..];
    }
    Ok(())
}
