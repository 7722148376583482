ghost use Rattle.std.specs.Prelude.{◌≡◌, ℕ, ◌<◌, List, [], ◌∷◌, ◌++◌, length, Bool, Option, IfOk, OnOk};
ghost use Rattle.std.specs.Io.{ReadsAtMost};
ghost use Rattle.alpha_io.specs.History.{Reply, piece_reply, keep_reply};
ghost use Rattle.alpha_io.specs.Faults.{HasCauseOr};
ghost use Rattle.alpha_io.specs.Files.{IfTold, HasFile, Lacks, Refuses, KeepsFiles, KeepsOtherFiles, IsPiece};

use crate::Failed;

/// Where files lie.
pub trait Shelf {
    /// The files, from a name's bytes to the file's bytes, or `None` where the shelf tells nothing.
    ghost files: { Self → Option (List ℕ → Option (List ℕ)) };

    /// Whether a file of so many bytes may be kept under a name. It counts where files are told.
    ghost takes: { Self → List ℕ → ℕ → Bool };

    /// What its calls answered so far.
    ghost replies: { Self → List Reply };

    /// How often the shelf has failed, at most the last value of a `u64`.
    ghost faults: { Self → ℕ };

    /// Reads the file's bytes from `at` on into the front of the buffer, and answers how many:
    /// none exactly at or past the file's end. A shelf that tells its files refuses a name that
    /// isn't there, which is no fault.
    fn piece(&mut self, name: &str, at: u64, buf: &mut [u8]) -> Result<usize, Failed>
        requires { 0 < length buf.old }
        ensures bound { ReadsAtMost result buf.new }
        ensures bytes { IfOk result (λ n.
            IfTold (files self.old) name.now (λ file. IsPiece file at n buf.new)) }
        ensures files { KeepsFiles (files self.old) (files self.new) }
        ensures takes { takes self.new ≡ takes self.old }
        ensures replies { replies self.new
            ≡ replies self.old ++ piece_reply name.now at result buf.new ∷ [] }
        ensures cause { HasCauseOr (Lacks (files self.old) name.now)
            (faults self.old) (faults self.new) result };

    /// Makes the file exactly these bytes. A shelf that tells its files refuses those that
    /// it doesn't take, which is no fault.
    fn keep(&mut self, name: &str, bytes: &[u8]) -> Result<(), Failed>
        ensures ok { OnOk result (HasFile (files self.new) name.now bytes.now) }
        ensures others { KeepsOtherFiles (files self.old) (files self.new) name.now }
        ensures refused { Refuses (files self.old) (takes self.old name.now (length bytes.now)) →
            KeepsFiles (files self.old) (files self.new) }
        ensures takes { takes self.new ≡ takes self.old }
        ensures replies { replies self.new
            ≡ replies self.old ++ keep_reply name.now bytes.now result ∷ [] }
        ensures cause { HasCauseOr
            (Refuses (files self.old) (takes self.old name.now (length bytes.now)))
            (faults self.old) (faults self.new) result };
}
