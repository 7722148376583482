ghost use Rattle.std.specs.Prelude.{[], ◌∷◌, ◌⊎◌, Option, List, OnOk, OnErr};
ghost use Rattle.alpha_io.specs.FileReplacement.{Call, Wrote, Synced, Renamed, Removed, Settled, AppendsCalls};
ghost use Rattle.alpha_io.specs.FileReplacement.{RecordsCall, replace_calls, durable_replace_calls, FailsBeforeRename};
ghost use Rattle.alpha_io.specs.FileReplacement.{FailsAndRemoves, FailsToSyncFolder};

use crate::Failed;

/// A new file, which is open, and the name that it is to take.
pub(crate) trait NewFile {
    /// What was called so far, or `None` where nothing is told.
    ghost calls: { Self → Option (List Call) };

    /// Writes all of the bytes behind those that were written.
    fn write(&mut self, bytes: &[u8]) -> Result<(), Failed>
        ensures { RecordsCall (calls self.old) (calls self.new) (Wrote bytes.now) result };

    /// Has the system store what was written, and waits until it has.
    fn sync(&mut self) -> Result<(), Failed>
        ensures { RecordsCall (calls self.old) (calls self.new) Synced result };

    /// Gives the file its name, in one step with taking that of the file which had it.
    fn rename(&mut self) -> Result<(), Failed>
        ensures { RecordsCall (calls self.old) (calls self.new) Renamed result };

    /// Removes the file, which hasn't taken its name. Nothing more can be done where that fails.
    fn remove(&mut self)
        ensures { AppendsCalls (calls self.old) (calls self.new) (Removed ∷ []) };

    /// Has the system store the names of the folder, and waits until it has. Nothing is asked of a folder that may not
    /// be read.
    fn settle(&mut self) -> Result<(), Failed>
        ensures { RecordsCall (calls self.old) (calls self.new) Settled result };
}

/// Gives a new file its name, as `replace`, and has the folder stored behind that. Where a call fails the file that has
/// the name stays as it was; where only the last one does, the new one has it, and may lose it where power is lost.
#[inline(never)]
pub(crate) fn replace_for_good<N: NewFile>(new: &mut N, bytes: &[u8]) -> Result<(), Failed>
    ensures ok { OnOk result (AppendsCalls (N.calls new.old) (N.calls new.new) (durable_replace_calls bytes.now)) }
    ensures refused { OnErr result (FailsAndRemoves (N.calls new.old) (N.calls new.new) bytes.now
        ⊎ FailsToSyncFolder (N.calls new.old) (N.calls new.new) bytes.now) }
{
    replace(new, bytes)?;
    new.settle()
}

/// Gives a new file its name once all of the bytes are written and stored. Where a call fails the file
/// that has the name stays as it was, and the new one is removed.
pub(crate) fn replace<N: NewFile>(new: &mut N, bytes: &[u8]) -> Result<(), Failed>
    ensures ok { OnOk result (AppendsCalls (N.calls new.old) (N.calls new.new) (replace_calls bytes.now)) }
    ensures refused { OnErr result (FailsAndRemoves (N.calls new.old) (N.calls new.new) bytes.now) }
{
    let answer = store(new, bytes);
    if answer.is_err() {
        new.remove();
    }
    answer
}

// Writes and stores all of the bytes, and gives the file its name.
fn store<N: NewFile>(new: &mut N, bytes: &[u8]) -> Result<(), Failed>
    ensures ok { OnOk result (AppendsCalls (N.calls new.old) (N.calls new.new) (replace_calls bytes.now)) }
    ensures refused { OnErr result (FailsBeforeRename (N.calls new.old) (N.calls new.new) bytes.now) }
{
    new.write(bytes)?;
    new.sync()?;
    new.rename()
}
