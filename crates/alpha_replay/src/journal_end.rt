use crate::Journal;
use alpha_seq::{Event, Fault};

/// How the making of a journal went.
#[derive(Debug, Drop)]
pub enum JournalEnd {
    /// The run was made to its last step, or where there is none, until its units were used; and this is its journal.
    Made(Option<Event>, Journal),
    /// A device failed: the input in a read, the output in a write, or the notes at a line.
    Failed(Fault),
    /// A step has brought the run past what a journal may have.
    Full,
    /// Memory ran out, before the first step.
    NoMemory,
}
