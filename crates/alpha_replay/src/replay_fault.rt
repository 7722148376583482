//! Why a journal is no run of an image.

use thiserror::Error;

/// Why a journal is no run of an image. The first fault is told, in the order of the variants.
#[derive(Clone, Copy, Debug, PartialEq, Eq, Error)]
pub enum ReplayFault {
    /// The number of the first item that is impossible.
    #[error("item {0} of the journal is impossible")]
    Item(u32),
    /// The first place at which the run's output and the journal's differ, or one of them ends.
    #[error("the output differs at byte {0}")]
    Output(u64),
    /// The run ends otherwise than the journal says, or it doesn't end and a trap is pending.
    #[error("the run ends otherwise")]
    End,
    /// So many bytes of the input were not taken.
    #[error("{0} bytes of the input were not taken")]
    Input(u64),
    /// Memory ran out, before the first step.
    #[error("out of memory")]
    NoMemory,
}
