use thiserror::Error;

/// The device that failed.
#[derive(Clone, Copy, Debug, PartialEq, Eq, Error)]
pub enum Fault {
    /// The input, in a read.
    #[error("the input failed")]
    Input,
    /// The output, in a write.
    #[error("the output failed")]
    Output,
    /// The notes, at a line. No call and no step of a machine writes one.
    #[error("the notes failed")]
    Notes,
}
