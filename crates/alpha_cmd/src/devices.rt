//! The devices of a call.

/// The devices of a call, each by its own type.
#[derive(Drop)]
pub struct Devices<H, S, K, N> {
    /// The files.
    pub shelf: H,
    /// Where the input comes from.
    pub input: S,
    /// Where the output goes.
    pub out: K,
    /// Where the notes go.
    pub notes: N,
}
