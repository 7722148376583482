/// How a PAL call ended whose devices didn't fail.
#[derive(Clone, Copy, Debug, PartialEq, Eq)]
pub enum PalEnd {
    /// The program goes on.
    Goes(Passed),
    /// The program ended with this value.
    Exit(u64),
    /// The program ended by a signal: code 0 for bpt, 1 for bugchk, 2 for gentrap.
    Signal(u8),
}

/// What a PAL call that goes on took or put, and where it stands in memory behind the call.
#[derive(Clone, Copy, Debug, PartialEq, Eq)]
pub enum Passed {
    /// The call took nothing and put nothing.
    Nothing,
    /// A read took the bytes that stand here, `len` of them.
    Took { addr: u64, len: u64 },
    /// A write put the bytes that stand here, `len` of them.
    Put { addr: u64, len: u64 },
}
