/// How a session ended.
#[derive(Clone, Copy, Debug, PartialEq, Eq)]
pub enum DebugEnd {
    /// By `quit`, or at the end of the script.
    Done,
    /// The script failed, by its count of faults.
    InputFault,
    /// The output failed, by its count of faults.
    SinkFault,
    /// The script has more than 1,048,576 bytes, and no `quit` whose line ends within them.
    TooLarge,
    /// Memory ran out while the session was made.
    NoMemory,
}
