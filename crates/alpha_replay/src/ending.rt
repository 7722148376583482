//! How the run of a journal ends.

ghost use Rattle.std.specs.Prelude.{◌≡◌};
ghost use Rattle.alpha_replay.specs.Endings.{ending_kind, ending_first, ending_second, ending_in};

/// How a run ends, by its numbers: those of a journal may be of no end that a program has.
#[derive(Clone, Copy, Debug, PartialEq, Eq)]
pub enum Ending {
    /// It doesn't: its units were used up.
    Spent,
    /// By the system call exit, with this value.
    Exit(u64),
    /// By a PAL call that is a signal.
    Signal {
        /// 0 for bpt, 1 for bugchk, 2 for gentrap.
        code: u64,
        /// Where the call stands.
        pc: u64,
    },
    /// Because the PC is no address of a code word.
    Fetch {
        /// The PC.
        pc: u64,
    },
    /// By an access with a byte outside every region, or by a store with a byte in the code.
    Access {
        /// Where the instruction stands.
        pc: u64,
        /// The address of the access.
        addr: u64,
    },
    /// By an access at an address that is no multiple of its size.
    Align {
        /// Where the instruction stands.
        pc: u64,
        /// The address of the access.
        addr: u64,
    },
    /// By a trap that was reported and belongs to no instruction.
    Lost {
        /// The PC of the report.
        pc: u64,
        /// The bits of its register mask.
        mask: u64,
    },
    /// By an overflow, under the completion `Stop`.
    Overflow {
        /// Where the instruction stands.
        pc: u64,
    },
}

impl Ending {
    /// The ending of a kind with these numbers.
    pub(crate) fn of(kind: u8, first: u64, second: u64) -> Ending
        ensures value { result ≡ ending_in kind first second }
    {
        match kind {
            0 => Ending::Spent,
            1 => Ending::Exit(first),
            2 => Ending::Signal {
                code: first,
                pc: second,
            },
            3 => Ending::Fetch { pc: first },
            4 => Ending::Access {
                pc: first,
                addr: second,
            },
            5 => Ending::Align {
                pc: first,
                addr: second,
            },
            6 => Ending::Lost {
                pc: first,
                mask: second,
            },
            _ => Ending::Overflow { pc: first },
        }
    }

    /// The number of its kind.
    pub(crate) fn kind(&self) -> u8
        ensures value { result ≡ ending_kind self.now }
    {
        match self {
            Ending::Spent => 0,
            Ending::Exit(_) => 1,
            Ending::Signal { .. } => 2,
            Ending::Fetch { .. } => 3,
            Ending::Access { .. } => 4,
            Ending::Align { .. } => 5,
            Ending::Lost { .. } => 6,
            Ending::Overflow { .. } => 7,
        }
    }

    /// Its first number, 0 where it has none.
    pub(crate) fn first(&self) -> u64
        ensures value { result ≡ ending_first self.now }
    {
        match *self {
            Ending::Spent => 0,
            Ending::Exit(value) => value,
            Ending::Signal { code, .. } => code,
            Ending::Fetch { pc }
            | Ending::Access { pc, .. }
            | Ending::Align { pc, .. }
            | Ending::Lost { pc, .. }
            | Ending::Overflow { pc } => pc,
        }
    }

    /// Its second number, 0 where it has none.
    pub(crate) fn second(&self) -> u64
        ensures value { result ≡ ending_second self.now }
    {
        match *self {
            Ending::Signal { pc, .. } => pc,
            Ending::Access { addr, .. } | Ending::Align { addr, .. } => addr,
            Ending::Lost { mask, .. } => mask,
            Ending::Spent | Ending::Exit(_) | Ending::Fetch { .. } | Ending::Overflow { .. } => 0,
        }
    }
}
