use alpha_table::Insn;

/// How a program ends. A `pc` is the address of the word that ends it.
#[derive(Clone, Copy, Debug, PartialEq, Eq)]
pub enum End {
    /// By the system call exit, with its value.
    Exit(u64),
    /// By a PAL call that is a signal.
    Signal {
        /// 0 for bpt, 1 for bugchk, 2 for gentrap.
        code: u8,
        /// Where the call stands.
        pc: u64,
    },
    /// Because the PC is no address of a code word.
    Fetch {
        /// The PC.
        pc: u64,
    },
    /// By an access with a byte outside every region, or by a store with a byte in the code.
    Access {
        /// Where the instruction stands.
        pc: u64,
        /// The address of the access.
        addr: u64,
    },
    /// By an access at an address that is no multiple of its size.
    Align {
        /// Where the instruction stands.
        pc: u64,
        /// The address of the access.
        addr: u64,
    },
    /// By an overflow, under the completion `Stop`.
    Overflow {
        /// Where the instruction stands.
        pc: u64,
    },
}

/// What the word at the PC is, and what a step would do there.
#[derive(Clone, Copy, Debug, PartialEq, Eq)]
pub enum Next {
    /// The PC is no address of a code word.
    Outside,
    /// A barrier, which may end the program.
    Barrier(Insn),
    /// An access that would fault, and end the program so.
    Faults(End),
    /// An instruction that would overflow, and under `Stop` end the program.
    Overflows(Insn),
    /// Any other instruction.
    Plain(Insn),
}
