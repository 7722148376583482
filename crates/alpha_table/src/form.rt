ghost use Rattle.std.specs.Prelude.{◌≡◌};
ghost use Rattle.alpha_table.specs.Names.{mnemonic_of};

use crate::{BranchOp, JumpKind, MemOp, MiscOp, Mnemonic, Op};
use alpha_words::{PalCall, Reg};

/// The second source of an operate instruction (Architecture Handbook, section 3.3.3).
#[derive(Clone, Copy, Debug, PartialEq, Eq)]
pub enum Src {
    /// A register.
    Reg(Reg),
    /// An unsigned literal of 8 bits.
    Lit(u8),
}

/// An instruction with its operands, by format (Architecture Handbook, section 3.3).
#[derive(Clone, Copy, Debug, PartialEq, Eq)]
pub enum Form {
    /// A memory instruction with a displacement (section 3.3.1).
    Mem {
        /// Its row.
        op: MemOp,
        /// The register that it loads, stores or writes the address to.
        ra: Reg,
        /// The base register.
        rb: Reg,
        /// The displacement, in bytes; of LDAH in units of 65,536 bytes.
        disp: i16,
    },
    /// A branch (section 3.3.2).
    Branch {
        /// Its row.
        op: BranchOp,
        /// The register that it tests or writes the next address to.
        ra: Reg,
        /// The displacement, in words, from the next instruction on. It has 21 bits.
        disp: i32,
    },
    /// A jump (section 3.3.1).
    Jump {
        /// Its row.
        kind: JumpKind,
        /// The register that it writes the next address to.
        ra: Reg,
        /// The register with the target.
        rb: Reg,
        /// What it tells the branch predictor. It has 14 bits.
        hint: u16,
    },
    /// An operate instruction (section 3.3.3).
    Operate {
        /// Its row.
        op: Op,
        /// The first source.
        ra: Reg,
        /// The second source.
        src: Src,
        /// The destination.
        rc: Reg,
    },
    /// A barrier with the miscellaneous opcode (section 3.3.1).
    Misc(MiscOp),
    /// A prefetch, which is a hint (section 3.3.1).
    Fetch {
        /// Whether it has the intent to modify (FETCH_M).
        modify: bool,
        /// The register with the address.
        rb: Reg,
    },
    /// A PALcode call (section 3.3.5).
    Pal(PalCall),
}

impl Form {
    /// What the instruction's name stands for.
    pub fn mnemonic(&self) -> Mnemonic
        ensures { result ≡ mnemonic_of self.now }
    {
        match *self {
            Form::Mem { op, .. } => Mnemonic::Mem(op),
            Form::Branch { op, .. } => Mnemonic::Branch(op),
            Form::Jump { kind, .. } => Mnemonic::Jump(kind),
            Form::Operate { op, .. } => Mnemonic::Operate(op),
            Form::Misc(op) => Mnemonic::Misc(op),
            Form::Fetch { modify, .. } => Mnemonic::Fetch { modify },
            Form::Pal(call) => Mnemonic::Pal(call),
        }
    }
}
