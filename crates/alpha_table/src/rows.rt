use crate::Cond;

/// A memory instruction with a displacement (Architecture Handbook, sections 3.3.1 and 4.2).
#[derive(Clone, Copy, Debug, PartialEq, Eq)]
pub enum MemOp {
    /// Load address.
    Lda,
    /// Load address high.
    Ldah,
    /// Load zero-extended byte.
    Ldbu,
    /// Load unaligned quadword.
    LdqU,
    /// Load zero-extended word.
    Ldwu,
    /// Store word.
    Stw,
    /// Store byte.
    Stb,
    /// Store unaligned quadword.
    StqU,
    /// Load sign-extended longword.
    Ldl,
    /// Load quadword.
    Ldq,
    /// Load sign-extended longword, locked.
    LdlL,
    /// Load quadword, locked.
    LdqL,
    /// Store longword.
    Stl,
    /// Store quadword.
    Stq,
    /// Store longword, conditional.
    StlC,
    /// Store quadword, conditional.
    StqC,
}

/// A branch (Architecture Handbook, sections 3.3.2 and 4.3).
#[derive(Clone, Copy, Debug, PartialEq, Eq)]
pub enum BranchOp {
    /// Branch.
    Br,
    /// Branch to subroutine.
    Bsr,
    /// Branch where the low bit is clear.
    Blbc,
    /// Branch where equal to zero.
    Beq,
    /// Branch where less than zero.
    Blt,
    /// Branch where less than or equal to zero.
    Ble,
    /// Branch where the low bit is set.
    Blbs,
    /// Branch where not equal to zero.
    Bne,
    /// Branch where greater than or equal to zero.
    Bge,
    /// Branch where greater than zero.
    Bgt,
}

/// A jump (Architecture Handbook, section 4.3). The kinds differ in what they tell the branch
/// predictor alone.
#[derive(Clone, Copy, Debug, PartialEq, Eq)]
pub enum JumpKind {
    /// Jump.
    Jmp,
    /// Jump to subroutine.
    Jsr,
    /// Return from subroutine.
    Ret,
    /// Jump to the other of two subroutines that call in turn.
    JsrCoroutine,
}

/// A barrier among the miscellaneous instructions (Architecture Handbook, section 4.11). It names no register: its one
/// word has R31 as Ra and Rb. So `trapb` is 63ff0000, and 60000000, as GNU's assembler writes it, is no instruction.
#[derive(Clone, Copy, Debug, PartialEq, Eq)]
pub enum MiscOp {
    /// Trap barrier.
    Trapb,
    /// Exception barrier.
    Excb,
    /// Memory barrier.
    Mb,
    /// Write memory barrier.
    Wmb,
}

/// How a load fills the bits of its register above those that it read (Architecture Handbook,
/// section 4.2).
#[derive(Clone, Copy, Debug, PartialEq, Eq)]
pub enum Extension {
    /// With zeros. A quadword leaves no such bits.
    Zero,
    /// With the highest bit read.
    Sign,
}

/// What a memory instruction does with its address (Architecture Handbook, section 4.2).
#[derive(Clone, Copy, Debug, PartialEq, Eq)]
pub enum MemRole {
    /// It writes the address to its register, and accesses nothing.
    Address,
    /// It reads.
    Load(Extension),
    /// It writes.
    Store,
    /// It reads, and sets the lock flag.
    LoadLocked(Extension),
    /// It writes where the lock flag is set.
    StoreConditional,
}

/// The columns of a memory instruction.
#[derive(Clone, Copy, Debug, PartialEq, Eq)]
pub struct MemRow {
    /// Bits 31 to 26 of its words.
    pub opcode: u8,
    /// What it does with its address.
    pub role: MemRole,
    /// How many bytes it accesses: 1, 2, 4 or 8, or 0 where it accesses nothing.
    pub bytes: u8,
    /// Whether the low three bits of the address are cleared.
    pub clears: bool,
}

/// The columns of a branch.
#[derive(Clone, Copy, Debug, PartialEq, Eq)]
pub struct BranchRow {
    /// Bits 31 to 26 of its words.
    pub opcode: u8,
    /// What it tests its register for. A branch without a condition writes the next address to it.
    pub condition: Option<Cond>,
}

/// The columns of a barrier among the miscellaneous instructions.
#[derive(Clone, Copy, Debug, PartialEq, Eq)]
pub(crate) struct MiscRow {
    /// Bits 15 to 0 of its word.
    pub(crate) function: u16,
    /// Whether a pending trap is reported before it.
    pub(crate) reports: bool,
}
