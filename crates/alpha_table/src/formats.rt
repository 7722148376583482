ghost use Rattle.std.specs.Prelude.{◌≡◌, IfSome, IfNone};
ghost use Rattle.alpha_table.specs.Rows.{mem_row, mem_name, branch_row, branch_name, jump_kind, jump_name, misc_row};
ghost use Rattle.alpha_table.specs.Rows.{misc_name, fetch_function, fetch_name, pal_function, pal_name};

use crate::rows::MiscRow;
use crate::{
    BranchOp, BranchRow, Cond, Extension, JumpKind, MemOp, MemRole, MemRow, MiscOp, Mnemonic,
};
use alpha_words::PalCall;

/// The rows of the memory instructions, in the order of their names: name, opcode, role, bytes
/// accessed, and whether the low three bits of the address are cleared.
macro_rules! memory_rows {
    ($then:ident $($given:expr),*) => {
        $then! {
            ($($given),*)
            MemOp::Lda "lda" 0x08 (Address 0 false),
            MemOp::Ldah "ldah" 0x09 (Address 0 false),
            MemOp::Ldbu "ldbu" 0x0a (Load(Zero) 1 false),
            MemOp::Ldl "ldl" 0x28 (Load(Sign) 4 false),
            MemOp::LdlL "ldl_l" 0x2a (LoadLocked(Sign) 4 false),
            MemOp::Ldq "ldq" 0x29 (Load(Zero) 8 false),
            MemOp::LdqL "ldq_l" 0x2b (LoadLocked(Zero) 8 false),
            MemOp::LdqU "ldq_u" 0x0b (Load(Zero) 8 true),
            MemOp::Ldwu "ldwu" 0x0c (Load(Zero) 2 false),
            MemOp::Stb "stb" 0x0e (Store 1 false),
            MemOp::Stl "stl" 0x2c (Store 4 false),
            MemOp::StlC "stl_c" 0x2e (StoreConditional 4 false),
            MemOp::Stq "stq" 0x2d (Store 8 false),
            MemOp::StqC "stq_c" 0x2f (StoreConditional 8 false),
            MemOp::StqU "stq_u" 0x0f (Store 8 true),
            MemOp::Stw "stw" 0x0d (Store 2 false),
        }
    };
}

/// The rows of the branches, in the order of their names: name, opcode and condition.
macro_rules! branch_rows {
    ($then:ident $($given:expr),*) => {
        $then! {
            ($($given),*)
            BranchOp::Beq "beq" 0x39 (Some(Cond::Eq)),
            BranchOp::Bge "bge" 0x3e (Some(Cond::Ge)),
            BranchOp::Bgt "bgt" 0x3f (Some(Cond::Gt)),
            BranchOp::Blbc "blbc" 0x38 (Some(Cond::Lbc)),
            BranchOp::Blbs "blbs" 0x3c (Some(Cond::Lbs)),
            BranchOp::Ble "ble" 0x3b (Some(Cond::Le)),
            BranchOp::Blt "blt" 0x3a (Some(Cond::Lt)),
            BranchOp::Bne "bne" 0x3d (Some(Cond::Ne)),
            BranchOp::Br "br" 0x30 (None),
            BranchOp::Bsr "bsr" 0x34 (None),
        }
    };
}

/// The rows of the jumps, in the order of their names: name, and the kind in bits 15 to 14.
macro_rules! jump_rows {
    ($then:ident $($given:expr),*) => {
        $then! {
            ($($given),*)
            JumpKind::Jmp "jmp" 0 (),
            JumpKind::Jsr "jsr" 1 (),
            JumpKind::JsrCoroutine "jsr_coroutine" 3 (),
            JumpKind::Ret "ret" 2 (),
        }
    };
}

/// The rows of the barriers with the miscellaneous opcode, in the order of their names: name,
/// function, and whether a pending trap is reported before it.
macro_rules! misc_rows {
    ($then:ident $($given:expr),*) => {
        $then! {
            ($($given),*)
            MiscOp::Excb "excb" 0x0400 (true),
            MiscOp::Mb "mb" 0x4000 (false),
            MiscOp::Trapb "trapb" 0x0000 (true),
            MiscOp::Wmb "wmb" 0x4400 (false),
        }
    };
}

/// The rows of the prefetches, in the order of their names: the intent to modify, name and function.
macro_rules! fetch_rows {
    ($then:ident $($given:expr),*) => {
        $then! {
            ($($given),*)
            false "fetch" 0x8000 (),
            true "fetch_m" 0xa000 (),
        }
    };
}

/// The rows of the PALcode calls, in the order of their names: name and function.
macro_rules! pal_rows {
    ($then:ident $($given:expr),*) => {
        $then! {
            ($($given),*)
            PalCall::Bpt "bpt" 0x80 (),
            PalCall::Bugchk "bugchk" 0x81 (),
            PalCall::Callsys "callsys" 0x83 (),
            PalCall::Gentrap "gentrap" 0xaa (),
            PalCall::Imb "imb" 0x86 (),
            PalCall::Rdunique "rdunique" 0x9e (),
            PalCall::Wrunique "wrunique" 0x9f (),
        }
    };
}

macro_rules! number_of {
    (($row:expr) $($($path:ident)::+ $name:literal $number:literal $columns:tt,)*) => {
        match $row {
            $($($path)::+ => $number,)*
        }
    };
}

macro_rules! name_of {
    (($row:expr) $($($path:ident)::+ $name:literal $number:literal $columns:tt,)*) => {
        match $row {
            $($($path)::+ => $name,)*
        }
    };
}

macro_rules! row_at {
    (($wanted:expr) $($($path:ident)::+ $name:literal $number:literal $columns:tt,)*) => {
        match $wanted {
            $($number => Some($($path)::+),)*
            _ => None,
        }
    };
}

macro_rules! mnemonics {
    (($of:expr) $($($path:ident)::+ $name:literal $number:literal $columns:tt,)*) => {
        [$($of($($path)::+),)*]
    };
}

macro_rules! memory_row_of {
    (($row:expr) $($($path:ident)::+ $name:literal $opcode:literal
        ($role:ident $(($extension:ident))? $bytes:literal $clears:literal),)*) => {
        match $row {
            $($($path)::+ => MemRow {
                opcode: $opcode,
                role: MemRole::$role $((Extension::$extension))?,
                bytes: $bytes,
                clears: $clears,
            },)*
        }
    };
}

macro_rules! branch_row_of {
    (($row:expr) $($($path:ident)::+ $name:literal $opcode:literal ($condition:expr),)*) => {
        match $row {
            $($($path)::+ => BranchRow {
                opcode: $opcode,
                condition: $condition,
            },)*
        }
    };
}

macro_rules! misc_row_of {
    (($row:expr) $($($path:ident)::+ $name:literal $function:literal ($reports:literal),)*) => {
        match $row {
            $($($path)::+ => MiscRow {
                function: $function,
                reports: $reports,
            },)*
        }
    };
}

macro_rules! fetch_mnemonics {
    (() $($modify:ident $name:literal $number:literal (),)*) => {
        [$(Mnemonic::Fetch { modify: $modify },)*]
    };
}

/// The memory instructions, in the order of their names.
pub(crate) static MEMORIES: [Mnemonic; 16] = memory_rows!(mnemonics Mnemonic::Mem);

/// The branches, in the order of their names.
pub(crate) static BRANCHES: [Mnemonic; 10] = branch_rows!(mnemonics Mnemonic::Branch);

/// The jumps, in the order of their names.
pub(crate) static JUMPS: [Mnemonic; 4] = jump_rows!(mnemonics Mnemonic::Jump);

/// The barriers with the miscellaneous opcode, in the order of their names.
pub(crate) static MISCS: [Mnemonic; 4] = misc_rows!(mnemonics Mnemonic::Misc);

/// The prefetches, in the order of their names.
pub(crate) static FETCHES: [Mnemonic; 2] = fetch_rows!(fetch_mnemonics);

/// The PALcode calls, in the order of their names.
pub(crate) static PAL_CALLS: [Mnemonic; 7] = pal_rows!(mnemonics Mnemonic::Pal);

impl MemOp {
    /// The columns of its row.
    #[inline(always)]
    pub fn row(self) -> MemRow
        ensures { result ≡ mem_row self }
    {
        memory_rows!(memory_row_of self)
    }

    /// Its name, as `ldq_l`.
    pub(crate) fn name(self) -> &'static str
        ensures { result.now ≡ mem_name self }
    {
        memory_rows!(name_of self)
    }
}

impl BranchOp {
    /// The columns of its row.
    #[inline(always)]
    pub fn row(self) -> BranchRow
        ensures { result ≡ branch_row self }
    {
        branch_rows!(branch_row_of self)
    }

    /// Its name, as `beq`.
    pub(crate) fn name(self) -> &'static str
        ensures { result.now ≡ branch_name self }
    {
        branch_rows!(name_of self)
    }
}

impl JumpKind {
    /// Bits 15 to 14 of its words.
    pub(crate) fn kind(self) -> u8
        ensures { result ≡ jump_kind self }
    {
        jump_rows!(number_of self)
    }

    /// Its name, as `jsr`.
    pub(crate) fn name(self) -> &'static str
        ensures { result.now ≡ jump_name self }
    {
        jump_rows!(name_of self)
    }

    /// The jump with this kind, if there is one.
    pub(crate) fn at(kind: u8) -> Option<JumpKind>
        ensures found { IfSome result (λ row. jump_kind row ≡ kind) }
        ensures none { IfNone result ((row : _) → jump_kind row ≡ kind → ⊥) }
    {
        jump_rows!(row_at kind)
    }
}

impl MiscOp {
    /// The columns of its row.
    #[inline(always)]
    pub(crate) fn row(self) -> MiscRow
        ensures { result ≡ misc_row self }
    {
        misc_rows!(misc_row_of self)
    }

    /// Its name, as `trapb`.
    pub(crate) fn name(self) -> &'static str
        ensures { result.now ≡ misc_name self }
    {
        misc_rows!(name_of self)
    }

    /// The barrier with this function, if there is one.
    pub(crate) fn at(function: u16) -> Option<MiscOp>
        ensures found { IfSome result (λ op. (misc_row op).function ≡ function) }
        ensures none { IfNone result ((op : _) → (misc_row op).function ≡ function → ⊥) }
    {
        misc_rows!(row_at function)
    }
}

/// Bits 15 to 0 of a prefetch, with the intent to modify or without.
pub(crate) fn fetch_function(modify: bool) -> u16
    ensures { result ≡ fetch_function modify }
{
    fetch_rows!(number_of modify)
}

/// The name of a prefetch, with the intent to modify or without.
pub(crate) fn fetch_name(modify: bool) -> &'static str
    ensures { result.now ≡ fetch_name modify }
{
    fetch_rows!(name_of modify)
}

/// Whether the prefetch with this function has the intent to modify, if there is one.
pub(crate) fn fetch_at(function: u16) -> Option<bool>
    ensures found { IfSome result (λ modify. fetch_function modify ≡ function) }
    ensures none { IfNone result ((modify : _) → fetch_function modify ≡ function → ⊥) }
{
    fetch_rows!(row_at function)
}

/// Bits 25 to 0 of a PALcode call.
pub(crate) fn pal_function(call: PalCall) -> u32
    ensures { result ≡ pal_function call }
{
    pal_rows!(number_of call)
}

/// The name of a PALcode call, as `callsys`.
pub(crate) fn pal_name(call: PalCall) -> &'static str
    ensures { result.now ≡ pal_name call }
{
    pal_rows!(name_of call)
}

/// The PALcode call with this function, if there is one.
pub(crate) fn pal_call_at(function: u32) -> Option<PalCall>
    ensures found { IfSome result (λ call. pal_function call ≡ function) }
    ensures none { IfNone result ((call : _) → pal_function call ≡ function → ⊥) }
{
    pal_rows!(row_at function)
}
