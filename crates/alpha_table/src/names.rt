ghost use Rattle.std.specs.Prelude.{◌≡◌, ◌≢◌, Some, IfSome, IfNone, IsTrue};
ghost use Rattle.std.specs.List.{All};
ghost use Rattle.alpha_table.specs.Names.{name_of, ascends};

use crate::formats::{BRANCHES, FETCHES, JUMPS, MEMORIES, MISCS, PAL_CALLS, fetch_name, pal_name};
use crate::operate::OPERATES;
use crate::{BranchOp, JumpKind, MemOp, MiscOp, Op};
use alpha_words::PalCall;
use std::fmt;

/// What a name of the table stands for: a row of one of the formats (Architecture Handbook, section
/// 3.3).
#[derive(Clone, Copy, Debug, PartialEq, Eq)]
pub enum Mnemonic {
    /// A memory instruction.
    Mem(MemOp),
    /// A branch.
    Branch(BranchOp),
    /// A jump.
    Jump(JumpKind),
    /// An operate instruction.
    Operate(Op),
    /// A barrier with the miscellaneous opcode.
    Misc(MiscOp),
    /// A prefetch, with the intent to modify or without.
    Fetch {
        /// Whether it is FETCH_M.
        modify: bool,
    },
    /// A PALcode call.
    Pal(PalCall),
}

impl fmt::Display for Mnemonic {
    ghost output = { λ m. Some (name_of m) };

    fn fmt<W: fmt::Write>(&self, f: &mut fmt::Formatter<W>) -> fmt::Result {
        f.pad(self.as_str())
    }
}

impl Mnemonic {
    /// The bytes of the name in the table ([`Mnemonic::as_str`]).
    pub fn name(self) -> &'static [u8]
        ensures { result.now ≡ name_of self }
    {
        self.as_str().as_bytes()
    }

    /// The name in the table, in lower case, as `addq/v`, `ldq_l`, `jsr_coroutine` and `callsys`.
    pub fn as_str(self) -> &'static str
        ensures { result.now ≡ name_of self }
    {
        match self {
            Mnemonic::Mem(op) => op.name(),
            Mnemonic::Branch(op) => op.name(),
            Mnemonic::Jump(kind) => kind.name(),
            Mnemonic::Operate(op) => op.name(),
            Mnemonic::Misc(op) => op.name(),
            Mnemonic::Fetch { modify } => fetch_name(modify),
            Mnemonic::Pal(call) => pal_name(call),
        }
    }

    /// What the name stands for, `None` exactly where the table hasn't the name. Case matters. It
    /// takes time in the logarithm of the number of rows.
    pub fn of(name: &[u8]) -> Option<Mnemonic>
        ensures found { IfSome result (λ m. name_of m ≡ name.now) }
        ensures none { IfNone result ((m : _) → name_of m ≢ name.now) }
    {
        if let Some(found) = find_name(&OPERATES, name) {
            return Some(found);
        }
        if let Some(found) = find_name(&MEMORIES, name) {
            return Some(found);
        }
        if let Some(found) = find_name(&BRANCHES, name) {
            return Some(found);
        }
        if let Some(found) = find_name(&JUMPS, name) {
            return Some(found);
        }
        if let Some(found) = find_name(&MISCS, name) {
            return Some(found);
        }
        if let Some(found) = find_name(&FETCHES, name) {
            return Some(found);
        }
        find_name(&PAL_CALLS, name)
    }
}

// The one of these rows, in the order of their names, that has the name.
fn find_name(rows: &[Mnemonic], name: &[u8]) -> Option<Mnemonic>
    requires { IsTrue (ascends rows.now) }
    ensures found { IfSome result (λ m. name_of m ≡ name.now) }
    ensures none { IfNone result (All (λ m. name_of m ≢ name.now) rows.now) }
{
    match rows.binary_search_by(|row| row.name().cmp(name)) {
        Ok(place) => Some(rows[place]),
        Err(_) => None,
    }
}
