//! The machine's smallest parts: instruction words and their fields, registers, and sets and
//! files of registers.
//!
//! Comments call the Alpha Architecture Handbook, version 4, the Architecture Handbook.
//!
//! - [`Word`] is an instruction word. Each reader gives one of its bit fields.
//! - [`Reg`] is one of the 32 integer registers. Register 31 reads as 0 and ignores writes.
//! - [`RegSet`] is a set of registers below 31: register 31 never is a member.
//! - [`RegFile`] has the values of the 32 registers, the last one 0.
//! - [`laws_of_registers`] says what is read behind a write.
//! - [`Level`], [`Completion`], [`PalCall`] and [`NoMemory`] are words that many crates share.
//!
//! `word.rt`, `reg.rt`, `set.rt` and `file.rt` have one of the first four each, `laws.rt` the laws, and this file the
//! rest. `specs/Field.antt` says what a bit field is, `specs/Regs.antt` what a register set and a
//! register file are, `specs/Levels.antt` how levels are numbered, and `specs/Digits.antt` has numbers as
//! lists of digits, bits and bytes.
#![tactic(auto)]

ghost use Rattle.std.specs.Prelude.{◌≡◌, ◌≢◌, ◌≤◌, ◌↔◌, IsTrue, IfSome, IfNone};
ghost use Rattle.alpha_words.specs.Levels.{level_number};

mod file;
mod laws;
mod reg;
mod set;
mod word;

pub use file::RegFile;
pub use laws::laws_of_registers;
pub use reg::Reg;
pub use set::RegSet;
use std::alloc::{AllocError, AllocFailed};
use thiserror::Error;
pub use word::Word;

/// Memory ran out. A call that answers it changed nothing, unless it says otherwise.
#[derive(Clone, Copy, Debug, PartialEq, Eq, Error)]
#[error("out of memory")]
pub struct NoMemory;

impl From<AllocError> for NoMemory {
    fn from(_: AllocError) -> Self {
        NoMemory
    }
}

impl<T: Drop> From<AllocFailed<T>> for NoMemory {
    fn from(_: AllocFailed<T>) -> Self {
        NoMemory
    }
}

/// The level of an implementation: which instructions it has, and what AMASK and IMPLVER answer
/// (Architecture Handbook, section 4.11).
#[derive(Clone, Copy, Debug, PartialEq, Eq)]
pub enum Level {
    /// The base instructions, and the byte and word extension.
    One,
    /// Those of level one, and the count extension (CTPOP, CTLZ, CTTZ).
    Two,
}

impl Level {
    /// The level's number, 1 or 2.
    pub fn number(self) -> u8
        ensures value { result ≡ level_number self }
        ensures bound { result ≤ 2 }
    {
        match self {
            Level::One => 1,
            Level::Two => 2,
        }
    }

    /// The level with this number, `None` exactly for other numbers than 1 and 2.
    pub fn of(number: u8) -> Option<Level>
        ensures found { IfSome result (λ level. level_number level ≡ number) }
        ensures none { IfNone result ((level : _) → level_number level ≢ number) }
    {
        match number {
            1 => Some(Level::One),
            2 => Some(Level::Two),
            _ => None,
        }
    }

    /// Whether an implementation of this level has the instructions of the other one.
    pub fn has(self, other: Level) -> bool
        ensures { IsTrue result ↔ (level_number other ≤ level_number self) }
    {
        other.number() <= self.number()
    }
}

/// What becomes of an instruction that overflowed.
#[derive(Clone, Copy, Debug, PartialEq, Eq)]
pub enum Completion {
    /// Its destination gets the number of the size's signed range that is congruent to the exact
    /// result (Architecture Handbook, section 4.4).
    Wrap,
    /// Its destination gets the bound of the size's signed range that is nearest to the exact result.
    Saturate,
    /// The program ends there.
    Stop,
}

/// The OSF/1 PALcode calls of this project (Reference Manual, OSF/1 PALcode instructions).
#[derive(Clone, Copy, Debug, PartialEq, Eq)]
pub enum PalCall {
    /// A breakpoint trap.
    Bpt,
    /// A bugcheck trap.
    Bugchk,
    /// A system call.
    Callsys,
    /// The memory barrier of the instruction stream.
    Imb,
    /// It reads the process unique value.
    Rdunique,
    /// It writes the process unique value.
    Wrunique,
    /// A trap that software generates.
    Gentrap,
}
