ghost use Rattle.std.specs.Prelude.{◌≡◌, ℕ, ◌%◌, ◌^◌, ◌<◌, ◌↔◌, ◌⊎◌, IsTrue};
ghost use Rattle.alpha_words.specs.Regs.{Has};

use crate::Reg;
use std::marker::Model;

/// A set of registers below 31. A clause sees the number whose bit n says whether Rn is a member.
#[derive(Clone, Copy, Debug, PartialEq, Eq)]
pub struct RegSet {
    bits: u32,
}

impl Model for RegSet {
    ghost use Rattle.std.specs.Prelude.{ℕ, ◌<◌, ◌^◌};

    ghost Value = { ℕ };

    ghost view = { λ s. s.bits };

    ghost invariant = { λ s. s.bits < 2 ^ 31 };

    ghost inverse = { λ n. record { bits = n } };
}

impl RegSet {
    /// No register.
    pub fn empty() -> RegSet
        ensures value { result ≡ 0 }
        ensures members { (k : ℕ) → ¬ Has result k }
    {
        RegSet { bits: 0 }
    }

    /// The set and this register. R31 changes nothing.
    pub fn with(self, r: Reg) -> RegSet
        ensures { (k : ℕ) → Has result k ↔ (Has self k ⊎ ((k ≡ r) × (k < 31))) }
    {
        RegSet {
            bits: self.bits | RegSet::bit(r),
        }
    }

    /// The set without this register. R31 changes nothing.
    pub fn without(self, r: Reg) -> RegSet
        ensures { (k : ℕ) → Has result k ↔ (Has self k × ¬ (k ≡ r)) }
    {
        RegSet {
            bits: self.bits & !RegSet::bit(r),
        }
    }

    /// The members of either set.
    pub fn union(self, other: RegSet) -> RegSet
        ensures { (k : ℕ) → Has result k ↔ (Has self k ⊎ Has other k) }
    {
        RegSet {
            bits: self.bits | other.bits,
        }
    }

    /// The members that the other set hasn't.
    pub fn difference(self, other: RegSet) -> RegSet
        ensures { (k : ℕ) → Has result k ↔ (Has self k × ¬ Has other k) }
    {
        RegSet {
            bits: self.bits & !other.bits,
        }
    }

    /// Whether the register is a member, which R31 never is.
    pub fn has(self, r: Reg) -> bool
        ensures { IsTrue result ↔ Has self r }
    {
        self.bits >> r.number() & 1 == 1
    }

    /// Whether each member of the other set is a member.
    pub fn covers(self, other: RegSet) -> bool
        ensures { IsTrue result ↔ ((k : ℕ) → Has other k → Has self k) }
    {
        self.bits & other.bits == other.bits
    }

    /// Whether the two sets share a member.
    pub fn meets(self, other: RegSet) -> bool
        ensures { IsTrue result ↔ ((k : ℕ) × Has self k × Has other k) }
    {
        self.bits & other.bits != 0
    }

    /// The number whose bit n, n from 0 to 30, says whether Rn is a member.
    pub fn bits(self) -> u32
        ensures value { result ≡ self }
        ensures bound { self < 2 ^ 31 }
    {
        self.bits
    }

    /// The set of the registers whose bits are 1. Bit 31 is ignored.
    pub fn of_bits(bits: u32) -> RegSet
        ensures { result ≡ bits % 2 ^ 31 }
    {
        RegSet {
            bits: bits & 0x7fff_ffff,
        }
    }

    // The bit that stands for a register, 0 for R31.
    fn bit(r: Reg) -> u32
        ensures members { (k : ℕ) → Has result k ↔ ((k ≡ r) × (k < 31)) }
        ensures bound { result < 2 ^ 31 }
    {
        1 << r.number() & 0x7fff_ffff
    }
}
