ghost use Rattle.std.specs.Prelude.{◌≡◌, replicate};
ghost use Rattle.alpha_words.specs.Regs.{reg, put, IsFile};

use crate::Reg;
use std::marker::Model;

/// The values of the 32 registers (Architecture Handbook, section 3.1.2). A clause sees them as a
/// list, whose last number is 0.
#[derive(Clone, Copy, Debug)]
pub struct RegFile {
    values: [u64; 32],
}

impl Model for RegFile {
    ghost use Rattle.std.specs.Prelude.{◌≡◌, ℕ, List, length, slice_index};

    ghost Value = { List ℕ };

    ghost view = { λ f. f.values };

    ghost invariant = { λ f. (length f.values ≡ 32) × (slice_index f.values 31 ≡ 0) };

    ghost inverse = { λ xs. record { values = xs } };
}

impl RegFile {
    /// All registers are 0.
    #[tactic(auto, unfolding(crate::specs::Regs::reg))]
    pub fn zeroed() -> RegFile
        ensures value { result ≡ replicate 32 0 }
        ensures file { IsFile result }
    {
        RegFile { values: [0; 32] }
    }

    /// The register's value, 0 for R31 (Architecture Handbook, section 3.1.2).
    #[tactic(auto, unfolding(crate::specs::Regs::reg))]
    pub fn get(&self, r: Reg) -> u64
        ensures value { result ≡ reg self.now r }
        ensures file { IsFile self.now }
    {
        self.values[r.number() as usize]
    }

    /// Writes the register. R31 stays 0 (Architecture Handbook, section 3.1.2).
    #[tactic(auto, unfolding(crate::specs::Regs::reg, crate::specs::Regs::put))]
    pub fn set(&mut self, r: Reg, value: u64)
        ensures value { self.new ≡ put self.old r value }
        ensures file { IsFile self.new }
    {
        // Two stores are fewer host instructions than a test.
        self.values[r.number() as usize] = value;
        self.values[31] = 0;
    }
}
