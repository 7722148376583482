ghost use Rattle.std.specs.Prelude.{◌≡◌, ◌%◌, ◌<◌, ◌≤◌, IfSome, IfNone};

use std::fmt;
use std::marker::Model;

/// An integer register, R0 to R31 (Architecture Handbook, section 3.1.2). A clause sees its number.
#[derive(Clone, Copy, Debug, PartialEq, Eq)]
pub struct Reg {
    number: u8,
}

impl Model for Reg {
    ghost use Rattle.std.specs.Prelude.{ℕ, ◌<◌};

    ghost Value = { ℕ };

    ghost view = { λ r. r.number };

    ghost invariant = { λ r. r.number < 32 };

    ghost inverse = { λ n. record { number = n } };
}

impl fmt::Display for Reg {
    ghost use Rattle.std.specs.Prelude.{◌∷◌, Some, decimal};

    ghost output = { λ r. Some (36 ∷ decimal r) };

    // As `$31`: a dollar sign and the number, as sources have it.
    fn fmt<W: fmt::Write>(&self, f: &mut fmt::Formatter<W>) -> fmt::Result {
        let number = self.number;
        write!(f, "${number}")
    }
}

impl Reg {
    /// R31, which reads as 0 and ignores writes (Architecture Handbook, section 3.1.2).
    pub const ZERO: Reg = Reg { number: 31 };

    /// The register with this number, `None` exactly above 31.
    pub fn new(number: u8) -> Option<Reg>
        ensures found { IfSome result (λ r. r ≡ number) }
        ensures none { IfNone result (32 ≤ number) }
    {
        if number < 32 {
            Some(Reg { number })
        } else {
            None
        }
    }

    /// The register's number.
    pub fn number(self) -> u8
        ensures value { result ≡ self }
        ensures bound { self < 32 }
    {
        self.number
    }

    /// The register whose number is the low five bits.
    pub(crate) fn of_low_bits(bits: u32) -> Reg
        ensures { result ≡ bits % 32 }
    {
        Reg {
            number: (bits & 31) as u8,
        }
    }
}
