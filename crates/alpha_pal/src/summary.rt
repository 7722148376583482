ghost use Rattle.std.specs.Prelude.{⊤, [], ◌∷◌, codes};

use bitflags::{Flag, Flags};

/// The exception summary of an arithmetic trap, a set of bits (Reference Manual, OSF/1 exception
/// summary).
#[derive(Clone, Copy, Debug, PartialEq, Eq)]
pub struct Summary(pub u64);

impl Summary {
    /// Software completion.
    pub const SWC: Summary = Summary(1);

    /// Invalid operation.
    pub const INV: Summary = Summary(2);

    /// Division by zero.
    pub const DZE: Summary = Summary(4);

    /// Floating overflow.
    pub const OVF: Summary = Summary(8);

    /// Floating underflow.
    pub const UNF: Summary = Summary(16);

    /// Inexact result.
    pub const INE: Summary = Summary(32);

    /// Integer overflow.
    pub const IOV: Summary = Summary(64);
}

const NAMES: [Flag<Summary>; 7] = [
    Flag {
        name: "SWC",
        value: Summary::SWC,
    },
    Flag {
        name: "INV",
        value: Summary::INV,
    },
    Flag {
        name: "DZE",
        value: Summary::DZE,
    },
    Flag {
        name: "OVF",
        value: Summary::OVF,
    },
    Flag {
        name: "UNF",
        value: Summary::UNF,
    },
    Flag {
        name: "INE",
        value: Summary::INE,
    },
    Flag {
        name: "IOV",
        value: Summary::IOV,
    },
];

impl Flags for Summary {
    type Bits = u64;

    ghost exact = { ⊤ };

    ghost table = { (codes "SWC", 1) ∷ (codes "INV", 2) ∷ (codes "DZE", 4) ∷ (codes "OVF", 8) ∷
        (codes "UNF", 16) ∷ (codes "INE", 32) ∷ (codes "IOV", 64) ∷ [] };

    ghost set_of = { λ s. s.0 };

    fn flags<'a>() -> &'a [Flag<Summary>] {
        &NAMES
    }

    fn bits(&self) -> u64 {
        self.0
    }

    fn from_bits_retain(bits: u64) -> Summary {
        Summary(bits)
    }
}
