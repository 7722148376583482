//! What the tests of several crates use.

use alpha_words::Reg;

/// The register with this number, R31 where there is none.
pub fn reg(number: u8) -> Reg {
    Reg::new(number).unwrap_or(Reg::ZERO)
}
