//! What holds of registers. The function does nothing.

ghost use Rattle.std.specs.Prelude.{◌≡◌, ◌≢◌, ◌<◌, ◌^◌, ℕ, List};
ghost use Rattle.alpha_words.specs.Regs.{reg, put, IsFile};

/// The laws of the 32 registers (Alpha Architecture Handbook, version 4, section 3.1.2): R31 reads as 0, and a write to
/// it changes nothing. What is written to another register is read there, and each other register is the same. A write
/// of 64 bits leaves a file. Call it in a body whose proof needs one of them.
pub fn laws_of_registers()
    ensures zero { (file : List ℕ) → IsFile file → reg file 31 ≡ 0 }
    ensures ignored { (file : List ℕ) (value : ℕ) → put file 31 value ≡ file }
    ensures written { (file : List ℕ) (r value : ℕ) → IsFile file → r < 31
        → reg (put file r value) r ≡ value }
    ensures others { (file : List ℕ) (r other value : ℕ) → other ≢ r
        → reg (put file r value) other ≡ reg file other }
    ensures file { (file : List ℕ) (r value : ℕ) → IsFile file → r < 32
        → value < 2 ^ 64 → IsFile (put file r value) }
{}
