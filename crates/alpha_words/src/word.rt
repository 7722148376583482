ghost use Rattle.std.specs.Prelude.{◌≡◌, ◌↔◌, IsTrue};
ghost use Rattle.alpha_words.specs.Field.{field, signed_field};

use crate::Reg;

/// An instruction word (Architecture Handbook, section 3.3). Bit 0 is the lowest bit.
#[derive(Clone, Copy, Debug, PartialEq, Eq)]
pub struct Word(pub u32);

impl Word {
    /// Bits 31 to 26 (Architecture Handbook, section 3.3).
    pub fn opcode(self) -> u8
        ensures { result ≡ field 31 26 self.0 }
    {
        (self.0 >> 26) as u8
    }

    /// Bits 25 to 21 (Architecture Handbook, section 3.3).
    pub fn ra(self) -> Reg
        ensures { result ≡ field 25 21 self.0 }
    {
        Reg::of_low_bits(self.0 >> 21)
    }

    /// Bits 20 to 16 (Architecture Handbook, section 3.3).
    pub fn rb(self) -> Reg
        ensures { result ≡ field 20 16 self.0 }
    {
        Reg::of_low_bits(self.0 >> 16)
    }

    /// Bits 4 to 0 (Architecture Handbook, section 3.3.3).
    pub fn rc(self) -> Reg
        ensures { result ≡ field 4 0 self.0 }
    {
        Reg::of_low_bits(self.0)
    }

    /// Whether an operate word has a literal: bit 12 (Architecture Handbook, section 3.3.3).
    pub fn is_literal(self) -> bool
        ensures { IsTrue result ↔ (field 12 12 self.0 ≡ 1) }
    {
        self.0 >> 12 & 1 == 1
    }

    /// The unsigned literal of an operate word: bits 20 to 13 (Architecture Handbook,
    /// section 3.3.3).
    pub fn literal(self) -> u8
        ensures { result ≡ field 20 13 self.0 }
    {
        (self.0 >> 13 & 0xff) as u8
    }

    /// Bits 15 to 13, which are zero in an operate word without a literal (Architecture Handbook,
    /// section 3.3.3).
    pub fn zeros(self) -> u8
        ensures { result ≡ field 15 13 self.0 }
    {
        (self.0 >> 13 & 0x7) as u8
    }

    /// The function of an operate word: bits 11 to 5 (Architecture Handbook, section 3.3.3).
    pub fn function(self) -> u8
        ensures { result ≡ field 11 5 self.0 }
    {
        (self.0 >> 5 & 0x7f) as u8
    }

    /// The signed displacement of a memory word, in bytes: bits 15 to 0 (Architecture Handbook,
    /// section 3.3.1).
    pub fn disp16(self) -> i16
        ensures { result ≡ signed_field 15 0 self.0 }
    {
        ((self.0 & 0xffff) as u16).cast_signed()
    }

    /// The signed displacement of a branch, in words: bits 20 to 0 (Architecture Handbook,
    /// section 3.3.2).
    pub fn disp21(self) -> i32
        ensures { result ≡ signed_field 20 0 self.0 }
    {
        // Up to the sign and down again: two shifts, where a test of the sign is made of six host instructions.
        (self.0 << 11).cast_signed() >> 11
    }

    /// The kind of a jump: bits 15 to 14 (Architecture Handbook, section 3.3.1).
    pub fn kind(self) -> u8
        ensures { result ≡ field 15 14 self.0 }
    {
        (self.0 >> 14 & 0x3) as u8
    }

    /// The hint of a jump: bits 13 to 0 (Architecture Handbook, section 3.3.1).
    pub fn hint(self) -> u16
        ensures { result ≡ field 13 0 self.0 }
    {
        (self.0 & 0x3fff) as u16
    }

    /// The function of a miscellaneous word: bits 15 to 0 (Architecture Handbook, section 3.3.1).
    pub fn misc(self) -> u16
        ensures { result ≡ field 15 0 self.0 }
    {
        (self.0 & 0xffff) as u16
    }

    /// The function of a PALcode call: bits 25 to 0 (Architecture Handbook, section 3.3.5).
    pub fn pal(self) -> u32
        ensures { result ≡ field 25 0 self.0 }
    {
        self.0 & 0x3ff_ffff
    }
}
