ghost use Rattle.std.specs.Prelude.{◌≡◌, ◌+◌, ◌≤◌, [], ◌∷◌, ◌++◌, length, decimal};
ghost use Rattle.alpha_io.specs.Line.{hex_digits};

use itoa::Buffer;
use std::marker::Model;

/// How many bytes a [`Line`] holds at most.
pub const LINE_ROOM: usize = 160;

/// A line of text in the making, of at most [`LINE_ROOM`] bytes. A clause sees its bytes. It takes no memory.
#[derive(Drop)]
pub struct Line {
    bytes: [u8; LINE_ROOM],
    len: usize,
}

impl Model for Line {
    ghost use Rattle.std.specs.Prelude.{◌≡◌, ◌≤◌, List, ℕ, length, take};
    ghost use Rattle.alpha_io.specs.declared.line.TheConstants.{LINE_ROOM};

    ghost Value = { List ℕ };

    ghost view = { λ l. take l.len l.bytes };

    ghost invariant = { λ l. (l.len ≤ LINE_ROOM) × (length l.bytes ≡ LINE_ROOM) };
}

impl Line {
    /// The empty line.
    pub fn new() -> Line
        ensures { result ≡ [] }
    {
        Line {
            bytes: [0; LINE_ROOM],
            len: 0,
        }
    }

    /// The bytes so far.
    pub fn as_bytes(&self) -> &[u8]
        ensures { result.now ≡ self.now }
    {
        &self.bytes[..self.len]
    }

    /// Appends bytes.
    pub fn push(&mut self, bytes: &[u8])
        requires { length self.old + length bytes.now ≤ LINE_ROOM }
        ensures { self.new ≡ self.old ++ bytes.now }
    {
        let end = self.len + bytes.len();
        self.bytes[self.len..end].copy_from_slice(bytes);
        self.len = end;
    }

    /// Appends 16 lower-case hexadecimal digits.
    #[tactic(auto, unfolding(crate::specs::Line::hex_digits))]
    pub fn push_hex(&mut self, number: u64)
        requires { length self.old + 16 ≤ LINE_ROOM }
        ensures state { self.new ≡ self.old ++ hex_digits number }
        ensures size { length (hex_digits number) ≡ 16 }
    {
        let mut digits = [0; 16];
        let bytes = number.to_be_bytes();
        let _ = hex::encode_to_slice(&bytes, &mut digits);
        self.push(&digits);
    }

    /// Appends a number's decimal digits, at most 20.
    pub fn push_decimal(&mut self, number: u64)
        requires { length self.old + 20 ≤ LINE_ROOM }
        ensures state { self.new ≡ self.old ++ decimal number }
        ensures size { length (decimal number) ≤ 20 }
    {
        let mut buffer = Buffer::new();
        self.push(buffer.format(number).as_bytes());
    }

    /// Appends the line feed that ends a line.
    pub fn end(&mut self)
        requires { length self.old + 1 ≤ LINE_ROOM }
        ensures { self.new ≡ self.old ++ 10 ∷ [] }
    {
        self.push(b"\n");
    }
}
