//! What stands before the input of a journal.

ghost use Rattle.std.specs.Prelude.{◌≡◌, ◌≢◌, ◌≤◌, length, IfOk, IfErr};
ghost use Rattle.alpha_replay.specs.Endings.{unused_are_zero, ending_in};
ghost use Rattle.alpha_replay.specs.Reading.{numbers_in, completion_in, items_at};
ghost use Rattle.alpha_replay.specs.JournalFault.{Tells, bad_field, header_fault};
ghost use Rattle.alpha_replay.specs.JournalHeader.{header_numbers};

use crate::{Ending, JournalFault};
use alpha_image::{longword_at, quadword_at};
use alpha_words::Completion;

/// The first eight bytes of a journal.
pub(crate) const MAGIC: [u8; 8] = *b"ALPHAJR1";

/// How many bytes stand before the input.
pub(crate) const FRONT_BYTES: usize = 38;

/// How many bytes of input, and of output, there are at most.
pub(crate) const MOST_BYTES: u32 = 8_388_608;

/// How many items there are at most.
pub(crate) const MOST_ITEMS: u32 = 1_048_576;

/// The numbers that a journal begins with.
#[derive(Clone, Copy, Debug)]
pub(crate) struct JournalHeader {
    pub completion: u8,
    pub kind: u8,
    pub first: u64,
    pub second: u64,
    pub input: u32,
    pub output: u32,
    pub items: u32,
}

impl JournalHeader {
    /// The front of bytes whose input and output are whole.
    #[tactic(auto, unfolding(crate::specs::JournalFault::header_fault))]
    pub fn parse(bytes: &[u8]) -> Result<JournalHeader, JournalFault>
        ensures fault { Tells result (header_fault bytes.now) }
        ensures memory { IfErr result (λ e. e ≢ JournalFault.NoMemory) }
        ensures numbers { IfOk result (λ f. header_numbers f ≡ numbers_in bytes.now) }
        ensures whole { IfOk result (λ f. items_at (header_numbers f) ≤ length bytes.now) }
        ensures fields { IfOk result (λ f. bad_field (header_numbers f) ≡ None) }
    {
        let short = JournalFault::Short(bytes.len() as u64);
        if bytes.len() < FRONT_BYTES {
            return Err(short);
        }
        if !bytes.starts_with(&MAGIC) {
            return Err(JournalFault::Magic);
        }
        let front = JournalHeader::read(bytes);
        if let Some(field) = front.bad_field() {
            return Err(JournalFault::Field(field));
        }
        if bytes.len() < front.items_at() {
            return Err(short);
        }
        Ok(front)
    }

    // The numbers at the front of the bytes.
    #[tactic(auto, unfolding(crate::specs::Reading::numbers_in))]
    fn read(bytes: &[u8]) -> JournalHeader
        requires { 38 ≤ length bytes.now }
        ensures value { header_numbers result ≡ numbers_in bytes.now }
    {
        JournalHeader {
            completion: bytes[8],
            kind: bytes[9],
            first: quadword_at(bytes, 10),
            second: quadword_at(bytes, 18),
            input: longword_at(bytes, 26),
            output: longword_at(bytes, 30),
            items: longword_at(bytes, 34),
        }
    }

    // The least number of a bad field.
    fn bad_field(&self) -> Option<u8>
        ensures value { result ≡ bad_field (header_numbers self.now) }
    {
        if 3 <= self.completion {
            return Some(1);
        }
        if 8 <= self.kind {
            return Some(2);
        }
        if !self.unused_are_zero() {
            return Some(3);
        }
        if MOST_BYTES < self.input {
            return Some(4);
        }
        if MOST_BYTES < self.output {
            return Some(5);
        }
        if MOST_ITEMS < self.items {
            return Some(6);
        }
        None
    }

    // Whether the numbers are 0 that the end doesn't use.
    fn unused_are_zero(&self) -> bool
        ensures value { result ≡ unused_are_zero self.now.kind self.now.first self.now.second }
    {
        match self.kind {
            0 => self.first == 0 && self.second == 0,
            1 | 3 | 7 => self.second == 0,
            _ => true,
        }
    }

    /// Where the items begin.
    pub fn items_at(&self) -> usize
        ensures value { result ≡ items_at (header_numbers self.now) }
    {
        FRONT_BYTES + (self.input as usize + self.output as usize)
    }

    /// The completion.
    pub fn completion(&self) -> Completion
        ensures value { result ≡ completion_in self.now.completion }
    {
        match self.completion {
            0 => Completion::Wrap,
            1 => Completion::Saturate,
            _ => Completion::Stop,
        }
    }

    /// How the run ends, by the header's kind and its two numbers.
    pub fn ending(&self) -> Ending
        ensures value { result ≡ ending_in self.now.kind self.now.first self.now.second }
    {
        Ending::of(self.kind, self.first, self.second)
    }
}
