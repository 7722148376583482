ghost use Rattle.std.specs.Prelude.{◌≡◌, ◌+◌, ◌<◌, ◌≤◌, ◌^◌, ℕ, length, is_some, not, if◌then◌else◌, OnOk};
ghost use Rattle.alpha_text.specs.Statements.{stmt_of};
ghost use Rattle.alpha_text.specs.Bounds.{IsWithin};
ghost use Rattle.alpha_image.specs.Rules.{size_of_segment};
ghost use Rattle.alpha_asm.specs.Statement.{coded, data_size};
ghost use Rattle.alpha_asm.specs.Layout.{start, is_data, pad, padding, location, is_misplaced, is_misplaced_insn};
ghost use Rattle.alpha_asm.specs.Layout.{place_after, last_behind, filled_pad, zeroed_pad};
ghost use Rattle.alpha_asm.specs.Place.{place_of_code, IsSmall};

use crate::statement::{is_statement, level_in, section_in, segment_in, zero_bytes_in};
use alpha_image::Segment;
use alpha_table::{Insn, level_of};
use alpha_text::Statement;
use std::alloc::{AllocError, Global};

/// A section.
#[derive(Clone, Copy, Debug, PartialEq, Eq)]
pub enum Section {
    /// That of the instructions.
    Code,
    /// The segment in hand.
    Data,
}

/// Where a label is defined, apart from the bases of its section.
#[derive(Clone, Copy, Debug, PartialEq, Eq)]
pub enum LabelLocation {
    /// Behind so many instructions.
    Code(u32),
    /// An offset in a segment. Segments are numbered from 0.
    Data(u32, u64),
}

/// Where the next item stands, beside how many instructions stand before it.
#[derive(Drop)]
pub(crate) struct Place {
    /// Of a `.level`.
    pub level: Option<u8>,
    /// Whether a statement stood.
    pub begun: bool,
    pub section: Section,
    /// The segments before the one in hand.
    pub earlier: Vec<Segment>,
    /// The segment in hand.
    pub last: Segment,
    /// Whether a `.zero` stood in it.
    pub has_zero: bool,
}

// 2^n.
fn pow2(n: u8) -> u64
    requires { n ≤ 13 }
    ensures value { result ≡ 2 ^ n }
    ensures least { 1 ≤ result }
    ensures most { result ≤ 8192 }
{
    1 << n
}

/// How many bytes are missing to a multiple of 2^n.
pub fn padding(n: u8, size: u64) -> u16
    requires { n ≤ 13 }
    ensures value { result ≡ padding n size }
    ensures bound { result < 8192 }
{
    let unit = pow2(n);
    ((unit - size % unit) % unit) as u16
}

impl Place {
    /// The place of the first item.
    pub(crate) fn start(alloc: Global) -> Place
        ensures place { place_of_code 0 result ≡ start }
    {
        Place {
            level: None,
            begun: false,
            section: Section::Code,
            earlier: Vec::new(alloc),
            last: Segment {
                base: 0,
                filled: 0,
                zeroed: 0,
            },
            has_zero: false,
        }
    }

    // How many bytes the segment in hand has.
    fn size(&self) -> u64
        requires { IsSmall self.now }
        ensures { result ≡ size_of_segment self.now.last }
    {
        self.last.filled + self.last.zeroed
    }

    /// The address that a label names here, behind so many instructions.
    pub(crate) fn location(&self, words: usize) -> LabelLocation
        requires small { IsSmall self.now }
        requires words { words < 2 ^ 32 }
        ensures { result ≡ location (place_of_code words self.now) }
    {
        match self.section {
            Section::Code => LabelLocation::Code(words as u32),
            Section::Data => LabelLocation::Data(self.earlier.len() as u32, self.size()),
        }
    }

    /// Whether an instruction may not stand here.
    pub(crate) fn is_misplaced_insn(&self, insn: &Insn) -> bool
        ensures { (words : ℕ) → result ≡ is_misplaced_insn (place_of_code words self.now) insn.now }
    {
        self.section == Section::Data || self.level.unwrap_or(1) < level_of(insn).number()
    }

    // Whether no data may stand here.
    fn is_code(&self) -> bool
        ensures { result ≡ not (is_data self.now.section) }
    {
        self.section == Section::Code
    }

    /// Whether a statement may not stand here.
    pub(crate) fn is_misplaced(&self, statement: &Statement<'_>) -> bool
        ensures { (words : ℕ) → result ≡ is_misplaced (place_of_code words self.now) (stmt_of statement.now) }
    {
        match statement {
            Statement::Code(insn) => self.is_misplaced_insn(insn),
            Statement::Target { insn, .. } => self.is_misplaced_insn(insn),
            Statement::High { insn, .. } => self.is_misplaced_insn(insn),
            Statement::Low { insn, .. } => self.is_misplaced_insn(insn),
            Statement::Level(_) => self.begun,
            Statement::Segment(_) => self.level.is_none(),
            Statement::DataBase(_) => self.level.is_some(),
            Statement::DataSection => self.level.is_some() && self.earlier.is_empty(),
            Statement::Zero(_) | Statement::Align(_) => self.is_code(),
            Statement::Values { .. } | Statement::Text(_) => self.is_code() || self.has_zero,
            Statement::Empty
            | Statement::CodeBase(_)
            | Statement::Stack(_)
            | Statement::EntryAt(_)
            | Statement::EntryLabel(_)
            | Statement::CodeSection => false,
        }
    }

    // The zero bytes of a statement.
    fn pad(&self, statement: &Statement<'_>) -> u16
        requires small { IsSmall self.now }
        requires within { IsWithin (stmt_of statement.now) }
        ensures value { (words : ℕ) → result ≡ pad (place_of_code words self.now) (stmt_of statement.now) }
        ensures bound { result < 8192 }
    {
        match *statement {
            Statement::Align(n) => padding(n, self.size()),
            _ => 0,
        }
    }

    /// The zero bytes of a statement that are data bytes.
    pub(crate) fn filled_pad(&self, statement: &Statement<'_>) -> u16
        requires small { IsSmall self.now }
        requires within { IsWithin (stmt_of statement.now) }
        ensures { (words : ℕ) → result ≡ filled_pad (place_of_code words self.now) (stmt_of statement.now) }
    {
        if self.has_zero {
            0
        } else {
            self.pad(statement)
        }
    }

    // The zero bytes of a statement that are zeroed bytes.
    fn zeroed_pad(&self, statement: &Statement<'_>) -> u16
        requires small { IsSmall self.now }
        requires within { IsWithin (stmt_of statement.now) }
        ensures value { (words : ℕ) → result
            ≡ zeroed_pad (place_of_code words self.now) (stmt_of statement.now) }
        ensures bound { result < 8192 }
    {
        if self.has_zero {
            self.pad(statement)
        } else {
            0
        }
    }

    // The segment in hand behind a statement that adds so many data bytes.
    fn last_behind(&self, statement: &Statement<'_>, added: u64) -> Segment
        requires small { IsSmall self.now }
        requires within { IsWithin (stmt_of statement.now) }
        requires added { added
            ≡ data_size (stmt_of statement.now) + filled_pad (place_of_code 0 self.now) (stmt_of statement.now) }
        requires room { self.now.last.filled + added < 2 ^ 63 }
        ensures value { (words : ℕ) → result
            ≡ last_behind (place_of_code words self.now) (stmt_of statement.now) }
        ensures filled { result.filled ≤ self.now.last.filled + added }
        ensures zeroed { result.zeroed ≤ self.now.last.zeroed + 2 ^ 25 }
    {
        match segment_in(statement) {
            Some(base) => Segment {
                base,
                filled: 0,
                zeroed: 0,
            },
            None => Segment {
                base: self.last.base,
                filled: self.last.filled + added,
                zeroed: self.last.zeroed
                    + (u64::from(zero_bytes_in(statement).unwrap_or(0))
                        + u64::from(self.zeroed_pad(statement))),
            },
        }
    }

    /// Goes on behind a statement that adds so many data bytes.
    pub(crate) fn go_on(&mut self, statement: &Statement<'_>, added: u64) -> Result<(), AllocError>
        requires small { IsSmall self.old }
        requires within { IsWithin (stmt_of statement.now) }
        requires added { added
            ≡ data_size (stmt_of statement.now) + filled_pad (place_of_code 0 self.old) (stmt_of statement.now) }
        requires room { self.old.last.filled + added < 2 ^ 63 }
        ensures place { OnOk result ((words : ℕ) →
            place_of_code (words + (if is_some (coded (stmt_of statement.now)) then 1 else 0)) self.new
            ≡ place_after (place_of_code words self.old) (stmt_of statement.now)) }
        ensures filled { OnOk result (self.new.last.filled ≤ self.old.last.filled + added) }
        ensures zeroed { OnOk result (self.new.last.zeroed ≤ self.old.last.zeroed + 2 ^ 25) }
        ensures earlier { OnOk result (length self.new.earlier.items
            ≤ length self.old.earlier.items + 1) }
    {
        let last = self.last_behind(statement, added);
        let begins = segment_in(statement).is_some();
        let has_zero = !begins && (self.has_zero || zero_bytes_in(statement).is_some());
        if begins {
            self.earlier.push(self.last)?;
        }
        self.level = level_in(statement).or(self.level);
        self.begun = self.begun || is_statement(statement);
        self.section = section_in(statement).unwrap_or(self.section);
        self.last = last;
        self.has_zero = has_zero;
        Ok(())
    }
}
