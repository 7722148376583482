//! Lines as programs write them, read in one pass: blanks, a label, a name, and the words behind it. What is
//! written otherwise is left to the reader of all lines.
ghost use Rattle.std.specs.Prelude.{◌≡◌, ◌≤◌, ◌++◌, List, ℕ, IfSome, IfOk, IfErr, IsTrue, Ok, Some, length, true};
ghost use Rattle.std.specs.List.{list_all};
ghost use Rattle.std.specs.Option.{option_map};
ghost use Rattle.alpha_token.specs.Bytes.{goes_on_label};
ghost use Rattle.alpha_token.specs.Tokens.{tokens};
ghost use Rattle.alpha_operands.specs.Operands.{Gives};
ghost use Rattle.alpha_text.specs.SuffixWords.{IsApart};
ghost use Rattle.alpha_text.specs.Statements.{stmt_of, code, empty};
ghost use Rattle.alpha_text.specs.Reading.{line_stmt_of, statement_of, line_of, read};
ghost use Rattle.alpha_quick.specs.Keys.{key_of, IsKeyed};
ghost use Rattle.alpha_quick.specs.Parts.{SaysNamed, unlabelled, nothing_said};
ghost use Rattle.alpha_quick.specs.InsnPrefix.{PrefixSays, HasStatement};
ghost use Rattle.alpha_quick.specs.Unparsed.{IsAfterLabel, IsUnparsed};
ghost use Rattle.alpha_quick.specs.Prescanned.{LeavesRest, IsPrescanned};
ghost use Rattle.alpha_quick.specs.Words.{HasEnd};

use crate::data::of_directive;
use crate::forms::{InsnPrefix, insn_of_pseudo_op, of_row};
use crate::lexeme::Lexeme;
use crate::reach::with_label;
use crate::rows::{pseudo_op_named, row_named};
use crate::words::{after_blanks, after_byte, is_end, without_any_blanks};
use alpha_table::Insn;
use alpha_text::{Item, LineFault, Statement};
use alpha_token::without_blanks;

// What stands behind a name and its blanks, where the name ends there, but at no space.
#[inline(always)]
fn after_name_otherwise(text: &[u8]) -> Option<&[u8]>
    ensures { IfSome result (λ words. IsApart text.now × (tokens text.now ≡ tokens words.now)) }
{
    match text {
        [] | [b'#', ..] => Some(text),
        [b'\t', ..] => Some(without_blanks(text)),
        _ => None,
    }
}

// What stands behind a name and its blanks, where the name ends there.
#[inline(always)]
fn after_name(text: &[u8]) -> Option<&[u8]>
    ensures { IfSome result (λ words. IsApart text.now × (tokens text.now ≡ tokens words.now)) }
{
    match after_byte(b' ', text) {
        Some(words) => Some(after_blanks(words)),
        None => after_name_otherwise(text),
    }
}

// The instruction of a name with what stands behind it, or with the front of that.
#[inline(always)]
fn insn_prefix_of<'a>(lexeme: &Lexeme<'a>) -> Option<InsnPrefix<'a>>
    requires { IsKeyed lexeme.now.name.now lexeme.now.key.0 }
    ensures { IfSome result (PrefixSays (SaysNamed lexeme.now.name.now lexeme.now.rest.now)) }
{
    let words = after_name(lexeme.rest)?;
    match row_named(lexeme.name, lexeme.key) {
        Some(row) => of_row(row, words),
        None => {
            let pseudo_op = pseudo_op_named(lexeme.name, lexeme.key)?;
            let insn = insn_of_pseudo_op(pseudo_op, words)?;
            Some(InsnPrefix::without_label(insn, words))
        }
    }
}

// The statement of a line that ends.
#[inline(always)]
fn empty(line: &[u8]) -> Option<Statement<'_>>
    ensures { IfSome result (λ s. HasEnd line.now × (stmt_of s ≡ empty)) }
{
    if is_end(line) {
        Some(Statement::Empty)
    } else {
        None
    }
}

// The directive of a name with what stands behind it.
#[inline(always)]
fn statement_of_pseudo_op<'a>(lexeme: &Lexeme<'a>) -> Option<Statement<'a>>
    ensures { IfSome result (λ s. SaysNamed lexeme.now.name.now lexeme.now.rest.now (stmt_of s)) }
{
    let words = after_name(lexeme.rest)?;
    let pseudo_op = pseudo_op_named(lexeme.name, lexeme.key)?;
    of_directive(pseudo_op, lexeme.rest, words)
}

// A line, cut behind its label and behind the first bytes of what stands behind that which go on a label.
#[derive(Clone, Copy)]
struct SplitLine<'a> {
    label: Option<&'a [u8]>,
    // What stands behind the label, or behind the blanks at the front of a line without one.
    text: &'a [u8],
    lexeme: Lexeme<'a>,
}

impl<'a> SplitLine<'a> {
    #[inline(always)]
    fn of(line: &'a [u8]) -> SplitLine<'a>
        ensures line { IsAfterLabel line.now (option_map (λ l. l.now) result.label) result.text.now }
        ensures text { result.text.now ≡ result.lexeme.name.now ++ result.lexeme.rest.now }
        ensures name { list_all goes_on_label result.lexeme.name.now ≡ true }
        ensures key { result.lexeme.key.0 ≡ key_of result.lexeme.name.now }
    {
        let text = after_blanks(line);
        let lexeme = Lexeme::of(text);
        match after_byte(b':', lexeme.rest) {
            Some(rest) if lexeme.is_label() => {
                let label = Some(lexeme.name);
                let text = without_any_blanks(rest);
                let lexeme = Lexeme::of(text);
                SplitLine {
                    label,
                    text,
                    lexeme,
                }
            }
            _ => {
                let label = None;
                SplitLine {
                    label,
                    text,
                    lexeme,
                }
            }
        }
    }
}

/// A line of which no instruction alone was read, as far as it was read.
#[derive(Clone, Copy)]
pub struct Unparsed<'a> {
    /// The line.
    pub line: &'a [u8],
    // Its label, if it has one.
    pub(crate) label: Option<&'a [u8]>,
    // What stands behind the label and blanks.
    pub(crate) lexeme: Lexeme<'a>,
    // The instruction at the front of that, if there is one.
    pub(crate) insn: Option<Insn>,
    // Whether it is to reach a label.
    pub(crate) reaches: bool,
    // The words that name that one.
    pub(crate) left: &'a [u8],
}

impl<'a> Unparsed<'a> {
    // The statement behind the label.
    #[inline(always)]
    fn statement(&self) -> Option<Statement<'a>>
        requires { IsUnparsed self.now }
        ensures { IfSome result (λ s.
            HasStatement (self.now.lexeme.name.now ++ self.now.lexeme.rest.now) (stmt_of s)) }
    {
        match self.insn {
            Some(insn) => {
                if self.reaches {
                    with_label(insn, self.left)
                } else {
                    Some(Statement::Code(insn))
                }
            }
            None => {
                if self.lexeme.name.is_empty() {
                    empty(self.lexeme.rest)
                } else {
                    statement_of_pseudo_op(&self.lexeme)
                }
            }
        }
    }

    /// The item of the line, or its first fault: the one at the least column, and at one column of the
    /// least kind.
    #[tactic(auto, unfolding(alpha_text::specs::Reading::read))]
    #[inline(always)]
    pub fn item(&self) -> Result<Item<'a>, LineFault>
        requires read { IsUnparsed self.now }
        requires size { length self.now.line.now ≤ 1024 }
        ensures { Gives line_stmt_of result (read self.now.line.now) }
    {
        let label = self.label;
        match self.statement() {
            Some(statement) => Ok(Item { label, statement }),
            None => alpha_text::read_line(self.line),
        }
    }
}

// Whether a line is empty, or a comment from its first byte on.
#[inline(always)]
fn is_blank_line(line: &[u8]) -> bool
    ensures { IsTrue result → line_of (tokens line.now) ≡ Ok nothing_said }
{
    match line {
        [] | [b'#', ..] => true,
        _ => false,
    }
}

// The item of a line without a label, by its instruction and the words of the label that this is to reach.
#[tactic(auto, unfolding(alpha_text::specs::Reading::read))]
#[inline(always)]
fn item_with_label<'a>(line: &'a [u8], insn: Insn, left: &'a [u8]) -> Result<Item<'a>, LineFault>
    requires read { LeavesRest line.now (Some insn) left.now }
    requires size { length line.now ≤ 1024 }
    ensures { Gives line_stmt_of result (read line.now) }
{
    match with_label(insn, left) {
        Some(statement) => Ok(Item {
            label: None,
            statement,
        }),
        None => alpha_text::read_line(line),
    }
}

/// A line of which no instruction alone was read by places, as far as it was read.
#[derive(Clone, Copy)]
pub struct Prescanned<'a> {
    // The instruction at the front of it, if it is one that is to reach a label.
    pub(crate) insn: Option<Insn>,
    // The words that name that label, or else the text that says what the line does.
    pub(crate) left: &'a [u8],
}

impl<'a> Prescanned<'a> {
    /// Whether the line is blank or a comment alone, as far as its first bytes tell it.
    #[inline(always)]
    pub fn is_blank(&self) -> bool
        ensures { IsTrue result → (line : List ℕ) → IsPrescanned line self.now
            → line_of (tokens line) ≡ Ok nothing_said }
    {
        match self.insn {
            Some(_) => false,
            None => is_blank_line(self.left),
        }
    }

    /// The item of the line, or its first fault: the one at the least column, and at one column of the
    /// least kind.
    #[inline(always)]
    pub fn item(&self, line: &'a [u8]) -> Result<Item<'a>, LineFault>
        requires read { IsPrescanned line.now self.now }
        requires size { length line.now ≤ 1024 }
        ensures { Gives line_stmt_of result (read line.now) }
    {
        match self.insn {
            Some(insn) => item_with_label(line, insn, self.left),
            None => read_line_by_text(line, self.left),
        }
    }
}

// The instruction of a line that has no label and names none, by a text that says what the line does, or the line as
// far as it was read.
#[inline(always)]
fn read_text<'a>(line: &'a [u8], text: &'a [u8]) -> Result<Insn, Unparsed<'a>>
    requires { tokens line.now ≡ tokens text.now }
    ensures line { IfOk result (λ i. line_of (tokens line.now) ≡ Ok (unlabelled i)) }
    ensures statement { IfOk result (λ i. statement_of (tokens line.now) ≡ Ok (code i)) }
    ensures rest { IfErr result IsUnparsed }
    ensures same { IfErr result (λ rest. rest.line.now ≡ line.now) }
{
    let cut = SplitLine::of(text);
    let (label, front) = (cut.label, cut.lexeme);
    let whole = front.with_trap(cut.text);
    match insn_prefix_of(&whole) {
        Some(prefix) => {
            if prefix.reaches || label.is_some() {
                Err(Unparsed {
                    line,
                    label,
                    lexeme: front,
                    insn: Some(prefix.insn),
                    reaches: prefix.reaches,
                    left: prefix.left,
                })
            } else {
                Ok(prefix.insn)
            }
        }
        None => Err(Unparsed {
            line,
            label,
            lexeme: front,
            insn: None,
            reaches: false,
            left: line,
        }),
    }
}

/// The instruction of a line that has no label and names none, or the line as far as it was read, which may have such
/// an instruction too.
#[inline(always)]
pub fn read_insn(line: &[u8]) -> Result<Insn, Unparsed<'_>>
    ensures line { IfOk result (λ i. line_of (tokens line.now) ≡ Ok (unlabelled i)) }
    ensures statement { IfOk result (λ i. statement_of (tokens line.now) ≡ Ok (code i)) }
    ensures rest { IfErr result IsUnparsed }
    ensures same { IfErr result (λ rest. rest.line.now ≡ line.now) }
{
    read_text(line, line)
}

// The item of a line, or its first fault, by a text that says what the line does.
#[tactic(auto, unfolding(alpha_text::specs::Reading::read))]
#[inline(always)]
fn read_line_by_text<'a>(line: &'a [u8], text: &'a [u8]) -> Result<Item<'a>, LineFault>
    requires same { tokens line.now ≡ tokens text.now }
    requires size { length line.now ≤ 1024 }
    ensures value { Gives line_stmt_of result (read line.now) }
{
    match read_text(line, text) {
        Ok(insn) => Ok(Item {
            label: None,
            statement: Statement::Code(insn),
        }),
        Err(rest) => rest.item(),
    }
}

/// The item of a line, or its first fault: the one at the least column, and at one column of the
/// least kind.
#[inline(always)]
pub fn read_line(line: &[u8]) -> Result<Item<'_>, LineFault>
    requires { length line.now ≤ 1024 }
    ensures value { Gives line_stmt_of result (read line.now) }
{
    read_line_by_text(line, line)
}
