ghost use Rattle.std.specs.Prelude.{◌≡◌};
ghost use Rattle.std.specs.Option.{option_map};
ghost use Rattle.alpha_text.specs.Statements.{stmt_of};
ghost use Rattle.alpha_asm.specs.Statement.{applies_to, coded, section_in, level_in, segment_in, zero_bytes_in};
ghost use Rattle.alpha_asm.specs.Statement.{is_statement};
ghost use Rattle.alpha_asm.specs.Patches.{coded_of};

use crate::place::Section;
use alpha_table::{Form, Insn, MemOp};
use alpha_text::{Expr, Statement};

/// How an instruction uses the address of a label.
#[derive(Clone, Copy, Debug, PartialEq, Eq)]
pub enum RelocField {
    /// It branches there.
    Branch,
    /// Its displacement is the high half of the address, rounded so that the low half is signed.
    High,
    /// Its displacement is the low half.
    Low,
}

impl RelocField {
    /// Whether an instruction is of the kind that this use is for: a branch, an LDAH, an LDA.
    #[inline]
    pub fn applies_to(self, insn: &Insn) -> bool
        ensures { result ≡ applies_to self insn.now }
    {
        match (self, insn.form()) {
            (RelocField::Branch, Form::Branch { .. }) => true,
            (RelocField::High, Form::Mem { op, .. }) => op == MemOp::Ldah,
            (RelocField::Low, Form::Mem { op, .. }) => op == MemOp::Lda,
            _ => false,
        }
    }
}

/// An instruction, and what its displacement is to reach.
#[derive(Clone, Copy, Debug)]
pub(crate) struct InsnStmt<'a> {
    pub insn: Insn,
    pub reach: Option<(RelocField, Expr<'a>)>,
}

/// The instruction of a statement.
pub(crate) fn insn_stmt_in<'a>(statement: &Statement<'a>) -> Option<InsnStmt<'a>>
    ensures { option_map coded_of result ≡ coded (stmt_of statement.now) }
{
    match *statement {
        Statement::Code(insn) => Some(InsnStmt { insn, reach: None }),
        Statement::Target { insn, target } => Some(InsnStmt {
            insn,
            reach: Some((RelocField::Branch, target)),
        }),
        Statement::High { insn, address } => Some(InsnStmt {
            insn,
            reach: Some((RelocField::High, address)),
        }),
        Statement::Low { insn, address } => Some(InsnStmt {
            insn,
            reach: Some((RelocField::Low, address)),
        }),
        _ => None,
    }
}

/// The section that a statement turns to.
pub(crate) fn section_in(statement: &Statement<'_>) -> Option<Section>
    ensures { result ≡ section_in (stmt_of statement.now) }
{
    match *statement {
        Statement::CodeSection => Some(Section::Code),
        Statement::DataSection | Statement::Segment(_) => Some(Section::Data),
        _ => None,
    }
}

/// The level of a `.level`.
pub(crate) fn level_in(statement: &Statement<'_>) -> Option<u8>
    ensures { result ≡ level_in (stmt_of statement.now) }
{
    match *statement {
        Statement::Level(n) => Some(n),
        _ => None,
    }
}

/// The base of a segment that begins.
pub(crate) fn segment_in(statement: &Statement<'_>) -> Option<u64>
    ensures { result ≡ segment_in (stmt_of statement.now) }
{
    match *statement {
        Statement::Segment(base) => Some(base),
        _ => None,
    }
}

/// The zeroed bytes that a `.zero` asks for.
pub(crate) fn zero_bytes_in(statement: &Statement<'_>) -> Option<u32>
    ensures { result ≡ zero_bytes_in (stmt_of statement.now) }
{
    match *statement {
        Statement::Zero(n) => Some(n),
        _ => None,
    }
}

/// Whether there is a statement at all.
pub(crate) fn is_statement(statement: &Statement<'_>) -> bool
    ensures { result ≡ is_statement (stmt_of statement.now) }
{
    !matches!(*statement, Statement::Empty)
}
