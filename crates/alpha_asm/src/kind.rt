ghost use Rattle.std.specs.Prelude.{◌≡◌};
ghost use Rattle.alpha_text.specs.Statements.{stmt_of};
ghost use Rattle.alpha_asm.specs.Layout.{is_allowed_in_module, is_barred};

use crate::statement::RelocField;
use alpha_text::Statement;

/// What a source is of.
#[derive(Clone, Copy, Debug, PartialEq, Eq)]
pub enum SourceKind {
    /// A program, all of whose addresses its own lines give.
    Program,
    /// A module, which other modules are linked to later.
    Module,
}

// Whether a module may have a statement, wherever it stands.
fn is_allowed_in_module(statement: &Statement<'_>) -> bool
    ensures { result ≡ is_allowed_in_module (stmt_of statement.now) }
{
    match statement {
        Statement::Level(_)
        | Statement::Segment(_)
        | Statement::CodeBase(_)
        | Statement::DataBase(_)
        | Statement::Stack(_)
        | Statement::EntryAt(_)
        | Statement::EntryLabel(_) => false,
        Statement::High { insn, .. } => RelocField::High.applies_to(insn),
        Statement::Low { insn, .. } => RelocField::Low.applies_to(insn),
        Statement::Empty
        | Statement::Code(_)
        | Statement::Target { .. }
        | Statement::CodeSection
        | Statement::DataSection
        | Statement::Zero(_)
        | Statement::Align(_)
        | Statement::Values { .. }
        | Statement::Text(_) => true,
    }
}

impl SourceKind {
    /// Whether a source of this kind may not have a statement, wherever it stands.
    pub(crate) fn bars(self, statement: &Statement<'_>) -> bool
        ensures { result ≡ is_barred self (stmt_of statement.now) }
    {
        match self {
            SourceKind::Program => false,
            SourceKind::Module => !is_allowed_in_module(statement),
        }
    }
}
