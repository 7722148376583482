//! What the lines of a source are to whoever puts instructions before them.

ghost use Rattle.std.specs.Prelude.{◌≡◌, ◌++◌, ◌∷◌, List, ℕ, [], true, OnOk};
ghost use Rattle.std.specs.Option.{option_map};
ghost use Rattle.alpha_text.specs.Statements.{stmt_of};
ghost use Rattle.alpha_text.specs.Reading.{line_stmt_of};
ghost use Rattle.alpha_quick.specs.Parts.{unlabelled, nothing_said};
ghost use Rattle.alpha_asm.specs.LineKinds.{insn_if, alone_if, code_kind, statement_kind, line_kind};

use crate::statement::RelocField;
use alpha_table::Insn;
use alpha_text::{Item, Statement};
use std::alloc::{AllocError, Global};

/// What a line is to whoever puts instructions before it.
#[derive(Clone, Copy, Debug, PartialEq, Eq)]
pub enum LineKind {
    /// It has no instruction and names no address.
    Other,
    /// It says an instruction alone, with no label, that names no address.
    InsnAlone,
    /// It has another instruction, which names no place of the code or a label alone.
    Insn,
    /// What it says may depend on where instructions stand.
    PositionDependent,
}

// An instruction, which names no place in its own way where this is so.
fn insn_if(free: bool) -> LineKind
    ensures { result ≡ insn_if free }
{
    if free {
        LineKind::Insn
    } else {
        LineKind::PositionDependent
    }
}

// An instruction alone, with no label.
#[inline(always)]
fn alone_if(free: bool) -> LineKind
    ensures { result ≡ alone_if free }
{
    if free {
        LineKind::InsnAlone
    } else {
        LineKind::PositionDependent
    }
}

// An instruction that names no address, in a line with a label or without one.
fn code_kind(insn: &Insn, labelled: bool) -> LineKind
    ensures { result ≡ code_kind labelled insn.now }
{
    let free = !RelocField::Branch.applies_to(insn);
    if labelled {
        insn_if(free)
    } else {
        alone_if(free)
    }
}

// The kind of a line with a statement, and with a label where this is so.
fn statement_kind(statement: &Statement<'_>, labelled: bool) -> LineKind
    ensures { result ≡ statement_kind labelled (stmt_of statement.now) }
{
    match statement {
        Statement::Code(insn) => code_kind(insn, labelled),
        Statement::Target { target, .. } => insn_if(target.offset == 0),
        Statement::High { insn, address } | Statement::Low { insn, address } => {
            insn_if(
                address.offset == 0
                    && (RelocField::High.applies_to(insn) || RelocField::Low.applies_to(insn)),
            )
        }
        Statement::EntryAt(_) | Statement::EntryLabel(_) | Statement::Values { .. } => {
            LineKind::PositionDependent
        }
        Statement::Empty
        | Statement::Level(_)
        | Statement::Segment(_)
        | Statement::CodeBase(_)
        | Statement::DataBase(_)
        | Statement::Stack(_)
        | Statement::CodeSection
        | Statement::DataSection
        | Statement::Zero(_)
        | Statement::Align(_)
        | Statement::Text(_) => LineKind::Other,
    }
}

/// The kinds of the lines so far, where they are gathered.
#[derive(Drop)]
pub(crate) struct LineKinds {
    gathers: bool,
    /// One a line.
    pub items: Vec<LineKind>,
}

impl LineKinds {
    /// Of no line, to be gathered.
    pub(crate) fn new(alloc: Global) -> LineKinds
        ensures gathers { result.gathers ≡ true }
        ensures items { result.items.items ≡ [] }
    {
        LineKinds {
            gathers: true,
            items: Vec::new(alloc),
        }
    }

    /// None, of however many lines.
    pub(crate) fn none(alloc: Global) -> LineKinds {
        LineKinds {
            gathers: false,
            items: Vec::new(alloc),
        }
    }

    /// Adds that of a line with an instruction.
    #[inline(always)]
    pub(crate) fn push_insn(&mut self, insn: &Insn) -> Result<(), AllocError>
        ensures gathers { self.new.gathers ≡ self.old.gathers }
        ensures items { OnOk result (self.old.gathers ≡ true →
            self.new.items.items ≡ self.old.items.items ++ line_kind (unlabelled insn.now) ∷ []) }
    {
        if self.gathers {
            self.items
                .push(alone_if(!RelocField::Branch.applies_to(insn)))?;
        }
        Ok(())
    }

    /// Adds that of a line without a statement.
    pub(crate) fn push_blank(&mut self) -> Result<(), AllocError>
        ensures gathers { self.new.gathers ≡ self.old.gathers }
        ensures items { OnOk result (self.old.gathers ≡ true →
            self.new.items.items ≡ self.old.items.items ++ line_kind nothing_said ∷ []) }
    {
        if self.gathers {
            self.items.push(LineKind::Other)?;
        }
        Ok(())
    }

    /// Adds that of a line with an item.
    pub(crate) fn push(&mut self, item: &Item<'_>) -> Result<(), AllocError>
        ensures gathers { self.new.gathers ≡ self.old.gathers }
        ensures items { OnOk result (self.old.gathers ≡ true →
            self.new.items.items ≡ self.old.items.items ++ line_kind (line_stmt_of item.now) ∷ []) }
    {
        if self.gathers {
            self.items
                .push(statement_kind(&item.statement, item.label.is_some()))?;
        }
        Ok(())
    }
}
