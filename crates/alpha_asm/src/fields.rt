ghost use Rattle.std.specs.Prelude.{◌≡◌};
ghost use Rattle.std.specs.Option.{option_map};
ghost use Rattle.alpha_text.specs.Statements.{stmt_of};
ghost use Rattle.alpha_asm.specs.Statement.{code_base_in, data_base_in, stack_in, entry_in};
ghost use Rattle.alpha_asm.specs.Layout.{repeats_field, with_fields};
ghost use Rattle.alpha_asm.specs.Patches.{entry_view};
ghost use Rattle.alpha_asm.specs.Pass.{fields_read};

use alpha_text::{Expr, Statement};

/// Where a program begins.
#[derive(Clone, Copy, Debug)]
pub(crate) enum Entry<'a> {
    /// At an address.
    At(u64),
    /// At the address of a label.
    Of(Expr<'a>),
}

/// The field statements so far.
#[derive(Clone, Copy, Debug)]
pub(crate) struct FieldsRead<'a> {
    pub code_base: Option<u64>,
    pub data_base: Option<u64>,
    pub stack: Option<u64>,
    pub entry: Option<Entry<'a>>,
}

fn code_base_in(statement: &Statement<'_>) -> Option<u64>
    ensures { result ≡ code_base_in (stmt_of statement.now) }
{
    match *statement {
        Statement::CodeBase(n) => Some(n),
        _ => None,
    }
}

fn data_base_in(statement: &Statement<'_>) -> Option<u64>
    ensures { result ≡ data_base_in (stmt_of statement.now) }
{
    match *statement {
        Statement::DataBase(n) => Some(n),
        _ => None,
    }
}

fn stack_in(statement: &Statement<'_>) -> Option<u64>
    ensures { result ≡ stack_in (stmt_of statement.now) }
{
    match *statement {
        Statement::Stack(n) => Some(n),
        _ => None,
    }
}

/// The entry that a statement gives.
pub(crate) fn entry_in<'a>(statement: &Statement<'a>) -> Option<Entry<'a>>
    ensures { option_map entry_view result ≡ entry_in (stmt_of statement.now) }
{
    match *statement {
        Statement::EntryAt(n) => Some(Entry::At(n)),
        Statement::EntryLabel(to) => Some(Entry::Of(to)),
        _ => None,
    }
}

impl<'a> FieldsRead<'a> {
    /// Before the first line.
    pub(crate) const NONE: FieldsRead<'static> = FieldsRead {
        code_base: None,
        data_base: None,
        stack: None,
        entry: None,
    };

    /// Whether a statement is one of those for the second time.
    pub(crate) fn repeats(&self, statement: &Statement<'_>) -> bool
        ensures { result ≡ repeats_field (fields_read self.now) (stmt_of statement.now) }
    {
        match *statement {
            Statement::CodeBase(_) => self.code_base.is_some(),
            Statement::DataBase(_) => self.data_base.is_some(),
            Statement::Stack(_) => self.stack.is_some(),
            Statement::EntryAt(_) | Statement::EntryLabel(_) => self.entry.is_some(),
            _ => false,
        }
    }

    /// With a further statement.
    pub(crate) fn with(&self, statement: &Statement<'a>) -> FieldsRead<'a>
        ensures { fields_read result ≡ with_fields (fields_read self.now) (stmt_of statement.now) }
    {
        FieldsRead {
            code_base: self.code_base.or(code_base_in(statement)),
            data_base: self.data_base.or(data_base_in(statement)),
            stack: self.stack.or(stack_in(statement)),
            entry: self.entry.or(entry_in(statement)),
        }
    }
}
