ghost use Rattle.std.specs.Prelude.{◌≡◌, ◌≤◌, length, None};
ghost use Rattle.alpha_token.specs.Tokens.{tokens, lexeme, left_of};
ghost use Rattle.alpha_operands.specs.Operands.{Gives};
ghost use Rattle.alpha_operands.specs.Shapes.{patterns};
ghost use Rattle.alpha_operands.specs.Walk.{operands};
ghost use Rattle.alpha_text.specs.Heads.{shape_of};
ghost use Rattle.alpha_text.specs.Statements.{stmt_of};
ghost use Rattle.alpha_text.specs.Reading.{line_stmt_of, list_in, with_operands, statement_from, statement_of};
ghost use Rattle.alpha_text.specs.Reading.{is_labelled};
ghost use Rattle.alpha_text.specs.Reading.{labelled, line_after_label, line_of, read};

use crate::Statement;
use crate::head::Head;
use crate::statement::of_head;
use alpha_operands::{LineFaultKind, OperandFault, stuck_at};
use alpha_token::{Step, Token, TokenKind, is_label, next, without_blanks};
use thiserror::Error;

/// What a line says.
#[derive(Clone, Copy, Debug)]
pub struct Item<'a> {
    /// The name before the line's colon.
    pub label: Option<&'a [u8]>,
    /// At most one statement.
    pub statement: Statement<'a>,
}

/// The first fault of a line.
#[derive(Clone, Copy, Debug, PartialEq, Eq, Error)]
#[error("column {column}: {kind}")]
pub struct LineFault {
    /// What is wrong.
    pub kind: LineFaultKind,
    /// Where it stands, numbered from 1.
    pub column: u32,
}

/// What stands behind a name, from its first token to where so many bytes of the line are left. `behind` is the rest of
/// the line behind the name, `left` a number of bytes at its end: where it has fewer, nothing is left.
pub fn list_in(behind: &[u8], left: usize) -> &[u8]
    ensures { result.now ≡ list_in behind.now left }
{
    let list = without_blanks(behind);
    list.get(..list.len().saturating_sub(left)).unwrap_or(list)
}

/// The statement of a name with the operands behind it, or their first fault.
pub fn with_operands(head: Head, behind: &[u8]) -> Result<Statement<'_>, OperandFault>
    ensures { Gives stmt_of result
        (with_operands head behind.now (operands (patterns (shape_of head)) (tokens behind.now))) }
{
    match head.shape().operands(behind) {
        Ok(o) => {
            let list = list_in(behind, o.left);
            Ok(of_head(head, &o, list))
        }
        Err(fault) => Err(fault),
    }
}

// A statement that begins with a token, where so many bytes of the line are left.
fn statement_from<'a>(token: &Token<'a>, left: usize) -> Result<Statement<'a>, OperandFault>
    requires { left ≡ left_of (lexeme token.now) }
    ensures { Gives stmt_of result (statement_from (lexeme token.now) (tokens token.now.rest.now)) }
{
    if token.kind == TokenKind::Name {
        match Head::of(token.text) {
            Some(head) => with_operands(head, token.rest),
            None => Err(OperandFault {
                left,
                kind: LineFaultKind::UnknownName,
            }),
        }
    } else {
        Err(OperandFault {
            left,
            kind: stuck_at(token),
        })
    }
}

// At most one statement.
fn statement_of(line: &[u8]) -> Result<Statement<'_>, OperandFault>
    ensures { Gives stmt_of result (statement_of (tokens line.now)) }
{
    match next(line) {
        Step::End(_) => Ok(Statement::Empty),
        Step::Bad(left) => Err(OperandFault {
            left,
            kind: LineFaultKind::BadToken,
        }),
        Step::Token(token) => statement_from(&token, token.text.len() + token.rest.len()),
    }
}

// Whether a token is a name with a colon directly behind it.
fn is_labelled(token: &Token<'_>) -> bool
    ensures { result ≡ is_labelled (lexeme token.now) }
{
    token.kind == TokenKind::Name && token.rest.first() == Some(&b':')
}

// The item of a line behind its label.
fn item_after_label<'a>(token: &Token<'a>, left: usize) -> Result<Item<'a>, OperandFault>
    requires { left ≡ left_of (lexeme token.now) }
    ensures { Gives line_stmt_of result (line_after_label (lexeme token.now)) }
{
    if !is_label(token.text) {
        return Err(OperandFault {
            left,
            kind: LineFaultKind::BadOperands,
        });
    }
    match statement_of(token.rest.get(1..).unwrap_or(&[])) {
        Ok(statement) => Ok(Item {
            label: Some(token.text),
            statement,
        }),
        Err(fault) => Err(fault),
    }
}

// The item of a line without a label, which begins with a token.
fn item_without_label<'a>(token: &Token<'a>, left: usize) -> Result<Item<'a>, OperandFault>
    requires { left ≡ left_of (lexeme token.now) }
    ensures { Gives line_stmt_of result
        (labelled None (statement_from (lexeme token.now) (tokens token.now.rest.now))) }
{
    match statement_from(token, left) {
        Ok(statement) => Ok(Item {
            label: None,
            statement,
        }),
        Err(fault) => Err(fault),
    }
}

// An optional label, and then at most one statement.
fn line_of(line: &[u8]) -> Result<Item<'_>, OperandFault>
    ensures { Gives line_stmt_of result (line_of (tokens line.now)) }
{
    match next(line) {
        Step::Token(token) => {
            let left = token.text.len() + token.rest.len();
            if is_labelled(&token) {
                item_after_label(&token, left)
            } else {
                item_without_label(&token, left)
            }
        }
        Step::End(_) => Ok(Item {
            label: None,
            statement: Statement::Empty,
        }),
        Step::Bad(left) => Err(OperandFault {
            left,
            kind: LineFaultKind::BadToken,
        }),
    }
}

/// The item of a line, or its first fault: the one at the least column, and at one column of the
/// least kind.
#[tactic(auto, unfolding(crate::specs::Reading::read))]
#[inline(never)]
pub fn read_line(line: &[u8]) -> Result<Item<'_>, LineFault>
    requires { length line.now ≤ 1024 }
    ensures value { Gives line_stmt_of result (read line.now) }
{
    match line_of(line) {
        Ok(item) => Ok(item),
        Err(fault) => Err(LineFault {
            kind: fault.kind,
            column: (line.len() + 1).saturating_sub(fault.left) as u32,
        }),
    }
}
