ghost use Rattle.std.specs.Prelude.{◌≡◌, []};
ghost use Rattle.std.specs.Option.{unwrap_or, option_map};
ghost use Rattle.alpha_operands.specs.Operands.{slots};
ghost use Rattle.alpha_text.specs.Statements.{stmt_of, whole_in, zeroed_in, align_in, level_in, entry_stmt};
ghost use Rattle.alpha_text.specs.Statements.{directive_stmt};

use crate::Statement;
use crate::head::PseudoOp;
use crate::instruction::expr;
use alpha_operands::{Number, Operands};

// The number of 64 bits.
fn whole(number: Option<Number>) -> u64
    ensures { result ≡ whole_in number }
{
    match number {
        Some(Number::Whole(n)) => n,
        _ => 0,
    }
}

// The count of zeroed bytes.
fn zero_count(number: Option<Number>) -> u32
    ensures { result ≡ zeroed_in number }
{
    match number {
        Some(Number::Zeroed(n)) => n,
        _ => 0,
    }
}

// The power of two.
fn align(number: Option<Number>) -> u8
    ensures { result ≡ align_in number }
{
    match number {
        Some(Number::Align(n)) => n,
        _ => 0,
    }
}

// The level.
fn level(number: Option<Number>) -> u8
    ensures { result ≡ level_in number }
{
    match number {
        Some(Number::Level(n)) => n,
        _ => 1,
    }
}

// `.entry`, at an address or at a label.
fn entry<'a>(o: &Operands<'a>) -> Statement<'a>
    ensures { stmt_of result ≡ entry_stmt (slots o.now) (slots o.now).label }
{
    match o.label {
        Some(label) => {
            let to = expr(label, o);
            Statement::EntryLabel(to)
        }
        None => Statement::EntryAt(whole(o.number)),
    }
}

// What stands between the quotes of a string.
fn text<'a>(text: Option<&'a [u8]>) -> &'a [u8]
    ensures { result.now ≡ unwrap_or (option_map (λ t. t.now) text.entry) [] }
{
    match text {
        Some(text) => text,
        None => &[],
    }
}

// A directive, whose operands stand in `list`.
pub(crate) fn of_directive<'a>(
    pseudo_op: PseudoOp,
    o: &Operands<'a>,
    list: &'a [u8],
) -> Statement<'a>
    ensures { stmt_of result ≡ directive_stmt pseudo_op (slots o.now) list.now }
{
    match pseudo_op {
        PseudoOp::Byte => Statement::Values { bytes: 1, list },
        PseudoOp::Word => Statement::Values { bytes: 2, list },
        PseudoOp::Long => Statement::Values { bytes: 4, list },
        PseudoOp::Quad => Statement::Values { bytes: 8, list },
        PseudoOp::Ascii => Statement::Text(text(o.text)),
        PseudoOp::Zero => Statement::Zero(zero_count(o.number)),
        PseudoOp::Align => Statement::Align(align(o.number)),
        PseudoOp::Code => Statement::CodeSection,
        PseudoOp::Data => Statement::DataSection,
        PseudoOp::Segment => Statement::Segment(whole(o.number)),
        PseudoOp::CodeBase => Statement::CodeBase(whole(o.number)),
        PseudoOp::DataBase => Statement::DataBase(whole(o.number)),
        PseudoOp::Stack => Statement::Stack(whole(o.number)),
        PseudoOp::Entry => entry(o),
        PseudoOp::Level => Statement::Level(level(o.number)),
        _ => Statement::Empty,
    }
}
