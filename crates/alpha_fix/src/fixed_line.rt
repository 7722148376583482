ghost use Rattle.std.specs.Prelude.{◌≡◌, [], ◌∷◌, length, map};
ghost use Rattle.std.specs.List.{list_any, filter_map};
ghost use Rattle.alpha_operands.specs.Values.{view};
ghost use Rattle.alpha_text.specs.Statements.{stmt_of};
ghost use Rattle.alpha_asm.specs.Statement.{cell_of, values_up_to};
ghost use Rattle.alpha_asm.specs.Patches.{reference_of};
ghost use Rattle.alpha_fix.specs.FixedLines.{items_of, is_over_distance, takes_half, enters_within, cell_reference};
ghost use Rattle.alpha_fix.specs.FixedLines.{references, has_offset, depends_on_position, names_code};

use alpha_asm::{RelocField, Symbols};
use alpha_text::{Expr, ListValue, Statement, next_value};

// Whether a statement is a branch over a distance.
fn is_over_distance(statement: &Statement<'_>) -> bool
    ensures { result ≡ is_over_distance (stmt_of statement.now) }
{
    match *statement {
        Statement::Code(insn) => RelocField::Branch.applies_to(&insn),
        _ => false,
    }
}

// Whether a statement has half of the address of a label that names code, in another instruction than
// LDA or LDAH.
fn takes_half<'a>(symbols: &Symbols<'a>, statement: &Statement<'a>) -> bool
    ensures { result ≡ takes_half (names_code (items_of symbols.now)) (stmt_of statement.now) }
{
    match *statement {
        Statement::High { insn, address } | Statement::Low { insn, address } => {
            symbols.names_code(address.label)
                && !(RelocField::High.applies_to(&insn) || RelocField::Low.applies_to(&insn))
        }
        _ => false,
    }
}

// Whether a statement is an entry at an address that isn't the code base.
fn enters_within(base: u64, statement: &Statement<'_>) -> bool
    ensures { result ≡ enters_within base (stmt_of statement.now) }
{
    match *statement {
        Statement::EntryAt(n) => n != base,
        _ => false,
    }
}

// Whether an address is some way off a label that names code.
fn has_offset<'a>(symbols: &Symbols<'a>, reference: &Expr<'a>) -> bool
    ensures { result ≡ has_offset (names_code (items_of symbols.now)) (reference_of reference.now) }
{
    reference.offset != 0 && symbols.names_code(reference.label)
}

// Whether a value of a list is an address some way off a label that names code.
fn is_value_off<'a>(symbols: &Symbols<'a>, bytes: u8, value: &ListValue<'a>) -> bool
    ensures { result ≡ list_any (has_offset (names_code (items_of symbols.now)))
        (filter_map cell_reference (cell_of bytes (view value.now) ∷ [])) }
{
    match value {
        ListValue::Number(_) => false,
        ListValue::Label(reference) => has_offset(symbols, reference),
    }
}

// Whether one of the values of a list is such an address. The list has no more values than bytes.
fn is_any_off<'a>(symbols: &Symbols<'a>, bytes: u8, list: &'a [u8]) -> bool
    ensures { result ≡ list_any (has_offset (names_code (items_of symbols.now)))
        (filter_map cell_reference (map (cell_of bytes)
        (values_up_to (length list.now) bytes list.now))) }
{
    let mut rest = list;
    for _ in 0..list.len() {
        match next_value(rest, bytes) {
            Some((value, more)) => {
                if is_value_off(symbols, bytes, &value) {
                    return true;
                }
                rest = more;
            }
            None => return false,
        }
    }
    false
}

// Whether an address that a statement names is some way off a label that names code.
#[tactic(auto, unfolding(alpha_asm::specs::Statement::cells))]
fn names_off<'a>(symbols: &Symbols<'a>, statement: &Statement<'a>) -> bool
    ensures { result
        ≡ list_any (has_offset (names_code (items_of symbols.now))) (references (stmt_of statement.now)) }
{
    match *statement {
        Statement::Target { target, .. } => has_offset(symbols, &target),
        Statement::High { address, .. } => has_offset(symbols, &address),
        Statement::Low { address, .. } => has_offset(symbols, &address),
        Statement::EntryLabel(entry) => has_offset(symbols, &entry),
        Statement::Values { bytes, list } => is_any_off(symbols, bytes, list),
        Statement::Text(_) => false,
        _ => false,
    }
}

/// Whether a statement fixes where words of the code stand, by the labels of its source and the code
/// base.
pub(crate) fn depends_on_position<'a>(
    symbols: &Symbols<'a>,
    base: u64,
    statement: &Statement<'a>,
) -> bool
    ensures { result ≡ depends_on_position (names_code (items_of symbols.now)) base (stmt_of statement.now) }
{
    is_over_distance(statement)
        || names_off(symbols, statement)
        || takes_half(symbols, statement)
        || enters_within(base, statement)
}
