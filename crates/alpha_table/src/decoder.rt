ghost use Rattle.std.specs.Prelude.{◌≡◌, ◌<◌, ◌↔◌, ℕ, IsTrue, length, IfSome, IfNone};
ghost use Rattle.alpha_words.specs.Field.{field};
ghost use Rattle.alpha_table.specs.Row.{Row, SourceField};
ghost use Rattle.alpha_table.specs.Decoded.{decoded};
ghost use Rattle.alpha_table.specs.Insn.{Decodes, source_in, is_at, matches_row, tables_suit};
ghost use Rattle.alpha_table.specs.declared.form.Form.TheVariants.{Misc, Fetch, Pal};
ghost use Rattle.alpha_table.specs.declared.insn.InsnRow.TheVariants.{Other};

use crate::formats::{fetch_at, pal_call_at};
use crate::insn::{operands_fit, source};
use crate::table::ROWS;
use crate::{Insn, InsnRow, MiscOp, Op};
use alpha_words::{Reg, Word};

// The row of an opcode and a function.
#[inline(always)]
fn row_in(rows: &[[InsnRow; 128]], opcode: u8, function: u8) -> InsnRow
    requires rows { IsTrue (tables_suit 0 rows.now) }
    requires within { (opcode < length rows.now) × (function < 128) }
    ensures { IsTrue (matches_row opcode function result) }
{
    rows[usize::from(opcode)][usize::from(function)]
}

// Whether an operate word has a second source: a word with a register has three zeros.
#[inline(always)]
fn has_source(w: Word) -> bool
    ensures { IsTrue result ↔ SourceField w.0 (source_in w.0) }
{
    if w.is_literal() { true } else { w.zeros() == 0 }
}

// The row of an operate word whose operands not all words of the row have.
fn row_under_rule(op: Op, w: Word) -> Option<InsnRow>
    requires { IsTrue (is_at (field 31 26 w.0) (field 11 5 w.0) op) }
    ensures found { IfSome result (λ row. Decodes row w.0) }
    ensures none { IfNone result ((i : _) → Row w.0 i → ⊥) }
{
    if !has_source(w) {
        return None;
    }
    if operands_fit(op.operands(), w.ra(), &source(w)) {
        Some(InsnRow::Operate(op))
    } else {
        None
    }
}

fn misc(w: Word) -> Option<InsnRow>
    requires { field 31 26 w.0 ≡ 0x18 }
    ensures found { IfSome result (λ row. Decodes row w.0) }
    ensures none { IfNone result ((op : _) → Row w.0 (Misc op) → ⊥) }
{
    if w.ra() != Reg::ZERO || w.rb() != Reg::ZERO {
        return None;
    }
    Some(InsnRow::Misc(MiscOp::at(w.misc())?))
}

fn fetch(w: Word) -> Option<InsnRow>
    requires { field 31 26 w.0 ≡ 0x18 }
    ensures found { IfSome result (λ row. Decodes row w.0) }
    ensures none { IfNone result ((modify : _) (rb : ℕ) → Row w.0 (Fetch modify rb) → ⊥) }
{
    if w.ra() != Reg::ZERO {
        return None;
    }
    Some(InsnRow::Fetch {
        modify: fetch_at(w.misc())?,
    })
}

fn pal(w: Word) -> Option<InsnRow>
    requires { field 31 26 w.0 ≡ 0x00 }
    ensures found { IfSome result (λ row. Decodes row w.0) }
    ensures none { IfNone result ((call : _) → Row w.0 (Pal call) → ⊥) }
{
    Some(InsnRow::Pal(pal_call_at(w.pal())?))
}

// The row of a word whose opcode has a format of its own, or which no row has.
#[inline(always)]
fn row_by_opcode(w: Word) -> Option<InsnRow>
    requires { IsTrue (matches_row (field 31 26 w.0) (field 11 5 w.0) Other) }
    ensures found { IfSome result (λ row. Decodes row w.0) }
    ensures none { IfNone result ((i : _) → Row w.0 i → ⊥) }
{
    match w.opcode() {
        0x00 => pal(w),
        0x18 => match misc(w) {
            Some(row) => Some(row),
            None => fetch(w),
        },
        _ => None,
    }
}

// The row of a word, of which its opcode and its function may not tell all.
fn row_by_rest(row: InsnRow, w: Word) -> Option<InsnRow>
    requires { IsTrue (matches_row (field 31 26 w.0) (field 11 5 w.0) row) }
    ensures found { IfSome result (λ row. Decodes row w.0) }
    ensures none { IfNone result ((i : _) → Row w.0 i → ⊥) }
{
    match row {
        InsnRow::Ruled(op) => row_under_rule(op, w),
        InsnRow::Other => row_by_opcode(w),
        InsnRow::Operate(op) => row_under_rule(op, w),
        InsnRow::Mem(_)
        | InsnRow::Branch(_)
        | InsnRow::Jump
        | InsnRow::Misc(_)
        | InsnRow::Fetch { .. }
        | InsnRow::Pal(_) => Some(row),
    }
}

// The same, with `Other` where the word has no row. Few words ask for it, so that a loop over words
// has it apart; and what it answers fits registers, so that the loop clears no place for it at each
// word. Barriers and PALcode calls, the least rare of them, are told apart first.
#[cold]
#[inline(never)]
fn row_or_other(row: InsnRow, w: Word) -> InsnRow
    requires { IsTrue (matches_row (field 31 26 w.0) (field 11 5 w.0) row) }
    ensures found { (result ≡ Other → ⊥) → Decodes result w.0 }
    ensures none { result ≡ Other → (i : _) → Row w.0 i → ⊥ }
{
    match row {
        InsnRow::Other => match row_by_opcode(w) {
            Some(told) => told,
            None => InsnRow::Other,
        },
        _ => match row_by_rest(row, w) {
            Some(told) => told,
            None => InsnRow::Other,
        },
    }
}

// The instruction of a word by the row that its opcode and its function have.
#[inline(always)]
fn insn_by(row: InsnRow, w: Word) -> Option<Insn>
    requires { IsTrue (matches_row (field 31 26 w.0) (field 11 5 w.0) row) }
    ensures row { IfSome result (λ i. Row w.0 i) }
    ensures none { IfNone result ((i : _) → Row w.0 i → ⊥) }
{
    match row {
        InsnRow::Operate(_) => {
            if has_source(w) {
                Some(Insn::at(row, w))
            } else {
                None
            }
        }
        InsnRow::Mem(_)
        | InsnRow::Branch(_)
        | InsnRow::Jump
        | InsnRow::Misc(_)
        | InsnRow::Fetch { .. }
        | InsnRow::Pal(_) => Some(Insn::at(row, w)),
        InsnRow::Ruled(_) | InsnRow::Other => match row_or_other(row, w) {
            InsnRow::Other => None,
            told => Some(Insn::at(told, w)),
        },
    }
}

/// The instruction that the word stands for (Architecture Handbook, section 3.3), `None` exactly
/// where it is outside the table.
pub fn decode(w: Word) -> Option<Insn>
    ensures row { IfSome result (λ i. Row w.0 i) }
    ensures none { IfNone result ((i : _) → Row w.0 i → ⊥) }
    ensures value { result ≡ decoded w.0 }
{
    decode_inline(w)
}

/// The same, as a part of the code that calls it: for a loop that looks at one word after another
/// and takes its instruction apart at once.
#[tactic(auto, using(crate::proofs::DecodedInsns::decoding))]
#[inline(always)]
pub fn decode_inline(w: Word) -> Option<Insn>
    ensures row { IfSome result (λ i. Row w.0 i) }
    ensures none { IfNone result ((i : _) → Row w.0 i → ⊥) }
    ensures value { result ≡ decoded w.0 }
{
    insn_by(row_in(&ROWS, w.opcode(), w.function()), w)
}
