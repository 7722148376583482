ghost use Rattle.std.specs.Prelude.{◌≡◌, ◌+◌, ◌<◌, ◌≤◌, ◌^◌, ◌++◌, ◌∷◌, ◌==◌, ◌&&◌, ℕ, List, [], length, is_some, None};
ghost use Rattle.std.specs.Prelude.{Option, IfSome, codes, OnOk, IfOk, IfErr};
ghost use Rattle.std.specs.List.{flat_map};
ghost use Rattle.std.specs.Str.Lines.{lines};
ghost use Rattle.alpha_text.specs.Statements.{stmt_of};
ghost use Rattle.alpha_asm.specs.declared.line_kind.LineKind.{LineKind as LineKindOf};
ghost use Rattle.alpha_asm.specs.declared.line_kind.LineKind.TheVariants as line_kinds;
ghost use Rattle.alpha_table.specs.declared.form.Form.{Form};
ghost use Rattle.alpha_asm.specs.LineKinds.{line_kind};
ghost use Rattle.alpha_asm.specs.KnownLines.{IsKnown, AreKnown};
ghost use Rattle.alpha_asm.specs.Statement.{coded};
ghost use Rattle.alpha_asm.specs.Assembled.{item_at, first_refused};
ghost use Rattle.alpha_asm.specs.declared.kind.SourceKind.TheVariants as source_kinds;
ghost use Rattle.alpha_fix.specs.Cuts.{Rise};
ghost use Rattle.alpha_asm.specs.SourceLines.{SourceLine, Is, line_bytes};
ghost use Rattle.alpha_fix.specs.FixedSource.{is_cut, has_insn, word_count, trapb_line, bar_if, then_bar, fixed_source};
ghost use Rattle.alpha_fix.specs.FixedLines.{items_of, depends_on_position, names_code, code_base, fixed_line};
ghost use Rattle.alpha_fix.specs.Lines.{role, known_behind, Hinders};

use crate::FixFault;
use crate::fixed_line::depends_on_position;
use alpha_asm::{Line, LineKind, Symbols};
use alpha_table::{Form, Insn, MiscOp};
use alpha_text::{Statement, read_line};
use std::alloc::{AllocError, Global};

/// The line of a barrier.
const TRAPB: &[u8] = b"trapb\n";

/// A source with barriers, and of each of its lines the instruction that it is known to say alone.
#[derive(Drop)]
pub(crate) struct BarredSource {
    pub text: Vec<u8>,
    pub known: Vec<Option<Insn>>,
}

// What the line of a barrier says.
fn barrier() -> Option<Insn>
    ensures { IfSome result (IsKnown (codes "trapb")) }
{
    Insn::of(Form::Misc(MiscOp::Trapb))
}

// Whether a statement is an instruction.
fn is_insn(statement: &Statement<'_>) -> bool
    ensures { result ≡ is_some (coded (stmt_of statement.now)) }
{
    matches!(
        *statement,
        Statement::Code(_)
            | Statement::Target { .. }
            | Statement::High { .. }
            | Statement::Low { .. }
    )
}

// What a line is to the barriers.
enum Role {
    /// It fixes where words stand.
    FixedLine,
    /// It has an instruction.
    Insn,
    Other,
}

// What a line with a statement is.
fn role_by<'a>(symbols: &Symbols<'a>, base: u64, statement: &Statement<'a>) -> Role
    ensures { let s = stmt_of statement.now in
        result ≡ role (depends_on_position (names_code (items_of symbols.now)) base s) (is_some (coded s)) }
{
    if depends_on_position(symbols, base, statement) {
        Role::FixedLine
    } else if is_insn(statement) {
        Role::Insn
    } else {
        Role::Other
    }
}

// What a line of a source is.
fn role_of<'a>(symbols: &Symbols<'a>, base: u64, text: &'a [u8]) -> Role
    requires { length text.now ≤ 1024 }
    ensures { let i = item_at text.now in
        result ≡ role (depends_on_position (names_code (items_of symbols.now)) base i.statement) (has_insn i) }
{
    match read_line(text) {
        Ok(item) => role_by(symbols, base, &item.statement),
        Err(_) => Role::Other,
    }
}

// What a line of a source is, by its kind. Only one that may be fixed is read again.
fn role_here<'a>(kind: LineKind, symbols: &Symbols<'a>, base: u64, text: &'a [u8]) -> Role
    requires short { length text.now ≤ 1024 }
    requires kind { kind ≡ line_kind (item_at text.now) }
    ensures { let i = item_at text.now in
        result ≡ role (depends_on_position (names_code (items_of symbols.now)) base i.statement) (has_insn i) }
{
    match kind {
        LineKind::Other => Role::Other,
        LineKind::InsnAlone | LineKind::Insn => Role::Insn,
        LineKind::PositionDependent => role_of(symbols, base, text),
    }
}

// The kind of the first line, and those behind it.
fn first_kind(kinds: &[LineKind]) -> (LineKind, &[LineKind])
    ensures { (k : LineKindOf) (ks : List LineKindOf) → kinds.now ≡ k ∷ ks
        → (result.0 ≡ k) × (result.1.now ≡ ks) }
{
    match kinds {
        [kind, more @ ..] => (*kind, more),
        [] => (LineKind::PositionDependent, kinds),
    }
}

// The first of some instructions if a line of this kind says it alone, and those behind it.
fn first_insn(code: &[Insn], kind: LineKind) -> (Option<Insn>, &[Insn])
    ensures { (first : Form) (others : List Form) → code.now ≡ first ∷ others
        → IfSome result.0 (λ insn. (insn ≡ first) × (kind ≡ line_kinds.InsnAlone)) × (result.1.now ≡ others) }
{
    match code {
        [first, more @ ..] => {
            if kind == LineKind::InsnAlone {
                (Some(*first), more)
            } else {
                (None, more)
            }
        }
        [] => (None, code),
    }
}

// Whether a place is the first of the cuts that are left, and those behind the place.
fn take_cut(cuts: &[u32], place: u32) -> (bool, &[u32])
    requires { Rise place cuts.now }
    ensures cut { result.0 ≡ is_cut cuts.now place }
    ensures later { (k : ℕ) → place < k → is_cut cuts.now k ≡ is_cut result.1.now k }
    ensures rise { Rise (place + 1) result.1.now }
{
    match cuts {
        [cut, more @ ..] => {
            if *cut == place {
                (true, more)
            } else {
                (false, cuts)
            }
        }
        [] => (false, cuts),
    }
}

// Whether the last of so many words stands at a place, with a cut behind it.
fn ends_cut(cuts: &[u32], place: u32, words: u32) -> bool
    requires rise { Rise (place + 1) cuts.now }
    requires place { place < words }
    ensures { result ≡ (place + 1 == words && is_cut cuts.now words) }
{
    if place + 1 == words {
        take_cut(cuts, words).0
    } else {
        false
    }
}

// Appends a line, with a barrier before it and behind it where there is to be one.
fn put_line(
    text: &mut Vec<u8>,
    line: &Line<'_>,
    before: bool,
    after: bool,
) -> Result<(), AllocError>
    ensures { OnOk result ((l : SourceLine) → Is l line.now →
        text.new.items ≡ text.old.items
        ++ flat_map line_bytes (bar_if before trapb_line ++ then_bar after l)) }
{
    if before {
        text.extend_from_slice(TRAPB)?;
    }
    text.extend_from_slice(line.bytes)?;
    if after {
        if !line.ended {
            text.push(b'\n')?;
        }
        text.extend_from_slice(TRAPB)?;
    }
    Ok(())
}

// Adds what is known of a line, with a barrier before it and behind it where there is to be one. A line feed that the
// line gets may make a carriage return before it part of its end, so it is read again.
fn put_known(
    known: &mut Vec<Option<Insn>>,
    bar: &Option<Insn>,
    insn: Option<Insn>,
    ended: bool,
    before: bool,
    after: bool,
) -> Result<(), AllocError>
    ensures { OnOk result (known.new.items
        ≡ known.old.items ++ (bar_if before bar.now ++ known_behind bar.now after ended insn)) }
{
    if before {
        known.push(*bar)?;
    }
    if after {
        known.push(if ended { insn } else { None })?;
        known.push(*bar)?;
    } else {
        known.push(insn)?;
    }
    Ok(())
}

/// A source of so many words, with a barrier at each of the cuts.
///
/// # Errors
///
/// `Fixed` with the first fixed line.
pub(crate) fn with_barriers<'a>(
    alloc: Global,
    symbols: Symbols<'a>,
    source: &'a [u8],
    base: u64,
    words: u32,
    cuts: &[u32],
) -> Result<BarredSource, FixFault>
    requires symbols { symbols ≡ source.now }
    requires base { base ≡ code_base (items_of source.now) }
    requires words { words ≡ word_count source.now }
    requires rise { Rise 0 cuts.now }
    requires taken { first_refused source_kinds.Program [] (lines source.now) ≡ None }
    requires size { length source.now < 2 ^ 31 }
    ensures ok { IfOk result (λ made. made.text.items ≡ fixed_source source.now cuts.now) }
    ensures known { IfOk result (λ made. AreKnown made.known.items (lines made.text.items)) }
    ensures free { OnOk result (fixed_line source.now ≡ None) }
    ensures refused { IfErr result (Hinders source.now) }
{
    // The one byte more is the line feed of a last line that has none.
    let mut text = Vec::with_capacity(alloc, source.len() + TRAPB.len() * cuts.len() + 1)?;
    let mut rest = source;
    let mut number: u32 = 1;
    let mut place: u32 = 0;
    let mut left = cuts;
    let mut kinds = symbols.kinds();
    let mut code = symbols.code();
    let mut known = Vec::with_capacity(alloc, kinds.len() + cuts.len())?;
    let bar = barrier();
    while !rest.is_empty() {
        let line = Line::first(rest);
        let (kind, more) = first_kind(kinds);
        match role_here(kind, &symbols, base, line.text) {
            Role::FixedLine => return Err(FixFault::Fixed(number)),
            Role::Insn => {
                let (before, later) = take_cut(left, place);
                let behind = ends_cut(later, place, words);
                let (insn, unused) = first_insn(code, kind);
                put_line(&mut text, &line, before, behind)?;
                put_known(&mut known, &bar, insn, line.ended, before, behind)?;
                place += 1;
                left = later;
                code = unused;
            }
            Role::Other => {
                put_line(&mut text, &line, false, false)?;
                put_known(&mut known, &bar, None, line.ended, false, false)?;
            }
        }
        rest = line.rest;
        kinds = more;
        number += 1;
    }
    Ok(BarredSource { text, known })
}
