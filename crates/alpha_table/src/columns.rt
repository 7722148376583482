ghost use Rattle.std.specs.Prelude.{◌≡◌, ◌<◌, ℕ, ◌↔◌, ◌∷◌, IsTrue, IfSome, is_some};
ghost use Rattle.alpha_table.specs.declared.form.Form.TheVariants.{Mem};
ghost use Rattle.alpha_words.specs.Regs.{Has};
ghost use Rattle.alpha_table.specs.Op.{trap_of};
ghost use Rattle.alpha_table.specs.Uses.{but_zero, counts, is_move, source_registers};
ghost use Rattle.alpha_table.specs.Columns.{uses_of, sets_of, kind_of, access_of, span_of, trap_op_of, level_of};

use crate::{Form, Insn, MemOp, MemRole, Op, Src, TrapOp};
use alpha_words::{Level, Reg, RegSet};

/// What an instruction is to a trap shadow (Architecture Handbook, arithmetic trap completion).
#[derive(Clone, Copy, Debug, PartialEq, Eq)]
pub enum InsnKind {
    /// It is of none of the other kinds.
    Plain,
    /// It may trap on overflow.
    Trigger,
    /// A pending trap is reported before it.
    Barrier,
    /// A load that isn't locked, into a register that counts.
    Load,
    /// A store that isn't conditional.
    Store,
    /// A locked load or a conditional store.
    Locked,
    /// A branch or a jump.
    Turn,
}

/// An access to memory (Architecture Handbook, section 4.2).
#[derive(Clone, Copy, Debug, PartialEq, Eq)]
pub struct MemAccess {
    /// The base register.
    pub base: Reg,
    /// The displacement, in bytes.
    pub disp: i16,
    /// How many bytes: 1, 2, 4 or 8.
    pub bytes: u8,
    /// Whether the three low bits of the address are cleared.
    pub clears: bool,
}

/// The bytes that an access may touch, counted from its base register: from `low` up to, and
/// without, `high`.
#[derive(Clone, Copy, Debug, PartialEq, Eq)]
pub struct ByteSpan {
    /// The first byte.
    pub low: i32,
    /// The byte behind the last one.
    pub high: i32,
}

impl MemAccess {
    ghost use Rattle.alpha_table.specs.Spans.{bytes_spanned};

    /// The bytes that the access may touch.
    pub fn span(&self) -> ByteSpan
        ensures { result ≡ bytes_spanned self.now }
    {
        let disp = i32::from(self.disp);
        ByteSpan {
            low: if self.clears { disp - 7 } else { disp },
            high: disp + i32::from(self.bytes),
        }
    }
}

impl ByteSpan {
    ghost use Rattle.alpha_table.specs.Spans.{SpansMeet};

    /// Whether two spans, counted from one base register, share a byte.
    pub fn meets(&self, other: &ByteSpan) -> bool
        ensures { IsTrue result ↔ SpansMeet self.now other.now }
    {
        self.low < other.high && other.low < self.high
    }
}

/// The registers that the instruction reads, but for R31 (Architecture Handbook, chapter 4). A
/// conditional move reads its destination too. A load into R31 that isn't
/// locked, and a prefetch, use none.
pub fn uses(i: &Insn) -> RegSet
    ensures { (r : ℕ) → Has result r ↔ IsTrue (uses_of i.now r) }
{
    let none = RegSet::empty();
    match i.form() {
        Form::Mem { op, ra, rb, .. } => match op.row().role {
            MemRole::Load(_) if ra == Reg::ZERO => none,
            MemRole::Address | MemRole::Load(_) | MemRole::LoadLocked(_) => none.with(rb),
            MemRole::Store | MemRole::StoreConditional => none.with(ra).with(rb),
        },
        Form::Branch { op, ra, .. } if op.row().condition.is_some() => none.with(ra),
        Form::Jump { rb, .. } => none.with(rb),
        Form::Operate { op, ra, src, rc } => {
            let sources = operate_sources(ra, &src);
            if is_move(op) {
                sources.with(rc)
            } else {
                sources
            }
        }
        _ => none,
    }
}

// Whether an operate instruction is a conditional move. A test of its own is less than a look at its row.
#[inline(always)]
fn is_move(op: Op) -> bool
    ensures { result ≡ is_move op }
{
    matches!(
        op,
        Op::Cmoveq
            | Op::Cmovge
            | Op::Cmovgt
            | Op::Cmovlbc
            | Op::Cmovlbs
            | Op::Cmovle
            | Op::Cmovlt
            | Op::Cmovne
    )
}

// Whether an operate instruction traps on overflow.
#[inline(always)]
fn is_trapping(op: Op) -> bool
    ensures { result ≡ is_some (trap_of op) }
{
    matches!(
        op,
        Op::AddlV | Op::AddqV | Op::MullV | Op::MulqV | Op::SublV | Op::SubqV
    )
}

// The sources of an operate instruction, but for R31.
fn operate_sources(ra: Reg, src: &Src) -> RegSet
    ensures { (r : ℕ) → Has result r ↔ IsTrue (counts (ra ∷ source_registers src.now) r) }
{
    match *src {
        Src::Reg(rb) => RegSet::empty().with(ra).with(rb),
        Src::Lit(_) => RegSet::empty().with(ra),
    }
}

/// The register that the instruction writes (Architecture Handbook, chapter 4), `None` where there
/// is none or it is R31.
pub fn sets(i: &Insn) -> Option<Reg>
    ensures value { result ≡ sets_of i.now }
    ensures bound { IfSome result (λ r. r < 31) }
{
    destination_field(i).filter(|r| r.number() < 31)
}

// The same, but that R31 may stand where there is none.
fn destination_field(i: &Insn) -> Option<Reg>
    ensures { but_zero result ≡ sets_of i.now }
{
    match i.form() {
        Form::Mem { op, ra, .. } => match op.row().role {
            MemRole::Store => None,
            _ => Some(ra),
        },
        Form::Branch { op, ra, .. } if op.row().condition.is_none() => Some(ra),
        Form::Jump { ra, .. } => Some(ra),
        Form::Operate { rc, .. } => Some(rc),
        _ => None,
    }
}

/// What the instruction is to a trap shadow (Architecture Handbook, arithmetic trap completion). A
/// load into R31 is plain, but for the locked ones.
#[inline(always)]
pub fn kind(i: &Insn) -> InsnKind
    ensures { result ≡ kind_of i.now }
{
    match i.form() {
        Form::Mem { op, ra, .. } => memory_kind(op, ra),
        Form::Branch { .. } | Form::Jump { .. } => InsnKind::Turn,
        Form::Operate { op, .. } if is_trapping(op) => InsnKind::Trigger,
        Form::Operate { .. } => InsnKind::Plain,
        Form::Misc(op) if op.row().reports => InsnKind::Barrier,
        Form::Misc(_) => InsnKind::Plain,
        Form::Fetch { .. } => InsnKind::Plain,
        Form::Pal(_) => InsnKind::Barrier,
    }
}

// What a memory instruction is to a trap shadow.
fn memory_kind(op: MemOp, ra: Reg) -> InsnKind
    ensures { (rb : ℕ) (disp : _) → result ≡ kind_of (Mem op ra rb disp) }
{
    match op.row().role {
        MemRole::Address => InsnKind::Plain,
        MemRole::Load(_) => {
            if ra == Reg::ZERO {
                InsnKind::Plain
            } else {
                InsnKind::Load
            }
        }
        MemRole::Store => InsnKind::Store,
        MemRole::LoadLocked(_) | MemRole::StoreConditional => InsnKind::Locked,
    }
}

/// The access that the instruction makes to memory, if it makes one (Architecture Handbook,
/// section 4.2). A load into R31 that isn't locked makes none.
pub fn access(i: &Insn) -> Option<MemAccess>
    ensures { result ≡ access_of i.now }
{
    let Form::Mem { op, ra, rb, disp } = i.form() else {
        return None;
    };
    let row = op.row();
    match row.role {
        MemRole::Address => None,
        MemRole::Load(_) if ra == Reg::ZERO => None,
        _ => Some(MemAccess {
            base: rb,
            disp,
            bytes: row.bytes,
            clears: row.clears,
        }),
    }
}

/// The bytes that the instruction's access may touch, if it makes one: see [`access`].
pub fn span(i: &Insn) -> Option<ByteSpan>
    ensures { result ≡ span_of i.now }
{
    access(i).map(|access| access.span())
}

/// The operation that may trap, for an instruction with `/V` (Architecture Handbook, section 4.4).
pub fn trap_op(i: &Insn) -> Option<TrapOp>
    ensures { result ≡ trap_op_of i.now }
{
    match i.form() {
        Form::Operate { op, .. } => op.trap(),
        _ => None,
    }
}

/// The least level whose implementations have the instruction: two for CTPOP, CTLZ and CTTZ, else one (Architecture
/// Handbook, section 4.11).
pub fn level_of(i: &Insn) -> Level
    ensures { result ≡ level_of i.now }
{
    match i.form() {
        Form::Operate { op, .. } => op.row().level,
        _ => Level::One,
    }
}
