ghost use Rattle.std.specs.Prelude.{◌≡◌, ◌↔◌, ℕ, List, Some, IsTrue, is_some, slice_get};
ghost use Rattle.std.specs.Option.{option_and_then, unwrap_or};
ghost use Rattle.alpha_words.specs.Regs.{Has};
ghost use Rattle.alpha_table.specs.Columns.{access_of, kind_of, sets_of, uses_of};
ghost use Rattle.alpha_table.specs.Decoded.{decoded};
ghost use Rattle.alpha_table.specs.Op.{trap_of};
ghost use Rattle.alpha_table.specs.declared.columns.InsnKind.TheVariants as kinds;
ghost use Rattle.alpha_shadow.specs.Columns.{HasColumns};

use alpha_table::{Form, Insn, InsnKind, MemAccess, Op, Src, access, kind, sets, uses};
use alpha_words::{Reg, RegSet};

/// What the checker reads of an instruction: its columns of the instruction table.
#[derive(Clone, Copy)]
pub(crate) struct Columns {
    pub(crate) kind: InsnKind,
    /// The register that it sets, which never is R31.
    pub(crate) sets: Option<Reg>,
    /// The registers that it uses, but for R31.
    pub(crate) uses: RegSet,
    /// The instruction itself, whose access few words are asked for.
    pub(crate) insn: Insn,
}

impl Columns {
    /// The columns of an instruction.
    #[inline(always)]
    pub(crate) fn of(insn: Insn) -> Columns
        ensures kind { result.kind ≡ kind_of insn }
        ensures columns { (code : List ℕ) (at : ℕ)
            → option_and_then decoded (slice_get code at) ≡ Some insn → HasColumns code at result }
    {
        Columns {
            kind: kind(&insn),
            sets: sets(&insn),
            uses: uses(&insn),
            insn,
        }
    }

    /// The columns of an instruction with `/V`, all of which stand in its form.
    #[inline(always)]
    pub(crate) fn of_trigger(insn: Insn) -> Columns
        requires { kind_of insn ≡ kinds.Trigger }
        ensures kind { result.kind ≡ kinds.Trigger }
        ensures columns { (code : List ℕ) (at : ℕ)
            → option_and_then decoded (slice_get code at) ≡ Some insn → HasColumns code at result }
    {
        Columns {
            kind: InsnKind::Trigger,
            sets: trigger_destination(&insn),
            uses: trigger_sources(&insn),
            insn,
        }
    }

    /// The access that it makes to memory, if it makes one.
    pub(crate) fn access(&self) -> Option<MemAccess>
        ensures { result ≡ access_of self.now.insn }
    {
        access(&self.insn)
    }

    /// The destination of a trigger.
    pub(crate) fn destination(&self) -> Reg
        ensures { result ≡ unwrap_or self.now.sets 31 }
    {
        self.sets.unwrap_or(Reg::ZERO)
    }
}

// The register that an instruction with `/V` sets.
#[inline(always)]
fn trigger_destination(insn: &Insn) -> Option<Reg>
    requires { kind_of insn.now ≡ kinds.Trigger }
    ensures { result ≡ sets_of insn.now }
{
    let Form::Operate { rc, .. } = insn.form() else {
        return None;
    };
    if rc == Reg::ZERO { None } else { Some(rc) }
}

// The registers that an instruction with `/V` uses.
#[inline(always)]
fn trigger_sources(insn: &Insn) -> RegSet
    requires { kind_of insn.now ≡ kinds.Trigger }
    ensures { (r : ℕ) → Has result r ↔ IsTrue (uses_of insn.now r) }
{
    let none = RegSet::empty();
    match insn.form() {
        Form::Operate { ra, src, .. } => match src {
            Src::Reg(rb) => none.with(ra).with(rb),
            Src::Lit(_) => none.with(ra),
        },
        _ => none,
    }
}

/// Whether the instruction is one with `/V`.
#[inline(always)]
pub(crate) fn is_trigger(insn: &Insn) -> bool
    ensures { IsTrue result ↔ (kind_of insn.now ≡ kinds.Trigger) }
{
    match insn.form() {
        Form::Operate { op, .. } => is_trapping(op),
        _ => false,
    }
}

// Whether each operate instruction traps on overflow, by its number.
static TRAPS: [bool; 74] = [
    false, false, false, false, false, false, false, false, false, false, false, false, false,
    false, false, false, true, true, false, true, true, false, false, false, false, false, false,
    false, false, false, false, false, false, false, false, false, false, false, false, false,
    false, false, false, false, false, false, false, false, false, false, false, false, false,
    false, false, false, false, false, false, false, false, false, false, false, false, false,
    false, true, true, false, false, false, false, false,
];

// Whether an operate instruction traps on overflow. A look into a table is less than a jump by its number.
#[inline(always)]
fn is_trapping(op: Op) -> bool
    ensures { result ≡ is_some (trap_of op) }
{
    TRAPS[op as usize]
}
