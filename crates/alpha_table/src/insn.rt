ghost use Rattle.std.specs.Prelude.{◌≡◌, ◌↔◌, IfSome, IfNone, IsTrue};
ghost use Rattle.alpha_table.specs.Row.{Row, IsInsn, OperandsFit};
ghost use Rattle.alpha_table.specs.Names.{mnemonic_of, name_of};
ghost use Rattle.alpha_table.specs.Insn.{Decodes, source_in, form_in, form_row};

use crate::encoder::word_of;
use crate::{BranchOp, Form, JumpKind, MemOp, MiscOp, Op, OperandRule, Src};
use alpha_words::{PalCall, Reg, Word};
use std::marker::Model;

/// The row of an instruction, or what the opcode and the function of a word tell of it.
#[derive(Clone, Copy, Debug, PartialEq, Eq)]
pub(crate) enum InsnRow {
    /// A memory instruction.
    Mem(MemOp),
    /// A branch.
    Branch(BranchOp),
    /// A jump, whose kind its word has.
    Jump,
    /// A barrier with the miscellaneous opcode.
    Misc(MiscOp),
    /// A prefetch, with the intent to modify or without.
    Fetch {
        /// Whether it is FETCH_M.
        modify: bool,
    },
    /// A PALcode call.
    Pal(PalCall),
    /// An operate instruction.
    Operate(Op),
    /// An operate instruction, if the word has the operands that its row requires. No instruction
    /// has this row.
    Ruled(Op),
    /// What the rest of the word tells, if it tells any. No instruction has this row.
    Other,
}

/// An instruction of the table: a [`Form`] whose fields are within its row. A clause sees the form.
#[derive(Clone, Copy, Debug, PartialEq, Eq)]
pub struct Insn {
    row: InsnRow,
    word: Word,
}

impl Model for Insn {
    ghost use Rattle.alpha_table.specs.declared.form.Form.{Form};

    ghost Value = { Form };

    ghost use Rattle.alpha_table.specs.Insn.{form_of, insn_of, IsKnown};

    ghost view = { form_of };

    ghost invariant = { IsKnown };

    ghost inverse = { insn_of };

    ghost inverse_ok = { λ i h. h.1 };
}

impl Insn {
    ghost use Rattle.alpha_table.specs.Row.{IsInsn};

    /// The instruction, `None` exactly where a field is outside its row: a branch displacement
    /// that hasn't 21 bits, a hint that hasn't 14, or operands that the row doesn't take.
    pub fn of(form: Form) -> Option<Insn>
        ensures found { IfSome result (λ i. i ≡ form) }
        ensures none { IfNone result (IsInsn form → ⊥) }
    {
        let given = &form;
        if is_insn(*given) {
            Some(Insn::new(form))
        } else {
            None
        }
    }

    /// The instruction of a form whose fields are known to be within its row.
    fn new(form: Form) -> Insn
        requires { IsInsn form }
        ensures { result ≡ form }
    {
        Insn {
            row: row_of(&form),
            word: Word(word_of(&form)),
        }
    }

    /// The instruction that a word has by a row.
    #[inline(always)]
    pub(crate) fn at(row: InsnRow, word: Word) -> Insn
        requires { Decodes row word.0 }
        ensures { Row word.0 result }
    {
        Insn { row, word }
    }

    /// The word that stands for it.
    #[inline(always)]
    pub(crate) fn word(&self) -> Word
        ensures { Row result.0 self.now }
    {
        self.word
    }

    /// Its name in the table ([`Mnemonic::as_str`](crate::Mnemonic::as_str)), as `addq/v`.
    pub fn mnemonic(&self) -> &'static str
        ensures { result.now ≡ name_of (mnemonic_of self.now) }
    {
        self.form().mnemonic().as_str()
    }

    /// The instruction's format and operands.
    #[inline(always)]
    pub fn form(&self) -> Form
        ensures value { result ≡ self.now }
        ensures good { IsInsn self.now }
    {
        form_in(self.row, self.word)
    }
}

// The second source of an operate word: bit 12 tells a literal.
#[inline(always)]
pub(crate) fn source(w: Word) -> Src
    ensures { result ≡ source_in w.0 }
{
    if w.is_literal() {
        Src::Lit(w.literal())
    } else {
        Src::Reg(w.rb())
    }
}

// The instruction that a word has by its row.
#[inline(always)]
fn form_in(row: InsnRow, w: Word) -> Form
    requires { Decodes row w.0 }
    ensures { result ≡ form_in row w.0 }
{
    match row {
        InsnRow::Mem(op) => Form::Mem {
            op,
            ra: w.ra(),
            rb: w.rb(),
            disp: w.disp16(),
        },
        InsnRow::Branch(op) => Form::Branch {
            op,
            ra: w.ra(),
            disp: w.disp21(),
        },
        InsnRow::Jump => Form::Jump {
            kind: JumpKind::at(w.kind()).unwrap(),
            ra: w.ra(),
            rb: w.rb(),
            hint: w.hint(),
        },
        InsnRow::Operate(op) => Form::Operate {
            op,
            ra: w.ra(),
            src: source(w),
            rc: w.rc(),
        },
        InsnRow::Misc(op) => Form::Misc(op),
        InsnRow::Fetch { modify } => Form::Fetch { modify, rb: w.rb() },
        InsnRow::Pal(call) => Form::Pal(call),
        InsnRow::Ruled(_) | InsnRow::Other => unreachable!(),
    }
}

// The row of an instruction.
fn row_of(form: &Form) -> InsnRow
    ensures { result ≡ form_row form.now }
{
    match *form {
        Form::Mem { op, .. } => InsnRow::Mem(op),
        Form::Branch { op, .. } => InsnRow::Branch(op),
        Form::Jump { .. } => InsnRow::Jump,
        Form::Operate { op, .. } => InsnRow::Operate(op),
        Form::Misc(op) => InsnRow::Misc(op),
        Form::Fetch { modify, .. } => InsnRow::Fetch { modify },
        Form::Pal(call) => InsnRow::Pal(call),
    }
}

// Whether each field is within the instruction's row.
fn is_insn(form: Form) -> bool
    ensures { IsTrue result ↔ IsInsn form }
{
    match form {
        Form::Mem { .. } | Form::Misc(_) | Form::Fetch { .. } | Form::Pal(_) => true,
        Form::Branch { disp, .. } => -0x10_0000 <= disp && disp < 0x10_0000,
        Form::Jump { hint, .. } => hint < 0x4000,
        Form::Operate { op, ra, src, .. } => operands_fit(op.row().operands, ra, &src),
    }
}

// Whether the first register and the second source are as a row requires.
pub(crate) fn operands_fit(rule: OperandRule, ra: Reg, src: &Src) -> bool
    ensures { IsTrue result ↔ OperandsFit rule ra src.now }
{
    match rule {
        OperandRule::Any => true,
        OperandRule::Unary => ra == Reg::ZERO,
        OperandRule::UnaryRegister => ra == Reg::ZERO && matches!(src, Src::Reg(_)),
        OperandRule::Version => ra == Reg::ZERO && *src == Src::Lit(1),
    }
}
