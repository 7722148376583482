//! The instruction that a name gives with the words behind it, where these stand as most programs write them. What is
//! written otherwise is `None` here. Where the words name a label they are left to `reach.rt`.
ghost use Rattle.std.specs.Prelude.{◌≡◌, List, ℕ, IfSome, IfOk, IfErr, true, false};
ghost use Rattle.alpha_table.specs.Op.{op_row};
ghost use Rattle.alpha_table.specs.declared.names.Mnemonic.TheVariants as mnemonics;
ghost use Rattle.alpha_table.specs.declared.op.OperandRule.TheVariants as rules;
ghost use Rattle.alpha_text.specs.declared.head.PseudoOp.TheVariants as owns;
ghost use Rattle.alpha_text.specs.Statements.{code};
ghost use Rattle.alpha_text.specs.SuffixWords.{Says};
ghost use Rattle.alpha_quick.specs.Parts.{StandsFor, IsAlone};
ghost use Rattle.alpha_quick.specs.InsnPrefix.{PrefixSays, HasStatement};
ghost use Rattle.alpha_quick.specs.Prescanned.{IsPrescanned};
ghost use Rattle.alpha_quick.specs.Words.{HasFirst};

use crate::groups::{binary, distance, first, jump, last, last_base, pair, tail, unary};
use crate::line::Prescanned;
use crate::words::{after_comma, is_end, number, signed_number};
use alpha_operands::{Number, Piece, Sign, number_at};
use alpha_table::{BranchOp, Form, Insn, JumpKind, MemOp, Mnemonic, Op, OperandRule, Src};
use alpha_text::{
    PseudoOp, RETURN_HINT, clear_insn, link, move_number, of_no_source, of_zero, operation,
    return_register,
};
use alpha_words::Reg;

/// An instruction that a name gives with the words behind it, or with their front: then what is left of them names
/// the label that it is to reach, and it has displacement 0.
#[derive(Clone, Copy)]
pub(crate) struct InsnPrefix<'a> {
    pub insn: Insn,
    /// Whether it is to reach a label.
    pub reaches: bool,
    /// The words that name it.
    pub left: &'a [u8],
}

impl<'a> InsnPrefix<'a> {
    /// An instruction that reaches no label.
    #[inline(always)]
    pub(crate) fn without_label(insn: Insn, end: &'a [u8]) -> InsnPrefix<'a>
        ensures insn { result.insn ≡ insn }
        ensures whole { result.reaches ≡ false }
    {
        InsnPrefix {
            insn,
            reaches: false,
            left: end,
        }
    }

    /// An instruction that is to reach the label of these words.
    #[inline(always)]
    pub(crate) fn toward_label(insn: Insn, left: &'a [u8]) -> InsnPrefix<'a>
        ensures insn { result.insn ≡ insn }
        ensures reaches { result.reaches ≡ true }
        ensures left { result.left.now ≡ left.now }
    {
        InsnPrefix {
            insn,
            reaches: true,
            left,
        }
    }

    /// The instruction, if it reaches no label, or its line as far as it was read.
    #[inline(always)]
    pub(crate) fn insn_alone(&self) -> Result<Insn, Prescanned<'a>>
        ensures ok { IfOk result (λ i. (line : List ℕ) → PrefixSays (HasStatement line) self.now
            → HasStatement line (code i)) }
        ensures left { IfErr result (λ p. (line : List ℕ) → PrefixSays (HasStatement line) self.now
            → IsPrescanned line p) }
    {
        if self.reaches {
            Err(Prescanned {
                insn: Some(self.insn),
                left: self.left,
            })
        } else {
            Ok(self.insn)
        }
    }
}

// A memory instruction with a number, behind its register and a comma.
#[inline(always)]
fn access_by_displacement(op: MemOp, ra: Reg, words: &[u8]) -> Option<Insn>
    ensures { IfSome result (λ i. (line : List ℕ) → HasFirst line ra words.now
        → Says (mnemonics.Mem op) line (code i)) }
{
    let (sign, n, rest) = signed_number(words)?;
    let Some(Number::Displacement(disp)) = number_at(Piece::Displacement, sign, n) else {
        return None;
    };
    let rb = tail(rest)?;
    Some(Insn::memory(op, ra, rb, disp))
}

// A memory instruction with a base alone, behind its register and a comma.
#[inline(always)]
fn access_by_base(op: MemOp, ra: Reg, words: &[u8]) -> Option<Insn>
    ensures { IfSome result (λ i. (line : List ℕ) → HasFirst line ra words.now
        → Says (mnemonics.Mem op) line (code i)) }
{
    let rb = last_base(words)?;
    let disp = 0;
    Some(Insn::memory(op, ra, rb, disp))
}

// A memory instruction behind its register and a comma.
#[inline(always)]
fn access_prefix<'a>(op: MemOp, ra: Reg, words: &'a [u8]) -> Option<InsnPrefix<'a>>
    ensures { IfSome result (λ l. (line : List ℕ) → HasFirst line ra words.now
        → PrefixSays (Says (mnemonics.Mem op) line) l) }
{
    match words {
        [b'%', ..] => Some(InsnPrefix::toward_label(Insn::memory(op, ra, Reg::ZERO, 0), words)),
        [b'(', ..] => {
            let insn = access_by_base(op, ra, words)?;
            Some(InsnPrefix::without_label(insn, words))
        }
        _ => {
            let insn = access_by_displacement(op, ra, words)?;
            Some(InsnPrefix::without_label(insn, words))
        }
    }
}

// A memory instruction.
#[inline(always)]
fn memory(op: MemOp, words: &[u8]) -> Option<InsnPrefix<'_>>
    ensures { IfSome result (PrefixSays (Says (mnemonics.Mem op) words.now)) }
{
    let Some((ra, rest)) = first(words) else {
        return None;
    };
    access_prefix(op, ra, rest)
}

// A branch over a distance, behind its register and a comma.
#[inline(always)]
fn branch_over(op: BranchOp, ra: Reg, words: &[u8]) -> Option<Insn>
    ensures { IfSome result (λ i. (line : List ℕ) → HasFirst line ra words.now
        → Says (mnemonics.Branch op) line (code i)) }
{
    let disp = distance(words)?;
    Some(Insn::branch(op, ra, disp))
}

// A branch behind its register and a comma.
#[inline(always)]
fn branch_with_link<'a>(op: BranchOp, ra: Reg, words: &'a [u8]) -> Option<InsnPrefix<'a>>
    ensures { IfSome result (λ l. (line : List ℕ) → HasFirst line ra words.now
        → PrefixSays (Says (mnemonics.Branch op) line) l) }
{
    match words {
        [b'.', ..] => {
            let insn = branch_over(op, ra, words)?;
            Some(InsnPrefix::without_label(insn, words))
        }
        _ => Some(InsnPrefix::toward_label(Insn::branch(op, ra, 0), words)),
    }
}

/// A branch to a label, where no register is written.
#[inline(always)]
pub(crate) fn branch_without_link(op: BranchOp, words: &[u8]) -> Option<InsnPrefix<'_>>
    ensures { IfSome result (PrefixSays (Says (mnemonics.Branch op) words.now)) }
{
    let ra = link(op);
    match op {
        BranchOp::Br | BranchOp::Bsr => Some(InsnPrefix::toward_label(
            Insn::branch(op, ra, 0),
            words,
        )),
        _ => None,
    }
}

// A branch.
#[inline(always)]
fn branch(op: BranchOp, words: &[u8]) -> Option<InsnPrefix<'_>>
    ensures { IfSome result (PrefixSays (Says (mnemonics.Branch op) words.now)) }
{
    match words {
        [b'$', ..] => {
            let Some((ra, rest)) = first(words) else {
                return None;
            };
            branch_with_link(op, ra, rest)
        }
        _ => branch_without_link(op, words),
    }
}

// A jump with its registers, and a hint or none.
#[inline(always)]
fn jump_insn(kind: JumpKind, words: &[u8]) -> Option<Insn>
    ensures { IfSome result (λ i. Says (mnemonics.Jump kind) words.now (code i)) }
{
    let operands = jump(words)?;
    let (ra, rb, hint) = (operands.ra, operands.rb, operands.hint);
    Insn::of(Form::Jump { kind, ra, rb, hint })
}

// `ret` alone.
#[inline(always)]
fn ret_alone(kind: JumpKind, words: &[u8]) -> Option<Insn>
    ensures { IfSome result (λ i. Says (mnemonics.Jump kind) words.now (code i)) }
{
    match kind {
        JumpKind::Ret => {
            let (ra, rb, hint) = (Reg::ZERO, return_register(), RETURN_HINT);
            if is_end(words) {
                Insn::of(Form::Jump { kind, ra, rb, hint })
            } else {
                None
            }
        }
        _ => None,
    }
}

// An operate instruction of two sources.
#[inline(always)]
fn two_sources(op: Op, words: &[u8]) -> Option<Insn>
    requires { (op_row op).operands ≡ rules.Any }
    ensures { IfSome result (λ i. Says (mnemonics.Operate op) words.now (code i)) }
{
    let operands = binary(words)?;
    let (ra, src, rc) = (operands.ra, operands.src, operands.rc);
    Some(Insn::operate(op, ra, src, rc))
}

// An operate instruction of one source.
#[inline(always)]
fn one_source(op: Op, words: &[u8]) -> Option<Insn>
    requires { (op_row op).operands ≡ rules.Unary }
    ensures { IfSome result (λ i. Says (mnemonics.Operate op) words.now (code i)) }
{
    let Some((src, rc)) = unary(words) else {
        return None;
    };
    Some(of_zero(op, src, rc))
}

// An operate instruction of one source that is a register.
#[inline(always)]
fn one_register(op: Op, words: &[u8]) -> Option<Insn>
    requires { (op_row op).operands ≡ rules.UnaryRegister }
    ensures { IfSome result (λ i. Says (mnemonics.Operate op) words.now (code i)) }
{
    let registers = pair(words)?;
    Some(of_zero(op, Src::Reg(registers.rb), registers.rc))
}

// An operate instruction of no source.
#[inline(always)]
fn no_source(op: Op, words: &[u8]) -> Option<Insn>
    requires { (op_row op).operands ≡ rules.Version }
    ensures { IfSome result (λ i. Says (mnemonics.Operate op) words.now (code i)) }
{
    let rc = last(words)?;
    Some(of_no_source(op, rc))
}

// An operate instruction that doesn't have two sources.
fn fewer_sources(op: Op, words: &[u8]) -> Option<Insn>
    ensures { IfSome result (λ i. Says (mnemonics.Operate op) words.now (code i)) }
{
    match op.row().operands {
        OperandRule::Any => None,
        OperandRule::Unary => one_source(op, words),
        OperandRule::UnaryRegister => one_register(op, words),
        OperandRule::Version => no_source(op, words),
    }
}

// A prefetch.
#[inline(always)]
fn prefetch(modify: bool, words: &[u8]) -> Option<Insn>
    ensures { IfSome result (λ i. Says (mnemonics.Fetch modify) words.now (code i)) }
{
    let (n, rest) = number(words)?;
    let Some(Number::Nothing) = number_at(Piece::Nothing, Sign::Plus, n) else {
        return None;
    };
    let rb = last_base(rest)?;
    Insn::of(Form::Fetch { modify, rb })
}

// An instruction that is a name alone.
#[inline(always)]
fn name_alone(row: Mnemonic, form: Form, words: &[u8]) -> Option<Insn>
    requires { IsAlone row form }
    ensures { IfSome result (λ i. Says row words.now (code i)) }
{
    if is_end(words) { Insn::of(form) } else { None }
}

/// The instruction that a row's name gives with the words behind it, for rows that few lines have. Those of
/// the others are read in `of_row`.
#[inline(never)]
pub(crate) fn of_rare_row(row: Mnemonic, words: &[u8]) -> Option<Insn>
    ensures { IfSome result (λ i. Says row words.now (code i)) }
{
    match row {
        Mnemonic::Mem(_) | Mnemonic::Branch(_) => None,
        Mnemonic::Operate(op) => fewer_sources(op, words),
        Mnemonic::Jump(kind) => match words {
            [b'$', ..] => jump_insn(kind, words),
            _ => ret_alone(kind, words),
        },
        Mnemonic::Fetch { modify } => prefetch(modify, words),
        Mnemonic::Misc(op) => name_alone(row, Form::Misc(op), words),
        Mnemonic::Pal(call) => name_alone(row, Form::Pal(call), words),
    }
}

/// The instruction that a row's name gives with the words behind it, or with their front.
#[inline(always)]
pub(crate) fn of_row(row: Mnemonic, words: &[u8]) -> Option<InsnPrefix<'_>>
    ensures { IfSome result (PrefixSays (Says row words.now)) }
{
    match row {
        Mnemonic::Mem(op) => memory(op, words),
        Mnemonic::Branch(op) => branch(op, words),
        Mnemonic::Operate(op) if op.row().operands == OperandRule::Any => {
            let insn = two_sources(op, words)?;
            Some(InsnPrefix::without_label(insn, words))
        }
        _ => {
            let insn = of_rare_row(row, words)?;
            Some(InsnPrefix::without_label(insn, words))
        }
    }
}

// `mov` of a number.
#[inline(always)]
fn move_of_number(words: &[u8]) -> Option<Insn>
    ensures { IfSome result (λ i. StandsFor owns.Mov words.now i) }
{
    let (sign, n, rest) = signed_number(words)?;
    let Some(Number::Immediate(n)) = number_at(Piece::Immediate, sign, n) else {
        return None;
    };
    let rest = after_comma(rest)?;
    let rc = last(rest)?;
    Some(move_number(n, rc))
}

// A pseudo-operation of two registers.
#[inline(always)]
fn pair_insn(pseudo_op: PseudoOp, words: &[u8]) -> Option<Insn>
    ensures { IfSome result (λ i. StandsFor pseudo_op words.now i) }
{
    let op = operation(pseudo_op)?;
    let registers = pair(words)?;
    Some(of_zero(op, Src::Reg(registers.rb), registers.rc))
}

// `nop`.
#[inline(always)]
fn nop(words: &[u8]) -> Option<Insn>
    ensures { IfSome result (λ i. StandsFor owns.Nop words.now i) }
{
    if is_end(words) {
        Some(clear_insn(Reg::ZERO))
    } else {
        None
    }
}

// `clr`.
#[inline(always)]
fn clr(words: &[u8]) -> Option<Insn>
    ensures { IfSome result (λ i. StandsFor owns.Clr words.now i) }
{
    let rc = last(words)?;
    Some(clear_insn(rc))
}

// `mov`.
#[inline(always)]
fn move_insn(words: &[u8]) -> Option<Insn>
    ensures { IfSome result (λ i. StandsFor owns.Mov words.now i) }
{
    match words {
        [b'$', ..] => pair_insn(PseudoOp::Mov, words),
        _ => move_of_number(words),
    }
}

/// The instruction that a pseudo-operation stands for with the words behind it.
#[inline(always)]
pub(crate) fn insn_of_pseudo_op(pseudo_op: PseudoOp, words: &[u8]) -> Option<Insn>
    ensures { IfSome result (λ i. StandsFor pseudo_op words.now i) }
{
    match pseudo_op {
        PseudoOp::Mov => move_insn(words),
        PseudoOp::Clr => clr(words),
        PseudoOp::Nop => nop(words),
        _ => pair_insn(pseudo_op, words),
    }
}
