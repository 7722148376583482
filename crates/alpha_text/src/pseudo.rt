ghost use Rattle.std.specs.Prelude.{◌≡◌, IfSome};
ghost use Rattle.alpha_table.specs.Op.{op_row};
ghost use Rattle.alpha_table.specs.declared.form.Form.TheVariants.{Operate};
ghost use Rattle.alpha_table.specs.declared.form.Src.TheVariants as sources;
ghost use Rattle.alpha_table.specs.declared.op.Op.TheVariants.{Bis};
ghost use Rattle.alpha_table.specs.declared.op.OperandRule.TheVariants.{Any};
ghost use Rattle.alpha_operands.specs.Operands.{slots};
ghost use Rattle.alpha_text.specs.Statements.{call_in, move_number, move_form, of_zero, operation_of, pseudo_form};

use crate::head::PseudoOp;
use crate::instruction::{insn, of_zero, reg_of_number, reg_or_r31};
use alpha_operands::{Number, Operands};
use alpha_table::{Form, Insn, MemOp, Op, Src};
use alpha_words::{PalCall, Reg};

// An operation of a register, whose first source is R31.
fn of_register(op: Op, o: &Operands<'_>) -> Insn
    requires { (op_row op).operands ≡ Any }
    ensures { result ≡ of_zero op (slots o.now) }
{
    let src = Src::Reg(reg_or_r31(o.rb));
    let rc = reg_or_r31(o.rc);
    of_zero(op, src, rc)
}

/// The operation that a pseudo-operation of one register stands for, with R31 as its first source. `None` of all
/// others.
#[inline(always)]
pub fn operation(pseudo_op: PseudoOp) -> Option<Op>
    ensures value { result ≡ operation_of pseudo_op }
    ensures rule { IfSome result (λ op. (op_row op).operands ≡ Any) }
{
    match pseudo_op {
        PseudoOp::Mov => Some(Op::Bis),
        PseudoOp::Not => Some(Op::Ornot),
        PseudoOp::Negl => Some(Op::Subl),
        PseudoOp::Negq => Some(Op::Subq),
        PseudoOp::NeglV => Some(Op::SublV),
        PseudoOp::NegqV => Some(Op::SubqV),
        PseudoOp::Sextl => Some(Op::Addl),
        _ => None,
    }
}

/// The instruction that sets a register to 0, `clr`, and that of R31, `nop`.
#[inline(always)]
pub fn clear_insn(rc: Reg) -> Insn
    ensures { result ≡ Operate Bis 31 (sources.Reg 31) rc }
{
    of_zero(Op::Bis, Src::Reg(Reg::ZERO), rc)
}

/// The instruction that `mov` of a number stands for: that of a literal where it is one, and else of an address.
pub fn move_number(n: i16, rc: Reg) -> Insn
    ensures { result ≡ move_number n rc }
{
    match u8::try_from(n) {
        Ok(literal) => of_zero(Op::Bis, Src::Lit(literal), rc),
        Err(_) => insn(Form::Mem {
            op: MemOp::Lda,
            ra: rc,
            rb: Reg::ZERO,
            disp: n,
        }),
    }
}

// `mov`.
fn move_insn(o: &Operands<'_>) -> Insn
    ensures { result ≡ move_form (slots o.now) o.now.number }
{
    let rc = reg_or_r31(o.rc);
    match o.number {
        Some(Number::Immediate(n)) => move_number(n, rc),
        _ => of_register(Op::Bis, o),
    }
}

// The PALcode call.
fn call(number: Option<Number>) -> PalCall
    ensures { result ≡ call_in number }
{
    match number {
        Some(Number::Call(call)) => call,
        _ => PalCall::Bpt,
    }
}

// The instruction that a pseudo-operation, or `call_pal`, stands for; `None` for a directive.
pub(crate) fn of_pseudo(pseudo_op: PseudoOp, o: &Operands<'_>) -> Option<Insn>
    ensures { result ≡ pseudo_form pseudo_op (slots o.now) }
{
    match pseudo_op {
        PseudoOp::Mov => Some(move_insn(o)),
        PseudoOp::Clr => Some(clear_insn(reg_or_r31(o.rc))),
        PseudoOp::Nop => Some(clear_insn(Reg::ZERO)),
        PseudoOp::Unop => Some(insn(Form::Mem {
            op: MemOp::LdqU,
            ra: Reg::ZERO,
            rb: reg_of_number(30),
            disp: 0,
        })),
        PseudoOp::CallPal => Some(insn(Form::Pal(call(o.number)))),
        _ => {
            let op = operation(pseudo_op)?;
            Some(of_register(op, o))
        }
    }
}
