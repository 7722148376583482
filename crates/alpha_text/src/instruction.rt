ghost use Rattle.std.specs.Prelude.{◌≡◌, ◌<◌, ◌^◌, IfSome};
ghost use Rattle.std.specs.Option.{unwrap_or};
ghost use Rattle.alpha_table.specs.Row.{IsInsn, IsSigned, IsSource, OperandsFit};
ghost use Rattle.alpha_table.specs.Op.{op_row};
ghost use Rattle.alpha_table.specs.declared.form.Form.TheVariants.{Operate};
ghost use Rattle.alpha_table.specs.declared.form.Src.TheVariants.{Lit};
ghost use Rattle.alpha_table.specs.declared.op.OperandRule.TheVariants.{Version};
ghost use Rattle.alpha_operands.specs.Ranges.{IsNumber};
ghost use Rattle.alpha_operands.specs.Operands.{slots};
ghost use Rattle.alpha_text.specs.Statements.{stmt_of, displacement_in, words_in, hint_in, jump_hint, jump_form};
ghost use Rattle.alpha_text.specs.Statements.{half_stmt, source_in, memory_stmt, branch_stmt, link, operate_form};
ghost use Rattle.alpha_text.specs.Statements.{insn_stmt, reg};

use crate::Statement;
use alpha_operands::{Expr, Half, Number, Operands};
use alpha_table::{BranchOp, Form, Insn, JumpKind, MemOp, Mnemonic, Op, OperandRule, Src};
use alpha_words::Reg;

/// The hint of `ret` alone.
pub const RETURN_HINT: u16 = 1;

// The instruction of a form whose fields are within their row.
pub(crate) fn insn(form: Form) -> Insn
    requires { IsInsn form }
    ensures { result ≡ form }
{
    Insn::of(form).unwrap()
}

// The register of a number.
pub(crate) fn reg_of_number(number: u8) -> Reg
    requires { number < 32 }
    ensures { result ≡ number }
{
    Reg::new(number).unwrap()
}

// A register, or the one that stands for none.
fn register(written: Option<Reg>, none: Reg) -> Reg
    ensures value { result ≡ unwrap_or written none }
    ensures bound { result < 32 }
{
    match written {
        Some(r) => r,
        None => none,
    }
}

// A register, R31 where none is written.
pub(crate) fn reg_or_r31(written: Option<Reg>) -> Reg
    ensures value { result ≡ reg written }
    ensures bound { result < 32 }
{
    register(written, Reg::ZERO)
}

// A label with its offset.
pub(crate) fn expr<'a>(label: &'a [u8], o: &Operands<'a>) -> Expr<'a>
    ensures label { result.label.now ≡ label.now }
    ensures offset { result.offset ≡ o.now.offset }
{
    Expr {
        label,
        offset: o.offset,
    }
}

/// A memory instruction with half of an address, or with none.
pub fn with_half(half: Option<Half>, insn: Insn, address: Expr<'_>) -> Statement<'_>
    ensures { stmt_of result ≡ half_stmt half insn address.entry.label.now address.entry.offset }
{
    match half {
        Some(Half::High) => Statement::High { insn, address },
        Some(Half::Low) => Statement::Low { insn, address },
        None => Statement::Code(insn),
    }
}

// The displacement in bytes, 0 where none is written.
fn displacement(number: Option<Number>) -> i16
    ensures { result ≡ displacement_in number }
{
    match number {
        Some(Number::Displacement(n)) => n,
        _ => 0,
    }
}

// A memory instruction.
fn memory<'a>(op: MemOp, o: &Operands<'a>) -> Statement<'a>
    ensures { stmt_of result ≡ memory_stmt op (slots o.now) (slots o.now).label }
{
    let ra = reg_or_r31(o.ra);
    let rb = reg_or_r31(o.rb);
    match o.label {
        Some(label) => {
            let insn = insn(Form::Mem {
                op,
                ra,
                rb,
                disp: 0,
            });
            let address = expr(label, o);
            with_half(o.half, insn, address)
        }
        None => {
            let disp = displacement(o.number);
            Statement::Code(insn(Form::Mem { op, ra, rb, disp }))
        }
    }
}

// The displacement in words, 0 where none is written.
fn words(number: Option<Number>) -> i32
    requires { IfSome number IsNumber }
    ensures value { result ≡ words_in number }
    ensures bound { IsSigned 20 result }
{
    match number {
        Some(Number::Words(n)) => n,
        _ => 0,
    }
}

/// R26, which holds a return address: `bsr` writes it where its line names no register, and `ret` alone jumps by it.
#[inline(always)]
pub fn return_register() -> Reg
    ensures { result ≡ 26 }
{
    reg_of_number(26)
}

/// The register that a branch writes where its line names none: R26 for `bsr`, and R31 for all others.
pub fn link(op: BranchOp) -> Reg
    ensures { result ≡ link op }
{
    match op {
        BranchOp::Bsr => return_register(),
        _ => Reg::ZERO,
    }
}

// A branch, to a label or over a distance.
fn branch<'a>(op: BranchOp, o: &Operands<'a>) -> Statement<'a>
    requires { IfSome o.now.number IsNumber }
    ensures { stmt_of result ≡ branch_stmt op (slots o.now) (slots o.now).label }
{
    let ra = register(o.ra, link(op));
    match o.label {
        Some(label) => {
            let target = expr(label, o);
            Statement::Target {
                insn: insn(Form::Branch { op, ra, disp: 0 }),
                target,
            }
        }
        None => {
            let disp = words(o.number);
            Statement::Code(insn(Form::Branch { op, ra, disp }))
        }
    }
}

// The hint of a jump, 0 where none is written.
fn hint(number: Option<Number>) -> u16
    requires { IfSome number IsNumber }
    ensures value { result ≡ hint_in number }
    ensures bound { result < 2 ^ 14 }
{
    match number {
        Some(Number::Hint(n)) => n,
        _ => 0,
    }
}

// The hint of a jump, 1 of `ret` alone.
fn jump_hint(rb: Option<Reg>, number: Option<Number>) -> u16
    requires { IfSome number IsNumber }
    ensures value { result ≡ jump_hint rb number }
    ensures bound { result < 2 ^ 14 }
{
    match rb {
        Some(_) => hint(number),
        None => RETURN_HINT,
    }
}

// A jump. `ret` alone is `ret $31,($26),1`.
fn jump(kind: JumpKind, o: &Operands<'_>) -> Insn
    requires { IfSome o.now.number IsNumber }
    ensures { result ≡ jump_form kind (slots o.now) }
{
    let ra = reg_or_r31(o.ra);
    let rb = register(o.rb, return_register());
    let hint = jump_hint(o.rb, o.number);
    insn(Form::Jump { kind, ra, rb, hint })
}

// The second source of an operate instruction.
fn source(number: Option<Number>, rb: Option<Reg>) -> Src
    ensures value { result ≡ source_in number rb }
    ensures good { IsSource result }
{
    match number {
        Some(Number::Literal(n)) => Src::Lit(n),
        _ => Src::Reg(reg_or_r31(rb)),
    }
}

/// An operate instruction whose first source is R31.
#[inline(always)]
pub fn of_zero(op: Op, src: Src, rc: Reg) -> Insn
    requires { OperandsFit (op_row op).operands 31 src }
    ensures { result ≡ Operate op 31 src rc }
{
    Insn::operate(op, Reg::ZERO, src, rc)
}

/// An operate instruction of no source: its first is R31, and its second 1.
#[inline(always)]
pub fn of_no_source(op: Op, rc: Reg) -> Insn
    requires { (op_row op).operands ≡ Version }
    ensures { result ≡ Operate op 31 (Lit 1) rc }
{
    of_zero(op, Src::Lit(1), rc)
}

// An operate instruction.
fn operate(op: Op, o: &Operands<'_>) -> Insn
    ensures { result ≡ operate_form (op_row op).operands op (slots o.now) }
{
    let rc = reg_or_r31(o.rc);
    match op.row().operands {
        OperandRule::Any => {
            let ra = reg_or_r31(o.ra);
            let src = source(o.number, o.rb);
            insn(Form::Operate { op, ra, src, rc })
        }
        OperandRule::Unary => {
            let src = source(o.number, o.rb);
            of_zero(op, src, rc)
        }
        OperandRule::UnaryRegister => {
            let src = Src::Reg(reg_or_r31(o.rb));
            of_zero(op, src, rc)
        }
        OperandRule::Version => of_no_source(op, rc),
    }
}

// The statement of an instruction's name.
pub(crate) fn of_insn<'a>(mnemonic: Mnemonic, o: &Operands<'a>) -> Statement<'a>
    requires { IfSome o.now.number IsNumber }
    ensures { stmt_of result ≡ insn_stmt mnemonic (slots o.now) }
{
    match mnemonic {
        Mnemonic::Mem(op) => memory(op, o),
        Mnemonic::Branch(op) => branch(op, o),
        Mnemonic::Jump(kind) => Statement::Code(jump(kind, o)),
        Mnemonic::Operate(op) => Statement::Code(operate(op, o)),
        Mnemonic::Misc(op) => Statement::Code(insn(Form::Misc(op))),
        Mnemonic::Fetch { modify } => {
            let rb = reg_or_r31(o.rb);
            Statement::Code(insn(Form::Fetch { modify, rb }))
        }
        Mnemonic::Pal(call) => Statement::Code(insn(Form::Pal(call))),
    }
}
