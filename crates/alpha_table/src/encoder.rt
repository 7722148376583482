ghost use Rattle.std.specs.Prelude.{◌≡◌, ℕ, ◌^◌, ◌<◌, ◌*◌, ◌+◌};
ghost use Rattle.alpha_words.specs.Field.{signed_field};
ghost use Rattle.alpha_table.specs.Op.{op_row};
ghost use Rattle.alpha_table.specs.Row.{Row, IsInsn, IsSigned, OperandsFit};
ghost use Rattle.alpha_table.specs.Encoded.{encoded};
ghost use Rattle.alpha_table.specs.declared.form.Form.TheVariants.{Mem, Branch, Operate};

use crate::formats::{fetch_function, pal_function};
use crate::{BranchOp, Form, Insn, MemOp, Op, Src};
use alpha_words::{Reg, Word};

/// The one word of the table that stands for the instruction (Architecture Handbook, section 3.3).
pub fn encode(i: &Insn) -> Word
    ensures row { Row result.0 i.now }
    ensures only { (w : ℕ) → w < 2 ^ 32 → Row w i.now → w ≡ result.0 }
    ensures value { result.0 ≡ encoded i.now }
{
    i.word()
}

// The word of a form whose fields are within its row.
pub(crate) fn word_of(form: &Form) -> u32
    requires { IsInsn form.now }
    ensures { Row result form.now }
{
    match *form {
        Form::Mem { op, ra, rb, disp } => memory(op, ra, rb, disp),
        Form::Branch { op, ra, disp } => branch(op, ra, disp),
        Form::Jump { kind, ra, rb, hint } => {
            high_fields(0x1a, ra, rb) + (u32::from(kind.kind()) << 14) + u32::from(hint)
        }
        Form::Operate { op, ra, src, rc } => operate(op, ra, &src, rc),
        Form::Misc(op) => high_fields(0x18, Reg::ZERO, Reg::ZERO) + u32::from(op.row().function),
        Form::Fetch { modify, rb } => {
            high_fields(0x18, Reg::ZERO, rb) + u32::from(fetch_function(modify))
        }
        Form::Pal(call) => pal_function(call),
    }
}

/// The word of a memory instruction.
#[inline(always)]
pub(crate) fn memory(op: MemOp, ra: Reg, rb: Reg, disp: i16) -> u32
    ensures { Row result (Mem op ra rb disp) }
{
    high_fields(op.row().opcode, ra, rb) + u32::from(disp.cast_unsigned())
}

// A branch displacement as an unsigned field of 21 bits.
#[inline(always)]
fn branch_field(disp: i32) -> u32
    requires { IsSigned 20 disp }
    ensures bound { result < 2 ^ 21 }
    ensures value { signed_field 20 0 result ≡ disp }
{
    if disp < 0 {
        (disp + 0x20_0000) as u32
    } else {
        disp as u32
    }
}

/// The word of a branch.
#[inline(always)]
pub(crate) fn branch(op: BranchOp, ra: Reg, disp: i32) -> u32
    requires { IsSigned 20 disp }
    ensures { Row result (Branch op ra disp) }
{
    (u32::from(op.row().opcode) << 26) + (u32::from(ra.number()) << 21) + branch_field(disp)
}

/// The word of an operate instruction.
#[inline(always)]
pub(crate) fn operate(op: Op, ra: Reg, src: &Src, rc: Reg) -> u32
    requires { OperandsFit (op_row op).operands ra src.now }
    ensures { Row result (Operate op ra src.now rc) }
{
    let row = op.row();
    let outer = (u32::from(row.opcode) << 26) + (u32::from(ra.number()) << 21);
    let inner = (u32::from(row.function) << 5) + u32::from(rc.number());
    match *src {
        Src::Reg(rb) => outer + (u32::from(rb.number()) << 16) + inner,
        Src::Lit(n) => outer + (u32::from(n) << 13) + 0x1000 + inner,
    }
}

// The fields from bit 16 on: an opcode and two registers.
#[inline(always)]
fn high_fields(opcode: u8, ra: Reg, rb: Reg) -> u32
    requires { opcode < 64 }
    ensures { result ≡ opcode * 2 ^ 26 + ra * 2 ^ 21 + rb * 2 ^ 16 }
{
    (u32::from(opcode) << 26) + (u32::from(ra.number()) << 21) + (u32::from(rb.number()) << 16)
}
