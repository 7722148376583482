//! The labels that instructions name, as most programs write them.
ghost use Rattle.std.specs.Prelude.{◌≡◌, ℕ, ℤ, List, IfSome};
ghost use Rattle.alpha_table.specs.declared.form.Form.TheVariants.{Mem};
ghost use Rattle.alpha_text.specs.Statements.{stmt_of, target};
ghost use Rattle.alpha_quick.specs.Words.{HasTarget};
ghost use Rattle.alpha_quick.specs.InsnPrefix.{Reaches};

use crate::groups::{address, tail, target};
use alpha_table::{Form, Insn, MemOp};
use alpha_text::{Statement, with_half};
use alpha_words::Reg;

// A memory instruction with half of the address of a label.
#[inline(always)]
fn with_address(op: MemOp, ra: Reg, left: &[u8]) -> Option<Statement<'_>>
    ensures { IfSome result (λ s. (rb : ℕ) (disp : ℤ) → Reaches (Mem op ra rb disp) left.now (stmt_of s)) }
{
    let (half, address, rest) = address(left)?;
    let rb = tail(rest)?;
    let insn = Insn::memory(op, ra, rb, 0);
    Some(with_half(Some(half), insn, address))
}

// A branch to a label.
#[inline(always)]
fn with_target(insn: Insn, left: &[u8]) -> Option<Statement<'_>>
    ensures { IfSome result (λ s. (label : List ℕ) × (offset : ℤ)
        × HasTarget left.now label offset × (target insn label offset ≡ stmt_of s)) }
{
    let target = target(left)?;
    Some(Statement::Target { insn, target })
}

/// The statement of an instruction that is to reach the label of these words.
#[inline(always)]
pub(crate) fn with_label<'a>(insn: Insn, left: &'a [u8]) -> Option<Statement<'a>>
    ensures { IfSome result (λ s. Reaches insn left.now (stmt_of s)) }
{
    match insn.form() {
        Form::Mem { op, ra, .. } => with_address(op, ra, left),
        Form::Branch { .. } => with_target(insn, left),
        _ => None,
    }
}
