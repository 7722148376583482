//! What the scan and the handler read of an instruction.

ghost use Rattle.std.specs.Prelude.{◌≡◌, None, IfSome, IfNone};
ghost use Rattle.alpha_table.specs.Class.{trigger};
ghost use Rattle.alpha_table.specs.ClassOf.{class_of};
ghost use Rattle.alpha_table.specs.Code.{trigger_destination};

use alpha_table::{Form, Insn, Src, TrapOp};
use alpha_words::Reg;

/// The operands of an instruction that may trap.
#[derive(Clone, Copy)]
pub(crate) struct Trigger {
    /// Its operation.
    pub op: TrapOp,
    /// The first source.
    pub ra: Reg,
    /// The second source.
    pub src: Src,
    /// The destination.
    pub rc: Reg,
}

/// The operands of an instruction with `/V`, `None` for every other one.
pub(crate) fn trigger_of(i: &Insn) -> Option<Trigger>
    ensures found { IfSome result (λ t. class_of i.now ≡ trigger t.op t.ra t.src t.rc) }
    ensures none { IfNone result (trigger_destination (class_of i.now) ≡ None) }
{
    let Form::Operate { op, ra, src, rc } = i.form() else {
        return None;
    };
    let op = op.trap()?;
    Some(Trigger { op, ra, src, rc })
}
