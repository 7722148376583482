ghost use Rattle.std.specs.Prelude.{◌≢◌};
ghost use Rattle.alpha_words.specs.declared.PalCall.{PalCall};
ghost use Rattle.alpha_table.specs.declared.form.Form.TheVariants.{Pal};
ghost use Rattle.alpha_table.specs.ClassOf.{class_of};
ghost use Rattle.alpha_seq.specs.Executed.{ExecuteEffect};

use crate::access::{fault_end, memory_access};
use crate::{Event, Machine, Passed};
use alpha_table::{Form, Insn, InsnKind, kind};

impl Machine {
    // Executes an instruction that is no PAL call. The loops of the runs call it for what is rare.
    #[inline(never)]
    pub(crate) fn execute(&mut self, insn: &Insn) -> Event
        requires { (function : PalCall) → insn.now ≢ Pal function }
        ensures { ExecuteEffect result (class_of insn.now) self.old self.new }
    {
        match insn.form() {
            Form::Operate { op, ra, src, rc } => match op.trap() {
                None => self.operate(op, ra, &src, rc),
                Some(op) => return self.trigger(op, ra, &src, rc),
            },
            Form::Mem { op, ra, rb, disp } => {
                let addr = self.accessed_address(&memory_access(op, rb, disp));
                let pc = self.pc;
                if let Err(fault) = self.memory_word(op, ra, rb, disp) {
                    return Event::Ended(fault_end(fault, pc, addr));
                }
            }
            Form::Branch { op, ra, disp } => self.branch(op, ra, disp),
            Form::Jump { ra, rb, .. } => self.jump(ra, rb),
            Form::Misc(_) => match kind(insn) {
                InsnKind::Barrier => {
                    self.advance();
                    return Event::Barrier(Passed::Nothing);
                }
                _ => self.idle(),
            },
            Form::Fetch { .. } => self.idle(),
            Form::Pal(_) => unreachable!(),
        }
        Event::Went
    }
}
