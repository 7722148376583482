ghost use Rattle.std.specs.Prelude.{◌≡◌, ◌+◌, ◌+ℤ◌, ◌*ℤ◌, pos, true, false, IsTrue};
ghost use Rattle.alpha_words.specs.Regs.{reg};
ghost use Rattle.alpha_table.specs.Class.{operate, trigger, address, branch, jump, idle};
ghost use Rattle.alpha_table.specs.Rows.{branch_row};
ghost use Rattle.alpha_values.specs.Numbers.{register_of};
ghost use Rattle.alpha_values.specs.Source.{source_value};
ghost use Rattle.alpha_values.specs.TrapOp.{overflow_of, completed_of};
ghost use Rattle.alpha_seq.specs.State.{Went};
ghost use Rattle.alpha_seq.specs.Step.{lda_value};
ghost use Rattle.alpha_seq.specs.Executed.{ExecutesWord, ExecuteEffect, logged_machine};

use crate::{End, Event, Machine};
use alpha_table::{BranchOp, MemOp, Op, Src, TrapOp};
use alpha_values::{completed, high_address, operate_at, overflows, taken};
use alpha_words::{Completion, Reg};

// The words that access no memory, one function a family.
impl Machine {
    #[inline(always)]
    pub(crate) fn operate(&mut self, op: Op, ra: Reg, src: &Src, rc: Reg)
        ensures { ExecutesWord Went (operate op ra src.now rc) self.old self.new }
    {
        let a = self.regs.get(ra);
        let b = self.source(src);
        let old = self.regs.get(rc);
        let value = operate_at(self.image.level(), op, a, b, old);
        self.set(rc, value);
    }

    #[inline(always)]
    pub(crate) fn trigger(&mut self, op: TrapOp, ra: Reg, src: &Src, rc: Reg) -> Event
        ensures { ExecuteEffect result (trigger op ra src.now rc) self.old self.new }
    {
        if self.execute_unless_overflow(op, ra, src, rc) {
            return Event::Went;
        }
        let at = self.pc;
        if self.completion == Completion::Stop {
            return Event::Ended(End::Overflow { pc: at });
        }
        let a = self.regs.get(ra);
        let b = self.source(src);
        self.complete(op, a, b, rc);
        Event::Overflowed(at)
    }

    // Executes an instruction that may trap, if it doesn't overflow.
    #[inline(always)]
    pub(crate) fn execute_unless_overflow(
        &mut self,
        op: TrapOp,
        ra: Reg,
        src: &Src,
        rc: Reg,
    ) -> bool
        ensures went { IsTrue result → ExecutesWord Went (trigger op ra src.now rc) self.old self.new }
        ensures stays { result ≡ false → self.new ≡ self.old }
        ensures overflows { result ≡ false
            → overflow_of op (reg self.old.regs ra) (source_value self.old.regs src.now) ≡ true }
    {
        let a = self.regs.get(ra);
        let b = self.source(src);
        if overflows(op, a, b) {
            return false;
        }
        let value = self.exact_result(op, a, b);
        self.set(rc, value);
        true
    }

    // The result of an instruction that doesn't overflow: every completion has it.
    #[inline(always)]
    fn exact_result(&self, op: TrapOp, a: u64, b: u64) -> u64
        requires { overflow_of op a b ≡ false }
        ensures { result ≡ completed_of op a b self.now.completion }
    {
        completed(op, a, b, Completion::Wrap)
    }

    // Completes an overflow, and logs it.
    #[inline(never)]
    fn complete(&mut self, op: TrapOp, a: u64, b: u64, rc: Reg)
        ensures { self.new ≡ logged_machine self.old rc (completed_of op a b self.old.completion) }
    {
        let value = completed(op, a, b, self.completion);
        self.last = self.pc;
        self.set(rc, value);
        self.lock = None;
        self.overflows = self.overflows.wrapping_add(1);
    }

    #[inline(always)]
    pub(crate) fn address(&mut self, op: MemOp, ra: Reg, rb: Reg, disp: i16)
        ensures { ExecutesWord Went (address op ra rb disp) self.old self.new }
    {
        let value = lda_value(op, self.regs.get(rb), disp);
        self.set(ra, value);
    }

    #[inline(always)]
    pub(crate) fn branch(&mut self, op: BranchOp, ra: Reg, disp: i32)
        ensures { ExecutesWord Went (branch (branch_row op).condition ra disp) self.old self.new }
    {
        let target = branch_target(self.pc, disp);
        match op.row().condition {
            None => {
                self.set(ra, self.next_pc());
                self.pc = target;
            }
            Some(condition) if taken(condition, self.regs.get(ra)) => self.pc = target,
            Some(_) => self.advance(),
        }
    }

    #[inline(always)]
    pub(crate) fn jump(&mut self, ra: Reg, rb: Reg)
        ensures { ExecutesWord Went (jump ra rb) self.old self.new }
    {
        let target = self.regs.get(rb);
        self.set(ra, self.next_pc());
        self.pc = target / 4 * 4;
    }

    #[inline(always)]
    pub(crate) fn idle(&mut self)
        ensures { ExecutesWord Went idle self.old self.new }
    {
        self.advance();
    }
}

// What LDA and LDAH compute.
#[inline(always)]
pub(crate) fn lda_value(op: MemOp, base: u64, disp: i16) -> u64
    ensures { result ≡ lda_value op base disp }
{
    match op {
        MemOp::Ldah => high_address(base, disp),
        _ => alpha_values::address(base, disp),
    }
}

/// The target of a branch at this address: it stands `disp` words, of four bytes each, behind the word that follows the
/// branch, modulo 2^64 (Architecture Handbook, section 4.3).
#[inline(always)]
pub fn branch_target(pc: u64, disp: i32) -> u64
    ensures { result ≡ register_of (pos (pc + 4) +ℤ pos 4 *ℤ disp) }
{
    pc.wrapping_add_signed(i64::from(disp) * 4 + 4)
}
