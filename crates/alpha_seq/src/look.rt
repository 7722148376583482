ghost use Rattle.std.specs.Prelude.{◌≡◌, ℕ, List, false, Some};
ghost use Rattle.std.specs.Option.{option_map, option_map_or};
ghost use Rattle.alpha_mem.specs.Block.{shapes};
ghost use Rattle.alpha_mem.specs.Fault.{fault_of};
ghost use Rattle.alpha_mem.specs.Intent.{Load, Store};
ghost use Rattle.alpha_words.specs.Regs.{reg};
ghost use Rattle.alpha_values.specs.TrapOp.{overflow_of};
ghost use Rattle.alpha_table.specs.Op.{trap_of};
ghost use Rattle.alpha_table.specs.ClassOf.{class_of};
ghost use Rattle.alpha_table.specs.declared.form.Form.{Form};
ghost use Rattle.alpha_table.specs.declared.form.Form.TheVariants.{Mem};
ghost use Rattle.alpha_values.specs.Source.{source_value};
ghost use Rattle.alpha_seq.specs.Step.{step, accessed, fault_end};
ghost use Rattle.alpha_seq.specs.Next.{next_of, next_by, by_event};
ghost use Rattle.alpha_seq.specs.Machine.{program_of, state_of};
ghost use Rattle.alpha_seq.specs.Executed.{IsSized, fault_answer};

use crate::access::{fault_end, memory_access, size};
use crate::{End, Machine, Next};
use alpha_table::{Form, Insn, InsnKind, MemAccess, MemOp, MemRole, Op, Src, kind};
use alpha_values::overflows;
use alpha_words::Reg;

impl Machine {
    /// What the word at the PC is, and what a step would do there.
    pub fn next(&self) -> Next
        ensures value { (input : List ℕ)
            → result ≡ next_of (program_of self.now) (state_of self.now) input }
    {
        match self.insn() {
            Some(insn) => self.next_at(&insn),
            None => Next::Outside,
        }
    }

    // What an instruction would do here.
    fn next_at(&self, insn: &Insn) -> Next
        ensures { (input : List ℕ)
            → result ≡ next_by (program_of self.now) (Some insn.now) (state_of self.now) input }
    {
        match insn.form() {
            Form::Operate { op, ra, src, .. } => {
                if self.would_overflow(op, ra, &src) {
                    Next::Overflows(*insn)
                } else {
                    Next::Plain(*insn)
                }
            }
            Form::Mem { op, ra, rb, disp } => match self.fault_at(op, ra, rb, disp) {
                Some(end) => Next::Faults(end),
                None => Next::Plain(*insn),
            },
            Form::Misc(_) => match kind(insn) {
                InsnKind::Barrier => Next::Barrier(*insn),
                _ => Next::Plain(*insn),
            },
            Form::Pal(_) => Next::Barrier(*insn),
            Form::Branch { .. } | Form::Jump { .. } | Form::Fetch { .. } => Next::Plain(*insn),
        }
    }

    // Whether an operate instruction with these sources has `/V` and would overflow.
    fn would_overflow(&self, op: Op, ra: Reg, src: &Src) -> bool
        ensures { let a = reg self.now.regs ra in let b = source_value self.now.regs src.now in
            result ≡ option_map_or (λ trap. overflow_of trap a b) (trap_of op) false }
    {
        match op.trap() {
            Some(trap) => overflows(trap, self.regs.get(ra), self.source(src)),
            None => false,
        }
    }

    // How the access of a memory instruction would end the program, if it makes one that faults.
    fn fault_at(&self, op: MemOp, ra: Reg, rb: Reg, disp: i16) -> Option<End>
        ensures { (insn : Form) (input : List ℕ)
            → by_event insn (step (program_of self.now) (Some (class_of (Mem op ra rb disp)))
            (state_of self.now) input).event ≡ fault_answer result insn }
    {
        let at = memory_access(op, rb, disp);
        match op.row().role {
            MemRole::Address => None,
            MemRole::Load(_) if ra == Reg::ZERO => None,
            MemRole::Load(_) => self.load_end(&at),
            MemRole::LoadLocked(_) => self.load_end(&at),
            MemRole::Store => self.store_end(&at),
            MemRole::StoreConditional => self.store_end(&at),
        }
    }

    // How a load would end the program, if it would fault.
    fn load_end(&self, at: &MemAccess) -> Option<End>
        requires { IsSized at.now.bytes }
        ensures { let addr = accessed at.now (state_of self.now) in
            result ≡ option_map (λ fault. fault_end fault self.now.pc addr)
            (fault_of (shapes self.now.memory) Load addr at.now.bytes) }
    {
        let addr = self.accessed_address(at);
        match self.memory.load(addr, size(at.bytes)) {
            Ok(_) => None,
            Err(fault) => Some(fault_end(fault, self.pc, addr)),
        }
    }

    // How a store would end the program, if it would fault.
    fn store_end(&self, at: &MemAccess) -> Option<End>
        requires { IsSized at.now.bytes }
        ensures { let addr = accessed at.now (state_of self.now) in
            result ≡ option_map (λ fault. fault_end fault self.now.pc addr)
            (fault_of (shapes self.now.memory) Store addr at.now.bytes) }
    {
        let addr = self.accessed_address(at);
        match self.memory.writable(addr, size(at.bytes)) {
            Ok(()) => None,
            Err(fault) => Some(fault_end(fault, self.pc, addr)),
        }
    }
}
