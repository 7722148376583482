ghost use Rattle.std.specs.Prelude.{◌≡◌, ℕ, IsTrue};
ghost use Rattle.alpha_io.specs.Supply.{supply};
ghost use Rattle.alpha_mem.specs.Block.{shapes};
ghost use Rattle.alpha_pal.specs.CallEffect.{CallEffect, InputCause, SinkCause, kernel_after, seen};
ghost use Rattle.alpha_words.specs.declared.PalCall.TheVariants.{Callsys};

use crate::fault::Fault;
use crate::frame::Frame;
use crate::kernel::{Kernel, USER_STATUS};
use crate::named::{A0, GP, V0, reg_of_number};
use crate::pal_end::{PalEnd, Passed};
use crate::serve::{SystemCall, finish};
use alpha_io::{Sink, Source};
use alpha_mem::Memory;
use alpha_words::{PalCall, RegFile};

impl Kernel {
    /// Makes the PAL call (Reference Manual, OSF/1 PALcode instructions). `next` is the PC after
    /// the call. The mode is user again after every answer, and a callsys leaves its frame: the
    /// user's status, `next`, GP and three zeros. What a read took and what a write put then stand in
    /// memory where `Goes` says. An end changes nothing else. `Input` comes only where the input
    /// failed in this call, and leaves the bytes taken so far in memory; `Output` only where the
    /// output failed, which got a prefix of the bytes. Both leave the registers and the unique value
    /// as they were. `Notes` never comes.
    pub fn call<S: Source, K: Sink>(
        &mut self,
        function: PalCall,
        next: u64,
        unique: &mut u64,
        regs: &mut RegFile,
        mem: &mut Memory,
        input: &mut S,
        out: &mut K,
    ) -> Result<PalEnd, Fault>
        requires { IsTrue self.old.user }
        ensures effect { CallEffect function result
            (seen regs.old mem.old unique.old (supply S.Source input.old) (K.written out.old))
            (seen regs.new mem.new unique.new (supply S.Source input.new) (K.written out.new)) }
        ensures shapes { shapes mem.new ≡ shapes mem.old }
        ensures kernel { self.new ≡ kernel_after function next regs.old self.old }
        ensures input { InputCause result (S.faults input.old) (S.faults input.new) }
        ensures sink { SinkCause result (K.faults out.old) (K.faults out.new) }
    {
        match function {
            PalCall::Bpt => Ok(PalEnd::Signal(0)),
            PalCall::Bugchk => Ok(PalEnd::Signal(1)),
            PalCall::Gentrap => Ok(PalEnd::Signal(2)),
            PalCall::Imb => Ok(PalEnd::Goes(Passed::Nothing)),
            PalCall::Rdunique => {
                regs.set(reg_of_number(V0), *unique);
                Ok(PalEnd::Goes(Passed::Nothing))
            }
            PalCall::Wrunique => {
                *unique = regs.get(reg_of_number(A0));
                Ok(PalEnd::Goes(Passed::Nothing))
            }
            PalCall::Callsys => self.callsys(next, regs, mem, input, out),
        }
    }

    // Makes the system call that the registers ask for, by an entry and a return of its own.
    fn callsys<S: Source, K: Sink>(
        &mut self,
        next: u64,
        regs: &mut RegFile,
        mem: &mut Memory,
        input: &mut S,
        out: &mut K,
    ) -> Result<PalEnd, Fault>
        ensures effect { (unique : ℕ) → CallEffect Callsys result
            (seen regs.old mem.old unique (supply S.Source input.old) (K.written out.old))
            (seen regs.new mem.new unique (supply S.Source input.new) (K.written out.new)) }
        ensures shapes { shapes mem.new ≡ shapes mem.old }
        ensures kernel { self.new ≡ kernel_after Callsys next regs.old self.old }
        ensures input { InputCause result (S.faults input.old) (S.faults input.new) }
        ensures sink { SinkCause result (K.faults out.old) (K.faults out.new) }
    {
        let request = SystemCall::of(regs);
        let frame = Frame {
            ps: USER_STATUS,
            pc: next,
            gp: regs.get(reg_of_number(GP)),
            r16: 0,
            r17: 0,
            r18: 0,
        };
        self.enter(regs, frame);
        let served = request.serve(mem, input, out);
        let end = finish(request, served, regs);
        self.retsys(regs);
        end
    }
}
