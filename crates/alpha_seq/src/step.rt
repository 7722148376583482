ghost use Rattle.std.specs.Prelude.{◌≡◌, IsTrue, IfOk, IfErr};
ghost use Rattle.alpha_io.specs.SinkChange.{sink_change};
ghost use Rattle.alpha_mem.specs.Block.{shapes};
ghost use Rattle.alpha_seq.specs.Step.{next_pc};
ghost use Rattle.alpha_seq.specs.Machine.{program_of, state_of, class_here, kernel_left, Stays};
ghost use Rattle.alpha_seq.specs.Next.{next_insn};
ghost use Rattle.alpha_seq.specs.Devices.{drawn};
ghost use Rattle.alpha_seq.specs.Sequential.{SeqStepEffect, FaultedSeqStep};

use crate::{End, Event, Fault, Machine};
use alpha_io::{Sink, Source};
use alpha_table::{Form, Insn};

impl Machine {
    /// Makes one step, in user mode: the word at the PC does what its instruction does (Architecture Handbook,
    /// chapter 4; the PAL calls are those of the Reference Manual's OSF/1 PALcode). An overflow is logged; whoever
    /// makes the steps writes its line. What a barrier took or put stands in memory behind it, where the event says.
    /// `Ended` leaves all as it was. `Fault::Input` comes only where the input failed in a read, and `Fault::Output`
    /// where the output failed in a write: the bytes taken so far are in memory, the output got a prefix of its bytes,
    /// and all else but the kernel's frame is as it was.
    pub fn step<S: Source, K: Sink>(&mut self, input: &mut S, out: &mut K) -> Result<Event, Fault>
        requires { IsTrue self.old.kernel.user }
        ensures made { IfOk result (λ event. SeqStepEffect event self.old self.new
            (drawn S.Source input.old input.new)
            (sink_change K.Sink out.old out.new)) }
        ensures broken { IfErr result (λ fault. FaultedSeqStep fault self.old self.new
            (drawn S.Source input.old input.new)
            (sink_change K.Sink out.old out.new)) }
        ensures kernel { self.new.kernel ≡ kernel_left (class_here self.old)
            (next_pc (state_of self.old)) self.old.regs self.old.kernel }
        ensures shapes { shapes self.new.memory ≡ shapes self.old.memory }
        ensures same { Stays self.old self.new }
    {
        let insn = self.insn();
        self.step_by(insn, input, out)
    }

    /// The same, by the instruction at the PC, if there is one, for a caller that has looked at it.
    #[inline(always)]
    pub fn step_by<S: Source, K: Sink>(
        &mut self,
        insn: Option<Insn>,
        input: &mut S,
        out: &mut K,
    ) -> Result<Event, Fault>
        requires here { insn ≡ next_insn (program_of self.old) self.old.pc }
        requires user { IsTrue self.old.kernel.user }
        ensures made { IfOk result (λ event. SeqStepEffect event self.old self.new
            (drawn S.Source input.old input.new)
            (sink_change K.Sink out.old out.new)) }
        ensures broken { IfErr result (λ fault. FaultedSeqStep fault self.old self.new
            (drawn S.Source input.old input.new)
            (sink_change K.Sink out.old out.new)) }
        ensures kernel { self.new.kernel ≡ kernel_left (class_here self.old)
            (next_pc (state_of self.old)) self.old.regs self.old.kernel }
        ensures shapes { shapes self.new.memory ≡ shapes self.old.memory }
        ensures same { Stays self.old self.new }
    {
        let Some(insn) = insn else {
            return Ok(Event::Ended(End::Fetch { pc: self.pc }));
        };
        match insn.form() {
            Form::Pal(function) => self.call(function, input, out),
            _ => Ok(self.execute(&insn)),
        }
    }
}
