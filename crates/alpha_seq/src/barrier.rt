ghost use Rattle.std.specs.Prelude.{◌≡◌, Some, IsTrue, IfOk, IfErr};
ghost use Rattle.alpha_io.specs.SinkChange.{sink_change};
ghost use Rattle.alpha_table.specs.Class.{barrier};
ghost use Rattle.alpha_pal.specs.CallEffect.{kernel_after};
ghost use Rattle.alpha_mem.specs.Block.{shapes};
ghost use Rattle.alpha_seq.specs.Step.{next_pc, lock_after};
ghost use Rattle.alpha_seq.specs.Machine.{program_of, state_of, class_here};
ghost use Rattle.alpha_seq.specs.Devices.{drawn};
ghost use Rattle.alpha_seq.specs.Sequential.{SeqStepEffect, FaultedSeqStep};

use crate::{End, Event, Fault, Machine};
use alpha_io::{Sink, Source};
use alpha_pal::PalEnd;
use alpha_words::PalCall;

impl Machine {
    // Makes the PAL call at the PC.
    #[inline(never)]
    pub(crate) fn call<S: Source, K: Sink>(
        &mut self,
        function: PalCall,
        input: &mut S,
        out: &mut K,
    ) -> Result<Event, Fault>
        requires user { IsTrue self.old.kernel.user }
        requires class { class_here self.old ≡ Some (barrier (Some function)) }
        ensures made { IfOk result (λ event. SeqStepEffect event self.old self.new
            (drawn S.Source input.old input.new)
            (sink_change K.Sink out.old out.new)) }
        ensures broken { IfErr result (λ fault. FaultedSeqStep fault self.old self.new
            (drawn S.Source input.old input.new)
            (sink_change K.Sink out.old out.new)) }
        ensures kernel { self.new.kernel ≡ kernel_after function
            (next_pc (state_of self.old)) self.old.regs self.old.kernel }
        ensures shapes { shapes self.new.memory ≡ shapes self.old.memory }
        ensures program { program_of self.new ≡ program_of self.old }
    {
        let next = self.next_pc();
        let end = self.kernel.call(
            function,
            next,
            &mut self.unique,
            &mut self.regs,
            &mut self.memory,
            input,
            out,
        )?;
        match end {
            PalEnd::Goes(passed) => {
                self.go_on(function, next);
                Ok(Event::Barrier(passed))
            }
            PalEnd::Exit(value) => Ok(Event::Ended(End::Exit(value))),
            PalEnd::Signal(code) => Ok(Event::Ended(End::Signal { code, pc: self.pc })),
        }
    }

    // Goes on after a PAL call. A return from callsys clears the lock flag.
    fn go_on(&mut self, function: PalCall, next: u64)
        ensures { self.new
            ≡ record self.old { pc = next; lock = lock_after function self.old.lock } }
    {
        self.pc = next;
        if function == PalCall::Callsys {
            self.lock = None;
        }
    }
}
