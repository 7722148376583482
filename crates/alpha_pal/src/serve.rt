ghost use Rattle.std.specs.Prelude.{◌≡◌, ℕ, List, Option};
ghost use Rattle.alpha_words.specs.Regs.{IsFile};
ghost use Rattle.alpha_io.specs.Supply.{Supply, supply};
ghost use Rattle.alpha_mem.specs.Block.{shapes};
ghost use Rattle.alpha_pal.specs.Serve.{system_call_of};
ghost use Rattle.alpha_pal.specs.CallEffect.{ServeEffect, InputCause, SinkCause, end_of, regs_after};

use crate::fault::Fault;
use crate::named::{A0, A1, A2, A3, V0, reg_of_number};
use crate::pal_end::{PalEnd, Passed};
use crate::take::take_into;
use alpha_io::{Failed, Sink, Source, write_whole};
use alpha_mem::Memory;
use alpha_words::RegFile;

// The system calls' numbers.
const EXIT: u64 = 1;

const READ: u64 = 3;

const WRITE: u64 = 4;

// The one descriptor that may be read, and the one that may be written.
const INPUT: u64 = 0;

const OUTPUT: u64 = 1;

// The errors' numbers.
const NO_SUCH_CALL: u64 = 78;

const BAD_DESCRIPTOR: u64 = 9;

const BAD_RANGE: u64 = 14;

/// What a system call is asked: its number from R0, and its arguments from R16 to R18.
#[derive(Clone, Copy, Debug)]
pub(crate) struct SystemCall {
    pub number: u64,
    pub a0: u64,
    pub a1: u64,
    pub a2: u64,
}

/// What a system call answers.
#[derive(Clone, Copy, Debug)]
pub(crate) enum Answer {
    /// A read took this many bytes.
    Read(u64),
    /// A write put this many bytes.
    Wrote(u64),
    Error(u64),
    Exit(u64),
}

impl SystemCall {
    // The request in the registers.
    pub(crate) fn of(regs: &RegFile) -> SystemCall
        ensures value { result ≡ system_call_of regs.now }
        ensures file { IsFile regs.now }
    {
        SystemCall {
            number: regs.get(reg_of_number(V0)),
            a0: regs.get(reg_of_number(A0)),
            a1: regs.get(reg_of_number(A1)),
            a2: regs.get(reg_of_number(A2)),
        }
    }

    // Does what is asked.
    pub(crate) fn serve<S: Source, K: Sink>(
        self,
        mem: &mut Memory,
        input: &mut S,
        out: &mut K,
    ) -> Result<Answer, Fault>
        ensures effect { ServeEffect self result mem.old mem.new
            (supply S.Source input.old) (supply S.Source input.new) (K.written out.old) (K.written out.new) }
        ensures shapes { shapes mem.new ≡ shapes mem.old }
        ensures input { InputCause result (S.faults input.old) (S.faults input.new) }
        ensures sink { SinkCause result (K.faults out.old) (K.faults out.new) }
    {
        match self.number {
            EXIT => Ok(Answer::Exit(self.a0)),
            READ => self.read(mem, input),
            WRITE => self.write(mem, out),
            _ => Ok(Answer::Error(NO_SUCH_CALL)),
        }
    }

    // Reads input into memory. It goes on until there are as many bytes as asked for, or the input
    // has ended.
    fn read<S: Source>(self, mem: &mut Memory, input: &mut S) -> Result<Answer, Fault>
        requires { self.number ≡ READ }
        ensures effect { (written : Option (List ℕ)) → ServeEffect self result mem.old mem.new
            (supply S.Source input.old) (supply S.Source input.new) written written }
        ensures shapes { shapes mem.new ≡ shapes mem.old }
        ensures input { InputCause result (S.faults input.old) (S.faults input.new) }
        ensures sink { (count : ℕ) → SinkCause result count count }
    {
        if self.a0 != INPUT {
            return Ok(Answer::Error(BAD_DESCRIPTOR));
        }
        if !mem.can_write(self.a1, self.a2) {
            return Ok(Answer::Error(BAD_RANGE));
        }
        match take_into(mem, self.a1, self.a2, input) {
            Ok(count) => Ok(Answer::Read(count)),
            Err(Failed) => Err(Fault::Input),
        }
    }

    // Writes memory to the output.
    fn write<K: Sink>(self, mem: &Memory, out: &mut K) -> Result<Answer, Fault>
        requires { self.number ≡ WRITE }
        ensures effect { (given : Supply) → ServeEffect self result mem.now mem.now
            given given (K.written out.old) (K.written out.new) }
        ensures sink { SinkCause result (K.faults out.old) (K.faults out.new) }
        ensures input { (count : ℕ) → InputCause result count count }
    {
        if self.a0 != OUTPUT {
            return Ok(Answer::Error(BAD_DESCRIPTOR));
        }
        match mem.bytes(self.a1, self.a2) {
            None => Ok(Answer::Error(BAD_RANGE)),
            Some(bytes) => match write_whole(out, bytes) {
                Ok(()) => Ok(Answer::Wrote(self.a2)),
                Err(Failed) => Err(Fault::Output),
            },
        }
    }
}

// How the call ends, with the answer in the registers.
pub(crate) fn finish(
    request: SystemCall,
    served: Result<Answer, Fault>,
    regs: &mut RegFile,
) -> Result<PalEnd, Fault>
    ensures end { result ≡ end_of request served }
    ensures regs { regs.new ≡ regs_after served regs.old }
{
    let addr = request.a1;
    let (value, error, passed) = match served? {
        Answer::Read(len) => (len, 0, Passed::Took { addr, len }),
        Answer::Wrote(len) => (len, 0, Passed::Put { addr, len }),
        Answer::Error(number) => (number, 1, Passed::Nothing),
        Answer::Exit(value) => return Ok(PalEnd::Exit(value)),
    };
    regs.set(reg_of_number(V0), value);
    regs.set(reg_of_number(A3), error);
    Ok(PalEnd::Goes(passed))
}
