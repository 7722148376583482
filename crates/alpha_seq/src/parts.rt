ghost use Rattle.std.specs.Prelude.{◌≡◌, ◌+◌, ◌%◌, ◌^◌};
ghost use Rattle.alpha_words.specs.Regs.{put};
ghost use Rattle.alpha_seq.specs.Machine.{program_of};
ghost use Rattle.alpha_seq.specs.Next.{next_insn};
ghost use Rattle.alpha_values.specs.Source.{source_value};

use crate::Machine;
use alpha_table::{Insn, Src};
use alpha_words::Reg;

impl Machine {
    /// The instruction at the PC, `None` where the PC is no address of a code word.
    #[inline(always)]
    pub fn insn(&self) -> Option<Insn>
        ensures { result ≡ next_insn (program_of self.now) self.now.pc }
    {
        let place = self.image.place_of(self.pc)?;
        Some(self.image.insn_at(place))
    }

    // The address of the next word.
    #[inline(always)]
    pub(crate) fn next_pc(&self) -> u64
        ensures { result ≡ (self.now.pc + 4) % 2 ^ 64 }
    {
        self.pc.wrapping_add(4)
    }

    /// Goes on to the next word.
    #[inline(always)]
    pub fn advance(&mut self)
        ensures { self.new ≡ record self.old { pc = (self.old.pc + 4) % 2 ^ 64 } }
    {
        self.pc = self.next_pc();
    }

    /// Writes a register, and goes on to the next word.
    #[inline(always)]
    pub fn set(&mut self, r: Reg, value: u64)
        ensures { self.new ≡ record self.old {
          regs = put self.old.regs r value;
          pc = (self.old.pc + 4) % 2 ^ 64;
        } }
    {
        self.regs.set(r, value);
        self.advance();
    }

    /// The value of a second source (Architecture Handbook, section 3.3.3).
    #[inline(always)]
    pub fn source(&self, src: &Src) -> u64
        ensures { result ≡ source_value self.now.regs src.now }
    {
        match *src {
            Src::Reg(rb) => self.regs.get(rb),
            Src::Lit(n) => u64::from(n),
        }
    }
}
