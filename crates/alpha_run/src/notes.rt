//! The lines of a run, as an observer.

use crate::Observer;
use alpha_io::{Failed, Sink};
use alpha_seq::{Event, Machine, write_barrier, write_overflow};

/// Writes the line of each overflow and, where that is asked for, the lines of each barrier.
#[derive(Clone, Copy, Debug)]
pub struct Notes {
    /// Whether barriers are watched.
    pub watch: bool,
}

impl Observer for Notes {
    ghost use Rattle.alpha_run.specs.Noted.{lines_of, stays, never, endless, passes_unwatched};

    ghost lines = { lines_of };

    ghost after = { stays };

    ghost stops = { never };

    ghost room = { endless };

    ghost passing = { passes_unwatched };

    #[inline(always)]
    fn room(&self) -> u64 {
        u64::MAX
    }

    #[inline(always)]
    fn passes_barriers(&self) -> bool {
        !self.watch
    }

    #[inline(always)]
    fn pass(&mut self, _count: u64) {}

    #[inline(always)]
    fn see<N: Sink>(
        &mut self,
        event: &Event,
        machine: &Machine,
        notes: &mut N,
    ) -> Result<bool, Failed> {
        match *event {
            Event::Overflowed(at) | Event::Reported(at) => write_overflow(at, notes)?,
            Event::Barrier(_) if self.watch => write_barrier(machine.pc, &machine.regs, notes)?,
            Event::Went
            | Event::Barrier(_)
            | Event::Triggered(_)
            | Event::Waited(_)
            | Event::Ended(_)
            | Event::Lost(..) => {}
        }
        Ok(false)
    }
}
