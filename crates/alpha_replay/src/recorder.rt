//! What looks at the steps of a run that gets a journal.

use crate::journal_builder::JournalBuilder;
use alpha_io::{Failed, Sink};
use alpha_run::{Notes, Observer};
use alpha_seq::{Event, Machine};

/// Notes each step on a tape, and stops the run behind one that doesn't fit. It writes the lines of a run without
/// `watch`.
#[derive(Debug, Drop)]
pub(crate) struct Recorder {
    /// What is gathered of the run.
    pub builder: JournalBuilder,
    /// Whether a step didn't fit.
    pub full: bool,
}

impl Observer for Recorder {
    ghost use Rattle.alpha_replay.specs.Recorder.{is_past, lines_recorded, recorded_after, room_left, all_barriers};

    ghost lines = { lines_recorded };

    ghost after = { recorded_after };

    ghost stops = { is_past };

    ghost room = { room_left };

    ghost passing = { all_barriers };

    #[inline(always)]
    fn room(&self) -> u64 {
        self.builder.room()
    }

    #[inline(always)]
    fn passes_barriers(&self) -> bool {
        true
    }

    #[inline(always)]
    fn pass(&mut self, count: u64) {
        self.builder.note_ones(count);
    }

    #[inline(always)]
    fn see<N: Sink>(
        &mut self,
        event: &Event,
        machine: &Machine,
        notes: &mut N,
    ) -> Result<bool, Failed> {
        Notes { watch: false }.see(event, machine, notes)?;
        let fits = self.builder.note_step(event, machine);
        if !fits {
            self.full = true;
        }
        Ok(!fits)
    }
}
