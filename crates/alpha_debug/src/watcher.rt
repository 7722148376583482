//! Who looks at the steps of a walk.

ghost use Rattle.std.specs.Prelude.{◌≡◌, OnOk, OnErr};
ghost use Rattle.alpha_io.specs.SinkChange.{sink_change, Puts};
ghost use Rattle.alpha_debug.specs.OutputChange.{CutShort};
ghost use Rattle.alpha_debug.specs.Session.{is_reached};
ghost use Rattle.alpha_debug.specs.Watched.{was_barrier, was_put, put_behind, waits_behind};

use crate::block::Block;
use crate::breakpoints::{Points, has_point};
use alpha_io::{Failed, Sink};
use alpha_run::Observer;
use alpha_seq::{Event, Machine, Passed};

/// Which step is the last one that is wanted.
#[derive(Clone, Copy, Debug, PartialEq, Eq)]
pub(crate) enum Until {
    /// The last of all that were asked for: none ends the travel before.
    Spent,
    /// One behind which the PC is a breakpoint.
    Breakpoint,
    /// One that executes a barrier.
    Barrier,
}

/// Stops a run behind the step that is wanted, and takes what each step put, out of the memory behind it. That waits in
/// the block of the session, which is put to the notes of the run where it is full.
#[derive(Drop)]
pub(crate) struct Watcher {
    /// Which step is wanted.
    pub until: Until,
    /// The breakpoints.
    pub points: Points,
    /// What the session has written and not put yet.
    pub block: Block,
    /// Whether the program has put something in the line in hand.
    pub has_put: bool,
}

impl Observer for Watcher {
    ghost use Rattle.alpha_debug.specs.Watched.{watched_lines, watched_after, watched_stops, watched_room, no_barriers};

    ghost lines = { watched_lines };

    ghost after = { watched_after };

    ghost stops = { watched_stops };

    ghost room = { watched_room };

    ghost passing = { no_barriers };

    #[inline(always)]
    fn room(&self) -> u64 {
        match self.until {
            Until::Breakpoint if !self.points.is_empty() => 0,
            _ => u64::MAX,
        }
    }

    #[inline(always)]
    fn passes_barriers(&self) -> bool {
        false
    }

    #[inline(always)]
    fn pass(&mut self, _count: u64) {}

    #[inline(always)]
    fn see<N: Sink>(
        &mut self,
        event: &Event,
        machine: &Machine,
        notes: &mut N,
    ) -> Result<bool, Failed> {
        take_put(&mut self.block, event, machine, notes)?;
        self.has_put = was_put(event) || self.has_put;
        Ok(is_reached(self.until, self.points.as_slice(), event, machine.pc))
    }
}

// Whether the wanted step came.
#[inline(always)]
fn is_reached(until: Until, points: &[u64], event: &Event, pc: u64) -> bool
    ensures { result ≡ is_reached until points.now (was_barrier event.now) pc }
{
    match until {
        Until::Spent => false,
        Until::Breakpoint => has_point(points, pc),
        Until::Barrier => matches!(event, Event::Barrier(_)),
    }
}

// Whether a step put something.
#[inline(always)]
fn was_put(event: &Event) -> bool
    ensures { result ≡ was_put event.now }
{
    matches!(event, Event::Barrier(Passed::Put { .. }))
}

// Takes what a step put, which stands in the memory behind it.
#[inline(always)]
fn take_put<N: Sink>(
    block: &mut Block,
    event: &Event,
    machine: &Machine,
    notes: &mut N,
) -> Result<(), Failed>
    ensures puts { OnOk result (Puts (sink_change N.Sink notes.old notes.new)
        (put_behind block.old event.now machine.now.memory)) }
    ensures waits { OnOk result (block.new ≡ waits_behind block.old event.now machine.now.memory) }
    ensures refused { OnErr result (CutShort (sink_change N.Sink notes.old notes.new)
        (put_behind block.old event.now machine.now.memory)) }
{
    match *event {
        Event::Barrier(Passed::Put { addr, len }) => match machine.memory.bytes(addr, len) {
            Some(bytes) => block.gather(bytes, notes),
            None => Ok(()),
        },
        _ => Ok(()),
    }
}
