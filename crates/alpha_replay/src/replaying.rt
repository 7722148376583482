//! The replay of a journal.

ghost use Rattle.std.specs.Prelude.{◌≡◌, ◌≤◌, length, is_none, IfOk, IfErr};
ghost use Rattle.alpha_image.specs.Parts.{Parts as Image};
ghost use Rattle.alpha_words.specs.declared.Completion.{Completion};
ghost use Rattle.alpha_imprecise.specs.ImpreciseState.{trap_in, IsFresh};
ghost use Rattle.alpha_seq.specs.Machine.{program_of};
ghost use Rattle.alpha_replay.specs.Endings.{FitsEnding};
ghost use Rattle.alpha_replay.specs.Items.{units_of};
ghost use Rattle.alpha_replay.specs.Journal.{most_items, parts};
ghost use Rattle.alpha_replay.specs.ReplayEffect.{Begins};
ghost use Rattle.alpha_replay.specs.Replay.{ending_by, ending_seen, same_ending, ends_seen, item_reports, reports_of};
ghost use Rattle.alpha_replay.specs.Replay.{replayed, Replays};

use crate::play::play_items;
use crate::{Ending, Item, Journal, ReplayFault};
use alpha_image::Image;
use alpha_imprecise::Wild;
use alpha_io::SureSource;
use alpha_seq::{End, Event, Machine};
use alpha_words::{Completion, RegSet};
use std::alloc::Global;

/// What the run of a journal is.
#[derive(Clone, Copy, Debug, PartialEq, Eq)]
pub struct Replayed {
    /// How many units it uses: steps with nothing pending.
    pub units: u64,
    /// How many traps are reported.
    pub reports: u64,
}

impl Ending {
    // How a run ends, by its last step.
    pub(crate) fn of_event(event: &Event) -> Ending
        ensures value { result ≡ ending_seen event.now }
        ensures fits { FitsEnding result }
    {
        match *event {
            Event::Ended(end) => Ending::of_end(end),
            Event::Lost(pc, mask) => Ending::of_lost(pc, mask),
            Event::Went
            | Event::Barrier(_)
            | Event::Overflowed(_)
            | Event::Triggered(_)
            | Event::Waited(_)
            | Event::Reported(_) => Ending::Spent,
        }
    }

    // How a program ends.
    fn of_end(end: End) -> Ending
        ensures value { result ≡ ending_by end }
        ensures fits { FitsEnding result }
    {
        match end {
            End::Exit(value) => Ending::Exit(value),
            End::Signal { code, pc } => Ending::Signal {
                code: u64::from(code),
                pc,
            },
            End::Fetch { pc } => Ending::Fetch { pc },
            End::Access { pc, addr } => Ending::Access { pc, addr },
            End::Align { pc, addr } => Ending::Align { pc, addr },
            End::Overflow { pc } => Ending::Overflow { pc },
        }
    }

    // A trap that is lost.
    #[inline(always)]
    fn of_lost(pc: u64, mask: RegSet) -> Ending
        ensures value { result ≡ Ending.Lost pc mask }
        ensures fits { FitsEnding result }
    {
        Ending::Lost {
            pc,
            mask: u64::from(mask.bits()),
        }
    }

    // Whether it has the same kind and the same numbers.
    fn is_same(&self, other: &Ending) -> bool
        ensures { result ≡ same_ending self.now other.now }
    {
        self.kind() == other.kind()
            && self.first() == other.first()
            && self.second() == other.second()
    }
}

// Whether a run ends so, by its last step and by whether nothing is pending.
fn ends_as(ending: &Ending, last: &Event, no_pending: bool) -> bool
    ensures { result ≡ ends_seen ending.now last.now no_pending }
{
    let settled = last.is_over() || no_pending;
    ending.is_same(&Ending::of_event(last)) && settled
}

// Whether nothing is pending.
fn has_no_pending(wild: &Wild) -> bool
    ensures { result ≡ is_none (trap_in wild.now.pending) }
{
    wild.pending().is_none()
}

// How many units items use.
fn units_of(items: &[Item]) -> u64
    requires few { length items.now ≤ most_items }
    ensures value { result ≡ units_of items.now }
{
    let mut units = 0;
    for item in items {
        units += u64::from(item.units());
    }
    units
}

impl Item {
    // How many reports it lists.
    fn reports(&self) -> u64
        ensures value { result ≡ item_reports self.now }
        ensures bound { result ≤ 1 }
    {
        match self {
            Item::Report => 1,
            Item::Units(_) | Item::Trigger(_) | Item::Wait { .. } => 0,
        }
    }
}

// How many reports items list.
fn reports_of(items: &[Item]) -> u64
    requires few { length items.now ≤ most_items }
    ensures value { result ≡ reports_of items.now }
{
    let mut reports = 0;
    for item in items {
        reports += item.reports();
    }
    reports
}

// The machine at the start of the image's program.
fn machine_at_start(
    alloc: Global,
    image: Image,
    completion: Completion,
) -> Result<Wild, ReplayFault>
    ensures fresh { IfOk result IsFresh }
    ensures program { IfOk result (λ wild. program_of wild.machine
        ≡ record { image = image; completion = completion }) }
    ensures memory { IfErr result (λ e. e ≡ ReplayFault.NoMemory) }
{
    match Machine::new(alloc, image, completion) {
        Ok(machine) => {
            let wild = Wild::with_rows(alloc, machine);
            Ok(wild)
        }
        Err(_) => Err(ReplayFault::NoMemory),
    }
}

// Plays all items from the start, and then compares output, end and input.
fn play_all(
    wild: &mut Wild,
    input: &mut SureSource,
    output: &[u8],
    items: &[Item],
    ending: &Ending,
) -> Result<Replayed, ReplayFault>
    requires few_items { length items.now ≤ most_items }
    ensures { (image : Image) (completion : Completion)
        → Begins (record { image = image; completion = completion }) wild.old
        → result ≡ replayed image (parts completion ending.now input.old.left output.now items.now) }
{
    let stand = match play_items(wild, input, output, items) {
        Ok(stand) => stand,
        Err(n) => return Err(ReplayFault::Item(n)),
    };
    if let Some(at) = stand.seen.difference(output) {
        return Err(ReplayFault::Output(at));
    }
    if !ends_as(ending, &stand.last, has_no_pending(wild)) {
        return Err(ReplayFault::End);
    }
    let left = input.rest().len();
    if left != 0 {
        return Err(ReplayFault::Input(left as u64));
    }
    Ok(Replayed {
        units: units_of(items),
        reports: reports_of(items),
    })
}

/// Replays a journal on an image: plays its items from the start of the image's program, over the
/// journal's input, and answers whether they are steps of the imprecise machine that put the journal's
/// output, end as it says and take its whole input. The memory that it needs is taken before the first step: that of a
/// machine, and of the input.
///
/// # Errors
///
/// The first fault, in the order that [`ReplayFault`] has. Where memory runs out nothing is said of the
/// journal.
pub fn replay(alloc: Global, image: Image, journal: &Journal) -> Result<Replayed, ReplayFault>
    ensures { Replays result (replayed image journal.now) }
{
    let Ok(input) = Vec::from_slice(alloc, journal.input()) else {
        return Err(ReplayFault::NoMemory);
    };
    let mut input = SureSource::new(input);
    match machine_at_start(alloc, image, journal.completion()) {
        Ok(mut wild) => play_all(
            &mut wild,
            &mut input,
            journal.output(),
            journal.items(),
            &journal.ending(),
        ),
        Err(fault) => Err(fault),
    }
}
