//! What is gathered of a run while it is made.

ghost use Rattle.std.specs.Prelude.{◌≡◌, ◌≤◌, ◌++◌, [], length, vec_capacity, nat_le, true, false, IfOk};
ghost use Rattle.alpha_replay.specs.Journal.{most_bytes, parts};
ghost use Rattle.alpha_replay.specs.Endings.{FitsEnding};
ghost use Rattle.alpha_replay.specs.Items.{FitsItem, is_units};
ghost use Rattle.alpha_replay.specs.GatheredItems.{no_moves, closed, closed_by, with_item, gathered_by};
ghost use Rattle.alpha_replay.specs.BuilderState.{bytes_kept, has_room, kept, room_of, builder_after, builder_fits};
ghost use Rattle.alpha_replay.specs.BuilderState.{builder_state, built_by, builder_ones};

use crate::journal_header::{MOST_BYTES, MOST_ITEMS};
use crate::passed::{bytes_put, bytes_taken};
use crate::read::MOST_UNITS;
use crate::{Ending, Item, Journal, Move};
use alpha_seq::{Event, Machine};
use alpha_words::{Completion, NoMemory};
use std::alloc::Global;
use std::marker::Model;

/// The bytes that a run has taken and put so far, and its moves: no more than a journal may have. All of its
/// memory is taken at the beginning.
#[derive(Debug, Drop)]
pub(crate) struct JournalBuilder {
    input: Vec<u8>,
    output: Vec<u8>,
    items: Vec<Item>,
    ones: u32,
    units: u32,
}

impl Model for JournalBuilder {
    ghost use Rattle.alpha_replay.specs.BuilderState.{BuilderState};

    ghost Value = { BuilderState };

    ghost use Rattle.alpha_replay.specs.BuilderState.{builder_in, IsBuilder};

    ghost view = { builder_in };

    ghost invariant = { IsBuilder };
}

impl JournalBuilder {
    /// Nothing was taken, put or moved.
    pub fn new(alloc: Global) -> Result<JournalBuilder, NoMemory>
        ensures { IfOk result (λ tape. tape ≡ builder_state [] [] no_moves) }
    {
        let input = Vec::with_capacity(alloc, MOST_BYTES as usize)?;
        let output = Vec::with_capacity(alloc, MOST_BYTES as usize)?;
        let items = Vec::with_capacity(alloc, MOST_ITEMS as usize)?;
        Ok(JournalBuilder {
            input,
            output,
            items,
            ones: 0,
            units: 0,
        })
    }

    /// Notes a step, by how it went and the machine behind it, and answers whether all of it fits. What doesn't is
    /// not noted.
    #[inline(always)]
    pub fn note_step(&mut self, event: &Event, machine: &Machine) -> bool
        ensures value { result ≡ builder_fits (built_by self.old event.now machine.now) }
        ensures state { self.new ≡ builder_after self.old event.now machine.now }
    {
        let taken = self.push_input(bytes_taken(event, machine));
        let put = self.push_output(bytes_put(event, machine));
        let noted = self.note(Move::of(event));
        taken && put && noted
    }

    // Notes bytes that were taken, and answers whether it did. Where that would be too many it notes
    // none of them.
    #[inline(always)]
    fn push_input(&mut self, bytes: &[u8]) -> bool
        ensures value { result ≡ nat_le (length (self.old.taken ++ bytes.now)) most_bytes }
        ensures state { self.new ≡ record self.old { taken = bytes_kept self.old.taken bytes.now } }
    {
        if MOST_BYTES as usize - self.input.len() < bytes.len() {
            return false;
        }
        self.input.extend_from_slice(bytes).is_ok()
    }

    // Notes bytes that were put, and answers whether it did. Where that would be too many it notes none
    // of them.
    #[inline(always)]
    fn push_output(&mut self, bytes: &[u8]) -> bool
        ensures value { result ≡ nat_le (length (self.old.put ++ bytes.now)) most_bytes }
        ensures state { self.new ≡ record self.old { put = bytes_kept self.old.put bytes.now } }
    {
        if MOST_BYTES as usize - self.output.len() < bytes.len() {
            return false;
        }
        self.output.extend_from_slice(bytes).is_ok()
    }

    // Notes a move, and answers whether it did. Where that would be too many items or units it notes
    // nothing of it.
    #[inline(always)]
    fn note(&mut self, step: Move) -> bool
        ensures value { result ≡ has_room (gathered_by self.old.gathered step) }
        ensures state { self.new
            ≡ record self.old { gathered = kept self.old.gathered (gathered_by self.old.gathered step) } }
    {
        match step {
            Move::One => self.push_unit(),
            Move::Trips(value) => self.note_item(Item::Trigger(value)),
            Move::Waits { adds, value } => self.note_item(Item::Wait { adds, value }),
            Move::Reports => self.note_item(Item::Report),
        }
    }

    // Notes a step with nothing pending that doesn't overflow, and answers whether it did. It doesn't
    // where that would be too many items or units.
    #[inline(always)]
    fn push_unit(&mut self) -> bool
        ensures value { result ≡ has_room (gathered_by self.old.gathered Move.One) }
        ensures state { self.new
            ≡ record self.old { gathered = kept self.old.gathered (gathered_by self.old.gathered Move.One) } }
    {
        let full = self.ones == 0 && self.items.len() == MOST_ITEMS as usize;
        if full || self.units == MOST_UNITS {
            return false;
        }
        self.ones += 1;
        self.units += 1;
        true
    }

    /// How many steps with nothing pending that don't overflow can be noted.
    #[inline(always)]
    pub fn room(&self) -> u64
        ensures { result ≡ room_of self.now }
    {
        if self.ones == 0 && self.items.len() == MOST_ITEMS as usize {
            return 0;
        }
        u64::from(MOST_UNITS - self.units)
    }

    /// Notes so many such steps.
    #[inline(always)]
    pub fn note_ones(&mut self, count: u64)
        requires { count ≤ room_of self.old }
        ensures value { self.new ≡ builder_ones self.old count }
        ensures within { builder_fits self.old ≡ true }
    {
        let count = count as u32;
        self.ones += count;
        self.units += count;
    }
}

impl JournalBuilder {
    // Notes an item that is no Units, behind the steps that are no item yet, and answers whether it did.
    // It doesn't where that would be too many items or units.
    fn note_item(&mut self, item: Item) -> bool
        requires fits { FitsItem item }
        requires other { is_units item ≡ false }
        ensures value { result ≡ has_room (with_item self.old.gathered item) }
        ensures state { self.new
            ≡ record self.old { gathered = kept self.old.gathered (with_item self.old.gathered item) } }
    {
        let closed = closed_len(&self.items, self.ones);
        if closed == MOST_ITEMS as usize || MOST_UNITS - self.units < item.units() {
            return false;
        }
        close(&mut self.items, self.ones);
        self.ones = 0;
        self.items.push_reserved(item);
        self.units += item.units();
        true
    }

    /// The journal of what was gathered, of a run with this end.
    pub fn journal(self, completion: Completion, ending: Ending) -> Journal
        requires { FitsEnding ending }
        ensures { result ≡ parts completion ending self.taken self.put (closed self.gathered) }
    {
        let JournalBuilder {
            input,
            output,
            mut items,
            ones,
            units: _,
        } = self;
        close(&mut items, ones);
        Journal::of_parts(completion, ending, input, output, items)
    }
}

// Appends the steps that are no item yet as one Units, if there are any.
#[inline(always)]
fn close(items: &mut Vec<Item>, ones: u32)
    requires { length (closed_by items.old.items ones) ≤ vec_capacity items.old }
    ensures items { items.new.items ≡ closed_by items.old.items ones }
    ensures capacity { vec_capacity items.new ≡ vec_capacity items.old }
{
    if ones != 0 {
        items.push_reserved(Item::Units(ones));
    }
}

// How many items there are once the steps that are no item yet are one.
#[inline(always)]
fn closed_len(items: &Vec<Item>, ones: u32) -> usize
    ensures { result ≡ length (closed_by items.now.items ones) }
{
    if ones == 0 {
        items.len()
    } else {
        items.len() + 1
    }
}
