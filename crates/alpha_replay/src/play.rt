//! The items of a journal, played on the machine.

ghost use Rattle.std.specs.Prelude.{◌≡◌, ◌≤◌, true, length, IfSome, IfNone, IfOk, IfErr};
ghost use Rattle.alpha_imprecise.specs.ImpreciseFastSteps.{ImprecisePassingSteps};
ghost use Rattle.alpha_seq.specs.StepLabel.{is_over};
ghost use Rattle.alpha_replay.specs.Journal.{most_items};
ghost use Rattle.alpha_replay.specs.Listed.{move as moved, units as units_made, item as item_made};
ghost use Rattle.alpha_replay.specs.ReplayEffect.{ReplayEffect, Fails, Moved, Plays, StopsAt, first_cursor, place};
ghost use Rattle.alpha_replay.specs.CursorState.{cursor_after};

use crate::compare::Compared;
use crate::fixed_choice::FixedChoice;
use crate::passed::bytes_put;
use crate::{Item, Move};
use alpha_imprecise::Wild;
use alpha_io::{NullSink, SureSource};
use alpha_seq::Event;

/// How the last step went, and what was seen of the output.
#[derive(Clone, Copy, Debug)]
pub(crate) struct Cursor {
    /// How the last step went, `Went` too where it passed a barrier in a row of steps: neither ends the run.
    pub(crate) last: Event,
    /// What was seen of the output.
    pub(crate) seen: Compared,
}

impl Cursor {
    /// Before the first step.
    pub(crate) const START: Cursor = Cursor {
        last: Event::Went,
        seen: Compared::NOTHING,
    };
}

// Makes a step by the choices of a move. No device fails.
#[inline(always)]
fn step(wild: &mut Wild, input: &mut SureSource, m: &Move) -> Event
    ensures { Moved m.now result wild.old wild.new input.old.left input.new.left }
{
    match wild.step_by(&mut FixedChoice { step: *m }, input, &mut NullSink::new()) {
        Ok(event) => event,
        Err(_) => unreachable!(),
    }
}

// Makes a move, by a step of the machine, `None` where it is impossible: the step that was made was another move.
#[inline(always)]
fn make_move(
    wild: &mut Wild,
    input: &mut SureSource,
    expected: &[u8],
    from: &Cursor,
    m: &Move,
) -> Option<Cursor>
    requires { from.now.seen.at ≤ length expected.now }
    ensures made { IfSome result (λ to. ReplayEffect expected.now (λ g p. moved g p m.now)
        (place wild.old input.old.left from.now) (place wild.new input.new.left to)) }
    ensures bound { IfSome result (λ to. to.seen.at ≤ length expected.now) }
    ensures refused { IfNone result (Fails (λ g p. moved g p m.now)
        (place wild.old input.old.left from.now)) }
{
    if from.last.is_over() {
        return None;
    }
    let last = step(wild, input, m);
    if Move::of(&last) != *m {
        return None;
    }
    let seen = from.seen.with(bytes_put(&last, wild.machine()), expected);
    Some(Cursor { last, seen })
}

// Makes so many steps with nothing pending that don't overflow, `None` where one of them is impossible.
fn make_units(
    wild: &mut Wild,
    input: &mut SureSource,
    expected: &[u8],
    from: &Cursor,
    units: u32,
) -> Option<Cursor>
    requires { from.now.seen.at ≤ length expected.now }
    ensures made { IfSome result (λ to. ReplayEffect expected.now (λ g p. units_made g units p)
        (place wild.old input.old.left from.now) (place wild.new input.new.left to)) }
    ensures bound { IfSome result (λ to. to.seen.at ≤ length expected.now) }
    ensures refused { IfNone result (Fails (λ g p. units_made g units p)
        (place wild.old input.old.left from.now)) }
{
    let mut stand = *from;
    let mut left = units - run_fast(wild, &mut stand, units);
    'moves: while left != 0 {
        match make_move(wild, input, expected, &stand, &Move::One) {
            Some(to) => stand = to,
            None => return None,
        }
        left -= 1;
        left -= run_fast(wild, &mut stand, left);
    }
    Some(stand)
}

// Makes such steps as long as each only goes on or passes a barrier that is no PAL call, so many at most, and answers
// how many it made. They put nothing. It may stop early: what the next step does is what `make_move` says.
#[inline(always)]
fn run_fast(wild: &mut Wild, cursor: &mut Cursor, units: u32) -> u32
    ensures most { result ≤ units }
    ensures went { ImprecisePassingSteps true result wild.old wild.new }
    ensures stand { cursor.new ≡ cursor_after cursor.old result }
    ensures over { is_over cursor.old.last ≡ true → result ≡ 0 }
{
    if cursor.last.is_over() {
        return 0;
    }
    let made = wild.run_on(u64::from(units), true) as u32;
    if made != 0 {
        cursor.last = Event::Went;
    }
    made
}

// Makes the moves of an item, `None` where one of them is impossible.
fn play_item(
    wild: &mut Wild,
    input: &mut SureSource,
    expected: &[u8],
    from: &Cursor,
    item: &Item,
) -> Option<Cursor>
    requires { from.now.seen.at ≤ length expected.now }
    ensures made { IfSome result (λ to. ReplayEffect expected.now (λ g p. item_made g item.now p)
        (place wild.old input.old.left from.now) (place wild.new input.new.left to)) }
    ensures bound { IfSome result (λ to. to.seen.at ≤ length expected.now) }
    ensures refused { IfNone result (Fails (λ g p. item_made g item.now p)
        (place wild.old input.old.left from.now)) }
{
    match *item {
        Item::Units(units) => make_units(wild, input, expected, from, units),
        Item::Trigger(value) => make_move(wild, input, expected, from, &Move::Trips(value)),
        Item::Wait { adds, value } => {
            make_move(wild, input, expected, from, &Move::Waits { adds, value })
        }
        Item::Report => make_move(wild, input, expected, from, &Move::Reports),
    }
}

/// Plays items, or answers the number of the first that is impossible.
pub(crate) fn play_items(
    wild: &mut Wild,
    input: &mut SureSource,
    expected: &[u8],
    items: &[Item],
) -> Result<Cursor, u32>
    requires { length items.now ≤ most_items }
    ensures played { IfOk result (λ to. Plays expected.now items.now (length items.now)
        (place wild.old input.old.left first_cursor) (place wild.new input.new.left to)) }
    ensures bound { IfOk result (λ to. to.seen.at ≤ length expected.now) }
    ensures refused { IfErr result (λ n. StopsAt items.now n
        (place wild.old input.old.left first_cursor)) }
{
    let mut stand = Cursor::START;
    let mut n = 0;
    for item in items {
        match play_item(wild, input, expected, &stand, item) {
            Some(to) => stand = to,
            None => return Err(n),
        }
        n += 1;
    }
    Ok(stand)
}
