ghost use Rattle.std.specs.Prelude.{◌≡◌, ◌≢◌, ◌<◌, ◌+◌, ◌⊎◌, ℕ, List, [], Some, length};
ghost use Rattle.alpha_table.specs.declared.columns.InsnKind.TheVariants as kinds;
ghost use Rattle.alpha_shadow.specs.Code.{kind_at};
ghost use Rattle.alpha_shadow.specs.Columns.{HasColumns};
ghost use Rattle.alpha_shadow.specs.Least.{condition_number};
ghost use Rattle.alpha_shadow.specs.Window.{Summarizes, IsUnbroken, open_triggers};
ghost use Rattle.alpha_shadow.specs.Place.{IsFirstBroken, IsLeastUpTo};

use crate::columns::Columns;
use crate::loads::Reach;
use crate::window::Window;
use crate::{Broken, Condition};
use alpha_table::InsnKind;
use alpha_words::Reg;

/// The longest shadow that is accepted: how many words may follow the trigger before a barrier.
const LONGEST: u64 = 1024;

/// The least broken place at the next word, where nothing before it is broken: the least trigger,
/// and then the least condition.
#[inline(always)]
pub(crate) fn broken_at(window: &Window, at: u32, word: &Columns) -> Option<Broken>
    ensures { (code : List ℕ) → Summarizes code window.now at → IsUnbroken code at
        → HasColumns code at word.now → IsLeastUpTo code at 9 result }
{
    let found = match word.kind {
        InsnKind::Barrier => return None,
        InsnKind::Trigger => broken_by_trigger(window, at, word),
        InsnKind::Plain => broken_by_register(window, at, word),
        InsnKind::Turn => broken_by_turn(window, at, word),
        InsnKind::Load | InsnKind::Store | InsnKind::Locked => broken_by_access(window, at, word),
    };
    lesser_broken(found, at, Condition::Long, long_shadow(window, at))
}

/// The least broken place at a trigger, where no shadow is open: it may break its own alone.
#[inline(always)]
pub(crate) fn broken_alone(at: u32, word: &Columns) -> Option<Broken>
    requires { word.now.kind ≡ kinds.Trigger }
    ensures { (code : List ℕ) → open_triggers code at ≡ [] → HasColumns code at word.now
        → IsLeastUpTo code at 9 result }
{
    let found = lesser_broken(
        None,
        at,
        Condition::ZeroDestination,
        zero_destination(at, word),
    );
    lesser_broken(
        found,
        at,
        Condition::SourceLost,
        source_lost_at_once(at, word),
    )
}

// The least broken place at a trigger, but for C9.
fn broken_by_trigger(window: &Window, at: u32, word: &Columns) -> Option<Broken>
    requires { word.now.kind ≡ kinds.Trigger }
    ensures { (code : List ℕ) → Summarizes code window.now at → IsUnbroken code at
        → HasColumns code at word.now → IsLeastUpTo code at 8 result }
{
    let found = lesser_broken(
        None,
        at,
        Condition::ZeroDestination,
        zero_destination(at, word),
    );
    let found = lesser_broken(
        found,
        at,
        Condition::SourceLost,
        source_lost(window, at, word),
    );
    let same = window.first_with_destination(word.destination());
    lesser_broken(found, at, Condition::SameDestination, same)
}

// The least broken place at a plain word.
fn broken_by_register(window: &Window, at: u32, word: &Columns) -> Option<Broken>
    requires { word.now.kind ≡ kinds.Plain }
    ensures { (code : List ℕ) → Summarizes code window.now at → IsUnbroken code at
        → HasColumns code at word.now → IsLeastUpTo code at 8 result }
{
    broken_by_set(window, at, word)
}

// The least broken place at a branch or a jump.
fn broken_by_turn(window: &Window, at: u32, word: &Columns) -> Option<Broken>
    requires { word.now.kind ≡ kinds.Turn }
    ensures { (code : List ℕ) → Summarizes code window.now at → IsUnbroken code at
        → HasColumns code at word.now → IsLeastUpTo code at 8 result }
{
    let found = broken_by_set(window, at, word);
    lesser_broken(found, at, Condition::Turn, window.first())
}

// The least broken place at a word that makes an access.
fn broken_by_access(window: &Window, at: u32, word: &Columns) -> Option<Broken>
    requires { (word.now.kind ≡ kinds.Load) ⊎ (word.now.kind ≡ kinds.Store)
        ⊎ (word.now.kind ≡ kinds.Locked) }
    ensures { (code : List ℕ) → Summarizes code window.now at → IsUnbroken code at
        → HasColumns code at word.now → IsLeastUpTo code at 8 result }
{
    let found = broken_by_set(window, at, word);
    let found = lesser_broken(found, at, Condition::WildBase, wild_base(window, word));
    let found = lesser_broken(
        found,
        at,
        Condition::LoadThenStore,
        load_then_store(window, word),
    );
    lesser_broken(found, at, Condition::Locked, locked_access(window, word))
}

// The least broken place under the first three conditions, at a word that is no trigger.
fn broken_by_set(window: &Window, at: u32, word: &Columns) -> Option<Broken>
    requires { word.now.kind ≢ kinds.Trigger }
    ensures { (code : List ℕ) → Summarizes code window.now at → IsUnbroken code at
        → HasColumns code at word.now → IsLeastUpTo code at 3 result }
{
    lesser_broken(
        None,
        at,
        Condition::SourceLost,
        source_lost(window, at, word),
    )
}

// The lesser of what was found and of the first trigger under the next condition.
fn lesser_broken(
    found: Option<Broken>,
    at: u32,
    condition: Condition,
    trigger: Option<u32>,
) -> Option<Broken>
    ensures { (code : List ℕ) (n : ℕ) → condition_number condition ≡ n + 1
        → IsLeastUpTo code at n found → IsFirstBroken code at condition trigger
        → IsLeastUpTo code at (n + 1) result }
{
    let Some(trigger) = trigger else {
        return found;
    };
    match found {
        Some(broken) if broken.trigger <= trigger => found,
        _ => Some(Broken {
            trigger,
            at,
            condition,
        }),
    }
}

// Each of these is the first trigger for which the next place is broken under one condition.

fn zero_destination(at: u32, word: &Columns) -> Option<u32>
    requires { word.now.kind ≡ kinds.Trigger }
    ensures { (code : List ℕ) → HasColumns code at word.now
        → IsFirstBroken code at Condition.ZeroDestination result }
{
    if word.destination() == Reg::ZERO {
        Some(at)
    } else {
        None
    }
}

// Where no shadow is open, a trigger loses a source only by setting it.
fn source_lost_at_once(at: u32, word: &Columns) -> Option<u32>
    requires { word.now.kind ≡ kinds.Trigger }
    ensures { (code : List ℕ) → open_triggers code at ≡ [] → HasColumns code at word.now
        → IsFirstBroken code at Condition.SourceLost result }
{
    let r = word.sets?;
    if word.uses.has(r) { Some(at) } else { None }
}

// A register that the word sets is lost for the triggers after the last word that set it, and not
// after the last word that used it: an earlier use of it would have been lost there.
fn source_lost(window: &Window, at: u32, word: &Columns) -> Option<u32>
    ensures { (code : List ℕ) → Summarizes code window.now at → IsUnbroken code at
        → HasColumns code at word.now → IsFirstBroken code at Condition.SourceLost result }
{
    let r = word.sets?;
    let unset = window.set.end(r);
    if !word.uses.has(r) {
        return window.first_within(unset, window.used.end(r));
    }
    let first = window.first_within(unset, at);
    if word.kind == InsnKind::Trigger {
        first.or(Some(at))
    } else {
        first
    }
}

fn wild_base(window: &Window, word: &Columns) -> Option<u32>
    ensures { (code : List ℕ) (at : ℕ) → Summarizes code window.now at → HasColumns code at word.now
        → IsFirstBroken code at Condition.WildBase result }
{
    let access = word.access()?;
    let first = window.first()?;
    if first < window.set.end(access.base) {
        Some(first)
    } else {
        None
    }
}

fn load_then_store(window: &Window, word: &Columns) -> Option<u32>
    ensures { (code : List ℕ) (at : ℕ) → Summarizes code window.now at → HasColumns code at word.now
        → IsFirstBroken code at Condition.LoadThenStore result }
{
    let store = word.access()?;
    if word.kind == InsnKind::Store {
        window.first_with_load_that_may_meet(&Reach::of(&store))
    } else {
        None
    }
}

fn locked_access(window: &Window, word: &Columns) -> Option<u32>
    ensures { (code : List ℕ) (at : ℕ) → Summarizes code window.now at → HasColumns code at word.now
        → IsFirstBroken code at Condition.Locked result }
{
    if word.kind == InsnKind::Locked {
        window.first()
    } else {
        None
    }
}

fn long_shadow(window: &Window, at: u32) -> Option<u32>
    ensures { (code : List ℕ) → Summarizes code window.now at → IsUnbroken code at
        → at < length code → kind_at code at ≢ Some kinds.Barrier
        → IsFirstBroken code at Condition.Long result }
{
    let first = window.first()?;
    if u64::from(first) + LONGEST < u64::from(at) {
        Some(first)
    } else {
        None
    }
}
