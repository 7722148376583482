ghost use Rattle.std.specs.Prelude.{◌≡◌, ◌≤◌, ◌<◌, ◌+◌, ◌-◌, ◌^◌, ℕ, List, [], length, OnOk, IfErr, IfNone};
ghost use Rattle.alpha_table.specs.declared.columns.InsnKind.TheVariants as kinds;
ghost use Rattle.alpha_table.specs.Columns.{kind_of};
ghost use Rattle.alpha_shadow.specs.Broken.{IsAccepted};
ghost use Rattle.alpha_shadow.specs.Least.{IsLeastBroken};
ghost use Rattle.alpha_shadow.specs.Place.{IsLeastUpTo};
ghost use Rattle.alpha_shadow.specs.NoTrigger.{IsInsnAt};
ghost use Rattle.alpha_shadow.specs.Window.{Summarizes, IsUnbroken};

use crate::columns::Columns;
use crate::place::{broken_alone, broken_at};
use crate::window::Window;
use crate::{Broken, Condition, Fetch, NextTrigger};
use alpha_table::InsnKind;

/// The verdict on the code, which may survive late traps even where it is refused: `Ok` exactly
/// where no place is broken, else the least broken place, by its place, then by its trigger, then
/// by its condition (Architecture Handbook, arithmetic trap completion).
///
/// It looks at each word once at most, and takes no memory.
pub fn judge<F: Fetch>(code: &mut F) -> Result<(), Broken>
    ensures accepted { OnOk result (IsAccepted (F.code code.old)) }
    ensures broken { IfErr result (IsLeastBroken (F.code code.old)) }
    ensures code { F.code code.new ≡ F.code code.old }
    ensures fetches { F.fetches code.new ≤ F.fetches code.old + length (F.code code.old) }
{
    judge_by(&mut Window::empty(), code)
}

/// A checker that judges one code after another. It has room for what it knows of the words before a
/// place, so that a verdict on few words costs no more than these.
#[derive(Drop)]
pub struct Checker {
    window: Window,
}

impl Checker {
    /// A checker.
    pub fn new() -> Checker {
        Checker {
            window: Window::empty(),
        }
    }

    /// The verdict on the code, as [`judge`] gives it.
    pub fn judge<F: Fetch>(&mut self, code: &mut F) -> Result<(), Broken>
        ensures accepted { OnOk result (IsAccepted (F.code code.old)) }
        ensures broken { IfErr result (IsLeastBroken (F.code code.old)) }
        ensures code { F.code code.new ≡ F.code code.old }
        ensures fetches { F.fetches code.new ≤ F.fetches code.old + length (F.code code.old) }
    {
        self.window.begin();
        judge_by(&mut self.window, code)
    }
}

// The verdict, by a window that knows what is known before the first word. All callers share it, so that it is the one
// place that what a word takes is a part of.
#[inline(never)]
fn judge_by<F: Fetch>(window: &mut Window, code: &mut F) -> Result<(), Broken>
    requires { Summarizes (F.code code.old) window.old 0 }
    ensures accepted { OnOk result (IsAccepted (F.code code.old)) }
    ensures broken { IfErr result (IsLeastBroken (F.code code.old)) }
    ensures code { F.code code.new ≡ F.code code.old }
    ensures fetches { F.fetches code.new ≤ F.fetches code.old + length (F.code code.old) }
{
    let words = code.words();
    let mut at = 0;
    // No shadow is open at `at`.
    'quiet: loop {
        let Some(next) = code.next_trigger(at) else {
            return Ok(());
        };
        if let Some(broken) = open_shadow(window, &next) {
            return Err(broken);
        }
        for place in next.place + 1..words {
            let columns = Columns::of(code.insn(place));
            if columns.kind == InsnKind::Barrier {
                window.close();
                at = place + 1;
                continue 'quiet;
            }
            if let Some(broken) = broken_at(window, place, &columns) {
                return Err(broken);
            }
            window.pass(place, &columns);
        }
        break;
    }
    match window.first() {
        None => Ok(()),
        Some(trigger) => Err(Broken {
            trigger,
            at: words,
            condition: Condition::Open,
        }),
    }
}

// Opens the shadow of a trigger, where none is open, unless the trigger itself breaks it.
#[inline(always)]
fn open_shadow(window: &mut Window, next: &NextTrigger) -> Option<Broken>
    requires none { window.old.triggers.items ≡ [] }
    requires bound { next.now.place < 2 ^ 32 - 1 }
    requires trigger { kind_of next.now.insn ≡ kinds.Trigger }
    ensures found { (code : List ℕ) → Summarizes code window.old next.now.place
        → IsUnbroken code next.now.place → IsInsnAt code next.now.place next.now.insn
        → IsLeastUpTo code next.now.place 9 result }
    ensures none { IfNone result ((code : List ℕ) → Summarizes code window.old next.now.place
        → IsInsnAt code next.now.place next.now.insn
        → Summarizes code window.new (next.now.place + 1)) }
{
    let columns = Columns::of_trigger(next.insn);
    let broken = broken_alone(next.place, &columns);
    if broken.is_none() {
        window.pass(next.place, &columns);
    }
    broken
}
