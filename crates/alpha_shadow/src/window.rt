ghost use Rattle.std.specs.Prelude.{◌≡◌, ◌≢◌, ◌<◌, ◌+◌, ◌-◌, ◌^◌, ◌↔◌, ◌⊎◌, ◌==◌, ℕ, List, [], IsTrue, None, find};
ghost use Rattle.std.specs.Prelude.{slice_get};
ghost use Rattle.std.specs.Option.{option_map};
ghost use Rattle.std.specs.List.{Any};
ghost use Rattle.alpha_table.specs.declared.columns.InsnKind.TheVariants as kinds;
ghost use Rattle.alpha_table.specs.Columns.{kind_of};
ghost use Rattle.alpha_shadow.specs.Code.{Sets, Uses};
ghost use Rattle.alpha_shadow.specs.Columns.{HasColumns};
ghost use Rattle.alpha_shadow.specs.Window.{Summarizes, HasRoom, Notes, place_of, stands_within};
ghost use Rattle.alpha_shadow.specs.Reach.{MayTouch};

use crate::columns::Columns;
use crate::last::LastPlaces;
use crate::loads::{Loads, Reach};
use crate::triggers::{Trigger, Triggers};
use alpha_table::InsnKind;
use alpha_words::Reg;

/// What is known of the words before a place: the triggers whose shadows reach it, in order, the
/// loads after the first of them, and for each register the last word that set it and the last that
/// used it. The last two speak of the words of these shadows alone, and no barrier clears them.
#[derive(Drop)]
pub(crate) struct Window {
    pub(crate) triggers: Triggers,
    pub(crate) loads: Loads,
    pub(crate) set: LastPlaces,
    pub(crate) used: LastPlaces,
}

impl Window {
    /// What is known before the first word.
    pub(crate) fn empty() -> Window
        ensures { (code : List ℕ) → Summarizes code result 0 }
    {
        Window {
            triggers: Triggers::empty(),
            loads: Loads::empty(),
            set: LastPlaces::empty(),
            used: LastPlaces::empty(),
        }
    }

    /// Goes on before the first word of other code.
    pub(crate) fn begin(&mut self)
        ensures { (code : List ℕ) → Summarizes code self.new 0 }
    {
        self.close();
        self.set = LastPlaces::empty();
        self.used = LastPlaces::empty();
    }

    /// The first trigger whose shadow reaches the place.
    pub(crate) fn first(&self) -> Option<u32>
        ensures { result ≡ option_map place_of (slice_get self.now.triggers.items 0) }
    {
        let triggers = self.triggers.as_slice();
        triggers.first().map(|trigger| trigger.place)
    }

    /// The first open trigger at a place in [from, to).
    pub(crate) fn first_within(&self, from: u32, to: u32) -> Option<u32>
        ensures { result ≡ option_map place_of (find (stands_within from to)
            self.now.triggers.items) }
    {
        if to <= from {
            return None;
        }
        self.find_within(from, to)
    }

    // The same for any range, which few words ask for. It stays a function of its own, so that the
    // walk over the words has registers enough.
    #[inline(never)]
    fn find_within(&self, from: u32, to: u32) -> Option<u32>
        ensures { result ≡ option_map place_of (find (stands_within from to)
            self.now.triggers.items) }
    {
        let mut triggers = self.triggers.as_slice().iter();
        triggers
            .find(|t| from <= t.place && t.place < to)
            .map(|t| t.place)
    }

    /// The first open trigger with a destination.
    pub(crate) fn first_with_destination(&self, destination: Reg) -> Option<u32>
        ensures { result ≡ option_map place_of (find (λ t. t.destination == destination)
            self.now.triggers.items) }
    {
        let mut triggers = self.triggers.as_slice().iter();
        triggers
            .find(|t| t.destination == destination)
            .map(|t| t.place)
    }

    /// The first open trigger, where a load after it may touch a byte of a store.
    pub(crate) fn first_with_load_that_may_meet(&self, store: &Reach) -> Option<u32>
        ensures { (Any (λ load. MayTouch load store.now) self.now.loads.items
            × (result ≡ option_map place_of (slice_get self.now.triggers.items 0)))
            ⊎ (¬ Any (λ load. MayTouch load store.now) self.now.loads.items
            × (result ≡ None)) }
    {
        if self.loads.may_meet(store) {
            self.first()
        } else {
            None
        }
    }

    /// Ends every shadow.
    pub(crate) fn close(&mut self)
        ensures triggers { self.new.triggers.items ≡ [] }
        ensures loads { self.new.loads.items ≡ [] }
        ensures set { self.new.set ≡ self.old.set }
        ensures used { self.new.used ≡ self.old.used }
    {
        self.triggers.clear();
        self.loads.clear();
    }

    /// Goes on behind the next word, which breaks no shadow.
    #[inline(always)]
    pub(crate) fn pass(&mut self, place: u32, columns: &Columns)
        requires bound { place < 2 ^ 32 - 1 }
        requires room { HasRoom self.old columns.now.kind }
        ensures { (code : List ℕ) → Summarizes code self.old place
            → HasColumns code place columns.now → ¬ ((self.old.triggers.items ≡ [])
            × (columns.now.kind ≢ kinds.Trigger)) → Summarizes code self.new (place + 1) }
    {
        self.note(place, columns);
        match columns.kind {
            InsnKind::Barrier | InsnKind::Turn => self.close(),
            InsnKind::Trigger => self.triggers.push(Trigger {
                place,
                destination: columns.destination(),
            }),
            InsnKind::Load => {
                if let Some(access) = columns.access() {
                    self.loads.push(Reach::of(&access));
                }
            }
            InsnKind::Plain | InsnKind::Store | InsnKind::Locked => {}
        }
    }

    // Notes what the next word uses and sets.
    fn note(&mut self, place: u32, columns: &Columns)
        requires { place < 2 ^ 32 - 1 }
        ensures triggers { self.new.triggers ≡ self.old.triggers }
        ensures loads { self.new.loads ≡ self.old.loads }
        ensures set { (code : List ℕ) → HasColumns code place columns.now
            → Notes (Sets code place) place self.old.set.ends self.new.set.ends }
        ensures used { (code : List ℕ) → HasColumns code place columns.now
            → Notes (Uses code place) place self.old.used.ends self.new.used.ends }
    {
        self.used.note_all(columns.uses, place);
        if let Some(r) = columns.sets {
            self.set.note(r, place);
        }
    }
}
