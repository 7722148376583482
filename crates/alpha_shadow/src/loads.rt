ghost use Rattle.std.specs.Prelude.{◌≡◌, ◌<◌, ◌↔◌, ◌++◌, ◌∷◌, [], IsTrue, IfSome, length};
ghost use Rattle.std.specs.List.{Any};
ghost use Rattle.alpha_table.specs.Spans.{SpansMeet};
ghost use Rattle.alpha_shadow.specs.OpenLists.{IsAround, IsCover};
ghost use Rattle.alpha_shadow.specs.Reach.{reach_of, MayTouch};

use crate::triggers::MOST;
use alpha_table::{ByteSpan, MemAccess};
use alpha_words::Reg;
use std::marker::Model;

/// The bytes that an access may touch, counted from a base register.
#[derive(Clone, Copy)]
pub(crate) struct Reach {
    pub(crate) base: Reg,
    pub(crate) span: ByteSpan,
}

impl Reach {
    pub(crate) fn of(access: &MemAccess) -> Reach
        ensures { result ≡ reach_of access.now }
    {
        Reach {
            base: access.base,
            span: access.span(),
        }
    }

    /// Whether both may touch a byte: by different bases, or where their spans meet.
    pub(crate) fn may_meet(&self, other: &Reach) -> bool
        ensures { IsTrue result ↔ MayTouch self.now other.now }
    {
        self.base != other.base || self.span.meets(&other.span)
    }

    // A reach around both, if they have one base.
    fn join(&self, other: &Reach) -> Option<Reach>
        ensures first { IfSome result (λ both. IsAround both self.now) }
        ensures second { IfSome result (λ both. IsAround both other.now) }
    {
        if self.base != other.base {
            return None;
        }
        Some(Reach {
            base: self.base,
            span: ByteSpan {
                low: self.span.low.min(other.span.low),
                high: self.span.high.max(other.span.high),
            },
        })
    }
}

/// The loads after the first open trigger, in order. A clause sees the list of them.
#[derive(Drop)]
pub(crate) struct Loads {
    held: [Reach; MOST],
    len: usize,
    // A reach around all of them, if they have one base. A store outside it meets none of them.
    cover: Option<Reach>,
}

impl Model for Loads {
    ghost use Rattle.std.specs.Prelude.{◌≡◌, ◌≤◌, length, take};
    ghost use Rattle.alpha_shadow.specs.declared.triggers.TheConstants.{MOST};
    ghost use Rattle.alpha_shadow.specs.OpenLists.{OpenLoads, IsCover};

    ghost Value = { OpenLoads };

    ghost view = { λ l. record { items = take l.len l.held } };

    ghost invariant = { λ l. (l.len ≤ MOST) × (length l.held ≡ MOST)
        × IsCover l.cover (take l.len l.held) };
}

impl Loads {
    /// No load.
    pub(crate) fn empty() -> Loads
        ensures { result.items ≡ [] }
    {
        let blank = Reach {
            base: Reg::ZERO,
            span: ByteSpan { low: 0, high: 0 },
        };
        Loads {
            held: [blank; MOST],
            len: 0,
            cover: None,
        }
    }

    /// Adds one behind the others.
    pub(crate) fn push(&mut self, load: Reach)
        requires { length self.old.items < MOST }
        ensures { self.new.items ≡ self.old.items ++ load ∷ [] }
    {
        let cover = self.cover_with(&load);
        self.cover = cover;
        self.held[self.len] = load;
        self.len += 1;
    }

    /// Leaves none, whatever stands in the array.
    pub(crate) fn clear(&mut self)
        ensures { self.new.items ≡ [] }
    {
        self.len = 0;
    }

    /// Whether a load may touch a byte of a store.
    pub(crate) fn may_meet(&self, store: &Reach) -> bool
        ensures { IsTrue result ↔ Any (λ load. MayTouch load store.now) self.now.items }
    {
        match self.cover {
            Some(cover) if cover.base == store.base => {
                cover.span.meets(&store.span) && self.any_meets(&store.span)
            }
            _ => self.any_may_meet(store),
        }
    }

    // Whether the span of a load meets a span. The walks over all loads stay functions of their own,
    // so that they have registers enough.
    #[inline(never)]
    fn any_meets(&self, span: &ByteSpan) -> bool
        ensures { IsTrue result ↔ Any (λ load. SpansMeet load.span span.now) self.now.items }
    {
        let span = *span;
        self.held[..self.len]
            .iter()
            .any(|load| load.span.meets(&span))
    }

    // Whether a load has another base than a store, or meets it.
    #[inline(never)]
    fn any_may_meet(&self, store: &Reach) -> bool
        ensures { IsTrue result ↔ Any (λ load. MayTouch load store.now) self.now.items }
    {
        let store = *store;
        self.held[..self.len]
            .iter()
            .any(|load| load.may_meet(&store))
    }

    // A reach around all loads and one more.
    fn cover_with(&self, load: &Reach) -> Option<Reach>
        ensures { IsCover result (self.now.items ++ load.now ∷ []) }
    {
        if self.len == 0 {
            return Some(*load);
        }
        self.cover?.join(load)
    }
}
