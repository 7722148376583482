ghost use Rattle.std.specs.Prelude.{◌≡◌, ◌+◌, ◌-◌, ◌<◌, ◌≤◌, ◌^◌, min, length, drop, Some, slice_get};

use crate::first_trigger::first_trigger;
use crate::{Fetch, NextTrigger};
use alpha_table::Insn;
use std::marker::Model;

/// The code of instructions in a slice, for the checker. A clause sees their words and the count of looks.
#[derive(Drop)]
pub struct InsnCode<'a> {
    insns: &'a [Insn],
    fetches: u64,
}

impl<'a> Model for InsnCode<'a> {
    ghost use Rattle.std.specs.Prelude.{map};
    ghost use Rattle.alpha_table.specs.Encoded.{encoded};
    ghost use Rattle.alpha_shadow.specs.Fetched.{Fetched, HaveWords};

    ghost Value = { Fetched };

    ghost view = { λ c. record { code = map encoded c.insns.now; fetches = c.fetches } };

    ghost invariant = { λ c. HaveWords c.insns.now };
}

impl<'a> InsnCode<'a> {
    ghost use Rattle.std.specs.Prelude.{◌≡◌, map};
    ghost use Rattle.alpha_table.specs.Encoded.{encoded};
    ghost use Rattle.alpha_shadow.specs.Fetched.{HaveWords};

    /// Instructions, each that of its word, not looked at so far.
    pub fn new(insns: &'a [Insn]) -> InsnCode<'a>
        requires { HaveWords insns.now }
        ensures code { result.code ≡ map encoded insns.now }
        ensures fetches { result.fetches ≡ 0 }
    {
        InsnCode { insns, fetches: 0 }
    }

    /// The code from a place on, not looked at so far.
    pub fn from_place(&self, place: u32) -> InsnCode<'a>
        requires { place ≤ length self.now.code }
        ensures code { result.code ≡ drop place self.now.code }
        ensures fetches { result.fetches ≡ 0 }
        ensures bound { length self.now.code < 2 ^ 32 }
    {
        InsnCode {
            insns: &self.insns[place as usize..],
            fetches: 0,
        }
    }
}

impl<'a> Fetch for InsnCode<'a> {
    ghost code = { λ c. c.code };

    ghost fetches = { λ c. c.fetches };

    fn words(&self) -> u32 {
        self.insns.len() as u32
    }

    #[inline(always)]
    fn insn(&mut self, place: u32) -> Insn {
        count(&mut self.fetches);
        insn_in(self.insns, place as usize)
    }

    #[inline(always)]
    fn next_trigger(&mut self, from: u32) -> Option<NextTrigger> {
        let place = first_trigger(self.insns, from as usize);
        let quiet = place - from as usize;
        self.fetches = self.fetches.saturating_add(quiet as u64);
        if place == self.insns.len() {
            return None;
        }
        count(&mut self.fetches);
        Some(NextTrigger {
            place: place as u32,
            insn: insn_in(self.insns, place),
        })
    }
}

// One more, up to the last value.
#[inline(always)]
fn count(fetches: &mut u64)
    ensures { fetches.new ≡ min (fetches.old + 1) (2 ^ 64 - 1) }
{
    if *fetches < u64::MAX {
        *fetches += 1;
    }
}

// The instruction at a place.
#[inline(always)]
fn insn_in(insns: &[Insn], place: usize) -> Insn
    requires { place < length insns.now }
    ensures { slice_get insns.now place ≡ Some result }
{
    insns[place]
}
