ghost use Rattle.std.specs.Prelude.{◌≡◌, ◌<◌, ◌+◌, ◌-◌, ◌^◌, ℕ, length, slice_index, slice_set, IfSome, IfNone};
ghost use Rattle.alpha_words.specs.Regs.{Has};

use alpha_words::{Reg, RegSet};

/// For each register, one more than the last place that was noted for it, 0 where none was.
#[derive(Clone, Copy)]
pub(crate) struct LastPlaces {
    pub(crate) ends: [u32; 32],
}

impl LastPlaces {
    /// No place for any register.
    pub(crate) fn empty() -> LastPlaces
        ensures { (r : ℕ) → slice_index result.ends r ≡ 0 }
    {
        LastPlaces { ends: [0; 32] }
    }

    /// One more than the last place that was noted for a register, 0 where none was.
    pub(crate) fn end(&self, r: Reg) -> u32
        ensures value { result ≡ slice_index self.now.ends r }
        ensures register { r < 32 }
    {
        self.ends[usize::from(r.number())]
    }

    /// Notes a place for a register.
    pub(crate) fn note(&mut self, r: Reg, place: u32)
        requires { place < 2 ^ 32 - 1 }
        ensures value { self.new.ends ≡ slice_set self.old.ends r (place + 1) }
        ensures register { r < 32 }
    {
        self.ends[usize::from(r.number())] = place + 1;
    }

    /// Notes a place for each member of a set.
    pub(crate) fn note_all(&mut self, registers: RegSet, place: u32)
        requires { place < 2 ^ 32 - 1 }
        ensures size { length self.new.ends ≡ 32 }
        ensures members { (r : ℕ) → Has registers r → slice_index self.new.ends r ≡ place + 1 }
        ensures others { (r : ℕ) → ¬ Has registers r
            → slice_index self.new.ends r ≡ slice_index self.old.ends r }
    {
        let mut rest = registers;
        while let Some(r) = least_register(rest) {
            self.note(r, place);
            rest = rest.without(r);
        }
    }
}

// The least member.
fn least_register(registers: RegSet) -> Option<Reg>
    ensures found { IfSome result (Has registers) }
    ensures none { IfNone result ((r : ℕ) → ¬ Has registers r) }
{
    let bits = registers.bits();
    if bits == 0 {
        None
    } else {
        Reg::new(bits.trailing_zeros() as u8)
    }
}
