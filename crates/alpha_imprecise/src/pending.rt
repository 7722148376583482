ghost use Rattle.std.specs.Prelude.{◌≡◌, ◌<◌, true, IfSome, IfNone};
ghost use Rattle.alpha_table.specs.ClassOf.{class_of};
ghost use Rattle.alpha_seq.specs.Machine.{class_here, state_of};
ghost use Rattle.alpha_imprecise.specs.Chosen.{must_report};
ghost use Rattle.alpha_imprecise.specs.ImpreciseState.{WaitsAt};

use crate::look::waits_here;
use alpha_seq::Machine;
use alpha_table::Insn;
use alpha_words::RegSet;

// How many words are executed at most while a trap is pending.
const MOST_WAITED: u32 = 1024;

/// A trap that is pending.
#[derive(Clone, Copy, Debug, PartialEq, Eq)]
pub struct Pending {
    /// The place of its trigger, the number of a code word from 0.
    pub trigger: u32,
    /// The registers that the report will name.
    pub mask: RegSet,
    /// How many words were executed since the trigger; at most 1,024 where a [`Wild`](crate::Wild) has the trap.
    pub waited: u32,
}

impl Pending {
    /// The word at the PC, if the trap may wait for its execution: fewer than 1,024 words were executed since the
    /// trigger, it is no barrier, and an access of it doesn't fault. The contract says the word's class.
    #[inline(always)]
    pub(crate) fn waiting_insn(&self, machine: &Machine) -> Option<Insn>
        ensures found { IfSome result (λ insn. WaitsAt machine.now (class_of insn)) }
        ensures few { IfSome result (λ insn. self.now.waited < 1024) }
        ensures none { IfNone result (must_report (class_here machine.now) (state_of machine.now)
            self.now.waited ≡ true) }
    {
        if self.waited < MOST_WAITED {
            waits_here(machine)
        } else {
            None
        }
    }
}
