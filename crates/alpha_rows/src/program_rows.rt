ghost use Rattle.std.specs.Prelude.{◌≡◌, ◌≤◌};
ghost use Rattle.alpha_image.specs.Parts.{Parts};
ghost use Rattle.alpha_rows.specs.PassingSteps.{PassingSteps};
ghost use Rattle.alpha_rows.specs.PassingSteps.{AreRowsOf};

use crate::fast::run_fast;
use crate::make::rows_of;
use crate::row::Row;
use alpha_image::Image;
use alpha_seq::Machine;
use std::alloc::Global;
use std::fmt;

/// How many steps a word of the program are made before its rows are. A row takes about as long to make as a step by
/// words, so that a run that ends as they are made has paid some two in a hundred for them.
const STEPS_A_WORD: u64 = 64;

/// The rows of a program, once they are made. Whoever owns the machine keeps them beside it.
#[derive(Drop)]
pub struct ProgramRows {
    alloc: Global,
    rows: Option<Vec<Row>>,
    /// How many steps are still to be made before the rows are.
    ahead: u64,
}

impl ProgramRows {
    /// No row of an image's words is made so far.
    pub fn new(alloc: Global, image: &Image) -> ProgramRows
        ensures { AreRowsOf image.now result }
    {
        ProgramRows {
            alloc,
            rows: None,
            ahead: STEPS_A_WORD * u64::from(image.words()),
        }
    }

    /// Makes steps of a machine as long as each only goes on, or passes a barrier that is no PAL call where these are
    /// passed, `units` of them at most, and answers how many it made. It may stop early: what a step does then is what
    /// [`Machine::step`] says. The rows are those of its program.
    #[inline(always)]
    pub fn run_fast(&mut self, machine: &mut Machine, units: u64, barriers: bool) -> u64
        requires { AreRowsOf machine.old.image self.old }
        ensures most { result ≤ units }
        ensures went { PassingSteps barriers result machine.old machine.new }
        ensures rows { AreRowsOf machine.new.image self.new }
    {
        match &self.rows {
            Some(rows) => run_fast(machine, rows.as_slice(), units, barriers),
            None => self.run_by_words(machine, units, barriers),
        }
    }

    // The same before the rows are made. It makes them once enough steps were made: each call comes behind a step that
    // was made by itself.
    #[inline(never)]
    fn run_by_words(&mut self, machine: &mut Machine, units: u64, barriers: bool) -> u64
        requires { AreRowsOf machine.old.image self.old }
        ensures most { result ≤ units }
        ensures went { PassingSteps barriers result machine.old machine.new }
        ensures rows { AreRowsOf machine.new.image self.new }
    {
        if self.ahead == 0 {
            match rows_of(self.alloc, &machine.image) {
                Ok(rows) => self.rows = Some(rows),
                Err(_) => self.ahead = u64::MAX,
            }
            return 0;
        }
        let count = machine.run_fast(units.min(self.ahead));
        self.ahead = self.ahead.saturating_sub(count.saturating_add(1));
        count
    }
}

impl fmt::Debug for ProgramRows {
    fn fmt<W: fmt::Write>(&self, f: &mut fmt::Formatter<W>) -> fmt::Result {
        f.write_str("ProgramRows")
    }
}
