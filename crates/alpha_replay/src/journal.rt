//! Journals.

ghost use Rattle.std.specs.Prelude.{◌≡◌};
ghost use Rattle.alpha_replay.specs.Journal.{IsJournal, Parts};

use crate::{Ending, Item};
use alpha_words::Completion;
use std::marker::Model;

/// A run of the imprecise machine, step by step. A clause sees its parts.
#[derive(Debug, Drop)]
pub struct Journal {
    completion: Completion,
    ending: Ending,
    input: Vec<u8>,
    output: Vec<u8>,
    items: Vec<Item>,
}

impl Model for Journal {
    ghost use Rattle.alpha_replay.specs.Journal.{Parts};

    ghost Value = { Parts };

    ghost use Rattle.alpha_replay.specs.Inside.{parts_in, IsGood};

    ghost view = { parts_in };

    ghost invariant = { IsGood };
}

impl Journal {
    ghost use Rattle.std.specs.Prelude.{◌≡◌};
    ghost use Rattle.alpha_replay.specs.Journal.{IsJournal, parts};

    /// The journal of these parts.
    pub(crate) fn of_parts(
        completion: Completion,
        ending: Ending,
        input: Vec<u8>,
        output: Vec<u8>,
        items: Vec<Item>,
    ) -> Journal
        requires { IsJournal (parts completion ending input.items output.items items.items) }
        ensures value { result ≡ parts completion ending input.items output.items items.items }
    {
        Journal {
            completion,
            ending,
            input,
            output,
            items,
        }
    }

    /// How the reports of the run complete what overflowed.
    pub fn completion(&self) -> Completion
        ensures value { result ≡ self.now.completion }
        ensures good { IsJournal self.now }
    {
        self.completion
    }

    /// How the run ends, by the numbers that the journal has: they may be of no end that a program has.
    pub fn ending(&self) -> Ending
        ensures value { result ≡ self.now.ending }
        ensures good { IsJournal self.now }
    {
        self.ending
    }

    /// The bytes that the run took, 8,388,608 at most.
    pub fn input(&self) -> &[u8]
        ensures value { result.now ≡ self.now.input }
        ensures good { IsJournal self.now }
    {
        self.input.as_slice()
    }

    /// The bytes that the run put, 8,388,608 at most.
    pub fn output(&self) -> &[u8]
        ensures value { result.now ≡ self.now.output }
        ensures good { IsJournal self.now }
    {
        self.output.as_slice()
    }

    /// The steps of the run, 1,048,576 items at most, which use 1,000,000,000 units at most.
    pub fn items(&self) -> &[Item]
        ensures value { result.now ≡ self.now.items }
        ensures good { IsJournal self.now }
    {
        self.items.as_slice()
    }
}
