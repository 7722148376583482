//! Journals: a run of the imprecise machine, step by step, as a file. A journal stands for exactly one
//! list of bytes, and every other list of bytes is refused with its first fault.
//!
//! All numbers are little-endian:
//!
//! | Offset | Field |
//! |---|---|
//! | 0 | the 8 bytes `ALPHAJR1` |
//! | 8 | the completion, a byte: 0 wrap, 1 saturate, 2 stop |
//! | 9 | the kind of the ending, a byte |
//! | 10, 18 | its two numbers, of 64 bits each |
//! | 26, 30, 34 | how many bytes of input, bytes of output and items, of 32 bits each |
//! | 38 | the input, then the output, then the items |
//!
//! The kinds of the ending: 0 none, 1 exit with a value, 2 signal with a code and a PC, 3 fetch with a PC,
//! 4 access and 5 align, each with a PC and an address, 6 a lost trap with a PC and the bits of its mask,
//! 7 an overflow with a PC. Numbers that a kind doesn't use are 0. Codes, addresses and masks may be such
//! as no run has.
//!
//! An item is a byte and its numbers: 0 Units, with a number of 32 bits, at least 1; 1 Trigger, with a
//! value of 64 bits; 2 Wait, with a flag, a byte that is 0 or 1, and a value of 64 bits; 3 Report. No
//! Units follows a Units. Input and output have at most 8,388,608 bytes each, and there are at most
//! 1,048,576 items, which use at most 1,000,000,000 units.
//!
//! - [`Journal`] is a good journal, and [`Item`] and [`Ending`] are parts of it. A clause sees its `Parts`.
//!   A [`Move`] is one step of the machine, as items have it.
//! - [`read_journal`] answers the journal that bytes spell, or a [`JournalFault`]. [`journal_bytes`] gives
//!   the spelling.
//! - [`make_journal`] makes a run and its journal, and answers a [`JournalEnd`].
//! - [`replay`] answers whether a journal is a run of an image: [`Replayed`], or a [`ReplayFault`]. [`laws_of_replays`]
//!   says what that shows.
//! - [`laws_of_journals`]: bytes have no fault exactly where they are the spelling of a good journal, and
//!   that is one journal.
//! - [`laws_of_journaled_runs`]: where a run that words make stops that has a journal, and that its items list it.
//!
//! `src/journal_header.rt` reads what stands before the input, `src/items.rt` the items; `src/read.rt` and
//! `src/write.rt` are the ways in and out. All tests of bytes come before the first memory is taken.
//!
//! `src/replaying.rt` has the replay: `src/play.rt` plays the items, each move by a step of the machine that chooses
//! as the move says (`src/fixed_choice.rt`): a move is impossible where the step's event is of another one
//! (`src/moves.rt`). What a step put stands in memory behind it (`src/passed.rt`), and `src/compare.rt` holds it
//! against the journal's output.
//!
//! `specs/Journal.antt` has what a journal is and its spelling, over the `specs/Items.antt` and the
//! `specs/Endings.antt`; `specs/Reading.antt` what bytes say of a journal, and `specs/JournalFault.antt` their first
//! fault. `specs/Inside.antt`, `specs/JournalHeader.antt` and `specs/Scanned.antt` say what the code has of them.
//! `specs/Moves.antt` has what a move chooses and where it is possible, `specs/Listed.antt` the steps that items
//! list, or the first item that is impossible, and `specs/Replay.antt` what a replay answers, over the outputs of
//! `specs/Compared.antt`. `specs/Events.antt` has the move of a step and its bytes, by its event,
//! `specs/FixedChoice.antt` the choice that a move makes, `specs/ReplayEffect.antt` what the code did that plays
//! items, and `specs/CursorState.antt` how the last step went behind steps that only go on.
//! `specs/GatheredItems.antt` has the items of a list of steps, and `specs/Journaled.antt` the journal that is read
//! off it, and where a run stops that has one.
//!
//! `src/make.rt` makes a run by the loop of `alpha_run`: `src/recorder.rt` is what looks at its steps there, and
//! notes on the `src/journal_builder.rt` the move of each and the bytes that it took and put
//! (`specs/BuilderState.antt`, `specs/Recorder.antt`). It stops the run behind a step that doesn't fit.
//! `specs/JournalEnd.antt` is what is answered of a run.
#![tactic(auto)]

mod compare;
mod ending;
mod fault;
mod fixed_choice;
mod item;
mod items;
mod journal;
mod journal_builder;
mod journal_end;
mod journal_header;
mod laws;
mod make;
mod moves;
mod passed;
mod play;
mod read;
mod recorder;
mod replay_fault;
mod replaying;
mod write;

pub use ending::Ending;
pub use fault::JournalFault;
pub use item::Item;
pub use journal::Journal;
pub use journal_end::JournalEnd;
pub use laws::{laws_of_journaled_runs, laws_of_journals, laws_of_replays};
pub use make::make_journal;
pub use moves::Move;
pub use read::read_journal;
pub use replay_fault::ReplayFault;
pub use replaying::{Replayed, replay};
pub use write::journal_bytes;
