//! The handler of late traps: from the PC and the register mask of a report back to the instruction that
//! overflowed, its result completed, and the PC to go on at (Architecture Handbook, arithmetic trap
//! completion).
//!
//! Comments call the Alpha Architecture Handbook, version 4, the Architecture Handbook.
//!
//! - [`scan_back`] finds the instruction: the greatest place below the trap PC that has `/V`, so that each
//!   register of the mask is the destination of it or of a `/V` word behind it, with no barrier and no turn
//!   between. The trap PC may be one past the last word.
//! - [`handle`] runs in the kernel after an arithmetic entry. It completes that instruction from the
//!   user's registers, through the frame where the entry saved one, and returns to the user behind it.
//!   Where an overflow stops the program, it changes no register and returns to the instruction.
//! - [`report`] is the whole of a report: it enters the kernel, has [`handle`] deal with the trap, and leaves it.
//! - [`scan_words`], [`handle_words`] and [`report_words`] are those for who has no image, over the words of the code
//!   and the address of the first one.
//! - [`Lost`] is a trap for which the scan finds nothing. It leaves everything as it was.
//! - [`laws_of_scans`] says that the function which computes the scan is the relation that defines it,
//!   and [`laws_of_reports`] that entry and handler together make the report of the definition.
//!
//! `specs/Scan.antt` says what the scan finds as a function, and `specs/Finds.antt` as a relation;
//! `specs/Handler.antt` says what the handler leaves, with the registers of `specs/Completed.antt`; for code without an
//! image they go by `specs/RawCode.antt`. `src/scan.rt`, `src/handler.rt` and `src/reports.rt` have the calls, each
//! with one body for both kinds of code; `src/trap_code.rt` has what they read of code, `src/trigger.rt` what they read
//! of an instruction. `proofs/ScanSteps.antt` follows the walk down word by word, `ScanRelation.antt` ties the function
//! to the relation, `GreatestInRange.antt` and `ClassTests.antt` have the tests of places and of words,
//! `HandlerEffect.antt` the handler's frame.
#![tactic(auto)]

mod handler;
mod laws;
mod reports;
mod scan;
mod trap_code;
mod trigger;

pub use handler::{Lost, handle, handle_words};
pub use laws::{laws_of_reports, laws_of_scans};
pub use reports::{report, report_words};
pub use scan::{scan_back, scan_words};
