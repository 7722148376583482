//! The law of restarts: an image whose trap shadows the checker accepts can be restarted after each
//! trap that is reported late, whatever the machine did until then. The crate has no code; its
//! functions are laws.
//!
//! - [`laws_of_restarts`] says that accepted images can be restarted, and what that is in four parts;
//!   and that they lose no trap from any state that has nothing pending.
//! - [`laws_of_restarted_runs`] says what a run of such an image shows, whatever is chosen.
//! - [`laws_of_imprecise_steps`] says that the choices of the imprecise step are the rows of its table.
//! - [`laws_of_columns`] says that the columns by which the checker judges a word are what the machine
//!   does to registers.
//! - [`limits_of_restarts`] says that no condition from C1 to C7 could be left out, and that no more
//!   could be said of a stop.
//!
//! What can be restarted is defined in `alpha_imprecise` (`specs/Restart.antt`), and what its runs show
//! (`specs/Shown.antt`); what is accepted in `alpha_shadow` (`specs/Broken.antt`). `docs/restart.md`
//! explains why the law holds.
//!
//! `specs/Table.antt` has the table, `specs/Columns.antt` what the columns say of a step,
//! `specs/Needed.antt` what it means that a condition is needed. The others have the invariant of
//! the proof: `Safe.antt` what acceptance gives, `Match.antt` where registers and bytes of the two
//! machines may differ, `Trigger.antt` and `Shadow.antt` the registers while a trap is pending,
//! `Invariant.antt` how two runs stand to each other after each step.
//!
//! The proofs, lowest first: `Safety.antt` (accepted code is safe), `CodeWordBounds.antt`, `Registers.antt`
//! and `ImagePlaces.antt` (the code, its registers and its addresses), `SourcesAlike.antt`, `RegistersAlike.antt`,
//! `BytesAlike.antt`, `Accesses.antt` and `MatchedSteps.antt` (one precise step in both machines),
//! `Shadows.antt`, `UnpredictableBytes.antt` and `Trails.antt` (registers, bytes and the mask while a trap is
//! pending), `StepsWithoutPending.antt`, `Together.antt`, `Resynchronization.antt`, `UnpredictableSteps.antt` and
//! `PendingSteps.antt` (each kind of step has the invariant hold), `StartState.antt` (the start) and `Agreement.antt`
//! (it holds after every run, and the law). `NoTrapLost.antt` has that no trap is lost. `Columns.antt` has the
//! laws of columns, `ChoiceRows.antt` and `Walks.antt` the table, `BrokenTests.antt` a test for broken places and
//! `Needed.antt` an image for each condition. What follows for runs is proved in `alpha_imprecise`
//! (`proofs/Showing.antt`).
#![tactic(auto)]

mod laws;

pub use laws::{
    laws_of_columns, laws_of_imprecise_steps, laws_of_restarted_runs, laws_of_restarts,
    limits_of_restarts,
};
