//! The words by which the imprecise machine chooses.

ghost use Rattle.std.specs.Prelude.{◌≡◌, ◌⊎◌, ℕ, List, Some, None, Err, IfOk, IfErr, OnErr};
ghost use Rattle.alpha_io.specs.History.{IsReadInPart};
ghost use Rattle.alpha_io.specs.ShelfChange.{shelf_change};
ghost use Rattle.alpha_request.specs.Origin as origins;
ghost use Rattle.alpha_request.specs.Origin.{seed};
ghost use Rattle.alpha_request.specs.Options.{origin_of};
ghost use Rattle.alpha_cmd.specs.Chooser.{ahead_in};
ghost use Rattle.alpha_cmd.specs.Choosing.{ChoicesOf};
ghost use Rattle.alpha_cmd.specs.PlanRead.{ReadsWords};
ghost use Rattle.alpha_cmd.specs.Stage.{Stage};

use crate::Status;
use crate::image::read_file;
use crate::stop::Stop;
use alpha_imprecise::{Chooser, ListChooser, PcgChooser};
use alpha_io::Shelf;
use alpha_request::Choices;
use std::alloc::Global;

/// The most bytes of a choices file.
const CHOICES_LIMIT: u64 = 1_048_576;

/// Where the words come from.
#[derive(Drop)]
pub(crate) enum Choosing {
    /// A seeded generator.
    Seeded(PcgChooser),
    /// The bytes of a file.
    Listed(ListChooser),
}

impl Chooser for Choosing {
    ghost ahead = { λ c. Some (ahead_in c) };

    ghost drawn = { λ _. None };

    fn next(&mut self) -> u64 {
        match self {
            Choosing::Seeded(chooser) => chooser.next(),
            Choosing::Listed(chooser) => chooser.next(),
        }
    }
}

/// The words that the choices name: those of the seed, or those that the file writes.
pub(crate) fn chooser_of<H: Shelf>(
    alloc: Global,
    choices: &Choices<'_>,
    shelf: &mut H,
) -> Result<Choosing, Stop>
    ensures stage { Stage (ChoicesOf (H.files shelf.old) (origin_of choices.now))
        (λ chooser. ahead_in chooser) result (shelf_change H.Shelf shelf.old shelf.new) }
    ensures read { IfOk result (λ chooser. ReadsWords (origin_of choices.now)
        (H.replies shelf.old) (H.replies shelf.new) (ahead_in chooser)) }
    ensures seeded { (n : ℕ) → origin_of choices.now ≡ seed n → shelf.new ≡ shelf.old }
    ensures sure { (n : ℕ) → origin_of choices.now ≡ seed n → OnErr result ⊥ }
    ensures part { (name : List ℕ) → origin_of choices.now ≡ origins.file name
        → IfErr result (λ stop. (stop ≡ Stop.OfStatus Status.NoMemory)
        ⊎ IsReadInPart (H.replies shelf.old) (H.replies shelf.new) name) }
{
    match *choices {
        Choices::Seed(seed) => Ok(Choosing::Seeded(PcgChooser::new(seed))),
        Choices::File(name) => read_choices(alloc, name, shelf),
    }
}

// The words that a file writes.
fn read_choices<H: Shelf>(alloc: Global, name: &str, shelf: &mut H) -> Result<Choosing, Stop>
    ensures read { IfOk result (λ chooser. ReadsWords (origins.file name.now)
        (H.replies shelf.old) (H.replies shelf.new) (ahead_in chooser)) }
    ensures part { IfErr result (λ stop. (stop ≡ Stop.OfStatus Status.NoMemory)
        ⊎ IsReadInPart (H.replies shelf.old) (H.replies shelf.new) name.now) }
    ensures stage { Stage (ChoicesOf (H.files shelf.old) (origins.file name.now))
        (λ chooser. ahead_in chooser) result (shelf_change H.Shelf shelf.old shelf.new) }
{
    let bytes = read_file(alloc, shelf, name, CHOICES_LIMIT)?;
    match ListChooser::new(alloc, bytes.as_slice()) {
        Ok(chooser) => Ok(Choosing::Listed(chooser)),
        Err(_) => Err(Stop::OfStatus(Status::NoMemory)),
    }
}
