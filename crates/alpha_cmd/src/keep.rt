//! The last stage of a command that makes bytes and keeps them.

ghost use Rattle.std.specs.Prelude.{◌≡◌, ◌≢◌, ◌++◌, ◌∷◌, [], List, ℕ, Option, true};
ghost use Rattle.alpha_io.specs.Faults.{Faulted};
ghost use Rattle.alpha_io.specs.History.{Kept};
ghost use Rattle.alpha_io.specs.ShelfChange.{shelf_change};
ghost use Rattle.alpha_cmd.specs.Decision.{answer_in};
ghost use Rattle.alpha_cmd.specs.Ends.{FinalOutcome};
ghost use Rattle.alpha_cmd.specs.Form.{SparesBy, keeps_last};
ghost use Rattle.alpha_cmd.specs.Keeping.{AttemptsKeep};
ghost use Rattle.alpha_cmd.specs.Kept.{Serves};

use crate::Status;
use crate::decision::Decision;
use alpha_io::Shelf;

/// Keeps bytes under a name.
pub(crate) fn keep_as<H: Shelf>(bytes: &[u8], out: &str, shelf: &mut H) -> Decision
    ensures tried { (input : Option (List ℕ))
        → FinalOutcome (AttemptsKeep (Faulted (H.faults shelf.old) (H.faults shelf.new))
        (record { files = H.files shelf.old; takes = H.takes shelf.old; input = input })
        out.now bytes.now) (answer_in input result) (shelf_change H.Shelf shelf.old shelf.new) }
    ensures kept { result.status ≡ Status.Done 0 → H.replies shelf.new
        ≡ H.replies shelf.old ++ Kept out.now bytes.now true ∷ [] }
    ensures shelf { Serves (shelf_change H.Shelf shelf.old shelf.new)
        (result.status ≢ Status.ShelfFault) }
    ensures files { SparesBy (keeps_last out.now) result.status
        (H.files shelf.old) (H.files shelf.new) }
{
    match shelf.keep(out, bytes) {
        Ok(()) => Decision::of_status(Status::Done(0)),
        Err(_) => Decision::of_status(Status::ShelfFault),
    }
}
