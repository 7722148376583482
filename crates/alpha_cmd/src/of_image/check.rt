//! `check`: whether an image's code is accepted, and so can be restarted after a late overflow trap.

ghost use Rattle.std.specs.Prelude.{◌≡◌};
ghost use Rattle.alpha_shadow.specs.Broken.{IsAccepted};
ghost use Rattle.alpha_request.specs.declared.request.ImageCommand.TheVariants as asked;
ghost use Rattle.alpha_cmd.specs.AnswerBy.{AnswerBy, World};
ghost use Rattle.alpha_cmd.specs.Decision.{answer_in};
ghost use Rattle.alpha_cmd.specs.OfImage as images;
ghost use Rattle.alpha_cmd.specs.RunsAsked.{EndsCheck};

use crate::decision::Decision;
use crate::{Status, image};
use alpha_image::Image;

/// Judges an image.
pub(crate) fn check_image(image: &Image) -> Decision
    ensures accepted { result.status ≡ Status.Done 0 → IsAccepted image.now.words }
    ensures ends { EndsCheck image.now result.status }
    ensures answer { (w : World)
        → AnswerBy (images.on asked.Check image.now).steps w (answer_in w.input result) }
{
    match image::require_accepted(image) {
        Ok(()) => Decision::of_accepted_image(),
        Err(stop) => Decision::of_stop(stop),
    }
}
