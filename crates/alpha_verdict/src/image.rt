ghost use Rattle.std.specs.Prelude.{◌≡◌, OnOk, IfErr};
ghost use Rattle.alpha_shadow.specs.Broken.{IsAccepted};
ghost use Rattle.alpha_shadow.specs.Least.{IsLeastBroken};

use alpha_image::Image;
use alpha_shadow::{Broken, InsnCode, judge};

/// The code of an image, not looked at so far.
pub fn code_of(image: &Image) -> InsnCode<'_>
    ensures code { result.code ≡ image.now.words }
    ensures fetches { result.fetches ≡ 0 }
{
    InsnCode::new(image.insns())
}

/// The verdict on the code of an image: `Ok` exactly where it is accepted, else the least broken place, as
/// [`judge`] finds it. It takes no memory.
pub fn judge_image(image: &Image) -> Result<(), Broken>
    ensures accepted { OnOk result (IsAccepted image.now.words) }
    ensures broken { IfErr result (IsLeastBroken image.now.words) }
{
    judge(&mut code_of(image))
}
