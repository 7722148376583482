ghost use Rattle.std.specs.Prelude.{◌≤◌, length, MatchOption, OnOk, IfOk, IfErr};
ghost use Rattle.alpha_fix.specs.Cuts.{AreCuts, NoneAlone, NoneFrom, IsLeastFrom};
ghost use Rattle.alpha_fix.specs.Fix.{IsCutFault};

use crate::CutFault;
use alpha_image::Image;
use alpha_shadow::{Broken, Checker};
use alpha_verdict::code_of;
use std::alloc::Global;

// The least broken place for triggers from a place on.
fn first_broken_from(checker: &mut Checker, image: &Image, from: u32) -> Option<Broken>
    requires { from ≤ length image.now.words }
    ensures { MatchOption result (NoneFrom image.now.words from)
        (IsLeastFrom image.now.words from) }
{
    match checker.judge(&mut code_of(image).from_place(from)) {
        Ok(()) => None,
        Err(broken) => Some(Broken {
            trigger: from + broken.trigger,
            at: from + broken.at,
            condition: broken.condition,
        }),
    }
}

/// The cuts of an image's code: the places before which a barrier is needed, or at the end behind
/// the last word. The first is the least place that is broken; each further one is the least that
/// is broken behind the cut before it, for triggers that don't stand before that.
///
/// The code is judged from its start, and again from each cut on.
///
/// # Errors
///
/// `Unfixable` where a trigger is broken at its own place. `NoMemory` may come in place of any answer.
pub fn cuts_of(alloc: Global, image: &Image) -> Result<Vec<u32>, CutFault>
    ensures ok { IfOk result (λ cuts. AreCuts image.now.words cuts.items) }
    ensures sound { OnOk result (NoneAlone image.now.words) }
    ensures refused { IfErr result (IsCutFault image.now.words) }
{
    let mut cuts = Vec::new(alloc);
    let mut checker = Checker::new();
    let mut from = 0;
    while let Some(broken) = first_broken_from(&mut checker, image, from) {
        if broken.at == broken.trigger {
            return Err(CutFault::Unfixable(broken));
        }
        cuts.push(broken.at)?;
        from = broken.at;
    }
    Ok(cuts)
}
