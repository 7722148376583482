//! The verdict on a module's code.

ghost use Rattle.std.specs.Prelude.{OnOk, IfErr};
ghost use Rattle.alpha_shadow.specs.Broken.{IsAccepted};
ghost use Rattle.alpha_shadow.specs.Least.{IsLeastBroken};

use crate::module::Module;
use alpha_shadow::{Broken, InsnCode, judge};

/// Whether a trap that is reported late leaves the module's own code restartable: `Ok` exactly where no
/// place of its words is broken, else the least broken place. It takes no memory.
pub fn verdict(module: &Module<'_>) -> Result<(), Broken>
    ensures accepted { OnOk result (IsAccepted «module».now.words) }
    ensures broken { IfErr result (IsLeastBroken «module».now.words) }
{
    judge(&mut InsnCode::new(&module.insns))
}
