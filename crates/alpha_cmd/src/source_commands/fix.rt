//! `fix`: a source with a barrier wherever its code needs one.

ghost use Rattle.std.specs.Prelude.{◌^◌, ◌<◌, length};
ghost use Rattle.alpha_cmd.specs.SourceCommands.Fix.{Fixes};
ghost use Rattle.alpha_cmd.specs.Stage.{Computes};

use crate::Status;
use crate::stop::Stop;
use alpha_fix::FixFault;
use std::alloc::Global;

/// A source with its barriers.
pub(crate) fn fix_source(alloc: Global, source: &[u8]) -> Result<Vec<u8>, Stop>
    requires { length source.now < 2 ^ 31 }
    ensures { Computes (Fixes source.now) (λ text. text.items) result }
{
    match alpha_fix::fix(alloc, source) {
        Ok(text) => Ok(text),
        Err(FixFault::Source(fault)) => Err(Stop::OfStatus(Status::BadSource(fault))),
        Err(FixFault::Unfixable(broken, base)) => Err(Stop::Unfixable(broken, base)),
        Err(FixFault::Fixed(line)) => Err(Stop::OfStatus(Status::FixedLine(line))),
        Err(FixFault::Far(fault)) => Err(Stop::OfStatus(Status::Far(fault))),
        Err(FixFault::NoMemory) => Err(Stop::OfStatus(Status::NoMemory)),
    }
}
