//! `asm`: the image of a source.

ghost use Rattle.std.specs.Prelude.{◌^◌, ◌<◌, length};
ghost use Rattle.alpha_cmd.specs.SourceCommands.Asm.{Assembles};
ghost use Rattle.alpha_cmd.specs.Stage.{Computes};

use crate::Status;
use crate::image::bytes_of_image;
use crate::stop::Stop;
use alpha_asm::{AsmFault, assemble};
use std::alloc::Global;

/// The spelling of the image that a source defines.
pub(crate) fn assemble_source(alloc: Global, source: &[u8]) -> Result<Vec<u8>, Stop>
    requires { length source.now < 2 ^ 32 }
    ensures { Computes (Assembles source.now) (λ bytes. bytes.items) result }
{
    match assemble(alloc, source) {
        Ok(image) => bytes_of_image(alloc, &image),
        Err(AsmFault::NoMemory) => Err(Stop::OfStatus(Status::NoMemory)),
        Err(fault) => Err(Stop::OfStatus(Status::BadSource(fault))),
    }
}
