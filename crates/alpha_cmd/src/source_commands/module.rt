//! `module`: the module of a source.

ghost use Rattle.std.specs.Prelude.{◌^◌, ◌<◌, length};
ghost use Rattle.alpha_cmd.specs.SourceCommands.Module.{Modules, Spells};
ghost use Rattle.alpha_cmd.specs.Stage.{Computes};

use crate::Status;
use crate::stop::Stop;
use alpha_asm::{AsmFault, CODE_BASE};
use alpha_link::{Module, make_module, module_bytes, verdict};
use std::alloc::Global;

/// The spelling of the module that a source makes.
pub(crate) fn module_of(alloc: Global, source: &[u8]) -> Result<Vec<u8>, Stop>
    requires { length source.now < 2 ^ 32 }
    ensures { Computes (Modules source.now) (λ bytes. bytes.items) result }
{
    match make_module(alloc, source) {
        Ok(module) => accepted_module_bytes(alloc, &module),
        Err(AsmFault::NoMemory) => Err(Stop::OfStatus(Status::NoMemory)),
        Err(fault) => Err(Stop::OfStatus(Status::BadSource(fault))),
    }
}

// The spelling of a module whose code is accepted.
fn accepted_module_bytes(alloc: Global, module: &Module<'_>) -> Result<Vec<u8>, Stop>
    ensures { Computes (Spells «module».now) (λ bytes. bytes.items) result }
{
    match verdict(module) {
        Ok(()) => match module_bytes(alloc, module) {
            Ok(bytes) => Ok(bytes),
            Err(_) => Err(Stop::OfStatus(Status::NoMemory)),
        },
        // Its address is that of the first module that is linked.
        Err(broken) => Err(Stop::Broken(broken, CODE_BASE)),
    }
}
