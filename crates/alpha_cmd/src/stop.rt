//! Why a stage stops.

ghost use Rattle.std.specs.Prelude.{◌≡◌};
ghost use Rattle.alpha_cmd.specs.Stage.{stop_status, stop_line};

use crate::Status;
use crate::line::{line_of, unfixable_line};
use alpha_io::Line;
use alpha_shadow::Broken;
use alpha_verdict::line_of_broken;

/// Why a stage stops: a status, and what else its line says.
#[derive(Clone, Copy)]
pub(crate) enum Stop {
    /// A status with its own line.
    OfStatus(Status),
    /// A broken place, of code with this base.
    Broken(Broken, u64),
    /// A trigger that is broken at its own place, of code with this base.
    Unfixable(Broken, u64),
}

impl Stop {
    /// The status.
    pub(crate) fn status(&self) -> Status
        ensures { result ≡ stop_status self.now }
    {
        match *self {
            Stop::OfStatus(status) => status,
            Stop::Broken(broken, _) => Status::NotRestartable(broken),
            Stop::Unfixable(broken, _) => Status::Unfixable(broken),
        }
    }

    /// The line that says it.
    pub(crate) fn line(&self) -> Line
        ensures { result ≡ stop_line self.now }
    {
        match self {
            Stop::OfStatus(status) => line_of(status),
            Stop::Broken(broken, code_base) => line_of_broken(broken, *code_base),
            Stop::Unfixable(broken, code_base) => unfixable_line(broken, *code_base),
        }
    }
}
