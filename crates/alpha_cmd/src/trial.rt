//! `trial N`: a program of N blocks, run on both machines.

ghost use Rattle.std.specs.Prelude.{◌<◌, ◌≤◌};
ghost use Rattle.alpha_cmd.specs.Commands.Trial as trials;
ghost use Rattle.alpha_cmd.specs.CommandEffect.{CommandEffect};
ghost use Rattle.alpha_cmd.specs.Ends.{status_in};
ghost use Rattle.alpha_cmd.specs.ShowsDone.{IsDoneOrFails};

use crate::Status;
use crate::decision::Decision;
use crate::devices::Devices;
use alpha_io::{Failed, Shelf, Sink, Source};
use alpha_trial::TrialFault;
use std::alloc::Global;

/// Makes the trial of so many blocks, and writes a line for each of its two runs.
#[inline(never)]
pub(crate) fn trial<H: Shelf, S: Source, K: Sink, N: Sink>(
    alloc: Global,
    blocks: u32,
    devices: &mut Devices<H, S, K, N>,
) -> Result<Decision, Failed>
    requires some { 0 < blocks }
    requires bound { blocks ≤ 20000 }
    ensures does { CommandEffect H.Shelf S.Source K.Sink N.Sink (trials.form blocks) result devices.old devices.new }
    ensures ends { IsDoneOrFails (status_in result) }
{
    match alpha_trial::trial(alloc, blocks, &mut devices.out) {
        Ok(()) => Ok(Decision::of_status(Status::Done(0))),
        Err(TrialFault::NoMemory) => Ok(Decision::of_status(Status::NoMemory)),
        Err(TrialFault::Sink) => Err(Failed),
    }
}
