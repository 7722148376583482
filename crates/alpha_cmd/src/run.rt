//! `run FILE`: a run of the image's program.

ghost use Rattle.std.specs.Prelude.{◌≡◌, ◌⊎◌, ℕ, List, [], IsTrue};
ghost use Rattle.alpha_io.specs.ShelfChange.{shelf_change};
ghost use Rattle.alpha_io.specs.SinkChange.{sink_change};
ghost use Rattle.alpha_seq.specs.Devices.{drawn};
ghost use Rattle.alpha_seq.specs.Machine.{program_of, state_of};
ghost use Rattle.alpha_seq.specs.Start.{start};
ghost use Rattle.alpha_cmd.specs.Checked.{ReadsImage};
ghost use Rattle.alpha_cmd.specs.Commands.Run as runs;
ghost use Rattle.alpha_cmd.specs.CommandEffect.{CommandEffect};
ghost use Rattle.alpha_cmd.specs.Ends.{status_in};
ghost use Rattle.alpha_cmd.specs.Ran.{EndsWhere, FailsOnTheWay, IsRunEnd};
ghost use Rattle.alpha_cmd.specs.RunsAsked.{DecidesRun, WhereEnded};

use crate::Status;
use crate::decision::Decision;
use crate::devices::Devices;
use crate::image::load;
use alpha_image::Image;
use alpha_io::{Failed, Shelf, Sink, Source};
use alpha_request::RunOptions;
use alpha_rows::RowMachine;
use alpha_run::run_sequential;
use alpha_seq::Machine;
use std::alloc::Global;

/// Reads the image of a file and runs it over the input.
#[inline(never)]
pub(crate) fn run<H: Shelf, S: Source, K: Sink, N: Sink>(
    alloc: Global,
    options: RunOptions,
    file: &str,
    devices: &mut Devices<H, S, K, N>,
) -> Result<Decision, Failed>
    ensures does { CommandEffect H.Shelf S.Source K.Sink N.Sink
        (runs.form options file.now) result devices.old devices.new }
    ensures ran { WhereEnded result (λ decision.
        ReadsImage (shelf_change H.Shelf devices.old.shelf devices.new.shelf) file.now
        (λ image. DecidesRun options image decision
        (drawn S.Source devices.old.input devices.new.input)
        (sink_change K.Sink devices.old.out devices.new.out)
        (sink_change N.Sink devices.old.notes devices.new.notes))) }
    ensures ends { EndsWhere (λ _. Unit {0}) file.now (status_in result)
        (shelf_change H.Shelf devices.old.shelf devices.new.shelf) }
{
    match load(alloc, &mut devices.shelf, file) {
        Ok(image) => run_image(alloc, options, image, devices),
        Err(stop) => Ok(Decision::of_stop(stop)),
    }
}

// Runs an image over the input. Nothing is put and nothing taken before the machine has all of its memory.
fn run_image<H: Shelf, S: Source, K: Sink, N: Sink>(
    alloc: Global,
    options: RunOptions,
    image: Image,
    devices: &mut Devices<H, S, K, N>,
) -> Result<Decision, Failed>
    ensures does { CommandEffect H.Shelf S.Source K.Sink N.Sink (runs.on options image) result devices.old devices.new }
    ensures ran { WhereEnded result (λ decision. DecidesRun options image decision
        (drawn S.Source devices.old.input devices.new.input)
        (sink_change K.Sink devices.old.out devices.new.out) (sink_change N.Sink devices.old.notes devices.new.notes)) }
    ensures ends { IsRunEnd (status_in result) ⊎ FailsOnTheWay (status_in result) }
    ensures shelf { devices.new.shelf ≡ devices.old.shelf }
{
    match Machine::new(alloc, image, options.complete) {
        Ok(machine) => run_machine(&mut RowMachine::new(alloc, machine), options, devices),
        Err(_) => Ok(Decision::of_status(Status::NoMemory)),
    }
}

// Runs a machine from the start.
fn run_machine<H: Shelf, S: Source, K: Sink, N: Sink>(
    machine: &mut RowMachine,
    options: RunOptions,
    devices: &mut Devices<H, S, K, N>,
) -> Result<Decision, Failed>
    requires completion { machine.old.completion ≡ options.complete }
    requires start { state_of machine.old ≡ start (program_of machine.old) }
    requires mode { IsTrue machine.old.kernel.user }
    ensures does { CommandEffect H.Shelf S.Source K.Sink N.Sink (runs.on options machine.old.image) result
        devices.old devices.new }
    ensures ran { WhereEnded result (λ decision. DecidesRun options machine.old.image decision
        (drawn S.Source devices.old.input devices.new.input)
        (sink_change K.Sink devices.old.out devices.new.out) (sink_change N.Sink devices.old.notes devices.new.notes)) }
    ensures ends { IsRunEnd (status_in result) ⊎ FailsOnTheWay (status_in result) }
    ensures shelf { devices.new.shelf ≡ devices.old.shelf }
{
    let mut left = options.steps;
    match run_sequential(
        machine,
        &mut devices.input,
        &mut devices.out,
        &mut devices.notes,
        &mut left,
        options.watch,
    ) {
        Ok(last) => Ok(Decision::after_run(last, 0)),
        Err(fault) => Decision::of_device_fault(fault),
    }
}
