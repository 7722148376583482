//! `run --imprecise FILE`: a run of the image's program by the imprecise machine.

ghost use Rattle.std.specs.Prelude.{◌≡◌, ◌⊎◌, ◌++◌, ℕ, Bool, List, false, IfOk, IfErr, OnErr};
ghost use Rattle.alpha_io.specs.History.{Reply};
ghost use Rattle.alpha_io.specs.ShelfChange.{shelf_change};
ghost use Rattle.alpha_io.specs.SinkChange.{sink_change};
ghost use Rattle.alpha_shadow.specs.Broken.{IsAccepted};
ghost use Rattle.alpha_seq.specs.Devices.{drawn};
ghost use Rattle.alpha_request.specs.Options.{origin_of};
ghost use Rattle.alpha_cmd.specs.Chooser.{ahead_in};
ghost use Rattle.alpha_cmd.specs.Commands.Imprecise as wilds;
ghost use Rattle.alpha_cmd.specs.Commands.Imprecise.{IsBegun, MayRun, Passes, PlanOf, Planned, plan_by, plan_in};
ghost use Rattle.alpha_cmd.specs.CommandEffect.{CommandEffect};
ghost use Rattle.alpha_cmd.specs.Ends.{status_in};
ghost use Rattle.alpha_cmd.specs.PlanRead.{IsPlanRead, ReadsPlan};
ghost use Rattle.alpha_cmd.specs.Ran.{FailsOnTheWay};
ghost use Rattle.alpha_cmd.specs.RunsAsked.{DecidesPlan, EndsPlan, EndsWherePlan, WhereEnded};
ghost use Rattle.alpha_cmd.specs.Stage.{Computes, Stage};

use crate::Status;
use crate::chooser::{Choosing, chooser_of};
use crate::decision::Decision;
use crate::devices::Devices;
use crate::image::{load, require_accepted};
use crate::stop::Stop;
use alpha_image::Image;
use alpha_imprecise::{CountingChooser, Wild};
use alpha_io::{Failed, Shelf, Sink, Source};
use alpha_request::{Choices, RunOptions};
use alpha_run::run_imprecise;
use alpha_seq::Machine;
use std::alloc::Global;

/// What is asked of a run of the imprecise machine.
#[derive(Clone, Copy)]
pub(crate) struct ImpreciseCall<'a> {
    /// How it is run.
    pub(crate) options: RunOptions,
    /// Where the machine's choices come from.
    pub(crate) choices: Choices<'a>,
    /// Whether the verdict is passed over.
    pub(crate) force: bool,
    /// The name of the image's file.
    pub(crate) file: &'a str,
}

// An image, and the words by which the machine chooses.
#[derive(Drop)]
struct Plan {
    image: Image,
    chooser: Choosing,
}

/// A machine at the start of its program, and the words by which it chooses.
#[derive(Drop)]
pub(crate) struct Begun {
    /// The machine.
    pub(crate) wild: Wild,
    /// The words.
    pub(crate) chooser: CountingChooser<Choosing>,
}

/// Reads the image of a file and the choices, judges the image unless the verdict is passed over, and
/// runs it over the input.
#[inline(never)]
pub(crate) fn imprecise<H: Shelf, S: Source, K: Sink, N: Sink>(
    alloc: Global,
    asked: ImpreciseCall<'_>,
    devices: &mut Devices<H, S, K, N>,
) -> Result<Decision, Failed>
    ensures does { CommandEffect H.Shelf S.Source K.Sink N.Sink
        (wilds.form asked.entry.options (origin_of asked.entry.choices) asked.entry.force asked.entry.file.now)
        result devices.old devices.new }
    ensures ran { WhereEnded result (λ decision.
        ReadsPlan (shelf_change H.Shelf devices.old.shelf devices.new.shelf) (origin_of asked.entry.choices)
        asked.entry.file.now
        (λ plan. DecidesPlan asked.entry.options asked.entry.force plan decision
        (drawn S.Source devices.old.input devices.new.input)
        (sink_change K.Sink devices.old.out devices.new.out)
        (sink_change N.Sink devices.old.notes devices.new.notes))) }
    ensures ends { EndsWherePlan asked.entry.force (origin_of asked.entry.choices) asked.entry.file.now
        (status_in result) (shelf_change H.Shelf devices.old.shelf devices.new.shelf) }
{
    match prepare(alloc, &asked, &mut devices.shelf) {
        Ok(mut begun) => run_from_start(&mut begun, asked.options, devices),
        Err(stop) => Ok(Decision::of_stop(stop)),
    }
}

/// Reads the image of a file and then the choices, judges the image unless the verdict is passed over, and
/// makes the machine. So nothing is put and nothing taken before it has all of its memory.
#[inline(never)]
pub(crate) fn prepare<H: Shelf>(
    alloc: Global,
    asked: &ImpreciseCall<'_>,
    shelf: &mut H,
) -> Result<Begun, Stop>
    ensures stage { Stage
        (Planned (origin_of asked.now.choices) asked.now.force asked.now.file.now (H.files shelf.old))
        (λ begun. plan_in begun) result (shelf_change H.Shelf shelf.old shelf.new) }
    ensures begun { IfOk result (IsBegun asked.now.options) }
    ensures read { IfOk result (λ begun. IsPlanRead (H.replies shelf.old) (H.replies shelf.new)
        (origin_of asked.now.choices) asked.now.file.now (plan_in begun)) }
    ensures first { (plan : wilds.Plan) (middle rest : List Reply)
        → (asked.now.force ≡ false → IsAccepted plan.image.words)
        → IsPlanRead (H.replies shelf.old) middle (origin_of asked.now.choices) asked.now.file.now plan
        → H.replies shelf.new ≡ middle ++ rest → IfErr result (λ stop. stop ≡ Stop.OfStatus Status.NoMemory) }
{
    let plan = read_plan(alloc, asked.file, &asked.choices, shelf)?;
    require_pass(&plan, asked.force)?;
    begin(alloc, plan, asked.options)
}

// Reads the image of a file, and then the choices.
fn read_plan<H: Shelf>(
    alloc: Global,
    file: &str,
    choices: &Choices<'_>,
    shelf: &mut H,
) -> Result<Plan, Stop>
    ensures stage { Stage (PlanOf (H.files shelf.old) file.now (origin_of choices.now))
        (λ plan. plan_by plan.image (ahead_in plan.chooser)) result (shelf_change H.Shelf shelf.old shelf.new) }
    ensures read { IfOk result (λ plan. IsPlanRead (H.replies shelf.old) (H.replies shelf.new)
        (origin_of choices.now) file.now (plan_by plan.image (ahead_in plan.chooser))) }
    ensures first { (plan : wilds.Plan) (middle rest : List Reply)
        → IsPlanRead (H.replies shelf.old) middle (origin_of choices.now) file.now plan
        → H.replies shelf.new ≡ middle ++ rest → IfErr result (λ stop. stop ≡ Stop.OfStatus Status.NoMemory) }
{
    let image = load(alloc, shelf, file)?;
    let chooser = chooser_of(alloc, choices, shelf)?;
    Ok(Plan { image, chooser })
}

// Judges the image of a plan, unless the verdict is passed over.
fn require_pass(plan: &Plan, force: bool) -> Result<(), Stop>
    ensures whole { (force ≡ false → IsAccepted plan.now.image.words) → OnErr result ⊥ }
    ensures computes { Computes (Passes force (plan_by plan.now.image (ahead_in plan.now.chooser)))
        (λ _. plan_by plan.now.image (ahead_in plan.now.chooser)) result }
{
    if force {
        Ok(())
    } else {
        require_accepted(&plan.image)
    }
}

// A machine at the start of an image's program.
fn begin(alloc: Global, plan: Plan, options: RunOptions) -> Result<Begun, Stop>
    ensures ok { IfOk result (λ begun. plan_in begun ≡ plan_by plan.image (ahead_in plan.chooser)) }
    ensures begun { IfOk result (IsBegun options) }
    ensures refused { IfErr result (λ stop. stop ≡ Stop.OfStatus Status.NoMemory) }
{
    match Machine::new(alloc, plan.image, options.complete) {
        Ok(machine) => {
            let wild = Wild::with_rows(alloc, machine);
            let chooser = CountingChooser::new(plan.chooser);
            Ok(Begun { wild, chooser })
        }
        Err(_) => Err(Stop::OfStatus(Status::NoMemory)),
    }
}

// Runs a machine from the start.
fn run_from_start<H: Shelf, S: Source, K: Sink, N: Sink>(
    begun: &mut Begun,
    options: RunOptions,
    devices: &mut Devices<H, S, K, N>,
) -> Result<Decision, Failed>
    requires { IsBegun options begun.old }
    ensures does { (force : Bool) → MayRun force (plan_in begun.old)
        → CommandEffect H.Shelf S.Source K.Sink N.Sink (wilds.on options force (plan_in begun.old)) result
        devices.old devices.new }
    ensures ran { (force : Bool) → MayRun force (plan_in begun.old)
        → WhereEnded result (λ decision. DecidesPlan options force (plan_in begun.old) decision
        (drawn S.Source devices.old.input devices.new.input)
        (sink_change K.Sink devices.old.out devices.new.out) (sink_change N.Sink devices.old.notes devices.new.notes)) }
    ensures ends { (force : Bool) → MayRun force (plan_in begun.old)
        → EndsPlan force (status_in result) ⊎ FailsOnTheWay (status_in result) }
    ensures shelf { devices.new.shelf ≡ devices.old.shelf }
{
    let mut left = options.steps;
    match run_imprecise(
        &mut begun.wild,
        &mut begun.chooser,
        &mut devices.input,
        &mut devices.out,
        &mut devices.notes,
        &mut left,
        options.watch,
    ) {
        Ok(last) => Ok(Decision::after_run(last, begun.chooser.drawn())),
        Err(fault) => Decision::of_device_fault(fault),
    }
}
