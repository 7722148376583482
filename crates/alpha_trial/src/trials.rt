//! The trial: its two runs, and what it writes of them.

ghost use Rattle.std.specs.Prelude.{◌≡◌, ◌<◌, ◌≤◌, ◌^◌, ◌++◌, [], IfOk, OnOk, Err, codes};
ghost use Rattle.alpha_io.specs.SinkChange.{sink_change, Puts, WritesPartly, HasFailed};
ghost use Rattle.alpha_trial.specs.Words.{trial_image};
ghost use Rattle.alpha_trial.specs.Report.{run_tally, making_tally, line, sequential_run, imprecise_run, text_within};
ghost use Rattle.alpha_trial.specs.Report.{trial_text};

use crate::report::{Counts, push_line};
use crate::runs::{run_imprecise, run_sequential};
use crate::trial_image;
use alpha_image::Image;
use alpha_imprecise::{CountingChooser, PcgChooser, Wild};
use alpha_io::{Failed, MemorySink, Sink, SureSource, write_whole};
use alpha_rows::RowMachine;
use alpha_seq::Machine;
use alpha_verdict::judge_image;
use alpha_words::{Completion, NoMemory};
use std::alloc::Global;
use thiserror::Error;

// How many units each of the two runs may use.
const UNITS: u64 = 100_000_000;

// How many bytes the program puts.
const ROOM: usize = 8;

/// Why a trial was not written whole.
#[derive(Clone, Copy, Debug, PartialEq, Eq, Error)]
pub enum TrialFault {
    /// Memory ran out, and nothing was put.
    #[error("out of memory")]
    NoMemory,
    /// The sink failed, and a prefix of the report was put.
    #[error("the report could not be written")]
    Sink,
}

/// Makes the trial with a number, from 1 to 20,000: judges its image, runs it on the sequential machine
/// and then on the imprecise one by the words that the number seeds, over no input, and writes a line
/// for each run: `MODE words W triggers T overflows V steps S result H drawn D`.
///
/// # Errors
///
/// `NoMemory` where memory runs out, and nothing was put. `Sink` where the sink failed, and a prefix of
/// the lines was put.
pub fn trial<K: Sink>(alloc: Global, n: u32, out: &mut K) -> Result<(), TrialFault>
    requires some { 0 < n }
    requires bound { n ≤ 20000 }
    ensures ok { OnOk result (Puts (sink_change K.Sink out.old out.new) (trial_text n)) }
    ensures memory { result ≡ Err TrialFault.NoMemory
        → Puts (sink_change K.Sink out.old out.new) [] }
    ensures sink { result ≡ Err TrialFault.Sink
        → HasFailed (sink_change K.Sink out.old out.new) }
    ensures prefix { WritesPartly (sink_change K.Sink out.old out.new) (trial_text n) }
{
    match text(alloc, n) {
        Ok(text) => match write_whole(out, &text) {
            Ok(()) => Ok(()),
            Err(Failed) => Err(TrialFault::Sink),
        },
        Err(NoMemory) => Err(TrialFault::NoMemory),
    }
}

// Both lines.
#[tactic(auto, unfolding(crate::specs::Report::trial_text))]
fn text(alloc: Global, n: u32) -> Result<Vec<u8>, NoMemory>
    requires some { 0 < n }
    requires bound { n ≤ 20000 }
    ensures { IfOk result (λ text. text.items ≡ trial_text n) }
{
    text_within(alloc, n, UNITS)
}

// Both lines, of runs of so many units.
#[tactic(auto, unfolding(crate::specs::Report::text_within))]
fn text_within(alloc: Global, n: u32, units: u64) -> Result<Vec<u8>, NoMemory>
    requires some { 0 < n }
    requires bound { n ≤ 20000 }
    requires few { units ≤ 2 ^ 32 }
    ensures { IfOk result (λ text. text.items ≡ text_within units n) }
{
    let image = accepted_image(alloc, n)?;
    let mut text = Vec::new(alloc);
    let image = push_sequential(alloc, &mut text, image, units)?;
    push_imprecise(alloc, &mut text, image, u64::from(n), units)?;
    Ok(text)
}

// The image, which the checker accepts.
fn accepted_image(alloc: Global, n: u32) -> Result<Image, NoMemory>
    requires some { 0 < n }
    requires bound { n ≤ 20000 }
    ensures { IfOk result (λ image. image ≡ trial_image n) }
{
    let image = trial_image(alloc, n)?;
    match judge_image(&image) {
        Ok(()) => Ok(image),
        Err(_) => unreachable!(),
    }
}

// Appends the line of the sequential run, and gives the image back.
fn push_sequential(
    alloc: Global,
    text: &mut Vec<u8>,
    image: Image,
    units: u64,
) -> Result<Image, NoMemory>
    ensures text { IfOk result (λ _. text.new.items ≡ text.old.items
        ++ line (codes "sequential") image.words (run_tally (sequential_run units image))) }
    ensures image { IfOk result (λ given. given ≡ image) }
{
    let mut by_rows = RowMachine::new(alloc, Machine::new(alloc, image, Completion::Wrap)?);
    let mut input = SureSource::new(Vec::new(alloc));
    let mut out = MemorySink::new(alloc, ROOM, Vec::new(alloc))?;
    let steps = run_sequential(&mut by_rows, &mut input, &mut out, units)?;
    let machine = by_rows.into_machine();
    let counts = Counts {
        overflows: machine.overflows,
        steps,
        drawn: 0,
    };
    push_line(
        alloc,
        text,
        b"sequential",
        &machine.image,
        counts,
        out.bytes(),
    )?;
    Ok(machine.image)
}

// Appends the line of the imprecise run, by the words that a number seeds.
fn push_imprecise(
    alloc: Global,
    text: &mut Vec<u8>,
    image: Image,
    seed: u64,
    units: u64,
) -> Result<(), NoMemory>
    requires few { units ≤ 2 ^ 32 }
    ensures text { OnOk result (text.new.items ≡ text.old.items
        ++ line (codes "imprecise") image.words (making_tally (imprecise_run units image seed))) }
{
    let mut wild = Wild::with_rows(alloc, Machine::new(alloc, image, Completion::Wrap)?);
    let mut chooser = CountingChooser::new(PcgChooser::new(seed));
    let mut input = SureSource::new(Vec::new(alloc));
    let mut out = MemorySink::new(alloc, ROOM, Vec::new(alloc))?;
    let steps = run_imprecise(&mut wild, &mut chooser, &mut input, &mut out, units)?;
    let machine = wild.machine();
    let counts = Counts {
        overflows: machine.overflows,
        steps,
        drawn: chooser.drawn(),
    };
    push_line(
        alloc,
        text,
        b"imprecise",
        &machine.image,
        counts,
        out.bytes(),
    )?;
    Ok(())
}
