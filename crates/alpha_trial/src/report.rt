//! The lines of a trial.

ghost use Rattle.std.specs.Prelude.{◌≡◌, ◌<◌, ◌++◌, OnOk, codes, decimal, length, slice_index, count_by};
ghost use Rattle.hex.specs.Hex.{encode_lower};
ghost use Rattle.alpha_trial.specs.Report.{is_trigger, line};
ghost use Rattle.alpha_trial.specs.Counted.{tally_of};

use alpha_image::Image;
use alpha_table::trap_op;
use itoa::Buffer;
use std::alloc::{AllocError, Global};

/// What is counted in a run.
#[derive(Clone, Copy, Debug)]
pub(crate) struct Counts {
    /// How many overflows were logged.
    pub(crate) overflows: u64,
    /// How many steps or units were made.
    pub(crate) steps: u64,
    /// How many words were drawn.
    pub(crate) drawn: u64,
}

/// Appends the line of a run of an image, by its mode, what was counted, and the output.
#[tactic(auto, unfolding(crate::specs::Report::line))]
pub(crate) fn push_line(
    alloc: Global,
    to: &mut Vec<u8>,
    mode: &[u8],
    image: &Image,
    counts: Counts,
    output: &[u8],
) -> Result<(), AllocError>
    ensures { OnOk result (to.new.items ≡ to.old.items
        ++ line mode.now image.now.words (tally_of counts output.now)) }
{
    to.extend_from_slice(mode)?;
    push_code(to, image)?;
    push_counts(to, counts)?;
    push_result(alloc, to, output)?;
    push_count(to, b" drawn ", counts.drawn)?;
    to.extend_from_slice(b"\n")?;
    Ok(())
}

// Appends what is counted in the code.
fn push_code(to: &mut Vec<u8>, image: &Image) -> Result<(), AllocError>
    ensures { OnOk result (to.new.items ≡ to.old.items
        ++ (codes " words " ++ decimal (length image.now.words)
        ++ codes " triggers " ++ decimal (count_by is_trigger image.now.words))) }
{
    push_count(to, b" words ", u64::from(image.words()))?;
    push_count(to, b" triggers ", u64::from(triggers(image)))
}

// Appends what is counted in the run.
fn push_counts(to: &mut Vec<u8>, counts: Counts) -> Result<(), AllocError>
    ensures { OnOk result (to.new.items ≡ to.old.items
        ++ (codes " overflows " ++ decimal counts.overflows
        ++ codes " steps " ++ decimal counts.steps)) }
{
    push_count(to, b" overflows ", counts.overflows)?;
    push_count(to, b" steps ", counts.steps)
}

// Appends a name and a number.
fn push_count(to: &mut Vec<u8>, name: &[u8], count: u64) -> Result<(), AllocError>
    ensures { OnOk result (to.new.items ≡ to.old.items ++ (name.now ++ decimal count)) }
{
    let mut buffer = Buffer::new();
    to.extend_from_slice(name)?;
    to.extend_from_slice(buffer.format(count).as_bytes())
}

// Appends the bytes of the output, two hexadecimal digits each.
fn push_result(alloc: Global, to: &mut Vec<u8>, output: &[u8]) -> Result<(), AllocError>
    ensures { OnOk result (to.new.items ≡ to.old.items
        ++ (codes " result " ++ encode_lower output.now)) }
{
    let digits = hex::encode(alloc, output)?;
    to.extend_from_slice(b" result ")?;
    to.extend_from_slice(digits.as_bytes())
}

// How many words of the code may trap.
fn triggers(image: &Image) -> u32
    ensures { result ≡ count_by is_trigger image.now.words }
{
    let mut count = 0;
    for place in 0..image.words() {
        if may_trap(image, place) {
            count += 1;
        }
    }
    count
}

// Whether the word at a place may trap.
fn may_trap(image: &Image, place: u32) -> bool
    requires { place < length image.now.words }
    ensures { result ≡ is_trigger (slice_index image.now.words place) }
{
    trap_op(&image.insn_at(place)).is_some()
}
