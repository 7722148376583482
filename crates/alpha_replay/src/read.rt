//! Journals that are read from their bytes.

ghost use Rattle.std.specs.Prelude.{◌≡◌, ◌≢◌, ◌≤◌, length, IfOk, IfErr};
ghost use Rattle.alpha_replay.specs.JournalHeader.{header_numbers};
ghost use Rattle.alpha_replay.specs.Journal.{IsJournal, spelling};
ghost use Rattle.alpha_replay.specs.Reading.{numbers_in, items_at, items_in};
ghost use Rattle.alpha_replay.specs.JournalFault.{Tells, items_fault, first_fault};

use crate::items::{read_items, scan_items};
use crate::journal_header::{FRONT_BYTES, JournalHeader};
use crate::{Journal, JournalFault};
use std::alloc::Global;

/// How many units the items of a journal use at most.
pub(crate) const MOST_UNITS: u32 = 1_000_000_000;

// Refuses items that are bad, use too many units, or have bytes behind them.
#[tactic(auto, unfolding(crate::specs::Reading::items_in))]
fn check_items(header: &JournalHeader, bytes: &[u8]) -> Result<(), JournalFault>
    requires numbers { header_numbers header.now ≡ numbers_in bytes.now }
    requires whole { items_at (header_numbers header.now) ≤ length bytes.now }
    ensures fault { Tells result (items_fault (length bytes.now) (items_in bytes.now)) }
    ensures memory { IfErr result (λ e. e ≢ JournalFault.NoMemory) }
{
    let start = header.items_at();
    let items = &bytes[start..];
    let scanned = match scan_items(header.items, items) {
        Ok(scanned) => scanned,
        Err(n) => return Err(JournalFault::Item(n)),
    };
    if u64::from(MOST_UNITS) < scanned.units {
        return Err(JournalFault::Units);
    }
    if scanned.bytes < items.len() {
        return Err(JournalFault::Rest((start + scanned.bytes) as u64));
    }
    Ok(())
}

/// The journal that the bytes spell. Memory taken is that of its input, its output and its items.
///
/// # Errors
///
/// The first fault, in the order that [`JournalFault`] has. `NoMemory` comes only where there is no fault.
pub fn read_journal(alloc: Global, bytes: &[u8]) -> Result<Journal, JournalFault>
    ensures good { IfOk result IsJournal }
    ensures spelled { IfOk result (λ journal. bytes.now ≡ spelling journal) }
    ensures fault { Tells result (first_fault bytes.now) }
{
    let front = JournalHeader::parse(bytes)?;
    check_items(&front, bytes)?;
    let (input, behind) = bytes[FRONT_BYTES..].split_at(front.input as usize);
    let (output, items) = behind.split_at(front.output as usize);
    let input = Vec::from_slice(alloc, input)?;
    let output = Vec::from_slice(alloc, output)?;
    let items = read_items(alloc, front.items, items)?;
    Ok(Journal::of_parts(front.completion(), front.ending(), input, output, items))
}
