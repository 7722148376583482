//! The bytes of a journal.

ghost use Rattle.std.specs.Prelude.{◌≡◌, ◌≤◌, ◌*◌, ◌++◌, length, OnOk, IfOk};
ghost use Rattle.std.specs.List.{flat_map};
ghost use Rattle.alpha_replay.specs.Items.{item_bytes};
ghost use Rattle.alpha_replay.specs.Journal.{IsJournal, completion_number, numbers, header_bytes, spelling, most_items};

use crate::journal_header::{FRONT_BYTES, MAGIC};
use crate::{Item, Journal};
use alpha_image::{push_longword, push_quadword};
use alpha_words::{Completion, NoMemory};
use std::alloc::{AllocError, Global};

impl Item {
    // Appends the bytes of the item.
    fn push_onto(&self, out: &mut Vec<u8>) -> Result<(), AllocError>
        ensures ok { OnOk result (out.new.items ≡ out.old.items ++ item_bytes self.now) }
    {
        match *self {
            Item::Units(units) => {
                out.extend_from_slice(&[0])?;
                push_longword(out, units)
            }
            Item::Trigger(value) => {
                out.extend_from_slice(&[1])?;
                push_quadword(out, value)
            }
            Item::Wait { adds, value } => {
                out.extend_from_slice(&[2, u8::from(adds)])?;
                push_quadword(out, value)
            }
            Item::Report => out.extend_from_slice(&[3]),
        }
    }
}

// The number of a completion.
fn completion_number(completion: Completion) -> u8
    ensures value { result ≡ completion_number completion }
{
    match completion {
        Completion::Wrap => 0,
        Completion::Saturate => 1,
        Completion::Stop => 2,
    }
}

impl Journal {
    // Appends what stands before the input.
    #[tactic(auto, unfolding(crate::specs::Journal::header_bytes))]
    fn push_header(&self, out: &mut Vec<u8>) -> Result<(), AllocError>
        ensures ok { OnOk result (out.new.items ≡ out.old.items ++ header_bytes (numbers self.now)) }
    {
        let ending = self.ending();
        out.extend_from_slice(&MAGIC)?;
        out.extend_from_slice(&[completion_number(self.completion()), ending.kind()])?;
        push_quadword(out, ending.first())?;
        push_quadword(out, ending.second())?;
        push_longword(out, self.input().len() as u32)?;
        push_longword(out, self.output().len() as u32)?;
        push_longword(out, self.items().len() as u32)
    }
}

// Appends the bytes of the items.
fn push_items(out: &mut Vec<u8>, items: &[Item]) -> Result<(), AllocError>
    ensures ok { OnOk result (out.new.items ≡ out.old.items ++ flat_map item_bytes items.now) }
{
    for item in items {
        item.push_onto(out)?;
    }
    Ok(())
}

// How many bytes the items have.
fn bytes_of(items: &[Item]) -> usize
    requires few { length items.now ≤ most_items }
    ensures bound { result ≤ 10 * length items.now }
{
    let mut bytes = 0;
    for item in items {
        bytes += item.size();
    }
    bytes
}

/// The one spelling of a journal, which is a good one. Memory taken is that of these bytes.
/// `NoMemory` where memory runs out.
pub fn journal_bytes(alloc: Global, journal: &Journal) -> Result<Vec<u8>, NoMemory>
    ensures value { IfOk result (λ bytes. bytes.items ≡ spelling journal.now) }
    ensures good { IsJournal journal.now }
{
    let (input, output, items) = (journal.input(), journal.output(), journal.items());
    let size = FRONT_BYTES + input.len() + output.len() + bytes_of(items);
    let mut out = Vec::with_capacity(alloc, size)?;
    journal.push_header(&mut out)?;
    out.extend_from_slice(input)?;
    out.extend_from_slice(output)?;
    push_items(&mut out, items)?;
    Ok(out)
}
