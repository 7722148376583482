//! The items of a journal, read in two passes: the first one finds what is wrong, and takes no memory.

ghost use Rattle.std.specs.Prelude.{false, IfOk};
ghost use Rattle.alpha_replay.specs.Items.{parsed};
ghost use Rattle.alpha_replay.specs.Scanned.{Scans, Gives, GivesItems};

use crate::Item;
use std::alloc::{AllocError, Global};

/// What a pass over the items of a journal has found.
#[derive(Clone, Copy)]
pub(crate) struct Scanned {
    /// How many bytes they have.
    pub bytes: usize,
    /// How many units they use.
    pub units: u64,
}

/// So many items at the front of the bytes, or the number of the first that isn't whole or is bad.
pub(crate) fn scan_items(count: u32, bytes: &[u8]) -> Result<Scanned, u32>
    ensures value { Scans result (parsed count 0 false bytes.now) bytes.now }
{
    let mut at = 0;
    let mut units = 0;
    let mut behind = false;
    for n in 0..count {
        let Some(item) = Item::read(behind, &bytes[at..]) else {
            return Err(n);
        };
        at += item.size();
        units += u64::from(item.units());
        behind = item.is_units();
    }
    Ok(Scanned { bytes: at, units })
}

/// So many items at the front of the bytes, where they are good.
pub(crate) fn read_items(alloc: Global, count: u32, bytes: &[u8]) -> Result<Vec<Item>, AllocError>
    requires { Gives (parsed count 0 false bytes.now) }
    ensures value { IfOk result (λ items. GivesItems (parsed count 0 false bytes.now) items.items) }
{
    let mut items = Vec::with_capacity(alloc, count as usize)?;
    let mut at = 0;
    let mut behind = false;
    for n in 0..count {
        let Some(item) = Item::read(behind, &bytes[at..]) else {
            unreachable!()
        };
        at += item.size();
        behind = item.is_units();
        items.push(item)?;
    }
    Ok(items)
}
