//! The bytes that a step took and put, by how it went and the machine behind it.

ghost use Rattle.std.specs.Prelude.{◌≡◌};
ghost use Rattle.alpha_replay.specs.Events.{bytes_in, put_by, took_by};

use alpha_seq::{Event, Machine, Passed};

/// What a step took.
#[inline(always)]
pub(crate) fn bytes_taken<'a>(event: &Event, machine: &'a Machine) -> &'a [u8]
    ensures { result.now ≡ took_by event.now machine.now.memory }
{
    match *event {
        Event::Barrier(Passed::Took { addr, len }) => bytes_in(machine, addr, len),
        _ => &[],
    }
}

/// What a step put.
#[inline(always)]
pub(crate) fn bytes_put<'a>(event: &Event, machine: &'a Machine) -> &'a [u8]
    ensures { result.now ≡ put_by event.now machine.now.memory }
{
    match *event {
        Event::Barrier(Passed::Put { addr, len }) => bytes_in(machine, addr, len),
        _ => &[],
    }
}

// The bytes of a range, none where it doesn't lie within one region.
fn bytes_in(machine: &Machine, addr: u64, len: u64) -> &[u8]
    ensures { result.now ≡ bytes_in machine.now.memory addr len }
{
    match machine.memory.bytes(addr, len) {
        Some(bytes) => bytes,
        None => &[],
    }
}
