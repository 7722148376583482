ghost use Rattle.std.specs.Prelude.{◌≡◌, ◌⊎◌, ◌↔◌, ◌-◌, ◌<◌, length, min, take, IfOk, OnErr, IsErr, Contains, Ok, None};
ghost use Rattle.alpha_io.specs.Faults.{HasCause};
ghost use Rattle.alpha_io.specs.SinkState.{sink_started, sink_given, sink_failed};

use super::is_listed;
use crate::fault::next_count;
use crate::{Failed, Sink};
use alpha_words::NoMemory;
use std::alloc::Global;
use std::marker::Model;

/// A sink with room for so many bytes. A clause sees its state.
#[derive(Drop)]
pub struct MemorySink {
    bytes: Vec<u8>,
    room: usize,
    failing: Vec<u64>,
    calls: u64,
    faults: u64,
}

impl Model for MemorySink {
    ghost use Rattle.std.specs.Prelude.{◌≤◌, vec_len, vec_capacity};
    ghost use Rattle.alpha_io.specs.SinkState.{SinkState};

    ghost Value = { SinkState };

    ghost view = { λ s. record {
      written = s.bytes.items;
      room = s.room;
      failing = s.failing.items;
      calls = s.calls;
      faults = s.faults;
    } };

    ghost invariant = { λ s. (vec_len s.bytes ≤ s.room) × (s.room ≤ vec_capacity s.bytes) };
}

impl MemorySink {
    /// An empty sink. The calls of `put` whose numbers, from 0, are listed fail. `NoMemory` where
    /// memory runs out.
    pub fn new(alloc: Global, room: usize, failing: Vec<u64>) -> Result<MemorySink, NoMemory>
        ensures { IfOk result (λ s. s ≡ sink_started room failing.items) }
    {
        let bytes = Vec::with_capacity(alloc, room)?;
        Ok(MemorySink {
            bytes,
            room,
            failing,
            calls: 0,
            faults: 0,
        })
    }

    /// The bytes written so far.
    pub fn bytes(&self) -> &[u8]
        ensures { result.now ≡ self.now.written }
    {
        &self.bytes
    }
}

impl Sink for MemorySink {
    ghost use Rattle.std.specs.Prelude.{Some};

    ghost written = { λ s. Some s.written };

    ghost faults = { λ s. s.faults };

    /// Takes what fits into the room. It fails exactly where no room is left or the call is listed.
    fn put(&mut self, bytes: &[u8]) -> Result<usize, Failed>
        requires { 0 < length bytes.now }
        ensures fails { IsErr result ↔
            ((length self.old.written ≡ self.old.room) ⊎ Contains self.old.failing self.old.calls) }
        ensures count { IfOk result (λ n.
            n ≡ min (length bytes.now) (self.old.room - length self.old.written)) }
        ensures some { IfOk result (λ n. 0 < n) }
        ensures given { IfOk result (λ n. self.new ≡ sink_given self.old (take n bytes.now)) }
        ensures failed { OnErr result (self.new ≡ sink_failed self.old) }
        ensures cause { HasCause self.old.faults self.new.faults result }
    {
        let number = self.calls;
        self.calls = next_count(number);
        let room = self.room - self.bytes.len();
        if room == 0 || is_listed(&self.failing, number) {
            self.faults = next_count(self.faults);
            return Err(Failed);
        }
        let count = bytes.len().min(room);
        self.bytes.extend_from_slice(&bytes[..count]).unwrap();
        Ok(count)
    }
}

/// A sink that drops all bytes and never fails. It tells nothing.
#[derive(Clone, Copy, Debug)]
pub struct NullSink;

impl NullSink {
    /// A sink without a fault.
    pub fn new() -> NullSink
        ensures untold { ⟦<NullSink as Sink>⟧.written result ≡ None }
        ensures faults_unchanged { ⟦<NullSink as Sink>⟧.faults result ≡ 0 }
    {
        NullSink
    }
}

impl Sink for NullSink {
    ghost use Rattle.std.specs.Prelude.{None};

    ghost written = { λ _. None };

    ghost faults = { λ _. 0 };

    /// All of the bytes.
    fn put(&mut self, bytes: &[u8]) -> Result<usize, Failed>
        requires { 0 < length bytes.now }
        ensures { result ≡ Ok (length bytes.now) }
    {
        Ok(bytes.len())
    }
}
