ghost use Rattle.std.specs.Prelude.{◌≡◌, ◌⊎◌, ◌↔◌, ◌<◌, length, take, IfOk, OnErr, IsErr, Contains};
ghost use Rattle.alpha_io.specs.Faults.{HasCause};
ghost use Rattle.alpha_io.specs.SinkState.{sink_started, sink_given, sink_failed};

use super::sink::MemorySink;
use crate::{Failed, Sink};
use alpha_words::NoMemory;
use std::alloc::Global;
use std::marker::Model;

/// A sink in memory that takes one byte a call, as a slow stream may. A clause sees its state.
#[derive(Drop)]
pub struct TrickleSink {
    sink: MemorySink,
}

impl Model for TrickleSink {
    ghost use Rattle.alpha_io.specs.SinkState.{SinkState};

    ghost Value = { SinkState };

    ghost view = { λ s. s.sink };
}

impl TrickleSink {
    /// An empty sink with room for so many bytes. The calls of `put` whose numbers, from 0, are
    /// listed fail. `NoMemory` where memory runs out.
    pub fn new(alloc: Global, room: usize, failing: Vec<u64>) -> Result<TrickleSink, NoMemory>
        ensures { IfOk result (λ s. s ≡ sink_started room failing.items) }
    {
        let sink = MemorySink::new(alloc, room, failing)?;
        Ok(TrickleSink { sink })
    }

    /// The bytes written so far.
    pub fn bytes(&self) -> &[u8]
        ensures { result.now ≡ self.now.written }
    {
        self.sink.bytes()
    }
}

impl Sink for TrickleSink {
    ghost use Rattle.std.specs.Prelude.{Some};

    ghost written = { λ s. Some s.written };

    ghost faults = { λ s. s.faults };

    /// Takes the first byte. It fails exactly where no room is left or the call is listed.
    fn put(&mut self, bytes: &[u8]) -> Result<usize, Failed>
        requires { 0 < length bytes.now }
        ensures fails { IsErr result ↔
            ((length self.old.written ≡ self.old.room) ⊎ Contains self.old.failing self.old.calls) }
        ensures count { IfOk result (λ n. n ≡ 1) }
        ensures given { IfOk result (λ n. self.new ≡ sink_given self.old (take 1 bytes.now)) }
        ensures failed { OnErr result (self.new ≡ sink_failed self.old) }
        ensures cause { HasCause self.old.faults self.new.faults result }
    {
        self.sink.put(&bytes[..1])
    }
}
