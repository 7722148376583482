ghost use Rattle.std.specs.Prelude.{◌≡◌, ◌↔◌, ◌<◌, ◌++◌, ◌∷◌, [], length, min, take, IfOk, OnErr, IsErr, Contains, Ok};
ghost use Rattle.std.specs.Io.{ReadsAtMost};
ghost use Rattle.alpha_io.specs.Faults.{HasCause};
ghost use Rattle.alpha_io.specs.History.{take_reply};
ghost use Rattle.alpha_io.specs.SourceState.{source_started, source_given, source_failed};

use super::{copy_front, is_listed};
use crate::fault::next_count;
use crate::history::History;
use crate::{Failed, Source};
use std::marker::Model;

/// A source that never fails. A clause sees the bytes still to come, and what its calls answered.
#[derive(Drop)]
pub struct SureSource {
    bytes: Vec<u8>,
    at: usize,
    history: History,
}

impl Model for SureSource {
    ghost use Rattle.std.specs.Prelude.{◌≤◌, length, drop};
    ghost use Rattle.alpha_io.specs.SourceState.{SureSourceState, sure_source_code};

    ghost Value = { SureSourceState };

    ghost coded = { sure_source_code };

    ghost view = { λ s. record {
      left = drop s.at s.bytes.items;
      replies = s.history.replies;
    } };

    ghost invariant = { λ s. s.at ≤ length s.bytes.items };
}

impl SureSource {
    /// A source of these bytes.
    pub fn new(bytes: Vec<u8>) -> SureSource
        ensures left { result.left ≡ bytes.items }
        ensures replies { result.replies ≡ [] }
    {
        SureSource {
            bytes,
            at: 0,
            history: History::new(),
        }
    }

    /// The bytes still to come.
    pub fn rest(&self) -> &[u8]
        ensures { result.now ≡ self.now.left }
    {
        &self.bytes[self.at..]
    }
}

impl Source for SureSource {
    ghost use Rattle.std.specs.Prelude.{Some};

    ghost left = { λ s. Some s.left };

    ghost replies = { λ s. s.replies };

    ghost faults = { λ _. 0 };

    /// As many bytes as are left and fit.
    fn take(&mut self, buf: &mut [u8]) -> Result<usize, Failed>
        requires { 0 < length buf.old }
        ensures count { result ≡ Ok (min (length buf.old) (length self.old.left)) }
        ensures bound { ReadsAtMost result buf.new }
        ensures given { IfOk result (λ n. self.old.left ≡ take n buf.new ++ self.new.left) }
        ensures replies { self.new.replies ≡ self.old.replies ++ take_reply result buf.new ∷ [] }
    {
        let count = copy_front(&self.bytes[self.at..], buf);
        self.at += count;
        self.history.note_take(Ok(count), buf);
        Ok(count)
    }
}

/// A source that gives at most `most` bytes per call. A clause sees its state.
#[derive(Drop)]
pub struct MemorySource {
    bytes: Vec<u8>,
    at: usize,
    most: usize,
    failing: Vec<u64>,
    calls: u64,
    faults: u64,
    history: History,
}

impl Model for MemorySource {
    ghost use Rattle.std.specs.Prelude.{◌<◌, ◌≤◌, length, drop};
    ghost use Rattle.alpha_io.specs.SourceState.{SourceState, source_code};

    ghost Value = { SourceState };

    ghost coded = { source_code };

    ghost view = { λ s. record {
      left = drop s.at s.bytes.items;
      most = s.most;
      failing = s.failing.items;
      calls = s.calls;
      faults = s.faults;
      replies = s.history.replies;
    } };

    ghost invariant = { λ s. (s.at ≤ length s.bytes.items) × (0 < s.most) };
}

impl MemorySource {
    /// A source of these bytes. The calls of `take` whose numbers, from 0, are listed fail.
    pub fn new(bytes: Vec<u8>, most: usize, failing: Vec<u64>) -> MemorySource
        requires { 0 < most }
        ensures { result ≡ source_started bytes.items most failing.items }
    {
        MemorySource {
            bytes,
            at: 0,
            most,
            failing,
            calls: 0,
            faults: 0,
            history: History::new(),
        }
    }
}

impl Source for MemorySource {
    ghost use Rattle.std.specs.Prelude.{Some};

    ghost left = { λ s. Some s.left };

    ghost replies = { λ s. s.replies };

    ghost faults = { λ s. s.faults };

    /// As many bytes as are left, fit and may be given. It fails exactly where the call is listed.
    fn take(&mut self, buf: &mut [u8]) -> Result<usize, Failed>
        requires { 0 < length buf.old }
        ensures fails { IsErr result ↔ Contains self.old.failing self.old.calls }
        ensures count { IfOk result (λ n.
            n ≡ min (min (length buf.old) self.old.most) (length self.old.left)) }
        ensures bound { ReadsAtMost result buf.new }
        ensures bytes { IfOk result (λ n. take n buf.new ≡ take n self.old.left) }
        ensures end { IfOk result (λ n. n ≡ 0 → self.old.left ≡ []) }
        ensures given { IfOk result (λ n.
            self.new ≡ source_given self.old n (take_reply result buf.new)) }
        ensures failed { OnErr result (self.new ≡ source_failed self.old (take_reply result buf.new)) }
        ensures replies { self.new.replies ≡ self.old.replies ++ take_reply result buf.new ∷ [] }
        ensures cause { HasCause self.old.faults self.new.faults result }
    {
        let number = self.calls;
        self.calls = next_count(number);
        if is_listed(&self.failing, number) {
            self.faults = next_count(self.faults);
            self.history.note_take(Err(Failed), buf);
            return Err(Failed);
        }
        let most = buf.len().min(self.most);
        let given = copy_front(&self.bytes[self.at..], &mut buf[..most]);
        self.at += given;
        self.history.note_take(Ok(given), buf);
        Ok(given)
    }
}

/// A source without bytes. A clause sees what its calls answered.
#[derive(Drop)]
pub struct EmptySource {
    history: History,
}

impl Model for EmptySource {
    ghost use Rattle.std.specs.Prelude.{List};
    ghost use Rattle.alpha_io.specs.History.{Reply, replies_code};

    ghost Value = { List Reply };

    ghost coded = { replies_code };

    ghost view = { λ s. s.history.replies };
}

impl EmptySource {
    /// One before any call.
    pub fn new() -> EmptySource
        ensures { result ≡ [] }
    {
        EmptySource {
            history: History::new(),
        }
    }
}

impl Source for EmptySource {
    ghost use Rattle.std.specs.Prelude.{Some, []};

    ghost left = { λ _. Some [] };

    ghost replies = { λ s. s };

    ghost faults = { λ _. 0 };

    fn take(&mut self, buf: &mut [u8]) -> Result<usize, Failed> {
        self.history.note_take(Ok(0), buf);
        Ok(0)
    }
}
