ghost use Rattle.std.specs.Prelude.{◌≡◌, ◌≢◌, ◌↔◌, ◌-◌, ◌<◌, ◌≤◌, ℕ, List, length, min, true, false, Some, None, IfOk};
ghost use Rattle.std.specs.Prelude.{OnOk, OnErr, IsErr, IsSomeAnd, string_bytes, option_copied};
ghost use Rattle.std.specs.Io.{ReadsAtMost};
ghost use Rattle.alpha_io.specs.History.{Kept, piece_reply};
ghost use Rattle.alpha_io.specs.Files.{IsPiece};
ghost use Rattle.alpha_io.specs.SureShelfState.{sure_started, sure_file, sure_takes, sure_answered};

use super::copy_piece;
use crate::history::History;
use crate::{Failed, Shelf};
use alpha_words::NoMemory;
use std::alloc::Global;
use std::marker::Model;

/// A shelf that never fails: it holds one file, and takes one more under a name of its own. A
/// clause sees its state.
#[derive(Drop)]
pub struct SureShelf {
    name: String,
    bytes: Vec<u8>,
    out: String,
    room: usize,
    is_kept: bool,
    kept: Vec<u8>,
    history: History,
}

impl Model for SureShelf {
    ghost use Rattle.std.specs.Prelude.{◌≤◌, ◌≢◌, vec_capacity, string_bytes, if◌then◌else◌, Some, None};
    ghost use Rattle.alpha_io.specs.SureShelfState.{SureShelfState, sure_code};

    ghost Value = { SureShelfState };

    ghost coded = { sure_code };

    ghost view = { λ s. record {
      name = string_bytes s.name;
      bytes = s.bytes.items;
      out = string_bytes s.out;
      room = s.room;
      kept = if s.is_kept then Some s.kept.items else None;
      replies = s.history.replies;
    } };

    ghost invariant = { λ s. (s.room ≤ vec_capacity s.kept)
        × (string_bytes s.name ≢ string_bytes s.out) };
}

impl SureShelf {
    /// A shelf that holds `bytes` under `name`, and takes at most `room` bytes under `out`.
    /// `NoMemory` where memory runs out.
    pub fn new(
        alloc: Global,
        name: String,
        bytes: Vec<u8>,
        out: String,
        room: usize,
    ) -> Result<SureShelf, NoMemory>
        requires { string_bytes name ≢ string_bytes out }
        ensures state { IfOk result (λ s.
            s ≡ sure_started (string_bytes name) bytes.items (string_bytes out) room) }
        ensures there { IfOk result (λ s. sure_file s (string_bytes name) ≡ Some bytes.items) }
        ensures taken { IfOk result (λ s.
            (n : ℕ) → n ≤ room → sure_takes s (string_bytes out) n ≡ true) }
    {
        let kept = Vec::with_capacity(alloc, room)?;
        Ok(SureShelf {
            name,
            bytes,
            out,
            room,
            is_kept: false,
            kept,
            history: History::new(),
        })
    }

    // The file's bytes, if it is there.
    fn find_file(&self, name: &str) -> Option<&[u8]>
        ensures { option_copied result ≡ sure_file self.now name.now }
    {
        if name == self.name.as_str() {
            Some(self.bytes.as_slice())
        } else if self.is_kept && name == self.out.as_str() {
            Some(self.kept.as_slice())
        } else {
            None
        }
    }
}

impl Shelf for SureShelf {
    ghost use Rattle.std.specs.Prelude.{Some};
    ghost use Rattle.alpha_io.specs.SureShelfState.{sure_file, sure_takes};

    ghost files = { λ s. Some (sure_file s) };

    ghost takes = { sure_takes };

    ghost replies = { λ s. s.replies };

    ghost faults = { λ _. 0 };

    /// It fails exactly where the file isn't there.
    fn piece(&mut self, name: &str, at: u64, buf: &mut [u8]) -> Result<usize, Failed>
        requires { 0 < length buf.old }
        ensures fails { IsErr result ↔ (sure_file self.old name.now ≡ None) }
        ensures bound { ReadsAtMost result buf.new }
        ensures count { IfOk result (λ n. IsSomeAnd (sure_file self.old name.now)
            (λ file. n ≡ min (length buf.old) (length file - at))) }
        ensures bytes { IfOk result (λ n. IsSomeAnd (sure_file self.old name.now)
            (λ file. IsPiece file at n buf.new)) }
        ensures same { self.new ≡ sure_answered self.old (piece_reply name.now at result buf.new) }
    {
        match self.find_file(name) {
            Some(file) => {
                let count = copy_piece(file, at, buf);
                self.history.note_piece(name, at, Ok(count), buf);
                Ok(count)
            }
            None => {
                self.history.note_piece(name, at, Err(Failed), buf);
                Err(Failed)
            }
        }
    }

    /// It fails exactly where the shelf doesn't take so many bytes under this name.
    fn keep(&mut self, name: &str, bytes: &[u8]) -> Result<(), Failed>
        ensures fails { IsErr result ↔ (sure_takes self.old name.now (length bytes.now) ≡ false) }
        ensures stored { OnOk result (self.new
            ≡ sure_answered (record self.old { kept = Some bytes.now }) (Kept name.now bytes.now true)) }
        ensures refused { OnErr result (self.new ≡ sure_answered self.old (Kept name.now bytes.now false)) }
        ensures ok { OnOk result (sure_file self.new name.now ≡ Some bytes.now) }
        ensures others { (other : List ℕ) → other ≢ name.now →
            sure_file self.new other ≡ sure_file self.old other }
    {
        if name != self.out.as_str() || bytes.len() > self.room {
            self.history.note_keep(name, bytes, Err(Failed));
            return Err(Failed);
        }
        self.kept.clear();
        self.kept.extend_from_slice(bytes).unwrap();
        self.is_kept = true;
        self.history.note_keep(name, bytes, Ok(()));
        Ok(())
    }
}
