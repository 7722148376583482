ghost use Rattle.std.specs.Prelude.{◌≡◌, ◌≢◌, ◌⊎◌, ◌↔◌, ◌-◌, ◌<◌, ℕ, List, length, min, Some, None, IfOk, OnOk, OnErr};
ghost use Rattle.std.specs.Prelude.{IsErr, IsSomeAnd, MatchOption, Contains, option_copied, false};
ghost use Rattle.std.specs.Io.{ReadsAtMost};
ghost use Rattle.std.specs.FinMap as map;
ghost use Rattle.alpha_io.specs.History.{Kept, piece_reply};
ghost use Rattle.alpha_io.specs.Faults.{HasCause, HasCauseOr};
ghost use Rattle.alpha_io.specs.Files.{IsPiece};
ghost use Rattle.alpha_io.specs.ShelfState.{file_map, shelf_started, shelf_with, shelf_counted, shelf_failed};
ghost use Rattle.alpha_io.specs.ShelfState.{shelf_kept};

use super::{copy_piece, is_listed};
use crate::fault::next_count;
use crate::history::History;
use crate::{Failed, Shelf};
use alpha_words::NoMemory;
use std::alloc::Global;
use std::collections::BTreeMap;
use std::marker::Model;

type FileMap = BTreeMap<String, Vec<u8>>;

/// A shelf in memory, which takes every file. A clause sees its state.
#[derive(Drop)]
pub struct MemoryShelf {
    alloc: Global,
    files: FileMap,
    failing: Vec<u64>,
    calls: u64,
    faults: u64,
    history: History,
}

impl Model for MemoryShelf {
    ghost use Rattle.alpha_io.specs.ShelfState.{ShelfState, shelf_code, file_map};

    ghost Value = { ShelfState };

    ghost coded = { shelf_code };

    ghost view = { λ s. record {
      files = file_map s.files.entries;
      failing = s.failing.items;
      calls = s.calls;
      faults = s.faults;
      replies = s.history.replies;
    } };
}

impl MemoryShelf {
    /// An empty shelf. Of the calls of `piece` and `keep`, numbered together from 0, those whose
    /// numbers are listed are faults, but for a piece of a file that isn't there.
    pub fn new(alloc: Global, failing: Vec<u64>) -> MemoryShelf
        ensures { result ≡ shelf_started failing.items }
    {
        MemoryShelf {
            alloc,
            files: BTreeMap::new(alloc),
            failing,
            calls: 0,
            faults: 0,
            history: History::new(),
        }
    }

    /// Puts a file there, in place of one of this name, which is no call of the shelf. `NoMemory` changes nothing.
    pub fn add(&mut self, name: &str, bytes: &[u8]) -> Result<(), NoMemory>
        ensures stored { OnOk result (self.new ≡ shelf_with self.old name.now bytes.now) }
        ensures there { OnOk result (map.get self.new.files name.now ≡ Some bytes.now) }
        ensures others { OnOk result ((other : List ℕ) → other ≢ name.now →
            map.get self.new.files other ≡ map.get self.old.files other) }
        ensures refused { OnErr result (self.new ≡ self.old) }
    {
        store(self.alloc, &mut self.files, name, bytes)
    }
}

impl Shelf for MemoryShelf {
    ghost use Rattle.std.specs.Prelude.{Some, true};
    ghost use Rattle.std.specs.FinMap as map;

    ghost files = { λ s. Some (λ name. map.get s.files name) };

    ghost takes = { λ _ _ _. true };

    ghost replies = { λ s. s.replies };

    ghost faults = { λ s. s.faults };

    /// It fails exactly where the file isn't there or the call is listed.
    fn piece(&mut self, name: &str, at: u64, buf: &mut [u8]) -> Result<usize, Failed>
        requires { 0 < length buf.old }
        ensures fails { IsErr result ↔
            ((map.get self.old.files name.now ≡ None) ⊎ Contains self.old.failing self.old.calls) }
        ensures bound { ReadsAtMost result buf.new }
        ensures count { IfOk result (λ n. IsSomeAnd (map.get self.old.files name.now)
            (λ file. n ≡ min (length buf.old) (length file - at))) }
        ensures bytes { IfOk result (λ n. IsSomeAnd (map.get self.old.files name.now)
            (λ file. IsPiece file at n buf.new)) }
        ensures given { OnOk result (self.new
            ≡ shelf_counted self.old (piece_reply name.now at result buf.new)) }
        ensures failed { OnErr result (MatchOption (map.get self.old.files name.now)
            (self.new ≡ shelf_counted self.old (piece_reply name.now at result buf.new))
            (λ _. self.new ≡ shelf_failed self.old (piece_reply name.now at result buf.new))) }
        ensures files { self.new.files ≡ self.old.files }
        ensures cause { HasCauseOr (map.get self.old.files name.now ≡ None)
            self.old.faults self.new.faults result }
    {
        let number = self.calls;
        self.calls = next_count(number);
        let Some(file) = find_file(&self.files, name) else {
            self.history.note_piece(name, at, Err(Failed), buf);
            return Err(Failed);
        };
        if is_listed(&self.failing, number) {
            self.faults = next_count(self.faults);
            self.history.note_piece(name, at, Err(Failed), buf);
            return Err(Failed);
        }
        let count = copy_piece(file, at, buf);
        self.history.note_piece(name, at, Ok(count), buf);
        Ok(count)
    }

    /// It fails where the call is listed, or for want of memory, which is a fault too.
    fn keep(&mut self, name: &str, bytes: &[u8]) -> Result<(), Failed>
        ensures listed { Contains self.old.failing self.old.calls → IsErr result }
        ensures stored { OnOk result (self.new ≡ shelf_kept self.old name.now bytes.now) }
        ensures failed { OnErr result (self.new ≡ shelf_failed self.old (Kept name.now bytes.now false)) }
        ensures ok { OnOk result (map.get self.new.files name.now ≡ Some bytes.now) }
        ensures others { (other : List ℕ) → other ≢ name.now →
            map.get self.new.files other ≡ map.get self.old.files other }
        ensures cause { HasCause self.old.faults self.new.faults result }
    {
        let number = self.calls;
        self.calls = next_count(number);
        if is_listed(&self.failing, number)
            || store(self.alloc, &mut self.files, name, bytes).is_err()
        {
            self.faults = next_count(self.faults);
            self.history.note_keep(name, bytes, Err(Failed));
            return Err(Failed);
        }
        self.history.note_keep(name, bytes, Ok(()));
        Ok(())
    }
}

// Puts a file there.
fn store(alloc: Global, files: &mut FileMap, name: &str, bytes: &[u8]) -> Result<(), NoMemory>
    ensures stored { OnOk result
        (file_map files.new.entries ≡ map.insert (file_map files.old.entries) name.now bytes.now) }
    ensures there { OnOk result (map.get (file_map files.new.entries) name.now ≡ Some bytes.now) }
    ensures others { OnOk result ((other : List ℕ) → other ≢ name.now →
        map.get (file_map files.new.entries) other ≡ map.get (file_map files.old.entries) other) }
    ensures refused { OnErr result (files.new.entries ≡ files.old.entries) }
{
    let key = String::from_str(alloc, name)?;
    let value = bytes.to_vec(alloc)?;
    files.insert(key, value)?;
    Ok(())
}

// The file's bytes, if it is there.
fn find_file<'a>(files: &'a FileMap, name: &str) -> Option<&'a [u8]>
    ensures { option_copied result ≡ map.get (file_map files.now.entries) name.now }
{
    Some(files.get(name)?.as_slice())
}
