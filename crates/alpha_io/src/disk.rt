ghost use Rattle.std.specs.Prelude.{◌≡◌};
ghost use Rattle.std.specs.Io.{ReadsAtMost};
ghost use Rattle.alpha_io.specs.Heard.{heard_nothing};

use crate::again::read_again;
use crate::fault::count_fault;
use crate::history::History;
use crate::keep::Keep;
use crate::{Failed, Shelf};
use std::io::{Seek, SeekFrom};
use std::marker::Model;
use std::random::RandomSource;
use std::rt::Files;
use std::{fs, io};

/// The file system as a shelf, which tells nothing. Each error counts one fault, that of a missing
/// file too. A clause sees the count of faults.
///
/// A file that is read piece by piece is opened once: it stays open where a piece was read of it, until
/// its end was read or another piece or a `keep` is asked for. So a pipe is read too, from its start
/// to its end, and once.
///
/// A file that is kept is replaced whole by a new one beside it, whose bytes the system has stored, or stays as it
/// was. What is no regular file is written in place, and so is a file whose folder takes no new one, or whose owner,
/// group or access a new one might not have.
#[derive(Drop)]
pub struct DiskShelf<R: Files + RandomSource + AllocGlobal> {
    files: R,
    spares_streams: bool,
    begun: Option<Begun<R::File>>,
    faults: u64,
    history: History,
}

// A file that is open, how far it was read, and its name, unless no memory was left for it.
#[derive(Drop)]
struct Begun<F> {
    file: F,
    at: u64,
    name: Option<String>,
}

impl<R: Files + RandomSource + AllocGlobal> Model for DiskShelf<R> {
    ghost use Rattle.alpha_io.specs.Heard.{Heard, heard_code};

    ghost Value = { Heard };

    ghost coded = { heard_code };

    ghost view = { λ s. record {
      replies = s.history.replies;
      faults = s.faults;
    } };
}

impl<R: Files + RandomSource + AllocGlobal> DiskShelf<R> {
    /// The shelf of the runtime's file system, without a fault so far. A program's `main`, which is
    /// given `rt: HostRuntime`, makes it by `DiskShelf::new(&rt)`.
    pub fn new(files: R) -> DiskShelf<R>
        ensures { result ≡ heard_nothing }
    {
        DiskShelf {
            files,
            spares_streams: false,
            begun: None,
            faults: 0,
            history: History::new(),
        }
    }

    /// The same for a program that writes to its streams around a keep. It refuses to write a file or a pipe in place
    /// that standard output or standard error goes to, since neither would have its bytes whole.
    pub fn with_stream_guard(files: R) -> DiskShelf<R>
        ensures { result ≡ heard_nothing }
    {
        DiskShelf {
            files,
            spares_streams: true,
            begun: None,
            faults: 0,
            history: History::new(),
        }
    }

    // The file of that name from `at` on: the one that is open, if it was read up to there.
    fn begun_at(&mut self, name: &str, at: u64) -> io::Result<Begun<R::File>>
        ensures { self.new ≡ self.old }
    {
        match self.begun.take() {
            Some(begun) if begun.at == at && begun.name.as_deref() == Some(name) => Ok(begun),
            _ => {
                let mut file = fs::open(&self.files, name)?;
                // An open file stands at its start, and a pipe can be moved nowhere, not even there.
                if at > 0 {
                    file.seek(SeekFrom::Start(at))?;
                }
                let name = String::from_str(self.files.alloc(), name).ok();
                Ok(Begun { file, at, name })
            }
        }
    }

    // Reads from `at` on, and leaves the file open unless this is its end.
    fn read_at(&mut self, name: &str, at: u64, buf: &mut [u8]) -> io::Result<usize>
        ensures bound { ReadsAtMost result buf.new }
        ensures same { self.new ≡ self.old }
    {
        let mut begun = self.begun_at(name, at)?;
        let count = read_again(&mut begun.file, buf)?;
        begun.at = at.saturating_add(count as u64);
        if count > 0 {
            self.begun = Some(begun);
        }
        Ok(count)
    }
}

impl<R: Files + RandomSource + AllocGlobal> Shelf for DiskShelf<R> {
    ghost use Rattle.std.specs.Prelude.{None, true};

    ghost files = { λ _. None };

    ghost takes = { λ _ _ _. true };

    ghost replies = { λ s. s.replies };

    ghost faults = { λ s. s.faults };

    fn piece(&mut self, name: &str, at: u64, buf: &mut [u8]) -> Result<usize, Failed> {
        let answer = count_fault(self.read_at(name, at, buf), &mut self.faults);
        self.history.note_piece(name, at, answer, buf);
        answer
    }

    fn keep(&mut self, name: &str, bytes: &[u8]) -> Result<(), Failed> {
        self.begun = None;
        let keep = Keep {
            files: &self.files,
            name,
            bytes,
            spares_streams: self.spares_streams,
        };
        let answer = count_fault(keep.run(), &mut self.faults);
        self.history.note_keep(name, bytes, answer);
        answer
    }
}
