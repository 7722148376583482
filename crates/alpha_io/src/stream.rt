ghost use Rattle.std.specs.Prelude.{◌≡◌};
ghost use Rattle.alpha_io.specs.Heard.{heard_nothing};

use crate::again::{read_again, write_again};
use crate::fault::{count_fault, next_count};
use crate::history::History;
use crate::{Failed, Sink, Source};
use std::io::{Read, Write};
use std::marker::Model;

/// A real reader as a source, which doesn't tell what is still to come. Each error counts one fault. A
/// clause sees what its calls answered, and the count of faults.
#[derive(Drop)]
pub struct ReadSource<R: Read> {
    reader: R,
    faults: u64,
    history: History,
}

impl<R: Read> Model for ReadSource<R> {
    ghost use Rattle.alpha_io.specs.Heard.{Heard, heard_code};

    ghost Value = { Heard };

    ghost coded = { heard_code };

    ghost view = { λ s. record {
      replies = s.history.replies;
      faults = s.faults;
    } };
}

impl<R: Read> ReadSource<R> {
    /// A source over the reader, without a fault so far.
    pub fn new(reader: R) -> ReadSource<R>
        ensures { result ≡ heard_nothing }
    {
        ReadSource {
            reader,
            faults: 0,
            history: History::new(),
        }
    }
}

impl<R: Read> Source for ReadSource<R> {
    ghost use Rattle.std.specs.Prelude.{None};

    ghost left = { λ _. None };

    ghost replies = { λ s. s.replies };

    ghost faults = { λ s. s.faults };

    fn take(&mut self, buf: &mut [u8]) -> Result<usize, Failed> {
        let answer = count_fault(read_again(&mut self.reader, buf), &mut self.faults);
        self.history.note_take(answer, buf);
        answer
    }
}

/// A real writer as a sink, which tells the bytes that it took. Each error, and each write of nothing,
/// counts one fault. A clause sees what its calls answered, and the count of faults.
#[derive(Drop)]
pub struct WriteSink<W: Write> {
    writer: W,
    faults: u64,
    history: History,
}

impl<W: Write> Model for WriteSink<W> {
    ghost use Rattle.alpha_io.specs.Heard.{Heard, heard_code};

    ghost Value = { Heard };

    ghost coded = { heard_code };

    ghost view = { λ s. record {
      replies = s.history.replies;
      faults = s.faults;
    } };
}

impl<W: Write> WriteSink<W> {
    /// A sink over the writer, without a fault so far.
    pub fn new(writer: W) -> WriteSink<W>
        ensures { result ≡ heard_nothing }
    {
        WriteSink {
            writer,
            faults: 0,
            history: History::new(),
        }
    }
}

impl<W: Write> Sink for WriteSink<W> {
    ghost use Rattle.std.specs.Prelude.{Some};
    ghost use Rattle.alpha_io.specs.History.{all_put};

    ghost written = { λ s. Some (all_put s.replies) };

    ghost faults = { λ s. s.faults };

    fn put(&mut self, bytes: &[u8]) -> Result<usize, Failed> {
        match write_again(&mut self.writer, bytes) {
            Ok(count) if count > 0 => {
                self.history.note_put(&bytes[..count]);
                Ok(count)
            }
            _ => {
                self.faults = next_count(self.faults);
                Err(Failed)
            }
        }
    }
}
