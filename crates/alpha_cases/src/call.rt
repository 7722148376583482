//! One call of the program over devices in memory.

use crate::case::File;
use crate::lines::{Entry, bytes_of, number_of, numbers_of, spelled};
use alpha_cmd::{Devices, Status, alpha_main};
use alpha_io::{MemoryShelf, MemorySink, MemorySource, read_whole};
use alpha_words::NoMemory;
use anyhow::bail;
use std::alloc::Global;

// How many bytes a call writes at most, to the output or to the notes.
const ROOM: usize = 16_777_216;

// How many bytes a file has at most.
const LARGEST: u64 = 18_874_368;

/// A device of a call.
#[derive(Clone, Copy, Debug, PartialEq, Eq)]
pub enum Device {
    /// The files.
    Shelf,
    /// Standard input.
    Input,
    /// Standard output.
    Output,
    /// Standard error.
    Notes,
}

/// The device of a name.
pub fn device_of(name: &str) -> anyhow::Result<Device> {
    match name {
        "shelf" => Ok(Device::Shelf),
        "input" => Ok(Device::Input),
        "out" => Ok(Device::Output),
        "notes" => Ok(Device::Notes),
        _ => bail!("no device: {name}"),
    }
}

impl Device {
    /// The status under which it fails.
    pub fn status(self) -> u8 {
        match self {
            Device::Shelf => 8,
            Device::Input => 9,
            Device::Output | Device::Notes => 10,
        }
    }

    /// The line of that status.
    pub fn line(self) -> &'static [u8] {
        match self {
            Device::Shelf => b"shelf\n",
            Device::Input => b"input\n",
            Device::Output | Device::Notes => b"",
        }
    }
}

/// The calls of each device that fail, from 0 on.
#[derive(Drop)]
pub struct Failing {
    /// Those of the files.
    pub shelf: Vec<u64>,
    /// Those of standard input.
    pub input: Vec<u64>,
    /// Those of standard output.
    pub output: Vec<u64>,
    /// Those of standard error.
    pub notes: Vec<u64>,
}

impl Failing {
    /// None fails.
    pub fn none(alloc: Global) -> Failing {
        Failing {
            shelf: Vec::new(alloc),
            input: Vec::new(alloc),
            output: Vec::new(alloc),
            notes: Vec::new(alloc),
        }
    }

    /// These calls of a device fail, and no others of it.
    pub fn set(&mut self, device: Device, calls: Vec<u64>) {
        match device {
            Device::Shelf => self.shelf = calls,
            Device::Input => self.input = calls,
            Device::Output => self.output = calls,
            Device::Notes => self.notes = calls,
        }
    }
}

/// What a call is made over.
#[derive(Drop)]
pub struct Call<'a> {
    /// Its words, in which `%` stands for the word that it is made for.
    pub words: &'a str,
    /// What stands on its standard input.
    pub input: Vec<u8>,
    /// How many bytes of the input one take gives at most.
    pub piece: usize,
    /// Which calls of the devices fail.
    pub failing: Failing,
}

/// What a call answered, what it wrote, and the files that it left.
#[derive(Drop)]
pub struct Answer {
    /// How it ended.
    pub status: Status,
    /// What it wrote to standard output.
    pub output: Vec<u8>,
    /// What it wrote to standard error.
    pub notes: Vec<u8>,
    shelf: MemoryShelf,
}

impl Answer {
    /// The bytes of a file that the call left. Its first look may be at a call of the shelf that fails.
    pub fn file(&mut self, alloc: Global, name: &str) -> anyhow::Result<Vec<u8>> {
        for _ in 0..2 {
            if let Ok(bytes) = read_whole(alloc, &mut self.shelf, name, LARGEST) {
                return Ok(bytes);
            }
        }
        bail!("no file: {name}")
    }
}

impl<'a> Call<'a> {
    /// A call of these words over no input, of which nothing fails.
    pub fn of(alloc: Global, words: &'a str) -> Call<'a> {
        Call {
            words,
            input: Vec::new(alloc),
            piece: 65_536,
            failing: Failing::none(alloc),
        }
    }

    /// The call with what an entry says of its devices.
    pub fn with(self, alloc: Global, entry: &Entry<'a>) -> anyhow::Result<Call<'a>> {
        let mut call = self;
        let rest = entry.rest;
        match entry.name {
            "input" => call.input.extend_from_slice(&spelled(alloc, rest)?)?,
            "inputhex" => call.input = bytes_of(alloc, rest)?,
            "script" => call.input.extend_from_slice(entry.block.as_bytes())?,
            "feeds" => {
                for _ in 0..number_of(rest)? {
                    call.input.push(10)?;
                }
            }
            "piece" => call.piece = number_of(rest)? as usize,
            "fails" => {
                let (device, calls) = rest.split_once(" ").unwrap_or((rest, ""));
                call.failing
                    .set(device_of(device)?, numbers_of(alloc, calls)?);
            }
            _ => bail!("what is {}?", entry.name),
        }
        Ok(call)
    }

    /// Makes the call over these files, for one word in place of `%`.
    pub fn make(&self, alloc: Global, files: &[File<'_>], word: &str) -> anyhow::Result<Answer> {
        let mut arguments = vec![in alloc; String::from_str(alloc, "alpha")?]?;
        for part in self.words.split_whitespace() {
            arguments.push(String::from_str(alloc, if part == "%" { word } else { part })?)?;
        }
        let mut shelf = MemoryShelf::new(alloc, self.failing.shelf.to_vec(alloc)?);
        for file in files {
            there(shelf.add(file.name, &file.bytes))?;
        }
        if self.piece == 0 {
            bail!("a piece has no bytes");
        }
        let input = MemorySource::new(
            self.input.to_vec(alloc)?,
            self.piece,
            self.failing.input.to_vec(alloc)?,
        );
        let out = there(MemorySink::new(alloc, ROOM, self.failing.output.to_vec(alloc)?))?;
        let notes = there(MemorySink::new(alloc, ROOM, self.failing.notes.to_vec(alloc)?))?;
        let mut devices = Devices {
            shelf,
            input,
            out,
            notes,
        };
        let status = alpha_main(alloc, arguments.as_slice(), &mut devices);
        Ok(Answer {
            status,
            output: devices.out.bytes().to_vec(alloc)?,
            notes: devices.notes.bytes().to_vec(alloc)?,
            shelf: devices.shelf,
        })
    }
}

/// What came, where memory was there.
pub fn there<T>(answer: Result<T, NoMemory>) -> anyhow::Result<T> {
    match answer {
        Ok(value) => Ok(value),
        Err(NoMemory) => bail!("no memory"),
    }
}
