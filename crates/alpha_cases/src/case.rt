//! The cases of a file, and what differs.

use crate::call::{Answer, Call, Device, device_of, there};
use crate::lines::{Entry, bytes_of, entries_of, number_of, numbers_of, spelled};
use alpha_asm::assemble;
use alpha_cmd::Status;
use alpha_image::image_bytes;
use alpha_link::{make_module, module_bytes};
use anyhow::{anyhow, bail};
use std::alloc::Global;

// How often a call is made at most until its status comes.
const MOST_CALLS: u64 = 100_000;

/// A file of a case.
#[derive(Drop)]
pub struct File<'a> {
    /// Its name on the shelf.
    pub name: &'a str,
    /// What stands in it.
    pub bytes: Vec<u8>,
}

/// What a call should answer, and should have written.
#[derive(Drop)]
struct Wanted<'a> {
    status: u64,
    drawn: Option<u64>,
    output: Vec<u8>,
    notes: Vec<u8>,
    /// A file, and the one whose bytes it should hold.
    keeps: Option<(&'a str, &'a str)>,
}

/// A case with the call in hand.
#[derive(Drop)]
struct Scene<'a> {
    name: &'a str,
    files: Vec<File<'a>>,
    call: Option<Call<'a>>,
    /// The words that the call is made for; none for a call that is made once.
    each: &'a str,
    until: Option<Device>,
    wanted: Wanted<'a>,
}

/// Runs the cases of a file, prints what differs, and answers how many calls were right.
pub fn run(rt: &HostRuntime, alloc: Global, text: &str) -> anyhow::Result<u64> {
    let mut right = 0u64;
    let mut scene = Scene::of(alloc, "");
    for entry in entries_of(alloc, text)? {
        // What stands behind a call and doesn't speak of it ends it.
        if entry.name == "case" || entry.name == "call" || is_file(entry.name) {
            right = right.saturating_add(scene.judge(rt, alloc)?);
        }
        if entry.name == "case" {
            scene = Scene::of(alloc, entry.rest);
        } else {
            scene.take(alloc, entry)?;
        }
    }
    Ok(right.saturating_add(scene.judge(rt, alloc)?))
}

// Whether an entry says what stands in a file.
fn is_file(name: &str) -> bool {
    matches!(
        name,
        "source"
            | "module"
            | "text"
            | "spelled"
            | "bytes"
            | "changed"
            | "front"
            | "zeros"
            | "choices"
    )
}

impl<'a> Wanted<'a> {
    /// Status 0, and nothing written.
    fn nothing(alloc: Global) -> Wanted<'a> {
        Wanted {
            status: 0,
            drawn: None,
            output: Vec::new(alloc),
            notes: Vec::new(alloc),
            keeps: None,
        }
    }

    // Takes an entry that says what is wanted.
    fn take(&mut self, alloc: Global, entry: &Entry<'a>) -> anyhow::Result<()> {
        let rest = entry.rest;
        match entry.name {
            "status" => {
                let (number, drawn) = rest.split_once(" drawn ").unwrap_or((rest, ""));
                self.status = number_of(number)?;
                if !drawn.is_empty() {
                    self.drawn = Some(number_of(drawn)?);
                }
            }
            "out" => self.output = entry.block.as_bytes().to_vec(alloc)?,
            "says" => {
                let (number, line) = rest.split_once(" ").unwrap_or((rest, ""));
                self.status = number_of(number)?;
                self.notes = line.as_bytes().to_vec(alloc)?;
                self.notes.push(b'\n')?;
            }
            "writes" => self.output = spelled(alloc, rest)?,
            "outhex" => self.output = bytes_of(alloc, rest)?,
            "notes" => self.notes = entry.block.as_bytes().to_vec(alloc)?,
            "keeps" => match rest.split_once(" ") {
                Some(names) => self.keeps = Some(names),
                None => bail!("keeps what?"),
            },
            _ => bail!("what is {}?", entry.name),
        }
        Ok(())
    }
}

impl<'a> Scene<'a> {
    fn of(alloc: Global, name: &'a str) -> Scene<'a> {
        Scene {
            name,
            files: Vec::new(alloc),
            call: None,
            each: "",
            until: None,
            wanted: Wanted::nothing(alloc),
        }
    }

    // Takes an entry of the case.
    fn take(&mut self, alloc: Global, entry: Entry<'a>) -> anyhow::Result<()> {
        if is_file(entry.name) {
            let (name, stmt) = entry.rest.split_once(" ").unwrap_or((entry.rest, ""));
            let bytes = self.bytes_said(alloc, &entry, stmt)?;
            self.files.push(File { name, bytes })?;
            return Ok(());
        }
        if entry.name == "call" {
            self.call = Some(Call::of(alloc, entry.rest));
            self.each = "";
            self.until = None;
            self.wanted = Wanted::nothing(alloc);
            return Ok(());
        }
        self.take_of_call(alloc, entry)
    }

    // The bytes of a file, by an entry and what stands behind the file's name.
    fn bytes_said(&self, alloc: Global, entry: &Entry<'_>, stmt: &str) -> anyhow::Result<Vec<u8>> {
        let block = entry.block.as_bytes();
        match entry.name {
            "source" => image_of(alloc, block),
            "module" => module_of(alloc, block),
            "text" => Ok(block.to_vec(alloc)?),
            "spelled" => spelled(alloc, stmt),
            "bytes" => bytes_of(alloc, stmt),
            "changed" => self.changed(alloc, stmt),
            "front" => self.front(alloc, stmt),
            "zeros" => Ok(vec![in alloc; 0; number_of(stmt)? as usize]?),
            "choices" => choices_of(alloc, &entry.block),
            _ => bail!("what is {}?", entry.name),
        }
    }

    // Takes an entry that speaks of the call in hand.
    fn take_of_call(&mut self, alloc: Global, entry: Entry<'a>) -> anyhow::Result<()> {
        match entry.name {
            "for" => {
                self.each = entry.rest;
                Ok(())
            }
            "until" => {
                self.until = Some(device_of(entry.rest)?);
                Ok(())
            }
            "input" | "inputhex" | "script" | "feeds" | "piece" | "fails" => match self
                .call
                .take()
            {
                Some(call) => {
                    self.call = Some(call.with(alloc, &entry)?);
                    Ok(())
                }
                None => Err(anyhow!("{}: there is no call", self.name)),
            },
            _ => self.wanted.take(alloc, &entry),
        }
    }

    // The bytes of the last file of that name so far.
    fn bytes_named(&self, name: &str) -> anyhow::Result<&[u8]> {
        match self.files.iter().rev().find(|file| file.name == name) {
            Some(file) => Ok(&file.bytes),
            None => bail!("{}: no file {name}", self.name),
        }
    }

    // The bytes of a file with others from a place on: `FILE PLACE HEX`.
    fn changed(&self, alloc: Global, change: &str) -> anyhow::Result<Vec<u8>> {
        let (of, change) = change.split_once(" ").unwrap_or((change, ""));
        let (place, digits) = change.split_once(" ").unwrap_or((change, ""));
        let mut bytes = self.bytes_named(of)?.to_vec(alloc)?;
        let mut at = number_of(place)? as usize;
        for byte in bytes_of(alloc, digits)? {
            match bytes.get_mut(at) {
                Some(changed) => *changed = byte,
                None => bail!("{}: {of} has no byte {at}", self.name),
            }
            at = at.saturating_add(1);
        }
        Ok(bytes)
    }

    // The first bytes of a file: `FILE COUNT`.
    fn front(&self, alloc: Global, front: &str) -> anyhow::Result<Vec<u8>> {
        let (of, count) = front.split_once(" ").unwrap_or((front, ""));
        let bytes = self.bytes_named(of)?;
        let end = (number_of(count)? as usize).min(bytes.len());
        Ok(bytes[..end].to_vec(alloc)?)
    }

    // Makes the call in hand, for each of its words, and answers how often it was right.
    fn judge(&mut self, rt: &HostRuntime, alloc: Global) -> anyhow::Result<u64> {
        let Some(mut call) = self.call.take() else {
            return Ok(0);
        };
        if let Some(device) = self.until {
            return self.judge_until(rt, alloc, &mut call, device);
        }
        if self.each.is_empty() {
            return self.judge_one(rt, alloc, &call, "");
        }
        let mut right = 0u64;
        for word in self.each.split_whitespace() {
            right = right.saturating_add(self.judge_one(rt, alloc, &call, word)?);
        }
        Ok(right)
    }

    // Makes a call for one word; 1 where it was right.
    fn judge_one(
        &self,
        rt: &HostRuntime,
        alloc: Global,
        call: &Call<'a>,
        word: &str,
    ) -> anyhow::Result<u64> {
        let mut answer = call.make(alloc, &self.files, word)?;
        match self.difference(alloc, &mut answer)? {
            None => Ok(1),
            Some(what) => {
                println!(rt; "{}: {} {word}: {what}", self.name, call.words)?;
                print_answer(rt, alloc, &answer)?;
                Ok(0)
            }
        }
    }

    // Makes a call again and again, with one call of a device failing, from the first one on, until its own status
    // comes; how many calls were right, if all were.
    fn judge_until(
        &self,
        rt: &HostRuntime,
        alloc: Global,
        call: &mut Call<'a>,
        device: Device,
    ) -> anyhow::Result<u64> {
        for k in 0..MOST_CALLS {
            let mut failing = Vec::new(alloc);
            failing.push(k)?;
            call.failing.set(device, failing);
            let mut answer = call.make(alloc, &self.files, "")?;
            if u64::from(answer.status.number()) == self.wanted.status {
                return match self.difference(alloc, &mut answer)? {
                    None => Ok(k.saturating_add(1)),
                    Some(what) => {
                        println!(rt; "{}: {}: call {k} fails: {what}", self.name, call.words)?;
                        Ok(0)
                    }
                };
            }
            if answer.status.number() != device.status() || !self.begins_with(&answer, device) {
                println!(rt;
                    "{}: {}: call {k} fails: another answer",
                    self.name, call.words
                )?;
                return Ok(0);
            }
        }
        bail!("{}: its own status doesn't come", self.name)
    }

    // Whether all that was written is a front of what should be, and behind it on the notes the line of the device.
    fn begins_with(&self, answer: &Answer, device: Device) -> bool {
        match answer.notes.strip_suffix(device.line()) {
            Some(notes) => {
                self.wanted.output.starts_with(&answer.output)
                    && self.wanted.notes.starts_with(notes)
            }
            None => false,
        }
    }

    // What of an answer isn't as it should be.
    fn difference(
        &self,
        alloc: Global,
        answer: &mut Answer,
    ) -> anyhow::Result<Option<&'static str>> {
        let wanted = &self.wanted;
        if u64::from(answer.status.number()) != wanted.status {
            return Ok(Some("another status"));
        }
        if let (Some(drawn), Status::Done(words)) = (wanted.drawn, &answer.status)
            && drawn != *words
        {
            return Ok(Some("another number of words drawn"));
        }
        if answer.output.as_slice() != wanted.output.as_slice() {
            return Ok(Some("another output"));
        }
        if answer.notes.as_slice() != wanted.notes.as_slice() {
            return Ok(Some("other notes"));
        }
        if let Some((file, same)) = wanted.keeps {
            let bytes = answer.file(alloc, file)?;
            if bytes.as_slice() != answer.file(alloc, same)?.as_slice() {
                return Ok(Some("another file"));
            }
        }
        Ok(None)
    }
}

// Prints what a call answered and noted.
fn print_answer(rt: &HostRuntime, alloc: Global, answer: &Answer) -> anyhow::Result<()> {
    let notes = String::from_utf8_lossy(alloc, &answer.notes)?;
    println!(rt; "  status {} {notes}", answer.status.number())?;
    Ok(())
}

// The bytes of words of 64 bits, each with the lowest byte first.
fn choices_of(alloc: Global, words: &str) -> anyhow::Result<Vec<u8>> {
    let mut bytes = Vec::new(alloc);
    for number in numbers_of(alloc, words)? {
        bytes.extend_from_slice(&number.to_le_bytes())?;
    }
    Ok(bytes)
}

// The image that a source defines.
fn image_of(alloc: Global, source: &[u8]) -> anyhow::Result<Vec<u8>> {
    if source.len() >= 0xffff_ffff {
        bail!("the source is too long");
    }
    match assemble(alloc, source) {
        Ok(image) => there(image_bytes(alloc, &image)),
        Err(fault) => Err(anyhow!("no source: {fault}")),
    }
}

// The module that a source makes.
fn module_of(alloc: Global, source: &[u8]) -> anyhow::Result<Vec<u8>> {
    if source.len() >= 0xffff_ffff {
        bail!("the source is too long");
    }
    match make_module(alloc, source) {
        Ok(module) => there(module_bytes(alloc, &module)),
        Err(fault) => Err(anyhow!("no source of a module: {fault}")),
    }
}
