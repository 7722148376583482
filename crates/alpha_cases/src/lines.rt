//! The lines of a file of cases.

use anyhow::{anyhow, bail};
use std::alloc::Global;

/// A line with the lines that belong to it.
#[derive(Drop)]
pub struct Entry<'a> {
    /// The first word.
    pub name: &'a str,
    /// What stands behind it.
    pub rest: &'a str,
    /// The lines that belong to it, without the spaces before them.
    pub block: String,
}

/// The entries of a file, in order. Lines that are empty or begin with `#` are passed over.
pub fn entries_of<'a>(alloc: Global, text: &'a str) -> anyhow::Result<Vec<Entry<'a>>> {
    let mut entries: Vec<Entry<'a>> = Vec::new(alloc);
    for line in text.lines() {
        if let Some(part) = line.strip_prefix("    ") {
            let Some(entry) = entries.last_mut() else {
                bail!("a line belongs to nothing: {line}");
            };
            push_lines(&mut entry.block, part)?;
        } else if !line.is_empty() && !line.starts_with("#") {
            let (name, rest) = line.split_once(" ").unwrap_or((line, ""));
            entries.push(Entry {
                name,
                rest,
                block: String::new(alloc),
            })?;
        }
    }
    Ok(entries)
}

// Appends a line to a block, or the line behind `@N ` so many times, which is empty where nothing stands there.
fn push_lines(block: &mut String, line: &str) -> anyhow::Result<()> {
    let (count, line) = match line.strip_prefix("@") {
        Some(line) => line.split_once(" ").unwrap_or((line, "")),
        None => ("1", line),
    };
    for _ in 0..number_of(count)? {
        block.push_str(line)?;
        block.push_str("\n")?;
    }
    Ok(())
}

/// The bytes that hexadecimal digits spell.
pub fn bytes_of(alloc: Global, digits: &str) -> anyhow::Result<Vec<u8>> {
    match hex::decode(alloc, digits) {
        Ok(bytes) => Ok(bytes),
        Err(_) => bail!("no bytes: {digits}"),
    }
}

/// The bytes that a text spells, in which `\n`, `\r` and `\t` stand for a line feed, a carriage return and a tab, and
/// any other byte behind a `\` for itself.
pub fn spelled(alloc: Global, text: &str) -> anyhow::Result<Vec<u8>> {
    let mut bytes = Vec::new(alloc);
    let mut escaped = false;
    for byte in text.as_bytes() {
        if *byte == b'\\' && !escaped {
            escaped = true;
        } else {
            bytes.push(if escaped { meant(*byte) } else { *byte })?;
            escaped = false;
        }
    }
    Ok(bytes)
}

// The byte that one behind a `\` means.
fn meant(byte: u8) -> u8 {
    match byte {
        b'n' => b'\n',
        b'r' => b'\r',
        b't' => b'\t',
        other => other,
    }
}

/// The number that a word spells.
pub fn number_of(word: &str) -> anyhow::Result<u64> {
    match word.parse::<u64>() {
        Ok(number) => Ok(number),
        Err(_) => Err(anyhow!("no number: {word}")),
    }
}

/// The numbers that words spell.
pub fn numbers_of(alloc: Global, words: &str) -> anyhow::Result<Vec<u64>> {
    let mut numbers = Vec::new(alloc);
    for word in words.split_whitespace() {
        numbers.push(number_of(word)?)?;
    }
    Ok(numbers)
}
