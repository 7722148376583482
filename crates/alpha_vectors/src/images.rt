ghost use Rattle.std.specs.Prelude.{◌≡◌, ◌%◌, length, IfOk};

use crate::parts::split_repetition;
use alpha_image::{
    Fields, Image, ImageFault, LevelFields, Segment, code_word, image_bytes, read_image, take_image,
};
use alpha_table::decode;
use alpha_words::{Level, Word};
use anyhow::bail;
use std::alloc::Global;

/// Each line has a kind, what is asked, and the answer that is wanted, with tabs between them.
///
/// - `read BYTES`: what reading the bytes answers.
/// - `fronts BYTES`: the least size of a front that isn't told to be too short, of bytes of which no front is an image.
/// - `fields NUMBERS|SEGMENTS`: the least bad field of code base, entry, stack bytes, level and code words, and of
///   segments by base, data bytes and zeroed bytes.
/// - `build NUMBERS|CODE|DATA`: the bytes of the image of version 1 with these code base, data base, entry, zeroed
///   bytes and stack bytes.
/// - `pair CODE` and `bare LEVEL CODE`: the bytes of the image of version 2 with two segments of eight bytes at level
///   2, or with none.
///
/// Bytes are hexadecimal, in parts with spaces between them, of which `*N` after one repeats it N times. In place of
/// bytes an answer may be a fault.
pub fn run(rt: &impl Print, alloc: Global, text: &str) -> anyhow::Result<()> {
    let mut same = 0u64;
    for line in text.lines().filter(|line| !line.starts_with('#')) {
        let mut fields = line.split('\t');
        let (Some(kind), Some(asked), Some(wanted)) = (fields.next(), fields.next(), fields.next())
        else {
            println!(rt; "no answer: {line}")?;
            continue;
        };
        let found = answer(alloc, kind, asked)?;
        if found.as_str() == wanted {
            same = same.saturating_add(1);
        } else {
            println!(rt; "{found}, wanted: {line}")?;
        }
    }
    println!(rt; "images: {same} answers as wanted")?;
    Ok(())
}

fn answer(alloc: Global, kind: &str, asked: &str) -> anyhow::Result<String> {
    match kind {
        "read" => read(alloc, asked),
        "fronts" => fronts(alloc, asked),
        "fields" => bad_field(alloc, asked),
        "build" => build_text(alloc, asked),
        "pair" => pair(alloc, asked),
        "bare" => bare(alloc, asked),
        _ => bail!("no kind of line: {kind}"),
    }
}

fn bytes_of(alloc: Global, text: &str) -> anyhow::Result<Vec<u8>> {
    let mut bytes = Vec::new(alloc);
    for part in text.split(' ') {
        let (digits, count) = split_repetition(part)?;
        let Ok(part) = hex::decode(alloc, digits) else {
            bail!("no bytes: {digits}");
        };
        for _ in 0..count {
            bytes.extend_from_slice(&part)?;
        }
    }
    Ok(bytes)
}

fn numbers_of(alloc: Global, text: &str) -> anyhow::Result<Vec<u64>> {
    let mut numbers = Vec::new(alloc);
    for part in text.split(' ') {
        numbers.push(part.parse::<u64>()?)?;
    }
    Ok(numbers)
}

// The fault, or the parts of the image, whose bytes are those that were read; the same where the image takes them over.
fn read(alloc: Global, text: &str) -> anyhow::Result<String> {
    let bytes = bytes_of(alloc, text)?;
    let answer = answer_of(alloc, read_image(alloc, &bytes), &bytes)?;
    let taken = answer_of(alloc, take_image(alloc, bytes_of(alloc, text)?), &bytes)?;
    if taken != answer {
        return Ok(format!(in alloc; "another answer where the image takes the bytes over")?);
    }
    Ok(answer)
}

fn answer_of(
    alloc: Global,
    answer: Result<Image, ImageFault>,
    bytes: &[u8],
) -> anyhow::Result<String> {
    match answer {
        Err(fault) => Ok(format!(in alloc; "{fault}")?),
        Ok(image) => {
            let Ok(spelled) = image_bytes(alloc, &image) else {
                bail!("no memory");
            };
            let is_same = spelled.as_slice() == bytes;
            let is_whole = has_its_words(&image)
                && has_its_code(alloc, &image, bytes)?
                && has_its_data(alloc, &image)?;
            if !is_same || !is_whole {
                return Ok(format!(in alloc; "an image whose parts differ")?);
            }
            parts_of(alloc, &image)
        }
    }
}

// Version, level, code base, entry, stack bytes and code words; the base of the first segment, all data bytes and the
// zeroed bytes of the first segment; and each segment.
fn parts_of(alloc: Global, image: &Image) -> anyhow::Result<String> {
    let level = match image.level() {
        Level::One => 1,
        Level::Two => 2,
    };
    let mut text = format!(in alloc;
        "version {} level {level} code {} entry {} stack {} words {} data {} {} {}",
        image.version(),
        image.code_base(),
        image.entry(),
        image.stack(),
        image.words(),
        image.data_base(),
        image.data_bytes().len(),
        image.zeroed()
    )?;
    for n in 0..image.segments() {
        if let Some(segment) = image.segment(n) {
            let next = format!(in alloc;
                " segment {} {} {}",
                segment.base, segment.filled, segment.zeroed
            )?;
            text.push_str(next.as_str())?;
        }
    }
    Ok(text)
}

// Whether each word has its instruction and its place, and none stands before the first or behind the last.
fn has_its_words(image: &Image) -> bool {
    let words = image.words();
    let end = image.code_base().wrapping_add(4 * u64::from(words));
    let is_alone = image.place_of(end).is_none()
        && image.place_of(image.code_base().wrapping_sub(4)).is_none()
        && image.place_of(image.code_base().wrapping_add(2)).is_none()
        && image.place_of(u64::MAX).is_none()
        && image.insn(words).is_none()
        && code_word(image, words).is_none()
        && image.insns().len() as u64 == u64::from(words);
    is_alone
        && (0..words).all(|n| {
            let address = image.code_base().wrapping_add(4 * u64::from(n));
            image.place_of(address) == Some(n)
                && image.insn(n).is_some()
                && code_word(image, n).and_then(|word| decode(word)) == image.insn(n)
        })
}

// Whether the bytes of the code stand in front of the data bytes, and each word is as they say.
fn has_its_code(alloc: Global, image: &Image, bytes: &[u8]) -> anyhow::Result<bool> {
    let Ok(code) = image.code_bytes(alloc) else {
        bail!("no memory");
    };
    let behind = bytes.len().saturating_sub(image.data_bytes().len());
    let front = behind.saturating_sub(code.len());
    if &bytes[front..behind] != code.as_slice() {
        return Ok(false);
    }
    let mut words = code.chunks(4);
    for n in 0..image.words() {
        let word = match words.next() {
            Some(&[a, b, c, d]) => u32::from_le_bytes([a, b, c, d]),
            _ => return Ok(false),
        };
        if code_word(image, n) != Some(Word(word)) {
            return Ok(false);
        }
    }
    Ok(true)
}

// Whether the segments' bytes make the data bytes, and none stands behind the last segment.
fn has_its_data(alloc: Global, image: &Image) -> anyhow::Result<bool> {
    let mut bytes = Vec::new(alloc);
    for n in 0..image.segments() {
        if let Some(part) = image.segment_bytes(n) {
            bytes.extend_from_slice(part)?;
        }
    }
    let behind = image.segments();
    Ok(
        bytes.as_slice() == image.data_bytes()
            && image.segment(behind).is_none()
            && image.segment_bytes(behind).is_none(),
    )
}

// The least size of a front that is refused for its length, where each below is refused as too short and each from it
// on for its length.
fn fronts(alloc: Global, text: &str) -> anyhow::Result<String> {
    let bytes = bytes_of(alloc, text)?;
    let size = bytes.len() as u64;
    let mut short = 0u64;
    for n in 0..bytes.len() {
        let given = n as u64;
        match read_image(alloc, &bytes[..n]).err() {
            Some(ImageFault::Short(told)) if told == given && short == given => short =
                given.wrapping_add(1),
            Some(ImageFault::Length(told, wanted)) if told == given && wanted == size => {}
            _ => return Ok(format!(in alloc; "another answer for {n} bytes")?),
        }
    }
    Ok(format!(in alloc; "{short}")?)
}

// The least bad field, or `none`.
fn bad_field(alloc: Global, text: &str) -> anyhow::Result<String> {
    let Some((numbers, list)) = text.split_once('|') else {
        bail!("no segments: {text}");
    };
    let numbers = numbers_of(alloc, numbers)?;
    let [code_base, entry, stack, level, words] = numbers.as_slice() else {
        bail!("five numbers are wanted: {text}");
    };
    let fields = LevelFields {
        code_base: *code_base,
        entry: *entry,
        stack: *stack,
        level: *level,
    };
    match fields.bad_field(*words, &segments_of(alloc, list)?) {
        Some(field) => Ok(format!(in alloc; "{field}")?),
        None => Ok(format!(in alloc; "none")?),
    }
}

// Segments with spaces between them, each by three numbers with commas between them.
fn segments_of(alloc: Global, text: &str) -> anyhow::Result<Vec<Segment>> {
    let mut segments = Vec::new(alloc);
    for part in text.split(' ').filter(|part| !part.is_empty()) {
        let mut numbers = part.split(',').map(|number| number.parse::<u64>().ok());
        let (Some(Some(base)), Some(Some(filled)), Some(Some(zeroed))) = (
            numbers.next(),
            numbers.next(),
            numbers.next(),
        ) else {
            bail!("no segment: {part}");
        };
        segments.push(Segment {
            base,
            filled,
            zeroed,
        })?;
    }
    Ok(segments)
}

// The bytes of an image that was built, or the fault.
fn spell(alloc: Global, built: Result<Image, ImageFault>) -> anyhow::Result<String> {
    match built {
        Err(fault) => Ok(format!(in alloc; "{fault}")?),
        Ok(image) => {
            let Ok(bytes) = image_bytes(alloc, &image) else {
                bail!("no memory");
            };
            Ok(hex::encode(alloc, &bytes)?)
        }
    }
}

// Code bytes, four a word.
fn code_of(alloc: Global, text: &str) -> anyhow::Result<Vec<u8>>
    ensures { IfOk result (λ code. length code.items % 4 ≡ 0) }
{
    let code = bytes_of(alloc, text)?;
    if code.len() % 4 != 0 {
        bail!("a word has four bytes: {text}");
    }
    Ok(code)
}

fn build_text(alloc: Global, text: &str) -> anyhow::Result<String> {
    let mut parts = text.split('|');
    let (Some(numbers), Some(code), Some(data)) = (parts.next(), parts.next(), parts.next()) else {
        bail!("numbers, code and data are wanted: {text}");
    };
    let numbers = numbers_of(alloc, numbers)?;
    let [code_base, data_base, entry, zeroed, stack] = numbers.as_slice() else {
        bail!("five numbers are wanted: {text}");
    };
    let fields = Fields {
        code_base: *code_base,
        data_base: *data_base,
        entry: *entry,
        zeroed: *zeroed,
        stack: *stack,
    };
    let code = code_of(alloc, code)?;
    let data = bytes_of(alloc, data)?;
    spell(alloc, Image::build(alloc, &fields, &code, &data))
}

const CODE: u64 = 0x1_0000;

const DATA: u64 = 0x1000_0000;

// A quadword of each of two segments: 5 and 7.
const PAIR: [u8; 16] = [5, 0, 0, 0, 0, 0, 0, 0, 7, 0, 0, 0, 0, 0, 0, 0];

fn pair(alloc: Global, code: &str) -> anyhow::Result<String> {
    let fields = LevelFields {
        code_base: CODE,
        entry: CODE,
        stack: 65_536,
        level: 2,
    };
    let segments = [
        Segment {
            base: DATA,
            filled: 8,
            zeroed: 0,
        },
        Segment {
            base: DATA + 0x2000,
            filled: 8,
            zeroed: 0,
        },
    ];
    let code = code_of(alloc, code)?;
    spell(
        alloc,
        Image::build_level(alloc, &fields, &segments, &code, &PAIR),
    )
}

fn bare(alloc: Global, text: &str) -> anyhow::Result<String> {
    let Some((level, code)) = text.split_once(' ') else {
        bail!("a level and code are wanted: {text}");
    };
    let fields = LevelFields {
        code_base: CODE,
        entry: CODE,
        stack: 16,
        level: level.parse::<u64>()?,
    };
    let code = code_of(alloc, code)?;
    spell(alloc, Image::build_level(alloc, &fields, &[], &code, &[]))
}
