use alpha_table::{decode, encode};
use alpha_text::{LineBuf, Statement, read_line, write_line};
use alpha_words::Word;

/// What the table makes of a word.
#[derive(Clone, Copy, PartialEq, Eq)]
enum Found {
    Same,
    Outside,
    Other,
}

fn look_up(word: Word) -> Found {
    match decode(word) {
        None => Found::Outside,
        Some(insn) if encode(&insn) == word => Found::Same,
        Some(_) => Found::Other,
    }
}

/// What reading makes of a source line.
#[derive(Clone, Copy, PartialEq, Eq)]
enum Line {
    /// It reads to the word, and is the canonical line of its instruction.
    Canonical,
    /// It reads to the word.
    Read,
    /// It doesn't read to the word.
    Other,
}

fn read_back(source: &[u8], word: Word) -> Line {
    if source.len() > 1024 {
        return Line::Other;
    }
    match read_line(source) {
        Ok(item) => match &item.statement {
            Statement::Code(insn) if encode(insn) == word => {
                let mut line = LineBuf::new();
                write_line(insn, &mut line);
                if line.bytes() == source {
                    Line::Canonical
                } else {
                    Line::Read
                }
            }
            _ => Line::Other,
        },
        Err(_) => Line::Other,
    }
}

/// Each line has a source line, a tab, and the word in hexadecimal.
pub fn run(rt: &impl Print, text: &str) -> anyhow::Result<()> {
    let mut same = 0u64;
    for line in text.lines().filter(|line| !line.starts_with('#')) {
        let word = line
            .split_once('\t')
            .and_then(|(_, word)| u32::from_str_radix(word, 16).ok());
        match word.map(|word| look_up(Word(word))) {
            Some(Found::Same) => same = same.saturating_add(1),
            Some(Found::Outside) => println!(rt; "outside the table: {line}")?,
            Some(Found::Other) => println!(rt; "encoded otherwise: {line}")?,
            None => println!(rt; "no word: {line}")?,
        }
    }
    let mut canonical = 0u64;
    let mut read = 0u64;
    for line in text.lines().filter(|line| !line.starts_with('#')) {
        if let Some((source, word)) = line.split_once('\t')
            && let Ok(word) = u32::from_str_radix(word, 16)
        {
            match read_back(source.as_bytes(), Word(word)) {
                Line::Canonical => canonical = canonical.saturating_add(1),
                Line::Read => read = read.saturating_add(1),
                Line::Other => println!(rt; "read otherwise: {line}")?,
            }
        }
    }
    println!(rt; "lines: {canonical} read and written back, {read} further spellings read")?;
    println!(rt; "encodings: {same} words decoded and encoded again")?;
    Ok(())
}
