ghost use Rattle.std.specs.Prelude.{◌≡◌, ◌<◌, ◌^◌, Some, map, vec_len};
ghost use Rattle.alpha_table.specs.Decoded.{decoded};

use alpha_shadow::Fetch;
use alpha_table::{Insn, decode};
use alpha_words::Word;
use anyhow::bail;
use std::alloc::Global;

/// A word with its instruction.
#[derive(Drop)]
struct Entry {
    word: u32,
    insn: Insn,
    ghost known: { decoded word ≡ Some insn },
}

/// A list of instruction words for the checker.
#[derive(Drop)]
pub struct Words {
    entries: Vec<Entry>,
    fetches: u64,
    ghost few: { vec_len entries < 2 ^ 32 },
}

impl Words {
    /// No word.
    pub fn empty(alloc: Global) -> Words {
        Words {
            entries: Vec::new(alloc),
            fetches: 0,
        }
    }

    /// Appends a word and answers its instruction.
    pub fn push(&mut self, word: u32) -> anyhow::Result<Insn> {
        if self.entries.len() >= 0xffff_ffff {
            bail!("there are too many words");
        }
        let Some(insn) = decode(Word(word)) else {
            bail!("{word:08x} is no instruction");
        };
        self.entries.push(Entry { word, insn })?;
        Ok(insn)
    }

    /// How often a word was looked at.
    pub fn fetches(&self) -> u64 {
        self.fetches
    }
}

impl Fetch for Words {
    ghost code = { λ c. map (λ entry. entry.word) c.entries.items };

    ghost fetches = { λ c. c.fetches };

    fn words(&self) -> u32 {
        self.entries.len() as u32
    }

    fn insn(&mut self, place: u32) -> Insn {
        self.fetches = self.fetches.saturating_add(1);
        self.entries[place as usize].insn
    }
}
