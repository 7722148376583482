//! The checker beside the conditions tried one after another, on lists of words that are made here.
use crate::plain::least_broken;
use crate::words::Words;
use alpha_shadow::{Broken, judge};
use alpha_table::Insn;
use rand_core::SeedableRng;
use rand_core::utils::NextWord;
use rand_pcg::Pcg64;
use std::alloc::Global;

const TRAPB: u32 = 0x63ff_0000;

const NOP: u32 = 0x47ff_041f;

const ADDQV_1_2_3: u32 = 0x4022_0c03;

const LDQ_4_0_5: u32 = 0xa485_0000;

const STQ_2_0_5: u32 = 0xb445_0000;

const STQ_2_8_5: u32 = 0xb445_0008;

/// Words that meet one another under each condition but the last.
const ALPHABET: [u32; 12] = [
    ADDQV_1_2_3,
    LDQ_4_0_5,
    STQ_2_0_5,
    STQ_2_8_5,
    TRAPB,
    NOP,
    0x4061_0c01, // addq/v $3,$1,$1
    0x4022_0c1f, // addq/v $1,$2,$31
    0x2043_0008, // lda $2,8($3)
    0x4483_04c5, // cmovne $4,$3,$5
    0xac85_0000, // ldq_l $4,0($5)
    0xc3e0_0000, // br $31,.+4
];

/// A list of words twice: as the checker and as the plain conditions read it.
#[derive(Drop)]
struct List {
    words: Words,
    insns: Vec<Insn>,
}

impl List {
    fn empty(alloc: Global) -> List {
        List {
            words: Words::empty(alloc),
            insns: Vec::new(alloc),
        }
    }

    fn push(&mut self, word: u32) -> anyhow::Result<()> {
        let insn = self.words.push(word)?;
        self.insns.push(insn)?;
        Ok(())
    }

    fn push_times(&mut self, word: u32, times: u32) -> anyhow::Result<()> {
        for _ in 0..times {
            self.push(word)?;
        }
        Ok(())
    }
}

/// How many lists both judge alike, and how many of them are broken under each condition, from C1 on.
#[derive(Drop)]
struct Tally {
    alike: u64,
    met: [u64; 9],
}

impl Tally {
    // Judges a list both ways, and prints it where the two differ.
    fn add(&mut self, rt: &impl Print, list: &mut List) -> anyhow::Result<()> {
        let judged = judge(&mut list.words).err();
        if judged != least_broken(&list.insns) {
            println!(rt; "judged otherwise: a list of {} words", list.insns.len())?;
            return Ok(());
        }
        self.alike = self.alike.saturating_add(1);
        if let Some(broken) = judged {
            self.meet(&broken);
        }
        Ok(())
    }

    fn meet(&mut self, broken: &Broken) {
        let place = usize::from(broken.condition.number()).saturating_sub(1);
        if place < 9 {
            self.met[place] = self.met[place].saturating_add(1);
        }
    }
}

/// Judges every list of up to four words of the alphabet, random lists, and the longest shadows, by
/// the checker and by the conditions tried one after another. Then a long list by the checker alone.
pub fn run(rt: &impl Print, alloc: Global) -> anyhow::Result<()> {
    let mut tally = Tally {
        alike: 0,
        met: [0; 9],
    };
    every_short_list(rt, alloc, &mut tally)?;
    random_lists(rt, alloc, &mut tally)?;
    longest_shadows(rt, alloc, &mut tally)?;
    println!(rt; "compared: {} lists judged alike", tally.alike)?;
    for (place, count) in tally.met.iter().enumerate() {
        if *count == 0 {
            let number = place.saturating_add(1);
            println!(rt; "no list is broken under C{number}")?;
        }
    }
    many_triggers(rt, alloc)
}

fn every_short_list(rt: &impl Print, alloc: Global, tally: &mut Tally) -> anyhow::Result<()> {
    for (length, lists) in [(1u32, 12u32), (2, 144), (3, 1728), (4, 20_736)] {
        for number in 0..lists {
            let mut list = List::empty(alloc);
            let mut rest = number;
            for _ in 0..length {
                list.push(ALPHABET[(rest % 12) as usize])?;
                rest /= 12;
            }
            tally.add(rt, &mut list)?;
        }
    }
    Ok(())
}

fn random_lists(rt: &impl Print, alloc: Global, tally: &mut Tally) -> anyhow::Result<()> {
    let mut random = Pcg64::seed_from_u64(7);
    for _ in 0..4000 {
        let mut list = List::empty(alloc);
        for _ in 0..random.next_word() % 24 {
            list.push(word_of(random.next_word()))?;
        }
        list.push(TRAPB)?;
        tally.add(rt, &mut list)?;
    }
    Ok(())
}

// A word by a random number: its low bits choose the row, the others the registers.
fn word_of(bits: u64) -> u32 {
    let ra = register(bits >> 8) << 21;
    let rb = register(bits >> 16) << 16;
    let rc = register(bits >> 24);
    let disp = ((bits >> 32) % 3 * 8) as u32;
    match bits % 16 {
        0..=2 => 0x4000_0c00 | ra | rb | rc, // addq/v
        3 => 0x4c00_0800 | ra | rb | rc, // mull/v
        4 | 5 => 0x4000_0400 | ra | rb | rc, // addq
        6 => 0x4400_04c0 | ra | rb | rc, // cmovne
        7 => 0x2000_0000 | ra | rb | disp, // lda
        8 | 9 => 0xa400_0000 | ra | rb | disp, // ldq
        10 | 11 => 0xb400_0000 | ra | rb | disp, // stq
        12 => 0x3c00_0000 | ra | rb | disp, // stq_u
        13 => TRAPB,
        14 => rare_word(bits >> 40, ra, rb, disp),
        _ => NOP,
    }
}

fn rare_word(bits: u64, ra: u32, rb: u32, disp: u32) -> u32 {
    match bits % 8 {
        0 => 0xac00_0000 | ra | rb | disp, // ldq_l
        1 => 0xbc00_0000 | ra | rb | disp, // stq_c
        2 => 0xc000_0000 | ra, // br
        3 => 0xe400_0000 | ra, // beq
        4 => 0x0000_0083, // callsys
        5 => 0x4000_0c1f | ra | rb, // addq/v to R31
        6 => 0x2c00_0000 | ra | rb | disp, // ldq_u
        _ => 0x63ff_0400, // excb
    }
}

// A register of R1 to R6.
fn register(bits: u64) -> u32 {
    1 + (bits % 6) as u32
}

// Shadows of 1,022 to 1,026 words, each with a load or a store as its first and its last word.
fn longest_shadows(rt: &impl Print, alloc: Global, tally: &mut Tally) -> anyhow::Result<()> {
    let ends = [LDQ_4_0_5, STQ_2_0_5, STQ_2_8_5];
    for between in 1020..1025 {
        for first in ends {
            for last in ends {
                let mut list = List::empty(alloc);
                list.push(ADDQV_1_2_3)?;
                list.push(first)?;
                list.push_times(NOP, between)?;
                list.push(last)?;
                list.push(TRAPB)?;
                tally.add(rt, &mut list)?;
            }
        }
    }
    Ok(())
}

// 2^20 triggers, each with a barrier behind it.
fn many_triggers(rt: &impl Print, alloc: Global) -> anyhow::Result<()> {
    let mut words = Words::empty(alloc);
    for _ in 0..1 << 20 {
        let _ = words.push(ADDQV_1_2_3)?;
        let _ = words.push(TRAPB)?;
    }
    match judge(&mut words) {
        Ok(()) => println!(rt; "many triggers: accepted with {} looks", words.fetches())?,
        Err(_) => println!(rt; "many triggers: broken")?,
    }
    Ok(())
}
