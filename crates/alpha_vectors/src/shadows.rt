use crate::parts::split_repetition;
use crate::plain::least_broken;
use alpha_samples::sample;
use alpha_shadow::Broken;
use alpha_table::{Insn, decode};
use alpha_verdict::judge_image;
use alpha_words::Word;
use anyhow::bail;
use std::alloc::Global;

/// Each line has code words in hexadecimal, a tab, and `accepted` or the least broken place. The
/// checker and the conditions tried one after another both have to say that.
pub fn run(rt: &impl Print, alloc: Global, text: &str) -> anyhow::Result<()> {
    let mut same = 0u64;
    for line in text.lines().filter(|line| !line.starts_with('#')) {
        let Some((words, wanted)) = line.split_once('\t') else {
            println!(rt; "no verdict: {line}")?;
            continue;
        };
        let words = words_of(alloc, words)?;
        let judged = text_of(alloc, sample_verdict(alloc, &words)?)?;
        let tried = text_of(alloc, least_broken(&insns_of(alloc, &words)?))?;
        if judged.as_str() == wanted && tried.as_str() == wanted {
            same = same.saturating_add(1);
        } else {
            println!(rt; "judged {judged}, tried {tried}, wanted: {line}")?;
        }
    }
    println!(rt; "shadows: {same} programs judged as wanted")?;
    Ok(())
}

// The words in hexadecimal, of which `*N` after one repeats it N times.
fn words_of(alloc: Global, text: &str) -> anyhow::Result<Vec<u32>> {
    let mut words = Vec::new(alloc);
    for text in text.split(' ') {
        let (word, count) = split_repetition(text)?;
        let word = u32::from_str_radix(word, 16)?;
        for _ in 0..count {
            words.push(word)?;
        }
    }
    Ok(words)
}

fn insns_of(alloc: Global, words: &[u32]) -> anyhow::Result<Vec<Insn>> {
    let mut insns = Vec::new(alloc);
    for word in words {
        match decode(Word(*word)) {
            Some(insn) => insns.push(insn)?,
            None => bail!("{word:08x} is no instruction"),
        }
    }
    Ok(insns)
}

// The checker's verdict on an image with this code.
fn sample_verdict(alloc: Global, words: &[u32]) -> anyhow::Result<Option<Broken>> {
    let image = sample(alloc, words, 0)?;
    Ok(judge_image(&image).err())
}

// `accepted`, or the least broken place as trigger, place and condition.
fn text_of(alloc: Global, verdict: Option<Broken>) -> anyhow::Result<String> {
    let Some(broken) = verdict else {
        return Ok(format!(in alloc; "accepted")?);
    };
    let number = broken.condition.number();
    Ok(format!(in alloc; "{} {} C{number}", broken.trigger, broken.at)?)
}
