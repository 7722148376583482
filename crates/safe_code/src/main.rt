//! A caller of the checker: reads instruction words in hexadecimal, a line each, and prints whether code of these words
//! survives late traps, or why it may not.
#![tactic(auto)]

mod safe;

use anyhow::{Context, Result};
use safe::SafeCode;

fn main(rt: HostRuntime) -> Result<()> {
    let mut words = Vec::new(rt.alloc());
    for line in rt.lines(rt.alloc()) {
        let line = line?;
        words.push(u32::from_str_radix(line.as_str(), 16).context("no word of 32 bits")?)?;
    }
    match SafeCode::new(&words) {
        Ok(code) => {
            let count = code.words().len();
            println!(rt; "{count} words survive late traps")?;
        }
        Err(refusal) => println!(rt; "{refusal}")?,
    }
    Ok(())
}
