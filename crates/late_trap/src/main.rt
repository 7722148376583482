//! A caller of the handler: computes an operate instruction that overflows, reports its trap late, and prints what the
//! handler leaves.
#![tactic(auto)]

mod late;

use alpha_pal::Kernel;
use alpha_table::{Op, decode};
use alpha_values::compute;
use alpha_words::{Completion, Level, Reg, RegFile, RegSet, Word};
use anyhow::{Result, bail};
use late::{Code, report};

fn main(rt: HostRuntime) -> Result<()> {
    // addq/v $1,$2,$3; bis $31,$31,$4; trapb; callsys
    let words: [u32; 4] = [0x4022_0c03, 0x47ff_0404, 0x63ff_0000, 0x0000_0083];
    let code = Code {
        words: &words,
        base: 0x1_0000,
    };
    let Some(add) = decode(Word(words[0])) else {
        bail!("there is no such instruction");
    };
    let name = add.mnemonic();
    let (Some(r1), Some(r2), Some(r3)) = (Reg::new(1), Reg::new(2), Reg::new(3)) else {
        bail!("there are no such registers");
    };
    let mut regs = RegFile::zeroed();
    regs.set(r1, i64::MAX as u64);
    regs.set(r2, 1);
    let sum = compute(
        Level::One,
        Op::AddqV,
        regs.get(r1),
        regs.get(r2),
        0,
        Completion::Saturate,
    );
    let (value, overflows, completed) = (sum.value, sum.overflows, sum.completed);
    println!(rt; "{name} {value:x} {overflows} {completed:x}")?;
    let mut kernel = Kernel::new(rt.alloc())?;
    regs.set(r3, 5);
    let mask = RegSet::empty().with(r3);
    match report(
        &code,
        &mut kernel,
        &mut regs,
        0x1_0008,
        mask,
        Completion::Saturate,
    ) {
        Ok(next) => {
            let completed = regs.get(r3);
            println!(rt; "{next:x} {completed:x}")?;
        }
        Err(lost) => println!(rt; "{lost}")?,
    }
    match report(
        &code,
        &mut kernel,
        &mut regs,
        0x1_000c,
        mask,
        Completion::Wrap,
    ) {
        Ok(next) => println!(rt; "{next:x}")?,
        Err(lost) => println!(rt; "{lost}")?,
    }
    Ok(())
}
