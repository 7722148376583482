//! Makes calls of the program over devices in memory, those of files of cases, and prints which of them answer
//! otherwise than they should. A test of a command is such a case, in a file `data/*.cases`.
//!
//! A file is a list of cases. A case has files, of which a later one takes the place of one of its name, and calls of
//! the program over them. Each line begins with a word that says what it is; lines that begin with four spaces belong
//! to the line before, and `@N LINE` is N of them, and `@N` N empty ones.
//!
//! | Line | What it is |
//! |---|---|
//! | `case NAME` | begins a case; the lines up to the next one are its own |
//! | `source FILE`, with lines | a file that is the image of this source |
//! | `module FILE`, with lines | a file that is the module of this source |
//! | `text FILE`, with lines | a file of these lines |
//! | `spelled FILE TEXT` | a file of this text, in which `\n`, `\r`, `\t` and `\\` stand for such bytes; no line feed
//! is added |
//! | `bytes FILE HEX` | a file of these bytes |
//! | `changed FILE OF N HEX` | a file with the bytes of the file OF, but for these from byte N on |
//! | `front FILE OF N` | a file with the first N bytes of the file OF |
//! | `zeros FILE N` | a file of so many zero bytes |
//! | `choices FILE`, with lines | a file of the words on these lines, of eight bytes each |
//! | `call WORDS` | a call of the program, which the lines below speak of |
//! | `for W ..` | the call is made for each of these, in place of `%` in its words |
//! | `input TEXT`, `inputhex HEX` | the bytes of the input, TEXT as in `spelled`; none where they are left out |
//! | `script`, with lines, `feeds N` | so much more of the input: these lines, so many line feeds |
//! | `piece N` | how many bytes of the input one call gives at most |
//! | `fails DEVICE N ..` | the calls of the shelf, the input, the output or the notes that fail, from 0 on |
//! | `status N` | the number of the status, and with `drawn D` how many words were drawn |
//! | `says N LINE` | the number of the status, and the only line of the notes |
//! | `out`, with lines, `writes TEXT`, `outhex HEX` | all of the output, TEXT as in `spelled`; nothing
//! where it is left out |
//! | `notes`, with lines | all of the notes; nothing where they are left out |
//! | `keeps FILE SAME` | afterwards the file holds the bytes of this other one |
//! | `until DEVICE` | the call is made over and over, with call 0, 1, .. of this device failing, until the status
//! comes; each time before the device's own status came, with a front of the output |
#![tactic(auto)]

mod call;
mod case;
mod lines;

use std::fs;

// The files of cases.
const FILES: [&str; 15] = [
    "check.cases",
    "dis.cases",
    "asm.cases",
    "fix.cases",
    "module.cases",
    "link.cases",
    "replay.cases",
    "record.cases",
    "run.cases",
    "edges.cases",
    "imprecise.cases",
    "debug.cases",
    "sessions.cases",
    "trial.cases",
    "failing.cases",
];

fn main(rt: HostRuntime) -> anyhow::Result<()> {
    let mut right = 0u64;
    for file in FILES {
        let text = fs::read_to_string(&rt, file)?;
        right = right.saturating_add(case::run(&rt, rt.alloc(), text.as_str())?);
    }
    println!(rt; "{right} calls answered as they should")?;
    Ok(())
}
