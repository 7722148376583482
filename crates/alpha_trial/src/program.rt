//! The program of a trial.

ghost use Rattle.std.specs.Prelude.{◌≡◌, ◌<◌, ◌≤◌, ◌++◌, IfOk, OnOk};
ghost use Rattle.std.specs.List.{flat_map};
ghost use Rattle.rand_pcg.specs.Pcg.{pcg32};
ghost use Rattle.alpha_image.specs.Layout.{longword};
ghost use Rattle.alpha_image.specs.Parts.{IsImage};
ghost use Rattle.alpha_trial.specs.Program.{seeded};
ghost use Rattle.alpha_trial.specs.Words.{displacement_field, block_words, blocks_words, ending_words, program_words};
ghost use Rattle.alpha_trial.specs.Words.{trial_image};

use alpha_image::{Fields, Image, push_longword};
use alpha_words::NoMemory;
use rand_core::SeedableRng;
use rand_core::utils::NextWord;
use rand_pcg::Lcg64Xsh32;
use std::alloc::{AllocError, Global};

// How many bytes a block has.
const BLOCK_SIZE: usize = 36;

// How many bytes the ending has.
const ENDING_SIZE: usize = 40;

// The fields of a source that says nothing of them, with eight zeroed bytes.
const FIELDS: Fields = Fields {
    code_base: 0x1_0000,
    data_base: 0x1000_0000,
    entry: 0x1_0000,
    zeroed: 8,
    stack: 65_536,
};

/// The image of the trial with a number, from 1 to 20,000: so many blocks, each of which adds
/// and multiplies two numbers that a generator draws whose seed is that number, and an ending, which
/// writes eight bytes and exits. It has 9 code words a block and 10 more. Each block has two
/// instructions with `/V`, and a TRAPB behind them. `NoMemory` where memory runs out.
pub fn trial_image(alloc: Global, n: u32) -> Result<Image, NoMemory>
    requires some { 0 < n }
    requires bound { n ≤ 20000 }
    ensures parts { IfOk result (λ image. image ≡ trial_image n) }
    ensures good { IfOk result IsImage }
{
    let code = program(alloc, n)?;
    match Image::build(alloc, &FIELDS, &code, &[]) {
        Ok(image) => Ok(image),
        Err(_) => Err(NoMemory),
    }
}

// The code words as bytes.
fn program(alloc: Global, n: u32) -> Result<Vec<u8>, AllocError>
    requires { n ≤ 20000 }
    ensures { IfOk result (λ code. code.items ≡ flat_map longword (program_words n)) }
{
    let size = n as usize * BLOCK_SIZE + ENDING_SIZE;
    let mut code = Vec::with_capacity(alloc, size)?;
    push_blocks(&mut code, n)?;
    push_words(&mut code, &exit_block())?;
    Ok(code)
}

// Appends the blocks, each by the next two words of the generator.
fn push_blocks(code: &mut Vec<u8>, n: u32) -> Result<(), AllocError>
    ensures { OnOk result (code.new.items
        ≡ code.old.items ++ flat_map longword (blocks_words n (seeded n))) }
{
    let mut generator = Lcg64Xsh32::seed_from_u64(u64::from(n));
    for _ in 0..n {
        push_block(code, &mut generator)?;
    }
    Ok(())
}

// Appends a block by the next two words of the generator.
fn push_block(code: &mut Vec<u8>, generator: &mut Lcg64Xsh32) -> Result<(), AllocError>
    ensures ok { let x = pcg32 generator.old in let y = pcg32 x.1 in
        OnOk result (code.new.items ≡ code.old.items ++ flat_map longword (block_words x.0 y.0)) }
    ensures generator { generator.new ≡ (pcg32 (pcg32 generator.old).1).1 }
{
    let x = generator.next_word();
    let y = generator.next_word();
    push_words(code, &block(x, y))
}

// Appends words, each as four bytes with the lowest first.
fn push_words(code: &mut Vec<u8>, words: &[u32]) -> Result<(), AllocError>
    ensures { OnOk result (code.new.items ≡ code.old.items ++ flat_map longword words.now) }
{
    for word in words {
        push_longword(code, *word)?;
    }
    Ok(())
}

// The words of a block, by two drawn words.
fn block(x: u32, y: u32) -> [u32; 9]
    ensures { result ≡ block_words x y }
{
    [
        0x243f_0000 + displacement(x), // ldah $1,a($31)
        0x245f_0000 + displacement(y), // ldah $2,b($31)
        0x4022_0803, // addl/v $1,$2,$3
        0x2083_0001, // lda $4,1($3)
        0x4c22_0805, // mull/v $1,$2,$5
        0x63ff_0000, // trapb
        0x4467_0807, // xor $3,$7,$7
        0x4487_0807, // xor $4,$7,$7
        0x44a7_0807, // xor $5,$7,$7
    ]
}

// The words behind the blocks.
fn exit_block() -> [u32; 10]
    ensures { result ≡ ending_words }
{
    [
        0x251f_1000, // ldah $8,4096($31)
        0xb4e8_0000, // stq $7,0($8)
        0x221f_0001, // lda $16,1($31)
        0x47e8_0411, // bis $31,$8,$17
        0x225f_0008, // lda $18,8($31)
        0x201f_0004, // lda $0,4($31)
        0x0000_0083, // callsys
        0x221f_0000, // lda $16,0($31)
        0x201f_0001, // lda $0,1($31)
        0x0000_0083, // callsys
    ]
}

// The field of the displacement that a drawn word gives: its low half less 32,768.
fn displacement(x: u32) -> u32
    ensures value { result ≡ displacement_field x }
    ensures bound { result < 65536 }
{
    (x % 65536 + 32768) % 65536
}
