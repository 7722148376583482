//! Images for tests: a program of some code words in one call, so that no test writes its own header.
//!
//! [`sample`] makes the image of some words, with the fields of a source that says nothing of them;
//! `specs/Sample.antt` says which.
#![tactic(auto)]

ghost use Rattle.std.specs.Prelude.{◌≡◌, IfOk};
ghost use Rattle.std.specs.List.{flat_map};
ghost use Rattle.alpha_image.specs.Layout.{longword};
ghost use Rattle.alpha_samples.specs.Sample.{sample};

use alpha_image::{Fields, Image, ImageFault, push_longword};
use std::alloc::{AllocError, Global};

/// The image of version 1 whose code is these words from 0x10000 on, with the entry at the first
/// of them, so many zeroed bytes of data at 0x10000000, and a stack of 65,536 bytes.
///
/// # Errors
///
/// Those of [`Image::build`]: a bad field, a word outside the instruction table, and `NoMemory`.
pub fn sample(alloc: Global, words: &[u32], zeroed: u64) -> Result<Image, ImageFault>
    ensures { IfOk result (λ image. image ≡ sample words.now zeroed) }
{
    let fields = Fields {
        code_base: 0x1_0000,
        data_base: 0x1000_0000,
        entry: 0x1_0000,
        zeroed,
        stack: 65_536,
    };
    let code = code_of(alloc, words)?;
    Image::build(alloc, &fields, &code, &[])
}

// The words as bytes, each as four with the lowest first.
fn code_of(alloc: Global, words: &[u32]) -> Result<Vec<u8>, AllocError>
    ensures { IfOk result (λ code. code.items ≡ flat_map longword words.now) }
{
    let mut code = Vec::with_capacity(alloc, words.len().saturating_mul(4))?;
    for word in words {
        push_longword(&mut code, *word)?;
    }
    Ok(code)
}
