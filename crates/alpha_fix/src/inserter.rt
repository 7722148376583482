ghost use Rattle.std.specs.Prelude.{◌≡◌, ◌≢◌, ◌<◌, ◌^◌, [], length, Ok, OnOk, IfOk, IfErr};
ghost use Rattle.alpha_asm.specs.Program.{program_of};
ghost use Rattle.std.specs.Str.Lines.{lines};
ghost use Rattle.alpha_asm.specs.KnownLines.{AreKnown};
ghost use Rattle.alpha_asm.specs.Assembled.{assembled};
ghost use Rattle.alpha_image.specs.Parts.{Parts};
ghost use Rattle.alpha_fix.specs.Fix.{HasImage, HasCuts, IsFixedSource, IsFar, Refuses};

use crate::barriers::{BarredSource, with_barriers};
use crate::{CutFault, FixFault, cuts_of};
use alpha_asm::{AsmFault, Symbols, assemble_known, assemble_with_symbols};
use alpha_image::Image;
use alpha_table::Insn;
use std::alloc::Global;

/// The source with a barrier, a line `trapb`, at each cut of its code, so that the checker accepts
/// its image and needs each of the added barriers. A source that is accepted comes back unchanged.
///
/// # Errors
///
/// The first of [`FixFault`] that applies. `NoMemory` may come in place of any answer.
pub fn fix(alloc: Global, source: &[u8]) -> Result<Vec<u8>, FixFault>
    requires { length source.now < 2 ^ 31 }
    ensures ok { IfOk result (λ text. IsFixedSource source.now text.items) }
    ensures refused { IfErr result (Refuses source.now) }
{
    match assemble_with_symbols(alloc, source) {
        Ok((image, symbols)) => fix_image(alloc, source, &image, symbols),
        Err(AsmFault::NoMemory) => Err(FixFault::NoMemory),
        Err(fault) => Err(FixFault::Source(fault)),
    }
}

// The fixed source of a source with this image and these symbols.
fn fix_image<'a>(
    alloc: Global,
    source: &'a [u8],
    image: &Image,
    symbols: Symbols<'a>,
) -> Result<Vec<u8>, FixFault>
    requires size { length source.now < 2 ^ 31 }
    requires symbols { symbols ≡ source.now }
    requires image { assembled source.now ≡ Ok (program_of image.now) }
    ensures ok { IfOk result (λ text. IsFixedSource source.now text.items) }
    ensures refused { IfErr result (Refuses source.now) }
{
    let words = image.words();
    match cuts_of(alloc, image) {
        Ok(cuts) => {
            if cuts.is_empty() {
                Ok(Vec::from_slice(alloc, source)?)
            } else {
                let base = image.code_base();
                fix_at(alloc, source, base, words, &cuts, image, symbols)
            }
        }
        Err(CutFault::Unfixable(broken)) => Err(FixFault::Unfixable(broken, image.code_base())),
        Err(CutFault::NoMemory) => Err(FixFault::NoMemory),
    }
}

// The fixed source of a source whose code has these cuts, one or more.
fn fix_at<'a>(
    alloc: Global,
    source: &'a [u8],
    base: u64,
    words: u32,
    cuts: &[u32],
    image: &Image,
    symbols: Symbols<'a>,
) -> Result<Vec<u8>, FixFault>
    requires size { length source.now < 2 ^ 31 }
    requires symbols { symbols ≡ source.now }
    requires cuts { HasCuts source.now image.now cuts.now }
    requires some { cuts.now ≢ [] }
    requires base { base ≡ image.now.code_base }
    requires words { words ≡ length image.now.words }
    ensures ok { IfOk result (λ text. IsFixedSource source.now text.items) }
    ensures refused { IfErr result (Refuses source.now) }
{
    let made = with_barriers(alloc, symbols, source, base, words, cuts)?;
    let BarredSource { text, known } = made;
    require_image(alloc, text, &known)
}

// Gives a text back where it has an image, and refuses it as far where it has none.
fn require_image(alloc: Global, text: Vec<u8>, known: &[Option<Insn>]) -> Result<Vec<u8>, FixFault>
    requires size { length text.items < 2 ^ 32 }
    requires known { AreKnown known.now (lines text.items) }
    ensures ok { IfOk result (λ same. same.items ≡ text.items) }
    ensures image { OnOk result ((image : Parts) × HasImage text.items image) }
    ensures refused { IfErr result (IsFar text.items) }
{
    match assemble_known(alloc, &text, known) {
        Ok(_) => Ok(text),
        Err(AsmFault::NoMemory) => Err(FixFault::NoMemory),
        Err(fault) => Err(FixFault::Far(fault)),
    }
}
