ghost use Rattle.std.specs.Prelude.{◌≡◌, ◌≢◌, ◌<◌, ◌^◌, length, map, Ok, Err, IfOk, IfErr};
ghost use Rattle.std.specs.Str.Lines.{lines};
ghost use Rattle.alpha_asm.specs.Layout.{layout, location_of, is_of_code};
ghost use Rattle.alpha_asm.specs.LineKinds.{kinds_of};
ghost use Rattle.alpha_asm.specs.Patches.{insns_of};
ghost use Rattle.alpha_asm.specs.Program.{program_of};
ghost use Rattle.alpha_asm.specs.Assembled.{item_at, assembled};
ghost use Rattle.alpha_asm.specs.declared.fault.AsmFault.TheVariants as faults;

use crate::AsmFault;
use crate::assembler::read_lines;
use crate::kind::SourceKind;
use crate::label::Labels;
use crate::line_kind::{LineKind, LineKinds};
use crate::place::LabelLocation;
use crate::program::assemble_program;
use alpha_image::Image;
use alpha_table::Insn;
use std::alloc::Global;
use std::marker::Model;

/// What is gathered of a source that has an image: its labels, the kinds of its lines, and its instructions. A clause
/// sees the source.
#[derive(Drop)]
pub struct Symbols<'a> {
    source: &'a [u8],
    labels: Labels<'a>,
    kinds: Vec<LineKind>,
    code: Vec<Insn>,
}

impl<'a> Model for Symbols<'a> {
    ghost use Rattle.std.specs.Prelude.{ℕ, List};
    ghost use Rattle.alpha_asm.specs.Symbols.{IsGathered};

    ghost Value = { List ℕ };

    ghost view = { λ s. s.source.now };

    ghost invariant = { IsGathered };
}

/// The image that a source defines, with what is gathered of the source.
///
/// # Errors
///
/// The first refusal, in the order of [`AsmFault`]. `NoMemory` may come in place of any answer.
#[tactic(auto, unfolding(crate::specs::Assembled::assembled))]
pub fn assemble_with_symbols<'a>(
    alloc: Global,
    source: &'a [u8],
) -> Result<(Image, Symbols<'a>), AsmFault>
    requires { length source.now < 2 ^ 32 }
    ensures ok { IfOk result (λ made. assembled source.now ≡ Ok (program_of made.0)) }
    ensures symbols { IfOk result (λ made. made.1 ≡ source.now) }
    ensures refused { IfErr result (λ fault. fault ≢ faults.NoMemory
        → assembled source.now ≡ Err fault) }
{
    let mut kinds = LineKinds::new(alloc);
    let pass = read_lines(alloc, SourceKind::Program, source, &mut kinds)?;
    let code = Vec::from_slice(alloc, &pass.output.code)?;
    let (image, labels) = assemble_program(pass)?;
    let kinds = kinds.items;
    Ok((
        image,
        Symbols {
            source,
            labels,
            kinds,
            code,
        },
    ))
}

impl<'a> Symbols<'a> {
    /// Whether a label names a word of the code.
    pub fn names_code(&self, label: &'a [u8]) -> bool
        ensures { result ≡ is_of_code (location_of (layout (map item_at (lines self.now))) label.now) }
    {
        match self.labels.location(label) {
            Some(LabelLocation::Code(_)) => true,
            Some(LabelLocation::Data(..)) | None => false,
        }
    }

    /// The kinds of the lines, one a line.
    pub fn kinds(&self) -> &[LineKind]
        ensures { result.now ≡ kinds_of (map item_at (lines self.now)) }
    {
        &self.kinds
    }

    /// The instructions of the lines. Those that are to reach an address have displacement 0.
    pub fn code(&self) -> &[Insn]
        ensures { result.now ≡ insns_of (map item_at (lines self.now)) }
    {
        &self.code
    }
}
