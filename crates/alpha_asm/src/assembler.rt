ghost use Rattle.std.specs.Prelude.{◌≡◌, ◌≢◌, ◌<◌, ◌^◌, ◌++◌, [], length, map, true, Some, None, Ok, Err, OnOk, IfOk};
ghost use Rattle.std.specs.Prelude.{IfErr};
ghost use Rattle.std.specs.Str.Lines.{lines};
ghost use Rattle.alpha_asm.specs.Program.{program_of};
ghost use Rattle.alpha_asm.specs.Assembled.{item_at, first_refused, assembled};
ghost use Rattle.alpha_asm.specs.LineKinds.{kinds_of};
ghost use Rattle.alpha_asm.specs.Pass.{PassSimulates};
ghost use Rattle.alpha_asm.specs.declared.fault.AsmFault.TheVariants as faults;

use crate::AsmFault;
use crate::kind::SourceKind;
use crate::line_kind::LineKinds;
use crate::lines::Line;
use crate::pass::Pass;
use crate::program::assemble_program;
use alpha_image::Image;
use std::alloc::Global;

/// The image that a source defines: bytes, fewer than 2^32, in lines of 1,024 at most without their ends, of the line
/// grammar that `alpha_text` reads. It goes over the lines once.
///
/// # Errors
///
/// The first refusal, in the order of [`AsmFault`]. `NoMemory` may come in place of any answer.
#[tactic(auto, unfolding(crate::specs::Assembled::assembled))]
pub fn assemble(alloc: Global, source: &[u8]) -> Result<Image, AsmFault>
    requires { length source.now < 2 ^ 32 }
    ensures ok { IfOk result (λ image. assembled source.now ≡ Ok (program_of image)) }
    ensures refused { IfErr result (λ fault. fault ≢ faults.NoMemory
        → assembled source.now ≡ Err fault) }
{
    let mut kinds = LineKinds::none(alloc);
    let pass = read_lines(alloc, SourceKind::Program, source, &mut kinds)?;
    let (image, _labels) = assemble_program(pass)?;
    Ok(image)
}

/// Goes over all lines of a source of this kind, and adds their kinds to those that are gathered.
pub(crate) fn read_lines<'a>(
    alloc: Global,
    kind: SourceKind,
    source: &'a [u8],
    kinds: &mut LineKinds,
) -> Result<Pass<'a>, AsmFault>
    requires { length source.now < 2 ^ 32 }
    ensures stands { IfOk result (PassSimulates (map item_at (lines source.now))) }
    ensures taken { OnOk result (first_refused kind [] (lines source.now) ≡ None) }
    ensures kinds { OnOk result (kinds.old.gathers ≡ true →
        kinds.new.items.items ≡ kinds.old.items.items
        ++ kinds_of (map item_at (lines source.now))) }
    ensures refused { IfErr result (λ fault. fault ≢ faults.NoMemory
        → first_refused kind [] (lines source.now) ≡ Some fault) }
{
    let mut pass = Pass::new(alloc);
    let mut rest = source;
    while !rest.is_empty() {
        let line = Line::first(rest);
        pass.take_line(kind, line.text, rest, kinds)?;
        rest = line.rest;
    }
    Ok(pass)
}
