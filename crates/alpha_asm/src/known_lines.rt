//! A source of which some lines are known to say an instruction alone each, so that these aren't read again.

ghost use Rattle.std.specs.Prelude.{◌≡◌, ◌≢◌, ◌+◌, ◌<◌, ◌^◌, ◌++◌, ◌∷◌, ℕ, List, [], length, map, Some, None};
ghost use Rattle.std.specs.Prelude.{Ok, Err, OnOk, IfOk, IfErr, IfSome};
ghost use Rattle.std.specs.Str.Lines.{lines};
ghost use Rattle.alpha_asm.specs.Program.{program_of};
ghost use Rattle.alpha_asm.specs.KnownLines.{IsKnown, AreKnown};
ghost use Rattle.alpha_asm.specs.Assembled.{item_at, refused, first_refused, assembled};
ghost use Rattle.alpha_asm.specs.Pass.{IsBounded, PassSimulates};
ghost use Rattle.alpha_asm.specs.declared.kind.SourceKind.TheVariants as source_kinds;
ghost use Rattle.alpha_asm.specs.declared.fault.AsmFault.TheVariants as faults;

use crate::AsmFault;
use crate::kind::SourceKind;
use crate::line_kind::LineKinds;
use crate::lines::Line;
use crate::pass::{LONGEST_LINE, Pass};
use crate::program::assemble_program;
use alpha_image::Image;
use alpha_table::Insn;
use std::alloc::Global;

impl<'a> Pass<'a> {
    // Goes over the next line of a program, of which an instruction may be known. What isn't known is read as lines are
    // of which no instruction alone was read: `read_canonical` has one caller, so that the compiler puts it into the
    // loop over lines.
    fn take_known(
        &mut self,
        known: Option<Insn>,
        line: &'a [u8],
        kinds: &mut LineKinds,
    ) -> Result<(), AsmFault>
        requires bounded { IsBounded self.old }
        requires lines { self.old.line + 1 < 2 ^ 32 }
        requires known { IfSome known (IsKnown line.now) }
        ensures ok { OnOk result ((is : _) → PassSimulates is self.old
            → PassSimulates (is ++ item_at line.entry.now ∷ []) self.new) }
        ensures taken { OnOk result ((is : _) → PassSimulates is self.old
            → refused source_kinds.Program is line.entry.now ≡ None) }
        ensures refused { IfErr result (λ fault. fault ≢ faults.NoMemory →
            (is : _) → PassSimulates is self.old → refused source_kinds.Program is line.entry.now ≡ Some fault) }
        ensures bounded { OnOk result (IsBounded self.new) }
        ensures line { OnOk result (self.new.line ≡ self.old.line + 1) }
    {
        if line.len() > LONGEST_LINE {
            return Err(AsmFault::LongLine(self.line + 1));
        }
        match known {
            Some(insn) => self.take_code(&insn),
            None => self.take_rest(SourceKind::Program, line, None, kinds),
        }
    }
}

// What is known of the first of some lines, and of those behind it.
fn first_known(known: &[Option<Insn>]) -> (Option<Insn>, &[Option<Insn>])
    ensures { (line : List ℕ) (others : List (List ℕ)) → AreKnown known.now (line ∷ others)
        → IfSome result.0 (IsKnown line) × AreKnown result.1.now others }
{
    match known {
        [first, more @ ..] => (*first, more),
        [] => (None, known),
    }
}

// Goes over all lines of a program of which some are known.
fn read_known_lines<'a>(
    alloc: Global,
    source: &'a [u8],
    known: &[Option<Insn>],
) -> Result<Pass<'a>, AsmFault>
    requires size { length source.now < 2 ^ 32 }
    requires known { AreKnown known.now (lines source.now) }
    ensures stands { IfOk result (PassSimulates (map item_at (lines source.now))) }
    ensures taken { OnOk result (first_refused source_kinds.Program [] (lines source.now) ≡ None) }
    ensures refused { IfErr result (λ fault. fault ≢ faults.NoMemory
        → first_refused source_kinds.Program [] (lines source.now) ≡ Some fault) }
{
    let mut kinds = LineKinds::none(alloc);
    let mut pass = Pass::new(alloc);
    let mut rest = source;
    let mut left = known;
    while !rest.is_empty() {
        let line = Line::first(rest);
        let (insn, more) = first_known(left);
        pass.take_known(insn, line.text, &mut kinds)?;
        rest = line.rest;
        left = more;
    }
    Ok(pass)
}

/// The image that a source defines, as [`assemble`](crate::assemble) gives it. Lines of which an instruction is known
/// aren't read.
///
/// # Errors
///
/// Those of `assemble`.
#[tactic(auto, unfolding(crate::specs::Assembled::assembled))]
pub fn assemble_known(
    alloc: Global,
    source: &[u8],
    known: &[Option<Insn>],
) -> Result<Image, AsmFault>
    requires size { length source.now < 2 ^ 32 }
    requires known { AreKnown known.now (lines source.now) }
    ensures ok { IfOk result (λ image. assembled source.now ≡ Ok (program_of image)) }
    ensures refused { IfErr result (λ fault. fault ≢ faults.NoMemory
        → assembled source.now ≡ Err fault) }
{
    let pass = read_known_lines(alloc, source, known)?;
    let (image, _labels) = assemble_program(pass)?;
    Ok(image)
}
