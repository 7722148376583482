ghost use Rattle.std.specs.Prelude.{◌≡◌, ◌≢◌, ◌≤◌, ◌<◌, ◌^◌, [], length, map, All, Some, None, OnOk, IfOk, IfErr};
ghost use Rattle.std.specs.List.{AllByRecursion};
ghost use Rattle.std.specs.Str.Lines.{lines};
ghost use Rattle.alpha_words.specs.declared.Level.TheVariants.{One};
ghost use Rattle.alpha_image.specs.Insns.{IsCodeInsn};
ghost use Rattle.alpha_asm.specs.Layout.{end};
ghost use Rattle.alpha_asm.specs.Assembled.{item_at, first_refused};
ghost use Rattle.alpha_asm.specs.Pass.{PassSimulates};
ghost use Rattle.alpha_asm.specs.Unlinked.{IsUnlinkedOf, IsUnlinked};
ghost use Rattle.alpha_asm.specs.declared.fault.AsmFault.TheVariants as faults;
ghost use Rattle.alpha_asm.specs.declared.kind.SourceKind.TheVariants as kinds;

use crate::AsmFault;
use crate::assembler::read_lines;
use crate::kind::SourceKind;
use crate::label::Labels;
use crate::line_kind::LineKinds;
use crate::pass::Pass;
use crate::patch::Patch;
use crate::program::{MOST_DATA, insns_fit};
use alpha_table::Insn;
use std::alloc::{AllocError, Global};

/// What the source of a module makes before any address is put in.
#[derive(Drop)]
pub struct Unlinked<'a> {
    /// The instructions. Those that are to reach an address have displacement 0.
    pub code: Vec<Insn>,
    /// How many data bytes.
    pub filled: usize,
    /// The data bytes, where there are at most 16,777,216; where there are more, some may be missing. Those of an
    /// address are 0.
    pub bytes: Vec<u8>,
    /// How many zeroed bytes stand behind them.
    pub zeroed: u64,
    /// The labels that the source defines.
    pub labels: Labels<'a>,
    /// The addresses to be put in, in the order of lines.
    pub patches: Vec<Patch<'a>>,
}

impl<'a> Unlinked<'a> {
    /// Reads the lines of a module's source.
    ///
    /// # Errors
    ///
    /// The refusal of the least line that is refused. `NoMemory` may come in place of any answer.
    pub fn of(alloc: Global, source: &'a [u8]) -> Result<Unlinked<'a>, AsmFault>
        requires { length source.now < 2 ^ 32 }
        ensures makes { IfOk result (IsUnlinkedOf (map item_at (lines source.now))) }
        ensures few { IfOk result (λ made. length made.bytes.items ≤ made.filled) }
        ensures level { IfOk result (λ made. All (IsCodeInsn One) made.code.items) }
        ensures good { OnOk result (AllByRecursion IsUnlinked (map item_at (lines source.now))) }
        ensures taken { OnOk result (first_refused kinds.Module [] (lines source.now) ≡ None) }
        ensures refused { IfErr result (λ fault. fault ≢ faults.NoMemory →
            first_refused kinds.Module [] (lines source.now) ≡ Some fault) }
    {
        let mut kinds = LineKinds::none(alloc);
        let pass = read_lines(alloc, SourceKind::Module, source, &mut kinds)?;
        Ok(Unlinked::of_pass(pass)?)
    }

    // What a pass has made.
    fn of_pass(pass: Pass<'a>) -> Result<Unlinked<'a>, AllocError>
        ensures makes { IfOk result (λ made. (is : _) → PassSimulates is pass.entry → IsUnlinkedOf is made) }
        ensures few { IfOk result (λ made. length made.bytes.items ≤ made.filled) }
        ensures level { IfOk result (λ made. (is : _) → PassSimulates is pass.entry
            → (end is).level ≡ None
            → All (IsCodeInsn One) made.code.items) }
    {
        let filled = pass.output.bytes.len();
        let zeroed = pass.place.last.zeroed;
        let code = pass.output.code;
        insns_fit(&code);
        let patches = pass.output.patches;
        let bytes = pass.output.bytes.spread_within(MOST_DATA)?;
        Ok(Unlinked {
            code,
            filled,
            bytes,
            zeroed,
            labels: pass.labels,
            patches,
        })
    }
}
