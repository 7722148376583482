ghost use Rattle.std.specs.Prelude.{◌≡◌, ◌≢◌, ◌++◌, ◌∷◌, [], length, Some, Ok, Err, All, IfNone, IfOk, IfErr};
ghost use Rattle.std.specs.List.{flat_map};
ghost use Rattle.std.specs.Option.{option_map, option_or};
ghost use Rattle.alpha_table.specs.Row.{IsInsn};
ghost use Rattle.alpha_image.specs.Rules.{FieldsFit};
ghost use Rattle.alpha_image.specs.FieldTests.{least_bad_field};
ghost use Rattle.alpha_asm.specs.Layout.{first, layout};
ghost use Rattle.alpha_asm.specs.Program.{program_of, version_of, based, own_segments, known, names_in, undefined_line};
ghost use Rattle.alpha_asm.specs.Assembled.{assembled_program};
ghost use Rattle.alpha_asm.specs.Patches.{entry_view};
ghost use Rattle.alpha_asm.specs.Pass.{place_of, fields_read, Sound, Leveled, PassSimulates};
ghost use Rattle.alpha_asm.specs.Bases.{known_of};
ghost use Rattle.alpha_asm.specs.Finished.{fields_of, finished_numbers, finished_result, IsWhole, Finishes};
ghost use Rattle.alpha_asm.specs.declared.fault.AsmFault.TheVariants as faults;

use crate::AsmFault;
use crate::bases::{Bases, put_addresses};
use crate::fields::{Entry, FieldsRead};
use crate::label::Labels;
use crate::pass::Pass;
use alpha_image::{Image, LevelFields, Segment, Version};
use alpha_table::Insn;
use std::alloc::AllocError;

/// The address of the first code word without a `.codebase`.
pub const CODE_BASE: u64 = 0x10000;

/// The address of the first data byte without a `.database`.
pub const DATA_BASE: u64 = 0x1000_0000;

/// The most data bytes of an image.
pub(crate) const MOST_DATA: usize = 16_777_216;

/// How many stack bytes an image has without a `.stack`.
pub const STACK_BYTES: u64 = 65_536;

// The segments, the one of the first version first.
fn all_segments(earlier: Vec<Segment>, last: Segment, base: u64) -> Result<Vec<Segment>, AllocError>
    ensures { IfOk result (λ all. all.items ≡ based base (earlier.items ++ last ∷ [])) }
{
    let mut all = earlier;
    all.push(last)?;
    all[0].base = base;
    Ok(all)
}

// The segments that the image has.
fn own_segments(level: Option<u8>, all: &[Segment]) -> &[Segment]
    ensures { result.now ≡ own_segments level all.now }
{
    match level {
        Some(_) => all.get(1..).unwrap_or(&[]),
        None => all,
    }
}

// The version that has a level of its own, or the first.
fn version_of(level: Option<u8>) -> Version
    ensures { result ≡ version_of level }
{
    match level {
        Some(_) => Version::Two,
        None => Version::One,
    }
}

/// Says of instructions that each is one of the table, which a proof knows of one whose form is asked
/// for. The call is there for this clause alone: nothing is done with the forms.
pub(crate) fn insns_fit(code: &[Insn])
    ensures { All IsInsn code.now }
{
    for insn in code {
        let _form = insn.form();
    }
}

/// A program with all addresses put in.
#[derive(Drop)]
struct Finished {
    /// Of a `.level`.
    level: Option<u8>,
    fields: LevelFields,
    /// The one of the first version first.
    segments: Vec<Segment>,
    code: Vec<Insn>,
    bytes: Vec<u8>,
    /// The line of the first address that doesn't fit.
    out_of_range: Option<u32>,
}

impl Finished {
    // Why it has no image.
    fn fault(&self) -> Option<AsmFault>
        ensures value { result
            ≡ option_or (option_map faults.ImageField (least_bad_field (finished_numbers self.now)))
            (option_map faults.Reach self.now.out_of_range) }
        ensures good { IfNone result (FieldsFit (finished_numbers self.now)) }
    {
        let own = own_segments(self.level, &self.segments);
        match self.fields.bad_field(self.code.len() as u64, own) {
            Some(field) => Some(AsmFault::ImageField(field)),
            None => match self.out_of_range {
                Some(line) => Some(AsmFault::Reach(line)),
                None => None,
            },
        }
    }

    // The image, if it has one. Each instruction is there at the level: one above it was refused with
    // its line.
    fn image(self) -> Result<Image, AsmFault>
        requires { IsWhole self }
        ensures ok { IfOk result (λ image. finished_result self ≡ Ok (program_of image)) }
        ensures refused { IfErr result (λ fault. fault ≢ faults.NoMemory
            → finished_result self ≡ Err fault) }
    {
        if let Some(fault) = self.fault() {
            return Err(fault);
        }
        let Finished {
            level,
            fields,
            segments,
            code,
            bytes,
            out_of_range: _,
        } = self;
        insns_fit(&code);
        let own = own_segments(level, &segments);
        Ok(Image::of_program(version_of(level), &fields, own, code, bytes))
    }
}

/// The image behind the last line, and the labels.
///
/// # Errors
///
/// `NoEntry`, `Undefined`, `ImageField` or `Reach`, the first in this order.
pub(crate) fn assemble_program<'a>(pass: Pass<'a>) -> Result<(Image, Labels<'a>), AsmFault>
    requires sound { Sound (place_of pass) (length pass.output.bytes.items) }
    requires leveled { Leveled (place_of pass) pass.output.code.items }
    ensures ok { IfOk result (λ r. (is : _) → PassSimulates is pass.entry
        → assembled_program is ≡ Ok (program_of r.0)) }
    ensures labels { IfOk result (λ r. r.1 ≡ pass.entry.labels) }
    ensures refused { IfErr result (λ fault. fault ≢ faults.NoMemory →
        (is : _) → PassSimulates is pass.entry → assembled_program is ≡ Err fault) }
{
    match pass.fields.entry {
        Some(entry) => match finish(pass, &entry) {
            Ok((finished, labels)) => match finished.image() {
                Ok(image) => Ok((image, labels)),
                Err(fault) => Err(fault),
            },
            Err(fault) => Err(fault),
        },
        None => Err(AsmFault::NoEntry),
    }
}

// The numbers of the image that its code, data bytes and segments don't give.
fn fields_of<'a>(
    bases: &Bases<'_, 'a>,
    read: &FieldsRead<'_>,
    level: Option<u8>,
    entry: &Entry<'a>,
) -> LevelFields
    ensures { result
        ≡ fields_of (known_of bases.now) (fields_read read.now) level (entry_view entry.now) }
{
    LevelFields {
        code_base: bases.code_base,
        entry: bases.entry(entry),
        stack: read.stack.unwrap_or(STACK_BYTES),
        level: u64::from(level.unwrap_or(1)),
    }
}

// Puts all addresses in.
fn finish<'a>(pass: Pass<'a>, entry: &Entry<'a>) -> Result<(Finished, Labels<'a>), AsmFault>
    requires sound { Sound (place_of pass) (length pass.output.bytes.items) }
    requires leveled { Leveled (place_of pass) pass.output.code.items }
    ensures whole { IfOk result (λ r. IsWhole r.0) }
    ensures ok { IfOk result (λ r. (is : _) → PassSimulates is pass.entry →
        Finishes is (entry_view entry.now) r.0) }
    ensures labels { IfOk result (λ r. r.1 ≡ pass.entry.labels) }
    ensures undefined { IfErr result (λ fault. fault ≢ faults.NoMemory → (is : _)
        → PassSimulates is pass.entry
        → option_map faults.Undefined
        (first (undefined_line (known is)) (flat_map names_in (layout is))) ≡ Some fault) }
{
    let level = pass.place.level;
    let base = pass.fields.data_base.unwrap_or(DATA_BASE);
    let segments = all_segments(pass.place.earlier, pass.place.last, base)?;
    let patches = pass.output.patches;
    let mut code = pass.output.code;
    let mut bytes = pass.output.bytes.spread_within(MOST_DATA)?;
    let bases = Bases {
        code_base: pass.fields.code_base.unwrap_or(CODE_BASE),
        segments: &segments,
        labels: &pass.labels,
    };
    match put_addresses(&bases, &patches, &mut code, &mut bytes) {
        Ok(unmet) => {
            let fields = fields_of(&bases, &pass.fields, level, entry);
            let finished = Finished {
                level,
                fields,
                segments,
                code,
                bytes,
                out_of_range: unmet,
            };
            Ok((finished, pass.labels))
        }
        Err(fault) => Err(fault),
    }
}
