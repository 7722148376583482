ghost use Rattle.std.specs.Prelude.{◌≡◌, ◌+◌, ◌≤◌, ◌^◌, ◌*◌, map, slice_get, if◌then◌else◌, Some, None, OnOk, IfOk};
ghost use Rattle.std.specs.Prelude.{IfErr, IfSome, OnSome, is_some};
ghost use Rattle.std.specs.Option.{option_map, option_map_or, option_or};
ghost use Rattle.alpha_asm.specs.Layout.{first};
ghost use Rattle.alpha_asm.specs.Program.{location_address, address_of, quadword_of, undefined_line, out_of_range_line};
ghost use Rattle.alpha_asm.specs.Program.{is_in_range, entry_number, reached};
ghost use Rattle.alpha_asm.specs.Patches.{reference_of, entry_view, fix_of, target_of, offset_of, names_of, IsField};
ghost use Rattle.alpha_asm.specs.Patches.{IsNear, overlaid, code_at, code_with, bytes_with, code_after, bytes_after};
ghost use Rattle.alpha_asm.specs.Bases.{known_of};
ghost use Rattle.alpha_asm.specs.declared.fault.AsmFault.TheVariants as faults;

use crate::AsmFault;
use crate::fields::Entry;
use crate::label::Labels;
use crate::patch::{Displacement, Patch, RelocationKind, Target, quadword_of, with_displacement};
use crate::place::LabelLocation;
use crate::statement::RelocField;
use alpha_image::Segment;
use alpha_table::Insn;
use alpha_text::Expr;

/// What the addresses of labels depend on, behind the last line.
#[derive(Clone, Copy)]
pub(crate) struct Bases<'k, 'a> {
    pub code_base: u64,
    pub segments: &'k [Segment],
    pub labels: &'k Labels<'a>,
}

impl<'a> Bases<'_, 'a> {
    // The base of a segment.
    fn base(&self, segment: usize) -> u64
        ensures { result ≡ option_map_or (λ s. s.base) (slice_get self.now.segments.now segment) 0 }
    {
        match self.segments.get(segment) {
            Some(segment) => segment.base,
            None => 0,
        }
    }

    // The address of a place in the code or in a segment.
    fn location_address(&self, location: LabelLocation) -> u128
        ensures value { result ≡ location_address (known_of self.now) location }
        ensures bound { result ≤ 2 ^ 69 }
    {
        match location {
            LabelLocation::Code(words) => u128::from(self.code_base) + 4 * u128::from(words),
            LabelLocation::Data(segment, offset) => {
                u128::from(self.base(segment as usize)) + u128::from(offset)
            },
        }
    }

    // The address that a statement names, `None` exactly where the label has no definition.
    fn address(&self, to: &Expr<'a>) -> Option<i128>
        ensures found { is_some result ≡ is_some ((known_of self.now).locations to.now.label.now) }
        ensures value { IfSome result (λ a. a
            ≡ address_of (known_of self.now) (reference_of to.now)) }
        ensures in_range { IfSome result IsNear }
    {
        let spot = self.labels.location(to.label)?;
        Some(self.location_address(spot) as i128 + i128::from(to.offset))
    }

    /// The address of the entry, the last number of 64 bits where it is outside them.
    pub(crate) fn entry(&self, entry: &Entry<'a>) -> u64
        ensures { result ≡ entry_number (known_of self.now) (entry_view entry.now) }
    {
        match entry {
            Entry::At(n) => *n,
            Entry::Of(to) => match self.address(to) {
                Some(address) => quadword_of(address).unwrap_or(u64::MAX),
                // The label is refused; until then it counts as 0.
                None => quadword_of(i128::from(to.offset)).unwrap_or(u64::MAX),
            },
        }
    }
}

// Gives the instruction at a place another displacement, if there is one.
fn displace(code: &mut Vec<Insn>, place: usize, displacement: Displacement)
    requires { IsField displacement }
    ensures { code.new.items ≡ code_at (Some displacement) place code.old.items }
{
    match code.get(place) {
        Some(insn) => {
            let new = with_displacement(insn, displacement);
            code[place] = new;
        }
        None => {}
    }
}

/// Puts an address into the instruction at a place, which stands at `pc`, if there is one. It answers whether the
/// instruction reaches it.
pub fn put_insn(
    field: RelocField,
    pc: u128,
    place: usize,
    address: i128,
    code: &mut Vec<Insn>,
) -> bool
    requires pc { pc ≤ 2 ^ 70 }
    requires in_range { IsNear address }
    ensures fits { result ≡ is_some (reached field pc address) }
    ensures code { code.new.items ≡ code_at (reached field pc address) place code.old.items }
{
    match field.displacement(pc, address) {
        Some(displacement) => {
            displace(code, place, displacement);
            true
        }
        None => false,
    }
}

// Writes the eight bytes of a number, the lowest first, behind so many bytes, if they are there.
fn put_quadword(bytes: &mut [u8], at: usize, n: u64)
    ensures { bytes.new ≡ overlaid at n bytes.old }
{
    if bytes.len() < 8 || at > bytes.len() - 8 {
        return;
    }
    bytes[at..at + 8].copy_from_slice(&n.to_le_bytes());
}

/// Writes the quadword of an address, the lowest byte first, behind so many bytes, where eight bytes
/// stand there. It answers whether the address fits into one.
pub fn put_quad(address: i128, at: usize, bytes: &mut Vec<u8>) -> bool
    ensures fits { result ≡ is_some (quadword_of address) }
    ensures bytes { bytes.new.items
        ≡ option_map_or (λ n. overlaid at n bytes.old.items) (quadword_of address) bytes.old.items }
{
    match quadword_of(address) {
        Some(n) => {
            put_quadword(bytes, at, n);
            true
        }
        None => false,
    }
}

// Puts in the address that a patch names. Whether it fits, `None` exactly where its label has no
// definition.
fn put_patch<'a>(
    bases: &Bases<'_, 'a>,
    patch: &Patch<'a>,
    code: &mut Vec<Insn>,
    bytes: &mut Vec<u8>,
) -> Option<bool>
    ensures found { is_some result ≡ is_some ((known_of bases.now).locations patch.now.to.label.now) }
    ensures fits { IfSome result (λ fits. fits
        ≡ is_in_range (known_of bases.now) (address_of (known_of bases.now) (reference_of patch.now.to))
        (target_of patch.now.at patch.now.target)) }
    ensures code { OnSome result (code.new.items
        ≡ code_with (known_of bases.now)
        (address_of (known_of bases.now) (reference_of patch.now.to))
        (target_of patch.now.at patch.now.target) code.old.items) }
    ensures bytes { OnSome result (bytes.new.items
        ≡ bytes_with (known_of bases.now) (offset_of patch.now.at patch.now.target)
        (address_of (known_of bases.now) (reference_of patch.now.to))
        (target_of patch.now.at patch.now.target) bytes.old.items) }
{
    let address = bases.address(&patch.to)?;
    let at = patch.at;
    match patch.target {
        Target::Put(RelocationKind::Insn(by)) => {
            let pc = u128::from(bases.code_base) + 4 * at as u128;
            Some(put_insn(by, pc, at, address, code))
        }
        Target::Put(RelocationKind::Quad) => Some(put_quad(address, at, bytes)),
        Target::Entry => Some(true),
    }
}

// The first line that is known, of one known so far and one that doesn't fit.
fn first_out_of_range(found: Option<u32>, fits: bool, line: u32) -> Option<u32>
    ensures { result ≡ option_or found (if fits then None else Some line) }
{
    match found {
        Some(first) => Some(first),
        None => { if fits { None } else { Some(line) } }
    }
}

/// Puts all addresses in. Gives the line of the first one that doesn't fit.
///
/// # Errors
///
/// `Undefined` with the line of the first one whose label has no definition.
pub(crate) fn put_addresses<'a>(
    bases: &Bases<'_, 'a>,
    patches: &[Patch<'a>],
    code: &mut Vec<Insn>,
    bytes: &mut Vec<u8>,
) -> Result<Option<u32>, AsmFault>
    ensures undefined { IfErr result (λ fault.
        option_map faults.Undefined
        (first (undefined_line (known_of bases.now)) (names_of patches.now)) ≡ Some fault) }
    ensures defined { OnOk result
        (first (undefined_line (known_of bases.now)) (names_of patches.now) ≡ None) }
    ensures out_of_range { IfOk result (λ line. line
        ≡ first (out_of_range_line (known_of bases.now)) (names_of patches.now)) }
    ensures code { OnOk result (code.new.items
        ≡ code_after (known_of bases.now) (map fix_of patches.now) code.old.items) }
    ensures bytes { OnOk result (bytes.new.items
        ≡ bytes_after (known_of bases.now) (map fix_of patches.now) bytes.old.items) }
{
    let mut unmet = None;
    for patch in patches {
        match put_patch(bases, patch, code, bytes) {
            Some(fits) => {
                unmet = first_out_of_range(unmet, fits, patch.line);
            }
            None => return Err(AsmFault::Undefined(patch.line)),
        }
    }
    Ok(unmet)
}
