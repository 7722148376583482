//! The image that modules link to.

ghost use Rattle.std.specs.Prelude.{◌≡◌, ◌≢◌, ◌≤◌, ℕ, List, length, [], ◌∷◌, Some, Ok, Err, All, IfOk, IfErr};
ghost use Rattle.std.specs.Option.{option_map};
ghost use Rattle.alpha_image.specs.Fields.{level_numbers};
ghost use Rattle.alpha_asm.specs.Program.{program_of, program_with};
ghost use Rattle.alpha_link.specs.declared.fault.LinkFault.TheVariants as faults;
ghost use Rattle.alpha_link.specs.Linked.{places, address_of, first_unresolved, out_of_range, entry_of, words_in};
ghost use Rattle.alpha_link.specs.Linked.{filled_in};
ghost use Rattle.alpha_link.specs.Linked.{zeroed_in, linked_at, linked};
ghost use Rattle.alpha_link.specs.Addresses.{AllKnow};
ghost use Rattle.alpha_link.specs.Names.{found_in};
ghost use Rattle.alpha_link.specs.Output.{AreAfterCode, JoinsAll};
ghost use Rattle.alpha_image.specs.Rules.{FieldsFit};
ghost use Rattle.alpha_image.specs.Insns.{IsCodeInsn};
ghost use Rattle.alpha_words.specs.declared.Level.TheVariants as levels;
ghost use Rattle.alpha_image.specs.declared.version.Version.TheVariants.{One};

use crate::LinkFault;
use crate::global_symbols::starts_of;
use crate::located::{Located, places};
use crate::module::Module;
use crate::output::Output;
use crate::table::Names;
use alpha_asm::{CODE_BASE, DATA_BASE, STACK_BYTES};
use alpha_image::{Image, LevelFields, Segment, Version};
use std::alloc::Global;

// How many code words, data bytes and zeroed bytes the image has.
#[derive(Clone, Copy)]
struct Totals {
    words: u32,
    filled: u32,
    zeroed: u32,
}

impl Totals {
    // They are told by the last module.
    fn of(places: &[Located<'_>]) -> Totals
        ensures words { result.words ≡ words_in places.now }
        ensures filled { result.filled ≡ filled_in places.now }
        ensures zeroed { result.zeroed ≡ zeroed_in places.now }
    {
        match places.last() {
            Some(located) => {
                let module = located.module;
                Totals {
                    words: located.words + module.words(),
                    filled: located.filled + module.bytes.len() as u32,
                    zeroed: module.zeroed,
                }
            }
            None => Totals {
                words: 0,
                filled: 0,
                zeroed: 0,
            },
        }
    }
}

// The refusal of the least symbol whose name has no address.
fn first_undefined<'m>(names: &Names<'_, 'm>, places: &[Located<'m>]) -> Option<LinkFault>
    requires names { (name : List ℕ) → found_in names.now name ≡ address_of places.now name }
    requires own { AllKnow (found_in names.now) places.now }
    ensures { result ≡ option_map (λ p. faults.Undefined p.0 p.1) (first_unresolved places.now) }
{
    for located in places {
        if let Some(number) = names.first_unresolved(located) {
            return Some(LinkFault::Undefined(located.number, number));
        }
    }
    None
}

// The address of an entry, which is that of a code word.
fn entry_of<'m>(
    names: &Names<'_, 'm>,
    places: &[Located<'m>],
    words: u32,
    entry: &'m [u8],
) -> Option<u64>
    requires names { (name : List ℕ) → found_in names.now name ≡ address_of places.now name }
    requires words { words ≡ words_in places.now }
    ensures { result ≡ entry_of places.now entry.now }
{
    let address = names.address(entry)?;
    if CODE_BASE <= address && address < CODE_BASE + 4 * u64::from(words) {
        Some(address)
    } else {
        None
    }
}

// The code and the data bytes of the image, with all addresses put in.
fn join_modules<'m>(
    alloc: Global,
    names: &Names<'_, 'm>,
    places: &[Located<'m>],
    totals: Totals,
) -> Result<Output, LinkFault>
    requires names { (name : List ℕ) → found_in names.now name ≡ address_of places.now name }
    requires own { AllKnow (found_in names.now) places.now }
    requires stand { AreAfterCode 0 0 places.now }
    ensures ok { IfOk result (JoinsAll places.now) }
    ensures insns { IfOk result (λ output. All (IsCodeInsn levels.One) output.code.items) }
    ensures refused { IfErr result (λ fault. fault ≢ faults.NoMemory →
        option_map (λ p. faults.Reach p.0 p.1) (out_of_range places.now) ≡ Some fault) }
{
    let mut output = Output::empty(alloc, totals.words, totals.filled)?;
    for located in places {
        if let Some(number) = output.join(alloc, names, located)? {
            return Err(LinkFault::Reach(located.number, number));
        }
    }
    Ok(output)
}

// The image of instructions and data bytes.
fn image_with(fields: &LevelFields, segment: Segment, output: Output) -> Image
    requires fields { FieldsFit (level_numbers fields.now (length output.code.items)
        (segment ∷ [])) }
    requires level { fields.now.level ≡ 1 }
    requires filled { length output.bytes.items ≡ segment.filled }
    requires insns { All (IsCodeInsn levels.One) output.code.items }
    ensures { let numbers = level_numbers fields.now (length output.code.items) (segment ∷ []) in
        program_of result ≡ program_with One numbers output.code.items output.bytes.items }
{
    let Output { code, bytes } = output;
    Image::of_program(Version::One, fields, &[segment], code, bytes)
}

// The image with an entry.
fn link_with_entry<'m>(
    alloc: Global,
    names: &Names<'_, 'm>,
    places: &[Located<'m>],
    totals: Totals,
    entry: u64,
) -> Result<Image, LinkFault>
    requires names { (name : List ℕ) → found_in names.now name ≡ address_of places.now name }
    requires own { AllKnow (found_in names.now) places.now }
    requires stand { AreAfterCode 0 0 places.now }
    requires words { totals.words ≡ words_in places.now }
    requires filled { totals.filled ≡ filled_in places.now }
    requires zeroed { totals.zeroed ≡ zeroed_in places.now }
    ensures ok { IfOk result (λ image. linked_at places.now (Some entry) ≡ Ok (program_of image)) }
    ensures refused { IfErr result (λ fault. fault ≢ faults.NoMemory
        → linked_at places.now (Some entry) ≡ Err fault) }
{
    let fields = LevelFields {
        code_base: CODE_BASE,
        entry,
        stack: STACK_BYTES,
        level: 1,
    };
    let segment = Segment {
        base: DATA_BASE,
        filled: u64::from(totals.filled),
        zeroed: u64::from(totals.zeroed),
    };
    if let Some(field) = fields.bad_field(u64::from(totals.words), &[segment]) {
        return Err(LinkFault::ImageField(field));
    }
    let output = join_modules(alloc, names, places, totals)?;
    Ok(image_with(&fields, segment, output))
}

/// The image that modules link to, 64 modules at most. Its entry is the address of a name. Memory taken
/// is that of the image and of a table of the names that the modules define, of 16 bytes for each symbol, with
/// 32 bytes for each module and 8 for each symbol of the module being joined, unless it defines all of them.
///
/// # Errors
///
/// The first refusal in the order of [`LinkFault`], with the least numbers. `NoMemory` may come in place
/// of any answer.
#[tactic(auto, unfolding(crate::specs::Linked::linked))]
pub fn link<'m>(
    alloc: Global,
    modules: &'m [Module<'m>],
    entry: &'m [u8],
) -> Result<Image, LinkFault>
    requires { length modules.now ≤ 64 }
    ensures ok { IfOk result (λ image. linked modules.now entry.now ≡ Ok (program_of image)) }
    ensures refused { IfErr result (λ fault. fault ≢ faults.NoMemory
        → linked modules.now entry.now ≡ Err fault) }
{
    let places = places(alloc, modules)?;
    let starts = starts_of(alloc, &places)?;
    let names = Names::of(alloc, &places, &starts)?;
    if let Some(fault) = first_undefined(&names, &places) {
        return Err(fault);
    }
    let totals = Totals::of(&places);
    match entry_of(&names, &places, totals.words, entry) {
        Some(entry) => link_with_entry(alloc, &names, &places, totals, entry),
        None => Err(LinkFault::Entry),
    }
}
