//! The scan back from the report of a late trap to the instruction that made it.

ghost use Rattle.std.specs.Prelude.{◌≡◌, ◌+◌, ◌*◌, ◌<◌, ◌≤◌, ◌^◌, ℕ, IfSome, IfNone, length};
ghost use Rattle.alpha_trap.specs.RawCode.{raw_code};
ghost use Rattle.alpha_trap.specs.Scan.{fits, greatest_below, place_or_end, scan};
ghost use Rattle.alpha_trap.specs.Finds.{Finds};

use crate::trap_code::{RawCode, TrapCode};
use crate::trigger::trigger_of;
use alpha_image::Image;
use alpha_table::{InsnKind, kind};
use alpha_words::RegSet;

/// The place of the instruction that made a trap, by the PC and the registers of its report: the greatest place below
/// the trap PC that has `/V`, so that every register of the mask is the destination of it or of a `/V` word between,
/// and no barrier and no turn stands from it on (Architecture Handbook, arithmetic trap completion). `None` where there
/// is none, for no registers, and for a trap PC that is neither the address of a code word nor the address behind the
/// last one.
pub fn scan_back(image: &Image, trap_pc: u64, mask: RegSet) -> Option<u32>
    ensures value { result ≡ scan image.now trap_pc mask }
    ensures found { IfSome result (λ place. Finds image.now trap_pc mask place) }
    ensures none { IfNone result ((place : ℕ) → ¬ Finds image.now trap_pc mask place) }
    ensures bound { IfSome result (λ place. place < length image.now.words) }
{
    // The count tells the proof that each place is a u32.
    let _count = image.words();
    match scan_code(image, trap_pc, mask) {
        Some(place) => Some(place as u32),
        None => None,
    }
}

/// The place of the instruction that made a trap, as [`scan_back`] finds it, in words without an image: `base` is the
/// address of the first one, in bytes, a multiple of 4 as `trap_pc` is. The instruction lies below `trap_pc`. A word
/// that is no instruction neither traps nor turns. There may be any number of words.
pub fn scan_words(words: &[u32], base: u64, trap_pc: u64, mask: RegSet) -> Option<usize>
    ensures value { result ≡ scan (raw_code words.now base) trap_pc mask }
    ensures found { IfSome result (λ place. Finds (raw_code words.now base) trap_pc mask place) }
    ensures none { IfNone result ((place : ℕ) → ¬ Finds (raw_code words.now base) trap_pc mask place) }
    ensures bound { IfSome result (λ place. place < length words.now) }
    ensures before { IfSome result (λ place. base + 4 * place + 4 ≤ trap_pc) }
{
    scan_code(&RawCode { words, base }, trap_pc, mask)
}

// The scan of any code.
pub(crate) fn scan_code<C: TrapCode>(code: &C, trap_pc: u64, mask: RegSet) -> Option<usize>
    ensures value { result ≡ scan (C.parts code.now) trap_pc mask }
    ensures found { IfSome result (λ place. Finds (C.parts code.now) trap_pc mask place) }
    ensures none { IfNone result ((place : ℕ) → ¬ Finds (C.parts code.now) trap_pc mask place) }
    ensures bound { IfSome result (λ place. place < length (C.parts code.now).words) }
    ensures before { IfSome result (λ place. (C.parts code.now).code_base + 4 * place + 4 ≤ trap_pc) }
{
    if mask.bits() == 0 {
        return None;
    }
    let end = place_or_end(code, trap_pc)?;
    place_before(code, end, mask)
}

// The place of the word at an address, or one past the last place for the address behind it.
#[tactic(auto, unfolding(alpha_image::specs::Parts::place_of))]
fn place_or_end<C: TrapCode>(code: &C, pc: u64) -> Option<usize>
    ensures value { result ≡ place_or_end (C.parts code.now) pc }
    ensures bound { IfSome result (λ place. place ≤ length (C.parts code.now).words) }
    ensures before { IfSome result (λ place. (C.parts code.now).code_base + 4 * place ≤ pc) }
{
    let base = code.base();
    let count = code.word_count();
    if pc < base {
        return None;
    }
    let offset = pc - base;
    let place = (offset / 4) as usize;
    if offset % 4 == 0 && place == count {
        return Some(place);
    }
    if pc % 4 == 0 && place < count {
        return Some(place);
    }
    None
}

// The greatest place below an end that fits the mask, which isn't empty. A register leaves the mask as
// soon as its trigger was met.
fn place_before<C: TrapCode>(code: &C, end: usize, mask: RegSet) -> Option<usize>
    requires end { end ≤ length (C.parts code.now).words }
    requires mask { mask < 2 ^ 31 }
    ensures value { result ≡ greatest_below (λ at. fits (C.parts code.now).words mask at end) end }
    ensures bound { IfSome result (λ place. place < end) }
{
    let mut left = mask;
    for place in (0..end).rev() {
        let Some(insn) = code.insn_if_any(place) else {
            continue;
        };
        if let InsnKind::Barrier | InsnKind::Turn = kind(&insn) {
            return None;
        }
        if let Some(trigger) = trigger_of(&insn) {
            left = left.without(trigger.rc);
            if RegSet::empty().covers(left) {
                return Some(place);
            }
        }
    }
    None
}
