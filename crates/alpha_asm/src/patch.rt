ghost use Rattle.std.specs.Prelude.{◌≡◌, ◌≤◌, ◌^◌, pos, IfSome};
ghost use Rattle.alpha_asm.specs.Program.{words_over, halved, high_half, low_half, reached, displaced, quadword_of};
ghost use Rattle.alpha_asm.specs.Patches.{IsField, IsNear};
ghost use Rattle.alpha_table.specs.Row.{IsSigned};
ghost use Rattle.alpha_asm.specs.declared.patch.Displacement.TheVariants.{Words, Bytes};

use crate::statement::RelocField;
use alpha_table::{Form, Insn};
use alpha_text::Expr;

/// The displacement of an instruction.
#[derive(Clone, Copy, Debug, PartialEq, Eq)]
pub enum Displacement {
    /// In words, of a branch: 21 bits with the sign.
    Words(i32),
    /// In bytes, or in units of 65,536 bytes.
    Bytes(i16),
}

/// What an address is put into.
#[derive(Clone, Copy, Debug, PartialEq, Eq)]
pub enum RelocationKind {
    /// The displacement of an instruction, which uses it so.
    Insn(RelocField),
    /// A quadword, eight data bytes.
    Quad,
}

/// What an address that a statement names is for.
#[derive(Clone, Copy, Debug, PartialEq, Eq)]
pub enum Target {
    /// It is put into the code or the data.
    Put(RelocationKind),
    /// It is the entry.
    Entry,
}

/// An address that a statement names, to be put in when all labels are known.
#[derive(Clone, Copy, Debug)]
pub struct Patch<'a> {
    /// The label, and what is added to its address.
    pub to: Expr<'a>,
    /// Behind how many instructions, or behind how many data bytes, what needs it stands.
    pub at: usize,
    /// The line, numbered from 1.
    pub line: u32,
    /// What the address is for.
    pub target: Target,
}

// The displacement in words of a branch over a distance in bytes.
fn words_over(distance: i128) -> Option<Displacement>
    ensures value { result ≡ words_over distance }
    ensures field { IfSome result IsField }
{
    if distance < 0 {
        let back = distance.unsigned_abs();
        if back % 4 == 0 && back <= 1 << 22 {
            return Some(Displacement::Words(-((back / 4) as i32)));
        }
    } else {
        let ahead = distance.unsigned_abs();
        if ahead % 4 == 0 && ahead < 1 << 22 {
            return Some(Displacement::Words((ahead / 4) as i32));
        }
    }
    None
}

// An address that has halves: from 0 to 2^30.
fn within_halves(address: i128) -> Option<u32>
    ensures value { result ≡ halved address }
    ensures bound { IfSome result (λ n. n ≤ 2 ^ 30) }
{
    if address < 0 || address > 1 << 30 {
        return None;
    }
    Some(address as u32)
}

fn high_half(address: u32) -> i16
    requires { address ≤ 2 ^ 30 }
    ensures { result ≡ pos (high_half address) }
{
    ((address + 32_768) / 65_536) as i16
}

fn low_half(address: u32) -> i16
    requires { address ≤ 2 ^ 30 }
    ensures { result ≡ low_half address }
{
    let high = i32::from(high_half(address));
    (address as i32 - 65_536 * high) as i16
}

impl RelocField {
    /// The displacement by which an instruction at `pc` reaches an address, `None` exactly where it
    /// doesn't.
    pub(crate) fn displacement(self, pc: u128, address: i128) -> Option<Displacement>
        requires pc { pc ≤ 2 ^ 70 }
        requires in_range { IsNear address }
        ensures value { result ≡ reached self pc address }
        ensures field { IfSome result IsField }
    {
        match self {
            RelocField::Branch => words_over(address - (pc as i128 + 4)),
            RelocField::High => Some(Displacement::Bytes(high_half(within_halves(address)?))),
            RelocField::Low => Some(Displacement::Bytes(low_half(within_halves(address)?))),
        }
    }
}

// A branch with another displacement.
fn with_words(insn: &Insn, disp: i32) -> Insn
    requires { IsSigned 20 disp }
    ensures { result ≡ displaced insn.now (Words disp) }
{
    match insn.form() {
        Form::Branch { op, ra, .. } => Insn::branch(op, ra, disp),
        _ => *insn,
    }
}

// A memory instruction with another displacement.
fn with_bytes(insn: &Insn, disp: i16) -> Insn
    ensures { result ≡ displaced insn.now (Bytes disp) }
{
    match insn.form() {
        Form::Mem { op, ra, rb, .. } => Insn::memory(op, ra, rb, disp),
        _ => *insn,
    }
}

/// An instruction with another displacement, where it has one of that kind.
pub(crate) fn with_displacement(insn: &Insn, displacement: Displacement) -> Insn
    requires { IsField displacement }
    ensures { result ≡ displaced insn.now displacement }
{
    match displacement {
        Displacement::Words(disp) => with_words(insn, disp),
        Displacement::Bytes(disp) => with_bytes(insn, disp),
    }
}

/// The quadword of an address, `None` exactly where it has none.
pub(crate) fn quadword_of(address: i128) -> Option<u64>
    ensures { result ≡ quadword_of address }
{
    if address < 0 || address > 0xffff_ffff_ffff_ffff {
        return None;
    }
    Some(address as u64)
}
