//! The canonical lines of instructions, put into the room behind a block's bytes.

ghost use Rattle.std.specs.Prelude.{◌≡◌, ◌+◌, ◌≤◌, ◌++◌, length};
ghost use Rattle.alpha_table.specs.Names.{name_of};
ghost use Rattle.alpha_table.specs.Row.{IsInsn, IsSigned};
ghost use Rattle.alpha_text.specs.Canon.{spell, spelled, signed_words, distance_words, source_word, first_words};
ghost use Rattle.alpha_text.specs.Canon.{base_words, source_words, canon};
ghost use Rattle.alpha_text.specs.Canon as words;
ghost use Rattle.alpha_dis.specs.declared.block.TheConstants.{BLOCK_ROOM};
ghost use Rattle.alpha_dis.specs.Listing.{ended};
ghost use Rattle.alpha_dis.specs.Written.{before};

use crate::block::BLOCK_ROOM;
use crate::pieces::{put, put_name, put_number, put_small};
use alpha_table::{Form, Insn, Mnemonic, OperandRule, Src};
use alpha_words::Reg;

// Puts a register.
#[inline(always)]
fn put_reg(bytes: &mut [u8; BLOCK_ROOM], at: usize, r: Reg) -> usize
    requires { at + 3 ≤ BLOCK_ROOM }
    ensures value { before result bytes.new ≡ before at bytes.old ++ spelled (words.reg r) }
    ensures place { result ≤ at + 3 }
{
    let next = put(bytes, at, b"$");
    put_small(bytes, next, u32::from(r.number()))
}

// Puts the words of a displacement in bytes.
#[inline(always)]
fn put_signed(bytes: &mut [u8; BLOCK_ROOM], at: usize, n: i16) -> usize
    requires { at + 9 ≤ BLOCK_ROOM }
    ensures value { before result bytes.new ≡ before at bytes.old ++ spell (signed_words n) }
    ensures place { result ≤ at + 9 }
{
    if n < 0 {
        let next = put(bytes, at, b"-");
        put_number(bytes, next, u32::from(n.unsigned_abs()))
    } else {
        put_number(bytes, at, u32::from(n.unsigned_abs()))
    }
}

// Puts the words of a distance of a branch with this displacement in words.
#[inline(always)]
fn put_distance(bytes: &mut [u8; BLOCK_ROOM], at: usize, disp: i32) -> usize
    requires room { at + 10 ≤ BLOCK_ROOM }
    requires field { IsSigned 20 disp }
    ensures value { before result bytes.new ≡ before at bytes.old ++ spell (distance_words disp) }
    ensures place { result ≤ at + 10 }
{
    let distance = 4 + 4 * disp;
    let sign = if distance < 0 { b'-' } else { b'+' };
    let next = put(bytes, at, &[b'.', sign]);
    put_number(bytes, next, distance.unsigned_abs())
}

// Puts the words of a base register.
#[inline(always)]
fn put_base(bytes: &mut [u8; BLOCK_ROOM], at: usize, rb: Reg) -> usize
    requires { at + 5 ≤ BLOCK_ROOM }
    ensures value { before result bytes.new ≡ before at bytes.old ++ spell (base_words rb) }
    ensures place { result ≤ at + 5 }
{
    let next = put(bytes, at, b"(");
    let next = put_reg(bytes, next, rb);
    put(bytes, next, b")")
}

// Puts the words of a register and a comma.
#[inline(always)]
fn put_first(bytes: &mut [u8; BLOCK_ROOM], at: usize, ra: Reg) -> usize
    requires { at + 4 ≤ BLOCK_ROOM }
    ensures value { before result bytes.new ≡ before at bytes.old ++ spell (first_words ra) }
    ensures place { result ≤ at + 4 }
{
    let next = put_reg(bytes, at, ra);
    put(bytes, next, b",")
}

// Puts the word of a second source.
#[inline(always)]
fn put_source(bytes: &mut [u8; BLOCK_ROOM], at: usize, src: &Src) -> usize
    requires { at + 8 ≤ BLOCK_ROOM }
    ensures value { before result bytes.new ≡ before at bytes.old ++ spelled (source_word src.now) }
    ensures place { result ≤ at + 8 }
{
    match *src {
        Src::Reg(r) => put_reg(bytes, at, r),
        Src::Lit(n) => put_number(bytes, at, u32::from(n)),
    }
}

// Puts what an operate instruction has before its destination.
#[inline(always)]
fn put_sources(
    bytes: &mut [u8; BLOCK_ROOM],
    at: usize,
    rule: OperandRule,
    ra: Reg,
    src: &Src,
) -> usize
    requires { at + 13 ≤ BLOCK_ROOM }
    ensures value { before result bytes.new
        ≡ before at bytes.old ++ spell (source_words rule ra src.now) }
    ensures place { result ≤ at + 13 }
{
    match rule {
        OperandRule::Any => {
            let next = put_first(bytes, at, ra);
            let next = put_source(bytes, next, src);
            put(bytes, next, b",")
        }
        OperandRule::Unary | OperandRule::UnaryRegister => {
            let next = put_source(bytes, at, src);
            put(bytes, next, b",")
        }
        OperandRule::Version => at,
    }
}

// Puts the name of an instruction.
#[inline(always)]
fn put_mnemonic(bytes: &mut [u8; BLOCK_ROOM], at: usize, m: Mnemonic) -> usize
    requires { at + 13 ≤ BLOCK_ROOM }
    ensures value { before result bytes.new ≡ before at bytes.old ++ name_of m }
    ensures place { result ≤ at + 13 }
{
    put_name(bytes, at, m.name())
}

// Puts the canonical line of an instruction.
#[inline(always)]
#[tactic(auto, unfolding(alpha_text::specs::Canon::canon))]
fn put_form(bytes: &mut [u8; BLOCK_ROOM], at: usize, form: &Form) -> usize
    requires room { at + 55 ≤ BLOCK_ROOM }
    requires insn { IsInsn form.now }
    ensures value { before result bytes.new ≡ before at bytes.old ++ canon form.now }
    ensures place { result ≤ at + 55 }
{
    match *form {
        Form::Mem { op, ra, rb, disp } => {
            let next = put_mnemonic(bytes, at, Mnemonic::Mem(op));
            let next = put(bytes, next, b" ");
            let next = put_first(bytes, next, ra);
            let next = put_signed(bytes, next, disp);
            put_base(bytes, next, rb)
        }
        Form::Branch { op, ra, disp } => {
            let next = put_mnemonic(bytes, at, Mnemonic::Branch(op));
            let next = put(bytes, next, b" ");
            let next = put_first(bytes, next, ra);
            put_distance(bytes, next, disp)
        }
        Form::Jump { kind, ra, rb, hint } => {
            let next = put_mnemonic(bytes, at, Mnemonic::Jump(kind));
            let next = put(bytes, next, b" ");
            let next = put_first(bytes, next, ra);
            let next = put_base(bytes, next, rb);
            let next = put(bytes, next, b",");
            put_number(bytes, next, u32::from(hint))
        }
        Form::Operate { op, ra, src, rc } => {
            let next = put_mnemonic(bytes, at, Mnemonic::Operate(op));
            let next = put(bytes, next, b" ");
            let next = put_sources(bytes, next, op.row().operands, ra, &src);
            put_reg(bytes, next, rc)
        }
        Form::Fetch { modify, rb } => {
            let next = put_mnemonic(bytes, at, Mnemonic::Fetch { modify });
            let next = put(bytes, next, b" ");
            let next = put_small(bytes, next, 0);
            put_base(bytes, next, rb)
        }
        Form::Misc(op) => put_mnemonic(bytes, at, Mnemonic::Misc(op)),
        Form::Pal(call) => put_mnemonic(bytes, at, Mnemonic::Pal(call)),
    }
}

/// Puts the canonical line of an instruction and its line feed.
#[inline(always)]
pub(crate) fn put_code(bytes: &mut [u8; BLOCK_ROOM], at: usize, i: &Insn) -> usize
    requires { at + 60 ≤ BLOCK_ROOM }
    ensures value { before result bytes.new ≡ before at bytes.old ++ ended (canon i.now) }
    ensures place { result ≤ at + 60 }
    ensures room { length bytes.new ≡ BLOCK_ROOM }
{
    let form = i.form();
    let next = put_form(bytes, at, &form);
    put(bytes, next, b"\n")
}
