ghost use Rattle.std.specs.Prelude.{◌≡◌, IfSome, IsTrue};
ghost use Rattle.alpha_table.specs.Names.{name_of};
ghost use Rattle.alpha_text.specs.Heads.{pseudo_op_name};
ghost use Rattle.alpha_quick.specs.Keys.{are_named, is_named, IsKeyed};

use crate::key::NameKey;
use alpha_table::Mnemonic::{self, Branch, Fetch, Jump, Mem, Misc, Operate, Pal};
use alpha_table::{BranchOp, JumpKind, MemOp, MiscOp, Op};
use alpha_text::PseudoOp;
use alpha_words::PalCall;

// A row of the instruction table with the key of its name.
#[derive(Clone, Copy)]
struct KeyedRow {
    key: NameKey,
    row: Mnemonic,
}

// The byte of a name with so many behind it, 0 where the name has none there.
macro_rules! byte_before {
    ($name:literal $behind:literal) => {
        if $name.len() > $behind {
            $name[$name.len() - 1 - $behind] as u64
        } else {
            0
        }
    };
}

// The key of a name. It is a constant, so nothing is left of this for when the program runs.
macro_rules! key_of {
    ($name:literal) => {
        NameKey(
            byte_before!($name 0)
                | byte_before!($name 1) << 8
                | byte_before!($name 2) << 16
                | byte_before!($name 3) << 24
                | byte_before!($name 4) << 32
                | byte_before!($name 5) << 40
                | byte_before!($name 6) << 48
                | byte_before!($name 7) << 56,
        )
    };
}

macro_rules! keyed_rows {
    ($($name:literal $row:expr,)*) => {
        [$(KeyedRow { key: key_of!($name), row: $row },)*]
    };
}

// The rows of the instruction table whose names have eight bytes at most, in the order of their names.
static ROWS: [KeyedRow; 116] = keyed_rows! {
    b"addl" Operate(Op::Addl),
    b"addl/v" Operate(Op::AddlV),
    b"addq" Operate(Op::Addq),
    b"addq/v" Operate(Op::AddqV),
    b"amask" Operate(Op::Amask),
    b"and" Operate(Op::And),
    b"beq" Branch(BranchOp::Beq),
    b"bge" Branch(BranchOp::Bge),
    b"bgt" Branch(BranchOp::Bgt),
    b"bic" Operate(Op::Bic),
    b"bis" Operate(Op::Bis),
    b"blbc" Branch(BranchOp::Blbc),
    b"blbs" Branch(BranchOp::Blbs),
    b"ble" Branch(BranchOp::Ble),
    b"blt" Branch(BranchOp::Blt),
    b"bne" Branch(BranchOp::Bne),
    b"bpt" Pal(PalCall::Bpt),
    b"br" Branch(BranchOp::Br),
    b"bsr" Branch(BranchOp::Bsr),
    b"bugchk" Pal(PalCall::Bugchk),
    b"callsys" Pal(PalCall::Callsys),
    b"cmoveq" Operate(Op::Cmoveq),
    b"cmovge" Operate(Op::Cmovge),
    b"cmovgt" Operate(Op::Cmovgt),
    b"cmovlbc" Operate(Op::Cmovlbc),
    b"cmovlbs" Operate(Op::Cmovlbs),
    b"cmovle" Operate(Op::Cmovle),
    b"cmovlt" Operate(Op::Cmovlt),
    b"cmovne" Operate(Op::Cmovne),
    b"cmpbge" Operate(Op::Cmpbge),
    b"cmpeq" Operate(Op::Cmpeq),
    b"cmple" Operate(Op::Cmple),
    b"cmplt" Operate(Op::Cmplt),
    b"cmpule" Operate(Op::Cmpule),
    b"cmpult" Operate(Op::Cmpult),
    b"ctlz" Operate(Op::Ctlz),
    b"ctpop" Operate(Op::Ctpop),
    b"cttz" Operate(Op::Cttz),
    b"eqv" Operate(Op::Eqv),
    b"excb" Misc(MiscOp::Excb),
    b"extbl" Operate(Op::Extbl),
    b"extlh" Operate(Op::Extlh),
    b"extll" Operate(Op::Extll),
    b"extqh" Operate(Op::Extqh),
    b"extql" Operate(Op::Extql),
    b"extwh" Operate(Op::Extwh),
    b"extwl" Operate(Op::Extwl),
    b"fetch" Fetch { modify: false },
    b"fetch_m" Fetch { modify: true },
    b"gentrap" Pal(PalCall::Gentrap),
    b"imb" Pal(PalCall::Imb),
    b"implver" Operate(Op::Implver),
    b"insbl" Operate(Op::Insbl),
    b"inslh" Operate(Op::Inslh),
    b"insll" Operate(Op::Insll),
    b"insqh" Operate(Op::Insqh),
    b"insql" Operate(Op::Insql),
    b"inswh" Operate(Op::Inswh),
    b"inswl" Operate(Op::Inswl),
    b"jmp" Jump(JumpKind::Jmp),
    b"jsr" Jump(JumpKind::Jsr),
    b"lda" Mem(MemOp::Lda),
    b"ldah" Mem(MemOp::Ldah),
    b"ldbu" Mem(MemOp::Ldbu),
    b"ldl" Mem(MemOp::Ldl),
    b"ldl_l" Mem(MemOp::LdlL),
    b"ldq" Mem(MemOp::Ldq),
    b"ldq_l" Mem(MemOp::LdqL),
    b"ldq_u" Mem(MemOp::LdqU),
    b"ldwu" Mem(MemOp::Ldwu),
    b"mb" Misc(MiscOp::Mb),
    b"mskbl" Operate(Op::Mskbl),
    b"msklh" Operate(Op::Msklh),
    b"mskll" Operate(Op::Mskll),
    b"mskqh" Operate(Op::Mskqh),
    b"mskql" Operate(Op::Mskql),
    b"mskwh" Operate(Op::Mskwh),
    b"mskwl" Operate(Op::Mskwl),
    b"mull" Operate(Op::Mull),
    b"mull/v" Operate(Op::MullV),
    b"mulq" Operate(Op::Mulq),
    b"mulq/v" Operate(Op::MulqV),
    b"ornot" Operate(Op::Ornot),
    b"rdunique" Pal(PalCall::Rdunique),
    b"ret" Jump(JumpKind::Ret),
    b"s4addl" Operate(Op::S4addl),
    b"s4addq" Operate(Op::S4addq),
    b"s4subl" Operate(Op::S4subl),
    b"s4subq" Operate(Op::S4subq),
    b"s8addl" Operate(Op::S8addl),
    b"s8addq" Operate(Op::S8addq),
    b"s8subl" Operate(Op::S8subl),
    b"s8subq" Operate(Op::S8subq),
    b"sextb" Operate(Op::Sextb),
    b"sextw" Operate(Op::Sextw),
    b"sll" Operate(Op::Sll),
    b"sra" Operate(Op::Sra),
    b"srl" Operate(Op::Srl),
    b"stb" Mem(MemOp::Stb),
    b"stl" Mem(MemOp::Stl),
    b"stl_c" Mem(MemOp::StlC),
    b"stq" Mem(MemOp::Stq),
    b"stq_c" Mem(MemOp::StqC),
    b"stq_u" Mem(MemOp::StqU),
    b"stw" Mem(MemOp::Stw),
    b"subl" Operate(Op::Subl),
    b"subl/v" Operate(Op::SublV),
    b"subq" Operate(Op::Subq),
    b"subq/v" Operate(Op::SubqV),
    b"trapb" Misc(MiscOp::Trapb),
    b"umulh" Operate(Op::Umulh),
    b"wmb" Misc(MiscOp::Wmb),
    b"wrunique" Pal(PalCall::Wrunique),
    b"xor" Operate(Op::Xor),
    b"zap" Operate(Op::Zap),
    b"zapnot" Operate(Op::Zapnot),
};

// The names beside the table.
static PSEUDO_OPS: [PseudoOp; 26] = [
    PseudoOp::Byte,
    PseudoOp::Word,
    PseudoOp::Long,
    PseudoOp::Quad,
    PseudoOp::Ascii,
    PseudoOp::Zero,
    PseudoOp::Align,
    PseudoOp::Code,
    PseudoOp::Data,
    PseudoOp::Segment,
    PseudoOp::CodeBase,
    PseudoOp::DataBase,
    PseudoOp::Stack,
    PseudoOp::Entry,
    PseudoOp::Level,
    PseudoOp::Mov,
    PseudoOp::Clr,
    PseudoOp::Nop,
    PseudoOp::Unop,
    PseudoOp::Not,
    PseudoOp::Negl,
    PseudoOp::Negq,
    PseudoOp::NeglV,
    PseudoOp::NegqV,
    PseudoOp::Sextl,
    PseudoOp::CallPal,
];

// A name's key is multiplied by this number, and the upper ten bits of the product are the name's slot. No two
// names have one slot. The script slots.py beside src/ finds this number and PLACES, and says where they
// don't fit the names.
const MULTIPLIER: u64 = 6851595108746746257;

// The place of the name with each slot, in ROWS and behind all of these in OWNS, 255 where there is
// none.
static PLACES: [u8; 1024] = [
    255, 255, 255, 255, 255, 255, 255, 50, 255, 255, 255, 140, 255, 255, 255, 255, 255, 255, 255,
    119, 255, 255, 255, 255, 255, 255, 255, 255, 255, 255, 255, 103, 255, 255, 114, 49, 255, 255,
    255, 255, 255, 255, 255, 255, 255, 255, 255, 255, 255, 62, 255, 255, 255, 255, 255, 255, 255,
    255, 255, 255, 255, 255, 255, 255, 255, 255, 255, 255, 255, 255, 255, 106, 255, 255, 255, 255,
    255, 255, 255, 255, 255, 255, 255, 66, 255, 255, 255, 255, 26, 255, 255, 255, 255, 255, 255,
    255, 255, 255, 94, 255, 255, 255, 255, 255, 255, 255, 255, 255, 255, 255, 255, 255, 255, 255,
    255, 255, 255, 255, 255, 255, 255, 255, 255, 255, 255, 255, 255, 255, 255, 255, 255, 255, 255,
    47, 65, 44, 255, 255, 255, 255, 255, 61, 255, 255, 255, 255, 255, 255, 255, 255, 255, 255, 255,
    255, 255, 255, 3, 255, 255, 133, 45, 255, 98, 255, 255, 255, 255, 255, 19, 255, 255, 255, 255,
    255, 18, 255, 255, 255, 36, 255, 255, 255, 255, 255, 255, 255, 255, 255, 255, 255, 255, 255,
    255, 255, 255, 255, 255, 255, 95, 255, 255, 255, 255, 255, 255, 255, 255, 255, 255, 255, 255,
    255, 255, 255, 255, 255, 255, 255, 255, 255, 255, 60, 255, 255, 255, 255, 41, 255, 255, 64,
    255, 255, 139, 255, 255, 255, 255, 255, 23, 255, 255, 255, 255, 255, 255, 255, 255, 255, 255,
    255, 255, 255, 255, 255, 255, 255, 255, 255, 68, 255, 32, 255, 28, 255, 255, 255, 255, 255, 92,
    255, 255, 255, 255, 255, 255, 255, 255, 255, 255, 255, 255, 255, 255, 116, 255, 255, 255, 255,
    255, 255, 255, 255, 255, 58, 255, 255, 255, 55, 255, 255, 255, 255, 255, 93, 255, 255, 255,
    255, 255, 255, 255, 255, 255, 255, 255, 255, 255, 255, 255, 255, 255, 255, 255, 255, 255, 255,
    14, 255, 255, 255, 7, 255, 255, 255, 255, 125, 255, 255, 255, 132, 255, 255, 255, 255, 255,
    255, 255, 255, 255, 255, 255, 255, 255, 102, 255, 255, 255, 255, 255, 54, 34, 255, 255, 255,
    255, 255, 255, 255, 255, 88, 255, 255, 255, 255, 255, 255, 255, 255, 255, 255, 255, 255, 255,
    1, 255, 255, 255, 255, 255, 255, 255, 255, 255, 255, 255, 255, 255, 255, 37, 255, 255, 77, 255,
    255, 255, 255, 74, 255, 255, 255, 255, 255, 255, 255, 91, 255, 255, 255, 255, 255, 120, 255,
    255, 255, 255, 255, 255, 255, 255, 255, 255, 255, 255, 255, 255, 255, 255, 81, 255, 255, 255,
    255, 255, 255, 255, 255, 255, 255, 255, 255, 255, 255, 255, 255, 255, 255, 255, 255, 255, 138,
    255, 255, 255, 255, 118, 255, 113, 255, 73, 255, 255, 255, 255, 255, 255, 255, 255, 255, 255,
    255, 255, 255, 255, 255, 107, 255, 255, 255, 255, 255, 255, 255, 255, 122, 255, 90, 255, 255,
    255, 255, 255, 255, 255, 255, 255, 255, 255, 255, 255, 255, 255, 255, 255, 52, 255, 255, 87,
    255, 255, 255, 255, 255, 121, 255, 255, 255, 255, 255, 255, 255, 255, 255, 255, 255, 255, 255,
    255, 255, 255, 255, 255, 255, 255, 255, 255, 255, 255, 255, 255, 255, 255, 255, 255, 255, 255,
    255, 48, 255, 30, 255, 255, 255, 255, 255, 255, 255, 255, 255, 124, 255, 137, 255, 255, 255,
    255, 255, 255, 255, 255, 255, 100, 255, 255, 255, 255, 255, 255, 255, 255, 255, 255, 255, 255,
    255, 255, 255, 255, 86, 255, 255, 255, 111, 255, 255, 255, 255, 255, 255, 255, 255, 255, 255,
    255, 255, 255, 255, 255, 255, 255, 255, 255, 255, 71, 255, 6, 255, 255, 255, 255, 255, 129,
    105, 96, 255, 255, 255, 255, 80, 255, 255, 255, 89, 255, 131, 110, 117, 255, 255, 255, 255,
    255, 128, 255, 255, 255, 255, 135, 46, 255, 255, 255, 43, 255, 255, 79, 255, 115, 112, 109,
    255, 255, 25, 255, 27, 16, 255, 255, 22, 70, 255, 255, 255, 255, 255, 255, 255, 17, 255, 255,
    255, 255, 255, 255, 255, 255, 255, 255, 255, 255, 31, 255, 255, 141, 255, 255, 255, 255, 255,
    10, 255, 255, 255, 2, 255, 255, 255, 136, 255, 255, 255, 97, 255, 255, 255, 42, 35, 255, 255,
    255, 24, 255, 255, 255, 255, 255, 255, 130, 255, 4, 255, 126, 255, 255, 85, 255, 255, 255, 255,
    101, 255, 255, 255, 255, 255, 255, 255, 255, 255, 255, 255, 255, 255, 255, 255, 69, 13, 255, 9,
    255, 255, 255, 38, 255, 255, 255, 255, 255, 255, 255, 255, 255, 255, 12, 78, 255, 255, 255,
    255, 255, 255, 255, 255, 255, 255, 56, 255, 255, 255, 255, 33, 255, 255, 255, 255, 255, 255,
    255, 255, 255, 5, 255, 255, 255, 255, 255, 255, 255, 255, 255, 57, 255, 255, 255, 255, 255,
    255, 255, 255, 255, 123, 255, 255, 255, 84, 255, 255, 255, 134, 255, 255, 11, 255, 255, 255,
    255, 255, 255, 255, 255, 255, 255, 255, 255, 255, 255, 255, 255, 255, 0, 255, 255, 255, 255,
    255, 255, 255, 255, 255, 108, 255, 255, 255, 255, 255, 255, 255, 255, 40, 255, 255, 255, 255,
    255, 255, 255, 255, 53, 255, 255, 255, 255, 255, 255, 255, 99, 255, 255, 255, 255, 20, 255,
    255, 255, 75, 255, 255, 255, 255, 255, 255, 255, 255, 255, 255, 255, 8, 255, 255, 255, 255,
    255, 255, 255, 255, 255, 255, 255, 255, 76, 255, 255, 67, 255, 255, 255, 255, 255, 255, 255,
    15, 255, 51, 255, 83, 255, 255, 255, 255, 255, 255, 255, 255, 255, 255, 255, 255, 255, 255,
    255, 255, 255, 255, 255, 255, 255, 255, 255, 255, 255, 255, 255, 21, 127, 82, 255, 39, 255,
    255, 255, 255, 255, 255, 104, 255, 255, 63, 59, 255, 255, 255, 255, 255, 255, 255, 255, 72,
    255, 255, 255, 255, 255, 255, 255, 255, 255, 255, 255, 255, 255, 255, 255, 255, 255, 255, 255,
    255, 255, 255, 255, 255, 255, 255, 29, 255,
];

/// The place of the one name that can have this key.
#[inline(always)]
pub(crate) fn place_of(key: NameKey) -> Option<usize> {
    let slot = key.0.wrapping_mul(MULTIPLIER) >> 54;
    let place = *PLACES.get(slot as usize)?;
    Some(usize::from(place))
}

// The row at a place, where its name has this key.
#[inline(always)]
fn row_in(rows: &[KeyedRow], place: usize, key: NameKey) -> Option<Mnemonic>
    requires { IsTrue (are_named rows.now) }
    ensures { IfSome result (λ m. IsTrue (is_named (name_of m) key.0)) }
{
    let keyed = *rows.get(place)?;
    if keyed.key == key {
        Some(keyed.row)
    } else {
        None
    }
}

/// The row at a place, where its name has this key.
#[inline(always)]
pub(crate) fn row_at(place: usize, key: NameKey) -> Option<Mnemonic>
    ensures { IfSome result (λ m. IsTrue (is_named (name_of m) key.0)) }
{
    row_in(&ROWS, place, key)
}

/// The row of a name, by its key. `None` may also stand for a name that has one.
#[inline(always)]
pub(crate) fn row_named(name: &[u8], key: NameKey) -> Option<Mnemonic>
    requires { IsKeyed name.now key.0 }
    ensures { IfSome result (λ m. name_of m ≡ name.now) }
{
    let row = row_in(&ROWS, place_of(key)?, key)?;
    if name.len() <= 8 { Some(row) } else { None }
}

/// Which of the names beside the table this is. Some of them have more than eight bytes, so a key doesn't tell
/// them, and the name at the place of the key is compared byte by byte.
pub(crate) fn pseudo_op_named(name: &[u8], key: NameKey) -> Option<PseudoOp>
    ensures { IfSome result (λ own. pseudo_op_name own ≡ name.now) }
{
    pseudo_op_at(name, place_of(key)?)
}

/// The same by the place of the key.
pub(crate) fn pseudo_op_at(name: &[u8], place: usize) -> Option<PseudoOp>
    ensures { IfSome result (λ own. pseudo_op_name own ≡ name.now) }
{
    let pseudo_op = *PSEUDO_OPS.get(place.checked_sub(ROWS.len())?)?;
    if pseudo_op.name() == name {
        Some(pseudo_op)
    } else {
        None
    }
}
