ghost use Rattle.std.specs.Prelude.{◌≡◌, find};
ghost use Rattle.std.specs.Str.{bytes_eq};
ghost use Rattle.alpha_text.specs.Heads.{pseudo_op_name, pseudo_op_shape, pseudo_op_at, shape_of, head_of};

use alpha_operands::Shape;
use alpha_table::{BranchOp, JumpKind, Mnemonic, OperandRule};

/// A pseudo-operation, a directive, or `call_pal`: a name that isn't in the instruction table.
#[derive(Clone, Copy, Debug, PartialEq, Eq)]
pub enum PseudoOp {
    /// `.byte`.
    Byte,
    /// `.word`.
    Word,
    /// `.long`.
    Long,
    /// `.quad`.
    Quad,
    /// `.ascii`.
    Ascii,
    /// `.zero`.
    Zero,
    /// `.align`.
    Align,
    /// `.code`.
    Code,
    /// `.data`.
    Data,
    /// `.segment`.
    Segment,
    /// `.codebase`.
    CodeBase,
    /// `.database`.
    DataBase,
    /// `.stack`.
    Stack,
    /// `.entry`.
    Entry,
    /// `.level`.
    Level,
    /// `mov`.
    Mov,
    /// `clr`.
    Clr,
    /// `nop`.
    Nop,
    /// `unop`.
    Unop,
    /// `not`.
    Not,
    /// `negl`.
    Negl,
    /// `negq`.
    Negq,
    /// `negl/v`.
    NeglV,
    /// `negq/v`.
    NegqV,
    /// `sextl`.
    Sextl,
    /// `call_pal`.
    CallPal,
}

/// The rows: each with its name and the shape of its operands.
macro_rules! pseudo_op_rows {
    ($then:ident $($given:expr),*) => {
        $then! {
            ($($given),*)
            Byte b".byte" Bytes,
            Word b".word" Words,
            Long b".long" Longs,
            Quad b".quad" Quads,
            Ascii b".ascii" Text,
            Zero b".zero" Zeroed,
            Align b".align" Align,
            Code b".code" Alone,
            Data b".data" Alone,
            Segment b".segment" Field,
            CodeBase b".codebase" Field,
            DataBase b".database" Field,
            Stack b".stack" Field,
            Entry b".entry" Entry,
            Level b".level" Level,
            Mov b"mov" Move,
            Clr b"clr" Single,
            Nop b"nop" Alone,
            Unop b"unop" Alone,
            Not b"not" Pair,
            Negl b"negl" Pair,
            Negq b"negq" Pair,
            NeglV b"negl/v" Pair,
            NegqV b"negq/v" Pair,
            Sextl b"sextl" Pair,
            CallPal b"call_pal" CallPal,
        }
    };
}

macro_rules! every {
    (() $($own:ident $name:literal $shape:ident,)*) => {
        [$(PseudoOp::$own,)*]
    };
}

macro_rules! name {
    (($given:expr) $($own:ident $name:literal $shape:ident,)*) => {
        match $given {
            $(PseudoOp::$own => $name,)*
        }
    };
}

macro_rules! shape {
    (($given:expr) $($own:ident $name:literal $shape:ident,)*) => {
        match $given {
            $(PseudoOp::$own => Shape::$shape,)*
        }
    };
}

const EVERY: [PseudoOp; 26] = pseudo_op_rows!(every);

impl PseudoOp {
    /// Its name.
    pub fn name(self) -> &'static [u8]
        ensures { result.now ≡ pseudo_op_name self }
    {
        pseudo_op_rows!(name self)
    }

    /// The shape of its operands.
    fn shape(self) -> Shape
        ensures { result ≡ pseudo_op_shape self }
    {
        pseudo_op_rows!(shape self)
    }

    /// The one of this name.
    fn of(name: &[u8]) -> Option<PseudoOp>
        ensures { result ≡ pseudo_op_at name.now }
    {
        find_pseudo_op(&EVERY, name)
    }
}

// The one of this name among some.
fn find_pseudo_op(pseudo_ops: &[PseudoOp], name: &[u8]) -> Option<PseudoOp>
    ensures { result ≡ find (λ o. bytes_eq (pseudo_op_name o) name.now) pseudo_ops.now }
{
    for pseudo_op in pseudo_ops {
        if pseudo_op.name() == name {
            return Some(*pseudo_op);
        }
    }
    None
}

/// What the name of a statement stands for.
#[derive(Clone, Copy, Debug, PartialEq, Eq)]
pub enum Head {
    /// A row of the instruction table.
    Insn(Mnemonic),
    /// A name beside the table.
    PseudoOp(PseudoOp),
}

impl Head {
    /// What a name stands for, `None` exactly where it is in no table.
    pub(crate) fn of(name: &[u8]) -> Option<Head>
        ensures { result ≡ head_of name.now }
    {
        match Mnemonic::of(name) {
            Some(found) => Some(Head::Insn(found)),
            None => match PseudoOp::of(name) {
                Some(pseudo_op) => Some(Head::PseudoOp(pseudo_op)),
                None => None,
            },
        }
    }

    /// The shape of its operands.
    pub(crate) fn shape(self) -> Shape
        ensures { result ≡ shape_of self }
    {
        match self {
            Head::Insn(Mnemonic::Mem(_)) => Shape::Memory,
            Head::Insn(Mnemonic::Branch(BranchOp::Br | BranchOp::Bsr)) => Shape::Call,
            Head::Insn(Mnemonic::Branch(_)) => Shape::Branch,
            Head::Insn(Mnemonic::Jump(JumpKind::Ret)) => Shape::Return,
            Head::Insn(Mnemonic::Jump(_)) => Shape::Jump,
            Head::Insn(Mnemonic::Operate(op)) => match op.row().operands {
                OperandRule::Any => Shape::Operate,
                OperandRule::Unary => Shape::Unary,
                OperandRule::UnaryRegister => Shape::Pair,
                OperandRule::Version => Shape::Single,
            },
            Head::Insn(Mnemonic::Fetch { .. }) => Shape::Prefetch,
            Head::Insn(Mnemonic::Misc(_) | Mnemonic::Pal(_)) => Shape::Alone,
            Head::PseudoOp(pseudo_op) => pseudo_op.shape(),
        }
    }
}
