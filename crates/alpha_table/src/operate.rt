ghost use Rattle.std.specs.Prelude.{◌≡◌, ◌<◌};
ghost use Rattle.alpha_table.specs.Op.{op_row, op_name, trap_of};

use crate::{Mnemonic, Op, OpRole, OpRow, OperandRule, TrapOp};
use alpha_words::Level;

/// The rows of the operate instructions, in the order of their names: name, opcode, function, role,
/// operands and level.
macro_rules! operate_rows {
    ($then:ident $($given:expr),*) => {
        $then! {
            ($($given),*)
            Addl "addl" 0x10 0x00 Plain Any One,
            AddlV "addl/v" 0x10 0x40 Trap(AddlV) Any One,
            Addq "addq" 0x10 0x20 Plain Any One,
            AddqV "addq/v" 0x10 0x60 Trap(AddqV) Any One,
            Amask "amask" 0x11 0x61 Plain Unary One,
            And "and" 0x11 0x00 Plain Any One,
            Bic "bic" 0x11 0x08 Plain Any One,
            Bis "bis" 0x11 0x20 Plain Any One,
            Cmoveq "cmoveq" 0x11 0x24 Move Any One,
            Cmovge "cmovge" 0x11 0x46 Move Any One,
            Cmovgt "cmovgt" 0x11 0x66 Move Any One,
            Cmovlbc "cmovlbc" 0x11 0x16 Move Any One,
            Cmovlbs "cmovlbs" 0x11 0x14 Move Any One,
            Cmovle "cmovle" 0x11 0x64 Move Any One,
            Cmovlt "cmovlt" 0x11 0x44 Move Any One,
            Cmovne "cmovne" 0x11 0x26 Move Any One,
            Cmpbge "cmpbge" 0x10 0x0f Plain Any One,
            Cmpeq "cmpeq" 0x10 0x2d Plain Any One,
            Cmple "cmple" 0x10 0x6d Plain Any One,
            Cmplt "cmplt" 0x10 0x4d Plain Any One,
            Cmpule "cmpule" 0x10 0x3d Plain Any One,
            Cmpult "cmpult" 0x10 0x1d Plain Any One,
            Ctlz "ctlz" 0x1c 0x32 Plain UnaryRegister Two,
            Ctpop "ctpop" 0x1c 0x30 Plain UnaryRegister Two,
            Cttz "cttz" 0x1c 0x33 Plain UnaryRegister Two,
            Eqv "eqv" 0x11 0x48 Plain Any One,
            Extbl "extbl" 0x12 0x06 Plain Any One,
            Extlh "extlh" 0x12 0x6a Plain Any One,
            Extll "extll" 0x12 0x26 Plain Any One,
            Extqh "extqh" 0x12 0x7a Plain Any One,
            Extql "extql" 0x12 0x36 Plain Any One,
            Extwh "extwh" 0x12 0x5a Plain Any One,
            Extwl "extwl" 0x12 0x16 Plain Any One,
            Implver "implver" 0x11 0x6c Plain Version One,
            Insbl "insbl" 0x12 0x0b Plain Any One,
            Inslh "inslh" 0x12 0x67 Plain Any One,
            Insll "insll" 0x12 0x2b Plain Any One,
            Insqh "insqh" 0x12 0x77 Plain Any One,
            Insql "insql" 0x12 0x3b Plain Any One,
            Inswh "inswh" 0x12 0x57 Plain Any One,
            Inswl "inswl" 0x12 0x1b Plain Any One,
            Mskbl "mskbl" 0x12 0x02 Plain Any One,
            Msklh "msklh" 0x12 0x62 Plain Any One,
            Mskll "mskll" 0x12 0x22 Plain Any One,
            Mskqh "mskqh" 0x12 0x72 Plain Any One,
            Mskql "mskql" 0x12 0x32 Plain Any One,
            Mskwh "mskwh" 0x12 0x52 Plain Any One,
            Mskwl "mskwl" 0x12 0x12 Plain Any One,
            Mull "mull" 0x13 0x00 Plain Any One,
            MullV "mull/v" 0x13 0x40 Trap(MullV) Any One,
            Mulq "mulq" 0x13 0x20 Plain Any One,
            MulqV "mulq/v" 0x13 0x60 Trap(MulqV) Any One,
            Ornot "ornot" 0x11 0x28 Plain Any One,
            S4addl "s4addl" 0x10 0x02 Plain Any One,
            S4addq "s4addq" 0x10 0x22 Plain Any One,
            S4subl "s4subl" 0x10 0x0b Plain Any One,
            S4subq "s4subq" 0x10 0x2b Plain Any One,
            S8addl "s8addl" 0x10 0x12 Plain Any One,
            S8addq "s8addq" 0x10 0x32 Plain Any One,
            S8subl "s8subl" 0x10 0x1b Plain Any One,
            S8subq "s8subq" 0x10 0x3b Plain Any One,
            Sextb "sextb" 0x1c 0x00 Plain Unary One,
            Sextw "sextw" 0x1c 0x01 Plain Unary One,
            Sll "sll" 0x12 0x39 Plain Any One,
            Sra "sra" 0x12 0x3c Plain Any One,
            Srl "srl" 0x12 0x34 Plain Any One,
            Subl "subl" 0x10 0x09 Plain Any One,
            SublV "subl/v" 0x10 0x49 Trap(SublV) Any One,
            Subq "subq" 0x10 0x29 Plain Any One,
            SubqV "subq/v" 0x10 0x69 Trap(SubqV) Any One,
            Umulh "umulh" 0x13 0x30 Plain Any One,
            Xor "xor" 0x11 0x40 Plain Any One,
            Zap "zap" 0x12 0x30 Plain Any One,
            Zapnot "zapnot" 0x12 0x31 Plain Any One,
        }
    };
}

macro_rules! row_of {
    (($op:expr) $($row:ident $name:literal $opcode:literal $function:literal $role:ident
        $(($trap:ident))? $operands:ident $level:ident,)*) => {
        match $op {
            $(Op::$row => OpRow {
                opcode: $opcode,
                function: $function,
                role: OpRole::$role $((TrapOp::$trap))?,
                operands: OperandRule::$operands,
                level: Level::$level,
            },)*
        }
    };
}

macro_rules! trap_in {
    (Trap $trap:ident) => {
        Some(TrapOp::$trap)
    };
    ($role:ident) => {
        None
    };
}

macro_rules! trap_of {
    (($op:expr) $($row:ident $name:literal $opcode:literal $function:literal $role:ident
        $(($trap:ident))? $operands:ident $level:ident,)*) => {
        match $op {
            $(Op::$row => trap_in!($role $($trap)?),)*
        }
    };
}

macro_rules! operands_of {
    (($op:expr) $($row:ident $name:literal $opcode:literal $function:literal $role:ident
        $(($trap:ident))? $operands:ident $level:ident,)*) => {
        match $op {
            $(Op::$row => OperandRule::$operands,)*
        }
    };
}

macro_rules! name_of {
    (($op:expr) $($row:ident $name:literal $opcode:literal $function:literal $role:ident
        $(($trap:ident))? $operands:ident $level:ident,)*) => {
        match $op {
            $(Op::$row => $name,)*
        }
    };
}

macro_rules! mnemonics {
    (() $($row:ident $name:literal $opcode:literal $function:literal $role:ident
        $(($trap:ident))? $operands:ident $level:ident,)*) => {
        [$(Mnemonic::Operate(Op::$row),)*]
    };
}

/// The operate instructions, in the order of their names.
pub(crate) static OPERATES: [Mnemonic; 74] = operate_rows!(mnemonics);

impl Op {
    /// The columns of its row.
    #[inline(always)]
    pub fn row(self) -> OpRow
        ensures value { result ≡ op_row self }
        ensures opcode { result.opcode < 64 }
        ensures function { result.function < 128 }
    {
        self.columns()
    }

    // The columns, as the rows have them. That its numbers lie within their fields is known of the definition, so that
    // it isn't proved here row by row.
    #[inline(always)]
    fn columns(self) -> OpRow
        ensures { result ≡ op_row self }
    {
        operate_rows!(row_of self)
    }

    /// Its name, as `addq/v`.
    pub(crate) fn name(self) -> &'static str
        ensures { result.now ≡ op_name self }
    {
        operate_rows!(name_of self)
    }

    /// Which operands it takes.
    #[inline(always)]
    pub(crate) fn operands(self) -> OperandRule
        ensures { result ≡ (op_row self).operands }
    {
        operate_rows!(operands_of self)
    }

    /// The operation that traps, for a row with `/V`.
    #[inline(always)]
    pub fn trap(self) -> Option<TrapOp>
        ensures { result ≡ trap_of self }
    {
        operate_rows!(trap_of self)
    }
}
