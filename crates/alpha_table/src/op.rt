use alpha_words::Level;

/// An operate instruction (Architecture Handbook, sections 4.4 to 4.6, and 4.11 for AMASK and
/// IMPLVER). A row with `/V` ends in `V`.
#[derive(Clone, Copy, Debug, PartialEq, Eq)]
pub enum Op {
    /// Add longword.
    Addl,
    /// Scaled add longword by 4.
    S4addl,
    /// Subtract longword.
    Subl,
    /// Scaled subtract longword by 4.
    S4subl,
    /// Compare byte, greater or equal.
    Cmpbge,
    /// Scaled add longword by 8.
    S8addl,
    /// Scaled subtract longword by 8.
    S8subl,
    /// Compare unsigned quadword, less than.
    Cmpult,
    /// Add quadword.
    Addq,
    /// Scaled add quadword by 4.
    S4addq,
    /// Subtract quadword.
    Subq,
    /// Scaled subtract quadword by 4.
    S4subq,
    /// Compare signed quadword, equal.
    Cmpeq,
    /// Scaled add quadword by 8.
    S8addq,
    /// Scaled subtract quadword by 8.
    S8subq,
    /// Compare unsigned quadword, less than or equal.
    Cmpule,
    /// Add longword, and trap on overflow.
    AddlV,
    /// Subtract longword, and trap on overflow.
    SublV,
    /// Compare signed quadword, less than.
    Cmplt,
    /// Add quadword, and trap on overflow.
    AddqV,
    /// Subtract quadword, and trap on overflow.
    SubqV,
    /// Compare signed quadword, less than or equal.
    Cmple,
    /// Logical product.
    And,
    /// Bit clear.
    Bic,
    /// Move where the low bit of Ra is set.
    Cmovlbs,
    /// Move where the low bit of Ra is clear.
    Cmovlbc,
    /// Logical sum.
    Bis,
    /// Move where Ra is zero.
    Cmoveq,
    /// Move where Ra is not zero.
    Cmovne,
    /// Logical sum with complement.
    Ornot,
    /// Logical difference.
    Xor,
    /// Move where Ra is below zero.
    Cmovlt,
    /// Move where Ra is zero or above.
    Cmovge,
    /// Logical equivalence.
    Eqv,
    /// Architecture mask.
    Amask,
    /// Move where Ra is zero or below.
    Cmovle,
    /// Move where Ra is above zero.
    Cmovgt,
    /// Implementation version.
    Implver,
    /// Mask byte low.
    Mskbl,
    /// Extract byte low.
    Extbl,
    /// Insert byte low.
    Insbl,
    /// Mask word low.
    Mskwl,
    /// Extract word low.
    Extwl,
    /// Insert word low.
    Inswl,
    /// Mask longword low.
    Mskll,
    /// Extract longword low.
    Extll,
    /// Insert longword low.
    Insll,
    /// Zero bytes.
    Zap,
    /// Zero bytes not.
    Zapnot,
    /// Mask quadword low.
    Mskql,
    /// Shift right logical.
    Srl,
    /// Extract quadword low.
    Extql,
    /// Shift left logical.
    Sll,
    /// Insert quadword low.
    Insql,
    /// Shift right arithmetic.
    Sra,
    /// Mask word high.
    Mskwh,
    /// Insert word high.
    Inswh,
    /// Extract word high.
    Extwh,
    /// Mask longword high.
    Msklh,
    /// Insert longword high.
    Inslh,
    /// Extract longword high.
    Extlh,
    /// Mask quadword high.
    Mskqh,
    /// Insert quadword high.
    Insqh,
    /// Extract quadword high.
    Extqh,
    /// Multiply longword.
    Mull,
    /// Multiply quadword.
    Mulq,
    /// Unsigned multiply quadword high.
    Umulh,
    /// Multiply longword, and trap on overflow.
    MullV,
    /// Multiply quadword, and trap on overflow.
    MulqV,
    /// Sign extend byte.
    Sextb,
    /// Sign extend word.
    Sextw,
    /// Count population.
    Ctpop,
    /// Count leading zero.
    Ctlz,
    /// Count trailing zero.
    Cttz,
}

/// The operate instructions that trap on overflow (Architecture Handbook, section 4.4).
#[derive(Clone, Copy, Debug, PartialEq, Eq)]
pub enum TrapOp {
    /// Add longword.
    AddlV,
    /// Subtract longword.
    SublV,
    /// Add quadword.
    AddqV,
    /// Subtract quadword.
    SubqV,
    /// Multiply longword.
    MullV,
    /// Multiply quadword.
    MulqV,
}

/// What a conditional move or branch tests its register for (Architecture Handbook, sections 4.3
/// and 4.5). All but the first two compare the signed number with zero.
#[derive(Clone, Copy, Debug, PartialEq, Eq)]
pub enum Cond {
    /// The low bit is clear.
    Lbc,
    /// The low bit is set.
    Lbs,
    /// Equal to zero.
    Eq,
    /// Not equal to zero.
    Ne,
    /// Less than zero.
    Lt,
    /// Less than or equal to zero.
    Le,
    /// Greater than or equal to zero.
    Ge,
    /// Greater than zero.
    Gt,
}

/// How an operate instruction treats its destination.
#[derive(Clone, Copy, Debug, PartialEq, Eq)]
pub enum OpRole {
    /// It writes a result.
    Plain,
    /// It writes the destination or leaves it, and so uses it too.
    Move,
    /// It writes a result, and traps on overflow.
    Trap(TrapOp),
}

/// Which operands an operate instruction takes (Architecture Handbook, section 3.3.3, and what the
/// counts have in 4.4, SEXTB and SEXTW in 4.6, AMASK and IMPLVER in 4.11).
#[derive(Clone, Copy, Debug, PartialEq, Eq)]
pub enum OperandRule {
    /// Any first register, and a register or a literal.
    Any,
    /// R31 as first register, and a register or a literal.
    Unary,
    /// R31 as first register, and a register.
    UnaryRegister,
    /// R31 as first register, and the literal 1.
    Version,
}

/// The columns of an operate instruction.
#[derive(Clone, Copy, Debug, PartialEq, Eq)]
pub struct OpRow {
    /// Bits 31 to 26 of its words.
    pub opcode: u8,
    /// Bits 11 to 5 of its words.
    pub function: u8,
    /// How it treats its destination.
    pub role: OpRole,
    /// Which operands it takes.
    pub operands: OperandRule,
    /// The least level whose implementations have it.
    pub level: Level,
}
