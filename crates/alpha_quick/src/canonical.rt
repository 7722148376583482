//! The instruction that a row's name gives with the words behind it, read by places. What isn't written as the listing
//! writes it is `None` here, but for comments, blanks at the end, and a space behind a comma.
ghost use Rattle.std.specs.Prelude.{◌≡◌, ◌≤◌, ◌∷◌, ℕ, List, IfSome};
ghost use Rattle.alpha_table.specs.Op.{op_row};
ghost use Rattle.alpha_table.specs.declared.names.Mnemonic.TheVariants as mnemonics;
ghost use Rattle.alpha_table.specs.declared.op.OperandRule.TheVariants as rules;
ghost use Rattle.alpha_text.specs.Statements.{code};
ghost use Rattle.alpha_text.specs.SuffixWords.{Says};
ghost use Rattle.alpha_quick.specs.InsnPrefix.{PrefixSays};
ghost use Rattle.alpha_quick.specs.TerminatedLine.{IsTerminated, rest_from};
ghost use Rattle.alpha_quick.specs.Words.{HasFirst, HasSource, HasBinary, HasNumber, HasSigned, HasTail};
ghost use Rattle.alpha_quick.specs.Words.{HasWords, HasDistance};

use crate::forms::{InsnPrefix, branch_without_link, of_rare_row};
use crate::groups::Sources;
use crate::terminated_line::TerminatedLine;
use alpha_operands::{Number, Piece, Sign, number_at};
use alpha_table::{BranchOp, Insn, MemOp, Mnemonic, Op, OperandRule, Src};
use alpha_words::Reg;

impl<'a> TerminatedLine<'a> {
    // The literal at a place, where a comma stands behind it, and the place behind the comma.
    #[inline(always)]
    fn literal(&self, i: usize) -> Option<(Src, usize)>
        requires ended { IsTerminated self.now }
        requires within { i ≤ self.now.end }
        ensures within { IfSome result (λ r. r.1 ≤ self.now.end) }
        ensures line { IfSome result (λ r. HasSource (rest_from self.now i) r.0 (rest_from self.now r.1)) }
    {
        let (n, j) = self.number_before(i, b',')?;
        let Some(Number::Literal(v)) = number_at(Piece::Literal, Sign::Plus, u64::from(n)) else {
            return None;
        };
        Some((Src::Lit(v), self.after_comma(j)))
    }

    // The second source at a place, where a comma stands behind it, and the place behind the comma.
    #[inline(always)]
    fn source(&self, i: usize) -> Option<(Src, usize)>
        requires ended { IsTerminated self.now }
        requires within { i ≤ self.now.end }
        ensures within { IfSome result (λ r. r.1 ≤ self.now.end) }
        ensures line { IfSome result (λ r. HasSource (rest_from self.now i) r.0 (rest_from self.now r.1)) }
    {
        match self.first_register(i) {
            Some((r, j)) => Some((Src::Reg(r), j)),
            None => self.literal(i),
        }
    }

    // Two sources and the destination at a place, where the line ends behind them.
    #[inline(always)]
    fn binary_operands(&self, i: usize) -> Option<Sources>
        requires ended { IsTerminated self.now }
        requires within { i ≤ self.now.end }
        ensures { IfSome result (λ r. HasBinary (rest_from self.now i) r.ra r.src r.rc) }
    {
        let (ra, j) = self.first_register(i)?;
        let Some((src, k)) = self.source(j) else {
            return None;
        };
        let rc = self.last_register(k)?;
        Some(Sources { ra, src, rc })
    }

    // An operate instruction of two sources.
    #[inline(always)]
    fn operate(&self, op: Op, i: usize) -> Option<Insn>
        requires ended { IsTerminated self.now }
        requires within { i ≤ self.now.end }
        requires rule { (op_row op).operands ≡ rules.Any }
        ensures { IfSome result (λ insn. Says (mnemonics.Operate op) (rest_from self.now i) (code insn)) }
    {
        let operands = self.binary_operands(i)?;
        let (ra, src, rc) = (operands.ra, operands.src, operands.rc);
        Some(Insn::operate(op, ra, src, rc))
    }

    // The sign of the number at a place, and the place behind it.
    #[inline(always)]
    fn sign(&self, i: usize) -> (Sign, usize)
        requires ended { IsTerminated self.now }
        requires within { i ≤ self.now.end }
        ensures within { result.1 ≤ self.now.end }
        ensures line { (n : ℕ) (rest : List ℕ) → HasNumber (rest_from self.now result.1) n rest
            → HasSigned (rest_from self.now i) result.0 n rest }
    {
        if self.is_byte_at(i, b'-') {
            (Sign::Minus, i + 1)
        } else {
            (Sign::Plus, i)
        }
    }

    // The base behind a parenthesis, where the line ends behind it.
    #[inline(always)]
    fn base(&self, i: usize) -> Option<Reg>
        requires ended { IsTerminated self.now }
        requires within { i ≤ self.now.end }
        ensures { IfSome result (λ r. HasTail (40 ∷ rest_from self.now i) r) }
    {
        let (r, j) = self.register_before(i, b')')?;
        if self.is_line_end(j) { Some(r) } else { None }
    }

    // A memory instruction with a number and a base, behind its register and a comma.
    #[inline(always)]
    fn access(&self, op: MemOp, ra: Reg, i: usize) -> Option<Insn>
        requires ended { IsTerminated self.now }
        requires within { i ≤ self.now.end }
        ensures { IfSome result (λ insn. (line : List ℕ) → HasFirst line ra (rest_from self.now i)
            → Says (mnemonics.Mem op) line (code insn)) }
    {
        let (sign, k) = self.sign(i);
        let (n, l) = self.number_before(k, b'(')?;
        let Some(Number::Displacement(disp)) = number_at(Piece::Displacement, sign, u64::from(n))
        else {
            return None;
        };
        let rb = self.base(l)?;
        Some(Insn::memory(op, ra, rb, disp))
    }

    // A memory instruction behind its register and a comma, or the front of one that is to reach a label.
    #[inline(always)]
    fn access_prefix(&self, op: MemOp, ra: Reg, i: usize) -> Option<InsnPrefix<'a>>
        requires ended { IsTerminated self.now }
        requires within { i ≤ self.now.end }
        ensures { IfSome result (λ l. (line : List ℕ) → HasFirst line ra (rest_from self.now i)
            → PrefixSays (Says (mnemonics.Mem op) line) l) }
    {
        if self.is_byte_at(i, b'%') {
            Some(InsnPrefix::toward_label(Insn::memory(op, ra, Reg::ZERO, 0), self.rest_from(i)))
        } else {
            let insn = self.access(op, ra, i)?;
            Some(InsnPrefix::without_label(insn, self.bytes))
        }
    }

    // A memory instruction.
    #[inline(always)]
    fn memory(&self, op: MemOp, i: usize) -> Option<InsnPrefix<'a>>
        requires ended { IsTerminated self.now }
        requires within { i ≤ self.now.end }
        ensures { IfSome result (PrefixSays (Says (mnemonics.Mem op) (rest_from self.now i))) }
    {
        let Some((ra, j)) = self.first_register(i) else {
            return None;
        };
        self.access_prefix(op, ra, j)
    }

    // The displacement in words of a distance with this sign, where the line ends behind it.
    #[inline(always)]
    fn displacement(&self, sign: Sign, i: usize) -> Option<i32>
        requires ended { IsTerminated self.now }
        requires within { i ≤ self.now.end }
        ensures { IfSome result (λ words. HasWords sign (rest_from self.now i) words) }
    {
        let n = self.number_last(i)?;
        let Some(Number::Words(words)) = number_at(Piece::Distance, sign, u64::from(n)) else {
            return None;
        };
        Some(words)
    }

    // The displacement in words of a branch over a distance behind its dot, where the line ends behind it.
    #[inline(always)]
    fn distance_after_dot(&self, i: usize) -> Option<i32>
        requires ended { IsTerminated self.now }
        requires within { i ≤ self.now.end }
        ensures { IfSome result (λ words. HasDistance (46 ∷ rest_from self.now i) words) }
    {
        if self.is_byte_at(i, b'+') {
            self.displacement(Sign::Plus, i + 1)
        } else if self.is_byte_at(i, b'-') {
            self.displacement(Sign::Minus, i + 1)
        } else {
            None
        }
    }

    // A branch over a distance, behind its register, a comma and the dot.
    #[inline(always)]
    fn branch_over(&self, op: BranchOp, ra: Reg, i: usize) -> Option<Insn>
        requires ended { IsTerminated self.now }
        requires within { i ≤ self.now.end }
        ensures { IfSome result (λ insn. (line : List ℕ) → HasFirst line ra (46 ∷ rest_from self.now i)
            → Says (mnemonics.Branch op) line (code insn)) }
    {
        let disp = self.distance_after_dot(i)?;
        Some(Insn::branch(op, ra, disp))
    }

    // A branch behind its register and a comma, or the front of one that is to reach a label.
    #[inline(always)]
    fn branch_with_link(&self, op: BranchOp, ra: Reg, i: usize) -> Option<InsnPrefix<'a>>
        requires ended { IsTerminated self.now }
        requires within { i ≤ self.now.end }
        ensures { IfSome result (λ l. (line : List ℕ) → HasFirst line ra (rest_from self.now i)
            → PrefixSays (Says (mnemonics.Branch op) line) l) }
    {
        if self.is_byte_at(i, b'.') {
            let insn = self.branch_over(op, ra, i + 1)?;
            Some(InsnPrefix::without_label(insn, self.bytes))
        } else {
            Some(InsnPrefix::toward_label(Insn::branch(op, ra, 0), self.rest_from(i)))
        }
    }

    // A branch.
    #[inline(always)]
    fn branch(&self, op: BranchOp, i: usize) -> Option<InsnPrefix<'a>>
        requires ended { IsTerminated self.now }
        requires within { i ≤ self.now.end }
        ensures { IfSome result (PrefixSays (Says (mnemonics.Branch op) (rest_from self.now i))) }
    {
        if self.is_byte_at(i, b'$') {
            let Some((ra, j)) = self.first_register(i) else {
                return None;
            };
            self.branch_with_link(op, ra, j)
        } else {
            branch_without_link(op, self.rest_from(i))
        }
    }

    /// The instruction that a row's name gives with the words at a place, or the front of one that is to reach a label.
    #[inline(always)]
    pub(crate) fn of_row(&self, row: Mnemonic, i: usize) -> Option<InsnPrefix<'a>>
        requires ended { IsTerminated self.now }
        requires within { i ≤ self.now.end }
        ensures { IfSome result (PrefixSays (Says row (rest_from self.now i))) }
    {
        match row {
            Mnemonic::Mem(op) => self.memory(op, i),
            Mnemonic::Branch(op) => self.branch(op, i),
            Mnemonic::Operate(op) if op.row().operands == OperandRule::Any => {
                let insn = self.operate(op, i)?;
                Some(InsnPrefix::without_label(insn, self.bytes))
            }
            _ => {
                let insn = of_rare_row(row, self.rest_from(i))?;
                Some(InsnPrefix::without_label(insn, self.bytes))
            }
        }
    }
}
