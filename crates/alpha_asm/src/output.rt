ghost use Rattle.std.specs.Prelude.{◌≡◌, ◌++◌, ◌∷◌, [], length, map, OnOk};
ghost use Rattle.alpha_operands.specs.Values.{view};
ghost use Rattle.alpha_text.specs.Statements.{stmt_of};
ghost use Rattle.alpha_asm.specs.Statement.{cell_of, values_up_to, bytes_up_to};
ghost use Rattle.alpha_asm.specs.Statement.{number as cell, address};
ghost use Rattle.alpha_asm.specs.Program.{name, list_of, insn_name, entry_names};
ghost use Rattle.alpha_asm.specs.Patches.{fix, fix_of, target_of, offset_of, reference_of, coded_of, AddsCells};

use crate::data::Data;
use crate::fields::{Entry, entry_in};
use crate::patch::{Patch, RelocationKind, Target};
use crate::statement::InsnStmt;
use alpha_table::Insn;
use alpha_text::{Expr, ListValue, Statement, next_byte, next_value};
use std::alloc::{AllocError, Global};

/// What the statements so far have made.
#[derive(Drop)]
pub(crate) struct Output<'a> {
    /// The instructions. Those that are to reach an address have displacement 0.
    pub code: Vec<Insn>,
    /// The data bytes of all segments. Those of an address are 0.
    pub bytes: Data,
    /// The addresses to be put in, in the order of lines.
    pub patches: Vec<Patch<'a>>,
}

// Appends an address that a statement of a line names.
fn push_patch<'a>(
    patches: &mut Vec<Patch<'a>>,
    line: u32,
    to: Expr<'a>,
    target: Target,
    at: usize,
) -> Result<(), AllocError>
    ensures { OnOk result (map fix_of patches.new.items ≡ map fix_of patches.old.items
        ++ fix (offset_of at target) (name line (reference_of to.entry) (target_of at target)) ∷ []) }
{
    patches.push(Patch {
        to,
        at,
        line,
        target,
    })?;
    Ok(())
}

// Appends the address that an instruction behind so many others is to reach.
fn push_reach<'a>(
    patches: &mut Vec<Patch<'a>>,
    line: u32,
    place: usize,
    coded: &InsnStmt<'a>,
) -> Result<(), AllocError>
    ensures { OnOk result (map fix_of patches.new.items ≡ map fix_of patches.old.items
        ++ map (fix 0) (list_of (insn_name line place (coded_of coded.now)))) }
{
    match coded.reach {
        Some((by, to)) => push_patch(
            patches,
            line,
            to,
            Target::Put(RelocationKind::Insn(by)),
            place,
        ),
        None => Ok(()),
    }
}

/// Appends the address that is the entry.
pub(crate) fn push_entry<'a>(
    patches: &mut Vec<Patch<'a>>,
    line: u32,
    statement: &Statement<'a>,
) -> Result<(), AllocError>
    ensures { OnOk result (map fix_of patches.new.items ≡ map fix_of patches.old.items
        ++ map (fix 0) (entry_names line (stmt_of statement.now))) }
{
    match entry_in(statement) {
        Some(Entry::Of(to)) => push_patch(patches, line, to, Target::Entry, 0),
        Some(Entry::At(_)) | None => Ok(()),
    }
}

impl<'a> Output<'a> {
    /// The output of no statement.
    pub(crate) fn new(alloc: Global) -> Output<'a>
        ensures code { result.code.items ≡ [] }
        ensures bytes { result.bytes.items ≡ [] }
        ensures patches { map fix_of result.patches.items ≡ [] }
    {
        Output {
            code: Vec::new(alloc),
            bytes: Data::new(alloc),
            patches: Vec::new(alloc),
        }
    }

    /// Adds an instruction.
    pub(crate) fn push_insn_stmt(
        &mut self,
        line: u32,
        coded: &InsnStmt<'a>,
    ) -> Result<(), AllocError>
        ensures code { OnOk result (self.new.code.items
            ≡ self.old.code.items ++ coded.now.insn ∷ []) }
        ensures bytes { self.new.bytes ≡ self.old.bytes }
        ensures patches { OnOk result (map fix_of self.new.patches.items
            ≡ map fix_of self.old.patches.items
            ++ map (fix 0) (list_of (insn_name line (length self.old.code.items)
            (coded_of coded.now)))) }
    {
        push_reach(&mut self.patches, line, self.code.len(), coded)?;
        self.code.push(coded.insn)?;
        Ok(())
    }

    /// Adds the values of a list. There are no more of them than it has bytes.
    pub(crate) fn push_values(
        &mut self,
        line: u32,
        bytes: u8,
        list: &'a [u8],
    ) -> Result<(), AllocError>
        ensures { OnOk result (AddsCells line
            (map (cell_of bytes) (values_up_to (length list.entry.now) bytes list.entry.now))
            self.old self.new) }
    {
        let mut rest = list;
        for _ in 0..list.len() {
            match next_value(rest, bytes) {
                Some((value, more)) => {
                    self.push_value(line, bytes, &value)?;
                    rest = more;
                }
                None => return Ok(()),
            }
        }
        Ok(())
    }

    // Adds a value of a list.
    fn push_value(&mut self, line: u32, bytes: u8, value: &ListValue<'a>) -> Result<(), AllocError>
        ensures { OnOk result
            (AddsCells line (cell_of bytes (view value.now) ∷ []) self.old self.new) }
    {
        match *value {
            ListValue::Number(n) => self.bytes.push_number(bytes, n),
            ListValue::Label(to) => self.push_quad(line, to),
        }
    }

    // Adds the quadword of an address.
    fn push_quad(&mut self, line: u32, to: Expr<'a>) -> Result<(), AllocError>
        ensures { OnOk result
            (AddsCells line (address (reference_of to.entry) ∷ []) self.old self.new) }
    {
        let at = self.bytes.len();
        push_patch(
            &mut self.patches,
            line,
            to,
            Target::Put(RelocationKind::Quad),
            at,
        )?;
        self.bytes.push_number(8, 0)
    }

    // Adds a byte of a string.
    fn push_byte(&mut self, line: u32, byte: u8) -> Result<(), AllocError>
        ensures { OnOk result (AddsCells line (cell 1 byte ∷ []) self.old self.new) }
    {
        self.bytes.push(byte)?;
        Ok(())
    }

    /// Adds the bytes that the text of a string stands for. There are no more of them than it has
    /// bytes.
    pub(crate) fn push_text(&mut self, line: u32, text: &[u8]) -> Result<(), AllocError>
        ensures { OnOk result (AddsCells line
            (map (cell 1) (bytes_up_to (length text.now) text.now)) self.old self.new) }
    {
        let mut rest = text;
        for _ in 0..text.len() {
            match next_byte(rest) {
                Some((byte, more)) => {
                    self.push_byte(line, byte)?;
                    rest = more;
                }
                None => return Ok(()),
            }
        }
        Ok(())
    }
}
