ghost use Rattle.std.specs.Prelude.{◌≡◌, ◌≢◌, ◌+◌, ◌^◌, ◌<◌, ◌++◌, ◌∷◌, ℕ, true, false, List, [], Some, None, OnOk};
ghost use Rattle.std.specs.Prelude.{IfOk, IfErr, IfSome, length, take, ◌≤◌};
ghost use Rattle.alpha_operands.specs.Operands.{Gives};
ghost use Rattle.std.specs.Option.{option_map};
ghost use Rattle.alpha_text.specs.Statements.{stmt_of};
ghost use Rattle.alpha_text.specs.Bounds.{IsWithin};
ghost use Rattle.alpha_text.specs.Reading.{line_stmt_of, read};
ghost use Rattle.alpha_quick.specs.Parts.{unlabelled, nothing_said};
ghost use Rattle.alpha_quick.specs.Prescanned.{IsPrescanned};
ghost use Rattle.alpha_asm.specs.Statement.{cells, coded};
ghost use Rattle.alpha_asm.specs.LineKinds.{line_kind};
ghost use Rattle.alpha_asm.specs.Layout.{location, repeats_label};
ghost use Rattle.alpha_asm.specs.Assembled.{item_at, refused};
ghost use Rattle.alpha_asm.specs.Patches.{coded_of, AddsCells};
ghost use Rattle.alpha_asm.specs.Pass.{place_of, location_at, with_label, refused_here, IsBounded, AddsInsn};
ghost use Rattle.alpha_asm.specs.Pass.{AddsStatement};
ghost use Rattle.alpha_asm.specs.Pass.{AddsItem, PassSimulates};
ghost use Rattle.alpha_asm.specs.declared.kind.SourceKind.{SourceKind};
ghost use Rattle.alpha_asm.specs.declared.fault.AsmFault.TheVariants as faults;

use crate::AsmFault;
use crate::fields::FieldsRead;
use crate::kind::SourceKind;
use crate::label::Labels;
use crate::line_kind::LineKinds;
use crate::output::{Output, push_entry};
use crate::place::Place;
use crate::statement::{InsnStmt, insn_stmt_in, is_statement};
use alpha_quick::{Prescanned, read_canonical, read_line};
use alpha_table::Insn;
use alpha_text::{Item, LineFault, Statement};
use std::alloc::{AllocError, Global};

/// The most bytes of a line without its end.
pub(crate) const LONGEST_LINE: usize = 1024;

/// What is known of a source behind some of its lines.
#[derive(Drop)]
pub(crate) struct Pass<'a> {
    /// How many lines.
    pub line: u32,
    pub place: Place,
    pub output: Output<'a>,
    pub labels: Labels<'a>,
    pub fields: FieldsRead<'a>,
}

// The item of a line, which may have been read in part.
#[inline(always)]
fn item_of<'a>(line: &'a [u8], rest: Option<&Prescanned<'a>>) -> Result<Item<'a>, LineFault>
    requires read { IfSome rest (λ r. IsPrescanned line.now r.now) }
    requires size { length line.now ≤ 1024 }
    ensures { Gives line_stmt_of result (read line.now) }
{
    match rest {
        Some(prescanned) => prescanned.item(line),
        None => read_line(line),
    }
}

impl<'a> Pass<'a> {
    /// Before the first line.
    pub(crate) fn new(alloc: Global) -> Pass<'a>
        ensures stands { PassSimulates [] result }
        ensures bounded { IsBounded result }
        ensures line { result.line ≡ 0 }
    {
        Pass {
            line: 0,
            place: Place::start(alloc),
            output: Output::new(alloc),
            labels: Labels::empty(alloc),
            fields: FieldsRead::NONE,
        }
    }

    /// Goes over the next line of a source of this kind, and adds its kind to those that are gathered. The line stands
    /// at the front of bytes of its source.
    ///
    /// # Errors
    ///
    /// `LongLine`, `Line`, `Section` or `Duplicate`, the first in this order.
    pub(crate) fn take_line(
        &mut self,
        kind: SourceKind,
        line: &'a [u8],
        bytes: &'a [u8],
        kinds: &mut LineKinds,
    ) -> Result<(), AsmFault>
        requires bounded { IsBounded self.old }
        requires lines { self.old.line + 1 < 2 ^ 32 }
        requires front { line.now ≡ take (length line.now) bytes.now }
        ensures ok { OnOk result ((is : _) → PassSimulates is self.old
            → PassSimulates (is ++ item_at line.entry.now ∷ []) self.new) }
        ensures taken { OnOk result ((is : _) → PassSimulates is self.old
            → refused kind is line.entry.now ≡ None) }
        ensures refused { IfErr result (λ fault. fault ≢ faults.NoMemory →
            (is : _) → PassSimulates is self.old → refused kind is line.entry.now ≡ Some fault) }
        ensures bounded { OnOk result (IsBounded self.new) }
        ensures line { OnOk result (self.new.line ≡ self.old.line + 1) }
        ensures gathers { kinds.new.gathers ≡ kinds.old.gathers }
        ensures kinds { OnOk result (kinds.old.gathers ≡ true → kinds.new.items.items
            ≡ kinds.old.items.items ++ line_kind (item_at line.entry.now) ∷ []) }
    {
        if line.len() > LONGEST_LINE {
            return Err(AsmFault::LongLine(self.line + 1));
        }
        match read_canonical(line, bytes) {
            Ok(insn) => match self.take_code(&insn) {
                Ok(()) => Ok(kinds.push_insn(&insn)?),
                Err(fault) => Err(fault),
            },
            Err(rest) => {
                if rest.is_blank() {
                    self.take_blank();
                    Ok(kinds.push_blank()?)
                } else {
                    self.take_rest(kind, line, Some(&rest), kinds)
                }
            }
        }
    }

    // Goes over a line that says nothing.
    #[inline(always)]
    fn take_blank(&mut self)
        requires bounded { IsBounded self.old }
        requires lines { self.old.line + 1 < 2 ^ 32 }
        ensures ok { AddsItem nothing_said self.old self.new }
        ensures taken { (kind : SourceKind) → refused_here kind self.old nothing_said ≡ None }
        ensures bounded { IsBounded self.new }
    {
        self.line += 1;
    }

    // Goes over the next line where no instruction alone was read of it, as far as it was read. It is a call of its
    // own, so that what a line may say beside an instruction has a place on the stack for such lines only.
    #[inline(never)]
    pub(crate) fn take_rest(
        &mut self,
        kind: SourceKind,
        line: &'a [u8],
        rest: Option<&Prescanned<'a>>,
        kinds: &mut LineKinds,
    ) -> Result<(), AsmFault>
        requires bounded { IsBounded self.old }
        requires lines { self.old.line + 1 < 2 ^ 32 }
        requires read { IfSome rest (λ r. IsPrescanned line.now r.now) }
        requires size { length line.now ≤ 1024 }
        ensures ok { OnOk result ((is : _) → PassSimulates is self.old
            → PassSimulates (is ++ item_at line.entry.now ∷ []) self.new) }
        ensures taken { OnOk result ((is : _) → PassSimulates is self.old
            → refused kind is line.entry.now ≡ None) }
        ensures refused { IfErr result (λ fault. fault ≢ faults.NoMemory →
            (is : _) → PassSimulates is self.old → refused kind is line.entry.now ≡ Some fault) }
        ensures bounded { OnOk result (IsBounded self.new) }
        ensures line { OnOk result (self.new.line ≡ self.old.line + 1) }
        ensures gathers { kinds.new.gathers ≡ kinds.old.gathers }
        ensures kinds { OnOk result (kinds.old.gathers ≡ true → kinds.new.items.items
            ≡ kinds.old.items.items ++ line_kind (item_at line.entry.now) ∷ []) }
    {
        match item_of(line, rest) {
            Ok(item) => match self.take_item(kind, &item) {
                Ok(()) => Ok(kinds.push(&item)?),
                Err(fault) => Err(fault),
            },
            Err(fault) => Err(AsmFault::Line(self.line + 1, fault)),
        }
    }

    // Goes over the item of the next line.
    fn take_item(&mut self, kind: SourceKind, item: &Item<'a>) -> Result<(), AsmFault>
        requires bounded { IsBounded self.old }
        requires lines { self.old.line + 1 < 2 ^ 32 }
        requires within { IsWithin (stmt_of item.now.statement) }
        ensures ok { OnOk result (AddsItem (line_stmt_of item.now) self.old self.new) }
        ensures taken { OnOk result (refused_here kind self.old (line_stmt_of item.now) ≡ None) }
        ensures refused { IfErr result (λ fault. fault ≢ faults.NoMemory →
            refused_here kind self.old (line_stmt_of item.now) ≡ Some fault) }
        ensures bounded { OnOk result (IsBounded self.new) }
    {
        if kind.bars(&item.statement) || self.place.is_misplaced(&item.statement) {
            return Err(AsmFault::Section(self.line + 1));
        }
        if self.fields.repeats(&item.statement) {
            return Err(AsmFault::Duplicate(self.line + 1));
        }
        if self.define(item.label)? {
            return Err(AsmFault::Duplicate(self.line + 1));
        }
        self.add(item)?;
        Ok(())
    }

    // Goes over an instruction without a label.
    #[inline(always)]
    pub(crate) fn take_code(&mut self, insn: &Insn) -> Result<(), AsmFault>
        requires bounded { IsBounded self.old }
        requires lines { self.old.line + 1 < 2 ^ 32 }
        ensures ok { OnOk result (AddsItem (unlabelled insn.now) self.old self.new) }
        ensures taken { OnOk result
            ((kind : SourceKind) → refused_here kind self.old (unlabelled insn.now) ≡ None) }
        ensures refused { IfErr result (λ fault. fault ≢ faults.NoMemory →
            (kind : SourceKind) → refused_here kind self.old (unlabelled insn.now) ≡ Some fault) }
        ensures bounded { OnOk result (IsBounded self.new) }
    {
        if self.place.is_misplaced_insn(insn) {
            Err(AsmFault::Section(self.line + 1))
        } else {
            self.output.code.push(*insn)?;
            self.place.begun = true;
            self.line += 1;
            Ok(())
        }
    }

    // Defines a label here. Whether it was defined before.
    fn define(&mut self, label: Option<&'a [u8]>) -> Result<bool, AllocError>
        requires bounded { IsBounded self.old }
        requires lines { self.old.line + 1 < 2 ^ 32 }
        ensures value { IfOk result (λ again.
            again ≡ repeats_label (location_at self.old) (option_map (λ l. l.now) label.entry)) }
        ensures labels { IfOk result (λ again. again ≡ false → (name : List ℕ) →
            location_at self.new name
            ≡ with_label (location_at self.old) (option_map (λ l. l.now) label.entry)
            (location (place_of self.old)) name) }
        ensures same { self.new ≡ record self.old { labels = self.new.labels } }
    {
        match label {
            Some(name) => {
                let spot = self.place.location(self.output.code.len());
                self.labels.define(name, spot)
            }
            None => Ok(false),
        }
    }

    // Adds the statement of an item.
    fn add(&mut self, item: &Item<'a>) -> Result<(), AllocError>
        requires bounded { IsBounded self.old }
        requires lines { self.old.line + 1 < 2 ^ 32 }
        requires within { IsWithin (stmt_of item.now.statement) }
        ensures ok { OnOk result (AddsStatement (line_stmt_of item.now) self.old self.new) }
        ensures labels { self.new.labels ≡ self.old.labels }
        ensures bounded { OnOk result (IsBounded self.new) }
    {
        match insn_stmt_in(&item.statement) {
            Some(coded) => self.add_insn(&coded),
            None if is_statement(&item.statement) => self.add_other(item),
            None => {
                self.line += 1;
                Ok(())
            }
        }
    }

    // Adds an instruction, which changes little else.
    fn add_insn(&mut self, coded: &InsnStmt<'a>) -> Result<(), AllocError>
        requires lines { self.old.line + 1 < 2 ^ 32 }
        ensures ok { OnOk result (AddsInsn (coded_of coded.now) self.old self.new) }
        ensures labels { self.new.labels ≡ self.old.labels }
    {
        let line = self.line + 1;
        self.output.push_insn_stmt(line, coded)?;
        self.place.begun = true;
        self.line = line;
        Ok(())
    }

    // Adds a statement that has no instruction.
    fn add_other(&mut self, item: &Item<'a>) -> Result<(), AllocError>
        requires bounded { IsBounded self.old }
        requires lines { self.old.line + 1 < 2 ^ 32 }
        requires within { IsWithin (stmt_of item.now.statement) }
        requires plain { coded (stmt_of item.now.statement) ≡ None }
        ensures ok { OnOk result (AddsStatement (line_stmt_of item.now) self.old self.new) }
        ensures labels { self.new.labels ≡ self.old.labels }
        ensures bounded { OnOk result (IsBounded self.new) }
    {
        let line = self.line + 1;
        let statement = &item.statement;
        let filled = self.output.bytes.len();
        push_data(&mut self.output, line, statement)?;
        self.output
            .bytes
            .push_zeros(self.place.filled_pad(statement))?;
        push_entry(&mut self.output.patches, line, statement)?;
        let added = self.output.bytes.len() - filled;
        self.place.go_on(statement, added as u64)?;
        self.fields = self.fields.with(statement);
        self.line = line;
        Ok(())
    }
}

// Adds the values of data of a statement.
#[tactic(auto, unfolding(crate::specs::Statement::cells))]
fn push_data<'a>(
    output: &mut Output<'a>,
    line: u32,
    statement: &Statement<'a>,
) -> Result<(), AllocError>
    ensures { OnOk result (AddsCells line (cells (stmt_of statement.now)) output.old output.new) }
{
    match *statement {
        Statement::Values { bytes, list } => output.push_values(line, bytes, list),
        Statement::Text(text) => output.push_text(line, text),
        _ => Ok(()),
    }
}
