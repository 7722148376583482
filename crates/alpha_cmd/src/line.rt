//! The line of each status.

ghost use Rattle.std.specs.Prelude.{◌≡◌, ◌≤◌, length};
ghost use Rattle.alpha_io.specs.declared.line.TheConstants.{LINE_ROOM};
ghost use Rattle.alpha_cmd.specs.Commands.Replay.{run_line};
ghost use Rattle.alpha_cmd.specs.Status.{status_line, fault_line, fixing_line, journal_line, kind_line, kind_number};
ghost use Rattle.alpha_cmd.specs.Status.{limit_line, link_fault_line, lost_line, module_fault_line, module_line};
ghost use Rattle.alpha_cmd.specs.Status.{norun_line, numbered_line, placed_line, refusal_line, unfixable_line};

use crate::Status;
use alpha_asm::AsmFault;
use alpha_image::ImageFault;
use alpha_io::Line;
use alpha_link::{LinkFault, ModuleFault};
use alpha_replay::{JournalFault, ReplayFault, Replayed};
use alpha_seq::line_of_end;
use alpha_shadow::Broken;
use alpha_text::{LineFault, LineFaultKind};
use alpha_trap::Lost;
use alpha_verdict::place_address;

/// The line of a status. It is empty where there is no line, and where the line says more than the
/// status has: the value of an exit, or the addresses of a broken place.
pub(crate) fn line_of(status: &Status) -> Line
    ensures { result ≡ status_line status.now }
{
    match status {
        Status::Done(_) | Status::SinkFault => Line::new(),
        Status::NotRestartable(_) | Status::Unfixable(_) => Line::new(),
        Status::BadWords => text(b"words\n"),
        Status::BadSource(fault) => refusal_line(b"source", fault),
        Status::BadImage(fault) => fault_line(fault),
        Status::Stopped(end) => line_of_end(end),
        Status::StepsSpent => text(b"steps\n"),
        Status::Lost(lost) => lost_line(lost),
        Status::ShelfFault => text(b"shelf\n"),
        Status::InputFault => text(b"input\n"),
        Status::TooLarge(limit) => limit_line(*limit),
        Status::NoMemory => text(b"no memory\n"),
        Status::FixedLine(line) => fixing_line(*line),
        Status::Far(fault) => refusal_line(b"far", fault),
        Status::BadModule(file, fault) => module_fault_line(*file, fault),
        Status::BadLink(fault) => link_fault_line(fault),
        Status::BadJournal(fault) => journal_line(fault),
        Status::NotARun(fault) => norun_line(fault),
        Status::JournalFull => text(b"journal full\n"),
    }
}

/// A line of these bytes.
pub(crate) fn text(bytes: &[u8]) -> Line
    requires { length bytes.now ≤ LINE_ROOM }
    ensures { result ≡ bytes.now }
{
    let mut line = Line::new();
    line.push(bytes);
    line
}

// A word and `kind K line L column C detail D`, the numbers 0 where there is none.
fn refusal_line(word: &[u8], fault: &AsmFault) -> Line
    requires { length word.now ≤ 8 }
    ensures { result ≡ refusal_line word.now fault.now }
{
    match *fault {
        AsmFault::Line(line, LineFault { kind, column }) => {
            placed_line(
                word,
                1,
                u64::from(line),
                u64::from(column),
                kind_number(kind),
            )
        }
        AsmFault::Duplicate(line) => placed_line(word, 2, u64::from(line), 0, 0),
        AsmFault::Undefined(line) => placed_line(word, 3, u64::from(line), 0, 0),
        AsmFault::Reach(line) => placed_line(word, 4, u64::from(line), 0, 0),
        AsmFault::Section(line) => placed_line(word, 5, u64::from(line), 0, 0),
        AsmFault::NoEntry => placed_line(word, 6, 0, 0, 0),
        AsmFault::LongLine(line) => placed_line(word, 7, u64::from(line), 0, 0),
        AsmFault::ImageField(field) => placed_line(word, 8, 0, 0, u64::from(field)),
        AsmFault::NoMemory => placed_line(word, 9, 0, 0, 0),
    }
}

fn kind_number(kind: LineFaultKind) -> u64
    ensures { result ≡ kind_number kind }
{
    match kind {
        LineFaultKind::BadToken => 1,
        LineFaultKind::UnknownName => 2,
        LineFaultKind::BadOperands => 3,
        LineFaultKind::OutOfRange => 4,
    }
}

#[tactic(auto, unfolding(crate::specs::Status::placed_line))]
fn placed_line(word: &[u8], kind: u64, line: u64, column: u64, detail: u64) -> Line
    requires { length word.now ≤ 8 }
    ensures { result ≡ placed_line word.now kind line column detail }
{
    let mut text = Line::new();
    text.push(word);
    text.push(b" kind ");
    text.push_decimal(kind);
    text.push(b" line ");
    text.push_decimal(line);
    text.push(b" column ");
    text.push_decimal(column);
    text.push(b" detail ");
    text.push_decimal(detail);
    text.end();
    text
}

// `image kind K first F second S`, the numbers 0 where there is none.
fn fault_line(fault: &ImageFault) -> Line
    ensures { result ≡ fault_line fault.now }
{
    match *fault {
        ImageFault::Short(given) => numbered_line(b"image", 1, given, 0),
        ImageFault::Magic => numbered_line(b"image", 2, 0, 0),
        ImageFault::Field(field) => numbered_line(b"image", 3, u64::from(field), 0),
        ImageFault::Length(given, wanted) => numbered_line(b"image", 4, given, wanted),
        ImageFault::BadWord(place, word) => numbered_line(
            b"image",
            5,
            u64::from(place),
            u64::from(word),
        ),
        ImageFault::NoMemory => numbered_line(b"image", 6, 0, 0),
    }
}

#[tactic(auto, unfolding(crate::specs::Status::numbered_line))]
fn numbered_line(word: &[u8], kind: u64, first: u64, second: u64) -> Line
    requires { length word.now ≤ 8 }
    ensures { result ≡ numbered_line word.now kind first second }
{
    let mut line = Line::new();
    line.push(word);
    line.push(b" kind ");
    line.push_decimal(kind);
    line.push(b" first ");
    line.push_decimal(first);
    line.push(b" second ");
    line.push_decimal(second);
    line.end();
    line
}

#[tactic(auto, unfolding(crate::specs::Status::limit_line))]
fn limit_line(limit: u64) -> Line
    ensures { result ≡ limit_line limit }
{
    let mut line = Line::new();
    line.push(b"too large ");
    line.push_decimal(limit);
    line.end();
    line
}

#[tactic(auto, unfolding(crate::specs::Status::lost_line))]
fn lost_line(lost: &Lost) -> Line
    ensures { result ≡ lost_line lost.now.trap_pc lost.now.mask }
{
    let mut line = Line::new();
    line.push(b"lost ");
    line.push_hex(lost.trap_pc);
    line.push(b" mask ");
    line.push_decimal(u64::from(lost.mask.bits()));
    line.end();
    line
}

/// `unfixable trigger A at B condition Cn`, with the addresses of the trigger and of the place.
#[tactic(auto, unfolding(crate::specs::Status::unfixable_line))]
pub(crate) fn unfixable_line(broken: &Broken, code_base: u64) -> Line
    ensures { result ≡ unfixable_line broken.now code_base }
{
    let mut line = Line::new();
    line.push(b"unfixable trigger ");
    line.push_hex(place_address(code_base, broken.trigger));
    line.push(b" at ");
    line.push_hex(place_address(code_base, broken.at));
    line.push(b" condition C");
    line.push_decimal(u64::from(broken.condition.number()));
    line.end();
    line
}

#[tactic(auto, unfolding(crate::specs::Status::fixing_line))]
fn fixing_line(line: u32) -> Line
    ensures { result ≡ fixing_line line }
{
    let mut text = Line::new();
    text.push(b"fixed line ");
    text.push_decimal(u64::from(line));
    text.end();
    text
}

// `module F kind K first N`, the number N 0 where there is none.
fn module_fault_line(file: u32, fault: &ModuleFault) -> Line
    ensures { result ≡ module_fault_line file fault.now }
{
    match *fault {
        ModuleFault::Header => module_line(file, 1, 0),
        ModuleFault::Size(which) => module_line(file, 2, u64::from(which)),
        ModuleFault::Cut(length) => module_line(file, 3, length),
        ModuleFault::Word(place) => module_line(file, 4, u64::from(place)),
        ModuleFault::Symbol(n) => module_line(file, 5, u64::from(n)),
        ModuleFault::Relocation(n) => module_line(file, 6, u64::from(n)),
        ModuleFault::Rest(at) => module_line(file, 7, at),
        ModuleFault::NoMemory => module_line(file, 8, 0),
    }
}

#[tactic(auto, unfolding(crate::specs::Status::module_line))]
fn module_line(file: u32, kind: u64, first: u64) -> Line
    ensures { result ≡ module_line file kind first }
{
    let mut line = Line::new();
    line.push(b"module ");
    line.push_decimal(u64::from(file));
    line.push(b" kind ");
    line.push_decimal(kind);
    line.push(b" first ");
    line.push_decimal(first);
    line.end();
    line
}

// `link kind K first F second S`, the numbers 0 where there is none.
fn link_fault_line(fault: &LinkFault) -> Line
    ensures { result ≡ link_fault_line fault.now }
{
    match *fault {
        LinkFault::Duplicate(module, symbol) => numbered_line(
            b"link",
            1,
            u64::from(module),
            u64::from(symbol),
        ),
        LinkFault::Undefined(module, symbol) => numbered_line(
            b"link",
            2,
            u64::from(module),
            u64::from(symbol),
        ),
        LinkFault::Entry => numbered_line(b"link", 3, 0, 0),
        LinkFault::ImageField(field) => numbered_line(b"link", 4, u64::from(field), 0),
        LinkFault::Reach(module, relocation) => {
            numbered_line(b"link", 5, u64::from(module), u64::from(relocation))
        }
        LinkFault::NoMemory => numbered_line(b"link", 6, 0, 0),
    }
}

// `journal kind K at N`, the number 0 where there is none.
fn journal_line(fault: &JournalFault) -> Line
    ensures { result ≡ journal_line fault.now }
{
    match *fault {
        JournalFault::Short(given) => kind_line(b"journal", 1, given),
        JournalFault::Magic => kind_line(b"journal", 2, 0),
        JournalFault::Field(field) => kind_line(b"journal", 3, u64::from(field)),
        JournalFault::Item(n) => kind_line(b"journal", 4, u64::from(n)),
        JournalFault::Units => kind_line(b"journal", 5, 0),
        JournalFault::Rest(at) => kind_line(b"journal", 6, at),
        JournalFault::NoMemory => kind_line(b"journal", 7, 0),
    }
}

// `norun kind K at N`, the number 0 where there is none.
fn norun_line(fault: &ReplayFault) -> Line
    ensures { result ≡ norun_line fault.now }
{
    match *fault {
        ReplayFault::Item(n) => kind_line(b"norun", 1, u64::from(n)),
        ReplayFault::Output(at) => kind_line(b"norun", 2, at),
        ReplayFault::End => kind_line(b"norun", 3, 0),
        ReplayFault::Input(left) => kind_line(b"norun", 4, left),
        ReplayFault::NoMemory => kind_line(b"norun", 5, 0),
    }
}

#[tactic(auto, unfolding(crate::specs::Status::kind_line))]
fn kind_line(word: &[u8], kind: u64, at: u64) -> Line
    requires { length word.now ≤ 8 }
    ensures { result ≡ kind_line word.now kind at }
{
    let mut line = Line::new();
    line.push(word);
    line.push(b" kind ");
    line.push_decimal(kind);
    line.push(b" at ");
    line.push_decimal(at);
    line.end();
    line
}

/// `run units U reports R`, of a journal's run.
#[tactic(auto, unfolding(crate::specs::Commands::Replay::run_line))]
pub(crate) fn run_line(run: &Replayed) -> Line
    ensures { result ≡ run_line run.now.units run.now.reports }
{
    let mut line = Line::new();
    line.push(b"run units ");
    line.push_decimal(run.units);
    line.push(b" reports ");
    line.push_decimal(run.reports);
    line.end();
    line
}
