ghost use Rattle.std.specs.Prelude.{◌≡◌};
ghost use Rattle.std.specs.Str.{bytes_eq};
ghost use Rattle.alpha_debug.specs.Command.{command_of, command_in, words, command_alone, command_without_step};
ghost use Rattle.alpha_debug.specs.Command.{with_number, with_range};
ghost use Rattle.alpha_debug.specs.Command.{by_number, by_range, is_within};

use crate::word::{first_word, number_in};

// The most steps of a `step`.
pub(crate) const MOST_STEPS: u64 = 1_000_000;

// The most bytes of a `mem`, and words of a `dis`.
const MOST_SHOWN: u64 = 256;

// The most bytes of a line that is a command.
pub(crate) const LINE_LIMIT: usize = 1_024;

/// What a line asks for.
#[derive(Clone, Copy, Debug, PartialEq, Eq)]
pub(crate) enum Command {
    /// A line without a word.
    Nothing,
    /// `step` and `step N`: so many steps.
    Step(u64),
    /// `go`: steps to a breakpoint.
    Go,
    /// `barrier`: steps to a barrier.
    Barrier,
    /// `break A`: a breakpoint more.
    Break(u64),
    /// `clear A`: a breakpoint less.
    Clear(u64),
    /// `regs`: the registers.
    Registers,
    /// `mem A N`: bytes from an address on.
    Memory(u64, u64),
    /// `dis A N`: code words from an address on.
    Listing(u64, u64),
    /// `shadow`: the verdict on the code.
    Shadow,
    /// `log`: the logged overflows.
    Log,
    /// `quit`: the end of the session.
    Quit,
    /// Any other line.
    Unknown,
}

/// What a line says, which has lost its line end.
pub(crate) fn command_of(line: &[u8]) -> Command
    ensures { result ≡ command_of line.now }
{
    if line.len() > LINE_LIMIT {
        Command::Unknown
    } else {
        command_in(line)
    }
}

// What the words of a line say.
fn command_in(line: &[u8]) -> Command
    ensures { result ≡ command_in (words line.now) }
{
    let (name, rest) = first_word(line);
    if name.is_empty() {
        return Command::Nothing;
    }
    let (first, rest) = first_word(rest);
    if first.is_empty() {
        return command_alone(name);
    }
    let (second, rest) = first_word(rest);
    if second.is_empty() {
        return by_number(name, number_in(first));
    }
    let (third, _) = first_word(rest);
    if third.is_empty() {
        return by_range(name, number_in(first), number_in(second));
    }
    Command::Unknown
}

// What a word alone says.
fn command_alone(name: &[u8]) -> Command
    ensures { result ≡ command_alone name.now }
{
    if is_word(name, b"step") {
        Command::Step(1)
    } else if is_word(name, b"go") {
        Command::Go
    } else if is_word(name, b"barrier") {
        Command::Barrier
    } else {
        command_without_step(name)
    }
}

// The command of a word that makes no step.
fn command_without_step(name: &[u8]) -> Command
    ensures { result ≡ command_without_step name.now }
{
    if is_word(name, b"regs") {
        Command::Registers
    } else if is_word(name, b"shadow") {
        Command::Shadow
    } else if is_word(name, b"log") {
        Command::Log
    } else if is_word(name, b"quit") {
        Command::Quit
    } else {
        Command::Unknown
    }
}

// What a word and a number say.
fn by_number(name: &[u8], number: Option<u64>) -> Command
    ensures { result ≡ by_number name.now number }
{
    match number {
        Some(n) => with_number(name, n),
        None => Command::Unknown,
    }
}

fn with_number(name: &[u8], n: u64) -> Command
    ensures { result ≡ with_number name.now n }
{
    if is_word(name, b"step") {
        if is_within(MOST_STEPS, n) {
            Command::Step(n)
        } else {
            Command::Unknown
        }
    } else if is_word(name, b"break") {
        Command::Break(n)
    } else if is_word(name, b"clear") {
        Command::Clear(n)
    } else {
        Command::Unknown
    }
}

// What a word, an address and a count say.
fn by_range(name: &[u8], at: Option<u64>, count: Option<u64>) -> Command
    ensures { result ≡ by_range name.now at count }
{
    match (at, count) {
        (Some(at), Some(count)) => with_range(name, at, count),
        _ => Command::Unknown,
    }
}

fn with_range(name: &[u8], at: u64, count: u64) -> Command
    ensures { result ≡ with_range name.now at count }
{
    if !is_within(MOST_SHOWN, count) {
        Command::Unknown
    } else if is_word(name, b"mem") {
        Command::Memory(at, count)
    } else if is_word(name, b"dis") {
        Command::Listing(at, count)
    } else {
        Command::Unknown
    }
}

fn is_within(most: u64, n: u64) -> bool
    ensures { result ≡ is_within most n }
{
    1 <= n && n <= most
}

fn is_word(name: &[u8], wanted: &[u8]) -> bool
    ensures { result ≡ bytes_eq name.now wanted.now }
{
    name == wanted
}
