//! `asm FILE OUT`, `fix FILE OUT` and `module FILE OUT`: what a source makes, kept as a file.

ghost use Rattle.std.specs.Prelude.{◌≡◌, ◌^◌, ◌<◌, ℕ, List, length, IfOk};
ghost use Rattle.alpha_io.specs.History.{IsReadWhole};
ghost use Rattle.alpha_io.specs.ShelfChange.{shelf_change};
ghost use Rattle.alpha_cmd.specs.CommandEffect.{CommandEffect};
ghost use Rattle.alpha_cmd.specs.Ends.{status_in};
ghost use Rattle.alpha_cmd.specs.SourceCommands as makings;
ghost use Rattle.alpha_cmd.specs.SourceCommands.{Bytes, MakesOfSource};
ghost use Rattle.alpha_cmd.specs.Outcome.{continues};
ghost use Rattle.alpha_cmd.specs.Replied.{KeepsMade};
ghost use Rattle.alpha_cmd.specs.Stage.{Computes, Stage};

use crate::Status;
use crate::decision::Decision;
use crate::devices::Devices;
use crate::image::read_file;
use crate::keep::keep_as;
use crate::stop::Stop;
use alpha_io::{Failed, Shelf, Sink, Source};
use alpha_request::SourceCommand;
use std::alloc::Global;

mod asm;
mod fix;
mod module;

/// The most bytes of a source.
pub const SOURCE_LIMIT: u64 = 16_777_216;

/// Makes what is asked of the source of a file, and keeps it under another name or the same. The keep
/// comes last: before it no file is changed.
#[inline(never)]
pub(crate) fn make<H: Shelf, S: Source, K: Sink, N: Sink>(
    alloc: Global,
    command: SourceCommand,
    file: &str,
    out: &str,
    devices: &mut Devices<H, S, K, N>,
) -> Result<Decision, Failed>
    ensures kept { status_in result ≡ Status.Done 0
        → KeepsMade (shelf_change H.Shelf devices.old.shelf devices.new.shelf) file.now out.now
        (λ source bytes. Bytes command source (continues bytes)) }
    ensures does { CommandEffect H.Shelf S.Source K.Sink N.Sink (makings.form command file.now out.now) result
        devices.old devices.new }
{
    match bytes_of_source(alloc, command, file, &mut devices.shelf) {
        Ok(bytes) => Ok(keep_as(bytes.as_slice(), out, &mut devices.shelf)),
        Err(stop) => Ok(Decision::of_stop(stop)),
    }
}

// What the source of a file makes.
#[inline(never)]
fn bytes_of_source<H: Shelf>(
    alloc: Global,
    command: SourceCommand,
    name: &str,
    shelf: &mut H,
) -> Result<Vec<u8>, Stop>
    ensures read { IfOk result (λ bytes. (source : List ℕ)
        × IsReadWhole (H.replies shelf.old) (H.replies shelf.new) name.now source
        × Bytes command source (continues bytes.items)) }
    ensures stage { Stage (MakesOfSource command (H.files shelf.old) name.now) (λ bytes. bytes.items) result
        (shelf_change H.Shelf shelf.old shelf.new) }
{
    let source = read_file(alloc, shelf, name, SOURCE_LIMIT)?;
    bytes_of(alloc, command, source.as_slice())
}

// What a source makes.
fn bytes_of(alloc: Global, command: SourceCommand, source: &[u8]) -> Result<Vec<u8>, Stop>
    requires { length source.now < 2 ^ 31 }
    ensures { Computes (Bytes command source.now) (λ bytes. bytes.items) result }
{
    match command {
        SourceCommand::Asm => asm::assemble_source(alloc, source),
        SourceCommand::Fix => fix::fix_source(alloc, source),
        SourceCommand::Module => module::module_of(alloc, source),
    }
}
