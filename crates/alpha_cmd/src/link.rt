//! `link [--entry NAME] OUT FILE...`: the image that the modules of files link to, kept as a file.

ghost use Rattle.std.specs.Prelude.{◌≡◌, ◌≤◌, ℕ, List, IfOk, length, map};
ghost use Rattle.alpha_image.specs.Parts as images;
ghost use Rattle.alpha_io.specs.ShelfChange.{shelf_change};
ghost use Rattle.alpha_cmd.specs.Outcome.{continues, Then};
ghost use Rattle.alpha_cmd.specs.Commands.Link as links;
ghost use Rattle.alpha_cmd.specs.Commands.Link.{FilesOf, ModuleOf, ModulesOf, Links, LinksFiles};
ghost use Rattle.alpha_cmd.specs.CommandEffect.{CommandEffect};
ghost use Rattle.alpha_cmd.specs.Ends.{status_in};
ghost use Rattle.alpha_cmd.specs.Replied.{IsReadEach, KeepsLinked};
ghost use Rattle.alpha_cmd.specs.Stage.{Computes, Stage};

use crate::Status;
use crate::decision::Decision;
use crate::devices::Devices;
use crate::image::{bytes_of_image, read_file};
use crate::keep::keep_as;
use crate::stop::Stop;
use alpha_image::Image;
use alpha_io::{Failed, Shelf, Sink, Source};
use alpha_link::{LinkFault, Module, ModuleFault, read_module};
use std::alloc::Global;

/// The most bytes of a module file.
pub const MODULE_LIMIT: u64 = 20_971_520;

/// Links the modules of files, and keeps the spelling of their image under another name or one of
/// theirs. The keep comes last: before it no file is changed.
#[inline(never)]
pub(crate) fn link<H: Shelf, S: Source, K: Sink, N: Sink>(
    alloc: Global,
    entry: &str,
    out: &str,
    files: &[&str],
    devices: &mut Devices<H, S, K, N>,
) -> Result<Decision, Failed>
    requires { length files.now ≤ 64 }
    ensures kept { status_in result ≡ Status.Done 0
        → KeepsLinked (shelf_change H.Shelf devices.old.shelf devices.new.shelf)
        entry.now out.now (map (λ name. name.now) files.now) }
    ensures does { CommandEffect H.Shelf S.Source K.Sink N.Sink
        (links.form entry.now out.now (map (λ name. name.now) files.now)) result
        devices.old devices.new }
{
    match read_and_link(alloc, entry, files, &mut devices.shelf) {
        Ok(bytes) => Ok(keep_as(bytes.as_slice(), out, &mut devices.shelf)),
        Err(stop) => Ok(Decision::of_stop(stop)),
    }
}

// The spelling of the image that the modules of files link to.
#[inline(never)]
fn read_and_link<H: Shelf>(
    alloc: Global,
    entry: &str,
    names: &[&str],
    shelf: &mut H,
) -> Result<Vec<u8>, Stop>
    requires { length names.now ≤ 64 }
    ensures read { IfOk result (λ bytes. (files : List (List ℕ))
        × IsReadEach (H.replies shelf.old) (H.replies shelf.new) (map (λ name. name.now) names.now) files
        × Then (ModulesOf files) (Links entry.now) (continues bytes.items)) }
    ensures stage { Stage (LinksFiles (H.files shelf.old) entry.now (map (λ name. name.now) names.now))
        (λ bytes. bytes.items) result (shelf_change H.Shelf shelf.old shelf.new) }
{
    let files = read_files(alloc, names, shelf)?;
    link_files(alloc, entry, files)
}

// The bytes of files within the limit of modules, read in the order of their names.
fn read_files<H: Shelf>(alloc: Global, names: &[&str], shelf: &mut H) -> Result<Vec<Vec<u8>>, Stop>
    ensures read { IfOk result (λ all. IsReadEach (H.replies shelf.old) (H.replies shelf.new)
        (map (λ name. name.now) names.now) (map (λ file. file.items) all.items)) }
    ensures found { Stage (FilesOf (H.files shelf.old) (map (λ name. name.now) names.now))
        (λ all. map (λ file. file.items) all.items) result (shelf_change H.Shelf shelf.old shelf.new) }
    ensures count { IfOk result (λ all. length all.items ≡ length names.now) }
{
    let mut all = Vec::new(alloc);
    for name in names {
        let bytes = read_file(alloc, shelf, name, MODULE_LIMIT)?;
        let Ok(()) = all.push(bytes) else {
            return Err(Stop::OfStatus(Status::NoMemory));
        };
    }
    Ok(all)
}

// The spelling of the image that the modules of files link to, by the bytes of the files. These and the
// modules are let go before the image is spelled.
fn link_files(alloc: Global, entry: &str, files: Vec<Vec<u8>>) -> Result<Vec<u8>, Stop>
    requires { length files.items ≤ 64 }
    ensures { Computes (Then (ModulesOf (map (λ file. file.items) files.items)) (Links entry.now))
        (λ bytes. bytes.items) result }
{
    let image = link_image(alloc, entry, files)?;
    bytes_of_image(alloc, &image)
}

// The image that the modules of files link to.
fn link_image(alloc: Global, entry: &str, files: Vec<Vec<u8>>) -> Result<Image, Stop>
    requires { length files.items ≤ 64 }
    ensures { Computes (Then (ModulesOf (map (λ file. file.items) files.items)) (Links entry.now))
        (λ image. images.image_spelling image) result }
{
    let modules = modules_of(alloc, files.as_slice())?;
    link_modules(alloc, entry, modules.as_slice())
}

// The modules that the bytes of files spell.
fn modules_of<'a>(alloc: Global, files: &'a [Vec<u8>]) -> Result<Vec<Module<'a>>, Stop>
    requires { length files.now ≤ 64 }
    ensures spelled { Computes (ModulesOf (map (λ file. file.items) files.now))
        (λ all. all.items) result }
    ensures count { IfOk result (λ all. length all.items ≡ length files.now) }
{
    let mut all = Vec::new(alloc);
    for (number, bytes) in files.iter().enumerate() {
        let module = module_of(alloc, number as u32, bytes.as_slice())?;
        let Ok(()) = all.push(module) else {
            return Err(Stop::OfStatus(Status::NoMemory));
        };
    }
    Ok(all)
}

// The module that the bytes of a file spell, by the number of the file.
fn module_of<'a>(alloc: Global, number: u32, bytes: &'a [u8]) -> Result<Module<'a>, Stop>
    ensures { Computes (ModuleOf number bytes.now) (λ m. m) result }
{
    match read_module(alloc, bytes) {
        Ok(module) => Ok(module),
        Err(ModuleFault::NoMemory) => Err(Stop::OfStatus(Status::NoMemory)),
        Err(fault) => Err(Stop::OfStatus(Status::BadModule(number, fault))),
    }
}

// The image that modules link to.
fn link_modules(alloc: Global, entry: &str, modules: &[Module<'_>]) -> Result<Image, Stop>
    requires { length modules.now ≤ 64 }
    ensures { Computes (Links entry.now modules.now) (λ image. images.image_spelling image) result }
{
    match alpha_link::link(alloc, modules, entry.as_bytes()) {
        Ok(image) => Ok(image),
        Err(LinkFault::NoMemory) => Err(Stop::OfStatus(Status::NoMemory)),
        Err(fault) => Err(Stop::OfStatus(Status::BadLink(fault))),
    }
}
