//! The program: it gathers what stands on the command line, makes the real devices, and ends with the
//! status of [`alpha_main`].
#![tactic(auto)]

use alpha_cmd::{Devices, Status, alpha_main};
use alpha_io::{DiskShelf, ReadSource, WriteSink};
use std::env;
use std::io::ErrorKind;
use std::process::ExitCode;
use std::rt::Env;

fn main(rt: HostRuntime) -> ExitCode {
    let status = match arguments(&rt) {
        Ok(arguments) => alpha_main(
            rt.alloc(),
            arguments.as_slice(),
            &mut Devices {
                shelf: shelf_for(&rt, arguments.as_slice()),
                input: ReadSource::new(rt.stdin()),
                out: WriteSink::new(rt.stdout()),
                notes: WriteSink::new(rt.stderr()),
            },
        ),
        Err(status) => status,
    };
    ExitCode::from(status.number())
}

// The files. A `record` writes to its streams before it keeps its journal, and behind that.
fn shelf_for<'a>(rt: &'a HostRuntime, arguments: &[String]) -> DiskShelf<&'a HostRuntime> {
    match arguments.get(1) {
        Some(command) if command.as_str() == "record" => DiskShelf::with_stream_guard(rt),
        _ => DiskShelf::new(rt),
    }
}

// All that stands on the command line. Where a part of it isn't text the words are bad; then, and where
// memory runs out here, the status is all that the program answers.
fn arguments(rt: &(impl Env + AllocGlobal)) -> Result<Vec<String>, Status> {
    let mut all = Vec::new(rt.alloc());
    match env::args(rt) {
        Ok(arguments) => {
            for word in arguments {
                if all.push(word).is_err() {
                    return Err(Status::NoMemory);
                }
            }
            Ok(all)
        }
        Err(error) if error.kind() == ErrorKind::OutOfMemory => Err(Status::NoMemory),
        Err(_) => Err(Status::BadWords),
    }
}
