// A new file beside the one whose name it is to take.

use crate::Failed;
use crate::place::{Name, push_text};
use crate::replace::NewFile;
use itoa::Buffer;
use std::fs::{FileTimes, Metadata, OpenFile, OpenOptions};
use std::io;
use std::io::{Error, ErrorKind, Write};
use std::os::unix::fs::{MetadataExt, OpenOptionsExt};
use std::random::RandomSource;
use std::rt::Files;

// How many names are drawn where each one is taken.
const MOST_NAMES: u32 = 100;

/// A new file, its folder if that can be opened, its name, and the name that it is to take.
#[derive(Drop)]
pub(crate) struct Beside<'a, R: Files> {
    files: &'a R,
    file: R::File,
    folder: Option<R::File>,
    path: &'a str,
    out: &'a str,
    is_refused: bool,
}

impl<'a, R: Files> Beside<'a, R> {
    pub(crate) fn new(
        files: &'a R,
        file: R::File,
        folder: Option<R::File>,
        path: &'a str,
        out: &'a str,
    ) -> Beside<'a, R> {
        Beside {
            files,
            file,
            folder,
            path,
            out,
            is_refused: false,
        }
    }

    /// Gives the new file the access of the old one, if there is one, and answers whether it may take its name: where
    /// it has its owner and its group by itself, and lies on its disk, so that the old one isn't mounted by itself.
    #[inline(never)]
    pub(crate) fn takes_after(&self, old: Option<&Metadata>) -> io::Result<bool> {
        let Some(old) = old else {
            return Ok(true);
        };
        let made = OpenFile::metadata(&self.file)?;
        if made.dev() != old.dev() || made.uid() != old.uid() || made.gid() != old.gid() {
            return Ok(false);
        }
        if made.mode() == old.mode() {
            return Ok(true);
        }
        match OpenFile::set_permissions(&self.file, old.permissions()) {
            Ok(()) => Ok(true),
            Err(error) => match error.kind() {
                ErrorKind::PermissionDenied | ErrorKind::InvalidInput | ErrorKind::Unsupported =>
                    Ok(false),
                _ => Err(error),
            },
        }
    }

    /// Whether the system lets no file take that name, as where the one that has it is mounted there.
    pub(crate) fn is_refused(&self) -> bool {
        self.is_refused
    }
}

impl<R: Files> NewFile for Beside<'_, R> {
    ghost use Rattle.std.specs.Prelude.{None};

    ghost calls = { λ _. None };

    fn write(&mut self, bytes: &[u8]) -> Result<(), Failed> {
        drop_error(self.file.write_all(bytes))
    }

    fn sync(&mut self) -> Result<(), Failed> {
        drop_error(OpenFile::sync_all(&self.file))
    }

    fn rename(&mut self) -> Result<(), Failed> {
        let answer = self.files.rename(self.path, self.out);
        if let Err(error) = &answer {
            self.is_refused = match error.kind() {
                ErrorKind::ResourceBusy | ErrorKind::CrossesDevices | ErrorKind::PermissionDenied =>
                    true,
                _ => false,
            };
        }
        drop_error(answer)
    }

    fn remove(&mut self) {
        let _ = self.files.remove_file(self.path);
    }

    fn settle(&mut self) -> Result<(), Failed> {
        let Some(folder) = &self.folder else {
            return Ok(());
        };
        match OpenFile::sync_all(folder) {
            // Some file systems have nothing to store of a folder.
            Err(error)
                if error.kind() == ErrorKind::InvalidInput
                    || error.kind() == ErrorKind::Unsupported => { Ok(()) }
            answer => drop_error(answer),
        }
    }
}

fn drop_error(answer: io::Result<()>) -> Result<(), Failed> {
    match answer {
        Ok(()) => Ok(()),
        Err(_) => Err(Failed),
    }
}

/// The folder of a name, open, or `None` where it may not be read.
#[inline(never)]
pub(crate) fn folder_of<R: Files>(files: &R, path: &str) -> io::Result<Option<R::File>> {
    let folder = match path.rsplit_once('/') {
        Some(("", _)) => "/",
        Some((folder, _)) => folder,
        None => ".",
    };
    match OpenOptions::new().read(true).open(files, folder) {
        Ok(file) => Ok(Some(file)),
        Err(error) if error.kind() == ErrorKind::PermissionDenied => Ok(None),
        Err(error) => Err(error),
    }
}

/// Whether a folder is known to let no name be removed, so that a new file would stay in it under its first name. Such
/// a folder, to which one can only append, doesn't let its owner set its times either: so its time of access is set to
/// what it is. Nobody but its owner can ask it that.
#[inline(never)]
pub(crate) fn keeps_names<R: Files>(files: &R, folder: &R::File) -> io::Result<bool> {
    let found = OpenFile::metadata(folder)?;
    if !is_own(files, &found)? {
        return Ok(false);
    }
    let Ok(time) = found.accessed() else {
        return Ok(false);
    };
    match OpenFile::set_times(folder, FileTimes::new().set_accessed(time)) {
        Ok(()) => Ok(false),
        Err(error) => Ok(error.kind() == ErrorKind::PermissionDenied),
    }
}

// Whether a file belongs to the user of this program, where the system says who that is.
fn is_own<R: Files>(files: &R, found: &Metadata) -> io::Result<bool> {
    match files.metadata("/proc/self") {
        Ok(process) => Ok(process.uid() == found.uid()),
        Err(error) if error.kind() == ErrorKind::NotFound => Ok(false),
        Err(error) => Err(error),
    }
}

/// A new file in the folder of a name, or `None` where the folder takes none, or its name would be too long. Nobody
/// else may open it where it is to be `private`. Its name is put into `path`.
#[inline(never)]
pub(crate) fn new_file<R: Files + RandomSource>(
    files: &R,
    out: &str,
    is_private: bool,
    path: &mut Name,
) -> io::Result<Option<R::File>> {
    let mut options = OpenOptions::new();
    options.write(true).create_new(true);
    if is_private {
        options.mode(0o600);
    }
    for _ in 0..MOST_NAMES {
        if !is_named(files, out, path)? {
            return Ok(None);
        }
        match options.open(files, path.as_str()) {
            Ok(file) => return Ok(Some(file)),
            Err(error) => match error.kind() {
                ErrorKind::AlreadyExists => {}
                ErrorKind::PermissionDenied | ErrorKind::ReadOnlyFilesystem => return Ok(None),
                _ => return Err(error),
            },
        }
    }
    Err(Error::from(ErrorKind::AlreadyExists))
}

// Draws a name in the folder of another one, `.alpha-keep-` and a number that nobody can foresee. `false` where it
// would be too long.
fn is_named<R: RandomSource>(files: &R, out: &str, path: &mut Name) -> io::Result<bool> {
    let mut drawn = [0; 8];
    files.fill_bytes(&mut drawn)?;
    path.clear();
    let is_in_folder = match out.rsplit_once('/') {
        Some((folder, _)) => push_text(path, folder) && push_text(path, "/"),
        None => true,
    };
    Ok(
        is_in_folder
            && push_text(path, ".alpha-keep-")
            && push_text(path, Buffer::new().format(u64::from_le_bytes(drawn))),
    )
}
