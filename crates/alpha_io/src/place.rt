// Where the name of a file leads to.

use arrayvec::ArrayString;
use std::fs::Metadata;
use std::io;
use std::io::ErrorKind;
use std::os::unix::fs::{FileTypeExt, MetadataExt};
use std::rt::Files;

// How many symbolic links the system follows for one name.
const MOST_LINKS: u32 = 40;

// The longest name that the system takes. It needs no memory here: so a keep doesn't fail for want of it, but where the
// name is a symbolic link.
const NAME_ROOM: usize = 4_095;

/// The name of a file.
pub(crate) type Name = ArrayString<NAME_ROOM>;

/// How the file of a name may be kept.
#[derive(Clone, Copy)]
pub(crate) enum Place {
    /// By a new file, which takes the name that was found.
    Beside,
    /// Over what is there.
    Itself,
    /// Another file has the name by now.
    Changed,
}

/// The place that a name leads to, where the file of these data has it, or none. The name that is to be replaced, which
/// is no symbolic link, is put into `path`.
#[inline(never)]
pub(crate) fn place_of<R: Files + AllocGlobal>(
    files: &R,
    name: &str,
    old: Option<&Metadata>,
    path: &mut Name,
) -> io::Result<Place> {
    if old.is_some_and(|old| !old.is_file()) || !push_text(path, name) {
        return Ok(Place::Itself);
    }
    // The last turn sees what the last link leads to.
    for _ in 0..=MOST_LINKS {
        let found = match files.symlink_metadata(path.as_str()) {
            Ok(found) => found,
            Err(error) if error.kind() == ErrorKind::NotFound => {
                return Ok(if old.is_none() {
                    Place::Beside
                } else {
                    Place::Changed
                });
            }
            Err(error) => return Err(error),
        };
        if !found.is_symlink() {
            return Ok(if old.is_some_and(|old| is_same(old, &found)) {
                Place::Beside
            } else {
                Place::Changed
            });
        }
        // The system makes the file of a link that leads to none: it knows whose links it follows in shared folders.
        if old.is_none() || is_of_proc(files, &found) || !is_followed(files, path)? {
            return Ok(Place::Itself);
        }
    }
    Ok(Place::Changed)
}

// Puts the name that a symbolic link says in its place, unless it is too long.
fn is_followed<R: Files + AllocGlobal>(files: &R, path: &mut Name) -> io::Result<bool> {
    let text = files.read_link(files.alloc(), path.as_str())?;
    if text.is_absolute() {
        path.clear();
    } else {
        let kept = path.rfind('/').map_or(0, |at| at + 1);
        path.truncate(kept);
    }
    Ok(push_text(path, text.as_str()))
}

// Whether a link stands for an open file, as those that /dev/stdout leads to: such a file is written in place, since
// whoever holds it open would not see the one that replaced it.
fn is_of_proc<R: Files>(files: &R, link: &Metadata) -> bool {
    match files.symlink_metadata("/proc/self") {
        Ok(proc) => proc.dev() == link.dev(),
        Err(_) => false,
    }
}

/// Whether a file or a pipe is one that the output or the notes of the program go to.
#[inline(never)]
pub(crate) fn is_stream<R: Files>(files: &R, found: &Metadata) -> bool {
    !found.file_type().is_char_device()
        && (is_at(files, "/proc/self/fd/1", found) || is_at(files, "/proc/self/fd/2", found))
}

fn is_at<R: Files>(files: &R, name: &str, found: &Metadata) -> bool {
    match files.metadata(name) {
        Ok(other) => is_same(&other, found),
        Err(_) => false,
    }
}

fn is_same(one: &Metadata, other: &Metadata) -> bool {
    one.dev() == other.dev() && one.ino() == other.ino()
}

/// Appends a text to a name, where the name has room for all of it.
pub(crate) fn push_text(name: &mut Name, text: &str) -> bool {
    name.try_push_str(text).is_ok()
}
