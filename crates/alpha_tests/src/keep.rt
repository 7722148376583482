//! What a keep leaves where a call of the file system fails, or where somebody or the system plays it a trick: the
//! calls go on to the real one, but for those. Of `alpha_io`.

use alpha_io::{DiskShelf, Failed, Shelf};
use std::alloc::{Allocator, Global};
use std::cell::Cell;
use std::fs::{File, FileTimes, Metadata, OpenFile, OpenOptions, Permissions};
use std::io::{ErrorKind, Read, Seek, SeekFrom, Write};
use std::os::unix::fs::{MetadataExt, PermissionsExt, symlink};
use std::path::PathBuf;
use std::random::RandomSource;
use std::rt::Files;
use std::test::Fail;
use std::{fs, io};

const OUT: &str = "alpha_io_kept.bin";

const LINK: &str = "alpha_io_link.bin";

const OTHER: &str = "alpha_io_other.bin";

// The names of new files, as docs/commands.md gives them, by the numbers that are drawn here.
const NEW: &str = ".alpha-keep-0";

const NEXT: &str = ".alpha-keep-1";

static OLD_BYTES: [u8; 3] = [1, 2, 3];

static NEW_BYTES: [u8; 4] = [5, 6, 7, 8];

// More calls than any keep makes.
const MOST_CALLS: u32 = 24;

// What happens to a keep.
#[derive(Clone, Copy, PartialEq, Eq)]
enum Trick {
    // Nothing.
    None,
    // Another file has the name, so many times.
    Swapped(u32),
    // Something is mounted under the name.
    Mounted,
    // Names can't be taken out of the folder.
    AppendOnly,
    // The notes go to the file.
    Notes,
    // The same number is drawn again and again.
    Worn,
}

// The real file system, of which the calls whose bits are set fail.
#[derive(Clone, Copy)]
struct Failing<'a> {
    rt: &'a HostRuntime,
    fails: u32,
    trick: Trick,
    calls: &'a Cell<u32>,
    drawn: &'a Cell<u8>,
    swaps: &'a Cell<u32>,
}

impl Failing<'_> {
    // The next call, which fails if its bit is set.
    fn turn(&self) -> io::Result<()> {
        let call = self.calls.get();
        self.calls.set(call.saturating_add(1));
        if call < 32 && (self.fails >> call) & 1 == 1 {
            Err(io::Error::from(ErrorKind::Other))
        } else {
            Ok(())
        }
    }
}

#[derive(Drop)]
struct FailingFile<'a> {
    files: Failing<'a>,
    file: File,
}

impl Read for FailingFile<'_> {
    fn read(&mut self, buf: &mut [u8]) -> io::Result<usize> {
        self.files.turn()?;
        self.file.read(buf)
    }
}

// A write that fails has written half of the bytes.
impl Write for FailingFile<'_> {
    fn write(&mut self, bytes: &[u8]) -> io::Result<usize> {
        if let Err(error) = self.files.turn() {
            self.file.write(&bytes[..bytes.len() / 2])?;
            return Err(error);
        }
        self.file.write(bytes)
    }

    fn flush(&mut self) -> io::Result<()> {
        self.file.flush()
    }
}

impl Seek for FailingFile<'_> {
    fn seek(&mut self, to: SeekFrom) -> io::Result<u64> {
        self.file.seek(to)
    }
}

impl OpenFile for FailingFile<'_> {
    fn metadata(&self) -> io::Result<Metadata> {
        self.files.turn()?;
        self.file.metadata()
    }

    fn set_len(&self, size: u64) -> io::Result<()> {
        self.file.set_len(size)
    }

    fn sync_all(&self) -> io::Result<()> {
        self.files.turn()?;
        self.file.sync_all()
    }

    fn sync_data(&self) -> io::Result<()> {
        self.file.sync_data()
    }

    fn set_permissions(&self, perm: Permissions) -> io::Result<()> {
        self.files.turn()?;
        self.file.set_permissions(perm)
    }

    fn set_times(&self, times: FileTimes) -> io::Result<()> {
        if self.files.trick == Trick::AppendOnly {
            return Err(io::Error::from(ErrorKind::PermissionDenied));
        }
        self.file.set_times(times)
    }
}

impl RandomSource for Failing<'_> {
    fn fill_bytes(&self, buf: &mut [u8]) -> io::Result<()> {
        self.turn()?;
        let drawn = self.drawn.get();
        if self.trick != Trick::Worn {
            self.drawn.set(drawn.saturating_add(1));
        }
        for byte in buf.iter_mut() {
            *byte = 0;
        }
        if let Some(first) = buf.first_mut() {
            *first = drawn;
        }
        Ok(())
    }
}

impl Alloc for Failing<'_> {
    type A = Global;

    fn alloc(&self) -> Global {
        self.rt.alloc()
    }
}

impl<'a> Files for Failing<'a> {
    type File = FailingFile<'a>;

    type Dir = <HostRuntime as Files>::Dir;

    fn open_file(&self, options: &OpenOptions, path: &str) -> io::Result<FailingFile<'a>> {
        self.turn()?;
        let file = self.rt.open_file(options, path)?;
        Ok(FailingFile { files: *self, file })
    }

    fn open_dir(&self, path: &str) -> io::Result<<HostRuntime as Files>::Dir> {
        self.rt.open_dir(path)
    }

    fn metadata(&self, path: &str) -> io::Result<Metadata> {
        self.turn()?;
        if self.trick == Trick::Notes && path == "/proc/self/fd/2" {
            return self.rt.metadata(OUT);
        }
        self.rt.metadata(path)
    }

    fn symlink_metadata(&self, path: &str) -> io::Result<Metadata> {
        self.turn()?;
        if let Trick::Swapped(times) = self.trick
            && self.swaps.get() < times
        {
            self.swaps.set(self.swaps.get().saturating_add(1));
            return self.rt.symlink_metadata(OTHER);
        }
        self.rt.symlink_metadata(path)
    }

    fn copy(&self, from: &str, to: &str) -> io::Result<u64> {
        self.rt.copy(from, to)
    }

    fn rename(&self, from: &str, to: &str) -> io::Result<()> {
        self.turn()?;
        match self.trick {
            Trick::Mounted => Err(io::Error::from(ErrorKind::ResourceBusy)),
            Trick::AppendOnly => Err(io::Error::from(ErrorKind::PermissionDenied)),
            _ => self.rt.rename(from, to),
        }
    }

    fn remove_file(&self, path: &str) -> io::Result<()> {
        self.turn()?;
        if self.trick == Trick::AppendOnly {
            return Err(io::Error::from(ErrorKind::PermissionDenied));
        }
        self.rt.remove_file(path)
    }

    fn create_dir(&self, path: &str) -> io::Result<()> {
        self.rt.create_dir(path)
    }

    fn remove_dir(&self, path: &str) -> io::Result<()> {
        self.rt.remove_dir(path)
    }

    fn remove_dir_all<B: Allocator>(&self, alloc: B, path: &str) -> io::Result<()> {
        self.rt.remove_dir_all(alloc, path)
    }

    fn read_link<B: Allocator>(&self, alloc: B, path: &str) -> io::Result<PathBuf<B>> {
        self.turn()?;
        self.rt.read_link(alloc, path)
    }
}

// Removes what a test left.
fn clear(rt: &HostRuntime) {
    for name in [OUT, LINK, OTHER, NEW, NEXT] {
        let _ = fs::remove_file(rt, name);
    }
}

// What a keep answers, and how many calls it made, where these fail and this happens to it. It may be one that spares
// the streams.
fn tricked(
    rt: &HostRuntime,
    name: &str,
    fails: u32,
    trick: Trick,
    spares_streams: bool,
) -> (Result<(), Failed>, u32) {
    let (calls, drawn, swaps) = (Cell::new(0), Cell::new(0), Cell::new(0));
    let files = Failing {
        rt,
        fails,
        trick,
        calls: &calls,
        drawn: &drawn,
        swaps: &swaps,
    };
    let mut shelf = if spares_streams {
        DiskShelf::with_stream_guard(files)
    } else {
        DiskShelf::new(files)
    };
    let answer = shelf.keep(name, &NEW_BYTES);
    (answer, calls.get())
}

fn kept(rt: &HostRuntime, name: &str, fails: u32) -> (Result<(), Failed>, u32) {
    tricked(rt, name, fails, Trick::None, false)
}

fn kept_by(rt: &HostRuntime, trick: Trick) -> Result<(), Failed> {
    tricked(rt, OUT, 0, trick, false).0
}

// Makes the old file, with that mode, and answers its number.
fn made_old(rt: &HostRuntime, mode: u32) -> io::Result<u64> {
    fs::write(rt, OUT, &OLD_BYTES)?;
    fs::set_permissions(rt, OUT, Permissions::from_mode(mode))?;
    Ok(fs::metadata(rt, OUT)?.ino())
}

// The file has the new bytes exactly where the keep says so, and else the old ones, or none.
fn holds(rt: &HostRuntime, answer: Result<(), Failed>, old: Option<&[u8]>) -> bool {
    let wanted = match answer {
        Ok(()) => Some(NEW_BYTES.as_slice()),
        Err(Failed) => old,
    };
    match (fs::read(rt, OUT), wanted) {
        (Ok(found), Some(wanted)) => found.as_slice() == wanted,
        (Err(_), None) => true,
        _ => false,
    }
}

// How many calls a keep makes over the old file.
fn calls_over_old(rt: &HostRuntime) -> io::Result<u32> {
    fs::write(rt, OUT, &OLD_BYTES)?;
    Ok(kept(rt, OUT, 0).1)
}

// What a keep leaves where this call of so many fails: the last one has the folder stored, behind the rename.
fn left_by(call: u32, whole: u32) -> &'static [u8] {
    if call.saturating_add(1) == whole {
        &NEW_BYTES
    } else {
        &OLD_BYTES
    }
}

fn is_there(rt: &HostRuntime, name: &str) -> bool {
    fs::symlink_metadata(rt, name).is_ok()
}

#[test]
fn each_call_that_fails_leaves_the_old_file(rt: HostRuntime) -> Result<(), Fail> {
    clear(&rt);
    let whole = calls_over_old(&rt)?;
    let mut failures = 0u32;
    for n in 0..MOST_CALLS {
        fs::write(&rt, OUT, &OLD_BYTES)?;
        let (answer, calls) = kept(&rt, OUT, 1 << n);
        assert!(rt; holds(&rt, answer, Some(left_by(n, whole))));
        assert!(rt; !is_there(&rt, NEW));
        assert_eq!(rt; answer.is_err(), n < calls);
        failures = failures.saturating_add(u32::from(answer.is_err()));
    }
    // the three opens, what they opened, what the name leads to, whose folder it is, the number, the mode, the write,
    // the rename and the two syncs
    assert!(rt; failures >= 13);
    clear(&rt);
    Ok(())
}

#[test]
fn each_call_that_fails_leaves_no_file(rt: HostRuntime) -> Result<(), Fail> {
    clear(&rt);
    let (_, whole) = kept(&rt, OUT, 0);
    clear(&rt);
    for n in 0..MOST_CALLS {
        let (answer, calls) = kept(&rt, OUT, 1 << n);
        assert!(rt;
            holds(
                &rt,
                answer,
                if n + 1 == whole {
                    Some(&NEW_BYTES)
                } else {
                    None
                }
            )
        );
        assert!(rt; !is_there(&rt, NEW));
        assert_eq!(rt; answer.is_err(), n < calls);
        clear(&rt);
    }
    Ok(())
}

#[test]
fn where_the_removal_fails_too_the_old_file_is_left(rt: HostRuntime) -> Result<(), Fail> {
    let whole = calls_over_old(&rt)?;
    let mut left = 0u32;
    for n in 0..MOST_CALLS {
        clear(&rt);
        fs::write(&rt, OUT, &OLD_BYTES)?;
        // the call behind one that failed is the removal
        let (answer, _) = kept(&rt, OUT, 3 << n);
        assert!(rt; holds(&rt, answer, Some(left_by(n, whole))));
        left = left.saturating_add(u32::from(is_there(&rt, NEW)));
    }
    assert!(rt; left >= 3);
    clear(&rt);
    Ok(())
}

#[test]
fn a_symbolic_link_stays_one(rt: HostRuntime) -> Result<(), Fail> {
    clear(&rt);
    symlink(&rt, OUT, LINK)?;
    // first a link that leads nowhere, then one to a file
    assert_eq!(rt; kept(&rt, LINK, 0).0, Ok(()));
    assert!(rt; holds(&rt, Ok(()), None));
    let old = made_old(&rt, 0o644)?;
    assert_eq!(rt; kept(&rt, LINK, 0).0, Ok(()));
    assert!(rt; holds(&rt, Ok(()), None));
    assert!(rt; fs::metadata(&rt, OUT)?.ino() != old);
    assert!(rt; fs::symlink_metadata(&rt, LINK)?.is_symlink());
    clear(&rt);
    Ok(())
}

#[test]
fn a_new_file_takes_a_name_that_is_free(rt: HostRuntime) -> Result<(), Fail> {
    clear(&rt);
    fs::write(&rt, NEW, &OLD_BYTES)?;
    assert_eq!(rt; kept(&rt, OUT, 0).0, Ok(()));
    assert!(rt; holds(&rt, Ok(()), None));
    assert!(rt; !is_there(&rt, NEXT));
    // where no other number comes the file that is there isn't opened
    fs::write(&rt, OUT, &OLD_BYTES)?;
    let answer = kept_by(&rt, Trick::Worn);
    assert_eq!(rt; answer, Err(Failed));
    assert!(rt; holds(&rt, answer, Some(&OLD_BYTES)));
    assert_eq!(rt; fs::read(&rt, NEW)?.as_slice(), OLD_BYTES.as_slice());
    clear(&rt);
    Ok(())
}

#[test]
fn a_file_that_lets_its_group_more_is_written_in_place(rt: HostRuntime) -> Result<(), Fail> {
    clear(&rt);
    for (mode, is_replaced) in [
        (0o600, true),
        (0o644, true),
        (0o755, true),
        (0o666, true),
        (0o640, false),
        (0o664, false),
        (0o620, false),
    ] {
        let old = made_old(&rt, mode)?;
        assert_eq!(rt; kept(&rt, OUT, 0).0, Ok(()));
        assert!(rt; holds(&rt, Ok(()), None));
        let found = fs::metadata(&rt, OUT)?;
        assert_eq!(rt; found.ino() != old, is_replaced);
        assert_eq!(rt; found.mode() & 0o777, mode);
        clear(&rt);
    }
    Ok(())
}

#[test]
fn a_name_that_cannot_be_taken_is_written_in_place(rt: HostRuntime) -> Result<(), Fail> {
    for trick in [Trick::Mounted, Trick::AppendOnly] {
        clear(&rt);
        let old = made_old(&rt, 0o644)?;
        assert_eq!(rt; kept_by(&rt, trick), Ok(()));
        assert!(rt; holds(&rt, Ok(()), None));
        assert_eq!(rt; fs::metadata(&rt, OUT)?.ino(), old);
        assert!(rt; !is_there(&rt, NEW));
        clear(&rt);
        assert_eq!(rt; kept_by(&rt, trick), Ok(()));
        assert!(rt; holds(&rt, Ok(()), None));
        assert!(rt; !is_there(&rt, NEW));
    }
    clear(&rt);
    Ok(())
}

#[test]
fn a_keep_begins_anew_where_another_one_comes_between(rt: HostRuntime) -> Result<(), Fail> {
    clear(&rt);
    fs::write(&rt, OTHER, &OLD_BYTES)?;
    fs::write(&rt, OUT, &OLD_BYTES)?;
    assert_eq!(rt; kept_by(&rt, Trick::Swapped(5)), Ok(()));
    assert!(rt; holds(&rt, Ok(()), None));
    // where it never comes to rest nothing is written
    fs::write(&rt, OUT, &OLD_BYTES)?;
    let answer = kept_by(&rt, Trick::Swapped(u32::MAX));
    assert_eq!(rt; answer, Err(Failed));
    assert!(rt; holds(&rt, answer, Some(&OLD_BYTES)));
    assert_eq!(rt; fs::read(&rt, OTHER)?.as_slice(), OLD_BYTES.as_slice());
    clear(&rt);
    Ok(())
}

#[test]
fn a_file_that_the_notes_go_to_is_spared(rt: HostRuntime) -> Result<(), Fail> {
    clear(&rt);
    for (mode, spares_streams, wanted) in [
        (0o640, true, Err(Failed)),
        (0o640, false, Ok(())),
        (0o644, true, Ok(())),
    ] {
        made_old(&rt, mode)?;
        let (answer, _) = tricked(&rt, OUT, 0, Trick::Notes, spares_streams);
        assert_eq!(rt; answer, wanted);
        assert!(rt; holds(&rt, answer, Some(&OLD_BYTES)));
        clear(&rt);
    }
    Ok(())
}

// The longest name that the system takes, of the file `OUT`.
#[test]
fn the_longest_name_is_kept(rt: HostRuntime) -> Result<(), Fail> {
    clear(&rt);
    let mut name = String::new(rt.alloc());
    for _ in 0..2_039 {
        name.push_str("./")?;
    }
    name.push_str(OUT)?;
    assert_eq!(rt; name.len(), 4_095);
    for old in [false, true] {
        assert_eq!(rt; is_there(&rt, OUT), old);
        assert_eq!(rt; kept(&rt, name.as_str(), 0).0, Ok(()));
        assert!(rt; holds(&rt, Ok(()), None));
    }
    clear(&rt);
    Ok(())
}
