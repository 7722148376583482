// How a file is kept on a file system. A keep makes these calls, in this order. Those by a name may meet another file
// than the call before, which somebody has put there; those by a descriptor can't.
//
// 1. OUT is opened for writing. The system follows its links, and knows whose it follows in a shared folder. What is
//    asked of the file, and what is written in place, goes by this descriptor.
// 2. `place_of` follows the links again, to the name that is to be replaced, and sees that it is a name of that very
//    file; else the keep begins anew. Whoever changes it later may write its folder, and so could replace OUT himself.
// 3. The folder is opened. What is asked of it, and its storing, goes by this descriptor.
// 4. The new file is made under a name that was drawn, and that nothing has: so nothing that is there is opened, and no
//    link followed. Its owner, group, mode, bytes and storing go by its descriptor: whatever takes its name gets none
//    of them.
// 5. It is renamed, and replaces what has the name of OUT by then. A rename follows no link. Whoever has put another
//    file under the new name may write the folder, and so could put that file under the name of OUT himself.
// 6. Where a call fails the name of the new file is removed, which follows no link either.
//
// So nobody gets access by a swap: none is given by a name, and a new file is given no more than its old one had. One
// who may write a folder above can move all of this to another one, and make OUT there a file of his. docs/commands.md
// says so.

use crate::Failed;
use crate::beside::{Beside, folder_of, keeps_names, new_file};
use crate::place::{Name, Place, is_stream, place_of};
use crate::replace::{NewFile, replace_for_good};
use std::fs::{Metadata, OpenFile, OpenOptions};
use std::io;
use std::io::{Error, ErrorKind, Write};
use std::os::unix::fs::MetadataExt;
use std::random::RandomSource;
use std::rt::Files;

// How often a keep begins anew where another one replaces the file meanwhile.
const MOST_TURNS: u32 = 1_000;

/// What is to be kept under which name, and whether no stream of the program may get it.
#[derive(Drop)]
pub(crate) struct Keep<'a, R> {
    pub(crate) files: &'a R,
    pub(crate) name: &'a str,
    pub(crate) bytes: &'a [u8],
    pub(crate) spares_streams: bool,
}

// The file that the name leads to, open for writing.
#[derive(Drop)]
struct Old<F> {
    file: F,
    found: Metadata,
}

impl<R: Files + RandomSource + AllocGlobal> Keep<'_, R> {
    /// Makes the file of the name these bytes. The file that has the name is replaced whole or stays as it was, unless
    /// it is one that is written in place: no regular file, one in whose folder no new file can be made or renamed, or
    /// one whose owner, group or access a new one wouldn't have.
    #[inline(never)]
    pub(crate) fn run(&self) -> io::Result<()> {
        for _ in 0..MOST_TURNS {
            if self.is_kept()? {
                return Ok(());
            }
        }
        Err(Error::from(ErrorKind::ResourceBusy))
    }

    // Whether the file was kept. It wasn't where another one took the name meanwhile.
    fn is_kept(&self) -> io::Result<bool> {
        let old = self.open_existing()?;
        let found = match &old {
            Some(old) => Some(&old.found),
            None => None,
        };
        let mut path = Name::new();
        match place_of(self.files, self.name, found, &mut path)? {
            Place::Changed => Ok(false),
            Place::Beside if self.is_replaced(path.as_str(), found)? => Ok(true),
            _ => {
                self.write_in_place(old)?;
                Ok(true)
            }
        }
    }

    // The file that is there. One that may not be written is refused, though its folder would let it be replaced.
    #[inline(never)]
    fn open_existing(&self) -> io::Result<Option<Old<R::File>>> {
        match OpenOptions::new().write(true).open(self.files, self.name) {
            Ok(file) => {
                let found = OpenFile::metadata(&file)?;
                Ok(Some(Old { file, found }))
            }
            Err(error) if error.kind() == ErrorKind::NotFound => Ok(None),
            Err(error) => Err(error),
        }
    }

    // Whether a new file has taken the name. It hasn't where it may not, and then nothing has changed.
    #[inline(never)]
    fn is_replaced(&self, out: &str, old: Option<&Metadata>) -> io::Result<bool> {
        if old.is_some_and(|old| may_give_more(old.mode())) {
            return Ok(false);
        }
        let folder = folder_of(self.files, out)?;
        if let Some(folder) = &folder
            && keeps_names(self.files, folder)?
        {
            return Ok(false);
        }
        let mut path = Name::new();
        let Some(file) = new_file(self.files, out, old.is_some(), &mut path)? else {
            return Ok(false);
        };
        let mut new = Beside::new(self.files, file, folder, path.as_str(), out);
        match new.takes_after(old) {
            Ok(true) => {}
            answer => {
                new.remove();
                return answer;
            }
        }
        match replace_for_good(&mut new, self.bytes) {
            Ok(()) => Ok(true),
            Err(Failed) if new.is_refused() => Ok(false),
            Err(Failed) => Err(Error::from(ErrorKind::Other)),
        }
    }

    // Writes over the file where it stands, or makes it. A regular file is stored as well.
    #[inline(never)]
    fn write_in_place(&self, old: Option<Old<R::File>>) -> io::Result<()> {
        let Old { mut file, found } = match old {
            Some(old) => old,
            None => self.create()?,
        };
        if self.spares_streams && is_stream(self.files, &found) {
            return Err(Error::from(ErrorKind::ResourceBusy));
        }
        if !found.is_file() {
            return file.write_all(self.bytes);
        }
        OpenFile::set_len(&file, 0)?;
        file.write_all(self.bytes)?;
        OpenFile::sync_all(&file)
    }

    // The file of the name, made by the system where it isn't there, as behind a link that leads to no file.
    fn create(&self) -> io::Result<Old<R::File>> {
        let mut options = OpenOptions::new();
        let file = options
            .write(true)
            .create(true)
            .open(self.files, self.name)?;
        let found = OpenFile::metadata(&file)?;
        Ok(Old { file, found })
    }
}

// Whether a new file of that mode may give somebody more than the old one did. Access lists can't be seen here: with
// one the bits of the group are only the most that it gives to some, and with a default list of the folder the new file
// gives as much to others. Where all may do whatever those bits let, neither gives anyone more.
fn may_give_more(mode: u32) -> bool {
    (mode >> 3) & 7 & !mode != 0
}
