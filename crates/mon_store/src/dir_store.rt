//! Real files.

ghost use Rattle.std.specs.Prelude.{◌≡◌, ◌≢◌, ◌≤◌, [], None, IsErrOf};
ghost use Rattle.mon_store.specs.Store.{Caused, one_more};

use crate::store::{Store, StoreFault};
use mon_base::Bytes;
use std::fs::File;
use std::io::{Error, ErrorKind, Read, Seek, SeekFrom};
use std::marker::Model;
use std::path::Path;
use std::rt::Files;
use std::{fs, io};

/// Real files, named by their paths. It does not tell what they hold. A name that is no UTF-8 text fails as a fault.
///
/// A file that is read piece by piece stays open up to its end: its pieces are those of one file, though another comes to have its
/// name meanwhile.
#[derive(Drop)]
pub struct DirStore<'a, R: Files + AllocGlobal> {
    rt: &'a R,
    open: Option<Opened<R::File>>,
    faults: u64,
    last: Bytes,
}

/// A file that is open, and the position up to which it was read.
#[derive(Drop)]
struct Opened<F: Drop> {
    name: Bytes,
    file: F,
    at: u64,
}

impl<'a, R: Files + AllocGlobal> Model for DirStore<'a, R> {
    ghost use Rattle.mon_store.specs.Store.{Counts};

    ghost Value = { Counts };

    ghost view = { λ s. record { faults = s.faults; last = s.last } };
}

impl<'a, R: Files + AllocGlobal> DirStore<'a, R> {
    /// The files that this runtime reaches. It takes no memory.
    pub fn new(rt: &'a R) -> DirStore<'a, R>
        ensures { result ≡ record { faults = 0; last = [] } }
    {
        DirStore {
            rt,
            open: None,
            faults: 0,
            last: Bytes::new(rt.alloc()),
        }
    }

    /// The file from this position on: the one that is open, where it was read up to there.
    fn opened(&mut self, name: &Bytes, at: u64) -> Result<Opened<R::File>, StoreFault>
        ensures faults { self.old.faults ≤ self.new.faults }
        ensures failed { IsErrOf result StoreFault.Failed → Caused self.old.faults self.new.faults self.new.last name.now }
        ensures absent { IsErrOf result StoreFault.Absent → Caused self.old.faults self.new.faults self.new.last name.now }
    {
        if let Some(opened) = self.open.take() {
            if opened.at == at && opened.name.as_slice() == name.as_slice() {
                return Ok(opened);
            }
        }
        let copy = name.copy(self.rt.alloc())?;
        match open_at(self.rt, name, at) {
            Ok(file) => Ok(Opened {
                name: copy,
                file,
                at,
            }),
            Err(error) => Err(self.count(name, error)),
        }
    }

    /// Counts a fault of a call with this name. Without memory for the name nothing is counted.
    fn count(&mut self, name: &Bytes, error: Error) -> StoreFault
        ensures memory { result ≡ StoreFault.Memory → self.new ≡ self.old }
        ensures counted { result ≢ StoreFault.Memory →
            self.new ≡ record { faults = one_more self.old.faults; last = name.now } }
        ensures faults { self.old.faults ≤ self.new.faults }
    {
        let Ok(last) = name.copy(self.rt.alloc()) else {
            return StoreFault::Memory;
        };
        self.last = last;
        self.faults = self.faults.saturating_add(1);
        match error.kind() {
            ErrorKind::NotFound => StoreFault::Absent,
            _ => StoreFault::Failed,
        }
    }
}

/// The name as a path.
fn path_of(name: &Bytes) -> io::Result<&str> {
    std::str::from_utf8(name.as_slice()).map_err(|_| Error::from(ErrorKind::InvalidInput))
}

/// The length of the file, in bytes.
fn size_of<R: Files>(rt: &R, name: &Bytes) -> io::Result<u64> {
    let path = path_of(name)?;
    let data = fs::metadata(rt, path)?;
    Ok(data.len())
}

/// The file, from this position on.
fn open_at<R: Files>(rt: &R, name: &Bytes, at: u64) -> io::Result<R::File> {
    let path = path_of(name)?;
    let mut file = File::open(rt, path)?;
    file.seek(SeekFrom::Start(at))?;
    Ok(file)
}

/// Makes the folders that the path names, and the file with these bytes.
fn write_whole<R: Files>(rt: &R, name: &Bytes, bytes: &[u8]) -> io::Result<()> {
    let path = path_of(name)?;
    let path = Path::new(path);
    if let Some(folder) = path.parent() {
        fs::create_dir_all(rt, folder)?;
    }
    fs::write(rt, path, bytes)
}

impl<'a, R: Files + AllocGlobal> Store for DirStore<'a, R> {
    ghost files = { λ _. None };

    ghost faults = { λ s. s.faults };

    ghost last = { λ s. s.last };

    fn size(&mut self, name: &Bytes) -> Result<u64, StoreFault> {
        match size_of(self.rt, name) {
            Ok(size) => Ok(size),
            Err(error) => Err(self.count(name, error)),
        }
    }

    fn read(&mut self, name: &Bytes, at: u64, into: &mut [u8]) -> Result<usize, StoreFault> {
        let mut opened = self.opened(name, at)?;
        match opened.file.read(into) {
            Ok(0) => Ok(0),
            Ok(count) => {
                opened.at = at.saturating_add(count as u64);
                self.open = Some(opened);
                Ok(count)
            }
            Err(error) => Err(self.count(name, error)),
        }
    }

    fn write(&mut self, name: &Bytes, bytes: &[u8]) -> Result<(), StoreFault> {
        match write_whole(self.rt, name, bytes) {
            Ok(()) => Ok(()),
            Err(error) => Err(self.count(name, error)),
        }
    }
}
