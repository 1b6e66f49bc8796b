//! The files of the system with one failing call; and stores over them.
use crate::host::{assert_file, temporary};
use std::alloc::Allocator;
use std::cell::Cell;
use std::fs::{Metadata, OpenFile, OpenOptions, Permissions};
use std::io::{ErrorKind, Read, Seek, SeekFrom, Write};
use std::os::unix::fs::PermissionsExt;
use std::process::Abort;
use std::rt::Files;
use std::test::Fail;
use std::{fs, io};
use vox_depot::{Depot, HostDepot, StoreFault};

/// Numbers calls from 0, one of which fails.
#[derive(Drop)]
struct Calls {
    count: Cell<u64>,
    fails: u64,
    kind: ErrorKind,
}

impl Calls {
    fn new(fails: u64, kind: ErrorKind) -> Calls {
        Calls {
            count: Cell::new(0),
            fails,
            kind,
        }
    }

    /// Counts one call, which fails if it has the number.
    fn begin(&self) -> io::Result<()> {
        let number = self.count.get();
        self.count.set(number.saturating_add(1));
        if number == self.fails {
            return Err(io::Error::from(self.kind));
        }
        Ok(())
    }
}

/// A file whose calls are numbered, and that takes a few bytes per call.
#[derive(Drop)]
struct FaultyFile<'a, F: Drop> {
    file: F,
    calls: &'a Calls,
}

impl<'a, F: Read + Drop> Read for FaultyFile<'a, F> {
    fn read(&mut self, buf: &mut [u8]) -> io::Result<usize> {
        self.calls.begin()?;
        self.file.read(buf)
    }
}

impl<'a, F: Write + Drop> Write for FaultyFile<'a, F> {
    fn write(&mut self, buf: &[u8]) -> io::Result<usize> {
        self.calls.begin()?;
        self.file.write(&buf[..buf.len().min(7)])
    }

    fn flush(&mut self) -> io::Result<()> {
        self.file.flush()
    }
}

impl<'a, F: Seek + Drop> Seek for FaultyFile<'a, F> {
    fn seek(&mut self, to: SeekFrom) -> io::Result<u64> {
        self.calls.begin()?;
        self.file.seek(to)
    }
}

impl<'a, F: OpenFile + Drop> OpenFile for FaultyFile<'a, F> {
    fn metadata(&self) -> io::Result<Metadata> {
        self.calls.begin()?;
        self.file.metadata()
    }

    fn set_len(&self, size: u64) -> io::Result<()> {
        self.calls.begin()?;
        self.file.set_len(size)
    }

    fn sync_all(&self) -> io::Result<()> {
        self.calls.begin()?;
        self.file.sync_all()
    }

    fn sync_data(&self) -> io::Result<()> {
        self.calls.begin()?;
        self.file.sync_data()
    }
}

/// The files of the system, with numbered calls.
#[derive(Drop)]
struct FaultyFiles<'a, R: Files> {
    rt: &'a R,
    calls: &'a Calls,
}

impl<'a, R: Files> Files for FaultyFiles<'a, R> {
    type File = FaultyFile<'a, R::File>;

    type Dir = R::Dir;

    fn open_file(&self, how: &OpenOptions, path: &str) -> io::Result<FaultyFile<'a, R::File>> {
        self.calls.begin()?;
        Ok(FaultyFile {
            file: self.rt.open_file(how, path)?,
            calls: self.calls,
        })
    }

    fn open_dir(&self, path: &str) -> io::Result<R::Dir> {
        self.rt.open_dir(path)
    }

    fn metadata(&self, path: &str) -> io::Result<Metadata> {
        self.calls.begin()?;
        self.rt.metadata(path)
    }

    fn symlink_metadata(&self, path: &str) -> io::Result<Metadata> {
        self.calls.begin()?;
        self.rt.symlink_metadata(path)
    }

    fn copy(&self, from: &str, to: &str) -> io::Result<u64> {
        self.calls.begin()?;
        self.rt.copy(from, to)
    }

    fn rename(&self, from: &str, to: &str) -> io::Result<()> {
        self.calls.begin()?;
        self.rt.rename(from, to)
    }

    fn remove_file(&self, path: &str) -> io::Result<()> {
        self.calls.begin()?;
        self.rt.remove_file(path)
    }

    fn create_dir(&self, path: &str) -> io::Result<()> {
        self.rt.create_dir(path)
    }

    fn remove_dir(&self, path: &str) -> io::Result<()> {
        self.rt.remove_dir(path)
    }

    fn remove_dir_all<B: Allocator>(&self, alloc: B, path: &str) -> io::Result<()> {
        self.rt.remove_dir_all(alloc, path)
    }

    fn set_permissions(&self, path: &str, perm: Permissions) -> io::Result<()> {
        self.calls.begin()?;
        self.rt.set_permissions(path, perm)
    }
}

const OLD: &[u8] = b"the old file";

const NEW: &[u8] = b"the new file, which is longer";

/// Stores over the old file while the call of this number fails. Afterwards the folder has one file: the whole new one if the store
/// succeeded, the whole old one otherwise. Returns whether the call occurred.
fn check_fault<R: Files + AllocGlobal + Abort>(
    rt: &R,
    folder: &str,
    name: &str,
    calls: &Calls,
) -> Result<bool, Fail> {
    fs::write(rt, name, OLD)?;
    fs::set_permissions(rt, name, Permissions::from_mode(0o640))?;
    let files = FaultyFiles { rt, calls };
    let mut depot = HostDepot::new(&files, rt.alloc());
    let answer = depot.store(name, NEW);
    assert_file(rt, name, if answer.is_ok() { NEW } else { OLD })?;
    assert_eq!(rt; fs::metadata(rt, name)?.permissions().mode() & 0o777, 0o640);
    // The other two are `.` and `..`.
    assert_eq!(rt; count_entries(rt, folder)?, 3);
    let came = calls.fails < calls.count.get();
    if calls.kind == ErrorKind::StorageFull {
        assert_eq!(rt; answer, if came { Err(StoreFault) } else { Ok(()) });
    }
    Ok(came)
}

fn count_entries<R: Files + AllocGlobal>(rt: &R, folder: &str) -> io::Result<u64> {
    let mut names = Vec::new(rt.alloc());
    rt.open_dir(folder)?.read_to_end(&mut names)?;
    Ok(names.as_slice().iter().filter(|byte| **byte == 0).count() as u64)
}

#[test]
fn a_store_that_fails_leaves_the_old_file(rt: HostRuntime) -> Result<(), Fail> {
    let folder = temporary(&rt, "faults")?;
    fs::create_dir(&rt, folder.as_str())?;
    let name = folder.join(rt.alloc(), "plan.nbt")?;
    for kind in [ErrorKind::StorageFull, ErrorKind::PermissionDenied] {
        let mut came = 0u64;
        for fails in 0..40 {
            let calls = Calls::new(fails, kind);
            if check_fault(&rt, folder.as_str(), name.as_str(), &calls)? {
                came = came.saturating_add(1);
            }
        }
        // Two status queries, two opens, five writes, the sync, the permissions and the name.
        assert_eq!(&rt; came, 12);
    }
    fs::remove_dir_all(&rt, folder.as_str())?;
    Ok(())
}
