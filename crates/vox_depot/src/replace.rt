//! Writes whole files, so that a failure leaves the old file.

use std::alloc::Global;
use std::fs::{Files, Metadata, OpenFile, OpenOptions, Permissions};
use std::io::{Error, ErrorKind, Write};
use std::os::unix::fs::{MetadataExt, OpenOptionsExt, PermissionsExt, lchown};
use std::path::{Path, PathBuf};
use std::{fs, io};

/// The number of names that a temporary file can have. Killed runs may have left some of them.
const NAMES: u32 = 10_000;

/// The permissions that a new file takes over from the old one.
const PERMISSIONS: u32 = 0o777;

/// Makes these bytes the whole file of that name.
///
/// Writes a temporary file in the same folder, syncs it and renames it. So an error and a kill leave the old file whole,
/// and a reader sees the old file or the new one. A kill can leave the temporary file, `.nanobot-` and a number.
///
/// Some files can only be written in place, so that an error can leave just a prefix: those that are not regular (links, devices,
/// pipes), those with several hard links, and those that the system does not allow to be replaced, as in a folder without write
/// permission.
pub(crate) fn write_whole<R: Files>(
    rt: &R,
    alloc: Global,
    name: &str,
    bytes: &[u8],
) -> io::Result<()> {
    let old = match fs::symlink_metadata(rt, name) {
        Ok(old) => Some(old),
        Err(e) if e.kind() == ErrorKind::NotFound => None,
        Err(e) => return Err(e),
    };
    if is_replaceable(old.as_ref()) && replace(rt, alloc, name, old.as_ref(), bytes)? {
        return Ok(());
    }
    fill(fs::create(rt, name)?, bytes)
}

// Returns whether the name is the only link to the file, or is free.
fn is_replaceable(old: Option<&Metadata>) -> bool {
    match old {
        Some(old) => old.is_file() && old.nlink() < 2,
        None => true,
    }
}

// Writes all the bytes, syncs the file if it can be synced, and closes it.
fn fill<F: Write + OpenFile + Drop>(mut file: F, bytes: &[u8]) -> io::Result<()> {
    file.write_all(bytes)?;
    match file.sync_all() {
        Err(e) if matches!(e.kind(), ErrorKind::InvalidInput | ErrorKind::Unsupported) => Ok(()),
        synced => synced,
    }
}

// Replaces the file, or leaves it as it is: with `false` if the system does not allow a new one.
fn replace<R: Files>(
    rt: &R,
    alloc: Global,
    name: &str,
    old: Option<&Metadata>,
    bytes: &[u8],
) -> io::Result<bool> {
    if old.is_some() {
        // A file without write permission is not replaced.
        OpenOptions::new().write(true).open(rt, name)?;
    }
    let (path, file) = match create_beside(rt, alloc, name, old.is_some()) {
        Ok(created) => created,
        Err(e) => return if_allowed(Err(e)),
    };
    let temporary = path.as_str();
    let replaced = match fill(file, bytes) {
        Ok(()) => if_allowed(publish(rt, temporary, name, old, bytes.len() as u64)),
        Err(e) => Err(e),
    };
    if !matches!(replaced, Ok(true)) {
        let _ = fs::remove_file(rt, temporary);
    }
    replaced
}

// Creates a temporary file in the folder of that name, which no other store uses.
fn create_beside<R: Files>(
    rt: &R,
    alloc: Global,
    name: &str,
    is_private: bool,
) -> io::Result<(PathBuf, R::File)> {
    let mut options = OpenOptions::new();
    options.write(true).create_new(true);
    if is_private {
        options.mode(0o600);
    }
    for number in 0..NAMES {
        let temporary = format!(in alloc; ".nanobot-{number}")?;
        let path = Path::new(name).with_file_name(alloc, temporary.as_str())?;
        match options.open(rt, path.as_str()) {
            Err(e) if e.kind() == ErrorKind::AlreadyExists => {}
            opened => return Ok((path, opened?)),
        }
    }
    Err(Error::from(ErrorKind::AlreadyExists))
}

// Returns `false` if the system does not allow the operation, as for files of others and mounted files.
fn if_allowed(done: io::Result<()>) -> io::Result<bool> {
    match done {
        Ok(()) => Ok(true),
        Err(e) => match e.kind() {
            ErrorKind::PermissionDenied
            | ErrorKind::ReadOnlyFilesystem
            | ErrorKind::ResourceBusy
            | ErrorKind::InvalidInput
            | ErrorKind::InvalidFilename => Ok(false),
            _ => Err(e),
        },
    }
}

// Gives the temporary file the owner and the permissions of the old file, and then its name.
fn publish<R: Files>(
    rt: &R,
    temporary: &str,
    name: &str,
    old: Option<&Metadata>,
    length: u64,
) -> io::Result<()> {
    let new = fs::symlink_metadata(rt, temporary)?;
    if new.len() != length {
        // Some systems write as the file is closed, and no call reports that it failed.
        return Err(Error::from(ErrorKind::WriteZero));
    }
    if let Some(old) = old {
        if new.uid() != old.uid() || new.gid() != old.gid() {
            lchown(rt, temporary, Some(old.uid()), Some(old.gid()))?;
        }
        if new.mode() != old.mode() {
            let permissions = Permissions::from_mode(old.mode() & PERMISSIONS);
            fs::set_permissions(rt, temporary, permissions)?;
        }
    }
    fs::rename(rt, temporary, name)
}
