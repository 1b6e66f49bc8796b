//! The files of the system as a depot.
ghost use Rattle.std.specs.Prelude.{◌≡◌, ◌≢◌, ◌+◌, ◌-◌, ◌^◌, ◌≤◌, ◌<◌, min, length, take, IfOk, IfErr, OnErr, IsErrOf, None, ⊤, if◌then◌else◌, is_err};
ghost use Rattle.std.specs.Io.KnownBytes.{Consumes, IsAtEnd};
ghost use Rattle.std.specs.IoError.{error_kind};
ghost use Rattle.vox_depot.specs.Causes.{Rose, next_count, is_failed};

use crate::depot::{Depot, FetchFault, StoreFault};
use crate::replace::write_whole;
use std::alloc::Global;
use std::fs::{Files, OpenFile};
use std::io::{ErrorKind, Read, Seek, SeekFrom};
use std::marker::Model;
use std::{fs, io};

/// An open file.
#[derive(Drop)]
struct Opened<F: Drop> {
    name: String,
    file: F,
    /// Its length when it was opened.
    length: u64,
    /// The offset of its next read.
    at: u64,
}

/// The files of the system, by their paths. Their content is not visible to contracts, and each name is granted. A fetch from the
/// start reopens the file, which stays open as long as each fetch continues at the end of the last. A file that has become shorter
/// since then fails at its new end; other external changes go unnoticed. Contracts see the number of failures and of failed stores:
/// out of memory counts, and so does a missing file.
/// A store that fails leaves the old file, unless the file can only be written in place (`write_whole`).
#[derive(Drop)]
pub struct HostDepot<'a, R: Files> {
    rt: &'a R,
    alloc: Global,
    last: Option<Opened<R::File>>,
    faults: u64,
    failed_stores: u64,
}

impl<'a, R: Files> Model for HostDepot<'a, R> {
    ghost use Rattle.vox_depot.specs.Causes.{DepotFaults, depot_faults_code};

    ghost Value = { DepotFaults };

    ghost coded = { depot_faults_code };

    ghost view = { λ d. record { faults = d.faults; failed_stores = d.failed_stores } };
}

impl<'a, R: Files> HostDepot<'a, R> {
    /// Returns a depot over the files of the system, without failures.
    pub fn new(rt: &'a R, alloc: Global) -> HostDepot<'a, R>
        ensures { result ≡ record { faults = 0; failed_stores = 0 } }
    {
        HostDepot {
            rt,
            alloc,
            last: None,
            faults: 0,
            failed_stores: 0,
        }
    }
}

// Reads once, again if a signal interrupts it.
fn read_once<F: Read>(file: &mut F, buf: &mut [u8]) -> io::Result<usize>
    ensures bound { IfOk result (λ n. n ≤ length buf.new) }
    ensures bytes { IfOk result (λ n.
        Consumes (F.remaining file.old) (F.remaining file.new) (take n buf.new)) }
    ensures end { IfOk result (λ n. n ≡ 0 → 0 < length buf.new → IsAtEnd (F.remaining file.new)) }
    ensures retried { IfErr result (λ e. error_kind e ≢ ErrorKind.Interrupted) }
{
    'turns: for _ in 0..u64::MAX {
        match file.read(buf) {
            Ok(count) => return Ok(count),
            Err(e) if e.kind() == ErrorKind::Interrupted => {}
            Err(e) => return Err(e),
        }
    }
    Err(io::Error::from(ErrorKind::TimedOut))
}

impl<F: Read + Drop> Opened<F> {
    // Continues reading at the end of the last read. Ends only at the length that the file had when it was opened, or later.
    fn read_on(&mut self, buf: &mut [u8]) -> io::Result<usize>
        ensures bound { IfOk result (λ n. n ≤ length buf.new) }
        ensures bytes { IfOk result (λ n.
            Consumes (F.remaining self.old.file) (F.remaining self.new.file) (take n buf.new)) }
        ensures at { IfOk result (λ n. self.new.at ≡ min (self.old.at + n) (2 ^ 64 - 1)) }
        ensures shrunk { IfOk result (λ n. n ≡ 0 → 0 < length buf.new → self.old.length ≤ self.old.at) }
    {
        let count = read_once(&mut self.file, buf)?;
        if count == 0 && !buf.is_empty() && self.at < self.length {
            return Err(io::Error::from(ErrorKind::UnexpectedEof));
        }
        self.at = self.at.saturating_add(count as u64);
        Ok(count)
    }
}

// Opens the file for reading from `from` on.
fn open_at<R: Files>(rt: &R, alloc: Global, name: &str, from: u64) -> io::Result<Opened<R::File>> {
    let mut file = fs::open(rt, name)?;
    let length = file.metadata()?.len();
    if from > 0 {
        file.seek(SeekFrom::Start(from))?;
    }
    Ok(Opened {
        name: String::from_str(alloc, name)?,
        file,
        length,
        at: from,
    })
}

impl<'a, R: Files> HostDepot<'a, R> {
    fn read_at(&mut self, name: &str, from: u64, buf: &mut [u8]) -> io::Result<usize>
        ensures bound { IfOk result (λ n. n ≤ length buf.new) }
        ensures faults { self.new ≡ self.old }
    {
        let mut opened = match self.last.take() {
            Some(last) if from > 0 && last.at == from && last.name.as_str() == name => last,
            _ => open_at(self.rt, self.alloc, name, from)?,
        };
        let count = opened.read_on(buf)?;
        self.last = Some(opened);
        Ok(count)
    }
}

impl<'a, R: Files> Depot for HostDepot<'a, R> {
    ghost files = { λ _. None };

    ghost faults = { λ d. d.faults };

    ghost failed_stores = { λ d. d.failed_stores };

    ghost may_fetch = { λ _. ⊤ };

    ghost may_store = { λ _. ⊤ };

    fn fetch(&mut self, name: &str, from: u64, buf: &mut [u8]) -> Result<usize, FetchFault>
        ensures bound { IfOk result (λ n. n ≤ length buf.new) }
        ensures never_missing { IsErrOf result FetchFault.Missing → ⊥ }
        ensures failed { IsErrOf result FetchFault.Failed → Rose self.old.faults self.new.faults }
        ensures later { self.old.faults ≤ self.new.faults }
        ensures stores { self.new.failed_stores ≡ self.old.failed_stores }
        ensures faults { self.new.faults ≡ (if is_failed result then next_count self.old.faults else self.old.faults) }
    {
        match self.read_at(name, from, buf) {
            Ok(count) => Ok(count),
            Err(_) => {
                self.faults = self.faults.saturating_add(1);
                Err(FetchFault::Failed)
            }
        }
    }

    fn store(&mut self, name: &str, bytes: &[u8]) -> Result<(), StoreFault>
        ensures failed { OnErr result (Rose self.old.faults self.new.faults) }
        ensures lost { OnErr result (Rose self.old.failed_stores self.new.failed_stores) }
        ensures later { self.old.faults ≤ self.new.faults }
        ensures stores { self.old.failed_stores ≤ self.new.failed_stores }
        ensures faults { self.new.faults ≡ (if is_err result then next_count self.old.faults else self.old.faults) }
        ensures failed_stores { self.new.failed_stores
            ≡ (if is_err result then next_count self.old.failed_stores else self.old.failed_stores) }
    {
        // The open file may be this one.
        self.last = None;
        if write_whole(self.rt, self.alloc, name, bytes).is_err() {
            self.faults = self.faults.saturating_add(1);
            self.failed_stores = self.failed_stores.saturating_add(1);
            return Err(StoreFault);
        }
        Ok(())
    }
}
