//! A depot in memory, whose calls fail by a list of numbers.
ghost use Rattle.std.specs.Prelude.{◌≡◌, ℕ, ◌⊎◌, ◌↔◌, ◌-◌, ◌≤◌, ◌<◌, Option, Some, None, length, min, Contains, IfOk, OnOk, OnErr, IsErr, IsErrOf, IsTrue, IsSomeAnd, if◌then◌else◌, is_err, option_map, ⊤};
ghost use Rattle.std.specs.FinMap as finite;
ghost use Rattle.vox_depot.specs.Causes.{Rose, next_count, is_failed, IsEarly};
ghost use Rattle.vox_depot.specs.Memory.{files_of};
ghost use Rattle.vox_depot.specs.Files.{IfTold, IsPiece, content};

use crate::depot::{Depot, FetchFault, StoreFault};
use std::alloc::{AllocError, Global};
use std::collections::BTreeMap;
use std::marker::Model;
use vox_geom::Memory;

/// Files in memory, visible to contracts. The calls of `fetch` and `store` are numbered together from 0, and those whose number is
/// in its list fail. Each name is granted.
#[derive(Drop)]
pub struct MemoryDepot {
    alloc: Global,
    files: BTreeMap<String, Vec<u8>>,
    fails: Vec<u64>,
    calls: u64,
    faults: u64,
    failed_stores: u64,
    starved: u64,
}

impl Model for MemoryDepot {
    ghost use Rattle.std.specs.Prelude.{◌≤◌};
    ghost use Rattle.vox_depot.specs.Memory.{MemoryFiles, memory_files_code, files_of};

    ghost Value = { MemoryFiles };

    ghost coded = { memory_files_code };

    ghost view = { λ d. record {
      files = files_of d.files;
      fails = d.fails.items;
      calls = d.calls;
      faults = d.faults;
      failed_stores = d.failed_stores;
      starved = d.starved;
    } };

    ghost invariant = { λ d. d.starved ≤ d.calls };
}

/// Copies the bytes from an offset on into the front of the buffer, as many as exist and fit.
pub fn copy_piece(bytes: &[u8], from: u64, buf: &mut [u8]) -> usize
    ensures count { result ≡ min (length buf.new) (length bytes.now - from) }
    ensures piece { IsPiece bytes.now from result buf.new }
{
    if from >= bytes.len() as u64 {
        return 0;
    }
    let rest = &bytes[from as usize..];
    let count = rest.len().min(buf.len());
    buf[..count].copy_from_slice(&rest[..count]);
    count
}

// Returns the file of this name.
fn find<'a>(files: &'a BTreeMap<String, Vec<u8>>, name: &str) -> Option<&'a [u8]>
    ensures { option_map (λ x. x.now) result ≡ content (files_of files.now) name.now }
{
    match files.get(name) {
        Some(bytes) => Some(bytes.as_slice()),
        None => None,
    }
}

// Puts a file into the map.
fn put(
    alloc: Global,
    files: &mut BTreeMap<String, Vec<u8>>,
    name: &str,
    bytes: &[u8],
) -> Result<(), AllocError>
    ensures ok { OnOk result (files_of files.new
        ≡ finite.insert (files_of files.old) name.now bytes.now) }
    ensures err { OnErr result (files_of files.new ≡ files_of files.old) }
{
    let key = String::from_str(alloc, name)?;
    let value = bytes.to_vec(alloc)?;
    files.insert(key, value)?;
    Ok(())
}

impl MemoryDepot {
    /// Returns a depot without files. The calls with these numbers fail.
    pub fn new(alloc: Global, fails: Vec<u64>) -> MemoryDepot
        ensures files { result.files ≡ finite.empty }
        ensures fails { result.fails ≡ fails.items }
        ensures calls { result.calls ≡ 0 }
        ensures faults { result.faults ≡ 0 }
        ensures failed_stores { result.failed_stores ≡ 0 }
        ensures starved { result.starved ≡ 0 }
    {
        MemoryDepot {
            alloc,
            files: BTreeMap::new(alloc),
            fails,
            calls: 0,
            faults: 0,
            failed_stores: 0,
            starved: 0,
        }
    }

    /// Makes these bytes the file of that name. The call is not numbered.
    pub fn put_file(&mut self, name: &str, bytes: &[u8]) -> Result<(), Memory>
        ensures ok { OnOk result (self.new
            ≡ record self.old { files = finite.insert self.old.files name.now bytes.now }) }
        ensures err { OnErr result (self.new ≡ self.old) }
    {
        match put(self.alloc, &mut self.files, name, bytes) {
            Ok(()) => Ok(()),
            Err(AllocError) => Err(Memory),
        }
    }

    /// Returns the file of that name.
    pub fn file(&self, name: &str) -> Option<&[u8]>
        ensures { option_map (λ x. x.now) result ≡ content self.now.files name.now }
    {
        find(&self.files, name)
    }

    /// Returns the number of stores outside the list that ran out of memory. The count stays at the end of `u64`.
    pub fn starved(&self) -> u64
        ensures { result ≡ self.now.starved }
    {
        self.starved
    }

    // Counts the call, and returns whether it must fail.
    fn begin_call(&mut self) -> bool
        ensures later { self.old.faults ≤ self.new.faults }
        ensures rose { IsTrue result → Rose self.old.faults self.new.faults }
        ensures fails { IsTrue result ↔ Contains self.old.fails self.old.calls }
        ensures bounded { self.old.starved ≤ self.old.calls }
        ensures new { self.new ≡ record self.old {
          calls = next_count self.old.calls;
          faults = if result then next_count self.old.faults else self.old.faults;
        } }
    {
        let number = self.calls;
        self.calls = number.saturating_add(1);
        let fails = self.fails.contains(&number);
        if fails {
            self.faults = self.faults.saturating_add(1);
        }
        fails
    }
}

impl Depot for MemoryDepot {
    ghost files = { λ d. Some d.files };

    ghost faults = { λ d. d.faults };

    ghost failed_stores = { λ d. d.failed_stores };

    ghost may_fetch = { λ _. ⊤ };

    ghost may_store = { λ _. ⊤ };

    fn fetch(&mut self, name: &str, from: u64, buf: &mut [u8]) -> Result<usize, FetchFault>
        // The bytes are the file's, as many as exist and fit the buffer.
        ensures bound { IfOk result (λ n. n ≤ length buf.new) }
        ensures piece { IfOk result (λ n. IfTold (Some self.old.files) name.now
            (λ bytes. IsPiece bytes from n buf.new)) }
        ensures count { IfOk result (λ n. IsSomeAnd (content self.old.files name.now)
            (λ bytes. n ≡ min (length buf.new) (length bytes - from))) }

        // It fails exactly by its number, and otherwise misses exactly an absent file.
        ensures fails_exactly { IsErrOf result FetchFault.Failed ↔ Contains self.old.fails self.old.calls }
        ensures missing { IsErrOf result FetchFault.Missing → content self.old.files name.now ≡ None }
        ensures misses { (Contains self.old.fails self.old.calls → ⊥) → content self.old.files name.now ≡ None
            → IsErrOf result FetchFault.Missing }

        // The files stay, and only a fault is counted.
        ensures files { self.new.files ≡ self.old.files }
        ensures fails { self.new.fails ≡ self.old.fails }
        ensures calls { self.new.calls ≡ next_count self.old.calls }
        ensures faults { self.new.faults
            ≡ (if is_failed result then next_count self.old.faults else self.old.faults) }
        ensures stores { self.new.failed_stores ≡ self.old.failed_stores }
        ensures starved { self.new.starved ≡ self.old.starved }
        ensures failed { IsErrOf result FetchFault.Failed → Rose self.old.faults self.new.faults }
        ensures later { self.old.faults ≤ self.new.faults }
    {
        if self.begin_call() {
            return Err(FetchFault::Failed);
        }
        match find(&self.files, name) {
            Some(bytes) => Ok(copy_piece(bytes, from, buf)),
            None => Err(FetchFault::Missing),
        }
    }

    fn store(&mut self, name: &str, bytes: &[u8]) -> Result<(), StoreFault>
        ensures ok { OnOk result (self.new.files ≡ finite.insert self.old.files name.now bytes.now) }
        ensures err { OnErr result (self.new.files ≡ self.old.files) }

        // It fails exactly by its number or out of memory, which is counted outside the list alone.
        ensures fails_exactly { IsEarly self.old.calls → (IsErr result
            ↔ (Contains self.old.fails self.old.calls ⊎ (self.old.starved < self.new.starved))) }
        ensures listed { Contains self.old.fails self.old.calls → IsErr result }
        ensures cause { OnErr result (Contains self.old.fails self.old.calls
            ⊎ (self.new.starved ≡ next_count self.old.starved)) }
        ensures starved_listed { Contains self.old.fails self.old.calls → self.new.starved ≡ self.old.starved }
        ensures starved_ok { OnOk result (self.new.starved ≡ self.old.starved) }

        // Only a fault is counted.
        ensures fails { self.new.fails ≡ self.old.fails }
        ensures calls { self.new.calls ≡ next_count self.old.calls }
        ensures faults { self.new.faults
            ≡ (if is_err result then next_count self.old.faults else self.old.faults) }
        ensures failed_stores { self.new.failed_stores
            ≡ (if is_err result then next_count self.old.failed_stores else self.old.failed_stores) }
        ensures failed { OnErr result (Rose self.old.faults self.new.faults) }
        ensures lost { OnErr result (Rose self.old.failed_stores self.new.failed_stores) }
        ensures later { self.old.faults ≤ self.new.faults }
        ensures stores { self.old.failed_stores ≤ self.new.failed_stores }
    {
        if self.begin_call() {
            self.failed_stores = self.failed_stores.saturating_add(1);
            return Err(StoreFault);
        }
        if put(self.alloc, &mut self.files, name, bytes).is_err() {
            self.faults = self.faults.saturating_add(1);
            self.failed_stores = self.failed_stores.saturating_add(1);
            self.starved = self.starved.saturating_add(1);
            return Err(StoreFault);
        }
        Ok(())
    }
}
