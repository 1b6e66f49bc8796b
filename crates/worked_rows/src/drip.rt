//! Runs over a depot that returns one byte at each fetch.
ghost use Rattle.std.specs.Prelude.{◌≡◌, ℕ, ◌≤◌, Some, length, IfOk, IsErrOf, IsTrue, ⊤};
ghost use Rattle.vox_depot.specs.Causes.{Rose};
ghost use Rattle.vox_depot.specs.Files.{IfTold, IsMissing, IsPiece};

use crate::runs::{ACCEPTED, BROKEN, REFUSED};
use crate::table::{Row, answer, depot, words};
use std::alloc::Global;
use std::process::Abort;
use std::test::Fail;
use vox_depot::{Depot, FetchFault, MemoryDepot, MemorySink, StoreFault};

/// Files in memory, of which each fetch returns at most one byte.
#[derive(Drop)]
struct DripDepot {
    files: MemoryDepot,
}

impl Depot for DripDepot {
    ghost files = { λ d. Some d.files.files };

    ghost faults = { λ d. d.files.faults };

    ghost failed_stores = { λ d. d.files.failed_stores };

    ghost may_fetch = { λ _. ⊤ };

    ghost may_store = { λ _. ⊤ };

    fn fetch(&mut self, name: &str, from: u64, buf: &mut [u8]) -> Result<usize, FetchFault> {
        if buf.is_empty() {
            return self.files.fetch(name, from, buf);
        }
        self.files.fetch(name, from, &mut buf[..1])
    }

    fn store(&mut self, name: &str, bytes: &[u8]) -> Result<(), StoreFault> {
        self.files.store(name, bytes)
    }
}

/// Asserts that each row has its status and prints its line.
fn assert_rows(rt: &impl Abort, alloc: Global, rows: &[Row]) -> Result<(), Fail> {
    for (line, bytes, status, printed) in rows {
        let words = words(alloc, line)?;
        let mut files = depot(alloc, &[])?;
        files.put_file("B", bytes)?;
        let mut depot = DripDepot { files };
        let mut out = MemorySink::new(alloc, Vec::new(alloc));
        let answered = answer(alloc, &words, &mut depot, &mut out);
        assert_eq!(rt; out.bytes(), printed.as_bytes(), "at {}", line);
        assert_eq!(rt; answered, *status, "at {}", line);
    }
    Ok(())
}

#[test]
fn runs_are_judged_byte_by_byte(rt: HostRuntime) -> Result<(), Fail> {
    assert_rows(&rt, rt.alloc(), &ACCEPTED)
}

#[test]
fn broken_runs_are_judged_byte_by_byte(rt: HostRuntime) -> Result<(), Fail> {
    assert_rows(&rt, rt.alloc(), &BROKEN)
}

#[test]
fn faulty_traces_are_refused_byte_by_byte(rt: HostRuntime) -> Result<(), Fail> {
    assert_rows(&rt, rt.alloc(), &REFUSED)
}
