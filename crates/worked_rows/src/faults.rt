//! Calls of the outside that fail, missing files, and a trace that is too long.
ghost use Rattle.std.specs.Prelude.{◌≡◌, ◌≤◌, length, IfOk, IsErrOf, OnErr, None, ⊤};
ghost use Rattle.vox_depot.specs.Causes.{Rose};

use crate::table::{answer, depot, words};
use nanobot_app::Status;
use std::alloc::Global;
use std::process::Abort;
use std::test::Fail;
use vox_depot::{Depot, FetchFault, MemorySink, StoreFault};

/// The status and the output of a run of four steps if these calls fail.
struct Failing {
    words: &'static str,
    depot_fails: &'static [u64],
    sink_fails: &'static [u64],
    status: Status,
    printed: &'static str,
}

/// Depot calls are numbered from 0: the target, its end, the trace, its end.
const FAILING: [Failing; 7] = [
    Failing {
        words: "run - P3 B",
        depot_fails: &[0],
        sink_fails: &[],
        status: Status::Depot,
        printed: "",
    },
    Failing {
        words: "run - P3 B",
        depot_fails: &[1],
        sink_fails: &[],
        status: Status::Depot,
        printed: "",
    },
    Failing {
        words: "run - P3 B",
        depot_fails: &[2],
        sink_fails: &[],
        status: Status::Depot,
        printed: "",
    },
    Failing {
        words: "run - P3 B",
        depot_fails: &[3],
        sink_fails: &[],
        status: Status::Depot,
        printed: "",
    },
    Failing {
        words: "run - P3 B",
        depot_fails: &[4],
        sink_fails: &[],
        status: Status::Done,
        printed: "ok energy 420 steps 4\n",
    },
    Failing {
        words: "run - P3 C",
        depot_fails: &[],
        sink_fails: &[],
        status: Status::Depot,
        printed: "",
    },
    Failing {
        words: "run - P3 B",
        depot_fails: &[],
        sink_fails: &[0],
        status: Status::Sink,
        printed: "ok energy 4",
    },
];

#[test]
fn calls_that_fail(rt: HostRuntime) -> Result<(), Fail> {
    let alloc = rt.alloc();
    for case in &FAILING {
        let mut depot = depot(alloc, case.depot_fails)?;
        depot.put_file("B", &[0x14, 0x10, 0x73, 0x14, 0x0E, 0xFF])?;
        let mut out = MemorySink::new(alloc, case.sink_fails.to_vec(alloc)?);
        let words = words(alloc, case.words)?;
        let status = answer(alloc, &words, &mut depot, &mut out);
        assert_eq!(&rt; status, case.status, "at {}", case.words);
        assert_eq!(&rt; out.bytes(), case.printed.as_bytes(), "at {}", case.words);
    }
    Ok(())
}

/// A depot with no ghost files: its only model is the empty one of resolution 3, and its only trace has the byte 04, which
/// begins no command, and then 2^30 bytes FF.
#[derive(Drop)]
struct Endless;

/// The length of the trace in bytes.
const TRACE_BYTES: u64 = 1_073_741_825;

impl Depot for Endless {
    ghost files = { λ _. None };

    ghost faults = { λ _. 0 };

    ghost failed_stores = { λ _. 0 };

    ghost may_fetch = { λ _. ⊤ };

    ghost may_store = { λ _. ⊤ };

    fn fetch(&mut self, name: &str, from: u64, buf: &mut [u8]) -> Result<usize, FetchFault> {
        if name == "E3" {
            let model = [0x03u8, 0, 0, 0, 0];
            let start = from.min(5) as usize;
            let count = buf.len().min(5 - start);
            buf[..count].copy_from_slice(&model[start..start + count]);
            return Ok(count);
        }
        let left = TRACE_BYTES - from.min(TRACE_BYTES);
        let count = left.min(buf.len() as u64) as usize;
        buf[..count].fill(0xFF);
        if from == 0 && count > 0 {
            buf[0] = 0x04;
        }
        Ok(count)
    }

    fn store(&mut self, _name: &str, _bytes: &[u8]) -> Result<(), StoreFault> {
        Ok(())
    }
}

/// The same trace is too long to be printed, and is refused before its first byte is.
#[test]
fn a_trace_too_long_to_be_printed(rt: HostRuntime) -> Result<(), Fail> {
    let alloc = rt.alloc();
    let words = words(alloc, "dis B X")?;
    let mut out = MemorySink::new(alloc, Vec::new(alloc));
    let status = answer(alloc, &words, &mut Endless, &mut out);
    assert_eq!(&rt; out.bytes(), b"trace longer than 50000000\n".as_slice());
    assert_eq!(&rt; status, Status::Trace);
    Ok(())
}

#[test]
fn a_trace_of_a_byte_too_many(rt: HostRuntime) -> Result<(), Fail> {
    let alloc = rt.alloc();
    let words = words(alloc, "run E3 - B")?;
    let mut out = MemorySink::new(alloc, Vec::new(alloc));
    let status = answer(alloc, &words, &mut Endless, &mut out);
    assert_eq!(&rt; out.bytes(), b"trace longer than 1073741824\n".as_slice());
    assert_eq!(&rt; status, Status::Trace);
    Ok(())
}
