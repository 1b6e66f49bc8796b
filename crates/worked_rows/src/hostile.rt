//! Fails every call that can fail, one after another, and cuts files short, for each command.
use crate::table::{FILES, answer, depot, words};
use nanobot_app::Status;
use std::alloc::Global;
use std::process::Abort;
use std::test::Fail;
use vox_depot::{MemoryDepot, MemorySink};

/// A command of each kind, over the files of the table, a trace `B`, a text `T` and a script `S`; the stored file is `C`.
const ROWS: [&str; 15] = [
    "run - P3 B",
    "run light - P3 B",
    "check P3",
    "asm T C",
    "dis B C",
    "make 0 4 C",
    "plan layer P3 P3 C",
    "plan layer - P3 C",
    "plan group - P3 C",
    "plan crew - P3 C",
    "plan void P3 - C",
    "plan low - P3 C",
    "plan swarm - P3 C",
    "exercise 1 4",
    "debug E3 B S",
];

/// Two bots that part, fill a line together, and fuse.
const TRACE: &[u8] = &[
    0x75, 0x00, 0xFE, 0x34, 0x11, 0xB9, 0x1E, 0x1E, 0x20, 0xB1, 0x1E, 0x1E, 0x1C, 0xFE, 0x34, 0x0D,
    0x77, 0x66, 0xFF,
];

/// The files in addition to those of the table.
const OTHERS: [(&str, &[u8]); 3] = [
    ("B", &[0x14, 0x10, 0x73, 0x14, 0x0E, 0xFF]),
    ("T", b"Fill <0,0,1>\n"),
    ("S", b"step\nstep\nback\nbots\nvoxel 1 0 1\n"),
];

/// Returns the depot of the rows, whose calls of these numbers fail.
fn files(alloc: Global, fails: &[u64]) -> Result<MemoryDepot, Fail> {
    let mut depot = depot(alloc, fails)?;
    for (name, bytes) in &OTHERS {
        depot.put_file(name, bytes)?;
    }
    Ok(depot)
}

/// Asserts that no file but `C` has changed.
fn assert_spared(rt: &impl Abort, depot: &MemoryDepot, line: &str) -> Result<(), Fail> {
    for (name, bytes) in FILES.iter().chain(&OTHERS) {
        assert!(rt;
            depot.file(name).is_some_and(|now| now == *bytes),
            "{} at {}",
            name,
            line
        );
    }
    Ok(())
}

/// The outcome of a command if a call of the depot fails.
#[derive(Clone, Copy, PartialEq, Eq)]
enum Without {
    /// It succeeds: there was no such call.
    Done,
    /// It returns 5, writes nothing, and leaves the file `C` missing.
    Spared,
    /// It returns 5, writes nothing, and the file `C` exists: the store failed.
    Stored,
}

/// Returns the outcome of a command if the depot's call of this number fails.
fn answer_without(rt: &impl Abort, alloc: Global, line: &str, call: u64) -> Result<Without, Fail> {
    let words = words(alloc, line)?;
    let mut depot = files(alloc, &[call])?;
    let mut out = MemorySink::new(alloc, Vec::new(alloc));
    let answered = answer(alloc, &words, &mut depot, &mut out);
    assert_spared(rt, &depot, line)?;
    if answered == Status::Depot {
        assert!(rt; out.bytes().is_empty(), "call {} at {}", call, line);
        let stored = depot.file("C").is_some();
        return Ok(if stored {
            Without::Stored
        } else {
            Without::Spared
        });
    }
    assert_eq!(rt; answered, Status::Done, "call {} at {}", call, line);
    Ok(Without::Done)
}

/// Fails each call on the depot, one after another. Only if the last one fails, the store, may the file be another.
#[test]
fn each_call_on_the_depot_fails_in_turn(rt: HostRuntime) -> Result<(), Fail> {
    for line in &ROWS {
        let mut last = Without::Spared;
        for call in 0..16 {
            if last != Without::Done {
                let now = answer_without(&rt, rt.alloc(), line, call)?;
                assert!(rt;
                    last == Without::Spared || now == Without::Done,
                    "at {}",
                    line
                );
                last = now;
            }
        }
        assert!(rt; last == Without::Done, "at {}", line);
    }
    Ok(())
}

/// Returns the output and the file `C` if these puts fail.
fn told(
    rt: &impl Abort,
    alloc: Global,
    line: &str,
    fails: &[u64],
    status: Status,
) -> Result<(Vec<u8>, Vec<u8>), Fail> {
    let words = words(alloc, line)?;
    let mut depot = files(alloc, &[])?;
    let mut out = MemorySink::new(alloc, fails.to_vec(alloc)?);
    let answered = answer(alloc, &words, &mut depot, &mut out);
    assert_eq!(rt; answered, status, "at {}", line);
    assert_spared(rt, &depot, line)?;
    let stored = depot.file("C").unwrap_or(b"");
    Ok((out.bytes().to_vec(alloc)?, stored.to_vec(alloc)?))
}

/// Commands that are refused, over the same files.
const REFUSALS: [(&str, Status); 8] = [
    ("run - TOWER B", Status::Broken),
    ("ran - P3 B", Status::Words),
    ("run P3 E4 B", Status::Model),
    ("check S", Status::Model),
    ("run - P3 T", Status::Trace),
    ("asm B C", Status::Text),
    ("debug E3 B T", Status::Text),
    ("plan low - HOOK C", Status::Unsupported),
];

/// Asserts that, if the line cannot be written, its first half is, and the file is the same as without the fault.
fn assert_line_fails(
    rt: &impl Abort,
    alloc: Global,
    line: &str,
    status: Status,
) -> Result<(), Fail> {
    let (whole, stored) = told(rt, alloc, line, &[], status)?;
    let (half, kept) = told(rt, alloc, line, &[0], Status::Sink)?;
    assert_eq!(rt; half.as_slice(), &whole[..whole.len() / 2], "at {}", line);
    assert_eq!(rt; kept.as_slice(), stored.as_slice(), "at {}", line);
    Ok(())
}

#[test]
fn each_line_fails(rt: HostRuntime) -> Result<(), Fail> {
    let alloc = rt.alloc();
    for line in &ROWS {
        assert_line_fails(&rt, alloc, line, Status::Done)?;
    }
    for (line, status) in &REFUSALS {
        assert_line_fails(&rt, alloc, line, *status)?;
    }
    Ok(())
}

/// The outcomes of the first bytes of the trace, by their number.
const CUT: [(usize, Status, &str); 19] = [
    (
        0,
        Status::Broken,
        "broken 1 TraceEnds step 1 bid 1 at 0 0 0\n",
    ),
    (1, Status::Trace, "trace cut at 0\n"),
    (
        2,
        Status::Broken,
        "broken 1 TraceEnds step 2 bid 1 at 0 0 0\n",
    ),
    (
        3,
        Status::Broken,
        "broken 1 TraceEnds step 2 bid 2 at 0 0 1\n",
    ),
    (4, Status::Trace, "trace cut at 3\n"),
    (
        5,
        Status::Broken,
        "broken 1 TraceEnds step 3 bid 1 at 0 0 0\n",
    ),
    (6, Status::Trace, "trace cut at 5\n"),
    (7, Status::Trace, "trace cut at 5\n"),
    (8, Status::Trace, "trace cut at 5\n"),
    (
        9,
        Status::Broken,
        "broken 1 TraceEnds step 3 bid 2 at 0 0 3\n",
    ),
    (10, Status::Trace, "trace cut at 9\n"),
    (11, Status::Trace, "trace cut at 9\n"),
    (12, Status::Trace, "trace cut at 9\n"),
    (
        13,
        Status::Broken,
        "broken 1 TraceEnds step 4 bid 1 at 0 0 0\n",
    ),
    (
        14,
        Status::Broken,
        "broken 1 TraceEnds step 4 bid 2 at 0 0 3\n",
    ),
    (15, Status::Trace, "trace cut at 14\n"),
    (
        16,
        Status::Broken,
        "broken 1 TraceEnds step 5 bid 1 at 0 0 0\n",
    ),
    (
        17,
        Status::Broken,
        "broken 1 TraceEnds step 5 bid 2 at 0 0 1\n",
    ),
    (
        18,
        Status::Broken,
        "broken 1 TraceEnds step 6 bid 1 at 0 0 0\n",
    ),
];

/// Asserts the answer to a command with these bytes as the file `G`.
fn assert_answer(
    rt: &impl Abort,
    alloc: Global,
    line: &str,
    bytes: &[u8],
    expected: (Status, &str),
) -> Result<(), Fail> {
    let (status, printed) = expected;
    let words = words(alloc, line)?;
    let mut depot = depot(alloc, &[])?;
    depot.put_file("G", bytes)?;
    let mut out = MemorySink::new(alloc, Vec::new(alloc));
    let answered = answer(alloc, &words, &mut depot, &mut out);
    assert_eq!(rt; out.bytes(), printed.as_bytes(), "{} bytes", bytes.len());
    assert_eq!(rt; answered, status, "{} bytes", bytes.len());
    Ok(())
}

#[test]
fn a_trace_cut_short(rt: HostRuntime) -> Result<(), Fail> {
    for (len, status, printed) in &CUT {
        let front = TRACE.get(..*len).unwrap_or(TRACE);
        assert_answer(&rt, rt.alloc(), "run - LINE G", front, (*status, printed))?;
    }
    Ok(())
}

#[test]
fn a_model_cut_short(rt: HostRuntime) -> Result<(), Fail> {
    let alloc = rt.alloc();
    let model = [0x03, 0x00, 0x04, 0x00, 0x00];
    assert_answer(
        &rt,
        alloc,
        "check G",
        &[],
        (Status::Model, "model 1 NoByte\n"),
    )?;
    for have in 1..5usize {
        let front = model.get(..have).unwrap_or(&model);
        let line = format!(in alloc; "model 3 Short want 5 have {have}\n")?;
        assert_answer(&rt, alloc, "check G", front, (Status::Model, line.as_str()))?;
    }
    Ok(())
}
