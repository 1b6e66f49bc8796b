//! Sessions of the debugger.
use crate::table::{answer, depot, words};
use nanobot_app::Status;
use std::alloc::Global;
use std::process::Abort;
use std::test::Fail;
use vox_depot::MemorySink;

/// The command, the trace, the script, and the status and the output.
type Session = (
    &'static str,
    &'static [u8],
    &'static [u8],
    Status,
    &'static str,
);

/// A fill, and an undo.
const FILL: &[u8] = &[0x14, 0x10, 0x73, 0x14, 0x0E, 0xFF];

/// Two bots that part, fill a line together, and fuse.
const TWO: &[u8] = &[
    0x75, 0x00, 0xFE, 0x34, 0x11, 0xB9, 0x1E, 0x1E, 0x20, 0xB1, 0x1E, 0x1E, 0x1C, 0xFE, 0x34, 0x0D,
    0x77, 0x66, 0xFF,
];

const SESSIONS: [Session; 5] = [
    (
        "debug E3 B X",
        FILL,
        b"step\nstep\nvoxel 1 0 1\nback\nvoxel 1 0 1\nbots\n",
        Status::Done,
        "step 1 energy 103\nstep 2 energy 216\nvoxel 1 0 1 full level 0\nback to step 1 energy 103\nvoxel 1 0 1 void\nbot 1 at 1 0 0 seeds 39\n",
    ),
    (
        "debug E5 B X",
        TWO,
        b"step\ngroup 2\nbots\ngroup 3\ngroup 1",
        Status::Done,
        "step 1 energy 419\ngroup 2 of step 2\nbot 1 at 0 0 0 seeds 38\nbot 2 at 0 0 3 seeds 0\nno leader 3\nstep 2 energy 838\n",
    ),
    (
        "debug RING B X",
        &[0xBA, 0xFF],
        b"back\nstep\nvoxel 1 1 1\n",
        Status::Done,
        "no history\nbroken 12 Ungrounded step 1 bid 0 at 1 1 1\nvoxel 1 1 1 full level 1\n",
    ),
    (
        "debug E3 B X",
        &[0xFF],
        b"step\nstep\ngroup 1\nback\nstep",
        Status::Done,
        "step 1 energy 101 halted\nended\nended\nback to step 0 energy 0\nstep 1 energy 101 halted\n",
    ),
    ("debug E3 B X", &[0xFF], b"", Status::Done, ""),
];

const REFUSED: [Session; 14] = [
    (
        "debug - B X",
        FILL,
        b"step",
        Status::Words,
        "words not understood\n",
    ),
    (
        "debug E3 B",
        FILL,
        b"step",
        Status::Words,
        "words not understood\n",
    ),
    (
        "debug B B X",
        &[0x03, 0x01, 0x00, 0x00, 0x00],
        b"stop",
        Status::Model,
        "source 6 Border at 0 0 0\n",
    ),
    (
        "debug E3 B X",
        &[0x04],
        b"stop",
        Status::Trace,
        "trace bad at 0\n",
    ),
    (
        "debug E3 B X",
        &[0x14],
        b"stop",
        Status::Trace,
        "trace cut at 0\n",
    ),
    ("debug E3 B Y", FILL, b"", Status::Depot, ""),
    (
        "debug E3 B X",
        FILL,
        b"step\nstop",
        Status::Text,
        "text 2 UnknownWord line 2\n",
    ),
    (
        "debug E3 B X",
        FILL,
        b"step\n\nback",
        Status::Text,
        "text 2 UnknownWord line 2\n",
    ),
    (
        "debug E3 B X",
        FILL,
        b"stop \xC3",
        Status::Text,
        "text 1 NotAscii line 1\n",
    ),
    (
        "debug E3 B X",
        FILL,
        b"step ",
        Status::Text,
        "text 3 Shape line 1\n",
    ),
    (
        "debug E3 B X",
        FILL,
        b"group 01",
        Status::Text,
        "text 3 Shape line 1\n",
    ),
    (
        "debug E3 B X",
        FILL,
        b"voxel 1  1 1",
        Status::Text,
        "text 3 Shape line 1\n",
    ),
    (
        "debug E3 B X",
        FILL,
        b"group 41",
        Status::Text,
        "text 4 Range line 1\n",
    ),
    (
        "debug E3 B X",
        FILL,
        b"voxel 0 0 3",
        Status::Text,
        "text 4 Range line 1\n",
    ),
];

/// Asserts that each session has its status and prints its lines.
fn assert_sessions(rt: &impl Abort, alloc: Global, sessions: &[Session]) -> Result<(), Fail> {
    for (line, trace, script, status, printed) in sessions {
        let words = words(alloc, line)?;
        let mut depot = depot(alloc, &[])?;
        depot.put_file("B", trace)?;
        depot.put_file("X", script)?;
        let mut out = MemorySink::new(alloc, Vec::new(alloc));
        let answered = answer(alloc, &words, &mut depot, &mut out);
        assert_eq!(rt; out.bytes(), printed.as_bytes(), "at {}", line);
        assert_eq!(rt; answered, *status, "at {}", line);
    }
    Ok(())
}

#[test]
fn sessions_that_are_done(rt: HostRuntime) -> Result<(), Fail> {
    assert_sessions(&rt, rt.alloc(), &SESSIONS)
}

#[test]
fn sessions_that_are_refused(rt: HostRuntime) -> Result<(), Fail> {
    assert_sessions(&rt, rt.alloc(), &REFUSED)
}

/// Asserts that a script of this many bytes, all of them `x`, is refused with this line.
fn assert_long_script(rt: &impl Abort, alloc: Global, size: usize, line: &str) -> Result<(), Fail> {
    let words = words(alloc, "debug E3 B X")?;
    let mut depot = depot(alloc, &[])?;
    depot.put_file("B", FILL)?;
    depot.put_file("X", &vec![in alloc; b'x'; size]?)?;
    let mut out = MemorySink::new(alloc, Vec::new(alloc));
    let answered = answer(alloc, &words, &mut depot, &mut out);
    assert_eq!(rt; out.bytes(), line.as_bytes());
    assert_eq!(rt; answered, Status::Text);
    Ok(())
}

/// A script of exactly the limit is read, and one that is a byte longer is not.
#[test]
fn long_scripts(rt: HostRuntime) -> Result<(), Fail> {
    let alloc = rt.alloc();
    assert_long_script(&rt, alloc, 65_536, "text 2 UnknownWord line 1\n")?;
    assert_long_script(&rt, alloc, 65_537, "text longer than 65536\n")
}
