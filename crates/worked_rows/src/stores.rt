//! Commands that store a file.
use crate::table::{Row, answer, assert_rows, depot, words};
use nanobot_app::Status;
use std::alloc::Global;
use std::process::Abort;
use std::test::Fail;
use vox_depot::MemorySink;

/// A command over the file `B`, the printed line, and the name and the bytes of the stored file.
struct Storing {
    words: &'static str,
    bytes: &'static [u8],
    printed: &'static str,
    name: &'static str,
    stored: &'static [u8],
}

/// Four commands as text, as a trace, and as text that nobody would print.
const TEXT: &[u8] = b"SMove <1,0,0>\nFill <0,0,1>\nSMove <-1,0,0>\nHalt\n";

const TRACE: &[u8] = &[0x14, 0x10, 0x73, 0x14, 0x0E, 0xFF];

const LOOSE_TEXT: &[u8] =
    b"# four commands\r\n\r\n\tSMove < 1 ,0,\t00>\r\n  \nFill<0,0,1> # beside\nSMove <-1,0,0>\t\r\nHalt";

const STORING: [Storing; 15] = [
    Storing {
        words: "asm B C",
        bytes: TEXT,
        printed: "commands 4 bytes 6\n",
        name: "C",
        stored: TRACE,
    },
    Storing {
        words: "asm B B",
        bytes: LOOSE_TEXT,
        printed: "commands 4 bytes 6\n",
        name: "B",
        stored: TRACE,
    },
    Storing {
        words: "asm B C",
        bytes: b"# nothing",
        printed: "commands 0 bytes 0\n",
        name: "C",
        stored: &[],
    },
    Storing {
        words: "dis B C",
        bytes: TRACE,
        printed: "commands 4 bytes 47\n",
        name: "C",
        stored: TEXT,
    },
    Storing {
        words: "make 0 4 C",
        bytes: &[],
        printed: "model resolution 4 full 3\n",
        name: "C",
        stored: &[0x04, 0x00, 0x00, 0x02, 0x00, 0x06, 0x00, 0x00, 0x00],
    },
    Storing {
        words: "make 0 3 C",
        bytes: &[],
        printed: "model resolution 3 full 2\n",
        name: "C",
        stored: &[0x03, 0x00, 0x24, 0x00, 0x00],
    },
    Storing {
        words: "make 1 3 C",
        bytes: &[],
        printed: "model resolution 3 full 0\n",
        name: "C",
        stored: &[0x03, 0x00, 0x00, 0x00, 0x00],
    },
    Storing {
        words: "make 4294967295 1 B",
        bytes: &[],
        printed: "model resolution 1 full 0\n",
        name: "B",
        stored: &[0x01, 0x00],
    },
    Storing {
        words: "dis B C",
        bytes: &[],
        printed: "commands 0 bytes 0\n",
        name: "C",
        stored: &[],
    },
    Storing {
        words: "plan group P3 P3 B",
        bytes: &[],
        printed: "plan energy 101 steps 1 commands 1 bytes 1\n",
        name: "B",
        stored: &[0xFF],
    },
    Storing {
        words: "plan crew P3 P3 B",
        bytes: &[],
        printed: "plan energy 101 steps 1 commands 1 bytes 1\n",
        name: "B",
        stored: &[0xFF],
    },
    Storing {
        words: "plan void E3 - C",
        bytes: &[],
        printed: "plan energy 101 steps 1 commands 1 bytes 1\n",
        name: "C",
        stored: &[0xFF],
    },
    Storing {
        words: "plan low - E3 C",
        bytes: &[],
        printed: "plan energy 101 steps 1 commands 1 bytes 1\n",
        name: "C",
        stored: &[0xFF],
    },
    Storing {
        words: "plan swarm - E3 C",
        bytes: &[],
        printed: "plan energy 101 steps 1 commands 1 bytes 1\n",
        name: "C",
        stored: &[0xFF],
    },
    Storing {
        words: "plan layer P3 P3 B",
        bytes: &[],
        printed: "plan energy 101 steps 1 commands 1 bytes 1\n",
        name: "B",
        stored: &[0xFF],
    },
];

/// Texts, traces and arguments that are refused.
const REFUSED: [Row; 40] = [
    (
        "asm B C",
        b"Jump\n",
        Status::Text,
        "text 2 UnknownWord line 1\n",
    ),
    (
        "asm B C",
        b"Fill <0,0>\n",
        Status::Text,
        "text 3 Shape line 1\n",
    ),
    (
        "asm B C",
        b"Fill <1,1,1>\n",
        Status::Text,
        "text 4 Range line 1\n",
    ),
    (
        "asm B C",
        b"Fission <0,0,1> 256\n",
        Status::Text,
        "text 4 Range line 1\n",
    ),
    (
        "asm B C",
        b"Wait\n\xC3",
        Status::Text,
        "text 1 NotAscii line 2\n",
    ),
    ("dis B C", &[0x04], Status::Trace, "trace bad at 0\n"),
    ("dis B C", &[0xFF, 0x14], Status::Trace, "trace cut at 1\n"),
    ("dis C B", &[], Status::Depot, ""),
    ("asm C B", &[], Status::Depot, ""),
    ("make 01 3 C", &[], Status::Words, "words not understood\n"),
    ("make +1 3 C", &[], Status::Words, "words not understood\n"),
    ("make 0 03 C", &[], Status::Words, "words not understood\n"),
    ("make 0 0 C", &[], Status::Words, "words not understood\n"),
    ("make 0 401 C", &[], Status::Words, "words not understood\n"),
    (
        "make 4294967296 3 C",
        &[],
        Status::Words,
        "words not understood\n",
    ),
    ("make 0 3 -", &[], Status::Words, "words not understood\n"),
    ("asm - C", TEXT, Status::Words, "words not understood\n"),
    ("asm B -", TEXT, Status::Words, "words not understood\n"),
    ("dis B -", TRACE, Status::Words, "words not understood\n"),
    (
        "plan layer - - C",
        &[],
        Status::Words,
        "words not understood\n",
    ),
    (
        "plan layer P3 - -",
        &[],
        Status::Words,
        "words not understood\n",
    ),
    ("plan P3 - C", &[], Status::Words, "words not understood\n"),
    (
        "plan void P3 P3 C",
        &[],
        Status::Words,
        "words not understood\n",
    ),
    (
        "plan crew - - C",
        &[],
        Status::Words,
        "words not understood\n",
    ),
    (
        "plan crew P3 HOOK C",
        &[],
        Status::Model,
        "resolutions 3 5\n",
    ),
    ("plan crew X P3 C", &[], Status::Depot, ""),
    (
        "plan void - - C",
        &[],
        Status::Words,
        "words not understood\n",
    ),
    (
        "plan low P3 P3 C",
        &[],
        Status::Words,
        "words not understood\n",
    ),
    (
        "plan swarm P3 - C",
        &[],
        Status::Words,
        "words not understood\n",
    ),
    (
        "plan low - HOOK C",
        &[],
        Status::Unsupported,
        "unsupported at 3 1 1\n",
    ),
    (
        "plan void B - C",
        &[0x03, 0x01, 0x00, 0x00, 0x00],
        Status::Model,
        "source 6 Border at 0 0 0\n",
    ),
    (
        "plan low - B C",
        &[0x03, 0x00, 0x20, 0x00, 0x00],
        Status::Model,
        "target 7 Floating at 1 1 1\n",
    ),
    ("plan swarm - B C", &[], Status::Model, "target 1 NoByte\n"),
    ("plan void X - C", &[], Status::Depot, ""),
    (
        "exercise 1 401",
        &[],
        Status::Words,
        "words not understood\n",
    ),
    (
        "exercise 1 3",
        &[],
        Status::Done,
        "exercise number 1 resolution 3 full 0 layer energy 101 steps 1 group energy 101 steps 1\n",
    ),
    (
        "check HOOK",
        &[],
        Status::Done,
        "legal resolution 5 full 6\n",
    ),
    (
        "plan layer E3 E4 C",
        &[],
        Status::Model,
        "resolutions 3 4\n",
    ),
    ("plan layer E3 B C", &[], Status::Model, "target 1 NoByte\n"),
    ("plan layer X E3 C", &[], Status::Depot, ""),
];

/// Asserts that a command over the file `B`, with these calls of the depot and the sink failing, has the status, prints the line
/// and leaves the file of the name with these bytes.
fn assert_stored(
    rt: &impl Abort,
    alloc: Global,
    case: &Storing,
    depot_fails: &[u64],
    sink_fails: &[u64],
    status: Status,
) -> Result<(), Fail> {
    let mut depot = depot(alloc, depot_fails)?;
    depot.put_file("B", case.bytes)?;
    let mut out = MemorySink::new(alloc, sink_fails.to_vec(alloc)?);
    let words = words(alloc, case.words)?;
    let answered = answer(alloc, &words, &mut depot, &mut out);
    assert_eq!(rt; answered, status, "at {}", case.words);
    assert_eq!(rt; out.bytes(), case.printed.as_bytes(), "at {}", case.words);
    assert_eq!(rt;
        depot.file(case.name),
        Some(case.stored),
        "at {}",
        case.words
    );
    Ok(())
}

#[test]
fn files_that_are_stored(rt: HostRuntime) -> Result<(), Fail> {
    for case in &STORING {
        assert_stored(&rt, rt.alloc(), case, &[], &[], Status::Done)?;
    }
    Ok(())
}

#[test]
fn what_is_refused_stores_nothing(rt: HostRuntime) -> Result<(), Fail> {
    assert_rows(&rt, rt.alloc(), &REFUSED)
}

/// A line of which half is written: the file is stored.
const HALF: Storing = Storing {
    words: "asm B C",
    bytes: TEXT,
    printed: "commands ",
    name: "C",
    stored: TRACE,
};

/// A plan that could not be stored.
const NO_PLAN: Storing = Storing {
    words: "plan layer P3 P3 C",
    bytes: TRACE,
    printed: "",
    name: "B",
    stored: TRACE,
};

/// A file that could not be stored: there is no line, and the other files are unchanged.
const LOST: Storing = Storing {
    words: "dis B C",
    bytes: TRACE,
    printed: "",
    name: "B",
    stored: TRACE,
};

#[test]
fn stores_and_lines_that_fail(rt: HostRuntime) -> Result<(), Fail> {
    assert_stored(&rt, rt.alloc(), &HALF, &[], &[0], Status::Sink)?;
    assert_stored(&rt, rt.alloc(), &NO_PLAN, &[4], &[], Status::Depot)?;
    assert_stored(&rt, rt.alloc(), &LOST, &[2], &[], Status::Depot)
}
