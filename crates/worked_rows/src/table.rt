//! Rows of a table: words over known files, and what they answer.
ghost use Rattle.vox_geom.specs.Counting.{IsBlankOf};
ghost use Rattle.nanobot_words.specs.Rows.{MayRead, MayStore, texts};

use counter_permit::CounterPermit;
use nanobot_app::{Status, drive};
use std::alloc::Global;
use std::marker::Brand;
use std::process::Abort;
use std::sync::ledger::{Blank, Ledger};
use std::test::Fail;
use vox_depot::{Depot, MemoryDepot, MemorySink, Sink};
use vox_geom::Steps;

/// Words over the files of the table, with these bytes as the file `B`; and the status and the line that are answered.
pub type Row = (&'static str, &'static [u8], Status, &'static str);

/// The files of the table by their names: `E3` and `E4` are empty models, `P3` has the voxel (1,0,1), `TOWER` the voxels (1,0,1) and
/// (1,1,1), `E1` is of resolution 1, `WP` a wide model with the voxel (1,0,1), `WIDE` the empty one of resolution 400.
/// Of resolution 5: `LINE` has the voxels (1,0,1), (1,0,2) and (1,0,3); `STEP` the voxels (1,0,1), (1,0,2) and (1,1,1); `RING` eight voxels at
/// y = 1 round (2,1,2) on the post (1,0,1), `POSTS` the same on a second post (3,0,3) too, and `ARCH` those of `POSTS` without the
/// first post; `HOOK` is an arch whose end (3,1,1) hangs down; `E5` is empty.
pub const FILES: [(&str, &[u8]); 14] = [
    ("E1", &[0x01, 0x00]),
    ("E3", &[0x03, 0x00, 0x00, 0x00, 0x00]),
    ("E4", &[0x04, 0, 0, 0, 0, 0, 0, 0, 0]),
    (
        "E5",
        &[0x05, 0, 0, 0, 0, 0, 0, 0, 0, 0, 0, 0, 0, 0, 0, 0, 0],
    ),
    (
        "HOOK",
        &[
            0x05, 0x00, 0x00, 0x00, 0x84, 0x10, 0x00, 0x00, 0x20, 0x00, 0x00, 0x42, 0x00, 0x00,
            0x00, 0x00, 0x00,
        ],
    ),
    ("P3", &[0x03, 0x00, 0x04, 0x00, 0x00]),
    (
        "TOWER",
        &[0x04, 0x00, 0x00, 0x22, 0x00, 0x00, 0x00, 0x00, 0x00],
    ),
    (
        "WP",
        &[
            0xFF, 0x00, 0xFB, 0x00, 0x00, 0xF6, 0x1A, 0x00, 0x00, 0x00, 0x01, 0x00, 0xF0, 0x54,
            0x68,
        ],
    ),
    ("WIDE", &[0xFF, 0x01, 0x90, 0x03, 0xD0, 0x90, 0x00]),
    (
        "LINE",
        &[
            0x05, 0x00, 0x00, 0x00, 0x1C, 0x00, 0x00, 0x00, 0x00, 0x00, 0x00, 0x00, 0x00, 0x00,
            0x00, 0x00, 0x00,
        ],
    ),
    (
        "STEP",
        &[0x05, 0, 0, 0, 0x8C, 0, 0, 0, 0, 0, 0, 0, 0, 0, 0, 0, 0],
    ),
    (
        "RING",
        &[
            0x05, 0x00, 0x00, 0x00, 0x84, 0x03, 0x00, 0x00, 0x05, 0x00, 0x00, 0x0E, 0x00, 0x00,
            0x00, 0x00, 0x00,
        ],
    ),
    (
        "POSTS",
        &[
            0x05, 0x00, 0x00, 0x00, 0x84, 0x03, 0x00, 0x00, 0x05, 0x00, 0x40, 0x0E, 0x00, 0x00,
            0x00, 0x00, 0x00,
        ],
    ),
    (
        "ARCH",
        &[
            0x05, 0x00, 0x00, 0x00, 0x80, 0x03, 0x00, 0x00, 0x05, 0x00, 0x40, 0x0E, 0x00, 0x00,
            0x00, 0x00, 0x00,
        ],
    ),
];

/// Calls `drive` with a counter of this ledger.
fn counted<D: Depot, O: Sink, L: Ledger>(
    alloc: Global,
    words: &[String],
    depot: &mut D,
    out: &mut O,
    blank: Blank,
) -> Status
    requires blank { IsBlankOf blank L.name L.parts }
    requires may_fetch { MayRead D.may_fetch (texts words.now) }
    requires may_store { MayStore D.may_store (texts words.now) }
{
    let mut steps = Steps::<L>::new(blank, CounterPermit);
    drive(alloc, words, depot, out, &mut steps)
}

/// Returns the answer of `drive` to a command.
pub fn answer<D: Depot, O: Sink>(
    alloc: Global,
    words: &[String],
    depot: &mut D,
    out: &mut O,
) -> Status
    requires may_fetch { MayRead D.may_fetch (texts words.now) }
    requires may_store { MayStore D.may_store (texts words.now) }
{
    counted::<D, O, Brand>(alloc, words, depot, out, Blank::new(1))
}

/// Returns the words of a line, between single spaces.
pub fn words(alloc: Global, line: &str) -> Result<Vec<String>, Fail> {
    let mut words = Vec::new(alloc);
    if line.is_empty() {
        return Ok(words);
    }
    for word in line.split(' ') {
        words.push(String::from_str(alloc, word)?)?;
    }
    Ok(words)
}

/// Returns a depot with the files of the table whose calls of these numbers fail.
pub fn depot(alloc: Global, fails: &[u64]) -> Result<MemoryDepot, Fail> {
    let mut depot = MemoryDepot::new(alloc, fails.to_vec(alloc)?);
    for (name, bytes) in &FILES {
        depot.put_file(name, bytes)?;
    }
    Ok(depot)
}

/// Asserts that each row has its status, prints its line, and stores no file `C`.
pub fn assert_rows(rt: &impl Abort, alloc: Global, rows: &[Row]) -> Result<(), Fail> {
    for (line, bytes, status, printed) in rows {
        let words = words(alloc, line)?;
        let mut depot = depot(alloc, &[])?;
        depot.put_file("B", bytes)?;
        let mut out = MemorySink::new(alloc, Vec::new(alloc));
        let answered = answer(alloc, &words, &mut depot, &mut out);
        assert_eq!(rt; out.bytes(), printed.as_bytes(), "at {}", line);
        assert_eq!(rt; answered, *status, "at {}", line);
        assert!(rt; depot.file("C").is_none(), "at {}", line);
    }
    Ok(())
}
