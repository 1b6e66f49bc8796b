//! The depot and the sink of `vox_depot` over real files.
use crate::pieces::{fetched, pattern};
use std::io::Write;
use std::os::unix::fs::symlink;
use std::path::PathBuf;
use std::process::Abort;
use std::rt::Files;
use std::test::Fail;
use std::{env, fs, io, process};
use vox_depot::{Depot, FetchFault, HostDepot, HostSink, Sink, SinkFault, StoreFault, load};

// Returns a path among the temporary files that no other test has.
pub(crate) fn temporary(rt: &HostRuntime, name: &str) -> io::Result<PathBuf> {
    let file = format!(in rt.alloc(); "vox_depot_{name}_{}", process::id(rt.process()))?;
    Ok(env::temp_dir(rt)?.join(rt.alloc(), file.as_str())?)
}

// Stores a file of 70,000 bytes and fetches it in pieces.
fn check_pieces<R: Files + AllocGlobal + Abort>(rt: &R, name: &str) -> Result<(), Fail> {
    let alloc = rt.alloc();
    let content = pattern(alloc, 70_000)?;
    let mut depot = HostDepot::new(rt, alloc);
    assert_eq!(rt; depot.store(name, &content), Ok(()));
    for (from, room, count) in [
        (0, 65_536, 65_536),
        (65_536, 65_536, 4_464),
        (70_000, 65_536, 0),
        (69_000, 65_536, 1_000),
        (10, 20, 20),
        (30, 0, 0),
        (80_000, 20, 0),
    ] {
        let piece = fetched(alloc, &mut depot, name, from, room)?;
        let piece = piece.ok().ok_or("a piece failed")?;
        let rest = content.get(from as usize..).unwrap_or(&[]);
        assert_eq!(rt; piece.len(), count, "from {from}");
        assert!(rt; rest.starts_with(&piece), "from {from}");
    }
    let whole = load(alloc, &mut depot, name, u64::MAX);
    assert!(rt; whole.ok().ok_or("the load failed")? == content);
    Ok(())
}

// A fetch of a file that becomes shorter fails, and a fetch from the start reads it whole.
fn check_shrinking<R: Files + AllocGlobal + Abort>(rt: &R, name: &str) -> Result<(), Fail> {
    let alloc = rt.alloc();
    let mut depot = HostDepot::new(rt, alloc);
    assert_eq!(rt; depot.store(name, b"a longer text"), Ok(()));
    assert_eq!(rt; fetched(alloc, &mut depot, name, 0, 9)?.is_ok(), true);
    fs::write(rt, name, "short")?;
    let fault = fetched(alloc, &mut depot, name, 9, 9)?.err();
    assert_eq!(rt; fault, Some(FetchFault::Failed));
    let anew = fetched(alloc, &mut depot, name, 0, 9)?
        .ok()
        .ok_or("it failed")?;
    assert!(rt; anew.as_slice() == b"short".as_slice());
    Ok(())
}

#[test]
fn host_depot_stores_and_fetches(rt: HostRuntime) -> Result<(), Fail> {
    let alloc = rt.alloc();
    let path = temporary(&rt, "depot")?;
    let folder = env::temp_dir(&rt)?;
    let mut depot = HostDepot::new(&rt, alloc);
    for name in [path.as_str(), folder.as_str(), "a\0b", ""] {
        let fault = fetched(alloc, &mut depot, name, 0, 9)?.err();
        assert_eq!(rt; fault, Some(FetchFault::Failed), "at {name:?}");
    }
    assert_eq!(rt; depot.store(folder.as_str(), b"x"), Err(StoreFault));
    check_pieces(&rt, path.as_str())?;
    check_shrinking(&rt, path.as_str())?;
    fs::remove_file(&rt, path.as_str())?;
    Ok(())
}

// A store through a link, or to one of two names of a file, is visible by the other name.
#[test]
fn host_depot_stores_through_links(rt: HostRuntime) -> Result<(), Fail> {
    let path = temporary(&rt, "target")?;
    let hard = temporary(&rt, "hard")?;
    let soft = temporary(&rt, "soft")?;
    fs::write(&rt, path.as_str(), "before")?;
    fs::hard_link(&rt, path.as_str(), hard.as_str())?;
    symlink(&rt, path.as_str(), soft.as_str())?;
    let mut depot = HostDepot::new(&rt, rt.alloc());
    assert_eq!(&rt; depot.store(hard.as_str(), b"one"), Ok(()));
    assert_file(&rt, path.as_str(), b"one")?;
    assert_eq!(&rt; depot.store(soft.as_str(), b"two"), Ok(()));
    assert_file(&rt, hard.as_str(), b"two")?;
    assert!(&rt; fs::symlink_metadata(&rt, soft.as_str())?.is_symlink());
    for name in [path, hard, soft] {
        fs::remove_file(&rt, name.as_str())?;
    }
    Ok(())
}

// A writer that accepts nothing.
#[derive(Drop)]
struct Stuck;

impl Write for Stuck {
    fn write(&mut self, _buf: &[u8]) -> io::Result<usize> {
        Ok(0)
    }

    fn flush(&mut self) -> io::Result<()> {
        Ok(())
    }
}

/// Asserts the sink's answer to bytes.
fn assert_put<S: Sink>(rt: &impl Abort, sink: &mut S, bytes: &[u8], answer: Result<(), SinkFault>) {
    assert_eq!(rt; sink.put(bytes), answer);
}

/// Asserts the bytes of the file.
pub(crate) fn assert_file<R: Files + AllocGlobal + Abort>(
    rt: &R,
    name: &str,
    bytes: &[u8],
) -> Result<(), Fail> {
    let content = fs::read(rt, name)?;
    assert!(rt; content.as_slice() == bytes);
    Ok(())
}

/// A sink over a file writes it, and one over a file that is open only for reading fails.
fn check_sink<R: Files + AllocGlobal + Abort>(rt: &R, name: &str) -> Result<(), Fail> {
    let mut sink = HostSink::new(fs::create(rt, name)?);
    assert_put(rt, &mut sink, b"first ", Ok(()));
    assert_put(rt, &mut sink, b"", Ok(()));
    assert_put(rt, &mut sink, b"second", Ok(()));
    assert_file(rt, name, b"first second")?;
    let mut closed = HostSink::new(fs::open(rt, name)?);
    assert_put(rt, &mut closed, b"third", Err(SinkFault));
    assert_file(rt, name, b"first second")
}

#[test]
fn host_sink_writes(rt: HostRuntime) -> Result<(), Fail> {
    let path = temporary(&rt, "sink")?;
    check_sink(&rt, path.as_str())?;
    fs::remove_file(&rt, path.as_str())?;
    Ok(())
}

#[test]
fn a_sink_over_what_takes_nothing_fails(rt: HostRuntime) {
    let mut stuck = HostSink::new(Stuck);
    assert_put(&rt, &mut stuck, b"x", Err(SinkFault));
    assert_put(&rt, &mut stuck, b"", Ok(()));
    let mut out = HostSink::new(rt.stdout());
    assert_put(&rt, &mut out, b"", Ok(()));
}
