//! The depot and the sink of `vox_depot` in memory.
use crate::pieces::{fetched, pattern};
use std::alloc::Global;
use std::process::Abort;
use std::test::Fail;
use vox_depot::{
    Depot, FetchFault, LoadFault, MemoryDepot, MemorySink, Sink, SinkFault, StoreFault, load,
};

// A fetch from a depot that has `A` with the bytes "hello world".
struct Fetch {
    name: &'static str,
    from: u64,
    room: usize,
    answer: Result<&'static [u8], FetchFault>,
}

// Its calls 2 and 5 fail.
const FETCHES: [Fetch; 9] = [
    Fetch {
        name: "A",
        from: 0,
        room: 5,
        answer: Ok(b"hello"),
    },
    Fetch {
        name: "A",
        from: 6,
        room: 8,
        answer: Ok(b"world"),
    },
    Fetch {
        name: "A",
        from: 0,
        room: 5,
        answer: Err(FetchFault::Failed),
    },
    Fetch {
        name: "A",
        from: 11,
        room: 8,
        answer: Ok(b""),
    },
    Fetch {
        name: "B",
        from: 0,
        room: 8,
        answer: Err(FetchFault::Missing),
    },
    Fetch {
        name: "B",
        from: 0,
        room: 8,
        answer: Err(FetchFault::Failed),
    },
    Fetch {
        name: "A",
        from: 3,
        room: 0,
        answer: Ok(b""),
    },
    Fetch {
        name: "A",
        from: u64::MAX,
        room: 8,
        answer: Ok(b""),
    },
    Fetch {
        name: "",
        from: 0,
        room: 8,
        answer: Err(FetchFault::Missing),
    },
];

#[test]
fn memory_depot_fails_by_number(rt: HostRuntime) -> Result<(), Fail> {
    let alloc = rt.alloc();
    let mut depot = MemoryDepot::new(alloc, vec![in alloc; 2, 5, 10]?);
    assert_eq!(rt; depot.put_file("A", b"hello world"), Ok(()));
    for (number, fetch) in FETCHES.iter().enumerate() {
        let answer = fetched(alloc, &mut depot, fetch.name, fetch.from, fetch.room)?;
        let bytes = answer.as_ref().map(|bytes| bytes.as_slice());
        assert_eq!(rt; bytes.map_err(|fault| *fault), fetch.answer, "at {number}");
    }

    // The stores have the next numbers 9, 10 and 11.
    assert_eq!(rt; depot.store("B", b"new"), Ok(()));
    assert_eq!(rt; depot.store("A", b"lost"), Err(StoreFault));
    assert_eq!(rt; depot.store("B", b""), Ok(()));
    assert!(rt; depot.file("A") == Some(b"hello world"));
    assert!(rt; depot.file("B") == Some(b""));
    assert!(rt; depot.file("C").is_none());
    assert_eq!(rt; depot.starved(), 0);
    Ok(())
}

#[test]
fn memory_sink_fails_by_number(rt: HostRuntime) -> Result<(), Fail> {
    let alloc = rt.alloc();
    let mut sink = MemorySink::new(alloc, vec![in alloc; 1, 2, 4]?);
    assert_eq!(rt; sink.put(b"one "), Ok(()));
    assert_eq!(rt; sink.put(b"seven 7"), Err(SinkFault));
    assert_eq!(rt; sink.put(b"x"), Err(SinkFault));
    assert_eq!(rt; sink.put(b" three"), Ok(()));
    assert_eq!(rt; sink.put(b""), Err(SinkFault));
    assert!(rt; sink.bytes() == b"one sev three".as_slice());
    assert_eq!(rt; sink.starved(), 0);
    Ok(())
}

// With each allocation failing one after another, the count explains each failure, and nothing is changed.
#[test]
fn refused_memory_is_counted(rt: HostRuntime) -> Result<(), Fail> {
    let alloc = rt.alloc();
    let mut depot = MemoryDepot::new(alloc, Vec::new(alloc));
    let put = depot.put_file("A", b"old").is_ok();
    assert_eq!(rt; depot.file("A").is_some(), put);
    let stored = depot.store("A", b"new").is_ok();
    assert_eq!(rt; depot.starved() == 0, stored);
    assert_eq!(rt; depot.file("A").is_some(), put || stored);
    assert_eq!(rt; depot.file("A") == Some(b"new"), stored);

    let mut sink = MemorySink::new(alloc, Vec::new(alloc));
    let written = sink.put(b"line").is_ok();
    assert_eq!(rt; sink.starved() == 0, written);
    assert_eq!(rt; sink.bytes().len(), if written { 4 } else { 0 });

    let mut failing = MemorySink::new(alloc, vec![in alloc; 0]?);
    assert_eq!(rt; failing.put(b"line"), Err(SinkFault));
    assert_eq!(rt; failing.bytes().len() == 2, failing.starved() == 0);

    match load(alloc, &mut depot, "A", u64::MAX) {
        Ok(bytes) => assert!(rt; Some(bytes.as_slice()) == depot.file("A")),
        Err(fault) => {
            let want = if put || stored {
                LoadFault::Memory
            } else {
                LoadFault::Missing
            };
            assert_eq!(rt; fault, want);
        }
    }
    Ok(())
}

/// Asserts that a load of at most `most` bytes returns the file's first ones, of this size.
fn assert_loaded(
    rt: &impl Abort,
    alloc: Global,
    depot: &mut MemoryDepot,
    content: &[u8],
    most: u64,
    size: usize,
) {
    match load(alloc, depot, "A", most) {
        Ok(bytes) => {
            assert!(rt; bytes.len() == size);
            assert!(rt; content.starts_with(&bytes));
        }
        Err(fault) => assert_eq!(rt; Some(fault), None),
    }
}

/// Asserts the fault of a load.
fn assert_fault(
    rt: &impl Abort,
    alloc: Global,
    depot: &mut MemoryDepot,
    name: &str,
    fault: LoadFault,
) {
    assert_eq!(rt; load(alloc, depot, name, u64::MAX).err(), Some(fault));
}

#[test]
fn loads_whole_files(rt: HostRuntime) -> Result<(), Fail> {
    let alloc = rt.alloc();
    let content = pattern(alloc, 140_000)?;
    let mut depot = MemoryDepot::new(alloc, vec![in alloc; 1]?);
    assert!(rt; depot.put_file("A", &content).is_ok());

    // The second piece fails, then nothing does.
    assert_fault(&rt, alloc, &mut depot, "A", LoadFault::Failed);
    for (most, size) in [
        (0, 0),
        (1, 1),
        (65_536, 65_536),
        (65_537, 65_537),
        (140_000, 140_000),
        (140_001, 140_000),
        (u64::MAX, 140_000),
    ] {
        assert_loaded(&rt, alloc, &mut depot, &content, most, size);
    }
    assert_fault(&rt, alloc, &mut depot, "B", LoadFault::Missing);
    Ok(())
}
