//! Runs over large models, on which a mutant that judges more of a model than a step changes would never end.
use crate::table::{answer, depot, words};
use nanobot_app::Status;
use std::alloc::Global;
use std::process::Abort;
use std::test::Fail;
use vox_depot::MemorySink;

/// Two lines along z of resolution 100, both full except for their ends.
const LINES: [u8; 25] = [
    0xFE, 0xFF, 0xFF, 0xFF, 0xFF, 0xFF, 0xFF, 0xFF, 0xFF, 0xFF, 0xFF, 0xFF, 0xE7, 0xFF, 0xFF, 0xFF,
    0xFF, 0xFF, 0xFF, 0xFF, 0xFF, 0xFF, 0xFF, 0xFF, 0x7F,
];

/// Two lines along z of resolution 100, of which the second is empty.
const LAST_LINES: [u8; 25] = [
    0xFE, 0xFF, 0xFF, 0xFF, 0xFF, 0xFF, 0xFF, 0xFF, 0xFF, 0xFF, 0xFF, 0xFF, 0x07, 0, 0, 0, 0, 0, 0,
    0, 0, 0, 0, 0, 0,
];

/// Returns the bytes of an empty model of the first form, which are this many.
fn empty_model(alloc: Global, resolution: u8, len: usize) -> Result<Vec<u8>, Fail> {
    let mut bytes = vec![in alloc; 0u8; len]?;
    if let Some(first) = bytes.first_mut() {
        *first = resolution;
    }
    Ok(bytes)
}

/// Returns a plane of one x of resolution 100, full within the legal box.
fn full_plane(alloc: Global) -> Result<Vec<u8>, Fail> {
    let mut bytes = Vec::new(alloc);
    for _ in 0..49 {
        bytes.extend_from_slice(&LINES)?;
    }
    bytes.extend_from_slice(&LAST_LINES)?;
    Ok(bytes)
}

/// Returns the model of resolution 100 in which all of the legal box is full.
pub fn full_box(alloc: Global) -> Result<Vec<u8>, Fail> {
    let plane = full_plane(alloc)?;
    let mut bytes = empty_model(alloc, 100, 1_251)?;
    for _ in 0..98 {
        bytes.extend_from_slice(&plane)?;
    }
    bytes.extend_from_slice(&[0; 1_250])?;
    Ok(bytes)
}

/// Returns the model of resolution 250 with the post (1,y,1) for y from 0 to 248.
fn post(alloc: Global) -> Result<Vec<u8>, Fail> {
    let mut bytes = empty_model(alloc, 250, 1_953_126)?;
    for y in 0..249usize {
        let bit = 62_501 + 250 * y;
        if let Some(byte) = bytes.get_mut(1 + bit / 8) {
            *byte |= 1 << (bit % 8);
        }
    }
    Ok(bytes)
}

/// Returns a trace that fills and voids the same voxel a million times, and halts.
fn fills_and_voids(alloc: Global) -> Result<Vec<u8>, Fail> {
    let mut bytes = Vec::new(alloc);
    for _ in 0..1_000_000 {
        bytes.extend_from_slice(&[0x73, 0x72])?;
    }
    bytes.push(0xFF)?;
    Ok(bytes)
}

/// Asserts the status and the line of a command over a model and a trace.
fn assert_run(
    rt: &impl Abort,
    alloc: Global,
    line: &str,
    files: (&[u8], &[u8]),
    expected: (Status, &str),
) -> Result<(), Fail> {
    let (model, trace) = files;
    let (status, printed) = expected;
    let mut depot = depot(alloc, &[])?;
    depot.put_file("G", model)?;
    depot.put_file("B", trace)?;
    let mut out = MemorySink::new(alloc, Vec::new(alloc));
    let words = words(alloc, line)?;
    let answered = answer(alloc, &words, &mut depot, &mut out);
    assert_eq!(rt; out.bytes(), printed.as_bytes());
    assert_eq!(rt; answered, status);
    Ok(())
}

/// The greatest resolution of the first form: a file of 1,953,126 bytes.
#[test]
fn the_greatest_first_form(rt: HostRuntime) -> Result<(), Fail> {
    let alloc = rt.alloc();
    let model = empty_model(alloc, 250, 1_953_126)?;
    let expected = (Status::Done, "ok energy 46875020 steps 1\n");
    assert_run(&rt, alloc, "run G - B", (&model, &[0xFF]), expected)
}

/// A step's grounding is judged by its changes: a flood of the model after each step would take hours. The gate stops a test
/// after 60 seconds, so this is a test of that limit.
#[test]
fn two_million_steps_on_a_full_model(rt: HostRuntime) -> Result<(), Fail> {
    let alloc = rt.alloc();
    let model = full_box(alloc)?;
    let trace = fills_and_voids(alloc)?;
    let expected = (Status::Done, "ok energy 6000043000020 steps 2000001\n");
    assert_run(&rt, alloc, "run G G B", (&model, &trace), expected)
}

#[test]
fn a_post_without_its_foot(rt: HostRuntime) -> Result<(), Fail> {
    let alloc = rt.alloc();
    let model = post(alloc)?;
    let expected = (
        Status::Broken,
        "broken 12 Ungrounded step 3 bid 0 at 1 1 1\n",
    );
    assert_run(
        &rt,
        alloc,
        "run G - B",
        (&model, &[0xFD, 0xBA, 0xFD]),
        expected,
    )
}
