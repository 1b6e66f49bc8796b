//! Plans that are stored, and then run.
use crate::large::full_box;
use crate::table::{answer, depot, words};
use nanobot_app::Status;
use std::alloc::Global;
use std::process::Abort;
use std::test::Fail;
use vox_depot::{MemoryDepot, MemorySink};

/// Returns whether a coordinate of resolution 20 is full in the house: four walls from the floor up, and a roof.
fn is_house(x: usize, y: usize, z: usize) -> bool {
    let inside = (5..15).contains(&x) && (5..15).contains(&z);
    let wall = y < 8 && (x == 5 || x == 14 || z == 5 || z == 14);
    inside && (wall || y == 8)
}

/// Returns the model of the house.
fn house(alloc: Global) -> Result<Vec<u8>, Fail> {
    let mut bytes = vec![in alloc; 0u8; 1_001]?;
    if let Some(first) = bytes.first_mut() {
        *first = 20;
    }
    for place in 0..8_000usize {
        if is_house(place / 400, place / 20 % 20, place % 20) {
            if let Some(byte) = bytes.get_mut(1 + place / 8) {
                *byte |= 1 << (place % 8);
            }
        }
    }
    Ok(bytes)
}

/// Returns the output of a command with this status.
pub fn printed(
    rt: &impl Abort,
    alloc: Global,
    depot: &mut MemoryDepot,
    line: &str,
    status: Status,
) -> Result<Vec<u8>, Fail> {
    let words = words(alloc, line)?;
    let mut out = MemorySink::new(alloc, Vec::new(alloc));
    let answered = answer(alloc, &words, depot, &mut out);
    assert_eq!(rt; answered, status, "at {}", line);
    Ok(out.bytes().to_vec(alloc)?)
}

/// Returns the line of a run that is accepted with the energy and the steps of a plan's line.
fn accepted(alloc: Global, planned: &[u8]) -> Result<Vec<u8>, Fail> {
    let mut line = b"ok".to_vec(alloc)?;
    for byte in planned.iter().skip(4) {
        if *byte == b'c' {
            break;
        }
        line.push(*byte)?;
    }
    let _ = line.pop();
    line.push(b'\n')?;
    Ok(line)
}

/// The quantity that a planner bounds.
#[derive(Clone, Copy)]
enum Most {
    /// The bytes of the stored trace.
    Bytes(u32),
    Steps(u32),
}

/// Returns the number at a word of a plan's line, counted from 0.
fn number_at(planned: &[u8], word: usize) -> Option<u32> {
    let line = str::from_utf8(planned).ok()?;
    line.trim_end().split(' ').nth(word)?.parse().ok()
}

/// Returns whether a plan, with its line and the stored trace, is within the bound; the line has the number of bytes stored.
fn is_within(planned: &[u8], stored: &[u8], most: Most) -> bool {
    let within = match most {
        Most::Bytes(most) => stored.len() <= most as usize,
        Most::Steps(most) => number_at(planned, 4).is_some_and(|steps| steps <= most),
    };
    within && number_at(planned, 8).is_some_and(|bytes| bytes as usize == stored.len())
}

/// A plan: the planner's name, the two models, the commands of the runs that accept it, and its bound.
type Planned = (&'static str, &'static str, &'static [&'static str], Most);

/// The bounds of the plans are those of the planners: the house has 388 full voxels, 90 rows and 154 runs.
const PLANS: [Planned; 13] = [
    ("layer", "- HOUSE", &["run"], Most::Bytes(64_200)),
    ("layer", "HOUSE -", &["run"], Most::Bytes(64_200)),
    ("layer", "- HOOK", &["run"], Most::Bytes(1_200)),
    ("layer", "- WP", &["run"], Most::Bytes(126_506_208)),
    ("group", "- HOUSE", &["run"], Most::Steps(20_032)),
    ("group", "HOUSE -", &["run"], Most::Steps(20_032)),
    ("group", "- WP", &["run"], Most::Steps(50_768)),
    ("crew", "- HOUSE", &["run"], Most::Bytes(1_073_741_824)),
    ("crew", "HOUSE -", &["run"], Most::Bytes(1_073_741_824)),
    ("crew", "- HOOK", &["run"], Most::Bytes(1_073_741_824)),
    ("void", "HOUSE -", &["run"], Most::Steps(520)),
    ("low", "- HOUSE", &["run", "run light"], Most::Steps(9_752)),
    (
        "swarm",
        "- HOUSE",
        &["run", "run light"],
        Most::Steps(3_760),
    ),
];

/// Asserts that the runs accept the plan between two models, with the printed energy and steps.
fn assert_planned(
    rt: &impl Abort,
    alloc: Global,
    depot: &mut MemoryDepot,
    plan: &Planned,
) -> Result<(), Fail> {
    let (planner, models, runs, most) = *plan;
    let line = format!(in alloc; "plan {planner} {models} B")?;
    let planned = printed(rt, alloc, depot, line.as_str(), Status::Done)?;
    let expected = accepted(alloc, &planned)?;
    let stored = depot.file("B").unwrap_or(b"");
    assert!(rt; is_within(&planned, stored, most), "at {}", line);
    for run in runs {
        let line = format!(in alloc; "{run} {models} B")?;
        let ran = printed(rt, alloc, depot, line.as_str(), Status::Done)?;
        assert_eq!(rt; ran.as_slice(), expected.as_slice(), "at {}", line);
    }
    Ok(())
}

#[test]
fn a_house_and_a_wide_model(rt: HostRuntime) -> Result<(), Fail> {
    let alloc = rt.alloc();
    let mut depot = depot(alloc, &[])?;
    depot.put_file("HOUSE", &house(alloc)?)?;
    let checked = printed(&rt, alloc, &mut depot, "check HOUSE", Status::Done)?;
    let legal = b"legal resolution 20 full 388\n".as_slice();
    assert_eq!(rt; checked.as_slice(), legal);
    for plan in &PLANS {
        assert_planned(&rt, alloc, &mut depot, plan)?;
    }
    Ok(())
}

/// Up to twenty bots build a full model, only under the light profile.
#[test]
fn a_full_model_by_a_swarm(rt: HostRuntime) -> Result<(), Fail> {
    let alloc = rt.alloc();
    let mut depot = depot(alloc, &[])?;
    depot.put_file("FULL", &full_box(alloc)?)?;
    assert_planned(
        &rt,
        alloc,
        &mut depot,
        &("swarm", "- FULL", &["run light"], Most::Steps(202_800)),
    )
}

/// Checks that the plans of a forged model are the same at each run, and cost what the lines of both stored plans report.
#[test]
fn an_exercise(rt: HostRuntime) -> Result<(), Fail> {
    let alloc = rt.alloc();
    let mut depot = depot(alloc, &[])?;
    let first = printed(&rt, alloc, &mut depot, "exercise 7 100", Status::Done)?;
    let second = printed(&rt, alloc, &mut depot, "exercise 7 100", Status::Done)?;
    assert_eq!(rt; first.as_slice(), second.as_slice());
    printed(&rt, alloc, &mut depot, "make 7 100 M", Status::Done)?;
    let layer = printed(&rt, alloc, &mut depot, "plan layer - M B", Status::Done)?;
    let group = printed(&rt, alloc, &mut depot, "plan group - M B", Status::Done)?;
    let told = str::from_utf8(&first)?;
    for (word, plan) in [("layer", &layer), ("group", &group)] {
        let costs = accepted(alloc, plan)?;
        let costs = str::from_utf8(&costs)?;
        let told_so = format!(in alloc; "{word} {}", costs.trim_start_matches("ok ").trim_end())?;
        assert!(rt; told.contains(told_so.as_str()), "at {}", told_so);
    }
    Ok(())
}
