//! The costs of plans of a few voxels, each the planner's own or a cheaper proposal. Energies and steps were summed from the
//! commands by the rules.
use crate::plans::printed;
use crate::table::{Row, assert_rows, depot};
use nanobot_app::Status;
use std::alloc::{AllocError, Global};
use std::test::Fail;

/// The model of resolution 5 with the voxels (1,0,1), (1,0,2) and (1,1,2).
const TURN: [u8; 17] = [5, 0, 0, 0, 0x0C, 1, 0, 0, 0, 0, 0, 0, 0, 0, 0, 0, 0];

/// The model of resolution 7 with the voxels (1,0,1), (1,0,2), (1,0,4) and (1,0,5), and the same at x = 2.
const STRIPES: [u8; 44] = [
    7, 0, 0, 0, 0, 0, 0, 0x6C, 0, 0, 0, 0, 0, 0xD8, 0, 0, 0, 0, 0, 0, 0, 0, 0, 0, 0, 0, 0, 0, 0, 0,
    0, 0, 0, 0, 0, 0, 0, 0, 0, 0, 0, 0, 0, 0,
];

/// The model of resolution 4 with the voxels (1,0,1) and (2,0,2), of which each is in a strip of its own.
const TWO_POSTS: [u8; 9] = [4, 0, 0, 2, 0, 4, 0, 0, 0];

/// Plans over the file `B`, in which they are also stored.
const COSTS: [Row; 16] = [
    (
        "plan layer E1 E1 B",
        &[],
        Status::Done,
        "plan energy 23 steps 1 commands 1 bytes 1\n",
    ),
    (
        "plan layer E3 P3 B",
        &[],
        Status::Done,
        "plan energy 638 steps 6 commands 6 bytes 10\n",
    ),
    (
        "plan layer P3 E3 B",
        &[],
        Status::Done,
        "plan energy 614 steps 6 commands 6 bytes 10\n",
    ),
    (
        "plan layer STEP B B",
        &TURN,
        Status::Done,
        "plan energy 4373 steps 11 commands 11 bytes 19\n",
    ),
    (
        "plan group E1 E1 B",
        &[],
        Status::Done,
        "plan energy 23 steps 1 commands 1 bytes 1\n",
    ),
    (
        "plan group E3 P3 B",
        &[],
        Status::Done,
        "plan energy 626 steps 6 commands 6 bytes 10\n",
    ),
    (
        "plan group P3 E3 B",
        &[],
        Status::Done,
        "plan energy 602 steps 6 commands 6 bytes 10\n",
    ),
    (
        "plan group E5 LINE B",
        &[],
        Status::Done,
        "plan energy 4006 steps 10 commands 10 bytes 16\n",
    ),
    (
        "plan group - B B",
        &STRIPES,
        Status::Done,
        "plan energy 15042 steps 14 commands 24 bytes 37\n",
    ),
    (
        "plan crew E1 E1 B",
        &[],
        Status::Done,
        "plan energy 23 steps 1 commands 1 bytes 1\n",
    ),
    (
        "plan crew - P3 B",
        &[],
        Status::Done,
        "plan energy 626 steps 6 commands 6 bytes 10\n",
    ),
    (
        "plan crew P3 E3 B",
        &[],
        Status::Done,
        "plan energy 602 steps 6 commands 6 bytes 10\n",
    ),
    (
        "plan crew - B B",
        &TWO_POSTS,
        Status::Done,
        "plan energy 1532 steps 7 commands 7 bytes 11\n",
    ),
    (
        "plan void P3 - B",
        &[],
        Status::Done,
        "plan energy 1381 steps 12 commands 20 bytes 41\n",
    ),
    (
        "plan swarm - P3 B",
        &[],
        Status::Done,
        "plan energy 626 steps 6 commands 6 bytes 10\n",
    ),
    (
        "plan swarm - B B",
        &TWO_POSTS,
        Status::Done,
        "plan energy 2288 steps 10 commands 16 bytes 25\n",
    ),
];

#[test]
fn plans_pay_by_their_steps(rt: HostRuntime) -> Result<(), Fail> {
    assert_rows(&rt, rt.alloc(), &COSTS)
}

/// Returns the model of resolution 40 with the voxels (1,0,1), (1,0,35), (35,0,1) and (35,0,35), each of which is in a tile of its
/// own.
fn four_voxels(alloc: Global) -> Result<Vec<u8>, AllocError> {
    let mut bytes = vec![in alloc; 0u8; 8001]?;
    bytes[0] = 40;
    bytes[201] = 2;
    bytes[205] = 8;
    bytes[7001] = 2;
    bytes[7005] = 8;
    Ok(bytes)
}

#[test]
fn tiles_are_taken_to_and_fro(rt: HostRuntime) -> Result<(), Fail> {
    let alloc = rt.alloc();
    let mut depot = depot(alloc, &[])?;
    depot.put_file("FOUR", &four_voxels(alloc)?)?;
    let planned = printed(&rt, alloc, &mut depot, "plan void FOUR - B", Status::Done)?;
    let line = b"plan energy 5005296 steps 26 commands 68 bytes 149\n".as_slice();
    assert_eq!(rt; planned.as_slice(), line);
    Ok(())
}
