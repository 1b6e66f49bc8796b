//! Each export as a C caller calls it. The energies are those of the rules: at resolution 3 a step costs 101 with one bot under low
//! harmonics, a move 2 for each voxel, and a filled voxel 12.
use crate::commands::nanobot_commands;
use crate::comparing::nanobot_machine_compare;
use crate::counting::{
    nanobot_machine_aim, nanobot_machine_differences, nanobot_machine_remaining,
};
use crate::handle::Handle;
use crate::judging::nanobot_machine_judge;
use crate::playing::nanobot_machine_play;
use crate::reading::{
    nanobot_machine_bots, nanobot_machine_count, nanobot_machine_full, nanobot_machine_level,
    nanobot_machine_model, nanobot_machine_tell,
};
use crate::reports::{
    BotReport, BrokenReport, JudgedReport, MachineReport, ModelReport, PlaceReport, PlayedReport,
    StepReport,
};
use crate::starting::{
    nanobot_machine_copy, nanobot_machine_end, nanobot_machine_start, nanobot_machine_start_empty,
};
use crate::stepping::{nanobot_machine_step, nanobot_machine_undo};
use crate::tracing::{nanobot_machine_keep, nanobot_machine_trace};
use std::alloc::Global;
use std::process::Abort;
use std::test::Fail;

/// The model of resolution 3 with the voxel (1,0,1).
const P3: &[u8] = &[0x03, 0x00, 0x04, 0x00, 0x00];

/// A model with a full voxel at (0,0,0), outside the legal box.
const BORDER: &[u8] = &[0x03, 0x01, 0x00, 0x00, 0x00];

/// `SMove <1,0,0>`, `Fill <0,0,1>`, `Fill <0,1,0>`, `Fission <0,0,1> 5`, `Wait`, `Halt`.
const MOVE: &[u8] = &[0x14, 0x10];

const FILL: &[u8] = &[0x73];

const FILL_ABOVE: &[u8] = &[0x83];

const SPLIT: &[u8] = &[0x75, 0x05];

const WAIT: &[u8] = &[0xFE];

const HALT: &[u8] = &[0xFF];

/// Returns a machine of resolution 3 over the empty model, with this many notes.
fn empty_of_three(rt: &impl Abort, alloc: Global, notes: u32) -> Handle {
    let mut handle = Handle::empty(alloc);
    assert_eq!(rt;
        nanobot_machine_start_empty(alloc, 3, false, notes, &mut handle),
        0
    );
    handle
}

/// Asserts the status, energy and number of steps of a step, and the rule that it breaks, 0 for none.
fn assert_steps(
    rt: &impl Abort,
    alloc: Global,
    handle: &mut Handle,
    commands: &[u8],
    (status, energy, steps, rule): (u32, i64, u32, u32),
) {
    let mut told = StepReport {
        energy: 7,
        offset: 7,
        steps: 7,
        active: 7,
        broken: BrokenReport::none(),
        high: 7,
        changed: 7,
    };
    assert_eq!(rt;
        nanobot_machine_step(alloc, handle, commands, &mut told),
        status
    );
    assert_eq!(rt; told.energy, energy);
    assert_eq!(rt; told.steps, steps);
    assert_eq!(rt; told.broken.rule, rule);
}

/// Asserts the status and energy that a step would have, whether it leaves a bot, and the rule that it breaks, 0 for none.
fn assert_judged(
    rt: &impl Abort,
    alloc: Global,
    handle: &mut Handle,
    commands: &[u8],
    (status, energy, halts, rule): (u32, i64, u32, u32),
) {
    let mut told = JudgedReport {
        energy: 7,
        offset: 7,
        halts: 7,
        broken: BrokenReport::none(),
        active: 7,
        high: 7,
        changed: 7,
    };
    assert_eq!(rt;
        nanobot_machine_judge(alloc, handle, commands, &mut told),
        status
    );
    assert_eq!(rt; told.energy, energy);
    assert_eq!(rt; told.halts, halts);
    assert_eq!(rt; told.broken.rule, rule);
}

/// Asserts the result of playing a trace: the status, the steps made, their bytes, and the first byte of a bad or cut command.
fn assert_plays(
    rt: &impl Abort,
    alloc: Global,
    handle: &mut Handle,
    (trace, most): (&[u8], u32),
    (status, made, used, offset): (u32, u32, u64, u64),
) {
    let mut told = PlayedReport {
        energy: 7,
        used: 7,
        offset: 7,
        made: 7,
        steps: 7,
        active: 7,
        high: 7,
        broken: BrokenReport::none(),
    };
    assert_eq!(rt;
        nanobot_machine_play(alloc, handle, trace, most, &mut told),
        status
    );
    assert_eq!(rt; told.made, made);
    assert_eq!(rt; told.used, used);
    assert_eq!(rt; told.offset, offset);
}

/// Asserts the bytes of the machine's trace.
fn assert_trace(rt: &impl Abort, alloc: Global, handle: &mut Handle, bytes: &[u8]) {
    let mut trace = [7u8; 8];
    let mut size = 0;
    assert_eq!(rt;
        nanobot_machine_trace(alloc, handle, &mut trace, &mut size),
        0
    );
    assert_eq!(rt; size, bytes.len());
    assert_eq!(rt; trace.get(..size), Some(bytes));
}

/// Asserts the number of coordinates at which the matrix differs from the model.
fn assert_differs(rt: &impl Abort, alloc: Global, handle: &mut Handle, target: &[u8], want: u32) {
    let mut count = 7;
    let mut refusal = ModelReport::none();
    assert_eq!(rt;
        nanobot_machine_differences(alloc, handle, target, &mut count, &mut refusal),
        0
    );
    assert_eq!(rt; count, want);
}

/// Asserts the status of an undo.
fn assert_undone(rt: &impl Abort, alloc: Global, handle: &mut Handle, status: u32) {
    assert_eq!(rt; nanobot_machine_undo(alloc, handle), status);
}

/// Asserts that the machine has made `steps` steps and can undo `noted` of them.
fn assert_stands(rt: &impl Abort, alloc: Global, handle: &mut Handle, steps: u32, noted: u64) {
    let mut told = MachineReport {
        energy: 7,
        steps: 7,
        active: 7,
        resolution: 7,
        high: 7,
        noted: 7,
    };
    assert_eq!(rt; nanobot_machine_tell(alloc, handle, &mut told), 0);
    assert_eq!(rt; told.steps, steps);
    assert_eq!(rt; told.noted, noted);
    assert_eq!(rt; told.resolution, 3);
}

/// Asserts the number of full voxels.
fn assert_counts(rt: &impl Abort, alloc: Global, handle: &mut Handle, full: u32) {
    let mut count = 7;
    assert_eq!(rt; nanobot_machine_count(alloc, handle, &mut count), 0);
    assert_eq!(rt; count, full);
}

/// Asserts the level at a coordinate, or the status if it has none.
fn assert_level(rt: &impl Abort, alloc: Global, handle: &mut Handle, y: u32, status: u32) {
    let mut level = 7;
    assert_eq!(rt;
        nanobot_machine_level(alloc, handle, 1, y, 1, &mut level),
        status
    );
    assert_eq!(rt; level, if status == 0 { 0 } else { 7 });
}

#[test]
fn a_post_is_built_and_taken_back(rt: HostRuntime) -> Result<(), Fail> {
    let alloc = rt.alloc();
    let mut handle = empty_of_three(&rt, alloc, 2);
    assert_steps(&rt, alloc, &mut handle, MOVE, (0, 103, 1, 0));
    assert_steps(&rt, alloc, &mut handle, FILL, (0, 216, 2, 0));
    assert_level(&rt, alloc, &mut handle, 0, 0);
    assert_undone(&rt, alloc, &mut handle, 0);
    assert_counts(&rt, alloc, &mut handle, 0);
    assert_undone(&rt, alloc, &mut handle, 0);
    assert_undone(&rt, alloc, &mut handle, 15);
    assert_stands(&rt, alloc, &mut handle, 0, 0);
    nanobot_machine_end(alloc, &mut handle);
    assert_undone(&rt, alloc, &mut handle, 11);
    Ok(())
}

#[test]
fn a_refused_step_leaves_all(rt: HostRuntime) -> Result<(), Fail> {
    let alloc = rt.alloc();
    let mut handle = empty_of_three(&rt, alloc, 0);
    assert_steps(&rt, alloc, &mut handle, FILL_ABOVE, (1, 0, 0, 12));
    assert_counts(&rt, alloc, &mut handle, 0);
    assert_level(&rt, alloc, &mut handle, 1, 17);
    assert_level(&rt, alloc, &mut handle, 3, 16);
    assert_steps(&rt, alloc, &mut handle, &[0xFE, 0x04], (4, 0, 0, 0));
    assert_steps(&rt, alloc, &mut handle, &[], (13, 0, 0, 0));
    assert_steps(&rt, alloc, &mut handle, WAIT, (0, 101, 1, 0));
    assert_steps(&rt, alloc, &mut handle, HALT, (0, 202, 2, 0));
    assert_steps(&rt, alloc, &mut handle, WAIT, (12, 202, 2, 0));
    Ok(())
}

#[test]
fn a_copy_goes_its_own_way(rt: HostRuntime) -> Result<(), Fail> {
    let alloc = rt.alloc();
    let mut handle = empty_of_three(&rt, alloc, 5);
    assert_steps(&rt, alloc, &mut handle, MOVE, (0, 103, 1, 0));
    let mut copy = Handle::empty(alloc);
    assert_eq!(&rt; nanobot_machine_copy(alloc, &mut handle, &mut copy), 0);
    assert_steps(&rt, alloc, &mut copy, FILL, (0, 216, 2, 0));
    assert_counts(&rt, alloc, &mut handle, 0);
    assert_counts(&rt, alloc, &mut copy, 1);
    assert_stands(&rt, alloc, &mut handle, 1, 1);
    assert_stands(&rt, alloc, &mut copy, 2, 1);
    Ok(())
}

#[test]
fn two_bots_are_told(rt: HostRuntime) -> Result<(), Fail> {
    let alloc = rt.alloc();
    let mut handle = empty_of_three(&rt, alloc, 0);
    assert_steps(&rt, alloc, &mut handle, SPLIT, (0, 125, 1, 0));
    let mut bots = [BotReport {
        seeds: 0,
        bid: 0,
        x: 0,
        y: 0,
        z: 0,
    }; 2];
    let mut count = 0;
    assert_eq!(&rt;
        nanobot_machine_bots(alloc, &mut handle, &mut bots[..1], &mut count),
        10
    );
    assert_eq!(&rt; count, 2);
    assert_eq!(&rt;
        nanobot_machine_bots(alloc, &mut handle, &mut bots, &mut count),
        0
    );
    assert_eq!(&rt; bots[1].bid, 2);
    assert_eq!(&rt; bots[1].z, 1);
    assert_eq!(&rt; bots[1].seeds, 0b1111_1000);
    Ok(())
}

#[test]
fn models_are_started_compared_and_given(rt: HostRuntime) -> Result<(), Fail> {
    let alloc = rt.alloc();
    let mut handle = Handle::empty(alloc);
    let mut refusal = ModelReport::none();
    assert_eq!(&rt;
        nanobot_machine_start(alloc, BORDER, false, 0, &mut handle, &mut refusal),
        3
    );
    assert_eq!(&rt; refusal.number, 6);
    assert_eq!(&rt;
        nanobot_machine_start(alloc, P3, true, 4097, &mut handle, &mut refusal),
        2
    );
    assert_eq!(&rt;
        nanobot_machine_start(alloc, P3, true, 0, &mut handle, &mut refusal),
        0
    );
    let mut full = 7;
    assert_eq!(&rt;
        nanobot_machine_full(alloc, &mut handle, 1, 0, 1, &mut full),
        0
    );
    assert_eq!(&rt; full, 1);
    let mut place = PlaceReport { x: 7, y: 7, z: 7 };
    assert_eq!(&rt;
        nanobot_machine_compare(alloc, &mut handle, P3, &mut place, &mut refusal),
        0
    );
    assert_eq!(&rt;
        nanobot_machine_compare(alloc, &mut handle, BORDER, &mut place, &mut refusal),
        18
    );
    assert_eq!(&rt; place.x, 0);
    let mut model = vec![in alloc; 0u8; 5]?;
    let mut size = 0;
    assert_eq!(&rt;
        nanobot_machine_model(alloc, &mut handle, &mut model, &mut size),
        0
    );
    assert_eq!(&rt; model.as_slice(), P3);
    Ok(())
}

#[test]
fn steps_are_judged_and_not_made(rt: HostRuntime) -> Result<(), Fail> {
    let alloc = rt.alloc();
    let mut handle = empty_of_three(&rt, alloc, 1);
    assert_judged(&rt, alloc, &mut handle, FILL, (0, 113, 0, 0));
    assert_counts(&rt, alloc, &mut handle, 0);
    assert_judged(&rt, alloc, &mut handle, FILL_ABOVE, (1, 0, 0, 12));
    assert_judged(&rt, alloc, &mut handle, HALT, (0, 101, 1, 0));
    assert_judged(&rt, alloc, &mut handle, &[0x04], (4, 0, 0, 0));
    assert_judged(&rt, alloc, &mut handle, &[], (13, 0, 0, 0));
    assert_stands(&rt, alloc, &mut handle, 0, 0);
    assert_steps(&rt, alloc, &mut handle, FILL, (0, 113, 1, 0));
    assert_judged(&rt, alloc, &mut handle, WAIT, (0, 214, 0, 0));
    assert_undone(&rt, alloc, &mut handle, 0);
    assert_stands(&rt, alloc, &mut handle, 0, 0);
    Ok(())
}

#[test]
fn a_trace_is_kept(rt: HostRuntime) -> Result<(), Fail> {
    let alloc = rt.alloc();
    let mut handle = empty_of_three(&rt, alloc, 2);
    let mut size = 7;
    assert_eq!(&rt;
        nanobot_machine_trace(alloc, &mut handle, &mut [], &mut size),
        21
    );
    assert_eq!(&rt; size, 0);
    assert_eq!(&rt; nanobot_machine_keep(alloc, &mut handle), 0);
    assert_trace(&rt, alloc, &mut handle, &[]);
    assert_steps(&rt, alloc, &mut handle, SPLIT, (0, 125, 1, 0));
    assert_trace(&rt, alloc, &mut handle, SPLIT);
    assert_steps(&rt, alloc, &mut handle, &[0xFE, 0xFE], (0, 246, 2, 0));
    assert_steps(&rt, alloc, &mut handle, &[0xFE, 0xFF], (1, 246, 2, 2));
    assert_trace(&rt, alloc, &mut handle, &[0x75, 0x05, 0xFE, 0xFE]);
    let mut copy = Handle::empty(alloc);
    assert_eq!(&rt; nanobot_machine_copy(alloc, &mut handle, &mut copy), 0);
    assert_undone(&rt, alloc, &mut handle, 0);
    assert_trace(&rt, alloc, &mut handle, SPLIT);
    assert_trace(&rt, alloc, &mut copy, &[0x75, 0x05, 0xFE, 0xFE]);
    assert_eq!(&rt; nanobot_machine_keep(alloc, &mut copy), 20);
    Ok(())
}

#[test]
fn differences_are_counted(rt: HostRuntime) -> Result<(), Fail> {
    let alloc = rt.alloc();
    let mut handle = empty_of_three(&rt, alloc, 0);
    assert_differs(&rt, alloc, &mut handle, P3, 1);
    assert_steps(&rt, alloc, &mut handle, FILL, (0, 113, 1, 0));
    assert_differs(&rt, alloc, &mut handle, P3, 2);
    let mut count = 7;
    let mut refusal = ModelReport::none();
    assert_eq!(&rt;
        nanobot_machine_differences(alloc, &mut handle, &[0x02, 0x00], &mut count, &mut refusal),
        19
    );
    assert_eq!(&rt; count, 0);
    assert_eq!(&rt;
        nanobot_machine_differences(alloc, &mut handle, &[], &mut count, &mut refusal),
        3
    );
    assert_eq!(&rt; refusal.number, 1);
    nanobot_machine_end(alloc, &mut handle);
    assert_eq!(&rt;
        nanobot_machine_differences(alloc, &mut handle, P3, &mut count, &mut refusal),
        11
    );
    Ok(())
}

/// Asserts the status and the number of voxels that still differ from the target.
fn assert_remains(rt: &impl Abort, alloc: Global, handle: &mut Handle, want: (u32, u32)) {
    let mut count = 7;
    let status = nanobot_machine_remaining(alloc, handle, &mut count);
    assert_eq!(rt; status, want.0);
    assert_eq!(rt; count, want.1);
}

#[test]
fn a_target_is_kept(rt: HostRuntime) -> Result<(), Fail> {
    let alloc = rt.alloc();
    let mut handle = empty_of_three(&rt, alloc, 2);
    assert_remains(&rt, alloc, &mut handle, (22, 7));
    let mut count = 7;
    let mut refusal = ModelReport::none();
    assert_eq!(&rt;
        nanobot_machine_aim(alloc, &mut handle, &[0x02, 0x00], &mut count, &mut refusal),
        19
    );
    assert_remains(&rt, alloc, &mut handle, (22, 7));
    assert_eq!(&rt;
        nanobot_machine_aim(alloc, &mut handle, P3, &mut count, &mut refusal),
        0
    );
    assert_eq!(&rt; count, 1);
    assert_steps(&rt, alloc, &mut handle, FILL, (0, 113, 1, 0));
    assert_remains(&rt, alloc, &mut handle, (0, 2));
    let mut other = Handle::empty(alloc);
    assert_eq!(&rt; nanobot_machine_copy(alloc, &mut handle, &mut other), 0);
    assert_undone(&rt, alloc, &mut handle, 0);
    assert_remains(&rt, alloc, &mut handle, (0, 1));
    assert_remains(&rt, alloc, &mut other, (0, 2));
    nanobot_machine_end(alloc, &mut other);
    assert_remains(&rt, alloc, &mut other, (11, 7));
    nanobot_machine_end(alloc, &mut handle);
    Ok(())
}

#[test]
fn commands_are_counted(rt: HostRuntime) {
    let alloc = rt.alloc();
    let mut count = 7;
    let mut at = 7;
    let trace = [0x75, 0x05, 0xFE, 0xFE, 0xFF];
    assert_eq!(&rt; nanobot_commands(alloc, &trace, &mut count, &mut at), 0);
    assert_eq!(&rt; count, 4);
    assert_eq!(&rt; at, 0);
    assert_eq!(&rt;
        nanobot_commands(alloc, &trace[..1], &mut count, &mut at),
        4
    );
    assert_eq!(&rt; count, 0);
    assert_eq!(&rt;
        nanobot_commands(alloc, &[0xFE, 0x04], &mut count, &mut at),
        4
    );
    assert_eq!(&rt; at, 1);
}

#[test]
fn traces_are_played(rt: HostRuntime) {
    let alloc = rt.alloc();
    let mut handle = empty_of_three(&rt, alloc, 5);
    let trace = [0x75, 0x05, 0xFE, 0xFE, 0xFE, 0x14, 0x10];
    assert_plays(&rt, alloc, &mut handle, (&trace, 2), (0, 2, 4, 0));
    assert_stands(&rt, alloc, &mut handle, 2, 2);
    assert_plays(&rt, alloc, &mut handle, (&trace[4..], 9), (0, 1, 3, 0));
    assert_plays(&rt, alloc, &mut handle, (&[], 9), (0, 0, 0, 0));
    assert_undone(&rt, alloc, &mut handle, 0);
    assert_plays(
        &rt,
        alloc,
        &mut handle,
        (&[0xFE, 0xFE, 0xFE], 9),
        (13, 1, 2, 0),
    );
    assert_plays(
        &rt,
        alloc,
        &mut handle,
        (&[0xFE, 0xFE, 0xFE, 0x04], 9),
        (4, 1, 2, 3),
    );
    assert_plays(
        &rt,
        alloc,
        &mut handle,
        (&[0xFE, 0xFF, 0x04], 9),
        (1, 0, 0, 0),
    );
    assert_plays(&rt, alloc, &mut handle, (&[0xFE, 0x14], 9), (4, 0, 0, 1));
}

#[test]
fn a_run_is_played_to_its_end(rt: HostRuntime) {
    let alloc = rt.alloc();
    let mut handle = empty_of_three(&rt, alloc, 0);
    let trace = [0x14, 0x10, 0x73, 0x14, 0x0E, 0xFF];
    assert_plays(&rt, alloc, &mut handle, (&trace, 4), (0, 4, 6, 0));
    assert_plays(&rt, alloc, &mut handle, (&[], 4), (0, 0, 0, 0));
    assert_plays(&rt, alloc, &mut handle, (&trace, 4), (12, 0, 0, 0));
    nanobot_machine_end(alloc, &mut handle);
    assert_plays(&rt, alloc, &mut handle, (&trace, 4), (11, 7, 7, 7));
}
