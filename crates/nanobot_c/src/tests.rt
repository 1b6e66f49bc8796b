//! Each export over small models and traces. The lines are those of `worked_rows`.
use crate::judging::{nanobot_check, nanobot_cost, nanobot_judge};
use crate::planning::{
    nanobot_plan_crew, nanobot_plan_group, nanobot_plan_layer, nanobot_plan_low,
    nanobot_plan_swarm, nanobot_plan_void,
};
use nanobot_words::Planner;
use std::alloc::Global;
use std::process::Abort;
use std::test::Fail;

/// The empty model of resolution 3.
const E3: &[u8] = &[0x03, 0x00, 0x00, 0x00, 0x00];

/// The model of resolution 3 with the voxel (1,0,1), and a trace that builds it.
const P3: &[u8] = &[0x03, 0x00, 0x04, 0x00, 0x00];

const POST: &[u8] = &[0x14, 0x10, 0x73, 0x14, 0x0E, 0xFF];

/// A model of resolution 5 with an unsupported part.
const HOOK: &[u8] = &[
    0x05, 0x00, 0x00, 0x00, 0x84, 0x10, 0x00, 0x00, 0x20, 0x00, 0x00, 0x42, 0x00, 0x00, 0x00, 0x00,
    0x00,
];

/// No bytes.
const NONE: &[u8] = &[];

/// A source, a target, a trace and whether the profile is the light one; and the expected status and line.
type Run = (
    &'static [u8],
    &'static [u8],
    &'static [u8],
    bool,
    u32,
    &'static str,
);

/// Accepted runs, runs that break a rule, and refused runs; a light profile, junk bytes, and no bytes.
const RUNS: [Run; 11] = [
    (NONE, P3, POST, false, 0, "ok energy 420 steps 4\n"),
    (P3, P3, POST, false, 0, "ok energy 414 steps 4\n"),
    (NONE, P3, POST, true, 0, "ok energy 420 steps 4\n"),
    (
        E3,
        E3,
        &[0x71, 0x1E, 0x1E, 0x1D],
        true,
        1,
        "broken 15 Forbidden step 1 bid 1 at 0 0 0\n",
    ),
    (
        E3,
        E3,
        &[0xFD, 0xFF],
        false,
        1,
        "broken 4 HaltLow step 2 bid 1 at 0 0 0\n",
    ),
    (
        NONE,
        P3,
        &[0xFF],
        false,
        1,
        "broken 14 WrongResult step 1 bid 0 at 1 0 1\n",
    ),
    (
        E3,
        E3,
        NONE,
        false,
        1,
        "broken 1 TraceEnds step 1 bid 1 at 0 0 0\n",
    ),
    (NONE, NONE, POST, false, 2, "words not understood\n"),
    (
        NONE,
        &[0x03, 0x00, 0x00, 0x00],
        POST,
        false,
        3,
        "target 3 Short want 5 have 4\n",
    ),
    (E3, HOOK, POST, false, 3, "resolutions 3 5\n"),
    (E3, E3, &[0x04, 0xFF], false, 4, "trace bad at 0\n"),
];

/// Asserts that the buffer begins with the line, has its old bytes behind it, and that the size is the line's.
fn assert_given(rt: &impl Abort, buffer: &[u8], size: usize, bytes: &[u8]) {
    assert_eq!(rt; size, bytes.len());
    assert!(rt; size < buffer.len());
    if size < buffer.len() {
        assert_eq!(rt; &buffer[..size], bytes);
        assert_eq!(rt; buffer[size], 7);
    }
}

/// Asserts the status and the line of the run.
fn assert_judged(rt: &impl Abort, alloc: Global, run: &Run) -> Result<(), Fail> {
    let (source, target, trace, light, status, line) = run;
    let mut buffer = vec![in alloc; 7u8; 100]?;
    let mut size = 0;
    let judged = nanobot_judge(alloc, source, target, trace, *light, &mut buffer, &mut size);
    assert_eq!(rt; judged, *status, "at {}", line);
    assert_given(rt, &buffer, size, line.as_bytes());
    Ok(())
}

/// Asserts that a buffer one byte too short is unchanged and the size is reported.
fn assert_too_small(rt: &impl Abort, alloc: Global, run: &Run) -> Result<(), Fail> {
    let (source, target, trace, light, _, line) = run;
    let mut buffer = vec![in alloc; 7u8; line.len().saturating_sub(1)]?;
    let was = buffer.to_vec(alloc)?;
    let mut size = 0;
    let judged = nanobot_judge(alloc, source, target, trace, *light, &mut buffer, &mut size);
    assert_eq!(rt; judged, 10, "at {}", line);
    assert_eq!(rt; size, line.len());
    assert_eq!(rt; buffer.as_slice(), was.as_slice());
    Ok(())
}

#[test]
fn runs_are_judged(rt: HostRuntime) -> Result<(), Fail> {
    for run in &RUNS {
        assert_judged(&rt, rt.alloc(), run)?;
    }
    Ok(())
}

#[test]
fn small_buffers(rt: HostRuntime) -> Result<(), Fail> {
    for run in &RUNS {
        assert_too_small(&rt, rt.alloc(), run)?;
    }
    Ok(())
}

/// Asserts the status, the energy and the number of steps of the run.
fn assert_cost(rt: &impl Abort, alloc: Global, run: &Run, want: (i64, u32)) {
    let (source, target, trace, light, status, line) = run;
    let mut energy = 7;
    let mut steps = 7;
    let told = nanobot_cost(
        alloc,
        source,
        target,
        trace,
        *light,
        &mut energy,
        &mut steps,
    );
    assert_eq!(rt; told, *status, "at {}", line);
    assert_eq!(rt; energy, want.0, "at {}", line);
    assert_eq!(rt; steps, want.1, "at {}", line);
}

#[test]
fn costs(rt: HostRuntime) {
    for run in &RUNS {
        let want = match run.5 {
            "ok energy 420 steps 4\n" => (420, 4),
            "ok energy 414 steps 4\n" => (414, 4),
            _ => (0, 0),
        };
        assert_cost(&rt, rt.alloc(), run, want);
    }
}

/// A model, and the expected status and line.
const CHECKS: [(&[u8], u32, &str); 4] = [
    (P3, 0, "legal resolution 3 full 1\n"),
    (NONE, 3, "model 1 NoByte\n"),
    (
        &[0x03, 0x01, 0x00, 0x00, 0x00],
        3,
        "model 6 Border at 0 0 0\n",
    ),
    (&[0xFB], 3, "model 2 Resolution 251\n"),
];

#[test]
fn models_are_checked(rt: HostRuntime) -> Result<(), Fail> {
    for (model, status, line) in &CHECKS {
        let mut buffer = vec![in rt.alloc(); 7u8; 100]?;
        let mut size = 0;
        let checked = nanobot_check(rt.alloc(), model, &mut buffer, &mut size);
        assert_eq!(&rt; checked, *status, "at {}", line);
        assert_given(&rt, &buffer, size, line.as_bytes());
    }
    Ok(())
}

/// Returns the answer of the planner's export, without the source or the target that it does not take.
fn planned(
    alloc: Global,
    planner: Planner,
    source: &[u8],
    target: &[u8],
    buffer: &mut [u8],
    size: &mut usize,
) -> u32 {
    match planner {
        Planner::Layer => nanobot_plan_layer(alloc, source, target, buffer, size),
        Planner::Group => nanobot_plan_group(alloc, source, target, buffer, size),
        Planner::Crew => nanobot_plan_crew(alloc, source, target, buffer, size),
        Planner::Void => nanobot_plan_void(alloc, source, buffer, size),
        Planner::Low => nanobot_plan_low(alloc, target, buffer, size),
        Planner::Swarm => nanobot_plan_swarm(alloc, target, buffer, size),
    }
}

/// A planner, a source, a target, and the expected status and bytes.
const PLANS: [(Planner, &[u8], &[u8], u32, &[u8]); 12] = [
    (Planner::Layer, P3, P3, 0, &[0xFF]),
    (Planner::Group, P3, P3, 0, &[0xFF]),
    (Planner::Crew, P3, P3, 0, &[0xFF]),
    (Planner::Void, E3, NONE, 0, &[0xFF]),
    (Planner::Low, NONE, E3, 0, &[0xFF]),
    (Planner::Swarm, NONE, E3, 0, &[0xFF]),
    (Planner::Layer, NONE, NONE, 2, b"words not understood\n"),
    (Planner::Group, NONE, NONE, 2, b"words not understood\n"),
    (Planner::Crew, NONE, NONE, 2, b"words not understood\n"),
    (Planner::Void, NONE, NONE, 3, b"source 1 NoByte\n"),
    (Planner::Low, NONE, HOOK, 9, b"unsupported at 3 1 1\n"),
    (Planner::Swarm, NONE, NONE, 3, b"target 1 NoByte\n"),
];

#[test]
fn plans_of_nothing_and_refusals(rt: HostRuntime) -> Result<(), Fail> {
    for (planner, source, target, status, bytes) in &PLANS {
        let mut buffer = vec![in rt.alloc(); 7u8; 100]?;
        let mut size = 0;
        let told = planned(rt.alloc(), *planner, source, target, &mut buffer, &mut size);
        assert_eq!(&rt; told, *status);
        assert_given(&rt, &buffer, size, bytes);
    }
    Ok(())
}

/// Asserts that the planner's trace has the size reported for a buffer of no bytes, and that the judge accepts it.
fn assert_accepted(
    rt: &impl Abort,
    alloc: Global,
    planner: Planner,
    source: &[u8],
    target: &[u8],
) -> Result<(), Fail> {
    let mut want = 0;
    let small = planned(alloc, planner, source, target, &mut [], &mut want);
    assert_eq!(rt; small, 10);
    let mut buffer = vec![in alloc; 7u8; want]?;
    let mut size = 0;
    let told = planned(alloc, planner, source, target, &mut buffer, &mut size);
    assert_eq!(rt; told, 0);
    assert_eq!(rt; size, want);
    let mut energy = 0;
    let mut steps = 0;
    let judged = nanobot_cost(
        alloc,
        source,
        target,
        &buffer,
        false,
        &mut energy,
        &mut steps,
    );
    assert_eq!(rt; judged, 0);
    assert!(rt; energy > 0);
    assert!(rt; steps > 1);
    Ok(())
}

#[test]
fn plans_are_accepted(rt: HostRuntime) -> Result<(), Fail> {
    let alloc = rt.alloc();
    assert_accepted(&rt, alloc, Planner::Layer, NONE, P3)?;
    assert_accepted(&rt, alloc, Planner::Group, P3, NONE)?;
    assert_accepted(&rt, alloc, Planner::Crew, NONE, P3)?;
    assert_accepted(&rt, alloc, Planner::Crew, P3, NONE)?;
    assert_accepted(&rt, alloc, Planner::Void, P3, NONE)?;
    assert_accepted(&rt, alloc, Planner::Low, NONE, P3)?;
    assert_accepted(&rt, alloc, Planner::Swarm, NONE, P3)
}
