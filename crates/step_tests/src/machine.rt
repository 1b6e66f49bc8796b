//! Steps of a machine of `step_machine` under Low: repaired levels and floating voxels.
ghost use Rattle.vox_geom.specs.Counting.{IsBlankOf};

use crate::asserted::{assert_goes, assert_level, assert_made, assert_refused, ungrounded};
use crate::common::{at, empty, near, source};
use counter_permit::CounterPermit;
use nano_spec::{Command, Harmonics, Profile};
use std::alloc::Global;
use std::marker::Brand;
use std::process::Abort;
use std::sync::ledger::{Blank, Ledger};
use std::test::Fail;
use step_machine::{Machine, StepFault};
use vox_geom::{Coord, Memory, Steps};

/// Asserts the state of a machine that is poisoned after two fills.
fn assert_kept<L: Ledger>(rt: &impl Abort, machine: &Machine, steps: &mut Steps<L>) {
    assert!(rt; machine.energy() == 448);
    assert!(rt; machine.harmonics() == Harmonics::Low);
    assert!(rt; machine.crew().count() == 1);
    assert!(rt; machine.matrix().count(steps) == 2);
}

/// Under Low a bot fills two voxels, one on the other, and the lower one is voided.
fn posts<L: Ledger>(rt: &impl Abort, blank: Blank, alloc: Global) -> Result<(), Memory>
    requires blank { IsBlankOf blank L.name L.parts }
{
    let mut steps: Steps<L> = Steps::new(blank, CounterPermit);
    let source = empty(alloc, 4)?;
    let mut machine = Machine::start(alloc, source, Profile::full(), &mut steps)?;
    let fill = [Command::Fill(near(rt, 1, 0, 0))];
    assert_goes(rt, &mut machine, &fill, 224, &mut steps);
    let fill = [Command::Fill(near(rt, 1, 1, 0))];
    assert_goes(rt, &mut machine, &fill, 448, &mut steps);
    let upper = at(1, 1, 0);
    assert_level(rt, &machine, upper, Some(1), &mut steps);
    assert_level(rt, &machine, at(1, 2, 0), None, &mut steps);
    let void = [Command::Void(near(rt, 1, 0, 0))];
    let fault = ungrounded(3, upper);
    assert_refused(rt, &mut machine, &void, fault, &mut steps);
    assert_refused(rt, &mut machine, &void, StepFault::Spent, &mut steps);
    assert_kept(rt, &machine, &mut steps);
    Ok(())
}

#[test]
fn a_step_that_breaks_grounding_spends_the_machine(rt: HostRuntime) -> Result<(), Fail> {
    posts::<Brand>(&rt, Blank::new(1), rt.alloc())?;
    Ok(())
}

/// Returns a machine over a ring of eight voxels around (2,1,2), with the posts that support it.
fn ring<L: Ledger>(
    rt: &impl Abort,
    alloc: Global,
    posts: &[Coord],
    steps: &mut Steps<L>,
) -> Result<Machine, Memory> {
    let mut full = Vec::new(alloc);
    for c in posts {
        full.push(*c).map_err(|_| Memory)?;
    }
    for x in 1..4 {
        for z in 1..4 {
            if x != 2 || z != 2 {
                full.push(Coord { x, y: 1, z }).map_err(|_| Memory)?;
            }
        }
    }
    let ring = source(rt, alloc, 5, &full, steps)?;
    Machine::start(alloc, ring, Profile::full(), steps)
}

/// Asserts the levels of the ring: those of three voxels at one of its corners, and of the others.
fn ring_levels<L: Ledger>(
    rt: &impl Abort,
    machine: &Machine,
    corner: u32,
    beside: u32,
    steps: &mut Steps<L>,
) {
    let levels = [
        (at(1, 1, 1), corner),
        (at(1, 1, 2), beside),
        (at(2, 1, 1), beside),
        (at(1, 1, 3), 3),
        (at(2, 1, 3), 2),
        (at(3, 0, 3), 0),
        (at(3, 1, 1), 3),
        (at(3, 1, 2), 2),
        (at(3, 1, 3), 1),
    ];
    for (c, expected) in levels.iter() {
        assert_level(rt, machine, *c, Some(*expected), steps);
    }
}

/// A bot voids one of two posts under a ring: the other then supports the corner above it. Without its only post a ring floats, and
/// the machine is poisoned.
fn rings<L: Ledger>(rt: &impl Abort, blank: Blank, alloc: Global) -> Result<(), Memory>
    requires blank { IsBlankOf blank L.name L.parts }
{
    let mut steps: Steps<L> = Steps::new(blank, CounterPermit);
    let posts = [at(1, 0, 1), at(3, 0, 3)];
    let void = [Command::Void(near(rt, 1, 0, 1))];
    let mut machine = ring(rt, alloc, &posts, &mut steps)?;
    ring_levels(rt, &machine, 1, 2, &mut steps);
    assert_made(rt, &mut machine, &void, &mut steps);
    ring_levels(rt, &machine, 5, 4, &mut steps);
    assert_level(rt, &machine, posts[0], None, &mut steps);
    let mut machine = ring(rt, alloc, &posts[..1], &mut steps)?;
    let fault = ungrounded(1, at(1, 1, 1));
    assert_refused(rt, &mut machine, &void, fault, &mut steps);
    let wait = [Command::Wait];
    assert_refused(rt, &mut machine, &wait, StepFault::Spent, &mut steps);
    Ok(())
}

#[test]
fn a_ring_hangs_on_its_other_post_or_floats(rt: HostRuntime) -> Result<(), Fail> {
    rings::<Brand>(&rt, Blank::new(1), rt.alloc())?;
    Ok(())
}
