//! Eight bots void a block in one step, on a machine of `step_machine`.
ghost use Rattle.vox_geom.specs.Counting.{IsBlankOf};

use crate::asserted::{assert_goes, assert_made};
use crate::common::{far, long, near, source};
use counter_permit::CounterPermit;
use nano_spec::{Command, Profile};
use std::alloc::Global;
use std::marker::Brand;
use std::process::Abort;
use std::sync::ledger::{Blank, Ledger};
use std::test::Fail;
use step_machine::Machine;
use vox_geom::{Coord, Memory, Steps};

/// Returns the move by one along y if `up` is set, along z otherwise.
fn move_by_one(rt: &impl Abort, up: bool) -> Command {
    let d = if up {
        long(rt, 0, 1, 0)
    } else {
        long(rt, 0, 0, 1)
    };
    Command::SMove(d)
}

/// Makes five bots of the first one, at x = 0 and at x = 4: on the two sides of the block.
fn five_bots<L: Ledger>(rt: &impl Abort, machine: &mut Machine, steps: &mut Steps<L>) {
    let split = [Command::Fission(near(rt, 1, 0, 0), 3)];
    assert_made(rt, machine, &split, steps);
    let part = [move_by_one(rt, false), Command::SMove(long(rt, 3, 0, 0))];
    assert_made(rt, machine, &part, steps);
    let rise = [
        Command::Fission(near(rt, 0, 1, 0), 1),
        move_by_one(rt, false),
    ];
    assert_made(rt, machine, &rise, steps);
    let more = [
        Command::Fission(near(rt, 0, 0, 1), 0),
        Command::Fission(near(rt, 0, 1, 0), 1),
        move_by_one(rt, true),
    ];
    assert_made(rt, machine, &more, steps);
}

/// Makes eight bots of the five, each next to a corner of the block: four on either side.
fn eight_bots<L: Ledger>(rt: &impl Abort, machine: &mut Machine, steps: &mut Steps<L>) {
    let five = [
        Command::Wait,
        Command::Fission(near(rt, 0, 0, 1), 0),
        move_by_one(rt, true),
        Command::Fission(near(rt, 0, 0, 1), 0),
        move_by_one(rt, false),
    ];
    assert_made(rt, machine, &five, steps);
    let seven = [
        Command::Wait,
        Command::Wait,
        Command::Fission(near(rt, 0, 0, 1), 0),
        move_by_one(rt, false),
        Command::Wait,
        move_by_one(rt, false),
        Command::Wait,
    ];
    assert_made(rt, machine, &seven, steps);
    let last = [
        Command::Wait,
        Command::Wait,
        Command::Wait,
        move_by_one(rt, false),
        Command::Wait,
        Command::Wait,
        Command::Wait,
        Command::Wait,
    ];
    assert_made(rt, machine, &last, steps);
}

/// Returns the coordinates of a block of 3 by 3 by 3 on the floor, in the middle of a matrix of resolution 5.
fn cube(alloc: Global) -> Result<Vec<Coord>, Memory> {
    let mut full = Vec::new(alloc);
    for x in 1..4 {
        for y in 0..3 {
            for z in 1..4 {
                full.push(Coord { x, y, z }).map_err(|_| Memory)?;
            }
        }
    }
    Ok(full)
}

/// Asserts that eight bots void the block in one step, and the energy after that step.
fn block<L: Ledger>(rt: &impl Abort, blank: Blank, alloc: Global) -> Result<(), Memory>
    requires blank { IsBlankOf blank L.name L.parts }
{
    let mut steps: Steps<L> = Steps::new(blank, CounterPermit);
    let block = source(rt, alloc, 5, &cube(alloc)?, &mut steps)?;
    let mut machine = Machine::start(alloc, block, Profile::full(), &mut steps)?;
    five_bots(rt, &mut machine, &mut steps);
    eight_bots(rt, &mut machine, &mut steps);
    let before = machine.energy();
    let void = [
        Command::GVoid(near(rt, 1, 0, 0), far(rt, 2, 2, 2)),
        Command::GVoid(near(rt, -1, 0, 0), far(rt, -2, 2, 2)),
        Command::GVoid(near(rt, -1, 0, 0), far(rt, -2, -2, 2)),
        Command::GVoid(near(rt, -1, 0, 0), far(rt, -2, -2, -2)),
        Command::GVoid(near(rt, -1, 0, 0), far(rt, -2, 2, -2)),
        Command::GVoid(near(rt, 1, 0, 0), far(rt, 2, -2, 2)),
        Command::GVoid(near(rt, 1, 0, 0), far(rt, 2, -2, -2)),
        Command::GVoid(near(rt, 1, 0, 0), far(rt, 2, 2, -2)),
    ];
    assert!(rt; before >= 0);
    assert!(rt; before <= 1_000_000);
    assert_goes(rt, &mut machine, &void, before + 211, &mut steps);
    assert_eq!(rt; machine.matrix().count(&mut steps), 0);
    assert!(rt; !machine.spent());
    assert_eq!(rt; machine.forest().floating(), 0);
    Ok(())
}

#[test]
fn eight_bots_void_a_block_at_once(rt: HostRuntime) -> Result<(), Fail> {
    block::<Brand>(&rt, Blank::new(1), rt.alloc())?;
    Ok(())
}
