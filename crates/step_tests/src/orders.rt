//! Steps of a machine of `step_machine` with groups in any order, and an undone step.
ghost use Rattle.std.specs.Prelude.{◌≡◌, length, IfOk, IsPermutation};
ghost use Rattle.vox_geom.specs.Counting.{IsBlankOf};
ghost use Rattle.nano_spec.specs.Act.{acts};
ghost use Rattle.nano_spec.specs.Serial.{leader_bids};
ghost use Rattle.nano_spec.specs.State.{IsWellFormed};

use crate::asserted::assert_made;
use crate::common::{empty, long, near};
use arrayvec::ArrayVec;
use bot_crew::MOST_BOTS;
use counter_permit::CounterPermit;
use nano_spec::{Command, Profile};
use std::alloc::Global;
use std::marker::Brand;
use std::process::Abort;
use std::sync::ledger::{Blank, Ledger};
use std::test::Fail;
use step_machine::Machine;
use vox_geom::{Memory, Steps};

/// Returns the leaders of a step of the bots 1 and 2, in rising order or in falling order.
fn order_of(
    rt: &impl Abort,
    machine: &Machine,
    commands: &[Command],
    falling: bool,
) -> ArrayVec<u8, MOST_BOTS>
    requires { length commands.now ≡ length machine.now.state.bots }
    ensures { IsPermutation (leader_bids (acts machine.now.state.bots commands.now)) result.items }
{
    let rising = machine.leaders(commands);
    assert!(rt; rising.as_slice() == [1, 2].as_slice());
    if !falling {
        return rising;
    }
    let mut order = rising;
    order.as_mut_slice().reverse();
    assert!(rt; order.as_slice() == [2, 1].as_slice());
    order
}

/// Two bots, the second just born next to the first, make a step whose groups are applied in rising order of their leaders, or in
/// falling order.
fn second_step<L: Ledger>(
    rt: &impl Abort,
    alloc: Global,
    commands: &[Command],
    falling: bool,
    steps: &mut Steps<L>,
) -> Result<Machine, Memory> {
    let source = empty(alloc, 5)?;
    let mut machine = Machine::start(alloc, source, Profile::full(), steps)?;
    let split = [Command::Fission(near(rt, 0, 0, 1), 0)];
    assert_made(rt, &mut machine, &split, steps);
    assert!(rt; machine.active() == 2);
    assert!(rt; commands.len() == 2);
    assert!(rt; machine.steps_done() < 1000);
    let order = order_of(rt, &machine, commands, falling);
    let made = machine.step_in_order(commands, order.as_slice(), steps);
    assert!(rt; made.is_ok());
    Ok(machine)
}

/// Asserts that two machines have the same state, with this energy.
fn assert_same<L: Ledger>(
    rt: &impl Abort,
    one: &Machine,
    other: &Machine,
    energy: i64,
    steps: &mut Steps<L>,
) {
    assert_eq!(rt; one.crew().bots(), other.crew().bots());
    assert!(rt; one.matrix().resolution() == other.matrix().resolution());
    assert!(rt; one.matrix().equal(other.matrix(), steps).is_none());
    assert!(rt; one.harmonics() == other.harmonics());
    assert!(rt; one.energy() == energy);
    assert!(rt; other.energy() == energy);
}

/// A step of two bots in both orders of its groups ends in one state, with this energy.
fn both_orders<L: Ledger>(
    rt: &impl Abort,
    alloc: Global,
    commands: &[Command],
    energy: i64,
    steps: &mut Steps<L>,
) -> Result<(), Memory> {
    let rising = second_step(rt, alloc, commands, false, steps)?;
    let falling = second_step(rt, alloc, commands, true, steps)?;
    assert_same(rt, &rising, &falling, energy, steps);
    Ok(())
}

/// One bot waits and the other moves; one splits and the other fills a voxel.
fn orders<L: Ledger>(rt: &impl Abort, blank: Blank, alloc: Global) -> Result<(), Memory>
    requires blank { IsBlankOf blank L.name L.parts }
{
    let mut steps: Steps<L> = Steps::new(blank, CounterPermit);
    let moves = [Command::Wait, Command::SMove(long(rt, 0, 0, 2))];
    both_orders(rt, alloc, &moves, 838, &mut steps)?;
    let changes = [
        Command::Fission(near(rt, 0, 1, 0), 1),
        Command::Fill(near(rt, 1, 0, 0)),
    ];
    both_orders(rt, alloc, &changes, 870, &mut steps)
}

#[test]
fn both_orders_of_two_groups_end_in_one_state(rt: HostRuntime) -> Result<(), Fail> {
    orders::<Brand>(&rt, Blank::new(1), rt.alloc())?;
    Ok(())
}

/// Returns a machine over an empty matrix.
fn empty_machine<L: Ledger>(alloc: Global, steps: &mut Steps<L>) -> Result<Machine, Memory>
    ensures { IfOk result (λ m. IsWellFormed m.state) }
{
    let source = empty(alloc, 4)?;
    Machine::start(alloc, source, Profile::full(), steps)
}

/// Returns the leaders of a step.
fn leaders_of(machine: &Machine, commands: &[Command]) -> ArrayVec<u8, MOST_BOTS>
    requires { length commands.now ≡ length machine.now.state.bots }
    ensures { IsPermutation (leader_bids (acts machine.now.state.bots commands.now)) result.items }
{
    machine.leaders(commands)
}

/// Makes and undoes a step of one bot that fills a voxel.
fn made_and_undone<L: Ledger>(
    rt: &impl Abort,
    machine: &mut Machine,
    commands: &[Command],
    steps: &mut Steps<L>,
) -> Result<(), Memory>
    requires { IsWellFormed machine.old.state }
{
    assert!(rt; machine.active() == 1);
    assert!(rt; machine.steps_done() < 1000);
    assert!(rt; commands.len() == 1);
    let order = leaders_of(machine, commands);
    match machine.step_noted(commands, order.as_slice(), steps) {
        Err(_) => Err(Memory),
        Ok((made, undo)) => {
            assert!(rt; made.energy == 224);
            assert!(rt; machine.matrix().count(steps) == 1);
            machine.undo(&undo, steps)
        }
    }
}

/// A bot fills a voxel, and the step is undone.
fn noted<L: Ledger>(rt: &impl Abort, blank: Blank, alloc: Global) -> Result<(), Memory>
    requires blank { IsBlankOf blank L.name L.parts }
{
    let mut steps: Steps<L> = Steps::new(blank, CounterPermit);
    let mut machine = empty_machine(alloc, &mut steps)?;
    let fill = [Command::Fill(near(rt, 1, 0, 0))];
    made_and_undone(rt, &mut machine, &fill, &mut steps)?;
    assert!(rt; machine.energy() == 0);
    assert!(rt; machine.steps_done() == 0);
    assert!(rt; machine.matrix().count(&mut steps) == 0);
    Ok(())
}

#[test]
fn a_noted_step_is_taken_back(rt: HostRuntime) -> Result<(), Fail> {
    noted::<Brand>(&rt, Blank::new(1), rt.alloc())?;
    Ok(())
}
