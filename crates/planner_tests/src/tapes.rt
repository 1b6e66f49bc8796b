//! A plan of two bots on a tape of `plan_tape`, with energies worked out by hand from the rules, and the lowest difference of two
//! matrices.
ghost use Rattle.std.specs.Prelude.{◌≡◌, IfOk, IsTrue, None, OnOk};
ghost use Rattle.vox_geom.specs.Counting.{IsBlankOf};
ghost use Rattle.nano_spec.specs.Grounded.{FirstUngrounded};
ghost use Rattle.plan_tape.specs.Progress.{state_of};

use crate::models::{at, model};
use counter_permit::CounterPermit;
use model_file::first_ungrounded;
use nano_spec::{Command, Profile};
use plan_tape::{Plan, Tape, lowest_difference};
use std::alloc::Global;
use std::marker::Brand;
use std::process::Abort;
use std::sync::ledger::{Blank, Ledger};
use std::test::Fail;
use system_state::{System, Turns};
use vox_geom::{Coord, Diff, Long, Memory, Near, Steps};
use vox_planes::Planes;

fn near(rt: &impl Abort, dx: i16, dy: i16, dz: i16) -> Near {
    Near::of(Diff { dx, dy, dz }).expect(rt, "near")
}

fn long(rt: &impl Abort, dx: i16, dy: i16, dz: i16) -> Long {
    Long::of(Diff { dx, dy, dz }).expect(rt, "long")
}

/// Returns whether each full voxel is grounded.
fn is_grounded(alloc: Global, planes: &Planes) -> Result<bool, Memory>
    ensures { IfOk result (λ held. IsTrue held → FirstUngrounded planes.now None) }
{
    Ok(first_ungrounded(alloc, planes)?.is_none())
}

/// Makes a step of all bots after the test has checked its conditions: the system makes it first.
fn step<L: Ledger>(
    rt: &impl Abort,
    alloc: Global,
    tape: &mut Tape,
    system: &mut System,
    turns: &mut Turns,
    commands: &[Command],
    steps: &mut Steps<L>,
) -> Result<(), Memory>
    requires { system.old ≡ state_of tape.old }
    ensures { OnOk result (system.new ≡ state_of tape.new) }
{
    let bots = usize::from(system.crew().count());
    let energy = system.energy();
    let done = tape.steps_done();
    assert!(rt; bots >= 1);
    assert!(rt; commands.len() == bots);
    assert!(rt; energy >= 0);
    assert!(rt; energy <= 1_000_000);
    assert!(rt; done < 1000);
    let broken = system.judge(commands, done + 1, turns, steps);
    assert!(rt; broken.is_none());
    system.advance(commands, turns, steps);
    assert!(rt; is_grounded(alloc, system.matrix())?);
    tape.step(commands)
}

/// Returns the plan of a tape that all bots have left.
fn finished(rt: &impl Abort, tape: Tape) -> Plan {
    assert!(rt; tape.crew().count() == 0);
    tape.finish()
}

/// Asserts the energy of the steps so far.
fn assert_energy(rt: &impl Abort, tape: &Tape, energy: i64) {
    assert!(rt; tape.energy() == energy);
}

/// Asserts that the bot with this bid is at a coordinate.
fn assert_stands(rt: &impl Abort, tape: &Tape, c: Coord, bid: u8) {
    assert_eq!(rt; tape.crew().at(c), Some(bid));
}

/// Splits a bot, and moves both out.
fn go_out<L: Ledger>(
    rt: &impl Abort,
    alloc: Global,
    tape: &mut Tape,
    system: &mut System,
    turns: &mut Turns,
    steps: &mut Steps<L>,
) -> Result<(), Memory>
    requires { system.old ≡ state_of tape.old }
    ensures { OnOk result (system.new ≡ state_of tape.new) }
{
    let split = [Command::Fission(near(rt, 0, 0, 1), 0)];
    step(rt, alloc, tape, system, turns, &split, steps)?;
    assert_energy(rt, tape, 125);
    let out = [
        Command::SMove(long(rt, 2, 0, 0)),
        Command::SMove(long(rt, 1, 0, 0)),
    ];
    step(rt, alloc, tape, system, turns, &out, steps)?;
    assert_energy(rt, tape, 252);
    assert_stands(rt, tape, at(1, 0, 1), 2);
    Ok(())
}

/// Moves both back, fuses them, and halts the remaining one.
fn come_home<L: Ledger>(
    rt: &impl Abort,
    alloc: Global,
    tape: &mut Tape,
    system: &mut System,
    turns: &mut Turns,
    steps: &mut Steps<L>,
) -> Result<(), Memory>
    requires { system.old ≡ state_of tape.old }
{
    let back = [
        Command::SMove(long(rt, -2, 0, 0)),
        Command::SMove(long(rt, -1, 0, 0)),
    ];
    step(rt, alloc, tape, system, turns, &back, steps)?;
    let fuse = [
        Command::FusionP(near(rt, 0, 0, 1)),
        Command::FusionS(near(rt, 0, 0, -1)),
    ];
    step(rt, alloc, tape, system, turns, &fuse, steps)?;
    step(rt, alloc, tape, system, turns, &[Command::Halt], steps)
}

/// Plans over a source: splits a bot, moves both out and back, and fuses them again.
fn planned<L: Ledger>(
    rt: &impl Abort,
    alloc: Global,
    source: Planes,
    steps: &mut Steps<L>,
) -> Result<Plan, Memory> {
    let mut turns = Turns::new();
    assert!(rt; is_grounded(alloc, &source)?);
    let mut system = System::opening(source.copy(alloc)?, Profile::full());
    let mut tape = Tape::start(alloc, source)?;
    go_out(rt, alloc, &mut tape, &mut system, &mut turns, steps)?;
    come_home(rt, alloc, &mut tape, &mut system, &mut turns, steps)?;
    Ok(finished(rt, tape))
}

/// Returns that plan at resolution 3.
fn of_two<L: Ledger>(rt: &impl Abort, alloc: Global, blank: Blank) -> Result<Plan, Memory>
    requires blank { IsBlankOf blank L.name L.parts }
{
    let mut steps: Steps<L> = Steps::new(blank, CounterPermit);
    let source = Planes::empty(alloc, 3)?;
    planned(rt, alloc, source, &mut steps)
}

#[test]
fn two_bots_go_out_and_come_home(rt: HostRuntime) -> Result<(), Fail> {
    let plan = of_two::<Brand>(&rt, rt.alloc(), Blank::new(1))?;
    assert_eq!(rt; (plan.energy, plan.steps), (577, 5));
    assert_eq!(rt; plan.commands.as_slice().len(), 8);
    Ok(())
}

/// Asserts the lowest layer in which two matrices of resolution 3 differ.
fn assert_lowest(
    rt: &impl Abort,
    alloc: Global,
    source: &[Coord],
    target: &[Coord],
    lowest: Option<u16>,
) -> Result<(), Memory> {
    let source = model(alloc, 3, source)?;
    let target = model(alloc, 3, target)?;
    assert!(rt; source.resolution() == target.resolution());
    assert_eq!(rt; lowest_difference(&source, &target), lowest);
    Ok(())
}

#[test]
fn the_lowest_difference_is_found(rt: HostRuntime) -> Result<(), Fail> {
    let (foot, middle, head) = (at(1, 0, 1), at(1, 1, 1), at(1, 2, 1));
    let rows: [(&[Coord], &[Coord], Option<u16>); 4] = [
        (&[], &[], None),
        (&[foot], &[foot], None),
        (&[], &[foot, middle], Some(0)),
        (&[foot, middle], &[foot, head], Some(1)),
    ];
    for (source, target, lowest) in rows {
        assert_lowest(&rt, rt.alloc(), source, target, lowest)?;
    }
    Ok(())
}
