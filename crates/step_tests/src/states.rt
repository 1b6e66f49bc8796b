//! Steps of one and of two bots in a state of `system_state` at resolution 3: the first broken rule, and the energy after them.
ghost use Rattle.vox_geom.specs.Counting.{IsBlankOf};

use crate::common::{long, near};
use counter_permit::CounterPermit;
use nano_spec::{Command, Profile, Rule};
use std::alloc::Global;
use std::marker::Brand;
use std::process::Abort;
use std::sync::ledger::{Blank, Ledger};
use std::test::Fail;
use system_state::{System, Turns};
use vox_geom::{Memory, Steps};
use vox_planes::Planes;

/// Makes a step, and returns the rule that it breaks, if it breaks one.
fn step<L: Ledger>(
    rt: &impl Abort,
    system: &mut System,
    turns: &mut Turns,
    commands: &[Command],
    steps: &mut Steps<L>,
) -> Option<Rule> {
    let energy = system.energy();
    assert!(rt; energy >= 0);
    assert!(rt; energy <= 1_000_000);
    let bots = usize::from(system.crew().count());
    assert!(rt; bots >= 1);
    assert!(rt; commands.len() <= bots);
    let broken = system.judge(commands, 1, turns, steps);
    match broken {
        None => {
            system.advance(commands, turns, steps);
            None
        }
        Some(broken) => Some(broken.rule),
    }
}

/// Asserts that the step is made, and that this energy is spent after it.
fn assert_goes<L: Ledger>(
    rt: &impl Abort,
    system: &mut System,
    turns: &mut Turns,
    commands: &[Command],
    energy: i64,
    steps: &mut Steps<L>,
) {
    let broken = step(rt, system, turns, commands, steps);
    assert_eq!(rt; broken, None);
    assert_eq!(rt; system.energy(), energy);
}

/// Asserts that the step breaks this rule.
fn assert_breaks<L: Ledger>(
    rt: &impl Abort,
    system: &mut System,
    turns: &mut Turns,
    commands: &[Command],
    rule: Rule,
    steps: &mut Steps<L>,
) {
    let broken = step(rt, system, turns, commands, steps);
    assert_eq!(rt; broken, Some(rule));
}

/// Asserts that no bot is left, and the number of full voxels.
fn assert_ended<L: Ledger>(rt: &impl Abort, system: &System, full: u32, steps: &mut Steps<L>) {
    assert_eq!(rt; system.crew().count(), 0);
    assert_eq!(rt; system.matrix().count(steps), full);
}

/// One bot fills a voxel and comes home.
fn of_one<L: Ledger>(rt: &impl Abort, blank: Blank, alloc: Global) -> Result<(), Memory>
    requires blank { IsBlankOf blank L.name L.parts }
{
    let mut steps: Steps<L> = Steps::new(blank, CounterPermit);
    let mut turns = Turns::new();
    let mut system = System::opening(Planes::empty(alloc, 3)?, Profile::full());
    let out = [Command::SMove(long(rt, -1, 0, 0))];
    let rule = Rule::OutOfSpace;
    assert_breaks(rt, &mut system, &mut turns, &out, rule, &mut steps);
    let rule = Rule::TraceEnds;
    assert_breaks(rt, &mut system, &mut turns, &[], rule, &mut steps);
    let table = [
        (Command::SMove(long(rt, 1, 0, 0)), 103),
        (Command::Fill(near(rt, 0, 0, 1)), 216),
        (Command::SMove(long(rt, -1, 0, 0)), 319),
        (Command::Halt, 420),
    ];
    for (command, energy) in table {
        assert_goes(rt, &mut system, &mut turns, &[command], energy, &mut steps);
    }
    assert_ended(rt, &system, 1, &mut steps);
    Ok(())
}

#[test]
fn one_bot_takes_its_turns(rt: HostRuntime) -> Result<(), Fail> {
    of_one::<Brand>(&rt, Blank::new(1), rt.alloc())?;
    Ok(())
}

/// A fission, two Flips that cancel, and a fusion.
fn of_two<L: Ledger>(rt: &impl Abort, blank: Blank, alloc: Global) -> Result<(), Memory>
    requires blank { IsBlankOf blank L.name L.parts }
{
    let mut steps: Steps<L> = Steps::new(blank, CounterPermit);
    let mut turns = Turns::new();
    let mut system = System::opening(Planes::empty(alloc, 3)?, Profile::full());
    let split = [Command::Fission(near(rt, 0, 0, 1), 0)];
    assert_goes(rt, &mut system, &mut turns, &split, 125, &mut steps);
    let flips = [Command::Flip, Command::Flip];
    assert_goes(rt, &mut system, &mut turns, &flips, 246, &mut steps);
    let fuse = [
        Command::FusionP(near(rt, 0, 0, 1)),
        Command::FusionS(near(rt, 0, 0, -1)),
    ];
    assert_goes(rt, &mut system, &mut turns, &fuse, 343, &mut steps);
    let halt = [Command::Halt];
    assert_goes(rt, &mut system, &mut turns, &halt, 444, &mut steps);
    Ok(())
}

#[test]
fn two_bots_take_their_turns(rt: HostRuntime) -> Result<(), Fail> {
    of_two::<Brand>(&rt, Blank::new(1), rt.alloc())?;
    Ok(())
}
