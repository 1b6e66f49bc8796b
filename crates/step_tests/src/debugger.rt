//! Sessions of `step_debugger`: steps forwards and backwards, and a step group by group.
ghost use Rattle.vox_geom.specs.Counting.{IsBlankOf};

use crate::common::{at, empty, long, near};
use counter_permit::CounterPermit;
use nano_spec::{Bot, Broken, Command, CommandList, Profile, Rule};
use std::alloc::Global;
use std::marker::Brand;
use std::process::Abort;
use std::sync::ledger::{Blank, Ledger};
use std::test::Fail;
use step_debugger::{DebugFault, Debugger};
use step_machine::StepOk;
use vox_geom::{Coord, Memory, Steps};

/// Returns the debugger of these commands over the empty matrix of resolution 5.
fn debugger<L: Ledger>(
    rt: &impl Abort,
    alloc: Global,
    commands: &[Command],
    steps: &mut Steps<L>,
) -> Result<Debugger, Memory> {
    let mut list = CommandList::new(alloc);
    for command in commands {
        list.push(*command)?;
    }
    assert!(rt; list.as_slice().len() < 1000);
    let source = empty(alloc, 5)?;
    Debugger::start(alloc, source, Profile::full(), list, steps)
}

/// Asserts the result of the next step of a debugger that is not poisoned.
fn assert_step<L: Ledger>(
    rt: &impl Abort,
    debugger: &mut Debugger,
    expected: Result<StepOk, DebugFault>,
    steps: &mut Steps<L>,
) {
    assert!(rt; !debugger.spent());
    assert_eq!(rt; debugger.step(steps), expected);
}

/// Asserts the result of a group of the next step.
fn assert_group<L: Ledger>(
    rt: &impl Abort,
    debugger: &mut Debugger,
    leader: u8,
    expected: Result<Option<StepOk>, DebugFault>,
    steps: &mut Steps<L>,
) {
    assert!(rt; !debugger.spent());
    assert_eq!(rt; debugger.group(leader, steps), expected);
}

/// Asserts the result of a step back.
fn assert_back<L: Ledger>(
    rt: &impl Abort,
    debugger: &mut Debugger,
    expected: Result<(), DebugFault>,
    steps: &mut Steps<L>,
) {
    assert!(rt; !debugger.spent());
    assert_eq!(rt; debugger.back(steps), expected);
}

/// Asserts the bot at an index of the crew after the begun groups.
fn assert_middle_bot(rt: &impl Abort, debugger: &Debugger, place: usize, bot: Bot) {
    assert!(rt; !debugger.spent());
    let bots = debugger.middle_crew().bots();
    assert!(rt; place < bots.len());
    assert_eq!(rt; bots[place], bot);
}

/// Asserts whether a voxel is full after the begun groups.
fn assert_middle_full<L: Ledger>(
    rt: &impl Abort,
    debugger: &Debugger,
    c: Coord,
    full: bool,
    steps: &mut Steps<L>,
) {
    assert!(rt; !debugger.spent());
    let resolution = debugger.machine().matrix().resolution();
    assert!(rt; c.x < resolution);
    assert!(rt; c.y < resolution);
    assert!(rt; c.z < resolution);
    assert!(rt; debugger.middle_full(c, steps) == full);
}

/// Asserts the leaders of the begun groups, the energy before the step, and the number of steps that can be undone.
fn assert_stands(rt: &impl Abort, debugger: &Debugger, begun: &[u8], energy: i64, history: u16) {
    assert!(rt; !debugger.spent());
    assert_eq!(rt; debugger.begun(), begun);
    assert_eq!(rt; debugger.machine().energy(), energy);
    assert_eq!(rt; debugger.history(), history);
}

/// After a fission one bot fills a voxel while the other moves: first the other's group begins and is dropped.
fn begun_and_dropped<L: Ledger>(rt: &impl Abort, debugger: &mut Debugger, steps: &mut Steps<L>) {
    assert_group(rt, debugger, 2, Ok(None), steps);
    assert_stands(rt, debugger, &[2], 419, 1);
    let moved = Bot {
        bid: 2,
        pos: at(0, 0, 3),
        seeds: 0,
    };
    assert_middle_bot(rt, debugger, 1, moved);
    assert_middle_full(rt, debugger, at(1, 0, 0), false, steps);
    let fault = DebugFault::NotLeader { leader: 3 };
    assert_group(rt, debugger, 3, Err(fault), steps);
    assert_back(rt, debugger, Ok(()), steps);
    assert_stands(rt, debugger, &[], 419, 1);
}

/// Then the step is made group by group, and no command is left.
fn made_by_groups<L: Ledger>(rt: &impl Abort, debugger: &mut Debugger, steps: &mut Steps<L>) {
    assert_group(rt, debugger, 1, Ok(None), steps);
    assert_middle_full(rt, debugger, at(1, 0, 0), true, steps);
    let made = StepOk {
        energy: 850,
        halted: false,
    };
    assert_group(rt, debugger, 2, Ok(Some(made)), steps);
    assert_stands(rt, debugger, &[], 850, 2);
    let ends = Broken {
        step: 3,
        bid: 1,
        rule: Rule::TraceEnds,
        at: at(0, 0, 0),
    };
    assert_step(rt, debugger, Err(DebugFault::Broken(ends)), steps);
}

/// Forwards by a step and by groups, and back to the start.
fn walk<L: Ledger>(rt: &impl Abort, blank: Blank, alloc: Global) -> Result<(), Memory>
    requires blank { IsBlankOf blank L.name L.parts }
{
    let mut steps: Steps<L> = Steps::new(blank, CounterPermit);
    let trace = [
        Command::Fission(near(rt, 0, 0, 1), 0),
        Command::Fill(near(rt, 1, 0, 0)),
        Command::SMove(long(rt, 0, 0, 2)),
    ];
    let mut debugger = debugger(rt, alloc, &trace, &mut steps)?;
    let split = StepOk {
        energy: 419,
        halted: false,
    };
    assert_step(rt, &mut debugger, Ok(split), &mut steps);
    begun_and_dropped(rt, &mut debugger, &mut steps);
    made_by_groups(rt, &mut debugger, &mut steps);
    assert_back(rt, &mut debugger, Ok(()), &mut steps);
    assert_stands(rt, &debugger, &[], 419, 1);
    assert_back(rt, &mut debugger, Ok(()), &mut steps);
    assert_stands(rt, &debugger, &[], 0, 0);
    let none = Err(DebugFault::NoHistory);
    assert_back(rt, &mut debugger, none, &mut steps);
    Ok(())
}

#[test]
fn a_trace_is_walked_forwards_and_backwards(rt: HostRuntime) -> Result<(), Fail> {
    walk::<Brand>(&rt, Blank::new(1), rt.alloc())?;
    Ok(())
}

/// A floating voxel breaks the step, and the debugger is as before.
fn floating<L: Ledger>(rt: &impl Abort, blank: Blank, alloc: Global) -> Result<(), Memory>
    requires blank { IsBlankOf blank L.name L.parts }
{
    let mut steps: Steps<L> = Steps::new(blank, CounterPermit);
    let above = at(1, 1, 0);
    let trace = [Command::Fill(near(rt, 1, 1, 0))];
    let mut debugger = debugger(rt, alloc, &trace, &mut steps)?;
    let broken = Broken {
        step: 1,
        bid: 0,
        rule: Rule::Ungrounded,
        at: above,
    };
    let fault = DebugFault::Broken(broken);
    assert_step(rt, &mut debugger, Err(fault), &mut steps);
    assert_group(rt, &mut debugger, 1, Err(fault), &mut steps);
    assert_stands(rt, &debugger, &[], 0, 0);
    assert_middle_full(rt, &debugger, above, false, &mut steps);
    Ok(())
}

#[test]
fn a_step_that_breaks_grounding_leaves_the_debugger_where_it_stood(
    rt: HostRuntime,
) -> Result<(), Fail> {
    floating::<Brand>(&rt, Blank::new(1), rt.alloc())?;
    Ok(())
}
