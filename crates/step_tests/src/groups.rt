//! The groups of a step of two bots by `step_groups`, and a step of one bot.
ghost use Rattle.vox_geom.specs.Counting.{IsBlankOf};

use crate::bots::{are_within, one_bot, two_bots};
use crate::common::{at, far, near};
use bot_crew::Crew;
use counter_permit::CounterPermit;
use nano_spec::{Command, Harmonics, Profile};
use std::alloc::Global;
use std::marker::Brand;
use std::process::Abort;
use std::sync::ledger::{Blank, Ledger};
use std::test::Fail;
use step_groups::{Group, Groups, Step, judge_single, number_groups};
use vox_geom::{Memory, Region, Steps};
use vox_planes::Planes;

/// Asserts that a step of these commands breaks no rule; the groups are then those of the step.
fn assert_judged<L: Ledger>(
    rt: &impl Abort,
    groups: &mut Groups,
    crew: &Crew,
    planes: &Planes,
    commands: &[Command],
    steps: &mut Steps<L>,
) {
    assert!(rt; commands.len() == crew.bots().len());
    assert!(rt; are_within(crew.bots(), planes.resolution()));
    let step = Step {
        planes,
        harmonics: Harmonics::Low,
        profile: Profile::full(),
        bots: crew.bots(),
        commands,
        number: 1,
    };
    let numbers = number_groups(crew.bots(), commands);
    assert!(rt; groups.judge(&step, numbers.as_slice(), steps).is_ok());
}

/// Asserts that a step of one bot breaks no rule.
fn assert_judged_single<L: Ledger>(
    rt: &impl Abort,
    crew: &Crew,
    planes: &Planes,
    command: Command,
    steps: &mut Steps<L>,
) {
    assert!(rt; crew.bots().len() == 1);
    assert!(rt; are_within(crew.bots(), planes.resolution()));
    let step = Step {
        planes,
        harmonics: Harmonics::Low,
        profile: Profile::full(),
        bots: crew.bots(),
        commands: &[command],
        number: 1,
    };
    assert!(rt; judge_single(&step, steps).is_none());
}

/// Asserts the leader, the members and the boxes of a group.
fn assert_group(rt: &impl Abort, group: &Group, leader: u8, members: &[u8], boxes: &[Region]) {
    assert_eq!(rt; group.leader, leader);
    assert_eq!(rt; group.members.as_slice(), members);
    assert_eq!(rt; group.boxes.as_slice(), boxes);
}

/// Asserts the group of two bots that fill a row between them.
fn assert_filling(rt: &impl Abort, groups: &Groups) {
    let boxes = [
        Region::of(at(0, 0, 0), at(0, 0, 0)),
        Region::of(at(1, 0, 1), at(1, 0, 3)),
        Region::of(at(0, 0, 3), at(0, 0, 3)),
    ];
    assert!(rt; groups.list().len() == 1);
    for group in groups.list() {
        assert_group(rt, group, 1, &[1, 2], &boxes);
    }
}

/// Two bots that fill a row between them are one group; while they wait they are two.
fn of_groups<L: Ledger>(rt: &impl Abort, blank: Blank, alloc: Global) -> Result<(), Memory>
    requires blank { IsBlankOf blank L.name L.parts }
{
    let mut steps: Steps<L> = Steps::new(blank, CounterPermit);
    let planes = Planes::empty(alloc, 5)?;
    let crew = two_bots(rt, at(0, 0, 3));
    let first = Command::GFill(near(rt, 1, 0, 1), far(rt, 0, 0, 2));
    let second = Command::GFill(near(rt, 1, 0, 0), far(rt, 0, 0, -2));
    let mut groups = Groups::new();
    assert!(rt; groups.list().is_empty());
    let fills = [first, second];
    assert_judged(rt, &mut groups, &crew, &planes, &fills, &mut steps);
    assert_filling(rt, &groups);
    let waits = [Command::Wait, Command::Wait];
    assert_judged(rt, &mut groups, &crew, &planes, &waits, &mut steps);
    assert!(rt; groups.list().len() == 2);
    let single = one_bot(rt, Profile::full(), at(0, 0, 0));
    assert_judged_single(rt, &single, &planes, Command::Halt, &mut steps);
    Ok(())
}

#[test]
fn bots_form_groups(rt: HostRuntime) -> Result<(), Fail> {
    of_groups::<Brand>(&rt, Blank::new(1), rt.alloc())?;
    Ok(())
}
