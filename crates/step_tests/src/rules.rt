//! Steps of one and of two bots: the first rule that each breaks by `step_groups`.
ghost use Rattle.vox_geom.specs.Counting.{IsBlankOf};

use crate::bots::{are_within, one_bot, two_bots};
use crate::common::{at, far, long, near};
use bot_crew::Crew;
use counter_permit::CounterPermit;
use nano_spec::{Broken, Command, Harmonics, Profile, Rule};
use std::alloc::Global;
use std::marker::Brand;
use std::process::Abort;
use std::sync::ledger::{Blank, Ledger};
use std::test::Fail;
use step_groups::judge_groups;
use vox_geom::{Coord, Memory, Steps};
use vox_planes::Planes;

/// The common parts of steps.
#[derive(Clone, Copy)]
struct Scene<'a> {
    crew: &'a Crew,
    planes: &'a Planes,
    harmonics: Harmonics,
    profile: Profile,
}

/// Asserts the first rule that a step of these commands breaks, or that it breaks none.
fn assert_judged<L: Ledger>(
    rt: &impl Abort,
    scene: &Scene,
    commands: &[Command],
    expected: Option<Broken>,
    steps: &mut Steps<L>,
) {
    let bots = scene.crew.bots();
    assert!(rt; commands.len() == bots.len());
    assert!(rt; are_within(bots, scene.planes.resolution()));
    let judged = judge_groups(
        scene.crew,
        scene.planes,
        scene.harmonics,
        scene.profile,
        commands,
        7,
        steps,
    );
    assert_eq!(rt; judged.err(), expected);
}

fn broken(rule: Rule, at: Coord) -> Option<Broken> {
    Some(Broken {
        step: 7,
        bid: 1,
        rule,
        at,
    })
}

fn at_origin(rule: Rule) -> Option<Broken> {
    broken(rule, at(0, 0, 0))
}

/// Steps of one bot at resolution 3, in which one voxel is full.
fn of_one<L: Ledger>(rt: &impl Abort, blank: Blank, alloc: Global) -> Result<(), Memory>
    requires blank { IsBlankOf blank L.name L.parts }
{
    let mut steps: Steps<L> = Steps::new(blank, CounterPermit);
    let mut planes = Planes::empty(alloc, 3)?;
    planes.set(at(1, 0, 1), true);
    let corner = Scene {
        crew: &one_bot(rt, Profile::full(), at(0, 0, 0)),
        planes: &planes,
        harmonics: Harmonics::Low,
        profile: Profile::full(),
    };
    let ahead = near(rt, 0, 0, 1);
    let ring = Command::GFill(near(rt, 1, 0, 1), far(rt, 0, 0, 1));
    let region = Command::GFill(near(rt, 0, 0, 1), far(rt, 0, 0, -1));
    let table = [
        (Command::Fission(ahead, 38), None),
        (Command::Fission(ahead, 39), at_origin(Rule::Seeds)),
        (
            Command::SMove(long(rt, -1, 0, 0)),
            at_origin(Rule::OutOfSpace),
        ),
        (region, at_origin(Rule::InRegion)),
        (Command::FusionP(ahead), at_origin(Rule::Partner)),
        (ring, at_origin(Rule::GroupShape)),
    ];
    for (command, want) in table {
        assert_judged(rt, &corner, &[command], want, &mut steps);
    }
    assert_stops(rt, &corner, &mut steps);
    Ok(())
}

/// A full voxel stops a bot, and it halts only at the origin and under Low.
fn assert_stops<L: Ledger>(rt: &impl Abort, corner: &Scene, steps: &mut Steps<L>) {
    let beside = Scene {
        crew: &one_bot(rt, corner.profile, at(1, 0, 0)),
        ..*corner
    };
    let high = Scene {
        harmonics: Harmonics::High,
        ..*corner
    };
    let along = Command::SMove(long(rt, 0, 0, 2));
    let blocked = broken(Rule::Blocked, at(1, 0, 1));
    assert_judged(rt, &beside, &[along], blocked, steps);
    let away = broken(Rule::HaltOrigin, at(1, 0, 0));
    assert_judged(rt, &beside, &[Command::Halt], away, steps);
    let under_high = at_origin(Rule::HaltLow);
    assert_judged(rt, &high, &[Command::Halt], under_high, steps);
}

#[test]
fn one_bot_breaks_rules(rt: HostRuntime) -> Result<(), Fail> {
    of_one::<Brand>(&rt, Blank::new(1), rt.alloc())?;
    Ok(())
}

/// Steps of one bot under the light profile.
fn of_light<L: Ledger>(rt: &impl Abort, blank: Blank, alloc: Global) -> Result<(), Memory>
    requires blank { IsBlankOf blank L.name L.parts }
{
    let mut steps: Steps<L> = Steps::new(blank, CounterPermit);
    let planes = Planes::empty(alloc, 3)?;
    let light = Profile::light();
    let scene = Scene {
        crew: &one_bot(rt, light, at(0, 0, 0)),
        planes: &planes,
        harmonics: Harmonics::Low,
        profile: light,
    };
    let ahead = near(rt, 0, 0, 1);
    let table = [
        (Command::Void(near(rt, 1, 0, 1)), at_origin(Rule::Forbidden)),
        (
            Command::GFill(near(rt, 0, 0, 1), far(rt, 0, 0, -1)),
            at_origin(Rule::Forbidden),
        ),
        (Command::Fission(ahead, 18), None),
        (Command::Fission(ahead, 19), at_origin(Rule::Seeds)),
    ];
    for (command, want) in table {
        assert_judged(rt, &scene, &[command], want, &mut steps);
    }
    Ok(())
}

#[test]
fn the_light_profile_forbids(rt: HostRuntime) -> Result<(), Fail> {
    of_light::<Brand>(&rt, Blank::new(1), rt.alloc())?;
    Ok(())
}

/// Steps of two bots.
fn of_two<L: Ledger>(rt: &impl Abort, blank: Blank, alloc: Global) -> Result<(), Memory>
    requires blank { IsBlankOf blank L.name L.parts }
{
    let mut steps: Steps<L> = Steps::new(blank, CounterPermit);
    let planes = Planes::empty(alloc, 5)?;
    let scene = Scene {
        crew: &two_bots(rt, at(0, 0, 1)),
        planes: &planes,
        harmonics: Harmonics::Low,
        profile: Profile::full(),
    };
    let ahead = Command::SMove(long(rt, 0, 0, 1));
    let back = Command::SMove(long(rt, 0, 0, -1));
    let aside = Command::GFill(near(rt, 1, 0, 0), far(rt, 0, 0, 2));
    let slanting = Command::GFill(near(rt, 1, 0, 1), far(rt, 0, 0, 2));
    let there = Command::Fill(near(rt, 1, 0, 0));
    let same = Command::Fill(near(rt, 1, 0, -1));
    let table = [
        (there, same, broken(Rule::Interference, at(1, 0, 0))),
        (ahead, back, at_origin(Rule::Interference)),
        (Command::Halt, Command::Halt, at_origin(Rule::HaltAlone)),
        (slanting, aside, at_origin(Rule::GroupShape)),
        (
            Command::FusionP(near(rt, 0, 0, 1)),
            Command::Wait,
            at_origin(Rule::Partner),
        ),
        (
            Command::FusionP(near(rt, 0, 0, 1)),
            Command::FusionS(near(rt, 0, 0, -1)),
            None,
        ),
        (Command::Flip, Command::Wait, None),
    ];
    for (first, second, want) in table {
        assert_judged(rt, &scene, &[first, second], want, &mut steps);
    }
    Ok(())
}

#[test]
fn two_bots_break_rules(rt: HostRuntime) -> Result<(), Fail> {
    of_two::<Brand>(&rt, Blank::new(1), rt.alloc())?;
    Ok(())
}
