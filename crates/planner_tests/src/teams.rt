//! Plans of teams that the judge accepts, and commands that it refuses.
ghost use Rattle.std.specs.Prelude.{IfOk};
ghost use Rattle.nano_spec.specs.Legal.{IsLegal};

use crate::choices::checked;
use crate::models::{at, model, put};
use nano_spec::{Command, CommandList, Profile};
use plan_choice::{Bounds, choose_crew_plan, improvement};
use plan_tape::Plan;
use std::alloc::Global;
use std::test::Fail;
use vox_geom::{Diff, Far, Long, Memory, Near, Short};
use vox_planes::Planes;

/// Returns a difference.
fn by(dx: i16, dy: i16, dz: i16) -> Diff {
    Diff { dx, dy, dz }
}

/// Returns a move along one axis.
fn straight(d: Diff) -> Option<Command> {
    Some(Command::SMove(Long::of(d)?))
}

/// Returns a move along two axes.
fn bend(d: Diff, e: Diff) -> Option<Command> {
    Some(Command::LMove(Short::of(d)?, Short::of(e)?))
}

/// Returns the command that makes a new bot with this many seeds.
fn fission(d: Diff, seeds: u8) -> Option<Command> {
    Some(Command::Fission(Near::of(d)?, seeds))
}

/// Takes a bot up.
fn lead(d: Diff) -> Option<Command> {
    Some(Command::FusionP(Near::of(d)?))
}

/// Is taken up.
fn join(d: Diff) -> Option<Command> {
    Some(Command::FusionS(Near::of(d)?))
}

/// Fills the voxel right below together with others, up to that at a difference.
fn group_fill(far: Diff) -> Option<Command> {
    Some(Command::GFill(Near::of(by(0, -1, 0))?, Far::of(far)?))
}

/// Returns the list of some commands. One that cannot be is a Flip in it.
fn list_of(alloc: Global, commands: &[Option<Command>]) -> Result<CommandList, Memory> {
    let mut list = CommandList::new(alloc);
    for command in commands {
        match command {
            Some(command) => list.push(*command)?,
            None => list.push(Command::Flip)?,
        }
    }
    Ok(list)
}

/// Returns whether the judge accepts commands that build a model.
fn is_accepted(
    alloc: Global,
    target: &Planes,
    commands: &[Option<Command>],
) -> Result<bool, Memory> {
    let nothing = Planes::empty(alloc, target.resolution())?;
    let list = list_of(alloc, commands)?;
    let (energy, most) = (i64::MAX, Bounds::none());
    let price = improvement(
        alloc,
        &nothing,
        target,
        Profile::full(),
        energy,
        list.as_slice(),
        most,
    )?;
    Ok(price.is_some())
}

/// Commands of four bots that fill a square of four voxels, the last of them with this end of its box.
fn square(last: Diff) -> [Option<Command>; 20] {
    [
        bend(by(1, 0, 0), by(0, 1, 0)),
        straight(by(0, 0, 1)),
        fission(by(1, 0, 0), 1),
        fission(by(0, 0, 1), 0),
        fission(by(0, 0, 1), 0),
        group_fill(by(1, 0, 1)),
        group_fill(by(-1, 0, 1)),
        group_fill(by(-1, 0, -1)),
        group_fill(last),
        lead(by(0, 0, 1)),
        lead(by(0, 0, 1)),
        join(by(0, 0, -1)),
        join(by(0, 0, -1)),
        lead(by(1, 0, 0)),
        join(by(-1, 0, 0)),
        straight(by(0, 0, -1)),
        straight(by(0, -1, 0)),
        straight(by(-1, 0, 0)),
        Some(Command::Halt),
        None,
    ]
}

/// A team of four fills a square if each of its bots has a corner of it, and is refused if one has another.
#[test]
fn a_corner_of_a_team_is_wrong(rt: HostRuntime) -> Result<(), Fail> {
    let alloc = rt.alloc();
    let four = [at(1, 0, 1), at(2, 0, 1), at(1, 0, 2), at(2, 0, 2)];
    let target = model(alloc, 4, &four)?;
    let right = square(by(1, 0, -1));
    assert!(&rt; is_accepted(alloc, &target, &right[..19])?);
    let wrong = square(by(1, 0, 0));
    assert!(&rt; !is_accepted(alloc, &target, &wrong[..19])?);
    Ok(())
}

/// Commands of two bots of which the first one fills a voxel, and the second one makes this move meanwhile.
fn pair(other: Option<Command>) -> [Option<Command>; 10] {
    [
        fission(by(1, 0, 0), 0),
        straight(by(0, 0, 2)),
        other,
        fill(by(1, 0, 0)),
        Some(Command::Wait),
        straight(by(0, 0, -2)),
        Some(Command::Wait),
        lead(by(1, 0, 0)),
        join(by(-1, 0, 0)),
        Some(Command::Halt),
    ]
}

/// Fills a voxel.
fn fill(d: Diff) -> Option<Command> {
    Some(Command::Fill(Near::of(d)?))
}

/// Two bots may not move through the same voxel in one step.
#[test]
fn two_bots_go_through_one_voxel(rt: HostRuntime) -> Result<(), Fail> {
    let alloc = rt.alloc();
    let target = model(alloc, 4, &[at(1, 0, 2)])?;
    assert!(&rt; is_accepted(alloc, &target, &pair(Some(Command::Wait)))?);
    let through = bend(by(0, 0, 1), by(-1, 0, 0));
    assert!(&rt; !is_accepted(alloc, &target, &pair(through))?);
    Ok(())
}

/// Returns a block of six voxels along each axis.
fn block(alloc: Global) -> Result<Planes, Memory>
    ensures { IfOk result IsLegal }
{
    let mut planes = model(alloc, 12, &[])?;
    for x in 3..9u16 {
        for z in 3..9u16 {
            for y in 0..6u16 {
                put(&mut planes, at(x, y, z));
            }
        }
    }
    checked(alloc, planes)
}

/// Returns the number of commands of a plan that fill or void a region.
fn count_regions(plan: &Plan) -> usize {
    let mut count = 0usize;
    for command in plan.commands.as_slice() {
        count = match command {
            Command::GFill(_, _) | Command::GVoid(_, _) => count.saturating_add(1),
            _ => count,
        };
    }
    count
}

/// Eight bots, one at each corner, fill or void a block by one command each. The judge has accepted both plans, so the team has the
/// right corners, and no two bots use one voxel in a step.
#[test]
fn eight_bots_fill_a_block(rt: HostRuntime) -> Result<(), Fail> {
    let alloc = rt.alloc();
    let block = block(alloc)?;
    let nothing = checked(alloc, Planes::empty(alloc, 12)?)?;
    assert!(&rt; block.resolution() == nothing.resolution());
    let up = choose_crew_plan(alloc, &nothing, &block)?;
    assert_eq!(&rt; count_regions(&up), 8);
    let down = choose_crew_plan(alloc, &block, &nothing)?;
    assert_eq!(&rt; count_regions(&down), 8);
    Ok(())
}
