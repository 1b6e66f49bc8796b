//! Plans that proposals make cheaper. Energies and steps were worked out by hand from the rules: at resolution 3 a step of one bot
//! costs 101 under Low and 729 more under High; a proposal has no Flips if nothing floats.
ghost use Rattle.std.specs.Prelude.{IfOk};
ghost use Rattle.nano_spec.specs.Legal.{IsLegal};

use crate::models::{at, model, put};
use low_planner::LowFault;
use model_file::legal;
use plan_choice::{
    backwards, build_attached, choose_group_plan, choose_layer_plan, choose_low_plan,
    choose_swarm_plan, choose_void_plan,
};
use plan_tape::Plan;
use std::alloc::Global;
use std::process::Abort;
use std::test::Fail;
use vox_geom::Memory;
use vox_planes::Planes;

/// Returns the model, if it is legal.
pub(crate) fn checked(alloc: Global, model: Planes) -> Result<Planes, Memory>
    ensures { IfOk result IsLegal }
{
    match legal(alloc, &model) {
        Ok(()) => Ok(model),
        Err(_) => Err(Memory),
    }
}

pub(crate) fn costs(rt: &impl Abort, plan: &Plan, energy: i64, steps: u32) {
    assert_eq!(rt; plan.energy, energy);
    assert_eq!(rt; plan.steps, steps);
}

/// Asserts the costs of the plans of one and of two bots between two models.
fn one_and_two(
    rt: &impl Abort,
    alloc: Global,
    source: &Planes,
    target: &Planes,
    layer: (i64, u32),
    group: (i64, u32),
) -> Result<(), Memory>
    requires source { IsLegal source.now }
    requires target { IsLegal target.now }
{
    assert!(rt; source.resolution() == target.resolution());
    costs(
        rt,
        &choose_layer_plan(alloc, source, target)?,
        layer.0,
        layer.1,
    );
    costs(
        rt,
        &choose_group_plan(alloc, source, target)?,
        group.0,
        group.1,
    );
    Ok(())
}

/// Asserts the costs of plans that build a model by the swarm and take it down by four bots.
fn up_and_down(
    rt: &impl Abort,
    alloc: Global,
    model: &Planes,
    swarm: (i64, u32),
    void: (i64, u32),
) -> Result<(), Memory>
    requires { IsLegal model.now }
{
    costs(rt, &choose_swarm_plan(alloc, model)?, swarm.0, swarm.1);
    costs(rt, &choose_void_plan(alloc, model)?, void.0, void.1);
    Ok(())
}

/// Asserts the cost of the plan of one bot under Low all the time, or the number of the refusal in place of the steps.
fn low(
    rt: &impl Abort,
    alloc: Global,
    model: &Planes,
    energy: i64,
    steps: u32,
) -> Result<(), Memory>
    requires { IsLegal model.now }
{
    match choose_low_plan(alloc, model) {
        Ok(plan) => costs(rt, &plan, energy, steps),
        Err(LowFault::Memory) => return Err(Memory),
        Err(fault) => assert_eq!(rt; (0, u32::from(fault.number())), (energy, steps)),
    }
    Ok(())
}

/// A post of one voxel at resolution 3. One bot: up, a double move, a Fill, and back.
#[test]
fn nothing_floats_over_a_post(rt: HostRuntime) -> Result<(), Fail> {
    let alloc = rt.alloc();
    let post = checked(alloc, model(alloc, 3, &[at(1, 0, 1)])?)?;
    let nothing = checked(alloc, model(alloc, 3, &[])?)?;
    one_and_two(&rt, alloc, &nothing, &post, (638, 6), (626, 6))?;
    up_and_down(&rt, alloc, &post, (626, 6), (1381, 12))?;
    low(&rt, alloc, &post, 638, 6)?;
    Ok(())
}

/// The same post taken down.
#[test]
fn a_post_is_taken_down_backwards(rt: HostRuntime) -> Result<(), Fail> {
    let alloc = rt.alloc();
    let post = checked(alloc, model(alloc, 3, &[at(1, 0, 1)])?)?;
    let nothing = checked(alloc, model(alloc, 3, &[])?)?;
    assert!(&rt; post.resolution() == nothing.resolution());
    costs(&rt, &choose_layer_plan(alloc, &post, &nothing)?, 614, 6);
    Ok(())
}

/// A post of two voxels at resolution 5, and next to its head a voxel that is filled after it.
#[test]
fn an_arm_is_filled_once_it_is_attached(rt: HostRuntime) -> Result<(), Fail> {
    let alloc = rt.alloc();
    let arm = checked(
        alloc,
        model(alloc, 5, &[at(2, 0, 1), at(2, 1, 1), at(1, 1, 1)])?,
    )?;
    let nothing = checked(alloc, model(alloc, 5, &[])?)?;
    assert!(&rt; arm.resolution() == nothing.resolution());
    costs(&rt, &choose_layer_plan(alloc, &nothing, &arm)?, 4014, 10);
    low(&rt, alloc, &arm, 4014, 10)?;
    Ok(())
}

/// Returns a post at resolution 5, from whose head an arm leads to an overhanging voxel.
fn hanging(alloc: Global) -> Result<Planes, Memory>
    ensures { IfOk result IsLegal }
{
    let post = [at(1, 0, 1), at(1, 1, 1), at(1, 2, 1)];
    let mut planes = model(alloc, 5, &post)?;
    for c in [at(2, 2, 1), at(3, 2, 1), at(3, 1, 1)] {
        put(&mut planes, c);
    }
    checked(alloc, planes)
}

/// One bot stays under Low all the time: it fills a pole of one voxel below the overhanging one, and voids it at the end.
#[test]
fn a_pole_holds_what_hangs(rt: HostRuntime) -> Result<(), Fail> {
    let alloc = rt.alloc();
    let model = hanging(alloc)?;
    let nothing = checked(alloc, Planes::empty(alloc, 5)?)?;
    assert!(&rt; model.resolution() == nothing.resolution());
    costs(&rt, &choose_layer_plan(alloc, &nothing, &model)?, 8411, 21);
    costs(&rt, &choose_layer_plan(alloc, &model, &nothing)?, 8267, 21);
    low(&rt, alloc, &model, 0, 1)?;
    Ok(())
}

/// Four bots take it down under Low all the time, after the first one has put a pole of one voxel below the overhanging one.
#[test]
fn four_bots_take_down_what_a_pole_holds(rt: HostRuntime) -> Result<(), Fail> {
    let alloc = rt.alloc();
    let model = hanging(alloc)?;
    costs(&rt, &choose_void_plan(alloc, &model)?, 9542, 23);
    Ok(())
}

/// Squads of one bot each; once all of them wait, what hangs is filled under High, which the light profile's bots stay until it is
/// joined. Two bots of all commands have a pole for it, and each way of theirs is the other backwards.
#[test]
fn squads_wait_for_what_hangs(rt: HostRuntime) -> Result<(), Fail> {
    let alloc = rt.alloc();
    let model = hanging(alloc)?;
    let nothing = checked(alloc, Planes::empty(alloc, 5)?)?;
    assert!(&rt; model.resolution() == nothing.resolution());
    costs(&rt, &choose_swarm_plan(alloc, &model)?, 22_946, 22);
    costs(&rt, &choose_group_plan(alloc, &nothing, &model)?, 8633, 21);
    costs(&rt, &choose_group_plan(alloc, &model, &nothing)?, 8489, 21);
    Ok(())
}

/// The overhanging part is not attached, so there is no proposal without Flips.
#[test]
fn what_hangs_takes_a_flip(rt: HostRuntime) -> Result<(), Fail> {
    let alloc = rt.alloc();
    let model = hanging(alloc)?;
    assert!(&rt; build_attached(alloc, &model, false, 100)?.is_none());
    assert!(&rt; build_attached(alloc, &model, true, 1)?.is_none());
    if let Some(commands) = build_attached(alloc, &model, true, 100)? {
        assert_eq!(&rt; commands.as_slice().len(), 16);
        assert_eq!(&rt; backwards(alloc, commands.as_slice())?.as_slice().len(), 16);
    }
    Ok(())
}
