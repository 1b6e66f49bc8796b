//! Plans of one bot that builds from nothing or voids everything.
ghost use Rattle.std.specs.Prelude.{◌≡◌, All, IfOk, length};
ghost use Rattle.nano_spec.specs.Matrix.{empty};
ghost use Rattle.nano_spec.specs.Profile.{light_profile};
ghost use Rattle.low_planner.specs.Commands.{IsPlain};
ghost use Rattle.plan_tape.specs.Progress.{IsAccepted};
ghost use Rattle.plan_choice.specs.Better.{CanImprove, MayStandFor};

use crate::bounds::Bounds;
use crate::builder::build_attached;
use crate::choice::cheaper;
use crate::flips::{Work, lower_commands};
use crate::plain::are_plain;
use crate::ways::backwards;
use nano_spec::{Command, CommandList, Profile};
use plan_tape::Plan;
use std::alloc::Global;
use vox_geom::{Coord, Memory, Region};
use vox_planes::Planes;
use voxel_reads::first_full;

/// Returns whether no voxel is full.
pub(crate) fn is_void(planes: &Planes) -> bool {
    let end = planes.resolution() - 1;
    let low = Coord { x: 0, y: 0, z: 0 };
    let high = Coord {
        x: end,
        y: end,
        z: end,
    };
    first_full(planes, &Region::of(low, high)).is_none()
}

/// Bounds the steps that voiding all voxels can pay for under Low: a void gives 12, and a step takes 3 for each voxel.
const PAID_BY_VOIDS: u64 = 4;

/// Returns the most steps of a plan that costs no more than `energy`.
pub(crate) fn affordable(resolution: u16, energy: i64) -> u64 {
    let r = u64::from(resolution).max(1);
    let paid = energy.max(0) as u64 / 3 / r / r / r;
    paid.saturating_add(PAID_BY_VOIDS)
}

/// Returns the upkeep of a plan's steps in steps under Low, compared with [`affordable`]: a step under High counts as ten.
pub(crate) fn upkeep_of(commands: &[Command]) -> u64 {
    let mut upkeep = 0u64;
    let mut is_high = false;
    let mut price = 1u64;
    let mut bots = 1u64;
    let mut left = 1u64;
    for command in commands {
        match *command {
            Command::Flip => is_high = !is_high,
            Command::Fission(_, _) => bots = bots.saturating_add(1),
            Command::FusionP(_) => bots = bots.saturating_sub(1),
            _ => {}
        }
        left = left.saturating_sub(1);
        if left == 0 {
            upkeep = upkeep.saturating_add(price);
            price = if is_high { 10 } else { 1 };
            left = bots;
        }
    }
    upkeep
}

/// Returns one bot's commands that build the target from nothing, or void all of the source.
fn alone(
    alloc: Global,
    source: &Planes,
    target: &Planes,
    most: u64,
) -> Result<Option<CommandList>, Memory> {
    if is_void(source) {
        return build_attached(alloc, target, true, most);
    }
    if !is_void(target) {
        return Ok(None);
    }
    let Some(commands) = build_attached(alloc, source, true, most)? else {
        return Ok(None);
    };
    Ok(Some(backwards(alloc, commands.as_slice())?))
}

/// Returns the plan, or one bot's plan that is cheaper and within the bounds: it fills each voxel once it is attached, from
/// nothing, or voids all backwards.
///
/// A plan of one command, a Halt alone, is returned as it is. Proposals that cannot cost less than the ceiling may be skipped.
pub fn attach(
    alloc: Global,
    source: &Planes,
    target: &Planes,
    profile: Profile,
    plan: Plan,
    most: Bounds,
    ceiling: i64,
) -> Result<Plan, Memory>
    requires { CanImprove source.now target.now profile plan }
    ensures stands { IfOk result (λ it. MayStandFor source.now target.now profile most plan it) }
    ensures alone { length plan.commands ≡ 1 → IfOk result (λ it. it.commands ≡ plan.commands) }
{
    if plan.commands.as_slice().len() == 1 {
        return Ok(plan);
    }
    let room = affordable(source.resolution(), plan.energy.min(ceiling));
    let Some(commands) = alone(alloc, source, target, room)? else {
        return Ok(plan);
    };
    let mut work = Work::any();
    let lowered = if are_plain(commands.as_slice()) {
        Some(commands)
    } else {
        lower_commands(alloc, source, profile, commands.as_slice(), room, &mut work)?
    };
    let Some(proposal) = lowered else {
        return Ok(plan);
    };
    cheaper(alloc, source, target, profile, plan, proposal, most)
}

/// Returns the plan from nothing, or one bot's cheaper plan within the bounds, under Low all the time: it fills each voxel once it
/// is attached, if all are.
///
/// A plan of one command, a Halt alone, is returned as it is. Proposals that cannot cost less than the ceiling may be skipped.
pub fn attach_low(
    alloc: Global,
    target: &Planes,
    plan: Plan,
    most: Bounds,
    ceiling: i64,
) -> Result<Plan, Memory>
    requires accepted { IsAccepted (empty target.now.resolution) target.now plan.commands light_profile plan.energy
        plan.steps }
    ensures stands { IfOk result
        (λ it. MayStandFor (empty target.now.resolution) target.now light_profile most plan it) }
    ensures plain { All IsPlain plan.commands → IfOk result (λ it. All IsPlain it.commands) }
    ensures alone { length plan.commands ≡ 1 → IfOk result (λ it. it.commands ≡ plan.commands) }
{
    if plan.commands.as_slice().len() == 1 {
        return Ok(plan);
    }
    let room = affordable(target.resolution(), plan.energy.min(ceiling));
    let Some(proposal) = build_attached(alloc, target, false, room)? else {
        return Ok(plan);
    };
    if !are_plain(proposal.as_slice()) {
        return Ok(plan);
    }
    let nothing = Planes::empty(alloc, target.resolution())?;
    let profile = Profile::light();
    cheaper(alloc, &nothing, target, profile, plan, proposal, most)
}
