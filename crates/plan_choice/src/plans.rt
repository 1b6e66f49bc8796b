//! The planners' plans, under Low wherever possible. Each call guarantees the same as the planner's own.
ghost use Rattle.std.specs.Prelude.{◌≡◌, ◌*◌, IfErr, IfOk, IfSome, None};
ghost use Rattle.nano_spec.specs.Legal.{IsLegal};
ghost use Rattle.nano_spec.specs.Matrix.{empty};
ghost use Rattle.plan_tape.specs.Models.{AreLegalModels};
ghost use Rattle.low_planner.specs.Fault.{HasCause};
ghost use Rattle.low_planner.specs.Supported.{FirstUnsupported};
ghost use Rattle.plan_choice.specs.Crew.{IsLeast};
ghost use Rattle.plan_choice.specs.Planners.{IsGroupPlan, IsLayerPlan, IsLowPlan, IsSwarmPlan, IsVoidPlan};
ghost use Rattle.group_planner.specs.Bounds.{most_bytes, most_group_steps};

use crate::alone::{affordable, attach, attach_low};
use crate::bounds::Bounds;
use crate::extent::extent_of;
use crate::flips::lower;
use crate::four::by_slabs;
use crate::many::{by_few, by_squads};
use group_planner::{plan_groups, rows, runs};
use layer_planner::plan_layers;
use low_planner::{LowFault, plan_low};
use nano_spec::{Profile, full_accepts_what_light_accepts};
use plan_tape::Plan;
use std::alloc::Global;
use swarm_planner::plan_swarm;
use system_state::recall_all;
use void_planner::plan_void;
use vox_geom::Memory;
use vox_planes::Planes;

/// The least energy of a planner's plan, as far as it searched: the energy of the plan found, or a ceiling if that is less, since
/// proposals that cannot cost less than the ceiling are not made. Only the planners' calls below make one.
#[derive(Clone, Copy, Debug)]
pub(crate) struct LeastEnergy {
    energy: i64,
}

/// A planner's plan found with an energy ceiling.
#[derive(Drop)]
pub(crate) struct Sought {
    pub(crate) plan: Plan,
    pub(crate) least: LeastEnergy,
}

/// Pairs the plan with its least energy below the ceiling.
fn sought_below(ceiling: i64, plan: Plan) -> Sought
    ensures plan { result.plan ≡ plan }
    ensures least { IsLeast ceiling plan.energy result.least.energy }
{
    let energy = plan.energy.min(ceiling);
    Sought {
        plan,
        least: LeastEnergy { energy },
    }
}

/// Returns the ceiling, if no plan of one bot, which fills or voids at most one voxel a step, can cost less.
pub(crate) fn least_alone(source: &Planes, target: &Planes, ceiling: i64) -> Option<LeastEnergy>
    ensures { IfSome result (λ least. least.energy ≡ ceiling) }
{
    let (here, there) = (extent_of(source).count, extent_of(target).count);
    let steps = here.max(there).saturating_sub(here.min(there));
    if u64::from(steps) <= affordable(source.resolution(), ceiling) {
        return None;
    }
    Some(LeastEnergy { energy: ceiling })
}

/// Searches for a plan of one bot from the source to the target that costs less than the ceiling.
pub(crate) fn layer_plan(
    alloc: Global,
    source: &Planes,
    target: &Planes,
    ceiling: i64,
) -> Result<Sought, Memory>
    requires { AreLegalModels source.now target.now }
    ensures plan { IfOk result
        (λ it. IsLayerPlan source.now target.now it.plan.commands it.plan.energy it.plan.steps) }
    ensures least { IfOk result (λ it. IsLeast ceiling it.plan.energy it.least.energy) }
{
    let plan = plan_layers(alloc, source, target)?;
    let r = u64::from(source.resolution());
    let mut most = Bounds::none();
    most.bytes = 8 * r * r * r + 200;
    most.bots = 1;
    let profile = Profile::full();
    let plan = lower(alloc, source, target, profile, plan, most, ceiling)?;
    let plan = attach(alloc, source, target, profile, plan, most, ceiling)?;
    let plan = by_few(alloc, source, target, plan, most, ceiling)?;
    recall_all(plan.commands.as_slice());
    Ok(sought_below(ceiling, plan))
}

/// Returns the plan of one bot from the source to the target.
pub fn choose_layer_plan(alloc: Global, source: &Planes, target: &Planes) -> Result<Plan, Memory>
    requires { AreLegalModels source.now target.now }
    ensures { IfOk result (λ plan. IsLayerPlan source.now target.now plan.commands plan.energy plan.steps) }
{
    Ok(layer_plan(alloc, source, target, i64::MAX)?.plan)
}

/// Returns the bounds of a plan of two bots.
pub(crate) fn group_bounds(source: &Planes, target: &Planes) -> Bounds
    requires same { source.now.resolution ≡ target.now.resolution }
    ensures steps { result.steps ≡ most_group_steps source.now target.now }
    ensures commands { result.commands ≡ 2 * most_group_steps source.now target.now }
    ensures bytes { result.bytes ≡ most_bytes source.now target.now }
    ensures bots { result.bots ≡ 2 }
{
    let r = u64::from(source.resolution());
    let runs = u64::from(runs(source)) + u64::from(runs(target));
    let rows = u64::from(rows(source)) + u64::from(rows(target));
    let steps = 8 * runs + 160 * rows + 200 * r + 400;
    Bounds {
        steps,
        commands: 2 * steps,
        bytes: 36 * runs + 640 * rows + 800 * r + 1600,
        bots: 2,
    }
}

/// Searches for a plan of two bots from the source to the target that costs less than the ceiling.
pub(crate) fn group_plan(
    alloc: Global,
    source: &Planes,
    target: &Planes,
    ceiling: i64,
) -> Result<Sought, Memory>
    requires { AreLegalModels source.now target.now }
    ensures plan { IfOk result
        (λ it. IsGroupPlan source.now target.now it.plan.commands it.plan.energy it.plan.steps) }
    ensures least { IfOk result (λ it. IsLeast ceiling it.plan.energy it.least.energy) }
{
    let plan = plan_groups(alloc, source, target)?;
    let most = group_bounds(source, target);
    let energy = plan.energy;
    let plan = by_few(alloc, source, target, plan, most, ceiling)?;
    let lowest = if plan.energy < energy { 0 } else { ceiling };
    let profile = Profile::full();
    let plan = lower(alloc, source, target, profile, plan, most, lowest)?;
    recall_all(plan.commands.as_slice());
    Ok(sought_below(ceiling, plan))
}

/// Returns the plan of two bots from the source to the target.
pub fn choose_group_plan(alloc: Global, source: &Planes, target: &Planes) -> Result<Plan, Memory>
    requires { AreLegalModels source.now target.now }
    ensures { IfOk result (λ plan. IsGroupPlan source.now target.now plan.commands plan.energy plan.steps) }
{
    Ok(group_plan(alloc, source, target, i64::MAX)?.plan)
}

/// Searches for a plan of four bots from the source to the empty model that costs less than the ceiling.
pub(crate) fn void_plan(alloc: Global, source: &Planes, ceiling: i64) -> Result<Sought, Memory>
    requires { IsLegal source.now }
    ensures plan { IfOk result
        (λ it. IsVoidPlan source.now (empty source.now.resolution) it.plan.commands it.plan.energy it.plan.steps) }
    ensures least { IfOk result (λ it. IsLeast ceiling it.plan.energy it.least.energy) }
{
    let plan = plan_void(alloc, source)?;
    let nothing = Planes::empty(alloc, source.resolution())?;
    let r = u64::from(source.resolution());
    let tiles = (r + 30) / 31;
    let mut most = Bounds::none();
    most.steps = 8 * r * (tiles * tiles) + 8 * r + 200;
    most.bots = 4;
    let profile = Profile::full();
    let plan = lower(alloc, source, &nothing, profile, plan, most, ceiling)?;
    let plan = by_slabs(alloc, source, &nothing, plan, most, ceiling)?;
    recall_all(plan.commands.as_slice());
    Ok(sought_below(ceiling, plan))
}

/// Returns the plan of four bots from the source to the empty model.
pub fn choose_void_plan(alloc: Global, source: &Planes) -> Result<Plan, Memory>
    requires { IsLegal source.now }
    ensures { IfOk result
        (λ plan. IsVoidPlan source.now (empty source.now.resolution) plan.commands plan.energy plan.steps) }
{
    Ok(void_plan(alloc, source, i64::MAX)?.plan)
}

/// Searches for a plan of up to twenty bots that builds the target from nothing, under the light profile, below the ceiling.
pub(crate) fn swarm_plan(alloc: Global, target: &Planes, ceiling: i64) -> Result<Sought, Memory>
    requires { IsLegal target.now }
    ensures plan { IfOk result
        (λ it. IsSwarmPlan (empty target.now.resolution) target.now it.plan.commands it.plan.energy it.plan.steps) }
    ensures least { IfOk result (λ it. IsLeast ceiling it.plan.energy it.least.energy) }
{
    full_accepts_what_light_accepts();
    let plan = plan_swarm(alloc, target)?;
    let r = u64::from(target.resolution());
    let width = ((r + 17) / 20).max(1);
    let mut most = Bounds::none();
    most.steps = 4 * width * r * r + 8 * r + 2000;
    most.bots = 20;
    let energy = plan.energy;
    let plan = by_squads(alloc, target, plan, most, ceiling)?;
    let lowest = if plan.energy < energy { 0 } else { ceiling };
    let nothing = Planes::empty(alloc, target.resolution())?;
    let profile = Profile::light();
    let plan = lower(alloc, &nothing, target, profile, plan, most, lowest)?;
    recall_all(plan.commands.as_slice());
    Ok(sought_below(ceiling, plan))
}

/// Returns the plan of up to twenty bots that builds the target from nothing, under the light profile.
pub fn choose_swarm_plan(alloc: Global, target: &Planes) -> Result<Plan, Memory>
    requires { IsLegal target.now }
    ensures { IfOk result
        (λ plan. IsSwarmPlan (empty target.now.resolution) target.now plan.commands plan.energy plan.steps) }
{
    Ok(swarm_plan(alloc, target, i64::MAX)?.plan)
}

/// Searches for a plan of one bot that builds the target from nothing, under Low all the time, below the ceiling.
pub(crate) fn low_plan(alloc: Global, target: &Planes, ceiling: i64) -> Result<Sought, LowFault>
    requires { IsLegal target.now }
    ensures unsupported { IfErr result (HasCause target.now) }
    ensures supported { IfOk result (λ _. FirstUnsupported target.now None) }
    ensures plan { IfOk result
        (λ it. IsLowPlan (empty target.now.resolution) target.now it.plan.commands it.plan.energy it.plan.steps) }
    ensures least { IfOk result (λ it. IsLeast ceiling it.plan.energy it.least.energy) }
{
    full_accepts_what_light_accepts();
    let plan = plan_low(alloc, target)?;
    let mut most = Bounds::none();
    most.steps = u64::from(plan.steps);
    most.bots = 1;
    let plan = attach_low(alloc, target, plan, most, ceiling)?;
    recall_all(plan.commands.as_slice());
    Ok(sought_below(ceiling, plan))
}

/// Returns the plan of one bot that builds the target from nothing, under Low all the time.
pub fn choose_low_plan(alloc: Global, target: &Planes) -> Result<Plan, LowFault>
    requires { IsLegal target.now }
    ensures unsupported { IfErr result (HasCause target.now) }
    ensures supported { IfOk result (λ _. FirstUnsupported target.now None) }
    ensures plan { IfOk result
        (λ plan. IsLowPlan (empty target.now.resolution) target.now plan.commands plan.energy plan.steps) }
{
    Ok(low_plan(alloc, target, i64::MAX)?.plan)
}
