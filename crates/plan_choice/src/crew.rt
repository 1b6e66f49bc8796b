//! The plan of a crew: the cheapest of its own proposals and of the other planners' plans for the same models.
ghost use Rattle.std.specs.Prelude.{◌≡◌, ◌≤◌, ◌≤ℤ◌, IfOk, None};
ghost use Rattle.nano_spec.specs.Legal.{IsLegal};
ghost use Rattle.nano_spec.specs.Matrix.{empty};
ghost use Rattle.plan_tape.specs.Models.{AreLegalModels};
ghost use Rattle.group_planner.specs.Bounds.{most_bytes};
ghost use Rattle.low_planner.specs.Supported.{FirstUnsupported};
ghost use Rattle.plan_choice.specs.Crew.{IsCheapest, IsForCrew, IsLeast, IsNoMoreThan, MayBuildInstead, Replaces};
ghost use Rattle.plan_choice.specs.Planners.{byte_limit, IsCrewPlan, IsGroupPlan, IsLayerPlan, IsLowPlan, IsNoDearer, IsSwarmPlan, IsVoidPlan};

use crate::bounds::Bounds;
use crate::many::{CREW, by_crew};
use crate::plans::{
    LeastEnergy, Sought, group_bounds, group_plan, layer_plan, least_alone, low_plan, swarm_plan,
    void_plan,
};
use crate::rebuild::by_rebuilding;
use layer_planner::plan_layers;
use low_planner::{LowFault, one_unsupported};
use plan_tape::{Plan, lowest_difference, seeds_bound_the_bots};
use std::alloc::Global;
use system_state::recall_all;
use vox_geom::Memory;
use vox_planes::Planes;

/// The maximum length of a plan in bytes.
const LIMIT: u64 = 1_073_741_824;

/// Returns the cheaper one of two plans, or the first if both cost the same.
fn cheaper_of(first: Plan, second: Plan) -> Plan
    ensures either { Replaces first second result }
{
    if second.energy < first.energy {
        second
    } else {
        first
    }
}

/// A crew's plan in the making, and the least energy of another planner's plan, if that planner ran.
#[derive(Drop)]
struct Compared {
    plan: Plan,
    least: Option<LeastEnergy>,
}

/// A crew's plan, and the least energy of each other planner's plan, or none if the planner makes no plan between these models.
#[derive(Drop)]
struct Crew {
    plan: Plan,
    layer: LeastEnergy,
    group: Option<LeastEnergy>,
    void: Option<LeastEnergy>,
    low: Option<LeastEnergy>,
    swarm: Option<LeastEnergy>,
}

/// Returns the cheaper one of a crew's plan and another planner's, found with the crew's energy as the ceiling.
fn compare(plan: Plan, other: Sought) -> Compared
    requires { IsLeast plan.energy other.plan.energy other.least.energy }
    ensures either { Replaces plan other.plan result.plan }
    ensures least { IsNoMoreThan result.plan.energy result.least }
{
    let least = Some(other.least);
    Compared {
        plan: cheaper_of(plan, other.plan),
        least,
    }
}

/// Returns the plan, or the layer planner's if it can be cheaper and is.
fn or_layer(alloc: Global, source: &Planes, target: &Planes, plan: Plan) -> Result<Sought, Memory>
    requires models { AreLegalModels source.now target.now }
    requires crew { IsForCrew source.now target.now plan }
    requires as_layer { IsNoDearer IsLayerPlan source.now target.now plan.energy }
    ensures crew { IfOk result (λ it. IsForCrew source.now target.now it.plan) }
    ensures as_layer { IfOk result (λ it. IsNoDearer IsLayerPlan source.now target.now it.plan.energy) }
    ensures least { IfOk result (λ it. it.plan.energy ≤ℤ it.least.energy) }
{
    if let Some(least) = least_alone(source, target, plan.energy) {
        return Ok(Sought { plan, least });
    }
    source.recall();
    let other = layer_plan(alloc, source, target, plan.energy)?;
    let least = other.least;
    Ok(Sought {
        plan: cheaper_of(plan, other.plan),
        least,
    })
}

/// Returns the plan, or the group planner's if it cannot be too long and is cheaper.
fn or_group(alloc: Global, source: &Planes, target: &Planes, plan: Plan) -> Result<Compared, Memory>
    requires models { AreLegalModels source.now target.now }
    requires crew { IsForCrew source.now target.now plan }
    ensures crew { IfOk result (λ it. IsForCrew source.now target.now it.plan) }
    ensures no_dearer { IfOk result (λ it. it.plan.energy ≤ℤ plan.energy) }
    ensures as_group { most_bytes source.now target.now ≤ byte_limit
        → IfOk result (λ it. IsNoDearer IsGroupPlan source.now target.now it.plan.energy
        × IsNoMoreThan it.plan.energy it.least) }
{
    if group_bounds(source, target).bytes > LIMIT {
        return Ok(Compared { plan, least: None });
    }
    let other = group_plan(alloc, source, target, plan.energy)?;
    Ok(compare(plan, other))
}

/// Returns the plan, or the void planner's if the target is empty and it is cheaper.
fn or_void(alloc: Global, source: &Planes, target: &Planes, plan: Plan) -> Result<Compared, Memory>
    requires source { IsLegal source.now }
    requires same { source.now.resolution ≡ target.now.resolution }
    requires crew { IsForCrew source.now target.now plan }
    ensures crew { IfOk result (λ it. IsForCrew source.now target.now it.plan) }
    ensures no_dearer { IfOk result (λ it. it.plan.energy ≤ℤ plan.energy) }
    ensures as_void { target.now ≡ empty target.now.resolution
        → IfOk result (λ it. IsNoDearer IsVoidPlan source.now target.now it.plan.energy
        × IsNoMoreThan it.plan.energy it.least) }
{
    let nothing = Planes::empty(alloc, target.resolution())?;
    if lowest_difference(target, &nothing).is_some() {
        return Ok(Compared { plan, least: None });
    }
    source.recall();
    let other = void_plan(alloc, source, plan.energy)?;
    Ok(compare(plan, other))
}

/// Returns the plan, or the low planner's if the source is empty, all parts of the target are supported and it is cheaper.
fn or_low(alloc: Global, source: &Planes, target: &Planes, plan: Plan) -> Result<Compared, Memory>
    requires { MayBuildInstead source.now target.now plan }
    ensures crew { IfOk result (λ it. IsForCrew source.now target.now it.plan) }
    ensures no_dearer { IfOk result (λ it. it.plan.energy ≤ℤ plan.energy) }
    ensures as_low { source.now ≡ empty source.now.resolution → FirstUnsupported target.now None
        → IfOk result (λ it. IsNoDearer IsLowPlan source.now target.now it.plan.energy
        × IsNoMoreThan it.plan.energy it.least) }
{
    let nothing = Planes::empty(alloc, source.resolution())?;
    if lowest_difference(source, &nothing).is_some() {
        return Ok(Compared { plan, least: None });
    }
    source.recall();
    seeds_bound_the_bots();
    one_unsupported();
    match low_plan(alloc, target, plan.energy) {
        Ok(other) => Ok(compare(plan, other)),
        Err(LowFault::Unsupported { at }) => Ok(Compared { plan, least: None }),
        Err(LowFault::Memory) => Err(Memory),
    }
}

/// Returns the plan, or the swarm planner's if the source is empty and it is cheaper.
fn or_swarm(alloc: Global, source: &Planes, target: &Planes, plan: Plan) -> Result<Compared, Memory>
    requires { MayBuildInstead source.now target.now plan }
    ensures crew { IfOk result (λ it. IsForCrew source.now target.now it.plan) }
    ensures no_dearer { IfOk result (λ it. it.plan.energy ≤ℤ plan.energy) }
    ensures as_swarm { source.now ≡ empty source.now.resolution
        → IfOk result (λ it. IsNoDearer IsSwarmPlan source.now target.now it.plan.energy
        × IsNoMoreThan it.plan.energy it.least) }
{
    let nothing = Planes::empty(alloc, source.resolution())?;
    if lowest_difference(source, &nothing).is_some() {
        return Ok(Compared { plan, least: None });
    }
    source.recall();
    seeds_bound_the_bots();
    let other = swarm_plan(alloc, target, plan.energy)?;
    Ok(compare(plan, other))
}

/// Returns the crew's plan before the other planners run. It costs no more than the layer planner's proved plan.
fn proposed_by_crew(alloc: Global, source: &Planes, target: &Planes) -> Result<Plan, Memory>
    requires { AreLegalModels source.now target.now }
    ensures crew { IfOk result (IsForCrew source.now target.now) }
    ensures as_layer { IfOk result (λ it. IsNoDearer IsLayerPlan source.now target.now it.energy) }
{
    source.recall();
    let plan = plan_layers(alloc, source, target)?;
    recall_all(plan.commands.as_slice());
    let mut most = Bounds::none();
    most.bytes = LIMIT;
    let crew = Bounds { bots: CREW, ..most };
    let plan = by_crew(alloc, source, target, plan, crew)?;
    let plan = by_rebuilding(alloc, source, target, plan, most)?;
    seeds_bound_the_bots();
    recall_all(plan.commands.as_slice());
    Ok(plan)
}

/// Returns the cheapest of a crew's few proposals and the plans of the other planners that apply.
fn cheapest_of_all(alloc: Global, source: &Planes, target: &Planes) -> Result<Crew, Memory>
    requires { AreLegalModels source.now target.now }
    ensures { IfOk result (IsCheapest source.now target.now) }
{
    let plan = proposed_by_crew(alloc, source, target)?;
    let by_layer = or_layer(alloc, source, target, plan)?;
    let by_group = or_group(alloc, source, target, by_layer.plan)?;
    let by_void = or_void(alloc, source, target, by_group.plan)?;
    let by_low = or_low(alloc, source, target, by_void.plan)?;
    let by_swarm = or_swarm(alloc, source, target, by_low.plan)?;
    Ok(Crew {
        plan: by_swarm.plan,
        layer: by_layer.least,
        group: by_group.least,
        void: by_void.least,
        low: by_low.least,
        swarm: by_swarm.least,
    })
}

/// Plans for up to forty bots from the source to the target: the cheapest of a crew's few proposals and the plans of the other
/// planners that apply.
pub fn choose_crew_plan(alloc: Global, source: &Planes, target: &Planes) -> Result<Plan, Memory>
    requires { AreLegalModels source.now target.now }
    ensures { IfOk result (λ plan. IsCrewPlan source.now target.now plan.commands plan.energy plan.steps) }
{
    Ok(cheapest_of_all(alloc, source, target)?.plan)
}
