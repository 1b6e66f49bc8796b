//! Plans.
ghost use Rattle.std.specs.Prelude.{◌≡◌, ℕ, List, Option, Some, None, []};
ghost use Rattle.nanobot_words.specs.Rows.{HasName, TakesSides, plan as plan_row};
ghost use Rattle.nanobot_c.specs.Calls.{GavePlanOf, GivesPlanBetween, GivesPlanOfTarget};
ghost use Rattle.nanobot_c.specs.Given.{IsMemory};
ghost use Rattle.nanobot_c.specs.Lent.{lent, plan_name, source_name, target_name};

use crate::call::{call, give_no_row};
use crate::judging::has_model;
use crate::lent::{Lent, side};
use nanobot_words::{Planner, Row, Side};
use std::alloc::Global;

/// Plans from the source to the target. A source or a target of no bytes is the empty model of the other's resolution.
fn plan_between(
    alloc: Global,
    planner: Planner,
    source: &[u8],
    target: &[u8],
    plan: &mut [u8],
    size: &mut usize,
) -> u32
    requires any { (s t : Option (List ℕ)) → HasName s t → TakesSides planner s t }
    ensures { GivesPlanBetween planner source.now target.now plan.old plan.new size.new result }
{
    if !has_model(source, target) {
        return give_no_row(plan, size);
    }
    let row = Row::Plan {
        planner,
        source: side("s", source),
        target: side("t", target),
        trace: "p",
    };
    let lent = Lent {
        source,
        target,
        trace: &[],
    };
    call(alloc, row, lent, plan, size)
}

/// Plans from the empty model to the target.
fn plan_target(
    alloc: Global,
    planner: Planner,
    target: &[u8],
    plan: &mut [u8],
    size: &mut usize,
) -> u32
    requires target { TakesSides planner None (Some target_name) }
    ensures { GivesPlanOfTarget planner target.now plan.old plan.new size.new result }
{
    let row = Row::Plan {
        planner,
        source: Side::Empty,
        target: Side::Named("t"),
        trace: "p",
    };
    let lent = Lent {
        source: &[],
        target,
        trace: &[],
    };
    call(alloc, row, lent, plan, size)
}

/// Plans with one bot from the source to the target. Writes the trace that `nanobot plan layer S T B` stores, or its printed line
/// if it is refused. A source or a target of no bytes is the empty model of the other's resolution.
#[unsafe(no_mangle)]
pub extern "C" fn nanobot_plan_layer(
    alloc: Global,
    source: &[u8],
    target: &[u8],
    plan: &mut [u8],
    size: &mut usize,
) -> u32
    ensures { GivesPlanBetween Planner.Layer source.now target.now plan.old plan.new size.new result }
{
    plan_between(alloc, Planner::Layer, source, target, plan, size)
}

/// Plans with two bots from the source to the target. Writes the trace that `nanobot plan group S T B` stores, or its printed line
/// if it is refused. A source or a target of no bytes is the empty model of the other's resolution.
#[unsafe(no_mangle)]
pub extern "C" fn nanobot_plan_group(
    alloc: Global,
    source: &[u8],
    target: &[u8],
    plan: &mut [u8],
    size: &mut usize,
) -> u32
    ensures { GivesPlanBetween Planner.Group source.now target.now plan.old plan.new size.new result }
{
    plan_between(alloc, Planner::Group, source, target, plan, size)
}

/// Plans with up to forty bots from the source to the target. Writes the trace that `nanobot plan crew S T B` stores, or its
/// printed line if it is refused. A source or a target of no bytes is the empty model of the other's resolution.
#[unsafe(no_mangle)]
pub extern "C" fn nanobot_plan_crew(
    alloc: Global,
    source: &[u8],
    target: &[u8],
    plan: &mut [u8],
    size: &mut usize,
) -> u32
    ensures { GivesPlanBetween Planner.Crew source.now target.now plan.old plan.new size.new result }
{
    plan_between(alloc, Planner::Crew, source, target, plan, size)
}

/// Plans the removal of the source with four bots. Writes the trace that `nanobot plan void S - B` stores, or its printed line if
/// it is refused.
#[unsafe(no_mangle)]
pub extern "C" fn nanobot_plan_void(
    alloc: Global,
    source: &[u8],
    plan: &mut [u8],
    size: &mut usize,
) -> u32
    ensures answer { (IsMemory result → ⊥)
        → GavePlanOf (plan_row Planner.Void (Some source_name) None plan_name) (lent source.now [] [])
        plan.old plan.new size.new result }
    ensures memory { IsMemory result → (plan.new ≡ plan.old) × (size.new ≡ 0) }
{
    let row = Row::Plan {
        planner: Planner::Void,
        source: Side::Named("s"),
        target: Side::Empty,
        trace: "p",
    };
    let lent = Lent {
        source,
        target: &[],
        trace: &[],
    };
    call(alloc, row, lent, plan, size)
}

/// Plans with one bot under Low that builds the target. Writes the trace that `nanobot plan low - T B` stores, or its printed line
/// if it is refused.
#[unsafe(no_mangle)]
pub extern "C" fn nanobot_plan_low(
    alloc: Global,
    target: &[u8],
    plan: &mut [u8],
    size: &mut usize,
) -> u32
    ensures { GivesPlanOfTarget Planner.Low target.now plan.old plan.new size.new result }
{
    plan_target(alloc, Planner::Low, target, plan, size)
}

/// Plans with up to twenty bots that build the target. Writes the trace that `nanobot plan swarm - T B` stores, or its printed line
/// if it is refused.
#[unsafe(no_mangle)]
pub extern "C" fn nanobot_plan_swarm(
    alloc: Global,
    target: &[u8],
    plan: &mut [u8],
    size: &mut usize,
) -> u32
    ensures { GivesPlanOfTarget Planner.Swarm target.now plan.old plan.new size.new result }
{
    plan_target(alloc, Planner::Swarm, target, plan, size)
}
