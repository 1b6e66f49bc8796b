//! The command `plan`: makes the trace of a planner's plan.
ghost use Rattle.std.specs.Prelude.{◌≡◌, ◌+◌, ◌<◌, ◌≤◌, IfOk, MatchOption, Some};
ghost use Rattle.nano_spec.specs.Legal.{IsLegal};
ghost use Rattle.nano_spec.specs.Matrix.{Matrix};
ghost use Rattle.plan_tape.specs.Models.{AreLegalModels};
ghost use Rattle.group_planner.specs.Bounds.{most_bytes};
ghost use Rattle.group_planner.specs.Rows.{rows as rows_of, runs as runs_of};
ghost use Rattle.vox_depot.specs.Causes.{Rose};
ghost use Rattle.nanobot_words.specs.Parsing.{side_of};
ghost use Rattle.nanobot_words.specs.Rows.{TakesSides, plan as plan_row};
ghost use Rattle.nanobot_rows.specs.Answer.{AnswerOf};
ghost use Rattle.nanobot_rows.specs.Effects.{EndsStored, IsFor, KeepsPlan};
ghost use Rattle.nanobot_rows.specs.Plans.{Plans};
ghost use Rattle.nanobot_rows.specs.Reading.{MayFetchSides, OnlyReads};
ghost use Rattle.nanobot_rows.specs.declared.report.Report.TheVariants.{GroupLong};

use crate::effect::Effect;
use crate::models::load_models;
use crate::report::Report;
use crate::stop::Stop;
use group_planner::{rows, runs};
use low_planner::LowFault;
use nanobot_words::{Planner, Side};
use plan_choice::{
    choose_crew_plan, choose_group_plan, choose_layer_plan, choose_low_plan, choose_swarm_plan,
    choose_void_plan,
};
use plan_tape::Plan;
use std::alloc::Global;
use trace_codec::encode_all;
use vox_depot::Depot;
use vox_geom::Memory;
use vox_planes::Planes;

/// The maximum length in bytes of a plan by the group planner.
const GROUP_LIMIT: u64 = 1_073_741_824;

/// Makes the file of a plan's trace, and its report.
fn keep_plan<'a>(alloc: Global, plan: &Plan, trace: &'a str) -> Result<Effect<'a>, Memory>
    ensures { IfOk result (KeepsPlan trace.now plan.now.commands plan.now.energy plan.now.steps) }
{
    let bytes = encode_all(alloc, plan.commands.as_slice())?;
    let report = Report::of_plan(plan, bytes.as_slice());
    Ok(Effect::storing(report, trace, bytes))
}

/// Returns the report on a plan of the group planner that may be too long, if it may.
fn group_long(source: &Planes, target: &Planes) -> Option<Report>
    requires { source.now.resolution ≡ target.now.resolution }
    ensures { MatchOption result (most_bytes source.now target.now ≤ 1073741824)
        (λ report. (1073741824 < most_bytes source.now target.now)
        × (report ≡ GroupLong (runs_of source.now + runs_of target.now) (rows_of source.now + rows_of target.now))) }
{
    let runs = u64::from(runs(source)) + u64::from(runs(target));
    let rows = u64::from(rows(source)) + u64::from(rows(target));
    if 36 * runs + 640 * rows + 800 * u64::from(source.resolution()) + 1600 > GROUP_LIMIT {
        return Some(Report::GroupLong { runs, rows });
    }
    None
}

/// Returns the plan of two bots, or the report that it may be too long.
fn plan_group(alloc: Global, source: &Planes, target: &Planes) -> Result<Plan, Stop>
    requires { AreLegalModels source.now target.now }
    ensures { Plans Planner.Group source.now target.now result }
{
    if let Some(report) = group_long(source, target) {
        return Err(Stop::Told(report));
    }
    let plan = choose_group_plan(alloc, source, target)?;
    Ok(plan)
}

/// Returns the plan of one bot under Low, or the report that a part of the target is unsupported.
fn plan_low(alloc: Global, target: &Planes) -> Result<Plan, Stop>
    requires { IsLegal target.now }
    ensures { (source : Matrix) → Plans Planner.Low source target.now result }
{
    match choose_low_plan(alloc, target) {
        Ok(plan) => Ok(plan),
        Err(LowFault::Unsupported { at }) => Err(Stop::Told(Report::Unsupported { at })),
        Err(LowFault::Memory) => Err(Stop::Memory),
    }
}

/// Returns the planner's plan from the source to the target, or the reason for having none.
fn choose_plan(
    alloc: Global,
    planner: Planner,
    source: &Planes,
    target: &Planes,
) -> Result<Plan, Stop>
    requires { AreLegalModels source.now target.now }
    ensures { Plans planner source.now target.now result }
{
    match planner {
        Planner::Layer => {
            let plan = choose_layer_plan(alloc, source, target)?;
            Ok(plan)
        }
        Planner::Group => plan_group(alloc, source, target),
        Planner::Crew => {
            let plan = choose_crew_plan(alloc, source, target)?;
            Ok(plan)
        }
        Planner::Void => {
            let plan = choose_void_plan(alloc, source)?;
            Ok(plan)
        }
        Planner::Low => plan_low(alloc, target),
        Planner::Swarm => {
            let plan = choose_swarm_plan(alloc, target)?;
            Ok(plan)
        }
    }
}

/// Implements `plan`: makes the trace of the planner's plan from the source to the target.
pub fn plan<'a, D: Depot>(
    alloc: Global,
    depot: &mut D,
    planner: Planner,
    source: Side<'_>,
    target: Side<'_>,
    trace: &'a str,
) -> Result<Effect<'a>, Stop>
    requires may_fetch { MayFetchSides D.may_fetch (side_of source) (side_of target) }
    requires sides { TakesSides planner (side_of source) (side_of target) }
    ensures finishes { EndsStored (AnswerOf (plan_row planner (side_of source.entry) (side_of target.entry) trace.now))
        (D.files depot.old) (Rose (D.faults depot.old) (D.faults depot.new)) result }
    ensures named { IfOk result (IsFor (Some trace.now)) }
    ensures only_reads { OnlyReads D.files D.faults D.failed_stores depot.old depot.new }
{
    let (source, target) = load_models(alloc, depot, source, target)?;
    let plan = choose_plan(alloc, planner, &source, &target)?;
    let effect = keep_plan(alloc, &plan, trace)?;
    Ok(effect)
}
