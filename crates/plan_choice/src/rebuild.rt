//! Plans of a crew that voids the source and then builds the target.
ghost use Rattle.std.specs.Prelude.{◌≡◌, IfOk, length};
ghost use Rattle.nano_spec.specs.Profile.{full_profile};
ghost use Rattle.plan_tape.specs.Models.{AreLegalModels};
ghost use Rattle.plan_tape.specs.Progress.{IsAccepted};
ghost use Rattle.plan_choice.specs.Better.{MayStandFor};

use crate::alone::is_void;
use crate::bounds::Bounds;
use crate::choice::cheaper;
use crate::many::{CREW, by_crew};
use layer_planner::plan_layers;
use nano_spec::{Command, CommandList, Profile};
use plan_tape::Plan;
use std::alloc::Global;
use vox_geom::Memory;
use vox_planes::Planes;

/// Returns the first commands without their Halt, and then the second.
pub(crate) fn join(
    alloc: Global,
    first: &[Command],
    second: &[Command],
) -> Result<CommandList, Memory> {
    let mut commands = CommandList::new(alloc);
    for command in first {
        if *command != Command::Halt {
            commands.push(*command)?;
        }
    }
    for command in second {
        commands.push(*command)?;
    }
    Ok(commands)
}

/// Returns the commands of a crew that voids the source and then builds the target.
fn rebuilt(
    alloc: Global,
    source: &Planes,
    target: &Planes,
    most: Bounds,
) -> Result<CommandList, Memory>
    requires { AreLegalModels source.now target.now }
{
    let most = Bounds { bots: CREW, ..most };
    let nothing = Planes::empty(alloc, source.resolution())?;
    let plan = plan_layers(alloc, source, &nothing)?;
    let down = by_crew(alloc, source, &nothing, plan, most)?;
    let plan = plan_layers(alloc, &nothing, target)?;
    let up = by_crew(alloc, &nothing, target, plan, most)?;
    join(alloc, down.commands.as_slice(), up.commands.as_slice())
}

/// Returns the plan, or the plan of a crew that voids the source and then builds the target, if neither is empty and it is cheaper
/// and within the bounds. The bots of both parts count. A plan of one command, a Halt alone, is returned as it is.
pub(crate) fn by_rebuilding(
    alloc: Global,
    source: &Planes,
    target: &Planes,
    plan: Plan,
    most: Bounds,
) -> Result<Plan, Memory>
    requires models { AreLegalModels source.now target.now }
    requires accepted { IsAccepted source.now target.now plan.commands full_profile plan.energy plan.steps }
    ensures stands { IfOk result (λ it. MayStandFor source.now target.now full_profile most plan it) }
    ensures alone { length plan.commands ≡ 1 → IfOk result (λ it. it.commands ≡ plan.commands) }
{
    if plan.commands.as_slice().len() == 1 {
        return Ok(plan);
    }
    if is_void(source) {
        return Ok(plan);
    }
    if is_void(target) {
        return Ok(plan);
    }
    let proposal = rebuilt(alloc, source, target, most)?;
    let profile = Profile::full();
    cheaper(alloc, source, target, profile, plan, proposal, most)
}
