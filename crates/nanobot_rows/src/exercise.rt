//! The command `exercise`: judges both plans of a forged model.
ghost use Rattle.std.specs.Prelude.{◌≡◌, ◌≤◌, ℕ, IfOk, None, Option};
ghost use Rattle.vox_depot.specs.Causes.{Rose};
ghost use Rattle.vox_depot.specs.Files.{Files};
ghost use Rattle.nano_spec.specs.Matrix.{empty};
ghost use Rattle.nano_spec.specs.Profile.{full_profile};
ghost use Rattle.nano_spec.specs.declared.outcomes.Verdict.TheVariants.{Accepted};
ghost use Rattle.nano_spec.specs.Verdict.{VerdictOf};
ghost use Rattle.nanobot_words.specs.Rows.{exercise as exercise_row};
ghost use Rattle.nanobot_rows.specs.Answer.{AnswerOf};
ghost use Rattle.nanobot_rows.specs.Effects.{EndsStored, IsFor};
ghost use Rattle.nanobot_rows.specs.Reading.{EndsUnstored};

use crate::effect::Effect;
use crate::report::{Cost, Report};
use crate::stop::Stop;
use model_forge::forge;
use nano_spec::{Verdict, one_verdict};
use plan_choice::{choose_group_plan, choose_layer_plan};
use plan_tape::Plan;
use std::alloc::Global;
use std::sync::ledger::Ledger;
use trace_judge::judge;
use vox_geom::{MOST_R, Memory, Steps};
use vox_planes::Planes;

/// The most commands passed to the machine at once. No plan of a forged model has more.
const MOST_COMMANDS: usize = 1_073_741_824;

/// Returns the cost, by the machine, of an accepted plan from the empty model to a target.
/// For a plan of more than [`MOST_COMMANDS`] commands, returns the plan's own numbers, which are proved.
fn judge_plan<L: Ledger>(
    alloc: Global,
    target: &Planes,
    plan: &Plan,
    steps: &mut Steps<L>,
) -> Result<Cost, Memory>
    requires accepted { VerdictOf (empty target.now.resolution) target.now plan.now.commands full_profile
        (Accepted plan.now.energy plan.now.steps) }
    ensures { IfOk result (λ cost. cost ≡ record { energy = plan.now.energy; steps = plan.now.steps }) }
{
    one_verdict();
    let commands = plan.commands.as_slice();
    if commands.len() > MOST_COMMANDS {
        return Ok(Cost {
            energy: plan.energy,
            steps: plan.steps,
        });
    }
    let nothing = Planes::empty(alloc, target.resolution())?;
    match judge(alloc, nothing, target, commands, steps)? {
        Verdict::Accepted { energy, steps } => Ok(Cost { energy, steps }),
        Verdict::Refused(_) => unreachable!(),
    }
}

/// Reports the costs of the layer planner's and the group planner's plans that build a forged model.
fn judge_plans<L: Ledger>(
    alloc: Global,
    number: u32,
    resolution: u16,
    steps: &mut Steps<L>,
) -> Result<Report, Stop>
    requires some { 1 ≤ resolution }
    requires most { resolution ≤ MOST_R }
    ensures ends { (told : Option Files) (before now : ℕ)
        → EndsUnstored (AnswerOf (exercise_row number resolution)) told (Rose before now) result }
{
    let target = forge(alloc, number, resolution)?;
    let nothing = Planes::empty(alloc, resolution)?;
    let first = choose_layer_plan(alloc, &nothing, &target)?;
    let layer = judge_plan(alloc, &target, &first, steps)?;
    let second = choose_group_plan(alloc, &nothing, &target)?;
    let group = judge_plan(alloc, &target, &second, steps)?;
    Ok(Report::Exercised {
        number,
        resolution,
        full: target.count(steps),
        layer,
        group,
    })
}

/// Implements `exercise`: reports the costs of the layer planner's and the group planner's plans of a forged model.
pub fn exercise<'a, L: Ledger>(
    alloc: Global,
    number: u32,
    resolution: u16,
    steps: &mut Steps<L>,
) -> Result<Effect<'a>, Stop>
    requires some { 1 ≤ resolution }
    requires most { resolution ≤ MOST_R }
    ensures finishes { (told : Option Files) (before now : ℕ)
        → EndsStored (AnswerOf (exercise_row number resolution)) told (Rose before now) result }
    ensures named { IfOk result (IsFor None) }
{
    Effect::telling(judge_plans(alloc, number, resolution, steps))
}
