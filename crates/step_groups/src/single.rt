//! Judges the step of a single bot.
ghost use Rattle.std.specs.Prelude.{◌≡◌, ◌≤◌, ◌+◌, ◌*◌, ℕ, ℤ, IfOk, IfSome, None, length, [], ◌∷◌};
ghost use Rattle.vox_geom.specs.Point.{point, plus};
ghost use Rattle.vox_geom.specs.Space.{IsInSpace};
ghost use Rattle.nano_spec.specs.declared.commands.Command.TheVariants.{SMove};
ghost use Rattle.nano_spec.specs.declared.system.Harmonics.{Harmonics as HarmonicsOf};
ghost use Rattle.nano_spec.specs.Act.{acts};
ghost use Rattle.nano_spec.specs.Rules.{broken};
ghost use Rattle.nano_spec.specs.Work.{volatile_total};
ghost use Rattle.step_groups.specs.Groups.{AreLone};
ghost use Rattle.step_groups.specs.Judging.{edit_of, rule_broken, start_of};
ghost use Rattle.step_groups.specs.Steps.{CanBeJudged, acts_of_step, broken_in};

use crate::rules::{breaks, end_of_move, is_clear_at_once, judge_bots, named_by, reach};
use crate::step::Step;
use nano_spec::{Bot, Broken, Command, Profile, Rule};
use std::sync::ledger::Ledger;
use vox_geom::{Coord, Long, Near, Steps};
use vox_planes::Planes;

/// Returns the first rule that a single bot's step breaks, as [`crate::judge_groups`] does. Makes no list of groups, because the
/// bot is the only group.
///
/// Makes at most two touches for each volatile coordinate.
pub fn judge_single<L: Ledger>(step: &Step, steps: &mut Steps<L>) -> Option<Broken>
    requires one { length step.now.bots.now ≡ 1 }
    requires step { CanBeJudged step.now }
    ensures value { (energy : ℤ) → result ≡ broken_in step.now energy }
    ensures lone { AreLone (acts_of_step step.now) }
    ensures touches { steps.new ≤ steps.old + 2 * volatile_total step.now.planes.now (acts_of_step step.now) }
{
    judge_bots(step, &[0], steps)
}

/// Returns the end of a single bot's `SMove`, or the first rule that the step breaks. Reads the path once.
#[inline(always)]
pub fn judge_move<L: Ledger>(
    planes: &Planes,
    profile: Profile,
    bot: Bot,
    d: Long,
    step: u32,
    steps: &mut Steps<L>,
) -> Result<Coord, Broken>
    requires within { IsInSpace planes.now.resolution bot.pos }
    ensures value { (harmonics : HarmonicsOf) (energy : ℤ)
        → rule_broken result
        ≡ broken (record (start_of planes.now harmonics profile (bot ∷ [])) { energy = energy }) (SMove d ∷ [])
        step }
    ensures sum { IfOk result (λ to. point to ≡ plus (point bot.pos) d) }
    ensures stays { IfOk result (λ to. IsInSpace planes.now.resolution to) }
    ensures touches { steps.new ≤ steps.old + 2 * volatile_total planes.now (acts (bot ∷ []) (SMove d ∷ [])) }
{
    if profile.allows(Command::SMove(d)) {
        end_of_move(planes, step, bot, d.diff(), steps)
    } else {
        Err(breaks(step, bot.bid, Rule::Forbidden, bot.pos))
    }
}

/// Returns the end of a single bot's `SMove` if a test without a search shows that the step breaks no rule.
///
/// `None` decides nothing: the step has to be judged by [`judge_move`].
#[inline(always)]
pub fn moves_at_once<L: Ledger>(
    planes: &Planes,
    profile: Profile,
    bot: Bot,
    d: Long,
    steps: &mut Steps<L>,
) -> Option<Coord>
    requires within { IsInSpace planes.now.resolution bot.pos }
    ensures keeps { IfSome result
        (λ _. (harmonics : HarmonicsOf) (energy : ℤ) (step : ℕ) → None ≡ broken
        (record (start_of planes.now harmonics profile (bot ∷ [])) { energy = energy }) (SMove d ∷ []) step) }
    ensures sum { IfSome result (λ to. point to ≡ plus (point bot.pos) d) }
    ensures stays { IfSome result (λ to. IsInSpace planes.now.resolution to) }
    ensures touches { steps.new ≤ steps.old + volatile_total planes.now (acts (bot ∷ []) (SMove d ∷ [])) }
{
    if !profile.allows(Command::SMove(d)) {
        return None;
    }
    let Some(to) = reach(planes, bot.pos, d.diff()) else {
        return None;
    };
    if is_clear_at_once(planes, bot.pos, to, d.diff(), steps) {
        return Some(to);
    }
    None
}

/// Returns the voxel that a single bot fills (or voids, if `full` is false), or the first rule that the step breaks.
///
/// Reads no voxel.
#[inline(always)]
pub fn judge_edit(
    planes: &Planes,
    profile: Profile,
    bot: Bot,
    d: Near,
    full: bool,
    step: u32,
) -> Result<Coord, Broken>
    requires within { IsInSpace planes.now.resolution bot.pos }
    ensures value { (harmonics : HarmonicsOf) (energy : ℤ)
        → rule_broken result
        ≡ broken (record (start_of planes.now harmonics profile (bot ∷ [])) { energy = energy })
        (edit_of full d ∷ []) step }
    ensures sum { IfOk result (λ at. point at ≡ plus (point bot.pos) d) }
    ensures stays { IfOk result (λ at. IsInSpace planes.now.resolution at) }
{
    if profile.allows(edit(d, full)) {
        named_by(planes, step, bot, d.diff())
    } else {
        Err(breaks(step, bot.bid, Rule::Forbidden, bot.pos))
    }
}

/// Returns the command that fills (or voids, if `full` is false) the voxel at the difference.
#[inline(always)]
pub fn edit(d: Near, full: bool) -> Command
    ensures { result ≡ edit_of full d }
{
    if full {
        Command::Fill(d)
    } else {
        Command::Void(d)
    }
}
