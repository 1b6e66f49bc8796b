//! Judgement and interference test of bots that act alone, in one pass: one bounding box holds all that is volatile for the bots so
//! far.
ghost use Rattle.std.specs.Prelude.{◌≡◌, ◌+◌, ◌≤◌, ◌||◌, nat_lt, true, length, IfNone, IfOk, IsTrue, sum_by};
ghost use Rattle.std.specs.List.{list_all};
ghost use Rattle.vox_geom.specs.declared.coordinate.Coord.{Coord as Coordinate};
ghost use Rattle.vox_geom.specs.Point.{point};
ghost use Rattle.vox_geom.specs.Region.{is_within, span};
ghost use Rattle.vox_geom.specs.Space.{IsInSpace};
ghost use Rattle.nano_spec.specs.declared.commands.Command.TheVariants.{Fill, Fission as FissionOf, Halt, SMove, Void};
ghost use Rattle.step_groups.specs.Apart.{AreAllApart};
ghost use Rattle.step_groups.specs.Judging.{IsLaterFault, act, is_alone, is_rare, judge_bot as judge_bot_of, judge_each, rule_broken, touches_of};
ghost use Rattle.step_groups.specs.Outlines.{IsHullFor, IsVolatileFor, LiesBetween, TakesIn};
ghost use Rattle.step_groups.specs.Steps.{CanBeJudged, CanJudge, acts_of_step, later_fault, start_of_step};

use crate::boxes::around;
use crate::rules::{breaks, end_of_move, hull_of_moves, lacks_seeds, named_by, reach};
use crate::step::Step;
use nano_spec::{Bot, Broken, Command, Harmonics, Rule};
use std::sync::ledger::Ledger;
use vox_geom::{Coord, Diff, Region, Steps};
use vox_planes::Planes;

/// The bounding box of all that is volatile for the bots so far, and whether each bot was disjoint from the box of those before it.
#[derive(Clone, Copy)]
pub(crate) struct Outline {
    pub(crate) low: Coord,
    pub(crate) high: Coord,
    pub(crate) apart: bool,
}

/// Returns whether two intervals are disjoint.
#[inline(always)]
fn are_beside(low: u16, high: u16, other_low: u16, other_high: u16) -> bool
    ensures { result ≡ (nat_lt high other_low || nat_lt other_high low) }
{
    high < other_low || other_high < low
}

/// Returns whether two boxes are disjoint.
#[inline(always)]
fn lie_beside(low: Coord, high: Coord, other_low: Coord, other_high: Coord) -> bool
    ensures { result ≡ true → (c : Coordinate) → LiesBetween low high c → LiesBetween other_low other_high c → ⊥ }
{
    let x = are_beside(low.x, high.x, other_low.x, other_high.x);
    let y = are_beside(low.y, high.y, other_low.y, other_high.y);
    let z = are_beside(low.z, high.z, other_low.z, other_high.z);
    x || y || z
}

/// Extends the bounding box by a box.
#[inline(always)]
fn take_in(outline: &mut Outline, hull: &Region)
    ensures { TakesIn (λ c. IsTrue (is_within (span hull.now) (point c))) outline.old outline.new }
{
    let low = hull.low();
    let high = hull.high();
    let beside = lie_beside(low, high, outline.low, outline.high);
    *outline = Outline {
        low: Coord {
            x: outline.low.x.min(low.x),
            y: outline.low.y.min(low.y),
            z: outline.low.z.min(low.z),
        },
        high: Coord {
            x: outline.high.x.max(high.x),
            y: outline.high.y.max(high.y),
            z: outline.high.z.max(high.z),
        },
        apart: outline.apart && beside,
    };
}

/// Returns the box of the path of a bot with `SMove`, or the first rule that it breaks.
#[inline(always)]
fn hull_of_move<L: Ledger>(
    planes: &Planes,
    step: u32,
    bot: Bot,
    d: Diff,
    steps: &mut Steps<L>,
) -> Result<Region, Broken>
    requires { IsInSpace planes.now.resolution bot.pos }
    ensures value { IsLaterFault planes.now step (act bot (SMove d)) (rule_broken result) }
    ensures hull { IfOk result (IsHullFor (act bot (SMove d))) }
    ensures touches { steps.new ≤ steps.old + touches_of planes.now (act bot (SMove d)) }
{
    let to = end_of_move(planes, step, bot, d, steps)?;
    Ok(Region::of(bot.pos, to))
}

/// Returns a bounding box of a bot with `Fill` or `Void` and the voxel that it names, or the first rule that it breaks.
#[inline(always)]
fn hull_of_edit(planes: &Planes, step: u32, bot: Bot, d: Diff) -> Result<Region, Broken>
    requires { IsInSpace planes.now.resolution bot.pos }
    ensures fill { IsLaterFault planes.now step (act bot (Fill d)) (rule_broken result) }
    ensures void { IsLaterFault planes.now step (act bot (Void d)) (rule_broken result) }
    ensures filled { IfOk result (IsHullFor (act bot (Fill d))) }
    ensures voided { IfOk result (IsHullFor (act bot (Void d))) }
{
    let at = named_by(planes, step, bot, d)?;
    Ok(Region::of(bot.pos, at))
}

/// Returns a bounding box of a bot with `Halt`, or the first rule that it breaks.
fn hull_of_halt(step: &Step, bot: Bot) -> Result<Region, Broken>
    ensures value { rule_broken result ≡ later_fault step.now (act bot Halt) }
    ensures hull { IfOk result (IsHullFor (act bot Halt)) }
{
    let origin = Coord { x: 0, y: 0, z: 0 };
    if step.bots.len() > 1 {
        return Err(breaks(step.number, bot.bid, Rule::HaltAlone, bot.pos));
    }
    if bot.pos != origin {
        return Err(breaks(step.number, bot.bid, Rule::HaltOrigin, bot.pos));
    }
    if step.harmonics == Harmonics::High {
        return Err(breaks(step.number, bot.bid, Rule::HaltLow, bot.pos));
    }
    Ok(Region::of(bot.pos, bot.pos))
}

/// Returns a bounding box of a bot with `Fission` and its new bot, or the first rule that it breaks.
fn hull_of_fission<L: Ledger>(
    planes: &Planes,
    step: u32,
    bot: Bot,
    d: Diff,
    m: u8,
    steps: &mut Steps<L>,
) -> Result<Region, Broken>
    requires { IsInSpace planes.now.resolution bot.pos }
    ensures value { IsLaterFault planes.now step (act bot (FissionOf d m)) (rule_broken result) }
    ensures hull { IfOk result (IsHullFor (act bot (FissionOf d m))) }
    ensures touches { steps.new ≤ steps.old + touches_of planes.now (act bot (FissionOf d m)) }
{
    let Some(to) = reach(planes, bot.pos, d) else {
        return Err(breaks(step, bot.bid, Rule::OutOfSpace, bot.pos));
    };
    if let Some(at) = planes.region_full(&Region::of(to, to), steps) {
        return Err(breaks(step, bot.bid, Rule::Blocked, at));
    }
    if lacks_seeds(bot, m) {
        return Err(breaks(step, bot.bid, Rule::Seeds, bot.pos));
    }
    Ok(Region::of(bot.pos, to))
}

/// Returns a bounding box of all that is volatile for a bot with a rare command that needs no other bot. If it breaks a rule after
/// the one on the profile, returns the first. Out of line: leaves the loop its registers.
#[inline(never)]
fn judge_rare<L: Ledger>(
    step: &Step,
    bot: &Bot,
    command: &Command,
    steps: &mut Steps<L>,
) -> Result<Region, Broken>
    requires step { CanJudge step.now bot.now }
    requires alone { IsTrue (is_alone command.now) }
    requires rare { IsTrue (is_rare command.now) }
    ensures value { rule_broken result ≡ later_fault step.now (act bot.now command.now) }
    ensures hull { IfOk result (IsHullFor (act bot.now command.now)) }
    ensures touches { steps.new ≤ steps.old + touches_of step.now.planes.now (act bot.now command.now) }
{
    match command {
        Command::Halt => hull_of_halt(step, *bot),
        Command::Fission(d, m) => {
            hull_of_fission(step.planes, step.number, *bot, d.diff(), *m, steps)
        }
        Command::Flip => Ok(Region::of(bot.pos, bot.pos)),
        // All others need other bots or are frequent, and are never judged here.
        _ => Ok(Region::of(bot.pos, bot.pos)),
    }
}

/// [`judge_rare`] for every command that needs no other bot. Frequent ones take the fast path.
#[inline(always)]
pub(crate) fn judge_hull<L: Ledger>(
    step: &Step,
    bot: &Bot,
    command: &Command,
    steps: &mut Steps<L>,
) -> Result<Region, Broken>
    requires step { CanJudge step.now bot.now }
    requires alone { IsTrue (is_alone command.now) }
    ensures value { rule_broken result ≡ later_fault step.now (act bot.now command.now) }
    ensures hull { IfOk result (IsHullFor (act bot.now command.now)) }
    ensures touches { steps.new ≤ steps.old + touches_of step.now.planes.now (act bot.now command.now) }
{
    let planes = step.planes;
    let number = step.number;
    match command {
        Command::Wait => Ok(Region::of(bot.pos, bot.pos)),
        Command::SMove(d) => hull_of_move(planes, number, *bot, d.diff(), steps),
        Command::LMove(d, e) => hull_of_moves(planes, number, *bot, d.diff(), e.diff(), steps),
        Command::Fill(d) => hull_of_edit(planes, number, *bot, d.diff()),
        Command::Void(d) => hull_of_edit(planes, number, *bot, d.diff()),
        Command::Halt
        | Command::Flip
        | Command::FusionP(_)
        | Command::FusionS(_)
        | Command::Fission(_, _)
        | Command::GFill(_, _)
        | Command::GVoid(_, _) => {
            // Named, so that each arm writes its box in one place and no box is read half written.
            let hull = judge_rare(step, bot, command, steps)?;
            Ok(hull)
        }
    }
}

/// Returns the first rule that a bot breaks. If it breaks none, extends the bounding box by its volatile coordinates.
#[inline(always)]
fn judge_next<L: Ledger>(
    step: &Step,
    bot: &Bot,
    command: &Command,
    outline: &mut Outline,
    steps: &mut Steps<L>,
) -> Option<Broken>
    requires step { CanJudge step.now bot.now }
    requires alone { IsTrue (is_alone command.now) }
    ensures value { result
        ≡ judge_bot_of (start_of_step step.now) (acts_of_step step.now) step.now.number (act bot.now command.now) }
    ensures outline { IfNone result (TakesIn (IsVolatileFor (act bot.now command.now)) outline.old outline.new) }
    ensures touches { steps.new ≤ steps.old + touches_of step.now.planes.now (act bot.now command.now) }
{
    if !step.profile.allows(*command) {
        return Some(breaks(step.number, bot.bid, Rule::Forbidden, bot.pos));
    }
    match judge_hull(step, bot, command, steps) {
        Ok(hull) => {
            take_in(outline, &hull);
            None
        }
        Err(broken) => Some(broken),
    }
}

/// Returns whether each bot is disjoint from those before it, or the first rule that a bot breaks. Out of line: the loop has all
/// registers.
#[inline(never)]
pub(crate) fn judge_apart<L: Ledger>(step: &Step, steps: &mut Steps<L>) -> Result<bool, Broken>
    requires step { CanBeJudged step.now }
    requires lone { IsTrue (list_all is_alone step.now.commands.now) }
    ensures value { rule_broken result ≡ judge_each (start_of_step step.now)
        (acts_of_step step.now) step.now.number (acts_of_step step.now) }
    ensures apart { IfOk result (λ apart. apart ≡ true → AreAllApart (acts_of_step step.now)) }
    ensures touches { steps.new ≤ steps.old + sum_by (touches_of step.now.planes.now) (acts_of_step step.now) }
{
    let bots = step.bots;
    let commands = step.commands;
    let mut outline = Outline {
        low: Coord {
            x: u16::MAX,
            y: u16::MAX,
            z: u16::MAX,
        },
        high: Coord { x: 0, y: 0, z: 0 },
        apart: true,
    };
    for i in 0..bots.len() {
        if let Some(broken) = judge_next(step, &bots[i], &commands[i], &mut outline, steps) {
            return Err(broken);
        }
    }
    Ok(outline.apart)
}
