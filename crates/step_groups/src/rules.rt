//! The rules that are judged for each bot.
ghost use Rattle.std.specs.Prelude.{◌≡◌, ◌+◌, ◌≤◌, ◌&&◌, length, None, Some, IsTrue, IsFalse, IfOk, IfSome, IfNone, Bool, true, find, nat_le, sum_by};
ghost use Rattle.vox_geom.specs.declared.coordinate.Coord.{Coord as Coordinate};
ghost use Rattle.vox_geom.specs.Space.{IsInSpace, in_space};
ghost use Rattle.vox_geom.specs.Point.{point, plus};
ghost use Rattle.vox_geom.specs.Region.{corners, is_within, size, span};
ghost use Rattle.nano_spec.specs.declared.commands.Command.{Command as Trace};
ghost use Rattle.nano_spec.specs.declared.commands.Command.TheVariants.{SMove, LMove, Fill, Void};
ghost use Rattle.nano_spec.specs.Matrix.{all_of, is_full};
ghost use Rattle.nano_spec.specs.Rules.{broken_by};
ghost use Rattle.nano_spec.specs.State.{seed_list};
ghost use Rattle.step_groups.specs.Deeds.{IsDeed};
ghost use Rattle.step_groups.specs.declared.deed.Deed.TheVariants.{Edits, Fuses};
ghost use Rattle.step_groups.specs.Judging.{IsLaterFault, act, is_alone, rule_broken, judge_bot as judge_bot_of, judge_each, touches_of};
ghost use Rattle.step_groups.specs.Numbers.{AreNumbers, TellsMembers};
ghost use Rattle.step_groups.specs.Outlines.{IsHullFor};
ghost use Rattle.step_groups.specs.Steps.{CanBeJudged, CanJudge, acts_of_step, later_fault, start_of_step};

use crate::boxes::around;
use crate::deed::{Deed, deed_in};
use crate::one_pass::judge_hull;
use crate::partners::has_partner;
use crate::shapes::is_misshapen;
use crate::step::Step;
use bot_crew::seeds_of;
use nano_spec::{Bot, Broken, Command, Rule};
use std::sync::ledger::Ledger;
use vox_geom::{Coord, Diff, Region, Steps};
use vox_planes::{Planes, earlier};

/// Returns that the bot with the bid breaks the rule there.
pub(crate) fn breaks(step: u32, bid: u8, rule: Rule, at: Coord) -> Broken
    ensures { Some result ≡ broken_by step rule bid (Some at) }
{
    Broken {
        step,
        bid,
        rule,
        at,
    }
}

/// Returns the coordinate that a difference leads to, or `None` exactly if it is out of the matrix.
#[inline(always)]
pub(crate) fn reach(planes: &Planes, from: Coord, d: Diff) -> Option<Coord>
    requires { IsInSpace planes.now.resolution from }
    ensures some { IfSome result (λ to. IsTrue (in_space planes.now.resolution (plus (point from) d))) }
    ensures sum { IfSome result (λ to. point to ≡ plus (point from) d) }
    ensures none { IfNone result (IsFalse (in_space planes.now.resolution (plus (point from) d))) }
    ensures within { IfSome result (λ to. IsInSpace planes.now.resolution to) }
{
    from.plus_in_matrix(d, planes.resolution())
}

/// Returns the end of a bot's `SMove`, or the first rule that it breaks.
#[inline(always)]
pub(crate) fn end_of_move<L: Ledger>(
    planes: &Planes,
    step: u32,
    bot: Bot,
    d: Diff,
    steps: &mut Steps<L>,
) -> Result<Coord, Broken>
    requires { IsInSpace planes.now.resolution bot.pos }
    ensures value { IsLaterFault planes.now step (act bot (SMove d)) (rule_broken result) }
    ensures sum { IfOk result (λ to. point to ≡ plus (point bot.pos) d) }
    ensures within { IfOk result (λ to. IsInSpace planes.now.resolution to) }
    ensures touches { steps.new ≤ steps.old + touches_of planes.now (act bot (SMove d)) }
{
    let Some(to) = reach(planes, bot.pos, d) else {
        return Err(breaks(step, bot.bid, Rule::OutOfSpace, bot.pos));
    };
    match planes.region_full(&Region::of(bot.pos, to), steps) {
        None => Ok(to),
        Some(at) => Err(breaks(step, bot.bid, Rule::Blocked, at)),
    }
}

/// Returns whether a path is void without a search of a row: it is above all full voxels, or is by one coordinate.
#[inline(always)]
pub(crate) fn is_clear_at_once<L: Ledger>(
    planes: &Planes,
    from: Coord,
    to: Coord,
    d: Diff,
    steps: &mut Steps<L>,
) -> bool
    requires from { IsInSpace planes.now.resolution from }
    requires to { IsInSpace planes.now.resolution to }
    requires sum { point to ≡ plus (point from) d }
    ensures clear { result ≡ true
        → find (λ c. is_full planes.now c && is_within (span (corners from to)) (point c)) (all_of planes.now) ≡ None }
    ensures touches { steps.new ≤ steps.old + size (span (corners from to)) }
{
    if planes.is_void_from(from.y.min(to.y), steps) {
        return true;
    }
    if d.mlen() != 1 {
        return false;
    }
    if planes.full_at(from, steps) {
        return false;
    }
    !planes.full_at(to, steps)
}

/// Returns a bounding box of both legs of a bot with `LMove`, or the first rule that it breaks.
#[inline(always)]
pub(crate) fn hull_of_moves<L: Ledger>(
    planes: &Planes,
    step: u32,
    bot: Bot,
    d: Diff,
    e: Diff,
    steps: &mut Steps<L>,
) -> Result<Region, Broken>
    requires { IsInSpace planes.now.resolution bot.pos }
    ensures value { IsLaterFault planes.now step (act bot (LMove d e)) (rule_broken result) }
    ensures hull { IfOk result (IsHullFor (act bot (LMove d e))) }
    ensures touches { steps.new ≤ steps.old + touches_of planes.now (act bot (LMove d e)) }
{
    let Some(mid) = reach(planes, bot.pos, d) else {
        return Err(breaks(step, bot.bid, Rule::OutOfSpace, bot.pos));
    };
    let Some(to) = reach(planes, mid, e) else {
        return Err(breaks(step, bot.bid, Rule::OutOfSpace, bot.pos));
    };
    let first_way = Region::of(bot.pos, mid);
    let second_way = Region::of(mid, to);
    let first = planes.region_full(&first_way, steps);
    let second = planes.region_full(&second_way, steps);
    match earlier(first, second) {
        None => Ok(around(&first_way, &second_way)),
        Some(at) => Err(breaks(step, bot.bid, Rule::Blocked, at)),
    }
}

/// Returns whether a fission with m needs more seeds than the bot has.
pub(crate) fn lacks_seeds(bot: Bot, m: u8) -> bool
    ensures { result ≡ nat_le (length (seed_list bot.seeds)) m }
{
    seeds_of(bot) <= m
}

/// Returns the voxel that a bot with `Fill` or `Void` names, or the first rule that it breaks.
#[inline(always)]
pub(crate) fn named_by(planes: &Planes, step: u32, bot: Bot, d: Diff) -> Result<Coord, Broken>
    requires { IsInSpace planes.now.resolution bot.pos }
    ensures fill { IsLaterFault planes.now step (act bot (Fill d)) (rule_broken result) }
    ensures void { IsLaterFault planes.now step (act bot (Void d)) (rule_broken result) }
    ensures sum { IfOk result (λ at. point at ≡ plus (point bot.pos) d) }
    ensures within { IfOk result (λ at. IsInSpace planes.now.resolution at) }
{
    let Some(at) = reach(planes, bot.pos, d) else {
        return Err(breaks(step, bot.bid, Rule::OutOfSpace, bot.pos));
    };
    Ok(at)
}

/// Returns the first rule that a bot in a fusion breaks, if its partner's position is in space.
fn judge_fusion(step: &Step, bot: &Bot, command: &Command) -> Option<Broken>
    requires { CanJudge step.now bot.now }
    ensures { (partner : Coordinate) (primary : Bool)
        → IsDeed step.now.planes.now.resolution bot.now command.now (Fuses partner primary)
        → result ≡ later_fault step.now (act bot.now command.now) }
{
    if has_partner(step.bots, step.commands, bot, command) {
        return None;
    }
    Some(breaks(step.number, bot.bid, Rule::Partner, bot.pos))
}

/// Returns the first rule that a bot with a group command breaks, which edits the region between two corners. The members of its
/// group have the group index `number`.
fn judge_group(
    step: &Step,
    numbers: &[u8],
    number: u8,
    bot: &Bot,
    near: Coord,
    far: Coord,
) -> Option<Broken>
    requires step { CanJudge step.now bot.now }
    requires numbers { length numbers.now ≡ length step.now.bots.now }
    ensures { (command : Trace) (full together : Bool) → IsFalse (is_alone command)
        → IsDeed step.now.planes.now.resolution bot.now command (Edits near far full together)
        → TellsMembers (acts_of_step step.now) numbers.now number (act bot.now command)
        → result ≡ later_fault step.now (act bot.now command) }
{
    let region = Region::of(near, far);
    if region.has(bot.pos) {
        return Some(breaks(step.number, bot.bid, Rule::InRegion, bot.pos));
    }
    if is_misshapen(step.bots, step.commands, numbers, number, region.dim()) {
        return Some(breaks(step.number, bot.bid, Rule::GroupShape, bot.pos));
    }
    None
}

/// Returns the first rule after the one on the profile that a bot breaks whose command needs other bots. The members of its group
/// have the index. Out of line: leaves the other commands their registers.
#[inline(never)]
fn judge_together(
    step: &Step,
    numbers: &[u8],
    number: u8,
    bot: &Bot,
    command: &Command,
) -> Option<Broken>
    requires step { CanJudge step.now bot.now }
    requires numbers { length numbers.now ≡ length step.now.bots.now }
    requires members { TellsMembers (acts_of_step step.now) numbers.now number (act bot.now command.now) }
    requires together { IsFalse (is_alone command.now) }
    ensures { result ≡ later_fault step.now (act bot.now command.now) }
{
    let Some(deed) = deed_in(step.planes, bot, command) else {
        return Some(breaks(step.number, bot.bid, Rule::OutOfSpace, bot.pos));
    };
    match deed {
        Deed::Fuses { .. } => judge_fusion(step, bot, command),
        Deed::Edits { near, far, .. } => judge_group(step, numbers, number, bot, near, far),
        // These need no other bot.
        Deed::Waits | Deed::Flips | Deed::Halts => None,
        Deed::Moves { .. } | Deed::Bends { .. } | Deed::Splits { .. } => None,
    }
}

/// Returns the first rule after the one on the profile that a bot breaks. The members of its group have the index.
fn judge_later<L: Ledger>(
    step: &Step,
    numbers: &[u8],
    number: u8,
    bot: &Bot,
    command: &Command,
    steps: &mut Steps<L>,
) -> Option<Broken>
    requires step { CanJudge step.now bot.now }
    requires numbers { length numbers.now ≡ length step.now.bots.now }
    requires members { TellsMembers (acts_of_step step.now) numbers.now number (act bot.now command.now) }
    ensures value { result ≡ later_fault step.now (act bot.now command.now) }
    ensures touches { steps.new ≤ steps.old + touches_of step.now.planes.now (act bot.now command.now) }
{
    match command {
        Command::FusionP(_) | Command::FusionS(_) | Command::GFill(_, _) | Command::GVoid(_, _) => {
            judge_together(step, numbers, number, bot, command)
        }
        _ => judge_hull(step, bot, command, steps).err(),
    }
}

/// Returns the first rule that a bot breaks.
fn judge_bot<L: Ledger>(
    step: &Step,
    numbers: &[u8],
    number: u8,
    bot: &Bot,
    command: &Command,
    steps: &mut Steps<L>,
) -> Option<Broken>
    requires step { CanJudge step.now bot.now }
    requires numbers { length numbers.now ≡ length step.now.bots.now }
    requires members { TellsMembers (acts_of_step step.now) numbers.now number (act bot.now command.now) }
    ensures value { result ≡ judge_bot_of (start_of_step step.now)
        (acts_of_step step.now) step.now.number (act bot.now command.now) }
    ensures touches { steps.new ≤ steps.old + touches_of step.now.planes.now (act bot.now command.now) }
{
    if step.profile.allows(*command) {
        judge_later(step, numbers, number, bot, command, steps)
    } else {
        Some(breaks(step.number, bot.bid, Rule::Forbidden, bot.pos))
    }
}

/// Returns the first rule that one of the bots breaks, by their group indices.
pub(crate) fn judge_bots<L: Ledger>(
    step: &Step,
    numbers: &[u8],
    steps: &mut Steps<L>,
) -> Option<Broken>
    requires step { CanBeJudged step.now }
    requires numbers { AreNumbers (acts_of_step step.now) numbers.now }
    ensures value { result ≡ judge_each (start_of_step step.now)
        (acts_of_step step.now) step.now.number (acts_of_step step.now) }
    ensures touches { steps.new ≤ steps.old + sum_by (touches_of step.now.planes.now) (acts_of_step step.now) }
{
    let bots = step.bots;
    let commands = step.commands;
    for i in 0..bots.len() {
        let broken = judge_bot(step, numbers, numbers[i], &bots[i], &commands[i], steps);
        if broken.is_some() {
            return broken;
        }
    }
    None
}
