//! Steps of the crew.
ghost use Rattle.std.specs.List.{AllByRecursion};
ghost use Rattle.std.specs.Prelude.{◌≡◌, ◌-◌, ◌+◌, ◌≤◌, ◌<◌, ◌≢◌, OnOk, length, replicate, take};
ghost use Rattle.bot_crew.specs.declared.crew.TheConstants.{MOST_BOTS};
ghost use Rattle.plan_tape.specs.Leg.{component_of, gap};
ghost use Rattle.plan_tape.specs.Progress.{spot, IsVoidFrom};
ghost use Rattle.vox_geom.specs.Space.{IsInSpace};
ghost use Rattle.swarm_planner.specs.Building.{Fills, fills as fills_of, is_wanted as is_wanted_of};
ghost use Rattle.swarm_planner.specs.Crew.{AreAlong, AreNear, CrewGoes, InRow, IsNearOn, IsSwarm, MayLead, RowGoes, lead as lead_of, places, row_led};
ghost use Rattle.swarm_planner.specs.Lineup.{InLine, Regroups, free_column, without_last, last_column as last_column_of, lined_up, sent, split};

use crate::strips::strip_width;
use bot_crew::MOST_BOTS;
use nano_spec::{Bot, Command};
use plan_tape::{Axis, Tape, ahead, behind, component, towards};
use vox_geom::{Coord, Memory, Near};
use vox_planes::Planes;
use voxel_reads::is_full;

/// Returns as many Waits as the largest crew has bots, so that the commands of a step need no allocation.
fn waits() -> [Command; MOST_BOTS]
    ensures { result ≡ replicate MOST_BOTS Command.Wait }
{
    [Command::Wait; MOST_BOTS]
}

/// Returns the command that moves a bot along an axis from one position to another.
fn lead(axis: Axis, from: Coord, to: Coord) -> Command
    requires { IsNearOn axis from to }
    ensures { result ≡ lead_of axis from to }
{
    let at = component(axis, from);
    let next = component(axis, to);
    if at == next {
        Command::Wait
    } else {
        Command::SMove(towards(axis, at, next))
    }
}

/// Returns the commands that move bots along an axis to a row of positions: the first bot to `to`, each other one `width` further
/// along x, and none past the last column. The rest are Waits.
fn leads(bots: &[Bot], axis: Axis, to: Coord, width: u16, last: u16) -> [Command; MOST_BOTS]
    requires near { AreNear axis width last bots.now to }
    requires few { length bots.now ≤ MOST_BOTS }
    requires first { to.x ≤ 400 }
    requires narrow { width ≤ 20 }
    ensures { take (length bots.now) result ≡ row_led axis width last bots.now to }
{
    let mut commands = waits();
    let mut x = to.x;
    for i in 0..bots.len() {
        let place = Coord {
            x: x.min(last),
            ..to
        };
        commands[i] = lead(axis, bots[i].pos, place);
        x += width;
    }
    commands
}

/// Moves all bots of the row along an axis.
pub fn move_row(tape: &mut Tape, axis: Axis, to: Coord) -> Result<(), Memory>
    requires swarm { IsSwarm tape.old }
    requires row { InRow tape.old }
    requires void { IsVoidFrom tape.old.matrix (spot tape.old.bots).y }
    requires leads { MayLead tape.old.matrix.resolution to }
    requires line { AreAlong axis (spot tape.old.bots) to }
    requires near { gap (component_of axis (spot tape.old.bots)) (component_of axis to) ≤ 15 }
    requires up { (spot tape.old.bots).y ≤ to.y }
    requires limit { tape.old.steps < 1073741824 }
    ensures { OnOk result (RowGoes tape.old tape.new to 1) }
{
    let r = tape.matrix().resolution();
    let bots = tape.crew().bots();
    let count = bots.len();
    let commands = leads(bots, axis, to, strip_width(r), r - 2);
    tape.move_all(&commands[..count])
}

/// Returns the column of the last bot.
pub fn last_column(tape: &Tape) -> u16
    requires { InLine tape.now }
    ensures value { result ≡ last_column_of (places tape.now.bots) }
    ensures within { result < tape.now.matrix.resolution }
{
    let bots = tape.crew().bots();
    bots[bots.len() - 1].pos.x
}

/// Moves the last bot along x, past the others, which wait.
pub fn move_last(tape: &mut Tape, to: u16) -> Result<(), Memory>
    requires line { InLine tape.old }
    requires free { free_column 1 (places tape.old.bots) ≤ to }
    requires within { to < tape.old.matrix.resolution }
    requires differ { last_column_of (places tape.old.bots) ≢ to }
    requires near { gap (last_column_of (places tape.old.bots)) to ≤ 15 }
    requires limit { tape.old.steps < 1073741824 }
    ensures { OnOk result (CrewGoes tape.old tape.new (sent (places tape.old.bots) to) 1) }
{
    let at = last_column(tape);
    let last = tape.crew().bots().len() - 1;
    let mut commands = waits();
    commands[last] = Command::SMove(towards(Axis::X, at, to));
    tape.move_all(&commands[..last + 1])
}

/// Returns whether the voxel below a position is full in the target but not yet in the matrix.
pub fn is_wanted(planes: &Planes, target: &Planes, place: Coord) -> bool
    requires same { target.now.resolution ≡ planes.now.resolution }
    requires within { IsInSpace planes.now.resolution place }
    requires up { 1 ≤ place.y }
    ensures { result ≡ is_wanted_of planes.now target.now place }
{
    let below = Coord {
        y: place.y - 1,
        ..place
    };
    is_full(target, below) && !is_full(planes, below)
}

/// Returns the commands by which each bot fills the voxel below it, if it is missing, and waits otherwise. The rest are Waits.
fn fills(bots: &[Bot], planes: &Planes, target: &Planes) -> [Command; MOST_BOTS]
    requires few { length bots.now ≤ MOST_BOTS }
    requires same { target.now.resolution ≡ planes.now.resolution }
    requires within { AllByRecursion (λ b. IsInSpace planes.now.resolution b.pos × (1 ≤ b.pos.y)) bots.now }
    ensures { take (length bots.now) result ≡ fills_of planes.now target.now bots.now }
{
    let mut commands = waits();
    for i in 0..bots.len() {
        let command = if is_wanted(planes, target, bots[i].pos) {
            Command::Fill(Near::down())
        } else {
            Command::Wait
        };
        commands[i] = command;
    }
    commands
}

/// Has each bot fill the voxel below it, if it is missing.
pub fn fill_below(tape: &mut Tape, target: &Planes) -> Result<(), Memory>
    requires swarm { IsSwarm tape.old }
    requires row { InRow tape.old }
    requires same { target.now.resolution ≡ tape.old.matrix.resolution }
    requires up { 1 ≤ (spot tape.old.bots).y }
    requires limit { tape.old.steps < 1073741824 }
    ensures { OnOk result (Fills tape.old tape.new target.now) }
{
    let bots = tape.crew().bots();
    let count = bots.len();
    let commands = fills(bots, tape.matrix(), target);
    tape.fill_all(&commands[..count])
}

/// Splits the last bot: the new bot is in the next column, and gets all remaining seeds.
pub fn split_last(tape: &mut Tape, seeds: u8) -> Result<(), Memory>
    requires line { InLine tape.old }
    requires bots { tape.old.bots ≡ lined_up 1 (places tape.old.bots) }
    requires seeds { seeds + 1 + length tape.old.bots ≡ 20 }
    requires within { last_column_of (places tape.old.bots) + 1 < tape.old.matrix.resolution }
    requires limit { tape.old.steps < 1073741824 }
    ensures regroups { OnOk result (Regroups tape.old tape.new) }
    ensures bots { OnOk result (tape.new.bots ≡ lined_up 1 (split (places tape.old.bots))) }
{
    let last = tape.crew().bots().len() - 1;
    let mut commands = waits();
    commands[last] = Command::Fission(ahead(Axis::X), seeds);
    tape.split_all(&commands[..last + 1])
}

/// Fuses the last bot into the one before it.
pub fn fuse_last(tape: &mut Tape) -> Result<(), Memory>
    requires line { InLine tape.old }
    requires two { 2 ≤ length tape.old.bots }
    requires beside { last_column_of (places tape.old.bots) ≡ free_column 1 (places tape.old.bots) }
    requires limit { tape.old.steps < 1073741824 }
    ensures regroups { OnOk result (Regroups tape.old tape.new) }
    ensures places { OnOk result (places tape.new.bots ≡ without_last (places tape.old.bots)) }
{
    let last = tape.crew().bots().len() - 1;
    let mut commands = waits();
    commands[last - 1] = Command::FusionP(ahead(Axis::X));
    commands[last] = Command::FusionS(behind(Axis::X));
    tape.fuse_all(&commands[..last + 1])
}
