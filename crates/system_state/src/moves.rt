//! The effect of a group on the bots.
ghost use Rattle.std.specs.Prelude.{◌≡◌, ◌<◌, ◌+ℤ◌, pos, IsTrue};
ghost use Rattle.vox_geom.specs.Point.{point, plus};
ghost use Rattle.vox_geom.specs.Space.{IsInSpace, coordinate, in_range, in_space};
ghost use Rattle.system_state.specs.Effects.{MayTake, bots_after_turn};

use bot_crew::Crew;
use nano_spec::{Bot, Command};
use step_groups::{Deed, deed_of};
use vox_geom::{Coord, Diff};

/// Returns the sum of a component and a difference, if it is from 0 to r - 1.
fn shift(r: u16, v: u16, by: i16) -> u16
    requires { IsTrue (in_range r (pos v +ℤ by)) }
    ensures sum { pos result ≡ (pos v +ℤ by) }
    ensures below { result < r }
{
    (i32::from(v) + i32::from(by)) as u16
}

/// Returns the coordinate that a difference leads to within a matrix of resolution r.
pub(crate) fn target(r: u16, from: Coord, d: Diff) -> Coord
    requires from { IsInSpace r from }
    requires within { IsTrue (in_space r (plus (point from) d)) }
    ensures value { result ≡ coordinate (plus (point from) d) }
    ensures sum { point result ≡ plus (point from) d }
    ensures stays { IsInSpace r result }
{
    Coord {
        x: shift(r, from.x, d.dx),
        y: shift(r, from.y, d.dy),
        z: shift(r, from.z, d.dz),
    }
}

/// Updates the bots by the turn of the bot's group.
pub(crate) fn move_bots(crew: &mut Crew, r: u16, bot: Bot, partner: u8, command: &Command)
    requires { MayTake r crew.old bot partner command.now }
    ensures { crew.new ≡ bots_after_turn crew.old bot partner command.now }
{
    let Some(deed) = deed_of(r, bot, command) else {
        return;
    };
    match deed {
        Deed::Halts => crew.halt(),
        Deed::Moves { to } | Deed::Bends { to, .. } => crew.move_to(bot.bid, to),
        Deed::Splits { to, seeds } => crew.fission(bot.bid, to, seeds),
        Deed::Fuses { primary: true, .. } => crew.fusion(bot.bid, partner),
        Deed::Fuses { primary: false, .. } => crew.fusion(partner, bot.bid),
        Deed::Waits | Deed::Flips | Deed::Edits { .. } => {}
    }
}
