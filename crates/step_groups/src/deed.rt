//! A bot's action in a step, in coordinates.
ghost use Rattle.std.specs.Prelude.{IfNone, IfSome, IsFalse};
ghost use Rattle.vox_geom.specs.Space.{IsInSpace};
ghost use Rattle.nano_spec.specs.Act.{stays_in_space};
ghost use Rattle.step_groups.specs.Deeds.{IsDeed};
ghost use Rattle.step_groups.specs.Judging.{act, edit_of, group_edit_of};

use nano_spec::{Bot, Command};
use vox_geom::{Coord, Far, Near};
use vox_planes::Planes;

/// A bot's action in a step, by the coordinates that its command names.
#[derive(Clone, Copy, PartialEq, Eq, Debug)]
pub enum Deed {
    /// Nothing.
    Waits,
    /// Flips the harmonics.
    Flips,
    /// Ends the run.
    Halts,
    /// Moves straight to `to`.
    Moves {
        to: Coord,
    },
    /// Moves straight to `middle`, and from there straight to `to`: a two-leg move.
    Bends {
        middle: Coord,
        to: Coord,
    },
    /// Fission: makes a bot at `to` with this number of the seeds.
    Splits {
        to: Coord,
        seeds: u8,
    },
    /// Fusion with the bot at `partner`; the primary remains.
    Fuses {
        partner: Coord,
        primary: bool,
    },
    /// Fills the region between the corners (or voids it), with other bots or alone.
    Edits {
        near: Coord,
        far: Coord,
        full: bool,
        together: bool,
    },
}

/// Returns the action that fills (or voids) the voxel at a difference, or `None` exactly if that is out of space.
fn edit_voxel(r: u16, bot: Bot, d: Near, full: bool) -> Option<Deed>
    requires { IsInSpace r bot.pos }
    ensures some { IfSome result (IsDeed r bot (edit_of full d)) }
    ensures none { IfNone result (IsFalse (stays_in_space r (act bot (edit_of full d)))) }
{
    let at = bot.pos.plus(d.diff(), r)?;
    Some(Deed::Edits {
        near: at,
        far: at,
        full,
        together: false,
    })
}

/// Returns the action that fills (or voids) a region with other bots, or `None` exactly if a corner is out of space.
fn edit_region(r: u16, bot: Bot, d: Near, f: Far, full: bool) -> Option<Deed>
    requires { IsInSpace r bot.pos }
    ensures some { IfSome result (IsDeed r bot (group_edit_of full d f)) }
    ensures none { IfNone result (IsFalse (stays_in_space r (act bot (group_edit_of full d f)))) }
{
    let near = bot.pos.plus(d.diff(), r)?;
    let far = near.plus(f.diff(), r)?;
    Some(Deed::Edits {
        near,
        far,
        full,
        together: true,
    })
}

/// Returns the action of a bot by its command, or `None` exactly if a coordinate that it names is out of space.
#[inline(always)]
pub fn deed_of(r: u16, bot: Bot, command: &Command) -> Option<Deed>
    requires { IsInSpace r bot.pos }
    ensures some { IfSome result (IsDeed r bot command.now) }
    ensures none { IfNone result (IsFalse (stays_in_space r (act bot command.now))) }
{
    match command {
        Command::Halt => Some(Deed::Halts),
        Command::Wait => Some(Deed::Waits),
        Command::Flip => Some(Deed::Flips),
        Command::SMove(d) => {
            let to = bot.pos.plus(d.diff(), r)?;
            Some(Deed::Moves { to })
        }
        Command::LMove(d, e) => {
            let middle = bot.pos.plus(d.diff(), r)?;
            let to = middle.plus(e.diff(), r)?;
            Some(Deed::Bends { middle, to })
        }
        Command::Fission(d, m) => {
            let to = bot.pos.plus(d.diff(), r)?;
            Some(Deed::Splits { to, seeds: *m })
        }
        Command::FusionP(d) | Command::FusionS(d) => {
            let partner = bot.pos.plus(d.diff(), r)?;
            let primary = matches!(command, Command::FusionP(_));
            Some(Deed::Fuses { partner, primary })
        }
        Command::Fill(d) => edit_voxel(r, bot, *d, true),
        Command::Void(d) => edit_voxel(r, bot, *d, false),
        Command::GFill(d, f) => edit_region(r, bot, *d, *f, true),
        Command::GVoid(d, f) => edit_region(r, bot, *d, *f, false),
    }
}

/// [`deed_of`] for a bot in the matrix.
#[inline(always)]
pub(crate) fn deed_in(planes: &Planes, bot: &Bot, command: &Command) -> Option<Deed>
    requires { IsInSpace planes.now.resolution bot.now.pos }
    ensures some { IfSome result (IsDeed planes.now.resolution bot.now command.now) }
    ensures none { IfNone result (IsFalse (stays_in_space planes.now.resolution (act bot.now command.now))) }
{
    deed_of(planes.resolution(), *bot, command)
}
