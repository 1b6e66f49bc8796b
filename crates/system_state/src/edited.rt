//! The voxels that a command changes.
ghost use Rattle.std.specs.Prelude.{MatchOption, IsTrue};
ghost use Rattle.vox_geom.specs.Space.{IsInSpace};
ghost use Rattle.nano_spec.specs.Act.{stays_in_space};
ghost use Rattle.system_state.specs.Edited.{IsIdle, IsEditedRegion};
ghost use Rattle.step_groups.specs.Judging.{act};

use crate::known::recall;
use nano_spec::{Bot, Command};
use step_groups::{Deed, deed_of};
use vox_geom::Region;

/// The region that a command fills or voids.
#[derive(Clone, Copy, PartialEq, Eq, Debug)]
pub struct EditedRegion {
    pub region: Region,
    pub full: bool,
}

/// Returns the region that the command of the bot fills or voids, if it does. Condition: its coordinates are in space.
#[inline(always)]
pub fn edited_region(r: u16, bot: Bot, command: &Command) -> Option<EditedRegion>
    requires within { IsInSpace r bot.pos }
    requires stays { IsTrue (stays_in_space r (act bot command.now)) }
    ensures { MatchOption result (IsIdle bot command.now) (IsEditedRegion r bot command.now) }
{
    recall(command);
    let Some(deed) = deed_of(r, bot, command) else {
        return None;
    };
    let Deed::Edits {
        near,
        far,
        full,
        ..
    } = deed
    else {
        return None;
    };
    let region = Region::of(near, far);
    Some(EditedRegion { region, full })
}
