//! Steps of the only bot that fill or void one voxel: the voxel is read before and after, so no note is needed.
ghost use Rattle.std.specs.Prelude.{◌≡◌, IfSome};
ghost use Rattle.kept_machine.specs.OneVoxel.{IsOnlyVoxel, one_if_apart};

use crate::reading::is_in_space;
use nano_spec::Command;
use step_machine::Machine;
use vox_geom::Coord;

/// Returns the voxel that the only bot fills or voids, if its command does that.
pub(crate) fn only_voxel(machine: &Machine, commands: &[Command]) -> Option<Coord>
    ensures { IfSome result (λ c. IsOnlyVoxel machine.now.state commands.now c) }
{
    let [command] = commands else {
        return None;
    };
    let [bot] = machine.crew().bots() else {
        return None;
    };
    let r = machine.matrix().resolution();
    if !is_in_space(bot.pos, r) {
        return None;
    }
    match command {
        Command::Fill(d) => bot.pos.plus(d.diff(), r),
        Command::Void(d) => bot.pos.plus(d.diff(), r),
        _ => None,
    }
}

/// Returns 1 if the voxel changed, 0 otherwise.
pub(crate) fn changed_voxels(before: bool, after: bool) -> u32
    ensures { result ≡ one_if_apart before after }
{
    match (before, after) {
        (true, false) | (false, true) => 1,
        _ => 0,
    }
}
