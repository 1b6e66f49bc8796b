//! A step with one group that voids a region: nothing else changes, and no voxel is listed.
ghost use Rattle.std.specs.Prelude.{◌≤◌, IsTrue, IfOk, IfErr, IfSome, count_by};
ghost use Rattle.vox_geom.specs.Space.{IsInSpace};
ghost use Rattle.nano_spec.specs.Act.{stays_in_space};
ghost use Rattle.step_groups.specs.Judging.{act};
ghost use Rattle.step_machine.specs.Edits.{is_edit};
ghost use Rattle.step_machine.specs.Settling.{CanRefit, CanTakeTurns, IsOnlyRegion, IsRefitted, IsVoidedRegion};

use nano_spec::{Bot, Command};
use std::sync::ledger::Ledger;
use support_forest::Forest;
use system_state::{System, Turns, edited_region};
use vox_geom::{Memory, Region, Steps};
use vox_planes::Planes;

/// Returns the region that the command of a bot voids, if it voids one.
fn voided_region(matrix: &Planes, bot: &Bot, command: &Command) -> Option<Region>
    requires within { IsInSpace matrix.now.resolution bot.now.pos }
    requires stays { IsTrue (stays_in_space matrix.now.resolution (act bot.now command.now)) }
    ensures { IfSome result (IsVoidedRegion matrix.now (act bot.now command.now)) }
{
    let Some(edited) = edited_region(matrix.resolution(), *bot, command) else {
        return None;
    };
    if edited.full {
        return None;
    }
    Some(edited.region)
}

/// Returns the region that the only group of a step voids, if there is one group and it voids one.
pub(crate) fn only_region(system: &System, commands: &[Command], turns: &Turns) -> Option<Region>
    requires { CanTakeTurns system.now commands.now turns.now }
    ensures { IfSome result (IsOnlyRegion system.now commands.now) }
{
    let matrix = system.matrix();
    let bots = system.crew().bots();
    let list = turns.list();
    if list.len() != 1 {
        return None;
    }
    let place = usize::from(list[0].place);
    voided_region(matrix, &bots[place], &commands[place])
}

/// Updates the forest after the only group of a step voided a region. Allocation may fail.
pub(crate) fn refit_region<L: Ledger>(
    system: &System,
    commands: &[Command],
    b: &Region,
    forest: &mut Forest,
    steps: &mut Steps<L>,
) -> Result<(), Memory>
    requires can { CanRefit system.now commands.now forest.old }
    requires region { IsOnlyRegion system.now commands.now b.now }
    ensures refitted { IfOk result (λ _. IsRefitted system.now commands.now forest.new steps.old steps.new) }
    ensures edits { IfErr result (λ _. 1 ≤ count_by is_edit commands.now) }
{
    system.recall();
    match forest.remove_region(b, steps) {
        Ok(()) => Ok(()),
        Err(_) => Err(Memory),
    }
}
