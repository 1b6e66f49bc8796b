//! The voxels that the groups of a step change.
ghost use Rattle.std.specs.Prelude.{◌≡◌, ◌+◌, ◌≤◌, ◌&&◌, ◌++◌, filter, length, IsTrue};
ghost use Rattle.std.specs.List.{list_any};
ghost use Rattle.vox_geom.specs.Point.{point};
ghost use Rattle.vox_geom.specs.Region.{is_within, size, span};
ghost use Rattle.vox_geom.specs.Space.{IsInSpace};
ghost use Rattle.nano_spec.specs.Act.{acts, stays_in_space};
ghost use Rattle.nano_spec.specs.Group.{leaders};
ghost use Rattle.nano_spec.specs.Matrix.{all_of};
ghost use Rattle.vox_planes.specs.Voxel.{is_state};
ghost use Rattle.step_machine.specs.Edits.{cells_of, cells_of_all, edit_count, edits_total, is_change};
ghost use Rattle.step_machine.specs.Settling.{CanTakeTurns};
ghost use Rattle.step_groups.specs.Judging.{act};

use nano_spec::{Bot, Command};
use std::sync::ledger::Ledger;
use system_state::{System, Turns, edited_region};
use vox_geom::{Region, Steps};
use vox_planes::{ChangeList, Planes};

/// Appends the full voxels of a region if `full`, its void ones otherwise.
fn list_region<L: Ledger>(
    matrix: &Planes,
    region: Region,
    full: bool,
    list: &mut ChangeList,
    steps: &mut Steps<L>,
)
    requires within { IsInSpace matrix.now.resolution region.high }
    requires room { size (span region) ≤ list.old.spare }
    ensures items { list.new.items
        ≡ list.old.items
        ++ filter (λ c. is_state matrix.now full c && is_within (span region) (point c)) (all_of matrix.now) }
    ensures room { list.old.spare + length list.old.items ≤ list.new.spare + length list.new.items }
    ensures touches { steps.new ≤ steps.old + size (span region) }
{
    if full {
        matrix.list_full(&region, list, steps);
    } else {
        matrix.list_void(&region, list, steps);
    }
}

/// Appends the voxels that the command of a bot voids if `full`, or those that it fills otherwise.
fn list_change<L: Ledger>(
    matrix: &Planes,
    bot: &Bot,
    command: &Command,
    full: bool,
    list: &mut ChangeList,
    steps: &mut Steps<L>,
)
    requires within { IsInSpace matrix.now.resolution bot.now.pos }
    requires stays { IsTrue (stays_in_space matrix.now.resolution (act bot.now command.now)) }
    requires room { edit_count matrix.now full (act bot.now command.now) ≤ list.old.spare }
    ensures items { list.new.items ≡ list.old.items ++ cells_of matrix.now full (act bot.now command.now) }
    ensures room { list.old.spare + length list.old.items ≤ list.new.spare + length list.new.items }
    ensures left { list.old.spare ≤ list.new.spare + edit_count matrix.now full (act bot.now command.now) }
    ensures touches { steps.new ≤ steps.old + edit_count matrix.now full (act bot.now command.now) }
{
    let Some(edited) = edited_region(matrix.resolution(), *bot, command) else {
        return;
    };
    if edited.full == full {
        return;
    }
    list_region(matrix, edited.region, full, list, steps);
}

/// Returns whether the command voids something if `full`, or fills something otherwise.
fn is_change(command: &Command, full: bool) -> bool
    ensures { result ≡ is_change full command.now }
{
    match command {
        Command::Void(_) | Command::GVoid(_, _) => full,
        Command::Fill(_) | Command::GFill(_, _) => !full,
        _ => false,
    }
}

/// Returns whether any command voids something if `full`, or fills something otherwise.
fn some_change(commands: &[Command], full: bool) -> bool
    ensures { result ≡ list_any (is_change full) commands.now }
{
    commands.iter().any(|command| is_change(command, full))
}

/// Appends the voxels that the groups of a step void if `full`, or those that they fill otherwise.
pub(crate) fn list_changes<L: Ledger>(
    system: &System,
    commands: &[Command],
    turns: &Turns,
    full: bool,
    list: &mut ChangeList,
    steps: &mut Steps<L>,
)
    requires can { CanTakeTurns system.now commands.now turns.now }
    requires room { edits_total system.now.matrix full (leaders (acts system.now.bots commands.now)) ≤ list.old.spare }
    ensures items { list.new.items
        ≡ list.old.items ++ cells_of_all system.now.matrix full (leaders (acts system.now.bots commands.now)) }
    ensures room { list.old.spare + length list.old.items ≤ list.new.spare + length list.new.items }
    ensures left { list.old.spare
        ≤ list.new.spare + edits_total system.now.matrix full (leaders (acts system.now.bots commands.now)) }
    ensures touches { steps.new
        ≤ steps.old + edits_total system.now.matrix full (leaders (acts system.now.bots commands.now)) }
{
    if !some_change(commands, full) {
        return;
    }
    let matrix = system.matrix();
    let bots = system.crew().bots();
    for turn in turns.list() {
        let place = usize::from(turn.place);
        list_change(matrix, &bots[place], &commands[place], full, list, steps);
    }
}
