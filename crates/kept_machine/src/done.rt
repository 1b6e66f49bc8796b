//! The outcome of an accepted step.
ghost use Rattle.std.specs.Prelude.{◌≡◌, length};
ghost use Rattle.std.specs.List.{list_any};
ghost use Rattle.kept_machine.specs.Calls.{difference_count};
ghost use Rattle.step_machine.specs.Edits.{is_edit};
ghost use Rattle.step_machine.specs.Undoing.{HaveChanged, matrix_before};

use nano_spec::{Command, Harmonics};
use step_machine::{Machine, Undo};
use vox_planes::Planes;

/// The outcome of an accepted step: the energy so far, the harmonics after it, the number of active bots, and the number of voxels
/// that became full or void.
#[derive(Clone, Copy, PartialEq, Eq, Debug)]
pub struct StepDone {
    pub energy: i64,
    pub harmonics: Harmonics,
    pub active: u8,
    pub changed: u32,
}

/// Returns the outcome of a step that changed `changed` voxels and left this machine.
pub(crate) fn done(machine: &Machine, changed: u32) -> StepDone
    ensures energy { result.energy ≡ machine.now.state.energy }
    ensures harmonics { result.harmonics ≡ machine.now.state.harmonics }
    ensures active { result.active ≡ length machine.now.state.bots }
    ensures changed { result.changed ≡ changed }
{
    StepDone {
        energy: machine.energy(),
        harmonics: machine.harmonics(),
        active: machine.active(),
        changed,
    }
}

/// Returns whether a command fills or voids.
fn edits(command: &Command) -> bool
    ensures { result ≡ is_edit command.now }
{
    match command {
        Command::Fill(_) | Command::Void(_) | Command::GFill(_, _) | Command::GVoid(_, _) => true,
        _ => false,
    }
}

/// Returns whether some command fills or voids. A step without such a command changes no voxel.
pub(crate) fn some_edit(commands: &[Command]) -> bool
    ensures { result ≡ list_any is_edit commands.now }
{
    commands.iter().any(|command| edits(command))
}

/// Counts the voxels that the step of a note changed. The matrix is the one after it.
pub(crate) fn count_changed(matrix: &Planes, undo: &Undo) -> u32
    requires { HaveChanged matrix.now undo.now }
    ensures { result
        ≡ difference_count (matrix_before matrix.now undo.now.filled.items undo.now.voided.items) matrix.now }
{
    matrix.recall();
    let changed = undo.filled.as_slice().len() + undo.voided.as_slice().len();
    changed as u32
}
