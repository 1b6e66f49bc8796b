//! A machine's target, and the number of its differences. Each step and each undo updates the count by the voxels that it changes.
ghost use Rattle.std.specs.Prelude.{◌≡◌, ◌+◌, ◌≤◌, All, length, count_by, not, IfOk, Some};
ghost use Rattle.vox_geom.specs.Space.{IsInSpace};
ghost use Rattle.nano_spec.specs.Matrix.{is_full};
ghost use Rattle.step_machine.specs.Undoing.{HaveChanged, matrix_before};
ghost use Rattle.kept_machine.specs.Aiming.{IsTargetCounted, became_right, became_wrong, target_of};

use std::alloc::Global;
use std::sync::ledger::Ledger;
use step_machine::Undo;
use vox_geom::{Coord, Memory, Steps};
use vox_planes::Planes;

/// A target, and the number of coordinates at which the matrix differs from it.
#[derive(Drop)]
pub struct KeptTarget {
    pub target: Planes,
    pub differences: u32,
}

/// The number of changed voxels of a step that are now as in the target, and of those that are not.
#[derive(Clone, Copy)]
pub struct ComparedVoxels {
    pub right: u32,
    pub wrong: u32,
}

/// Counts the voxels that are full in a target.
fn count_full_in<L: Ledger>(target: &Planes, voxels: &[Coord], steps: &mut Steps<L>) -> u32
    requires within { All (λ c. IsInSpace target.now.resolution c) voxels.now }
    requires few { length voxels.now ≤ 64000000 }
    ensures { result ≡ count_by (is_full target.now) voxels.now }
{
    let mut full = 0;
    for c in voxels {
        if target.full_at(*c, steps) {
            full += 1;
        }
    }
    full
}

/// Compares the voxels that the step of a note changed with a target.
fn compare_changes<L: Ledger>(
    target: &Planes,
    matrix: &Planes,
    undo: &Undo,
    steps: &mut Steps<L>,
) -> ComparedVoxels
    requires same { matrix.now.resolution ≡ target.now.resolution }
    requires changed { HaveChanged matrix.now undo.now }
    ensures right { result.right ≡ became_right target.now undo.now }
    ensures wrong { result.wrong ≡ became_wrong target.now undo.now }
    ensures few { result.right + result.wrong ≤ 64000000 }
{
    matrix.recall();
    let filled = undo.filled.as_slice();
    let voided = undo.voided.as_slice();
    let filled_full = count_full_in(target, filled, steps);
    let voided_full = count_full_in(target, voided, steps);
    ComparedVoxels {
        right: filled_full + (voided.len() as u32 - voided_full),
        wrong: (filled.len() as u32 - filled_full) + voided_full,
    }
}

/// Updates the count of differences for the step of a note.
pub(crate) fn count_step<L: Ledger>(
    aim: &mut Option<KeptTarget>,
    matrix: &Planes,
    undo: &Undo,
    steps: &mut Steps<L>,
)
    requires changed { HaveChanged matrix.now undo.now }
    requires before { IsTargetCounted (matrix_before matrix.now undo.now.filled.items undo.now.voided.items) aim.old }
    ensures after { IsTargetCounted matrix.now aim.new }
    ensures target { target_of aim.new ≡ target_of aim.old }
{
    matrix.recall();
    if let Some(aim) = aim {
        let changes = compare_changes(&aim.target, matrix, undo, steps);
        aim.differences = aim.differences + changes.wrong - changes.right;
    }
}

/// Updates the count of differences for undoing the step of a note.
pub(crate) fn count_undo<L: Ledger>(
    aim: &mut Option<KeptTarget>,
    matrix: &Planes,
    undo: &Undo,
    steps: &mut Steps<L>,
)
    requires changed { HaveChanged matrix.now undo.now }
    requires after { IsTargetCounted matrix.now aim.old }
    ensures before { IsTargetCounted (matrix_before matrix.now undo.now.filled.items undo.now.voided.items) aim.new }
    ensures target { target_of aim.new ≡ target_of aim.old }
{
    matrix.recall();
    if let Some(aim) = aim {
        let changes = compare_changes(&aim.target, matrix, undo, steps);
        aim.differences = aim.differences + changes.right - changes.wrong;
    }
}

/// Copies the target and its count.
pub(crate) fn copy_aim(
    aim: &Option<KeptTarget>,
    alloc: Global,
) -> Result<Option<KeptTarget>, Memory>
    ensures { IfOk result (λ copy. copy ≡ aim.now) }
{
    match aim {
        None => Ok(None),
        Some(aim) => Ok(Some(KeptTarget {
            target: aim.target.copy(alloc)?,
            differences: aim.differences,
        })),
    }
}
