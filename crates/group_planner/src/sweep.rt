//! Fills or voids runs, rows and layers of a model, with both bots one layer above.
ghost use Rattle.std.specs.Prelude.{◌≡◌, ◌+◌, ◌*◌, ◌-◌, ◌<◌, ◌≤◌, false, true, OnOk};
ghost use Rattle.plan_tape.specs.Parts.{from_layer, layer, is_in_line};
ghost use Rattle.plan_tape.specs.Leg.{gap};
ghost use Rattle.group_planner.specs.Pair.{IsPair, front as front_of, in_part, rear as rear_of};
ghost use Rattle.group_planner.specs.Rows.{runs as runs_of, runs_of_layer, runs_of_row};
ghost use Rattle.group_planner.specs.Runs.{IsCut, IsRun, runs_from};
ghost use Rattle.group_planner.specs.Stamping.{CanVoidModel, CanStamp, Stamps, WritesRun, between_layers, climb_to, stamping_steps, most_work, row_steps, steps_below, work_at, work_to};
ghost use Rattle.plan_tape.specs.Progress.{IsVoidFrom};

use crate::pair::{front, go_to_row, rear};
use crate::run::{RowRun, last_run, next_run};
use crate::write::{write_voxel, write_voxels};
use plan_tape::Tape;
use vox_geom::Memory;
use vox_planes::Planes;

/// Fills the voxels of a run in the row below the bots, or voids them if `full` is false.
fn write_run(tape: &mut Tape, run: RowRun, full: bool) -> Result<(), Memory>
    requires pair { IsPair tape.old }
    requires above { 1 ≤ (rear_of tape.old).y }
    requires some { run.first < run.end }
    requires most { run.end ≤ run.first + 31 }
    requires within { run.end ≤ tape.old.matrix.resolution }
    requires limit { work_at tape.old run.first (run.end - 1) + 45 ≤ most_work }
    ensures { OnOk result (WritesRun tape.old tape.new run.first run.end full) }
{
    if run.first + 1 == run.end {
        write_voxel(tape, run.first, full)
    } else {
        write_voxels(tape, run.first, run.end - 1, full)
    }
}

/// Fills or voids the runs of the row below the bots, in ascending order.
fn write_runs(tape: &mut Tape, model: &Planes, full: bool, x: u16, y: u16) -> Result<(), Memory>
    requires ready { CanStamp tape.old model.now y }
    requires x { (rear_of tape.old).x ≡ x }
    requires y { (rear_of tape.old).y ≡ y + 1 }
    requires limit { work_to tape.old 0 + 45 * runs_of_row model.now x y + 2 * tape.old.matrix.resolution ≤ most_work }
    ensures stamps { OnOk result
        (Stamps tape.old tape.new model.now full (is_in_line x y) (runs_of_row model.now x y)) }
    ensures height { OnOk result ((rear_of tape.new).y ≡ y + 1) }
    ensures steps { OnOk result
        (15 * tape.new.steps ≤ work_to tape.old 0 + 45 * runs_of_row model.now x y + 2 * tape.old.matrix.resolution) }
{
    let mut z = 0;
    while let Some(run) = next_run(model, x, y, z) {
        write_run(tape, run, full)?;
        z = run.end;
    }
    Ok(())
}

/// Fills or voids the runs of the row below the bots that begin at `z` or later, in descending order.
fn write_runs_back(
    tape: &mut Tape,
    model: &Planes,
    full: bool,
    x: u16,
    y: u16,
    z: u16,
) -> Result<(), Memory>
    requires ready { CanStamp tape.old model.now y }
    requires x { (rear_of tape.old).x ≡ x }
    requires y { (rear_of tape.old).y ≡ y + 1 }
    requires within { z ≤ model.now.resolution }
    requires cut { IsCut model.now x y z }
    requires limit { work_to tape.old model.now.resolution + 45 * runs_from model.now x y z
        + 2 * (model.now.resolution - z)
        ≤ most_work }
    ensures stamps { OnOk result
        (Stamps tape.old tape.new model.now full (in_part x y z model.now.resolution) (runs_from model.now x y z)) }
    ensures line { OnOk result ((rear_of tape.new).x ≡ x) }
    ensures height { OnOk result ((rear_of tape.new).y ≡ y + 1) }
    ensures work { OnOk result
        (work_to tape.new z
        ≤ work_to tape.old model.now.resolution + 45 * runs_from model.now x y z + 2 * (model.now.resolution - z)) }
{
    match next_run(model, x, y, z) {
        None => Ok(()),
        Some(run) => {
            write_runs_back(tape, model, full, x, y, run.end)?;
            write_run(tape, run, full)
        }
    }
}

/// Returns the sum of the distances along z of the bots from their ends of a run.
fn way_to(tape: &Tape, run: RowRun) -> u16
    requires pair { IsPair tape.now }
    requires some { run.first < run.end }
    requires within { run.end ≤ tape.now.matrix.resolution }
    ensures { result ≡ gap (rear_of tape.now).z run.first + gap (front_of tape.now).z (run.end - 1) }
{
    rear(tape).z.abs_diff(run.first) + front(tape).z.abs_diff(run.end - 1)
}

/// Returns whether the bots are nearer to the last run of the row at x and y than to the first.
fn is_nearer_to_last(tape: &Tape, model: &Planes, x: u16, y: u16, first: RowRun) -> bool
    requires pair { IsPair tape.now }
    requires same { model.now.resolution ≡ tape.now.matrix.resolution }
    requires x { x < model.now.resolution }
    requires y { y < model.now.resolution }
    requires first { IsRun model.now x y first }
{
    way_to(tape, last_run(model, x, y, first)) < way_to(tape, first)
}

/// Fills or voids the runs of the row below the bots, starting at the nearer end.
fn write_line(
    tape: &mut Tape,
    model: &Planes,
    full: bool,
    x: u16,
    y: u16,
    first: RowRun,
) -> Result<(), Memory>
    requires ready { CanStamp tape.old model.now y }
    requires x { (rear_of tape.old).x ≡ x }
    requires y { (rear_of tape.old).y ≡ y + 1 }
    requires first { IsRun model.now x y first }
    requires limit { 15 * tape.old.steps + 45 * runs_of_row model.now x y + 4 * tape.old.matrix.resolution ≤ most_work }
    ensures stamps { OnOk result
        (Stamps tape.old tape.new model.now full (is_in_line x y) (runs_of_row model.now x y)) }
    ensures height { OnOk result ((rear_of tape.new).y ≡ y + 1) }
    ensures steps { OnOk result
        (15 * tape.new.steps ≤ 15 * tape.old.steps + 45 * runs_of_row model.now x y + 4 * tape.old.matrix.resolution) }
{
    if is_nearer_to_last(tape, model, x, y, first) {
        write_runs_back(tape, model, full, x, y, 0)
    } else {
        write_runs(tape, model, full, x, y)
    }
}

/// Moves the bots above the row at x and y, and fills or voids its runs.
fn go_and_write(
    tape: &mut Tape,
    model: &Planes,
    full: bool,
    x: u16,
    y: u16,
    first: RowRun,
) -> Result<(), Memory>
    requires ready { CanStamp tape.old model.now y }
    requires x { x < tape.old.matrix.resolution }
    requires first { IsRun model.now x y first }
    requires limit { climb_to tape.old (y + 1) + (135 + 3 * runs_of_row model.now x y) ≤ 1073741824 }
    ensures stamps { OnOk result
        (Stamps tape.old tape.new model.now full (is_in_line x y) (runs_of_row model.now x y)) }
    ensures climb { OnOk result
        (climb_to tape.new (y + 1) ≤ climb_to tape.old (y + 1) + (135 + 3 * runs_of_row model.now x y)) }
{
    tape.recall_whole();
    go_to_row(tape, x, y + 1)?;
    write_line(tape, model, full, x, y, first)
}

/// Fills or voids the runs of the row at x and y. If there are none, the bots stay.
fn write_row(tape: &mut Tape, model: &Planes, full: bool, x: u16, y: u16) -> Result<(), Memory>
    requires ready { CanStamp tape.old model.now y }
    requires x { x < tape.old.matrix.resolution }
    requires limit { climb_to tape.old (y + 1) + row_steps model.now x y ≤ 1073741824 }
    ensures stamps { OnOk result
        (Stamps tape.old tape.new model.now full (is_in_line x y) (runs_of_row model.now x y)) }
    ensures climb { OnOk result (climb_to tape.new (y + 1) ≤ climb_to tape.old (y + 1) + row_steps model.now x y) }
{
    match next_run(model, x, y, 0) {
        None => Ok(()),
        Some(first) => go_and_write(tape, model, full, x, y, first),
    }
}

/// Fills or voids the runs of the layer at y.
fn write_layer(tape: &mut Tape, model: &Planes, full: bool, y: u16) -> Result<(), Memory>
    requires ready { CanStamp tape.old model.now y }
    requires limit { climb_to tape.old (y + 1) + stamping_steps model.now y ≤ 1073741824 }
    ensures stamps { OnOk result (Stamps tape.old tape.new model.now full (layer y) (runs_of_layer model.now y)) }
    ensures climb { OnOk result (climb_to tape.new (y + 1) ≤ climb_to tape.old (y + 1) + stamping_steps model.now y) }
{
    for x in 0..model.resolution() {
        write_row(tape, model, full, x, y)?;
    }
    Ok(())
}

/// Voids the layers of `source` from the top down to layer `low`, which is voided too.
pub fn clear(tape: &mut Tape, source: &Planes, low: u16) -> Result<(), Memory>
    requires ready { CanVoidModel tape.old source.now }
    requires low { low < tape.old.matrix.resolution }
    requires limit { climb_to tape.old (tape.old.matrix.resolution - 1) + tape.old.matrix.resolution
        + steps_below source.now tape.old.matrix.resolution
        ≤ 1073741824 }
    ensures stamps { OnOk result (Stamps tape.old tape.new source.now false (from_layer low) (runs_of source.now)) }
    ensures free { OnOk result (IsVoidFrom tape.new.matrix low) }
    ensures climb { OnOk result
        (climb_to tape.new low
        ≤ climb_to tape.old (tape.old.matrix.resolution - 1) + tape.old.matrix.resolution
        + steps_below source.now tape.old.matrix.resolution) }
{
    let mut y = source.resolution() - 1;
    while y > low {
        y -= 1;
        write_layer(tape, source, false, y)?;
    }
    Ok(())
}

/// Fills the layers of `target` from layer `low` up.
pub fn build(tape: &mut Tape, target: &Planes, low: u16) -> Result<(), Memory>
    requires pair { IsPair tape.old }
    requires same { target.now.resolution ≡ tape.old.matrix.resolution }
    requires low { low < tape.old.matrix.resolution }
    requires free { IsVoidFrom tape.old.matrix low }
    requires limit { climb_to tape.old (low + 1) + tape.old.matrix.resolution
        + steps_below target.now tape.old.matrix.resolution
        ≤ 1073741824 }
    ensures stamps { OnOk result
        (Stamps tape.old tape.new target.now true (between_layers low (tape.old.matrix.resolution - 1))
        (runs_of target.now)) }
    ensures steps { OnOk result
        (tape.new.steps
        ≤ climb_to tape.old (low + 1) + tape.old.matrix.resolution
        + steps_below target.now tape.old.matrix.resolution) }
{
    for y in low..target.resolution() - 1 {
        write_layer(tape, target, true, y)?;
    }
    Ok(())
}
