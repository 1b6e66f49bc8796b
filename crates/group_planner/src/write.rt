//! Writing by the pair: one voxel by one bot, or the voxels of a row by both.
ghost use Rattle.std.specs.Prelude.{◌≡◌, ◌≢◌, ◌+◌, ◌-◌, ◌<◌, ◌≤◌, OnOk, pos, ◌-ℤ◌};
ghost use Rattle.vox_geom.specs.declared.TheConstants.{MOST_R};
ghost use Rattle.group_planner.specs.Pair.{IsPair, Sets, front as front_of, rear as rear_of};
ghost use Rattle.group_planner.specs.Stamping.{WritesRun, most_work, work_at};
ghost use Rattle.group_planner.specs.Writing.{ahead, all_below as all_below_of, one_below as one_below_of};

use crate::pair::{front, front_goes, rear, rear_goes, spread};
use nano_spec::Command;
use plan_tape::{Tape, signed_gap};
use step_order::bots_act;
use vox_geom::{Diff, Far, Memory, Near};

/// Returns the difference along z from one end of a run to the other.
fn across(from: u16, to: u16) -> Far
    requires differ { from ≢ to }
    requires from { from ≤ MOST_R }
    requires to { to ≤ MOST_R }
    requires near { (to ≤ from + 30) × (from ≤ to + 30) }
    ensures { result ≡ ahead (pos to -ℤ pos from) }
{
    let dz = signed_gap(from, to);
    let Some(far) = Far::of(Diff { dx: 0, dy: 0, dz }) else {
        unreachable!()
    };
    far
}

/// Returns the command that fills or voids the voxel below.
fn one_below(full: bool) -> Command
    ensures { result ≡ one_below_of full }
{
    if full {
        Command::Fill(Near::down())
    } else {
        Command::Void(Near::down())
    }
}

/// Returns the command that fills or voids the voxels below both bots and between.
fn all_below(full: bool, from: u16, to: u16) -> Command
    requires differ { from ≢ to }
    requires from { from ≤ MOST_R }
    requires to { to ≤ MOST_R }
    requires near { (to ≤ from + 30) × (from ≤ to + 30) }
    ensures { result ≡ all_below_of full (pos to -ℤ pos from) }
{
    if full {
        Command::GFill(Near::down(), across(from, to))
    } else {
        Command::GVoid(Near::down(), across(from, to))
    }
}

/// Makes the voxel below the rear bot full or void, while the front one waits.
fn rear_writes(tape: &mut Tape, full: bool) -> Result<(), Memory>
    requires pair { IsPair tape.old }
    requires above { 1 ≤ (rear_of tape.old).y }
    requires limit { tape.old.steps < 1073741824 }
    ensures { OnOk result
        (Sets tape.old tape.new (rear_of tape.old).x ((rear_of tape.old).y - 1) (rear_of tape.old).z
        ((rear_of tape.old).z + 1) full (rear_of tape.old) (front_of tape.old) 1 0) }
{
    bots_act();
    tape.recall_ready();
    tape.act_all(&[one_below(full), Command::Wait])
}

/// Makes the voxel below the front bot full or void, while the rear one waits.
fn front_writes(tape: &mut Tape, full: bool) -> Result<(), Memory>
    requires pair { IsPair tape.old }
    requires above { 1 ≤ (rear_of tape.old).y }
    requires limit { tape.old.steps < 1073741824 }
    ensures { OnOk result
        (Sets tape.old tape.new (rear_of tape.old).x ((rear_of tape.old).y - 1) (front_of tape.old).z
        ((front_of tape.old).z + 1) full (rear_of tape.old) (front_of tape.old) 1 0) }
{
    bots_act();
    tape.recall_ready();
    tape.act_all(&[Command::Wait, one_below(full)])
}

/// Makes the voxels below both bots, and all between these, full or void.
fn both_write(tape: &mut Tape, full: bool) -> Result<(), Memory>
    requires pair { IsPair tape.old }
    requires above { 1 ≤ (rear_of tape.old).y }
    requires near { (front_of tape.old).z ≤ (rear_of tape.old).z + 30 }
    requires limit { tape.old.steps < 1073741824 }
    ensures { OnOk result
        (Sets tape.old tape.new (rear_of tape.old).x ((rear_of tape.old).y - 1) (rear_of tape.old).z
        ((front_of tape.old).z + 1) full (rear_of tape.old) (front_of tape.old) 1 1) }
{
    let first = rear(tape).z;
    let last = front(tape).z;
    tape.paint_all(&[all_below(full, first, last), all_below(full, last, first)])
}

/// Makes one voxel of the row below full or void, with the bot that need not pass the other.
pub fn write_voxel(tape: &mut Tape, z: u16, full: bool) -> Result<(), Memory>
    requires pair { IsPair tape.old }
    requires above { 1 ≤ (rear_of tape.old).y }
    requires within { z < tape.old.matrix.resolution }
    requires limit { work_at tape.old z z + 45 ≤ most_work }
    ensures { OnOk result (WritesRun tape.old tape.new z (z + 1) full) }
{
    if rear(tape).z < z {
        front_goes(tape, z)?;
        front_writes(tape, full)
    } else {
        rear_goes(tape, z)?;
        rear_writes(tape, full)
    }
}

/// Makes voxels of the row below full or void, with both bots at their ends.
pub fn write_voxels(tape: &mut Tape, first: u16, last: u16, full: bool) -> Result<(), Memory>
    requires pair { IsPair tape.old }
    requires above { 1 ≤ (rear_of tape.old).y }
    requires order { first < last }
    requires near { last ≤ first + 30 }
    requires within { last < tape.old.matrix.resolution }
    requires limit { work_at tape.old first last + 45 ≤ most_work }
    ensures { OnOk result (WritesRun tape.old tape.new first (last + 1) full) }
{
    spread(tape, first, last)?;
    both_write(tape, full)
}
