//! A list of commands, and the definitions' verdict of it.
ghost use Rattle.std.specs.Prelude.{◌≤◌, IfOk, length, true};
ghost use Rattle.vox_geom.specs.Counting.{IsBlankOf};
ghost use Rattle.vox_geom.specs.Space.{IsInSpace};
ghost use Rattle.nano_spec.specs.Matrix.{empty};
ghost use Rattle.nano_spec.specs.Profile.{full_profile};
ghost use Rattle.nano_spec.specs.Verdict.{VerdictOf};
ghost use Rattle.vox_planes.specs.Voxel.{with_voxel};
ghost use Rattle.judged_list.specs.Listed.{commands as commands_of, full_voxel};

use counter_permit::CounterPermit;
use nano_spec::{Command, Verdict};
use std::alloc::Global;
use std::marker::Brand;
use std::sync::ledger::{Blank, Ledger};
use trace_judge::judge;
use vox_geom::{Coord, Diff, MOST_R, Memory, Near, Steps};
use vox_planes::Planes;

/// Returns the verdict of commands that fill one voxel of an empty model, counted in a ledger of its own.
fn judge_in<L: Ledger>(
    alloc: Global,
    r: u16,
    full: Coord,
    commands: &[Command],
    blank: Blank,
) -> Result<Verdict, Memory>
    requires some { 1 ≤ r }
    requires most { r ≤ MOST_R }
    requires within { IsInSpace r full }
    requires few { length commands.now ≤ 1073741824 }
    requires blank { IsBlankOf blank L.name L.parts }
    ensures { IfOk result (λ v. VerdictOf (empty r) (with_voxel (empty r) full true) commands.now full_profile v) }
{
    let mut steps: Steps<L> = Steps::new(blank, CounterPermit);
    let source = Planes::empty(alloc, r)?;
    let mut target = Planes::empty(alloc, r)?;
    target.set(full, true);
    judge(alloc, source, &target, commands, &mut steps)
}

/// Returns the definitions' verdict of the list, from the empty model of resolution 3 to the one with the voxel (1,0,1).
pub fn judge_list(alloc: Global) -> Result<Verdict, Memory>
    ensures { IfOk result (λ v. VerdictOf (empty 3) (with_voxel (empty 3) full_voxel true) commands_of full_profile v) }
{
    let Some(d) = Near::of(Diff {
        dx: 1,
        dy: 0,
        dz: 1,
    }) else {
        unreachable!()
    };
    let commands = [Command::Fill(d), Command::Halt];
    let full = Coord { x: 1, y: 0, z: 1 };
    judge_in::<Brand>(alloc, 3, full, &commands, Blank::new(1))
}
