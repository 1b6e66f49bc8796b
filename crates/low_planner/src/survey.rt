//! Checks whether each part of each layer is supported.
ghost use Rattle.std.specs.Prelude.{◌≡◌, [], IfOk, OnOk};
ghost use Rattle.low_planner.specs.Supported.{FirstUnsupported};
ghost use Rattle.low_planner.specs.Sweep.{AreAllSwept, IsSweep};

use crate::sweep::Sweep;
use model_file::least_full;
use std::alloc::Global;
use vox_geom::{Coord, Memory};
use vox_planes::Planes;

/// Visits all voxels of all supported parts.
fn finish(sweep: &mut Sweep, target: &Planes) -> Result<(), Memory>
    requires { IsSweep target.now sweep.old }
    ensures sweep { OnOk result (IsSweep target.now sweep.new) }
    ensures none { OnOk result (sweep.new.trail.items ≡ []) }
    ensures all { OnOk result (AreAllSwept target.now sweep.new.remaining) }
{
    while let Some(_visit) = sweep.next(target)? {}
    Ok(())
}

/// Returns the least voxel of all unsupported parts, or `None` if each part is supported.
pub fn first_unsupported(alloc: Global, target: &Planes) -> Result<Option<Coord>, Memory>
    ensures { IfOk result (FirstUnsupported target.now) }
{
    let mut sweep = Sweep::begin(alloc, target)?;
    finish(&mut sweep, target)?;
    Ok(least_full(&sweep.remaining))
}
