//! Queries of a machine's matrix. They do not report the touches that they make.
ghost use Rattle.std.specs.Prelude.{◌≡◌, count_by, MatchBool};
ghost use Rattle.nano_spec.specs.Matrix.{all_of, is_full};
ghost use Rattle.nano_spec.specs.State.{IsWellFormed};
ghost use Rattle.nano_spec.specs.Verdict.{first_difference};
ghost use Rattle.vox_geom.specs.Counting.{IsBlankOf};
ghost use Rattle.vox_geom.specs.Space.{IsInSpace};
ghost use Rattle.kept_machine.specs.Calls.{TellsLevel};

use crate::fault::NoLevel;
use crate::stepping::stand_again;
use counter_permit::CounterPermit;
use std::alloc::Global;
use std::sync::ledger::{Blank, Ledger};
use step_machine::Machine;
use vox_geom::{Coord, Steps};
use vox_planes::Planes;

/// Returns whether a coordinate is in a matrix of resolution `r`.
pub(crate) fn is_in_space(c: Coord, r: u16) -> bool
    ensures { MatchBool result (IsInSpace r c) (IsInSpace r c → ⊥) }
{
    c.x < r && c.y < r && c.z < r
}

/// Returns whether the voxel at a coordinate is full; false outside the matrix.
pub(crate) fn is_full_at<L: Ledger>(matrix: &Planes, c: Coord, blank: Blank) -> bool
    requires blank { IsBlankOf blank L.name L.parts }
    ensures { result ≡ is_full matrix.now c }
{
    if !is_in_space(c, matrix.resolution()) {
        return false;
    }
    let mut steps = Steps::<L>::new(blank, CounterPermit);
    matrix.full_at(c, &mut steps)
}

/// Returns the number of full voxels.
pub(crate) fn count_full<L: Ledger>(matrix: &Planes, blank: Blank) -> u32
    requires blank { IsBlankOf blank L.name L.parts }
    ensures { result ≡ count_by (is_full matrix.now) (all_of matrix.now) }
{
    let mut steps = Steps::<L>::new(blank, CounterPermit);
    matrix.count(&mut steps)
}

/// Returns the least coordinate at which two matrices differ, or `None` if they are equal.
pub(crate) fn least_difference<L: Ledger>(
    matrix: &Planes,
    target: &Planes,
    blank: Blank,
) -> Option<Coord>
    requires same { matrix.now.resolution ≡ target.now.resolution }
    requires blank { IsBlankOf blank L.name L.parts }
    ensures { result ≡ first_difference matrix.now target.now }
{
    let mut steps = Steps::<L>::new(blank, CounterPermit);
    matrix.equal(target, &mut steps)
}

/// Returns the level of a voxel, or `None` if it is void or not grounded. Rebuilds a poisoned machine first.
pub(crate) fn find_level<L: Ledger>(
    alloc: Global,
    machine: &mut Machine,
    c: Coord,
    blank: Blank,
) -> Result<Option<u32>, NoLevel>
    requires well_formed { IsWellFormed machine.old.state }
    requires blank { IsBlankOf blank L.name L.parts }
    ensures state { machine.new.state ≡ machine.old.state }
    ensures steps { machine.new.steps ≡ machine.old.steps }
    ensures told { TellsLevel machine.old.state.matrix c result }
{
    if !is_in_space(c, machine.matrix().resolution()) {
        return Err(NoLevel::Outside);
    }
    let mut steps = Steps::<L>::new(blank, CounterPermit);
    match stand_again(alloc, machine, &mut steps) {
        Ok(()) => Ok(machine.level(c, &mut steps)),
        Err(_) => Err(NoLevel::Memory),
    }
}
