//! Shared helpers: coordinates, differences, and initial matrices.
ghost use Rattle.std.specs.Prelude.{◌≡◌, ◌≤◌, IfOk, IsFalse, None};
ghost use Rattle.nano_spec.specs.Grounded.{FirstUngrounded};
ghost use Rattle.nano_spec.specs.Matrix.{is_full};
ghost use Rattle.nano_spec.specs.State.{origin};

use std::alloc::Global;
use std::process::Abort;
use std::sync::ledger::Ledger;
use support_forest::Forest;
use vox_geom::{Coord, Diff, Far, Long, Memory, Near, Steps};
use vox_planes::Planes;

/// Returns the coordinate with these components.
pub(crate) fn at(x: u16, y: u16, z: u16) -> Coord
    ensures x { result.x ≡ x }
    ensures y { result.y ≡ y }
    ensures z { result.z ≡ z }
{
    Coord { x, y, z }
}

/// Returns the near difference with these components.
pub(crate) fn near(rt: &impl Abort, dx: i16, dy: i16, dz: i16) -> Near {
    Near::of(Diff { dx, dy, dz }).expect(rt, "near")
}

/// Returns the far difference with these components.
pub(crate) fn far(rt: &impl Abort, dx: i16, dy: i16, dz: i16) -> Far {
    Far::of(Diff { dx, dy, dz }).expect(rt, "far")
}

/// Returns the long difference with these components.
pub(crate) fn long(rt: &impl Abort, dx: i16, dy: i16, dz: i16) -> Long {
    Long::of(Diff { dx, dy, dz }).expect(rt, "long")
}

/// Returns the empty matrix of a resolution.
pub(crate) fn empty(alloc: Global, r: u16) -> Result<Planes, Memory>
    requires some { 1 ≤ r }
    requires most { r ≤ 400 }
    ensures grounded { IfOk result (λ p. FirstUngrounded p None) }
    ensures void { IfOk result (λ p. IsFalse (is_full p origin)) }
    ensures resolution { IfOk result (λ p. p.resolution ≡ r) }
{
    Planes::empty(alloc, r)
}

/// Returns the matrix of a resolution in which these voxels are full, each of which is grounded.
pub(crate) fn source<L: Ledger>(
    rt: &impl Abort,
    alloc: Global,
    r: u16,
    full: &[Coord],
    steps: &mut Steps<L>,
) -> Result<Planes, Memory>
    requires some { 1 ≤ r }
    requires most { r ≤ 400 }
    ensures grounded { IfOk result (λ p. FirstUngrounded p None) }
    ensures resolution { IfOk result (λ p. p.resolution ≡ r) }
{
    let mut matrix = Planes::empty(alloc, r)?;
    for c in full {
        let resolution = matrix.resolution();
        assert!(rt; c.x < resolution);
        assert!(rt; c.y < resolution);
        assert!(rt; c.z < resolution);
        matrix.set(*c, true);
    }
    let forest = Forest::of(alloc, &matrix, steps)?;
    assert!(rt; forest.floating() == 0);
    assert!(rt; matrix.resolution() == r);
    Ok(matrix)
}
