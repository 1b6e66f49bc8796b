//! Forges a wall of a model, that is, the voxels with one x, and the whole model.
ghost use Rattle.std.specs.Prelude.{◌≡◌, ◌+◌, ◌<◌, ◌≤◌, ℕ, IfOk, length};
ghost use Rattle.nano_spec.specs.Forge.{forged};
ghost use Rattle.nano_spec.specs.Legal.{IsLegal};
ghost use Rattle.vox_planes.specs.Voxel.{IsWhole};
ghost use Rattle.model_forge.specs.Forging.{AreHeights, IsForged, row_place};
ghost use Rattle.model_forge.specs.Tower.{IsInside};

use crate::columns::measure;
use crate::rows::put_row;
use crate::tower::Tower;
use nano_spec::forged_is_legal;
use std::alloc::Global;
use vox_geom::{MOST_R, Memory};
use vox_planes::Planes;

/// Forges the wall at this x, whose columns have these heights.
fn put_wall(planes: &mut Planes, heights: &[u16], tower: Tower, x: u16)
    requires x_low { 1 ≤ x }
    requires x_high { x + 1 < planes.old.resolution }
    requires tower { IsInside planes.old.resolution tower }
    requires count { length heights.now + 2 ≡ planes.old.resolution }
    ensures forged { (number : ℕ) → AreHeights number planes.old.resolution x heights.now
        → IsForged number tower planes.old (row_place planes.old.resolution x 0)
        → IsForged number tower planes.new (row_place planes.old.resolution (x + 1) 0) }
    ensures resolution { planes.new.resolution ≡ planes.old.resolution }
    ensures whole { IsWhole planes.new }
{
    for y in 0..planes.resolution() {
        put_row(planes, heights, tower, x, y);
    }
}

/// Returns the model of a number and a resolution (docs/FORMATS.md, "The forge"). The model is legal.
pub fn forge(alloc: Global, number: u32, r: u16) -> Result<Planes, Memory>
    requires some { 1 ≤ r }
    requires most { r ≤ MOST_R }
    ensures value { IfOk result (λ p. p ≡ forged number r) }
    ensures legal { IfOk result (λ p. IsLegal p) }
{
    forged_is_legal();
    let tower = Tower::of(number, r);
    let mut planes = Planes::empty(alloc, r)?;
    let mut heights = vec![in alloc; 0u16; usize::from(r.saturating_sub(2))]?;
    for x in 1..r - 1 {
        measure(&mut heights, number, r, x);
        put_wall(&mut planes, &heights, tower, x);
    }
    Ok(planes)
}
