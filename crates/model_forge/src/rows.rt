//! Rows of voxels of a forged model: those with one x and one y.
ghost use Rattle.std.specs.Prelude.{◌≡◌, ◌+◌, ◌-◌, ◌*◌, ◌%◌, ◌^◌, ◌<◌, ◌≤◌, ◌&&◌, ◌||◌, ◌==◌, ℕ, cond, length, nat_lt, slice_index};
ghost use Rattle.vox_geom.specs.Space.{IsInSpace, place};
ghost use Rattle.nano_spec.specs.Model.{bit, volume};
ghost use Rattle.vox_planes.specs.Places.{is_from, voxel_at};
ghost use Rattle.vox_planes.specs.Voxel.{IsWhole};
ghost use Rattle.model_forge.specs.Forging.{AreHeights, IsForged, row_place};
ghost use Rattle.model_forge.specs.Tower.{IsInside};

use crate::tower::Tower;
use vox_geom::Coord;
use vox_planes::Planes;

/// Returns the bits of `count` columns from an index on: 1 for those that are higher than y.
fn column_bits(heights: &[u16], first: usize, count: u32, y: u16) -> u64
    requires few { count ≤ 64 }
    requires within { first + count ≤ length heights.now }
    ensures { (k : ℕ) → k < count → bit result k ≡ nat_lt y (slice_index heights.now (first + k)) }
{
    let mut bits = 0;
    for k in 0..count {
        let higher = y < heights[first + k as usize];
        bits += u64::from(higher) << k;
    }
    bits
}

/// Fills each voxel of a row, from a coordinate on, whose column is higher than it, and voids the others.
fn put_columns(planes: &mut Planes, first: Coord, heights: &[u16])
    requires within { IsInSpace planes.old.resolution first }
    requires row { first.z + length heights.now ≤ planes.old.resolution }
    ensures places { (p : ℕ) → voxel_at planes.new p
        ≡ cond (is_from (place planes.old.resolution first) (length heights.now) p)
        (nat_lt first.y (slice_index heights.now (p - place planes.old.resolution first))) (voxel_at planes.old p) }
    ensures resolution { planes.new.resolution ≡ planes.old.resolution }
    ensures whole { IsWhole planes.new }
{
    planes.recall();
    let mut done = 0;
    while done < heights.len() {
        let count = (heights.len() - done).min(64) as u32;
        let at = Coord {
            z: first.z + done as u16,
            ..first
        };
        planes.set_row_bits(at, count, column_bits(heights, done, count, first.y));
        done += count as usize;
    }
}

/// Fills the roof's voxels of a row with `count` columns from a place on: all of them if x is even, otherwise the one on the
/// tower's line.
fn put_roof(planes: &mut Planes, from: u32, count: u32, x: u16, z: u16)
    requires within { from + count ≤ volume planes.old.resolution }
    requires small { from + count < 2 ^ 32 }
    requires low { 1 ≤ z }
    requires high { z ≤ count }
    ensures places { (p : ℕ)
        → voxel_at planes.new p
        ≡ ((is_from from count p && (x % 2 == 0 || p + 1 == from + z)) || voxel_at planes.old p) }
    ensures resolution { planes.new.resolution ≡ planes.old.resolution }
    ensures whole { IsWhole planes.new }
{
    if x % 2 == 0 {
        planes.fill_places(from, from + count);
    } else {
        let line = from + u32::from(z) - 1;
        planes.fill_places(line, line + 1);
    }
}

/// Forges the row of voxels with this x and y.
pub fn put_row(planes: &mut Planes, heights: &[u16], tower: Tower, x: u16, y: u16)
    requires x_low { 1 ≤ x }
    requires x_high { x + 1 < planes.old.resolution }
    requires y { y < planes.old.resolution }
    requires tower { IsInside planes.old.resolution tower }
    requires count { length heights.now + 2 ≡ planes.old.resolution }
    ensures forged { (number : ℕ) → AreHeights number planes.old.resolution x heights.now
        → IsForged number tower planes.old (row_place planes.old.resolution x y)
        → IsForged number tower planes.new (row_place planes.old.resolution x (y + 1)) }
    ensures resolution { planes.new.resolution ≡ planes.old.resolution }
    ensures whole { IsWhole planes.new }
{
    let r = u32::from(planes.resolution());
    let from = (u32::from(x) * r + u32::from(y)) * r + 1;
    put_columns(planes, Coord { x, y, z: 1 }, heights);
    if y + 1 == tower.height {
        put_roof(planes, from, r - 2, x, tower.z);
    }
}
