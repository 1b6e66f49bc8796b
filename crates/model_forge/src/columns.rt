//! The heights of columns.
ghost use Rattle.std.specs.Prelude.{◌≡◌, ◌+◌, ◌-◌, ◌<◌, ◌≤◌, length};
ghost use Rattle.nano_spec.specs.Forge.{column_height as height_of, mixed as mixed_of};
ghost use Rattle.model_forge.specs.Forging.{AreHeights};

use vox_geom::MOST_R;

/// Returns the mixed number of the column at x and z.
#[tactic(auto, using(crate::proofs::Sizes::product_most))]
fn mix(number: u32, x: u16, z: u16) -> u16
    requires x { x ≤ MOST_R }
    requires z { z ≤ MOST_R }
    ensures { result ≡ mixed_of number x z }
{
    let (x, z) = (u64::from(x), u64::from(z));
    let sum = u64::from(number) + 71 * x + 113 * z + 5 * x * x * z;
    (sum % 1024) as u16
}

/// Returns the height of the column at x and z.
pub fn height(number: u32, r: u16, x: u16, z: u16) -> u16
    requires some { 2 ≤ r }
    requires most { r ≤ MOST_R }
    requires x { x < r }
    requires z { z < r }
    ensures value { result ≡ height_of number r x z }
    ensures below { result < r }
{
    let mixed = mix(number, x, z);
    if mixed % 3 == 0 {
        1 + mixed % (r - 1)
    } else {
        0
    }
}

/// Fills `heights` with those of the columns of one x, from the column at z = 1 on.
pub fn measure(heights: &mut Vec<u16>, number: u32, r: u16, x: u16)
    requires most { r ≤ MOST_R }
    requires x { x < r }
    requires count { length heights.old.items + 2 ≡ r }
    ensures heights { AreHeights number r x heights.new.items }
    ensures count { length heights.new.items + 2 ≡ r }
{
    for z in 1..r - 1 {
        heights[usize::from(z - 1)] = height(number, r, x, z);
    }
}
