//! The first of the tallest columns of a forged model.
ghost use Rattle.std.specs.Prelude.{◌≡◌, ◌+◌, ◌<◌, ◌≤◌};
ghost use Rattle.nano_spec.specs.Forge.{line_of_tallest, tallest};
ghost use Rattle.model_forge.specs.Tower.{IsInside, highest, columns_of};

use crate::columns::height;
use vox_geom::MOST_R;

/// A column: its height and its z.
#[derive(Clone, Copy)]
pub struct Tower {
    pub height: u16,
    pub z: u16,
}

impl Tower {
    /// Returns the first of the tallest columns at `x` if that is higher than this tower, and this tower otherwise.
    fn or_higher(self, number: u32, r: u16, x: u16) -> Tower
        requires some { 2 ≤ r }
        requires most { r ≤ MOST_R }
        requires x { x < r }
        ensures value { result ≡ highest number r self (columns_of r x) }
        ensures inside { IsInside r self → IsInside r result }
    {
        let mut tower = self;
        for z in 1..r - 1 {
            let height = height(number, r, x, z);
            if height > tower.height {
                tower = Tower { height, z };
            }
        }
        tower
    }

    /// Returns the first of the tallest columns, by x and then by z. Its height is 0 if all columns are empty.
    pub fn of(number: u32, r: u16) -> Tower
        requires some { 1 ≤ r }
        requires most { r ≤ MOST_R }
        ensures height { result.height ≡ tallest number r }
        ensures z { 0 < result.height → result.z ≡ line_of_tallest number r }
        ensures inside { IsInside r result }
    {
        let mut tower = Tower { height: 0, z: 0 };
        for x in 1..r - 1 {
            tower = tower.or_higher(number, r, x);
        }
        tower
    }
}
