//! The strips of columns, one for each bot.
ghost use Rattle.std.specs.Prelude.{◌≡◌, ◌≤◌};
ghost use Rattle.swarm_planner.specs.Strips.{count as count_of};
ghost use Rattle.swarm_planner.specs.Bounds.{width as width_of};

use vox_geom::MOST_R;

/// Returns the number of columns of the widest strip.
pub fn strip_width(r: u16) -> u16
    requires { r ≤ MOST_R }
    ensures { result ≡ width_of r }
{
    ((r + 17) / 20).max(1)
}

/// Returns the number of strips of the columns from 1 to r - 2.
pub fn strip_count(r: u16) -> u16
    requires some { 3 ≤ r }
    requires most { r ≤ MOST_R }
    ensures { result ≡ count_of r }
{
    (r - 3) / strip_width(r) + 1
}
