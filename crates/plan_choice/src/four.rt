//! Plans of four bots that void everything.
ghost use Rattle.std.specs.Prelude.{◌≡◌, IfOk, length};
ghost use Rattle.nano_spec.specs.Profile.{full_profile};
ghost use Rattle.plan_choice.specs.Better.{CanImprove, MayStandFor};

use crate::bounds::Bounds;
use crate::trials::{Trial, cheapest};
use nano_spec::Profile;
use plan_tape::Plan;
use std::alloc::Global;
use vox_geom::{MOST_R, Memory};
use vox_planes::Planes;

/// The slabs to try, by their number of layers. Thick ones need fewer moves, so they come first; thin ones let fewer voxels float.
/// Tiles of each are all about equally wide, or as wide as possible. Then the same with poles under overhangs.
const SLABS: [Trial; 16] = [
    Trial::Slabs(MOST_R, true),
    Trial::Slabs(MOST_R, false),
    Trial::Slabs(16, true),
    Trial::Slabs(16, false),
    Trial::Slabs(4, true),
    Trial::Slabs(4, false),
    Trial::Slabs(1, true),
    Trial::Slabs(1, false),
    Trial::PoledSlabs(MOST_R, true),
    Trial::PoledSlabs(MOST_R, false),
    Trial::PoledSlabs(16, true),
    Trial::PoledSlabs(16, false),
    Trial::PoledSlabs(4, true),
    Trial::PoledSlabs(4, false),
    Trial::PoledSlabs(1, true),
    Trial::PoledSlabs(1, false),
];

/// Returns the plan, or a plan of four bots that void slab by slab, if it is cheaper and within the bounds.
///
/// A plan of one command, a Halt alone, is returned as it is. Proposals that cannot cost less than the ceiling may be skipped.
pub fn by_slabs(
    alloc: Global,
    source: &Planes,
    target: &Planes,
    plan: Plan,
    most: Bounds,
    ceiling: i64,
) -> Result<Plan, Memory>
    requires { CanImprove source.now target.now full_profile plan }
    ensures stands { IfOk result (λ it. MayStandFor source.now target.now full_profile most plan it) }
    ensures alone { length plan.commands ≡ 1 → IfOk result (λ it. it.commands ≡ plan.commands) }
{
    if plan.commands.as_slice().len() == 1 {
        return Ok(plan);
    }
    let profile = Profile::full();
    cheapest(alloc, source, target, profile, plan, &SLABS, most, ceiling)
}
