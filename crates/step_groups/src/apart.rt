//! Interference test by bounding boxes, for bots that act alone.
ghost use Rattle.std.specs.Prelude.{◌≡◌, ◌≤◌, true, ◌++◌, [], ◌∷◌, length, All, IsTrue};
ghost use Rattle.std.specs.List.{list_all};
ghost use Rattle.vox_geom.specs.declared.coordinate.Coord.{Coord as Coordinate};
ghost use Rattle.vox_geom.specs.Point.{point};
ghost use Rattle.vox_geom.specs.Region.{is_within, span};
ghost use Rattle.vox_geom.specs.Space.{IsInSpace};
ghost use Rattle.nano_spec.specs.Act.{acts, stays_in_space};
ghost use Rattle.step_groups.specs.Apart.{AreAllApart};
ghost use Rattle.step_groups.specs.Boxes.{IsHull, in_boxes};
ghost use Rattle.step_groups.specs.Judging.{is_alone};

use crate::boxes::around;
use crate::members::acts_alone;
use crate::volatile::own_hull;
use arrayvec::ArrayVec;
use bot_crew::MOST_BOTS;
use nano_spec::{Bot, Command};
use vox_geom::Region;
use vox_planes::Planes;

/// Returns whether no command needs another bot, so that each bot is a group of its own.
pub fn all_act_alone(commands: &[Command]) -> bool
    ensures { result ≡ list_all is_alone commands.now }
{
    for i in 0..commands.len() {
        if !acts_alone(&commands[i]) {
            return false;
        }
    }
    true
}

/// Returns whether `hull` is disjoint from every box in `others`; `all` contains them all.
fn is_apart(hull: &Region, all: &Region, others: &[Region]) -> bool
    requires { IsHull all.now others.now }
    ensures { result ≡ true → (c : Coordinate) → IsTrue (is_within (span hull.now) (point c))
        → IsTrue (in_boxes others.now c) → ⊥ }
{
    if hull.meets(all).is_none() {
        return true;
    }
    for j in 0..others.len() {
        if hull.meets(&others[j]).is_some() {
            return false;
        }
    }
    true
}

/// Returns the bounding box of `all` and one more box.
fn with_box(all: &Region, others: &[Region], hull: &Region) -> Region
    requires { IsHull all.now others.now }
    ensures { IsHull result (others.now ++ hull.now ∷ []) }
{
    if others.is_empty() {
        return *hull;
    }
    around(all, hull)
}

/// Returns whether the volatile bounding boxes of the bots are disjoint. For bots in a line one box each is enough.
pub(crate) fn are_apart(planes: &Planes, bots: &[Bot], commands: &[Command]) -> bool
    requires few { length bots.now ≤ 40 }
    requires lengths { length commands.now ≡ length bots.now }
    requires within { All (λ b. IsInSpace planes.now.resolution b.pos) bots.now }
    requires stays { All (λ a. IsTrue (stays_in_space planes.now.resolution a)) (acts bots.now commands.now) }
    ensures { result ≡ true → AreAllApart (acts bots.now commands.now) }
{
    let mut hulls: ArrayVec<Region, MOST_BOTS> = ArrayVec::new();
    let mut all = Region::default();
    for i in 0..bots.len() {
        let hull = own_hull(planes, &bots[i], &commands[i]);
        if !is_apart(&hull, &all, hulls.as_slice()) {
            return false;
        }
        all = with_box(&all, hulls.as_slice(), &hull);
        hulls.push(hull);
    }
    true
}
