//! Paths of one bot along the axes, one after another, with the fewest moves of all paths.
use crate::site::Site;
use crate::spots::{Spot, apart, nowhere, stride};
use std::alloc::Global;
use vox_geom::{Diff, Memory};

/// The axes.
const X: (i16, i16, i16) = (1, 0, 0);

const Y: (i16, i16, i16) = (0, 1, 0);

const Z: (i16, i16, i16) = (0, 0, 1);

/// The orders of the axes on a path.
const ORDERS: [[(i16, i16, i16); 3]; 6] = [
    [X, Y, Z],
    [X, Z, Y],
    [Y, X, Z],
    [Y, Z, X],
    [Z, X, Y],
    [Z, Y, X],
];

/// More moves than any path along an axis has.
const MOST_MOVES: u32 = 100;

/// Returns the part of a difference along an axis.
fn part(way: Diff, axis: (i16, i16, i16)) -> Diff {
    let (x, y, z) = axis;
    Diff {
        dx: way.dx.wrapping_mul(x),
        dy: way.dy.wrapping_mul(y),
        dz: way.dz.wrapping_mul(z),
    }
}

/// Returns the sign of a difference along one axis.
fn sign(way: i16) -> i16 {
    way.max(-1).min(1)
}

/// Returns whether nothing is in the way from a voxel along one axis.
fn is_open(site: &Site, from: Spot, d: Diff) -> bool {
    let one = Diff {
        dx: sign(d.dx),
        dy: sign(d.dy),
        dz: sign(d.dz),
    };
    let mut c = from;
    for _ in 0..apart(d.dx, 0).max(apart(d.dy, 0)).max(apart(d.dz, 0)) {
        c = c.plus(one);
        if site.number(c).is_none() || site.is_target(c) {
            return false;
        }
    }
    true
}

/// Returns whether nothing is in the way along the axes in an order.
fn is_open_by(site: &Site, from: Spot, way: Diff, order: [(i16, i16, i16); 3]) -> bool {
    let mut at = from;
    for axis in order {
        let d = part(way, axis);
        if !is_open(site, at, d) {
            return false;
        }
        at = at.plus(d);
    }
    true
}

/// Adds the moves of a difference along one axis.
fn add_moves(moves: &mut Vec<Diff>, d: Diff) -> Result<(), Memory> {
    let mut left = Spot::home().plus(d);
    for _ in 0..MOST_MOVES {
        let step = Diff {
            dx: stride(left.x),
            dy: stride(left.y),
            dz: stride(left.z),
        };
        if step == nowhere() {
            break;
        }
        moves.push(step).map_err(|_| Memory)?;
        let rest = Spot::home().plus(step).to(left);
        left = Spot::home().plus(rest);
    }
    Ok(())
}

/// Returns the moves between two voxels along the axes in some order, the last one first, or `None` if something is in the way
/// in each order.
pub(crate) fn direct(
    alloc: Global,
    site: &Site,
    from: Spot,
    to: Spot,
) -> Result<Option<Vec<Diff>>, Memory> {
    let way = from.to(to);
    for order in ORDERS {
        if is_open_by(site, from, way, order) {
            let [first, second, third] = order;
            let mut moves = Vec::new(alloc);
            add_moves(&mut moves, part(way, third))?;
            add_moves(&mut moves, part(way, second))?;
            add_moves(&mut moves, part(way, first))?;
            return Ok(Some(moves));
        }
    }
    Ok(None)
}
