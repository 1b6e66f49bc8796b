//! Positions of bots and voxels, and the moves between them.
use vox_geom::Diff;

/// The longest move along one axis.
const LONG: i16 = 15;

/// The longest leg of a double move.
const SHORT: i16 = 5;

/// A position, in space or not.
#[derive(Clone, Copy, PartialEq, Eq, Debug)]
pub(crate) struct Spot {
    pub(crate) x: i16,
    pub(crate) y: i16,
    pub(crate) z: i16,
}

impl Spot {
    /// Returns the position of the first bot.
    pub(crate) fn home() -> Spot {
        Spot { x: 0, y: 0, z: 0 }
    }

    /// Returns the position at a difference.
    pub(crate) fn plus(self, d: Diff) -> Spot {
        Spot {
            x: self.x.wrapping_add(d.dx),
            y: self.y.wrapping_add(d.dy),
            z: self.z.wrapping_add(d.dz),
        }
    }

    /// Returns the difference to another position.
    pub(crate) fn to(self, other: Spot) -> Diff {
        Diff {
            dx: other.x.wrapping_sub(self.x),
            dy: other.y.wrapping_sub(self.y),
            dz: other.z.wrapping_sub(self.z),
        }
    }

    /// Returns the position shifted along x and z.
    pub(crate) fn beside(self, dx: i16, dz: i16) -> Spot {
        self.plus(Diff { dx, dy: 0, dz })
    }

    /// Returns the position right above.
    pub(crate) fn above(self) -> Spot {
        Spot {
            y: self.y.wrapping_add(1),
            ..self
        }
    }

    /// Returns the position right below.
    pub(crate) fn below(self) -> Spot {
        Spot {
            y: self.y.wrapping_sub(1),
            ..self
        }
    }
}

/// Returns the difference zero.
pub(crate) fn nowhere() -> Diff {
    Diff {
        dx: 0,
        dy: 0,
        dz: 0,
    }
}

/// Returns one of about equal parts of a whole.
pub(crate) fn share(whole: i16, parts: i16) -> i16 {
    whole / parts.max(1)
}

/// Returns the distance of two components.
pub(crate) fn apart(a: i16, b: i16) -> i16 {
    let d = a.wrapping_sub(b);
    if d < 0 { d.wrapping_neg() } else { d }
}

/// Returns the first move of a path along an axis.
pub(crate) fn stride(way: i16) -> i16 {
    way.max(-LONG).min(LONG)
}

/// Returns the first leg of a double move along an axis.
fn short_stride(way: i16) -> i16 {
    way.max(-SHORT).min(SHORT)
}

/// Returns the number of moves of a path along an axis.
pub(crate) fn moves(way: i16) -> i16 {
    apart(way, 0).wrapping_add(LONG - 1) / LONG
}

/// Returns the first move of a path within a layer: a double move if that saves one.
pub(crate) fn across(dx: i16, dz: i16) -> Diff {
    let (x, z) = (short_stride(dx), short_stride(dz));
    let both = moves(dx.wrapping_sub(x)).wrapping_add(moves(dz.wrapping_sub(z)));
    if both.wrapping_add(1) < moves(dx).wrapping_add(moves(dz)) {
        return Diff {
            dx: x,
            dy: 0,
            dz: z,
        };
    }
    if apart(dx, 0) >= apart(dz, 0) {
        Diff {
            dx: stride(dx),
            ..nowhere()
        }
    } else {
        Diff {
            dz: stride(dz),
            ..nowhere()
        }
    }
}
