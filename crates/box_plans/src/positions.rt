//! Positions of bots and voxels, and the distances between them.
use vox_geom::Diff;

/// The longest move along one axis.
pub(crate) const LONG: i16 = 15;

/// The longest leg of a move along two axes.
pub(crate) const SHORT: i16 = 5;

/// The differences from a voxel to the eighteen positions from which a bot can fill it, the most useful ones first.
pub(crate) const NEAR: [(i16, i16, i16); 18] = [
    (0, 1, 0),
    (1, 0, 0),
    (-1, 0, 0),
    (0, 0, 1),
    (0, 0, -1),
    (1, 1, 0),
    (-1, 1, 0),
    (0, 1, 1),
    (0, 1, -1),
    (1, 0, 1),
    (1, 0, -1),
    (-1, 0, 1),
    (-1, 0, -1),
    (1, -1, 0),
    (-1, -1, 0),
    (0, -1, 1),
    (0, -1, -1),
    (0, -1, 0),
];

/// The differences to the six neighbors.
pub(crate) const NEIGHBORS: [(i16, i16, i16); 6] = [
    (1, 0, 0),
    (-1, 0, 0),
    (0, 1, 0),
    (0, -1, 0),
    (0, 0, 1),
    (0, 0, -1),
];

/// The differences to the four neighbors in the same layer.
pub(crate) const SIDES: [(i16, i16, i16); 4] = [(1, 0, 0), (-1, 0, 0), (0, 0, 1), (0, 0, -1)];

/// No difference.
pub(crate) const NOWHERE: Diff = Diff {
    dx: 0,
    dy: 0,
    dz: 0,
};

/// A difference.
pub(crate) fn by(dx: i16, dy: i16, dz: i16) -> Diff {
    Diff { dx, dy, dz }
}

/// A position, in space or not.
#[derive(Clone, Copy, PartialEq, Eq, Debug)]
pub(crate) struct Position {
    pub(crate) x: i16,
    pub(crate) y: i16,
    pub(crate) z: i16,
}

/// The position at which every run begins and ends.
pub(crate) const HOME: Position = Position { x: 0, y: 0, z: 0 };

impl Position {
    /// The position that a difference leads to.
    pub(crate) fn plus(self, d: Diff) -> Position {
        Position {
            x: self.x.wrapping_add(d.dx),
            y: self.y.wrapping_add(d.dy),
            z: self.z.wrapping_add(d.dz),
        }
    }

    /// The difference that leads to another position.
    pub(crate) fn to(self, other: Position) -> Diff {
        Diff {
            dx: other.x.wrapping_sub(self.x),
            dy: other.y.wrapping_sub(self.y),
            dz: other.z.wrapping_sub(self.z),
        }
    }

    /// The position at another height.
    pub(crate) fn at_height(self, y: i16) -> Position {
        Position { y, ..self }
    }

    /// Returns whether two positions are in the same column.
    pub(crate) fn is_above_or_below(self, other: Position) -> bool {
        self.x == other.x && self.z == other.z
    }
}

/// How far two components are apart.
pub(crate) fn apart(a: i16, b: i16) -> i16 {
    let d = a.wrapping_sub(b);
    if d < 0 { d.wrapping_neg() } else { d }
}

/// The direction of a way along one axis: -1, 0 or 1.
pub(crate) fn sign(way: i16) -> i16 {
    way.max(-1).min(1)
}

/// The Manhattan length of a difference.
pub(crate) fn length(d: Diff) -> i32 {
    i32::from(apart(d.dx, 0))
        .wrapping_add(i32::from(apart(d.dy, 0)))
        .wrapping_add(i32::from(apart(d.dz, 0)))
}

/// Returns whether a bot can fill the voxel at this difference.
pub(crate) fn is_near(d: Diff) -> bool {
    let within = apart(d.dx, 0) <= 1 && apart(d.dy, 0) <= 1 && apart(d.dz, 0) <= 1;
    within && length(d) > 0 && length(d) <= 2
}

/// The long moves along one axis, and 1 for a rest that half a short move covers.
fn moves_along(way: i16) -> (i32, i32) {
    let whole = i32::from(apart(way, 0) / LONG);
    let rest = apart(way, 0) % LONG;
    if rest == 0 {
        (whole, 0)
    } else if rest <= SHORT {
        (whole, 1)
    } else {
        (whole.wrapping_add(1), 0)
    }
}

/// The least number of moves between two positions if nothing is in the way.
pub(crate) fn moves_between(from: Position, to: Position) -> i32 {
    let d = from.to(to);
    let (x, short_x) = moves_along(d.dx);
    let (y, short_y) = moves_along(d.dy);
    let (z, short_z) = moves_along(d.dz);
    let short = short_x.wrapping_add(short_y).wrapping_add(short_z);
    x.wrapping_add(y)
        .wrapping_add(z)
        .wrapping_add(short.wrapping_add(1) / 2)
}
