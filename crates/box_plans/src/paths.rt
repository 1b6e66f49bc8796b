//! Paths through the sky: up, then along x and z in either order, then down.
use crate::airspace::{Airspace, CrewBot};
use crate::positions::{LONG, NOWHERE, Position, SHORT, apart, by, length};
use vox_geom::Diff;

/// The maximum number of paths between two positions that are compared.
const MOST_PATHS: usize = 4;

/// A part of a path along one axis (0 for x, 1 for y, 2 for z): `way` is its signed length.
#[derive(Clone, Copy, Debug)]
struct PathLeg {
    axis: u8,
    way: i16,
}

/// A leg of length 0.
const STAY: PathLeg = PathLeg { axis: 0, way: 0 };

/// A path: the number of its moves, and the first of them, in one or two legs.
#[derive(Clone, Copy, Debug)]
struct Path {
    moves: i32,
    first: Diff,
    second: Diff,
}

/// A path without moves.
const NO_PATH: Path = Path {
    moves: 0,
    first: NOWHERE,
    second: NOWHERE,
};

/// Paths between two positions, the shortest first.
#[derive(Clone, Copy, Debug)]
struct Paths {
    paths: [Path; MOST_PATHS],
    count: usize,
}

/// Returns the signed length `way`, cut to at most `most` in either direction.
fn limited(way: i16, most: i16) -> i16 {
    way.max(most.wrapping_neg()).min(most)
}

/// Returns the difference of this signed length along an axis.
fn along(axis: u8, way: i16) -> Diff {
    match axis {
        0 => by(way, 0, 0),
        1 => by(0, way, 0),
        _ => by(0, 0, way),
    }
}

/// Returns the legs that are not empty, consecutive ones along one axis joined, and the number of these.
fn joined(legs: [PathLeg; 4]) -> ([PathLeg; 4], usize) {
    let mut joined = [STAY; 4];
    let mut count = 0usize;
    for leg in legs {
        if leg.way == 0 {
            continue;
        }
        let last = count.wrapping_sub(1);
        if let Some(before) = joined.get_mut(last) {
            if before.axis == leg.axis {
                before.way = before.way.wrapping_add(leg.way);
                continue;
            }
        }
        if let Some(place) = joined.get_mut(count) {
            *place = leg;
            count = count.saturating_add(1);
        }
    }
    (joined, count)
}

/// Returns the leg at an index, or an empty one if there is none.
fn nth_leg(legs: &[PathLeg; 4], i: usize) -> PathLeg {
    match legs.get(i) {
        Some(leg) => *leg,
        None => STAY,
    }
}

/// Returns the number of moves of the greatest length that this signed length takes, and the length that is left.
fn parts_of(way: i16) -> (i16, i16) {
    let far = apart(way, 0);
    (far / LONG, far % LONG)
}

/// Returns the number of moves that the legs take. A move goes at most 15 along one axis, or at most 5 along each of two
/// consecutive legs.
fn count_moves(legs: &[PathLeg; 4], count: usize) -> i32 {
    let mut moves = 0i32;
    let mut covered = 0i16;
    for i in 0..count.min(4) {
        let way = nth_leg(legs, i).way.wrapping_sub(covered);
        covered = 0;
        let (whole, rest) = parts_of(way);
        moves = moves.wrapping_add(i32::from(whole));
        if rest == 0 {
            continue;
        }
        moves = moves.wrapping_add(1);
        if rest <= SHORT {
            covered = limited(nth_leg(legs, i.saturating_add(1)).way, SHORT);
        }
    }
    moves
}

/// Returns the path along these legs, or `None` if they lead nowhere.
fn path_along(legs: [PathLeg; 4]) -> Option<Path> {
    let (legs, count) = joined(legs);
    let moves = count_moves(&legs, count);
    let (one, two) = (nth_leg(&legs, 0), nth_leg(&legs, 1));
    if one.way == 0 {
        return None;
    }
    if count < 2 || apart(one.way, 0) > SHORT {
        let first = along(one.axis, limited(one.way, LONG));
        return Some(Path {
            moves,
            first,
            ..NO_PATH
        });
    }
    Some(Path {
        moves,
        first: along(one.axis, one.way),
        second: along(two.axis, limited(two.way, SHORT)),
    })
}

impl Paths {
    /// Returns the path at an index, if there is one.
    fn get(&self, i: usize) -> Option<Path> {
        if i >= self.count {
            return None;
        }
        match self.paths.get(i) {
            Some(path) => Some(*path),
            None => None,
        }
    }

    /// Inserts a path before the first longer one. If there is no room, drops the longest.
    fn add(&mut self, path: Path) {
        let mut new = path;
        for i in 0..MOST_PATHS {
            let is_free = i >= self.count;
            if let Some(place) = self.paths.get_mut(i) {
                let old = *place;
                if is_free {
                    *place = new;
                    self.count = self.count.saturating_add(1);
                    return;
                }
                if new.moves < old.moves {
                    *place = new;
                    new = old;
                }
            }
        }
    }
}

impl Airspace {
    /// Returns the lowest height that is in the sky of all columns of a row along x.
    fn highest_along_x(&self, from: i16, to: i16, z: i16) -> i16 {
        let mut highest = 0;
        for x in from.min(to)..=from.max(to) {
            highest = highest.max(self.site.top(x, z));
        }
        highest
    }

    /// Returns the lowest height that is in the sky of all columns of a row along z.
    fn highest_along_z(&self, x: i16, from: i16, to: i16) -> i16 {
        let mut highest = 0;
        for z in from.min(to)..=from.max(to) {
            highest = highest.max(self.site.top(x, z));
        }
        highest
    }

    /// Adds the path that goes along x and z at height `y`, unless that is outside the matrix.
    fn add_path(&self, paths: &mut Paths, from: Position, to: Position, y: i16, z_first: bool) {
        if y >= self.site.side() {
            return;
        }
        let d = from.to(to);
        let (x, z) = (
            PathLeg { axis: 0, way: d.dx },
            PathLeg { axis: 2, way: d.dz },
        );
        let up = PathLeg {
            axis: 1,
            way: y.wrapping_sub(from.y),
        };
        let down = PathLeg {
            axis: 1,
            way: to.y.wrapping_sub(y),
        };
        let path = if z_first {
            path_along([up, z, x, down])
        } else {
            path_along([up, x, z, down])
        };
        if let Some(path) = path {
            paths.add(path);
        }
    }

    /// Adds the paths along x first or along z first, at the heights of both ends. A height that is not in the sky all along is
    /// raised to the lowest one that is.
    fn add_paths(&self, paths: &mut Paths, from: Position, to: Position, z_first: bool) {
        let highest = if z_first {
            self.highest_along_z(from.x, from.z, to.z)
                .max(self.highest_along_x(from.x, to.x, to.z))
        } else {
            self.highest_along_x(from.x, to.x, from.z)
                .max(self.highest_along_z(to.x, from.z, to.z))
        };
        let first = to.y.max(highest);
        let second = from.y.max(highest);
        self.add_path(paths, from, to, first, z_first);
        if second != first {
            self.add_path(paths, from, to, second, z_first);
        }
    }

    /// Returns the paths between two positions.
    fn paths(&self, from: Position, to: Position) -> Paths {
        let mut paths = Paths {
            paths: [NO_PATH; MOST_PATHS],
            count: 0,
        };
        self.add_paths(&mut paths, from, to, false);
        if from.x != to.x && from.z != to.z {
            self.add_paths(&mut paths, from, to, true);
        }
        paths
    }

    /// Makes the first move of a path that takes at most two moves more than the shortest, if one is clear. Returns whether the bot
    /// moved.
    fn follow(&mut self, number: u8, paths: &Paths) -> bool {
        let most = match paths.get(0) {
            Some(path) => path.moves.wrapping_add(2),
            None => 0,
        };
        for i in 0..paths.count {
            if let Some(path) = paths.get(i) {
                if path.moves <= most && self.go(number, path.first, path.second) {
                    return true;
                }
            }
        }
        false
    }

    /// Makes a part of the first move of a path, if some part is clear. Returns whether the bot moved.
    fn follow_in_part(&mut self, number: u8, path: Path) -> bool {
        let Path { first, second, .. } = path;
        if length(second) > 0 {
            return self.go_straight(number, first);
        }
        let half = by(first.dx / 2, first.dy / 2, first.dz / 2);
        let three = by(
            limited(first.dx, 3),
            limited(first.dy, 3),
            limited(first.dz, 3),
        );
        let one = by(
            limited(first.dx, 1),
            limited(first.dy, 1),
            limited(first.dz, 1),
        );
        for d in [half, three, one] {
            let way = length(d);
            if way > 0 && way < length(first) && self.go_straight(number, d) {
                return true;
            }
        }
        false
    }

    /// Makes a bot's next move toward a position. A bot that is blocked more than twice in a row dodges.
    pub(crate) fn fly(&mut self, number: u8, to: Position) {
        let bot = self.bot(number);
        if bot.at == to {
            return;
        }
        let paths = self.paths(bot.at, to);
        if self.follow(number, &paths) {
            return;
        }
        for i in 0..paths.count {
            if let Some(path) = paths.get(i) {
                if self.follow_in_part(number, path) {
                    return;
                }
            }
        }
        let blocked = bot.blocked.saturating_add(1);
        self.put(number, CrewBot { blocked, ..bot });
        if blocked > 2 {
            self.dodge(number);
        }
    }
}
