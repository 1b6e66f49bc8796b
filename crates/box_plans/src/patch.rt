//! The best box for a voxel: rectangles and lines of columns around it that all begin in its layer, as thick as all of them allow.
use crate::blocks::{Block, MOST_SIDE};
use crate::cut::Cutter;
use crate::positions::Position;
use crate::site::BuildSite;
use crate::weights::index_of;

/// How many columns a patch has along an axis at most.
const EDGE: usize = 31;

/// How far columns are looked at.
const FAR: i16 = 124;

/// The thicknesses that are tried besides the greatest one.
const LEVELS: [u8; 9] = [31, 23, 16, 11, 8, 5, 3, 2, 1];

/// The columns around a voxel: how many voxels follow one another upward in each from its layer on, the place of the voxel, and which
/// thicknesses there are.
#[derive(Clone, Copy)]
struct Patch {
    x: i16,
    z: i16,
    y: i16,
    wide: usize,
    deep: usize,
    own_x: usize,
    own_z: usize,
    runs: [u8; 961],
    seen: [bool; 32],
}

/// A rectangle of columns of a patch.
#[derive(Clone, Copy, PartialEq, Eq)]
struct Rectangle {
    x: (usize, usize),
    z: (usize, usize),
}

/// How many columns a side has.
fn width(from: usize, to: usize) -> usize {
    to.saturating_sub(from).saturating_add(1)
}

/// How many columns there are between two, with both.
fn columns_between(from: i16, to: i16) -> usize {
    index_of(to.saturating_sub(from))
        .saturating_add(1)
        .min(EDGE)
}

/// A part of a whole.
fn share(whole: i16, parts: i16) -> i16 {
    whole / parts.max(1)
}

/// The part of a row of columns that has one of them: parts are about equal, and at most 31 wide.
fn part_of(low: i16, high: i16, at: i16) -> (i16, i16) {
    let count = high.saturating_sub(low).saturating_add(1).max(1);
    if count <= MOST_SIDE {
        return (low, high);
    }
    let parts = share(count.saturating_add(MOST_SIDE - 1), MOST_SIDE);
    let size = share(count.saturating_add(parts).saturating_sub(1), parts).max(1);
    let skipped = share(at.saturating_sub(low), size).saturating_mul(size);
    let from = low.saturating_add(skipped);
    (from, from.saturating_add(size).saturating_sub(1).min(high))
}

/// How far columns that begin in a layer follow one another from one in a direction.
fn reach(cutter: &Cutter, site: &BuildSite, from: Position, dx: i16, dz: i16) -> i16 {
    let mut count = 0i16;
    let (mut x, mut z) = (from.x, from.z);
    for _ in 0..FAR {
        x = x.wrapping_add(dx);
        z = z.wrapping_add(dz);
        if !cutter.begins(site, x, z, from.y) {
            break;
        }
        count = count.saturating_add(1);
    }
    count
}

impl Patch {
    /// The columns around a voxel.
    fn around(cutter: &Cutter, site: &BuildSite, seed: Position) -> Patch {
        let left = seed.x.saturating_sub(reach(cutter, site, seed, -1, 0));
        let right = seed.x.saturating_add(reach(cutter, site, seed, 1, 0));
        let front = seed.z.saturating_sub(reach(cutter, site, seed, 0, -1));
        let back = seed.z.saturating_add(reach(cutter, site, seed, 0, 1));
        let (x, last_x) = part_of(left, right, seed.x);
        let (z, last_z) = part_of(front, back, seed.z);
        let mut patch = Patch {
            x,
            z,
            y: seed.y,
            wide: columns_between(x, last_x),
            deep: columns_between(z, last_z),
            own_x: index_of(seed.x.saturating_sub(x)),
            own_z: index_of(seed.z.saturating_sub(z)),
            runs: [0; 961],
            seen: [false; 32],
        };
        for i in 0..patch.wide {
            for k in 0..patch.deep {
                patch.read_column(cutter, site, i, k);
            }
        }
        patch
    }

    /// A column of the patch.
    fn column(&self, i: usize, k: usize) -> Position {
        Position {
            x: self.x.saturating_add(i.min(EDGE) as i16),
            y: self.y,
            z: self.z.saturating_add(k.min(EDGE) as i16),
        }
    }

    /// Keeps how many voxels follow one another in a column.
    fn read_column(&mut self, cutter: &Cutter, site: &BuildSite, i: usize, k: usize) {
        let c = self.column(i, k);
        if !cutter.begins(site, c.x, c.z, c.y) {
            return;
        }
        let run = if cutter.may_be_thick() {
            cutter.run(site, c)
        } else {
            1
        };
        let at = i.wrapping_mul(EDGE).wrapping_add(k);
        if let Some(place) = self.runs.get_mut(at) {
            *place = run;
        }
        if let Some(place) = self.seen.get_mut(usize::from(run)) {
            *place = true;
        }
    }

    /// How many voxels follow one another in a column.
    fn run(&self, i: usize, k: usize) -> u8 {
        if k >= EDGE {
            return 0;
        }
        match self.runs.get(i.wrapping_mul(EDGE).wrapping_add(k)) {
            Some(run) => *run,
            None => 0,
        }
    }

    /// The thickness that all columns of a rectangle have.
    fn thickness(&self, area: Rectangle) -> u8 {
        let mut least = MOST_SIDE as u8;
        for i in area.x.0..area.x.1.saturating_add(1) {
            for k in area.z.0..area.z.1.saturating_add(1) {
                least = least.min(self.run(i, k));
            }
        }
        least
    }

    /// Returns whether a thickness is tried.
    fn is_level(&self, level: u8, most: u8) -> bool {
        let is_there = match self.seen.get(usize::from(level)) {
            Some(seen) => *seen,
            None => false,
        };
        level == most || (LEVELS.contains(&level) && (is_there || level == 16 || level == 8))
    }

    /// How far columns of a thickness follow one another along z, before and behind the row of the voxel.
    fn span(&self, i: usize, level: u8) -> (usize, usize) {
        let (mut behind, mut before) = (0usize, 0usize);
        if self.run(i, self.own_z) < level {
            return (0, 0);
        }
        for k in self.own_z..self.deep {
            if self.run(i, k) < level {
                break;
            }
            behind = behind.saturating_add(1);
        }
        for k in 1..self.own_z.saturating_add(1) {
            if self.run(i, self.own_z.wrapping_sub(k)) < level {
                break;
            }
            before = before.saturating_add(1);
        }
        (before, behind)
    }

    /// The rectangle with the row of the voxel between two columns, as deep as given.
    fn area(&self, from: usize, to: usize, span: (usize, usize)) -> Rectangle {
        let (before, behind) = span;
        Rectangle {
            x: (from, to),
            z: (
                self.own_z.saturating_sub(before),
                self.own_z.saturating_add(behind).saturating_sub(1),
            ),
        }
    }

    /// The largest rectangle of columns of a thickness from one column on to the right, with its size.
    fn rectangle_from(
        &self,
        spans: &[(usize, usize); 31],
        from: usize,
        least: (usize, usize),
    ) -> (usize, Rectangle) {
        let mut best = (0usize, self.area(from, from, (0, 1)));
        let mut span = least;
        for to in self.own_x..self.wide {
            let (before, behind) = span_of(spans, to);
            if behind == 0 {
                break;
            }
            span = (span.0.min(before), span.1.min(behind));
            let size = width(from, to).saturating_mul(span.0.saturating_add(span.1));
            if size > best.0 {
                best = (size, self.area(from, to, span));
            }
        }
        best
    }

    /// The largest rectangle of columns of a thickness that has the voxel.
    fn rectangle(&self, spans: &[(usize, usize); 31]) -> Rectangle {
        let mut best = (0usize, self.area(self.own_x, self.own_x, (0, 1)));
        let mut span = (EDGE, EDGE);
        for k in 0..self.own_x.saturating_add(1) {
            let from = self.own_x.wrapping_sub(k);
            let (before, behind) = span_of(spans, from);
            if behind == 0 {
                break;
            }
            span = (span.0.min(before), span.1.min(behind));
            let found = self.rectangle_from(spans, from, span);
            if found.0 > best.0 {
                best = found;
            }
        }
        best.1
    }

    /// The line of columns of a thickness along x that has the voxel.
    fn line(&self, spans: &[(usize, usize); 31]) -> Rectangle {
        let (mut from, mut to) = (self.own_x, self.own_x);
        for k in 1..self.own_x.saturating_add(1) {
            let at = self.own_x.wrapping_sub(k);
            if span_of(spans, at).1 == 0 {
                break;
            }
            from = at;
        }
        for at in self.own_x..self.wide {
            if span_of(spans, at).1 == 0 {
                break;
            }
            to = at;
        }
        self.area(from, to, (0, 1))
    }

    /// The box over a rectangle of columns.
    fn block(&self, area: Rectangle, thick: u8) -> Block {
        let low = self.column(area.x.0, area.z.0);
        let high = self.column(area.x.1, area.z.1);
        let top = self.y.saturating_add(i16::from(thick)).saturating_sub(1);
        Block {
            low,
            high: high.at_height(top),
        }
    }
}

/// How deep columns of a thickness are around a row.
fn span_of(spans: &[(usize, usize); 31], i: usize) -> (usize, usize) {
    match spans.get(i) {
        Some(span) => *span,
        None => (0, 0),
    }
}

/// The better of a box and the one over a rectangle, as thick as can be, or of one layer.
fn better(
    cutter: &Cutter,
    site: &BuildSite,
    patch: &Patch,
    best: (u64, Block),
    area: Rectangle,
) -> (u64, Block) {
    let thick = patch.thickness(area).max(1);
    let mut best = best;
    for t in [thick, 1] {
        let block = patch.block(area, t);
        if let Some(value) = cutter.value(site, block) {
            if value > best.0 {
                best = (value, block);
            }
        }
        if thick == 1 {
            break;
        }
    }
    best
}

/// The better of a box and those of at least a thickness.
fn best_of_level(
    cutter: &Cutter,
    site: &BuildSite,
    patch: &Patch,
    best: (u64, Block),
    level: u8,
) -> (u64, Block) {
    let mut spans = [(0usize, 0usize); 31];
    for i in 0..patch.wide {
        let span = patch.span(i, level);
        if let Some(place) = spans.get_mut(i) {
            *place = span;
        }
    }
    let own = (patch.own_x, patch.own_x);
    let deep = patch.area(patch.own_x, patch.own_x, span_of(&spans, patch.own_x));
    let alone = Rectangle {
        x: own,
        z: (patch.own_z, patch.own_z),
    };
    let mut best = best;
    for area in [patch.rectangle(&spans), patch.line(&spans), deep, alone] {
        best = better(cutter, site, patch, best, area);
    }
    best
}

/// The most valuable box that has a voxel and begins in its layer, with its value.
pub(crate) fn best_box(cutter: &Cutter, site: &BuildSite, seed: Position) -> (u64, Block) {
    let patch = Patch::around(cutter, site, seed);
    let most = patch.run(patch.own_x, patch.own_z).max(1);
    let mut best = (
        0,
        Block {
            low: seed,
            high: seed,
        },
    );
    for k in 0..most {
        let level = most.wrapping_sub(k);
        if patch.is_level(level, most) {
            best = best_of_level(cutter, site, &patch, best, level);
        }
    }
    best
}
