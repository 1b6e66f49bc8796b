//! The voxels of a model in the making, a byte each.
use crate::spots::Spot;
use std::alloc::Global;
use vox_geom::{Coord, Memory};
use vox_planes::Planes;
use voxel_reads::is_full;

/// More than any resolution.
const MOST_SIDE: u16 = 1000;

/// The state of a voxel.
#[derive(Clone, Copy, PartialEq, Eq, Debug)]
pub(crate) enum Cell {
    /// It stays void.
    Blank,
    /// It is to be filled, and is not attached yet.
    Wanted,
    /// It is to be filled, and is attached: on the floor, or above or next to one that was filled.
    Ready,
    /// It was filled.
    Made,
}

impl Cell {
    /// Returns whether the voxel is to be filled now: only if it is attached, unless voxels may float.
    fn may_fill(self, float: bool) -> bool {
        self == Cell::Ready || (float && self == Cell::Wanted)
    }
}

/// The number of voxels of a row along z that may be filled: attached ones, or any if voxels may float.
#[derive(Clone, Copy, PartialEq, Eq, Debug)]
struct Row {
    ready: u16,
    wanted: u16,
}

impl Row {
    /// Returns the row after the state of a voxel changed.
    fn with(self, was: Cell, now: Cell) -> Row {
        let ready = u16::from(now.may_fill(false)).wrapping_sub(u16::from(was.may_fill(false)));
        let wanted = u16::from(now.may_fill(true)).wrapping_sub(u16::from(was.may_fill(true)));
        Row {
            ready: self.ready.wrapping_add(ready),
            wanted: self.wanted.wrapping_add(wanted),
        }
    }
}

/// Returns whether the voxel of a model is full; false outside it.
fn is_full_at(planes: &Planes, c: Coord) -> bool {
    let r = planes.resolution();
    c.x < r && c.y < r && c.z < r && is_full(planes, c)
}

/// A cube of voxels with its rows along z, and the number of voxels to fill.
#[derive(Drop)]
pub(crate) struct Site {
    side: i16,
    width: u16,
    cells: Vec<Cell>,
    rows: Vec<Row>,
    wanted: u64,
}

impl Site {
    /// Returns the voxels of a target, with x and z exchanged if `turned`.
    pub(crate) fn of(alloc: Global, target: &Planes, turned: bool) -> Result<Site, Memory> {
        let side = target.resolution().min(MOST_SIDE);
        let n = usize::from(side);
        let mut site = Site {
            side: side as i16,
            width: side,
            cells: Vec::with_capacity(alloc, n * n * n)?,
            rows: Vec::with_capacity(alloc, n * n)?,
            wanted: 0,
        };
        for x in 0..side {
            site.add_columns(target, x, turned)?;
        }
        Ok(site)
    }

    /// Adds the voxels of a target in the columns of one x, row by row.
    fn add_columns(&mut self, target: &Planes, x: u16, turned: bool) -> Result<(), Memory> {
        for y in 0..self.width {
            self.add_row(target, x, y, turned)?;
        }
        Ok(())
    }

    /// Adds the voxels of a target in a row along z.
    fn add_row(&mut self, target: &Planes, x: u16, y: u16, turned: bool) -> Result<(), Memory> {
        let wanted = if y == 0 { Cell::Ready } else { Cell::Wanted };
        let mut row = Row {
            ready: 0,
            wanted: 0,
        };
        for z in 0..self.width {
            let c = if turned {
                Coord { x: z, y, z: x }
            } else {
                Coord { x, y, z }
            };
            let full = is_full_at(target, c);
            let cell = if full { wanted } else { Cell::Blank };
            row = row.with(Cell::Blank, cell);
            self.cells.push(cell).map_err(|_| Memory)?;
        }
        self.wanted = self.wanted.wrapping_add(u64::from(row.wanted));
        self.rows.push(row).map_err(|_| Memory)
    }

    /// Returns the number of voxels of the target.
    pub(crate) fn wanted_voxels(&self) -> u64 {
        self.wanted
    }

    /// Returns the number of voxels along each axis.
    pub(crate) fn side(&self) -> i16 {
        self.side
    }

    /// Returns the index of a voxel, x first, then y, then z, or `None` outside the space.
    pub(crate) fn number(&self, c: Spot) -> Option<u32> {
        let n = self.side;
        if c.x < 0 || c.y < 0 || c.z < 0 || c.x >= n || c.y >= n || c.z >= n {
            return None;
        }
        let side = n as u32;
        let row = (c.x as u32).wrapping_mul(side).wrapping_add(c.y as u32);
        Some(row.wrapping_mul(side).wrapping_add(c.z as u32))
    }

    /// Returns the state of a voxel.
    fn cell(&self, c: Spot) -> Cell {
        let Some(number) = self.number(c) else {
            return Cell::Blank;
        };
        match self.cells.get(number as usize) {
            Some(cell) => *cell,
            None => Cell::Blank,
        }
    }

    /// Returns the number of voxels along each axis, as a length.
    pub(crate) fn width(&self) -> usize {
        usize::from(self.width)
    }

    /// Returns the number of voxels.
    pub(crate) fn count(&self) -> usize {
        self.cells.len()
    }

    /// Returns the voxel with an index.
    pub(crate) fn spot(&self, number: u32) -> Spot {
        let side = (self.side.max(1) as u32).max(1);
        let row = number / side;
        Spot {
            x: (row / side).min(1000) as i16,
            y: (row % side).min(1000) as i16,
            z: (number % side).min(1000) as i16,
        }
    }

    /// Returns whether a voxel is to be filled, and is not yet.
    pub(crate) fn is_wanted(&self, c: Spot) -> bool {
        self.may_fill(c, true)
    }

    /// Returns whether the voxel with an index was filled.
    pub(crate) fn is_number_made(&self, number: u32) -> bool {
        match self.cells.get(number as usize) {
            Some(cell) => *cell == Cell::Made,
            None => false,
        }
    }

    /// Returns whether a voxel was filled.
    pub(crate) fn is_made(&self, c: Spot) -> bool {
        self.cell(c) == Cell::Made
    }

    /// Returns whether a voxel is full in the target.
    pub(crate) fn is_target(&self, c: Spot) -> bool {
        self.cell(c) != Cell::Blank
    }

    /// Returns whether a voxel may be filled now: if it is attached, or if voxels may float.
    pub(crate) fn may_fill(&self, c: Spot, float: bool) -> bool {
        self.cell(c).may_fill(float)
    }

    /// Returns whether some voxel of a row along z may be filled now.
    pub(crate) fn may_fill_in_row(&self, x: i16, y: i16, float: bool) -> bool {
        let Some(number) = self.number(Spot { x, y, z: 0 }) else {
            return false;
        };
        match self.rows.get(number as usize / self.width().max(1)) {
            Some(row) => row.ready > 0 || (float && row.wanted > 0),
            None => false,
        }
    }

    /// Sets the state of a voxel.
    fn set(&mut self, c: Spot, to: Cell) {
        let Some(number) = self.number(c) else {
            return;
        };
        let number = number as usize;
        let was = self.cell(c);
        if let Some(cell) = self.cells.get_mut(number) {
            *cell = to;
        }
        let width = self.width().max(1);
        if let Some(row) = self.rows.get_mut(number / width) {
            *row = row.with(was, to);
        }
    }

    /// Marks a voxel as to be filled, before any is.
    pub(crate) fn want(&mut self, c: Spot) {
        let to = if c.y == 0 { Cell::Ready } else { Cell::Wanted };
        self.set(c, to);
    }

    /// Marks a voxel as attached, if it is to be filled.
    fn attach(&mut self, c: Spot) {
        if self.cell(c) == Cell::Wanted {
            self.set(c, Cell::Ready);
        }
    }

    /// Marks a voxel as filled.
    pub(crate) fn make(&mut self, c: Spot) {
        self.set(c, Cell::Made);
        self.attach(c.above());
        for (dx, dz) in [(-1, 0), (1, 0), (0, -1), (0, 1)] {
            self.attach(c.beside(dx, dz));
        }
    }

    /// Marks all voxels to be filled as filled.
    pub(crate) fn make_all(&mut self) {
        for i in 0..self.cells.len() {
            if let Some(cell) = self.cells.get_mut(i) {
                if *cell != Cell::Blank {
                    *cell = Cell::Made;
                }
            }
        }
        for i in 0..self.rows.len() {
            if let Some(row) = self.rows.get_mut(i) {
                row.ready = 0;
                row.wanted = 0;
            }
        }
    }

    /// Marks a voxel as void for good.
    pub(crate) fn clear(&mut self, c: Spot) {
        self.set(c, Cell::Blank);
    }
}
