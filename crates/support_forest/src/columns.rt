//! The first forest of a matrix: supported columns are written without a search, the full voxels above a gap are
//! added one by one.
ghost use Rattle.std.specs.Prelude.{◌≡◌, ◌+◌, ◌*◌, ◌%◌, ◌<◌, ◌≤◌, IfOk, Some, length};
ghost use Rattle.nano_spec.specs.Model.{volume};
ghost use Rattle.vox_geom.specs.declared.coordinate.Coord.{Coord as Coordinate};
ghost use Rattle.support_forest.specs.Grid.{slot_of, word_at};
ghost use Rattle.support_forest.specs.Columns.{CanScan, IsScanned, column_word, scan_index};
ghost use Rattle.support_forest.specs.Indices.{voxel_in};
ghost use Rattle.support_forest.specs.ForestView.{matrix_of};
ghost use Rattle.support_forest.specs.Words.{AreExact};

use crate::add::add_cells;
use crate::cells::{BRICK_SIDE, Cells};
use crate::lists::Lists;
use std::alloc::{AllocError, Global};
use std::sync::ledger::Ledger;
use vox_geom::{Coord, Steps};
use vox_planes::Planes;

/// How many columns are scanned at a time: the bits of one word of a plane.
const COLUMNS: u16 = 64;

/// Returns the word of a voxel whose level is its y, since all voxels below it are full.
#[inline(always)]
fn word_in_column(y: u16) -> u32
    ensures { result ≡ column_word y }
{
    if y == 0 { 8 } else { 8 * u32::from(y) + 11 }
}

/// Writes the supported voxels of a part of a brick's row and appends its other full voxels to `rest`.
///
/// Bit k of `bits` says whether voxel k is full, bit k of `supported` whether all voxels below it are full too; `own` is
/// the slot of the brick.
fn raise_each<L: Ledger>(
    cells: &mut Cells,
    planes: &Planes,
    first: Coord,
    count: u16,
    bits: u64,
    supported: u64,
    own: u32,
    rest: &mut Vec<Coord>,
    steps: &mut Steps<L>,
) -> Result<(), AllocError>
    requires can { CanScan planes.now cells.old first count bits supported rest.old.items }
    requires brick { first.z % 8 + count ≤ 8 }
    requires own { slot_of cells.old first ≡ Some own }
    ensures raised { IfOk result (λ _. IsScanned planes.now cells.new (scan_index first + count) rest.new.items) }
    ensures touches { IfOk result
        (λ _. steps.new + 20 * length rest.new.items ≤ steps.old + 20 * length rest.old.items + 20 * count) }
{
    let word = word_in_column(first.y);
    for k in 0..count {
        let at = Coord {
            z: first.z + k,
            ..first
        };
        if (supported >> k) % 2 == 1 {
            cells.write(own, at, 0, word, steps);
            continue;
        }
        if (bits >> k) % 2 != 1 {
            continue;
        }
        rest.push(at)?;
    }
    Ok(())
}

/// Like [`raise_each`], but looks the slot up first; a whole row of supported voxels is written at once.
fn raise_part<L: Ledger>(
    cells: &mut Cells,
    planes: &Planes,
    first: Coord,
    count: u16,
    bits: u64,
    supported: u64,
    rest: &mut Vec<Coord>,
    steps: &mut Steps<L>,
) -> Result<(), AllocError>
    requires can { CanScan planes.now cells.old first count bits supported rest.old.items }
    requires brick { first.z % 8 + count ≤ 8 }
    ensures raised { IfOk result (λ _. IsScanned planes.now cells.new (scan_index first + count) rest.new.items) }
    ensures touches { IfOk result
        (λ _. steps.new + 20 * length rest.new.items ≤ steps.old + 20 * length rest.old.items + 20 * count) }
{
    if bits % 256 == 0 {
        return Ok(());
    }
    let index = cells.index_of(first);
    let own = cells.take_slot_at(index)?;
    if supported % 256 == 255 && count == BRICK_SIDE {
        cells.write_row(own, index, word_in_column(first.y), steps);
        return Ok(());
    }
    raise_each(
        cells, planes, first, count, bits, supported, own, rest, steps,
    )
}

/// Like [`raise_part`], for up to 64 voxels of a row, brick by brick.
fn raise_row<L: Ledger>(
    cells: &mut Cells,
    planes: &Planes,
    first: Coord,
    count: u16,
    bits: u64,
    supported: u64,
    rest: &mut Vec<Coord>,
    steps: &mut Steps<L>,
) -> Result<(), AllocError>
    requires can { CanScan planes.now cells.old first count bits supported rest.old.items }
    requires whole { first.z % 8 ≡ 0 }
    ensures raised { IfOk result (λ _. IsScanned planes.now cells.new (scan_index first + count) rest.new.items) }
    ensures touches { IfOk result
        (λ _. steps.new + 20 * length rest.new.items ≤ steps.old + 20 * length rest.old.items + 20 * count) }
{
    if bits == 0 {
        return Ok(());
    }
    let mut k = 0;
    while k < count {
        let part = (count - k).min(BRICK_SIDE);
        let at = Coord {
            z: first.z + k,
            ..first
        };
        raise_part(
            cells,
            planes,
            at,
            part,
            bits >> k,
            supported >> k,
            rest,
            steps,
        )?;
        k += part;
    }
    Ok(())
}

/// Writes the supported voxels of up to 64 columns side by side along z, layer by layer from the floor up, and appends
/// their other full voxels to `rest`.
fn raise_columns<L: Ledger>(
    cells: &mut Cells,
    planes: &Planes,
    x: u16,
    z: u16,
    count: u16,
    rest: &mut Vec<Coord>,
    steps: &mut Steps<L>,
) -> Result<(), AllocError>
    requires x { x < planes.now.resolution }
    requires z { z < planes.now.resolution }
    requires whole { z % 64 ≡ 0 }
    requires few { count ≤ 64 }
    requires row { z + count ≤ planes.now.resolution }
    requires most { count < 64 → z + count ≡ planes.now.resolution }
    requires raised { IsScanned planes.now cells.old (262144 * x + 512 * z) rest.old.items }
    ensures raised { IfOk result (λ _. IsScanned planes.now cells.new (262144 * x + 512 * z + 32768) rest.new.items) }
    ensures touches { IfOk result
        (λ _. steps.new + 20 * length rest.new.items
        ≤ steps.old + 20 * length rest.old.items + 21 * (planes.now.resolution * count)) }
{
    planes.recall();
    let mut supported = u64::MAX;
    for y in 0..planes.resolution() {
        if planes.is_void_from(y, steps) {
            return Ok(());
        }
        let first = Coord { x, y, z };
        let bits = planes.peek_row(first, u32::from(count), u64::MAX, steps);
        supported &= bits;
        raise_row(cells, planes, first, count, bits, supported, rest, steps)?;
    }
    Ok(())
}

/// Like [`raise_columns`], for all columns of one x.
fn raise_wall<L: Ledger>(
    cells: &mut Cells,
    planes: &Planes,
    x: u16,
    rest: &mut Vec<Coord>,
    steps: &mut Steps<L>,
) -> Result<(), AllocError>
    requires x { x < planes.now.resolution }
    requires raised { IsScanned planes.now cells.old (262144 * x) rest.old.items }
    ensures raised { IfOk result (λ _. IsScanned planes.now cells.new (262144 * (x + 1)) rest.new.items) }
    ensures touches { IfOk result
        (λ _. steps.new + 20 * length rest.new.items
        ≤ steps.old + 20 * length rest.old.items + 21 * (planes.now.resolution * planes.now.resolution)) }
{
    planes.recall();
    let r = planes.resolution();
    let mut z = 0;
    while z < r {
        let count = (r - z).min(COLUMNS);
        raise_columns(cells, planes, x, z, count, rest, steps)?;
        z += COLUMNS;
    }
    Ok(())
}

/// Writes all supported voxels of a matrix and appends its other full voxels to `rest`.
fn raise_all<L: Ledger>(
    cells: &mut Cells,
    planes: &Planes,
    rest: &mut Vec<Coord>,
    steps: &mut Steps<L>,
) -> Result<(), AllocError>
    requires { IsScanned planes.now cells.old 0 rest.old.items }
    ensures raised { IfOk result (λ _. IsScanned planes.now cells.new (262144 * planes.now.resolution) rest.new.items) }
    ensures touches { IfOk result
        (λ _. steps.new + 20 * length rest.new.items
        ≤ steps.old + 20 * length rest.old.items + 21 * volume planes.now.resolution) }
{
    for x in 0..planes.resolution() {
        raise_wall(cells, planes, x, rest, steps)?;
    }
    Ok(())
}

/// Fills void `cells` with the full voxels of a matrix.
///
/// Takes at most 91 touches a voxel. Fails if allocation fails.
pub fn fill_cells<L: Ledger>(
    alloc: Global,
    cells: &mut Cells,
    planes: &Planes,
    lists: &mut Lists,
    steps: &mut Steps<L>,
) -> Result<(), AllocError>
    requires resolution { cells.old.resolution ≡ planes.now.resolution }
    requires void { (c : Coordinate) → word_at cells.old c ≡ 0 }
    ensures exact { IfOk result (λ _. AreExact cells.new.resolution (word_at cells.new)) }
    ensures matrix { IfOk result (λ _. matrix_of cells.new ≡ planes.now) }
    ensures touches { IfOk result (λ _. steps.new ≤ steps.old + 91 * volume planes.now.resolution) }
{
    planes.recall();
    let mut rest = lists.take_rest(alloc);
    raise_all(cells, planes, &mut rest, steps)?;
    add_cells(alloc, cells, rest.as_slice(), lists, steps)?;
    lists.rest = rest;
    Ok(())
}
