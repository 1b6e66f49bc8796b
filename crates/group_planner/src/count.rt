//! The number of rows and runs of a model.
ghost use Rattle.std.specs.Prelude.{◌≡◌, ◌*◌, ◌<◌, ◌≤◌};
ghost use Rattle.group_planner.specs.Rows.{is_row as is_row_of, rows as rows_of, rows_of_layer, runs as runs_of, runs_of_layer, runs_of_row};

use crate::run::next_run;
use vox_planes::Planes;

/// Returns whether the line of x and y is a row, that is, has a full voxel.
fn is_row(planes: &Planes, x: u16, y: u16) -> bool
    requires x { x < planes.now.resolution }
    requires y { y < planes.now.resolution }
    ensures { result ≡ is_row_of planes.now x y }
{
    match next_run(planes, x, y, 0) {
        Some(_) => true,
        None => false,
    }
}

/// Returns the number of rows of a layer.
fn layer_rows(planes: &Planes, y: u16) -> u32
    requires { y < planes.now.resolution }
    ensures value { result ≡ rows_of_layer planes.now y }
    ensures most { result ≤ planes.now.resolution }
{
    let mut rows = 0;
    for x in 0..planes.resolution() {
        if is_row(planes, x, y) {
            rows += 1;
        }
    }
    rows
}

/// Returns the number of rows of a model: lines of fixed x and y that have a full voxel. Allocates nothing.
pub fn rows(planes: &Planes) -> u32
    ensures value { result ≡ rows_of planes.now }
    ensures most { result ≤ planes.now.resolution * planes.now.resolution }
{
    let mut rows = 0;
    for y in 0..planes.resolution() {
        rows += layer_rows(planes, y);
    }
    rows
}

/// Returns the number of runs of a row.
fn row_runs(planes: &Planes, x: u16, y: u16) -> u32
    requires x { x < planes.now.resolution }
    requires y { y < planes.now.resolution }
    ensures value { result ≡ runs_of_row planes.now x y }
    ensures most { result ≤ planes.now.resolution }
{
    let mut runs = 0;
    let mut z = 0;
    while let Some(run) = next_run(planes, x, y, z) {
        runs += 1;
        z = run.end;
    }
    runs
}

/// Returns the number of runs of a layer.
fn layer_runs(planes: &Planes, y: u16) -> u32
    requires { y < planes.now.resolution }
    ensures value { result ≡ runs_of_layer planes.now y }
    ensures most { result ≤ planes.now.resolution * planes.now.resolution }
{
    let mut runs = 0;
    for x in 0..planes.resolution() {
        runs += row_runs(planes, x, y);
    }
    runs
}

/// Returns the number of runs of a model: maximal pieces of full voxels in a row, each cut from its least z into pieces of at most
/// 31. Allocates nothing.
pub fn runs(planes: &Planes) -> u32
    ensures value { result ≡ runs_of planes.now }
    ensures most { result ≤ planes.now.resolution * planes.now.resolution * planes.now.resolution }
{
    let mut runs = 0;
    for y in 0..planes.resolution() {
        runs += layer_runs(planes, y);
    }
    runs
}
