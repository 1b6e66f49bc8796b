//! The costs of steps and commands.
ghost use Rattle.std.specs.Prelude.{◌≡◌, ◌≤◌, ◌+◌, ◌*◌, pos, IsFalse};
ghost use Rattle.vox_geom.specs.Point.{Point};
ghost use Rattle.nano_spec.specs.Energy.{group_cost, upkeep_of};
ghost use Rattle.nano_spec.specs.Matrix.{Matrix};
ghost use Rattle.energy_sum.specs.Costs.{cost_of, filling_cost, met_full_count, is_secondary, space_upkeep as space_upkeep_of, voiding_cost, void_count};

use nano_spec::{Command, Harmonics};
use vox_geom::MOST_R;

/// Returns the number of voxels of a matrix.
#[tactic(auto, using(crate::proofs::Bounds::cube_most))]
fn volume(r: u16) -> u32
    requires { r ≤ MOST_R }
    ensures value { result ≡ r * r * r }
    ensures most { result ≤ 64000000 }
{
    let side = u32::from(r);
    side * side * side
}

/// Returns the cost of the space in the upkeep of a step at resolution r, under these harmonics.
pub fn space_upkeep(r: u16, harmonics: Harmonics) -> u32
    requires { r ≤ MOST_R }
    ensures value { result ≡ space_upkeep_of r harmonics }
    ensures most { result ≤ 1920000000 }
{
    let voxels = volume(r);
    match harmonics {
        Harmonics::Low => 3 * voxels,
        Harmonics::High => 30 * voxels,
    }
}

/// Returns the upkeep of a step, by the cost of the space and the number of bots at its start.
#[inline(always)]
pub fn upkeep_by(space: u32, bots: u8) -> i64
    ensures { result ≡ pos (space + 20 * bots) }
{
    i64::from(space) + 20 * i64::from(bots)
}

/// Returns the upkeep of a step at resolution r, by the harmonics and the number of bots at its start.
pub fn upkeep(r: u16, harmonics: Harmonics, bots: u8) -> i64
    requires { r ≤ MOST_R }
    ensures { result ≡ upkeep_of r harmonics bots }
{
    upkeep_by(space_upkeep(r, harmonics), bots)
}

/// Returns the cost to fill voxels, of which `was_void` were void and `was_full` full.
fn filling(was_void: u32, was_full: u32) -> i64
    ensures { result ≡ filling_cost was_void was_full }
{
    12 * i64::from(was_void) + 6 * i64::from(was_full)
}

/// Returns the cost to void voxels, of which `was_void` were void and `was_full` full.
fn voiding(was_void: u32, was_full: u32) -> i64
    ensures { result ≡ voiding_cost was_void was_full }
{
    3 * i64::from(was_void) - 12 * i64::from(was_full)
}

/// Returns the cost of a command, by its row of the table of commands.
fn row_cost(command: Command, was_void: u32, was_full: u32) -> i64
    ensures { result ≡ cost_of command was_void was_full }
{
    match command {
        Command::Halt | Command::Wait | Command::Flip | Command::FusionS(_) => 0,
        Command::SMove(d) => 2 * i64::from(d.diff().mlen()),
        Command::LMove(d, e) => 2 * (i64::from(d.diff().mlen()) + 2 + i64::from(e.diff().mlen())),
        Command::FusionP(_) => -24,
        Command::Fission(_, _) => 24,
        Command::Fill(_) | Command::GFill(_, _) => filling(was_void, was_full),
        Command::Void(_) | Command::GVoid(_, _) => voiding(was_void, was_full),
    }
}

/// Returns the cost of a command that meets this many void and full voxels.
///
/// The cost of a group command is that of the whole group. In a fusion the primary's command has the whole cost, and the
/// secondary's has none.
#[tactic(auto, using(crate::proofs::Prices::cost_is_of_group))]
pub fn command_cost(command: Command, was_void: u32, was_full: u32) -> i64
    ensures value { result ≡ cost_of command was_void was_full }
    ensures group { (m : Matrix) (p : Point) → IsFalse (is_secondary command) → was_void ≡ void_count m p command
        → was_full ≡ met_full_count m p command → result ≡ group_cost m p command }
{
    row_cost(command, was_void, was_full)
}
