//! The effect of a group on the voxels, and the group's cost.
ghost use Rattle.std.specs.Prelude.{◌≡◌, ◌+◌, ◌-◌, ◌≤◌, ◌∷◌, [], cond, All, IsTrue};
ghost use Rattle.vox_geom.specs.Point.{Point, point};
ghost use Rattle.vox_geom.specs.Region.{IsOrdered, span};
ghost use Rattle.vox_geom.specs.Space.{IsInSpace};
ghost use Rattle.nano_spec.specs.Act.{stays_in_space};
ghost use Rattle.nano_spec.specs.Energy.{group_cost};
ghost use Rattle.nano_spec.specs.Matrix.{Matrix};
ghost use Rattle.nano_spec.specs.Step.{matrix_after};
ghost use Rattle.energy_sum.specs.Costs.{met_full_count, void_count};
ghost use Rattle.system_state.specs.Bounds.{IsTurnCost};
ghost use Rattle.system_state.specs.Painting.{full_in, met_count, size_in, void_in, with_cells, with_span};
ghost use Rattle.vox_planes.specs.Voxel.{IsWhole};
ghost use Rattle.step_groups.specs.Judging.{act};

use crate::edited::{EditedRegion, edited_region};
use crate::known::recall;
use energy_sum::{a_group_costs_little, command_cost};
use nano_spec::{Bot, Command};
use std::sync::ledger::Ledger;
use vox_geom::{Coord, Steps};
use vox_planes::Planes;

/// Fills the cells, or voids them if `full` is false.
pub(crate) fn set_cells(matrix: &mut Planes, cells: &[Coord], full: bool)
    requires whole { IsWhole matrix.old }
    requires within { All (λ c. IsInSpace matrix.old.resolution c) cells.now }
    ensures value { matrix.new ≡ with_cells matrix.old cells.now full }
    ensures whole { IsWhole matrix.new }
{
    for c in cells {
        matrix.set(*c, full);
    }
}

/// The numbers of void and of full voxels that a command meets before it edits them.
#[derive(Clone, Copy)]
pub(crate) struct Met {
    pub(crate) void: u32,
    pub(crate) full: u32,
}

/// Fills or voids the region, and returns how many of its voxels were void and how many full.
fn change_region<L: Ledger>(matrix: &mut Planes, edited: EditedRegion, steps: &mut Steps<L>) -> Met
    requires ordered { IsOrdered edited.region }
    requires within { IsInSpace matrix.old.resolution edited.region.high }
    ensures matrix { matrix.new ≡ with_span matrix.old (span edited.region) edited.full }
    ensures void { result.void ≡ void_in matrix.old (span edited.region) }
    ensures full { result.full ≡ full_in matrix.old (span edited.region) }
    ensures touches { steps.new ≤ steps.old + size_in matrix.old (span edited.region) }
{
    matrix.recall();
    let others = matrix.set_region(&edited.region, edited.full, steps);
    met_by(edited.region.size(), others, edited.full)
}

/// Returns the counts for a region of `size` voxels, `others` of which are void (or full, if `full` is false).
fn met_by(size: u32, others: u32, full: bool) -> Met
    requires { others ≤ size }
    ensures void { result.void ≡ cond full others (size - others) }
    ensures full { result.full ≡ cond full (size - others) others }
{
    let same = size - others;
    if full {
        Met {
            void: others,
            full: same,
        }
    } else {
        Met {
            void: same,
            full: others,
        }
    }
}

/// Returns the cost of a group in energy, from its leader's command and the counts of voxels that the command meets.
fn turn_cost(command: &Command, met: Met) -> i64
    ensures cost { (m : Matrix) (p : Point) → met.void ≡ void_count m p command.now
        → met.full ≡ met_full_count m p command.now → result ≡ group_cost m p command.now }
{
    if let Command::FusionS(d) = command {
        return command_cost(Command::FusionP(*d), met.void, met.full);
    }
    command_cost(*command, met.void, met.full)
}

/// Edits the voxels of a group, given its leader, and returns how many of them were void and how many full.
fn change_voxels<L: Ledger>(
    matrix: &mut Planes,
    bot: Bot,
    command: &Command,
    steps: &mut Steps<L>,
) -> Met
    requires within { IsInSpace matrix.old.resolution bot.pos }
    requires stays { IsTrue (stays_in_space matrix.old.resolution (act bot command.now)) }
    ensures matrix { matrix.new ≡ matrix_after matrix.old (act bot command.now ∷ []) }
    ensures void { result.void ≡ void_count matrix.old (point bot.pos) command.now }
    ensures full { result.full ≡ met_full_count matrix.old (point bot.pos) command.now }
    ensures touches { steps.new ≤ steps.old + met_count matrix.old bot command.now }
{
    match edited_region(matrix.resolution(), bot, command) {
        Some(edited) => change_region(matrix, edited, steps),
        None => Met { void: 0, full: 0 },
    }
}

/// Edits the voxels of a group, given its leader, and returns the group's cost in energy.
pub(crate) fn pay_turn<L: Ledger>(
    matrix: &mut Planes,
    bot: Bot,
    command: &Command,
    steps: &mut Steps<L>,
) -> i64
    requires within { IsInSpace matrix.old.resolution bot.pos }
    requires stays { IsTrue (stays_in_space matrix.old.resolution (act bot command.now)) }
    ensures matrix { matrix.new ≡ matrix_after matrix.old (act bot command.now ∷ []) }
    ensures cost { result ≡ group_cost matrix.old (point bot.pos) command.now }
    ensures small { IsTurnCost result }
    ensures touches { steps.new ≤ steps.old + met_count matrix.old bot command.now }
{
    a_group_costs_little();
    recall(command);
    let met = change_voxels(matrix, bot, command, steps);
    turn_cost(command, met)
}
