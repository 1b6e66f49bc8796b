//! The matrix between the groups of a step.
ghost use Rattle.std.specs.Prelude.{◌≡◌, ◌+◌, ◌≤◌, ◌==◌, length, IsTrue, MatchOption, None};
ghost use Rattle.std.specs.List.{list_any};
ghost use Rattle.vox_geom.specs.Space.{IsInSpace};
ghost use Rattle.nano_spec.specs.Act.{stays_in_space};
ghost use Rattle.nano_spec.specs.Matrix.{is_full};
ghost use Rattle.nano_spec.specs.Rules.{broken};
ghost use Rattle.step_debugger.specs.Middle.{IsEditOf, matrix_after_some};
ghost use Rattle.step_groups.specs.Judging.{act};

use crate::steps::place_of;
use nano_spec::{Bot, Command};
use std::sync::ledger::Ledger;
use step_machine::Machine;
use system_state::edited_region;
use vox_geom::{Coord, Steps};

/// Returns the effect of a bot's command on a voxel if it changes it: full or void.
fn edit_of(r: u16, bot: &Bot, command: &Command, c: Coord) -> Option<bool>
    requires within { IsInSpace r bot.now.pos }
    requires stays { IsTrue (stays_in_space r (act bot.now command.now)) }
    ensures { IsEditOf (act bot.now command.now) c result }
{
    let edited = edited_region(r, *bot, command)?;
    if edited.region.has(c) {
        return Some(edited.full);
    }
    None
}

/// Returns whether a voxel is full after the groups of the leaders with these bids: the one that changes it decides.
pub(crate) fn full_after<L: Ledger>(
    machine: &Machine,
    next: &[Command],
    begun: &[u8],
    c: Coord,
    steps: &mut Steps<L>,
) -> bool
    requires judged { broken machine.now.state next.now (machine.now.steps + 1) ≡ None }
    requires within { IsInSpace machine.now.state.matrix.resolution c }
    ensures value { result ≡ is_full (matrix_after_some machine.now.state next.now begun.now) c }
    ensures touches { steps.new ≤ steps.old + 1 }
{
    let matrix = machine.matrix();
    let bots = machine.crew().bots();
    for i in 0..bots.len() {
        if place_of(begun, bots[i].bid).is_none() {
            continue;
        }
        if let Some(full) = edit_of(matrix.resolution(), &bots[i], &next[i], c) {
            return full;
        }
    }
    matrix.full_at(c, steps)
}
