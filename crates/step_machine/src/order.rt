//! The order in which the groups of a step are applied.
ghost use Rattle.std.specs.Prelude.{◌≡◌, ◌+◌, ◌≤◌, length, IfSome, IsPermutation};
ghost use Rattle.nano_spec.specs.Act.{acts};
ghost use Rattle.nano_spec.specs.Serial.{leader_bids};
ghost use Rattle.nano_spec.specs.Step.{after};
ghost use Rattle.nano_spec.specs.Work.{volatile_total};
ghost use Rattle.system_state.specs.Bounds.{IsPayable};
ghost use Rattle.step_machine.specs.Settling.{CanTakeTurns};

use nano_spec::Command;
use std::sync::ledger::Ledger;
use system_state::{System, Turns};
use vox_geom::Steps;

/// Applies the groups of a step in the given order of their leaders, or in rising order without one.
pub(crate) fn take_turns<L: Ledger>(
    system: &mut System,
    commands: &[Command],
    turns: &mut Turns,
    order: Option<&[u8]>,
    steps: &mut Steps<L>,
)
    requires can { CanTakeTurns system.old commands.now turns.old }
    requires commands { IfSome order (λ _. length commands.now ≡ length system.old.bots) }
    requires order { IfSome order (λ o. IsPermutation (leader_bids (acts system.old.bots commands.now)) o.now) }
    requires payable { IsPayable system.old.energy }
    ensures value { system.new ≡ after system.old commands.now }
    ensures touches { steps.new ≤ steps.old + volatile_total system.old.matrix (acts system.old.bots commands.now) }
{
    match order {
        Some(order) => system.advance_in_order(commands, turns, order, steps),
        None => system.advance(commands, turns, steps),
    }
}
