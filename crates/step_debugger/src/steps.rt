//! Parts of a step: its commands, and the order of its groups.
ghost use Rattle.std.specs.Prelude.{◌≡◌, ◌+◌, ◌<◌, ◌≤◌, ◌↔◌, false, true, ◌==◌, ◌++◌, length, take, drop, slice_index, IfOk, IfErr, IfNone, IfSome, Some};
ghost use Rattle.std.specs.List.{list_any};
ghost use Rattle.nano_spec.specs.Rules.{broken};
ghost use Rattle.step_machine.specs.Undoing.{IsUndoneBy, MayUndo, state_before};

use arrayvec::ArrayVec;
use bot_crew::MOST_BOTS;
use nano_spec::{Broken, Command, Rule};
use std::sync::ledger::Ledger;
use step_machine::{Machine, Undo};
use vox_geom::{Memory, Steps};

/// Returns the commands of the next step: one for each of `count` bots, as long as there are any.
pub(crate) fn next_commands(commands: &[Command], taken: u32, count: u8) -> &[Command]
    requires { taken ≤ length commands.now }
    ensures { result.now ≡ take count (drop taken commands.now) }
{
    let (_, rest) = commands.split_at(taken as usize);
    let (next, _) = rest.split_at(usize::from(count).min(rest.len()));
    next
}

/// Returns the rule that is broken if some bot has no command.
pub(crate) fn trace_ends(machine: &Machine, next: &[Command]) -> Broken
    requires lacks { length next.now < length machine.now.state.bots }
    requires steps { machine.now.steps < 1073741824 }
    ensures { broken machine.now.state next.now (machine.now.steps + 1) ≡ Some result }
{
    let bot = &machine.crew().bots()[next.len()];
    Broken {
        step: machine.steps_done() + 1,
        bid: bot.bid,
        rule: Rule::TraceEnds,
        at: bot.pos,
    }
}

/// Appends bids.
pub(crate) fn append(order: &mut ArrayVec<u8, MOST_BOTS>, bids: &[u8])
    requires { length order.old.items + length bids.now ≤ MOST_BOTS }
    ensures { order.new.items ≡ order.old.items ++ bids.now }
{
    for bid in bids {
        order.push(*bid);
    }
}

/// Returns the index of a bid among bids.
pub(crate) fn place_of(bids: &[u8], bid: u8) -> Option<usize>
    ensures found { IfSome result (λ i. (i < length bids.now) × (slice_index bids.now i ≡ bid)) }
    ensures none { IfNone result (list_any (λ k. k == bid) bids.now ≡ false) }
{
    for (i, here) in bids.iter().enumerate() {
        if *here == bid {
            return Some(i);
        }
    }
    None
}

/// Returns whether the broken rule drops the begun groups: that of grounding, judged after they act.
pub(crate) fn drops_groups(broken: &Broken) -> bool
    ensures { result ≡ true ↔ broken.now.rule ≡ Rule.Ungrounded }
{
    matches!(broken.rule, Rule::Ungrounded)
}

/// Undoes the step of a note. Returns the number of bots before it.
pub(crate) fn take_back<L: Ledger>(
    machine: &mut Machine,
    undo: Undo,
    steps: &mut Steps<L>,
) -> Result<u8, Memory>
    requires stands { machine.old.spent ≡ false }
    requires may { MayUndo machine.old.state undo }
    ensures count { IfOk result (λ n. n ≡ length undo.crew) }
    ensures value { IfOk result
        (λ _. machine.new ≡ record { state = state_before machine.old.state undo; steps = undo.steps; spent = false }) }
    ensures memory { IfErr result (λ _. machine.new ≡ record machine.old { spent = true }) }
    ensures touches { IfOk result
        (λ _. IsUndoneBy machine.old.state.matrix undo.filled.items undo.voided.items steps.old steps.new) }
{
    machine.undo(&undo, steps)?;
    Ok(undo.crew.count())
}
