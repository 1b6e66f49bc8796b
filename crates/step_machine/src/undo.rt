//! The notes of steps, used to undo them.
ghost use Rattle.std.specs.Prelude.{◌≡◌, ◌+◌, ◌≤◌, [], ◌∷◌, length, take, drop, IfOk, IfErr, IfSome};
ghost use Rattle.step_machine.specs.Restoring.{IsRestored};
ghost use Rattle.step_machine.specs.Settling.{CanBeSettled, IsRefitted, IsSettled};
ghost use Rattle.step_machine.specs.Undoing.{IsNote};
ghost use Rattle.step_machine.specs.declared.TheConstants.{MOST_CHANGED};

use crate::MOST_CHANGED;
use crate::machine::StepFault;
use crate::support::{refit, refit_back, settle_refitted};
use bot_crew::Crew;
use nano_spec::{Command, Harmonics};
use std::alloc::Global;
use std::sync::ledger::Ledger;
use support_forest::Forest;
use system_state::{System, Turns};
use vox_geom::{Coord, Memory, Steps};
use vox_planes::ChangeList;

/// The note of a step: the state before it, and the voxels that became full and void.
#[derive(Drop)]
pub struct Undo {
    pub crew: Crew,
    pub harmonics: Harmonics,
    pub energy: i64,
    pub steps: u32,
    pub filled: ChangeList,
    pub voided: ChangeList,
}

impl Undo {
    /// Returns the only voxel that can float after the step, if `floating` voxels floated before it and that is enough to know one: the
    /// voxel that it filled, if it changed no other and none floated.
    fn only_float(&self, floating: u32) -> Option<Coord>
        ensures floating { IfSome result (λ _. floating ≡ 0) }
        ensures filled { IfSome result (λ c. self.now.filled.items ≡ c ∷ []) }
        ensures voided { IfSome result (λ _. self.now.voided.items ≡ []) }
    {
        let filled = self.filled.as_slice();
        if floating == 0 && self.voided.as_slice().is_empty() && filled.len() == 1 {
            return Some(filled[0]);
        }
        None
    }
}

/// Returns a list of the same coordinates.
fn list_of(alloc: Global, cells: &[Coord]) -> Result<ChangeList, Memory>
    requires { length cells.now ≤ 64000000 }
    ensures { IfOk result (λ l. l.items ≡ cells.now) }
{
    let mut list = ChangeList::with_room(alloc, cells.len() as u32)?;
    for c in cells {
        list.push(*c);
    }
    Ok(list)
}

/// Returns the note of a step: the first `voided` of the `changed` voxels became void, the others full.
fn note(
    alloc: Global,
    system: &System,
    steps_done: u32,
    changed: &[Coord],
    voided: usize,
) -> Result<Undo, Memory>
    requires voided { voided ≤ length changed.now }
    requires few { length changed.now ≤ 64000000 }
    ensures crew { IfOk result (λ undo. undo.crew ≡ system.now.bots) }
    ensures harmonics { IfOk result (λ undo. undo.harmonics ≡ system.now.harmonics) }
    ensures energy { IfOk result (λ undo. undo.energy ≡ system.now.energy) }
    ensures steps { IfOk result (λ undo. undo.steps ≡ steps_done) }
    ensures voids { IfOk result (λ undo. undo.voided.items ≡ take voided changed.now) }
    ensures fills { IfOk result (λ undo. undo.filled.items ≡ drop voided changed.now) }
{
    let (voided, filled) = changed.split_at(voided);
    let voided = list_of(alloc, voided)?;
    let filled = list_of(alloc, filled)?;
    Ok(Undo {
        crew: system.crew().copy(),
        harmonics: system.harmonics(),
        energy: system.energy(),
        steps: steps_done,
        filled,
        voided,
    })
}

/// Updates the forest after the groups of a step, and returns the note of the step. Allocation may fail in every step.
fn refit_noted<L: Ledger>(
    alloc: Global,
    system: &System,
    commands: &[Command],
    step: u32,
    turns: &Turns,
    list: &mut ChangeList,
    forest: &mut Forest,
    steps: &mut Steps<L>,
) -> Result<Undo, Memory>
    requires step { 1 ≤ step }
    requires can { CanBeSettled system.now commands.now step turns.now list.old forest.old }
    ensures refitted { IfOk result (λ _. IsRefitted system.now commands.now forest.new steps.old steps.new) }
    ensures note { IfOk result (λ undo. IsNote system.now commands.now step undo) }
    ensures room { MOST_CHANGED ≤ list.new.spare + length list.new.items }
{
    system.recall();
    let voided = refit(system, commands, turns, list, forest, steps)?;
    note(alloc, system, step - 1, list.as_slice(), voided)
}

/// Returns the outcome of a step that breaks no rule at its start, before its groups act: the updated forest and the note of the
/// step. If a voxel would float under Low, the forest is restored. Allocation may fail in every step.
pub(crate) fn settle_noted<L: Ledger>(
    alloc: Global,
    system: &System,
    commands: &[Command],
    step: u32,
    turns: &Turns,
    list: &mut ChangeList,
    forest: &mut Forest,
    steps: &mut Steps<L>,
) -> Result<Undo, StepFault>
    requires step { 1 ≤ step }
    requires can { CanBeSettled system.now commands.now step turns.now list.old forest.old }
    ensures settled { IfOk result (λ _. IsSettled system.now commands.now step forest.new steps.old steps.new) }
    ensures restored { IfErr result
        (λ fault. IsRestored system.now commands.now step fault forest.new steps.old steps.new) }
    ensures note { IfOk result (λ undo. IsNote system.now commands.now step undo) }
    ensures room { MOST_CHANGED ≤ list.new.spare + length list.new.items }
{
    system.recall();
    let floating = forest.floating();
    let undo = refit_noted(alloc, system, commands, step, turns, list, forest, steps)?;
    let least = undo.only_float(floating);
    match settle_refitted(system, commands, step, least, forest, steps) {
        Ok(()) => Ok(undo),
        Err(fault) => {
            refit_back(
                forest,
                undo.filled.as_slice(),
                undo.voided.as_slice(),
                steps,
            )?;
            Err(fault)
        }
    }
}
