//! Steps with notes, and their undo.
ghost use Rattle.std.specs.Prelude.{◌≡◌, ◌<◌, ◌≤◌, false, true, length, IfOk, IfErr, IsPermutation, Some};
ghost use Rattle.nano_spec.specs.Act.{acts};
ghost use Rattle.nano_spec.specs.Serial.{leader_bids, serial};
ghost use Rattle.nano_spec.specs.State.{IsWellFormed};
ghost use Rattle.step_machine.specs.Restoring.{IsNotMade};
ghost use Rattle.step_machine.specs.Stepped.{Stepped};
ghost use Rattle.support_forest.specs.ForestView.{MayAdd, MayRemove};
ghost use Rattle.step_machine.specs.Undoing.{HaveChanged, IsUndoneBy, MayUndo, matrix_before, state_before, without_filled, without_note};

use super::{Machine, StepFault, StepOk, recall_step, tell_made};
use crate::order::take_turns;
use crate::support::refit_back;
use crate::undo::{Undo, settle_noted};
use nano_spec::Command;
use std::sync::ledger::Ledger;
use step_order::every_order;
use support_forest::Forest;
use system_state::System;
use vox_geom::{Coord, Memory, Steps};

/// Restores the state of the system from the note.
fn put_back(system: &mut System, undo: &Undo)
    requires { MayUndo system.old undo.now }
    ensures { system.new ≡ state_before system.old undo.now }
{
    system.set_voxels(undo.filled.as_slice(), false);
    system.set_voxels(undo.voided.as_slice(), true);
    system.set_crew(undo.crew.copy());
    system.set_harmonics(undo.harmonics);
    system.set_energy(undo.energy);
}

/// Restores the forest from before the step of a note, unless the machine is already poisoned.
fn forest_back<L: Ledger>(
    forest: &mut Forest,
    filled: &[Coord],
    voided: &[Coord],
    spent: bool,
    steps: &mut Steps<L>,
) -> Result<(), Memory>
    requires stands { spent ≡ false → forest.old.spent ≡ false }
    requires filled { spent ≡ false → MayRemove forest.old.matrix filled.now }
    requires voided { spent ≡ false → MayAdd (without_filled forest.old.matrix filled.now) voided.now }
    ensures stands { IfOk result (λ _. spent ≡ false → forest.new.spent ≡ false) }
    ensures value { IfOk result (λ _. spent ≡ false
        → forest.new.matrix ≡ matrix_before forest.old.matrix filled.now voided.now) }
    ensures touches { IfOk result (λ _. spent ≡ false
        → IsUndoneBy forest.old.matrix filled.now voided.now steps.old steps.new) }
{
    if spent {
        return Ok(());
    }
    refit_back(forest, filled, voided, steps)
}

impl Machine {
    /// [`Machine::step_in_order`] with a note that can undo the step. After every broken rule the machine is as it was; allocation may
    /// fail in every step, and poisons it.
    pub fn step_noted<L: Ledger>(
        &mut self,
        commands: &[Command],
        order: &[u8],
        steps: &mut Steps<L>,
    ) -> Result<(StepOk, Undo), StepFault>
        requires some { 1 ≤ length self.old.state.bots }
        requires commands { length commands.now ≡ length self.old.state.bots }
        requires order { IsPermutation (leader_bids (acts self.old.state.bots commands.now)) order.now }
        requires steps { self.old.steps < 1073741824 }
        ensures made { IfOk result
            (λ _. Stepped self.old self.new commands.now (without_note result) steps.old steps.new) }
        ensures refused { IfErr result (λ fault. IsNotMade self.old self.new commands.now fault steps.old steps.new) }
        ensures serial { IfOk result (λ _. serial self.old.state commands.now order.now ≡ Some self.new.state) }
        ensures voxels { IfOk result (λ made. HaveChanged self.new.state.matrix made.1) }
        ensures before { IfOk result (λ made. state_before self.new.state made.1 ≡ self.old.state) }
        ensures counted { IfOk result (λ made. made.1.steps ≡ self.old.steps) }
        ensures undo { IfOk result (λ made. IsWellFormed self.old.state → MayUndo self.new.state made.1) }
    {
        every_order();
        if self.spent {
            return Err(StepFault::Spent);
        }
        let step = self.steps + 1;
        self.system.recall();
        recall_step(&self.system, commands);
        if let Some(broken) = self.system.judge(commands, step, &mut self.turns, steps) {
            return Err(StepFault::Broken(broken));
        }
        let undo = match settle_noted(
            self.alloc,
            &self.system,
            commands,
            step,
            &self.turns,
            &mut self.changed,
            &mut self.forest,
            steps,
        ) {
            Ok(undo) => undo,
            Err(fault) => {
                self.spent = fault.is_memory();
                return Err(fault);
            }
        };
        take_turns(
            &mut self.system,
            commands,
            &mut self.turns,
            Some(order),
            steps,
        );
        self.steps = step;
        Ok((tell_made(&self.system), undo))
    }

    /// Undoes the step of a note: the machine returns to the state of the note. A failed allocation poisons the machine.
    pub fn undo<L: Ledger>(&mut self, undo: &Undo, steps: &mut Steps<L>) -> Result<(), Memory>
        requires stands { self.old.spent ≡ false }
        requires may { MayUndo self.old.state undo.now }
        ensures value { IfOk result
            (λ _. self.new ≡ record
            { state = state_before self.old.state undo.now; steps = undo.now.steps; spent = false }) }
        ensures memory { IfErr result (λ _. self.new ≡ record self.old { spent = true }) }
        ensures touches { IfOk result
            (λ _. IsUndoneBy self.old.state.matrix undo.now.filled.items undo.now.voided.items steps.old steps.new) }
    {
        let filled = undo.filled.as_slice();
        let voided = undo.voided.as_slice();
        self.system.recall();
        match refit_back(&mut self.forest, filled, voided, steps) {
            Ok(()) => {}
            Err(Memory) => {
                self.spent = true;
                return Err(Memory);
            }
        }
        put_back(&mut self.system, undo);
        self.steps = undo.steps;
        Ok(())
    }

    /// Undoes the step of a note, whatever the answer. If allocation fails, the machine is poisoned. A poisoned machine stays
    /// poisoned.
    pub fn restore<L: Ledger>(&mut self, undo: &Undo, steps: &mut Steps<L>) -> Result<(), Memory>
        requires { MayUndo self.old.state undo.now }
        ensures state { self.new.state ≡ state_before self.old.state undo.now }
        ensures steps { self.new.steps ≡ undo.now.steps }
        ensures stands { IfOk result (λ _. self.new.spent ≡ self.old.spent) }
        ensures memory { IfErr result (λ _. self.new.spent ≡ true) }
        ensures touches { IfOk result (λ _. self.old.spent ≡ false
            → IsUndoneBy self.old.state.matrix undo.now.filled.items undo.now.voided.items steps.old steps.new) }
    {
        let filled = undo.filled.as_slice();
        let voided = undo.voided.as_slice();
        let back = forest_back(&mut self.forest, filled, voided, self.spent, steps);
        put_back(&mut self.system, undo);
        self.steps = undo.steps;
        if let Err(Memory) = back {
            self.spent = true;
            return Err(Memory);
        }
        Ok(())
    }
}
