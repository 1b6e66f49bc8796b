//! The support forest before and after a step.
ghost use Rattle.std.specs.Prelude.{◌≡◌, ℕ, ◌+◌, ◌≤◌, ◌==◌, [], ◌∷◌, ◌++◌, true, false, length, count_by, IfOk, IfErr, IfSome, IfNone, MatchBool, None, Err};
ghost use Rattle.nano_spec.specs.declared.system.Harmonics.TheVariants.{Low};
ghost use Rattle.nano_spec.specs.Act.{acts};
ghost use Rattle.nano_spec.specs.Cutting.{AreCommands};
ghost use Rattle.nano_spec.specs.Grounded.{FirstUngrounded};
ghost use Rattle.nano_spec.specs.Matrix.{is_full};
ghost use Rattle.nano_spec.specs.Rules.{broken as broken_of};
ghost use Rattle.nano_spec.specs.Step.{after};
ghost use Rattle.nano_spec.specs.Work.{volatile_total};
ghost use Rattle.vox_planes.specs.Layers.{bit_index};
ghost use Rattle.support_forest.specs.ForestView.{AreAdded, AreRemoved, IsCheap, MayAdd, MayRemove};
ghost use Rattle.step_machine.specs.Edits.{edits_of, is_edit};
ghost use Rattle.step_machine.specs.Settling.{CanBeSettled, CanEditOne, CanRefit, CanTakeTurns, FloatsAtMost, IsPaidBy, IsPrepared, IsRefitted, IsSettled, IsUnsettled};
ghost use Rattle.step_machine.specs.Undoing.{IsUndoneBy, matrix_before, without_filled};
ghost use Rattle.step_machine.specs.declared.TheConstants.{MOST_CHANGED};

use crate::MOST_CHANGED;
use crate::changes::list_changes;
use crate::grounding::{find_ungrounded, harmonics_after};
use crate::machine::StepFault;
use crate::one_region::{only_region, refit_region};
use nano_spec::{Broken, Command, Rule};
use std::sync::ledger::Ledger;
use support_forest::Forest;
use system_state::{System, Turns};
use vox_geom::{Coord, Memory, Near, Steps};
use vox_planes::ChangeList;

/// Removes cells from the forest. Allocation may fail only if there are some.
#[inline(always)]
fn remove<L: Ledger>(
    forest: &mut Forest,
    cells: &[Coord],
    steps: &mut Steps<L>,
) -> Result<(), Memory>
    requires stands { forest.old.spent ≡ false }
    requires cells { MayRemove forest.old.matrix cells.now }
    ensures value { IfOk result (λ _. AreRemoved forest.old.matrix forest.new.matrix cells.now) }
    ensures stands { IfOk result (λ _. forest.new.spent ≡ false) }
    ensures touches { IfOk result (λ _. IsCheap forest.old.matrix forest.new.matrix cells.now 100 steps.old steps.new) }
    ensures some { IfErr result (λ _. 1 ≤ length cells.now) }
{
    forest.recall();
    if cells.is_empty() {
        return Ok(());
    }
    match forest.remove(cells, steps) {
        Ok(()) => Ok(()),
        Err(_) => Err(Memory),
    }
}

/// Adds cells to the forest. Allocation may fail only if there are some.
#[inline(always)]
fn add<L: Ledger>(forest: &mut Forest, cells: &[Coord], steps: &mut Steps<L>) -> Result<(), Memory>
    requires cells { MayAdd forest.old.matrix cells.now }
    requires stands { forest.old.spent ≡ false }
    ensures value { IfOk result (λ _. AreAdded forest.old.matrix forest.new.matrix cells.now) }
    ensures touches { IfOk result (λ _. IsCheap forest.old.matrix forest.new.matrix cells.now 100 steps.old steps.new) }
    ensures stands { IfOk result (λ _. forest.new.spent ≡ false) }
    ensures some { IfErr result (λ _. 1 ≤ length cells.now) }
{
    forest.recall();
    if !cells.is_empty() {
        return match forest.add(cells, steps) {
            Ok(()) => Ok(()),
            Err(_) => Err(Memory),
        };
    }
    Ok(())
}

/// Lists the voxels that the groups of a step change: first those that they void, whose number it returns, then those that they
/// fill.
fn list_edits<L: Ledger>(
    system: &System,
    commands: &[Command],
    turns: &Turns,
    list: &mut ChangeList,
    steps: &mut Steps<L>,
) -> usize
    requires can { CanTakeTurns system.now commands.now turns.now }
    requires commands { AreCommands commands.now }
    requires room { MOST_CHANGED ≤ list.old.spare + length list.old.items }
    ensures items { list.new.items ≡ edits_of system.now commands.now true ++ edits_of system.now commands.now false }
    ensures voided { result ≡ length (edits_of system.now commands.now true) }
    ensures room { MOST_CHANGED ≤ list.new.spare + length list.new.items }
    ensures touches { steps.new ≤ steps.old + volatile_total system.now.matrix (acts system.now.bots commands.now) }
{
    system.recall();
    list.clear();
    list_changes(system, commands, turns, true, list, steps);
    let voided = list.as_slice().len();
    list_changes(system, commands, turns, false, list, steps);
    voided
}

/// Updates the forest after the groups of a step: it loses the voided voxels, then gains the filled ones. Allocation may fail only
/// if some command fills or voids.
#[inline(always)]
fn refit_cells<L: Ledger>(
    system: &System,
    commands: &[Command],
    removed: &[Coord],
    added: &[Coord],
    forest: &mut Forest,
    steps: &mut Steps<L>,
) -> Result<(), Memory>
    requires can { CanRefit system.now commands.now forest.old }
    requires removed { removed.now ≡ edits_of system.now commands.now true }
    requires added { added.now ≡ edits_of system.now commands.now false }
    ensures refitted { IfOk result
        (λ _. (before : ℕ) → steps.old ≤ before + volatile_total system.now.matrix (acts system.now.bots commands.now)
        → IsRefitted system.now commands.now forest.new before steps.new) }
    ensures edits { IfErr result (λ _. 1 ≤ count_by is_edit commands.now) }
{
    system.recall();
    remove(forest, removed, steps)?;
    add(forest, added, steps)?;
    Ok(())
}

/// [`refit_cells`] that first lists the voxels: the voided ones, whose number it returns, then the filled ones.
pub(crate) fn refit<L: Ledger>(
    system: &System,
    commands: &[Command],
    turns: &Turns,
    list: &mut ChangeList,
    forest: &mut Forest,
    steps: &mut Steps<L>,
) -> Result<usize, Memory>
    requires judged { (step : ℕ) × (broken_of system.now commands.now step ≡ None) }
    requires prepared { IsPrepared system.now commands.now turns.now list.old forest.old }
    ensures refitted { IfOk result (λ _. IsRefitted system.now commands.now forest.new steps.old steps.new) }
    ensures items { list.new.items ≡ edits_of system.now commands.now true ++ edits_of system.now commands.now false }
    ensures voided { IfOk result (λ voided. voided ≡ length (edits_of system.now commands.now true)) }
    ensures edits { IfErr result (λ _. 1 ≤ count_by is_edit commands.now) }
    ensures room { MOST_CHANGED ≤ list.new.spare + length list.new.items }
{
    let voided = list_edits(system, commands, turns, list, steps);
    let (removed, added) = list.as_slice().split_at(voided);
    refit_cells(system, commands, removed, added, forest, steps)?;
    Ok(voided)
}

/// [`refit`] without a list for the caller: a region that is the only change is not listed.
fn refit_unlisted<L: Ledger>(
    system: &System,
    commands: &[Command],
    turns: &Turns,
    list: &mut ChangeList,
    forest: &mut Forest,
    steps: &mut Steps<L>,
) -> Result<(), Memory>
    requires judged { (step : ℕ) × (broken_of system.now commands.now step ≡ None) }
    requires prepared { IsPrepared system.now commands.now turns.now list.old forest.old }
    ensures refitted { IfOk result (λ _. IsRefitted system.now commands.now forest.new steps.old steps.new) }
    ensures edits { IfErr result (λ _. 1 ≤ count_by is_edit commands.now) }
    ensures room { MOST_CHANGED ≤ list.new.spare + length list.new.items }
{
    if let Some(region) = only_region(system, commands, turns) {
        return refit_region(system, commands, &region, forest, steps);
    }
    refit(system, commands, turns, list, forest, steps)?;
    Ok(())
}

/// Fills one cell of the forest, or voids it.
#[inline(always)]
fn change_cell<L: Ledger>(
    forest: &mut Forest,
    cell: Coord,
    full: bool,
    steps: &mut Steps<L>,
) -> Result<(), Memory>
    requires stands { forest.old.spent ≡ false }
    requires cell { MatchBool full (MayAdd forest.old.matrix (cell ∷ [])) (MayRemove forest.old.matrix (cell ∷ [])) }
    ensures value { IfOk result
        (λ _. MatchBool full (AreAdded forest.old.matrix forest.new.matrix (cell ∷ []))
        (AreRemoved forest.old.matrix forest.new.matrix (cell ∷ []))) }
    ensures stands { IfOk result (λ _. forest.new.spent ≡ false) }
    ensures touches { IfOk result
        (λ _. IsCheap forest.old.matrix forest.new.matrix (cell ∷ []) 100 steps.old steps.new) }
{
    if full {
        return match forest.add_one(cell, steps) {
            Ok(()) => Ok(()),
            Err(_) => Err(Memory),
        };
    }
    match forest.remove_one(cell, steps) {
        Ok(()) => Ok(()),
        Err(_) => Err(Memory),
    }
}

/// Updates the forest after the only bot filled the voxel (or voided it), and returns whether it was full. The fast path may
/// already have spent a few touches.
#[inline(always)]
fn refit_one<L: Ledger>(
    system: &System,
    commands: &[Command],
    d: Near,
    at: Coord,
    full: bool,
    forest: &mut Forest,
    steps: &mut Steps<L>,
) -> Result<bool, Memory>
    requires judged { (step : ℕ) × (broken_of system.now commands.now step ≡ None) }
    requires edit { CanEditOne system.now commands.now d at full forest.old }
    ensures refitted { IfOk result
        (λ _. (before : ℕ) → steps.old ≤ before + 9 → IsRefitted system.now commands.now forest.new before steps.new) }
    ensures was { IfOk result (λ was. was ≡ is_full system.now.matrix at) }
{
    system.recall();
    let was = system.matrix().full_at(at, steps);
    if was == full {
        return Ok(was);
    }
    change_cell(forest, at, full, steps)?;
    Ok(was)
}

/// Fills one cell (or voids it) if that changes no other level, and returns whether it did. Changes nothing otherwise.
#[inline(always)]
fn change_at_once<L: Ledger>(
    forest: &mut Forest,
    cell: Coord,
    full: bool,
    steps: &mut Steps<L>,
) -> bool
    requires stands { forest.old.spent ≡ false }
    requires cell { MatchBool full (MayAdd forest.old.matrix (cell ∷ [])) (MayRemove forest.old.matrix (cell ∷ [])) }
    ensures value { result ≡ true
        → MatchBool full (AreAdded forest.old.matrix forest.new.matrix (cell ∷ []))
        (AreRemoved forest.old.matrix forest.new.matrix (cell ∷ [])) }
    ensures held { result ≡ true → FirstUngrounded forest.old.matrix None → FirstUngrounded forest.new.matrix None }
    ensures stays { result ≡ false → forest.new ≡ forest.old }
    ensures stands { forest.new.spent ≡ false }
    ensures touches { steps.new ≤ steps.old + 8 }
{
    if full {
        return forest.try_fill(cell, steps);
    }
    forest.try_void(cell, steps)
}

/// [`settle_one`] if no other level changes and each voxel stays grounded; otherwise returns `None` and changes nothing. `bit` is
/// the index of the voxel's bit.
#[inline(always)]
pub(crate) fn settle_at_once<L: Ledger>(
    system: &System,
    commands: &[Command],
    d: Near,
    at: Coord,
    bit: usize,
    full: bool,
    step: u32,
    forest: &mut Forest,
    steps: &mut Steps<L>,
) -> Option<bool>
    requires judged { broken_of system.now commands.now step ≡ None }
    requires edit { CanEditOne system.now commands.now d at full forest.old }
    requires bit { bit ≡ bit_index system.now.matrix.resolution at }
    requires held { system.now.harmonics ≡ Low → FirstUngrounded system.now.matrix None }
    ensures settled { IfSome result (λ _. IsSettled system.now commands.now step forest.new steps.old steps.new) }
    ensures was { IfSome result (λ was. was ≡ is_full system.now.matrix at) }
    ensures stays { IfNone result (forest.new ≡ forest.old) }
    ensures touches { IfNone result (steps.new ≤ steps.old + 9) }
{
    system.recall();
    let was = system.matrix().full_at_bit(at, bit, steps);
    if was == full {
        return Some(was);
    }
    if change_at_once(forest, at, full, steps) {
        return Some(was);
    }
    None
}

/// Restores the forest from before an undone step: it loses the filled voxels, then gains the voided ones.
pub(crate) fn refit_back<L: Ledger>(
    forest: &mut Forest,
    filled: &[Coord],
    voided: &[Coord],
    steps: &mut Steps<L>,
) -> Result<(), Memory>
    requires stands { forest.old.spent ≡ false }
    requires filled { MayRemove forest.old.matrix filled.now }
    requires voided { MayAdd (without_filled forest.old.matrix filled.now) voided.now }
    ensures value { IfOk result (λ _. forest.new.matrix ≡ matrix_before forest.old.matrix filled.now voided.now) }
    ensures stands { IfOk result (λ _. forest.new.spent ≡ false) }
    ensures touches { IfOk result (λ _. IsUndoneBy forest.old.matrix filled.now voided.now steps.old steps.new) }
{
    remove(forest, filled, steps)?;
    add(forest, voided, steps)?;
    Ok(())
}

/// Returns the outcome of a step whose forest is already updated: under Low no voxel may float in it. `least` is the least that can, if
/// it is known.
pub(crate) fn settle_refitted<L: Ledger>(
    system: &System,
    commands: &[Command],
    step: u32,
    least: Option<Coord>,
    forest: &Forest,
    steps: &mut Steps<L>,
) -> Result<(), StepFault>
    requires judged { broken_of system.now commands.now step ≡ None }
    requires few { length commands.now ≤ length system.now.bots }
    requires stands { forest.now.spent ≡ false }
    requires matrix { forest.now.matrix ≡ (after system.now commands.now).matrix }
    requires least { IfSome least (FloatsAtMost forest.now.matrix) }
    ensures settled { IfOk result
        (λ _. (before : ℕ) → IsPaidBy system.now commands.now before steps.old → IsSettled system.now commands.now
        step forest.now before steps.new) }
    ensures unsettled { IfErr result
        (λ fault. (before : ℕ) → IsPaidBy system.now commands.now before steps.old → IsUnsettled system.now
        commands.now step fault before steps.new) }
    ensures memory { result ≡ Err StepFault.Memory → ⊥ }
{
    let harmonics = harmonics_after(system.harmonics(), commands);
    match find_ungrounded(forest, harmonics, least, steps) {
        None => Ok(()),
        Some(at) => Err(StepFault::Broken(Broken {
            step,
            bid: 0,
            rule: Rule::Ungrounded,
            at,
        })),
    }
}

/// Returns the outcome of a step that breaks no rule at its start, before its groups act: the updated forest, in which no voxel may
/// float under Low.
pub(crate) fn settle_unlisted<L: Ledger>(
    system: &System,
    commands: &[Command],
    step: u32,
    turns: &Turns,
    list: &mut ChangeList,
    forest: &mut Forest,
    steps: &mut Steps<L>,
) -> Result<(), StepFault>
    requires { CanBeSettled system.now commands.now step turns.now list.old forest.old }
    ensures settled { IfOk result (λ _. IsSettled system.now commands.now step forest.new steps.old steps.new) }
    ensures unsettled { IfErr result (λ fault. IsUnsettled system.now commands.now step fault steps.old steps.new) }
    ensures memory { result ≡ Err StepFault.Memory → 1 ≤ count_by is_edit commands.now }
    ensures room { MOST_CHANGED ≤ list.new.spare + length list.new.items }
{
    refit_unlisted(system, commands, turns, list, forest, steps)?;
    settle_refitted(system, commands, step, None, forest, steps)?;
    Ok(())
}

/// [`settle_unlisted`] for a step of the only bot that fills the voxel (or voids it). Returns whether it was full. The fast path may already
/// have spent a few touches.
#[inline(always)]
pub(crate) fn settle_one<L: Ledger>(
    system: &System,
    commands: &[Command],
    d: Near,
    at: Coord,
    full: bool,
    step: u32,
    forest: &mut Forest,
    steps: &mut Steps<L>,
) -> Result<bool, StepFault>
    requires judged { broken_of system.now commands.now step ≡ None }
    requires edit { CanEditOne system.now commands.now d at full forest.old }
    ensures settled { IfOk result
        (λ _. (before : ℕ) → steps.old ≤ before + 9 → IsSettled system.now commands.now step forest.new before
        steps.new) }
    ensures unsettled { IfErr result
        (λ fault. (before : ℕ) → steps.old ≤ before + 9 → IsUnsettled system.now commands.now step fault before
        steps.new) }
    ensures was { IfOk result (λ was. was ≡ is_full system.now.matrix at) }
{
    let was = refit_one(system, commands, d, at, full, forest, steps)?;
    match find_ungrounded(forest, system.harmonics(), None, steps) {
        None => Ok(was),
        Some(at) => Err(StepFault::Broken(Broken {
            step,
            bid: 0,
            rule: Rule::Ungrounded,
            at,
        })),
    }
}
