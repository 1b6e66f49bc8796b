//! Starting a machine, making and undoing steps. Touches are not reported.
ghost use Rattle.std.specs.List.{list_any};
ghost use Rattle.std.specs.Prelude.{◌≡◌, ◌≤◌, [], List, Option, false, length, IfOk, IfErr, Err};
ghost use Rattle.vox_geom.specs.Counting.{IsBlankOf};
ghost use Rattle.circular_buffer.specs.Buffer.{Buffer, buffer};
ghost use Rattle.nano_spec.specs.declared.commands.Command.{Command as Spoken};
ghost use Rattle.nano_spec.specs.Legal.{IsLegal};
ghost use Rattle.nano_spec.specs.State.{IsWellFormed, opening};
ghost use Rattle.model_file.specs.Fault.{Judges};
ghost use Rattle.step_machine.specs.Edits.{is_edit};
ghost use Rattle.step_machine.specs.declared.undo.Undo.{Undo as Note};
ghost use Rattle.kept_machine.specs.declared.aim.KeptTarget.{KeptTarget as Target};
ghost use Rattle.kept_machine.specs.Aiming.{IsTargetCounted, target_of};
ghost use Rattle.kept_machine.specs.Calls.{Tries, Undoes, WouldAnswer};
ghost use Rattle.kept_machine.specs.OneVoxel.{IsOnlyVoxel};
ghost use Rattle.kept_machine.specs.Kept.{CanStep, CannotStep, IsNoted, kept_of, trace_of, tried, undone};

use crate::aim::{KeptTarget, count_step, count_undo};
use crate::done::{StepDone, count_changed, done, some_edit};
use crate::fault::NoStep;
use crate::one_voxel::{changed_voxels, only_voxel};
use crate::trace::Trace;
use circular_buffer::HeapCircularBuffer;
use counter_permit::CounterPermit;
use model_file::{ModelFault, legal};
use nano_spec::{Command, Profile, opening_is_well_formed};
use std::alloc::Global;
use std::sync::ledger::{Blank, Ledger};
use step_machine::{Machine, Undo};
use vox_geom::{Coord, Memory, Steps};
use vox_planes::Planes;

/// The most steps that a machine makes.
const MOST_STEPS: u32 = 1_073_741_824;

/// Starts a machine over a legal source, with room for the notes of `room` steps.
pub(crate) fn start_over<L: Ledger>(
    alloc: Global,
    source: Planes,
    profile: Profile,
    room: u16,
    blank: Blank,
) -> Result<(Machine, HeapCircularBuffer<Undo>), ModelFault>
    requires seeds { profile.seeds ≤ 39 }
    requires blank { IsBlankOf blank L.name L.parts }
    ensures legal { IfOk result (λ _. IsLegal source) }
    ensures machine { IfOk result
        (λ made. made.0 ≡ record { state = opening source profile; steps = 0; spent = false }) }
    ensures notes { IfOk result (λ made. made.1 ≡ buffer [] room) }
    ensures refused { IfErr result (λ fault. Judges source (Err fault)) }
{
    opening_is_well_formed();
    legal(alloc, &source)?;
    let mut steps = Steps::<L>::new(blank, CounterPermit);
    let machine = Machine::start(alloc, source, profile, &mut steps)?;
    match HeapCircularBuffer::with_capacity(alloc, usize::from(room)) {
        Ok(notes) => Ok((machine, notes)),
        Err(_) => Err(ModelFault::Memory),
    }
}

/// Makes another machine in the same state, with room for the notes of `room` steps.
pub(crate) fn copy_of<L: Ledger>(
    alloc: Global,
    machine: &Machine,
    room: usize,
    blank: Blank,
) -> Result<(Machine, HeapCircularBuffer<Undo>), Memory>
    requires well_formed { IsWellFormed machine.now.state }
    requires blank { IsBlankOf blank L.name L.parts }
    ensures machine { IfOk result (λ made. made.0 ≡ record machine.now { spent = false }) }
    ensures notes { IfOk result (λ made. made.1 ≡ buffer [] room) }
{
    let mut steps = Steps::<L>::new(blank, CounterPermit);
    let copy = machine.anew(alloc, &mut steps)?;
    match HeapCircularBuffer::with_capacity(alloc, room) {
        Ok(notes) => Ok((copy, notes)),
        Err(_) => Err(Memory),
    }
}

/// Rebuilds a poisoned machine in its state. If memory runs out, it does not change.
pub(crate) fn stand_again<L: Ledger>(
    alloc: Global,
    machine: &mut Machine,
    steps: &mut Steps<L>,
) -> Result<(), Memory>
    requires { IsWellFormed machine.old.state }
    ensures value { IfOk result (λ _. machine.new ≡ record machine.old { spent = false }) }
    ensures stays { IfErr result (λ _. machine.new ≡ machine.old) }
{
    if !machine.spent() {
        return Ok(());
    }
    let made = machine.anew(alloc, steps)?;
    *machine = made;
    Ok(())
}

/// Returns an error if the step cannot be judged: no bot is active, a command is missing or extra, or the step limit is reached.
fn ready(machine: &Machine, commands: &[Command]) -> Result<(), NoStep>
    ensures can { IfOk result (λ _. CanStep machine.now commands.now) }
    ensures cannot { IfErr result (λ fault. CannotStep machine.now commands.now fault) }
{
    let count = machine.active();
    if count == 0 {
        return Err(NoStep::Ended);
    }
    if commands.len() != usize::from(count) {
        return Err(NoStep::Count);
    }
    if machine.steps_done() >= MOST_STEPS {
        return Err(NoStep::Long);
    }
    Ok(())
}

/// Makes a step that changes no voxel and keeps no note.
fn step_once<L: Ledger>(
    machine: &mut Machine,
    notes: &HeapCircularBuffer<Undo>,
    commands: &[Command],
    steps: &mut Steps<L>,
) -> Result<StepDone, NoStep>
    requires kept { IsNoted machine.old notes.now }
    requires can { CanStep machine.old commands.now }
    requires none { notes.now.capacity ≡ 0 }
    requires still { list_any is_edit commands.now ≡ false }
    ensures kept { IsNoted machine.new notes.now }
    ensures aimed { (aim : Option Target) → IsTargetCounted machine.old.state.matrix aim → IsTargetCounted machine.new.state.matrix aim }
    ensures tries { (trace : Option (List Spoken)) → Tries (kept_of machine.old notes.now trace) commands.now
        (kept_of machine.new notes.now (tried trace commands.now result)) result }
{
    let _room = notes.capacity();
    match machine.step(commands, steps) {
        Ok(_) => Ok(done(machine, 0)),
        Err(fault) => Err(NoStep::of(fault)),
    }
}

/// Makes the step of the only bot, which fills or voids this voxel, and keeps no note.
fn step_one_voxel<L: Ledger>(
    machine: &mut Machine,
    notes: &HeapCircularBuffer<Undo>,
    commands: &[Command],
    c: Coord,
    steps: &mut Steps<L>,
) -> Result<StepDone, NoStep>
    requires kept { IsNoted machine.old notes.now }
    requires can { CanStep machine.old commands.now }
    requires none { notes.now.capacity ≡ 0 }
    requires one { IsOnlyVoxel machine.old.state commands.now c }
    ensures kept { IsNoted machine.new notes.now }
    ensures tries { (trace : Option (List Spoken)) → Tries (kept_of machine.old notes.now trace) commands.now
        (kept_of machine.new notes.now (tried trace commands.now result)) result }
{
    let _room = notes.capacity();
    let before = machine.matrix().full_at(c, steps);
    match machine.step(commands, steps) {
        Ok(_) => {
            let after = machine.matrix().full_at(c, steps);
            Ok(done(machine, changed_voxels(before, after)))
        }
        Err(fault) => Err(NoStep::of(fault)),
    }
}

/// Makes a step, keeps its note, and updates the number of differences from the target.
fn step_and_note<L: Ledger>(
    machine: &mut Machine,
    notes: &mut HeapCircularBuffer<Undo>,
    aim: &mut Option<KeptTarget>,
    commands: &[Command],
    steps: &mut Steps<L>,
) -> Result<StepDone, NoStep>
    requires kept { IsNoted machine.old notes.old }
    requires aimed { IsTargetCounted machine.old.state.matrix aim.old }
    requires can { CanStep machine.old commands.now }
    ensures kept { IsNoted machine.new notes.new }
    ensures aimed { IsTargetCounted machine.new.state.matrix aim.new }
    ensures target { target_of aim.new ≡ target_of aim.old }
    ensures tries { (trace : Option (List Spoken)) → Tries (kept_of machine.old notes.old trace) commands.now
        (kept_of machine.new notes.new (tried trace commands.now result)) result }
{
    machine.recall();
    let order = machine.leaders(commands);
    match machine.step_noted(commands, order.as_slice(), steps) {
        Ok((_, undo)) => {
            let changed = count_changed(machine.matrix(), &undo);
            count_step(aim, machine.matrix(), &undo, steps);
            notes.push_back(undo);
            Ok(done(machine, changed))
        }
        Err(fault) => Err(NoStep::of(fault)),
    }
}

/// Makes a step without keeping its note. A note is made and dropped if the step may change several voxels, or if they have to
/// be compared with a target.
fn step_unnoted<L: Ledger>(
    machine: &mut Machine,
    notes: &mut HeapCircularBuffer<Undo>,
    aim: &mut Option<KeptTarget>,
    commands: &[Command],
    steps: &mut Steps<L>,
) -> Result<StepDone, NoStep>
    requires kept { IsNoted machine.old notes.old }
    requires aimed { IsTargetCounted machine.old.state.matrix aim.old }
    requires can { CanStep machine.old commands.now }
    requires none { notes.old.capacity ≡ 0 }
    ensures kept { IsNoted machine.new notes.new }
    ensures aimed { IsTargetCounted machine.new.state.matrix aim.new }
    ensures target { target_of aim.new ≡ target_of aim.old }
    ensures tries { (trace : Option (List Spoken)) → Tries (kept_of machine.old notes.old trace) commands.now
        (kept_of machine.new notes.new (tried trace commands.now result)) result }
{
    if aim.is_none() {
        if let Some(c) = only_voxel(machine, commands) {
            return step_one_voxel(machine, notes, commands, c, steps);
        }
    }
    if some_edit(commands) {
        return step_and_note(machine, notes, aim, commands, steps);
    }
    step_once(machine, notes, commands, steps)
}

/// Makes a step, and keeps its note if the machine keeps notes.
fn try_step<L: Ledger>(
    alloc: Global,
    machine: &mut Machine,
    notes: &mut HeapCircularBuffer<Undo>,
    aim: &mut Option<KeptTarget>,
    commands: &[Command],
    blank: Blank,
) -> Result<StepDone, NoStep>
    requires kept { IsNoted machine.old notes.old }
    requires aimed { IsTargetCounted machine.old.state.matrix aim.old }
    requires blank { IsBlankOf blank L.name L.parts }
    ensures kept { IsNoted machine.new notes.new }
    ensures aimed { IsTargetCounted machine.new.state.matrix aim.new }
    ensures target { target_of aim.new ≡ target_of aim.old }
    ensures tries { (trace : Option (List Spoken)) → Tries (kept_of machine.old notes.old trace) commands.now
        (kept_of machine.new notes.new (tried trace commands.now result)) result }
{
    ready(machine, commands)?;
    let mut steps = Steps::<L>::new(blank, CounterPermit);
    stand_again(alloc, machine, &mut steps)?;
    if notes.capacity() > 0 {
        return step_and_note(machine, notes, aim, commands, &mut steps);
    }
    step_unnoted(machine, notes, aim, commands, &mut steps)
}

/// Makes a step, keeps its note if the machine keeps notes, and appends its commands to the trace if they are kept.
pub(crate) fn step_and_keep<L: Ledger>(
    alloc: Global,
    machine: &mut Machine,
    notes: &mut HeapCircularBuffer<Undo>,
    trace: &mut Trace,
    aim: &mut Option<KeptTarget>,
    commands: &[Command],
    blank: Blank,
) -> Result<StepDone, NoStep>
    requires kept { IsNoted machine.old notes.old }
    requires aimed { IsTargetCounted machine.old.state.matrix aim.old }
    requires blank { IsBlankOf blank L.name L.parts }
    ensures kept { IsNoted machine.new notes.new }
    ensures aimed { IsTargetCounted machine.new.state.matrix aim.new }
    ensures target { target_of aim.new ≡ target_of aim.old }
    ensures tries { Tries (kept_of machine.old notes.old (trace_of trace.old)) commands.now
        (kept_of machine.new notes.new (trace_of trace.new)) result }
{
    trace.lengthen(commands)?;
    match try_step::<L>(alloc, machine, notes, aim, commands, blank) {
        Ok(made) => Ok(made),
        Err(fault) => {
            trace.shorten(commands.len());
            Err(fault)
        }
    }
}

/// Makes a step that can be judged and undoes it.
fn step_and_restore<L: Ledger>(
    machine: &mut Machine,
    commands: &[Command],
    steps: &mut Steps<L>,
) -> Result<StepDone, NoStep>
    requires well_formed { IsWellFormed machine.old.state }
    requires can { CanStep machine.old commands.now }
    ensures state { machine.new.state ≡ machine.old.state }
    ensures steps { machine.new.steps ≡ machine.old.steps }
    ensures answer { (notes : Buffer Note) (trace : Option (List Spoken))
        → WouldAnswer (kept_of machine.old notes trace) commands.now result }
{
    machine.recall();
    let order = machine.leaders(commands);
    match machine.step_noted(commands, order.as_slice(), steps) {
        Ok((_, undo)) => {
            let changed = count_changed(machine.matrix(), &undo);
            let made = done(machine, changed);
            // The step is undone whatever this returns: the next call rebuilds a poisoned machine.
            let _ = machine.restore(&undo, steps);
            Ok(made)
        }
        Err(fault) => Err(NoStep::of(fault)),
    }
}

/// Returns the outcome that a step would have. The state does not change.
pub(crate) fn judge_step<L: Ledger>(
    alloc: Global,
    machine: &mut Machine,
    commands: &[Command],
    blank: Blank,
) -> Result<StepDone, NoStep>
    requires well_formed { IsWellFormed machine.old.state }
    requires blank { IsBlankOf blank L.name L.parts }
    ensures state { machine.new.state ≡ machine.old.state }
    ensures steps { machine.new.steps ≡ machine.old.steps }
    ensures answer { (notes : Buffer Note) (trace : Option (List Spoken))
        → WouldAnswer (kept_of machine.old notes trace) commands.now result }
{
    ready(machine, commands)?;
    let mut steps = Steps::<L>::new(blank, CounterPermit);
    stand_again(alloc, machine, &mut steps)?;
    step_and_restore(machine, commands, &mut steps)
}

/// Undoes the step of the last note and returns true, or returns false if there is no note.
fn take_back<L: Ledger>(
    machine: &mut Machine,
    notes: &mut HeapCircularBuffer<Undo>,
    aim: &mut Option<KeptTarget>,
    blank: Blank,
) -> bool
    requires kept { IsNoted machine.old notes.old }
    requires aimed { IsTargetCounted machine.old.state.matrix aim.old }
    requires blank { IsBlankOf blank L.name L.parts }
    ensures kept { IsNoted machine.new notes.new }
    ensures aimed { IsTargetCounted machine.new.state.matrix aim.new }
    ensures target { target_of aim.new ≡ target_of aim.old }
    ensures back { (trace : Option (List Spoken)) → Undoes (kept_of machine.old notes.old trace)
        (kept_of machine.new notes.new (undone trace (length machine.new.state.bots) result)) result }
{
    let Some(undo) = notes.back() else {
        return false;
    };
    let mut steps = Steps::<L>::new(blank, CounterPermit);
    count_undo(aim, machine.matrix(), undo, &mut steps);
    let _ = machine.restore(undo, &mut steps);
    notes.pop_back();
    true
}

/// Undoes the step of the last note, removes its commands from the trace and returns true, or returns false if there is no note.
pub(crate) fn undo_and_shorten<L: Ledger>(
    machine: &mut Machine,
    notes: &mut HeapCircularBuffer<Undo>,
    trace: &mut Trace,
    aim: &mut Option<KeptTarget>,
    blank: Blank,
) -> bool
    requires kept { IsNoted machine.old notes.old }
    requires aimed { IsTargetCounted machine.old.state.matrix aim.old }
    requires blank { IsBlankOf blank L.name L.parts }
    ensures kept { IsNoted machine.new notes.new }
    ensures aimed { IsTargetCounted machine.new.state.matrix aim.new }
    ensures target { target_of aim.new ≡ target_of aim.old }
    ensures back { Undoes (kept_of machine.old notes.old (trace_of trace.old))
        (kept_of machine.new notes.new (trace_of trace.new)) result }
{
    if !take_back::<L>(machine, notes, aim, blank) {
        return false;
    }
    trace.shorten(usize::from(machine.active()));
    true
}
