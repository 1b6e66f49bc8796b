//! The kept machine.
ghost use Rattle.std.specs.Prelude.{◌≡◌, ◌≤◌, [], length, count_by, option_map, IfOk, Some};
ghost use Rattle.nano_spec.specs.Matrix.{all_of, empty as empty_of, is_full};
ghost use Rattle.nano_spec.specs.Verdict.{first_difference};
ghost use Rattle.kept_machine.specs.Calls.{BeginsTrace, Opens, OpensFile, TellsLevel, Tries, Undoes, WouldAnswer, difference_count};

use crate::aim::{KeptTarget, copy_aim};
use crate::counting::count_differences;
use crate::done::StepDone;
use crate::fault::{NoLevel, NoStep};
use crate::reading::{count_full, find_level, is_full_at, least_difference};
use crate::stepping::{copy_of, judge_step, start_over, step_and_keep, undo_and_shorten};
use crate::trace::Trace;
use circular_buffer::HeapCircularBuffer;
use model_file::{ModelFault, read_model};
use nano_spec::{Bot, Command, Harmonics, Profile, opening_is_well_formed};
use std::alloc::Global;
use std::marker::{Brand, Model};
use std::sync::ledger::Blank;
use step_machine::{Machine, Undo};
use vox_geom::{Coord, Memory};
use vox_planes::Planes;

/// A machine between two steps, with notes of its last steps. Contracts see its state, the number of steps made, and the states
/// before the steps that can be undone. They also see the commands of all its steps, if they are kept, and its target, if it has
/// one.
#[derive(Drop)]
pub struct KeptMachine {
    alloc: Global,
    machine: Machine,
    notes: HeapCircularBuffer<Undo>,
    trace: Trace,
    aim: Option<KeptTarget>,
}

impl Model for KeptMachine {
    ghost use Rattle.kept_machine.specs.Aiming.{IsTargetCounted, target_of};
    ghost use Rattle.kept_machine.specs.Kept.{IsNoted, Kept, kept_of, trace_of};

    ghost Value = { Kept };

    ghost view = { λ k. record (kept_of k.machine k.notes (trace_of k.trace)) { target = target_of k.aim } };

    ghost invariant = { λ k. IsNoted k.machine k.notes × IsTargetCounted k.machine.state.matrix k.aim };
}

impl KeptMachine {
    /// Starts a machine over a legal source. It can undo its last `room` steps.
    pub fn start(
        alloc: Global,
        source: Planes,
        profile: Profile,
        room: u16,
    ) -> Result<KeptMachine, ModelFault>
        requires seeds { profile.seeds ≤ 39 }
        ensures { Opens source profile room result }
    {
        opening_is_well_formed();
        let (machine, notes) = start_over::<Brand>(alloc, source, profile, room, Blank::new(1))?;
        Ok(KeptMachine {
            alloc,
            machine,
            notes,
            trace: Trace::none(alloc),
            aim: None,
        })
    }

    /// Starts a machine over the legal model that the bytes of a file hold.
    pub fn of_file(
        alloc: Global,
        bytes: &[u8],
        profile: Profile,
        room: u16,
    ) -> Result<KeptMachine, ModelFault>
        requires seeds { profile.seeds ≤ 39 }
        ensures { OpensFile bytes.now profile room result }
    {
        let source = read_model(alloc, bytes)?;
        KeptMachine::start(alloc, source, profile, room)
    }

    /// Copies the machine: same state, number of steps, trace and target. The copy can undo no step.
    pub fn copy(&self) -> Result<KeptMachine, Memory>
        ensures { IfOk result (λ k. k ≡ record self.now { past = [] }) }
    {
        let (machine, notes) = copy_of::<Brand>(
            self.alloc,
            &self.machine,
            self.notes.capacity(),
            Blank::new(1),
        )?;
        let trace = self.trace.copy(self.alloc)?;
        let aim = copy_aim(&self.aim, self.alloc)?;
        Ok(KeptMachine {
            alloc: self.alloc,
            machine,
            notes,
            trace,
            aim,
        })
    }

    /// Keeps the commands of all further steps and returns true, unless steps were already made.
    pub fn keep_trace(&mut self) -> bool
        ensures { BeginsTrace self.old self.new result }
    {
        if self.machine.steps_done() > 0 {
            return false;
        }
        self.trace = Trace::begin(self.alloc);
        true
    }

    /// Sets the target and returns the number of coordinates at which the matrix differs from it. From here on each step and each
    /// undo updates that number by the voxels that it changes.
    pub fn aim(&mut self, target: Planes) -> u32
        requires { self.old.state.matrix.resolution ≡ target.resolution }
        ensures target { self.new ≡ record self.old { target = Some target } }
        ensures differences { result ≡ difference_count self.old.state.matrix target }
    {
        let differences = count_differences::<Brand>(self.machine.matrix(), &target, Blank::new(1));
        self.aim = Some(KeptTarget {
            target,
            differences,
        });
        differences
    }

    /// Makes a step: the i-th command is for the i-th active bot.
    pub fn step(&mut self, commands: &[Command]) -> Result<StepDone, NoStep>
        ensures { Tries self.old commands.now self.new result }
    {
        step_and_keep::<Brand>(
            self.alloc,
            &mut self.machine,
            &mut self.notes,
            &mut self.trace,
            &mut self.aim,
            commands,
            Blank::new(1),
        )
    }

    /// Returns the outcome that the step would have. The machine does not change.
    pub fn judge(&mut self, commands: &[Command]) -> Result<StepDone, NoStep>
        ensures stays { self.new ≡ self.old }
        ensures answer { WouldAnswer self.old commands.now result }
    {
        judge_step::<Brand>(self.alloc, &mut self.machine, commands, Blank::new(1))
    }

    /// Undoes the last step, if one is noted, and returns whether it did. If allocation fails, the step is undone all the same, and
    /// the next call takes as long as a start.
    pub fn undo(&mut self) -> bool
        ensures { Undoes self.old self.new result }
    {
        undo_and_shorten::<Brand>(
            &mut self.machine,
            &mut self.notes,
            &mut self.trace,
            &mut self.aim,
            Blank::new(1),
        )
    }

    /// Returns the level of a voxel, or `None` if it is void or not grounded.
    pub fn level(&mut self, c: Coord) -> Result<Option<u32>, NoLevel>
        ensures stays { self.new ≡ self.old }
        ensures told { TellsLevel self.old.state.matrix c result }
    {
        find_level::<Brand>(self.alloc, &mut self.machine, c, Blank::new(1))
    }

    /// Returns whether the voxel at a coordinate is full. No voxel outside the matrix is.
    pub fn full(&self, c: Coord) -> bool
        ensures { result ≡ is_full self.now.state.matrix c }
    {
        is_full_at::<Brand>(self.machine.matrix(), c, Blank::new(1))
    }

    /// Returns the number of full voxels.
    pub fn count(&self) -> u32
        ensures { result ≡ count_by (is_full self.now.state.matrix) (all_of self.now.state.matrix) }
    {
        count_full::<Brand>(self.machine.matrix(), Blank::new(1))
    }

    /// Returns the least coordinate at which the matrix and a target of its resolution differ, or `None` if they are equal.
    pub fn difference(&self, target: &Planes) -> Option<Coord>
        requires { self.now.state.matrix.resolution ≡ target.now.resolution }
        ensures { result ≡ first_difference self.now.state.matrix target.now }
    {
        least_difference::<Brand>(self.machine.matrix(), target, Blank::new(1))
    }

    /// Returns the number of coordinates at which the matrix and a target of its resolution differ.
    pub fn differences(&self, target: &Planes) -> u32
        requires { self.now.state.matrix.resolution ≡ target.now.resolution }
        ensures { result ≡ difference_count self.now.state.matrix target.now }
    {
        count_differences::<Brand>(self.machine.matrix(), target, Blank::new(1))
    }

    /// Returns the number of coordinates at which the matrix differs from the target, or `None` without one. Does not recount.
    pub fn remaining(&self) -> Option<u32>
        ensures { result ≡ option_map (difference_count self.now.state.matrix) self.now.target }
    {
        match &self.aim {
            Some(aim) => Some(aim.differences),
            None => None,
        }
    }

    /// Returns the matrix.
    pub fn matrix(&self) -> &Planes
        ensures { result.now ≡ self.now.state.matrix }
    {
        self.machine.matrix()
    }

    /// Returns the active bots, in rising order of their bids.
    pub fn bots(&self) -> &[Bot]
        ensures { result.now ≡ self.now.state.bots }
    {
        self.machine.crew().bots()
    }

    /// Returns the number of active bots.
    pub fn active(&self) -> u8
        ensures { result ≡ length self.now.state.bots }
    {
        self.machine.active()
    }

    /// Returns the harmonics.
    pub fn harmonics(&self) -> Harmonics
        ensures { result ≡ self.now.state.harmonics }
    {
        self.machine.harmonics()
    }

    /// Returns the energy spent so far.
    pub fn energy(&self) -> i64
        ensures { result ≡ self.now.state.energy }
    {
        self.machine.energy()
    }

    /// Returns the profile.
    pub fn profile(&self) -> Profile
        ensures { result ≡ self.now.state.profile }
    {
        self.machine.profile()
    }

    /// Returns the number of steps made.
    pub fn steps_done(&self) -> u32
        ensures { result ≡ self.now.steps }
    {
        self.machine.steps_done()
    }

    /// Returns the commands of the steps that were made and not undone, if they are kept.
    pub fn trace(&self) -> Option<&[Command]>
        ensures { option_map (λ commands. commands.now) result ≡ self.now.trace }
    {
        self.trace.commands()
    }

    /// Returns the number of steps that can be undone.
    pub fn steps_noted(&self) -> usize
        ensures { result ≡ length self.now.past }
    {
        self.notes.len()
    }
}
