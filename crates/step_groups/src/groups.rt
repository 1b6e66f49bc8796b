//! The groups of a step.
ghost use Rattle.std.specs.Prelude.{◌≡◌, ◌+◌, ◌≤◌, ◌*◌, ℤ, [], All, IsTrue, IfErr, IfOk, OnErr, OnOk, Some, None, length};
ghost use Rattle.std.specs.List.{list_all};
ghost use Rattle.vox_geom.specs.Space.{IsInSpace};
ghost use Rattle.nano_spec.specs.Act.{acts};
ghost use Rattle.nano_spec.specs.Group.{leaders};
ghost use Rattle.nano_spec.specs.Work.{volatile_total};
ghost use Rattle.step_groups.specs.Groups.{AreGroups, AreLone};
ghost use Rattle.step_groups.specs.Judging.{is_alone};
ghost use Rattle.step_groups.specs.Numbers.{AreNumbers};
ghost use Rattle.step_groups.specs.Steps.{CanBeJudged, acts_of_step, broken_in, first_broken};

use crate::apart::are_apart;
use crate::members::list_groups;
use crate::numbers::number_groups;
use crate::one_pass::judge_apart;
use crate::pairs::judge_pairs;
use crate::rules::judge_bots;
use crate::step::Step;
use arrayvec::ArrayVec;
use bot_crew::{Crew, MOST_BOTS};
use nano_spec::{Broken, Command, Harmonics, Profile};
use std::marker::Model;
use std::sync::ledger::Ledger;
use vox_geom::{Region, Steps};
use vox_planes::Planes;

/// Bots that act together (docs/FORMATS.md, "Groups"), and the boxes that hold all that is volatile for them. The leader has the
/// least bid. The members, including the leader, are in rising order.
#[derive(Drop)]
pub struct Group {
    pub leader: u8,
    pub members: ArrayVec<u8, 8>,
    pub boxes: ArrayVec<Region, 9>,
}

impl Default for Group {
    fn default() -> Group {
        Group {
            leader: 0,
            members: ArrayVec::new(),
            boxes: ArrayVec::new(),
        }
    }
}

/// The groups of a step, in rising order of their leaders.
#[derive(Drop)]
pub struct Groups {
    groups: ArrayVec<Group, MOST_BOTS>,
}

impl Model for Groups {
    ghost use Rattle.std.specs.Prelude.{List};
    ghost use Rattle.step_groups.specs.declared.groups.Group.{Group};

    ghost Value = { List Group };

    ghost view = { λ g. g.groups.items };
}

impl Groups {
    /// Returns an empty list of groups.
    pub fn new() -> Groups
        ensures { result ≡ [] }
    {
        Groups {
            groups: ArrayVec::new(),
        }
    }

    /// Returns the groups.
    pub fn list(&self) -> &[Group]
        ensures { result.now ≡ self.now }
    {
        self.groups.as_slice()
    }

    /// Judges a step by the rules that depend only on the state at its start: for each bot the profile and then the rules of single
    /// bots, and last the interference of groups. Stores the groups of the step, or none if a rule is broken. Reuses the list from
    /// step to step.
    pub fn judge<L: Ledger>(
        &mut self,
        step: &Step,
        numbers: &[u8],
        steps: &mut Steps<L>,
    ) -> Result<(), Broken>
        requires step { CanBeJudged step.now }
        requires numbers { AreNumbers (acts_of_step step.now) numbers.now }
        ensures broken { IfErr result (λ b. (energy : ℤ) → broken_in step.now energy ≡ Some b) }
        ensures unbroken { OnOk result ((energy : ℤ) → broken_in step.now energy ≡ None) }
        ensures groups { OnOk result
            (AreGroups step.now.planes.now.resolution (acts_of_step step.now) (leaders (acts_of_step step.now))
            self.new) }
        ensures none { OnErr result (self.new ≡ []) }
        ensures touches { steps.new ≤ steps.old + 2 * volatile_total step.now.planes.now (acts_of_step step.now) }
    {
        self.groups.clear();
        if let Some(broken) = judge_bots(step, numbers, steps) {
            return Err(broken);
        }
        list_groups(
            &mut self.groups,
            step.planes,
            step.bots,
            step.commands,
            numbers,
        );
        if let Some(broken) = judge_pairs(self.groups.as_slice(), step.number) {
            self.groups.clear();
            return Err(broken);
        }
        Ok(())
    }

    /// Judges a step in which no command needs another bot: each bot is a group of its own. Returns the first broken rule. Usually
    /// bounding boxes show that no two bots interfere, and no group is made.
    pub fn judge_lone<L: Ledger>(&mut self, step: &Step, steps: &mut Steps<L>) -> Option<Broken>
        requires step { CanBeJudged step.now }
        requires lone { IsTrue (list_all is_alone step.now.commands.now) }
        ensures value { (energy : ℤ) → result ≡ broken_in step.now energy }
        ensures lone { AreLone (acts_of_step step.now) }
        ensures touches { steps.new ≤ steps.old + 2 * volatile_total step.now.planes.now (acts_of_step step.now) }
    {
        let apart = match judge_apart(step, steps) {
            Ok(apart) => apart,
            Err(broken) => return Some(broken),
        };
        if apart {
            return None;
        }
        if are_apart(step.planes, step.bots, step.commands) {
            return None;
        }
        self.groups.clear();
        let numbers = number_groups(step.bots, step.commands);
        let numbers = numbers.as_slice();
        list_groups(
            &mut self.groups,
            step.planes,
            step.bots,
            step.commands,
            numbers,
        );
        judge_pairs(self.groups.as_slice(), step.number)
    }
}

/// Judges a step of a crew as [`Groups::judge`] does, and returns its groups. `step` is the number of the step, from 1 on.
pub fn judge_groups<L: Ledger>(
    crew: &Crew,
    planes: &Planes,
    harmonics: Harmonics,
    profile: Profile,
    commands: &[Command],
    step: u32,
    steps: &mut Steps<L>,
) -> Result<Groups, Broken>
    requires lengths { length commands.now ≡ length crew.now }
    requires within { All (λ b. IsInSpace planes.now.resolution b.pos) crew.now }
    ensures broken { IfErr result
        (λ b. (energy : ℤ) → first_broken planes.now harmonics profile crew.now commands.now step energy ≡ Some b) }
    ensures unbroken { OnOk result
        ((energy : ℤ) → first_broken planes.now harmonics profile crew.now commands.now step energy ≡ None) }
    ensures groups { IfOk result
        (AreGroups planes.now.resolution (acts crew.now commands.now) (leaders (acts crew.now commands.now))) }
    ensures touches { steps.new ≤ steps.old + 2 * volatile_total planes.now (acts crew.now commands.now) }
{
    let step = Step {
        planes,
        harmonics,
        profile,
        bots: crew.bots(),
        commands,
        number: step,
    };
    let numbers = number_groups(step.bots, step.commands);
    let mut groups = Groups::new();
    match groups.judge(&step, numbers.as_slice(), steps) {
        Ok(()) => Ok(groups),
        Err(broken) => Err(broken),
    }
}
