//! The machine.
ghost use Rattle.std.specs.Prelude.{◌≡◌, ℕ, pos, ◌+ℤ◌, ◌<ℤ◌, ◌+◌, ◌*◌, ◌≤◌, ◌<◌, ◌↔◌, [], true, false, length, count_by, IfOk, IfSome, IsFalse, IsPermutation, None, Some, Err};
ghost use Rattle.nano_spec.specs.Act.{acts};
ghost use Rattle.nano_spec.specs.Cutting.{AreCommands};
ghost use Rattle.nano_spec.specs.Grounded.{FirstUngrounded};
ghost use Rattle.nano_spec.specs.Level.{Level};
ghost use Rattle.nano_spec.specs.Matrix.{is_full};
ghost use Rattle.nano_spec.specs.Model.{volume};
ghost use Rattle.nano_spec.specs.Next.{Goes, Next};
ghost use Rattle.nano_spec.specs.Serial.{leader_bids, serial};
ghost use Rattle.nano_spec.specs.State.{IsReady, IsWellFormed, State, opening as opening_of, origin};
ghost use Rattle.nano_spec.specs.Step.{after};
ghost use Rattle.vox_geom.specs.Space.{IsInSpace};
ghost use Rattle.vox_planes.specs.Voxel.{IsWhole};
ghost use Rattle.bot_crew.specs.Crew.{IsCrew};
ghost use Rattle.step_machine.specs.declared.machine.StepFault.TheVariants as fault;
ghost use Rattle.step_machine.specs.Edits.{is_edit};
ghost use Rattle.step_machine.specs.Situation.{IsEnergyBounded};
ghost use Rattle.step_machine.specs.Stepped.{Stepped};
ghost use Rattle.step_machine.specs.Undoing.{IsMachineState, state_with};

mod alone;
mod noted;

use crate::MOST_CHANGED;
use crate::order::take_turns;
use crate::support::settle_unlisted;
pub use alone::Tried;
use arrayvec::ArrayVec;
use bot_crew::{Crew, MOST_BOTS};
use energy_sum::a_step_changes_the_energy_by_little;
use nano_spec::{Broken, Command, Harmonics, Profile, opening_is_ready, ready_and_well_formed};
use std::alloc::Global;
use std::marker::Model;
use std::sync::ledger::Ledger;
use step_groups::leaders;
use step_order::{every_order, stays_well_formed};
use support_forest::Forest;
use system_state::{System, Turns, recall_all};
use vox_geom::{Coord, Memory, Steps};
use vox_planes::{ChangeList, Planes};

/// The result of an accepted step: the energy so far, and whether no bot is left.
#[derive(Clone, Copy, PartialEq, Eq, Debug)]
pub struct StepOk {
    pub energy: i64,
    pub halted: bool,
}

/// The reason why a step was not made.
#[derive(Clone, Copy, PartialEq, Eq, Debug)]
pub enum StepFault {
    /// The commands break this rule.
    Broken(Broken),
    /// Allocation failed: the machine is poisoned.
    Memory,
    /// The machine is poisoned: an earlier step broke the rule of grounding or ran out of memory.
    Spent,
}

impl StepFault {
    /// Returns whether allocation failed.
    fn is_memory(&self) -> bool
        ensures { result ≡ true ↔ self.now ≡ StepFault.Memory }
    {
        matches!(self, StepFault::Memory)
    }
}

impl From<Memory> for StepFault {
    ghost from_gives = { λ _ f. f ≡ fault.Memory };

    fn from(_memory: Memory) -> StepFault {
        StepFault::Memory
    }
}

/// The machine. Contracts see the state of the system, the number of steps made, and whether the machine is poisoned (`spent`).
#[derive(Drop)]
pub struct Machine {
    alloc: Global,
    system: System,
    forest: Forest,
    turns: Turns,
    changed: ChangeList,
    steps: u32,
    spent: bool,
}

impl Model for Machine {
    ghost use Rattle.step_machine.specs.Situation.{IsConsistent, Situation};

    ghost Value = { Situation };

    ghost view = { λ m. record { state = m.system; steps = m.steps; spent = m.spent } };

    ghost invariant = { λ m. IsConsistent m.system m.forest m.changed m.steps m.spent };
}

/// Proof aid: every step changes the energy by little and leads from a well-formed state to another. No effect.
#[inline(always)]
fn recall_step(system: &System, commands: &[Command])
    ensures commands { AreCommands commands.now }
    ensures rises { (after system.now commands.now).energy <ℤ (system.now.energy +ℤ pos 3000000000) }
    ensures falls { system.now.energy <ℤ ((after system.now commands.now).energy +ℤ pos 3000000000) }
    ensures well_formed { (t : State) (step : ℕ) → IsWellFormed system.now
        → Next system.now commands.now step (Goes t) → IsWellFormed t }
{
    a_step_changes_the_energy_by_little();
    stays_well_formed();
    recall_all(commands);
    system.recall();
}

/// Returns the answer to a step that leads to the system's state.
#[inline(always)]
fn tell_made(system: &System) -> StepOk
    ensures energy { result.energy ≡ system.now.energy }
    ensures halted { result.halted ≡ true ↔ system.now.bots ≡ [] }
{
    StepOk {
        energy: system.energy(),
        halted: system.crew().count() == 0,
    }
}

impl Machine {
    /// Returns the machine before the first step, in the opening state of a source whose full voxels are grounded.
    pub fn start<L: Ledger>(
        alloc: Global,
        source: Planes,
        profile: Profile,
        steps: &mut Steps<L>,
    ) -> Result<Machine, Memory>
        requires grounded { FirstUngrounded source None }
        requires seeds { profile.seeds ≤ 39 }
        ensures value { IfOk result (λ m. m ≡ record { state = opening_of source profile; steps = 0; spent = false }) }
        ensures well_formed { IfOk result (λ m. IsFalse (is_full source origin) → IsWellFormed m.state) }
        ensures touches { IfOk result (λ _. steps.new ≤ steps.old + 91 * volume source.resolution) }
    {
        opening_is_ready();
        ready_and_well_formed();
        source.recall();
        let forest = Forest::of(alloc, &source, steps)?;
        let changed = ChangeList::with_room(alloc, MOST_CHANGED)?;
        let system = System::opening(source, profile);
        Ok(Machine {
            alloc,
            system,
            forest,
            turns: Turns::new(),
            changed,
            steps: 0,
            spent: false,
        })
    }

    /// Returns a machine in the state of these parts, after `steps_done` steps. At most 91 touches for each voxel.
    pub fn at<L: Ledger>(
        alloc: Global,
        matrix: Planes,
        crew: Crew,
        harmonics: Harmonics,
        energy: i64,
        steps_done: u32,
        profile: Profile,
        steps: &mut Steps<L>,
    ) -> Result<Machine, Memory>
        requires { IsMachineState (state_with matrix crew harmonics energy profile) steps_done }
        ensures value { IfOk result
            (λ m. m ≡ record
            { state = state_with matrix crew harmonics energy profile; steps = steps_done; spent = false }) }
        ensures touches { IfOk result (λ _. steps.new ≤ steps.old + 91 * volume matrix.resolution) }
    {
        let forest = Forest::of(alloc, &matrix, steps)?;
        let changed = ChangeList::with_room(alloc, MOST_CHANGED)?;
        let system = System::at(matrix, crew, harmonics, energy, profile);
        Ok(Machine {
            alloc,
            system,
            forest,
            turns: Turns::new(),
            changed,
            steps: steps_done,
            spent: false,
        })
    }

    /// Returns another machine in the same state after as many steps, which is not poisoned. At most 91 touches for each voxel.
    pub fn anew<L: Ledger>(&self, alloc: Global, steps: &mut Steps<L>) -> Result<Machine, Memory>
        requires { IsWellFormed self.now.state }
        ensures value { IfOk result (λ m. m ≡ record self.now { spent = false }) }
        ensures touches { IfOk result (λ _. steps.new ≤ steps.old + 91 * volume self.now.state.matrix.resolution) }
    {
        let matrix = self.matrix().copy(alloc)?;
        Machine::at(
            alloc,
            matrix,
            self.crew().copy(),
            self.harmonics(),
            self.energy(),
            self.steps_done(),
            self.profile(),
            steps,
        )
    }

    /// Makes one step: the i-th command is for the i-th bot. Allocation may fail only if some command fills or voids.
    pub fn step<L: Ledger>(
        &mut self,
        commands: &[Command],
        steps: &mut Steps<L>,
    ) -> Result<StepOk, StepFault>
        requires some { 1 ≤ length self.old.state.bots }
        requires few { length commands.now ≤ length self.old.state.bots }
        requires steps { self.old.steps < 1073741824 }
        ensures stepped { Stepped self.old self.new commands.now result steps.old steps.new }
        ensures memory { result ≡ Err StepFault.Memory → 1 ≤ count_by is_edit commands.now }
    {
        if commands.len() == 1 {
            let mut fault = StepFault::Spent;
            match self.step_alone(&commands[0], &mut fault, steps) {
                Tried::Made => {
                    return Ok(StepOk {
                        energy: self.system.energy(),
                        halted: false,
                    });
                }
                Tried::Refused => return Err(fault),
                Tried::Declined => {}
            }
        }
        self.make_step(commands, None, steps)
    }

    /// [`Machine::step`] with the groups applied one after another in the given order of their leaders, some order of
    /// [`Machine::leaders`]. The answer is the same.
    pub fn step_in_order<L: Ledger>(
        &mut self,
        commands: &[Command],
        order: &[u8],
        steps: &mut Steps<L>,
    ) -> Result<StepOk, StepFault>
        requires some { 1 ≤ length self.old.state.bots }
        requires commands { length commands.now ≡ length self.old.state.bots }
        requires order { IsPermutation (leader_bids (acts self.old.state.bots commands.now)) order.now }
        requires steps { self.old.steps < 1073741824 }
        ensures stepped { Stepped self.old self.new commands.now result steps.old steps.new }
        ensures memory { result ≡ Err StepFault.Memory → 1 ≤ count_by is_edit commands.now }
        ensures serial { IfOk result (λ _. serial self.old.state commands.now order.now ≡ Some self.new.state) }
    {
        every_order();
        self.recall();
        self.make_step(commands, Some(order), steps)
    }

    /// Returns the bids of the leaders of the step's groups, in rising order, even if the step breaks a rule.
    pub fn leaders(&self, commands: &[Command]) -> ArrayVec<u8, MOST_BOTS>
        requires { length commands.now ≡ length self.now.state.bots }
        ensures { result.items ≡ leader_bids (acts self.now.state.bots commands.now) }
    {
        leaders(self.system.crew(), commands)
    }

    /// Makes a step. Its groups are applied in the given order, or in rising order without one.
    pub fn make_step<L: Ledger>(
        &mut self,
        commands: &[Command],
        order: Option<&[u8]>,
        steps: &mut Steps<L>,
    ) -> Result<StepOk, StepFault>
        requires some { 1 ≤ length self.old.state.bots }
        requires few { length commands.now ≤ length self.old.state.bots }
        requires commands { IfSome order (λ _. length commands.now ≡ length self.old.state.bots) }
        requires order { IfSome order (λ o. IsPermutation (leader_bids (acts self.old.state.bots commands.now)) o.now) }
        requires steps { self.old.steps < 1073741824 }
        ensures stepped { Stepped self.old self.new commands.now result steps.old steps.new }
        ensures memory { result ≡ Err StepFault.Memory → 1 ≤ count_by is_edit commands.now }
    {
        if self.spent {
            return Err(StepFault::Spent);
        }
        let step = self.steps + 1;
        recall_step(&self.system, commands);
        if let Some(broken) = self.system.judge(commands, step, &mut self.turns, steps) {
            return Err(StepFault::Broken(broken));
        }
        match settle_unlisted(
            &self.system,
            commands,
            step,
            &self.turns,
            &mut self.changed,
            &mut self.forest,
            steps,
        ) {
            Ok(()) => {}
            Err(fault) => {
                self.spent = true;
                return Err(fault);
            }
        }
        take_turns(&mut self.system, commands, &mut self.turns, order, steps);
        self.steps = step;
        Ok(tell_made(&self.system))
    }

    /// Proof aid: exposes that the bots are a crew, that the state is ready for a step, and that the profile gives no more seeds
    /// than there are bids. No effect.
    #[inline(always)]
    pub fn recall(&self)
        ensures crew { IsCrew self.now.state.bots }
        ensures ready { IsReady self.now.state }
        ensures seeds { self.now.state.profile.seeds ≤ 39 }
    {
        self.system.recall();
    }

    /// Returns the number of active bots.
    pub fn active(&self) -> u8
        ensures { result ≡ length self.now.state.bots }
    {
        self.system.crew().count()
    }

    /// Returns the energy spent so far.
    pub fn energy(&self) -> i64
        ensures value { result ≡ self.now.state.energy }
        ensures paid { IsEnergyBounded self.now.state.energy self.now.steps }
    {
        self.system.energy()
    }

    /// Returns the profile.
    pub fn profile(&self) -> Profile
        ensures value { result ≡ self.now.state.profile }
        ensures seeds { self.now.state.profile.seeds ≤ 39 }
    {
        self.recall();
        self.system.profile()
    }

    /// Returns the state of the system, in which a caller can judge the commands of a step without making it.
    pub fn system(&self) -> &System
        ensures { result.now ≡ self.now.state }
    {
        &self.system
    }

    /// Returns the number of steps made, at most 2 to the power of 30.
    pub fn steps_done(&self) -> u32
        ensures value { result ≡ self.now.steps }
        ensures most { result ≤ 1073741824 }
    {
        self.steps
    }

    /// Returns the harmonics.
    pub fn harmonics(&self) -> Harmonics
        ensures { result ≡ self.now.state.harmonics }
    {
        self.system.harmonics()
    }

    /// Returns the active bots, in rising order of their bids.
    pub fn crew(&self) -> &Crew
        ensures value { result.now ≡ self.now.state.bots }
        ensures crew { IsCrew self.now.state.bots }
        ensures ready { IsReady self.now.state }
    {
        self.system.crew()
    }

    /// Returns the matrix.
    pub fn matrix(&self) -> &Planes
        ensures value { result.now ≡ self.now.state.matrix }
        ensures whole { IsWhole self.now.state.matrix }
    {
        self.system.matrix()
    }

    /// Returns the level of a voxel, or `None` if it is void or not grounded. At most two touches.
    pub fn level<L: Ledger>(&self, c: Coord, steps: &mut Steps<L>) -> Option<u32>
        requires stands { self.now.spent ≡ false }
        requires within { IsInSpace self.now.state.matrix.resolution c }
        ensures value { Level self.now.state.matrix c result }
        ensures touches { steps.new ≤ steps.old + 2 }
    {
        self.forest.level(c, steps)
    }

    /// Returns the levels of the matrix.
    pub fn forest(&self) -> &Forest
        requires { self.now.spent ≡ false }
        ensures matrix { result.now.matrix ≡ self.now.state.matrix }
        ensures stands { result.now.spent ≡ false }
    {
        &self.forest
    }

    /// Returns whether the machine is poisoned: an earlier step broke the rule of grounding or ran out of memory.
    pub fn spent(&self) -> bool
        ensures { result ≡ self.now.spent }
    {
        self.spent
    }
}
