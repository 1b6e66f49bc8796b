//! The tape.
ghost use Rattle.std.specs.List.{AllByRecursion, Contains};
ghost use Rattle.std.specs.Prelude.{◌≡◌, ◌+◌, ◌*◌, ◌++◌, ◌<◌, ◌≤◌, ◌+ℤ◌, ◌≤ℤ◌, All, Bool, ◌∷◌, [], IfOk, IsTrue, OnOk, OnErr, cond, length, neg_ℤ, negsuc, pos, true, false, vec_capacity, vec_len};
ghost use Rattle.vox_geom.specs.declared.coordinate.Coord.{Coord as Coordinate};
ghost use Rattle.vox_geom.specs.Region.{Span};
ghost use Rattle.vox_geom.specs.Space.{IsInSpace};
ghost use Rattle.nano_spec.specs.Act.{Act, acts};
ghost use Rattle.nano_spec.specs.Bots.{fused, successors};
ghost use Rattle.nano_spec.specs.Group.{is_pair};
ghost use Rattle.nano_spec.specs.Cutting.{AreCommands};
ghost use Rattle.nano_spec.specs.Grounded.{FirstUngrounded};
ghost use Rattle.nano_spec.specs.Matrix.{Matrix as MatrixValue, is_full as is_full_of};
ghost use Rattle.nano_spec.specs.Profile.{full_profile};
ghost use Rattle.nano_spec.specs.Rules.{broken as broken_of};
ghost use Rattle.nano_spec.specs.Spelling.{spellings};
ghost use Rattle.nano_spec.specs.State.{IsReady, origin};
ghost use Rattle.nano_spec.specs.Step.{after, flipped};
ghost use Rattle.vox_planes.specs.Voxel.{IsWhole, with_voxel};
ghost use Rattle.bot_crew.specs.Crew.{IsCrew};
ghost use Rattle.step_order.specs.Acting.{with_region};
ghost use Rattle.step_order.specs.Unbroken.{AreFree, AreOneGroup};
ghost use Rattle.plan_tape.specs.Crowd.{AllStep, AreCalm, CalmStep, CanMoveAll, CanPaintAll, FillsOrWaits, FusesOrWaits, SplitsOrWaits, bots_fused, bots_gone, bots_split, with_fills};
ghost use Rattle.plan_tape.specs.Leg.{AreVoidTo, MayMove, Moves, moves_to as moves_to_of};
ghost use Rattle.plan_tape.specs.Reaches.{Reaches};
ghost use Rattle.plan_tape.specs.Progress.{AreAlike, IsAccepted, IsAllowed, IsBounded, IsHeld, IsReachable, Writes, beside as beside_of, bytes, spot, starting, state_of, tape_stepped, upkeep_of_step};

use crate::axis::{Axis, cost_of_way, moves_to, push_leg};
use crate::costs::{charge, upkeep_of_steps};
use crate::several::advance;
use bot_crew::Crew;
use nano_spec::{Command, CommandList, Harmonics, Profile};
use std::alloc::Global;
use std::marker::Model;
use step_order::{bots_act, free_bots_break_no_rule, one_group_acts, one_group_breaks_no_rule};
use system_state::{System, Turns, recall_all};
use vox_geom::{Coord, Diff, Memory, Near};
use vox_planes::Planes;
use voxel_reads::is_full;

/// A plan: its commands, and the energy and the number of steps with which the definitions accept them.
#[derive(Drop)]
pub struct Plan {
    pub commands: CommandList,
    pub energy: i64,
    pub steps: u32,
}

/// A plan in the making: the source, the commands so far, and the state that they reach, every step accepted. A call that runs out
/// of memory leaves the tape as it was.
#[derive(Drop)]
pub struct Tape {
    source: Planes,
    commands: Vec<Command>,
    system: System,
    turns: Turns,
    steps: u32,
}

impl Model for Tape {
    ghost use Rattle.plan_tape.specs.Progress.{TapeState, IsReached, progress_of};

    ghost Value = { TapeState };

    ghost view = { λ t. progress_of t.source t.commands.items t.system t.steps };

    ghost invariant = { λ t. IsReached (progress_of t.source t.commands.items t.system t.steps) };
}

/// Reserves capacity for `count` more commands.
fn take_room(commands: &mut Vec<Command>, count: u32) -> Result<(), Memory>
    ensures items { commands.new.items ≡ commands.old.items }
    ensures len { vec_len commands.new ≡ vec_len commands.old }
    ensures room { OnOk result (vec_len commands.old + count ≤ vec_capacity commands.new) }
{
    commands.reserve(count as usize)?;
    Ok(())
}

/// Appends a command. If allocation fails, the commands stay as they were.
fn write(commands: &mut Vec<Command>, command: Command) -> Result<(), Memory>
    ensures ok { OnOk result (commands.new.items ≡ commands.old.items ++ command ∷ []) }
    ensures err { OnErr result (commands.new.items ≡ commands.old.items) }
{
    take_room(commands, 1)?;
    commands.push_reserved(command);
    Ok(())
}

/// Appends commands. If allocation fails, the commands stay as they were.
fn write_all(commands: &mut Vec<Command>, more: &[Command]) -> Result<(), Memory>
    ensures ok { OnOk result (commands.new.items ≡ commands.old.items ++ more.now) }
    ensures err { OnErr result (commands.new.items ≡ commands.old.items) }
{
    match commands.extend_from_slice(more) {
        Ok(()) => Ok(()),
        Err(_) => Err(Memory),
    }
}

impl Tape {
    /// Returns the tape before the first command, with the profile of the contest. The source is grounded.
    pub fn start(alloc: Global, source: Planes) -> Result<Tape, Memory>
        requires grounded { FirstUngrounded source None }
        ensures { IfOk result (λ t. t ≡ starting source full_profile) }
    {
        Tape::start_as(alloc, source, Profile::full())
    }

    /// Returns the tape before the first command, with this profile. The source is grounded.
    pub fn start_as(alloc: Global, source: Planes, profile: Profile) -> Result<Tape, Memory>
        requires grounded { FirstUngrounded source None }
        requires seeds { profile.seeds ≤ 39 }
        ensures { IfOk result (λ t. t ≡ starting source profile) }
    {
        let matrix = source.copy(alloc)?;
        let system = System::opening(matrix, profile);
        Ok(Tape {
            source,
            commands: Vec::new(alloc),
            system,
            turns: Turns::new(),
            steps: 0,
        })
    }

    /// Returns the matrix.
    pub fn matrix(&self) -> &Planes
        ensures value { result.now ≡ self.now.matrix }
        ensures whole { IsWhole self.now.matrix }
    {
        self.system.matrix()
    }

    /// Returns the active bots.
    pub fn crew(&self) -> &Crew
        ensures value { result.now ≡ self.now.bots }
        ensures crew { IsCrew self.now.bots }
        ensures within { All (λ b. IsInSpace self.now.matrix.resolution b.pos) self.now.bots }
    {
        self.system.crew()
    }

    /// Returns the harmonics.
    pub fn harmonics(&self) -> Harmonics
        ensures value { result ≡ self.now.harmonics }
        ensures held { IsHeld self.now.harmonics self.now.matrix }
    {
        self.system.harmonics()
    }

    /// Returns the energy so far.
    pub fn energy(&self) -> i64
        ensures { result ≡ self.now.energy }
    {
        self.system.energy()
    }

    /// Returns the number of steps made, at most 2^30.
    pub fn steps_done(&self) -> u32
        ensures value { result ≡ self.now.steps }
        ensures most { result ≤ 1073741824 }
    {
        self.steps
    }

    /// Returns the position of the only bot.
    fn spot(&self) -> Coord
        requires { length self.now.bots ≡ 1 }
        ensures value { result ≡ spot self.now.bots }
        ensures within { IsInSpace self.now.matrix.resolution result }
    {
        let bot = self.crew().bots()[0];
        bot.pos
    }

    /// Returns the coordinate that the difference leads to from the only bot.
    fn beside(&self, d: Diff) -> Coord
        requires alone { length self.now.bots ≡ 1 }
        requires reachable { IsReachable self.now d }
        ensures value { result ≡ beside_of self.now d }
        ensures within { IsInSpace self.now.matrix.resolution result }
    {
        let at = self.spot();
        let Some(beside) = at.plus(d, self.matrix().resolution()) else {
            unreachable!()
        };
        beside
    }

    /// Returns the energy after `count` more steps of the only bot with this total cost beyond their upkeep.
    fn energy_after(&self, count: u32, cost: i64) -> i64
        requires alone { length self.now.bots ≡ 1 }
        requires limit { self.now.steps + count ≤ 1073741824 }
        requires low { neg_ℤ (pos (12 * count)) ≤ℤ cost }
        requires high { cost ≤ℤ pos (30 * count) }
        ensures value { result ≡ (self.now.energy +ℤ pos (count * upkeep_of_step self.now)) +ℤ cost }
        ensures bounded { IsBounded result (self.now.steps + count) }
    {
        let resolution = self.system.matrix().resolution();
        let upkeep = upkeep_of_steps(count, resolution, self.system.harmonics());
        charge(self.system.energy(), self.steps, count, upkeep, cost)
    }

    /// Writes one step of all bots: the i-th command is for the i-th bot. If harmonics are Low then, each full voxel is grounded.
    pub fn step(&mut self, commands: &[Command]) -> Result<(), Memory>
        requires some { 1 ≤ length self.old.bots }
        requires commands { length commands.now ≡ length self.old.bots }
        requires unbroken { broken_of (state_of self.old) commands.now (self.old.steps + 1) ≡ None }
        requires held { IsHeld (tape_stepped self.old commands.now).harmonics
            (tape_stepped self.old commands.now).matrix }
        requires limit { self.old.steps < 1073741824 }
        ensures ok { OnOk result (self.new ≡ tape_stepped self.old commands.now) }
        ensures bytes { OnOk result (bytes self.new ≡ bytes self.old + length (spellings commands.now)) }
        ensures err { OnErr result (self.new ≡ self.old) }
    {
        write_all(&mut self.commands, commands)?;
        advance(&mut self.system, &mut self.turns, commands);
        self.steps += 1;
        Ok(())
    }

    /// Proof aid: the definitions reach the state from the source by the commands, every step accepted. No effect.
    pub fn recall_reached(&self)
        ensures reached { Reaches self.now.source self.now.profile self.now.commands (state_of self.now)
            self.now.steps }
    {
        let _ = &self.source;
    }

    /// Proof aid: the matrix has a voxel for each coordinate of a resolution of 1 to 400. No effect.
    pub fn recall_whole(&self)
        ensures whole { IsWhole self.now.matrix }
    {
        self.system.recall();
    }

    /// Proof aid: the state is ready for a step. No effect.
    pub fn recall_ready(&self)
        ensures ready { IsReady (state_of self.now) }
        ensures held { IsHeld self.now.harmonics self.now.matrix }
    {
        self.system.recall();
    }

    /// Writes a step in which no bot flips or acts in a group but to fuse: each command is possible, and any two bots fuse or do
    /// not interfere. Under Low, each full voxel is grounded then.
    pub fn act_all(&mut self, commands: &[Command]) -> Result<(), Memory>
        requires some { 1 ≤ length self.old.bots }
        requires commands { length commands.now ≡ length self.old.bots }
        requires calm { AreCalm self.old commands.now }
        requires held { IsHeld self.old.harmonics (after (state_of self.old) commands.now).matrix }
        requires limit { self.old.steps < 1073741824 }
        ensures ok { OnOk result (CalmStep self.old self.new commands.now) }
        ensures err { OnErr result (self.new ≡ self.old) }
    {
        free_bots_break_no_rule();
        bots_act();
        self.recall_ready();
        self.step(commands)
    }

    /// Writes a step in which each bot waits or makes a move along an axis. The paths are free and disjoint.
    pub fn move_all(&mut self, commands: &[Command]) -> Result<(), Memory>
        requires some { 1 ≤ length self.old.bots }
        requires commands { length commands.now ≡ length self.old.bots }
        requires moves { CanMoveAll self.old commands.now }
        requires limit { self.old.steps < 1073741824 }
        ensures ok { OnOk result
            (AllStep self.old self.new commands.now self.old.matrix self.old.harmonics
            (bots_gone self.old.bots commands.now)) }
        ensures err { OnErr result (self.new ≡ self.old) }
    {
        bots_act();
        self.recall_ready();
        self.act_all(commands)
    }

    /// Writes a step in which all bots make one region full or void together, under High.
    pub fn paint_all(&mut self, commands: &[Command]) -> Result<(), Memory>
        requires some { 1 ≤ length self.old.bots }
        requires commands { length commands.now ≡ length self.old.bots }
        requires group { CanPaintAll self.old commands.now }
        requires high { self.old.harmonics ≡ Harmonics.High }
        requires limit { self.old.steps < 1073741824 }
        ensures ok { OnOk result
            ((region : Span) (full : Bool)
            → AreOneGroup (state_of self.old) region full (acts self.old.bots commands.now)
            → AllStep self.old self.new commands.now (with_region self.old.matrix region full) self.old.harmonics
            self.old.bots) }
        ensures err { OnErr result (self.new ≡ self.old) }
    {
        one_group_breaks_no_rule();
        one_group_acts();
        self.recall_ready();
        self.step(commands)
    }

    /// Writes a step in which each bot fills a neighbor or waits; they do not interfere. Under Low, each full voxel is grounded
    /// then.
    pub fn fill_all(&mut self, fills: &[Command]) -> Result<(), Memory>
        requires some { 1 ≤ length self.old.bots }
        requires commands { length fills.now ≡ length self.old.bots }
        requires fills { AllByRecursion FillsOrWaits fills.now }
        requires free { AreFree (state_of self.old) (acts self.old.bots fills.now) }
        requires held { IsHeld self.old.harmonics (with_fills self.old.matrix (acts self.old.bots fills.now)) }
        requires limit { self.old.steps < 1073741824 }
        ensures ok { OnOk result
            (AllStep self.old self.new fills.now (with_fills self.old.matrix (acts self.old.bots fills.now))
            self.old.harmonics self.old.bots) }
        ensures err { OnErr result (self.new ≡ self.old) }
    {
        bots_act();
        self.recall_ready();
        self.act_all(fills)
    }

    /// Writes a step in which each bot splits (fission) or waits; they do not interfere.
    pub fn split_all(&mut self, splits: &[Command]) -> Result<(), Memory>
        requires some { 1 ≤ length self.old.bots }
        requires commands { length splits.now ≡ length self.old.bots }
        requires splits { AllByRecursion SplitsOrWaits splits.now }
        requires free { AreFree (state_of self.old) (acts self.old.bots splits.now) }
        requires limit { self.old.steps < 1073741824 }
        ensures ok { OnOk result
            (AllStep self.old self.new splits.now self.old.matrix self.old.harmonics
            (bots_split self.old.bots splits.now)) }
        ensures err { OnErr result (self.new ≡ self.old) }
    {
        bots_act();
        self.recall_ready();
        self.act_all(splits)
    }

    /// Writes a step in which each bot fuses with another or waits; bots that do not fuse with each other do not interfere.
    pub fn fuse_all(&mut self, fusions: &[Command]) -> Result<(), Memory>
        requires some { 1 ≤ length self.old.bots }
        requires commands { length fusions.now ≡ length self.old.bots }
        requires fuses { AllByRecursion FusesOrWaits fusions.now }
        requires free { AreFree (state_of self.old) (acts self.old.bots fusions.now) }
        requires limit { self.old.steps < 1073741824 }
        ensures ok { OnOk result
            (AllStep self.old self.new fusions.now self.old.matrix self.old.harmonics
            (bots_fused self.old.bots fusions.now)) }
        ensures primary { (first second : Act) → Contains (acts self.old.bots fusions.now) first
            → Contains (acts self.old.bots fusions.now) second → IsTrue (is_pair first second)
            → successors (acts self.old.bots fusions.now) first first.command ≡ fused first.bot second.bot ∷ [] }
        ensures err { OnErr result (self.new ≡ self.old) }
    {
        bots_act();
        self.recall_ready();
        self.act_all(fusions)
    }

    /// Writes a Flip of the only bot. If harmonics are Low then, each full voxel is grounded.
    pub fn flip(&mut self) -> Result<(), Memory>
        requires alone { length self.old.bots ≡ 1 }
        requires allowed { IsAllowed self.old Command.Flip }
        requires held { IsHeld (flipped self.old.harmonics) self.old.matrix }
        requires limit { self.old.steps < 1073741824 }
        ensures ok { OnOk result
            (Writes self.old self.new Command.Flip self.old.matrix (flipped self.old.harmonics) self.old.bots (pos 0)) }
        ensures err { OnErr result (self.new ≡ self.old) }
    {
        let energy = self.energy_after(1, 0);
        write(&mut self.commands, Command::Flip)?;
        self.system.set_energy(energy);
        self.system.set_harmonics(self.system.harmonics().flipped());
        self.steps += 1;
        Ok(())
    }

    /// Writes a Fill of the only bot at the difference. Under Low, each full voxel is grounded then.
    pub fn fill(&mut self, d: Near) -> Result<(), Memory>
        requires alone { length self.old.bots ≡ 1 }
        requires allowed { IsAllowed self.old (Command.Fill d) }
        requires reachable { IsReachable self.old d }
        requires held { IsHeld self.old.harmonics (with_voxel self.old.matrix (beside_of self.old d) true) }
        requires limit { self.old.steps < 1073741824 }
        ensures ok { OnOk result
            (Writes self.old self.new (Command.Fill d) (with_voxel self.old.matrix (beside_of self.old d) true)
            self.old.harmonics self.old.bots
            (cond (is_full_of self.old.matrix (beside_of self.old d)) (pos 6) (pos 12))) }
        ensures err { OnErr result (self.new ≡ self.old) }
    {
        let at = self.beside(d.diff());
        let cost = if is_full(self.matrix(), at) { 6 } else { 12 };
        let energy = self.energy_after(1, cost);
        write(&mut self.commands, Command::Fill(d))?;
        self.system.set_energy(energy);
        self.system.set_voxel(at, true);
        self.steps += 1;
        Ok(())
    }

    /// Writes a Void of the only bot at the difference. Under Low, each full voxel is grounded then.
    pub fn void(&mut self, d: Near) -> Result<(), Memory>
        requires alone { length self.old.bots ≡ 1 }
        requires allowed { IsAllowed self.old (Command.Void d) }
        requires reachable { IsReachable self.old d }
        requires held { IsHeld self.old.harmonics (with_voxel self.old.matrix (beside_of self.old d) false) }
        requires limit { self.old.steps < 1073741824 }
        ensures ok { OnOk result
            (Writes self.old self.new (Command.Void d) (with_voxel self.old.matrix (beside_of self.old d) false)
            self.old.harmonics self.old.bots
            (cond (is_full_of self.old.matrix (beside_of self.old d)) (negsuc 11) (pos 3))) }
        ensures err { OnErr result (self.new ≡ self.old) }
    {
        let at = self.beside(d.diff());
        let cost = if is_full(self.matrix(), at) { -12 } else { 3 };
        let energy = self.energy_after(1, cost);
        write(&mut self.commands, Command::Void(d))?;
        self.system.set_energy(energy);
        self.system.set_voxel(at, false);
        self.steps += 1;
        Ok(())
    }

    /// Writes the fewest moves of the only bot to a coordinate along x, then y, then z. The three paths are void.
    pub fn go(&mut self, to: Coord) -> Result<(), Memory>
        requires alone { length self.old.bots ≡ 1 }
        requires allowed { MayMove self.old }
        requires within { IsInSpace self.old.matrix.resolution to }
        requires ways { AreVoidTo self.old.matrix (spot self.old.bots) to }
        requires limit { self.old.steps + moves_to_of (spot self.old.bots) to ≤ 1073741824 }
        ensures ok { OnOk result (Moves self.old self.new to) }
        ensures err { OnErr result (self.new ≡ self.old) }
    {
        let from = self.spot();
        let bid = self.system.crew().bots()[0].bid;
        let count = moves_to(from, to);
        let energy = self.energy_after(count, cost_of_way(from, to));
        take_room(&mut self.commands, count)?;
        push_leg(&mut self.commands, Axis::X, from.x, to.x);
        push_leg(&mut self.commands, Axis::Y, from.y, to.y);
        push_leg(&mut self.commands, Axis::Z, from.z, to.z);
        self.system.move_to(bid, to);
        self.system.set_energy(energy);
        self.steps += count;
        Ok(())
    }

    /// Writes a Halt of the only bot at the origin, under Low.
    pub fn halt(&mut self) -> Result<(), Memory>
        requires alone { length self.old.bots ≡ 1 }
        requires allowed { IsAllowed self.old Command.Halt }
        requires home { spot self.old.bots ≡ origin }
        requires low { self.old.harmonics ≡ Harmonics.Low }
        requires limit { self.old.steps < 1073741824 }
        ensures ok { OnOk result (Writes self.old self.new Command.Halt self.old.matrix self.old.harmonics [] (pos 0)) }
        ensures err { OnErr result (self.new ≡ self.old) }
    {
        let energy = self.energy_after(1, 0);
        write(&mut self.commands, Command::Halt)?;
        self.system.set_energy(energy);
        self.system.halt();
        self.steps += 1;
        Ok(())
    }

    /// Returns the plan. The definitions accept it for every target that has the tape's voxels. Does not allocate.
    pub fn finish(self) -> Plan
        requires { self.bots ≡ [] }
        ensures commands { result.commands ≡ self.commands }
        ensures energy { result.energy ≡ self.energy }
        ensures steps { result.steps ≡ self.steps }
        ensures are_commands { AreCommands result.commands }
        ensures accepted { (target : MatrixValue) → AreAlike self.matrix target
            → IsAccepted self.source target result.commands self.profile result.energy result.steps }
    {
        recall_all(&self.commands);
        Plan {
            commands: CommandList::from_vec(self.commands),
            energy: self.system.energy(),
            steps: self.steps,
        }
    }
}
