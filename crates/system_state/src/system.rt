//! The state of the system.
ghost use Rattle.std.specs.Prelude.{◌≡◌, ℕ, ◌+◌, ◌*◌, ◌≤◌, ◌<◌, pos, ◌+ℤ◌, [], ◌∷◌, ◌++◌, List, length, map, All, IfNone, IfSome, IsPermutation, None, Some};
ghost use Rattle.vox_geom.specs.Space.{IsInSpace};
ghost use Rattle.nano_spec.specs.declared.commands.Command.{Command as Trace};
ghost use Rattle.nano_spec.specs.declared.commands.Command.TheVariants.{LMove, SMove};
ghost use Rattle.nano_spec.specs.declared.system.Bot.{Bot as ActiveBot};
ghost use Rattle.nano_spec.specs.Act.{acts};
ghost use Rattle.nano_spec.specs.Group.{leaders};
ghost use Rattle.nano_spec.specs.Energy.{upkeep as upkeep_of};
ghost use Rattle.nano_spec.specs.Rules.{broken as broken_of, judge_trace};
ghost use Rattle.nano_spec.specs.Serial.{leader_bids};
ghost use Rattle.nano_spec.specs.State.{IsReady, opening as opening_of};
ghost use Rattle.nano_spec.specs.Step.{after, harmonics_after};
ghost use Rattle.nano_spec.specs.Work.{volatile_total};
ghost use Rattle.bot_crew.specs.Crew.{IsCrew, bot_of};
ghost use Rattle.step_groups.specs.Judging.{act, edit_of};
ghost use Rattle.vox_planes.specs.Layers.{bit_index};
ghost use Rattle.vox_planes.specs.Voxel.{IsWhole, with_voxel};
ghost use Rattle.system_state.specs.Bounds.{IsAfterTurn, IsPayable, IsTurnCost, IsTurnPayable, IsWithin};
ghost use Rattle.system_state.specs.Edited.{edit_cost};
ghost use Rattle.system_state.specs.Effects.{MayTake, after_turn};
ghost use Rattle.system_state.specs.Painting.{met_count};
ghost use Rattle.system_state.specs.Turns.{AreAllTurns, AreTurns, FollowsOn, bots_after_some, leader_of};

mod alone;
mod parts;

use crate::known::recall_all;
use crate::moves::{move_bots, target};
use crate::prices::{add_cost, cost_of_moves, upkeep_at};
use crate::turns::{Turn, Turns, list_lone_turns, list_turns, turn_of};
use crate::voxels::pay_turn;
use alone::{cost_of_edit, cost_of_move};
use bot_crew::{Crew, crew_is_ready, group_is_replaced};
use energy_sum::space_upkeep;
use nano_spec::{Bot, Broken, Command, Harmonics, Profile, Rule};
use std::marker::Model;
use std::sync::ledger::Ledger;
use step_groups::{Step, all_act_alone, number_groups};
use step_order::groups_take_turns;
use vox_geom::{Coord, Long, Near, Short, Steps};
use vox_planes::Planes;

/// Returns the harmonics after a command: the opposite after a Flip.
fn harmonics_by(harmonics: Harmonics, command: &Command) -> Harmonics
    ensures { (bot : ActiveBot) → result ≡ harmonics_after harmonics (act bot command.now ∷ []) }
{
    if matches!(command, Command::Flip) {
        harmonics.flipped()
    } else {
        harmonics
    }
}

/// The state of the system. Contracts see the state of the definitions; it is ready for a step at all times.
#[derive(Drop)]
pub struct System {
    matrix: Planes,
    crew: Crew,
    harmonics: Harmonics,
    // The share of the space in the upkeep of a step: only a Flip changes it.
    space: u32,
    energy: i64,
    profile: Profile,
}

impl Model for System {
    ghost use Rattle.std.specs.Prelude.{◌≡◌, All};
    ghost use Rattle.energy_sum.specs.Costs.{space_upkeep};
    ghost use Rattle.vox_geom.specs.Space.{IsInSpace};
    ghost use Rattle.nano_spec.specs.State.{State};

    ghost Value = { State };

    ghost view = { λ s. record {
      matrix = s.matrix;
      harmonics = s.harmonics;
      bots = s.crew;
      energy = s.energy;
      profile = s.profile;
    } };

    ghost invariant = { λ s. All (λ b. IsInSpace s.matrix.resolution b.pos) s.crew
        × (s.space ≡ space_upkeep s.matrix.resolution s.harmonics) };
}

impl System {
    /// Returns the state before the first step.
    pub fn opening(source: Planes, profile: Profile) -> System
        requires { profile.seeds ≤ 39 }
        ensures { result ≡ opening_of source profile }
    {
        let space = space_upkeep(source.resolution(), Harmonics::Low);
        System {
            matrix: source,
            crew: Crew::opening(profile),
            harmonics: Harmonics::Low,
            space,
            energy: 0,
            profile,
        }
    }

    /// Returns the state with these parts.
    pub fn at(
        matrix: Planes,
        crew: Crew,
        harmonics: Harmonics,
        energy: i64,
        profile: Profile,
    ) -> System
        requires { All (λ b. IsInSpace matrix.resolution b.pos) crew }
        ensures { result
            ≡ record { matrix = matrix; harmonics = harmonics; bots = crew; energy = energy; profile = profile } }
    {
        let space = space_upkeep(matrix.resolution(), harmonics);
        System {
            matrix,
            crew,
            harmonics,
            space,
            energy,
            profile,
        }
    }

    /// Returns the matrix.
    pub fn matrix(&self) -> &Planes
        ensures value { result.now ≡ self.now.matrix }
        ensures whole { IsWhole self.now.matrix }
    {
        self.recall();
        &self.matrix
    }

    /// Returns the active bots, in rising order of their bids.
    pub fn crew(&self) -> &Crew
        ensures value { result.now ≡ self.now.bots }
        ensures crew { IsCrew self.now.bots }
        ensures ready { IsReady self.now }
    {
        self.recall();
        &self.crew
    }

    /// Proof aid: exposes that the matrix is whole, the bots are a crew, and the state is ready for a step. No effect.
    #[inline(always)]
    pub fn recall(&self)
        ensures whole { IsWhole self.now.matrix }
        ensures crew { IsCrew self.now.bots }
        ensures ready { IsReady self.now }
    {
        crew_is_ready();
        self.matrix.recall();
        self.crew.recall();
    }

    /// Returns the harmonics.
    pub fn harmonics(&self) -> Harmonics
        ensures { result ≡ self.now.harmonics }
    {
        self.harmonics
    }

    /// Returns the energy spent so far.
    pub fn energy(&self) -> i64
        ensures { result ≡ self.now.energy }
    {
        self.energy
    }

    /// Returns the profile.
    pub fn profile(&self) -> Profile
        ensures { result ≡ self.now.profile }
    {
        self.profile
    }

    /// Judges the commands of a step by the rules that depend only on the state at its start: returns the first broken rule, or
    /// `None` with the turns of the groups. Reads voxels only if each bot has a command.
    pub fn judge<L: Ledger>(
        &self,
        commands: &[Command],
        step: u32,
        turns: &mut Turns,
        steps: &mut Steps<L>,
    ) -> Option<Broken>
        requires some { 1 ≤ length self.now.bots }
        requires few { length commands.now ≤ length self.now.bots }
        ensures value { result ≡ broken_of self.now commands.now step }
        ensures turns { IfNone result
            (AreTurns (acts self.now.bots commands.now) (leaders (acts self.now.bots commands.now)) turns.new) }
        ensures touches { steps.new ≤ steps.old + 2 * volatile_total self.now.matrix (acts self.now.bots commands.now) }
        ensures ends { length commands.now < length self.now.bots → steps.new ≡ steps.old }
    {
        let count = usize::from(self.crew.count());
        if commands.len() < count {
            return Some(self.trace_ends(commands.len(), step));
        }
        let judged = Step {
            planes: &self.matrix,
            harmonics: self.harmonics,
            profile: self.profile,
            bots: self.crew.bots(),
            commands,
            number: step,
        };
        if count == 1 {
            turns.judge_single(&judged, steps)
        } else if all_act_alone(commands) {
            turns.judge_lone(&judged, steps)
        } else {
            turns.judge_several(&judged, steps)
        }
    }

    /// Lists the turns of the groups of a step, from the commands alone, for a caller that knows that no rule is broken. Judges
    /// none.
    pub fn list_turns(&self, commands: &[Command], turns: &mut Turns)
        requires { length commands.now ≡ length self.now.bots }
        ensures { AreTurns (acts self.now.bots commands.now) (leaders (acts self.now.bots commands.now)) turns.new }
    {
        let bots = self.crew.bots();
        if all_act_alone(commands) {
            list_lone_turns(&mut turns.turns, bots);
            return;
        }
        let numbers = number_groups(bots, commands);
        list_turns(&mut turns.turns, bots, numbers.as_slice());
    }

    /// Returns that the trace ends within the step, before the command of the bot at an index.
    fn trace_ends(&self, place: usize, step: u32) -> Broken
        requires { place < length self.now.bots }
        ensures { (commands : List Trace) → length commands ≡ place → Some result ≡ judge_trace self.now commands step }
    {
        let bot = &self.crew.bots()[place];
        Broken {
            step,
            bid: bot.bid,
            rule: Rule::TraceEnds,
            at: bot.pos,
        }
    }

    /// Pays the upkeep of a step.
    #[inline(always)]
    fn pay_upkeep(&mut self)
        requires { IsPayable self.old.energy }
        ensures value { self.new ≡ record self.old { energy = self.old.energy +ℤ upkeep_of self.old } }
        ensures within { IsWithin 4611686020427387904 self.new.energy }
    {
        let bots = self.crew.count();
        self.pay_upkeep_of(bots);
    }

    /// [`System::pay_upkeep`] by the number of bots. A caller that knows it keeps it in a register.
    #[inline(always)]
    fn pay_upkeep_of(&mut self, bots: u8)
        requires payable { IsPayable self.old.energy }
        requires bots { bots ≡ length self.old.bots }
        requires few { bots ≤ 40 }
        ensures value { self.new ≡ record self.old { energy = self.old.energy +ℤ upkeep_of self.old } }
        ensures within { IsWithin 4611686020427387904 self.new.energy }
    {
        self.matrix.recall();
        let upkeep = upkeep_at(self.space, bots);
        self.energy = add_cost(self.energy, upkeep);
    }

    /// Pays the cost of a turn.
    #[inline(always)]
    fn pay(&mut self, cost: i64)
        requires payable { IsTurnPayable self.old.energy }
        requires small { IsTurnCost cost }
        ensures value { self.new ≡ record self.old { energy = self.old.energy +ℤ cost } }
        ensures within { IsAfterTurn self.old.energy self.new.energy }
    {
        self.energy = add_cost(self.energy, cost);
    }

    /// Applies a group, by the command of its leader. Waits, moves and edits of one voxel, the most frequent commands of many bots,
    /// take the fast path.
    #[inline(always)]
    fn take_turn<L: Ledger>(&mut self, turn: Turn, command: &Command, steps: &mut Steps<L>)
        requires may { IfSome (bot_of self.old.bots turn.leader)
            (λ bot. MayTake self.old.matrix.resolution self.old.bots bot turn.partner command.now) }
        requires payable { IsTurnPayable self.old.energy }
        ensures value { IfSome (bot_of self.old.bots turn.leader)
            (λ bot. self.new ≡ after_turn self.old bot turn.partner command.now) }
        ensures within { IsAfterTurn self.old.energy self.new.energy }
        ensures touches { IfSome (bot_of self.old.bots turn.leader)
            (λ bot. steps.new ≤ steps.old + met_count self.old.matrix bot command.now) }
    {
        self.matrix.recall();
        let Some(bot) = self.crew.bot(turn.leader) else {
            return;
        };
        match command {
            Command::Wait => {}
            Command::SMove(d) => self.take_move(bot, *d),
            Command::LMove(d, e) => self.take_moves(bot, *d, *e),
            Command::Fill(d) => self.take_edit(bot, *d, true, steps),
            Command::Void(d) => self.take_edit(bot, *d, false, steps),
            Command::Halt
            | Command::Flip
            | Command::FusionP(_)
            | Command::FusionS(_)
            | Command::Fission(_, _)
            | Command::GFill(_, _)
            | Command::GVoid(_, _) => self.take_other_turn(bot, turn.partner, command, steps),
        }
    }

    /// Applies an `SMove`.
    #[inline(always)]
    fn take_move(&mut self, bot: Bot, d: Long)
        requires may { (partner : ℕ) → MayTake self.old.matrix.resolution self.old.bots bot partner (SMove d) }
        requires payable { IsTurnPayable self.old.energy }
        ensures value { (partner : ℕ) → self.new ≡ after_turn self.old bot partner (SMove d) }
        ensures within { IsAfterTurn self.old.energy self.new.energy }
    {
        let to = target(self.matrix.resolution(), bot.pos, d.diff());
        self.move_to(bot.bid, to);
        self.pay(cost_of_move(d));
    }

    /// Applies a two-leg move.
    #[inline(always)]
    fn take_moves(&mut self, bot: Bot, d: Short, e: Short)
        requires may { (partner : ℕ) → MayTake self.old.matrix.resolution self.old.bots bot partner (LMove d e) }
        requires payable { IsTurnPayable self.old.energy }
        ensures value { (partner : ℕ) → self.new ≡ after_turn self.old bot partner (LMove d e) }
        ensures within { IsAfterTurn self.old.energy self.new.energy }
    {
        let resolution = self.matrix.resolution();
        let middle = target(resolution, bot.pos, d.diff());
        let to = target(resolution, middle, e.diff());
        self.move_to(bot.bid, to);
        self.pay(cost_of_moves(d, e));
    }

    /// Applies a bot's Fill (or Void).
    #[inline(always)]
    fn take_edit<L: Ledger>(&mut self, bot: Bot, d: Near, full: bool, steps: &mut Steps<L>)
        requires may { (partner : ℕ) → MayTake self.old.matrix.resolution self.old.bots bot partner (edit_of full d) }
        requires payable { IsTurnPayable self.old.energy }
        ensures value { (partner : ℕ) → self.new ≡ after_turn self.old bot partner (edit_of full d) }
        ensures within { IsAfterTurn self.old.energy self.new.energy }
        ensures touches { steps.new ≤ steps.old + met_count self.old.matrix bot (edit_of full d) }
    {
        let resolution = self.matrix.resolution();
        let at = target(resolution, bot.pos, d.diff());
        let was_full = self.matrix.full_at(at, steps);
        let bit = self.matrix.bit_of(at);
        self.edit_voxel(at, bit, full, was_full);
    }

    /// Fills or voids the voxel whose bit has this index, and pays the cost without the upkeep. Pays first, so that both payments
    /// of an only bot merge into one.
    #[inline(always)]
    fn edit_voxel(&mut self, at: Coord, bit: usize, full: bool, was_full: bool)
        requires at { IsInSpace self.old.matrix.resolution at }
        requires bit { bit ≡ bit_index self.old.matrix.resolution at }
        requires payable { IsTurnPayable self.old.energy }
        ensures value { self.new
            ≡ record self.old
            { matrix = with_voxel self.old.matrix at full; energy = self.old.energy +ℤ edit_cost full was_full } }
        ensures within { IsAfterTurn self.old.energy self.new.energy }
    {
        self.pay(cost_of_edit(full, was_full));
        self.set_voxel_at(at, bit, full);
    }

    /// Applies a group by any command of its leader.
    fn take_other_turn<L: Ledger>(
        &mut self,
        bot: Bot,
        partner: u8,
        command: &Command,
        steps: &mut Steps<L>,
    )
        requires may { MayTake self.old.matrix.resolution self.old.bots bot partner command.now }
        requires payable { IsTurnPayable self.old.energy }
        ensures value { self.new ≡ after_turn self.old bot partner command.now }
        ensures within { IsAfterTurn self.old.energy self.new.energy }
        ensures touches { steps.new ≤ steps.old + met_count self.old.matrix bot command.now }
    {
        let resolution = self.matrix.resolution();
        let cost = pay_turn(&mut self.matrix, bot, command, steps);
        move_bots(&mut self.crew, resolution, bot, partner, command);
        self.harmonics = harmonics_by(self.harmonics, command);
        self.space = space_upkeep(resolution, self.harmonics);
        self.pay(cost);
    }

    /// Applies the groups one after another: all effects and costs of a step that breaks no rule at its start.
    fn take_turns<L: Ledger>(&mut self, commands: &[Command], turns: &Turns, steps: &mut Steps<L>)
        requires judged { (step : ℕ) × (broken_of self.old commands.now step ≡ None) }
        requires turns { AreAllTurns (acts self.old.bots commands.now) turns.now }
        requires payable { IsPayable self.old.energy }
        ensures value { self.new ≡ after self.old commands.now }
        ensures touches { steps.new ≤ steps.old + volatile_total self.old.matrix (acts self.old.bots commands.now) }
    {
        recall_all(commands);
        groups_take_turns();
        group_is_replaced();
        self.recall();
        self.pay_upkeep();
        for turn in turns.list() {
            self.recall();
            self.take_turn(*turn, &commands[usize::from(turn.place)], steps);
        }
    }

    /// Applies all effects and costs of a step that breaks none of the rules judged at its start, group by group in rising order of
    /// their leaders.
    pub fn advance<L: Ledger>(&mut self, commands: &[Command], turns: &Turns, steps: &mut Steps<L>)
        requires judged { (step : ℕ) × (broken_of self.old commands.now step ≡ None) }
        requires turns { AreTurns (acts self.old.bots commands.now) (leaders (acts self.old.bots commands.now))
            turns.now }
        requires payable { IsPayable self.old.energy }
        ensures value { self.new ≡ after self.old commands.now }
        ensures touches { steps.new ≤ steps.old + volatile_total self.old.matrix (acts self.old.bots commands.now) }
    {
        self.take_turns(commands, turns, steps);
    }

    /// [`System::advance`] in the given order of the leaders. Leaves the turns in that order.
    pub fn advance_in_order<L: Ledger>(
        &mut self,
        commands: &[Command],
        turns: &mut Turns,
        order: &[u8],
        steps: &mut Steps<L>,
    )
        requires commands { length commands.now ≡ length self.old.bots }
        requires judged { (step : ℕ) × (broken_of self.old commands.now step ≡ None) }
        requires turns { AreTurns (acts self.old.bots commands.now) (leaders (acts self.old.bots commands.now))
            turns.old }
        requires order { IsPermutation (leader_bids (acts self.old.bots commands.now)) order.now }
        requires payable { IsPayable self.old.energy }
        ensures value { self.new ≡ after self.old commands.now }
        ensures arranged { map leader_of turns.new ≡ order.now }
        ensures touches { steps.new ≤ steps.old + volatile_total self.old.matrix (acts self.old.bots commands.now) }
    {
        self.recall();
        turns.arrange(order);
        self.take_turns(commands, turns, steps);
    }

    /// Applies one more group to the bots of a step that breaks no rule, after some others.
    pub fn move_group(&self, crew: &mut Crew, commands: &[Command], turns: &Turns, leader: u8)
        requires judged { (step : ℕ) × (broken_of self.now commands.now step ≡ None) }
        requires turns { AreTurns (acts self.now.bots commands.now) (leaders (acts self.now.bots commands.now))
            turns.now }
        requires within { All (λ b. IsInSpace self.now.matrix.resolution b.pos) crew.old }
        requires next { (before : List ℕ) × (rest : List ℕ)
            × FollowsOn self.now commands.now before leader rest crew.old }
        ensures bots { (before rest : List ℕ) → FollowsOn self.now commands.now before leader rest crew.old
            → crew.new ≡ bots_after_some self.now commands.now (before ++ leader ∷ []) }
        ensures within { All (λ b. IsInSpace self.now.matrix.resolution b.pos) crew.new }
    {
        recall_all(commands);
        groups_take_turns();
        group_is_replaced();
        self.recall();
        crew.recall();
        let turn = turn_of(turns.list(), leader);
        let Some(bot) = crew.bot(leader) else {
            return;
        };
        let command = &commands[usize::from(turn.place)];
        move_bots(crew, self.matrix.resolution(), bot, turn.partner, command);
    }
}
