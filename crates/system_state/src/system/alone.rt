//! Fast path: the step of the only bot by a command that needs no other bot, without a list of turns.
ghost use Rattle.std.specs.Prelude.{◌≡◌, ℕ, ◌+◌, ◌*◌, ◌≤◌, pos, ◌+ℤ◌, [], ◌∷◌, length, true, false, None, IfOk, IfSome, IfNone};
ghost use Rattle.vox_geom.specs.declared.difference.Diff.{Diff as Difference};
ghost use Rattle.vox_geom.specs.Difference.{mlen};
ghost use Rattle.vox_geom.specs.Point.{point, plus};
ghost use Rattle.vox_geom.specs.Space.{IsInSpace};
ghost use Rattle.nano_spec.specs.declared.commands.Command.TheVariants.{SMove};
ghost use Rattle.nano_spec.specs.declared.system.Bot.{Bot as ActiveBot};
ghost use Rattle.nano_spec.specs.Act.{acts};
ghost use Rattle.nano_spec.specs.Matrix.{is_full};
ghost use Rattle.nano_spec.specs.Rules.{broken as broken_of};
ghost use Rattle.nano_spec.specs.Step.{after};
ghost use Rattle.nano_spec.specs.Work.{volatile_total};
ghost use Rattle.vox_planes.specs.Layers.{bit_index};
ghost use Rattle.step_groups.specs.Judging.{edit_of, rule_broken};
ghost use Rattle.system_state.specs.Bounds.{IsPayable, IsTurnCost};
ghost use Rattle.system_state.specs.Edited.{edit_cost};

use super::System;
use nano_spec::{Bot, Broken};
use std::sync::ledger::Ledger;
use step_groups::{judge_edit, judge_move, moves_at_once};
use vox_geom::{Coord, Long, Near, Steps};

impl System {
    /// Returns the only bot.
    #[inline(always)]
    fn only_bot(&self) -> Bot
        requires { length self.now.bots ≡ 1 }
        ensures only { self.now.bots ≡ result ∷ [] }
        ensures within { IsInSpace self.now.matrix.resolution result.pos }
    {
        self.recall();
        self.crew.bots()[0]
    }

    /// Makes the step of an `SMove` whose path is void without a search, with all effects and costs, and returns whether it did.
    /// Changes nothing otherwise. Does not judge the rule of grounding.
    #[inline(always)]
    pub fn move_at_once<L: Ledger>(&mut self, d: Long, steps: &mut Steps<L>) -> bool
        requires one { length self.old.bots ≡ 1 }
        requires payable { IsPayable self.old.energy }
        ensures keeps { result ≡ true → (step : ℕ) → broken_of self.old (SMove d ∷ []) step ≡ None }
        ensures moved { result ≡ true → self.new ≡ after self.old (SMove d ∷ []) }
        ensures one { result ≡ true → length self.new.bots ≡ 1 }
        ensures stays { result ≡ false → self.new ≡ self.old }
        ensures touches { steps.new ≤ steps.old + volatile_total self.old.matrix (acts self.old.bots (SMove d ∷ [])) }
    {
        self.recall();
        let bot = self.only_bot();
        let Some(to) = moves_at_once(&self.matrix, self.profile, bot, d, steps) else {
            return false;
        };
        self.pay_upkeep_of(1);
        self.pay(cost_of_move(d));
        self.move_only(to);
        true
    }

    /// Makes the step of the only bot by `SMove`: returns the rule that it breaks, or `None` after all effects and costs. Does not
    /// judge the rule of grounding.
    #[inline(always)]
    pub fn move_alone<L: Ledger>(
        &mut self,
        d: Long,
        step: u32,
        steps: &mut Steps<L>,
    ) -> Option<Broken>
        requires one { length self.old.bots ≡ 1 }
        requires payable { IsPayable self.old.energy }
        ensures value { result ≡ broken_of self.old (SMove d ∷ []) step }
        ensures moved { IfNone result (self.new ≡ after self.old (SMove d ∷ [])) }
        ensures one { IfNone result (length self.new.bots ≡ 1) }
        ensures stays { IfSome result (λ _. self.new ≡ self.old) }
        ensures touches { steps.new
            ≤ steps.old + 2 * volatile_total self.old.matrix (acts self.old.bots (SMove d ∷ [])) }
    {
        self.recall();
        let bot = self.only_bot();
        match judge_move(&self.matrix, self.profile, bot, d, step, steps) {
            Ok(to) => {
                self.pay_upkeep_of(1);
                self.pay(cost_of_move(d));
                self.move_only(to);
                None
            }
            Err(broken) => Some(broken),
        }
    }

    /// Returns the voxel that the only bot fills (or voids), or the first rule that the step breaks at its start.
    #[inline(always)]
    pub fn judge_edit(&self, d: Near, full: bool, step: u32) -> Result<Coord, Broken>
        requires one { length self.now.bots ≡ 1 }
        ensures value { rule_broken result ≡ broken_of self.now (edit_of full d ∷ []) step }
        ensures named { IfOk result (λ at. (b : ActiveBot) → self.now.bots ≡ b ∷ [] → point at ≡ plus (point b.pos) d) }
        ensures stays { IfOk result (λ at. IsInSpace self.now.matrix.resolution at) }
    {
        let bot = self.only_bot();
        judge_edit(&self.matrix, self.profile, bot, d, full, step)
    }

    /// Applies all effects and costs of a step in which the only bot fills the voxel (or voids it). `bit` is the index of the
    /// voxel's bit: passing it saves computing it again.
    #[inline(always)]
    pub fn edit_alone(&mut self, at: Coord, bit: usize, full: bool, was_full: bool)
        requires one { length self.old.bots ≡ 1 }
        requires payable { IsPayable self.old.energy }
        requires within { IsInSpace self.old.matrix.resolution at }
        requires bit { bit ≡ bit_index self.old.matrix.resolution at }
        requires was { was_full ≡ is_full self.old.matrix at }
        ensures value { (b : ActiveBot) (d : Difference) → self.old.bots ≡ b ∷ [] → point at ≡ plus (point b.pos) d
            → self.new ≡ after self.old (edit_of full d ∷ []) }
        ensures bots { self.new.bots ≡ self.old.bots }
    {
        self.pay_upkeep_of(1);
        self.edit_voxel(at, bit, full, was_full);
    }
}

/// Returns the cost of filling (or voiding) a voxel, without the upkeep.
#[inline(always)]
pub(super) fn cost_of_edit(full: bool, was_full: bool) -> i64
    ensures value { result ≡ edit_cost full was_full }
    ensures small { IsTurnCost result }
{
    if full {
        if was_full { 6 } else { 12 }
    } else if was_full {
        -12
    } else {
        3
    }
}

/// Returns the cost of an `SMove`, without the upkeep.
#[inline(always)]
pub(super) fn cost_of_move(d: Long) -> i64
    ensures value { result ≡ pos (2 * mlen d) }
    ensures small { IsTurnCost result }
{
    2 * i64::from(d.diff().mlen())
}
