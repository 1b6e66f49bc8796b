//! The turns of the groups of a step.
ghost use Rattle.std.specs.Prelude.{◌≡◌, ◌+◌, ◌*◌, ◌<◌, ◌≤◌, ℤ, [], ◌∷◌, List, AllPairs, IfNone, IsPermutation, IsTrue, filter, length, map, slice_index_or, take};
ghost use Rattle.arrayvec.specs.ArrayVec.{array_vec_len};
ghost use Rattle.std.specs.List.{Contains, list_all};
ghost use Rattle.nano_spec.specs.declared.commands.Command.{Command};
ghost use Rattle.nano_spec.specs.declared.system.Bot.{Bot as ActiveBot};
ghost use Rattle.nano_spec.specs.Act.{acts};
ghost use Rattle.nano_spec.specs.Group.{is_leader, leaders};
ghost use Rattle.nano_spec.specs.Work.{volatile_total};
ghost use Rattle.bot_crew.specs.Crew.{IsCrew};
ghost use Rattle.step_groups.specs.Groups.{AreLone};
ghost use Rattle.step_groups.specs.Judging.{is_alone};
ghost use Rattle.step_groups.specs.Numbers.{AreNumbers, with_number};
ghost use Rattle.step_groups.specs.Steps.{CanBeJudged, acts_of_step, broken_in};
ghost use Rattle.system_state.specs.Turns.{AreAllTurns, AreTurns, leader_of};

use arrayvec::ArrayVec;
use bot_crew::MOST_BOTS;
use nano_spec::{Bot, Broken};
use std::marker::Model;
use std::sync::ledger::Ledger;
use step_groups::{Groups, Step, judge_single, number_groups};
use vox_geom::Steps;

/// The turn of one group of a step: the bid of its leader, the leader's index among the bots at the step's start, and the bid of
/// its second member, 0 if the leader is alone.
#[derive(Clone, Copy, PartialEq, Eq, Default, Debug)]
pub struct Turn {
    pub leader: u8,
    pub place: u8,
    pub partner: u8,
}

impl Turn {
    /// Returns the turn of a bot that is a group of its own.
    fn alone(leader: u8, place: u8) -> Turn
        ensures { result ≡ record { leader = leader; place = place; partner = 0 } }
    {
        Turn {
            leader,
            place,
            partner: 0,
        }
    }
}

/// The turns of a step, in rising order of their leaders until `arrange`. Reused from step to step.
#[derive(Drop)]
pub struct Turns {
    groups: Groups,
    pub(crate) turns: ArrayVec<Turn, MOST_BOTS>,
}

impl Model for Turns {
    ghost use Rattle.std.specs.Prelude.{List};
    ghost use Rattle.system_state.specs.declared.turns.Turn.{Turn};

    ghost Value = { List Turn };

    ghost view = { λ t. t.turns.items };
}

impl Turns {
    ghost use Rattle.std.specs.Prelude.{◌≡◌, [], ◌∷◌};

    /// Returns an empty list.
    pub fn new() -> Turns
        ensures { result ≡ [] }
    {
        Turns {
            groups: Groups::new(),
            turns: ArrayVec::new(),
        }
    }

    /// Returns the turns.
    pub fn list(&self) -> &[Turn]
        ensures { result.now ≡ self.now }
    {
        self.turns.as_slice()
    }

    /// Stores the turn of the only bot.
    pub(crate) fn set_single(&mut self, bid: u8)
        ensures { self.new ≡ record { leader = bid; place = 0; partner = 0 } ∷ [] }
    {
        self.turns.clear();
        self.turns.push(Turn::alone(bid, 0));
    }

    /// Judges the step of a single bot, and stores its turn as the only one.
    pub(crate) fn judge_single<L: Ledger>(
        &mut self,
        step: &Step,
        steps: &mut Steps<L>,
    ) -> Option<Broken>
        requires one { length step.now.bots.now ≡ 1 }
        requires step { CanBeJudged step.now }
        ensures value { (energy : ℤ) → result ≡ broken_in step.now energy }
        ensures turns { AreTurns (acts_of_step step.now) (leaders (acts_of_step step.now)) self.new }
        ensures touches { steps.new ≤ steps.old + 2 * volatile_total step.now.planes.now (acts_of_step step.now) }
    {
        self.set_single(step.bots[0].bid);
        judge_single(step, steps)
    }

    /// Judges the step of bots each of which is a group of its own, and lists their turns.
    pub(crate) fn judge_lone<L: Ledger>(
        &mut self,
        step: &Step,
        steps: &mut Steps<L>,
    ) -> Option<Broken>
        requires step { CanBeJudged step.now }
        requires lone { IsTrue (list_all is_alone step.now.commands.now) }
        ensures value { (energy : ℤ) → result ≡ broken_in step.now energy }
        ensures turns { AreTurns (acts_of_step step.now) (leaders (acts_of_step step.now)) self.new }
        ensures touches { steps.new ≤ steps.old + 2 * volatile_total step.now.planes.now (acts_of_step step.now) }
    {
        list_lone_turns(&mut self.turns, step.bots);
        self.groups.judge_lone(step, steps)
    }

    /// Judges the step of several bots. If no rule is broken, the turns are those of its groups.
    pub(crate) fn judge_several<L: Ledger>(
        &mut self,
        step: &Step,
        steps: &mut Steps<L>,
    ) -> Option<Broken>
        requires { CanBeJudged step.now }
        ensures value { (energy : ℤ) → result ≡ broken_in step.now energy }
        ensures turns { IfNone result (AreTurns (acts_of_step step.now) (leaders (acts_of_step step.now)) self.new) }
        ensures touches { steps.new ≤ steps.old + 2 * volatile_total step.now.planes.now (acts_of_step step.now) }
    {
        let numbers = number_groups(step.bots, step.commands);
        list_turns(&mut self.turns, step.bots, numbers.as_slice());
        self.groups.judge(step, numbers.as_slice(), steps).err()
    }

    /// Sorts the turns in the order of these leaders.
    pub(crate) fn arrange(&mut self, order: &[u8])
        requires { IsPermutation (map leader_of self.old) order.now }
        ensures leaders { map leader_of self.new ≡ order.now }
        ensures groups { (bots : List ActiveBot) (commands : List Command) → AllPairs (λ a b. a.bid < b.bid) bots
            → length commands ≡ length bots → AreTurns (acts bots commands) (leaders (acts bots commands)) self.old
            → AreAllTurns (acts bots commands) self.new }
    {
        let mut arranged = ArrayVec::new();
        for leader in order {
            arranged.push(turn_of(self.turns.as_slice(), *leader));
        }
        self.turns = arranged;
    }
}

/// Returns the turn of a leader.
pub(crate) fn turn_of(turns: &[Turn], leader: u8) -> Turn
    requires { Contains (map leader_of turns.now) leader }
    ensures leader { result.leader ≡ leader }
    ensures is_one { Contains turns.now result }
{
    for turn in turns {
        if turn.leader == leader {
            return *turn;
        }
    }
    Turn::default()
}

/// Lists the turns of bots each of which is a group of its own.
pub(crate) fn list_lone_turns(turns: &mut ArrayVec<Turn, MOST_BOTS>, bots: &[Bot])
    requires { length bots.now ≤ 40 }
    ensures { (commands : List Command) → length commands ≡ length bots.now → AreLone (acts bots.now commands)
        → AreTurns (acts bots.now commands) (leaders (acts bots.now commands)) turns.new.items }
{
    turns.clear();
    for i in 0..bots.len() {
        turns.push(Turn::alone(bots[i].bid, i as u8));
    }
}

/// Returns the bid of the first of these bots with the group index, or 0 if there is none.
fn first_numbered(bots: &[Bot], numbers: &[u8], number: u8) -> u8
    requires { length numbers.now ≡ length bots.now }
    ensures { result ≡ slice_index_or (map (λ b. b.bid) (with_number number bots.now numbers.now)) 0 0 }
{
    for i in 0..bots.len() {
        if numbers[i] == number {
            return bots[i].bid;
        }
    }
    0
}

/// Adds the turn of the bot at an index, if the bot leads a group.
fn push_turn(turns: &mut ArrayVec<Turn, MOST_BOTS>, bots: &[Bot], numbers: &[u8], i: usize)
    requires lengths { length numbers.now ≡ length bots.now }
    requires i { i < length bots.now }
    requires room { array_vec_len turns.old ≤ i }
    requires crew { IsCrew bots.now }
    ensures turns { (commands : List Command) → length commands ≡ length bots.now
        → AreNumbers (acts bots.now commands) numbers.now
        → AreTurns (acts bots.now commands)
        (filter (is_leader (acts bots.now commands)) (acts (take i bots.now) (take i commands))) turns.old.items
        → AreTurns (acts bots.now commands)
        (filter (is_leader (acts bots.now commands)) (acts (take (i + 1) bots.now) (take (i + 1) commands)))
        turns.new.items }
    ensures len { array_vec_len turns.new ≤ i + 1 }
{
    if usize::from(numbers[i]) != i {
        return;
    }
    turns.push(Turn {
        leader: bots[i].bid,
        place: numbers[i],
        partner: first_numbered(&bots[i + 1..], &numbers[i + 1..], numbers[i]),
    });
}

/// Lists the turns of the groups of a step of these bots, by their group indices.
pub(crate) fn list_turns(turns: &mut ArrayVec<Turn, MOST_BOTS>, bots: &[Bot], numbers: &[u8])
    requires lengths { length numbers.now ≡ length bots.now }
    requires crew { IsCrew bots.now }
    ensures { (commands : List Command) → length commands ≡ length bots.now
        → AreNumbers (acts bots.now commands) numbers.now
        → AreTurns (acts bots.now commands) (leaders (acts bots.now commands)) turns.new.items }
{
    turns.clear();
    for i in 0..bots.len() {
        push_turn(turns, bots, numbers, i);
    }
}
