//! The group index of each bot: the index of the first bot of its group.
ghost use Rattle.std.specs.Prelude.{◌≡◌, ◌≤◌, IsTrue, false, length};
ghost use Rattle.std.specs.List.{list_any, position_or_len};
ghost use Rattle.nano_spec.specs.Act.{acts};
ghost use Rattle.nano_spec.specs.Group.{are_together as are_together_of};
ghost use Rattle.bot_crew.specs.Crew.{IsCrew};
ghost use Rattle.step_groups.specs.Judging.{act, is_alone};
ghost use Rattle.step_groups.specs.Numbers.{AreNumbers};

use crate::members::acts_alone;
use crate::partners::are_together;
use arrayvec::ArrayVec;
use bot_crew::MOST_BOTS;
use nano_spec::{Bot, Command};

/// Returns the index of the first of these bots in the bot's group, or their number if there is none, as for a bot alone.
fn first_mate(bots: &[Bot], commands: &[Command], bot: &Bot, command: &Command) -> usize
    requires lengths { length commands.now ≡ length bots.now }
    requires alone { IsTrue (is_alone command.now)
        → list_any (are_together_of (act bot.now command.now)) (acts bots.now commands.now) ≡ false }
    ensures value { result ≡ position_or_len (are_together_of (act bot.now command.now)) (acts bots.now commands.now) }
    ensures most { result ≤ length bots.now }
{
    if acts_alone(command) {
        return bots.len();
    }
    for i in 0..bots.len() {
        if are_together(bot, command, &bots[i], &commands[i]) {
            return i;
        }
    }
    bots.len()
}

/// Returns the group index of each bot, even if the step breaks a rule.
pub fn number_groups(bots: &[Bot], commands: &[Command]) -> ArrayVec<u8, MOST_BOTS>
    requires lengths { length commands.now ≡ length bots.now }
    requires crew { IsCrew bots.now }
    ensures { AreNumbers (acts bots.now commands.now) result.items }
{
    let mut numbers = ArrayVec::new();
    for i in 0..bots.len() {
        let first = first_mate(&bots[..i], &commands[..i], &bots[i], &commands[i]);
        numbers.push(first as u8);
    }
    numbers
}
