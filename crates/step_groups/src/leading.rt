//! The leaders of the groups of a step.
ghost use Rattle.std.specs.Prelude.{◌≡◌, length};
ghost use Rattle.nano_spec.specs.Act.{acts};
ghost use Rattle.nano_spec.specs.Serial.{leader_bids};

use crate::numbers::number_groups;
use arrayvec::ArrayVec;
use bot_crew::{Crew, MOST_BOTS};
use nano_spec::Command;

/// Returns the bids of the leaders of a step's groups, in rising order, even if the step breaks a rule.
pub fn leaders(crew: &Crew, commands: &[Command]) -> ArrayVec<u8, MOST_BOTS>
    requires { length commands.now ≡ length crew.now }
    ensures { result.items ≡ leader_bids (acts crew.now commands.now) }
{
    let bots = crew.bots();
    let numbers = number_groups(bots, commands);
    let mut bids = ArrayVec::new();
    for i in 0..bots.len() {
        if usize::from(numbers[i]) != i {
            continue;
        }
        bids.push(bots[i].bid);
    }
    bids
}
