//! The search for ungrounded voxels after a step under Low.
ghost use Rattle.std.specs.Prelude.{◌≡◌, ◌+◌, ◌≤◌, ◌%◌, ◌==◌, false, count_by, cond, IfNone, IfSome, MatchBool, None};
ghost use Rattle.nano_spec.specs.Act.{is_flip};
ghost use Rattle.nano_spec.specs.Grounded.{FirstUngrounded};
ghost use Rattle.nano_spec.specs.Model.{volume};
ghost use Rattle.nano_spec.specs.State.{is_high};
ghost use Rattle.nano_spec.specs.Step.{flipped};
ghost use Rattle.step_machine.specs.Settling.{FloatsAtMost};

use nano_spec::{Command, Harmonics};
use std::sync::ledger::Ledger;
use support_forest::Forest;
use vox_geom::{Coord, Steps};

/// Returns the harmonics after a step: the opposite if the number of Flips is odd.
pub(crate) fn harmonics_after(harmonics: Harmonics, commands: &[Command]) -> Harmonics
    ensures { result ≡ cond (count_by is_flip commands.now % 2 == 1) (flipped harmonics) harmonics }
{
    let flips = commands.iter().filter(|command| is_flip(command)).count();
    if flips % 2 == 1 {
        harmonics.flipped()
    } else {
        harmonics
    }
}

/// Returns whether the command is a Flip.
fn is_flip(command: &Command) -> bool
    ensures { result ≡ is_flip command.now }
{
    matches!(command, Command::Flip)
}

/// Returns the least full voxel that is not grounded, if Low requires all to be. Reads voxels only if there is one, and none if `least`
/// is known to be it.
pub(crate) fn find_ungrounded<L: Ledger>(
    forest: &Forest,
    harmonics: Harmonics,
    least: Option<Coord>,
    steps: &mut Steps<L>,
) -> Option<Coord>
    requires stands { forest.now.spent ≡ false }
    requires least { IfSome least (FloatsAtMost forest.now.matrix) }
    ensures value { MatchBool (is_high harmonics) (result ≡ None) (FirstUngrounded forest.now.matrix result) }
    ensures grounded { IfNone result (steps.new ≡ steps.old) }
    ensures touches { steps.new ≤ steps.old + volume forest.now.matrix.resolution }
{
    match harmonics {
        Harmonics::High => None,
        Harmonics::Low => {
            if forest.floating() == 0 {
                return None;
            }
            if let Some(at) = least {
                return Some(at);
            }
            forest.first_floating(steps)
        }
    }
}
