//! Commands of a plan that is under Low all the time.
ghost use Rattle.std.specs.Prelude.{IsTrue, All};
ghost use Rattle.low_planner.specs.Commands.{IsPlain};

use nano_spec::Command;

/// Returns whether the command is neither a Flip nor a Fission nor one of a group.
fn is_plain(command: Command) -> bool
    ensures { IsTrue result → IsPlain command }
{
    match command {
        Command::Flip => false,
        Command::Fission(_, _) => false,
        Command::GFill(_, _) => false,
        Command::GVoid(_, _) => false,
        _ => true,
    }
}

/// Returns whether all commands are plain.
pub(crate) fn are_plain(commands: &[Command]) -> bool
    ensures { IsTrue result → All IsPlain commands.now }
{
    for command in commands {
        if !is_plain(*command) {
            return false;
        }
    }
    true
}
