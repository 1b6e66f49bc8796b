//! Proof aids: the differences of a command are of their kinds, which their types keep.
ghost use Rattle.nano_spec.specs.Command.{IsCommand};
ghost use Rattle.nano_spec.specs.Cutting.{AreCommands};

use nano_spec::Command;

/// Proof aid: the differences of the command are of their kinds. No effect.
pub fn recall(command: &Command)
    ensures { IsCommand command.now }
{
    match command {
        Command::Halt | Command::Wait | Command::Flip => {}
        Command::SMove(d) => {
            let _ = d.diff();
        }
        Command::LMove(d, e) => {
            let _ = (d.diff(), e.diff());
        }
        Command::FusionP(d) | Command::FusionS(d) | Command::Fill(d) | Command::Void(d) => {
            let _ = d.diff();
        }
        Command::Fission(d, m) => {
            let _ = (d.diff(), *m);
        }
        Command::GFill(d, f) | Command::GVoid(d, f) => {
            let _ = (d.diff(), f.diff());
        }
    }
}

/// Proof aid: the differences of all commands are of their kinds. No effect.
pub fn recall_all(commands: &[Command])
    ensures { AreCommands commands.now }
{
    for command in commands {
        recall(command);
    }
}
