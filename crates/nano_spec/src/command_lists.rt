//! Lists of commands.
ghost use Rattle.std.specs.Prelude.{◌≡◌, [], ◌∷◌, ◌++◌, OnOk, OnErr};

use crate::commands::Command;
use std::alloc::Global;
use std::marker::Model;
use vox_geom::Memory;

/// A list of commands that grows at its end.
#[derive(Drop)]
pub struct CommandList {
    commands: Vec<Command>,
}

impl Model for CommandList {
    ghost use Rattle.std.specs.Prelude.{List};
    ghost use Rattle.nano_spec.specs.declared.commands.Command.{Command};

    ghost Value = { List Command };

    ghost view = { λ l. l.commands.items };
}

impl CommandList {
    /// Returns the empty list.
    pub fn new(alloc: Global) -> CommandList
        ensures { result ≡ [] }
    {
        CommandList {
            commands: Vec::new(alloc),
        }
    }

    /// Returns the list of these commands. It does not allocate, so it cannot fail.
    pub fn from_vec(commands: Vec<Command>) -> CommandList
        ensures { result ≡ commands.items }
    {
        CommandList { commands }
    }

    /// Appends a command. If allocation fails, the list stays as it was.
    pub fn push(&mut self, c: Command) -> Result<(), Memory>
        ensures ok { OnOk result (self.new ≡ self.old ++ c ∷ []) }
        ensures err { OnErr result (self.new ≡ self.old) }
    {
        match self.commands.push(c) {
            Ok(()) => Ok(()),
            Err(_) => Err(Memory),
        }
    }

    /// Returns the commands.
    pub fn as_slice(&self) -> &[Command]
        ensures { result.now ≡ self.now }
    {
        self.commands.as_slice()
    }
}
