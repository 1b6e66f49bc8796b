//! The pending commands of the next step.
ghost use Rattle.std.specs.Prelude.{◌≡◌, ◌<◌, [], ◌∷◌, ◌++◌, length, IfOk};
ghost use Rattle.bot_crew.specs.declared.crew.TheConstants.{MOST_BOTS};

use bot_crew::MOST_BOTS;
use nano_spec::Command;
use std::alloc::Global;
use std::marker::Model;
use vox_geom::Memory;

/// The pending commands of the next step, at most one for each of 40 bots. Only `new` allocates.
#[derive(Drop)]
pub(crate) struct Pending {
    commands: Vec<Command>,
}

impl Model for Pending {
    ghost use Rattle.std.specs.Prelude.{◌≤◌, List, length, vec_capacity};
    ghost use Rattle.bot_crew.specs.declared.crew.TheConstants.{MOST_BOTS};
    ghost use Rattle.nano_spec.specs.declared.commands.Command.{Command};

    ghost Value = { List Command };

    ghost view = { λ p. p.commands.items };

    ghost invariant = { λ p. (length p.commands.items ≤ MOST_BOTS) × (MOST_BOTS ≤ vec_capacity p.commands) };
}

impl Pending {
    /// Returns an empty list.
    pub(crate) fn new(alloc: Global) -> Result<Pending, Memory>
        ensures { IfOk result (λ p. p ≡ []) }
    {
        let commands = Vec::with_capacity(alloc, MOST_BOTS)?;
        Ok(Pending { commands })
    }

    /// Appends a command.
    pub(crate) fn push(&mut self, command: Command)
        requires { length self.old < MOST_BOTS }
        ensures { self.new ≡ self.old ++ command ∷ [] }
    {
        let _ = self.commands.push(command);
    }

    /// Removes all commands.
    pub(crate) fn clear(&mut self)
        ensures { self.new ≡ [] }
    {
        self.commands.clear();
    }

    /// Returns the commands, in the order in which they came.
    pub(crate) fn as_slice(&self) -> &[Command]
        ensures { result.now ≡ self.now }
    {
        self.commands.as_slice()
    }
}
