//! The commands of the steps that a machine made, if they are kept.
ghost use Rattle.std.specs.Prelude.{◌≡◌, [], OnOk, OnErr, IfOk, Some, None, option_map};
ghost use Rattle.kept_machine.specs.Kept.{trace_with, trace_without, trace_of};

use nano_spec::Command;
use std::alloc::Global;
use vox_geom::Memory;

/// The commands of all steps that were made and not undone, if they are kept.
#[derive(Drop)]
pub struct Trace {
    pub is_kept: bool,
    pub commands: Vec<Command>,
}

impl Trace {
    /// Returns a trace that keeps no command.
    pub fn none(alloc: Global) -> Trace
        ensures { trace_of result ≡ None }
    {
        Trace {
            is_kept: false,
            commands: Vec::new(alloc),
        }
    }

    /// Returns the trace before the first command.
    pub fn begin(alloc: Global) -> Trace
        ensures { trace_of result ≡ Some [] }
    {
        Trace {
            is_kept: true,
            commands: Vec::new(alloc),
        }
    }

    /// Appends the commands of a step, if they are kept. If memory runs out, the trace does not change.
    pub fn lengthen(&mut self, commands: &[Command]) -> Result<(), Memory>
        ensures ok { OnOk result (trace_of self.new ≡ trace_with (trace_of self.old) commands.now) }
        ensures err { OnErr result (trace_of self.new ≡ trace_of self.old) }
    {
        if !self.is_kept {
            return Ok(());
        }
        match self.commands.extend_from_slice(commands) {
            Ok(()) => Ok(()),
            Err(_) => Err(Memory),
        }
    }

    /// Removes the last `count` commands.
    pub fn shorten(&mut self, count: usize)
        ensures { trace_of self.new ≡ trace_without (trace_of self.old) count }
    {
        let left = self.commands.len().saturating_sub(count);
        self.commands.truncate(left);
    }

    /// Copies the trace.
    pub fn copy(&self, alloc: Global) -> Result<Trace, Memory>
        ensures { IfOk result (λ copy. trace_of copy ≡ trace_of self.now) }
    {
        let mut commands = Vec::new(alloc);
        match commands.extend_from_slice(self.commands.as_slice()) {
            Ok(()) => Ok(Trace {
                is_kept: self.is_kept,
                commands,
            }),
            Err(_) => Err(Memory),
        }
    }

    /// Returns the commands, if they are kept.
    pub fn commands(&self) -> Option<&[Command]>
        ensures { option_map (λ commands. commands.now) result ≡ trace_of self.now }
    {
        if self.is_kept {
            Some(self.commands.as_slice())
        } else {
            None
        }
    }
}
