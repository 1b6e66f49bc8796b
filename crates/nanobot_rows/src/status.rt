//! Exit statuses.
ghost use Rattle.std.specs.Prelude.{◌≡◌};
ghost use Rattle.nanobot_rows.specs.Report.{code_of};

/// The end of a call (docs/FORMATS.md, "Printed lines").
#[derive(Clone, Copy, PartialEq, Eq, Debug)]
pub enum Status {
    /// The command succeeded, and its line was printed.
    Done,
    /// A step broke a rule, or the run does not end in the target.
    Broken,
    /// The arguments are no command.
    Words,
    /// A model was refused, or two models have different resolutions.
    Model,
    /// A trace was refused.
    Trace,
    /// A file could not be read or written.
    Depot,
    /// The line could not be written.
    Sink,
    /// Out of memory.
    Memory,
    /// A text was refused.
    Text,
    /// A part of the target of a low plan is unsupported.
    Unsupported,
}

impl Status {
    /// Returns the exit code.
    pub fn code(self) -> u8
        ensures { result ≡ code_of self }
    {
        match self {
            Status::Done => 0,
            Status::Broken => 1,
            Status::Words => 2,
            Status::Model => 3,
            Status::Trace => 4,
            Status::Depot => 5,
            Status::Sink => 6,
            Status::Memory => 7,
            Status::Text => 8,
            Status::Unsupported => 9,
        }
    }
}
