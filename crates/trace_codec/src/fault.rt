//! The reasons why bytes are no trace.
ghost use Rattle.std.specs.Prelude.{◌≡◌};
ghost use Rattle.trace_codec.specs.declared.fault.TraceFault.TheVariants.{Memory, Refused};

use vox_geom::Memory;

/// The reason why bytes are no trace (docs/FORMATS.md, "Trace files"). Offsets count from 0, to the first byte of the refused
/// command.
#[derive(Clone, Copy, PartialEq, Eq, Debug)]
pub enum TraceRefusal {
    /// The bytes at the offset begin no command's spelling.
    Bad { offset: u64 },
    /// The trace ends within the command at the offset.
    Cut { offset: u64 },
}

/// The reason why a trace was not decoded.
#[derive(Clone, Copy, PartialEq, Eq, Debug)]
pub enum TraceFault {
    /// The bytes are no trace.
    Refused(TraceRefusal),
    /// Allocation failed.
    Memory,
}

impl From<TraceRefusal> for TraceFault {
    ghost from_gives = { λ refusal fault. fault ≡ Refused refusal };

    fn from(refusal: TraceRefusal) -> TraceFault {
        TraceFault::Refused(refusal)
    }
}

impl From<Memory> for TraceFault {
    ghost from_gives = { λ _ fault. fault ≡ Memory };

    fn from(_memory: Memory) -> TraceFault {
        TraceFault::Memory
    }
}
