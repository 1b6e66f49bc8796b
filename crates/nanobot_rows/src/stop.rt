//! The reasons for an early end of a call.
ghost use Rattle.std.specs.Prelude.{◌≡◌};
ghost use Rattle.nanobot_rows.specs.declared.stop.Stop.TheVariants as stop;
ghost use Rattle.nanobot_rows.specs.Reading.{of_fault, of_fetch, of_load, of_text, of_trace};

use crate::report::{Report, Who};
use model_file::ModelFault;
use std::alloc::AllocError;
use trace_codec::{TraceFault, TraceRefusal};
use trace_text::TextFault;
use vox_depot::{FetchFault, LoadFault};
use vox_geom::Memory;

/// The reason for an early end of a call: a refusal, an unreadable file, or out of memory.
#[derive(Clone, Copy, PartialEq, Eq, Debug)]
pub enum Stop {
    Told(Report),
    Depot,
    Memory,
}

impl Stop {
    /// Returns the stop for a model that was not read or is not legal.
    pub fn of_fault(who: Who, fault: ModelFault) -> Stop
        ensures { result ≡ of_fault who fault }
    {
        match fault {
            ModelFault::Refused(refusal) => Stop::Told(Report::Model { who, refusal }),
            ModelFault::Memory => Stop::Memory,
        }
    }

    /// Returns the stop for a text that was not read.
    pub fn of_text(fault: TextFault) -> Stop
        ensures { result ≡ of_text fault }
    {
        match fault {
            TextFault::Refused(refusal) => Stop::Told(Report::Text(refusal)),
            TextFault::Memory => Stop::Memory,
        }
    }

    /// Returns the stop for a trace that was not decoded.
    pub fn of_trace(fault: TraceFault) -> Stop
        ensures { result ≡ of_trace fault }
    {
        match fault {
            TraceFault::Refused(TraceRefusal::Bad { offset }) => Stop::Told(Report::TraceBad {
                offset,
            }),
            TraceFault::Refused(TraceRefusal::Cut { offset }) => Stop::Told(Report::TraceCut {
                offset,
            }),
            TraceFault::Memory => Stop::Memory,
        }
    }
}

impl From<LoadFault> for Stop {
    ghost from_gives = { λ fault s. s ≡ of_load fault };

    fn from(fault: LoadFault) -> Self {
        match fault {
            LoadFault::Missing | LoadFault::Failed => Stop::Depot,
            LoadFault::Memory => Stop::Memory,
        }
    }
}

impl From<FetchFault> for Stop {
    ghost from_gives = { λ fault s. s ≡ of_fetch fault };

    fn from(fault: FetchFault) -> Self {
        match fault {
            FetchFault::Missing | FetchFault::Failed => Stop::Depot,
        }
    }
}

impl From<Memory> for Stop {
    ghost from_gives = { λ _ s. s ≡ stop.Memory };

    fn from(_memory: Memory) -> Self {
        Stop::Memory
    }
}

impl From<AllocError> for Stop {
    ghost from_gives = { λ _ s. s ≡ stop.Memory };

    fn from(_error: AllocError) -> Self {
        Stop::Memory
    }
}
