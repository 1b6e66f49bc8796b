//! The reasons for having no plan.
ghost use Rattle.std.specs.Prelude.{◌≡◌};
ghost use Rattle.low_planner.specs.declared.fault.LowFault.TheVariants.{Memory};
ghost use Rattle.low_planner.specs.Fault.{low_fault_number};

use vox_geom::{Coord, Memory};

/// The reason for having no plan.
#[derive(Clone, Copy, PartialEq, Eq, Debug)]
pub enum LowFault {
    /// The least voxel of all parts that are unsupported.
    Unsupported { at: Coord },
    /// Out of memory.
    Memory,
}

impl LowFault {
    /// Returns the number of the refusal in printed lines.
    pub fn number(self) -> u8
        ensures { result ≡ low_fault_number self }
    {
        match self {
            LowFault::Unsupported { .. } => 1,
            LowFault::Memory => 2,
        }
    }
}

impl From<Memory> for LowFault {
    ghost from_gives = { λ _ fault. fault ≡ Memory };

    fn from(_memory: Memory) -> LowFault {
        LowFault::Memory
    }
}
