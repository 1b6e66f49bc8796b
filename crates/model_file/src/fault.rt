//! The reasons why bytes are no model, and why a model is not legal.
ghost use Rattle.std.specs.Prelude.{◌≡◌};
ghost use Rattle.model_file.specs.declared.fault.ModelFault.TheVariants.{Memory, Refused};
ghost use Rattle.model_file.specs.Fault.{model_refusal_number};

use vox_geom::{Coord, Memory};

/// The reason why bytes are no model, or why a model is not legal (docs/FORMATS.md, "Model files", "Refusals").
#[derive(Clone, Copy, PartialEq, Eq, Debug)]
pub enum ModelRefusal {
    /// There is no byte.
    NoByte,
    /// The first byte is no resolution.
    Resolution { r: u8 },
    /// There are fewer bytes than the resolution requires.
    Short { want: u32, have: u32 },
    /// There are more bytes than the resolution requires.
    Long { want: u32 },
    /// The least full voxel outside the legal box.
    Border { at: Coord },
    /// The least full voxel that is not grounded.
    Floating { at: Coord },
    /// Wide form: there are fewer bytes than a mark and a resolution need.
    WideHead { have: u32 },
    /// Wide form: the number is no resolution of this form.
    WideResolution { r: u16 },
    /// Wide form: the run of this index is 0 and not the first, or it goes past the last voxel.
    WideRun { index: u32 },
    /// Wide form: no whole run is left, and the runs so far have only this many voxels.
    WideShort { have: u32 },
    /// Wide form: bytes are left after the last voxel.
    WideLong,
}

/// The reason why a call on a model failed.
#[derive(Clone, Copy, PartialEq, Eq, Debug)]
pub enum ModelFault {
    /// The model was refused.
    Refused(ModelRefusal),
    /// Allocation failed.
    Memory,
}

impl ModelRefusal {
    /// Returns the number by which the refusal is printed.
    pub fn number(self) -> u8
        ensures { result ≡ model_refusal_number self }
    {
        match self {
            ModelRefusal::NoByte => 1,
            ModelRefusal::Resolution { .. } => 2,
            ModelRefusal::Short { .. } => 3,
            ModelRefusal::Long { .. } => 4,
            ModelRefusal::Border { .. } => 6,
            ModelRefusal::Floating { .. } => 7,
            ModelRefusal::WideHead { .. } => 8,
            ModelRefusal::WideResolution { .. } => 9,
            ModelRefusal::WideRun { .. } => 10,
            ModelRefusal::WideShort { .. } => 11,
            ModelRefusal::WideLong => 12,
        }
    }
}

impl From<ModelRefusal> for ModelFault {
    ghost from_gives = { λ refusal fault. fault ≡ Refused refusal };

    fn from(refusal: ModelRefusal) -> ModelFault {
        ModelFault::Refused(refusal)
    }
}

impl From<Memory> for ModelFault {
    ghost from_gives = { λ _ fault. fault ≡ Memory };

    fn from(_memory: Memory) -> ModelFault {
        ModelFault::Memory
    }
}
