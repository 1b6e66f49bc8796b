//! Whether a model is legal.
ghost use Rattle.model_file.specs.Fault.{Judges};

use crate::fault::{ModelFault, ModelRefusal};
use crate::flood::first_ungrounded;
use crate::least::first_outside;
use std::alloc::Global;
use vox_planes::Planes;

/// Checks whether the model is legal. A full voxel outside the legal box is reported before one that floats.
pub fn legal(alloc: Global, planes: &Planes) -> Result<(), ModelFault>
    ensures { Judges planes.now result }
{
    if let Some(at) = first_outside(planes) {
        return Err(ModelFault::Refused(ModelRefusal::Border { at }));
    }
    match first_ungrounded(alloc, planes)? {
        Some(at) => Err(ModelFault::Refused(ModelRefusal::Floating { at })),
        None => Ok(()),
    }
}
