//! Comparison of a machine's matrix with a target.
ghost use Rattle.std.specs.Prelude.{◌≡◌};
ghost use Rattle.machine_c.specs.Comparing.{IsCompared, Compares, place_by, refusal_of_target, status_of_target};

use crate::handle::Handle;
use crate::reports::{ModelReport, PlaceReport};
use crate::status::{DIFFERS, DONE, MEMORY, MODEL, NO_MACHINE, RESOLUTION};
use kept_machine::KeptMachine;
use model_file::{ModelFault, read_model};
use std::alloc::Global;
use vox_geom::Coord;

/// The outcome of a comparison with a target.
#[derive(Clone, Copy)]
pub enum TargetAnswer {
    /// The matrix is the target.
    Same,
    /// The least coordinate at which they differ.
    Differs(Coord),
    /// The target is of another resolution.
    Unlike,
    /// The bytes are no model.
    Refused(ModelFault),
}

impl TargetAnswer {
    /// Returns the status of the answer.
    fn status(self) -> u32
        ensures { result ≡ status_of_target self }
    {
        match self {
            TargetAnswer::Same => DONE,
            TargetAnswer::Differs(_) => DIFFERS,
            TargetAnswer::Unlike => RESOLUTION,
            TargetAnswer::Refused(ModelFault::Memory) => MEMORY,
            TargetAnswer::Refused(_) => MODEL,
        }
    }

    /// Returns the coordinate of a difference.
    fn place(self) -> PlaceReport
        ensures { result ≡ place_by self }
    {
        match self {
            TargetAnswer::Differs(at) => PlaceReport::of(at),
            _ => PlaceReport { x: 0, y: 0, z: 0 },
        }
    }

    /// Returns the refusal of the bytes.
    fn refusal(self) -> ModelReport
        ensures { result ≡ refusal_of_target self }
    {
        match self {
            TargetAnswer::Refused(fault) => ModelReport::of(fault),
            _ => ModelReport::none(),
        }
    }
}

/// Compares the matrix with the model that the bytes hold.
fn compare(alloc: Global, machine: &KeptMachine, target: &[u8]) -> TargetAnswer
    ensures { Compares machine.now target.now result }
{
    let planes = match read_model(alloc, target) {
        Ok(planes) => planes,
        Err(fault) => return TargetAnswer::Refused(fault),
    };
    if planes.resolution() != machine.matrix().resolution() {
        return TargetAnswer::Unlike;
    }
    match machine.difference(&planes) {
        Some(at) => TargetAnswer::Differs(at),
        None => TargetAnswer::Same,
    }
}

/// Compares the matrix with the model that the bytes hold; if they differ, `place` is the least coordinate at which they do.
#[unsafe(no_mangle)]
pub extern "C" fn nanobot_machine_compare(
    alloc: Global,
    handle: &mut Handle,
    target: &[u8],
    place: &mut PlaceReport,
    refusal: &mut ModelReport,
) -> u32
    ensures same { handle.new.machine ≡ handle.old.machine }
    ensures told { IsCompared handle.old.machine target.now place.old place.new refusal.old refusal.new result }
{
    let Some(machine) = handle.take(alloc) else {
        return NO_MACHINE;
    };
    let answer = compare(alloc, &machine, target);
    handle.put(machine);
    *place = answer.place();
    *refusal = answer.refusal();
    answer.status()
}
