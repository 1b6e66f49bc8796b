//! The number of voxels of a machine's matrix that differ from a target, counted by a call or kept.
ghost use Rattle.std.specs.Prelude.{◌≡◌};
ghost use Rattle.machine_c.specs.Counting.{AreDifferencesTold, Counts, IsTargetSet, IsRemainingTold, KeepsTarget, differences_by, refusal_of_count, status_of_count};

use crate::handle::Handle;
use crate::reports::ModelReport;
use crate::status::{DONE, MEMORY, MODEL, NO_MACHINE, NO_TARGET, RESOLUTION};
use kept_machine::KeptMachine;
use model_file::{ModelFault, read_model};
use std::alloc::Global;

/// The outcome of a count.
#[derive(Clone, Copy)]
pub enum CountAnswer {
    /// The number of coordinates at which the matrix and the target differ.
    Counted(u32),
    /// The target is of another resolution.
    Unlike,
    /// The bytes are no model.
    Refused(ModelFault),
}

impl CountAnswer {
    /// Returns the status of the answer.
    fn status(self) -> u32
        ensures { result ≡ status_of_count self }
    {
        match self {
            CountAnswer::Counted(_) => DONE,
            CountAnswer::Unlike => RESOLUTION,
            CountAnswer::Refused(ModelFault::Memory) => MEMORY,
            CountAnswer::Refused(_) => MODEL,
        }
    }

    /// Returns the number of coordinates at which they differ.
    fn differences(self) -> u32
        ensures { result ≡ differences_by self }
    {
        match self {
            CountAnswer::Counted(count) => count,
            _ => 0,
        }
    }

    /// Returns the refusal of the bytes.
    fn refusal(self) -> ModelReport
        ensures { result ≡ refusal_of_count self }
    {
        match self {
            CountAnswer::Refused(fault) => ModelReport::of(fault),
            _ => ModelReport::none(),
        }
    }
}

/// Counts the coordinates at which the matrix and the model that the bytes hold differ.
fn count_differences(alloc: Global, machine: &KeptMachine, target: &[u8]) -> CountAnswer
    ensures { Counts machine.now target.now result }
{
    let planes = match read_model(alloc, target) {
        Ok(planes) => planes,
        Err(fault) => return CountAnswer::Refused(fault),
    };
    if planes.resolution() != machine.matrix().resolution() {
        return CountAnswer::Unlike;
    }
    CountAnswer::Counted(machine.differences(&planes))
}

/// Counts the coordinates at which the matrix and the model that the bytes hold differ.
#[unsafe(no_mangle)]
pub extern "C" fn nanobot_machine_differences(
    alloc: Global,
    handle: &mut Handle,
    target: &[u8],
    count: &mut u32,
    refusal: &mut ModelReport,
) -> u32
    ensures same { handle.new.machine ≡ handle.old.machine }
    ensures told { AreDifferencesTold handle.old.machine target.now count.old count.new refusal.old refusal.new result }
{
    let Some(machine) = handle.take(alloc) else {
        return NO_MACHINE;
    };
    let answer = count_differences(alloc, &machine, target);
    handle.put(machine);
    *count = answer.differences();
    *refusal = answer.refusal();
    answer.status()
}

/// Makes the model that the bytes hold the machine's target, and counts the differences.
fn aim_at(alloc: Global, machine: &mut KeptMachine, target: &[u8]) -> CountAnswer
    ensures counted { Counts machine.old target.now result }
    ensures kept { KeepsTarget machine.old target.now machine.new result }
{
    let planes = match read_model(alloc, target) {
        Ok(planes) => planes,
        Err(fault) => return CountAnswer::Refused(fault),
    };
    if planes.resolution() != machine.matrix().resolution() {
        return CountAnswer::Unlike;
    }
    CountAnswer::Counted(machine.aim(planes))
}

/// Makes the model that the bytes hold the machine's target, in place of the one before, and counts the coordinates at which the
/// matrix differs from it.
#[unsafe(no_mangle)]
pub extern "C" fn nanobot_machine_aim(
    alloc: Global,
    handle: &mut Handle,
    target: &[u8],
    count: &mut u32,
    refusal: &mut ModelReport,
) -> u32
    ensures { IsTargetSet handle.old.machine target.now handle.new.machine count.old count.new refusal.old refusal.new result }
{
    let Some(mut machine) = handle.take(alloc) else {
        return NO_MACHINE;
    };
    let answer = aim_at(alloc, &mut machine, target);
    handle.put(machine);
    *count = answer.differences();
    *refusal = answer.refusal();
    answer.status()
}

/// Returns the number of coordinates at which the matrix differs from the machine's target. Does not recount.
#[unsafe(no_mangle)]
pub extern "C" fn nanobot_machine_remaining(
    alloc: Global,
    handle: &mut Handle,
    count: &mut u32,
) -> u32
    ensures same { handle.new.machine ≡ handle.old.machine }
    ensures told { IsRemainingTold handle.old.machine count.old count.new result }
{
    let Some(machine) = handle.take(alloc) else {
        return NO_MACHINE;
    };
    let remaining = machine.remaining();
    handle.put(machine);
    match remaining {
        Some(differences) => {
            *count = differences;
            DONE
        }
        None => NO_TARGET,
    }
}
