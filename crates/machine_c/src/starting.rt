//! Starting, copying and ending machines.
ghost use Rattle.std.specs.Prelude.{◌≡◌, ◌≤◌, [], IfOk, IfErr, IfSome, None, Ok, Err};
ghost use Rattle.nano_spec.specs.Matrix.{empty as empty_of};
ghost use Rattle.kept_machine.specs.Calls.{Opens, OpensFile};
ghost use Rattle.machine_c.specs.Calls.{IsCopied, IsStarted, IsStartedEmpty, profile_by, status_of_start};

use crate::handle::Handle;
use crate::reports::ModelReport;
use crate::status::{ARGUMENT, DONE, MEMORY, MODEL, NO_MACHINE};
use kept_machine::KeptMachine;
use model_file::ModelFault;
use nano_spec::Profile;
use std::alloc::Global;
use vox_geom::MOST_R;
use vox_planes::Planes;

/// The most steps that can be undone.
const MOST_NOTES: u32 = 4096;

/// Returns the light profile, or that of the contest.
fn profile(light: bool) -> Profile
    ensures value { result ≡ profile_by light }
    ensures seeds { result.seeds ≤ 39 }
{
    if light {
        Profile::light()
    } else {
        Profile::full()
    }
}

/// Returns the status of a refused start.
fn status(fault: ModelFault) -> u32
    ensures { result ≡ status_of_start fault }
{
    match fault {
        ModelFault::Refused(_) => MODEL,
        ModelFault::Memory => MEMORY,
    }
}

/// Returns a machine over the model that the bytes hold, on the heap.
fn open_file(
    alloc: Global,
    model: &[u8],
    light: bool,
    notes: u16,
) -> Result<Box<KeptMachine>, ModelFault>
    ensures opened { IfOk result (λ machine. OpensFile model.now (profile_by light) notes (Ok machine.value)) }
    ensures refused { IfErr result (λ fault. OpensFile model.now (profile_by light) notes (Err fault)) }
{
    let machine = KeptMachine::of_file(alloc, model, profile(light), notes)?;
    match Box::new(alloc, machine) {
        Ok(machine) => Ok(machine),
        Err(_) => Err(ModelFault::Memory),
    }
}

/// Returns a machine over the empty model, on the heap.
fn open_empty(
    alloc: Global,
    resolution: u16,
    light: bool,
    notes: u16,
) -> Result<Box<KeptMachine>, ModelFault>
    requires some { 1 ≤ resolution }
    requires most { resolution ≤ MOST_R }
    ensures opened { IfOk result (λ machine. Opens (empty_of resolution) (profile_by light) notes (Ok machine.value)) }
    ensures refused { IfErr result (λ fault. Opens (empty_of resolution) (profile_by light) notes (Err fault)) }
{
    let source = Planes::empty(alloc, resolution)?;
    let machine = KeptMachine::start(alloc, source, profile(light), notes)?;
    match Box::new(alloc, machine) {
        Ok(machine) => Ok(machine),
        Err(_) => Err(ModelFault::Memory),
    }
}

/// Puts a machine over the model of the bytes into the handle, before its first step. Frees an earlier one.
#[unsafe(no_mangle)]
pub extern "C" fn nanobot_machine_start(
    alloc: Global,
    model: &[u8],
    light: bool,
    notes: u32,
    handle: &mut Handle,
    told: &mut ModelReport,
) -> u32
    ensures { IsStarted model.now light notes handle.old.machine handle.new.machine told.new result }
{
    *told = ModelReport::none();
    if notes > MOST_NOTES {
        return ARGUMENT;
    }
    match open_file(alloc, model, light, notes as u16) {
        Ok(machine) => {
            handle.put(machine);
            DONE
        }
        Err(fault) => {
            *told = ModelReport::of(fault);
            status(fault)
        }
    }
}

/// Puts a machine over the empty model of the resolution into the handle, before its first step. Frees an earlier one.
#[unsafe(no_mangle)]
pub extern "C" fn nanobot_machine_start_empty(
    alloc: Global,
    resolution: u32,
    light: bool,
    notes: u32,
    handle: &mut Handle,
) -> u32
    ensures { IsStartedEmpty resolution light notes handle.old.machine handle.new.machine result }
{
    if notes > MOST_NOTES || resolution == 0 || resolution > u32::from(MOST_R) {
        return ARGUMENT;
    }
    match open_empty(alloc, resolution as u16, light, notes as u16) {
        Ok(machine) => {
            handle.put(machine);
            DONE
        }
        Err(fault) => status(fault),
    }
}

/// Returns a machine in the same state as the given one, on the heap.
fn boxed_copy(alloc: Global, machine: &KeptMachine) -> Option<Box<KeptMachine>>
    ensures { IfSome result (λ copy. copy.value ≡ record machine.now { past = [] }) }
{
    match machine.copy() {
        Ok(copy) => Box::new(alloc, copy).ok(),
        Err(_) => None,
    }
}

/// Puts a machine in the same state into another handle. Frees an earlier one. The copy can undo no step.
#[unsafe(no_mangle)]
pub extern "C" fn nanobot_machine_copy(alloc: Global, handle: &mut Handle, copy: &mut Handle) -> u32
    ensures same { handle.new.machine ≡ handle.old.machine }
    ensures copied { IsCopied handle.old.machine copy.old.machine copy.new.machine result }
{
    let Some(machine) = handle.take(alloc) else {
        return NO_MACHINE;
    };
    let made = boxed_copy(alloc, &machine);
    handle.put(machine);
    match made {
        Some(made) => {
            copy.put(made);
            DONE
        }
        None => MEMORY,
    }
}

/// Frees the machine, if there is one.
#[unsafe(no_mangle)]
pub extern "C" fn nanobot_machine_end(alloc: Global, handle: &mut Handle)
    ensures { handle.new.machine ≡ None }
{
    let _machine = handle.take(alloc);
}
