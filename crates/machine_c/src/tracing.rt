//! The trace of a machine.
ghost use Rattle.std.specs.Prelude.{◌≡◌};
ghost use Rattle.machine_c.specs.Tracing.{GivesTrace, BeginsToKeep, IsTraceGiven, status_of_keep};

use crate::handle::Handle;
use crate::reading::give_bytes;
use crate::status::{BEGUN, DONE, MEMORY, NO_MACHINE, NO_TRACE};
use nano_spec::Command;
use std::alloc::Global;
use trace_codec::encode_all;

/// Returns the status of a call that begins a trace, by whether it did.
fn keep_status(is_begun: bool) -> u32
    ensures { result ≡ status_of_keep is_begun }
{
    if is_begun {
        return DONE;
    }
    BEGUN
}

/// Keeps the commands of all steps from here on, unless steps were made before.
#[unsafe(no_mangle)]
pub extern "C" fn nanobot_machine_keep(alloc: Global, handle: &mut Handle) -> u32
    ensures { BeginsToKeep handle.old.machine handle.new.machine result }
{
    let Some(mut machine) = handle.take(alloc) else {
        return NO_MACHINE;
    };
    let is_begun = machine.keep_trace();
    handle.put(machine);
    keep_status(is_begun)
}

/// Writes the bytes of the commands to the front of the buffer if they fit, and their number to `size`.
fn give_commands(alloc: Global, commands: &[Command], out: &mut [u8], size: &mut usize) -> u32
    ensures { GivesTrace commands.now out.old out.new size.new result }
{
    *size = 0;
    match encode_all(alloc, commands) {
        Ok(bytes) => give_bytes(bytes.as_slice(), out, size),
        Err(_) => MEMORY,
    }
}

/// Writes the bytes of the commands of all steps that were made and not undone, if they are kept.
#[unsafe(no_mangle)]
pub extern "C" fn nanobot_machine_trace(
    alloc: Global,
    handle: &mut Handle,
    trace: &mut [u8],
    size: &mut usize,
) -> u32
    ensures same { handle.new.machine ≡ handle.old.machine }
    ensures given { IsTraceGiven handle.old.machine trace.old trace.new size.new result }
{
    *size = 0;
    let Some(machine) = handle.take(alloc) else {
        return NO_MACHINE;
    };
    let status = match machine.trace() {
        Some(commands) => give_commands(alloc, commands, trace, size),
        None => NO_TRACE,
    };
    handle.put(machine);
    status
}
