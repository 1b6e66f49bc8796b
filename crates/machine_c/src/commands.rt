//! The number of commands of a trace.
ghost use Rattle.std.specs.Prelude.{◌≡◌};
ghost use Rattle.machine_c.specs.Commands.{AreCommandsTold, CountsCommands, commands_by, offset_of, status_of_commands};

use crate::status::{COMMANDS, DONE, MEMORY};
use std::alloc::Global;
use trace_codec::{TraceFault, TraceRefusal, decode_all};

/// Counts the commands that the bytes spell.
fn count_commands(alloc: Global, bytes: &[u8]) -> Result<u64, TraceFault>
    ensures { CountsCommands bytes.now result }
{
    match decode_all(alloc, bytes) {
        Ok(commands) => Ok(commands.as_slice().len() as u64),
        Err(fault) => Err(fault),
    }
}

/// Returns the status of a count.
fn count_status(answer: Result<u64, TraceFault>) -> u32
    ensures { result ≡ status_of_commands answer }
{
    match answer {
        Ok(_) => DONE,
        Err(TraceFault::Refused(_)) => COMMANDS,
        Err(TraceFault::Memory) => MEMORY,
    }
}

/// Returns the number of commands, 0 if the bytes are none.
fn count_of(answer: Result<u64, TraceFault>) -> u64
    ensures { result ≡ commands_by answer }
{
    match answer {
        Ok(count) => count,
        Err(_) => 0,
    }
}

/// Returns the first byte of the bad or cut command.
fn offset(answer: Result<u64, TraceFault>) -> u64
    ensures { result ≡ offset_of answer }
{
    match answer {
        Err(TraceFault::Refused(TraceRefusal::Bad { offset })) => offset,
        Err(TraceFault::Refused(TraceRefusal::Cut { offset })) => offset,
        _ => 0,
    }
}

/// Counts the commands of a trace.
#[unsafe(no_mangle)]
pub extern "C" fn nanobot_commands(
    alloc: Global,
    trace: &[u8],
    count: &mut u64,
    at: &mut u64,
) -> u32
    ensures { AreCommandsTold trace.now count.new at.new result }
{
    let answer = count_commands(alloc, trace);
    *count = count_of(answer);
    *at = offset(answer);
    count_status(answer)
}
