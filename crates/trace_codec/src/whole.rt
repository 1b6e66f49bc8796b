//! Whole traces.
ghost use Rattle.std.specs.Prelude.{◌≡◌, ◌+◌, ◌*◌, ◌≤◌, ◌++◌, IfOk, Result, List, length};
ghost use Rattle.nano_spec.specs.declared.commands.Command.{Command};
ghost use Rattle.nano_spec.specs.Cutting.{Cutting, Decoding, NoTrace};
ghost use Rattle.nano_spec.specs.Spelling.{spellings};
ghost use Rattle.trace_codec.specs.Whole.{Decodes, IsDecoding};

use crate::fault::{TraceFault, TraceRefusal};
use crate::one::{One, decode_one};
use crate::spelling::{encode_one, spelled_len};
use nano_spec::{Command, CommandList};
use std::alloc::Global;
use vox_geom::Memory;

/// Returns the commands whose joined spellings are the bytes.
#[tactic(auto, using(crate::proofs::WholeTraces::is_answer))]
pub fn decode_all(alloc: Global, bytes: &[u8]) -> Result<CommandList, TraceFault>
    // The answer is true of the bytes.
    ensures answer { Decodes bytes.now result }
    // No other answer is, except out of memory.
    ensures only { (other : Result (List Command) NoTrace) → Decoding bytes.now other → IsDecoding result other }
{
    let mut commands = CommandList::new(alloc);
    let mut start = 0;
    while start < bytes.len() {
        match decode_one(&bytes[start..]) {
            One::Got { command, len } => {
                commands.push(command)?;
                start += usize::from(len);
            }
            One::More => {
                return Err(TraceFault::Refused(TraceRefusal::Cut {
                    offset: start as u64,
                }));
            }
            One::Bad => {
                return Err(TraceFault::Refused(TraceRefusal::Bad {
                    offset: start as u64,
                }));
            }
        }
    }
    Ok(commands)
}

/// Returns the joined spellings of the commands.
pub fn encode_all(alloc: Global, commands: &[Command]) -> Result<Vec<u8>, Memory>
    ensures { IfOk result (λ bytes. Cutting bytes.items commands.now) }
{
    let mut bytes = Vec::with_capacity(alloc, encoded_len(commands)).map_err(|_| Memory)?;
    for command in commands {
        append(&mut bytes, encode_one(*command).as_slice())?;
    }
    Ok(bytes)
}

/// Appends the few bytes of a spelling one by one: copying a slice would be a call.
#[inline(always)]
fn append(bytes: &mut Vec<u8>, spelling: &[u8]) -> Result<(), Memory>
    ensures { IfOk result (λ _. bytes.new.items ≡ bytes.old.items ++ spelling.now) }
{
    for byte in spelling {
        bytes.push(*byte).map_err(|_| Memory)?;
    }
    Ok(())
}

/// Returns the number of bytes of the commands' spellings, if that is a `usize`.
fn encoded_len(commands: &[Command]) -> usize {
    let mut len = 0usize;
    for command in commands {
        len = len.saturating_add(spelled_len(command));
    }
    len
}
