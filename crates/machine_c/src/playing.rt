//! Playing traces on a machine.
ghost use Rattle.std.specs.Prelude.{◌≡◌, ◌≤◌, [], ◌∷◌, ◌++◌, length, take, IfOk, IfErr};
ghost use Rattle.machine_c.specs.Playing.{IsFrontMade, IsNextStep, IsPlayed, IsTracePlayed, IsUnread, StopsAt, bad_byte_of, rule_of_stop, status_of_play};

use crate::handle::Handle;
use crate::reading::high;
use crate::reports::{BrokenReport, PlayedReport};
use crate::status::{DONE, NO_MACHINE};
use crate::stepping::StepAnswer;
use kept_machine::KeptMachine;
use nano_spec::Command;
use std::alloc::Global;
use trace_codec::{One, TraceFault, TraceRefusal, decode_one};
use vox_geom::Memory;

/// The result of playing a trace: the steps made, their bytes, and the reason why the next step was not made, if there was one.
#[derive(Clone, Copy)]
pub struct Played {
    pub made: u32,
    pub used: usize,
    pub stop: Option<StepAnswer>,
}

impl Played {
    /// Returns the status of the call.
    fn status(self) -> u32
        ensures { result ≡ status_of_play self.stop }
    {
        match self.stop {
            Some(answer) => answer.status(),
            None => DONE,
        }
    }

    /// Returns the broken rule.
    fn broken_rule(self) -> BrokenReport
        ensures { result ≡ rule_of_stop self.stop }
    {
        match self.stop {
            Some(answer) => answer.broken_rule(),
            None => BrokenReport::none(),
        }
    }

    /// Returns the first byte of the bad or cut command, counted from the beginning of the trace.
    fn bad_byte(self, trace: &[u8]) -> u64
        requires { bad_byte_of self.used self.stop ≤ length trace.now }
        ensures { result ≡ bad_byte_of self.used self.stop }
    {
        let Some(StepAnswer::Unread(TraceFault::Refused(refusal))) = self.stop else {
            return 0;
        };
        match refusal {
            TraceRefusal::Bad { offset } => self.used as u64 + offset,
            TraceRefusal::Cut { offset } => self.used as u64 + offset,
        }
    }
}

/// Appends a command to a list.
fn add(commands: &mut Vec<Command>, command: Command) -> Result<(), Memory>
    ensures { IfOk result (λ _. commands.new.items ≡ commands.old.items ++ command ∷ []) }
{
    match commands.push(command) {
        Ok(()) => Ok(()),
        Err(_) => Err(Memory),
    }
}

/// Cuts the commands of a step of `active` bots from the front of the bytes, and returns their size in bytes. There are
/// fewer commands if the bytes end before.
fn cut_step(bytes: &[u8], active: usize, commands: &mut Vec<Command>) -> Result<usize, TraceFault>
    ensures within { IfOk result (λ size. size ≤ length bytes.now) }
    ensures next { IfOk result (λ size. IsNextStep bytes.now active (take size bytes.now) commands.new.items) }
    ensures unread { IfErr result (λ fault. IsUnread bytes.now active fault) }
{
    commands.clear();
    let mut count = 0;
    let mut size = 0;
    while count < active {
        if size == bytes.len() {
            return Ok(size);
        }
        match decode_one(&bytes[size..]) {
            One::Got { command, len } => {
                add(commands, command)?;
                count += 1;
                size += usize::from(len);
            }
            One::More => {
                return Err(TraceFault::Refused(TraceRefusal::Cut {
                    offset: size as u64,
                }));
            }
            One::Bad => {
                return Err(TraceFault::Refused(TraceRefusal::Bad {
                    offset: size as u64,
                }));
            }
        }
    }
    Ok(size)
}

/// Makes the step at the front of the bytes, and returns the number of bytes it takes. The caller's list lets steps share its
/// memory.
fn play_step(
    machine: &mut KeptMachine,
    bytes: &[u8],
    commands: &mut Vec<Command>,
) -> Result<usize, StepAnswer>
    ensures made { IfOk result (λ size. IsFrontMade machine.old bytes.now size machine.new) }
    ensures stays { IfErr result (λ _. machine.new ≡ machine.old) }
    ensures stops { IfErr result (λ answer. StopsAt machine.old bytes.now answer) }
{
    match cut_step(bytes, usize::from(machine.active()), commands) {
        Ok(size) => match machine.step(commands.as_slice()) {
            Ok(_) => Ok(size),
            Err(fault) => Err(StepAnswer::Refused(fault)),
        },
        Err(fault) => Err(StepAnswer::Unread(fault)),
    }
}

/// Makes at most `most` steps of a trace one after another, until one is refused or the bytes end.
fn play(alloc: Global, machine: &mut KeptMachine, trace: &[u8], most: u32) -> Played
    ensures { IsPlayed machine.old trace.now most machine.new result }
{
    let mut commands = Vec::new(alloc);
    let mut used = 0;
    let mut made = 0;
    while made < most {
        if used == trace.len() {
            return Played {
                made,
                used,
                stop: None,
            };
        }
        match play_step(machine, &trace[used..], &mut commands) {
            Ok(size) => {
                used += size;
                made += 1;
            }
            Err(answer) => {
                return Played {
                    made,
                    used,
                    stop: Some(answer),
                };
            }
        }
    }
    Played {
        made,
        used,
        stop: None,
    }
}

/// Makes at most `most` steps of a trace one after another, until one is refused or the bytes end, and returns the progress. A
/// refused step leaves the machine in the state before it.
#[unsafe(no_mangle)]
pub extern "C" fn nanobot_machine_play(
    alloc: Global,
    handle: &mut Handle,
    trace: &[u8],
    most: u32,
    told: &mut PlayedReport,
) -> u32
    ensures { IsTracePlayed handle.old.machine trace.now most handle.new.machine told.old told.new result }
{
    let Some(mut machine) = handle.take(alloc) else {
        return NO_MACHINE;
    };
    let played = play(alloc, &mut machine, trace, most);
    *told = PlayedReport {
        energy: machine.energy(),
        used: played.used as u64,
        offset: played.bad_byte(trace),
        made: played.made,
        steps: machine.steps_done(),
        active: u32::from(machine.active()),
        high: high(machine.harmonics()),
        broken: played.broken_rule(),
    };
    handle.put(machine);
    played.status()
}
