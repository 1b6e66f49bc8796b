//! Judging steps without making them.
ghost use Rattle.std.specs.Prelude.{◌≡◌};
ghost use Rattle.machine_c.specs.Judging.{IsJudged, WouldComeTo, WouldStep, active_by, energy_by, halts_by, harmonics_by, judged_told};

use crate::handle::Handle;
use crate::reading::high;
use crate::reports::JudgedReport;
use crate::status::NO_MACHINE;
use crate::stepping::{StepAnswer, only_command};
use kept_machine::KeptMachine;
use nano_spec::{Command, Harmonics};
use std::alloc::Global;
use trace_codec::decode_all;

/// Returns the outcome that the step of these commands would have.
fn judge_of(machine: &mut KeptMachine, commands: &[Command]) -> StepAnswer
    ensures stays { machine.new ≡ machine.old }
    ensures answer { WouldStep machine.old commands.now result }
{
    match machine.judge(commands) {
        Ok(made) => StepAnswer::Made(made),
        Err(fault) => StepAnswer::Refused(fault),
    }
}

/// Returns the outcome that the step of the spelled commands would have. Reading one command does not allocate.
fn judge_by(alloc: Global, machine: &mut KeptMachine, bytes: &[u8]) -> StepAnswer
    ensures stays { machine.new ≡ machine.old }
    ensures answer { WouldComeTo machine.old bytes.now result }
{
    if let Some(command) = only_command(bytes) {
        return judge_of(machine, &[command]);
    }
    match decode_all(alloc, bytes) {
        Ok(commands) => judge_of(machine, commands.as_slice()),
        Err(fault) => StepAnswer::Unread(fault),
    }
}

/// Returns 1 if the step would leave no bot, 0 otherwise.
fn halts(answer: StepAnswer) -> u32
    ensures { result ≡ halts_by answer }
{
    match answer {
        StepAnswer::Made(made) => u32::from(made.active == 0),
        StepAnswer::Refused(_) | StepAnswer::Unread(_) => 0,
    }
}

/// Returns the energy that the machine would have: that of the step, or its own if the step would be refused.
fn energy_after(energy: i64, answer: StepAnswer) -> i64
    ensures { result ≡ energy_by energy answer }
{
    match answer {
        StepAnswer::Made(made) => made.energy,
        StepAnswer::Refused(_) | StepAnswer::Unread(_) => energy,
    }
}

/// Returns the number of bots that would be active.
fn active_after(active: u8, answer: StepAnswer) -> u8
    ensures { result ≡ active_by active answer }
{
    match answer {
        StepAnswer::Made(made) => made.active,
        StepAnswer::Refused(_) | StepAnswer::Unread(_) => active,
    }
}

/// Returns the harmonics that the machine would have.
fn harmonics_after(harmonics: Harmonics, answer: StepAnswer) -> Harmonics
    ensures { result ≡ harmonics_by harmonics answer }
{
    match answer {
        StepAnswer::Made(made) => made.harmonics,
        StepAnswer::Refused(_) | StepAnswer::Unread(_) => harmonics,
    }
}

/// Returns the numbers of a step that would have this outcome.
fn told_of(machine: &KeptMachine, answer: StepAnswer) -> JudgedReport
    ensures { result ≡ judged_told machine.now answer }
{
    JudgedReport {
        energy: energy_after(machine.energy(), answer),
        offset: answer.offset(),
        halts: halts(answer),
        broken: answer.broken_rule(),
        active: u32::from(active_after(machine.active(), answer)),
        high: high(harmonics_after(machine.harmonics(), answer)),
        changed: answer.changed(),
    }
}

/// Returns the outcome that a step would have: the bytes are those of `nanobot_machine_step`. The machine is left as it was.
#[unsafe(no_mangle)]
pub extern "C" fn nanobot_machine_judge(
    alloc: Global,
    handle: &mut Handle,
    commands: &[u8],
    told: &mut JudgedReport,
) -> u32
    ensures same { handle.new.machine ≡ handle.old.machine }
    ensures told { IsJudged handle.old.machine commands.now told.old told.new result }
{
    let Some(mut machine) = handle.take(alloc) else {
        return NO_MACHINE;
    };
    let answer = judge_by(alloc, &mut machine, commands);
    *told = told_of(&machine, answer);
    handle.put(machine);
    answer.status()
}
