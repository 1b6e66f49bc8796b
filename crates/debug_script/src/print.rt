//! Printing a session.
ghost use Rattle.std.specs.Prelude.{◌≡◌, ◌+◌, ◌++◌, ◌<◌, IfOk, IsFalse, None, OnOk, cond, false, flat_map, length, string_bytes};
ghost use Rattle.nano_spec.specs.Grounded.{FirstUngrounded};
ghost use Rattle.nano_spec.specs.Level.{Level};
ghost use Rattle.nano_spec.specs.Matrix.{is_full};
ghost use Rattle.nano_spec.specs.Profile.{full_profile};
ghost use Rattle.nano_spec.specs.State.{origin};
ghost use Rattle.step_debugger.specs.Calls.{fault_report};
ghost use Rattle.step_debugger.specs.Session.{Back, Begun, Bots, Group, IsFull, IsVoid, Made, Step, Voxel, is_returned, opened};
ghost use Rattle.vox_geom.specs.Point.{point};
ghost use Rattle.vox_geom.specs.Space.{in_space};
ghost use Rattle.debug_script.specs.Calls.{script_line_is, lines_are};
ghost use Rattle.debug_script.specs.Printing.{bot_line as bot_line_of, printed_report};
ghost use Rattle.debug_script.specs.Sessions.{IsPut, IsTold, Prints};

use crate::broken::broken_line;
use crate::line::ScriptLine;
use crate::report::{
    begun_line, bot_line, full_line, made_line, no_leader_line, returned_line, void_line,
};
use nano_spec::{Bot, CommandList, Profile};
use std::alloc::{AllocError, Global};
use std::sync::ledger::Ledger;
use step_debugger::{DebugFault, Debugger};
use step_machine::{Machine, StepOk};
use vox_geom::{Coord, Memory, Steps};
use vox_planes::Planes;

/// Appends a line to the text.
fn put(text: &mut Vec<u8>, line: &[u8]) -> Result<(), Memory>
    ensures { OnOk result (text.new.items ≡ text.old.items ++ line.now) }
{
    text.extend_from_slice(line).map_err(|_| Memory)
}

/// Appends the lines of bots to the text.
#[tactic(auto, using(crate::proofs::Lines::bots_on))]
fn put_bots(alloc: Global, text: &mut Vec<u8>, bots: &[Bot]) -> Result<(), Memory>
    ensures { OnOk result (text.new.items ≡ text.old.items ++ flat_map bot_line_of bots.now) }
{
    for bot in bots {
        let line = bot_line(alloc, *bot)?;
        put(text, line.as_bytes())?;
    }
    Ok(())
}

/// Appends the line of a fault to the text. Out of memory has none.
fn put_fault(alloc: Global, text: &mut Vec<u8>, fault: &DebugFault) -> Result<(), Memory>
    ensures { OnOk result (IsPut (fault_report fault.now) text.old.items text.new.items) }
{
    match fault {
        DebugFault::Broken(broken) => {
            let line = broken_line(alloc, broken)?;
            put(text, line.as_bytes())
        }
        DebugFault::Ended => put(text, b"ended\n"),
        DebugFault::NoHistory => put(text, b"no history\n"),
        DebugFault::NotLeader { leader } => {
            let line = no_leader_line(alloc, *leader)?;
            put(text, line.as_bytes())
        }
        DebugFault::Memory => Err(Memory),
    }
}

/// Appends the line of an accepted step to the text.
fn put_made(
    alloc: Global,
    text: &mut Vec<u8>,
    debugger: &Debugger,
    made: StepOk,
) -> Result<(), Memory>
    requires { debugger.now.spent ≡ false }
    ensures { OnOk result
        (text.new.items
        ≡ text.old.items ++ printed_report (Made debugger.now.session.point.steps made.energy made.halted)) }
{
    let steps = debugger.machine().steps_done();
    let line = made_line(alloc, steps, made.energy, made.halted)?;
    put(text, line.as_bytes())
}

/// Answers `step`.
fn tell_step<L: Ledger>(
    alloc: Global,
    debugger: &mut Debugger,
    text: &mut Vec<u8>,
    steps: &mut Steps<L>,
) -> Result<(), Memory>
    requires { debugger.old.spent ≡ false }
    ensures { OnOk result (IsTold Step debugger.old debugger.new text.old.items text.new.items) }
{
    match debugger.step(steps) {
        Ok(made) => put_made(alloc, text, debugger, made),
        Err(fault) => put_fault(alloc, text, &fault),
    }
}

/// Appends the line of a begun group to the text.
fn put_begun(
    alloc: Global,
    text: &mut Vec<u8>,
    debugger: &Debugger,
    leader: u8,
) -> Result<(), Memory>
    requires { debugger.now.spent ≡ false }
    ensures { OnOk result
        (text.new.items ≡ text.old.items ++ printed_report (Begun leader (debugger.now.session.point.steps + 1))) }
{
    let step = debugger.machine().steps_done() + 1;
    let line = begun_line(alloc, leader, step)?;
    put(text, line.as_bytes())
}

/// Answers `group` and a leader.
fn tell_group<L: Ledger>(
    alloc: Global,
    debugger: &mut Debugger,
    leader: u8,
    text: &mut Vec<u8>,
    steps: &mut Steps<L>,
) -> Result<(), Memory>
    requires { debugger.old.spent ≡ false }
    ensures { OnOk result (IsTold (Group leader) debugger.old debugger.new text.old.items text.new.items) }
{
    match debugger.group(leader, steps) {
        Ok(Some(made)) => put_made(alloc, text, debugger, made),
        Ok(None) => put_begun(alloc, text, debugger, leader),
        Err(fault) => put_fault(alloc, text, &fault),
    }
}

/// Appends the line of an earlier point that is current again to the text.
fn put_returned(alloc: Global, text: &mut Vec<u8>, debugger: &Debugger) -> Result<(), Memory>
    requires { debugger.now.spent ≡ false }
    ensures { OnOk result (text.new.items ≡ text.old.items ++ printed_report (is_returned debugger.now.session.point)) }
{
    let machine = debugger.machine();
    let line = returned_line(alloc, machine.steps_done(), machine.energy())?;
    put(text, line.as_bytes())
}

/// Answers `back`.
fn tell_back<L: Ledger>(
    alloc: Global,
    debugger: &mut Debugger,
    text: &mut Vec<u8>,
    steps: &mut Steps<L>,
) -> Result<(), Memory>
    requires { debugger.old.spent ≡ false }
    ensures { OnOk result (IsTold Back debugger.old debugger.new text.old.items text.new.items) }
{
    match debugger.back(steps) {
        Ok(()) => put_returned(alloc, text, debugger),
        Err(fault) => put_fault(alloc, text, &fault),
    }
}

/// Answers `bots`.
fn tell_bots(alloc: Global, debugger: &Debugger, text: &mut Vec<u8>) -> Result<(), Memory>
    requires { debugger.now.spent ≡ false }
    ensures { OnOk result (IsTold Bots debugger.now debugger.now text.old.items text.new.items) }
{
    put_bots(alloc, text, debugger.middle_crew().bots())
}

/// Returns whether a coordinate is in a matrix of this resolution.
fn is_within(resolution: u16, at: Coord) -> bool
    ensures { result ≡ in_space resolution (point at) }
{
    at.x < resolution && at.y < resolution && at.z < resolution
}

/// Returns the level of a voxel. Outside the matrix nothing is full, and so nothing has a level.
fn level_at<L: Ledger>(machine: &Machine, at: Coord, steps: &mut Steps<L>) -> Option<u32>
    requires { machine.now.spent ≡ false }
    ensures { Level machine.now.state.matrix at result }
{
    if !is_within(machine.matrix().resolution(), at) {
        return None;
    }
    machine.level(at, steps)
}

/// Returns whether a voxel is full. Outside the matrix nothing is.
fn full_at<L: Ledger>(machine: &Machine, at: Coord, steps: &mut Steps<L>) -> bool
    ensures { result ≡ is_full machine.now.state.matrix at }
{
    if !is_within(machine.matrix().resolution(), at) {
        return false;
    }
    machine.matrix().full_at(at, steps)
}

/// Returns the line of a voxel, by whether it is full and by its level.
fn voxel_line(
    alloc: Global,
    at: Coord,
    full: bool,
    level: Option<u32>,
) -> Result<String, AllocError>
    ensures { IfOk result (λ s. string_bytes s ≡ printed_report (cond full (IsFull at level) (IsVoid at))) }
{
    if full {
        full_line(alloc, at, level)
    } else {
        void_line(alloc, at)
    }
}

/// Answers `voxel` and a coordinate.
fn tell_voxel<L: Ledger>(
    alloc: Global,
    debugger: &Debugger,
    at: Coord,
    text: &mut Vec<u8>,
    steps: &mut Steps<L>,
) -> Result<(), Memory>
    requires { debugger.now.spent ≡ false }
    ensures { OnOk result (IsTold (Voxel at) debugger.now debugger.now text.old.items text.new.items) }
{
    let machine = debugger.machine();
    let level = level_at(machine, at, steps);
    let full = full_at(machine, at, steps);
    let line = voxel_line(alloc, at, full, level)?;
    put(text, line.as_bytes())
}

/// Answers a line of a script, and appends its printed text.
fn tell<L: Ledger>(
    alloc: Global,
    debugger: &mut Debugger,
    line: ScriptLine,
    text: &mut Vec<u8>,
    steps: &mut Steps<L>,
) -> Result<(), Memory>
    requires { debugger.old.spent ≡ false }
    ensures { OnOk result (IsTold (script_line_is line) debugger.old debugger.new text.old.items text.new.items) }
{
    match line {
        ScriptLine::Step => tell_step(alloc, debugger, text, steps),
        ScriptLine::Group { leader } => tell_group(alloc, debugger, leader, text, steps),
        ScriptLine::Back => tell_back(alloc, debugger, text, steps),
        ScriptLine::Bots => tell_bots(alloc, debugger, text),
        ScriptLine::Voxel { at } => tell_voxel(alloc, debugger, at, text, steps),
    }
}

/// Returns the printed text of a script over the commands of a trace, from a source on, by the profile of the contest. The source's
/// full voxels are grounded, and (0,0,0) is void.
pub fn print_session<L: Ledger>(
    alloc: Global,
    source: Planes,
    commands: CommandList,
    script: &[ScriptLine],
    steps: &mut Steps<L>,
) -> Result<Vec<u8>, Memory>
    requires grounded { FirstUngrounded source None }
    requires void { IsFalse (is_full source origin) }
    requires few { length commands < 1073741824 }
    ensures { IfOk result (λ text. Prints commands (lines_are script.now) (opened source full_profile) text.items) }
{
    let mut debugger = Debugger::start(alloc, source, Profile::full(), commands, steps)?;
    let mut text = Vec::new(alloc);
    for line in script {
        tell(alloc, &mut debugger, *line, &mut text, steps)?;
    }
    Ok(text)
}
