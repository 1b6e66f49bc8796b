//! Queries of a machine.
ghost use Rattle.std.specs.Prelude.{◌≡◌, map, MatchOption};
ghost use Rattle.vox_geom.specs.Point.{coord};
ghost use Rattle.vox_geom.specs.Space.{IsInSpace};
ghost use Rattle.kept_machine.specs.Calls.{TellsLevel};
ghost use Rattle.machine_c.specs.Calls.{AreBotsTold, GivesAll, IsCounted, IsFullTold, IsLevelTold, IsMachineTold, IsModelGiven, high_of, level_by, status_of_level};
ghost use Rattle.machine_c.specs.Told.{bot_told};

use crate::handle::Handle;
use crate::reports::{BotReport, MachineReport};
use crate::status::{DONE, MEMORY, NO_LEVEL, NO_MACHINE, OUTSIDE, TOO_SMALL};
use kept_machine::{KeptMachine, NoLevel};
use model_file::write_model;
use nano_spec::{Bot, Harmonics};
use std::alloc::Global;
use vox_geom::Coord;

/// Returns the machine's energy, steps, bots, resolution, harmonics and notes.
#[unsafe(no_mangle)]
pub extern "C" fn nanobot_machine_tell(
    alloc: Global,
    handle: &mut Handle,
    told: &mut MachineReport,
) -> u32
    ensures same { handle.new.machine ≡ handle.old.machine }
    ensures told { IsMachineTold handle.old.machine told.old told.new result }
{
    let Some(machine) = handle.take(alloc) else {
        return NO_MACHINE;
    };
    *told = MachineReport {
        energy: machine.energy(),
        steps: machine.steps_done(),
        active: u32::from(machine.active()),
        resolution: u32::from(machine.matrix().resolution()),
        high: high(machine.harmonics()),
        noted: machine.steps_noted() as u64,
    };
    handle.put(machine);
    DONE
}

/// Returns 1 for High, 0 for Low.
pub(crate) fn high(harmonics: Harmonics) -> u32
    ensures { result ≡ high_of harmonics }
{
    match harmonics {
        Harmonics::Low => 0,
        Harmonics::High => 1,
    }
}

/// Writes the bots to the front of the buffer if they fit, and their number to `count`.
fn give_bots(bots: &[Bot], out: &mut [BotReport], count: &mut usize) -> u32
    ensures { GivesAll (map bot_told bots.now) out.old out.new count.new result }
{
    *count = bots.len();
    if bots.len() > out.len() {
        return TOO_SMALL;
    }
    for i in 0..bots.len() {
        out[i] = BotReport::of(&bots[i]);
    }
    DONE
}

/// Writes the active bots, in rising order of their bids, and their number.
#[unsafe(no_mangle)]
pub extern "C" fn nanobot_machine_bots(
    alloc: Global,
    handle: &mut Handle,
    bots: &mut [BotReport],
    count: &mut usize,
) -> u32
    ensures same { handle.new.machine ≡ handle.old.machine }
    ensures told { AreBotsTold handle.old.machine bots.old bots.new count.new result }
{
    *count = 0;
    let Some(machine) = handle.take(alloc) else {
        return NO_MACHINE;
    };
    let status = give_bots(machine.bots(), bots, count);
    handle.put(machine);
    status
}

/// Returns the coordinate, if it is in space.
fn place(r: u16, x: u32, y: u32, z: u32) -> Option<Coord>
    ensures { MatchOption result (IsInSpace r (coord x y z) → ⊥) (λ c. (c ≡ coord x y z) × IsInSpace r c) }
{
    let side = u32::from(r);
    if x < side && y < side && z < side {
        return Some(Coord {
            x: x as u16,
            y: y as u16,
            z: z as u16,
        });
    }
    None
}

/// Writes 1 if the voxel at a coordinate is full, 0 otherwise.
#[unsafe(no_mangle)]
pub extern "C" fn nanobot_machine_full(
    alloc: Global,
    handle: &mut Handle,
    x: u32,
    y: u32,
    z: u32,
    full: &mut u32,
) -> u32
    ensures same { handle.new.machine ≡ handle.old.machine }
    ensures told { IsFullTold handle.old.machine (coord x y z) full.old full.new result }
{
    let Some(machine) = handle.take(alloc) else {
        return NO_MACHINE;
    };
    let status = match place(machine.matrix().resolution(), x, y, z) {
        Some(c) => {
            *full = u32::from(machine.full(c));
            DONE
        }
        None => OUTSIDE,
    };
    handle.put(machine);
    status
}

/// Returns the level at a coordinate, if that is in space.
fn level_at(machine: &mut KeptMachine, x: u32, y: u32, z: u32) -> Result<Option<u32>, NoLevel>
    ensures stays { machine.new ≡ machine.old }
    ensures told { TellsLevel machine.old.state.matrix (coord x y z) result }
{
    match place(machine.matrix().resolution(), x, y, z) {
        Some(c) => machine.level(c),
        None => Err(NoLevel::Outside),
    }
}

/// Writes the level, if there is one, and returns the status.
fn give_level(answer: Result<Option<u32>, NoLevel>, level: &mut u32) -> u32
    ensures level { level.new ≡ level_by level.old answer }
    ensures status { result ≡ status_of_level answer }
{
    match answer {
        Ok(Some(told)) => {
            *level = told;
            DONE
        }
        Ok(None) => NO_LEVEL,
        Err(NoLevel::Outside) => OUTSIDE,
        Err(NoLevel::Memory) => MEMORY,
    }
}

/// Writes the level of the voxel at a coordinate: its distance from the floor along full voxels.
#[unsafe(no_mangle)]
pub extern "C" fn nanobot_machine_level(
    alloc: Global,
    handle: &mut Handle,
    x: u32,
    y: u32,
    z: u32,
    level: &mut u32,
) -> u32
    ensures same { handle.new.machine ≡ handle.old.machine }
    ensures told { IsLevelTold handle.old.machine (coord x y z) level.old level.new result }
{
    let Some(mut machine) = handle.take(alloc) else {
        return NO_MACHINE;
    };
    let answer = level_at(&mut machine, x, y, z);
    handle.put(machine);
    give_level(answer, level)
}

/// Counts the full voxels.
#[unsafe(no_mangle)]
pub extern "C" fn nanobot_machine_count(alloc: Global, handle: &mut Handle, count: &mut u32) -> u32
    ensures same { handle.new.machine ≡ handle.old.machine }
    ensures told { IsCounted handle.old.machine count.old count.new result }
{
    let Some(machine) = handle.take(alloc) else {
        return NO_MACHINE;
    };
    *count = machine.count();
    handle.put(machine);
    DONE
}

/// Writes bytes to the front of the buffer if they fit, and their number to `size`.
pub fn give_bytes(bytes: &[u8], out: &mut [u8], size: &mut usize) -> u32
    ensures { GivesAll bytes.now out.old out.new size.new result }
{
    *size = bytes.len();
    if bytes.len() > out.len() {
        return TOO_SMALL;
    }
    out[..bytes.len()].copy_from_slice(bytes);
    DONE
}

/// Writes the matrix as the bytes of a model.
#[unsafe(no_mangle)]
pub extern "C" fn nanobot_machine_model(
    alloc: Global,
    handle: &mut Handle,
    model: &mut [u8],
    size: &mut usize,
) -> u32
    ensures same { handle.new.machine ≡ handle.old.machine }
    ensures given { IsModelGiven handle.old.machine model.old model.new size.new result }
{
    *size = 0;
    let Some(machine) = handle.take(alloc) else {
        return NO_MACHINE;
    };
    let status = match write_model(alloc, machine.matrix()) {
        Ok(bytes) => give_bytes(bytes.as_slice(), model, size),
        Err(_) => MEMORY,
    };
    handle.put(machine);
    status
}
