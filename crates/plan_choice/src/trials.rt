//! Makes proposals one after another, judges each, and keeps the cheapest.
ghost use Rattle.std.specs.Prelude.{IfOk};
ghost use Rattle.plan_choice.specs.Better.{CanImprove, CanRun, MayStandFor};

use crate::alone::{affordable, is_void, upkeep_of};
use crate::bounds::Bounds;
use crate::choice::cheaper;
use crate::extent::{extent_of, is_full_at};
use crate::flips::{Work, lower_commands};
use crate::rebuild::join;
use crate::slabs::slabs;
use box_plans::{BoxManner, boxes};
use nano_spec::{CommandList, Profile};
use plan_tape::Plan;
use squad_plans::{Manner, Poled, Slabs, slabs_by_squads, squads, with_poles};
use std::alloc::Global;
use vox_geom::{Coord, Memory};
use vox_planes::Planes;

/// A kind of proposal.
#[derive(Clone, Copy)]
pub(crate) enum Trial {
    /// Squads that build the target from nothing or void the source, with no more bots than the bounds allow.
    Squads(Manner),
    /// Four bots that void the source by slabs of this many layers, in tiles all about equally wide, or as wide as possible.
    Slabs(u16, bool),
    /// The same, after one bot has put poles under overhangs.
    PoledSlabs(u16, bool),
    /// Squads of four that void the source by slabs of this many layers, or build the target by the same backwards, with x and z as
    /// they are or exchanged.
    Fours(u16, bool),
    /// Boxes that build the target from nothing or void the source, each with a team assigned anew.
    Boxes(BoxManner),
}

/// The most work of all trials, added to the number of voxels of the model's space.
const MOST_WORK: u64 = 4_000_000;

/// The divisor of the full voxels that a machine starts with: each costs far less than a voxel that floats.
const START: u32 = 8;

/// Returns whether a row along z is the same with x and z exchanged, for its voxels before x.
fn is_symmetric_row(planes: &Planes, x: u16, y: u16) -> bool {
    for z in 0..x {
        let one = is_full_at(planes, Coord { x, y, z });
        if one != is_full_at(planes, Coord { x: z, y, z: x }) {
            return false;
        }
    }
    true
}

/// Returns whether a layer is the same with x and z exchanged.
fn is_symmetric_layer(planes: &Planes, y: u16) -> bool {
    for x in 0..planes.resolution() {
        if !is_symmetric_row(planes, x, y) {
            return false;
        }
    }
    true
}

/// Returns whether a model is the same with x and z exchanged, so that exchanging them gains nothing.
fn is_symmetric(planes: &Planes) -> bool {
    if is_void(planes) {
        return true;
    }
    for y in 0..planes.resolution() {
        if !is_symmetric_layer(planes, y) {
            return false;
        }
    }
    true
}

/// Returns the commands of squads in a manner that build the target from nothing or void the source.
fn by_manner(
    alloc: Global,
    source: &Planes,
    target: &Planes,
    manner: Manner,
    steps: u64,
    bots: u8,
) -> Result<Option<CommandList>, Memory> {
    let most = if manner.pairs { bots / 2 } else { bots };
    let down = !is_void(source);
    let manner = Manner {
        squads: manner.squads.min(most),
        down,
        most: steps,
        ..manner
    };
    squads(alloc, if down { source } else { target }, manner)
}

/// Returns the commands of one bot that puts up poles, followed by those of four bots that void everything by slabs, if both exist.
fn poled_slabs(
    alloc: Global,
    poled: &Option<Poled>,
    thick: u16,
    even: bool,
    steps: u64,
) -> Result<Option<CommandList>, Memory> {
    let Some(poled) = poled else {
        return Ok(None);
    };
    let first = poled.commands.as_slice();
    let Some(later) = slabs(alloc, &poled.planes, thick, even, steps)? else {
        return Ok(None);
    };
    Ok(Some(join(alloc, first, later.as_slice())?))
}

/// Returns the commands under High of a trial by slabs, if there are any within `most` steps.
fn by_trial(
    alloc: Global,
    source: &Planes,
    target: &Planes,
    poled: &Option<Poled>,
    trial: Trial,
    most: u64,
) -> Result<Option<CommandList>, Memory> {
    match trial {
        Trial::Squads(_) => Ok(None),
        Trial::Slabs(thick, even) => slabs(alloc, source, thick, even, most),
        Trial::PoledSlabs(thick, even) => poled_slabs(alloc, poled, thick, even, most),
        Trial::Fours(thick, turned) => {
            let up = is_void(source);
            let manner = Slabs {
                thick,
                turned,
                up,
                most,
            };
            slabs_by_squads(alloc, if up { target } else { source }, manner)
        }
        Trial::Boxes(_) => Ok(None),
    }
}

/// Returns the work allowed for all trials between two models.
fn work_between(source: &Planes, target: &Planes) -> Work {
    let r = u64::from(source.resolution());
    let full = extent_of(source).count.max(extent_of(target).count);
    Work::allowing((r * r * r).saturating_add(MOST_WORK), full / START)
}

/// Returns the commands of a trial, if there are any within the limits of steps and of work.
fn propose(
    alloc: Global,
    source: &Planes,
    target: &Planes,
    profile: Profile,
    poled: &Option<Poled>,
    trial: Trial,
    steps: u64,
    bots: u8,
    work: &mut Work,
) -> Result<Option<CommandList>, Memory>
    requires { CanRun source.now profile }
{
    if let Trial::Squads(manner) = trial {
        return by_manner(alloc, source, target, manner, steps, bots);
    }
    if let Trial::Boxes(manner) = trial {
        let down = !is_void(source);
        return boxes(
            alloc,
            if down { source } else { target },
            down,
            manner,
            steps,
        );
    }
    let Some(commands) = by_trial(alloc, source, target, poled, trial, steps)? else {
        return Ok(None);
    };
    lower_commands(alloc, source, profile, commands.as_slice(), steps, work)
}

/// Returns whether a trial is another one with x and z exchanged.
fn is_turned(trial: Trial) -> bool {
    match trial {
        Trial::Squads(manner) => manner.turned,
        Trial::Slabs(_, _) => false,
        Trial::PoledSlabs(_, _) => false,
        Trial::Fours(_, turned) => turned,
        Trial::Boxes(_) => false,
    }
}

/// Returns whether one of the trials uses poles.
fn some_want_poles(trials: &[Trial]) -> bool {
    for trial in trials {
        if let Trial::PoledSlabs(_, _) = *trial {
            return true;
        }
    }
    false
}

/// Returns the source with poles under overhangs, if a trial uses them and they take no more steps than the limit.
fn poled_for(
    alloc: Global,
    source: &Planes,
    trials: &[Trial],
    most: u64,
) -> Result<Option<Poled>, Memory> {
    if !some_want_poles(trials) {
        return Ok(None);
    }
    with_poles(alloc, source, most)
}

/// Returns the plan, or the cheapest of the trials that cost less and keep the bounds, if any do. Trials that cannot cost less than
/// the ceiling may be skipped.
pub(crate) fn cheapest(
    alloc: Global,
    source: &Planes,
    target: &Planes,
    profile: Profile,
    plan: Plan,
    trials: &[Trial],
    most: Bounds,
    ceiling: i64,
) -> Result<Plan, Memory>
    requires { CanImprove source.now target.now profile plan }
    ensures { IfOk result (λ it. MayStandFor source.now target.now profile most plan it) }
{
    let symmetric = is_symmetric(source) && is_symmetric(target);
    let steps = affordable(source.resolution(), plan.energy.min(ceiling));
    let poled = poled_for(alloc, source, trials, steps)?;
    let mut work = work_between(source, target);
    let mut best = plan;
    for trial in trials {
        if work.is_over() || (symmetric && is_turned(*trial)) {
            continue;
        }
        let steps = affordable(source.resolution(), best.energy.min(ceiling));
        let made = propose(
            alloc, source, target, profile, &poled, *trial, steps, most.bots, &mut work,
        )?;
        let Some(proposal) = made else {
            continue;
        };
        work.start();
        // A run can take half a minute in a maze, so a proposal whose upkeep alone costs too much is not run.
        if upkeep_of(proposal.as_slice()) > affordable(source.resolution(), best.energy) {
            continue;
        }
        best = cheaper(alloc, source, target, profile, best, proposal, most)?;
    }
    Ok(best)
}
