//! Plans of squads that each build a strip of columns alone.
ghost use Rattle.std.specs.Prelude.{◌≡◌, IfOk, length};
ghost use Rattle.nano_spec.specs.Matrix.{empty};
ghost use Rattle.nano_spec.specs.Profile.{full_profile, light_profile};
ghost use Rattle.plan_tape.specs.Progress.{IsAccepted};
ghost use Rattle.plan_choice.specs.Better.{CanImprove, MayStandFor};

use crate::alone::is_void;
use crate::bounds::Bounds;
use crate::boxed::by_boxes;
use crate::trials::{Trial, cheapest};
use nano_spec::{Command, Profile};
use plan_tape::Plan;
use squad_plans::Manner;
use std::alloc::Global;
use vox_geom::{MOST_R, Memory};
use vox_planes::Planes;

/// The most bots possible: one, and its seeds.
pub(crate) const CREW: u8 = 40;

/// As many bots as the bounds allow, each alone in lanes of three columns.
const ALL: Manner = Manner {
    squads: CREW,
    pairs: false,
    lane: 3,
    turned: false,
    poles: false,
    down: false,
    most: 0,
};

/// One bot in lanes of three columns, with poles under overhangs.
const ONE: Manner = Manner {
    squads: 1,
    poles: true,
    ..ALL
};

/// Variants of single bots: in lanes of three columns or of one, with x and z as they are or exchanged.
const ALONE: [Trial; 4] = [
    Trial::Squads(ALL),
    Trial::Squads(Manner {
        turned: true,
        ..ALL
    }),
    Trial::Squads(Manner { lane: 1, ..ALL }),
    Trial::Squads(Manner {
        lane: 1,
        turned: true,
        ..ALL
    }),
];

/// Variants of one bot.
const BY_ONE: [Trial; 1] = [Trial::Squads(ONE)];

/// Variants of two bots: together, with x and z as they are or exchanged, or with poles, or each alone.
const BY_TWO: [Trial; 4] = [
    Trial::Squads(Manner {
        pairs: true,
        poles: false,
        ..ONE
    }),
    Trial::Squads(Manner {
        pairs: true,
        turned: true,
        poles: false,
        ..ONE
    }),
    Trial::Squads(Manner { pairs: true, ..ONE }),
    Trial::Squads(Manner {
        squads: 2,
        poles: false,
        ..ONE
    }),
];

/// A crew in pairs.
const PAIRS: Manner = Manner { pairs: true, ..ALL };

/// Variants of a crew: by fours, in pairs or each alone, with poles or without, with x and z as they are or exchanged. In a maze poles
/// save most, so the variants after them are rarely run.
const CREWS: [Trial; 9] = [
    Trial::Fours(MOST_R, false),
    Trial::Fours(MOST_R, true),
    Trial::Squads(PAIRS),
    Trial::Squads(Manner {
        turned: true,
        ..PAIRS
    }),
    Trial::Squads(Manner {
        poles: true,
        ..PAIRS
    }),
    Trial::Squads(Manner {
        turned: true,
        poles: true,
        ..PAIRS
    }),
    Trial::Squads(Manner { poles: true, ..ALL }),
    Trial::Squads(ALL),
    Trial::Squads(Manner { lane: 1, ..ALL }),
];

/// Variants of a crew that voids everything by slabs. Thick ones need fewer moves, so they come first; thin ones let fewer voxels
/// float.
const BY_FOURS: [Trial; 8] = [
    Trial::Fours(MOST_R, false),
    Trial::Fours(MOST_R, true),
    Trial::Fours(16, false),
    Trial::Fours(16, true),
    Trial::Fours(4, false),
    Trial::Fours(4, true),
    Trial::Fours(1, false),
    Trial::Fours(1, true),
];

/// Returns the plan from nothing, or a cheaper plan within the bounds, by the light profile: as many bots as the bounds allow each
/// build a strip of columns.
///
/// A plan of one command, a Halt alone, is returned as it is. Proposals that cannot cost less than the ceiling may be skipped.
pub fn by_squads(
    alloc: Global,
    target: &Planes,
    plan: Plan,
    most: Bounds,
    ceiling: i64,
) -> Result<Plan, Memory>
    requires accepted { IsAccepted (empty target.now.resolution) target.now plan.commands light_profile plan.energy
        plan.steps }
    ensures stands { IfOk result
        (λ it. MayStandFor (empty target.now.resolution) target.now light_profile most plan it) }
    ensures alone { length plan.commands ≡ 1 → IfOk result (λ it. it.commands ≡ plan.commands) }
{
    if plan.commands.as_slice().len() == 1 {
        return Ok(plan);
    }
    let nothing = Planes::empty(alloc, target.resolution())?;
    let profile = Profile::light();
    cheapest(
        alloc, &nothing, target, profile, plan, &ALONE, most, ceiling,
    )
}

/// Returns the plan, or a cheaper one within the bounds: two bots, or one if the bounds allow no more, build from nothing or void
/// everything, with poles under overhangs or without.
///
/// A plan of one command, a Halt alone, is returned as it is. Proposals that cannot cost less than the ceiling may be skipped.
pub fn by_few(
    alloc: Global,
    source: &Planes,
    target: &Planes,
    plan: Plan,
    most: Bounds,
    ceiling: i64,
) -> Result<Plan, Memory>
    requires { CanImprove source.now target.now full_profile plan }
    ensures stands { IfOk result (λ it. MayStandFor source.now target.now full_profile most plan it) }
    ensures alone { length plan.commands ≡ 1 → IfOk result (λ it. it.commands ≡ plan.commands) }
{
    let is_alone = plan.commands.as_slice().len() == 1;
    if is_alone || (!is_void(source) && !is_void(target)) {
        return Ok(plan);
    }
    let trials = if most.bots > 1 {
        BY_TWO.as_slice()
    } else {
        BY_ONE.as_slice()
    };
    let profile = Profile::full();
    cheapest(alloc, source, target, profile, plan, trials, most, ceiling)
}

/// Returns the plan, or one of a crew of squads that builds from nothing or voids everything, if it is cheaper and within the
/// bounds. A plan of one command, a Halt alone, is returned as it is.
fn by_strips(
    alloc: Global,
    source: &Planes,
    target: &Planes,
    plan: Plan,
    most: Bounds,
) -> Result<Plan, Memory>
    requires { CanImprove source.now target.now full_profile plan }
    ensures stands { IfOk result (λ it. MayStandFor source.now target.now full_profile most plan it) }
    ensures alone { length plan.commands ≡ 1 → IfOk result (λ it. it.commands ≡ plan.commands) }
{
    if plan.commands.as_slice().len() == 1 {
        return Ok(plan);
    }
    if !is_void(source) && !is_void(target) {
        return Ok(plan);
    }
    let ceiling = plan.energy;
    let profile = Profile::full();
    if !is_void(target) {
        let plan = cheapest(alloc, source, target, profile, plan, &CREWS, most, ceiling)?;
        return Ok(plan);
    }
    let plan = cheapest(
        alloc, source, target, profile, plan, &BY_FOURS, most, ceiling,
    )?;
    let plan = cheapest(alloc, source, target, profile, plan, &CREWS, most, ceiling)?;
    Ok(plan)
}

/// The average number of bots filling or voiding per step from which squads give no better plan.
const BUSY: u64 = 2;

/// Returns whether at least [`BUSY`] bots fill or void per step on average. In a maze few do: boxes wait until they are attached.
fn is_busy(plan: &Plan) -> bool {
    let mut count = 0u64;
    for command in plan.commands.as_slice() {
        let acts = match command {
            Command::Fill(_) => true,
            Command::Void(_) => true,
            Command::GFill(_, _) => true,
            Command::GVoid(_, _) => true,
            _ => false,
        };
        count = count.saturating_add(u64::from(acts));
    }
    count >= u64::from(plan.steps).saturating_mul(BUSY)
}

/// Returns the plan, or a cheaper plan within the bounds of a crew that builds from nothing or voids everything: by boxes, and by
/// squads if boxes keep few bots busy. A plan of one command, a Halt alone, is returned as it is.
pub(crate) fn by_crew(
    alloc: Global,
    source: &Planes,
    target: &Planes,
    plan: Plan,
    most: Bounds,
) -> Result<Plan, Memory>
    requires { CanImprove source.now target.now full_profile plan }
    ensures stands { IfOk result (λ it. MayStandFor source.now target.now full_profile most plan it) }
    ensures alone { length plan.commands ≡ 1 → IfOk result (λ it. it.commands ≡ plan.commands) }
{
    let boxed = by_boxes(alloc, source, target, plan, most)?;
    if is_busy(&boxed) {
        return Ok(boxed);
    }
    let squads = by_strips(alloc, source, target, boxed, most)?;
    Ok(squads)
}
