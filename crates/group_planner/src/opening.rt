//! Fission of one bot into two, and fusion into one.
ghost use Rattle.std.specs.Prelude.{◌≡◌, ◌+◌, ◌-◌, ◌<◌, ◌≤◌, IfOk, OnOk};
ghost use Rattle.vox_geom.specs.Space.{IsInSpace};
ghost use Rattle.nano_spec.specs.declared.system.Harmonics.TheVariants.{High};
ghost use Rattle.nano_spec.specs.Legal.{IsLegal};
ghost use Rattle.nano_spec.specs.Profile.{full_profile};
ghost use Rattle.plan_tape.specs.Fissions.{fissions};
ghost use Rattle.plan_tape.specs.Leg.{moves};
ghost use Rattle.plan_tape.specs.Progress.{spot, IsVoidFrom};
ghost use Rattle.group_planner.specs.Pair.{IsPair, front as front_of, rear as rear_of};
ghost use Rattle.group_planner.specs.Phases.{PairIsOpened, PairJoins, Splits, first_at};
ghost use Rattle.vox_geom.specs.Point.{coord};

use crate::pair::{go_to_row, rear, spread};
use nano_spec::Command;
use plan_tape::{Axis, Tape, ahead, behind, rise};
use std::alloc::Global;
use step_order::bots_act;
use vox_geom::Memory;
use vox_planes::Planes;

/// Splits the single bot into two, next to each other along z.
fn split(tape: &mut Tape) -> Result<(), Memory>
    requires alone { tape.old.bots ≡ first_at (spot tape.old.bots) }
    requires unsplit { fissions tape.old ≡ 0 }
    requires high { tape.old.harmonics ≡ High }
    requires full { tape.old.profile ≡ full_profile }
    requires within { IsInSpace tape.old.matrix.resolution (spot tape.old.bots) }
    requires room { (spot tape.old.bots).z + 1 < tape.old.matrix.resolution }
    requires free { IsVoidFrom tape.old.matrix (spot tape.old.bots).y }
    requires limit { tape.old.steps < 1073741824 }
    ensures { OnOk result (Splits tape.old tape.new) }
{
    bots_act();
    tape.recall_ready();
    tape.act_all(&[Command::Fission(ahead(Axis::Z), 0)])
}

/// Fuses the two bots, which are next to each other, into one.
fn join(tape: &mut Tape) -> Result<(), Memory>
    requires pair { IsPair tape.old }
    requires beside { (front_of tape.old).z ≡ (rear_of tape.old).z + 1 }
    requires limit { tape.old.steps < 1073741824 }
    ensures { OnOk result (PairJoins tape.old tape.new (rear_of tape.old) 1) }
{
    bots_act();
    tape.recall_ready();
    tape.act_all(&[
        Command::FusionP(ahead(Axis::Z)),
        Command::FusionS(behind(Axis::Z)),
    ])
}

/// Returns the tape with two bots at the top above the origin, under High.
pub fn open(alloc: Global, source: Planes) -> Result<Tape, Memory>
    requires legal { IsLegal source }
    requires room { 2 ≤ source.resolution }
    ensures source { IfOk result (λ t. t.source ≡ source) }
    ensures opened { IfOk result PairIsOpened }
{
    source.recall();
    let mut tape = rise(alloc, source)?;
    split(&mut tape)?;
    Ok(tape)
}

/// Fuses the bots into one above the origin.
pub fn gather(tape: &mut Tape) -> Result<(), Memory>
    requires pair { IsPair tape.old }
    requires limit { tape.old.steps + 82 ≤ 1073741824 }
    ensures { OnOk result
        (PairJoins tape.old tape.new (coord 0 (rear_of tape.old).y 0)
        (moves (rear_of tape.old).x 0 + moves (rear_of tape.old).z 0 + moves (front_of tape.old).z 1 + 1)) }
{
    let y = rear(tape).y;
    go_to_row(tape, 0, y)?;
    spread(tape, 0, 1)?;
    join(tape)
}
