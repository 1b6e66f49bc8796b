//! The plan.
ghost use Rattle.std.specs.Prelude.{◌≡◌, ◌≤◌, ◌↔◌, [], ◌∷◌, IfOk, IsTrue};
ghost use Rattle.vox_geom.specs.Counting.{IsBlankOf};
ghost use Rattle.nano_spec.specs.Legal.{IsLegal};
ghost use Rattle.nano_spec.specs.Matrix.{empty, full_count};
ghost use Rattle.nano_spec.specs.Profile.{full_profile};
ghost use Rattle.plan_tape.specs.Progress.{IsAccepted};
ghost use Rattle.plan_tape.specs.Reaches.{HasAtMost};
ghost use Rattle.void_planner.specs.Phases.{IsVoidModel};
ghost use Rattle.void_planner.specs.Bounds.{most_void_steps};

use crate::ends::{gather, spread};
use crate::sweep::void_all;
use counter_permit::CounterPermit;
use nano_spec::{Command, Profile};
use plan_tape::{Plan, close, halt_alone, rise};
use std::alloc::Global;
use std::marker::Brand;
use std::sync::ledger::{Blank, Ledger};
use vox_geom::{Memory, Steps};
use vox_planes::Planes;

/// Returns whether no voxel is full, with touches counted in a ledger of its own.
fn is_empty_in<L: Ledger>(planes: &Planes, blank: Blank) -> bool
    requires blank { IsBlankOf blank L.name L.parts }
    ensures { IsTrue result ↔ (full_count planes.now ≡ 0) }
{
    let mut steps: Steps<L> = Steps::new(blank, CounterPermit);
    planes.count(&mut steps) == 0
}

/// Returns whether no voxel is full.
fn is_empty(planes: &Planes) -> bool
    ensures void { IsTrue result → IsVoidModel planes.now }
    ensures full { IsVoidModel planes.now → IsTrue result }
{
    is_empty_in::<Brand>(planes, Blank::new(1))
}

/// Plans from the source, which is legal, to the empty model. At resolution r the plan takes at most 8 * r * t + 8 * r + 200 steps;
/// t is the square of (r + 30) / 31, rounded down. If no voxel is full, its commands are a Halt alone.
pub fn plan_void(alloc: Global, source: &Planes) -> Result<Plan, Memory>
    requires { IsLegal source.now }
    ensures accepted { IfOk result
        (λ plan. IsAccepted source.now (empty source.now.resolution) plan.commands
        full_profile plan.energy plan.steps) }
    ensures steps { IfOk result (λ plan. plan.steps ≤ most_void_steps source.now.resolution) }
    ensures few { IfOk result (λ plan. HasAtMost source.now full_profile plan.commands 4) }
    ensures halt_alone { source.now ≡ empty source.now.resolution
        → IfOk result (λ plan. plan.commands ≡ Command.Halt ∷ []) }
{
    source.recall();
    if is_empty(source) {
        return halt_alone(alloc, source.copy(alloc)?, Profile::full());
    }
    let mut tape = rise(alloc, source.copy(alloc)?)?;
    spread(&mut tape)?;
    void_all(&mut tape)?;
    gather(&mut tape)?;
    close(tape)
}
