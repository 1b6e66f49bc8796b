//! Plans of `floor_planner` for a few voxels. Energies and steps were worked out by hand from the rules.
use crate::models::{at, model};
use floor_planner::{is_flat, plan_floor};
use model_file::legal;
use plan_tape::Plan;
use std::alloc::Global;
use std::process::Abort;
use std::test::Fail;
use vox_geom::{Coord, MOST_R, Memory};

/// Returns the plan of the model of this resolution with these voxels.
fn planned(rt: &impl Abort, alloc: Global, r: u16, full: &[Coord]) -> Result<Plan, Memory> {
    assert!(rt; r >= 1);
    assert!(rt; r <= MOST_R);
    let target = model(alloc, r, full)?;
    assert!(rt; is_flat(&target));
    match legal(alloc, &target) {
        Ok(()) => plan_floor(alloc, &target),
        Err(_) => Err(Memory),
    }
}

#[test]
fn plans_pay_by_their_steps(rt: HostRuntime) -> Result<(), Fail> {
    let cases: [(u16, &[Coord], i64, u32); 4] = [
        (1, &[], 96, 3),
        (3, &[], 1032, 3),
        (3, &[at(1, 0, 1)], 6866, 10),
        (4, &[at(1, 0, 1), at(1, 0, 2)], 19864, 12),
    ];
    for (resolution, full, energy, steps) in cases {
        let plan = planned(&rt, rt.alloc(), resolution, full)?;
        assert_eq!(rt; plan.energy, energy);
        assert_eq!(rt; plan.steps, steps);
        assert_eq!(rt; plan.commands.as_slice().len(), steps as usize);
    }
    Ok(())
}

/// Returns whether the model of resolution 4 with this voxel alone lies on the floor.
fn is_flat_with(alloc: Global, c: Coord) -> Result<bool, Memory> {
    Ok(is_flat(&model(alloc, 4, &[c])?))
}

#[test]
fn what_is_not_flat_is_told(rt: HostRuntime) -> Result<(), Fail> {
    assert!(rt; is_flat_with(rt.alloc(), at(1, 0, 1))?);
    assert!(rt; !is_flat_with(rt.alloc(), at(1, 1, 1))?);
    Ok(())
}
