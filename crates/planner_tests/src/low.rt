//! Plans of `low_planner` for models of a few voxels. Energies and steps were worked out by hand from the rules.
use crate::models::at;
use low_planner::{LowFault, plan_low};
use model_file::{legal, read_model};
use plan_tape::Plan;
use std::alloc::Global;
use std::test::Fail;

/// Resolution 3: the voxel (1,0,1).
const POST: [u8; 5] = [3, 0, 4, 0, 0];

/// Resolution 5: posts at (1,0,1) and (1,0,3), and above them the voxels (1,1,1) to (1,1,3).
const GATE: [u8; 17] = [5, 0, 0, 0, 0x94, 0x03, 0, 0, 0, 0, 0, 0, 0, 0, 0, 0, 0];

/// Resolution 5: a post at (1,0,1) to (1,2,1), from which (2,2,1) and (3,2,1) lead to (3,1,1), which hangs from the latter.
const HANGING: [u8; 17] = [
    5, 0, 0, 0, 0x84, 0x10, 0, 0, 0x20, 0, 0, 0x42, 0, 0, 0, 0, 0,
];

/// Returns the plan of a file's model, if it is legal.
fn planned(alloc: Global, bytes: &[u8]) -> Result<Plan, LowFault> {
    let Ok(target) = read_model(alloc, bytes) else {
        return Err(LowFault::Memory);
    };
    match legal(alloc, &target) {
        Ok(()) => plan_low(alloc, &target),
        Err(_) => Err(LowFault::Memory),
    }
}

#[test]
fn plans_pay_by_their_steps(rt: HostRuntime) -> Result<(), Fail> {
    let cases: [(&[u8], i64, u32); 4] = [
        (&[1, 0], 23, 1),
        (&[3, 0, 0, 0, 0], 101, 1),
        (&POST, 832, 8),
        (&GATE, 7597, 19),
    ];
    for (bytes, energy, steps) in cases {
        match planned(rt.alloc(), bytes) {
            Ok(plan) => {
                assert_eq!(rt; plan.energy, energy);
                assert_eq!(rt; plan.steps, steps);
                assert_eq!(rt; plan.commands.as_slice().len(), steps as usize);
            }
            Err(fault) => assert_eq!(rt; fault.number(), 0),
        }
    }
    Ok(())
}

#[test]
fn an_unsupported_part_is_refused(rt: HostRuntime) -> Result<(), Fail> {
    let at = at(3, 1, 1);
    match planned(rt.alloc(), &HANGING) {
        Ok(plan) => assert_eq!(rt; plan.steps, 0),
        Err(fault) => assert_eq!(rt; fault, LowFault::Unsupported { at }),
    }
    Ok(())
}
