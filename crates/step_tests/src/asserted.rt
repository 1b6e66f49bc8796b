//! Assertions on the steps of a machine of `step_machine`.
use nano_spec::{Broken, Command, Rule};
use std::process::Abort;
use std::sync::ledger::Ledger;
use step_machine::{Machine, StepFault, StepOk};
use vox_geom::{Coord, Steps};

/// Makes a step whose conditions the test ensures.
fn step<L: Ledger>(
    rt: &impl Abort,
    machine: &mut Machine,
    commands: &[Command],
    steps: &mut Steps<L>,
) -> Result<StepOk, StepFault> {
    let bots = usize::from(machine.active());
    assert!(rt; bots >= 1);
    assert!(rt; commands.len() <= bots);
    assert!(rt; machine.steps_done() < 1000);
    machine.step(commands, steps)
}

/// Asserts that the step is accepted, some bot is left, and this energy is spent after it.
pub(crate) fn assert_goes<L: Ledger>(
    rt: &impl Abort,
    machine: &mut Machine,
    commands: &[Command],
    energy: i64,
    steps: &mut Steps<L>,
) {
    let ok = StepOk {
        energy,
        halted: false,
    };
    assert_eq!(rt; step(rt, machine, commands, steps), Ok(ok));
}

/// Asserts that the step is refused.
pub(crate) fn assert_refused<L: Ledger>(
    rt: &impl Abort,
    machine: &mut Machine,
    commands: &[Command],
    fault: StepFault,
    steps: &mut Steps<L>,
) {
    assert_eq!(rt; step(rt, machine, commands, steps), Err(fault));
}

/// Asserts that the step is accepted.
pub(crate) fn assert_made<L: Ledger>(
    rt: &impl Abort,
    machine: &mut Machine,
    commands: &[Command],
    steps: &mut Steps<L>,
) {
    assert!(rt; step(rt, machine, commands, steps).is_ok());
}

/// Asserts the level of a voxel, or that it has none.
pub(crate) fn assert_level<L: Ledger>(
    rt: &impl Abort,
    machine: &Machine,
    c: Coord,
    expected: Option<u32>,
    steps: &mut Steps<L>,
) {
    let resolution = machine.matrix().resolution();
    assert!(rt; !machine.spent());
    assert!(rt; c.x < resolution);
    assert!(rt; c.y < resolution);
    assert!(rt; c.z < resolution);
    assert_eq!(rt; machine.level(c, steps), expected);
}

/// Returns the fault of the broken rule of grounding.
pub(crate) fn ungrounded(step: u32, at: Coord) -> StepFault {
    StepFault::Broken(Broken {
        step,
        bid: 0,
        rule: Rule::Ungrounded,
        at,
    })
}
