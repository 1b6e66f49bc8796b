//! The end of a run, after its last command.
ghost use Rattle.std.specs.Prelude.{◌≡◌, ◌+◌, ◌*◌, ◌<◌, ◌≤◌, false, length};
ghost use Rattle.nano_spec.specs.Matrix.{Matrix};
ghost use Rattle.nano_spec.specs.Model.{volume};
ghost use Rattle.run_progress.specs.Progress.{Finishes};
ghost use Rattle.trace_judge.specs.declared.runner.Mark.TheVariants as Mark;
ghost use Rattle.trace_judge.specs.Course.{IsUnderway, course_of, spent_by};

use crate::pending::Pending;
use crate::runner::Mark;
use nano_spec::{Broken, Rule, Verdict};
use std::sync::ledger::Ledger;
use step_machine::Machine;
use vox_geom::{Coord, Steps};
use vox_planes::Planes;

/// Returns the verdict of a run by its parts, after its last command. Drops the runner in one place, not at each end.
pub(crate) fn judge_end<L: Ledger>(
    machine: &Machine,
    pending: &Pending,
    mark: Mark,
    target: &Planes,
    steps: &mut Steps<L>,
) -> Verdict
    requires stands { spent_by machine.now.spent mark ≡ false }
    requires underway { IsUnderway machine.now pending.now mark }
    requires resolution { machine.now.state.matrix.resolution ≡ target.now.resolution }
    ensures value { Finishes target.now (course_of machine.now pending.now mark).progress result }
    ensures touches { steps.new ≤ steps.old + 2 * volume target.now.resolution }
{
    let steps_done = machine.steps_done();
    match mark {
        Mark::Running => trace_ends(machine, pending),
        Mark::Refused(broken) => Verdict::Refused(broken),
        Mark::Halted => match machine.matrix().equal(target, steps) {
            None => Verdict::Accepted {
                energy: machine.energy(),
                steps: steps_done,
            },
            Some(at) => refuse(steps_done, 0, Rule::WrongResult, at),
        },
        Mark::Followed => refuse(steps_done, 0, Rule::AfterHalt, Coord { x: 0, y: 0, z: 0 }),
    }
}

/// Returns the verdict of a trace that ends within a step, before the command of some bot.
fn trace_ends(machine: &Machine, pending: &Pending) -> Verdict
    requires lacks { length pending.now < length machine.now.state.bots }
    requires steps { machine.now.steps ≤ 1073741824 }
    ensures { (target : Matrix) → Finishes target (course_of machine.now pending.now Mark.Running).progress result }
{
    let bot = machine.crew().bots()[pending.as_slice().len()];
    refuse(machine.steps_done() + 1, bot.bid, Rule::TraceEnds, bot.pos)
}

/// Returns the verdict of a broken rule.
fn refuse(step: u32, bid: u8, rule: Rule, at: Coord) -> Verdict
    ensures { result ≡ Verdict.Refused (record { step = step; bid = bid; rule = rule; at = at }) }
{
    Verdict::Refused(Broken {
        step,
        bid,
        rule,
        at,
    })
}
