//! Judges a proposal, and chooses it if it is cheaper.
ghost use Rattle.std.specs.Prelude.{◌≡◌, ◌⊎◌, ◌≤◌, ℕ, ℤ, IfOk, IfSome, None, Ok, length};
ghost use Rattle.vox_geom.specs.Counting.{IsBlankOf};
ghost use Rattle.nano_spec.specs.Verdict.{VerdictOf};
ghost use Rattle.plan_tape.specs.Progress.{IsAccepted};
ghost use Rattle.plan_choice.specs.Better.{CanImprove, CanRun, IsBetter, IsChosen, MayStandFor};

use crate::bounds::{Bounds, MOST_COMMANDS, bytes_of, fissions_of};
use counter_permit::CounterPermit;
use nano_spec::{Command, CommandList, Profile, Verdict, one_verdict};
use plan_tape::Plan;
use std::alloc::Global;
use std::marker::Brand;
use std::sync::ledger::{Blank, Ledger};
use trace_judge::judge_by;
use vox_geom::{Memory, Steps};
use vox_planes::Planes;

/// The cost of an accepted run.
#[derive(Clone, Copy, PartialEq, Eq, Debug)]
pub struct Price {
    pub energy: i64,
    pub steps: u32,
}

/// Judges the commands by a profile, with touches counted in a ledger of its own.
fn judged_in<L: Ledger>(
    alloc: Global,
    source: &Planes,
    target: &Planes,
    profile: Profile,
    commands: &[Command],
    blank: Blank,
) -> Result<Verdict, Memory>
    requires run { CanRun source.now profile }
    requires resolution { source.now.resolution ≡ target.now.resolution }
    requires few { length commands.now ≤ 1073741824 }
    requires blank { IsBlankOf blank L.name L.parts }
    ensures { IfOk result (λ v. VerdictOf source.now target.now commands.now profile v) }
{
    let mut steps: Steps<L> = Steps::new(blank, CounterPermit);
    judge_by(
        alloc,
        source.copy(alloc)?,
        target,
        commands,
        profile,
        &mut steps,
    )
}

/// Judges the commands by a profile, without counting touches.
fn judge_proposal(
    alloc: Global,
    source: &Planes,
    target: &Planes,
    profile: Profile,
    commands: &[Command],
) -> Result<Verdict, Memory>
    requires run { CanRun source.now profile }
    requires resolution { source.now.resolution ≡ target.now.resolution }
    requires few { length commands.now ≤ 1073741824 }
    ensures { IfOk result (λ v. VerdictOf source.now target.now commands.now profile v) }
{
    judged_in::<Brand>(alloc, source, target, profile, commands, Blank::new(1))
}

/// Returns the cost of a proposal that is better than a plan: the definitions accept it with less energy and within the bounds.
/// Returns `None` only if it is not better.
pub fn improvement(
    alloc: Global,
    source: &Planes,
    target: &Planes,
    profile: Profile,
    energy: i64,
    proposal: &[Command],
    most: Bounds,
) -> Result<Option<Price>, Memory>
    requires run { CanRun source.now profile }
    requires resolution { source.now.resolution ≡ target.now.resolution }
    ensures accepted { IfOk result (λ o. IfSome o
        (λ cost. IsAccepted source.now target.now proposal.now profile cost.energy cost.steps)) }
    ensures within { IfOk result (λ o. IfSome o (λ cost. IsBetter energy most proposal.now cost.energy cost.steps)) }
    ensures none { result ≡ Ok None → (paid : ℤ) (steps : ℕ)
        → IsAccepted source.now target.now proposal.now profile paid steps
        → IsBetter energy most proposal.now paid steps → ⊥ }
{
    one_verdict();
    if proposal.len() > MOST_COMMANDS || proposal.len() as u64 > most.commands {
        return Ok(None);
    }
    if bytes_of(proposal) > most.bytes || fissions_of(proposal) >= u32::from(most.bots) {
        return Ok(None);
    }
    let verdict = judge_proposal(alloc, source, target, profile, proposal)?;
    let Verdict::Accepted {
        energy: paid,
        steps,
    } = verdict
    else {
        return Ok(None);
    };
    if paid >= energy || u64::from(steps) > most.steps {
        return Ok(None);
    }
    Ok(Some(Price {
        energy: paid,
        steps,
    }))
}

/// Returns the proposal as a plan if the definitions accept it by the profile with less energy than the plan and within the
/// bounds; else the plan.
pub fn cheaper(
    alloc: Global,
    source: &Planes,
    target: &Planes,
    profile: Profile,
    plan: Plan,
    proposal: CommandList,
    most: Bounds,
) -> Result<Plan, Memory>
    requires { CanImprove source.now target.now profile plan }
    ensures stands { IfOk result (λ it. MayStandFor source.now target.now profile most plan it) }
    ensures one { IfOk result (λ it. (it.commands ≡ plan.commands) ⊎ (it.commands ≡ proposal)) }
    ensures chosen { IfOk result (λ it. IsChosen source.now target.now profile most plan proposal it) }
{
    let better = improvement(
        alloc,
        source,
        target,
        profile,
        plan.energy,
        proposal.as_slice(),
        most,
    )?;
    let Some(cost) = better else {
        return Ok(plan);
    };
    Ok(Plan {
        commands: proposal,
        energy: cost.energy,
        steps: cost.steps,
    })
}
