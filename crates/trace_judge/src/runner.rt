//! Runs: a machine that takes the commands of a trace one by one.
ghost use Rattle.std.specs.Prelude.{◌≡◌, ◌+◌, ◌*◌, ◌<◌, ◌≤◌, false, true, ◌∷◌, [], ◌++◌, length, IfOk, IfErr, None};
ghost use Rattle.nano_spec.specs.Grounded.{FirstUngrounded};
ghost use Rattle.nano_spec.specs.Model.{volume};
ghost use Rattle.nano_spec.specs.Profile.{full_profile};
ghost use Rattle.nano_spec.specs.Verdict.{VerdictOf};
ghost use Rattle.run_progress.specs.Progress.{Finishes, Pushes, begun};
ghost use Rattle.step_machine.specs.Stepped.{IsWithinWork};
ghost use Rattle.trace_judge.specs.declared.runner.Mark.TheVariants as Mark;
ghost use Rattle.trace_judge.specs.Alone.{HasPushed, RunsAlone};
ghost use Rattle.trace_judge.specs.Course.{IsAfterEnd, LacksCommands, MakesEdits, MakesNoStep, searched_by};
ghost use Rattle.trace_judge.specs.Payment.{IsWithinWorkOfRun};

use crate::ends::judge_end;
use crate::pending::Pending;
use crate::taking::{Taken, take};
use nano_spec::{Broken, Command, Profile, Verdict};
use run_progress::the_progress_is_the_verdict;
use std::alloc::Global;
use std::marker::Model;
use std::sync::ledger::Ledger;
use step_machine::{Machine, StepFault, Tried};
use vox_geom::{Memory, Steps};
use vox_planes::Planes;

/// The state of a run: it continues, a step was refused, the last bot has halted, or a command came after that.
#[derive(Clone, Copy, PartialEq, Eq, Debug)]
pub(crate) enum Mark {
    Running,
    Refused(Broken),
    Halted,
    Followed,
}

/// A run that takes the commands of a trace one by one, and keeps none of them once their step is made. Contracts see its progress,
/// and whether it is poisoned (`spent`).
#[derive(Drop)]
pub struct Runner {
    machine: Machine,
    pending: Pending,
    mark: Mark,
    // Out-slot for a refusal, reused so that no command has to zero it.
    fault: StepFault,
}

impl Model for Runner {
    ghost use Rattle.trace_judge.specs.Course.{Course, IsUnderway, course_of};

    ghost Value = { Course };

    ghost view = { λ r. course_of r.machine r.pending r.mark };

    ghost invariant = { λ r. IsUnderway r.machine r.pending r.mark };
}

/// Returns the mark after a command once no steps are made any more. Out of line so that the hot path is one test.
/// test.
#[inline(never)]
fn next_mark(mark: Mark) -> Mark
    requires ended { mark ≡ Mark.Running → ⊥ }
    ensures { IsAfterEnd mark result }
{
    match mark {
        Mark::Halted => Mark::Followed,
        Mark::Running | Mark::Refused(_) | Mark::Followed => mark,
    }
}

impl Runner {
    /// Returns the run before its first command, over a source whose full voxels are grounded. At most 91 touches for each voxel.
    pub fn start<L: Ledger>(
        alloc: Global,
        source: Planes,
        profile: Profile,
        steps: &mut Steps<L>,
    ) -> Result<Runner, Memory>
        requires grounded { FirstUngrounded source None }
        requires seeds { profile.seeds ≤ 39 }
        ensures progress { IfOk result (λ r. r.progress ≡ begun source profile) }
        ensures stands { IfOk result (λ r. r.spent ≡ false) }
        ensures lacks { IfOk result (λ r. LacksCommands r.progress) }
        ensures touches { IfOk result (λ _. steps.new ≤ steps.old + 91 * volume source.resolution) }
    {
        let machine = Machine::start(alloc, source, profile, steps)?;
        let pending = Pending::new(alloc)?;
        Ok(Runner {
            machine,
            pending,
            mark: Mark::Running,
            fault: StepFault::Spent,
        })
    }

    /// Takes one more command. A failed allocation poisons the runner, and is possible only if the command makes a step in which
    /// some command fills or voids. Touches nothing if it makes no step.
    #[inline(always)]
    pub fn push<L: Ledger>(&mut self, command: Command, steps: &mut Steps<L>) -> Result<(), Memory>
        requires stands { self.old.spent ≡ false }
        requires steps { self.old.progress.steps < 1073741824 }
        ensures progress { IfOk result (λ _. Pushes self.old.progress command self.new.progress) }
        ensures stands { IfOk result (λ _. self.new.spent ≡ false) }
        ensures spent { IfErr result (λ _. self.new.spent ≡ true) }
        ensures memory { IfErr result (λ _. MakesEdits self.old.progress command) }
        ensures steps { self.new.progress.steps ≤ self.old.progress.steps + 1 }
        ensures resolution { self.new.progress.state.matrix.resolution ≡ self.old.progress.state.matrix.resolution }
        ensures lacks { IfOk result (λ _. LacksCommands self.new.progress) }
        ensures untouched { MakesNoStep self.old.progress → steps.new ≡ steps.old }
        ensures touches { IfOk result
            (λ _. IsWithinWork self.old.progress.state (self.old.progress.pending ++ command ∷ [])
            (self.old.progress.steps + 1)
            (steps.old + searched_by self.new.progress.mark self.old.progress.state.matrix) steps.new) }
    {
        match self.mark {
            Mark::Running => {}
            Mark::Refused(_) | Mark::Halted | Mark::Followed => {
                let mark = next_mark(self.mark);
                self.mark = mark;
                return Ok(());
            }
        }
        match take(
            &mut self.machine,
            &mut self.pending,
            command,
            &mut self.fault,
            steps,
        ) {
            Taken::Waits => Ok(()),
            Taken::Made => Ok(()),
            Taken::Halted => {
                self.mark = Mark::Halted;
                Ok(())
            }
            Taken::Refused => match self.fault {
                StepFault::Broken(broken) => {
                    self.mark = Mark::Refused(broken);
                    Ok(())
                }
                StepFault::Memory | StepFault::Spent => Err(Memory),
            },
        }
    }

    /// Returns whether the run continues with one bot, no command is pending, and each full voxel is grounded if it must be.
    #[inline(always)]
    pub fn is_alone(&self) -> bool
        ensures { result ≡ true → RunsAlone self.now }
    {
        if !self.pending.as_slice().is_empty() {
            return false;
        }
        match self.mark {
            Mark::Running => self.machine.is_alone(),
            Mark::Refused(_) | Mark::Halted | Mark::Followed => false,
        }
    }

    /// [`Runner::push`] if the bot is alone. Returns whether it still is, as after each frequent command whose step is made.
    #[inline(always)]
    pub fn push_alone<L: Ledger>(
        &mut self,
        command: Command,
        steps: &mut Steps<L>,
    ) -> Result<bool, Memory>
        requires alone { RunsAlone self.old }
        requires steps { self.old.progress.steps < 1073741824 }
        ensures pushed { IfOk result (λ _. HasPushed self.old command self.new steps.old steps.new) }
        ensures alone { IfOk result (λ still. still ≡ true → RunsAlone self.new) }
        ensures spent { IfErr result (λ _. self.new.spent ≡ true) }
        ensures memory { IfErr result (λ _. MakesEdits self.old.progress command) }
        ensures steps { self.new.progress.steps ≤ self.old.progress.steps + 1 }
    {
        match self.machine.step_frequent(&command, &mut self.fault, steps) {
            Tried::Made => Ok(true),
            Tried::Refused => {
                self.pending.push(command);
                match self.fault {
                    StepFault::Broken(broken) => {
                        self.mark = Mark::Refused(broken);
                        Ok(false)
                    }
                    StepFault::Memory | StepFault::Spent => Err(Memory),
                }
            }
            Tried::Declined => self.push_other(command, steps),
        }
    }

    /// [`Runner::push`] of a rare command. Out of line: keeps the fast path small enough to inline.
    #[inline(never)]
    fn push_other<L: Ledger>(
        &mut self,
        command: Command,
        steps: &mut Steps<L>,
    ) -> Result<bool, Memory>
        requires stands { self.old.spent ≡ false }
        requires steps { self.old.progress.steps < 1073741824 }
        ensures pushed { IfOk result (λ _. HasPushed self.old command self.new steps.old steps.new) }
        ensures other { IfOk result (λ still. still ≡ false) }
        ensures spent { IfErr result (λ _. self.new.spent ≡ true) }
        ensures memory { IfErr result (λ _. MakesEdits self.old.progress command) }
        ensures steps { self.new.progress.steps ≤ self.old.progress.steps + 1 }
    {
        self.push(command, steps)?;
        Ok(false)
    }

    /// Returns the verdict after the last command. At most two touches for each voxel.
    pub fn finish<L: Ledger>(self, target: &Planes, steps: &mut Steps<L>) -> Verdict
        requires stands { self.spent ≡ false }
        requires resolution { self.progress.state.matrix.resolution ≡ target.now.resolution }
        ensures value { Finishes target.now self.progress result }
        ensures touches { steps.new ≤ steps.old + 2 * volume target.now.resolution }
    {
        judge_end(&self.machine, &self.pending, self.mark, target, steps)
    }
}

/// Takes one more command, by the fast path of an only bot if one is alone.
#[inline(always)]
fn push_next<L: Ledger>(
    runner: &mut Runner,
    command: Command,
    steps: &mut Steps<L>,
) -> Result<(), Memory>
    requires stands { runner.old.spent ≡ false }
    requires steps { runner.old.progress.steps < 1073741824 }
    ensures pushed { IfOk result (λ _. HasPushed runner.old command runner.new steps.old steps.new) }
    ensures steps { runner.new.progress.steps ≤ runner.old.progress.steps + 1 }
{
    if runner.is_alone() {
        runner.push_alone(command, steps)?;
        return Ok(());
    }
    runner.push(command, steps)?;
    Ok(())
}

/// Returns the verdict of a trace from the source to the target, by a profile.
pub fn judge_by<L: Ledger>(
    alloc: Global,
    source: Planes,
    target: &Planes,
    commands: &[Command],
    profile: Profile,
    steps: &mut Steps<L>,
) -> Result<Verdict, Memory>
    requires grounded { FirstUngrounded source None }
    requires resolution { source.resolution ≡ target.now.resolution }
    requires seeds { profile.seeds ≤ 39 }
    requires few { length commands.now ≤ 1073741824 }
    ensures value { IfOk result (λ v. VerdictOf source target.now commands.now profile v) }
    ensures touches { IfOk result (λ _. IsWithinWorkOfRun source commands.now profile steps.old steps.new) }
{
    the_progress_is_the_verdict();
    let mut runner = Runner::start(alloc, source, profile, steps)?;
    for command in commands {
        push_next(&mut runner, *command, steps)?;
    }
    Ok(runner.finish(target, steps))
}

/// [`judge_by`] with the full profile.
pub fn judge<L: Ledger>(
    alloc: Global,
    source: Planes,
    target: &Planes,
    commands: &[Command],
    steps: &mut Steps<L>,
) -> Result<Verdict, Memory>
    requires grounded { FirstUngrounded source None }
    requires resolution { source.resolution ≡ target.now.resolution }
    requires few { length commands.now ≤ 1073741824 }
    ensures value { IfOk result (λ v. VerdictOf source target.now commands.now full_profile v) }
    ensures touches { IfOk result (λ _. IsWithinWorkOfRun source commands.now full_profile steps.old steps.new) }
{
    judge_by(alloc, source, target, commands, Profile::full(), steps)
}
