//! Implementations of the commands.
ghost use Rattle.std.specs.Prelude.{◌≡◌, ◌≤◌, ℕ, All, Err, IfOk, Option, Some, None};
ghost use Rattle.vox_depot.specs.Causes.{Rose};
ghost use Rattle.vox_depot.specs.Files.{Files};
ghost use Rattle.nanobot_words.specs.Parsing.{row_of, side_of};
ghost use Rattle.nanobot_words.specs.Rows.{IsOfTable, asm as asm_row, check as check_row, dis as dis_row, make as make_row, reads_of, run as run_row, stores_of};
ghost use Rattle.nanobot_rows.specs.Answer.{AnswerOf, profile_of};
ghost use Rattle.nanobot_rows.specs.Effects.{EndsStored, IsFor};
ghost use Rattle.nanobot_rows.specs.Reading.{EndsUnstored, MayFetchSides, OnlyReads};
ghost use Rattle.nanobot_rows.specs.Touching.{IsRowWithin};

use crate::commands::{load_text, load_trace};
use crate::debugging::debug;
use crate::effect::Effect;
use crate::exercise::exercise;
use crate::models::{load_model, load_models};
use crate::plans::plan;
use crate::report::{Report, Who};
use crate::stop::Stop;
use crate::trace::run_trace;
use model_file::write_model;
use model_forge::forge;
use nano_spec::Profile;
use nanobot_words::{Round, Row, Side};
use std::alloc::Global;
use std::sync::ledger::Ledger;
use trace_codec::encode_all;
use trace_judge::every_run_has_work;
use trace_text::print_trace;
use vox_depot::Depot;
use vox_geom::{MOST_R, Steps};

/// Implements `check`: reports the resolution and the number of full voxels of a legal model.
fn check<D: Depot, L: Ledger>(
    alloc: Global,
    depot: &mut D,
    model: &str,
    steps: &mut Steps<L>,
) -> Result<Report, Stop>
    requires { D.may_fetch model.now }
    ensures ends { EndsUnstored (AnswerOf (check_row model.now)) (D.files depot.old)
        (Rose (D.faults depot.old) (D.faults depot.new)) result }
    ensures only_reads { OnlyReads D.files D.faults D.failed_stores depot.old depot.new }
{
    let planes = load_model(alloc, depot, model, Who::Model)?;
    Ok(Report::Legal {
        resolution: planes.resolution(),
        full: planes.count(steps),
    })
}

/// Returns the profile of a round.
fn profile_of(round: Round) -> Profile
    ensures value { result ≡ profile_of round }
    ensures seeds { result.seeds ≤ 39 }
{
    match round {
        Round::Full => Profile::full(),
        Round::Light => Profile::light(),
    }
}

/// Judges a trace from a source to a target in a round, and reports the verdict.
fn judge_run<D: Depot, L: Ledger>(
    alloc: Global,
    depot: &mut D,
    round: Round,
    source: Side<'_>,
    target: Side<'_>,
    trace: &str,
    steps: &mut Steps<L>,
) -> Result<Report, Stop>
    requires may_fetch { MayFetchSides D.may_fetch (side_of source) (side_of target) }
    requires trace { D.may_fetch trace.now }
    requires some { side_of source ≡ None → side_of target ≡ None → ⊥ }
    ensures ends { EndsUnstored
        (AnswerOf (run_row round (side_of source.entry) (side_of target.entry) trace.now)) (D.files depot.old)
        (Rose (D.faults depot.old) (D.faults depot.new)) result }
    ensures only_reads { OnlyReads D.files D.faults D.failed_stores depot.old depot.new }
    ensures within { (result ≡ Err Stop.Memory → ⊥)
        → IsRowWithin (run_row round (side_of source.entry) (side_of target.entry) trace.now) (D.files depot.old)
        steps.old steps.new }
{
    every_run_has_work();
    let (source, target) = load_models(alloc, depot, source, target)?;
    let profile = profile_of(round);
    run_trace(alloc, depot, trace, source, &target, profile, steps)
}

/// Implements `run`: reports the verdict on a trace from a source to a target, in a round.
fn run<'a, D: Depot, L: Ledger>(
    alloc: Global,
    depot: &mut D,
    round: Round,
    source: Side<'_>,
    target: Side<'_>,
    trace: &str,
    steps: &mut Steps<L>,
) -> Result<Effect<'a>, Stop>
    requires may_fetch { MayFetchSides D.may_fetch (side_of source) (side_of target) }
    requires trace { D.may_fetch trace.now }
    requires some { side_of source ≡ None → side_of target ≡ None → ⊥ }
    ensures finishes { EndsStored
        (AnswerOf (run_row round (side_of source.entry) (side_of target.entry) trace.now)) (D.files depot.old)
        (Rose (D.faults depot.old) (D.faults depot.new)) result }
    ensures named { IfOk result (IsFor None) }
    ensures only_reads { OnlyReads D.files D.faults D.failed_stores depot.old depot.new }
    ensures within { (result ≡ Err Stop.Memory → ⊥)
        → IsRowWithin (run_row round (side_of source.entry) (side_of target.entry) trace.now) (D.files depot.old)
        steps.old steps.new }
{
    let told = judge_run(alloc, depot, round, source, target, trace, steps);
    Effect::telling(told)
}

/// Implements `asm`: encodes the commands of a text as bytes.
fn asm<'a, D: Depot>(
    alloc: Global,
    depot: &mut D,
    text: &str,
    trace: &'a str,
) -> Result<Effect<'a>, Stop>
    requires { D.may_fetch text.now }
    ensures finishes { EndsStored (AnswerOf (asm_row text.now trace.now)) (D.files depot.old)
        (Rose (D.faults depot.old) (D.faults depot.new)) result }
    ensures named { IfOk result (IsFor (Some trace.now)) }
    ensures only_reads { OnlyReads D.files D.faults D.failed_stores depot.old depot.new }
{
    let commands = load_text(alloc, depot, text)?;
    let bytes = encode_all(alloc, commands.as_slice())?;
    let report = Report::of_commands(commands.as_slice(), bytes.as_slice());
    Ok(Effect::storing(report, trace, bytes))
}

/// Implements `dis`: prints the commands of a trace as text.
fn dis<'a, D: Depot>(
    alloc: Global,
    depot: &mut D,
    trace: &str,
    text: &'a str,
) -> Result<Effect<'a>, Stop>
    requires { D.may_fetch trace.now }
    ensures finishes { EndsStored (AnswerOf (dis_row trace.now text.now)) (D.files depot.old)
        (Rose (D.faults depot.old) (D.faults depot.new)) result }
    ensures named { IfOk result (IsFor (Some text.now)) }
    ensures only_reads { OnlyReads D.files D.faults D.failed_stores depot.old depot.new }
{
    let commands = load_trace(alloc, depot, trace)?;
    let bytes = print_trace(alloc, commands.as_slice())?;
    let report = Report::of_commands(commands.as_slice(), bytes.as_slice());
    Ok(Effect::storing(report, text, bytes))
}

/// Implements `make`: forges the model of a number.
fn make<'a, L: Ledger>(
    alloc: Global,
    number: u32,
    resolution: u16,
    model: &'a str,
    steps: &mut Steps<L>,
) -> Result<Effect<'a>, Stop>
    requires some { 1 ≤ resolution }
    requires most { resolution ≤ MOST_R }
    ensures finishes { (told : Option Files) (before now : ℕ)
        → EndsStored (AnswerOf (make_row number resolution model.now)) told (Rose before now) result }
    ensures named { IfOk result (IsFor (Some model.now)) }
{
    let planes = forge(alloc, number, resolution)?;
    let bytes = write_model(alloc, &planes)?;
    let report = Report::Forged {
        resolution,
        full: planes.count(steps),
    };
    Ok(Effect::storing(report, model, bytes))
}

/// Executes a command. Reads its files; stores none yet.
pub fn answer<'a, D: Depot, L: Ledger>(
    alloc: Global,
    row: Row<'a>,
    depot: &mut D,
    steps: &mut Steps<L>,
) -> Result<Effect<'a>, Stop>
    requires may_fetch { All D.may_fetch (reads_of (row_of row)) }
    requires of_table { IsOfTable (row_of row) }
    ensures finishes { EndsStored (AnswerOf (row_of row.entry)) (D.files depot.old)
        (Rose (D.faults depot.old) (D.faults depot.new)) result }
    ensures named { IfOk result (IsFor (stores_of (row_of row.entry))) }
    ensures only_reads { OnlyReads D.files D.faults D.failed_stores depot.old depot.new }
    ensures within { (result ≡ Err Stop.Memory → ⊥)
        → IsRowWithin (row_of row.entry) (D.files depot.old) steps.old steps.new }
{
    match row {
        Row::Check { model } => Effect::telling(check(alloc, depot, model, steps)),
        Row::Run {
            round,
            source,
            target,
            trace,
        } => run(alloc, depot, round, source, target, trace, steps),
        Row::Asm { text, trace } => asm(alloc, depot, text, trace),
        Row::Dis { trace, text } => dis(alloc, depot, trace, text),
        Row::Make {
            number,
            resolution,
            model,
        } => make(alloc, number, resolution, model, steps),
        Row::Plan {
            planner,
            source,
            target,
            trace,
        } => plan(alloc, depot, planner, source, target, trace),
        Row::Exercise { number, resolution } => exercise(alloc, number, resolution, steps),
        Row::Debug {
            source,
            trace,
            script,
        } => debug(alloc, depot, source, trace, script, steps),
    }
}
