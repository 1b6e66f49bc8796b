//! Judging traces and checking models.
ghost use Rattle.std.specs.Prelude.{◌≡◌, ◌↔◌, ℕ, ℤ, pos, [], false, None, IfOk, IfErr, MatchBool};
ghost use Rattle.nanobot_rows.specs.declared.status.Status.TheVariants as is;
ghost use Rattle.nanobot_rows.specs.Effects.{status_by};
ghost use Rattle.nanobot_rows.specs.Report.{code_of};
ghost use Rattle.nanobot_words.specs.Parsing.{row_of};
ghost use Rattle.nanobot_words.specs.Rows.{IsOfTable, check as check_row, stores_of};
ghost use Rattle.nanobot_c.specs.Calls.{CostOf, GaveDone, GaveLineOf, HasModel, HasNoModel, IsRefused, TakesAll, ToldCostOf};
ghost use Rattle.nanobot_c.specs.Given.{GaveNoRow, IsDone, IsMemory};
ghost use Rattle.nanobot_c.specs.Lent.{lent_files, lent, round_of, run_row as run_row_of, source_name};

use crate::call::{ask, call, code, give_no_row};
use crate::lent::{Lent, side};
use nanobot_app::{costs_are_told_apart, one_answer};
use nanobot_rows::{Message, Report, Status, Stop};
use nanobot_words::{Round, Row, one_row};
use std::alloc::Global;

/// Returns whether one of the two models has bytes.
pub fn has_model(source: &[u8], target: &[u8]) -> bool
    ensures { MatchBool result (HasModel source.now target.now) (HasNoModel source.now target.now) }
{
    !source.is_empty() || !target.is_empty()
}

/// Returns the light round or the full one.
fn round_of(light: bool) -> Round
    ensures { result ≡ round_of light }
{
    if light {
        return Round::Light;
    }
    Round::Full
}

/// Returns the row that runs a trace, by the light profile or the full one.
fn run_row(source: &[u8], target: &[u8], light: bool) -> Row<'static>
    ensures { row_of result ≡ run_row_of light source.now target.now }
{
    Row::Run {
        round: round_of(light),
        source: side("s", source),
        target: side("t", target),
        trace: "b",
    }
}

/// Judges the trace from the source to the target, and writes the line that `nanobot run S T B` prints, or `run light`. A source or
/// a target of no bytes is the empty model of the other's resolution.
#[unsafe(no_mangle)]
pub extern "C" fn nanobot_judge(
    alloc: Global,
    source: &[u8],
    target: &[u8],
    trace: &[u8],
    light: bool,
    line: &mut [u8],
    size: &mut usize,
) -> u32
    // With the full profile it returns 0 and writes energy and step count exactly if the specification's machine takes the whole
    // trace. Such a run goes from the source to a halt at the origin in the target, with this energy and step count.
    ensures headline_where { light ≡ false → (IsMemory result → ⊥) → (energy : ℤ) (count : ℕ)
        → TakesAll source.now target.now trace.now energy count
        → GaveDone energy count line.old line.new size.new result }
    ensures headline_only { light ≡ false → IsDone result
        → (energy : ℤ) × (count : ℕ) × TakesAll source.now target.now trace.now energy count
        × GaveDone energy count line.old line.new size.new result }

    // With both profiles it writes the whole answer of the row.
    ensures answer { HasModel source.now target.now → (IsMemory result → ⊥)
        → GaveLineOf (run_row_of light source.now target.now) (lent source.now target.now trace.now) line.old line.new
        size.new result }
    ensures no_model { HasNoModel source.now target.now → GaveNoRow line.old line.new size.new result }
    ensures memory { IsMemory result → (line.new ≡ line.old) × (size.new ≡ 0) }
{
    one_row();
    one_answer();
    if !has_model(source, target) {
        return give_no_row(line, size);
    }
    let row = run_row(source, target, light);
    let lent = Lent {
        source,
        target,
        trace,
    };
    call(alloc, row, lent, line, size)
}

/// Returns the number of the status of a run that is not accepted. No such run has status done, but no contract below says so: done
/// would be reported as out of memory.
fn refuse(status: Status) -> u32
    ensures { IsRefused status result }
{
    if status == Status::Done {
        return code(Status::Memory);
    }
    code(status)
}

/// Returns the energy and the number of steps of an accepted run, or the number of its status.
fn told_cost(message: &Message) -> Result<(i64, u32), u32>
    ensures accepted { IfOk result (λ cost. message.now ≡ Message.Line (Report.Accepted cost.0 cost.1)) }
    ensures refused { IfErr result (λ number. IsRefused (status_by message.now) number) }
{
    match message {
        Message::Line(Report::Accepted { energy, steps }) => Ok((*energy, *steps)),
        _ => Err(refuse(message.status())),
    }
}

/// Returns the energy and the number of steps of the run of the row, or the number of its status.
fn cost(alloc: Global, row: Row<'static>, lent: Lent<'_>) -> Result<(i64, u32), u32>
    requires of_table { IsOfTable (row_of row) }
    requires stores_none { stores_of (row_of row) ≡ None }
    ensures { CostOf (row_of row.entry) (lent_files lent.entry) result }
{
    match ask(alloc, row, lent) {
        Ok(effect) => told_cost(&effect.message),
        Err(Stop::Told(report)) => Err(refuse(report.status())),
        Err(Stop::Depot) => Err(code(Status::Depot)),
        Err(Stop::Memory) => Err(code(Status::Memory)),
    }
}

/// Judges the trace from the source to the target as `nanobot_judge` does, and stores the energy and the number of steps of an
/// accepted run, or 0 for any other.
#[unsafe(no_mangle)]
pub extern "C" fn nanobot_cost(
    alloc: Global,
    source: &[u8],
    target: &[u8],
    trace: &[u8],
    light: bool,
    energy: &mut i64,
    steps: &mut u32,
) -> u32
    // With the full profile it returns 0 and stores this energy and step count exactly if the specification's machine takes the
    // whole trace with them.
    ensures headline { light ≡ false → (IsMemory result → ⊥) → (e : ℤ) (count : ℕ)
        → TakesAll source.now target.now trace.now e count ↔ (IsDone result × (energy.new ≡ e) × (steps.new ≡ count)) }

    // With both profiles it has the status and the numbers of the whole answer of the row.
    ensures answer { HasModel source.now target.now → (IsMemory result → ⊥)
        → ToldCostOf (run_row_of light source.now target.now) (lent source.now target.now trace.now) energy.new
        steps.new result }
    ensures no_model { HasNoModel source.now target.now → result ≡ code_of is.Words }
    ensures refused { (IsDone result → ⊥) → (energy.new ≡ pos 0) × (steps.new ≡ 0) }
{
    one_row();
    one_answer();
    costs_are_told_apart();
    *energy = 0;
    *steps = 0;
    if !has_model(source, target) {
        return code(Status::Words);
    }
    let row = run_row(source, target, light);
    let lent = Lent {
        source,
        target,
        trace,
    };
    match cost(alloc, row, lent) {
        Ok((of_energy, of_steps)) => {
            *energy = of_energy;
            *steps = of_steps;
            code(Status::Done)
        }
        Err(status) => status,
    }
}

/// Checks the model, and writes the line that `nanobot check M` prints.
#[unsafe(no_mangle)]
pub extern "C" fn nanobot_check(
    alloc: Global,
    model: &[u8],
    line: &mut [u8],
    size: &mut usize,
) -> u32
    ensures answer { (IsMemory result → ⊥)
        → GaveLineOf (check_row source_name) (lent model.now [] []) line.old line.new size.new result }
    ensures memory { IsMemory result → (line.new ≡ line.old) × (size.new ≡ 0) }
{
    let lent = Lent {
        source: model,
        target: &[],
        trace: &[],
    };
    call(alloc, Row::Check { model: "s" }, lent, line, size)
}
