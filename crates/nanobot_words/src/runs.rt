//! Parses the commands between a source and a target: `run` and `plan`.
ghost use Rattle.std.specs.Prelude.{ℕ, List, Option, MatchOption};
ghost use Rattle.nanobot_words.specs.Rows.{plan, run, AreOperands, IsRow, texts};
ghost use Rattle.nanobot_words.specs.declared.planner.Planner.{Planner as PlannerOf};
ghost use Rattle.nanobot_words.specs.declared.row.Round.{Round as RoundOf};
ghost use Rattle.nanobot_words.specs.Parsing.{row_of, side_of};

use crate::planner::has_name;
use crate::row::{Round, Row, Side};
use crate::several::{five, four};
use crate::word::{is_name, parse_planner, parse_side};

/// Returns the source and the target of two arguments, if the third is the name of a trace and one of the two is a named file.
fn parse_sides<'a>(source: &'a str, target: &'a str, trace: &str) -> Option<(Side<'a>, Side<'a>)>
    ensures { MatchOption result
        ((s t : Option (List ℕ)) (b : List ℕ) → AreOperands source.now target.now trace.now s t b → ⊥)
        (λ sides. AreOperands source.now target.now trace.now (side_of sides.0) (side_of sides.1) trace.now) }
{
    if !is_name(trace) {
        return None;
    }
    let first = parse_side(source);
    let second = parse_side(target);
    if !has_name(first, second) {
        return None;
    }
    Some((first, second))
}

/// Returns the source, the target and the trace after `run`.
fn parse_full(words: &[String]) -> Option<Row<'_>>
    ensures { MatchOption result
        ((s t : Option (List ℕ)) (b : List ℕ) → IsRow (texts words.now) (run Round.Full s t b) → ⊥)
        (λ row. IsRow (texts words.now) (row_of row)) }
{
    let (word, source, target, trace) = four(words)?;
    if word != "run" {
        return None;
    }
    let (source, target) = parse_sides(source, target, trace)?;
    Some(Row::Run {
        round: Round::Full,
        source,
        target,
        trace,
    })
}

/// Returns the source, the target and the trace after `run light`.
fn parse_light(words: &[String]) -> Option<Row<'_>>
    ensures { MatchOption result
        ((s t : Option (List ℕ)) (b : List ℕ) → IsRow (texts words.now) (run Round.Light s t b) → ⊥)
        (λ row. IsRow (texts words.now) (row_of row)) }
{
    let (first, second, source, target, trace) = five(words)?;
    if first != "run" {
        return None;
    }
    if second != "light" {
        return None;
    }
    let (source, target) = parse_sides(source, target, trace)?;
    Some(Row::Run {
        round: Round::Light,
        source,
        target,
        trace,
    })
}

/// Returns the round, the source, the target and the trace of a run.
pub(crate) fn parse_run(words: &[String]) -> Option<Row<'_>>
    ensures { MatchOption result
        ((round : RoundOf) (s t : Option (List ℕ)) (b : List ℕ) → IsRow (texts words.now) (run round s t b) → ⊥)
        (λ row. IsRow (texts words.now) (row_of row)) }
{
    if let Some(row) = parse_full(words) {
        return Some(row);
    }
    parse_light(words)
}

/// Returns the planner, the source, the target and the trace after `plan`.
pub(crate) fn parse_plan(words: &[String]) -> Option<Row<'_>>
    ensures { MatchOption result
        ((planner : PlannerOf) (s t : Option (List ℕ)) (b : List ℕ) → IsRow (texts words.now) (plan planner s t b) → ⊥)
        (λ row. IsRow (texts words.now) (row_of row)) }
{
    let (first, second, source, target, trace) = five(words)?;
    if first != "plan" {
        return None;
    }
    let planner = parse_planner(second)?;
    let (source, target) = parse_sides(source, target, trace)?;
    if !planner.takes(source, target) {
        return None;
    }
    Some(Row::Plan {
        planner,
        source,
        target,
        trace,
    })
}
