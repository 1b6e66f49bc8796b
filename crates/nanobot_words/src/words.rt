//! Parses the arguments.
ghost use Rattle.std.specs.Prelude.{MatchOption};
ghost use Rattle.nanobot_words.specs.Rows.{IsInNoRow, IsRow, texts};
ghost use Rattle.nanobot_words.specs.Parsing.{row_of};

use crate::files::{parse_asm, parse_check, parse_debug, parse_dis};
use crate::forged::{parse_exercise, parse_make};
use crate::row::Row;
use crate::runs::{parse_plan, parse_run};

/// Returns the command given by the arguments.
pub fn parse(words: &[String]) -> Option<Row<'_>>
    ensures { MatchOption result (IsInNoRow (texts words.now)) (λ row. IsRow (texts words.now) (row_of row)) }
{
    if let Some(model) = parse_check(words) {
        return Some(Row::Check { model });
    }
    if let Some(row) = parse_run(words) {
        return Some(row);
    }
    if let Some(row) = parse_asm(words) {
        return Some(row);
    }
    if let Some(row) = parse_dis(words) {
        return Some(row);
    }
    if let Some(row) = parse_make(words) {
        return Some(row);
    }
    if let Some(row) = parse_plan(words) {
        return Some(row);
    }
    if let Some(row) = parse_exercise(words) {
        return Some(row);
    }
    parse_debug(words)
}
