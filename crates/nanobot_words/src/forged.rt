//! Parses the commands that forge a model from a number: `make` and `exercise`.
ghost use Rattle.std.specs.Prelude.{ℕ, List, MatchOption};
ghost use Rattle.nanobot_words.specs.Rows.{exercise, make, IsRow, texts};
ghost use Rattle.nanobot_words.specs.Parsing.{row_of};

use crate::row::Row;
use crate::several::{four, three};
use crate::word::{is_name, parse_number, parse_resolution};

/// Parses `make N R M`: a number, a resolution and the name of a model. Returns `None` for any other arguments.
pub(crate) fn parse_make(words: &[String]) -> Option<Row<'_>>
    ensures { MatchOption result ((n r : ℕ) (m : List ℕ) → IsRow (texts words.now) (make n r m) → ⊥)
        (λ row. IsRow (texts words.now) (row_of row)) }
{
    let (word, number, resolution, model) = four(words)?;
    if word != "make" {
        return None;
    }
    if !is_name(model) {
        return None;
    }
    let number = parse_number(number)?;
    let resolution = parse_resolution(resolution)?;
    Some(Row::Make {
        number,
        resolution,
        model,
    })
}

/// Parses `exercise N R`: a number and a resolution. Returns `None` for any other arguments.
pub(crate) fn parse_exercise(words: &[String]) -> Option<Row<'_>>
    ensures { MatchOption result ((n r : ℕ) → IsRow (texts words.now) (exercise n r) → ⊥)
        (λ row. IsRow (texts words.now) (row_of row)) }
{
    let (word, number, resolution) = three(words)?;
    if word != "exercise" {
        return None;
    }
    let number = parse_number(number)?;
    let resolution = parse_resolution(resolution)?;
    Some(Row::Exercise { number, resolution })
}
