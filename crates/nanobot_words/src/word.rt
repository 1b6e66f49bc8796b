//! Parses one argument: a name, a side, a number, a planner.
ghost use Rattle.std.specs.Prelude.{◌≡◌, ◌↔◌, ◌<◌, ◌≤◌, ◌^◌, ℕ, List, Option, IsTrue, MatchOption, decimal};
ghost use Rattle.nanobot_words.specs.Rows.{planner_word, side_word, IsName};
ghost use Rattle.nanobot_words.specs.declared.planner.Planner.{Planner as PlannerOf};
ghost use Rattle.nanobot_words.specs.Parsing.{side_of};

use crate::planner::Planner;
use crate::row::Side;
use itoa::Buffer;
use vox_geom::MOST_R;

/// Returns whether the argument can be the name of a file.
pub(crate) fn is_name(word: &str) -> bool
    ensures { IsTrue result ↔ IsName word.now }
{
    word != "-"
}

/// Returns the source or the target of an argument.
pub(crate) fn parse_side(word: &str) -> Side<'_>
    ensures value { side_word (side_of result) ≡ word.now }
    ensures name { (name : List ℕ) → side_of result ≡ Option.Some name → IsName name }
{
    if is_name(word) {
        Side::Named(word)
    } else {
        Side::Empty
    }
}

/// Returns the number of an argument in decimal digits, without sign or leading zero.
pub(crate) fn parse_number(word: &str) -> Option<u32>
    ensures { MatchOption result ((n : ℕ) → n < 2 ^ 32 → word.now ≡ decimal n → ⊥) (λ n. word.now ≡ decimal n) }
{
    let Ok(number) = word.parse::<u32>() else {
        return None;
    };
    let mut buffer = Buffer::new();
    if buffer.format(number) != word {
        return None;
    }
    Some(number)
}

/// Returns the resolution of a model of an argument in decimal digits, without sign or leading zero.
pub(crate) fn parse_resolution(word: &str) -> Option<u16>
    ensures { MatchOption result ((r : ℕ) → 1 ≤ r → r ≤ MOST_R → word.now ≡ decimal r → ⊥)
        (λ r. (word.now ≡ decimal r) × (1 ≤ r) × (r ≤ MOST_R)) }
{
    let number = parse_number(word)?;
    if number < 1 {
        return None;
    }
    if number > u32::from(MOST_R) {
        return None;
    }
    Some(number as u16)
}

/// Returns the planner of an argument.
pub(crate) fn parse_planner(word: &str) -> Option<Planner>
    ensures { MatchOption result ((planner : PlannerOf) → planner_word planner ≡ word.now → ⊥)
        (λ planner. planner_word planner ≡ word.now) }
{
    match word {
        "layer" => Some(Planner::Layer),
        "group" => Some(Planner::Group),
        "crew" => Some(Planner::Crew),
        "void" => Some(Planner::Void),
        "low" => Some(Planner::Low),
        "swarm" => Some(Planner::Swarm),
        _ => None,
    }
}
