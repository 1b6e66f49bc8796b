//! The printed form of a broken rule, in runs and sessions, and of its coordinate.
ghost use Rattle.std.specs.List.{concat};
ghost use Rattle.std.specs.Prelude.{◌≡◌, ◌∷◌, [], IfOk, codes, decimal, string_bytes};
ghost use Rattle.debug_script.specs.Broken.{broken_line as broken_line_of, printed_place as place_of};

use nano_spec::Broken;
use std::alloc::{AllocError, Global};
use vox_geom::Coord;

/// Returns the components of a coordinate, as every line prints them.
pub fn printed_place(alloc: Global, at: Coord) -> Result<String, AllocError>
    ensures { IfOk result (λ s. string_bytes s ≡ place_of at) }
{
    format!(in alloc; "{} {} {}", at.x, at.y, at.z)
}

/// Returns the line of a rule by its number and its name.
fn rule_line(
    alloc: Global,
    number: u8,
    name: &str,
    step: u32,
    bid: u8,
    place: &str,
) -> Result<String, AllocError>
    ensures { IfOk result
        (λ s. string_bytes s ≡ concat
        (codes "broken " ∷ decimal number ∷ codes " " ∷ name.now ∷ codes " step " ∷ decimal step ∷ codes " bid "
        ∷ decimal bid ∷ codes " at " ∷ place.now ∷ codes "\n" ∷ [])) }
{
    format!(in alloc; "broken {number} {name} step {step} bid {bid} at {place}\n")
}

/// Returns the line of a broken rule, as runs and sessions print it.
pub fn broken_line(alloc: Global, broken: &Broken) -> Result<String, AllocError>
    ensures { IfOk result (λ s. string_bytes s ≡ broken_line_of broken.now) }
{
    let rule = broken.rule;
    let place = printed_place(alloc, broken.at)?;
    rule_line(
        alloc,
        rule.number(),
        rule.name(),
        broken.step,
        broken.bid,
        place.as_str(),
    )
}
