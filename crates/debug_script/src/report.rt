//! The lines of a session's reports.
ghost use Rattle.std.specs.List.{concat};
ghost use Rattle.std.specs.Prelude.{◌≡◌, ◌∷◌, [], IfOk, codes, decimal, string_bytes};
ghost use Rattle.debug_script.specs.Printing.{bot_line as bot_line_of, printed_report};
ghost use Rattle.step_debugger.specs.Session.{Begun, IsFull, IsVoid, Made, NoLeader, Returned};

use crate::broken::printed_place;
use bot_crew::seeds_of;
use nano_spec::Bot;
use std::alloc::{AllocError, Global};
use vox_geom::Coord;

/// Returns the line of a bot by its parts.
fn bot_parts(alloc: Global, bid: u8, place: &str, seeds: u8) -> Result<String, AllocError>
    ensures { IfOk result
        (λ s. string_bytes s ≡ concat
        (codes "bot " ∷ decimal bid ∷ codes " at " ∷ place.now ∷ codes " seeds " ∷ decimal seeds ∷ codes "\n" ∷ [])) }
{
    format!(in alloc; "bot {bid} at {place} seeds {seeds}\n")
}

/// Returns the line of a bot.
pub(crate) fn bot_line(alloc: Global, bot: Bot) -> Result<String, AllocError>
    ensures { IfOk result (λ s. string_bytes s ≡ bot_line_of bot) }
{
    let place = printed_place(alloc, bot.pos)?;
    bot_parts(alloc, bot.bid, place.as_str(), seeds_of(bot))
}

/// Returns the line of an accepted step.
pub(crate) fn made_line(
    alloc: Global,
    steps: u32,
    energy: i64,
    halted: bool,
) -> Result<String, AllocError>
    ensures { IfOk result (λ s. string_bytes s ≡ printed_report (Made steps energy halted)) }
{
    if halted {
        format!(in alloc; "step {steps} energy {energy} halted\n")
    } else {
        format!(in alloc; "step {steps} energy {energy}\n")
    }
}

/// Returns the line of a begun group.
pub(crate) fn begun_line(alloc: Global, leader: u8, step: u32) -> Result<String, AllocError>
    ensures { IfOk result (λ s. string_bytes s ≡ printed_report (Begun leader step)) }
{
    format!(in alloc; "group {leader} of step {step}\n")
}

/// Returns the line of a number that is no leader whose group can begin.
pub(crate) fn no_leader_line(alloc: Global, leader: u8) -> Result<String, AllocError>
    ensures { IfOk result (λ s. string_bytes s ≡ printed_report (NoLeader leader)) }
{
    format!(in alloc; "no leader {leader}\n")
}

/// Returns the line of an earlier point that is current again.
pub(crate) fn returned_line(alloc: Global, steps: u32, energy: i64) -> Result<String, AllocError>
    ensures { IfOk result (λ s. string_bytes s ≡ printed_report (Returned steps energy)) }
{
    format!(in alloc; "back to step {steps} energy {energy}\n")
}

/// Returns the line of a void voxel.
pub(crate) fn void_line(alloc: Global, at: Coord) -> Result<String, AllocError>
    ensures { IfOk result (λ s. string_bytes s ≡ printed_report (IsVoid at)) }
{
    let place = printed_place(alloc, at)?;
    format!(in alloc; "voxel {place} void\n")
}

/// Returns the line of a full voxel and its level, if it has one.
pub(crate) fn full_line(alloc: Global, at: Coord, level: Option<u32>) -> Result<String, AllocError>
    ensures { IfOk result (λ s. string_bytes s ≡ printed_report (IsFull at level)) }
{
    let place = printed_place(alloc, at)?;
    match level {
        Some(level) => format!(in alloc; "voxel {place} full level {level}\n"),
        None => format!(in alloc; "voxel {place} full floating\n"),
    }
}
