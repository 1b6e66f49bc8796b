//! One bot, or two, and whether all are in space.
ghost use Rattle.std.specs.Prelude.{◌≡◌, All, true};
ghost use Rattle.vox_geom.specs.Space.{IsInSpace};

use bot_crew::{Crew, seeds_of};
use nano_spec::{Bot, Profile};
use std::process::Abort;
use vox_geom::Coord;

/// Returns whether all bots are in space.
pub(crate) fn are_within(bots: &[Bot], side: u16) -> bool
    ensures { result ≡ true → All (λ b. IsInSpace side b.pos) bots.now }
{
    for i in 0..bots.len() {
        let at = bots[i].pos;
        if at.x >= side {
            return false;
        }
        if at.y >= side {
            return false;
        }
        if at.z >= side {
            return false;
        }
    }
    true
}

/// Returns the bot with bid 1, moved to a coordinate.
pub(crate) fn one_bot(rt: &impl Abort, profile: Profile, to: Coord) -> Crew {
    assert!(rt; profile.seeds <= 39);
    let mut crew = Crew::opening(profile);
    assert!(rt; crew.bot(1).is_some());
    if crew.at(to).is_none() {
        crew.move_to(1, to);
    }
    crew
}

/// Returns the bot with bid 1 at the origin, and its child.
pub(crate) fn two_bots(rt: &impl Abort, to: Coord) -> Crew {
    let mut crew = Crew::opening(Profile::full());
    let bot = crew.bot(1).expect(rt, "the bot is active");
    assert!(rt; seeds_of(bot) > 0);
    assert!(rt; crew.at(to).is_none());
    crew.fission(1, to, 0);
    crew
}
