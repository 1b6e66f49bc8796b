//! The active bots.
ghost use Rattle.std.specs.Prelude.{◌≡◌, ◌≢◌, ℕ, ◌+◌, ◌<◌, ◌≤◌, [], ◌∷◌, length, option_map, slice_index_or, AllPairs, IfSome, IsNone};
ghost use Rattle.vox_geom.specs.Point.{point};
ghost use Rattle.nano_spec.specs.declared.system.Bot.{Bot as ActiveBot};
ghost use Rattle.nano_spec.specs.Bots.{fused, moved, newborn, parent};
ghost use Rattle.nano_spec.specs.State.{first_bot, seed_list};
ghost use Rattle.bot_crew.specs.Crew.{IsActive, IsCrew, bot_at, bot_of, replaced};

use crate::seeds::{first_seeds, split_seeds, unite};
use arrayvec::ArrayVec;
use nano_spec::{Bot, Profile};
use std::marker::Model;
use vox_geom::Coord;

/// The most bots that can be active: bids are 1 to 40.
pub const MOST_BOTS: usize = 40;

/// The active bots of a state, in rising order of their bids (docs/FORMATS.md, "State"). Bids and positions differ, no two bots
/// have a seed in common, no seed is an active bid, and all these numbers are 1 to 40. No call allocates.
#[derive(Drop)]
pub struct Crew {
    bots: ArrayVec<Bot, MOST_BOTS>,
}

impl Model for Crew {
    ghost use Rattle.std.specs.Prelude.{List};
    ghost use Rattle.nano_spec.specs.declared.system.Bot.{Bot};
    ghost use Rattle.bot_crew.specs.Crew.{IsCrew};

    ghost Value = { List Bot };

    ghost view = { λ c. c.bots.items };

    ghost invariant = { λ c. IsCrew c.bots.items };
}

/// Returns the index of a bid: the number of bots with a lesser bid.
fn place_of(bots: &[Bot], bid: u8) -> usize
    ensures within { result ≤ length bots.now }
    ensures before { (k : ℕ) (d : ActiveBot) → k < result → (slice_index_or bots.now k d).bid < bid }
    ensures from { (d : ActiveBot) → result < length bots.now → bid ≤ (slice_index_or bots.now result d).bid }
{
    for (i, bot) in bots.iter().enumerate() {
        if bid <= bot.bid {
            return i;
        }
    }
    bots.len()
}

/// Returns the index of a bid among rising bots. Tries bid - 1 first, which is right if all lesser bids are active.
fn place_among(bots: &[Bot], bid: u8) -> usize
    requires { AllPairs (λ a b. a.bid < b.bid) bots.now }
    ensures within { result ≤ length bots.now }
    ensures before { (k : ℕ) (d : ActiveBot) → k < result → (slice_index_or bots.now k d).bid < bid }
    ensures from { (d : ActiveBot) → result < length bots.now → bid ≤ (slice_index_or bots.now result d).bid }
{
    let likely = usize::from(bid.saturating_sub(1));
    if likely < bots.len() && bots[likely].bid == bid {
        return likely;
    }
    place_of(bots, bid)
}

impl Crew {
    /// Returns the bots of an opening: the bot with bid 1 at (0,0,0), whose seeds are the profile's number of seeds from 2 on.
    pub fn opening(profile: Profile) -> Crew
        requires { profile.seeds ≤ 39 }
        ensures { result ≡ first_bot profile ∷ [] }
    {
        let mut bots = ArrayVec::new();
        bots.push(Bot {
            bid: 1,
            pos: Coord { x: 0, y: 0, z: 0 },
            seeds: first_seeds(profile.seeds),
        });
        Crew { bots }
    }

    /// Returns the bots, in rising order of their bids.
    pub fn bots(&self) -> &[Bot]
        ensures value { result.now ≡ self.now }
        ensures crew { IsCrew self.now }
    {
        self.bots.as_slice()
    }

    /// Proof aid: exposes the invariant of the bots. No effect.
    #[inline(always)]
    pub fn recall(&self)
        ensures crew { IsCrew self.now }
    {
        let _ = &self.bots;
    }

    /// Returns the number of active bots.
    pub fn count(&self) -> u8
        ensures value { result ≡ length self.now }
        ensures most { result ≤ MOST_BOTS }
    {
        self.bots.len() as u8
    }

    /// Returns the bot with the bid, or `None` exactly if no active bot has it.
    pub fn bot(&self, bid: u8) -> Option<Bot>
        ensures { result ≡ bot_of self.now bid }
    {
        let Some(bot) = self.bots.get(place_among(&self.bots, bid)) else {
            return None;
        };
        if bot.bid == bid { Some(*bot) } else { None }
    }

    /// Returns the bid of the bot at the coordinate, or `None` exactly if there is none.
    pub fn at(&self, c: Coord) -> Option<u8>
        ensures { result ≡ option_map (λ b. b.bid) (bot_at self.now c) }
    {
        for bot in self.bots.as_slice() {
            if bot.pos == c {
                return Some(bot.bid);
            }
        }
        None
    }

    /// Moves the bot to a coordinate at which no other is.
    pub fn move_to(&mut self, bid: u8, c: Coord)
        requires active { IsActive self.old bid }
        requires free { IfSome (bot_at self.old c) (λ b. b.bid ≡ bid) }
        ensures moved { IfSome (bot_of self.old bid)
            (λ b. self.new ≡ replaced self.old (bid ∷ []) (moved b (point c) ∷ [])) }
    {
        let place = place_among(&self.bots, bid);
        self.bots[place].pos = c;
    }

    /// Moves the only bot to a coordinate, without a search for its bid.
    #[inline(always)]
    pub fn move_only(&mut self, c: Coord)
        requires { length self.old ≡ 1 }
        ensures { (b : ActiveBot) → self.old ≡ b ∷ [] → self.new ≡ moved b (point c) ∷ [] }
    {
        self.bots[0].pos = c;
    }

    /// Splits the bot (docs/FORMATS.md, "Commands"): the new bot, at a free coordinate, has the least seed as its bid and the next
    /// m seeds; the bot keeps the rest of its seeds.
    pub fn fission(&mut self, bid: u8, c: Coord, m: u8)
        requires active { IsActive self.old bid }
        requires free { IsNone (bot_at self.old c) }
        requires seeds { IfSome (bot_of self.old bid) (λ b. m + 1 ≤ length (seed_list b.seeds)) }
        ensures split { IfSome (bot_of self.old bid)
            (λ b. self.new ≡ replaced self.old (bid ∷ []) (parent b m ∷ newborn b (point c) m ∷ [])) }
    {
        let old = place_of(&self.bots, bid);
        let seeds = split_seeds(self.bots[old].seeds, m);
        self.bots[old].seeds = seeds.kept;
        let new = place_of(&self.bots, seeds.bid);
        self.bots.insert(
            new,
            Bot {
                bid: seeds.bid,
                pos: c,
                seeds: seeds.taken,
            },
        );
    }

    /// Fuses two bots (docs/FORMATS.md, "Commands"): the primary gets the secondary's bid and seeds as seeds; the secondary ends.
    pub fn fusion(&mut self, primary: u8, secondary: u8)
        requires primary { IsActive self.old primary }
        requires secondary { IsActive self.old secondary }
        requires two { primary ≢ secondary }
        ensures fused { IfSome (bot_of self.old primary)
            (λ b. IfSome (bot_of self.old secondary)
            (λ other. self.new ≡ replaced self.old (primary ∷ secondary ∷ []) (fused b other ∷ []))) }
    {
        let end = place_of(&self.bots, secondary);
        let other = self.bots.remove(end);
        let place = place_of(&self.bots, primary);
        self.bots[place].seeds = unite(self.bots[place].seeds, other.seeds, other.bid);
    }

    /// Halts the last bot: no bot is left.
    pub fn halt(&mut self)
        requires { length self.old ≡ 1 }
        ensures { self.new ≡ [] }
    {
        self.bots.clear();
    }

    /// Returns another crew with the same bots.
    pub fn copy(&self) -> Crew
        ensures { result ≡ self.now }
    {
        let mut bots = ArrayVec::new();
        for bot in self.bots.as_slice() {
            bots.push(*bot);
        }
        Crew { bots }
    }
}
