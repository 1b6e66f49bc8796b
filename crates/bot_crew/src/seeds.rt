//! Sets of seeds, as bits: bit k means that k is a seed.
ghost use Rattle.std.specs.Prelude.{◌≡◌, ◌+◌, ◌<◌, ◌≤◌, ◌==◌, ◌||◌, length, take, drop, filter, slice_index};
ghost use Rattle.vox_geom.specs.Space.{numbers_below};
ghost use Rattle.nano_spec.specs.State.{is_seed, seed_list, seed_numbers, seed_set};

use nano_spec::Bot;

/// Returns the number of seeds of the bot.
pub fn seeds_of(bot: Bot) -> u8
    ensures { result ≡ length (seed_list bot.seeds) }
{
    bot.seeds.count_ones() as u8
}

/// Returns the set of `count` seeds, from 2 on.
pub(crate) fn first_seeds(count: u8) -> u64
    requires { count ≤ 39 }
    ensures { result ≡ seed_set (drop 2 (numbers_below (count + 2))) }
{
    ((1 << count) - 1) << 2
}

/// Returns the union of two sets and one more seed.
pub(crate) fn unite(seeds: u64, others: u64, bid: u8) -> u64
    requires { bid < 64 }
    ensures { result ≡ seed_set (filter (λ k. is_seed seeds k || is_seed others k || k == bid) seed_numbers) }
{
    seeds | others | 1 << bid
}

/// The split of a bot's seeds by a Fission.
#[derive(Clone, Copy)]
pub(crate) struct Split {
    /// The bid of the new bot.
    pub(crate) bid: u8,
    /// The seeds of the new bot.
    pub(crate) taken: u64,
    /// The seeds that the old bot keeps.
    pub(crate) kept: u64,
}

/// Returns the set without its least seed.
fn without_least(seeds: u64) -> u64
    requires { 0 < length (seed_list seeds) }
    ensures { seed_list result ≡ drop 1 (seed_list seeds) }
{
    seeds - (1 << seeds.trailing_zeros())
}

/// Returns the least seed, the next m of them, and the rest.
pub(crate) fn split_seeds(seeds: u64, m: u8) -> Split
    requires { m + 1 ≤ length (seed_list seeds) }
    ensures bid { result.bid ≡ slice_index (seed_list seeds) 0 }
    ensures taken { result.taken ≡ seed_set (take m (drop 1 (seed_list seeds))) }
    ensures kept { result.kept ≡ seed_set (drop (m + 1) (seed_list seeds)) }
{
    let later = without_least(seeds);
    let mut kept = later;
    for _taken in 0..m {
        kept = without_least(kept);
    }
    Split {
        bid: seeds.trailing_zeros() as u8,
        taken: later - kept,
        kept,
    }
}
