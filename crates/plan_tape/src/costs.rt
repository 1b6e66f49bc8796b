//! The cost of steps of the only bot.
ghost use Rattle.std.specs.Prelude.{◌≡◌, ◌+◌, ◌*◌, ◌≤◌, ℤ, pos, neg_ℤ, ◌+ℤ◌, ◌≤ℤ◌, unsigned_abs};
ghost use Rattle.nano_spec.specs.Energy.{upkeep_of};
ghost use Rattle.plan_tape.specs.Progress.{IsBounded};

use energy_sum::upkeep;
use nano_spec::Harmonics;
use vox_geom::MOST_R;

/// Returns the upkeep of a step of one bot.
fn lone_upkeep(resolution: u16, harmonics: Harmonics) -> u64
    requires { resolution ≤ MOST_R }
    ensures value { result ≡ unsigned_abs (upkeep_of resolution harmonics 1) }
    ensures most { result ≤ 1920000020 }
{
    upkeep(resolution, harmonics, 1).unsigned_abs()
}

/// Returns the upkeep of `count` steps of one bot.
pub fn upkeep_of_steps(count: u32, resolution: u16, harmonics: Harmonics) -> i64
    requires resolution { resolution ≤ MOST_R }
    requires count { count ≤ 1073741824 }
    ensures value { result ≡ pos (count * unsigned_abs (upkeep_of resolution harmonics 1)) }
    ensures low { pos 0 ≤ℤ result }
    ensures high { result ≤ℤ pos (1920000020 * count) }
{
    let each = lone_upkeep(resolution, harmonics);
    (u64::from(count) * each) as i64
}

/// Returns the energy after `count` more steps with this upkeep and this total cost of their commands.
pub fn charge(energy: i64, steps: u32, count: u32, upkeep: i64, cost: i64) -> i64
    requires steps { steps + count ≤ 1073741824 }
    requires bounded { IsBounded energy steps }
    requires least { pos 0 ≤ℤ upkeep }
    requires most { upkeep ≤ℤ pos (1920000020 * count) }
    requires low { neg_ℤ (pos (12 * count)) ≤ℤ cost }
    requires high { cost ≤ℤ pos (30 * count) }
    ensures value { result ≡ (energy +ℤ upkeep) +ℤ cost }
    ensures bounded { IsBounded result (steps + count) }
{
    energy + upkeep + cost
}
