//! The cost of a step and its moves.
ghost use Rattle.std.specs.Prelude.{◌≡◌, ◌+◌, ◌*◌, ◌≤◌, pos, ◌+ℤ◌, ◌≤ℤ◌};
ghost use Rattle.vox_geom.specs.Difference.{mlen};
ghost use Rattle.system_state.specs.Bounds.{IsTurnCost, IsTurnPayable, IsWithin};

use energy_sum::upkeep_by;
use vox_geom::Short;

/// Returns the upkeep of a step, which is less than 2 to the power of 31, by the share of the space in it.
#[inline(always)]
pub(crate) fn upkeep_at(space: u32, bots: u8) -> i64
    requires space { space ≤ 1920000000 }
    requires bots { bots ≤ 40 }
    ensures value { result ≡ pos (space + 20 * bots) }
    ensures low { pos 0 ≤ℤ result }
    ensures high { result ≤ℤ pos 2000000000 }
{
    upkeep_by(space, bots)
}

/// Returns the length of a short move.
#[inline(always)]
fn length_of(d: Short) -> u32
    ensures value { result ≡ mlen d }
    ensures most { result ≤ 5 }
{
    d.diff().mlen()
}

/// Returns the cost of a two-leg move, without the upkeep.
#[inline(always)]
pub(crate) fn cost_of_moves(d: Short, e: Short) -> i64
    ensures value { result ≡ pos (2 * (mlen d + 2 + mlen e)) }
    ensures small { IsTurnCost result }
{
    2 * i64::from(length_of(d) + 2 + length_of(e))
}

/// Returns the energy after a cost.
pub(crate) fn add_cost(energy: i64, cost: i64) -> i64
    requires energy { IsTurnPayable energy }
    requires cost { IsWithin 2000000000 cost }
    ensures { result ≡ energy +ℤ cost }
{
    energy + cost
}
