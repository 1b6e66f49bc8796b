//! The crew spreads into a row, and gathers into one bot again.
ghost use Rattle.std.specs.Prelude.{◌≡◌, ◌+◌, ◌*◌, ◌≤◌, ◌<◌, OnOk, length};
ghost use Rattle.plan_tape.specs.Leg.{gap};
ghost use Rattle.plan_tape.specs.Progress.{spot, IsVoidFrom};
ghost use Rattle.swarm_planner.specs.Crew.{CrewGoes, InRow, IsSwarm, places};
ghost use Rattle.swarm_planner.specs.Lineup.{Gathers, InLine, HasGathered, IsSpreadOver, SpreadsOver, free_column, last_column as last_column_of, sent};
ghost use Rattle.swarm_planner.specs.Strips.{count as count_of};

use crate::paint::{first_place, go};
use crate::steps::{fuse_last, last_column, move_last, split_last};
use crate::strips::{strip_count, strip_width};
use plan_tape::{Tape, next_stop};
use vox_geom::{Coord, Memory};

/// Moves the last bot along x, past the others, by the fewest moves.
fn send_last(tape: &mut Tape, to: u16) -> Result<(), Memory>
    requires line { InLine tape.old }
    requires free { free_column 1 (places tape.old.bots) ≤ to }
    requires within { to < tape.old.matrix.resolution }
    requires limit { tape.old.steps + gap (last_column_of (places tape.old.bots)) to ≤ 1073741824 }
    ensures goes { OnOk result
        (CrewGoes tape.old tape.new (sent (places tape.old.bots) to) (gap (last_column_of (places tape.old.bots)) to)) }
    ensures line { OnOk result (InLine tape.new) }
{
    let mut at = last_column(tape);
    while at != to {
        at = next_stop(at, to);
        move_last(tape, at)?;
    }
    Ok(())
}

/// Splits the last bot, and moves the new one to the first column of its strip.
fn spread_one(tape: &mut Tape, count: u16) -> Result<(), Memory>
    requires spread { IsSpreadOver tape.old count }
    requires some { 1 ≤ count }
    requires more { count < count_of tape.old.matrix.resolution }
    requires limit { tape.old.steps + 20 ≤ 1073741824 }
    ensures { OnOk result (SpreadsOver tape.old tape.new (count + 1) 20) }
{
    let to = last_column(tape) + strip_width(tape.matrix().resolution());
    split_last(tape, (19 - count) as u8)?;
    send_last(tape, to)
}

/// Splits and spreads the bots until there is one in the first column of each strip.
pub fn spread(tape: &mut Tape) -> Result<(), Memory>
    requires spread { IsSpreadOver tape.old 1 }
    requires limit { tape.old.steps + 400 ≤ 1073741824 }
    ensures { OnOk result (SpreadsOver tape.old tape.new (count_of tape.old.matrix.resolution) 400) }
{
    for count in 1..strip_count(tape.matrix().resolution()) {
        spread_one(tape, count)?;
    }
    Ok(())
}

/// Returns the column past the last bot but one.
fn free_place(tape: &Tape) -> u16
    requires line { InLine tape.now }
    requires two { 2 ≤ length tape.now.bots }
    ensures { result ≡ free_column 1 (places tape.now.bots) }
{
    let bots = tape.crew().bots();
    bots[bots.len() - 2].pos.x + 1
}

/// Moves the last bot to the one before it, and fuses them.
fn gather_one(tape: &mut Tape) -> Result<(), Memory>
    requires line { InLine tape.old }
    requires two { 2 ≤ length tape.old.bots }
    requires limit { tape.old.steps + gap (last_column_of (places tape.old.bots)) (free_column 1 (places tape.old.bots))
        < 1073741824 }
    ensures { OnOk result
        (Gathers tape.old tape.new
        (gap (last_column_of (places tape.old.bots)) (free_column 1 (places tape.old.bots)) + 1)) }
{
    let to = free_place(tape);
    send_last(tape, to)?;
    fuse_last(tape)?;
    Ok(())
}

/// Moves all bots to z = 0, and fuses them one after another.
pub fn gather(tape: &mut Tape) -> Result<(), Memory>
    requires swarm { IsSwarm tape.old }
    requires row { InRow tape.old }
    requires void { IsVoidFrom tape.old.matrix (spot tape.old.bots).y }
    requires limit { tape.old.steps + (spot tape.old.bots).z + 420 ≤ 1073741824 }
    ensures { OnOk result (HasGathered tape.old tape.new ((spot tape.old.bots).z + 420)) }
{
    let at = first_place(tape);
    go(tape, Coord { z: 0, ..at })?;
    for _merged in 1..strip_count(tape.matrix().resolution()) {
        gather_one(tape)?;
    }
    Ok(())
}
