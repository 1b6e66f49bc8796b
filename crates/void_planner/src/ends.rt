//! Fission of one bot into four, and fusion into one.
ghost use Rattle.std.specs.Prelude.{◌≡◌, ◌+◌, ◌≤◌, OnOk};
ghost use Rattle.plan_tape.specs.Progress.{spot, IsVoidFrom};
ghost use Rattle.plan_tape.specs.Fissions.{fissions};
ghost use Rattle.plan_tape.specs.Frame.{HasRisen};
ghost use Rattle.void_planner.specs.Phases.{IsGathered, IsSpread};
ghost use Rattle.void_planner.specs.Square.{Becomes, CanRegroup, IsRectangle, four, one, steps_to, two};
ghost use Rattle.void_planner.specs.Tiles.{far_of};
ghost use Rattle.vox_geom.specs.Point.{coord};

use crate::four::{set_depth, set_width};
use crate::tiles::far;
use nano_spec::Command;
use plan_tape::{Axis, Tape, ahead, behind};
use vox_geom::Memory;

/// Splits the single bot to its neighbor along x.
fn split(tape: &mut Tape) -> Result<(), Memory>
    requires bots { tape.old.bots ≡ one (spot tape.old.bots) }
    requires can { CanRegroup tape.old }
    ensures { OnOk result (Becomes tape.old tape.new (two (spot tape.old.bots)) 1) }
{
    tape.split_all(&[Command::Fission(ahead(Axis::X), 1)])
}

/// Splits both bots to their neighbors along z.
fn split_both(tape: &mut Tape) -> Result<(), Memory>
    requires bots { tape.old.bots ≡ two (spot tape.old.bots) }
    requires can { CanRegroup tape.old }
    ensures { OnOk result (Becomes tape.old tape.new (four (spot tape.old.bots) 1 1) 2) }
{
    tape.split_all(&[
        Command::Fission(ahead(Axis::Z), 0),
        Command::Fission(ahead(Axis::Z), 0),
    ])
}

/// Fuses the fourth bot with the first, and the third with the second.
fn fuse_both(tape: &mut Tape) -> Result<(), Memory>
    requires bots { tape.old.bots ≡ four (spot tape.old.bots) 1 1 }
    requires can { CanRegroup tape.old }
    ensures { OnOk result (Becomes tape.old tape.new (two (spot tape.old.bots)) 0) }
{
    tape.fuse_all(&[
        Command::FusionP(ahead(Axis::Z)),
        Command::FusionP(ahead(Axis::Z)),
        Command::FusionS(behind(Axis::Z)),
        Command::FusionS(behind(Axis::Z)),
    ])
}

/// Fuses the second bot with the first.
fn fuse(tape: &mut Tape) -> Result<(), Memory>
    requires bots { tape.old.bots ≡ two (spot tape.old.bots) }
    requires can { CanRegroup tape.old }
    ensures { OnOk result (Becomes tape.old tape.new (one (spot tape.old.bots)) 0) }
{
    tape.fuse_all(&[
        Command::FusionP(ahead(Axis::X)),
        Command::FusionS(behind(Axis::X)),
    ])
}

/// Spreads the single bot into four at the corners of a square.
pub fn spread(tape: &mut Tape) -> Result<(), Memory>
    requires risen { HasRisen tape.old }
    requires some { 2 ≤ tape.old.source.resolution }
    ensures source { OnOk result (tape.new.source ≡ tape.old.source) }
    ensures spread { OnOk result (IsSpread tape.new) }
    ensures fissions { OnOk result (fissions tape.new ≡ fissions tape.old + 3) }
{
    let far = far(tape.matrix().resolution());
    split(tape)?;
    split_both(tape)?;
    set_width(tape, 1, far)?;
    set_depth(tape, 1, far)
}

/// Fuses the four into one bot.
pub fn gather(tape: &mut Tape) -> Result<(), Memory>
    requires square { IsRectangle tape.old (far_of tape.old.matrix.resolution) (far_of tape.old.matrix.resolution) }
    requires void { IsVoidFrom tape.old.matrix 0 }
    requires limit { tape.old.steps + 6 ≤ 1073741824 }
    ensures source { OnOk result (tape.new.source ≡ tape.old.source) }
    ensures resolution { OnOk result (tape.new.matrix.resolution ≡ tape.old.matrix.resolution) }
    ensures gathered { OnOk result (IsGathered tape.new (steps_to tape.old (coord 0 0 0) + 6)) }
    ensures fissions { OnOk result (fissions tape.new ≡ fissions tape.old) }
{
    let far = far(tape.matrix().resolution());
    set_depth(tape, far, 1)?;
    set_width(tape, far, 1)?;
    fuse_both(tape)?;
    fuse(tape)
}
