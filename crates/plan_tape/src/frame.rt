//! The frame of a plan by one bot under High: its rise and its way home.
ghost use Rattle.std.specs.Prelude.{◌≡◌, ◌+◌, ◌*◌, ◌≤◌, IfOk, count_by, length};
ghost use Rattle.nano_spec.specs.Cutting.{AreCommands};
ghost use Rattle.nano_spec.specs.Legal.{IsLegal};
ghost use Rattle.nano_spec.specs.Matrix.{Matrix as MatrixValue};
ghost use Rattle.nano_spec.specs.Spelling.{spellings};
ghost use Rattle.nano_spec.specs.State.{origin};
ghost use Rattle.plan_tape.specs.Fissions.{fissions, is_fission};
ghost use Rattle.plan_tape.specs.Frame.{HasRisen};
ghost use Rattle.plan_tape.specs.Leg.{MayMove, moves_to};
ghost use Rattle.plan_tape.specs.Progress.{AreAlike, IsAccepted, IsAllowed, IsVoidFrom, bytes, spot};

use crate::tape::{Plan, Tape};
use nano_spec::{Command, Harmonics};
use std::alloc::Global;
use vox_geom::{Coord, Memory};
use vox_planes::Planes;

/// Returns the tape of a legal model, by the full profile, with the bot at the top above the origin, under High.
pub fn rise(alloc: Global, source: Planes) -> Result<Tape, Memory>
    requires { IsLegal source }
    ensures source { IfOk result (λ tape. tape.source ≡ source) }
    ensures risen { IfOk result HasRisen }
{
    let r = source.resolution();
    let mut tape = Tape::start(alloc, source)?;
    tape.flip()?;
    tape.go(Coord {
        x: 0,
        y: r - 1,
        z: 0,
    })?;
    Ok(tape)
}

/// Returns the plan whose only bot, which is under High, goes home, flips and halts. The matrix is a legal model, and void from the
/// bot's height on.
pub fn close(mut tape: Tape) -> Result<Plan, Memory>
    requires alone { length tape.bots ≡ 1 }
    requires high { tape.harmonics ≡ Harmonics.High }
    requires legal { IsLegal tape.matrix }
    requires clear { IsVoidFrom tape.matrix (spot tape.bots).y }
    requires moves { MayMove tape }
    requires flip { IsAllowed tape Command.Flip }
    requires halt { IsAllowed tape Command.Halt }
    requires limit { tape.steps + moves_to (spot tape.bots) origin + 2 ≤ 1073741824 }
    ensures accepted { IfOk result (λ plan. (target : MatrixValue) → AreAlike tape.matrix target
        → IsAccepted tape.source target plan.commands tape.profile plan.energy plan.steps) }
    ensures steps { IfOk result (λ plan. plan.steps ≡ tape.steps + moves_to (spot tape.bots) origin + 2) }
    ensures commands { IfOk result
        (λ plan. length plan.commands ≡ length tape.commands + moves_to (spot tape.bots) origin + 2) }
    ensures bytes { IfOk result
        (λ plan. length (spellings plan.commands) ≡ bytes tape + 2 * moves_to (spot tape.bots) origin + 2) }
    ensures fissions { IfOk result (λ plan. count_by is_fission plan.commands ≡ fissions tape) }
    ensures are_commands { IfOk result (λ plan. AreCommands plan.commands) }
{
    tape.recall_whole();
    tape.go(Coord { x: 0, y: 0, z: 0 })?;
    tape.flip()?;
    tape.halt()?;
    Ok(tape.finish())
}
