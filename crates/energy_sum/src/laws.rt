//! The laws that bound the energy, each the contract of a function that does nothing.
ghost use Rattle.std.specs.Prelude.{◌≤◌, ◌<ℤ◌, ◌≤ℤ◌, ◌+ℤ◌, List, length, pos};
ghost use Rattle.vox_geom.specs.Point.{Point};
ghost use Rattle.nano_spec.specs.declared.commands.Command.{Command};
ghost use Rattle.nano_spec.specs.Command.{IsCommand};
ghost use Rattle.nano_spec.specs.Cutting.{AreCommands};
ghost use Rattle.nano_spec.specs.Energy.{group_cost};
ghost use Rattle.nano_spec.specs.Matrix.{Matrix};
ghost use Rattle.nano_spec.specs.State.{State};
ghost use Rattle.nano_spec.specs.Step.{after};

use vox_geom::MOST_R;

/// A step changes the energy by less than 3,000,000,000 either way, at every resolution, by any commands of 40 bots.
pub fn a_step_changes_the_energy_by_little()
    ensures rises { (s : State) (commands : List Command) → s.matrix.resolution ≤ MOST_R → length s.bots ≤ 40
        → AreCommands commands → (after s commands).energy <ℤ (s.energy +ℤ pos 3000000000) }
    ensures falls { (s : State) (commands : List Command) → s.matrix.resolution ≤ MOST_R → length s.bots ≤ 40
        → AreCommands commands → s.energy <ℤ ((after s commands).energy +ℤ pos 3000000000) }
{}

/// A group costs at most 357,492 either way: that of 29,791 voxels at 12.
pub fn a_group_costs_little()
    ensures rises { (m : Matrix) (p : Point) (command : Command) → IsCommand command
        → group_cost m p command ≤ℤ pos 357492 }
    ensures falls { (m : Matrix) (p : Point) (command : Command) → IsCommand command
        → pos 0 ≤ℤ (group_cost m p command +ℤ pos 357492) }
{}
