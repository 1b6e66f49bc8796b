//! A step of all bots.
ghost use Rattle.std.specs.Prelude.{◌≡◌, ℕ, ◌<ℤ◌, ◌+ℤ◌, pos, length, All, None};
ghost use Rattle.vox_geom.specs.Counting.{IsBlankOf};
ghost use Rattle.vox_geom.specs.Space.{IsInSpace};
ghost use Rattle.nano_spec.specs.Rules.{broken as broken_of};
ghost use Rattle.nano_spec.specs.Step.{after};
ghost use Rattle.vox_planes.specs.Voxel.{IsWhole};
ghost use Rattle.system_state.specs.Bounds.{IsPayable};

use counter_permit::CounterPermit;
use energy_sum::a_step_changes_the_energy_by_little;
use nano_spec::Command;
use std::marker::Brand;
use std::sync::ledger::{Blank, Ledger};
use system_state::{System, Turns, recall_all};
use vox_geom::Steps;

/// Applies the groups of a step, counted in a ledger of its own. Judges nothing.
fn advance_in<L: Ledger>(system: &mut System, turns: &mut Turns, commands: &[Command], blank: Blank)
    requires commands { length commands.now ≡ length system.old.bots }
    requires judged { (step : ℕ) × (broken_of system.old commands.now step ≡ None) }
    requires payable { IsPayable system.old.energy }
    requires blank { IsBlankOf blank L.name L.parts }
    ensures { system.new ≡ after system.old commands.now }
{
    let mut steps: Steps<L> = Steps::new(blank, CounterPermit);
    system.list_turns(commands, turns);
    system.advance(commands, turns, &mut steps);
}

/// Updates the state by the commands of a step that breaks no rule, without counting the touches for the caller.
pub fn advance(system: &mut System, turns: &mut Turns, commands: &[Command])
    requires commands { length commands.now ≡ length system.old.bots }
    requires judged { (step : ℕ) × (broken_of system.old commands.now step ≡ None) }
    requires payable { IsPayable system.old.energy }
    ensures value { system.new ≡ after system.old commands.now }
    ensures whole { IsWhole system.new.matrix }
    ensures within { All (λ b. IsInSpace system.new.matrix.resolution b.pos) system.new.bots }
    ensures rises { system.new.energy <ℤ (system.old.energy +ℤ pos 3000000000) }
    ensures falls { system.old.energy <ℤ (system.new.energy +ℤ pos 3000000000) }
{
    a_step_changes_the_energy_by_little();
    recall_all(commands);
    system.recall();
    advance_in::<Brand>(system, turns, commands, Blank::new(1));
    system.recall();
}
