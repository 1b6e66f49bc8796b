//! Laws that relate the contracts to the definitions of a step.
ghost use Rattle.std.specs.Prelude.{◌≡◌, ◌*◌, All, List, flat_map, length, map};
ghost use Rattle.vox_geom.specs.Space.{IsInSpace};
ghost use Rattle.nano_spec.specs.Act.{Act};
ghost use Rattle.nano_spec.specs.Bots.{successors};
ghost use Rattle.nano_spec.specs.Serial.{after_group};
ghost use Rattle.nano_spec.specs.State.{IsReady, State};
ghost use Rattle.bot_crew.specs.Crew.{IsCrew, replaced};

/// A state is ready for a step if its matrix is whole and its bots are a crew in space.
pub fn crew_is_ready()
    ensures { (s : State) → length s.matrix.voxels ≡ s.matrix.resolution * s.matrix.resolution * s.matrix.resolution
        → All (λ a. IsInSpace s.matrix.resolution a.pos) s.bots → IsCrew s.bots → IsReady s }
{}

/// The acts of one group replace the bots of the group by the successors of their commands.
pub fn group_is_replaced()
    ensures { (s : State) (group : List Act)
        → (after_group s group).bots
        ≡ replaced s.bots (map (λ a. a.bot.bid) group) (flat_map (λ a. successors group a a.command) group) }
{}
