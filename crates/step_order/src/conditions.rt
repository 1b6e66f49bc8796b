//! Conditions under which a step breaks no rule, by the needs of each bot and by disjoint regions, and the effect of such a step.
ghost use Rattle.std.specs.Prelude.{◌≡◌, ℕ, ◌&&◌, ◌||◌, [], ◌∷◌, Bool, IsFalse, IsTrue, List, None, length, map, not};
ghost use Rattle.std.specs.List.{AllByRecursion, Contains};
ghost use Rattle.vox_geom.specs.declared.coordinate.Coord.{Coord};
ghost use Rattle.vox_geom.specs.Point.{point};
ghost use Rattle.vox_geom.specs.Region.{Span};
ghost use Rattle.vox_geom.specs.Space.{IsInSpace};
ghost use Rattle.nano_spec.specs.declared.commands.Command.{Command};
ghost use Rattle.nano_spec.specs.declared.outcomes.Rule.{Rule};
ghost use Rattle.nano_spec.specs.Act.{Act, acts, is_flip};
ghost use Rattle.nano_spec.specs.Bots.{fused, successors};
ghost use Rattle.nano_spec.specs.Group.{are_together, is_pair};
ghost use Rattle.nano_spec.specs.Matrix.{is_full};
ghost use Rattle.nano_spec.specs.Rules.{broken, fault};
ghost use Rattle.nano_spec.specs.State.{IsReady, State};
ghost use Rattle.nano_spec.specs.Step.{after, is_filled, is_voided};
ghost use Rattle.nano_spec.specs.Volatile.{is_volatile_of};
ghost use Rattle.step_order.specs.Acting.{gone, leaves_voxels, stays_one, with_region};
ghost use Rattle.step_order.specs.Unbroken.{AreFree, AreOneGroup};

/// A step breaks no rule if no bot breaks a rule of single bots, and no coordinate is volatile for two bots that do not act
/// together.
pub fn nothing_is_broken()
    ensures { (s : State) (commands : List Command) (step : ℕ) → IsReady s → length commands ≡ length s.bots
        → ((a : Act) (rule : Rule) → Contains (acts s.bots commands) a → fault s (acts s.bots commands) a rule ≡ None)
        →
        ((a b : Act) → Contains (acts s.bots commands) a → Contains (acts s.bots commands) b
        → IsFalse (are_together a b) → (c : Coord) → IsTrue (is_volatile_of (point c) a)
        → IsFalse (is_volatile_of (point c) b))
        → broken s commands step ≡ None }
{}

/// A step breaks no rule if no bot has a group command, each has what it needs for its command, and any two fuse or have disjoint
/// volatile regions.
pub fn free_bots_break_no_rule()
    ensures { (s : State) (commands : List Command) (step : ℕ) → IsReady s → length commands ≡ length s.bots
        → AreFree s (acts s.bots commands) → broken s commands step ≡ None }
{}

/// A step breaks no rule if all bots fill or void one region together.
pub fn one_group_breaks_no_rule()
    ensures { (s : State) (commands : List Command) (step : ℕ) (region : Span) (full : Bool) → IsReady s
        → length commands ≡ length s.bots → AreOneGroup s region full (acts s.bots commands)
        → broken s commands step ≡ None }
{}

/// The effect of a step on the voxels, the bots and the harmonics.
///
/// All voxels stay if no bot fills or voids, and the harmonics if no bot flips them. The bots are given if each stays one bot,
/// and for a pair that fuses.
pub fn bots_act()
    ensures voxels { (s : State) (commands : List Command) (c : Coord) → IsInSpace s.matrix.resolution c
        → is_full (after s commands).matrix c
        ≡ (is_filled (acts s.bots commands) c || (is_full s.matrix c && not (is_voided (acts s.bots commands) c))) }
    ensures still { (s : State) (commands : List Command) → IsReady s
        → AllByRecursion (λ a. IsTrue (leaves_voxels a.command)) (acts s.bots commands)
        → (after s commands).matrix ≡ s.matrix }
    ensures gone { (s : State) (commands : List Command) → IsReady s → length commands ≡ length s.bots
        → AllByRecursion (λ a. IsTrue (stays_one a.command)) (acts s.bots commands)
        → (after s commands).bots ≡ map gone (acts s.bots commands) }
    ensures primary { (s : State) (commands : List Command) (a b : Act) → IsReady s → length commands ≡ length s.bots
        → Contains (acts s.bots commands) a → Contains (acts s.bots commands) b → IsTrue (is_pair a b)
        → successors (acts s.bots commands) a a.command ≡ fused a.bot b.bot ∷ [] }
    ensures secondary { (all : List Act) (a b : Act) → IsTrue (is_pair a b) → successors all b b.command ≡ [] }
    ensures harmonics { (s : State) (commands : List Command)
        → AllByRecursion (λ a. IsFalse (is_flip a.command)) (acts s.bots commands)
        → (after s commands).harmonics ≡ s.harmonics }
{}

/// A group of all bots fills or voids its region; all other voxels, the bots and the harmonics stay.
pub fn one_group_acts()
    ensures matrix { (s : State) (commands : List Command) (region : Span) (full : Bool)
        → AreOneGroup s region full (acts s.bots commands)
        → (after s commands).matrix ≡ with_region s.matrix region full }
    ensures bots { (s : State) (commands : List Command) (region : Span) (full : Bool) → IsReady s
        → length commands ≡ length s.bots → AreOneGroup s region full (acts s.bots commands)
        → (after s commands).bots ≡ s.bots }
    ensures harmonics { (s : State) (commands : List Command) (region : Span) (full : Bool)
        → AreOneGroup s region full (acts s.bots commands) → (after s commands).harmonics ≡ s.harmonics }
{}
