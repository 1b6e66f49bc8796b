//! A law of the forest's calls, the contract of a function that does nothing.
ghost use Rattle.std.specs.Prelude.{◌≡◌, List};
ghost use Rattle.nano_spec.specs.Matrix.{Matrix, is_full};
ghost use Rattle.vox_geom.specs.declared.coordinate.Coord.{Coord};
ghost use Rattle.support_forest.specs.Edits.{Edit, AreEdited, is_left};

/// After any list of `add` and `remove`, a voxel is as the last edit that names it leaves it, or as before if none does.
pub fn edits_leave()
    ensures full { (edits : List Edit) (old new : Matrix) (c : Coord) → AreEdited old edits new
        → is_full new c ≡ is_left edits c (is_full old c) }
    ensures resolution { (edits : List Edit) (old new : Matrix) → AreEdited old edits new
        → new.resolution ≡ old.resolution }
{}
