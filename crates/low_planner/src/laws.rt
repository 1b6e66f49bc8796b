//! A law of the definitions and worked examples, each the contract of a function that does nothing.
ghost use Rattle.std.specs.Prelude.{◌≡◌, Option};
ghost use Rattle.vox_geom.specs.declared.coordinate.Coord.{Coord};
ghost use Rattle.nano_spec.specs.Matrix.{Matrix};
ghost use Rattle.low_planner.specs.Supported.{FirstUnsupported};
ghost use Rattle.low_planner.specs.Worked.{WorkedParts};

/// A model has one least voxel of all its unsupported parts, or none.
pub fn one_unsupported()
    ensures { (m : Matrix) (a b : Option Coord) → FirstUnsupported m a → FirstUnsupported m b → a ≡ b }
{}

/// Worked examples of supported parts, and of the least voxel of unsupported ones.
pub fn worked_parts()
    ensures { WorkedParts }
{}
