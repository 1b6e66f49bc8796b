//! Laws of model files, each the contract of a function that does nothing.
ghost use Rattle.std.specs.Prelude.{◌≡◌, ◌≢◌, ◌<◌, ℕ, All, List, Result};
ghost use Rattle.nano_spec.specs.Matrix.{Matrix};
ghost use Rattle.nano_spec.specs.Model.{model, written};
ghost use Rattle.vox_planes.specs.Voxel.{IsWhole};
ghost use Rattle.model_file.specs.declared.fault.ModelFault.{ModelFault};
ghost use Rattle.model_file.specs.declared.fault.ModelFault.TheVariants as fault;
ghost use Rattle.model_file.specs.Fault.{ReadsModel};
ghost use Rattle.model_file.specs.Padding.{without_padding};

/// A written model is read back as the same model. A model that was read is written as the same bytes, with their padding bits 0.
pub fn reading_and_writing()
    ensures read { (m : Matrix) (answer : Result Matrix ModelFault) → IsWhole m
        → ReadsModel (model (written m)) answer → answer ≢ Err fault.Memory → answer ≡ Ok m }
    ensures written { (bytes : List ℕ) (m : Matrix) → All (λ b. b < 256) bytes → ReadsModel (model bytes) (Ok m)
        → written m ≡ without_padding bytes }
{}
