//! The laws of scripts, and worked examples of them.
ghost use Rattle.std.specs.Prelude.{◌≡◌, ◌≤◌, ℕ, List, Result, length};
ghost use Rattle.nano_spec.specs.declared.commands.Command.{Command};
ghost use Rattle.nano_spec.specs.declared.system.Profile.{Profile};
ghost use Rattle.nano_spec.specs.Cutting.{AreCommands};
ghost use Rattle.nano_spec.specs.Matrix.{Matrix};
ghost use Rattle.nano_spec.specs.Model.{volume};
ghost use Rattle.nano_spec.specs.Reading.{FaultyLine};
ghost use Rattle.step_debugger.specs.Session.{DebugLine, opened};
ghost use Rattle.debug_script.specs.Script.{ScriptSays};
ghost use Rattle.debug_script.specs.Sessions.{Prints};
ghost use Rattle.debug_script.specs.Worked.{WorkedPrints, WorkedScripts};

use nano_spec::opening_is_ready;
use step_debugger::one_answer;
use step_order::{some_groups, stays_ready};

/// A script has at most one meaning.
pub fn one_script()
    ensures { (r : ℕ) (bytes : List ℕ) (a b : Result (List DebugLine) FaultyLine) → ScriptSays r bytes a
        → ScriptSays r bytes b → a ≡ b }
{}

/// The lines of a script print at most one text.
pub fn one_text()
    ensures { (source : Matrix) (profile : Profile) (commands : List Command) (script : List DebugLine) (a b : List ℕ)
        → Prints commands script (opened source profile) a → Prints commands script (opened source profile) b → a ≡ b }
{
    one_answer();
}

/// A script has a meaning at each resolution: its lines, or its first faulty line.
pub fn some_script()
    ensures { (r : ℕ) (bytes : List ℕ) → (said : Result (List DebugLine) FaultyLine) × ScriptSays r bytes said }
{}

/// The lines of a script print some text, from a source with a voxel for each coordinate.
pub fn some_text()
    ensures { (source : Matrix) (profile : Profile) (commands : List Command) (script : List DebugLine)
        → 1 ≤ source.resolution → length source.voxels ≡ volume source.resolution → AreCommands commands
        → (text : List ℕ) × Prints commands script (opened source profile) text }
{
    opening_is_ready();
    stays_ready();
    some_groups();
}

/// Worked examples of scripts, and of their printed lines.
pub fn worked_scripts()
    ensures scripts { WorkedScripts }
    ensures prints { WorkedPrints }
{}
