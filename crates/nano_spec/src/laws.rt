//! Laws of the definitions and worked examples, each the contract of a function that does nothing.
ghost use Rattle.std.specs.Prelude.{◌≡◌, ◌<◌, ◌≤◌, ◌++◌, ℕ, ℤ, All, AllPairs, IsFalse, List, None, Ok, Option, Result, length};
ghost use Rattle.vox_geom.specs.declared.coordinate.Coord.{Coord};
ghost use Rattle.vox_geom.specs.Space.{IsInSpace};
ghost use Rattle.nano_spec.specs.declared.commands.Command.{Command};
ghost use Rattle.nano_spec.specs.declared.outcomes.Verdict.{Verdict};
ghost use Rattle.nano_spec.specs.declared.outcomes.Verdict.TheVariants.{Accepted};
ghost use Rattle.nano_spec.specs.declared.system.Harmonics.TheVariants.{Low};
ghost use Rattle.nano_spec.specs.declared.system.Profile.{Profile};
ghost use Rattle.nano_spec.specs.Command.{IsCommand};
ghost use Rattle.nano_spec.specs.Cutting.{AreCommands, Decoding, NoTrace};
ghost use Rattle.nano_spec.specs.Forge.{forged};
ghost use Rattle.nano_spec.specs.Grounded.{FirstUngrounded};
ghost use Rattle.nano_spec.specs.Legal.{IsLegal, Legality, NotLegal};
ghost use Rattle.nano_spec.specs.Level.{Level};
ghost use Rattle.nano_spec.specs.Matrix.{Matrix, is_full};
ghost use Rattle.nano_spec.specs.Model.{model, volume, written};
ghost use Rattle.nano_spec.specs.Next.{Next, Outcome};
ghost use Rattle.nano_spec.specs.Printing.{print};
ghost use Rattle.nano_spec.specs.Profile.{full_profile, light_profile};
ghost use Rattle.nano_spec.specs.First.{HasOneAtMost};
ghost use Rattle.nano_spec.specs.Line.{IsLineOf, Says, has_high_byte, is_skipped, line_of, word_of};
ghost use Rattle.nano_spec.specs.LineForm.{Word, readings};
ghost use Rattle.nano_spec.specs.Reading.{read};
ghost use Rattle.nano_spec.specs.Spelling.{spelling};
ghost use Rattle.nano_spec.specs.State.{IsReady, IsWellFormed, State, opening};
ghost use Rattle.nano_spec.specs.Verdict.{VerdictOf};
ghost use Rattle.nano_spec.specs.Work.{Work};
ghost use Rattle.nano_spec.specs.WorkedBytes.{WorkedSpellings, WorkedTraces, WorkedMisreadings, WorkedModels, WorkedTexts};
ghost use Rattle.nano_spec.specs.WorkedOthers.{FloatingUnderHigh, WorkedForge, WorkedNames, WorkedOrders, WorkedPaths, WorkedStates, WorkedWork};
ghost use Rattle.nano_spec.specs.WorkedRules.{MeetingGroups, OrderOfRules};
ghost use Rattle.nano_spec.specs.WorkedRuns.{AcceptedRuns, RefusedRuns, LightRuns};
ghost use Rattle.nano_spec.specs.WorkedStep.{EightBotsVoidABlock, FlipsPayByTheirStart};

use vox_geom::MOST_R;

/// A trace has one verdict at most.
pub fn one_verdict()
    ensures { (source target : Matrix) (commands : List Command) (profile : Profile) (v w : Verdict)
        → VerdictOf source target commands profile v → VerdictOf source target commands profile w → v ≡ w }
{}

/// A step has one outcome at most.
pub fn one_outcome()
    ensures { (s : State) (commands : List Command) (step : ℕ) (o p : Outcome) → Next s commands step o
        → Next s commands step p → o ≡ p }
{}

/// A model is legal, or refused for one reason.
pub fn one_legality()
    ensures { (m : Matrix) (a b : Option NotLegal) → Legality m a → Legality m b → a ≡ b }
{}

/// The opening of a legal model is well-formed.
pub fn opening_is_well_formed()
    ensures { (m : Matrix) (profile : Profile) → IsLegal m → IsWellFormed (opening m profile) }
{}

/// A model that bytes encode has a resolution of 1 to 400 and a voxel for each coordinate.
pub fn a_model_is_whole()
    ensures some { (bytes : List ℕ) (m : Matrix) → model bytes ≡ Ok m → 1 ≤ m.resolution }
    ensures most { (bytes : List ℕ) (m : Matrix) → model bytes ≡ Ok m → m.resolution ≤ MOST_R }
    ensures whole { (bytes : List ℕ) (m : Matrix) → model bytes ≡ Ok m → length m.voxels ≡ volume m.resolution }
{}

/// The opening of a model with a voxel for each coordinate is ready.
pub fn opening_is_ready()
    ensures { (m : Matrix) (profile : Profile) → 1 ≤ m.resolution → length m.voxels ≡ volume m.resolution
        → IsReady (opening m profile) }
{}

/// A ready state is well-formed if it is grounded and its bots are in void voxels. A well-formed state is ready if its matrix is
/// whole, its bots are in space and their bids rise.
pub fn ready_and_well_formed()
    ensures well_formed { (s : State) → IsReady s → (s.harmonics ≡ Low → FirstUngrounded s.matrix None)
        → All (λ a. IsFalse (is_full s.matrix a.pos)) s.bots → IsWellFormed s }
    ensures ready { (s : State) → IsWellFormed s → length s.matrix.voxels ≡ volume s.matrix.resolution
        → All (λ a. IsInSpace s.matrix.resolution a.pos) s.bots → AllPairs (λ a b. a.bid < b.bid) s.bots → IsReady s }
{}

/// A voxel has one level at most.
pub fn one_level()
    ensures { (m : Matrix) (c : Coord) (a b : Option ℕ) → Level m c a → Level m c b → a ≡ b }
{}

/// No spelling begins another, and no command has two.
pub fn one_spelling()
    ensures { (c d : Command) (x y : List ℕ) → IsCommand c → IsCommand d → spelling c ++ x ≡ spelling d ++ y
        → (c ≡ d) × (x ≡ y) }
{}

/// Bytes have one cutting, or are refused for one reason.
pub fn one_decoding()
    ensures { (bytes : List ℕ) (a b : Result (List Command) NoTrace) → Decoding bytes a → Decoding bytes b → a ≡ b }
{}

/// The rest of a line after its word has one reading by the form of that word, or none.
pub fn one_reading()
    ensures { (word : Word) (line rest : List ℕ) → word_of line ≡ Some word → HasOneAtMost (readings word.form rest) }
{}

/// A line of text yields a command exactly if it is of the command's form, is ASCII and is not skipped.
pub fn a_line_says_its_command()
    ensures says { (line : List ℕ) (command : Command) → line_of line ≡ Says command → IsLineOf line command }
    ensures is_said { (line : List ℕ) (command : Command) → IsFalse (has_high_byte line) → IsFalse (is_skipped line)
        → IsLineOf line command → line_of line ≡ Says command }
{}

/// A trace has one work at most.
pub fn one_work()
    ensures { (source : Matrix) (commands : List Command) (profile : Profile) (n k : ℕ) → Work source commands profile n
        → Work source commands profile k → n ≡ k }
{}

/// A model that is written is read back as the same model.
pub fn written_is_read_back()
    ensures { (m : Matrix) → 1 ≤ m.resolution → m.resolution ≤ 400 → length m.voxels ≡ volume m.resolution
        → model (written m) ≡ Ok m }
{}

/// Commands that are printed are read back as the same commands.
pub fn printed_is_read()
    ensures { (commands : List Command) → AreCommands commands → read (print commands) ≡ Ok commands }
{}

/// Each forged model is legal.
pub fn forged_is_legal()
    ensures { (number r : ℕ) → IsLegal (forged number r) }
{}

/// The full profile accepts every run that the light one accepts, with the same energy and steps.
pub fn full_accepts_what_light_accepts()
    ensures { (source target : Matrix) (commands : List Command) (energy : ℤ) (steps : ℕ)
        → VerdictOf source target commands light_profile (Accepted energy steps)
        → VerdictOf source target commands full_profile (Accepted energy steps) }
{}

/// Worked examples of runs.
pub fn worked_runs()
    ensures accepted { AcceptedRuns }
    ensures refused { RefusedRuns }
    ensures order_of_rules { OrderOfRules }
    ensures meeting_groups { MeetingGroups }
    ensures light { LightRuns }
    ensures step { EightBotsVoidABlock }
    ensures flips { FlipsPayByTheirStart }
{}

/// Worked examples of spellings, traces, models and texts.
pub fn worked_bytes()
    ensures spellings { WorkedSpellings }
    ensures traces { WorkedTraces }
    ensures misreadings { WorkedMisreadings }
    ensures models { WorkedModels }
    ensures texts { WorkedTexts }
{}

/// Worked examples of the forge, of steps whose groups act one after another, of work, of paths, of states, and of names.
pub fn worked_others()
    ensures forge { WorkedForge }
    ensures orders { WorkedOrders }
    ensures work { WorkedWork }
    ensures paths { WorkedPaths }
    ensures states { WorkedStates }
    ensures floating { FloatingUnderHigh }
    ensures names { WorkedNames }
{}
