//! The law that the command table is unambiguous, and worked examples of the table.
ghost use Rattle.std.specs.Prelude.{◌≡◌, ℕ, List};
ghost use Rattle.nanobot_words.specs.Rows.{IsRow, Row};
ghost use Rattle.nanobot_words.specs.Worked.{WorkedFiles, WorkedForged, WorkedPermissions, WorkedRows, WorkedSides, WorkedWords};

/// A list of arguments is at most one command.
pub fn one_row()
    ensures { (words : List (List ℕ)) (row row' : Row) → IsRow words row → IsRow words row' → row ≡ row' }
{}

/// Worked examples of commands: their arguments, and the files that they read and store. Also of the sides that planners accept,
/// and of the numbers that models are forged from.
pub fn worked_words()
    ensures words { WorkedWords }
    ensures files { WorkedFiles }
    ensures sides { WorkedSides }
    ensures forged { WorkedForged }
    ensures rows { WorkedRows }
    ensures permissions { WorkedPermissions }
{}
