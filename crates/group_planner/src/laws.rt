//! Worked examples of the definitions, the contract of a function that does nothing.
ghost use Rattle.group_planner.specs.Worked.{WorkedRows};

/// Worked examples of rows and runs.
pub fn worked_rows()
    ensures { WorkedRows }
{}
