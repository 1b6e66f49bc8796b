//! Worked examples of what the commands print and answer.
ghost use Rattle.nanobot_rows.specs.Worked.{WorkedBounds, WorkedLengths, WorkedLimits, WorkedLines, WorkedStatuses};
ghost use Rattle.nanobot_rows.specs.WorkedAnswers.{WorkedAnswers, WorkedFacts, WorkedModels, WorkedTouching};

/// Worked examples of reports: their statuses and lines, the limits of files and the answers within them, and the
/// bounds of plans.
pub fn worked_reports()
    ensures lines { WorkedLines }
    ensures statuses { WorkedStatuses }
    ensures limits { WorkedLimits }
    ensures lengths { WorkedLengths }
    ensures bounds { WorkedBounds }
{}

/// Worked examples of answers to commands over files, of the models of a run, of the facts of each planner's plans, and
/// of the touches of a run.
pub fn worked_answers()
    ensures answers { WorkedAnswers }
    ensures facts { WorkedFacts }
    ensures models { WorkedModels }
    ensures touching { WorkedTouching }
{}
