//! Laws of the session.
ghost use Rattle.std.specs.Prelude.{◌≡◌, ℕ, ℤ, ◌<◌, [], Bool, List, length, IsPermutation};
ghost use Rattle.nano_spec.specs.declared.commands.Command.{Command as CommandOf};
ghost use Rattle.nano_spec.specs.State.{IsReady};
ghost use Rattle.step_debugger.specs.Orders.{BeginEach};
ghost use Rattle.step_debugger.specs.Worked.{WorkedSessions};
ghost use Rattle.step_debugger.specs.Session.{AnswersLine, Back, DebugLine, Made, DebugReport, Session, Step, is_returned, latest, most_past, next_leaders};

/// A line of a session has at most one answer.
pub fn one_answer()
    ensures { (commands : List CommandOf) (line : DebugLine) (s t u : Session) (r q : DebugReport)
        → AnswersLine commands line s t r → AnswersLine commands line s u q → (t ≡ u) × (r ≡ q) }
{}

/// A step that any line made is undone: the point and the past return, the past without its oldest point if it was full.
pub fn back_restores()
    ensures point { (commands : List CommandOf) (line : DebugLine) (s t u : Session) (steps : ℕ) (energy : ℤ)
        (ended : Bool) (report : DebugReport)
        → AnswersLine commands line s t (Made steps energy ended) → AnswersLine commands Back t u report
        → u.point ≡ s.point }
    ensures past { (commands : List CommandOf) (line : DebugLine) (s t u : Session) (steps : ℕ) (energy : ℤ)
        (ended : Bool) (report : DebugReport)
        → AnswersLine commands line s t (Made steps energy ended) → AnswersLine commands Back t u report
        → length s.past < most_past → u.past ≡ s.past }
    ensures most { (commands : List CommandOf) (line : DebugLine) (s t u : Session) (steps : ℕ) (energy : ℤ)
        (ended : Bool) (report : DebugReport)
        → AnswersLine commands line s t (Made steps energy ended) → AnswersLine commands Back t u report
        → u.past ≡ latest 4095 s.past }
    ensures begun { (commands : List CommandOf) (line : DebugLine) (s t u : Session) (steps : ℕ) (energy : ℤ)
        (ended : Bool) (report : DebugReport)
        → AnswersLine commands line s t (Made steps energy ended) → AnswersLine commands Back t u report
        → u.begun ≡ [] }
    ensures report { (commands : List CommandOf) (line : DebugLine) (s t u : Session) (steps : ℕ) (energy : ℤ)
        (ended : Bool) (report : DebugReport)
        → AnswersLine commands line s t (Made steps energy ended) → AnswersLine commands Back t u report
        → report ≡ is_returned s.point }
{}

/// Lines that begin the groups of all leaders of a step, in any order, end in the session of that step's line.
pub fn every_order_makes_the_step()
    ensures step { (commands : List CommandOf) (order : List ℕ) (s t : Session) → IsReady s.point.state → s.begun ≡ []
        → IsPermutation (next_leaders commands s.point) order → BeginEach commands order s t
        → (report : DebugReport) × AnswersLine commands Step s t report }
    ensures orders { (commands : List CommandOf) (first second : List ℕ) (s t u : Session) → IsReady s.point.state
        → s.begun ≡ [] → IsPermutation (next_leaders commands s.point) first
        → IsPermutation (next_leaders commands s.point) second → BeginEach commands first s t
        → BeginEach commands second s u → t ≡ u }
{}

/// Worked examples of sessions.
pub fn worked_sessions()
    ensures { WorkedSessions }
{}
