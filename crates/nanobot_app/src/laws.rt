//! The laws of the answers, and worked examples of the effects of a call.
ghost use Rattle.std.specs.Prelude.{◌≡◌, ℕ, ℤ, List, Option, Some, Ok};
ghost use Rattle.vox_depot.specs.Files.{Files};
ghost use Rattle.nanobot_rows.specs.Answer.{Answer, AnswerOf, AskNoPlan, CanPlan, Reply};
ghost use Rattle.nanobot_rows.specs.Lines.{accepted_line};
ghost use Rattle.nanobot_rows.specs.Models.{AreModels};
ghost use Rattle.nano_spec.specs.Matrix.{Matrix};
ghost use Rattle.nanobot_app.specs.Headline.{IsCost, MachineTakes};
ghost use Rattle.nanobot_app.specs.Plans.{IsRunOfPlan, PlansAsLight};
ghost use Rattle.nanobot_app.specs.Worked.{WorkedHeadlines, WorkedOutcomes};
ghost use Rattle.nanobot_words.specs.Rows.{HasName, IsInNoRow, asm, check, debug, dis, exercise, make, plan, run};
ghost use Rattle.nanobot_words.specs.declared.planner.Planner.{Planner};
ghost use Rattle.nanobot_words.specs.declared.row.Round.{Round};
ghost use Rattle.nanobot_words.specs.declared.row.Round.TheVariants.{Full, Light};
ghost use Rattle.nanobot_rows.specs.declared.status.Status.TheVariants as status;

use debug_script::{one_script, one_text, some_script, some_text};
use energy_sum::a_step_changes_the_energy_by_little;
use low_planner::one_unsupported;
use nano_spec::{a_model_is_whole, one_decoding, one_legality, one_verdict};
use nanobot_words::one_row;
use plan_tape::seeds_bound_the_bots;

/// A command has at most one status over the same files, and at most one answer if it requests no plans.
pub fn one_answer()
    ensures status { (words : List (List ℕ)) (files : Files) (r s : Reply) → Answer words files r
        → Answer words files s → r.status ≡ s.status }
    ensures answer { (words : List (List ℕ)) (files : Files) (r s : Reply) → AskNoPlan words → Answer words files r
        → Answer words files s → r ≡ s }
{
    one_decoding();
    one_legality();
    one_verdict();
    one_unsupported();
    one_row();
    one_script();
    one_text();
}

/// Arguments that are no command have an answer over all files, and so does each command that makes no plans.
pub fn some_answer()
    ensures no_row { (words : List (List ℕ)) (files : Files) → IsInNoRow words
        → (reply : Reply) × Answer words files reply }
    ensures check { (model : List ℕ) (files : Files) → (reply : Reply) × AnswerOf (check model) files reply }
    ensures run { (round : Round) (source target : Option (List ℕ)) (trace : List ℕ) (files : Files)
        → HasName source target → (reply : Reply) × AnswerOf (run round source target trace) files reply }
    ensures asm { (text trace : List ℕ) (files : Files) → (reply : Reply) × AnswerOf (asm text trace) files reply }
    ensures dis { (trace text : List ℕ) (files : Files) → (reply : Reply) × AnswerOf (dis trace text) files reply }
    ensures make { (number resolution : ℕ) (model : List ℕ) (files : Files)
        → (reply : Reply) × AnswerOf (make number resolution model) files reply }
    ensures debug { (source trace script : List ℕ) (files : Files)
        → (reply : Reply) × AnswerOf (debug source trace script) files reply }
{
    a_model_is_whole();
    some_script();
    some_text();
}

/// The energy and the number of steps of an accepted run are small, and no two such pairs are printed alike.
pub fn costs_are_told_apart()
    ensures small { (files : Files) (source target : Option (List ℕ)) (trace : List ℕ) (energy : ℤ) (count : ℕ)
        → MachineTakes files source target trace energy count → IsCost energy count }
    ensures apart { (energy energy' : ℤ) (count count' : ℕ) → IsCost energy count → IsCost energy' count'
        → accepted_line energy count ≡ accepted_line energy' count' → (energy ≡ energy') × (count ≡ count') }
{
    a_step_changes_the_energy_by_little();
    seeds_bound_the_bots();
    a_model_is_whole();
}

/// A plan stored under a name of its own is accepted by `run` over the resulting files, with the printed energy and steps; a plan
/// of the low planner or of the swarm also by `run light`.
pub fn a_plan_is_accepted()
    ensures in_full { (planner : Planner) (source target : Option (List ℕ)) (trace : List ℕ)
        (files : Files) (reply : Reply) → (source ≡ Some trace → ⊥) → (target ≡ Some trace → ⊥)
        → AnswerOf (plan planner source target trace) files reply → reply.status ≡ status.Done
        → IsRunOfPlan Full source target trace reply }
    ensures as_light { (planner : Planner) (source target : Option (List ℕ)) (trace : List ℕ)
        (files : Files) (reply : Reply) → PlansAsLight planner → (source ≡ Some trace → ⊥) → (target ≡ Some trace → ⊥)
        → AnswerOf (plan planner source target trace) files reply → reply.status ≡ status.Done
        → IsRunOfPlan Light source target trace reply }
{
    a_model_is_whole();
}

/// Each answer to a plan is 0 if its models are legal and of the same resolution and its planner makes a plan between them, and
/// so is each answer to an exercise. By the clauses of `drive` such a call then ends with 0, or with 5, 6 or 7 by their causes.
pub fn each_plan_is_made()
    ensures plan { (planner : Planner) (source target : Option (List ℕ)) (trace : List ℕ) (files : Files)
        (from to : Matrix) (reply : Reply) → HasName source target → AreModels source target files from to
        → CanPlan planner from to files (Ok tt) → AnswerOf (plan planner source target trace) files reply
        → reply.status ≡ status.Done }
    ensures exercise { (number resolution : ℕ) (files : Files) (reply : Reply)
        → AnswerOf (exercise number resolution) files reply → reply.status ≡ status.Done }
{
    one_decoding();
    one_legality();
    one_verdict();
    one_unsupported();
    one_script();
    one_text();
}

/// Worked examples of the headline, and of the effects of a call on the outside.
pub fn worked_outcomes()
    ensures outcomes { WorkedOutcomes }
    ensures headlines { WorkedHeadlines }
{}
