//! Worked examples of the definitions, the contract of a function that does nothing.
ghost use Rattle.plan_choice.specs.Worked.{WorkedCosts, WorkedCrews, WorkedPlanners, WorkedPlans};

/// Worked examples of the most bots of plans, of their bounds, and of the cheaper one of two plans.
pub fn worked_plans()
    ensures plans { WorkedPlans }
    ensures planners { WorkedPlanners }
    ensures costs { WorkedCosts }
    ensures crews { WorkedCrews }
{}
