//! The planners.
ghost use Rattle.std.specs.Prelude.{◌↔◌, IsTrue};
ghost use Rattle.nanobot_words.specs.Parsing.{side_of};
ghost use Rattle.nanobot_words.specs.Rows.{HasName, HasOnly, TakesSides};

use crate::row::Side;

/// A planner. `plan_choice` has the facts of each one's plans.
#[derive(Clone, Copy, PartialEq, Eq, Debug)]
pub enum Planner {
    /// One bot, from any model to any other.
    Layer,
    /// At most two bots, which fill and void whole runs together.
    Group,
    /// Up to forty bots: the cheapest of its own plans and of the other planners'.
    Crew,
    /// At most four bots, which take a model down.
    Void,
    /// One bot, which builds under Low all the time.
    Low,
    /// Up to twenty bots, which build under the light profile.
    Swarm,
}

/// Returns whether one of the two sides is a named file.
pub(crate) fn has_name(source: Side<'_>, target: Side<'_>) -> bool
    ensures { IsTrue result ↔ HasName (side_of source.entry) (side_of target.entry) }
{
    match (source, target) {
        (Side::Empty, Side::Empty) => false,
        (Side::Empty, Side::Named(_)) | (Side::Named(_), _) => true,
    }
}

/// Returns whether only the first of the two sides is a named file.
fn has_only(side: Side<'_>, other: Side<'_>) -> bool
    ensures { IsTrue result ↔ HasOnly (side_of side.entry) (side_of other.entry) }
{
    match (side, other) {
        (Side::Named(_), Side::Empty) => true,
        (Side::Named(_), Side::Named(_)) | (Side::Empty, _) => false,
    }
}

impl Planner {
    /// Returns whether it plans between these sides.
    pub(crate) fn takes(self, source: Side<'_>, target: Side<'_>) -> bool
        ensures { IsTrue result ↔ TakesSides self (side_of source.entry) (side_of target.entry) }
    {
        match self {
            Planner::Layer | Planner::Group | Planner::Crew => has_name(source, target),
            Planner::Void => has_only(source, target),
            Planner::Low | Planner::Swarm => has_only(target, source),
        }
    }
}
