//! Rules, and the outcome of a run.
ghost use Rattle.std.specs.Prelude.{◌≡◌};
ghost use Rattle.nano_spec.specs.Rule.{name_of, rule_number};

use vox_geom::Coord;

/// A rule of a time step or of the end of a run, in the order of their numbers from 1 on (docs/FORMATS.md, "Rules", describes
/// when each is broken, by which bot, and the coordinate).
#[derive(Clone, Copy, PartialEq, Eq, Debug)]
pub enum Rule {
    TraceEnds,
    HaltAlone,
    HaltOrigin,
    HaltLow,
    OutOfSpace,
    Blocked,
    Seeds,
    InRegion,
    Partner,
    GroupShape,
    Interference,
    Ungrounded,
    AfterHalt,
    WrongResult,
    Forbidden,
}

impl Rule {
    /// Returns the number of the rule.
    pub fn number(self) -> u8
        ensures { result ≡ rule_number self }
    {
        match self {
            Rule::TraceEnds => 1,
            Rule::HaltAlone => 2,
            Rule::HaltOrigin => 3,
            Rule::HaltLow => 4,
            Rule::OutOfSpace => 5,
            Rule::Blocked => 6,
            Rule::Seeds => 7,
            Rule::InRegion => 8,
            Rule::Partner => 9,
            Rule::GroupShape => 10,
            Rule::Interference => 11,
            Rule::Ungrounded => 12,
            Rule::AfterHalt => 13,
            Rule::WrongResult => 14,
            Rule::Forbidden => 15,
        }
    }

    /// Returns the name of the rule, as it is printed.
    pub fn name(self) -> &'static str
        ensures { result.now ≡ name_of self }
    {
        match self {
            Rule::TraceEnds => "TraceEnds",
            Rule::HaltAlone => "HaltAlone",
            Rule::HaltOrigin => "HaltOrigin",
            Rule::HaltLow => "HaltLow",
            Rule::OutOfSpace => "OutOfSpace",
            Rule::Blocked => "Blocked",
            Rule::Seeds => "Seeds",
            Rule::InRegion => "InRegion",
            Rule::Partner => "Partner",
            Rule::GroupShape => "GroupShape",
            Rule::Interference => "Interference",
            Rule::Ungrounded => "Ungrounded",
            Rule::AfterHalt => "AfterHalt",
            Rule::WrongResult => "WrongResult",
            Rule::Forbidden => "Forbidden",
        }
    }
}

/// The first broken rule: the step, counted from 1, the bot, and the coordinate. The bot is 0 for the rules of the whole state:
/// `Ungrounded`, `AfterHalt` and `WrongResult`.
#[derive(Clone, Copy, PartialEq, Eq, Debug)]
pub struct Broken {
    pub step: u32,
    pub bid: u8,
    pub rule: Rule,
    pub at: Coord,
}

/// The outcome of a run: its total energy and the number of its steps, or the first broken rule.
#[derive(Clone, Copy, PartialEq, Eq, Debug)]
pub enum Verdict {
    Accepted { energy: i64, steps: u32 },
    Refused(Broken),
}
