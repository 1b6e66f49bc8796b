//! The parts of the system's state, and its profiles.
ghost use Rattle.std.specs.Prelude.{◌≡◌};
ghost use Rattle.nano_spec.specs.Profile.{full_profile, is_allowed, light_profile};
ghost use Rattle.nano_spec.specs.Step.{flipped};

use crate::commands::Command;
use vox_geom::Coord;

/// The harmonics of a state. Under `Low` every full voxel must be grounded; `High` costs ten times the upkeep for space.
#[derive(Clone, Copy, PartialEq, Eq, Debug)]
pub enum Harmonics {
    Low,
    High,
}

impl Harmonics {
    /// Returns the other harmonics, as after a Flip.
    pub fn flipped(self) -> Harmonics
        ensures { result ≡ flipped self }
    {
        match self {
            Harmonics::Low => Harmonics::High,
            Harmonics::High => Harmonics::Low,
        }
    }
}

/// An active bot, with a bid from 1 to 40. Bit k of `seeds` is 1 if k is a seed: the bid of a bot that it can make.
#[derive(Clone, Copy, PartialEq, Eq, Default, Debug)]
pub struct Bot {
    pub bid: u8,
    pub pos: Coord,
    pub seeds: u64,
}

/// The limits of a run (docs/FORMATS.md, "Profiles"): the number of seeds of the first bot, which are the numbers from 2 on, and
/// the allowed commands.
///
/// Bit k of `allowed` is 1 if the k-th command, counted from 0 in the order of [`Command`], is allowed.
#[derive(Clone, Copy, PartialEq, Eq, Debug)]
pub struct Profile {
    pub seeds: u8,
    pub allowed: u16,
}

impl Profile {
    /// Returns the profile of the contest: 39 seeds, the numbers 2 to 40, and all commands.
    pub fn full() -> Profile
        ensures { result ≡ full_profile }
    {
        Profile {
            seeds: 39,
            allowed: 0x0FFF,
        }
    }

    /// Returns the light profile: 19 seeds, the numbers 2 to 20, and all commands but `Void`, `GFill` and `GVoid`.
    pub fn light() -> Profile
        ensures { result ≡ light_profile }
    {
        Profile {
            seeds: 19,
            allowed: 0x01FF,
        }
    }

    /// Returns whether the command is allowed.
    pub fn allows(self, c: Command) -> bool
        ensures { result ≡ is_allowed self c }
    {
        (self.allowed >> c.index()) % 2 == 1
    }
}
