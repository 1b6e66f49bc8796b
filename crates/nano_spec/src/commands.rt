//! Commands.
ghost use Rattle.std.specs.Prelude.{◌≡◌, ◌<◌};
ghost use Rattle.nano_spec.specs.Profile.{index_of};

use vox_geom::{Far, Long, Near, Short};

/// A command to one bot (docs/FORMATS.md, "Commands", describes its effect, its cost and its volatile coordinates).
#[derive(Clone, Copy, PartialEq, Eq, Debug)]
pub enum Command {
    /// Ends the run.
    Halt,
    /// Does nothing.
    Wait,
    /// Changes the harmonics.
    Flip,
    /// Moves along one axis.
    SMove(Long),
    /// Moves twice, one leg after the other.
    LMove(Short, Short),
    /// Fuses as the primary. The difference leads to the secondary.
    FusionP(Near),
    /// Fuses as the secondary. The difference leads to the primary.
    FusionS(Near),
    /// Makes a bot at the neighbor, with this number of the seeds.
    Fission(Near, u8),
    /// Fills a voxel.
    Fill(Near),
    /// Voids a voxel.
    Void(Near),
    /// Fills a region together with other bots: from the near corner, the far difference leads to the opposite one.
    GFill(Near, Far),
    /// Voids a region in the same way.
    GVoid(Near, Far),
}

impl Command {
    /// Returns the index of the command's word among the twelve, counted from 0.
    pub(crate) fn index(self) -> u32
        ensures index { result ≡ index_of self }
        ensures bound { result < 12 }
    {
        match self {
            Command::Halt => 0,
            Command::Wait => 1,
            Command::Flip => 2,
            Command::SMove(_) => 3,
            Command::LMove(_, _) => 4,
            Command::FusionP(_) => 5,
            Command::FusionS(_) => 6,
            Command::Fission(_, _) => 7,
            Command::Fill(_) => 8,
            Command::Void(_) => 9,
            Command::GFill(_, _) => 10,
            Command::GVoid(_, _) => 11,
        }
    }
}
