//! Changes of one part of the state, for a caller that applies the rules and the costs itself.
ghost use Rattle.std.specs.Prelude.{◌≡◌, [], ◌∷◌, length, All, IfSome};
ghost use Rattle.vox_geom.specs.Point.{point};
ghost use Rattle.vox_geom.specs.Space.{IsInSpace};
ghost use Rattle.nano_spec.specs.declared.system.Bot.{Bot as ActiveBot};
ghost use Rattle.nano_spec.specs.Bots.{moved};
ghost use Rattle.vox_planes.specs.Layers.{bit_index};
ghost use Rattle.vox_planes.specs.Voxel.{IsWhole, with_voxel};
ghost use Rattle.bot_crew.specs.Crew.{IsActive, bot_at, bot_of, replaced};
ghost use Rattle.system_state.specs.Painting.{with_cells};

use super::System;
use crate::voxels::set_cells;
use bot_crew::Crew;
use energy_sum::space_upkeep;
use nano_spec::Harmonics;
use vox_geom::Coord;

impl System {
    /// Fills or voids the voxel at the coordinate.
    #[inline(always)]
    pub fn set_voxel(&mut self, c: Coord, full: bool)
        requires { IsInSpace self.old.matrix.resolution c }
        ensures value { self.new ≡ record self.old { matrix = with_voxel self.old.matrix c full } }
        ensures whole { IsWhole self.new.matrix }
    {
        let bit = self.matrix.bit_of(c);
        self.set_voxel_at(c, bit, full);
    }

    /// [`System::set_voxel`], by the index of the voxel's bit.
    #[inline(always)]
    pub(super) fn set_voxel_at(&mut self, c: Coord, bit: usize, full: bool)
        requires within { IsInSpace self.old.matrix.resolution c }
        requires bit { bit ≡ bit_index self.old.matrix.resolution c }
        ensures value { self.new ≡ record self.old { matrix = with_voxel self.old.matrix c full } }
        ensures whole { IsWhole self.new.matrix }
    {
        self.matrix.set_at_bit(c, bit, full);
    }

    /// Fills or voids the voxels at the coordinates.
    pub fn set_voxels(&mut self, cells: &[Coord], full: bool)
        requires { All (λ c. IsInSpace self.old.matrix.resolution c) cells.now }
        ensures { self.new ≡ record self.old { matrix = with_cells self.old.matrix cells.now full } }
    {
        self.matrix.recall();
        set_cells(&mut self.matrix, cells, full);
    }

    /// Replaces the bots.
    pub fn set_crew(&mut self, crew: Crew)
        requires { All (λ b. IsInSpace self.old.matrix.resolution b.pos) crew }
        ensures { self.new ≡ record self.old { bots = crew } }
    {
        self.crew = crew;
    }

    /// Replaces the harmonics.
    pub fn set_harmonics(&mut self, harmonics: Harmonics)
        ensures { self.new ≡ record self.old { harmonics = harmonics } }
    {
        self.harmonics = harmonics;
        self.space = space_upkeep(self.matrix.resolution(), harmonics);
    }

    /// Replaces the energy.
    pub fn set_energy(&mut self, energy: i64)
        ensures { self.new ≡ record self.old { energy = energy } }
    {
        self.energy = energy;
    }

    /// Moves the bot to a coordinate at which no other is.
    #[inline(always)]
    pub fn move_to(&mut self, bid: u8, c: Coord)
        requires active { IsActive self.old.bots bid }
        requires free { IfSome (bot_at self.old.bots c) (λ b. b.bid ≡ bid) }
        requires within { IsInSpace self.old.matrix.resolution c }
        ensures moved { IfSome (bot_of self.old.bots bid)
            (λ b. self.new ≡ record self.old { bots = replaced self.old.bots (bid ∷ []) (moved b (point c) ∷ []) }) }
    {
        self.crew.move_to(bid, c);
    }

    /// Moves the only bot to a coordinate.
    #[inline(always)]
    pub(super) fn move_only(&mut self, c: Coord)
        requires one { length self.old.bots ≡ 1 }
        requires within { IsInSpace self.old.matrix.resolution c }
        ensures { (b : ActiveBot) → self.old.bots ≡ b ∷ []
            → self.new ≡ record self.old { bots = moved b (point c) ∷ [] } }
    {
        self.crew.move_only(c);
    }

    /// Halts the last bot: no bot is left.
    pub fn halt(&mut self)
        requires { length self.old.bots ≡ 1 }
        ensures { self.new ≡ record self.old { bots = [] } }
    {
        self.crew.halt();
    }
}
