//! A squad: one bot, or two in a row along z, which builds a strip of columns from right above each layer.
use crate::pieces::{Job, Piece};
use crate::spots::{Spot, nowhere, stride};
use crate::strips::Strip;
use crate::yard::Yard;
use std::alloc::Global;
use vox_geom::{Diff, Memory};

/// The work of a bot's step; a row or a piece that is visited counts 1.
const STEP: u64 = 4;

/// The outcome of a squad's turn.
#[derive(Clone, Copy, PartialEq, Eq, Debug)]
pub(crate) enum Stance {
    /// It acts in this step.
    Acts,
    /// It can do nothing before others fill something.
    Waits,
    /// It is at its first position, and has nothing left to do.
    IsHome,
}

/// A squad: its strip, its bots, its first position, its next height, the voxels left of each layer, its directions along its lane
/// and to the next one, and its work so far.
#[derive(Drop)]
pub(crate) struct Squad {
    pub(crate) strip: Strip,
    pub(crate) lead: u8,
    pub(crate) mate: Option<u8>,
    pub(crate) stand: Spot,
    pub(crate) height: i16,
    pub(crate) left: Vec<u32>,
    pub(crate) along: i16,
    pub(crate) over: i16,
    pub(crate) done: bool,
    pub(crate) pieces: Vec<Piece>,
    pub(crate) listed: i16,
    pub(crate) job: Option<Job>,
    pub(crate) work: u64,
}

impl Squad {
    /// Starts with a squad on the floor that has no bots yet.
    pub(crate) fn begin(alloc: Global, yard: &Yard, strip: Strip) -> Result<Squad, Memory> {
        let site = yard.site();
        let mut left = Vec::with_capacity(alloc, site.width())?;
        for y in 0..site.side() {
            left.push(left_of_layer(yard, strip, y))
                .map_err(|_| Memory)?;
        }
        Ok(Squad {
            strip,
            lead: 0,
            mate: None,
            stand: Spot {
                x: strip.lane(0).middle(),
                ..Spot::home()
            },
            height: 1,
            left,
            along: 1,
            over: 1,
            done: false,
            pieces: Vec::new(alloc),
            listed: -1,
            job: None,
            work: 0,
        })
    }

    /// Returns the layer to fill.
    pub(crate) fn layer(&self) -> i16 {
        self.height.wrapping_sub(1)
    }

    /// Returns the number of voxels left of a layer.
    fn left_of(&self, y: i16) -> u32 {
        if y < 0 {
            return 0;
        }
        match self.left.get(y as usize) {
            Some(left) => *left,
            None => 0,
        }
    }

    /// Subtracts voxels of its layer that were filled.
    pub(crate) fn took(&mut self, count: u32) {
        let y = self.layer();
        if y < 0 {
            return;
        }
        if let Some(left) = self.left.get_mut(y as usize) {
            *left = left.saturating_sub(count);
        }
    }

    /// Sets its height to right above the next layer with something left, or is done.
    fn choose_layer(&mut self, side: i16) {
        for y in self.layer().max(0)..side {
            if self.left_of(y) > 0 {
                self.height = y.wrapping_add(1);
                return;
            }
        }
        self.done = true;
    }

    /// Moves up to its next layer, if the one below has nothing left. Returns whether it moves or is done.
    pub(crate) fn rise(&mut self, yard: &mut Yard) -> bool {
        let y = yard.spot(self.lead).y;
        if self.left_of(self.layer()) == 0 {
            self.choose_layer(yard.site().side());
        }
        if self.done {
            return true;
        }
        let up = Diff {
            dy: stride(self.height.wrapping_sub(y)),
            ..nowhere()
        };
        yard.go(self.lead, up);
        if let Some(mate) = self.mate {
            yard.go(mate, up);
        }
        up != nowhere()
    }

    /// Moves home, if it is not there.
    fn come_home(&mut self, yard: &mut Yard) -> Stance {
        if let Some(mate) = self.mate {
            self.gather_two(yard, mate);
            return Stance::Acts;
        }
        if yard.return_to(self.lead, self.stand) {
            Stance::Acts
        } else {
            Stance::IsHome
        }
    }

    /// Returns whether something may be filled in its layer in some columns.
    pub(crate) fn may_fill_in(&self, yard: &Yard, columns: Strip, float: bool) -> bool {
        let y = self.layer();
        for x in columns.low..=columns.high {
            if yard.site().may_fill_in_row(x, y, float) {
                return true;
            }
        }
        false
    }

    /// Counts rows or pieces that were visited.
    pub(crate) fn count(&mut self, looked: usize) {
        self.work = self.work.saturating_add(looked as u64);
    }

    /// Performs its turn in this step.
    pub(crate) fn turn(&mut self, yard: &mut Yard, float: bool) -> Result<Stance, Memory> {
        let bots = if self.mate.is_some() { 2 } else { 1 };
        self.work = self.work.saturating_add(STEP * bots);
        if !self.done && self.rise(yard) && !self.done {
            return Ok(Stance::Acts);
        }
        if self.done {
            return Ok(self.come_home(yard));
        }
        if self.job.is_none() && !self.may_fill_in(yard, self.strip, float) {
            return Ok(Stance::Waits);
        }
        let acts = match self.mate {
            Some(mate) => self.build_by_two(yard, mate, float)?,
            None => self.build_alone(yard, float),
        };
        Ok(if acts { Stance::Acts } else { Stance::Waits })
    }
}

/// Returns the number of voxels of a strip in a layer.
fn left_of_layer(yard: &Yard, strip: Strip, y: i16) -> u32 {
    let mut left = 0u32;
    for x in strip.low..=strip.high {
        left = left.saturating_add(left_of_row(yard, x, y));
    }
    left
}

/// Returns the number of voxels of a column in a layer.
fn left_of_row(yard: &Yard, x: i16, y: i16) -> u32 {
    let site = yard.site();
    let mut left = 0u32;
    for z in 0..site.side() {
        if site.is_target(Spot { x, y, z }) {
            left = left.saturating_add(1);
        }
    }
    left
}
