//! A squad of one bot: up to five voxels at each stop, along lanes of three columns.
use crate::spots::{Spot, across};
use crate::squad::Squad;
use crate::yard::Yard;

/// The next goal of a bot: its lane, its row, and the direction from there.
#[derive(Clone, Copy)]
struct Aim {
    lane: i16,
    z: i16,
    along: i16,
}

impl Squad {
    /// Returns whether something may be filled in a lane at a row.
    fn has(&self, yard: &Yard, lane: i16, z: i16, float: bool) -> bool {
        let columns = self.strip.lane(lane);
        let y = self.layer();
        for x in columns.low..=columns.high {
            if yard.site().may_fill(Spot { x, y, z }, float) {
                return true;
            }
        }
        false
    }

    /// Returns whether nothing is left in a lane at a row but in its middle column.
    fn has_middle_only(&self, yard: &Yard, lane: i16, z: i16) -> bool {
        let columns = self.strip.lane(lane);
        let y = self.layer();
        for x in columns.low..=columns.high {
            if x != columns.middle() && yard.site().is_wanted(Spot { x, y, z }) {
                return false;
            }
        }
        true
    }

    /// Returns the first row from this one on at which something may be filled in a lane.
    fn next_row(&mut self, yard: &Yard, lane: i16, from: i16, by: i16, float: bool) -> Option<i16> {
        if !self.may_fill_in(yard, self.strip.lane(lane), float) {
            return None;
        }
        let side = yard.site().side();
        let mut z = from;
        for _ in 0..side {
            if z < 0 || z >= side {
                return None;
            }
            self.count(1);
            if self.has(yard, lane, z, float) {
                return Some(z);
            }
            z = z.wrapping_add(by);
        }
        None
    }

    /// Returns the nearer end of the rows of a lane at which something may be filled.
    fn nearer_end(&mut self, yard: &Yard, lane: i16, at: i16, float: bool) -> Option<Aim> {
        let end = yard.site().side().wrapping_sub(1);
        let low = self.next_row(yard, lane, 0, 1, float)?;
        let high = self.next_row(yard, lane, end, -1, float)?;
        let to_low = at.wrapping_sub(low).max(low.wrapping_sub(at));
        let to_high = at.wrapping_sub(high).max(high.wrapping_sub(at));
        if to_low <= to_high {
            Some(Aim {
                lane,
                z: low,
                along: 1,
            })
        } else {
            Some(Aim {
                lane,
                z: high,
                along: -1,
            })
        }
    }

    /// Returns the first lane from this one on that has something to fill.
    fn next_lane(&mut self, yard: &Yard, from: i16, by: i16, float: bool) -> Option<Aim> {
        let at = yard.spot(self.lead).z;
        let lanes = self.strip.lanes();
        let mut lane = from;
        for _ in 0..lanes {
            if lane < 0 || lane >= lanes {
                return None;
            }
            if let Some(aim) = self.nearer_end(yard, lane, at, float) {
                return Some(aim);
            }
            lane = lane.wrapping_add(by);
        }
        None
    }

    /// Returns the next goal within a lane: first in the bot's direction, then back.
    fn aim_within(&mut self, yard: &Yard, lane: i16, float: bool) -> Option<Aim> {
        let z = yard.spot(self.lead).z;
        for along in [self.along, self.along.wrapping_neg()] {
            if let Some(z) = self.next_row(yard, lane, z, along, float) {
                return Some(Aim { lane, z, along });
            }
        }
        None
    }

    /// Returns the next goal: in this lane, in the lanes ahead, or in those behind.
    fn aim(&mut self, yard: &Yard, float: bool) -> Option<Aim> {
        let x = yard.spot(self.lead).x;
        let lane = self.strip.lane_of(x);
        let in_lane = x == self.strip.lane(lane).middle();
        if in_lane {
            if let Some(aim) = self.aim_within(yard, lane, float) {
                return Some(aim);
            }
        }
        let first = if in_lane {
            lane.wrapping_add(self.over)
        } else {
            lane
        };
        if let Some(aim) = self.next_lane(yard, first, self.over, float) {
            return Some(aim);
        }
        let behind = lane.wrapping_sub(self.over);
        self.next_lane(yard, behind, self.over.wrapping_neg(), float)
    }

    /// Fills a voxel below, if one may be filled from the bot's position, and returns whether it did.
    fn fill_below(&mut self, yard: &mut Yard, float: bool) -> bool {
        let below = yard.spot(self.lead).below();
        let on = self.along;
        for (dx, dz) in [(0, on.wrapping_neg()), (-1, 0), (1, 0), (0, 0), (0, on)] {
            let c = below.beside(dx, dz);
            if c.x < self.strip.low || c.x > self.strip.high {
                continue;
            }
            if yard.site().may_fill(c, float) {
                yard.fill(self.lead, c);
                self.took(1);
                return true;
            }
        }
        false
    }

    /// Returns the row at which the bot stops for a goal: one further if only the middle column is left, so that the stop serves
    /// more.
    fn stop_for(&self, yard: &Yard, aim: Aim, column: i16) -> i16 {
        let on = aim.z.wrapping_add(aim.along);
        let at = yard.spot(self.lead);
        let is_there = at.x == column && at.z == on;
        let is_within = on >= 0 && on < yard.site().side();
        if is_within && !is_there && self.has_middle_only(yard, aim.lane, aim.z) {
            on
        } else {
            aim.z
        }
    }

    /// Fills a voxel below, or moves towards one that may be filled. Returns whether the bot acts.
    pub(crate) fn build_alone(&mut self, yard: &mut Yard, float: bool) -> bool {
        if self.fill_below(yard, float) {
            return true;
        }
        let Some(aim) = self.aim(yard, float) else {
            return false;
        };
        let at = yard.spot(self.lead);
        let lane = self.strip.lane_of(at.x);
        if aim.lane != lane {
            self.over = if aim.lane > lane { 1 } else { -1 };
        }
        self.along = aim.along;
        let column = self.strip.lane(aim.lane).middle();
        let z = self.stop_for(yard, aim, column);
        let d = across(column.wrapping_sub(at.x), z.wrapping_sub(at.z));
        yard.go(self.lead, d);
        d.dx != 0 || d.dz != 0
    }
}
