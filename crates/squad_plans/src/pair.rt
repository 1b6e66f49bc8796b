//! A squad of two bots in a row along z: runs that both fill at once, three columns from each stop, or single voxels.
use crate::pieces::{Job, Piece, list_layer};
use crate::spots::{Spot, apart, moves, nowhere, stride};
use crate::squad::Squad;
use crate::tasks::Task;
use crate::yard::Yard;
use vox_geom::{Diff, Memory};

/// The longest leg of a double move.
const SHORT: i16 = 5;

/// More halvings than any list allows.
const MOST_HALVINGS: u32 = 64;

/// A job and the cost of the moves to it, in quarters of a move.
#[derive(Clone, Copy)]
struct Offer {
    cost: i16,
    job: Job,
    piece: usize,
}

/// The positions of two bots, and whether voxels may float.
#[derive(Clone, Copy)]
struct Sight {
    rear: Spot,
    front: Spot,
    float: bool,
}

/// Returns the cost of an offer, or more than any if there is none.
fn cost_of(offer: Option<Offer>) -> i16 {
    match offer {
        Some(it) => it.cost,
        None => i16::MAX,
    }
}

/// Returns the piece with an index.
fn piece_at(pieces: &[Piece], number: usize) -> Option<Piece> {
    match pieces.get(number) {
        Some(piece) => Some(*piece),
        None => None,
    }
}

/// Returns a difference along z.
fn along(dz: i16) -> Diff {
    Diff { dz, ..nowhere() }
}

/// Returns the difference to the voxel right below the bot, or to its neighbor along x.
fn down_to(column: i16, x: i16) -> Diff {
    Diff {
        dx: column.wrapping_sub(x),
        dy: -1,
        dz: 0,
    }
}

impl Squad {
    /// Returns the job of a piece for bots at these rows, with the number of moves along z.
    fn job_of(&self, piece: Piece, rear: i16, front: i16) -> (Job, i16) {
        let lane = self.strip.lane(self.strip.lane_of(piece.x));
        let mut job = Job {
            x: lane.middle(),
            rear: piece.first,
            front: piece.last,
            rear_column: Some(piece.x),
            front_column: Some(piece.x),
            run: true,
        };
        if !piece.is_single() {
            let ways = moves(piece.first.wrapping_sub(rear)).max(moves(
                piece.last.wrapping_sub(front),
            ));
            return (job, ways);
        }
        let z = piece.first;
        job.run = false;
        if apart(z, rear) <= apart(z, front) {
            job.front_column = None;
            job.front = front.max(z.wrapping_add(1));
            (job, moves(z.wrapping_sub(rear)))
        } else {
            job.rear_column = None;
            job.rear = rear.min(z.wrapping_sub(1));
            (job, moves(z.wrapping_sub(front)))
        }
    }

    /// Returns the offer of a piece.
    fn offer(&self, number: usize, piece: Piece, rear: Spot, front: Spot) -> Offer {
        let (job, ways) = self.job_of(piece, rear.z, front.z);
        let all = ways.wrapping_add(moves(job.x.wrapping_sub(rear.x)));
        let beside = apart(piece.x, rear.x).min(3);
        Offer {
            cost: all.wrapping_mul(4).wrapping_add(beside),
            job,
            piece: number,
        }
    }

    /// Returns the index of the first piece no farther left than a column. Pieces are in ascending order of columns.
    fn first_from(&self, x: i16) -> usize {
        let (mut low, mut high) = (0, self.pieces.len());
        for _ in 0..MOST_HALVINGS {
            if low >= high {
                break;
            }
            let middle = low + (high - low) / 2;
            match piece_at(self.pieces.as_slice(), middle) {
                Some(piece) if piece.x < x => low = middle + 1,
                _ => high = middle,
            }
        }
        low
    }

    /// Returns the better of an offer and that of a piece, if it may be filled.
    fn better(
        &self,
        yard: &Yard,
        best: Option<Offer>,
        number: usize,
        sight: Sight,
    ) -> Option<Offer> {
        let Some(piece) = piece_at(self.pieces.as_slice(), number) else {
            return best;
        };
        let offer = self.offer(number, piece, sight.rear, sight.front);
        if offer.cost < cost_of(best)
            && piece.may_fill(yard.site(), sight.rear.y.wrapping_sub(1), sight.float)
        {
            return Some(offer);
        }
        best
    }

    /// Returns whether each piece of a piece's column, or of a farther one, costs no less than an offer.
    fn is_too_far(&self, best: Option<Offer>, piece: Piece, x: i16) -> bool {
        let away = apart(piece.x, x);
        let least = moves(away.wrapping_sub(1).max(0)).wrapping_mul(4);
        least.wrapping_add(away.min(3)) >= cost_of(best)
    }

    /// Returns whether a voxel of a piece's row may be filled.
    fn has_some_at(&self, yard: &Yard, piece: Piece, sight: Sight) -> bool {
        let y = sight.rear.y.wrapping_sub(1);
        yard.site().may_fill_in_row(piece.x, y, sight.float)
    }

    /// Returns the nearest job of the pieces from the bots' column on.
    fn nearest_on(&mut self, yard: &Yard, from: usize, sight: Sight) -> Option<Offer> {
        let mut best = None;
        let mut number = from;
        for _ in from..self.pieces.len() {
            let Some(piece) = piece_at(self.pieces.as_slice(), number) else {
                break;
            };
            if self.is_too_far(best, piece, sight.rear.x) {
                break;
            }
            self.count(1);
            if self.has_some_at(yard, piece, sight) {
                best = self.better(yard, best, number, sight);
                number = number.wrapping_add(1);
            } else {
                number = self.first_from(piece.x.wrapping_add(1));
            }
        }
        best
    }

    /// Returns the nearest job; a piece before an index only if it costs less than an offer.
    fn nearest_back(
        &mut self,
        yard: &Yard,
        to: usize,
        sight: Sight,
        other: Option<Offer>,
    ) -> Option<Offer> {
        let mut best = other;
        let mut end = to;
        for _ in 0..to {
            let number = end.wrapping_sub(1);
            let Some(piece) = piece_at(self.pieces.as_slice(), number) else {
                break;
            };
            if self.is_too_far(best, piece, sight.rear.x) {
                break;
            }
            self.count(1);
            if self.has_some_at(yard, piece, sight) {
                best = self.better(yard, best, number, sight);
                end = number;
            } else {
                end = self.first_from(piece.x);
            }
        }
        best
    }

    /// Returns the nearest job.
    fn nearest(&mut self, yard: &Yard, mate: u8, float: bool) -> Option<Offer> {
        let sight = Sight {
            rear: yard.spot(self.lead),
            front: yard.spot(mate),
            float,
        };
        let from = self.first_from(sight.rear.x);
        let best = self.nearest_on(yard, from, sight);
        self.nearest_back(yard, from, sight, best)
    }

    /// Returns the single-voxel piece in the job's lane that the other bot can fill at the same time, with the shortest path.
    fn second(&mut self, yard: &Yard, mate: u8, job: Job, float: bool) -> Option<usize> {
        let (rear, front) = (yard.spot(self.lead).z, yard.spot(mate).z);
        let lane = self.strip.lane(self.strip.lane_of(job.x));
        let y = self.layer();
        let mut best: Option<usize> = None;
        let mut least = i16::MAX;
        for number in self.first_from(lane.low)..self.pieces.len() {
            let Some(piece) = piece_at(self.pieces.as_slice(), number) else {
                break;
            };
            if piece.x > lane.high {
                break;
            }
            self.count(1);
            let z = piece.first;
            let (is_beyond, way) = match job.rear_column {
                Some(_) => (z > job.rear, apart(z, front)),
                None => (z < job.front, apart(z, rear)),
            };
            let serves = piece.is_single() && is_beyond && way < least;
            if serves && piece.may_fill(yard.site(), y, float) {
                best = Some(number);
                least = way;
            }
        }
        best
    }

    /// Removes a piece from the list.
    fn take(&mut self, number: usize) {
        if number < self.pieces.len() {
            let _ = self.pieces.remove(number);
        }
    }

    /// Returns the job with a voxel for the other bot, if there is one.
    fn with_second(&mut self, yard: &Yard, mate: u8, job: Job, float: bool) -> Job {
        let mut job = job;
        if job.run {
            return job;
        }
        let Some(number) = self.second(yard, mate, job, float) else {
            return job;
        };
        if let Some(piece) = piece_at(self.pieces.as_slice(), number) {
            if job.rear_column.is_some() {
                job.front_column = Some(piece.x);
                job.front = piece.first;
            } else {
                job.rear_column = Some(piece.x);
                job.rear = piece.first;
            }
            self.take(number);
        }
        job
    }

    /// Lists the pieces of the squad's layer, unless they are listed.
    fn list(&mut self, yard: &Yard) -> Result<(), Memory> {
        let y = self.layer();
        if self.listed != y {
            self.pieces.clear();
            let strip = self.strip;
            list_layer(&mut self.pieces, yard.site(), strip, y)?;
            let columns = usize::from(strip.high.wrapping_sub(strip.low).unsigned_abs());
            self.count(columns.saturating_mul(yard.site().width()));
            self.listed = y;
        }
        Ok(())
    }

    /// Returns the current job, or the nearest one.
    fn choose_job(&mut self, yard: &Yard, mate: u8, float: bool) -> Option<Job> {
        if let Some(job) = self.job {
            return Some(job);
        }
        let offer = self.nearest(yard, mate, float)?;
        self.take(offer.piece);
        let job = self.with_second(yard, mate, offer.job, float);
        self.job = Some(job);
        Some(job)
    }

    /// Fills a run with both bots.
    fn fill_run(&mut self, yard: &mut Yard, mate: u8, job: Job) {
        let column = match job.rear_column {
            Some(column) => column,
            None => job.x,
        };
        let d = down_to(column, job.x);
        let length = job.front.wrapping_sub(job.rear);
        yard.order(self.lead, Task::Run(d, length));
        yard.order(mate, Task::Run(d, length.wrapping_neg()));
        let y = self.layer();
        for z in job.rear..=job.front {
            yard.make(Spot { x: column, y, z });
            self.took(1);
        }
    }

    /// Fills a voxel with one bot, if the bot has one.
    fn fill_one(&mut self, yard: &mut Yard, number: u8, column: Option<i16>) {
        if let Some(x) = column {
            let below = yard.spot(number).below();
            yard.fill(number, Spot { x, ..below });
            self.took(1);
        }
    }

    /// Does the job from the positions of both bots.
    fn fill_job(&mut self, yard: &mut Yard, mate: u8, job: Job) {
        self.job = None;
        if job.run {
            self.fill_run(yard, mate, job);
        } else {
            self.fill_one(yard, self.lead, job.rear_column);
            self.fill_one(yard, mate, job.front_column);
        }
    }

    /// Moves both bots towards their positions for the job.
    fn approach(&mut self, yard: &mut Yard, mate: u8, job: Job) {
        let (rear, front) = (yard.spot(self.lead), yard.spot(mate));
        let dx = job.x.wrapping_sub(rear.x);
        let (back, on) = (
            job.rear.wrapping_sub(rear.z),
            job.front.wrapping_sub(front.z),
        );
        let is_short = apart(dx, 0) <= SHORT && apart(back, 0) <= SHORT && apart(on, 0) <= SHORT;
        if dx != 0 && is_short && rear.z.max(job.rear) < front.z.min(job.front) {
            yard.go(
                self.lead,
                Diff {
                    dx,
                    dy: 0,
                    dz: back,
                },
            );
            yard.go(mate, Diff { dx, dy: 0, dz: on });
        } else if dx != 0 {
            let d = Diff {
                dx: stride(dx),
                ..nowhere()
            };
            yard.go(self.lead, d);
            yard.go(mate, d);
        } else {
            self.part(yard, mate, stride(back), stride(on));
        }
    }

    /// Moves both bots along z, or first the one that makes room for the other.
    fn part(&mut self, yard: &mut Yard, mate: u8, back: i16, on: i16) {
        let (rear, front) = (yard.spot(self.lead).z, yard.spot(mate).z);
        let (to_rear, to_front) = (rear.wrapping_add(back), front.wrapping_add(on));
        if rear.max(to_rear) < front.min(to_front) {
            yard.go(self.lead, along(back));
            yard.go(mate, along(on));
        } else if to_front > rear && on != 0 {
            yard.go(mate, along(on));
        } else {
            yard.go(self.lead, along(back));
        }
    }

    /// Moves both bots home, to the first rows, and fuses them there.
    pub(crate) fn gather_two(&mut self, yard: &mut Yard, mate: u8) {
        let (rear, front) = (yard.spot(self.lead).z, yard.spot(mate).z);
        if rear == 0 && front == 1 {
            yard.order(self.lead, Task::FuseAsPrimary(along(1), mate, 0));
            yard.order(mate, Task::FuseAsSecondary(along(-1)));
            self.mate = None;
            return;
        }
        let back = stride(rear.wrapping_neg());
        let on = stride(front.wrapping_neg().wrapping_add(1));
        self.part(yard, mate, back, on);
    }

    /// Forgets the current job, and has the pieces listed again in the next turn.
    pub(crate) fn reconsider(&mut self) {
        self.listed = -1;
        self.job = None;
    }

    /// Fills voxels of the current job, or moves towards some that may be filled. Returns whether a bot acts.
    pub(crate) fn build_by_two(
        &mut self,
        yard: &mut Yard,
        mate: u8,
        float: bool,
    ) -> Result<bool, Memory> {
        self.list(yard)?;
        let Some(job) = self.choose_job(yard, mate, float) else {
            return Ok(false);
        };
        let (rear, front) = (yard.spot(self.lead), yard.spot(mate));
        if rear.x == job.x && rear.z == job.rear && front.z == job.front {
            self.fill_job(yard, mate, job);
        } else {
            self.approach(yard, mate, job);
        }
        Ok(true)
    }
}
