//! Squads of four bots that take a model down at the corners of tiles, each in a strip of columns of its own, by slabs of several
//! layers.
use crate::descents::{Descent, Rows, Stroke, descent_of, longest, some_are_ragged, stroke_of};
use crate::site::Site;
use crate::spots::{Spot, nowhere, share};
use crate::strips::Strip;
use crate::tasks::Task;
use crate::team::Team;
use crate::yard::{Goal, Yard};
use nano_spec::CommandList;
use std::alloc::Global;
use vox_geom::{Diff, Memory};
use vox_planes::Planes;

/// The most squads of four.
const MOST_SQUADS: i16 = 10;

/// The most bots.
const MOST_BOTS: u8 = 40;

/// More turns than a useful plan takes.
const MOST_TURNS: usize = 1_073_741_824;

/// The manner in which squads of four take a model down, or build it by the same backwards: the layers of a slab, whether x and z
/// are exchanged, whether the model is built, and the limit of steps.
#[derive(Clone, Copy, Debug)]
pub struct Slabs {
    pub thick: u16,
    pub turned: bool,
    pub up: bool,
    pub most: u64,
}

/// The extent of the full voxels, at least two wide and two long.
#[derive(Clone, Copy)]
struct Area {
    low: Spot,
    high: Spot,
}

/// The four bots of a squad: at the least corner, next to it along x, next to it along z, and opposite.
#[derive(Clone, Copy)]
struct Quad {
    strip: Strip,
    first: u8,
    beside: u8,
    behind: u8,
    opposite: u8,
}

/// The goal of a bot along one axis.
#[derive(Clone, Copy)]
enum Heading {
    Column(i16),
    Height(i16),
    Row(i16),
}

impl Area {
    /// Returns the area extended by the full voxels of a row along z.
    fn with_row(self, site: &Site, x: i16, y: i16) -> Area {
        let Area { mut low, mut high } = self;
        for z in 0..site.side() {
            if site.is_target(Spot { x, y, z }) {
                low = Spot {
                    x: low.x.min(x),
                    y: low.y.min(y),
                    z: low.z.min(z),
                };
                high = Spot {
                    x: high.x.max(x),
                    y: high.y.max(y),
                    z: high.z.max(z),
                };
            }
        }
        Area { low, high }
    }

    /// Returns the area extended by the full voxels of the columns of one x.
    fn with_columns(self, site: &Site, x: i16) -> Area {
        let mut area = self;
        for y in 0..site.side() {
            area = area.with_row(site, x, y);
        }
        area
    }
}

/// Returns the extent of the full voxels.
fn area_of(site: &Site) -> Area {
    let side = site.side();
    let low = Spot {
        x: side,
        y: side,
        z: side,
    };
    let high = Spot::home();
    let mut area = Area { low, high };
    for x in 0..side {
        area = area.with_columns(site, x);
    }
    area.high.x = area.high.x.max(area.low.x.wrapping_add(1));
    area.high.z = area.high.z.max(area.low.z.wrapping_add(1));
    area
}

/// Returns strips of columns, all about equally wide, at least two and at most a tile wide.
fn strips_of(alloc: Global, area: Area) -> Result<Vec<Strip>, Memory> {
    let columns = area.high.x.wrapping_sub(area.low.x).wrapping_add(1);
    let count = (columns / 2).min(MOST_SQUADS).max(1);
    let mut strips = Vec::new(alloc);
    for k in 0..count {
        let low = share(columns.wrapping_mul(k), count);
        let end = share(columns.wrapping_mul(k.wrapping_add(1)), count);
        let strip = Strip {
            low: area.low.x.wrapping_add(low),
            high: area.low.x.wrapping_add(end).wrapping_sub(1),
            wide: 1,
        };
        strips.push(strip).map_err(|_| Memory)?;
    }
    Ok(strips)
}

/// Returns a difference along x.
fn along_x(dx: i16) -> Diff {
    Diff { dx, ..nowhere() }
}

/// Returns a difference along z.
fn along_z(dz: i16) -> Diff {
    Diff { dz, ..nowhere() }
}

/// Returns the task that voids the tile below, for a bot at the corner from which the tile extends this far along x and z.
fn void_below(dx: i16, dz: i16) -> Task {
    Task::VoidPlane(
        Diff {
            dy: -1,
            ..nowhere()
        },
        dx,
        dz,
    )
}

impl Quad {
    /// Performs a stroke: all four move alike, the two behind move, or all void the tile of this length below.
    fn act(self, yard: &mut Yard, stroke: Stroke) {
        match stroke {
            Stroke::Move(d) => {
                yard.go(self.first, d);
                yard.go(self.beside, d);
                yard.go(self.behind, d);
                yard.go(self.opposite, d);
            }
            Stroke::Stretch(d) => {
                yard.go(self.behind, d);
                yard.go(self.opposite, d);
            }
            Stroke::Void(far) => {
                let wide = self.strip.high.wrapping_sub(self.strip.low);
                let (left, back) = (wide.wrapping_neg(), far.wrapping_neg());
                yard.order(self.first, void_below(wide, far));
                yard.order(self.beside, void_below(left, far));
                yard.order(self.behind, void_below(wide, back));
                yard.order(self.opposite, void_below(left, back));
            }
        }
    }
}

/// A leg of all squads: up from the floor, apart along x, apart along z, to their first tile, and back.
#[derive(Clone, Copy)]
enum Leg {
    Rise,
    Widen,
    Lengthen,
    Advance,
    Return,
    Shorten,
    Narrow,
    Descend,
}

/// Returns the goal from a position.
fn aim_at(at: Spot, aim: Heading) -> Spot {
    match aim {
        Heading::Column(x) => Spot { x, ..at },
        Heading::Height(y) => Spot { y, ..at },
        Heading::Row(z) => Spot { z, ..at },
    }
}

/// The squads of four, with their common data.
#[derive(Drop)]
struct Quads {
    team: Team,
    quads: Vec<Quad>,
    rows: Rows,
    top: i16,
}

impl Quads {
    /// Starts with squads of one bot each, on the floor under High.
    fn begin(alloc: Global, source: &Planes, manner: Slabs) -> Result<Quads, Memory> {
        let yard = Yard::begin(alloc, source, MOST_BOTS, manner.turned, manner.up)?;
        let area = area_of(yard.site());
        let strips = strips_of(alloc, area)?;
        let mut team = Team::over(alloc, yard, strips.as_slice(), 4)?;
        team.yard.flip()?;
        let mut quads = Vec::new(alloc);
        for troop in team.spread(alloc)?.as_slice() {
            if let Some(strip) = strips.as_slice().get(troop.low) {
                let quad = Quad {
                    strip: *strip,
                    first: team.lead(troop.low),
                    beside: troop.seed,
                    behind: troop.seed.wrapping_add(2),
                    opposite: troop.seed.wrapping_add(1),
                };
                quads.push(quad).map_err(|_| Memory)?;
            }
        }
        Ok(Quads {
            team,
            quads,
            rows: Rows::over(area.low.z, area.high.z, manner.up),
            top: area.high.y,
        })
    }

    /// Returns the bots of a squad that move, twice the same if only one does, and their goal.
    fn aim_of(&self, quad: Quad, leg: Leg) -> (u8, u8, Heading) {
        let end = self.rows.first.wrapping_add(self.rows.far(0));
        let beside = quad.strip.low.wrapping_add(1);
        match leg {
            Leg::Rise => (
                quad.first,
                quad.first,
                Heading::Height(self.top.wrapping_add(1)),
            ),
            Leg::Widen => (quad.beside, quad.opposite, Heading::Column(quad.strip.high)),
            Leg::Lengthen => (quad.behind, quad.opposite, Heading::Row(end)),
            Leg::Advance => (quad.first, quad.beside, Heading::Row(self.rows.first)),
            Leg::Return => (quad.first, quad.beside, Heading::Row(0)),
            Leg::Shorten => (quad.behind, quad.opposite, Heading::Row(1)),
            Leg::Narrow => (quad.beside, quad.beside, Heading::Column(beside)),
            Leg::Descend => (quad.first, quad.first, Heading::Height(0)),
        }
    }

    /// Returns the goals of the bots of all squads.
    fn goals(&self, alloc: Global, leg: Leg) -> Result<Vec<Goal>, Memory> {
        let mut goals = Vec::new(alloc);
        for quad in self.quads.as_slice() {
            let (one, other, aim) = self.aim_of(*quad, leg);
            let to = aim_at(self.team.yard.spot(one), aim);
            goals.push(Goal { bot: one, to }).map_err(|_| Memory)?;
            if other != one {
                let to = aim_at(self.team.yard.spot(other), aim);
                goals.push(Goal { bot: other, to }).map_err(|_| Memory)?;
            }
        }
        Ok(goals)
    }

    /// Moves all squads along a leg.
    fn go(&mut self, alloc: Global, leg: Leg) -> Result<(), Memory> {
        let goals = self.goals(alloc, leg)?;
        self.team.yard.go_all(goals.as_slice())
    }

    /// Returns the squad with an index.
    fn quad(&self, number: usize) -> Option<Quad> {
        match self.quads.get(number) {
            Some(quad) => Some(*quad),
            None => None,
        }
    }

    /// Splits the bot of each squad to the neighbor along x, and then both of them to one behind each.
    fn split(&mut self) -> Result<(), Memory> {
        for i in 0..self.quads.len() {
            if let Some(quad) = self.quad(i) {
                let task = Task::Split(along_x(1), quad.beside, 1);
                self.team.yard.order(quad.first, task);
            }
        }
        self.team.yard.step()?;
        for i in 0..self.quads.len() {
            if let Some(quad) = self.quad(i) {
                let at = self.team.yard.spot(quad.first).plus(along_x(1));
                self.team.yard.arrive(quad.beside, at);
                let task = Task::Split(along_z(1), quad.behind, 0);
                self.team.yard.order(quad.first, task);
                let task = Task::Split(along_z(1), quad.opposite, 0);
                self.team.yard.order(quad.beside, task);
            }
        }
        self.team.yard.step()?;
        self.arrive();
        Ok(())
    }

    /// Marks the bots behind the first ones as present.
    fn arrive(&mut self) {
        for i in 0..self.quads.len() {
            if let Some(quad) = self.quad(i) {
                let at = self.team.yard.spot(quad.first).plus(along_z(1));
                self.team.yard.arrive(quad.behind, at);
                let at = self.team.yard.spot(quad.beside).plus(along_z(1));
                self.team.yard.arrive(quad.opposite, at);
            }
        }
    }

    /// Fuses the two bots behind into those before them.
    fn close(&mut self) -> Result<(), Memory> {
        for i in 0..self.quads.len() {
            if let Some(quad) = self.quad(i) {
                let yard = &mut self.team.yard;
                yard.order(quad.first, Task::FuseAsPrimary(along_z(1), quad.behind, 0));
                yard.order(quad.behind, Task::FuseAsSecondary(along_z(-1)));
                yard.order(
                    quad.beside,
                    Task::FuseAsPrimary(along_z(1), quad.opposite, 0),
                );
                yard.order(quad.opposite, Task::FuseAsSecondary(along_z(-1)));
            }
        }
        self.team.yard.step()
    }

    /// Fuses the bot next to the first one of each squad into it.
    fn unite(&mut self) -> Result<(), Memory> {
        for i in 0..self.quads.len() {
            if let Some(quad) = self.quad(i) {
                let yard = &mut self.team.yard;
                yard.order(quad.first, Task::FuseAsPrimary(along_x(1), quad.beside, 1));
                yard.order(quad.beside, Task::FuseAsSecondary(along_x(-1)));
            }
        }
        self.team.yard.step()
    }

    /// Returns the descents of all squads.
    fn descents(&self, alloc: Global, thick: i16) -> Result<Vec<Descent>, Memory> {
        let mut descents = Vec::new(alloc);
        for quad in self.quads.as_slice() {
            let site = self.team.yard.site();
            let descent = descent_of(alloc, site, quad.strip, self.rows, self.top, thick)?;
            descents.push(descent).map_err(|_| Memory)?;
        }
        Ok(descents)
    }

    /// Performs a turn of all squads' descents, and returns whether one had any.
    fn take_turn(&mut self, descents: &[Descent], number: usize) -> bool {
        let mut acts = false;
        for i in 0..self.quads.len() {
            let (Some(quad), Some(stroke)) = (self.quad(i), stroke_of(descents, i, number)) else {
                continue;
            };
            quad.act(&mut self.team.yard, stroke);
            acts = true;
        }
        acts
    }

    /// Takes down the strips of all squads.
    fn work(&mut self, descents: &[Descent]) -> Result<(), Memory> {
        for number in 0..MOST_TURNS {
            if !self.take_turn(descents, number) {
                break;
            }
            self.team.yard.step()?;
        }
        Ok(())
    }
}

impl Quads {
    /// Returns the commands, once all bots have fused into one at home.
    fn finish(self) -> Result<CommandList, Memory> {
        let mut team = self.team;
        team.gather()?;
        team.yard.flip()?;
        team.yard.into_commands()
    }
}

/// Returns the commands of squads of four under High that void all of a model, each in a strip of columns, by slabs, or that build
/// it by the same backwards. Returns `None` if they take more steps than the manner allows, or if the model is to be built and
/// has a tile that is neither void nor all full.
pub fn slabs_by_squads(
    alloc: Global,
    source: &Planes,
    manner: Slabs,
) -> Result<Option<CommandList>, Memory> {
    let mut all = Quads::begin(alloc, source, manner)?;
    let descents = all.descents(alloc, manner.thick.min(1000) as i16)?;
    if longest(descents.as_slice()) > manner.most {
        return Ok(None);
    }
    if manner.up && some_are_ragged(descents.as_slice()) {
        return Ok(None);
    }
    all.go(alloc, Leg::Rise)?;
    all.split()?;
    all.go(alloc, Leg::Widen)?;
    all.go(alloc, Leg::Lengthen)?;
    all.go(alloc, Leg::Advance)?;
    all.work(descents.as_slice())?;
    all.go(alloc, Leg::Return)?;
    all.go(alloc, Leg::Shorten)?;
    all.close()?;
    all.go(alloc, Leg::Narrow)?;
    all.unite()?;
    all.go(alloc, Leg::Descend)?;
    Ok(Some(all.finish()?))
}
