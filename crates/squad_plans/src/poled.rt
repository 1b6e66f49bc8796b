//! Poles that one bot puts up under all overhanging parts of a model, before it is taken down.
use crate::clearing::clear_all;
use crate::poles::Pole;
use crate::yard::Yard;
use nano_spec::CommandList;
use std::alloc::Global;
use vox_geom::{Coord, Memory};
use vox_planes::Planes;

/// A model with poles, and the commands of one bot that puts them up and halts at home.
#[derive(Drop)]
pub struct Poled {
    pub commands: CommandList,
    pub planes: Planes,
}

/// Makes a voxel of a model full, if it is within the model.
fn fill(planes: &mut Planes, x: i16, y: i16, z: i16) {
    let r = planes.resolution();
    if x < 0 || y < 0 || z < 0 {
        return;
    }
    let c = Coord {
        x: x as u16,
        y: y as u16,
        z: z as u16,
    };
    if c.x < r && c.y < r && c.z < r {
        planes.set(c, true);
    }
}

/// Makes the voxels of a pole full.
fn fill_pole(planes: &mut Planes, pole: Pole) {
    for y in pole.foot.y..=pole.high {
        fill(planes, pole.foot.x, y, pole.foot.z);
    }
}

/// Returns the model with the voxels of all poles.
fn fill_poles(alloc: Global, source: &Planes, poles: &[Pole]) -> Result<Planes, Memory> {
    let mut planes = source.copy(alloc)?;
    for pole in poles {
        fill_pole(&mut planes, *pole);
    }
    Ok(planes)
}

/// Returns a model with a pole under each overhanging part. Returns `None` if there is no such part, if a part can get no pole, if
/// the bot does not reach one, or if that takes more steps than the limit.
pub fn with_poles(alloc: Global, source: &Planes, most: u64) -> Result<Option<Poled>, Memory> {
    let mut yard = Yard::begin(alloc, source, 1, false, true)?;
    let Some(poles) = yard.plant(alloc)? else {
        return Ok(None);
    };
    if poles.as_slice().is_empty() {
        return Ok(None);
    }
    yard.make_all();
    if !clear_all(alloc, &mut yard, poles.as_slice(), most)? {
        return Ok(None);
    }
    Ok(Some(Poled {
        commands: yard.into_commands()?,
        planes: fill_poles(alloc, source, poles.as_slice())?,
    }))
}
