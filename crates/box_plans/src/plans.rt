//! A plan: the model is cut, its boxes are scheduled, and the steps are written, or undone.
use crate::blocks::CutBox;
use crate::clearing::clear_poles;
use crate::cut::cut_model;
use crate::manner::{BoxManner, CutStyle};
use crate::poles::plant_poles;
use crate::positions::HOME;
use crate::record::{MOST_BOTS, Writer};
use crate::schedule::Schedule;
use crate::site::BuildSite;
use crate::tiles::{cut_best_tiles, cut_tiles};
use nano_spec::CommandList;
use std::alloc::Global;
use vox_geom::Memory;
use vox_planes::Planes;

/// The boxes of a model in a manner.
fn pieces_of(alloc: Global, site: &BuildSite, manner: BoxManner) -> Result<Vec<CutBox>, Memory> {
    match manner.cutting {
        CutStyle::Exact(prices) => cut_model(alloc, site, prices),
        CutStyle::Tiles(width, shift) => cut_tiles(alloc, site, width, shift),
        CutStyle::BestTiles => cut_best_tiles(alloc, site),
    }
}

/// The number of bots besides the first one: fewer if the floor is small.
fn seeds_for(site: &BuildSite) -> u8 {
    let third = site.area() / 3;
    third.max(1).min(usize::from(MOST_BOTS)).saturating_sub(1) as u8
}

/// The steps of a crew that builds a model from nothing. None if it takes more steps than that, or more work than is worth it.
fn raise(
    alloc: Global,
    model: &Planes,
    manner: BoxManner,
    most: u64,
) -> Result<Option<Schedule>, Memory> {
    let mut site = BuildSite::of(alloc, model)?;
    let Some(poles) = plant_poles(alloc, &mut site)? else {
        return Ok(None);
    };
    let pieces = pieces_of(alloc, &site, manner)?;
    let any = match manner.cutting {
        CutStyle::Exact(_) => false,
        _ => true,
    };
    let kept = poles.len().saturating_mul(2);
    let seeds = seeds_for(&site);
    let mut schedule = Schedule::new(alloc, site, pieces.as_slice(), any, manner, kept)?;
    schedule.air.arrive(0, HOME, seeds);
    if !schedule.work(alloc, most)? {
        return Ok(None);
    }
    if !clear_poles(alloc, &mut schedule.air, poles.as_slice())? {
        return Ok(None);
    }
    if !schedule.air.gather()? {
        return Ok(None);
    }
    Ok(Some(schedule))
}

/// The commands of a crew that builds a model from nothing, or takes it down by the same backwards. None if that takes more steps than
/// `most`, or more work than is worth it. They promise nothing.
pub fn boxes(
    alloc: Global,
    model: &Planes,
    down: bool,
    manner: BoxManner,
    most: u64,
) -> Result<Option<CommandList>, Memory> {
    let Some(schedule) = raise(alloc, model, manner, most)? else {
        return Ok(None);
    };
    let air = schedule.air;
    let mut writer = Writer::begin(alloc, if down { air.first() } else { 0 })?;
    if down {
        writer.write_backwards(&air.record)?;
    } else {
        writer.write_forwards(&air.record)?;
    }
    Ok(Some(writer.into_commands()?))
}
