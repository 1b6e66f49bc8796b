//! Removes poles with one bot, each from its top down.
use crate::air::Air;
use crate::poles::{Pole, SIDES};
use crate::routes::direct;
use crate::spots::{Spot, apart, nowhere, stride};
use crate::yard::Yard;
use std::alloc::Global;
use vox_geom::{Diff, Memory};

/// Returns the sides of a pole, its own first.
fn sides(pole: Pole) -> [(i16, i16); 5] {
    let [a, b, c, d] = SIDES;
    [pole.side, a, b, c, d]
}

/// Returns the distance of a pole from a bot.
fn distance(pole: Pole, at: Spot) -> i16 {
    apart(pole.foot.x, at.x)
        .wrapping_add(apart(pole.foot.z, at.z))
        .wrapping_add(apart(pole.high, at.y))
}

/// Returns whether a column is free from one height to another.
fn is_free(yard: &Yard, low: Spot, high: i16) -> bool {
    for y in low.y..=high {
        let c = Spot { y, ..low };
        if yard.site().number(c).is_none() || yard.site().is_made(c) {
            return false;
        }
    }
    true
}

/// Returns the moves between two voxels: along the axes, or by a search if something is in the way, within the limit of
/// searches.
fn way_around(
    alloc: Global,
    yard: &mut Yard,
    from: Spot,
    to: Spot,
) -> Result<Option<Vec<Diff>>, Memory> {
    let straight = direct(alloc, yard.site(), from, to)?;
    if straight.is_some() {
        return Ok(straight);
    }
    if !yard.may_search() {
        return Ok(None);
    }
    Air::way(alloc, yard.site(), from, to)
}

/// Moves the bot to a voxel, if there is a path, and returns whether it did.
pub(crate) fn go_around(alloc: Global, yard: &mut Yard, to: Spot) -> Result<bool, Memory> {
    let from = yard.spot(0);
    let Some(mut moves) = way_around(alloc, yard, from, to)? else {
        return Ok(false);
    };
    for _ in 0..moves.len() {
        if let Some(d) = moves.pop() {
            yard.go(0, d);
            yard.step()?;
        }
    }
    Ok(true)
}

/// Voids up to three voxels of a pole from its side: above, at the bot's height and below.
fn void_three(yard: &mut Yard, pole: Pole) -> Result<(), Memory> {
    let at = yard.spot(0);
    for dy in [1, 0, -1] {
        let c = Spot {
            y: at.y.wrapping_add(dy),
            ..pole.foot
        };
        if c.y >= pole.foot.y && c.y <= pole.high && yard.site().is_made(c) {
            yard.void(0, c);
            yard.step()?;
        }
    }
    Ok(())
}

/// Voids a pole from its side, from the top down.
fn void_pole(yard: &mut Yard, pole: Pole) -> Result<(), Memory> {
    for _ in 0..=pole.high.max(0) {
        void_three(yard, pole)?;
        let left = yard.spot(0).y.wrapping_sub(2);
        if left < pole.foot.y {
            break;
        }
        let next = left.wrapping_sub(1).max(pole.foot.y);
        let dy = stride(next.wrapping_sub(yard.spot(0).y));
        yard.go(0, Diff { dy, ..nowhere() });
        yard.step()?;
    }
    Ok(())
}

/// Moves the bot to the side of a pole, if there is a path, and removes the pole. Returns whether it did.
fn clear(alloc: Global, yard: &mut Yard, pole: Pole) -> Result<bool, Memory> {
    for (dx, dz) in sides(pole) {
        let beside = pole.foot.beside(dx, dz);
        if !is_free(yard, beside, pole.high) {
            continue;
        }
        let y = pole.high.wrapping_sub(1).max(pole.foot.y);
        if go_around(alloc, yard, Spot { y, ..beside })? {
            void_pole(yard, pole)?;
            return Ok(true);
        }
    }
    Ok(false)
}

/// Returns the index of the nearest pole not known to be out of reach.
fn nearest(poles: &[Pole], open: &[bool], at: Spot) -> Option<usize> {
    let mut best = None;
    let mut least = i16::MAX;
    for i in 0..poles.len() {
        if let (Some(pole), Some(true)) = (poles.get(i), open.get(i)) {
            let away = distance(*pole, at);
            if away < least {
                least = away;
                best = Some(i);
            }
        }
    }
    best
}

/// Removes all poles with the single bot, the nearest first. Returns whether that is possible within the limit of steps.
pub(crate) fn clear_all(
    alloc: Global,
    yard: &mut Yard,
    poles: &[Pole],
    most: u64,
) -> Result<bool, Memory> {
    let mut open = vec![in alloc; true; poles.len()]?;
    for _ in 0..poles.len() {
        let at = yard.spot(0);
        let Some(i) = nearest(poles, open.as_slice(), at) else {
            break;
        };
        let Some(pole) = poles.get(i) else {
            break;
        };
        if yard.steps() > most || !clear(alloc, yard, *pole)? {
            return Ok(false);
        }
        if let Some(it) = open.get_mut(i) {
            *it = false;
        }
    }
    go_around(alloc, yard, Spot::home())
}
