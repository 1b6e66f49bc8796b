//! A bot's action in a step, in coordinates, by `step_groups`. That it follows the contract is proved; these rows show that it
//! follows the formats.
use crate::common::{at, far, long, near};
use nano_spec::{Bot, Command};
use std::process::Abort;
use std::test::Fail;
use step_groups::{Deed, deed_of};
use vox_geom::{Diff, Short};

/// Returns the short difference along x.
fn along_x(rt: &impl Abort, dx: i16) -> Short {
    Short::of(Diff { dx, dy: 0, dz: 0 }).expect(rt, "short")
}

/// Returns the action of the bot at 2 1 3 in a matrix of resolution 5.
fn does(command: Command) -> Option<Deed> {
    let bot = Bot {
        bid: 1,
        pos: at(2, 1, 3),
        seeds: 0,
    };
    deed_of(5, bot, &command)
}

#[test]
fn a_bot_moves_straight_or_by_way_of_a_middle(rt: HostRuntime) -> Result<(), Fail> {
    let straight = does(Command::SMove(long(&rt, 0, 0, -3)));
    assert_eq!(rt; straight, Some(Deed::Moves { to: at(2, 1, 0) }));
    let twice = does(Command::LMove(along_x(&rt, 2), along_x(&rt, -4)));
    let bends = Deed::Bends {
        middle: at(4, 1, 3),
        to: at(0, 1, 3),
    };
    assert_eq!(rt; twice, Some(bends));
    Ok(())
}

#[test]
fn a_bot_edits_between_corners(rt: HostRuntime) -> Result<(), Fail> {
    let voids = does(Command::GVoid(near(&rt, 0, -1, 0), far(&rt, -2, 4, 1)));
    let region = Deed::Edits {
        near: at(2, 0, 3),
        far: at(0, 4, 4),
        full: false,
        together: true,
    };
    assert_eq!(rt; voids, Some(region));
    let fills = does(Command::Fill(near(&rt, 1, 0, 1)));
    let voxel = Deed::Edits {
        near: at(3, 1, 4),
        far: at(3, 1, 4),
        full: true,
        together: false,
    };
    assert_eq!(rt; fills, Some(voxel));
    Ok(())
}

#[test]
fn a_coordinate_out_of_space_is_no_deed(rt: HostRuntime) -> Result<(), Fail> {
    let near_corner = does(Command::Fill(near(&rt, 0, 0, 1)));
    assert!(rt; near_corner.is_some());
    let far_corner = does(Command::GFill(near(&rt, 0, 0, 1), far(&rt, 0, 0, 1)));
    assert!(rt; far_corner.is_none());
    let middle = does(Command::LMove(along_x(&rt, 3), along_x(&rt, -3)));
    assert!(rt; middle.is_none());
    Ok(())
}
