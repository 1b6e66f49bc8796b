//! Crews of `bot_crew`: seeds that are given out and returned, and the positions of bots.
use bot_crew::{Crew, seeds_of};
use nano_spec::{Bot, Profile};
use std::process::Abort;
use vox_geom::Coord;

const ORIGIN: Coord = Coord { x: 0, y: 0, z: 0 };

const BESIDE: Coord = Coord { x: 1, y: 0, z: 0 };

const ABOVE: Coord = Coord { x: 0, y: 1, z: 0 };

const CORNER: Coord = Coord { x: 1, y: 1, z: 0 };

fn bot(bid: u8, pos: Coord, seeds: u64) -> Bot {
    Bot { bid, pos, seeds }
}

/// A bot gives `m` seeds to a new bot at a free coordinate.
fn split(rt: &impl Abort, crew: &mut Crew, bid: u8, c: Coord, m: u8) {
    let bot = crew.bot(bid).expect(rt, "the bot is active");
    assert!(rt; seeds_of(bot) > m);
    assert!(rt; crew.at(c).is_none());
    crew.fission(bid, c, m);
}

/// The primary fuses with the secondary.
fn join(rt: &impl Abort, crew: &mut Crew, primary: u8, secondary: u8) {
    assert!(rt; crew.bot(primary).is_some());
    assert!(rt; crew.bot(secondary).is_some());
    assert!(rt; primary != secondary);
    crew.fusion(primary, secondary);
}

/// A bot moves to a free coordinate.
fn go(rt: &impl Abort, crew: &mut Crew, bid: u8, c: Coord) {
    assert!(rt; crew.bot(bid).is_some());
    assert!(rt; crew.at(c).is_none());
    crew.move_to(bid, c);
}

/// The only bot halts.
fn halt(rt: &impl Abort, crew: &mut Crew) {
    assert!(rt; crew.count() == 1);
    crew.halt();
    assert!(rt; crew.count() == 0);
}

/// Asserts the bots, also of a copy.
fn assert_bots(rt: &impl Abort, crew: &Crew, bots: &[Bot]) {
    assert_eq!(rt; crew.bots(), bots);
    assert_eq!(rt; crew.copy().bots(), bots);
}

/// Asserts that the bot with this bid, or none, is at a coordinate.
fn assert_stands(rt: &impl Abort, crew: &Crew, c: Coord, bid: Option<u8>) {
    assert_eq!(rt; crew.at(c), bid);
}

/// Asserts the bot with a bid, or that there is none.
fn assert_bot(rt: &impl Abort, crew: &Crew, bid: u8, bot: Option<Bot>) {
    assert_eq!(rt; crew.bot(bid), bot);
}

/// All seeds of the only bot go to a new one, which moves, and are returned.
fn lend_all(rt: &impl Abort, crew: &mut Crew, all: Bot) {
    assert_bots(rt, crew, &[all]);
    split(rt, crew, 1, BESIDE, 38);
    let two = [bot(1, ORIGIN, 0), bot(2, BESIDE, 0x01FF_FFFF_FFF8)];
    assert_bots(rt, crew, &two);
    assert_stands(rt, crew, BESIDE, Some(2));
    go(rt, crew, 2, CORNER);
    assert_stands(rt, crew, BESIDE, None);
    assert_stands(rt, crew, CORNER, Some(2));
    join(rt, crew, 1, 2);
    assert_bot(rt, crew, 1, Some(all));
    assert_bot(rt, crew, 2, None);
    halt(rt, crew);
}

#[test]
fn all_seeds_go_and_come_back(rt: HostRuntime) {
    let mut crew = Crew::opening(Profile::full());
    lend_all(&rt, &mut crew, bot(1, ORIGIN, 0x01FF_FFFF_FFFC));
}

/// One bot becomes four, of which two fuse.
fn grow(rt: &impl Abort, crew: &mut Crew) {
    split(rt, crew, 1, BESIDE, 5);
    split(rt, crew, 1, ABOVE, 0);
    split(rt, crew, 2, CORNER, 1);
    let first = bot(1, ORIGIN, 0x001F_FE00);
    let second = bot(2, BESIDE, 0b1110_0000);
    let third = bot(3, CORNER, 0b0001_0000);
    assert_bots(rt, crew, &[first, second, third, bot(8, ABOVE, 0)]);
    assert!(rt; seeds_of(second) == 3);
    join(rt, crew, 8, 2);
    assert_bots(rt, crew, &[first, third, bot(8, ABOVE, 0b1110_0100)]);
}

#[test]
fn a_new_bot_stands_at_the_place_of_its_bid(rt: HostRuntime) {
    let mut crew = Crew::opening(Profile::light());
    grow(&rt, &mut crew);
}
