//! Runs.
use crate::table::{Row, assert_rows};
use nanobot_app::Status;
use std::test::Fail;

/// Runs that end in their target.
pub const ACCEPTED: [Row; 14] = [
    (
        "run E3 E3 B",
        &[0xFF],
        Status::Done,
        "ok energy 101 steps 1\n",
    ),
    (
        "run - P3 B",
        &[0x14, 0x10, 0x73, 0x14, 0x0E, 0xFF],
        Status::Done,
        "ok energy 420 steps 4\n",
    ),
    (
        "run P3 P3 B",
        &[0x14, 0x10, 0x73, 0x14, 0x0E, 0xFF],
        Status::Done,
        "ok energy 414 steps 4\n",
    ),
    (
        "run - TOWER B",
        &[
            0xFD, 0x14, 0x10, 0x24, 0x10, 0x73, 0x5B, 0xFD, 0x24, 0x0E, 0x14, 0x0E, 0xFF,
        ],
        Status::Done,
        "ok energy 10580 steps 9\n",
    ),
    (
        "run E1 - B",
        &[0xFF],
        Status::Done,
        "ok energy 23 steps 1\n",
    ),
    (
        "run - WP B",
        &[0x14, 0x10, 0x73, 0x14, 0x0E, 0xFF],
        Status::Done,
        "ok energy 189759108 steps 4\n",
    ),
    (
        "run WIDE - B",
        &[0xFF],
        Status::Done,
        "ok energy 192000020 steps 1\n",
    ),
    (
        "run E3 E3 B",
        &[0x75, 0x26, 0x77, 0x66, 0xFF],
        Status::Done,
        "ok energy 323 steps 3\n",
    ),
    (
        "run E3 E3 B",
        &[0x75, 0x00, 0xFD, 0xFD, 0x77, 0x66, 0xFF],
        Status::Done,
        "ok energy 444 steps 4\n",
    ),
    (
        "run E3 E3 B",
        &[0x9C, 0x66, 0x9C, 0x44, 0xFF],
        Status::Done,
        "ok energy 319 steps 3\n",
    ),
    (
        "run - LINE B",
        &[
            0x75, 0x00, 0xFE, 0x34, 0x11, 0xB9, 0x1E, 0x1E, 0x20, 0xB1, 0x1E, 0x1E, 0x1C, 0xFE,
            0x34, 0x0D, 0x77, 0x66, 0xFF,
        ],
        Status::Done,
        "ok energy 2494 steps 6\n",
    ),
    (
        "run LINE - B",
        &[
            0x75, 0x00, 0xFE, 0x34, 0x11, 0xB8, 0x1E, 0x1E, 0x20, 0xB0, 0x1E, 0x1E, 0x1C, 0xFE,
            0x34, 0x0D, 0x77, 0x66, 0xFF,
        ],
        Status::Done,
        "ok energy 2422 steps 6\n",
    ),
    (
        "run E3 E3 B",
        &[0xBA, 0xFF],
        Status::Done,
        "ok energy 205 steps 2\n",
    ),
    (
        "run POSTS ARCH B",
        &[0xBA, 0xFF],
        Status::Done,
        "ok energy 778 steps 2\n",
    ),
];

/// Runs that break a rule.
pub const BROKEN: [Row; 21] = [
    (
        "run P3 - B",
        &[0xFF],
        Status::Broken,
        "broken 14 WrongResult step 1 bid 0 at 1 0 1\n",
    ),
    (
        "run E3 E3 B",
        &[],
        Status::Broken,
        "broken 1 TraceEnds step 1 bid 1 at 0 0 0\n",
    ),
    (
        "run E3 E3 B",
        &[0xFE],
        Status::Broken,
        "broken 1 TraceEnds step 2 bid 1 at 0 0 0\n",
    ),
    (
        "run E4 E4 B",
        &[0x14, 0x10, 0x24, 0x10, 0x73, 0xFF],
        Status::Broken,
        "broken 12 Ungrounded step 3 bid 0 at 1 1 1\n",
    ),
    (
        "run - TOWER B",
        &[
            0xFD, 0x14, 0x10, 0x24, 0x10, 0x73, 0xFD, 0x24, 0x0E, 0x14, 0x0E, 0xFF,
        ],
        Status::Broken,
        "broken 12 Ungrounded step 5 bid 0 at 1 1 1\n",
    ),
    (
        "run E3 E3 B",
        &[0xFD, 0xFF],
        Status::Broken,
        "broken 4 HaltLow step 2 bid 1 at 0 0 0\n",
    ),
    (
        "run E3 E3 B",
        &[0x14, 0x10, 0xFF],
        Status::Broken,
        "broken 3 HaltOrigin step 2 bid 1 at 1 0 0\n",
    ),
    (
        "run E3 E3 B",
        &[0xFF, 0xFE],
        Status::Broken,
        "broken 13 AfterHalt step 1 bid 0 at 0 0 0\n",
    ),
    (
        "run - P3 B",
        &[0xFF],
        Status::Broken,
        "broken 14 WrongResult step 1 bid 0 at 1 0 1\n",
    ),
    (
        "run E3 E3 B",
        &[0x14, 0x0E],
        Status::Broken,
        "broken 5 OutOfSpace step 1 bid 1 at 0 0 0\n",
    ),
    (
        "run P3 P3 B",
        &[0x14, 0x10, 0x34, 0x11],
        Status::Broken,
        "broken 6 Blocked step 2 bid 1 at 1 0 1\n",
    ),
    (
        "run P3 - B",
        &[0x14, 0x10, 0x34, 0x11],
        Status::Broken,
        "broken 6 Blocked step 2 bid 1 at 1 0 1\n",
    ),
    (
        "run E4 E4 B",
        &[0x75, 0x00, 0xB3, 0xAB],
        Status::Broken,
        "broken 11 Interference step 2 bid 1 at 1 0 0\n",
    ),
    (
        "run E3 E3 B",
        &[0x75, 0x00, 0x34, 0x10, 0x34, 0x0E],
        Status::Broken,
        "broken 11 Interference step 2 bid 1 at 0 0 0\n",
    ),
    (
        "run E3 E3 B",
        &[0x75, 0x27],
        Status::Broken,
        "broken 7 Seeds step 1 bid 1 at 0 0 0\n",
    ),
    (
        "run - LINE B",
        &[0xB9, 0x1E, 0x1E, 0x20],
        Status::Broken,
        "broken 10 GroupShape step 1 bid 1 at 0 0 0\n",
    ),
    (
        "run - LINE B",
        &[0x75, 0x00, 0xB9, 0x1E, 0x1E, 0x20, 0xB1, 0x1E, 0x1E, 0x20],
        Status::Broken,
        "broken 10 GroupShape step 2 bid 1 at 0 0 0\n",
    ),
    (
        "run RING - B",
        &[0xBA, 0xFF],
        Status::Broken,
        "broken 12 Ungrounded step 1 bid 0 at 1 1 1\n",
    ),
    (
        "run E3 E3 B",
        &[0x75, 0x00, 0xFF, 0xFF],
        Status::Broken,
        "broken 2 HaltAlone step 2 bid 1 at 0 0 0\n",
    ),
    (
        "run E3 E3 B",
        &[0x71, 0x1E, 0x1E, 0x1D],
        Status::Broken,
        "broken 8 InRegion step 1 bid 1 at 0 0 0\n",
    ),
    (
        "run E3 E3 B",
        &[0x77],
        Status::Broken,
        "broken 9 Partner step 1 bid 1 at 0 0 0\n",
    ),
];

/// Refused traces and arguments. A bad byte takes precedence over a broken step.
pub const REFUSED: [Row; 14] = [
    ("run E3 E3 B", &[0x04], Status::Trace, "trace bad at 0\n"),
    ("run E3 E3 B", &[0x03], Status::Trace, "trace bad at 0\n"),
    ("run E3 E3 B", &[0x14], Status::Trace, "trace cut at 0\n"),
    (
        "run E3 E3 B",
        &[0x77, 0x04],
        Status::Trace,
        "trace bad at 1\n",
    ),
    (
        "run E3 E3 B",
        &[0x14, 0x0E, 0x04],
        Status::Trace,
        "trace bad at 2\n",
    ),
    ("run E3 E4 B", &[0xFF], Status::Model, "resolutions 3 4\n"),
    (
        "run B E3 B",
        &[0x03, 0x01, 0x00, 0x00, 0x00],
        Status::Model,
        "source 6 Border at 0 0 0\n",
    ),
    (
        "run B B P3",
        &[0x00],
        Status::Model,
        "source 2 Resolution 0\n",
    ),
    (
        "run - B B",
        &[0x03, 0x00, 0x20, 0x00, 0x00],
        Status::Model,
        "target 7 Floating at 1 1 1\n",
    ),
    ("run - - B", &[], Status::Words, "words not understood\n"),
    ("run E3 E3 -", &[], Status::Words, "words not understood\n"),
    ("run A B", &[], Status::Words, "words not understood\n"),
    ("plan", &[], Status::Words, "words not understood\n"),
    ("", &[], Status::Words, "words not understood\n"),
];

/// Runs under the light profile.
const LIGHT: [Row; 5] = [
    (
        "run light - P3 B",
        &[0x14, 0x10, 0x73, 0x14, 0x0E, 0xFF],
        Status::Done,
        "ok energy 420 steps 4\n",
    ),
    (
        "run light E3 E3 B",
        &[0x75, 0x12, 0x77, 0x66, 0xFF],
        Status::Done,
        "ok energy 323 steps 3\n",
    ),
    (
        "run light E3 E3 B",
        &[0x75, 0x13],
        Status::Broken,
        "broken 7 Seeds step 1 bid 1 at 0 0 0\n",
    ),
    (
        "run light E3 E3 B",
        &[0x71, 0x1E, 0x1E, 0x1D],
        Status::Broken,
        "broken 15 Forbidden step 1 bid 1 at 0 0 0\n",
    ),
    (
        "run light POSTS ARCH B",
        &[0xBA, 0xFF],
        Status::Broken,
        "broken 15 Forbidden step 1 bid 1 at 0 0 0\n",
    ),
];

#[test]
fn runs_that_end_in_their_target(rt: HostRuntime) -> Result<(), Fail> {
    assert_rows(&rt, rt.alloc(), &ACCEPTED)
}

#[test]
fn runs_that_break_a_rule(rt: HostRuntime) -> Result<(), Fail> {
    assert_rows(&rt, rt.alloc(), &BROKEN)
}

#[test]
fn traces_and_words_that_are_refused(rt: HostRuntime) -> Result<(), Fail> {
    assert_rows(&rt, rt.alloc(), &REFUSED)
}

#[test]
fn runs_under_the_light_profile(rt: HostRuntime) -> Result<(), Fail> {
    assert_rows(&rt, rt.alloc(), &LIGHT)
}
