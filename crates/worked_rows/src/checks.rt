//! Checks of models.
use crate::table::{Row, assert_rows};
use nanobot_app::Status;
use std::test::Fail;

const CHECKED: [Row; 17] = [
    (
        "check B",
        &[0x03, 0x00, 0x00, 0x00, 0xF8],
        Status::Done,
        "legal resolution 3 full 0\n",
    ),
    ("check P3", &[], Status::Done, "legal resolution 3 full 1\n"),
    (
        "check WP",
        &[],
        Status::Done,
        "legal resolution 251 full 1\n",
    ),
    (
        "check B",
        &[0x03, 0x00, 0x00, 0x00, 0x00, 0x00],
        Status::Model,
        "model 4 Long want 5\n",
    ),
    (
        "check B",
        &[0x03, 0x00, 0x00, 0x00],
        Status::Model,
        "model 3 Short want 5 have 4\n",
    ),
    ("check B", &[0x00], Status::Model, "model 2 Resolution 0\n"),
    (
        "check B",
        &[0xFB],
        Status::Model,
        "model 2 Resolution 251\n",
    ),
    ("check B", &[], Status::Model, "model 1 NoByte\n"),
    (
        "check B",
        &[0x03, 0x01, 0x00, 0x00, 0x00],
        Status::Model,
        "model 6 Border at 0 0 0\n",
    ),
    (
        "check B",
        &[0x03, 0x00, 0x20, 0x00, 0x00],
        Status::Model,
        "model 7 Floating at 1 1 1\n",
    ),
    (
        "check B",
        &[0xFF],
        Status::Model,
        "model 8 WideHead have 1\n",
    ),
    (
        "check B",
        &[0xFF, 0x00],
        Status::Model,
        "model 8 WideHead have 2\n",
    ),
    (
        "check B",
        &[0xFF, 0x00, 0xFA],
        Status::Model,
        "model 9 WideResolution 250\n",
    ),
    (
        "check B",
        &[0xFF, 0x01, 0x91],
        Status::Model,
        "model 9 WideResolution 401\n",
    ),
    (
        "check B",
        &[
            0xFF, 0x00, 0xFB, 0x00, 0x00, 0xF6, 0x1A, 0x00, 0x00, 0x00, 0x00,
        ],
        Status::Model,
        "model 10 WideRun index 1\n",
    ),
    (
        "check B",
        &[0xFF, 0x00, 0xFB, 0x00, 0x00, 0xF6, 0x1A, 0x00],
        Status::Model,
        "model 11 WideShort have 63002\n",
    ),
    (
        "check B",
        &[
            0xFF, 0x00, 0xFB, 0x00, 0x00, 0xF6, 0x1A, 0x00, 0x00, 0x00, 0x01, 0x00, 0xF0, 0x54,
            0x68, 0x00,
        ],
        Status::Model,
        "model 12 WideLong\n",
    ),
];

#[test]
fn models_that_are_checked(rt: HostRuntime) -> Result<(), Fail> {
    assert_rows(&rt, rt.alloc(), &CHECKED)
}
