//! Model files of a few bytes, which `model_file` reads, judges and rewrites.
use crate::voxels::{at, put};
use model_file::{ModelFault, ModelRefusal, first_ungrounded, legal, read_model, write_model};
use std::alloc::Global;
use std::test::Fail;
use vox_geom::{Coord, Memory};
use vox_planes::Planes;

/// Returns the bytes of the model that the bytes hold, if it is legal.
fn rewritten(alloc: Global, bytes: &[u8]) -> Result<Vec<u8>, ModelFault> {
    let planes = read_model(alloc, bytes)?;
    legal(alloc, &planes)?;
    let again = write_model(alloc, &planes)?;
    Ok(again)
}

#[test]
fn legal_models_are_written_as_they_were_read(rt: HostRuntime) -> Result<(), Fail> {
    let cases: [(&[u8], &[u8]); 6] = [
        (&[3, 0, 0, 0, 0], &[3, 0, 0, 0, 0]),
        (&[3, 0, 0, 0, 0xF8], &[3, 0, 0, 0, 0]),
        (&[3, 0, 4, 0, 0], &[3, 0, 4, 0, 0]),
        (&[1, 0], &[1, 0]),
        (
            &[
                0xFF, 0, 251, 0, 0, 0xF6, 0x1A, 0, 0, 0, 1, 0, 0xF0, 0x54, 0x68,
            ],
            &[
                0xFF, 0, 251, 0, 0, 0xF6, 0x1A, 0, 0, 0, 1, 0, 0xF0, 0x54, 0x68,
            ],
        ),
        (
            &[0xFF, 1, 0x90, 3, 0xD0, 0x90, 0],
            &[0xFF, 1, 0x90, 3, 0xD0, 0x90, 0],
        ),
    ];
    for (bytes, want) in cases {
        match rewritten(rt.alloc(), bytes) {
            Ok(again) => assert_eq!(rt; again.as_slice(), want),
            Err(fault) => assert_eq!(rt; Some(fault), None),
        }
    }
    Ok(())
}

#[test]
fn other_bytes_are_refused(rt: HostRuntime) -> Result<(), Fail> {
    let cases: [(&[u8], ModelRefusal, u8); 14] = [
        (&[], ModelRefusal::NoByte, 1),
        (&[0], ModelRefusal::Resolution { r: 0 }, 2),
        (&[251], ModelRefusal::Resolution { r: 251 }, 2),
        (&[3, 0, 0, 0], ModelRefusal::Short { want: 5, have: 4 }, 3),
        (&[3, 0, 0, 0, 0, 0], ModelRefusal::Long { want: 5 }, 4),
        (
            &[3, 1, 0, 0, 0],
            ModelRefusal::Border {
                at: Coord { x: 0, y: 0, z: 0 },
            },
            6,
        ),
        (
            &[3, 0, 0x20, 0, 0],
            ModelRefusal::Floating {
                at: Coord { x: 1, y: 1, z: 1 },
            },
            7,
        ),
        (&[0xFF], ModelRefusal::WideHead { have: 1 }, 8),
        (&[0xFF, 0, 250], ModelRefusal::WideResolution { r: 250 }, 9),
        (&[0xFF, 1, 0x91], ModelRefusal::WideResolution { r: 401 }, 9),
        (
            &[0xFF, 0, 251, 0, 0, 0xF6, 0x1A, 0, 0, 0, 0],
            ModelRefusal::WideRun { index: 1 },
            10,
        ),
        (
            &[0xFF, 0, 251, 0, 0xF1, 0x4A, 0x84],
            ModelRefusal::WideRun { index: 0 },
            10,
        ),
        (
            &[0xFF, 0, 251, 0, 0, 0xF6, 0x1A, 0],
            ModelRefusal::WideShort { have: 63002 },
            11,
        ),
        (
            &[
                0xFF, 0, 251, 0, 0, 0xF6, 0x1A, 0, 0, 0, 1, 0, 0xF0, 0x54, 0x68, 0,
            ],
            ModelRefusal::WideLong,
            12,
        ),
    ];
    for (bytes, want, number) in cases {
        match rewritten(rt.alloc(), bytes) {
            Ok(again) => assert!(rt; again.is_empty()),
            Err(fault) => assert_eq!(rt; fault, ModelFault::Refused(want)),
        }
        assert_eq!(rt; want.number(), number);
    }
    Ok(())
}

/// The empty model of the greatest resolution of the first form is read and written.
#[test]
fn the_greatest_first_form(rt: HostRuntime) -> Result<(), Fail> {
    let mut bytes = vec![in rt.alloc(); 0u8; 1_953_126]?;
    bytes[0] = 250;
    match rewritten(rt.alloc(), bytes.as_slice()) {
        Ok(again) => assert!(rt; again == bytes),
        Err(fault) => assert_eq!(rt; Some(fault), None),
    }
    Ok(())
}

/// Returns the least floating voxel if these voxels of resolution 5 are full.
fn least_floating(alloc: Global, full: &[Coord]) -> Result<Option<Coord>, Memory> {
    let mut planes = Planes::empty(alloc, 5)?;
    for c in full {
        put(&mut planes, *c);
    }
    first_ungrounded(alloc, &planes)
}

/// A roof on a post is grounded, and the stone next to it is not.
#[test]
fn the_least_floating_voxel(rt: HostRuntime) -> Result<(), Fail> {
    let stone = at(2, 1, 3);
    let full = [at(1, 0, 1), at(1, 1, 1), at(1, 2, 1), at(2, 2, 1), stone];
    assert_eq!(rt; least_floating(rt.alloc(), &full)?, Some(stone));
    Ok(())
}

/// A column, the floor next to it, and one more voxel: on the column, next to its top, and in the air.
#[test]
fn heaps_and_others(rt: HostRuntime) -> Result<(), Fail> {
    let cases = [
        (at(1, 3, 1), None),
        (at(2, 2, 1), None),
        (at(3, 1, 1), Some(at(3, 1, 1))),
        (at(1, 4, 1), Some(at(1, 4, 1))),
        (at(0, 4, 1), Some(at(0, 4, 1))),
    ];
    for (one, want) in cases {
        let full = [at(1, 0, 1), at(1, 1, 1), at(1, 2, 1), at(2, 0, 1), one];
        assert_eq!(rt; least_floating(rt.alloc(), &full)?, want);
    }
    Ok(())
}
