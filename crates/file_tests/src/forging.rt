//! Models of `model_forge`, computed by hand. That a model is the definition's is proved; these tests show that a call succeeds if
//! memory suffices.
ghost use Rattle.vox_geom.specs.Counting.{IsBlankOf};

use crate::voxels::at;
use counter_permit::CounterPermit;
use model_forge::forge;
use std::alloc::Global;
use std::marker::Brand;
use std::process::Abort;
use std::sync::ledger::{Blank, Ledger};
use std::test::Fail;
use vox_geom::{Coord, Memory, Steps};
use vox_planes::Planes;

/// Asserts the full voxels, which differ from one another.
fn assert_full<L: Ledger>(rt: &impl Abort, planes: &Planes, want: &[Coord], steps: &mut Steps<L>) {
    let r = planes.resolution();
    assert_eq!(rt; planes.count(steps) as usize, want.len());
    for c in want {
        assert!(rt; c.x < r && c.y < r && c.z < r);
        assert!(rt; planes.full_at(*c, steps));
    }
}

/// The models of small resolutions.
fn worked<L: Ledger>(rt: &impl Abort, blank: Blank, alloc: Global) -> Result<(), Memory>
    requires blank { IsBlankOf blank L.name L.parts }
{
    let mut steps: Steps<L> = Steps::new(blank, CounterPermit);
    let two = forge(alloc, 0, 3)?;
    assert_full(rt, &two, &[at(1, 0, 1), at(1, 1, 1)], &mut steps);
    let none = forge(alloc, 1, 3)?;
    assert_full(rt, &none, &[], &mut steps);
    let three = forge(alloc, 0, 4)?;
    let want = [at(1, 0, 1), at(2, 0, 1), at(2, 0, 2)];
    assert_full(rt, &three, &want, &mut steps);
    let least = forge(alloc, u32::MAX, 1)?;
    assert_full(rt, &least, &[], &mut steps);
    Ok(())
}

#[test]
fn worked_models(rt: HostRuntime) -> Result<(), Fail> {
    worked::<Brand>(&rt, Blank::new(1), rt.alloc())?;
    Ok(())
}

/// The greatest number at the greatest resolution: 400 needs more than six words to a row.
#[test]
fn the_greatest_model(rt: HostRuntime) -> Result<(), Fail> {
    let planes = forge(rt.alloc(), u32::MAX, 400)?;
    assert_eq!(rt; planes.resolution(), 400);
    Ok(())
}
