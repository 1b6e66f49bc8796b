//! Differences from their numbers in a trace.
ghost use Rattle.std.specs.Prelude.{◌≡◌, ◌≢◌, ◌<◌, ◌≤◌, ◌-ℤ◌, pos, [], ◌∷◌, MatchOption};
ghost use Rattle.vox_geom.specs.declared.difference.Diff.{Diff};
ghost use Rattle.vox_geom.specs.Difference.{IsFar, IsLong, IsNear, IsShort};
ghost use Rattle.nano_spec.specs.Spelling.{axis as axis_of, component as component_of, near_code, far_bytes, raised};

use vox_geom::{Diff, Far, Long, Near, Short};

/// Returns the near difference with the code: its components and 1 are the three digits in base 3.
#[inline(always)]
pub(crate) fn near_at(code: u8) -> Option<Near>
    requires { code < 32 }
    ensures { MatchOption result ((d : Diff) → IsNear d → near_code d ≢ code) (λ d. IsNear d × (near_code d ≡ code)) }
{
    // A table of constants: nothing is left to test at run time.
    match code {
        1 => Some(near(-1, -1, 0)),
        3 => Some(near(-1, 0, -1)),
        4 => Some(near(-1, 0, 0)),
        5 => Some(near(-1, 0, 1)),
        7 => Some(near(-1, 1, 0)),
        9 => Some(near(0, -1, -1)),
        10 => Some(near(0, -1, 0)),
        11 => Some(near(0, -1, 1)),
        12 => Some(near(0, 0, -1)),
        14 => Some(near(0, 0, 1)),
        15 => Some(near(0, 1, -1)),
        16 => Some(near(0, 1, 0)),
        17 => Some(near(0, 1, 1)),
        19 => Some(near(1, -1, 0)),
        21 => Some(near(1, 0, -1)),
        22 => Some(near(1, 0, 0)),
        23 => Some(near(1, 0, 1)),
        25 => Some(near(1, 1, 0)),
        _ => None,
    }
}

/// Returns the near difference with these components.
#[inline(always)]
fn near(dx: i16, dy: i16, dz: i16) -> Near
    requires { IsNear (record { dx = dx; dy = dy; dz = dz }) }
    ensures { result ≡ record { dx = dx; dy = dy; dz = dz } }
{
    Near::of(Diff { dx, dy, dz }).unwrap()
}

/// Returns the long difference along an axis, 1 for x, 2 for y, 3 for z, whose component and 15 are the number.
#[inline(always)]
pub(crate) fn long_at(axis: u8, code: u8) -> Option<Long>
    requires low { 1 ≤ axis }
    requires high { axis ≤ 3 }
    ensures { MatchOption result
        ((d : Diff) → IsLong d → axis_of d ≡ axis → raised (component_of d) 15 ≢ code)
        (λ d. IsLong d × (axis_of d ≡ axis) × (raised (component_of d) 15 ≡ code)) }
{
    let component = i16::from(code) - 15;
    match axis {
        1 => Long::of(along_x(component)),
        2 => Long::of(along_y(component)),
        _ => Long::of(along_z(component)),
    }
}

/// Returns the short difference along an axis, 1 for x, 2 for y, 3 for z, whose component and 5 are the number.
#[inline(always)]
pub(crate) fn short_at(axis: u8, code: u8) -> Option<Short>
    requires low { 1 ≤ axis }
    requires high { axis ≤ 3 }
    ensures { MatchOption result
        ((d : Diff) → IsShort d → axis_of d ≡ axis → raised (component_of d) 5 ≢ code)
        (λ d. IsShort d × (axis_of d ≡ axis) × (raised (component_of d) 5 ≡ code)) }
{
    let component = i16::from(code) - 5;
    match axis {
        1 => Short::of(along_x(component)),
        2 => Short::of(along_y(component)),
        _ => Short::of(along_z(component)),
    }
}

#[inline(always)]
fn along_x(component: i16) -> Diff
    ensures { result ≡ record { dx = component; dy = pos 0; dz = pos 0 } }
{
    Diff {
        dx: component,
        dy: 0,
        dz: 0,
    }
}

#[inline(always)]
fn along_y(component: i16) -> Diff
    ensures { result ≡ record { dx = pos 0; dy = component; dz = pos 0 } }
{
    Diff {
        dx: 0,
        dy: component,
        dz: 0,
    }
}

#[inline(always)]
fn along_z(component: i16) -> Diff
    ensures { result ≡ record { dx = pos 0; dy = pos 0; dz = component } }
{
    Diff {
        dx: 0,
        dy: 0,
        dz: component,
    }
}

/// Returns the far difference whose components and 30 are the three numbers.
#[inline(always)]
pub(crate) fn far_at(x: u8, y: u8, z: u8) -> Option<Far>
    ensures { MatchOption result ((d : Diff) → IsFar d → far_bytes d ≢ x ∷ y ∷ z ∷ [])
        (λ d. IsFar d × (far_bytes d ≡ x ∷ y ∷ z ∷ [])) }
{
    Far::of(lower_far(x, y, z))
}

/// Returns the difference whose components and 30 are the three numbers.
#[inline(always)]
fn lower_far(x: u8, y: u8, z: u8) -> Diff
    ensures { result ≡ record { dx = pos x -ℤ pos 30; dy = pos y -ℤ pos 30; dz = pos z -ℤ pos 30 } }
{
    Diff {
        dx: i16::from(x) - 30,
        dy: i16::from(y) - 30,
        dz: i16::from(z) - 30,
    }
}
