//! Differences of a kind, valid by type.
ghost use Rattle.std.specs.Prelude.{◌≡◌, ◌≤◌, IsTrue, ◌↔◌};
ghost use Rattle.std.specs.Option.{SomeIff};
ghost use Rattle.vox_geom.specs.Point.{down};
ghost use Rattle.vox_geom.specs.Difference.{clen as chessboard_length, nonzero as nonzero_of, is_linear as is_linear_difference, IsNear, IsFar, IsShort, IsLong};

use crate::difference::Diff;
use std::marker::Model;

/// Returns 1 for a component that is not 0, and 0 otherwise.
fn nonzero(v: i16) -> u8
    ensures { result ≡ nonzero_of v }
{
    if v == 0 { 0 } else { 1 }
}

/// Returns whether exactly one component is not 0.
fn is_linear(d: Diff) -> bool
    ensures { result ≡ is_linear_difference d }
{
    nonzero(d.dx) + nonzero(d.dy) + nonzero(d.dz) == 1
}

/// A difference of small components, a byte each.
#[derive(Clone, Copy, PartialEq, Eq, Hash, Debug)]
struct Small {
    dx: i8,
    dy: i8,
    dz: i8,
}

impl Model for Small {
    ghost use Rattle.vox_geom.specs.declared.difference.Diff.{Diff};

    ghost Value = { Diff };

    ghost view = { λ s. record { dx = s.dx; dy = s.dy; dz = s.dz } };

    ghost inverse = { λ d. record { dx = d.dx; dy = d.dy; dz = d.dz } };
}

impl Small {
    /// Returns a difference whose components are at most 30 either way, as those of every kind are.
    fn of(d: Diff) -> Small
        requires { chessboard_length d ≤ 30 }
        ensures { result ≡ d }
    {
        Small {
            dx: d.dx as i8,
            dy: d.dy as i8,
            dz: d.dz as i8,
        }
    }

    /// Returns the difference.
    fn diff(self) -> Diff
        ensures { result ≡ self }
    {
        Diff {
            dx: i16::from(self.dx),
            dy: i16::from(self.dy),
            dz: i16::from(self.dz),
        }
    }
}

/// A near difference: its Manhattan length is 1 or 2 and its Chessboard length 1. There are 18.
#[derive(Clone, Copy, PartialEq, Eq, Hash, Debug)]
pub struct Near {
    difference: Small,
}

impl Model for Near {
    ghost use Rattle.vox_geom.specs.declared.difference.Diff.{Diff};
    ghost use Rattle.vox_geom.specs.Difference.{IsNear};

    ghost Value = { Diff };

    ghost view = { λ n. n.difference };

    ghost invariant = { λ n. IsNear n.difference };

    ghost inverse = { λ d. record { difference = d } };
}

impl Near {
    /// Returns the difference as a near one, or `None` if it is not.
    pub fn of(d: Diff) -> Option<Near>
        ensures { SomeIff result (IsNear d) d }
    {
        if d.clen() == 1 && (d.mlen() == 1 || d.mlen() == 2) {
            Some(Near {
                difference: Small::of(d),
            })
        } else {
            None
        }
    }

    /// Returns the difference to the voxel right below.
    pub fn down() -> Near
        ensures { result ≡ down }
    {
        Near {
            difference: Small {
                dx: 0,
                dy: -1,
                dz: 0,
            },
        }
    }

    /// Returns the difference.
    pub fn diff(self) -> Diff
        ensures value { result ≡ self }
        ensures kind { IsNear result }
    {
        self.difference.diff()
    }
}

/// A far difference: its Chessboard length is 1 to 30.
#[derive(Clone, Copy, PartialEq, Eq, Hash, Debug)]
pub struct Far {
    difference: Small,
}

impl Model for Far {
    ghost use Rattle.vox_geom.specs.declared.difference.Diff.{Diff};
    ghost use Rattle.vox_geom.specs.Difference.{IsFar};

    ghost Value = { Diff };

    ghost view = { λ n. n.difference };

    ghost invariant = { λ n. IsFar n.difference };

    ghost inverse = { λ d. record { difference = d } };
}

impl Far {
    /// Returns the difference as a far one, or `None` if it is not.
    pub fn of(d: Diff) -> Option<Far>
        ensures { SomeIff result (IsFar d) d }
    {
        if 1 <= d.clen() && d.clen() <= 30 {
            Some(Far {
                difference: Small::of(d),
            })
        } else {
            None
        }
    }

    /// Returns the difference.
    pub fn diff(self) -> Diff
        ensures value { result ≡ self }
        ensures kind { IsFar result }
    {
        self.difference.diff()
    }
}

/// A short linear difference: along one axis, by 1 to 5.
#[derive(Clone, Copy, PartialEq, Eq, Hash, Debug)]
pub struct Short {
    difference: Small,
}

impl Model for Short {
    ghost use Rattle.vox_geom.specs.declared.difference.Diff.{Diff};
    ghost use Rattle.vox_geom.specs.Difference.{IsShort};

    ghost Value = { Diff };

    ghost view = { λ n. n.difference };

    ghost invariant = { λ n. IsShort n.difference };

    ghost inverse = { λ d. record { difference = d } };
}

impl Short {
    /// Returns the difference as a short linear one, or `None` if it is not.
    pub fn of(d: Diff) -> Option<Short>
        ensures { SomeIff result (IsShort d) d }
    {
        if is_linear(d) && d.mlen() <= 5 {
            Some(Short {
                difference: Small::of(d),
            })
        } else {
            None
        }
    }

    /// Returns the difference.
    pub fn diff(self) -> Diff
        ensures value { result ≡ self }
        ensures kind { IsShort result }
    {
        self.difference.diff()
    }
}

/// A long linear difference: along one axis, by 1 to 15.
#[derive(Clone, Copy, PartialEq, Eq, Hash, Debug)]
pub struct Long {
    difference: Small,
}

impl Model for Long {
    ghost use Rattle.vox_geom.specs.declared.difference.Diff.{Diff};
    ghost use Rattle.vox_geom.specs.Difference.{IsLong};

    ghost Value = { Diff };

    ghost view = { λ n. n.difference };

    ghost invariant = { λ n. IsLong n.difference };

    ghost inverse = { λ d. record { difference = d } };
}

impl Long {
    /// Returns the difference as a long linear one, or `None` if it is not.
    pub fn of(d: Diff) -> Option<Long>
        ensures { SomeIff result (IsLong d) d }
    {
        if is_linear(d) && d.mlen() <= 15 {
            Some(Long {
                difference: Small::of(d),
            })
        } else {
            None
        }
    }

    /// Returns the difference.
    pub fn diff(self) -> Diff
        ensures value { result ≡ self }
        ensures kind { IsLong result }
    {
        self.difference.diff()
    }
}
