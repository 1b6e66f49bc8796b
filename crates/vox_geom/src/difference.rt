//! Differences of coordinates.
ghost use Rattle.std.specs.Prelude.{◌≡◌};
ghost use Rattle.vox_geom.specs.Difference.{mlen as manhattan_length, clen as chessboard_length};

/// A difference of two coordinates, whether it is of a kind or of none. The kinds are `Near`, `Far`, `Short` and `Long`.
#[derive(Clone, Copy, PartialEq, Eq, Hash, Debug)]
pub struct Diff {
    pub dx: i16,
    pub dy: i16,
    pub dz: i16,
}

impl Diff {
    /// Returns the Manhattan length: the sum of the components' absolute values.
    pub fn mlen(self) -> u32
        ensures { result ≡ manhattan_length self }
    {
        u32::from(self.dx.unsigned_abs())
            + u32::from(self.dy.unsigned_abs())
            + u32::from(self.dz.unsigned_abs())
    }

    /// Returns the Chessboard length: the greatest of the components' absolute values.
    pub fn clen(self) -> u16
        ensures { result ≡ chessboard_length self }
    {
        self.dx
            .unsigned_abs()
            .max(self.dy.unsigned_abs().max(self.dz.unsigned_abs()))
    }
}
