//! The ways to cut a model into boxes and to schedule them. None is best for all models, so several are tried.

/// The price of boxes that are full once they are filled.
#[derive(Clone, Copy, PartialEq, Eq, Debug)]
pub struct Prices {
    /// What a box costs that one, two, four or eight bots fill, in thousandths of a bot's step.
    pub of: [u32; 4],
    /// Whether boxes may be thicker than a layer.
    pub thick: bool,
    /// Whether thick boxes are cut only if their teams are sure to have columns beside them.
    pub guarded: bool,
    /// What each layer of a column costs that has to wait for such a box.
    pub shaft: u32,
    /// Whether nothing may have to wait for such a box.
    pub bare: bool,
}

/// How a model is cut.
#[derive(Clone, Copy, PartialEq, Eq, Debug)]
pub enum CutStyle {
    /// Into boxes of full voxels, the cheapest for their weight first.
    Exact(Prices),
    /// Into tiles of any content, at most so wide, with their borders moved by so much: only for taking a model down.
    Tiles(i16, i16),
    /// Into tiles of the size that promises the fewest steps.
    BestTiles,
}

/// How a model is cut, and how bots choose their boxes.
#[derive(Clone, Copy, Debug)]
pub struct BoxManner {
    pub cutting: CutStyle,
    /// Only boxes are taken that begin so little above the lowest one.
    pub window: i16,
    /// How much more a box is worth for each doubling of its team, in tenths.
    pub big: i64,
    /// How many more boxes a team takes that it can fill from its posts.
    pub extra: usize,
    /// Whether bots choose positions from which more boxes are in reach.
    pub look: bool,
    /// Whether bots fly home that the last boxes do not need.
    pub gathers: bool,
}
