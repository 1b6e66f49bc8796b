//! The step to judge.
use nano_spec::{Bot, Command, Harmonics, Profile};
use vox_planes::Planes;

/// A step to judge: the state at its start, as far as the rules need it, and the commands.
#[derive(Clone, Copy)]
pub struct Step<'a> {
    /// The matrix.
    pub planes: &'a Planes,
    /// The harmonics.
    pub harmonics: Harmonics,
    /// The profile.
    pub profile: Profile,
    /// The active bots, in rising order of their bids.
    pub bots: &'a [Bot],
    /// The commands, one for each bot, in the order of the bots.
    pub commands: &'a [Command],
    /// The number of the step, from 1 on.
    pub number: u32,
}
