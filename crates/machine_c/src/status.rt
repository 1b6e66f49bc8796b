//! The statuses of the calls.

/// The call succeeded.
pub const DONE: u32 = 0;

/// The commands of the step break a rule.
pub const BROKEN: u32 = 1;

/// An argument is out of range.
pub const ARGUMENT: u32 = 2;

/// The model is refused.
pub const MODEL: u32 = 3;

/// The bytes are no commands.
pub const COMMANDS: u32 = 4;

/// Allocation failed.
pub const MEMORY: u32 = 7;

/// The buffer is too small.
pub const TOO_SMALL: u32 = 10;

/// The handle has no machine.
pub const NO_MACHINE: u32 = 11;

/// No bot is active.
pub const ENDED: u32 = 12;

/// The number of commands is not that of the active bots.
pub const COUNT: u32 = 13;

/// The machine has made its maximum of steps.
pub const LONG: u32 = 14;

/// No earlier step is noted.
pub const NO_NOTE: u32 = 15;

/// The coordinate is out of space.
pub const OUTSIDE: u32 = 16;

/// The voxel has no level.
pub const NO_LEVEL: u32 = 17;

/// The matrix and the target differ.
pub const DIFFERS: u32 = 18;

/// The target is of another resolution.
pub const RESOLUTION: u32 = 19;

/// Steps were made before.
pub const BEGUN: u32 = 20;

/// No trace is kept.
pub const NO_TRACE: u32 = 21;

/// The machine has no target.
pub const NO_TARGET: u32 = 22;
