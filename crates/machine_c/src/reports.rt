//! The results of calls, in C layout.
ghost use Rattle.std.specs.Prelude.{◌≡◌};
ghost use Rattle.machine_c.specs.Told.{bot_told, broken_told, fault_told, model_told};

use model_file::{ModelFault, ModelRefusal};
use nano_spec::{Bot, Broken};
use vox_geom::Coord;

/// A broken rule: its number, the number of the step, the bot, and the coordinate. All are 0 if none is broken.
#[repr(C)]
#[derive(Clone, Copy)]
pub struct BrokenReport {
    pub rule: u32,
    pub step: u32,
    pub bid: u32,
    pub x: u32,
    pub y: u32,
    pub z: u32,
}

/// The result of a step: the machine's energy, steps and active bots after the call; the first byte of the bad or cut command; the
/// broken rule; 1 for High; and the number of voxels that the step changed.
#[repr(C)]
#[derive(Clone, Copy)]
pub struct StepReport {
    pub energy: i64,
    pub offset: u64,
    pub steps: u32,
    pub active: u32,
    pub broken: BrokenReport,
    pub high: u32,
    pub changed: u32,
}

/// The result of playing a trace: the machine's energy, steps, active bots and harmonics after the call; the number of steps made
/// and of their bytes; the first byte of the bad or cut command; and the broken rule.
#[repr(C)]
#[derive(Clone, Copy)]
pub struct PlayedReport {
    pub energy: i64,
    pub used: u64,
    pub offset: u64,
    pub made: u32,
    pub steps: u32,
    pub active: u32,
    pub high: u32,
    pub broken: BrokenReport,
}

/// The result that a step would have: the machine's energy, the number of active bots, and the number of voxels that would change;
/// 1 if no bot would be left, and 1 for High after it; the first byte of the bad or cut command; and the broken rule.
#[repr(C)]
#[derive(Clone, Copy)]
pub struct JudgedReport {
    pub energy: i64,
    pub offset: u64,
    pub halts: u32,
    pub broken: BrokenReport,
    pub active: u32,
    pub high: u32,
    pub changed: u32,
}

/// The state of a machine. `high` is 1 for High, and `noted` steps can be undone.
#[repr(C)]
#[derive(Clone, Copy)]
pub struct MachineReport {
    pub energy: i64,
    pub steps: u32,
    pub active: u32,
    pub resolution: u32,
    pub high: u32,
    pub noted: u64,
}

/// An active bot. Bit k of `seeds` means that it has the seed k.
#[repr(C)]
#[derive(Clone, Copy)]
pub struct BotReport {
    pub seeds: u64,
    pub bid: u32,
    pub x: u32,
    pub y: u32,
    pub z: u32,
}

/// A coordinate.
#[repr(C)]
#[derive(Clone, Copy)]
pub struct PlaceReport {
    pub x: u32,
    pub y: u32,
    pub z: u32,
}

/// A refusal of a model: its number, and its details. Details that do not apply are 0.
#[repr(C)]
#[derive(Clone, Copy)]
pub struct ModelReport {
    pub number: u32,
    pub want: u32,
    pub have: u32,
    pub x: u32,
    pub y: u32,
    pub z: u32,
}

impl BrokenReport {
    /// Returns no rule.
    pub fn none() -> BrokenReport
        ensures { result ≡ record { rule = 0; step = 0; bid = 0; x = 0; y = 0; z = 0 } }
    {
        BrokenReport {
            rule: 0,
            step: 0,
            bid: 0,
            x: 0,
            y: 0,
            z: 0,
        }
    }

    /// Returns the numbers of a broken rule.
    pub fn of(broken: Broken) -> BrokenReport
        ensures { result ≡ broken_told broken }
    {
        BrokenReport {
            rule: u32::from(broken.rule.number()),
            step: broken.step,
            bid: u32::from(broken.bid),
            x: u32::from(broken.at.x),
            y: u32::from(broken.at.y),
            z: u32::from(broken.at.z),
        }
    }
}

impl BotReport {
    /// Returns the numbers of a bot.
    pub fn of(bot: &Bot) -> BotReport
        ensures { result ≡ bot_told bot.now }
    {
        BotReport {
            seeds: bot.seeds,
            bid: u32::from(bot.bid),
            x: u32::from(bot.pos.x),
            y: u32::from(bot.pos.y),
            z: u32::from(bot.pos.z),
        }
    }
}

impl PlaceReport {
    /// Returns the numbers of a coordinate.
    pub fn of(at: Coord) -> PlaceReport
        ensures { result ≡ record { x = at.x; y = at.y; z = at.z } }
    {
        PlaceReport {
            x: u32::from(at.x),
            y: u32::from(at.y),
            z: u32::from(at.z),
        }
    }
}

impl ModelReport {
    /// Returns no refusal.
    pub fn none() -> ModelReport
        ensures { result ≡ record { number = 0; want = 0; have = 0; x = 0; y = 0; z = 0 } }
    {
        ModelReport::with_sizes(0, 0, 0)
    }

    /// Returns a refusal with numbers.
    fn with_sizes(number: u32, want: u32, have: u32) -> ModelReport
        ensures { result ≡ record { number = number; want = want; have = have; x = 0; y = 0; z = 0 } }
    {
        ModelReport {
            number,
            want,
            have,
            x: 0,
            y: 0,
            z: 0,
        }
    }

    /// Returns a refusal with a voxel.
    fn with_place(number: u32, at: Coord) -> ModelReport
        ensures { result ≡ record { number = number; want = 0; have = 0; x = at.x; y = at.y; z = at.z } }
    {
        ModelReport {
            number,
            want: 0,
            have: 0,
            x: u32::from(at.x),
            y: u32::from(at.y),
            z: u32::from(at.z),
        }
    }

    /// Returns the numbers of a refusal; all 0 if memory ran out.
    pub fn of(fault: ModelFault) -> ModelReport
        ensures { result ≡ fault_told fault }
    {
        match fault {
            ModelFault::Refused(refusal) => ModelReport::of_refusal(refusal),
            ModelFault::Memory => ModelReport::none(),
        }
    }

    /// Returns the numbers of a refusal.
    fn of_refusal(refusal: ModelRefusal) -> ModelReport
        ensures { result ≡ model_told refusal }
    {
        let number = u32::from(refusal.number());
        match refusal {
            ModelRefusal::NoByte => ModelReport::with_sizes(number, 0, 0),
            ModelRefusal::Resolution { r } => ModelReport::with_sizes(number, 0, u32::from(r)),
            ModelRefusal::Short { want, have } => ModelReport::with_sizes(number, want, have),
            ModelRefusal::Long { want } => ModelReport::with_sizes(number, want, 0),
            ModelRefusal::Border { at } => ModelReport::with_place(number, at),
            ModelRefusal::Floating { at } => ModelReport::with_place(number, at),
            ModelRefusal::WideHead { have } => ModelReport::with_sizes(number, 0, have),
            ModelRefusal::WideResolution { r } => ModelReport::with_sizes(number, 0, u32::from(r)),
            ModelRefusal::WideRun { index } => ModelReport::with_sizes(number, 0, index),
            ModelRefusal::WideShort { have } => ModelReport::with_sizes(number, 0, have),
            ModelRefusal::WideLong => ModelReport::with_sizes(number, 0, 0),
        }
    }
}
