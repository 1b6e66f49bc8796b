//! The bounds of plans, and the counts compared with them.
ghost use Rattle.std.specs.Prelude.{◌≡◌, ◌≤◌, count_by, length};
ghost use Rattle.nano_spec.specs.Spelling.{spellings};
ghost use Rattle.plan_tape.specs.Fissions.{is_fission};

use nano_spec::Command;
use trace_codec::encode_one;

/// The most commands that are judged, since a run has at most this many steps.
pub(crate) const MOST_COMMANDS: usize = 1_073_741_824;

/// The bounds of a plan: steps, commands, bytes of their spellings, and bots at any time.
#[derive(Clone, Copy, Debug)]
pub struct Bounds {
    pub steps: u64,
    pub commands: u64,
    pub bytes: u64,
    pub bots: u8,
}

impl Bounds {
    /// Returns the bounds that every plan keeps.
    pub fn none() -> Bounds {
        Bounds {
            steps: u64::MAX,
            commands: u64::MAX,
            bytes: u64::MAX,
            bots: u8::MAX,
        }
    }
}

/// Returns the total length in bytes of the commands' spellings.
pub(crate) fn bytes_of(commands: &[Command]) -> u64
    requires { length commands.now ≤ 1073741824 }
    ensures { result ≡ length (spellings commands.now) }
{
    let mut bytes = 0;
    for command in commands {
        bytes += encode_one(*command).len() as u64;
    }
    bytes
}

/// Returns the number of commands that make a bot.
pub(crate) fn fissions_of(commands: &[Command]) -> u32
    requires { length commands.now ≤ 1073741824 }
    ensures { result ≡ count_by is_fission commands.now }
{
    let mut fissions = 0;
    for command in commands {
        if let Command::Fission(_, _) = command {
            fissions += 1;
        }
    }
    fissions
}
