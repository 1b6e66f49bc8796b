//! The version of the library.
ghost use Rattle.std.specs.Prelude.{◌≡◌};
ghost use Rattle.machine_c.specs.declared.version.TheConstants.{VERSION};

/// The version: ten thousand for each first number of it, a hundred for each second, one for each third.
const VERSION: u32 = 900;

/// Returns the version of the library.
#[unsafe(no_mangle)]
pub extern "C" fn nanobot_version() -> u32
    ensures { result ≡ VERSION }
{
    VERSION
}
