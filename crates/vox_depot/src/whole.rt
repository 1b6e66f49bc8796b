//! Reads whole files.
ghost use Rattle.std.specs.Prelude.{◌≡◌, ◌≤◌, take, vec_len, IfOk, IsErrOf};
ghost use Rattle.vox_depot.specs.Causes.{Rose};
ghost use Rattle.vox_depot.specs.declared.whole.LoadFault.TheVariants.{Memory};
ghost use Rattle.vox_depot.specs.Files.{IfTold, IsMissing};
ghost use Rattle.vox_depot.specs.Faults.{load_fault_of};

use crate::depot::{Depot, FetchFault};
use std::alloc::{AllocError, Global};

/// The reason why a file was not loaded.
#[derive(Clone, Copy, Debug, PartialEq, Eq)]
pub enum LoadFault {
    /// The depot's files are visible, and there is none of that name.
    Missing,
    /// The depot failed, and its count of faults rose.
    Failed,
    /// Allocation failed.
    Memory,
}

impl From<FetchFault> for LoadFault {
    ghost from_gives = { λ fault e. e ≡ load_fault_of fault };

    fn from(fault: FetchFault) -> Self {
        match fault {
            FetchFault::Missing => LoadFault::Missing,
            FetchFault::Failed => LoadFault::Failed,
        }
    }
}

impl From<AllocError> for LoadFault {
    ghost from_gives = { λ _ e. e ≡ Memory };

    fn from(_: AllocError) -> Self {
        LoadFault::Memory
    }
}

/// The size of one fetch.
const PIECE: usize = 65536;

/// Returns the file's first `most` bytes, or the whole file if it has fewer.
pub fn load<D: Depot>(
    alloc: Global,
    depot: &mut D,
    name: &str,
    most: u64,
) -> Result<Vec<u8>, LoadFault>
    requires { D.may_fetch name.now }
    ensures bytes { IfOk result (λ v. IfTold (D.files depot.old) name.now
        (λ bytes. v.items ≡ take most bytes)) }
    ensures size { IfOk result (λ v. vec_len v ≤ most) }
    ensures missing { IsErrOf result LoadFault.Missing → IsMissing (D.files depot.old) name.now }
    ensures failed { IsErrOf result LoadFault.Failed → Rose (D.faults depot.old) (D.faults depot.new) }
    ensures files { D.files depot.new ≡ D.files depot.old }
    ensures later { D.faults depot.old ≤ D.faults depot.new }
    ensures stores { D.failed_stores depot.new ≡ D.failed_stores depot.old }
{
    let mut bytes = Vec::new(alloc);
    let mut buf = [0u8; PIECE];
    'pieces: loop {
        let at = bytes.len() as u64;
        let count = depot.fetch(name, at, &mut buf)?;
        if count == 0 {
            return Ok(bytes);
        }
        let taken = (count as u64).min(most - at) as usize;
        bytes.extend_from_slice(&buf[..taken])?;
        if bytes.len() as u64 == most {
            return Ok(bytes);
        }
    }
}
