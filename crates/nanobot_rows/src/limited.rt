//! Files of limited length.
ghost use Rattle.std.specs.Prelude.{◌≤◌, IfOk, vec_len};
ghost use Rattle.vox_depot.specs.Causes.{Rose};
ghost use Rattle.nanobot_rows.specs.Answer.{FileUpTo};
ghost use Rattle.nanobot_rows.specs.Reading.{FindsAs, OnlyReads};
ghost use Rattle.nanobot_rows.specs.Report.{report_line, status_of};

use crate::report::Report;
use crate::stop::Stop;
use std::alloc::Global;
use vox_depot::{Depot, load};

/// Reads a file, or returns this report if it is over the limit. One byte past the limit is fetched to detect that.
pub fn load_file<D: Depot>(
    alloc: Global,
    depot: &mut D,
    name: &str,
    limit: u64,
    too_long: Report,
) -> Result<Vec<u8>, Stop>
    requires may_fetch { D.may_fetch name.now }
    requires small { limit ≤ 1073741824 }
    ensures reads { FindsAs (λ bytes. bytes.items)
        (FileUpTo limit (status_of too_long) (report_line too_long) name.now) (D.files depot.old)
        (Rose (D.faults depot.old) (D.faults depot.new)) result }
    ensures size { IfOk result (λ bytes. vec_len bytes ≤ limit) }
    ensures only_reads { OnlyReads D.files D.faults D.failed_stores depot.old depot.new }
{
    let bytes = load(alloc, depot, name, limit + 1)?;
    if bytes.len() as u64 > limit {
        return Err(Stop::Told(too_long));
    }
    Ok(bytes)
}
