//! Runs the trace in a file, which is read in pieces.
ghost use Rattle.std.specs.Prelude.{◌≡◌, ◌≤◌, Err, None};
ghost use Rattle.nano_spec.specs.Grounded.{FirstUngrounded};
ghost use Rattle.vox_depot.specs.Causes.{Rose};
ghost use Rattle.plan_choice.specs.Planners.{byte_limit};
ghost use Rattle.nanobot_rows.specs.Answer.{OfRun, TraceOf, Upon};
ghost use Rattle.nanobot_rows.specs.Reading.{EndsUnstored, OnlyReads};
ghost use Rattle.nanobot_rows.specs.Touching.{IsWithinFile};

use crate::report::Report;
use crate::stop::Stop;
use crate::trace_run::TraceRun;
use nano_spec::Profile;
use std::alloc::Global;
use std::sync::ledger::Ledger;
use trace_judge::{every_run_has_work, the_work_pays};
use vox_depot::Depot;
use vox_geom::Steps;
use vox_planes::Planes;

/// The maximum length of a trace that is run, in bytes.
const LIMIT: u64 = 1_073_741_824;

/// The maximum number of bytes that one fetch reads.
const PIECE: usize = 65536;

/// Runs the trace in a file and returns the report, or an error if the depot or an allocation fails.
///
/// Reads the file in pieces to its end, or until it turns out to be longer than the limit, which is reported.
pub fn run_trace<D: Depot, L: Ledger>(
    alloc: Global,
    depot: &mut D,
    name: &str,
    source: Planes,
    target: &Planes,
    profile: Profile,
    steps: &mut Steps<L>,
) -> Result<Report, Stop>
    requires may_fetch { D.may_fetch name.now }
    requires grounded { FirstUngrounded source None }
    requires seeds { profile.seeds ≤ 39 }
    requires resolutions { source.resolution ≡ target.now.resolution }
    ensures ends { EndsUnstored (Upon (TraceOf byte_limit name.now) (OfRun profile source target.now)) (D.files depot.old)
        (Rose (D.faults depot.old) (D.faults depot.new)) result }
    ensures only_reads { OnlyReads D.files D.faults D.failed_stores depot.old depot.new }
    ensures within { (result ≡ Err Stop.Memory → ⊥)
        → IsWithinFile profile source (D.files depot.old) name.now steps.old steps.new }
{
    the_work_pays();
    every_run_has_work();
    let mut run = TraceRun::start(alloc, source, profile, steps)?;
    let mut buf = [0u8; PIECE];
    let mut at = 0;
    'pieces: loop {
        let count = depot.fetch(name, at, &mut buf)?;
        if count == 0 {
            return Ok(run.finish(target, steps));
        }
        at += count as u64;
        if at > LIMIT {
            return Ok(Report::TraceLong { limit: LIMIT });
        }
        run.feed(&buf[..count], steps)?;
    }
}
