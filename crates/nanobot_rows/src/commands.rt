//! Commands of files, as text and as the bytes of a trace.
ghost use Rattle.std.specs.Prelude.{◌≤◌, IfOk, length};
ghost use Rattle.vox_depot.specs.Causes.{Rose};
ghost use Rattle.nanobot_rows.specs.Answer.{TextOf, TraceOf, dis_limit};
ghost use Rattle.nanobot_rows.specs.Reading.{Finds, OnlyReads};

use crate::limited::load_file;
use crate::report::Report;
use crate::stop::Stop;
use nano_spec::CommandList;
use std::alloc::Global;
use trace_codec::decode_all;
use trace_text::read_text;
use vox_depot::Depot;

/// The maximum length of a text in bytes.
const TEXT_LIMIT: u64 = 1_073_741_824;

/// The maximum length of a trace to print, in bytes.
const TRACE_LIMIT: u64 = 50_000_000;

/// Parses the file's text into commands. A text over the limit is refused before any line is parsed.
pub fn load_text<D: Depot>(alloc: Global, depot: &mut D, name: &str) -> Result<CommandList, Stop>
    requires { D.may_fetch name.now }
    ensures reads { Finds (TextOf name.now) (D.files depot.old)
        (Rose (D.faults depot.old) (D.faults depot.new)) result }
    ensures only_reads { OnlyReads D.files D.faults D.failed_stores depot.old depot.new }
{
    let long = Report::TextLong { limit: TEXT_LIMIT };
    let bytes = load_file(alloc, depot, name, TEXT_LIMIT, long)?;
    match read_text(alloc, bytes.as_slice()) {
        Ok(commands) => Ok(commands),
        Err(fault) => Err(Stop::of_text(fault)),
    }
}

/// Decodes the file's trace into commands. A trace over the limit is refused for its length even if it has a bad byte.
pub fn load_trace<D: Depot>(alloc: Global, depot: &mut D, name: &str) -> Result<CommandList, Stop>
    requires { D.may_fetch name.now }
    ensures reads { Finds (TraceOf dis_limit name.now) (D.files depot.old)
        (Rose (D.faults depot.old) (D.faults depot.new)) result }
    ensures few { IfOk result (λ commands. length commands ≤ 50000000) }
    ensures only_reads { OnlyReads D.files D.faults D.failed_stores depot.old depot.new }
{
    let long = Report::TraceLong { limit: TRACE_LIMIT };
    let bytes = load_file(alloc, depot, name, TRACE_LIMIT, long)?;
    match decode_all(alloc, bytes.as_slice()) {
        Ok(commands) => Ok(commands),
        Err(fault) => Err(Stop::of_trace(fault)),
    }
}
