//! The command `debug`: walks a trace by a script.
ghost use Rattle.std.specs.Prelude.{IfOk, None};
ghost use Rattle.vox_depot.specs.Causes.{Rose};
ghost use Rattle.nanobot_words.specs.Rows.{debug as debug_row};
ghost use Rattle.debug_script.specs.Calls.{lines_are};
ghost use Rattle.nanobot_rows.specs.Answer.{AnswerOf, ScriptOf};
ghost use Rattle.nanobot_rows.specs.Effects.{EndsStored, IsFor};
ghost use Rattle.nanobot_rows.specs.Reading.{FindsAs, OnlyReads};

use crate::commands::load_trace;
use crate::effect::{Effect, Message};
use crate::limited::load_file;
use crate::models::load_model;
use crate::report::{Report, Who};
use crate::stop::Stop;
use debug_script::{ScriptLine, print_session, read_script};
use std::alloc::Global;
use std::sync::ledger::Ledger;
use vox_depot::Depot;
use vox_geom::Steps;

/// The maximum length of a script in bytes.
const SCRIPT_LIMIT: u64 = 65_536;

/// Parses the file's script into lines. A script over the limit is refused before any line is parsed.
fn load_script<D: Depot>(
    alloc: Global,
    depot: &mut D,
    name: &str,
    resolution: u16,
) -> Result<Vec<ScriptLine>, Stop>
    requires { D.may_fetch name.now }
    ensures reads { FindsAs (λ script. lines_are script.items) (ScriptOf resolution name.now) (D.files depot.old)
        (Rose (D.faults depot.old) (D.faults depot.new)) result }
    ensures only_reads { OnlyReads D.files D.faults D.failed_stores depot.old depot.new }
{
    let long = Report::TextLong {
        limit: SCRIPT_LIMIT,
    };
    let bytes = load_file(alloc, depot, name, SCRIPT_LIMIT, long)?;
    match read_script(alloc, bytes.as_slice(), resolution) {
        Ok(script) => Ok(script),
        Err(fault) => Err(Stop::of_text(fault)),
    }
}

/// Implements `debug`: returns the lines of a session over the trace, starting at the source.
pub fn debug<'a, D: Depot, L: Ledger>(
    alloc: Global,
    depot: &mut D,
    source: &str,
    trace: &str,
    script: &str,
    steps: &mut Steps<L>,
) -> Result<Effect<'a>, Stop>
    requires source { D.may_fetch source.now }
    requires trace { D.may_fetch trace.now }
    requires script { D.may_fetch script.now }
    ensures finishes { EndsStored (AnswerOf (debug_row source.now trace.now script.now)) (D.files depot.old)
        (Rose (D.faults depot.old) (D.faults depot.new)) result }
    ensures named { IfOk result (IsFor None) }
    ensures only_reads { OnlyReads D.files D.faults D.failed_stores depot.old depot.new }
{
    let planes = load_model(alloc, depot, source, Who::Source)?;
    let commands = load_trace(alloc, depot, trace)?;
    let script = load_script(alloc, depot, script, planes.resolution())?;
    let lines = print_session(alloc, planes, commands, script.as_slice(), steps)?;
    Ok(Effect {
        message: Message::Session(lines),
        file: None,
    })
}
