//! nanobot: an executor for the models and nanobot traces of the ICFP Programming Contest 2018. It executes the command given
//! by its arguments (docs/FORMATS.md, "Printed lines"), and exits with its status.
#![tactic(auto)]

ghost use Rattle.vox_geom.specs.Counting.{IsBlankOf};
ghost use Rattle.nanobot_words.specs.Rows.{MayRead, MayStore, texts};

use counter_permit::CounterPermit;
use nanobot_app::{Status, drive};
use std::alloc::{AllocError, Global};
use std::env;
use std::io::ErrorKind;
use std::marker::Brand;
use std::process::ExitCode;
use std::sync::ledger::{Blank, Ledger};
use vox_depot::{Depot, HostDepot, HostSink, Sink};
use vox_geom::Steps;

/// The exit status if the arguments cannot be read, which is no status of a call.
const NO_WORDS: u8 = 11;

/// The reason for unreadable arguments.
enum NoWords {
    Memory,
    Other,
}

/// Returns the arguments after the program's name.
fn words(rt: &HostRuntime) -> Result<Vec<String>, NoWords> {
    let args = match env::args(rt) {
        Ok(args) => args,
        Err(e) if e.kind() == ErrorKind::OutOfMemory => return Err(NoWords::Memory),
        Err(_) => return Err(NoWords::Other),
    };
    match args.skip(1).collect(rt.alloc()) {
        Ok(words) => Ok(words),
        Err(AllocError) => Err(NoWords::Memory),
    }
}

/// Executes the command, with a counter of this ledger.
fn run_counted<D: Depot, O: Sink, L: Ledger>(
    alloc: Global,
    words: &[String],
    depot: &mut D,
    out: &mut O,
    blank: Blank,
) -> Status
    requires blank { IsBlankOf blank L.name L.parts }
    requires may_fetch { MayRead D.may_fetch (texts words.now) }
    requires may_store { MayStore D.may_store (texts words.now) }
{
    let mut steps = Steps::<L>::new(blank, CounterPermit);
    drive(alloc, words, depot, out, &mut steps)
}

/// Writes a line to standard error. A failure is ignored, since it cannot be reported.
fn tell(rt: &HostRuntime, line: &str) {
    let _ = rt.eprintln(line);
}

/// Writes the line on standard error for a status that prints none.
fn tell_status(rt: &HostRuntime, status: Status) {
    match status {
        Status::Depot => tell(rt, "nanobot: a file could not be read or written"),
        Status::Sink => tell(rt, "nanobot: the output could not be written"),
        Status::Memory => tell(rt, "nanobot: out of memory"),
        _ => {}
    }
}

/// Reports why the arguments cannot be read, and returns the exit status.
fn without_words(rt: &HostRuntime, fault: NoWords) -> u8 {
    match fault {
        NoWords::Memory => {
            tell_status(rt, Status::Memory);
            Status::Memory.code()
        }
        NoWords::Other => {
            tell(rt, "nanobot: the words could not be had");
            NO_WORDS
        }
    }
}

fn main(rt: HostRuntime) -> ExitCode {
    let alloc = rt.alloc();
    let words = match words(&rt) {
        Ok(words) => words,
        Err(fault) => return ExitCode::from(without_words(&rt, fault)),
    };
    let mut depot = HostDepot::new(&rt, alloc);
    let mut out = HostSink::new(rt.stdout());
    let status = run_counted::<_, _, Brand>(alloc, &words, &mut depot, &mut out, Blank::new(1));
    tell_status(&rt, status);
    ExitCode::from(status.code())
}
