//! The outcome of a command: the output, and the file to store first.
ghost use Rattle.std.specs.Prelude.{◌≡◌, ◌≤◌, OnOk, OnErr, Some};
ghost use Rattle.vox_depot.specs.Causes.{Rose};
ghost use Rattle.nanobot_rows.specs.Effects.{IsUnstored, MayKeep, alone, status_by, told_with};

use crate::report::Report;
use crate::status::Status;
use crate::stop::Stop;
use vox_depot::{Depot, StoreFault};

/// A file to store.
#[derive(Drop)]
pub struct NewFile<'a> {
    pub name: &'a str,
    pub bytes: Vec<u8>,
}

/// The output: a report's line, or the lines of a debugger session.
#[derive(Drop)]
pub enum Message {
    Line(Report),
    Session(Vec<u8>),
}

impl Message {
    /// Returns the status to exit with.
    pub fn status(&self) -> Status
        ensures { result ≡ status_by self.now }
    {
        match self {
            Message::Line(report) => report.status(),
            Message::Session(_) => Status::Done,
        }
    }
}

/// The outcome of a command: the output, and the file to store before it. All memory is allocated but that for a report's line.
#[derive(Drop)]
pub struct Effect<'a> {
    pub message: Message,
    pub file: Option<NewFile<'a>>,
}

impl<'a> Effect<'a> {
    /// Makes an effect of a report without a file.
    pub fn telling(told: Result<Report, Stop>) -> Result<Effect<'a>, Stop>
        ensures { result ≡ alone told }
    {
        match told {
            Ok(report) => Ok(Effect {
                message: Message::Line(report),
                file: None,
            }),
            Err(stop) => Err(stop),
        }
    }

    /// Makes an effect of a report and a file.
    pub fn storing(report: Report, name: &'a str, bytes: Vec<u8>) -> Effect<'a>
        ensures { result
            ≡ record { message = Message.Line report; file = Some (record { name = name.entry; bytes = bytes }) } }
    {
        Effect {
            message: Message::Line(report),
            file: Some(NewFile { name, bytes }),
        }
    }

    /// Stores the file, if there is one.
    pub fn keep<D: Depot>(&self, depot: &mut D) -> Result<(), StoreFault>
        requires { MayKeep D.may_store self.now.file }
        ensures kept { OnOk result (D.files depot.new ≡ told_with (D.files depot.old) self.now.file) }
        ensures lost { OnErr result (IsUnstored self.now.file (D.files depot.old) (D.files depot.new)) }
        ensures failed { OnErr result (Rose (D.faults depot.old) (D.faults depot.new)) }
        ensures failed_store { OnErr result (Rose (D.failed_stores depot.old) (D.failed_stores depot.new)) }
        ensures later { D.faults depot.old ≤ D.faults depot.new }
    {
        match &self.file {
            None => Ok(()),
            Some(file) => depot.store(file.name, file.bytes.as_slice()),
        }
    }
}
