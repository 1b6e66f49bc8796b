//! The reports on a call.
ghost use Rattle.std.specs.Prelude.{◌≡◌, IfOk, length, string_bytes};
ghost use Rattle.nanobot_rows.specs.Lines.{who_of};
ghost use Rattle.nanobot_rows.specs.Report.{of_verdict, report_line, status_of};

use crate::lines::{
    exercised_line, group_long_line, model_line, planned_line, resolutions_line, text_line,
    unsupported_line,
};
use crate::status::Status;
use debug_script::broken_line;
use model_file::ModelRefusal;
use nano_spec::{Broken, Command, Verdict};
use plan_tape::Plan;
use std::alloc::{AllocError, Global};
use trace_text::TextRefusal;
use vox_geom::Coord;

/// The role of a refused model.
#[derive(Clone, Copy, PartialEq, Eq, Debug)]
pub enum Who {
    Model,
    Source,
    Target,
}

/// The report on a call whose files could be read. Each report has a status and a line.
#[derive(Clone, Copy, PartialEq, Eq, Debug)]
pub enum Report {
    /// A run was accepted.
    Accepted {
        energy: i64,
        steps: u32,
    },
    /// A model is legal, and has this many full voxels.
    Legal {
        resolution: u16,
        full: u32,
    },
    /// A file was made; its length in bytes, and the number of commands in its trace or text.
    Stored {
        commands: u64,
        bytes: u64,
    },
    /// A model was forged, and has this many full voxels.
    Forged {
        resolution: u16,
        full: u32,
    },
    /// A plan is accepted; its energy, steps, commands, and bytes of its trace.
    Planned {
        energy: i64,
        steps: u32,
        commands: u64,
        bytes: u64,
    },
    /// A rule was broken.
    Broken(Broken),
    /// A model was refused.
    Model {
        who: Who,
        refusal: ModelRefusal,
    },
    /// The source and the target have different resolutions.
    Resolutions {
        source: u16,
        target: u16,
    },
    /// The bytes at this offset of a trace are no command.
    TraceBad {
        offset: u64,
    },
    /// A trace ends within the command that begins at this offset.
    TraceCut {
        offset: u64,
    },
    /// A trace is longer than the limit in bytes.
    TraceLong {
        limit: u64,
    },
    /// A text was refused.
    Text(TextRefusal),
    /// A text is longer than the limit in bytes.
    TextLong {
        limit: u64,
    },
    /// A plan of the group planner may have too many bytes, by the runs and rows of both models.
    GroupLong {
        runs: u64,
        rows: u64,
    },
    /// A part of the target is unsupported; the least voxel of all such parts.
    Unsupported {
        at: Coord,
    },
    /// A model was forged; the costs of both plans of it.
    Exercised {
        number: u32,
        resolution: u16,
        full: u32,
        layer: Cost,
        group: Cost,
    },
}

/// The energy and the number of steps of an accepted plan.
#[derive(Clone, Copy, PartialEq, Eq, Debug)]
pub struct Cost {
    pub energy: i64,
    pub steps: u32,
}

impl Who {
    /// Returns the word for the role in a line.
    pub(crate) fn name(self) -> &'static str
        ensures { result.now ≡ who_of self }
    {
        match self {
            Who::Model => "model",
            Who::Source => "source",
            Who::Target => "target",
        }
    }
}

impl Report {
    /// Returns the report of a verdict.
    pub fn of_verdict(verdict: Verdict) -> Report
        ensures { result ≡ of_verdict verdict }
    {
        match verdict {
            Verdict::Accepted { energy, steps } => Report::Accepted { energy, steps },
            Verdict::Refused(broken) => Report::Broken(broken),
        }
    }

    /// Returns the report on a file with these commands and bytes.
    pub fn of_commands(commands: &[Command], bytes: &[u8]) -> Report
        ensures { result ≡ Report.Stored (length commands.now) (length bytes.now) }
    {
        Report::Stored {
            commands: commands.len() as u64,
            bytes: bytes.len() as u64,
        }
    }

    /// Returns the report on a plan whose commands have these bytes.
    pub fn of_plan(plan: &Plan, bytes: &[u8]) -> Report
        ensures { result ≡ Report.Planned plan.now.energy plan.now.steps (length plan.now.commands) (length bytes.now) }
    {
        Report::Planned {
            energy: plan.energy,
            steps: plan.steps,
            commands: plan.commands.as_slice().len() as u64,
            bytes: bytes.len() as u64,
        }
    }

    /// Returns the status of the report.
    pub fn status(&self) -> Status
        ensures { result ≡ status_of self.now }
    {
        match self {
            Report::Accepted { .. }
            | Report::Legal { .. }
            | Report::Stored { .. }
            | Report::Forged { .. }
            | Report::Planned { .. }
            | Report::Exercised { .. } => Status::Done,
            Report::Broken(_) => Status::Broken,
            Report::Model { .. } | Report::Resolutions { .. } | Report::GroupLong { .. } => {
                Status::Model
            }
            Report::TraceBad { .. } | Report::TraceCut { .. } | Report::TraceLong { .. } => {
                Status::Trace
            }
            Report::Text(_) | Report::TextLong { .. } => Status::Text,
            Report::Unsupported { .. } => Status::Unsupported,
        }
    }

    /// Returns the line of the report.
    pub fn line(&self, alloc: Global) -> Result<String, AllocError>
        ensures { IfOk result (λ s. string_bytes s ≡ report_line self.now) }
    {
        match self {
            Report::Accepted { energy, steps } => {
                format!(in alloc; "ok energy {energy} steps {steps}\n")
            }
            Report::Legal { resolution, full } => {
                format!(in alloc; "legal resolution {resolution} full {full}\n")
            }
            Report::Stored { commands, bytes } => {
                format!(in alloc; "commands {commands} bytes {bytes}\n")
            }
            Report::Forged { resolution, full } => {
                format!(in alloc; "model resolution {resolution} full {full}\n")
            }
            Report::Planned {
                energy,
                steps,
                commands,
                bytes,
            } => planned_line(alloc, *energy, *steps, *commands, *bytes),
            Report::Broken(broken) => broken_line(alloc, broken),
            Report::Model { who, refusal } => model_line(alloc, *who, *refusal),
            Report::Resolutions { source, target } => resolutions_line(alloc, *source, *target),
            Report::TraceBad { offset } => format!(in alloc; "trace bad at {offset}\n"),
            Report::TraceCut { offset } => format!(in alloc; "trace cut at {offset}\n"),
            Report::TraceLong { limit } => format!(in alloc; "trace longer than {limit}\n"),
            Report::Text(refusal) => text_line(alloc, *refusal),
            Report::TextLong { limit } => format!(in alloc; "text longer than {limit}\n"),
            Report::GroupLong { runs, rows } => group_long_line(alloc, *runs, *rows),
            Report::Unsupported { at } => unsupported_line(alloc, *at),
            Report::Exercised {
                number,
                resolution,
                full,
                layer,
                group,
            } => exercised_line(alloc, *number, *resolution, *full, *layer, *group),
        }
    }
}
