//! One call: a row over the caller's bytes, and the copy of its answer.
ghost use Rattle.std.specs.Prelude.{◌≡◌, ℕ, List, IfOk, Some, None};
ghost use Rattle.vox_geom.specs.Counting.{IsBlankOf};
ghost use Rattle.vox_depot.specs.Causes.{Rose};
ghost use Rattle.vox_depot.specs.Files.{content};
ghost use Rattle.nanobot_rows.specs.Answer.{AnswerOf};
ghost use Rattle.nanobot_rows.specs.Effects.{EndsStored, IsFor, bytes_by, status_by};
ghost use Rattle.nanobot_rows.specs.Report.{code_of, report_line, status_of};
ghost use Rattle.nanobot_words.specs.Parsing.{row_of};
ghost use Rattle.nanobot_words.specs.Rows.{IsOfTable, stores_of};
ghost use Rattle.nanobot_c.specs.Calls.{Gives, bytes_in};
ghost use Rattle.nanobot_c.specs.Given.{Gave, GaveNoRow, IsMemory, MayGive, file_or_line};
ghost use Rattle.nanobot_c.specs.Lent.{lent_files};

use crate::lent::{Lent, LentFiles};
use counter_permit::CounterPermit;
use nanobot_rows::{Effect, Message, Report, Status, Stop, answer};
use nanobot_words::Row;
use std::alloc::Global;
use std::marker::Brand;
use std::sync::ledger::{Blank, Ledger};
use vox_geom::Steps;

/// The status of a buffer that is too small.
const TOO_SMALL: u32 = 10;

/// Returns the number of a status.
pub fn code(status: Status) -> u32
    ensures { result ≡ code_of status }
{
    u32::from(status.code())
}

/// Writes the bytes to the front of the buffer if they fit, and stores their number in `size`.
fn give(status: Status, bytes: &[u8], out: &mut [u8], size: &mut usize) -> u32
    ensures { Gave (code_of status) bytes.now out.old out.new size.new result }
{
    *size = bytes.len();
    if bytes.len() > out.len() {
        return TOO_SMALL;
    }
    out[..bytes.len()].copy_from_slice(bytes);
    code(status)
}

/// Reports out of memory.
fn give_nothing(size: &mut usize) -> u32
    ensures answered { IsMemory result }
    ensures none { size.new ≡ 0 }
{
    *size = 0;
    code(Status::Memory)
}

/// Copies the answer to arguments that match no row of the table.
pub fn give_no_row(out: &mut [u8], size: &mut usize) -> u32
    ensures { GaveNoRow out.old out.new size.new result }
{
    give(Status::Words, b"words not understood\n", out, size)
}

/// Copies the line of the report.
fn give_line(alloc: Global, report: &Report, out: &mut [u8], size: &mut usize) -> u32
    ensures { MayGive (code_of (status_of report.now)) (report_line report.now) out.old out.new size.new result }
{
    let Ok(line) = report.line(alloc) else {
        return give_nothing(size);
    };
    give(report.status(), line.as_bytes(), out, size)
}

/// Copies the file of the effect, or its message if there is none.
fn give_effect(alloc: Global, effect: &Effect<'_>, out: &mut [u8], size: &mut usize) -> u32
    ensures { MayGive (code_of (status_by effect.now.message))
        (file_or_line (bytes_in effect.now.file) (bytes_by effect.now.message)) out.old out.new size.new result }
{
    if let Some(file) = &effect.file {
        return give(effect.message.status(), file.bytes.as_slice(), out, size);
    }
    match &effect.message {
        Message::Line(report) => give_line(alloc, report, out, size),
        Message::Session(lines) => give(Status::Done, lines.as_slice(), out, size),
    }
}

/// Returns the row's effect over the lent bytes, with a counter of this ledger. No fault occurs, since no file is stored, but no
/// contract below says so: a fault would be reported as out of memory.
fn ask_counted<L: Ledger>(
    alloc: Global,
    row: Row<'static>,
    lent: Lent<'_>,
    blank: Blank,
) -> Result<Effect<'static>, Stop>
    requires blank { IsBlankOf blank L.name L.parts }
    requires of_table { IsOfTable (row_of row) }
    ensures finishes { EndsStored (AnswerOf (row_of row.entry)) (Some (lent_files lent.entry)) (Rose 0 0) result }
    ensures named { IfOk result (IsFor (stores_of (row_of row.entry))) }
{
    let mut files = LentFiles { lent, faults: 0 };
    let mut steps = Steps::<L>::new(blank, CounterPermit);
    let effect = answer(alloc, row, &mut files, &mut steps);
    if files.faults > 0 {
        return Err(Stop::Memory);
    }
    effect
}

/// Returns the row's effect over the lent bytes.
pub fn ask(alloc: Global, row: Row<'static>, lent: Lent<'_>) -> Result<Effect<'static>, Stop>
    requires of_table { IsOfTable (row_of row) }
    ensures finishes { EndsStored (AnswerOf (row_of row.entry)) (Some (lent_files lent.entry)) (Rose 0 0) result }
    ensures named { IfOk result (IsFor (stores_of (row_of row.entry))) }
{
    ask_counted::<Brand>(alloc, row, lent, Blank::new(1))
}

/// Copies the row's answer over the lent bytes: the file that it stores, or its line if there is none.
pub fn call(
    alloc: Global,
    row: Row<'static>,
    lent: Lent<'_>,
    out: &mut [u8],
    size: &mut usize,
) -> u32
    requires of_table { IsOfTable (row_of row) }
    requires new_name { (name : List ℕ) → stores_of (row_of row) ≡ Some name → content (lent_files lent) name ≡ None }
    ensures { Gives (row_of row.entry) (lent_files lent.entry) out.old out.new size.new result }
{
    match ask(alloc, row, lent) {
        Ok(effect) => give_effect(alloc, &effect, out, size),
        Err(Stop::Told(report)) => give_line(alloc, &report, out, size),
        Err(Stop::Depot) => give(Status::Depot, &[], out, size),
        Err(Stop::Memory) => give_nothing(size),
    }
}
