//! The top call.
ghost use Rattle.std.specs.Io.KnownBytes.{append_known};
ghost use Rattle.std.specs.Prelude.{◌≡◌, ◌⊎◌, ◌↔◌, ◌≤◌, ℕ, ℤ, List, Option, Some, [], All, IfSome, IsSomeAnd};
ghost use Rattle.nano_spec.specs.Profile.{full_profile};
ghost use Rattle.vox_depot.specs.Causes.{Rose};
ghost use Rattle.nanobot_rows.specs.Answer.{Answer, AnswerOf, AnswerOfRun, Reply};
ghost use Rattle.nanobot_rows.specs.Effects.{MayKeep, bytes_by};
ghost use Rattle.nanobot_app.specs.Headline.{IsDoneWith, MachineTakes};
ghost use Rattle.nanobot_words.specs.Parsing.{row_of};
ghost use Rattle.nanobot_app.specs.Outcome.{Delivered, DeliveredPart, Finished, IsAnswer, CallOutcome, SparesOthers, AnswerStands, Printed, RowStores, StoredBy, Told, outside};
ghost use Rattle.nanobot_words.specs.Rows.{IsInNoRow, IsOfTable, IsRow, IsRunOf, MayRead, MayStore, Row as RowOf, reads_of, stores_of, texts};
ghost use Rattle.nanobot_rows.specs.Touching.{IsRowWithin};

use crate::laws::{costs_are_told_apart, one_answer};
use nanobot_rows::{Effect, Message, Report, Status, Stop, answer};
use nanobot_words::{Row, one_row, parse};
use std::alloc::Global;
use std::sync::ledger::Ledger;
use vox_depot::{Depot, Sink, SinkFault};
use vox_geom::Steps;

/// Writes the line in one put, and returns the status.
fn print<O: Sink>(out: &mut O, status: Status, line: &[u8]) -> Status
    ensures { Printed status line.now (O.written out.old) (O.written out.new) (O.faults out.old) (O.faults out.new)
        result }
{
    match out.put(line) {
        Ok(()) => status,
        Err(SinkFault) => Status::Sink,
    }
}

/// Writes the line of the report.
fn tell<O: Sink>(alloc: Global, out: &mut O, report: &Report) -> Status
    ensures { Told report.now (O.written out.old) (O.written out.new) (O.faults out.old) (O.faults out.new) result }
{
    let Ok(line) = report.line(alloc) else {
        return Status::Memory;
    };
    print(out, report.status(), line.as_bytes())
}

/// Stores the file of the effect, if there is one, and then writes these bytes of its message.
fn store_and_print<D: Depot, O: Sink>(
    depot: &mut D,
    out: &mut O,
    effect: &Effect<'_>,
    bytes: &[u8],
) -> Status
    requires may_store { MayKeep D.may_store effect.now.file }
    requires bytes { bytes.now ≡ bytes_by effect.now.message }
    ensures finished { Finished effect.now
        (outside D.files D.faults D.failed_stores O.written O.faults depot.old out.old)
        (outside D.files D.faults D.failed_stores O.written O.faults depot.new out.new) result }
    ensures later { D.faults depot.old ≤ D.faults depot.new }
{
    if effect.keep(depot).is_err() {
        return Status::Depot;
    }
    print(out, effect.message.status(), bytes)
}

/// Stores the file of the effect, if there is one, and then writes its message. The memory for a report's line is allocated
/// first.
fn finish<D: Depot, O: Sink>(
    alloc: Global,
    depot: &mut D,
    out: &mut O,
    effect: &Effect<'_>,
) -> Status
    requires { MayKeep D.may_store effect.now.file }
    ensures finished { Finished effect.now
        (outside D.files D.faults D.failed_stores O.written O.faults depot.old out.old)
        (outside D.files D.faults D.failed_stores O.written O.faults depot.new out.new) result }
    ensures later { D.faults depot.old ≤ D.faults depot.new }
{
    match &effect.message {
        Message::Line(report) => {
            let Ok(line) = report.line(alloc) else {
                return Status::Memory;
            };
            store_and_print(depot, out, effect, line.as_bytes())
        }
        Message::Session(lines) => store_and_print(depot, out, effect, lines.as_slice()),
    }
}

/// Executes a command.
fn run_row<D: Depot, O: Sink, L: Ledger>(
    alloc: Global,
    row: Row<'_>,
    depot: &mut D,
    out: &mut O,
    steps: &mut Steps<L>,
) -> Status
    requires may_fetch { All D.may_fetch (reads_of (row_of row)) }
    requires may_store { (name : List ℕ) → stores_of (row_of row) ≡ Some name → D.may_store name }
    requires of_table { IsOfTable (row_of row) }
    ensures outcome { CallOutcome (AnswerOf (row_of row.entry)) (RowStores (row_of row.entry))
        (outside D.files D.faults D.failed_stores O.written O.faults depot.old out.old)
        (outside D.files D.faults D.failed_stores O.written O.faults depot.new out.new) result }
    ensures words { result ≡ Status.Words → ⊥ }
    ensures within { (result ≡ Status.Memory → ⊥)
        → IsRowWithin (row_of row.entry) (D.files depot.old) steps.old steps.new }
{
    match answer(alloc, row, depot, steps) {
        Ok(effect) => finish(alloc, depot, out, &effect),
        Err(Stop::Told(report)) => tell(alloc, out, &report),
        Err(Stop::Depot) => Status::Depot,
        Err(Stop::Memory) => Status::Memory,
    }
}

/// Executes the command given by the arguments.
fn run<D: Depot, O: Sink, L: Ledger>(
    alloc: Global,
    words: &[String],
    depot: &mut D,
    out: &mut O,
    steps: &mut Steps<L>,
) -> Status
    requires may_fetch { MayRead D.may_fetch (texts words.now) }
    requires may_store { MayStore D.may_store (texts words.now) }
    ensures outcome { CallOutcome (Answer (texts words.now)) (StoredBy (texts words.now))
        (outside D.files D.faults D.failed_stores O.written O.faults depot.old out.old)
        (outside D.files D.faults D.failed_stores O.written O.faults depot.new out.new) result }
    ensures words { result ≡ Status.Words → IsInNoRow (texts words.now) }
    ensures in_no_row { IsInNoRow (texts words.now) → (result ≡ Status.Words) ⊎ (result ≡ Status.Sink) }
    ensures within { (row : RowOf) → IsRow (texts words.now) row → (result ≡ Status.Memory → ⊥)
        → IsRowWithin row (D.files depot.old) steps.old steps.new }
{
    one_row();
    match parse(words) {
        None => print(out, Status::Words, b"words not understood\n"),
        Some(row) => run_row(alloc, row, depot, out, steps),
    }
}

/// Executes the command given by the arguments (docs/FORMATS.md, "Printed lines"): reads files of the depot, stores at most one,
/// and writes one line, or the text of a session, to the sink in one put.
pub fn drive<D: Depot, O: Sink, L: Ledger>(
    alloc: Global,
    words: &[String],
    depot: &mut D,
    out: &mut O,
    steps: &mut Steps<L>,
) -> Status
    // Only the names that the command reads or stores are granted.
    requires may_fetch { MayRead D.may_fetch (texts words.now) }
    requires may_store { MayStore D.may_store (texts words.now) }

    // `run S T B` answers 0 and prints energy E and step count K exactly when the specification's machine, which judges
    // all grounding afresh after every step, takes the whole trace B from model S to a halt at the origin in model T with
    // energy E in K steps: if the files and the output are known, no count rose, and memory sufficed.
    ensures headline { (source target : Option (List ℕ)) (trace : List ℕ)
        → IsRunOf (texts words.now) source target trace → (Rose (D.faults depot.old) (D.faults depot.new) → ⊥)
        → (Rose (O.faults out.old) (O.faults out.new) → ⊥) → (result ≡ Status.Memory → ⊥)
        → IfSome (D.files depot.old) (λ files. IfSome (O.written out.old) (λ before. (energy : ℤ) (count : ℕ)
        → MachineTakes files source target trace energy count
        ↔ IsDoneWith result (Some before) (O.written out.new) energy count)) }

    // If the output is not known, it still answers 0, and if counts rose, it still does so only then.
    ensures headline_where { (source target : Option (List ℕ)) (trace : List ℕ)
        → IsRunOf (texts words.now) source target trace → (Rose (D.faults depot.old) (D.faults depot.new) → ⊥)
        → (Rose (O.faults out.old) (O.faults out.new) → ⊥) → (result ≡ Status.Memory → ⊥)
        → IfSome (D.files depot.old) (λ files. (energy : ℤ) (count : ℕ)
        → MachineTakes files source target trace energy count
        → IsDoneWith result (O.written out.old) (O.written out.new) energy count) }
    ensures headline_only { (source target : Option (List ℕ)) (trace : List ℕ)
        → IsRunOf (texts words.now) source target trace → result ≡ Status.Done
        → IfSome (D.files depot.old) (λ files. (energy : ℤ) × (count : ℕ)
        × MachineTakes files source target trace energy count
        × IsDoneWith result (O.written out.old) (O.written out.new) energy count) }

    // Otherwise it prints the definition's refusal: the first bad file or byte, or the first step, bot and rule broken.
    ensures refusal { (source target : Option (List ℕ)) (trace : List ℕ)
        → IsRunOf (texts words.now) source target trace → IsAnswer result
        → IfSome (D.files depot.old) (λ files. (reply : Reply)
        × AnswerOfRun full_profile source target trace files reply × (result ≡ reply.status)
        × (O.written out.new ≡ append_known (O.written out.old) reply.line) × (D.files depot.new ≡ Some reply.after)) }

    // A status other than 5, 6 and 7 is the answer's, with its whole line written and its files stored. `run light S T B`
    // is answered as `run S T B` is, with the verdict of the light profile in place of the full one.
    ensures answer { IsAnswer result → AnswerStands (Answer (texts words.now))
        (outside D.files D.faults D.failed_stores O.written O.faults depot.old out.old)
        (outside D.files D.faults D.failed_stores O.written O.faults depot.new out.new)
        (Delivered result (outside D.files D.faults D.failed_stores O.written O.faults depot.old out.old)
        (outside D.files D.faults D.failed_stores O.written O.faults depot.new out.new)) }

    // If the files are known and no count rose, it is the answer's status or 7.
    ensures complete { (Rose (D.faults depot.old) (D.faults depot.new) → ⊥)
        → (Rose (O.faults out.old) (O.faults out.new) → ⊥)
        → IfSome (D.files depot.old)
        (λ files. (reply : Reply) → Answer (texts words.now) files reply → (result ≡ reply.status) ⊎
        (result ≡ Status.Memory)) }

    // The cause of each status.
    ensures words { result ≡ Status.Words → IsInNoRow (texts words.now) }
    ensures in_no_row { IsInNoRow (texts words.now) → (result ≡ Status.Words) ⊎ (result ≡ Status.Sink) }
    ensures depot { result ≡ Status.Depot
        → Rose (D.faults depot.old) (D.faults depot.new)
        ⊎ IsSomeAnd (D.files depot.old)
        (λ files. Answer (texts words.now) files (record { status = Status.Depot; line = []; after = files })) }
    ensures sink { result ≡ Status.Sink → Rose (O.faults out.old) (O.faults out.new) }

    // The files and the output after a fault and after out of memory.
    ensures nothing_written { result ≡ Status.Depot → O.written out.new ≡ O.written out.old }
    ensures others_stay { result ≡ Status.Depot → SparesOthers (Answer (texts words.now)) (StoredBy (texts words.now))
        (outside D.files D.faults D.failed_stores O.written O.faults depot.old out.old)
        (outside D.files D.faults D.failed_stores O.written O.faults depot.new out.new) }
    ensures part_written { result ≡ Status.Sink → AnswerStands (Answer (texts words.now))
        (outside D.files D.faults D.failed_stores O.written O.faults depot.old out.old)
        (outside D.files D.faults D.failed_stores O.written O.faults depot.new out.new)
        (DeliveredPart (outside D.files D.faults D.failed_stores O.written O.faults depot.old out.old)
        (outside D.files D.faults D.failed_stores O.written O.faults depot.new out.new)) }
    ensures memory_files { result ≡ Status.Memory → D.files depot.new ≡ D.files depot.old }
    ensures memory_line { result ≡ Status.Memory → O.written out.new ≡ O.written out.old }

    // A run makes at most a hundred touches for each voxel of its source and for each part of the work of its trace.
    ensures touches { (row : RowOf) → IsRow (texts words.now) row → (result ≡ Status.Memory → ⊥)
        → IsRowWithin row (D.files depot.old) steps.old steps.new }
{
    one_row();
    one_answer();
    costs_are_told_apart();
    run(alloc, words, depot, out, steps)
}
