//! The lines of reports.
ghost use Rattle.std.specs.Fmt.{signed_decimal};
ghost use Rattle.std.specs.List.{concat};
ghost use Rattle.std.specs.Prelude.{◌≡◌, ◌∷◌, [], IfOk, codes, decimal, string_bytes};
ghost use Rattle.debug_script.specs.Broken.{printed_place as place_of};
ghost use Rattle.model_file.specs.Fault.{why_refused};
ghost use Rattle.trace_text.specs.Text.{faulty_line};
ghost use Rattle.nanobot_rows.specs.Lines.{exercised_line as exercised_line_of, group_long_line as group_long_line_of, planned_line as planned_line_of, resolutions_line as resolutions_line_of, unsupported_line as unsupported_line_of};
ghost use Rattle.nanobot_rows.specs.Report.{faulty_text_line, refused_line};

use crate::report::{Cost, Who};
use debug_script::printed_place;
use model_file::ModelRefusal;
use std::alloc::{AllocError, Global};
use trace_text::TextRefusal;
use vox_geom::Coord;

/// Formats the line of a model with a coordinate that breaks a rule.
fn at_line(alloc: Global, who: &str, refusal: &str, at: Coord) -> Result<String, AllocError>
    ensures { IfOk result
        (λ s. string_bytes s ≡ concat (who.now ∷ refusal.now ∷ place_of at ∷ codes "\n" ∷ [])) }
{
    let place = printed_place(alloc, at)?;
    format!(in alloc; "{who}{refusal}{place}\n")
}

/// Formats the line of a refused model.
pub(crate) fn model_line(
    alloc: Global,
    who: Who,
    refusal: ModelRefusal,
) -> Result<String, AllocError>
    ensures { IfOk result (λ s. string_bytes s ≡ refused_line who (why_refused refusal)) }
{
    let who = who.name();
    match &refusal {
        ModelRefusal::NoByte => format!(in alloc; "{who} 1 NoByte\n"),
        ModelRefusal::Resolution { r } => format!(in alloc; "{who} 2 Resolution {r}\n"),
        ModelRefusal::Short { want, have } => {
            format!(in alloc; "{who} 3 Short want {want} have {have}\n")
        }
        ModelRefusal::Long { want } => format!(in alloc; "{who} 4 Long want {want}\n"),
        ModelRefusal::Border { at } => at_line(alloc, who, " 6 Border at ", *at),
        ModelRefusal::Floating { at } => at_line(alloc, who, " 7 Floating at ", *at),
        ModelRefusal::WideHead { have } => format!(in alloc; "{who} 8 WideHead have {have}\n"),
        ModelRefusal::WideResolution { r } => format!(in alloc; "{who} 9 WideResolution {r}\n"),
        ModelRefusal::WideRun { index } => format!(in alloc; "{who} 10 WideRun index {index}\n"),
        ModelRefusal::WideShort { have } => format!(in alloc; "{who} 11 WideShort have {have}\n"),
        ModelRefusal::WideLong => format!(in alloc; "{who} 12 WideLong\n"),
    }
}

/// Formats the line of a refused text.
pub(crate) fn text_line(alloc: Global, refusal: TextRefusal) -> Result<String, AllocError>
    ensures { IfOk result (λ s. string_bytes s ≡ faulty_text_line (faulty_line refusal)) }
{
    match &refusal {
        TextRefusal::NotAscii { line } => format!(in alloc; "text 1 NotAscii line {line}\n"),
        TextRefusal::UnknownWord { line } => format!(in alloc; "text 2 UnknownWord line {line}\n"),
        TextRefusal::Shape { line } => format!(in alloc; "text 3 Shape line {line}\n"),
        TextRefusal::Range { line } => format!(in alloc; "text 4 Range line {line}\n"),
    }
}

/// Formats the line of a target with an unsupported part.
pub(crate) fn unsupported_line(alloc: Global, at: Coord) -> Result<String, AllocError>
    ensures { IfOk result (λ s. string_bytes s ≡ unsupported_line_of at) }
{
    let place = printed_place(alloc, at)?;
    format!(in alloc; "unsupported at {place}\n")
}

/// Formats the numbers of a forged model.
fn exercised_head(
    alloc: Global,
    number: u32,
    resolution: u16,
    full: u32,
) -> Result<String, AllocError>
    ensures { IfOk result
        (λ s. string_bytes s ≡ concat (codes "exercise number " ∷ decimal number ∷ codes " resolution "
        ∷ decimal resolution ∷ codes " full " ∷ decimal full ∷ [])) }
{
    format!(in alloc; "exercise number {number} resolution {resolution} full {full}")
}

/// Appends the costs of both plans to the head of a line.
fn with_costs(alloc: Global, head: &str, layer: Cost, group: Cost) -> Result<String, AllocError>
    ensures { IfOk result (λ s. string_bytes s ≡ concat (head.now ∷ codes " layer energy " ∷ signed_decimal layer.energy
        ∷ codes " steps " ∷ decimal layer.steps ∷ codes " group energy " ∷ signed_decimal group.energy
        ∷ codes " steps " ∷ decimal group.steps ∷ codes "\n" ∷ [])) }
{
    format!(in alloc;
        "{head} layer energy {} steps {} group energy {} steps {}\n",
        layer.energy, layer.steps, group.energy, group.steps
    )
}

/// Formats the line of a forged model and the costs of its plans.
pub(crate) fn exercised_line(
    alloc: Global,
    number: u32,
    resolution: u16,
    full: u32,
    layer: Cost,
    group: Cost,
) -> Result<String, AllocError>
    ensures { IfOk result (λ s. string_bytes s ≡ exercised_line_of number resolution full layer group) }
{
    let head = exercised_head(alloc, number, resolution, full)?;
    with_costs(alloc, head.as_str(), layer, group)
}

/// Formats the line of a plan.
pub(crate) fn planned_line(
    alloc: Global,
    energy: i64,
    steps: u32,
    commands: u64,
    bytes: u64,
) -> Result<String, AllocError>
    ensures { IfOk result (λ s. string_bytes s ≡ planned_line_of energy steps commands bytes) }
{
    format!(in alloc; "plan energy {energy} steps {steps} commands {commands} bytes {bytes}\n")
}

/// Formats the line of two models of different resolutions.
pub(crate) fn resolutions_line(
    alloc: Global,
    source: u16,
    target: u16,
) -> Result<String, AllocError>
    ensures { IfOk result (λ s. string_bytes s ≡ resolutions_line_of source target) }
{
    format!(in alloc; "resolutions {source} {target}\n")
}

/// Formats the line of a plan by the group planner that may be too long.
pub(crate) fn group_long_line(alloc: Global, runs: u64, rows: u64) -> Result<String, AllocError>
    ensures { IfOk result (λ s. string_bytes s ≡ group_long_line_of runs rows) }
{
    format!(in alloc; "group plan too long runs {runs} rows {rows}\n")
}
