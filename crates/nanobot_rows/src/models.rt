//! Models of files.
ghost use Rattle.std.specs.Prelude.{◌≡◌, Some, None, IfOk};
ghost use Rattle.nano_spec.specs.Legal.{IsLegal};
ghost use Rattle.vox_depot.specs.Causes.{Rose};
ghost use Rattle.nanobot_words.specs.Parsing.{side_of};
ghost use Rattle.nanobot_rows.specs.Answer.{ModelOf, ModelsOf};
ghost use Rattle.nanobot_rows.specs.Reading.{Finds, MayFetchSides, OnlyReads};

use crate::report::{Report, Who};
use crate::stop::Stop;
use model_file::{legal, read_model};
use nanobot_words::Side;
use std::alloc::Global;
use vox_depot::{Depot, load};
use vox_planes::Planes;

/// One byte more than the longest model file: the first bytes of a longer file decide its refusal.
const MOST_BYTES: u64 = 256_000_008;

/// Reads the legal model of a file.
pub fn load_model<D: Depot>(
    alloc: Global,
    depot: &mut D,
    name: &str,
    who: Who,
) -> Result<Planes, Stop>
    requires { D.may_fetch name.now }
    ensures reads { Finds (ModelOf who name.now) (D.files depot.old)
        (Rose (D.faults depot.old) (D.faults depot.new)) result }
    ensures only_reads { OnlyReads D.files D.faults D.failed_stores depot.old depot.new }
    ensures legal { IfOk result IsLegal }
{
    let bytes = load(alloc, depot, name, MOST_BYTES)?;
    let planes = match read_model(alloc, &bytes) {
        Ok(planes) => planes,
        Err(fault) => return Err(Stop::of_fault(who, fault)),
    };
    match legal(alloc, &planes) {
        Ok(()) => Ok(planes),
        Err(fault) => Err(Stop::of_fault(who, fault)),
    }
}

/// Reads the legal models of a source and a target, both files, of the same resolution.
fn load_both<D: Depot>(
    alloc: Global,
    depot: &mut D,
    source: &str,
    target: &str,
) -> Result<(Planes, Planes), Stop>
    requires source { D.may_fetch source.now }
    requires target { D.may_fetch target.now }
    ensures reads { Finds (ModelsOf (Some source.now) (Some target.now)) (D.files depot.old)
        (Rose (D.faults depot.old) (D.faults depot.new)) result }
    ensures only_reads { OnlyReads D.files D.faults D.failed_stores depot.old depot.new }
    ensures resolutions { IfOk result (λ models. models.0.resolution ≡ models.1.resolution) }
    ensures source { IfOk result (λ models. IsLegal models.0) }
    ensures target { IfOk result (λ models. IsLegal models.1) }
{
    let source = load_model(alloc, depot, source, Who::Source)?;
    let target = load_model(alloc, depot, target, Who::Target)?;
    if source.resolution() != target.resolution() {
        return Err(Stop::Told(Report::Resolutions {
            source: source.resolution(),
            target: target.resolution(),
        }));
    }
    Ok((source, target))
}

/// Reads the legal models of a source and a target of the same resolution. A side without a file is the empty model of the
/// other's resolution.
pub fn load_models<D: Depot>(
    alloc: Global,
    depot: &mut D,
    source: Side<'_>,
    target: Side<'_>,
) -> Result<(Planes, Planes), Stop>
    requires may_fetch { MayFetchSides D.may_fetch (side_of source) (side_of target) }
    requires some { side_of source ≡ None → side_of target ≡ None → ⊥ }
    ensures reads { Finds (ModelsOf (side_of source.entry) (side_of target.entry)) (D.files depot.old)
        (Rose (D.faults depot.old) (D.faults depot.new)) result }
    ensures only_reads { OnlyReads D.files D.faults D.failed_stores depot.old depot.new }
    ensures resolutions { IfOk result (λ models. models.0.resolution ≡ models.1.resolution) }
    ensures source { IfOk result (λ models. IsLegal models.0) }
    ensures target { IfOk result (λ models. IsLegal models.1) }
{
    match (source, target) {
        (Side::Named(source), Side::Named(target)) => load_both(alloc, depot, source, target),
        (Side::Named(source), Side::Empty) => {
            let source = load_model(alloc, depot, source, Who::Source)?;
            let target = Planes::empty(alloc, source.resolution())?;
            Ok((source, target))
        }
        (Side::Empty, Side::Named(target)) => {
            let target = load_model(alloc, depot, target, Who::Target)?;
            let source = Planes::empty(alloc, target.resolution())?;
            Ok((source, target))
        }
        (Side::Empty, Side::Empty) => unreachable!(),
    }
}
