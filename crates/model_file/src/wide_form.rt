//! The wide form of a model file: a mark, the resolution in two bytes, and runs of voxels, alternately void and full.
ghost use Rattle.std.specs.Prelude.{◌≡◌, ◌+◌, ◌-◌, ◌≤◌, ◌<◌, ◌&&◌, ◌||◌, ◌∷◌, ◌/◌, ◌%◌, ◌^◌, [], ℕ, Bool, false, flat_map, IfOk, List, length, slice_index};
ghost use Rattle.nano_spec.specs.Matrix.{empty as empty_of};
ghost use Rattle.nano_spec.specs.Model.{four_bytes, number_of_four, of_runs, run_lengths, runs_in, volume as volume_of, wide_form};
ghost use Rattle.vox_planes.specs.Places.{is_from, voxel_at};
ghost use Rattle.vox_planes.specs.Voxel.{IsWhole};
ghost use Rattle.model_file.specs.Fault.{ReadsModel};
ghost use Rattle.model_file.specs.Runs.{FillsRuns, with_runs};

use crate::WIDE_MARK;
use crate::fault::{ModelFault, ModelRefusal};
use crate::first_form::volume;
use std::alloc::Global;
use std::sync::ledger::Ledger;
use vox_geom::{Coord, MOST_R, Memory, Steps};
use vox_planes::Planes;

/// The least resolution of this form.
const WIDE_FORM_LEAST_R: u16 = 251;

/// Returns the number in four bytes, the most significant first.
fn number_at(bytes: &[u8], at: usize) -> u32
    requires { at + 4 ≤ length bytes.now }
    ensures { result
        ≡ number_of_four (slice_index bytes.now at) (slice_index bytes.now (at + 1)) (slice_index bytes.now (at + 2))
        (slice_index bytes.now (at + 3)) }
{
    let first = u32::from(bytes[at]) * 256 + u32::from(bytes[at + 1]);
    let last = u32::from(bytes[at + 2]) * 256 + u32::from(bytes[at + 3]);
    first * 65536 + last
}

/// Fills the voxels of a run, if it is a full one.
fn fill_run(planes: &mut Planes, from: u32, end: u32, full: bool)
    requires order { from ≤ end }
    requires within { end ≤ volume_of planes.old.resolution }
    ensures places { (p : ℕ)
        → voxel_at planes.new p ≡ ((full && is_from from (end - from) p) || voxel_at planes.old p) }
    ensures resolution { planes.new.resolution ≡ planes.old.resolution }
    ensures whole { IsWhole planes.old → IsWhole planes.new }
{
    if !full {
        return;
    }
    planes.fill_places(from, end);
}

/// Fills the full runs of an empty matrix.
fn fill_runs(planes: &mut Planes, bytes: &[u8]) -> Result<(), ModelRefusal>
    requires { planes.old ≡ empty_of planes.old.resolution }
    ensures { FillsRuns planes.old.resolution bytes.now planes.new result }
{
    let places = volume(planes.resolution());
    let mut at = 0;
    let mut sum = 0;
    let mut index = 0;
    let mut full = false;
    while sum < places {
        if bytes.len() - at < 4 {
            return Err(ModelRefusal::WideShort { have: sum });
        }
        let run = number_at(bytes, at);
        if run == 0 && index > 0 {
            return Err(ModelRefusal::WideRun { index });
        }
        if places - sum < run {
            return Err(ModelRefusal::WideRun { index });
        }
        let end = sum + run;
        fill_run(planes, sum, end, full);
        at += 4;
        sum = end;
        index += 1;
        full = !full;
    }
    if at < bytes.len() {
        return Err(ModelRefusal::WideLong);
    }
    Ok(())
}

/// Returns the model that the bytes of this form encode behind the mark.
pub fn read_wide(alloc: Global, bytes: &[u8]) -> Result<Planes, ModelFault>
    ensures { ReadsModel (wide_form bytes.now) result }
{
    if bytes.len() < 2 {
        return Err(ModelFault::Refused(ModelRefusal::WideHead {
            have: 1 + bytes.len() as u32,
        }));
    }
    let r = u16::from(bytes[0]) * 256 + u16::from(bytes[1]);
    if r < WIDE_FORM_LEAST_R || r > MOST_R {
        return Err(ModelFault::Refused(ModelRefusal::WideResolution { r }));
    }
    let mut planes = Planes::empty(alloc, r)?;
    match fill_runs(&mut planes, &bytes[2..]) {
        Ok(()) => Ok(planes),
        Err(refusal) => Err(ModelFault::Refused(refusal)),
    }
}

/// An encoder of runs: the bytes so far, and the run that is not written yet.
#[derive(Drop)]
struct RunWriter {
    bytes: Vec<u8>,
    run: u32,
    full: bool,
}

impl RunWriter {
    /// Returns the mark and the resolution, and an empty run of void voxels.
    fn new(alloc: Global, r: u16) -> Result<RunWriter, Memory>
        ensures bytes { IfOk result (λ w. w.bytes.items ≡ WIDE_MARK ∷ r / 256 ∷ r % 256 ∷ []) }
        ensures run { IfOk result (λ w. w.run ≡ 0) }
        ensures full { IfOk result (λ w. w.full ≡ false) }
    {
        let mut bytes = Vec::new(alloc);
        bytes.extend_from_slice(&[WIDE_MARK, (r / 256) as u8, (r % 256) as u8])?;
        Ok(RunWriter {
            bytes,
            run: 0,
            full: false,
        })
    }

    /// Adds one voxel. Whatever voxels follow, the final bytes are the same as if it was still to come.
    fn add(&mut self, full: bool) -> Result<(), Memory>
        requires { self.old.run + 1 < 2 ^ 32 }
        ensures same { IfOk result
            (λ _. (more : List Bool) → with_runs self.new.bytes.items self.new.run self.new.full more ≡ with_runs
            self.old.bytes.items self.old.run self.old.full (full ∷ more)) }
        ensures run { IfOk result (λ _. self.new.run ≤ self.old.run + 1) }
    {
        if full == self.full {
            self.run += 1;
            return Ok(());
        }
        self.bytes.extend_from_slice(&self.run.to_be_bytes())?;
        self.run = 1;
        self.full = full;
        Ok(())
    }

    /// Returns the bytes, with the last run.
    fn end(self) -> Result<Vec<u8>, Memory>
        ensures { IfOk result (λ bytes. bytes.items ≡ with_runs self.bytes.items self.run self.full []) }
    {
        let mut bytes = self.bytes;
        bytes.extend_from_slice(&self.run.to_be_bytes())?;
        Ok(bytes)
    }
}

/// Returns the bytes of the model in this form.
pub fn write_wide<L: Ledger>(
    alloc: Global,
    planes: &Planes,
    steps: &mut Steps<L>,
) -> Result<Vec<u8>, Memory>
    ensures { IfOk result
        (λ bytes. bytes.items ≡ WIDE_MARK ∷ planes.now.resolution / 256 ∷ planes.now.resolution % 256
        ∷ flat_map four_bytes (run_lengths 0 false planes.now.voxels)) }
{
    let r = planes.resolution();
    let mut writer = RunWriter::new(alloc, r)?;
    for p in 0..volume(r) {
        let full = planes.full_at(Coord::of_place(p, r), steps);
        writer.add(full)?;
    }
    writer.end()
}
