//! Model files in either form.
ghost use Rattle.std.specs.Prelude.{◌≡◌, IfOk};
ghost use Rattle.vox_geom.specs.Counting.{IsBlankOf};
ghost use Rattle.nano_spec.specs.Model.{model, written};
ghost use Rattle.model_file.specs.Fault.{ReadsModel};

use crate::WIDE_MARK;
use crate::fault::{ModelFault, ModelRefusal};
use crate::first_form::{FIRST_FORM_MOST_R, read_first, write_first};
use crate::wide_form::{read_wide, write_wide};
use counter_permit::CounterPermit;
use std::alloc::Global;
use std::marker::Brand;
use std::sync::ledger::{Blank, Ledger};
use vox_geom::{Memory, Steps};
use vox_planes::Planes;

/// Returns the model that the bytes encode, in either form.
pub fn read_model(alloc: Global, bytes: &[u8]) -> Result<Planes, ModelFault>
    ensures { ReadsModel (model bytes.now) result }
{
    if bytes.is_empty() {
        return Err(ModelFault::Refused(ModelRefusal::NoByte));
    }
    if bytes[0] == WIDE_MARK {
        return read_wide(alloc, &bytes[1..]);
    }
    read_first(alloc, bytes[0], bytes)
}

/// Returns the bytes of the model. Its reads use a counter of touches that is discarded.
fn write_by<L: Ledger>(alloc: Global, planes: &Planes, blank: Blank) -> Result<Vec<u8>, Memory>
    requires blank { IsBlankOf blank L.name L.parts }
    ensures { IfOk result (λ bytes. bytes.items ≡ written planes.now) }
{
    let mut steps: Steps<L> = Steps::new(blank, CounterPermit);
    if planes.resolution() > u16::from(FIRST_FORM_MOST_R) {
        return write_wide(alloc, planes, &mut steps);
    }
    write_first(alloc, planes, &mut steps)
}

/// Returns the bytes of the model: the first form up to resolution 250, with padding bits 0, and the wide form above.
pub fn write_model(alloc: Global, planes: &Planes) -> Result<Vec<u8>, Memory>
    ensures { IfOk result (λ bytes. bytes.items ≡ written planes.now) }
{
    write_by::<Brand>(alloc, planes, Blank::new(1))
}
