//! The first form of a model file: the resolution, and a bit for each voxel.
ghost use Rattle.std.specs.Prelude.{◌≡◌, ◌<◌, ◌≤◌, ◌+◌, ◌/◌, ◌∷◌, IfOk, length, map, slice_index};
ghost use Rattle.vox_geom.specs.Space.{numbers_below};
ghost use Rattle.nano_spec.specs.Matrix.{empty as empty_of};
ghost use Rattle.nano_spec.specs.Model.{byte_at, first_form, volume as volume_of, voxel_bit, wanted as wanted_of};
ghost use Rattle.model_file.specs.Fault.{ReadsModel};
ghost use Rattle.model_file.specs.Words.{IsReadTo, IsWordOf, place_of_row};

use crate::fault::{ModelFault, ModelRefusal};
use std::alloc::Global;
use std::sync::ledger::Ledger;
use vox_geom::{Coord, MOST_R, Memory, Steps};
use vox_planes::Planes;

/// The greatest resolution of this form.
pub const FIRST_FORM_MOST_R: u8 = 250;

/// The number of voxels of a row that are read at a time: the first one's bit is in the lowest byte of a word.
const WORD_VOXELS: u16 = 57;

/// Returns the number of voxels at a resolution.
pub fn volume(r: u16) -> u32
    requires { r ≤ MOST_R }
    ensures { result ≡ volume_of r }
{
    let side = u32::from(r);
    side * side * side
}

/// Returns the number of bytes of this form at a resolution.
fn count_wanted(r: u16) -> u32
    requires { r ≤ MOST_R }
    ensures { result ≡ wanted_of r }
{
    1 + volume(r).div_ceil(8)
}

/// Returns a byte, and 0 behind the last one.
fn byte_or_zero(bytes: &[u8], at: usize) -> u8
    ensures { result ≡ slice_index bytes.now at }
{
    match bytes.get(at) {
        Some(byte) => *byte,
        None => 0,
    }
}

/// Returns eight bytes from an index on as the bits of a word, with bytes of 0 behind the last one.
fn word(bytes: &[u8], at: usize) -> u64
    requires { at ≤ length bytes.now }
    ensures { IsWordOf bytes.now at result }
{
    if bytes.len() - at < 8 {
        return u64::from_le_bytes([
            byte_or_zero(bytes, at),
            byte_or_zero(bytes, at + 1),
            byte_or_zero(bytes, at + 2),
            byte_or_zero(bytes, at + 3),
            byte_or_zero(bytes, at + 4),
            byte_or_zero(bytes, at + 5),
            byte_or_zero(bytes, at + 6),
            byte_or_zero(bytes, at + 7),
        ]);
    }
    u64::from_le_bytes([
        bytes[at],
        bytes[at + 1],
        bytes[at + 2],
        bytes[at + 3],
        bytes[at + 4],
        bytes[at + 5],
        bytes[at + 6],
        bytes[at + 7],
    ])
}

/// Sets the voxels of the row with this x and y from the bytes. All voxels before the row are set already, and all others are
/// void.
fn set_row(planes: &mut Planes, bytes: &[u8], x: u16, y: u16)
    requires length { length bytes.now ≡ wanted_of planes.old.resolution }
    requires x { x < planes.old.resolution }
    requires y { y < planes.old.resolution }
    requires read { IsReadTo planes.old bytes.now (place_of_row planes.old.resolution x y) }
    ensures read { IsReadTo planes.new bytes.now (place_of_row planes.old.resolution x (y + 1)) }
    ensures resolution { planes.new.resolution ≡ planes.old.resolution }
{
    planes.recall();
    let r = planes.resolution();
    let row = (u32::from(x) * u32::from(r) + u32::from(y)) * u32::from(r);
    let mut z = 0;
    while z < r {
        let count = (r - z).min(WORD_VOXELS);
        let place = row + u32::from(z);
        let first = Coord { x, y, z };
        let bits = (word(bytes, 1 + place as usize / 8) >> (place % 8)) % (1 << count);
        z += count;
        if bits == 0 {
            continue;
        }
        planes.set_row_bits(first, u32::from(count), bits);
    }
}

/// Sets the voxels with this x from the bytes. All voxels before them are set already, and all others are void.
fn set_wall(planes: &mut Planes, bytes: &[u8], x: u16)
    requires length { length bytes.now ≡ wanted_of planes.old.resolution }
    requires x { x < planes.old.resolution }
    requires read { IsReadTo planes.old bytes.now (place_of_row planes.old.resolution x 0) }
    ensures read { IsReadTo planes.new bytes.now (place_of_row planes.old.resolution (x + 1) 0) }
    ensures resolution { planes.new.resolution ≡ planes.old.resolution }
{
    for y in 0..planes.resolution() {
        set_row(planes, bytes, x, y);
    }
}

/// Sets the voxels of a void matrix from the bytes.
fn set_voxels(planes: &mut Planes, bytes: &[u8])
    requires length { length bytes.now ≡ wanted_of planes.old.resolution }
    requires void { planes.old ≡ empty_of planes.old.resolution }
    ensures { planes.new
        ≡ record {
          resolution = planes.old.resolution;
          voxels = map (voxel_bit bytes.now) (numbers_below (volume_of planes.old.resolution));
        } }
{
    planes.recall();
    for x in 0..planes.resolution() {
        set_wall(planes, bytes, x);
    }
}

/// Returns the model that the bytes of this form encode. The first byte is the resolution.
pub fn read_first(alloc: Global, r: u8, bytes: &[u8]) -> Result<Planes, ModelFault>
    ensures { ReadsModel (first_form r bytes.now) result }
{
    if r == 0 || r > FIRST_FORM_MOST_R {
        return Err(ModelFault::Refused(ModelRefusal::Resolution { r }));
    }
    let want = count_wanted(u16::from(r));
    if bytes.len() < want as usize {
        return Err(ModelFault::Refused(ModelRefusal::Short {
            want,
            have: bytes.len() as u32,
        }));
    }
    if bytes.len() > want as usize {
        return Err(ModelFault::Refused(ModelRefusal::Long { want }));
    }
    let mut planes = Planes::empty(alloc, u16::from(r))?;
    set_voxels(&mut planes, bytes);
    Ok(planes)
}

/// Returns the bytes of the model in this form.
pub fn write_first<L: Ledger>(
    alloc: Global,
    planes: &Planes,
    steps: &mut Steps<L>,
) -> Result<Vec<u8>, Memory>
    requires { planes.now.resolution ≤ FIRST_FORM_MOST_R }
    ensures { IfOk result
        (λ bytes. bytes.items ≡ planes.now.resolution ∷ map (byte_at planes.now.voxels)
        (numbers_below ((volume_of planes.now.resolution + 7) / 8))) }
{
    let r = planes.resolution();
    let places = volume(r);
    let count = places.div_ceil(8);
    let mut bytes = Vec::with_capacity(alloc, 1 + count as usize)?;
    bytes.push(r as u8).map_err(|_| Memory)?;
    for k in 0..count {
        let from = 8 * k;
        let byte = planes.places(from, (places - from).min(8), steps) as u8;
        bytes.push(byte).map_err(|_| Memory)?;
    }
    Ok(bytes)
}
