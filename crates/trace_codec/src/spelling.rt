//! A command's unique spelling.
ghost use Rattle.std.specs.Prelude.{◌≡◌, ◌+◌, ◌*◌, ◌<◌, ◌≤◌, [], ◌∷◌, length, unsigned_abs};
ghost use Rattle.vox_geom.specs.Difference.{IsFar, IsLong, IsNear, IsShort, mlen};
ghost use Rattle.nano_spec.specs.Command.{IsCommand};
ghost use Rattle.nano_spec.specs.Spelling.{axis as axis_of, component as component_of, far_bytes, near_code as near_code_of, raised as raised_by, spelling};

use arrayvec::ArrayVec;
use nano_spec::Command;
use vox_geom::{Diff, Far, Long, Near, Short};

/// Returns the command's spelling.
#[inline(always)]
pub fn encode_one(command: Command) -> ArrayVec<u8, 4>
    ensures spelling { result.items ≡ spelling command }
    ensures is_command { IsCommand command }
{
    match command {
        Command::Halt => one_byte(0b1111_1111),
        Command::Wait => one_byte(0b1111_1110),
        Command::Flip => one_byte(0b1111_1101),
        Command::SMove(long) => {
            let head = 16 * axis(long.diff()) + 0b0100;
            two_bytes(head, long_code(long))
        }
        Command::LMove(first, second) => {
            let head = 64 * axis(second.diff()) + 16 * axis(first.diff()) + 0b1100;
            two_bytes(head, 16 * short_code(second) + short_code(first))
        }
        Command::FusionP(near) => one_byte(near_head(near, 0b111)),
        Command::FusionS(near) => one_byte(near_head(near, 0b110)),
        Command::Fission(near, number) => two_bytes(near_head(near, 0b101), number),
        Command::Fill(near) => one_byte(near_head(near, 0b011)),
        Command::Void(near) => one_byte(near_head(near, 0b010)),
        Command::GFill(near, far) => group_bytes(near_head(near, 0b001), far),
        Command::GVoid(near, far) => group_bytes(near_head(near, 0b000), far),
    }
}

/// Returns the number of bytes of the command's spelling.
pub(crate) fn spelled_len(command: &Command) -> usize
    ensures { result ≡ length (spelling command.now) }
{
    match command {
        Command::Halt | Command::Wait | Command::Flip => 1,
        Command::SMove(_) | Command::LMove(_, _) | Command::Fission(_, _) => 2,
        Command::FusionP(_) | Command::FusionS(_) | Command::Fill(_) | Command::Void(_) => 1,
        Command::GFill(_, _) | Command::GVoid(_, _) => 4,
    }
}

fn one_byte(byte: u8) -> ArrayVec<u8, 4>
    ensures { result.items ≡ byte ∷ [] }
{
    let mut bytes = ArrayVec::new();
    bytes.push(byte);
    bytes
}

fn two_bytes(head: u8, second: u8) -> ArrayVec<u8, 4>
    ensures { result.items ≡ head ∷ second ∷ [] }
{
    let mut bytes = one_byte(head);
    bytes.push(second);
    bytes
}

fn group_bytes(head: u8, far: Far) -> ArrayVec<u8, 4>
    ensures bytes { result.items ≡ head ∷ far_bytes far }
    ensures kind { IsFar far }
{
    let d = far.diff();
    let mut bytes = one_byte(head);
    bytes.push(raise(d.dx, 30));
    bytes.push(raise(d.dy, 30));
    bytes.push(raise(d.dz, 30));
    bytes
}

/// Returns the first byte of a command at a near difference, with these low three bits.
fn near_head(near: Near, low: u8) -> u8
    requires { low < 8 }
    ensures value { result ≡ 8 * near_code_of near + low }
    ensures kind { IsNear near }
{
    8 * near_code(near) + low
}

/// Returns the code of a near difference.
#[tactic(auto, using(nano_spec::proofs::Codes::near_bounds))]
fn near_code(near: Near) -> u8
    ensures value { result ≡ near_code_of near }
    ensures below { result ≤ 26 }
    ensures kind { IsNear near }
{
    let d = near.diff();
    9 * raise(d.dx, 1) + 3 * raise(d.dy, 1) + raise(d.dz, 1)
}

/// Returns the axis of a linear difference: 1 for x, 2 for y, 3 for z.
fn axis(d: Diff) -> u8
    ensures value { result ≡ axis_of d }
    ensures below { result ≤ 3 }
{
    if d.dx != 0 {
        1
    } else if d.dy != 0 {
        2
    } else {
        3
    }
}

/// Returns the code of a long difference, which its axis completes.
fn long_code(long: Long) -> u8
    ensures value { result ≡ raised_by (component_of long) 15 }
    ensures below { result ≤ 30 }
    ensures kind { IsLong long }
{
    raise(component(long.diff()), 15)
}

/// Returns the code of a short difference, which its axis completes.
fn short_code(short: Short) -> u8
    ensures value { result ≡ raised_by (component_of short) 5 }
    ensures below { result ≤ 10 }
    ensures kind { IsShort short }
{
    raise(component(short.diff()), 5)
}

/// Returns the one component of a linear difference that is not 0.
fn component(d: Diff) -> i16
    requires { mlen d ≤ 15 }
    ensures value { result ≡ component_of d }
    ensures within { unsigned_abs result ≤ mlen d }
{
    d.dx + d.dy + d.dz
}

/// Returns a component with an offset that makes it not negative.
#[tactic(auto, using(nano_spec::proofs::Codes::raised_small))]
fn raise(component: i16, by: u8) -> u8
    requires within { unsigned_abs component ≤ by }
    requires small { by ≤ 30 }
    ensures value { result ≡ raised_by component by }
    ensures below { result ≤ 2 * by }
{
    (component + i16::from(by)).unsigned_abs() as u8
}
