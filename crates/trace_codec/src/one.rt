//! One command from the front of bytes.
ghost use Rattle.std.specs.Prelude.{◌≡◌, ◌≢◌, ◌+◌, ◌*◌, ◌%◌, ◌<◌, ◌≤◌, ◌∷◌, ◌↔◌, ℕ, List, All, IsTrue};
ghost use Rattle.vox_geom.specs.Difference.{IsNear};
ghost use Rattle.nano_spec.specs.Spelling.{near_code};
ghost use Rattle.trace_codec.specs.FarFront.{SaysFar};
ghost use Rattle.trace_codec.specs.One.{BeginsWith};
ghost use Rattle.trace_codec.specs.declared.one.One.{One};

use crate::codes::{far_at, long_at, near_at, short_at};
use nano_spec::Command;
use vox_geom::{Far, Near};

/// The beginning of some bytes.
#[derive(Clone, Copy, PartialEq, Eq, Debug)]
pub enum One {
    /// The first `len` bytes spell the command.
    Got { command: Command, len: u8 },
    /// The bytes are a proper prefix of a spelling. The empty slice is one.
    More,
    /// No spelling begins the bytes, and they are no prefix of one.
    Bad,
}

/// Returns the beginning of the bytes. More bytes may follow a command.
#[inline(always)]
pub fn decode_one(bytes: &[u8]) -> One
    // The answer is true of the bytes.
    ensures answer { BeginsWith bytes.now result }
    // No other answer is.
    ensures only { (other : One) → BeginsWith bytes.now other → other ≡ result }
{
    match bytes {
        [] => One::More,
        [head, rest @ ..] => decode_from(*head, rest),
    }
}

/// [`decode_one`] for bytes whose first one the caller knows.
#[inline(always)]
pub(crate) fn decode_by(head: u8, bytes: &[u8]) -> One
    requires { (rest : List ℕ) × (bytes.now ≡ head ∷ rest) }
    ensures { BeginsWith bytes.now result }
{
    decode_from(head, &bytes[1..])
}

/// Returns the beginning of a byte and the bytes after it.
#[inline(always)]
fn decode_from(head: u8, rest: &[u8]) -> One
    ensures { BeginsWith (head ∷ rest.now) result }
{
    if head % 8 == 0b100 {
        return decode_move(head, rest);
    }
    match near_at(head / 8) {
        Some(near) => decode_near(head % 8, near, rest),
        // 31 is the code of no difference: it marks commands that have none.
        None => match head {
            0b1111_1111 => got(Command::Halt, 1),
            0b1111_1110 => got(Command::Wait, 1),
            0b1111_1101 => got(Command::Flip, 1),
            _ => One::Bad,
        },
    }
}

/// Returns a command of `len` bytes.
#[inline(always)]
fn got(command: Command, len: u8) -> One
    ensures { result ≡ One.Got command len }
{
    One::Got { command, len }
}

/// Returns the command of one byte at a near difference, by the low three bits of the byte.
#[inline(always)]
fn one_byte(kind: u8, near: Near) -> Command
    ensures primary { kind ≡ 7 → result ≡ Command.FusionP near }
    ensures secondary { kind ≡ 6 → result ≡ Command.FusionS near }
    ensures fill { kind ≡ 3 → result ≡ Command.Fill near }
    ensures void { kind ≡ 2 → result ≡ Command.Void near }
{
    match kind {
        0b111 => Command::FusionP(near),
        0b110 => Command::FusionS(near),
        0b011 => Command::Fill(near),
        _ => Command::Void(near),
    }
}

/// Returns a command at a near difference, by the low three bits of its first byte and the bytes after it.
#[inline(always)]
fn decode_near(kind: u8, near: Near, rest: &[u8]) -> One
    requires bits { kind < 8 }
    requires no_move { kind ≢ 4 }
    requires is_near { IsNear near }
    ensures { BeginsWith ((8 * near_code near + kind) ∷ rest.now) result }
{
    match kind {
        0b111 | 0b110 | 0b011 | 0b010 => got(one_byte(kind, near), 1),
        0b101 => match rest {
            [] => One::More,
            [number, ..] => got(Command::Fission(near, *number), 2),
        },
        0b001 => match far_front(rest) {
            FarFront::Got(far) => got(Command::GFill(near, far), 4),
            FarFront::More => One::More,
            FarFront::Bad => One::Bad,
        },
        _ => match far_front(rest) {
            FarFront::Got(far) => got(Command::GVoid(near, far), 4),
            FarFront::More => One::More,
            FarFront::Bad => One::Bad,
        },
    }
}

/// The beginning of bytes at a far difference.
enum FarFront {
    Got(Far),
    More,
    Bad,
}

/// Returns whether each byte is a component of a far difference and 30, or would be if it were not 0 in all three.
fn are_raised(bytes: &[u8]) -> bool
    ensures { IsTrue result ↔ All (λ b. b ≤ 60) bytes.now }
{
    bytes.iter().all(|b| *b <= 60)
}

/// Returns the beginning of the bytes at a far difference.
#[inline(always)]
fn far_front(bytes: &[u8]) -> FarFront
    ensures { SaysFar bytes.now result }
{
    match bytes {
        [x, y, z, ..] => match far_at(*x, *y, *z) {
            Some(far) => FarFront::Got(far),
            None => FarFront::Bad,
        },
        _ if are_raised(bytes) => FarFront::More,
        _ => FarFront::Bad,
    }
}

/// Returns a move, by its first byte, whose low three bits are 100, and the bytes after it.
#[inline(always)]
fn decode_move(head: u8, rest: &[u8]) -> One
    requires { head % 8 ≡ 4 }
    ensures { BeginsWith (head ∷ rest.now) result }
{
    match head {
        0b0001_0100 => decode_long(1, rest),
        0b0010_0100 => decode_long(2, rest),
        0b0011_0100 => decode_long(3, rest),
        _ => decode_two_moves(head, rest),
    }
}

/// Returns a two-leg move, by its first byte, and the bytes after it.
#[inline(always)]
fn decode_two_moves(head: u8, rest: &[u8]) -> One
    requires low_bits { head % 8 ≡ 4 }
    requires not_x { head ≢ 0b0001_0100 }
    requires not_y { head ≢ 0b0010_0100 }
    requires not_z { head ≢ 0b0011_0100 }
    ensures { BeginsWith (head ∷ rest.now) result }
{
    let first = head / 16 % 4;
    let second = head / 64;
    if first == 0 || second == 0 || head / 8 % 2 == 0 {
        return One::Bad;
    }
    decode_short(first, second, rest)
}

/// Returns a long move along an axis, by the bytes after the first.
#[inline(always)]
fn decode_long(axis: u8, rest: &[u8]) -> One
    requires low { 1 ≤ axis }
    requires high { axis ≤ 3 }
    ensures { BeginsWith ((16 * axis + 0b0100) ∷ rest.now) result }
{
    match rest {
        [] => One::More,
        [code, ..] => match long_at(axis, *code) {
            Some(long) => got(Command::SMove(long), 2),
            None => One::Bad,
        },
    }
}

/// Returns a two-leg move along two axes, by the bytes after the first.
#[inline(always)]
fn decode_short(first: u8, second: u8, rest: &[u8]) -> One
    requires first_low { 1 ≤ first }
    requires first_high { first ≤ 3 }
    requires second_low { 1 ≤ second }
    requires second_high { second ≤ 3 }
    ensures { BeginsWith ((64 * second + 16 * first + 0b1100) ∷ rest.now) result }
{
    let [codes, ..] = rest else {
        return One::More;
    };
    let Some(near_move) = short_at(first, *codes % 16) else {
        return One::Bad;
    };
    let Some(far_move) = short_at(second, *codes / 16) else {
        return One::Bad;
    };
    got(Command::LMove(near_move, far_move), 2)
}
