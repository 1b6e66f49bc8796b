//! Commands as text.
ghost use Rattle.std.specs.Prelude.{◌≡◌, ◌<◌, ◌≤◌, ◌∷◌, ◌++◌, IfOk, OnOk, decimal, unsigned_abs};
ghost use Rattle.std.specs.Fmt.{signed_decimal};
ghost use Rattle.vox_geom.specs.Difference.{clen};
ghost use Rattle.nano_spec.specs.Printing.{print, printed, spaced};

use nano_spec::Command;
use std::alloc::Global;
use vox_geom::{Diff, Memory};

/// Returns the text of the commands: a line for each (docs/FORMATS.md, "Trace text").
#[tactic(auto, using(crate::proofs::Joined::printed_on))]
pub fn print_trace(alloc: Global, commands: &[Command]) -> Result<Vec<u8>, Memory>
    ensures { IfOk result (λ text. text.items ≡ print commands.now) }
{
    let mut text = Vec::new(alloc);
    for command in commands {
        print_command(&mut text, command)?;
        put(&mut text, b"\n")?;
    }
    Ok(text)
}

/// Appends bytes to the text.
fn put(text: &mut Vec<u8>, bytes: &[u8]) -> Result<(), Memory>
    ensures { OnOk result (text.new.items ≡ text.old.items ++ bytes.now) }
{
    text.extend_from_slice(bytes).map_err(|_| Memory)
}

/// Appends a command to the text, without the end of its line.
fn print_command(text: &mut Vec<u8>, command: &Command) -> Result<(), Memory>
    ensures { OnOk result (text.new.items ≡ text.old.items ++ printed command.now) }
{
    match command {
        Command::Halt => put(text, b"Halt"),
        Command::Wait => put(text, b"Wait"),
        Command::Flip => put(text, b"Flip"),
        Command::SMove(long) => one(text, b"SMove", long.diff()),
        Command::LMove(first, second) => two(text, b"LMove", first.diff(), second.diff()),
        Command::FusionP(near) => one(text, b"FusionP", near.diff()),
        Command::FusionS(near) => one(text, b"FusionS", near.diff()),
        Command::Fission(near, number) => {
            one(text, b"Fission", near.diff())?;
            put(text, b" ")?;
            print_number(text, *number)
        }
        Command::Fill(near) => one(text, b"Fill", near.diff()),
        Command::Void(near) => one(text, b"Void", near.diff()),
        Command::GFill(near, far) => two(text, b"GFill", near.diff(), far.diff()),
        Command::GVoid(near, far) => two(text, b"GVoid", near.diff(), far.diff()),
    }
}

/// Appends a word and a difference to the text.
fn one(text: &mut Vec<u8>, word: &[u8], difference: Diff) -> Result<(), Memory>
    requires { clen difference ≤ 30 }
    ensures { OnOk result (text.new.items ≡ text.old.items ++ word.now ++ spaced difference) }
{
    put(text, word)?;
    print_difference(text, difference)
}

/// Appends a word and two differences to the text.
fn two(text: &mut Vec<u8>, word: &[u8], first: Diff, second: Diff) -> Result<(), Memory>
    requires first { clen first ≤ 30 }
    requires second { clen second ≤ 30 }
    ensures { OnOk result (text.new.items ≡ text.old.items ++ word.now ++ spaced first ++ spaced second) }
{
    one(text, word, first)?;
    print_difference(text, second)
}

/// Appends a space and a difference to the text.
fn print_difference(text: &mut Vec<u8>, difference: Diff) -> Result<(), Memory>
    requires { clen difference ≤ 30 }
    ensures { OnOk result (text.new.items ≡ text.old.items ++ spaced difference) }
{
    put(text, b" <")?;
    print_signed(text, difference.dx)?;
    put(text, b",")?;
    print_signed(text, difference.dy)?;
    put(text, b",")?;
    print_signed(text, difference.dz)?;
    put(text, b">")
}

/// Appends a component to the text.
fn print_signed(text: &mut Vec<u8>, number: i16) -> Result<(), Memory>
    requires { unsigned_abs number ≤ 255 }
    ensures { OnOk result (text.new.items ≡ text.old.items ++ signed_decimal number) }
{
    if number < 0 {
        put(text, b"-")?;
    }
    print_number(text, number.unsigned_abs() as u8)
}

/// Appends a number to the text.
#[tactic(auto, using(crate::proofs::Decimals::one_digit, crate::proofs::Decimals::two_digits, crate::proofs::Decimals::three_digits))]
fn print_number(text: &mut Vec<u8>, number: u8) -> Result<(), Memory>
    ensures { OnOk result (text.new.items ≡ text.old.items ++ decimal number) }
{
    let ones = b'0' + number % 10;
    if number < 10 {
        return put(text, &[ones]);
    }
    let tens = b'0' + number / 10 % 10;
    if number < 100 {
        return put(text, &[tens, ones]);
    }
    put(text, &[b'0' + number / 100, tens, ones])
}
