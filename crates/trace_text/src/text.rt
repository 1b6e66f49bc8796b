//! Reading a text.
ghost use Rattle.std.specs.Prelude.{◌≡◌, ◌<◌, ◌≤◌, ◌^◌, ◌∷◌, length};
ghost use Rattle.nano_spec.specs.Reading.{lines};
ghost use Rattle.trace_text.specs.Text.{ReadsText};

use crate::fault::TextFault;
use crate::line::{Line, read_line};
use crate::parts::find_byte;
use nano_spec::CommandList;
use std::alloc::Global;

/// Returns the commands in the lines of the text (docs/FORMATS.md, "Trace text").
#[tactic(auto, using(crate::proofs::Texts::nothing_read, crate::proofs::Texts::skipped_on, crate::proofs::Texts::says_on, crate::proofs::Texts::faulty_here, crate::proofs::Texts::all_read))]
pub fn read_text(alloc: Global, bytes: &[u8]) -> Result<CommandList, TextFault>
    requires { length bytes.now ≤ 2 ^ 30 }
    ensures { ReadsText bytes.now result }
{
    let mut commands = CommandList::new(alloc);
    let mut left = bytes;
    let mut number = 0u32;
    while !left.is_empty() {
        let (line, more) = cut_line(left);
        left = more;
        number += 1;
        match read_line(line) {
            Line::Skipped => {}
            Line::Says(command) => commands.push(command)?,
            Line::Faulty(fault) => return Err(TextFault::Refused(fault.at(number))),
        }
    }
    Ok(commands)
}

/// Returns the first line of a text without its line feed, and the lines after it.
#[tactic(auto, using(crate::proofs::Cuts::last_line, crate::proofs::Cuts::first_line))]
pub fn cut_line(text: &[u8]) -> (&[u8], &[u8])
    requires { 0 < length text.now }
    ensures lines { lines text.now ≡ result.0.now ∷ lines result.1.now }
    ensures shorter { length result.1.now < length text.now }
{
    let end = find_byte(b'\n', text);
    if end == text.len() {
        return (text, &[]);
    }
    (&text[..end], &text[end + 1..])
}
