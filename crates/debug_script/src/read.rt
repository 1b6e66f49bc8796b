//! Reading a script.
ghost use Rattle.std.specs.Prelude.{◌≤◌, length};
ghost use Rattle.debug_script.specs.Calls.{ReadsScript};

use crate::line::{ScriptLine, read_line};
use std::alloc::Global;
use trace_text::{TextFault, cut_line};

/// Returns the lines of a script over a source of this resolution, or its first faulty line, counted from 1 (docs/FORMATS.md,
/// "Sessions").
#[tactic(auto, using(crate::proofs::Reading::nothing_read))]
pub fn read_script(
    alloc: Global,
    bytes: &[u8],
    resolution: u16,
) -> Result<Vec<ScriptLine>, TextFault>
    requires { length bytes.now ≤ 65536 }
    ensures { ReadsScript resolution bytes.now result }
{
    let mut script = Vec::new(alloc);
    let mut left = bytes;
    let mut number = 0u32;
    while !left.is_empty() {
        let (line, more) = cut_line(left);
        left = more;
        number += 1;
        let said = read_line(line, number, resolution)?;
        if script.push(said).is_err() {
            return Err(TextFault::Memory);
        }
    }
    Ok(script)
}
