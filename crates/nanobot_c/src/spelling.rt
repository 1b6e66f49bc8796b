//! Assembling texts and disassembling traces.
ghost use Rattle.std.specs.Prelude.{◌≡◌, []};
ghost use Rattle.nanobot_words.specs.Rows.{asm as asm_row, dis as dis_row};
ghost use Rattle.nanobot_c.specs.Calls.{GaveFileOf};
ghost use Rattle.nanobot_c.specs.Given.{IsMemory};
ghost use Rattle.nanobot_c.specs.Lent.{lent, plan_name, source_name, trace_name};

use crate::call::call;
use crate::lent::Lent;
use nanobot_words::Row;
use std::alloc::Global;

/// Assembles a text. Writes the trace that `nanobot asm X B` stores; for a refused text, the line that it prints.
#[unsafe(no_mangle)]
pub extern "C" fn nanobot_asm(alloc: Global, text: &[u8], trace: &mut [u8], size: &mut usize) -> u32
    ensures answer { (IsMemory result → ⊥)
        → GaveFileOf plan_name (asm_row source_name plan_name) (lent text.now [] []) trace.old trace.new size.new
        result }
    ensures memory { IsMemory result → (trace.new ≡ trace.old) × (size.new ≡ 0) }
{
    let row = Row::Asm {
        text: "s",
        trace: "p",
    };
    let lent = Lent {
        source: text,
        target: &[],
        trace: &[],
    };
    call(alloc, row, lent, trace, size)
}

/// Disassembles a trace. Writes the text that `nanobot dis B X` stores; for a refused trace, the line that it prints.
#[unsafe(no_mangle)]
pub extern "C" fn nanobot_dis(alloc: Global, trace: &[u8], text: &mut [u8], size: &mut usize) -> u32
    ensures answer { (IsMemory result → ⊥)
        → GaveFileOf plan_name (dis_row trace_name plan_name) (lent [] [] trace.now) text.old text.new size.new result }
    ensures memory { IsMemory result → (text.new ≡ text.old) × (size.new ≡ 0) }
{
    let row = Row::Dis {
        trace: "b",
        text: "p",
    };
    let lent = Lent {
        source: &[],
        target: &[],
        trace,
    };
    call(alloc, row, lent, text, size)
}
