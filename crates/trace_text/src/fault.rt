//! The reasons why a text is no trace.
ghost use Rattle.std.specs.Prelude.{◌≡◌};
ghost use Rattle.trace_text.specs.declared.fault.TextFault.TheVariants.{Memory as no_memory, Refused};
ghost use Rattle.trace_text.specs.Text.{fault_of, faulty_line, text_refusal_number};

use vox_geom::Memory;

/// The reason why a text is no trace (docs/FORMATS.md, "Trace text"): the fault of its first faulty line, whose number counts from
/// 1. If several apply to that line, it is the first of them here.
#[derive(Clone, Copy, PartialEq, Eq, Debug)]
pub enum TextRefusal {
    /// The line has a byte above 7F, be it in a comment.
    NotAscii { line: u32 },
    /// The line's word is none of the twelve.
    UnknownWord { line: u32 },
    /// The rest of the line does not have the word's form.
    Shape { line: u32 },
    /// A difference is not of its kind, or Fission's number is not 0 to 255.
    Range { line: u32 },
}

/// The reason why a text was not read.
#[derive(Clone, Copy, PartialEq, Eq, Debug)]
pub enum TextFault {
    /// The text is no trace.
    Refused(TextRefusal),
    /// Allocation failed.
    Memory,
}

impl TextRefusal {
    /// Returns the printed number of the refusal.
    pub fn number(self) -> u8
        ensures { result ≡ text_refusal_number self }
    {
        match self {
            TextRefusal::NotAscii { .. } => 1,
            TextRefusal::UnknownWord { .. } => 2,
            TextRefusal::Shape { .. } => 3,
            TextRefusal::Range { .. } => 4,
        }
    }
}

impl From<TextRefusal> for TextFault {
    ghost from_gives = { λ refusal fault. fault ≡ Refused refusal };

    fn from(refusal: TextRefusal) -> TextFault {
        TextFault::Refused(refusal)
    }
}

impl From<Memory> for TextFault {
    ghost from_gives = { λ _ fault. fault ≡ no_memory };

    fn from(_memory: Memory) -> TextFault {
        TextFault::Memory
    }
}

/// The fault of a line.
#[derive(Clone, Copy)]
pub(crate) enum Fault {
    NotAscii,
    UnknownWord,
    Shape,
    Range,
}

impl Fault {
    /// Returns the refusal by this fault, of the line with this number.
    pub(crate) fn at(self, line: u32) -> TextRefusal
        ensures { faulty_line result ≡ record { fault = fault_of self; line = line } }
    {
        match self {
            Fault::NotAscii => TextRefusal::NotAscii { line },
            Fault::UnknownWord => TextRefusal::UnknownWord { line },
            Fault::Shape => TextRefusal::Shape { line },
            Fault::Range => TextRefusal::Range { line },
        }
    }
}
