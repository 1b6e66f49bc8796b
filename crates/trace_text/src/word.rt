//! The words of the twelve commands.
ghost use Rattle.std.specs.Prelude.{◌≡◌, find};
ghost use Rattle.std.specs.Str.{bytes_eq};
ghost use Rattle.nano_spec.specs.LineForm.{words};
ghost use Rattle.trace_text.specs.Text.{word_if_any};

/// A command's word.
#[derive(Clone, Copy)]
pub(crate) enum Word {
    Halt,
    Wait,
    Flip,
    SMove,
    LMove,
    FusionP,
    FusionS,
    Fission,
    Fill,
    Void,
    GFill,
    GVoid,
}

impl Word {
    /// Returns the word with these letters, or `None` if no command has it.
    pub(crate) fn of(letters: &[u8]) -> Option<Word>
        ensures { word_if_any result ≡ find (λ w. bytes_eq w.letters letters.now) words }
    {
        match letters {
            b"Halt" => Some(Word::Halt),
            b"Wait" => Some(Word::Wait),
            b"Flip" => Some(Word::Flip),
            b"SMove" => Some(Word::SMove),
            b"LMove" => Some(Word::LMove),
            b"FusionP" => Some(Word::FusionP),
            b"FusionS" => Some(Word::FusionS),
            b"Fission" => Some(Word::Fission),
            b"Fill" => Some(Word::Fill),
            b"Void" => Some(Word::Void),
            b"GFill" => Some(Word::GFill),
            b"GVoid" => Some(Word::GVoid),
            _ => None,
        }
    }
}
