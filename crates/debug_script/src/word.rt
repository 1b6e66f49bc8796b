//! The words of a script's lines.
ghost use Rattle.std.specs.Prelude.{◌≡◌, find};
ghost use Rattle.std.specs.Str.{bytes_eq};
ghost use Rattle.debug_script.specs.Calls.{all_words, script_letters};

/// A line's word.
#[derive(Clone, Copy)]
pub(crate) enum ScriptWord {
    Step,
    Group,
    Back,
    Bots,
    Voxel,
}

impl ScriptWord {
    /// Returns the word with these letters.
    pub(crate) fn of(part: &[u8]) -> Option<ScriptWord>
        ensures { result ≡ find (λ w. bytes_eq (script_letters w) part.now) all_words }
    {
        match part {
            b"step" => Some(ScriptWord::Step),
            b"group" => Some(ScriptWord::Group),
            b"back" => Some(ScriptWord::Back),
            b"bots" => Some(ScriptWord::Bots),
            b"voxel" => Some(ScriptWord::Voxel),
            _ => None,
        }
    }
}
