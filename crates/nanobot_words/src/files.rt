//! Parses the commands of named files: `check`, `asm`, `dis` and `debug`.
ghost use Rattle.std.specs.Prelude.{◌≡◌, ℕ, List, [], ◌∷◌, MatchOption};
ghost use Rattle.nanobot_words.specs.Rows.{asm, check, debug, dis, IsName, IsRow, texts};
ghost use Rattle.nanobot_words.specs.Parsing.{row_of};

use crate::row::Row;
use crate::several::{four, three};
use crate::word::is_name;

/// Returns the model after `check`.
pub(crate) fn parse_check(words: &[String]) -> Option<&str>
    ensures { MatchOption result ((model : List ℕ) → IsRow (texts words.now) (check model) → ⊥)
        (λ model. IsRow (texts words.now) (check model.now)) }
{
    if let [word, model] = words {
        if word.as_str() == "check" && is_name(model.as_str()) {
            return Some(model.as_str());
        }
    }
    None
}

/// Returns the two names after a word, if there are three arguments and the first is that word.
fn parse_names<'a>(words: &'a [String], word: &str) -> Option<(&'a str, &'a str)>
    ensures { MatchOption result ((a b : List ℕ) → texts words.now ≡ word.now ∷ a ∷ b ∷ [] → IsName a → IsName b → ⊥)
        (λ names. (texts words.now ≡ word.now ∷ names.0.now ∷ names.1.now ∷ []) × IsName names.0.now × IsName
        names.1.now) }
{
    let (first, a, b) = three(words)?;
    if first != word {
        return None;
    }
    if !is_name(a) {
        return None;
    }
    if !is_name(b) {
        return None;
    }
    Some((a, b))
}

/// Returns the text and the trace after `asm`.
pub(crate) fn parse_asm(words: &[String]) -> Option<Row<'_>>
    ensures { MatchOption result ((x b : List ℕ) → IsRow (texts words.now) (asm x b) → ⊥)
        (λ row. IsRow (texts words.now) (row_of row)) }
{
    let (text, trace) = parse_names(words, "asm")?;
    Some(Row::Asm { text, trace })
}

/// Returns the trace and the text after `dis`.
pub(crate) fn parse_dis(words: &[String]) -> Option<Row<'_>>
    ensures { MatchOption result ((b x : List ℕ) → IsRow (texts words.now) (dis b x) → ⊥)
        (λ row. IsRow (texts words.now) (row_of row)) }
{
    let (trace, text) = parse_names(words, "dis")?;
    Some(Row::Dis { trace, text })
}

/// Returns the source, the trace and the script after `debug`.
pub(crate) fn parse_debug(words: &[String]) -> Option<Row<'_>>
    ensures { MatchOption result ((s b x : List ℕ) → IsRow (texts words.now) (debug s b x) → ⊥)
        (λ row. IsRow (texts words.now) (row_of row)) }
{
    let (word, source, trace, script) = four(words)?;
    if word != "debug" {
        return None;
    }
    if !is_name(source) {
        return None;
    }
    if !is_name(trace) {
        return None;
    }
    if !is_name(script) {
        return None;
    }
    Some(Row::Debug {
        source,
        trace,
        script,
    })
}
