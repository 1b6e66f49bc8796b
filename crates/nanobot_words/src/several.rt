//! Splits three, four or five arguments.
ghost use Rattle.std.specs.Prelude.{◌≡◌, ℕ, List, [], ◌∷◌, MatchOption};
ghost use Rattle.nanobot_words.specs.Rows.{texts};

/// Returns the arguments, if there are three.
pub(crate) fn three(words: &[String]) -> Option<(&str, &str, &str)>
    ensures { MatchOption result ((a b c : List ℕ) → texts words.now ≡ a ∷ b ∷ c ∷ [] → ⊥)
        (λ r. texts words.now ≡ r.0.now ∷ r.1.now ∷ r.2.now ∷ []) }
{
    match words {
        [a, b, c] => Some((a.as_str(), b.as_str(), c.as_str())),
        _ => None,
    }
}

/// Returns the arguments, if there are four.
pub(crate) fn four(words: &[String]) -> Option<(&str, &str, &str, &str)>
    ensures { MatchOption result ((a b c d : List ℕ) → texts words.now ≡ a ∷ b ∷ c ∷ d ∷ [] → ⊥)
        (λ r. texts words.now ≡ r.0.now ∷ r.1.now ∷ r.2.now ∷ r.3.now ∷ []) }
{
    match words {
        [a, b, c, d] => Some((a.as_str(), b.as_str(), c.as_str(), d.as_str())),
        _ => None,
    }
}

/// Returns the arguments, if there are five.
pub(crate) fn five(words: &[String]) -> Option<(&str, &str, &str, &str, &str)>
    ensures { MatchOption result ((a b c d e : List ℕ) → texts words.now ≡ a ∷ b ∷ c ∷ d ∷ e ∷ [] → ⊥)
        (λ r. texts words.now ≡ r.0.now ∷ r.1.now ∷ r.2.now ∷ r.3.now ∷ r.4.now ∷ []) }
{
    match words {
        [a, b, c, d, e] => Some((a.as_str(), b.as_str(), c.as_str(), d.as_str(), e.as_str())),
        _ => None,
    }
}
