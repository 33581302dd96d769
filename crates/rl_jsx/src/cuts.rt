//! Cuts of a text at an ASCII character.

ghost use Rattle.std.specs.Prelude.{◌≡◌, ◌<◌, ◌∷◌, ℕ, List, MatchOption};
ghost use Rattle.rl_jsx.specs.Marks.{Holds, IsFirstCut, IsLastCut};

/// The text in front of the first `mark`, and the text behind it.
pub(crate) fn cut_at_first(text: &str, mark: char) -> Option<(&str, &str)>
    requires { mark < 128 }
    ensures { MatchOption result (Holds mark text.now → ⊥) (λ parts. IsFirstCut mark text.now parts.0.now parts.1.now) }
{
    text.split_once(mark)
}

/// The text in front of the last `mark`, and the text behind it.
pub(crate) fn cut_at_last(text: &str, mark: char) -> Option<(&str, &str)>
    requires { mark < 128 }
    ensures { MatchOption result (Holds mark text.now → ⊥) (λ parts. IsLastCut mark text.now parts.0.now parts.1.now) }
{
    text.rsplit_once(mark)
}

/// The text behind a `mark` that stands first.
pub(crate) fn behind(text: &str, mark: char) -> Option<&str>
    requires { mark < 128 }
    ensures { MatchOption result ((rest : List ℕ) → text.now ≡ mark ∷ rest → ⊥) (λ rest. text.now ≡ mark ∷ rest.now) }
{
    text.strip_prefix(mark)
}
