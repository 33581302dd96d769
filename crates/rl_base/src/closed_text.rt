//! Types with finitely many values, each written by a text of its own: operators, and kinds that the notation names by a text.

ghost use Rattle.std.specs.Prelude.{◌≡◌, ℕ, List, true, Some, IfSome, IfNone};
ghost use Rattle.rl_base.specs.ClosedTexts.{is_written};
ghost use Rattle.rl_base.specs.FoundTexts.{written_in};

/// A type whose values are listed, each with a text that writes it and no other.
pub trait ClosedText: Copy + 'static {
    /// The text that writes a value.
    ghost text: { Self → List ℕ };

    /// Every value, in the order of the declaration.
    ghost values: { List Self };

    /// The text that writes the value.
    fn as_str(self) -> &'static str
        ensures { result.now ≡ text self };

    /// Every value, in the order of the declaration.
    fn every() -> &'static [Self]
        ensures { result.now ≡ values };

    /// Each value is listed, and is the first one that its text writes: no two values have one text.
    ghost complete: { (value : Self) → written_in text values (text value) ≡ Some value };

    /// The value that the text `name` writes. `None` if it writes none.
    #[tactic(auto, using(crate::proofs::ClosedTexts::written_is))]
    final fn from_text(name: &str) -> Option<Self>
        ensures exact { result ≡ written_in text values name.now }
        ensures found { IfSome result (λ value. text value ≡ name.now) }
        ensures none { IfNone result ((value : Self) → text value ≡ name.now → ⊥) }
    {
        find_written(Self::every(), name)
    }
}

/// The first of the values that `text` writes. `None` if it writes none of them.
fn find_written<O: ClosedText>(values: &[O], text: &str) -> Option<O>
    ensures { result ≡ written_in O.text values.now text.now }
{
    for value in values {
        if value.as_str() == text {
            return Some(*value);
        }
    }
    None
}

/// True if `text` writes a value of the type.
#[tactic(auto, using(crate::proofs::ClosedTexts::is_written_some))]
pub fn is_closed_text<O: ClosedText>(text: &str) -> bool
    ensures { result ≡ is_written O.text O.values text.now }
{
    O::from_text(text).is_some()
}

/// The value of the type that `text` writes.
#[tactic(auto, using(crate::proofs::ClosedTexts::unwritten))]
pub fn closed_value<O: ClosedText>(text: &str) -> O
    requires { is_written O.text O.values text.now ≡ true }
    ensures { O.text result ≡ text.now }
{
    match O::from_text(text) {
        Some(value) => value,
        None => unreachable!(),
    }
}
