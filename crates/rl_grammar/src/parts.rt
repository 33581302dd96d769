//! Parts of trees that fit the grammar, by their fields.

ghost use Rattle.std.specs.Prelude.{◌≡◌, true, Some, [], ◌∷◌, map};
ghost use Rattle.rl_syntax.specs.Shapes.{is_one, is_two, is_three, is_four, is_six, is_list};
ghost use Rattle.rl_syntax.specs.Syntax.{Absent, Count, End, Listed, Said, Then, pieces_of, syntax};
ghost use Rattle.rl_grammar.specs.Fields.{maybe, writes};
ghost use Rattle.rl_grammar.specs.Grammar.{fits, each, every};
ghost use Rattle.rl_grammar.specs.declared.kind.Field.{Field};
ghost use Rattle.rl_grammar.specs.declared.kind.Field.TheVariants as field;
ghost use Rattle.rl_grammar.specs.declared.kind.Kind.{Kind};
ghost use Rattle.rl_grammar.specs.declared.kind.Kind.TheVariants as kind;

use rl_base::closed_text::{ClosedText, closed_value};
use rl_base::text::Text;
use rl_syntax::numbered::Numbered;
use rl_syntax::parts::{as_items, is_absent, number_of, text_of};

/// The one part.
#[tactic(auto, using(crate::proofs::Counts::counts, crate::proofs::Viewing::one_fits))]
pub fn one(parts: &[Numbered]) -> &Numbered
    requires { is_one (pieces_of (map syntax parts.now)) ≡ true }
    ensures parts { pieces_of (map syntax parts.now) ≡ Then (syntax result.now) End }
    ensures fit { (f : Field) → each (Some (f ∷ [])) (pieces_of (map syntax parts.now)) ≡ true → fits f (syntax result.now) ≡ true }
{
    let [a] = parts else {
        unreachable!();
    };
    a
}

/// The two parts.
#[tactic(auto, using(crate::proofs::Counts::counts, crate::proofs::Viewing::two_fit))]
pub fn two(parts: &[Numbered]) -> (&Numbered, &Numbered)
    requires { is_two (pieces_of (map syntax parts.now)) ≡ true }
    ensures parts { pieces_of (map syntax parts.now) ≡ Then (syntax result.0.now) (Then (syntax result.1.now) End) }
    ensures fit { (f g : Field) → each (Some (f ∷ g ∷ [])) (pieces_of (map syntax parts.now)) ≡ true → (fits f (syntax result.0.now) ≡ true) × (fits g (syntax result.1.now) ≡ true) }
{
    let [a, b] = parts else {
        unreachable!();
    };
    (a, b)
}

/// The three parts.
#[tactic(auto, using(crate::proofs::Counts::counts, crate::proofs::Viewing::three_fit))]
pub fn three(parts: &[Numbered]) -> (&Numbered, &Numbered, &Numbered)
    requires { is_three (pieces_of (map syntax parts.now)) ≡ true }
    ensures parts { pieces_of (map syntax parts.now) ≡ Then (syntax result.0.now) (Then (syntax result.1.now) (Then (syntax result.2.now) End)) }
    ensures fit { (f g h : Field) → each (Some (f ∷ g ∷ h ∷ [])) (pieces_of (map syntax parts.now)) ≡ true → (fits f (syntax result.0.now) ≡ true) × (fits g (syntax result.1.now) ≡ true) × (fits h (syntax result.2.now) ≡ true) }
{
    let [a, b, c] = parts else {
        unreachable!();
    };
    (a, b, c)
}

/// The four parts.
#[tactic(auto, using(crate::proofs::Counts::counts, crate::proofs::Viewing::four_fit))]
pub fn four(parts: &[Numbered]) -> (&Numbered, &Numbered, &Numbered, &Numbered)
    requires { is_four (pieces_of (map syntax parts.now)) ≡ true }
    ensures parts { pieces_of (map syntax parts.now) ≡ Then (syntax result.0.now) (Then (syntax result.1.now) (Then (syntax result.2.now) (Then (syntax result.3.now) End))) }
    ensures fit { (f g h i : Field) → each (Some (f ∷ g ∷ h ∷ i ∷ [])) (pieces_of (map syntax parts.now)) ≡ true → (fits f (syntax result.0.now) ≡ true) × (fits g (syntax result.1.now) ≡ true) × (fits h (syntax result.2.now) ≡ true) × (fits i (syntax result.3.now) ≡ true) }
{
    let [a, b, c, d] = parts else {
        unreachable!();
    };
    (a, b, c, d)
}

/// The six parts.
#[tactic(auto, using(crate::proofs::Counts::counts, crate::proofs::Viewing::six_fit))]
pub fn six(
    parts: &[Numbered],
) -> (
    &Numbered,
    &Numbered,
    &Numbered,
    &Numbered,
    &Numbered,
    &Numbered,
)
    requires { is_six (pieces_of (map syntax parts.now)) ≡ true }
    ensures parts { pieces_of (map syntax parts.now) ≡ Then (syntax result.0.now) (Then (syntax result.1.now) (Then (syntax result.2.now) (Then (syntax result.3.now) (Then (syntax result.4.now) (Then (syntax result.5.now) End))))) }
    ensures fit { (f0 f1 f2 f3 f4 f5 : Field) → each (Some (f0 ∷ f1 ∷ f2 ∷ f3 ∷ f4 ∷ f5 ∷ [])) (pieces_of (map syntax parts.now)) ≡ true → (fits f0 (syntax result.0.now) ≡ true) × (fits f1 (syntax result.1.now) ≡ true) × (fits f2 (syntax result.2.now) ≡ true) × (fits f3 (syntax result.3.now) ≡ true) × (fits f4 (syntax result.4.now) ≡ true) × (fits f5 (syntax result.5.now) ≡ true) }
{
    let [a, b, c, d, e, f] = parts else {
        unreachable!();
    };
    (a, b, c, d, e, f)
}

/// The items of a list.
#[tactic(auto, using(rl_syntax::proofs::Layers::by_layer))]
pub fn items_of(tree: &Numbered) -> &[Numbered]
    requires { is_list (syntax tree.now) ≡ true }
    ensures items { syntax tree.now ≡ Listed (pieces_of (map syntax result.now)) }
    ensures fit { (k : Kind) → fits (field.Many k) (syntax tree.now) ≡ true → every k (pieces_of (map syntax result.now)) ≡ true }
{
    match as_items(tree) {
        Some(items) => items,
        None => unreachable!(),
    }
}

/// The value of a text, or `None` at `-`.
#[tactic(auto, using(crate::proofs::Viewing::optional))]
pub fn optional_text(tree: &Numbered) -> Option<&Text>
    requires { fits (field.Maybe kind.Text) (syntax tree.now) ≡ true }
    ensures { maybe result (λ t. Said t.now) ≡ syntax tree.now }
{
    if is_absent(tree) {
        None
    } else {
        Some(text_of(tree))
    }
}

/// The value that a text writes.
#[tactic(auto, using(crate::proofs::Viewing::closed))]
pub fn closed_of<O: ClosedText>(tree: &Numbered) -> O
    requires { writes O.text O.values (syntax tree.now) ≡ true }
    ensures { syntax tree.now ≡ Said (O.text result) }
{
    closed_value(text_of(tree).as_str())
}

/// A Unicode scalar value.
#[tactic(auto, using(crate::proofs::Viewing::scalars))]
pub fn scalar_value_of(tree: &Numbered) -> u32
    requires { fits (field.One kind.ScalarValue) (syntax tree.now) ≡ true }
    ensures { syntax tree.now ≡ Count result }
{
    number_of(tree) as u32
}
