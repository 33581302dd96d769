//! Declarations for which a unit is skipped.

ghost use Rattle.std.specs.Prelude.{◌≡◌, map};
ghost use Rattle.rl_promises.specs.PartForms as forms;
ghost use Rattle.rl_promises.specs.Stops as spec;
ghost use Rattle.rl_syntax.specs.Syntax.{pieces_of, syntax};

use rl_forms::part_forms::text_ahead;
use rl_syntax::numbered::Numbered;
use rl_syntax::word::Word;

/// True of a declaration by `using` or `await using`, by its word and parts.
#[tactic(auto, using(crate::proofs::Skipping::kinds))]
fn declares_using(word: Word, parts: &[Numbered]) -> bool
    ensures { result ≡ forms.declares_using word (pieces_of (map syntax parts.now)) }
{
    match word {
        Word::Var => match text_ahead(parts) {
            Some((kind, _declarators)) => {
                kind.as_str() == "using" || kind.as_str() == "await using"
            }
            None => false,
        },
        _ => false,
    }
}

/// True of a tree with a declaration by `using` or `await using`.
#[cycle(skipping)]
#[tactic(auto, using(crate::proofs::Skipping::by_form, rl_syntax::proofs::Layers::by_layer))]
pub fn has_using(tree: &Numbered) -> bool
    ensures { result ≡ spec.has_using (syntax tree.now) }
{
    match tree {
        Numbered::Node(_, word, parts) => {
            declares_using(*word, parts.as_slice()) || have_using(parts.as_slice())
        }
        Numbered::List(parts) => have_using(parts.as_slice()),
        Numbered::Text(_) => false,
        Numbered::Number(_) => false,
        Numbered::Flag(_) => false,
        Numbered::Absent => false,
    }
}

/// As `has_using`, for trees in a row.
#[cycle(skipping)]
#[tactic(auto, using(crate::proofs::Skipping::in_row))]
fn have_using(trees: &[Numbered]) -> bool
    ensures { result ≡ spec.have_using (pieces_of (map syntax trees.now)) }
{
    'trees: for tree in trees {
        if has_using(tree) {
            return true;
        }
    }
    false
}
