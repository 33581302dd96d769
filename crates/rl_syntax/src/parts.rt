//! Parts of numbered trees by their forms.

ghost use Rattle.std.specs.Prelude.{◌≡◌, true, false, map, MatchOption};
ghost use Rattle.rl_syntax.specs.Forms as forms;
ghost use Rattle.rl_syntax.specs.Shapes as shapes;
ghost use Rattle.rl_syntax.specs.Syntax.{Node, Listed, Said, Count, Flag, End, Then, pieces_of, syntax, is_item};

use crate::numbered::{At, Numbered};
use crate::word::Word;
use rl_base::text::Text;

/// True of a node or a text, the trees that stand in lists.
#[tactic(auto, using(crate::proofs::Layers::by_layer))]
pub fn is_item(tree: &Numbered) -> bool
    ensures { result ≡ is_item (syntax tree.now) }
{
    match tree {
        Numbered::Node(_, _, _) => true,
        Numbered::Text(_) => true,
        Numbered::List(_) => false,
        Numbered::Number(_) => false,
        Numbered::Flag(_) => false,
        Numbered::Absent => false,
    }
}

/// True of `-`.
#[tactic(auto, using(crate::proofs::Layers::by_layer))]
pub fn is_absent(tree: &Numbered) -> bool
    ensures { result ≡ forms.is_absent (syntax tree.now) }
{
    match tree {
        Numbered::Absent => true,
        Numbered::Node(_, _, _) => false,
        Numbered::Text(_) => false,
        Numbered::List(_) => false,
        Numbered::Number(_) => false,
        Numbered::Flag(_) => false,
    }
}

/// The items of a list. `None` at any other tree.
#[tactic(auto, using(crate::proofs::Layers::by_layer))]
pub fn as_items(tree: &Numbered) -> Option<&[Numbered]>
    ensures { MatchOption result (shapes.is_list (syntax tree.now) ≡ false) (λ items. syntax tree.now ≡ Listed (pieces_of (map syntax items.now))) }
{
    match tree {
        Numbered::List(items) => Some(items.as_slice()),
        Numbered::Node(_, _, _) => None,
        Numbered::Text(_) => None,
        Numbered::Number(_) => None,
        Numbered::Flag(_) => None,
        Numbered::Absent => None,
    }
}

/// The ids and span, the word and the parts of a node.
#[tactic(auto, using(crate::proofs::Layers::by_layer))]
pub fn node_of(tree: &Numbered) -> (At, Word, &[Numbered])
    requires { shapes.is_node (syntax tree.now) ≡ true }
    ensures { syntax tree.now ≡ Node result.0 result.1 (pieces_of (map syntax result.2.now)) }
{
    match tree {
        Numbered::Node(at, word, parts) => (*at, *word, parts.as_slice()),
        Numbered::List(_) => unreachable!(),
        Numbered::Text(_) => unreachable!(),
        Numbered::Number(_) => unreachable!(),
        Numbered::Flag(_) => unreachable!(),
        Numbered::Absent => unreachable!(),
    }
}

/// The value of a text.
#[tactic(auto, using(crate::proofs::Layers::by_layer))]
pub fn text_of(tree: &Numbered) -> &Text
    requires { shapes.is_text (syntax tree.now) ≡ true }
    ensures { syntax tree.now ≡ Said result.now }
{
    match tree {
        Numbered::Text(text) => text,
        Numbered::Node(_, _, _) => unreachable!(),
        Numbered::List(_) => unreachable!(),
        Numbered::Number(_) => unreachable!(),
        Numbered::Flag(_) => unreachable!(),
        Numbered::Absent => unreachable!(),
    }
}

/// The value of a number.
#[tactic(auto, using(crate::proofs::Layers::by_layer))]
pub fn number_of(tree: &Numbered) -> u64
    requires { shapes.is_number (syntax tree.now) ≡ true }
    ensures { syntax tree.now ≡ Count result }
{
    match tree {
        Numbered::Number(number) => *number,
        Numbered::Node(_, _, _) => unreachable!(),
        Numbered::List(_) => unreachable!(),
        Numbered::Text(_) => unreachable!(),
        Numbered::Flag(_) => unreachable!(),
        Numbered::Absent => unreachable!(),
    }
}

/// The value of a flag: true of `y`.
#[tactic(auto, using(crate::proofs::Layers::by_layer))]
pub fn flag_of(tree: &Numbered) -> bool
    requires { shapes.is_flag (syntax tree.now) ≡ true }
    ensures { syntax tree.now ≡ Flag result }
{
    match tree {
        Numbered::Flag(flag) => *flag,
        Numbered::Node(_, _, _) => unreachable!(),
        Numbered::List(_) => unreachable!(),
        Numbered::Text(_) => unreachable!(),
        Numbered::Number(_) => unreachable!(),
        Numbered::Absent => unreachable!(),
    }
}

/// The value of a number. `None` at any other tree.
#[tactic(auto, using(crate::proofs::Layers::by_layer))]
pub fn as_number(tree: &Numbered) -> Option<u64>
    ensures { MatchOption result (shapes.is_number (syntax tree.now) ≡ false) (λ number. syntax tree.now ≡ Count number) }
{
    match tree {
        Numbered::Number(number) => Some(*number),
        Numbered::Node(_, _, _) => None,
        Numbered::List(_) => None,
        Numbered::Text(_) => None,
        Numbered::Flag(_) => None,
        Numbered::Absent => None,
    }
}

/// The first part and those behind it. `None` if there is none.
pub fn split_first(parts: &[Numbered]) -> Option<(&Numbered, &[Numbered])>
    ensures { MatchOption result (pieces_of (map syntax parts.now) ≡ End) (λ p. pieces_of (map syntax parts.now) ≡ Then (syntax p.0.now) (pieces_of (map syntax p.1.now))) }
{
    match parts {
        [] => None,
        [first, rest @ ..] => Some((first, rest)),
    }
}
