//! The marked function of a unit.

ghost use Rattle.std.specs.Prelude.{◌≡◌, true, Some, [], map, option_map, MatchOption};
ghost use Rattle.rl_syntax.specs.Syntax.{pieces_of, syntax};
ghost use Rattle.rl_ast.specs.FunctionNodes.{seen_function_node};
ghost use Rattle.rl_ast.specs.Marked.{first, is_marked, marked_among, marked_functions};
ghost use Rattle.rl_ast.specs.FunctionTrees.{is_function};

use crate::function::arrow_view;
use crate::function_node::{FunctionNode, function_declaration_view, function_expression_view};
use crate::unit::Unit;
use rl_grammar::tree::Tree;
use rl_syntax::numbered::Numbered;
use rl_syntax::parts::node_of;
use rl_syntax::word::Word;

/// True of parts that begin with the flag `y`.
#[tactic(auto, using(rl_syntax::proofs::Layers::by_layer))]
fn begins_marked(parts: &[Numbered]) -> bool
    ensures arrow { result ≡ is_marked Word.Arrow (pieces_of (map syntax parts.now)) }
    ensures declaration { result ≡ is_marked Word.Fundecl (pieces_of (map syntax parts.now)) }
    ensures expression { result ≡ is_marked Word.Funexpr (pieces_of (map syntax parts.now)) }
{
    match parts {
        [] => false,
        [first, _rest @ ..] => match first {
            Numbered::Flag(flag) => *flag,
            Numbered::Node(_, _, _) => false,
            Numbered::List(_) => false,
            Numbered::Text(_) => false,
            Numbered::Number(_) => false,
            Numbered::Absent => false,
        },
    }
}

/// True of the word and the parts of a marked function.
fn is_marked(word: Word, parts: &[Numbered]) -> bool
    ensures { result ≡ is_marked word (pieces_of (map syntax parts.now)) }
{
    match word {
        Word::Arrow => begins_marked(parts),
        Word::Fundecl => begins_marked(parts),
        Word::Funexpr => begins_marked(parts),
        _ => false,
    }
}

/// The tree of the first marked function of a tree, in the order of the nodes. `None` if no function in it is marked.
#[cycle(finding)]
#[tactic(auto, using(rl_syntax::proofs::Layers::by_layer, crate::proofs::MarkedFunctions::finding))]
pub fn first_marked(tree: &Numbered) -> Option<&Numbered>
    ensures { option_map (λ t. syntax t.now) result ≡ first (marked_functions (syntax tree.now)) }
{
    match tree {
        Numbered::Node(_, word, parts) => {
            if is_marked(*word, parts.as_slice()) {
                Some(tree)
            } else {
                first_among(parts.as_slice())
            }
        }
        Numbered::List(parts) => first_among(parts.as_slice()),
        Numbered::Text(_) => None,
        Numbered::Number(_) => None,
        Numbered::Flag(_) => None,
        Numbered::Absent => None,
    }
}

/// As `first_marked`, for trees in a row.
#[cycle(finding)]
#[tactic(auto, using(crate::proofs::MarkedFunctions::finding))]
fn first_among(trees: &[Numbered]) -> Option<&Numbered>
    ensures { option_map (λ t. syntax t.now) result ≡ first (marked_among (pieces_of (map syntax trees.now))) }
{
    'trees: for tree in trees {
        if let Some(found) = first_marked(tree) {
            return Some(found);
        }
    }
    None
}

/// The view of a function, by its word.
#[tactic(auto, using(crate::proofs::MarkedFunctions::viewing))]
fn function_view(tree: &Numbered) -> FunctionNode<'_>
    requires { is_function (syntax tree.now) ≡ true }
    ensures { seen_function_node result ≡ syntax tree.now }
{
    let (_at, word, _parts) = node_of(tree);
    match word {
        Word::Arrow => FunctionNode::Arrow(arrow_view(Tree::new(tree))),
        Word::Fundecl => FunctionNode::Function(function_declaration_view(Tree::new(tree))),
        Word::Funexpr => FunctionNode::Function(function_expression_view(Tree::new(tree))),
        _ => unreachable!(),
    }
}

impl Unit {
    /// The function to lower: the first marked function, in the order of the nodes. `None` if no function is marked.
    #[tactic(auto, using(crate::proofs::MarkedFunctions::first_none, crate::proofs::MarkedFunctions::marked_fits))]
    pub fn marked_function(&self) -> Option<FunctionNode<'_>>
        ensures { MatchOption result (marked_functions (syntax self.now.tree) ≡ []) (λ f. first (marked_functions (syntax self.now.tree)) ≡ Some (seen_function_node f)) }
    {
        match first_marked(&self.tree) {
            Some(tree) => Some(function_view(tree)),
            None => None,
        }
    }
}
