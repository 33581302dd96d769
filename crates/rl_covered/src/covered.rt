//! The nodes of a unit's marked function that the lowering covers.

ghost use Rattle.std.specs.Prelude.{◌≡◌, ◌≤◌, ◌++◌, ℕ, List, All, IfSome, map, option_map};
ghost use Rattle.rl_ast.specs.FunctionNodes.{seen_function, seen_function_node};
ghost use Rattle.rl_ast.specs.FunctionViews.{seen_arrow};
ghost use Rattle.rl_ast.specs.Marked.{first as first_item};
ghost use Rattle.rl_ast.specs.Marked.{first};
ghost use Rattle.rl_grammar.specs.Fields.{maybe};
ghost use Rattle.rl_promises.specs.Covered as spec;
ghost use Rattle.rl_syntax.specs.Syntax.{IsPlaced, pieces_of, syntax};
ghost use Rattle.rl_syntax.specs.declared.numbered.Position.{Position};

use crate::covered_words::covers;
use rl_ast::function::Arrow;
use rl_ast::function_node::{Function, FunctionNode};
use rl_base::ids::NodeId;
use rl_grammar::tree::{Sort, Tree};
use rl_syntax::numbered::Numbered;

/// The least id of a node of the tree that the lowering does not cover. `None` if it covers all of them.
#[cycle(covering)]
#[tactic(auto, using(rl_syntax::proofs::Layers::by_layer, rl_promises::proofs::Covering::covering))]
fn least_in(tree: &Numbered) -> Option<NodeId>
    ensures { option_map (λ n. n.0) result ≡ first (spec.uncovered (syntax tree.now)) }
{
    match tree {
        Numbered::Node(at, word, parts) => {
            if covers(*word, parts.as_slice()) {
                least_among(parts.as_slice())
            } else {
                Some(at.id)
            }
        }
        Numbered::List(parts) => least_among(parts.as_slice()),
        Numbered::Text(_) => None,
        Numbered::Number(_) => None,
        Numbered::Flag(_) => None,
        Numbered::Absent => None,
    }
}

/// As `least_in`, for trees in a row.
#[cycle(covering)]
#[tactic(auto, using(rl_promises::proofs::Covering::covering))]
fn least_among(trees: &[Numbered]) -> Option<NodeId>
    ensures { option_map (λ n. n.0) result ≡ first (spec.uncovered_among (pieces_of (map syntax trees.now))) }
{
    'trees: for tree in trees {
        if let Some(found) = least_in(tree) {
            return Some(found);
        }
    }
    None
}

/// As `least_in`, of a tree that may be absent.
fn least_in_optional<K: Sort>(tree: Option<Tree<'_, K>>) -> Option<NodeId>
    ensures { option_map (λ n. n.0) result ≡ first (spec.uncovered (maybe tree.entry (λ t. syntax t.tree.now))) }
{
    match tree {
        Some(tree) => least_in(tree.tree),
        None => None,
    }
}

/// The first id, if there is one, or else the second.
#[tactic(auto, using(rl_promises::proofs::Covering::first_of))]
fn first_of(first: Option<NodeId>, second: Option<NodeId>) -> Option<NodeId>
    ensures { (xs ys : List ℕ) → option_map (λ n. n.0) first ≡ first_item xs → option_map (λ n. n.0) second ≡ first_item ys → option_map (λ n. n.0) result ≡ first_item (xs ++ ys) }
{
    match first {
        Some(id) => Some(id),
        None => second,
    }
}

/// The first node of an arrow function that the lowering does not cover, in the order of the nodes. `None` if it covers all.
fn first_in_arrow(arrow: Arrow<'_>) -> Option<NodeId>
    ensures { option_map (λ n. n.0) result ≡ first (spec.uncovered_in (seen_arrow arrow.entry)) }
{
    let params = least_in(arrow.params.tree);
    first_of(params, least_in(arrow.body.tree))
}

/// As `first_in_arrow`, for a function declaration or a function expression.
fn first_in_function(function: Function<'_>) -> Option<NodeId>
    ensures { option_map (λ n. n.0) result ≡ first (spec.uncovered_in (seen_function function.entry)) }
{
    let name = least_in_optional(function.name);
    let params = least_in(function.params.tree);
    first_of(name, first_of(params, least_in_optional(function.body)))
}

/// The first node of the marked function that the lowering does not cover, in the order of the nodes.
fn first_uncovered(function: FunctionNode<'_>) -> Option<NodeId>
    ensures { option_map (λ n. n.0) result ≡ first (spec.uncovered_in (seen_function_node function.entry)) }
{
    match function {
        FunctionNode::Arrow(arrow) => first_in_arrow(arrow),
        FunctionNode::Function(function) => first_in_function(function),
    }
}

/// The least id of a node of the marked function that the lowering does not cover. `None` if it covers the whole function.
pub fn least_uncovered(function: FunctionNode<'_>) -> Option<NodeId>
    ensures first { option_map (λ n. n.0) result ≡ first (spec.uncovered_in (seen_function_node function.entry)) }
    ensures least { (from : Position) → IsPlaced from (seen_function_node function.entry) → IfSome result (λ n. All (λ id. n.0 ≤ id) (spec.uncovered_in (seen_function_node function.entry))) }
{
    first_uncovered(function)
}
