//! The lowered functions of a unit, by their nodes.

ghost use Rattle.std.specs.Prelude.{◌≡◌, filter, map, option_map};
ghost use Rattle.rl_ast.specs.Marked.{first};
ghost use Rattle.rl_model.specs.Source as source;
ghost use Rattle.rl_syntax.specs.Syntax.{Syntax, syntax};

use rl_base::ids::NodeId;
use rl_code::code::at_of;
use rl_syntax::numbered::Numbered;

/// True of the function with this node.
fn is_node(node: NodeId, function: &Numbered) -> bool
    ensures { result ≡ source.is_node node.0 (syntax function.now) }
{
    at_of(function).id.0 == node.0
}

/// The first of some functions that has a node. `None` where none has it.
fn find_node<'t>(functions: &[&'t Numbered], node: NodeId) -> Option<&'t Numbered>
    ensures { option_map (λ t. syntax t.now) result ≡ first (filter (source.is_node node.0) (map (λ t. syntax t.now) functions.now)) }
{
    'functions: for function in functions {
        if is_node(node, function) {
            return Some(function);
        }
    }
    None
}

/// The inner function with this node; the marked function if there is no node. `None` where the node is that of no inner function that
/// is lowered. `functions` are the lowered functions of the unit, the marked one first.
#[tactic(auto, using(crate::proofs::Finding::found))]
pub fn function_at<'t>(functions: &[&'t Numbered], function: Option<NodeId>) -> Option<&'t Numbered>
    ensures { (u : Syntax) → map (λ t. syntax t.now) functions.now ≡ source.functions_of u → option_map (λ t. syntax t.now) result ≡ source.function_at u (option_map (λ n. n.0) function) }
{
    match functions {
        [] => None,
        [marked, inner @ ..] => match function {
            Some(node) => find_node(inner, node),
            None => Some(marked),
        },
    }
}
