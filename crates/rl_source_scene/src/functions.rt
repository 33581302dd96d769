//! The views of a unit's functions.

ghost use Rattle.std.specs.Prelude.{◌≡◌, true};
ghost use Rattle.rl_ast.specs.FunctionNodes.{seen_function_node};
ghost use Rattle.rl_ast.specs.FunctionTrees.{is_function};
ghost use Rattle.rl_syntax.specs.Syntax.{syntax};

use rl_ast::function::arrow_view;
use rl_ast::function_node::{FunctionNode, function_declaration_view, function_expression_view};
use rl_grammar::tree::Tree;
use rl_syntax::numbered::Numbered;
use rl_syntax::parts::node_of;
use rl_syntax::word::Word;

/// The view of a function, by its word.
#[tactic(auto, using(rl_ast::proofs::MarkedFunctions::viewing))]
pub fn function_view(tree: &Numbered) -> FunctionNode<'_>
    requires { is_function (syntax tree.now) ≡ true }
    ensures { seen_function_node result ≡ syntax tree.now }
{
    let (_at, word, _parts) = node_of(tree);
    match word {
        Word::Arrow => FunctionNode::Arrow(arrow_view(Tree::new(tree))),
        Word::Fundecl => FunctionNode::Function(function_declaration_view(Tree::new(tree))),
        Word::Funexpr => FunctionNode::Function(function_expression_view(Tree::new(tree))),
        _ => unreachable!(),
    }
}
