//! Functions of every form, by one view: declarations, expressions and arrow functions.

ghost use Rattle.std.specs.Prelude.{◌≡◌, Some};
ghost use Rattle.rl_syntax.specs.Syntax.{syntax};
ghost use Rattle.rl_ast.specs.FunctionNodes.{scope_of, seen_function, seen_function_node};

use crate::function::Arrow;
use rl_base::ids::ScopeId;
use rl_grammar::parts::six;
use rl_grammar::sort::{
    BindingIdentifierTree, FormalParametersTree, FunctionBodyTree, FunctionDeclarationTree,
    FunctionExpressionTree,
};
use rl_grammar::tree::Tree;
use rl_syntax::numbered::At;
use rl_syntax::parts::{flag_of, node_of};
use rl_syntax::word::Word;

/// The form of a function that is no arrow function.
#[derive(Clone, Copy, Debug, PartialEq, Eq)]
pub enum FunctionForm {
    /// A function declaration, `fundecl` (ECMA-262, 15.2).
    Declaration,
    /// A function expression, `funexpr`, and the function of a method.
    Expression,
}

/// A function declaration or a function expression: `Function` of oxc_ast.
/// `(fundecl FLAG FLAG FLAG BindingIdentifier? FormalParameters FunctionBody?)`,
/// `(funexpr FLAG FLAG FLAG BindingIdentifier? FormalParameters FunctionBody)`
#[derive(Clone, Copy)]
pub struct Function<'b> {
    /// Ids and span of the node.
    pub at: At,
    /// Declaration or expression.
    pub form: FunctionForm,
    /// True of the function to lower.
    pub marked: bool,
    /// True of an `async` function.
    pub is_async: bool,
    /// True of a generator.
    pub generator: bool,
    /// The function's own name, or none.
    pub name: Option<BindingIdentifierTree<'b>>,
    /// The parameters.
    pub params: FormalParametersTree<'b>,
    /// The body; none in a declaration without one.
    pub body: Option<FunctionBodyTree<'b>>,
}

/// A level of a tree of the sort `FunctionDeclaration`.
#[tactic(auto, using(rl_grammar::proofs::Viewing::viewing))]
pub fn function_declaration_view(tree: FunctionDeclarationTree<'_>) -> Function<'_>
    ensures { seen_function result ≡ syntax tree.entry.tree.now }
{
    let (at, word, parts) = node_of(tree.tree);
    match word {
        Word::Fundecl => {
            let (marked, is_async, generator, name, params, body) = six(parts);
            Function {
                at,
                form: FunctionForm::Declaration,
                marked: flag_of(marked),
                is_async: flag_of(is_async),
                generator: flag_of(generator),
                name: Tree::optional(name),
                params: Tree::new(params),
                body: Tree::optional(body),
            }
        }
        _ => unreachable!(),
    }
}

/// A level of a tree of the sort `FunctionExpression`.
#[tactic(auto, using(rl_grammar::proofs::Viewing::viewing))]
pub fn function_expression_view(tree: FunctionExpressionTree<'_>) -> Function<'_>
    ensures { seen_function result ≡ syntax tree.entry.tree.now }
{
    let (at, word, parts) = node_of(tree.tree);
    match word {
        Word::Funexpr => {
            let (marked, is_async, generator, name, params, body) = six(parts);
            Function {
                at,
                form: FunctionForm::Expression,
                marked: flag_of(marked),
                is_async: flag_of(is_async),
                generator: flag_of(generator),
                name: Tree::optional(name),
                params: Tree::new(params),
                body: Some(Tree::new(body)),
            }
        }
        _ => unreachable!(),
    }
}

/// A function of any form: `FunctionNode` of oxc_react_compiler.
#[derive(Clone, Copy)]
pub enum FunctionNode<'b> {
    /// A declaration or an expression.
    Function(Function<'b>),
    /// An arrow function.
    Arrow(Arrow<'b>),
}

impl FunctionNode<'_> {
    /// The scope of the function's parameters and body (`scope_id` of oxc_ast). It is always there.
    pub fn scope_id(&self) -> Option<ScopeId>
        ensures { result ≡ Some (scope_of (seen_function_node self.now)) }
    {
        match self {
            FunctionNode::Function(function) => Some(function.at.scope),
            FunctionNode::Arrow(arrow) => Some(arrow.at.scope),
        }
    }
}
