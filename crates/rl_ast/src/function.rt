//! Functions: views of one level. Written by tools/syntax.py from tools/grammar.txt.
//! Types in backquotes are those of oxc_ast.

ghost use Rattle.std.specs.Prelude.{◌≡◌};
ghost use Rattle.rl_syntax.specs.Syntax.{syntax};
ghost use Rattle.rl_ast.specs.FunctionViews.{seen_arrow, seen_arrow_body, seen_binding_rest_element, seen_formal_parameter, seen_formal_parameters, seen_function_body};

use rl_grammar::parts::{four, items_of, one, two};
use rl_grammar::sort::{
    ArrowBodyTree, ArrowTree, BindingPatternTree, BindingRestElementTree, ExpressionTree,
    FormalParameterTree, FormalParameterTrees, FormalParametersTree, FunctionBodyTree,
    StatementTrees, TextTrees,
};
use rl_grammar::tree::{Tree, Trees};
use rl_syntax::numbered::At;
use rl_syntax::parts::{flag_of, node_of};
use rl_syntax::word::Word;

/// An arrow function: `ArrowFunctionExpression` (ECMA-262, 15.3 and 15.9). `marked` is true of the function to lower; its scope
/// is that of parameters and body. `(arrow FLAG FLAG FormalParameters ArrowBody)`
#[derive(Clone, Copy)]
pub struct Arrow<'b> {
    /// Ids and span of the node.
    pub at: At,
    /// True of the function to lower.
    pub marked: bool,
    /// True of an `async` function.
    pub is_async: bool,
    /// The parameters.
    pub params: FormalParametersTree<'b>,
    /// The body.
    pub body: ArrowBodyTree<'b>,
}

/// A level of a tree of the sort `Arrow`.
#[tactic(auto, using(rl_grammar::proofs::Viewing::viewing))]
pub fn arrow_view(tree: ArrowTree<'_>) -> Arrow<'_>
    ensures { seen_arrow result ≡ syntax tree.entry.tree.now }
{
    let (at, word, parts) = node_of(tree.tree);
    match word {
        Word::Arrow => {
            let (marked, is_async, params, body) = four(parts);
            Arrow {
                at,
                marked: flag_of(marked),
                is_async: flag_of(is_async),
                params: Tree::new(params),
                body: Tree::new(body),
            }
        }
        _ => unreachable!(),
    }
}

/// The parameters of a function (ECMA-262, 15.1). The parameters in order, and the rest parameter apart.
/// `(params [FormalParameter] BindingRestElement?)`
#[derive(Clone, Copy)]
pub struct FormalParameters<'b> {
    /// Ids and span of the node.
    pub at: At,
    /// The parameters before the rest, in order.
    pub items: FormalParameterTrees<'b>,
    /// The rest element, or none.
    pub rest: Option<BindingRestElementTree<'b>>,
}

/// A level of a tree of the sort `FormalParameters`.
#[tactic(auto, using(rl_grammar::proofs::Viewing::viewing))]
pub fn formal_parameters_view(tree: FormalParametersTree<'_>) -> FormalParameters<'_>
    ensures { seen_formal_parameters result ≡ syntax tree.entry.tree.now }
{
    let (at, word, parts) = node_of(tree.tree);
    match word {
        Word::Params => {
            let (items, rest) = two(parts);
            FormalParameters {
                at,
                items: Trees::new(items_of(items)),
                rest: Tree::optional(rest),
            }
        }
        _ => unreachable!(),
    }
}

/// A parameter (ECMA-262, 15.1). The name or pattern that is bound, and its default. `(param BindingPattern Expression?)`
#[derive(Clone, Copy)]
pub struct FormalParameter<'b> {
    /// Ids and span of the node.
    pub at: At,
    /// The names that are bound, a binding pattern.
    pub pattern: BindingPatternTree<'b>,
    /// The default, an expression, or none.
    pub default: Option<ExpressionTree<'b>>,
}

/// A level of a tree of the sort `FormalParameter`.
#[tactic(auto, using(rl_grammar::proofs::Viewing::viewing))]
pub fn formal_parameter_view(tree: FormalParameterTree<'_>) -> FormalParameter<'_>
    ensures { seen_formal_parameter result ≡ syntax tree.entry.tree.now }
{
    let (at, word, parts) = node_of(tree.tree);
    match word {
        Word::Param => {
            let (pattern, default) = two(parts);
            FormalParameter {
                at,
                pattern: Tree::new(pattern),
                default: Tree::optional(default),
            }
        }
        _ => unreachable!(),
    }
}

/// A rest parameter, or the rest of a pattern (ECMA-262, 14.3.3 and 15.1). `...`, and the name or pattern that takes the rest.
/// `(rest BindingPattern)`
#[derive(Clone, Copy)]
pub struct BindingRestElement<'b> {
    /// Ids and span of the node.
    pub at: At,
    /// The names that are bound, a binding pattern.
    pub pattern: BindingPatternTree<'b>,
}

/// A level of a tree of the sort `BindingRestElement`.
#[tactic(auto, using(rl_grammar::proofs::Viewing::viewing))]
pub fn binding_rest_element_view(tree: BindingRestElementTree<'_>) -> BindingRestElement<'_>
    ensures { seen_binding_rest_element result ≡ syntax tree.entry.tree.now }
{
    let (at, word, parts) = node_of(tree.tree);
    match word {
        Word::Rest => {
            let pattern = one(parts);
            BindingRestElement {
                at,
                pattern: Tree::new(pattern),
            }
        }
        _ => unreachable!(),
    }
}

/// A function's body in braces (ECMA-262, 15.2). Directives, as `"use strict"` (ECMA-262, 11.2.1), and then statements.
/// `(body [TEXT] [Statement])`
#[derive(Clone, Copy)]
pub struct FunctionBody<'b> {
    /// Ids and span of the node.
    pub at: At,
    /// The directives, in order, each by its text.
    pub directives: TextTrees<'b>,
    /// The statements, in order.
    pub statements: StatementTrees<'b>,
}

/// A level of a tree of the sort `FunctionBody`.
#[tactic(auto, using(rl_grammar::proofs::Viewing::viewing))]
pub fn function_body_view(tree: FunctionBodyTree<'_>) -> FunctionBody<'_>
    ensures { seen_function_body result ≡ syntax tree.entry.tree.now }
{
    let (at, word, parts) = node_of(tree.tree);
    match word {
        Word::Body => {
            let (directives, statements) = two(parts);
            FunctionBody {
                at,
                directives: Trees::new(items_of(directives)),
                statements: Trees::new(items_of(statements)),
            }
        }
        _ => unreachable!(),
    }
}

/// An arrow function's body (ECMA-262, 15.3).
#[derive(Clone, Copy)]
pub enum ArrowBody<'b> {
    /// A body in braces.
    Body(FunctionBodyTree<'b>),
    /// An expression, whose value is returned.
    Expression(ExpressionTree<'b>),
}

/// A level of a tree of the sort `ArrowBody`.
#[tactic(auto, using(rl_grammar::proofs::Viewing::viewing))]
pub fn arrow_body_view(tree: ArrowBodyTree<'_>) -> ArrowBody<'_>
    ensures { seen_arrow_body result ≡ syntax tree.entry.tree.now }
{
    let (at, word, parts) = node_of(tree.tree);
    match word {
        Word::Body => ArrowBody::Body(Tree::new(tree.tree)),
        _ => ArrowBody::Expression(Tree::new(tree.tree)),
    }
}
