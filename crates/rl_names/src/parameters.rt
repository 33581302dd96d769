//! The parameters of a function.

ghost use Rattle.std.specs.Prelude.{◌≡◌, ◌++◌, IfOk, OnOk, map};
ghost use Rattle.rl_ast.specs.FunctionNodes.{seen_function_node};
ghost use Rattle.rl_names.specs.Functions.{parameters_of};
ghost use Rattle.rl_names.specs.Names.{parameter_of, parameters_among};
ghost use Rattle.rl_names.specs.Seen.{seen};
ghost use Rattle.rl_syntax.specs.Syntax.{pieces_of, syntax};

use crate::names::FunctionNames;
use rl_ast::binding::{BindingPattern, binding_identifier_view, binding_pattern_view};
use rl_ast::function::{formal_parameter_view, formal_parameters_view};
use rl_ast::function_node::FunctionNode;
use rl_base::error::OutOfMemory;
use rl_base::ids::SymbolId;
use rl_base::list::List;
use rl_base::span::Span;
use rl_base::text::Text;
use rl_grammar::sort::{FormalParameterTree, FormalParameterTrees};
use std::alloc::Global;

/// A parameter that is a name.
#[derive(Drop)]
pub struct Parameter {
    /// The symbol that it declares.
    pub symbol: SymbolId,
    /// The name, in UTF-8.
    pub name: Text,
    /// The span of the `bind` node, a half-open byte range in the unit's text.
    pub declaration: Span,
}

/// Appends a parameter, if it is a name; a pattern is none. On `OutOfMemory`, an allocation failed.
fn add_parameter(
    alloc: Global,
    names: &FunctionNames<'_>,
    parameters: &mut List<Parameter>,
    parameter: FormalParameterTree<'_>,
) -> Result<(), OutOfMemory>
    ensures { OnOk result (parameters.new ≡ parameters.old ++ parameter_of (seen names.now) (syntax parameter.entry.tree.now)) }
{
    match binding_pattern_view(formal_parameter_view(parameter).pattern) {
        BindingPattern::Identifier(identifier) => {
            let identifier = binding_identifier_view(identifier);
            match names.declared(&identifier) {
                Some(symbol) => parameters.push(Parameter {
                    symbol,
                    name: identifier.name.copy(alloc)?,
                    declaration: identifier.at.span,
                }),
                None => Ok(()),
            }
        }
        BindingPattern::Array { .. } => Ok(()),
        BindingPattern::Object { .. } => Ok(()),
    }
}

/// Those of parameters in a row that are names. On `OutOfMemory`, an allocation failed.
fn parameters_among(
    alloc: Global,
    names: &FunctionNames<'_>,
    trees: FormalParameterTrees<'_>,
) -> Result<List<Parameter>, OutOfMemory>
    ensures { IfOk result (λ ps. ps ≡ parameters_among (seen names.now) (pieces_of (map syntax trees.entry.trees.now))) }
{
    let mut parameters = List::new(alloc);
    let mut left = trees;
    'parameters: while let Some((parameter, rest)) = left.split_first() {
        add_parameter(alloc, names, &mut parameters, parameter)?;
        left = rest;
    }
    Ok(parameters)
}

/// The parameters of a function that are names, in order. On `OutOfMemory`, an allocation failed.
pub fn parameters(
    alloc: Global,
    names: &FunctionNames<'_>,
    function: FunctionNode<'_>,
) -> Result<List<Parameter>, OutOfMemory>
    ensures { IfOk result (λ ps. ps ≡ parameters_of (seen names.now) (seen_function_node function.entry)) }
{
    let params = match function {
        FunctionNode::Function(function) => function.params,
        FunctionNode::Arrow(arrow) => arrow.params,
    };
    parameters_among(alloc, names, formal_parameters_view(params).items)
}
