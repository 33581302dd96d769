//! Lowering of the parameters of a function.

ghost use Rattle.std.specs.Prelude.{◌≡◌, ◌+◌, true, IfOk, IfErr, map};
ghost use Rattle.rl_ast.specs.BindingViews.{seen_binding_identifier};
ghost use Rattle.rl_builder.specs.Builder.{state_of};
ghost use Rattle.rl_grammar.specs.Fields.{maybe};
ghost use Rattle.rl_lower.specs.Params.{LowersParam, LowersRestParam};
ghost use Rattle.rl_lowered.specs.Lowered.{LoweredParams};
ghost use Rattle.rl_lowered.specs.Named.{IsNamed};
ghost use Rattle.rl_lowered.specs.Promised.{HasRoom, share};
ghost use Rattle.rl_names.specs.Seen.{seen};
ghost use Rattle.rl_promises.specs.Lowerable.{AreLowerable, DeclaresFree, IsLowerable};
ghost use Rattle.rl_promises.specs.Patterns.{takes_apart};
ghost use Rattle.rl_syntax.specs.Syntax.{Node, Absent, Then, End, nodes, nodes_of, pieces_of, syntax};

use rl_ast::binding::{
    BindingIdentifier, BindingPattern, binding_identifier_view, binding_pattern_view,
};
use rl_ast::function::{FormalParameters, binding_rest_element_view, formal_parameter_view};
use rl_base::list::List;
use rl_base::stop::Stop;
use rl_builder::unit_tables::ReadsUnit;
use rl_grammar::sort::{
    BindingPatternTree, BindingRestElementTree, ExpressionTree, FormalParameterTree,
};
use rl_hir::function::Param;
use rl_hir::instruction::{InstructionKind, Place};
use rl_lower_expressions::target::lower_default;
use rl_lower_parts::graph_builder::GraphBuilder;
use rl_lower_parts::promoted::make_promoted;
use rl_lower_statements::declaration::resolve_declared;
use rl_lower_statements::pattern::lower_pattern;
use rl_names::names::FunctionNames;
use rl_syntax::numbered::At;
use rl_syntax::word::Word;
use std::alloc::Global;

/// Lowers a parameter that is a name, which takes its argument itself.
fn lower_named<U: ReadsUnit>(
    builder: &mut GraphBuilder<'_, U>,
    names: &FunctionNames<'_>,
    at: At,
    bind: &BindingIdentifier<'_>,
) -> Result<Place, Stop>
    requires names { IsNamed (seen names.now) (state_of U.tables builder.old) }
    requires free { DeclaresFree (seen names.now) ((seen names.now).declared bind.now.at.id.0) }
    requires room { HasRoom (state_of U.tables builder.old) 2 }
    ensures same_reference { builder.new.env.ghost_name ≡ builder.old.env.ghost_name }
    ensures lowered { IfOk result (λ place. LowersParam (seen names.now)
        (Node at Word.Param (Then (seen_binding_identifier bind.now) (Then Absent End))) (Param.Place place)
        (state_of U.tables builder.old) (state_of U.tables builder.new)) }
    ensures memory { IfErr result (λ e. e ≡ Stop.OutOfMemory) }
{
    let identifier = resolve_declared(builder, names, bind)?;
    Ok(Place {
        identifier,
        span: Some(bind.at.span),
    })
}

/// Lowers a parameter that takes a value apart: a temporary takes the argument.
fn lower_apart<U: ReadsUnit>(
    alloc: Global,
    builder: &mut GraphBuilder<'_, U>,
    names: &FunctionNames<'_>,
    at: At,
    pattern: BindingPatternTree<'_>,
) -> Result<Place, Stop>
    requires names { IsNamed (seen names.now) (state_of U.tables builder.old) }
    requires apart { takes_apart (syntax pattern.tree.now) ≡ true }
    requires may { IsLowerable (seen names.now) (syntax pattern.tree.now) }
    requires room { HasRoom (state_of U.tables builder.old) (share (nodes (syntax pattern.tree.now) + 1)) }
    ensures same_reference { builder.new.env.ghost_name ≡ builder.old.env.ghost_name }
    ensures lowered { IfOk result (λ place. LowersParam (seen names.now)
        (Node at Word.Param (Then (syntax pattern.entry.tree.now) (Then Absent End))) (Param.Place place)
        (state_of U.tables builder.old) (state_of U.tables builder.new)) }
    ensures memory { IfErr result (λ e. e ≡ Stop.OutOfMemory) }
{
    let place = make_promoted(alloc, builder, at.span)?;
    let kind = InstructionKind::Let;
    lower_pattern(alloc, builder, names, false, kind, at.span, pattern, place)?;
    Ok(place)
}

/// Lowers a parameter that has a default: a temporary takes the argument.
fn lower_defaulted<U: ReadsUnit>(
    alloc: Global,
    builder: &mut GraphBuilder<'_, U>,
    names: &FunctionNames<'_>,
    at: At,
    pattern: BindingPatternTree<'_>,
    default: ExpressionTree<'_>,
) -> Result<Place, Stop>
    requires names { IsNamed (seen names.now) (state_of U.tables builder.old) }
    requires may { IsLowerable (seen names.now) (syntax pattern.tree.now) × IsLowerable (seen names.now) (syntax default.tree.now) }
    requires room { HasRoom (state_of U.tables builder.old)
        (share (nodes (syntax pattern.tree.now) + nodes (syntax default.tree.now) + 1)) }
    ensures same_reference { builder.new.env.ghost_name ≡ builder.old.env.ghost_name }
    ensures lowered { IfOk result (λ place. LowersParam (seen names.now)
        (Node at Word.Param (Then (syntax pattern.entry.tree.now) (Then (syntax default.entry.tree.now) End))) (Param.Place place)
        (state_of U.tables builder.old) (state_of U.tables builder.new)) }
    ensures memory { IfErr result (λ e. e ≡ Stop.OutOfMemory) }
{
    let place = make_promoted(alloc, builder, at.span)?;
    let value = lower_default(alloc, builder, names, at.span, default, place)?;
    let kind = InstructionKind::Let;
    lower_pattern(alloc, builder, names, false, kind, at.span, pattern, value)?;
    Ok(place)
}

/// Lowers a parameter.
fn lower_parameter<U: ReadsUnit>(
    alloc: Global,
    builder: &mut GraphBuilder<'_, U>,
    names: &FunctionNames<'_>,
    parameter: FormalParameterTree<'_>,
) -> Result<Place, Stop>
    requires names { IsNamed (seen names.now) (state_of U.tables builder.old) }
    requires may { IsLowerable (seen names.now) (syntax parameter.tree.now) }
    requires room { HasRoom (state_of U.tables builder.old) (share (nodes (syntax parameter.tree.now))) }
    ensures same_reference { builder.new.env.ghost_name ≡ builder.old.env.ghost_name }
    ensures lowered { IfOk result (λ place. LowersParam (seen names.now) (syntax parameter.entry.tree.now) (Param.Place place)
        (state_of U.tables builder.old) (state_of U.tables builder.new)) }
    ensures memory { IfErr result (λ e. e ≡ Stop.OutOfMemory) }
{
    let parameter = formal_parameter_view(parameter);
    let (at, pattern) = (parameter.at, parameter.pattern);
    match parameter.default {
        Some(default) => lower_defaulted(alloc, builder, names, at, pattern, default),
        None => match binding_pattern_view(pattern) {
            BindingPattern::Identifier(bind) => {
                let bind = binding_identifier_view(bind);
                lower_named(builder, names, at, &bind)
            }
            BindingPattern::Array { .. } => lower_apart(alloc, builder, names, at, pattern),
            BindingPattern::Object { .. } => lower_apart(alloc, builder, names, at, pattern),
        },
    }
}

/// Lowers the rest of the parameters: a temporary takes the argument.
fn lower_rest<U: ReadsUnit>(
    alloc: Global,
    builder: &mut GraphBuilder<'_, U>,
    names: &FunctionNames<'_>,
    rest: BindingRestElementTree<'_>,
) -> Result<Place, Stop>
    requires names { IsNamed (seen names.now) (state_of U.tables builder.old) }
    requires may { IsLowerable (seen names.now) (syntax rest.tree.now) }
    requires room { HasRoom (state_of U.tables builder.old) (share (nodes (syntax rest.tree.now))) }
    ensures same_reference { builder.new.env.ghost_name ≡ builder.old.env.ghost_name }
    ensures lowered { IfOk result (λ place. LowersRestParam (seen names.now) (syntax rest.entry.tree.now) (Param.Spread place)
        (state_of U.tables builder.old) (state_of U.tables builder.new)) }
    ensures memory { IfErr result (λ e. e ≡ Stop.OutOfMemory) }
{
    let rest = binding_rest_element_view(rest);
    let (span, pattern) = (rest.at.span, rest.pattern);
    let place = builder.create_temporary_place(Some(span))?;
    let kind = InstructionKind::Let;
    lower_pattern(alloc, builder, names, false, kind, span, pattern, place)?;
    Ok(place)
}

/// Lowers the parameters of a function, in order.
pub(crate) fn lower_parameters<U: ReadsUnit>(
    alloc: Global,
    builder: &mut GraphBuilder<'_, U>,
    names: &FunctionNames<'_>,
    parameters: FormalParameters<'_>,
) -> Result<List<Param>, Stop>
    requires names { IsNamed (seen names.now) (state_of U.tables builder.old) }
    requires may { AreLowerable (seen names.now) (pieces_of (map syntax parameters.items.trees.now)) × IsLowerable (seen names.now)
        (maybe parameters.rest (λ t. syntax t.tree.now)) }
    requires room { HasRoom (state_of U.tables builder.old)
        (share (nodes_of (pieces_of (map syntax parameters.items.trees.now)) + nodes (maybe parameters.rest (λ t. syntax t.tree.now)))) }
    ensures same_reference { builder.new.env.ghost_name ≡ builder.old.env.ghost_name }
    ensures lowered { IfOk result (λ params. LoweredParams (seen names.now) (pieces_of (map syntax parameters.entry.items.trees.now))
        (maybe parameters.entry.rest (λ t. syntax t.tree.now)) (state_of U.tables builder.old) (state_of U.tables builder.new) params) }
    ensures memory { IfErr result (λ e. e ≡ Stop.OutOfMemory) }
{
    let mut params = List::new(alloc);
    let mut left = parameters.items;
    'parameters: while let Some((parameter, more)) = left.split_first() {
        let place = lower_parameter(alloc, builder, names, parameter)?;
        params.push(Param::Place(place))?;
        left = more;
    }
    match parameters.rest {
        Some(rest) => {
            let place = lower_rest(alloc, builder, names, rest)?;
            params.push(Param::Spread(place))?;
            Ok(params)
        }
        None => Ok(params),
    }
}
