//! Lowering of functions: parameters, bodies and ends.

ghost use Rattle.std.specs.Prelude.{◌≡◌, ◌≢◌, ◌+◌, ◌*◌, ◌≤◌, ◌||◌, false, option_map, map, OnOk, IfOk, IfErr, None, Some, [], All, length};
ghost use Rattle.std.specs.Option.{option_copied, option_or};
ghost use Rattle.std.specs.Str.{IsUtf8};
ghost use Rattle.rl_ast.specs.FunctionNodes.{seen_function, seen_function_node};
ghost use Rattle.rl_ast.specs.FunctionViews.{seen_arrow, seen_arrow_body};
ghost use Rattle.rl_base.specs.declared.diagnostic.Diagnostic.{Diagnostic as Said};
ghost use Rattle.rl_base.specs.declared.row.Row.TheVariants as row;
ghost use Rattle.rl_builder.specs.Builder.{state_of};
ghost use Rattle.rl_context.specs.Sites.{sites_in};
ghost use Rattle.rl_context.specs.Wrapped.{stop_among};
ghost use Rattle.rl_grammar.specs.Fields.{maybe};
ghost use Rattle.rl_hir.specs.Listing.{function as listed_function};
ghost use Rattle.rl_hir.specs.Numbered.{IsNumbered};
ghost use Rattle.rl_lower.specs.Begun.{FunctionTables, begun_by, function_tables};
ghost use Rattle.rl_lower.specs.Endings.{IsGraphOf, graph_of};
ghost use Rattle.rl_lower.specs.Sound.{IsSoundGraph};
ghost use Rattle.rl_lowered.specs.Lowered.{LoweredBody};
ghost use Rattle.rl_lowered.specs.Named.{IsNamed};
ghost use Rattle.rl_lowered.specs.Promised.{HasRoom, share};
ghost use Rattle.rl_lowered.specs.Sound.{AreWritableIdentifiers, AreWritablePairs, IsSmallTree};
ghost use Rattle.rl_machine.specs.Closed.{IsClosed};
ghost use Rattle.rl_promises.specs.Chains.{HasChains};
ghost use Rattle.rl_promises.specs.Covered.{IsCoveredFunction};
ghost use Rattle.rl_promises.specs.Fields.{ArePairs, HasParams, directives_in, texts_in};
ghost use Rattle.rl_machine.specs.Traces.{World};
ghost use Rattle.rl_promises.specs.Headline.{NeverStuck, SameRuns};
ghost use Rattle.rl_promises.specs.HeldNodes.{HoldsNodes};
ghost use Rattle.rl_model.specs.Scene.{Scene};
ghost use Rattle.rl_lower.specs.Scenes.{IsSceneOf};
ghost use Rattle.rl_promises.specs.Lowerable.{IsLowerable, IsLowerableBody};
ghost use Rattle.rl_promises.specs.Rebound.{span_behind_body};
ghost use Rattle.rl_promises.specs.Rows.{Records, refusals_of};
ghost use Rattle.rl_stops.specs.SeenStops.{seen_stop};
ghost use Rattle.rl_promises.specs.KnownSpans.{KnowsSpans};
ghost use Rattle.rl_promises.specs.Spans.{AreSpannedIdentifiers, IsSpanOf, IsSpanned};
ghost use Rattle.rl_promises.specs.Stops.{first_stop, has_using, stop_in_body, stop_of};
ghost use Rattle.rl_promises.specs.Size.{function_size};
ghost use Rattle.rl_model.specs.WellFormed.{HasKnownPlaces, IsLinked};
ghost use Rattle.rl_names.specs.Functions.{async_in, body_in, generator_in, name_in, params_in, said_by};
ghost use Rattle.rl_promises.specs.Locals.{AreToldApart, HasLocals, KnowsNames};
ghost use Rattle.rl_names.specs.Names.{at_of};
ghost use Rattle.rl_names.specs.Seen.{seen};
ghost use Rattle.rl_syntax.specs.Syntax.{Syntax, Node, Listed, Absent, Pieces, Then, End, nodes, pieces_of, span_of, syntax};
ghost use Rattle.rl_text.specs.Notation.{IsWritable};

use crate::params::lower_parameters;
use rl_ast::binding::binding_identifier_view;
use rl_ast::function::{
    Arrow, ArrowBody, arrow_body_view, formal_parameters_view, function_body_view,
};
use rl_ast::function_node::{Function, FunctionNode};
use rl_base::diagnostic::Diagnostic;
use rl_base::error::OutOfMemory;
use rl_base::ids::{EvaluationOrder, ScopeId};
use rl_base::list::List;
use rl_base::row::Row;
use rl_base::stop::Stop;
use rl_base::text::Text;
use rl_builder::builder::create_temporary_place;
use rl_builder::graph::Built;
use rl_builder::unit_tables::{ReadsUnit, UnitTables};
use rl_context::context::find_context_identifiers;
use rl_context::index::IdentifierLocIndex;
use rl_forms::patterns::this_in;
use rl_grammar::sort::{BindingIdentifierTree, FormalParametersTree, TextTrees};
use rl_hir::blocks::GraphBlocks;
use rl_hir::environment::Environment;
use rl_hir::function::{BlockKind, HirFunction, Param};
use rl_hir::terminal::{ReturnVariant, Terminal, TerminalKind};
use rl_lower_expressions::expression::lower_expression;
use rl_lower_parts::graph_builder::GraphBuilder;
use rl_lower_parts::temporary::lower_undefined;
use rl_lower_statements::statement::lower_statements;
use rl_names::names::FunctionNames;
use rl_stops::body_stops::stop_in_body;
use rl_stops::found_stop::FoundStop;
use rl_stops::skips::has_using;
use rl_stops::stops::first_stop;
use rl_syntax::numbered::{At, Numbered};
use rl_syntax::parts::text_of;
use rl_syntax::word::Word;
use std::alloc::Global;
use std::collections::BTreeSet;

/// A function's parameters, and its graph.
#[derive(Drop)]
struct Graph {
    params: List<Param>,
    built: Built<GraphBlocks>,
}

/// The parts of a function of any form that its graph shows.
#[derive(Clone, Copy)]
struct FunctionParts<'b> {
    at: At,
    name: Option<BindingIdentifierTree<'b>>,
    generator: bool,
    is_async: bool,
    body: ArrowBody<'b>,
}

/// The parts of an arrow function.
fn parts_of_arrow(arrow: Arrow<'_>) -> FunctionParts<'_>
    ensures at { result.at ≡ at_of (seen_arrow arrow.entry) }
    ensures name { said_by (maybe result.name (λ t. syntax t.tree.now)) ≡ name_in (seen_arrow arrow.entry) }
    ensures generator { result.generator ≡ generator_in (seen_arrow arrow.entry) }
    ensures is_async { result.is_async ≡ async_in (seen_arrow arrow.entry) }
    ensures body { seen_arrow_body result.body ≡ body_in (seen_arrow arrow.entry) }
{
    FunctionParts {
        at: arrow.at,
        name: None,
        generator: false,
        is_async: arrow.is_async,
        body: arrow_body_view(arrow.body),
    }
}

/// The parts of a function that is no arrow function.
fn parts_of_function(function: Function<'_>) -> FunctionParts<'_>
    requires body { body_in (seen_function function) ≢ Absent }
    ensures at { result.at ≡ at_of (seen_function function.entry) }
    ensures name { said_by (maybe result.name (λ t. syntax t.tree.now)) ≡ name_in (seen_function function.entry) }
    ensures generator { result.generator ≡ generator_in (seen_function function.entry) }
    ensures is_async { result.is_async ≡ async_in (seen_function function.entry) }
    ensures body { seen_arrow_body result.body ≡ body_in (seen_function function.entry) }
{
    let Some(body) = function.body else {
        unreachable!();
    };
    FunctionParts {
        at: function.at,
        name: function.name,
        generator: function.generator,
        is_async: function.is_async,
        body: ArrowBody::Body(body),
    }
}

/// The parts of a function that has a body.
fn parts_of(function: FunctionNode<'_>) -> FunctionParts<'_>
    requires body { body_in (seen_function_node function) ≢ Absent }
    ensures at { result.at ≡ at_of (seen_function_node function.entry) }
    ensures name { said_by (maybe result.name (λ t. syntax t.tree.now)) ≡ name_in (seen_function_node function.entry) }
    ensures generator { result.generator ≡ generator_in (seen_function_node function.entry) }
    ensures is_async { result.is_async ≡ async_in (seen_function_node function.entry) }
    ensures body { seen_arrow_body result.body ≡ body_in (seen_function_node function.entry) }
{
    match function {
        FunctionNode::Function(function) => parts_of_function(function),
        FunctionNode::Arrow(arrow) => parts_of_arrow(arrow),
    }
}

/// A copy of a function's own name, if it has one. On `OutOfMemory`, an allocation failed.
fn own_name(
    alloc: Global,
    name: Option<BindingIdentifierTree<'_>>,
) -> Result<Option<Text>, OutOfMemory>
    ensures { IfOk result (λ text. text ≡ said_by (maybe name.entry (λ t. syntax t.tree.now))) }
{
    match name {
        Some(name) => Ok(Some(binding_identifier_view(name).name.copy(alloc)?)),
        None => Ok(None),
    }
}

/// Lowers a body up to its end. An expression's value is returned; the block behind that return is numbered before the
/// expression is lowered.
fn lower_body<U: ReadsUnit>(
    alloc: Global,
    builder: &mut GraphBuilder<'_, U>,
    names: &FunctionNames<'_>,
    body: ArrowBody<'_>,
) -> Result<(), Stop>
    requires names { IsNamed (seen names.now) (state_of U.tables builder.old) }
    requires may { IsLowerableBody (seen names.now) (seen_arrow_body body) }
    requires outermost { (state_of U.tables builder.old).scopes ≡ [] }
    requires room { HasRoom (state_of U.tables builder.old) (share (nodes (seen_arrow_body body) + 1)) }
    ensures same_reference { builder.new.env.ghost_name ≡ builder.old.env.ghost_name }
    ensures lowered { OnOk result (LoweredBody (seen names.now) (seen_arrow_body body.entry)
        (state_of U.tables builder.old) (state_of U.tables builder.new)) }
    ensures memory { IfErr result (λ e. e ≡ Stop.OutOfMemory) }
{
    match body {
        ArrowBody::Expression(expression) => {
            let fallthrough = builder.reserve(BlockKind::Block)?;
            let value = lower_expression(alloc, builder, names, expression)?;
            builder.terminate_with_continuation(
                Terminal {
                    order: EvaluationOrder(0),
                    span: None,
                    kind: TerminalKind::Return {
                        variant: ReturnVariant::Implicit,
                        value,
                    },
                },
                fallthrough,
            )?;
            Ok(())
        }
        ArrowBody::Body(body) => {
            let body = function_body_view(body);
            lower_statements(alloc, builder, names, body.statements)
        }
    }
}

/// The graph of a function, over the tables of its unit. The end of its body returns undefined, even if it is unreachable.
fn lower_graph<U: ReadsUnit>(
    alloc: Global,
    names: &FunctionNames<'_>,
    unit: U,
    scope: ScopeId,
    parameters: FormalParametersTree<'_>,
    body: ArrowBody<'_>,
    env: &mut Environment,
) -> Result<Graph, Stop>
    requires tables { (U.tables unit).semantic ≡ names.now.resolver.now.semantic.now }
    requires knows { KnowsNames (seen names.now) }
    requires told { AreToldApart (seen names.now) (syntax parameters.tree.now) }
    requires may_take { IsLowerable (seen names.now) (syntax parameters.tree.now) }
    requires may { IsLowerableBody (seen names.now) (seen_arrow_body body) }
    requires room { HasRoom (begun_by env.old (function_tables names.now scope (U.tables unit).sites))
        (share (nodes (syntax parameters.tree.now) + nodes (seen_arrow_body body) + 1)) }
    ensures graph { IfOk result (λ graph. (at : At) (items : Pieces) (rest : Syntax)
        → syntax parameters.entry.tree.now ≡ Node at Word.Params (Then (Listed items) (Then rest End))
        → IsGraphOf (seen names.now) (function_tables names.now scope (U.tables unit).sites) items rest (seen_arrow_body body.entry)
        env.old env.new graph.params (graph_of graph.built)) }
    ensures sound { IfOk result (λ graph. (at : At) (items : Pieces) (rest : Syntax)
        → syntax parameters.entry.tree.now ≡ Node at Word.Params (Then (Listed items) (Then rest End))
        → IsSoundGraph items rest (seen_arrow_body body.entry) graph.params env.old env.new (graph_of graph.built)) }
    ensures memory { IfErr result (λ e. e ≡ Stop.OutOfMemory) }
{
    let mut builder = GraphBuilder::<U>::over(
        alloc,
        &mut *env,
        unit,
        scope,
        scope,
        BTreeSet::new(alloc),
        None,
        None,
        None,
        None,
    )?;
    let parameters = formal_parameters_view(parameters);
    let params = lower_parameters(alloc, &mut builder, names, parameters)?;
    lower_body(alloc, &mut builder, names, body)?;
    let value = lower_undefined(&mut builder, None)?;
    let end = Terminal {
        order: EvaluationOrder(0),
        span: None,
        kind: TerminalKind::Return {
            variant: ReturnVariant::Void,
            value,
        },
    };
    builder.terminate(end, None)?;
    let built = builder.build()?;
    Ok(Graph { params, built })
}

/// Copies of texts, in order.
#[tactic(auto, using(rl_grammar::proofs::Viewing::of_text))]
fn copy_texts(alloc: Global, texts: TextTrees<'_>) -> Result<List<Text>, OutOfMemory>
    ensures copied { IfOk result (λ copies. copies ≡ texts_in (pieces_of (map syntax texts.entry.trees.now))) }
{
    let mut copies = List::new(alloc);
    let mut left = texts;
    'texts: while let Some((text, rest)) = left.split_first() {
        copies.push(text_of(text.tree).copy(alloc)?)?;
        left = rest;
    }
    Ok(copies)
}

/// The directives that begin a body.
fn directives_of(alloc: Global, body: ArrowBody<'_>) -> Result<List<Text>, OutOfMemory>
    ensures copied { IfOk result (λ directives. directives ≡ directives_in (seen_arrow_body body.entry)) }
    ensures texts { IfOk result (λ directives. IsSmallTree (seen_arrow_body body.entry) → All IsUtf8 directives) }
{
    match body {
        ArrowBody::Expression(_) => Ok(List::new(alloc)),
        ArrowBody::Body(body) => copy_texts(alloc, function_body_view(body).directives),
    }
}

/// The tree of a body.
fn body_tree<'b>(body: ArrowBody<'b>) -> &'b Numbered
    ensures { syntax result.now ≡ seen_arrow_body body.entry }
{
    match body {
        ArrowBody::Expression(expression) => expression.tree,
        ArrowBody::Body(body) => body.tree,
    }
}

/// The parameters of a function.
fn params_of<'b>(function: FunctionNode<'b>) -> FormalParametersTree<'b>
    ensures { syntax result.tree.now ≡ params_in (seen_function_node function.entry) }
{
    match function {
        FunctionNode::Function(function) => function.params,
        FunctionNode::Arrow(arrow) => arrow.params,
    }
}

/// The first stop in the parameters, and then in the body.
fn first_found(names: &FunctionNames<'_>, params: &Numbered, body: &Numbered) -> Option<FoundStop>
    ensures { option_map (seen_stop (seen names.now)) result ≡ option_or (first_stop (seen names.now) (syntax params.now))
        (stop_in_body (seen names.now) (syntax body.now)) }
{
    match first_stop(names, params) {
        Some(found) => Some(found),
        None => stop_in_body(names, body),
    }
}

/// Looks for a stop in the parameters, and then in the body. On `Stop::OutOfMemory` an allocation failed.
fn look_inside(
    alloc: Global,
    names: &FunctionNames<'_>,
    params: &Numbered,
    body: &Numbered,
) -> Result<(), Stop>
    ensures goes_on { OnOk result (option_or (first_stop (seen names.now) (syntax params.now))
        (stop_in_body (seen names.now) (syntax body.now)) ≡ None) }
    ensures stopped { IfErr result (λ e. (d : Said) → e ≡ Stop.Diagnostic d
        → option_or (first_stop (seen names.now) (syntax params.now)) (stop_in_body (seen names.now) (syntax body.now)) ≡ Some d) }
{
    match first_found(names, params, body) {
        Some(found) => Err(Stop::Diagnostic(found.diagnostic(alloc, names)?)),
        None => Ok(()),
    }
}

/// As `look_inside`, for a wrapped target of an assignment anywhere in the function in front of these.
fn look_for_targets(
    alloc: Global,
    names: &FunctionNames<'_>,
    function: FunctionNode<'_>,
    index: &IdentifierLocIndex,
    body: &Numbered,
) -> Result<(), Stop>
    requires index { index.now ≡ sites_in (seen_function_node function) }
    requires body { syntax body.now ≡ body_in (seen_function_node function) }
    ensures goes_on { OnOk result (option_or (stop_among (sites_in (seen_function_node function.entry)))
        (option_or (first_stop (seen names.now) (params_in (seen_function_node function.entry)))
        (stop_in_body (seen names.now) (body_in (seen_function_node function.entry)))) ≡ None) }
    ensures stopped { IfErr result (λ e. (d : Said) → e ≡ Stop.Diagnostic d
        → option_or (stop_among (sites_in (seen_function_node function.entry)))
        (option_or (first_stop (seen names.now) (params_in (seen_function_node function.entry)))
        (stop_in_body (seen names.now) (body_in (seen_function_node function.entry)))) ≡ Some d) }
{
    find_context_identifiers(alloc, &function, names.resolver, index)?;
    look_inside(alloc, names, params_of(function).tree, body)
}

/// Looks for the stops of a function with its index. On `Stop::OutOfMemory` an allocation failed.
fn look_for_stops(
    alloc: Global,
    names: &FunctionNames<'_>,
    function: FunctionNode<'_>,
    index: &IdentifierLocIndex,
    body: &Numbered,
) -> Result<(), Stop>
    requires index { index.now ≡ sites_in (seen_function_node function) }
    requires body { syntax body.now ≡ body_in (seen_function_node function) }
    ensures goes_on { OnOk result (stop_of (seen names.now) (seen_function_node function.entry) ≡ None) }
    ensures stopped { IfErr result (λ e. (d : Said) → e ≡ Stop.Diagnostic d
        → stop_of (seen names.now) (seen_function_node function.entry) ≡ Some d) }
{
    match this_in(params_of(function).tree) {
        Some(span) => Err(Stop::Diagnostic(Diagnostic::at(alloc, Row::S2, "this", span)?)),
        None => look_for_targets(alloc, names, function, index, body),
    }
}

/// Marks the unit to be skipped, if the body has a declaration by `using`.
fn mark_using(env: &mut Environment, body: &Numbered)
    ensures { env.new ≡ record env.old { skip = env.old.skip || has_using (syntax body.now) } }
{
    if has_using(body) {
        env.mark_skip();
    }
}

/// Lowers a function (`lower`) that is covered, each node of it, has a body, and keeps the rule on chains. The stops are looked for
/// before anything is lowered. The diagnostics of refused nodes are appended to the environment's. A declaration by `using` marks the
/// unit to be skipped. Where no node is refused and none declares by `using`, the graph has the function's traces. On
/// `Stop::Diagnostic` a stop row applies to the function, and on `Stop::OutOfMemory` an allocation failed; of the environment nothing
/// is promised then.
pub fn lower(
    alloc: Global,
    function: FunctionNode<'_>,
    names: &FunctionNames<'_>,
    env: &mut Environment,
) -> Result<HirFunction<GraphBlocks>, Stop>
    requires locals { HasLocals (seen names.now) (seen_function_node function) }
    requires covered { IsCoveredFunction (seen_function_node function) }
    requires chained { HasChains (seen_function_node function) }
    requires body { body_in (seen_function_node function) ≢ Absent }
    requires fresh { env.old.pairs ≡ [] }
    requires spans { KnowsSpans (seen names.now) names.now.resolver.now.semantic.now.bindings.symbols (seen_function_node function) }
    requires room { (tables : FunctionTables) → HasRoom (begun_by env.old tables) (share (nodes (seen_function_node function))) }
    ensures goes_on { OnOk result (stop_of (seen names.now) (seen_function_node function.entry) ≡ None) }
    ensures stopped { IfErr result (λ e. (d : Said) → e ≡ Stop.Diagnostic d
        → stop_of (seen names.now) (seen_function_node function.entry) ≡ Some d) }
    ensures refused { OnOk result (Records (refusals_of (seen names.now) (seen_function_node function.entry)) env.old.diagnostics
        env.new.diagnostics) }
    ensures skip { OnOk result (env.new.skip ≡ (env.old.skip || has_using (body_in (seen_function_node function.entry)))) }
    ensures closed { IfOk result (λ f. IsClosed f.body) }
    ensures same_runs { IfOk result (λ f. refusals_of (seen names.now) (seen_function_node function.entry) ≡ []
        → has_using (body_in (seen_function_node function.entry)) ≡ false → (scene : Scene) (world : World)
        → IsSceneOf (seen names.now) env.new.pairs scene world → SameRuns scene (seen_function_node function.entry) world f env.new.pairs) }
    ensures never_stuck { IfOk result (λ f. refusals_of (seen names.now) (seen_function_node function.entry) ≡ []
        → has_using (body_in (seen_function_node function.entry)) ≡ false → (scene : Scene) (world : World)
        → IsSceneOf (seen names.now) env.new.pairs scene world → NeverStuck world f env.new.pairs) }
    ensures held { IfOk result (λ f. refusals_of (seen names.now) (seen_function_node function.entry) ≡ []
        → HoldsNodes (seen names.now) (seen_function_node function.entry) f) }
    ensures numbered { IfOk result (λ f. IsNumbered f.instructions f.body.blocks) }
    ensures linked { IfOk result (λ f. IsLinked f) }
    ensures functions { OnOk result (env.new.functions ≡ env.old.functions) }
    ensures bounded { IfOk result (λ f. function_size f ≤ 64 * nodes (seen_function_node function.entry)) }

    // The fields that traces do not read.
    ensures span { IfOk result (λ f. f.span ≡ Some (span_of (seen_function_node function.entry))) }
    ensures name { IfOk result (λ f. f.name ≡ name_in (seen_function_node function.entry)) }
    ensures fn_type { IfOk result (λ f. f.fn_type ≡ env.old.fn_type) }
    ensures is_async { IfOk result (λ f. f.is_async ≡ async_in (seen_function_node function.entry)) }
    ensures generator { IfOk result (λ f. f.generator ≡ generator_in (seen_function_node function.entry)) }
    ensures directives { IfOk result (λ f. f.directives ≡ directives_in (body_in (seen_function_node function.entry))) }
    ensures context { IfOk result (λ f. f.context ≡ []) }
    ensures returns { IfOk result (λ f. (f.returns.span ≡ None) × (f.returns.identifier.0 + 1 ≡ length env.new.identifiers)) }

    // The identifiers of pairs are named for their symbols. Each parameter stands at its place; the identifier of one that is a name has
    // the span of its last declaration. The notation has the pairs.
    ensures pairs { OnOk result (ArePairs (seen names.now) env.new.identifiers env.new.pairs) }
    ensures given { IfOk result (λ f. HasParams (seen names.now)
        (λ symbol before. span_behind_body (seen names.now) symbol (body_in (seen_function_node function.entry)) before)
        env.new.identifiers env.new.pairs (params_in (seen_function_node function.entry)) f.params) }
    ensures paired { OnOk result (AreWritablePairs env.new.pairs) }

    // Places name identifiers that were made, and the notation has the listing of what a small function is lowered to.
    ensures places { IfOk result (λ f. HasKnownPlaces (length env.new.identifiers) f) }
    ensures writable { IfOk result (λ f. IsSmallTree (seen_function_node function.entry) → IsWritable (listed_function f)) }
    ensures known { OnOk result (IsSmallTree (seen_function_node function.entry) → AreWritableIdentifiers env.old.identifiers
        → AreWritableIdentifiers env.new.identifiers) }

    // Each span is that of a node of the function, or absent.
    ensures spanned { IfOk result (λ f. AreSpannedIdentifiers (IsSpanOf (seen_function_node function.entry)) env.old.identifiers
        → IsSpanned (seen_function_node function.entry) f env.new.identifiers) }
{
    let parts = parts_of(function);
    let body = body_tree(parts.body);
    let index = IdentifierLocIndex::of(alloc, &function)?;
    look_for_stops(alloc, names, function, &index, body)?;
    let span = Some(parts.at.span);
    let unit = UnitTables {
        resolver: names.resolver,
        identifier_spans: &index,
    };
    let graph = lower_graph(
        alloc,
        names,
        unit,
        parts.at.scope,
        params_of(function),
        parts.body,
        env,
    )?;
    let returns = create_temporary_place(env, span)?;
    mark_using(env, body);
    Ok(HirFunction {
        span,
        name: own_name(alloc, parts.name)?,
        fn_type: env.fn_type(),
        generator: parts.generator,
        is_async: parts.is_async,
        directives: directives_of(alloc, parts.body)?,
        params: graph.params,
        context: List::new(alloc),
        returns,
        body: graph.built.hir,
        instructions: graph.built.instructions,
    })
}
