//! The test of supported units.

ghost use Rattle.std.specs.Prelude.{◌≡◌, Some, IfOk};
ghost use Rattle.rl_ast.specs.FunctionNodes.{seen_function_node};
ghost use Rattle.rl_ast.specs.Marked.{first, marked_functions};
ghost use Rattle.rl_facts.specs.Facts.{facts_by};
ghost use Rattle.rl_markers.specs.Named.{bare, tables};
ghost use Rattle.rl_model.specs.Source as source;
ghost use Rattle.rl_model.specs.Supported as model;
ghost use Rattle.rl_names.specs.Names.{at_of};
ghost use Rattle.rl_names.specs.Seen.{seen, shown};
ghost use Rattle.rl_syntax.specs.Syntax.{syntax};
ghost use Rattle.rl_worlds.specs.Units.{IsSemanticOf};

use crate::known::KnownFacts;
use rl_ast::function_node::FunctionNode;
use rl_ast::marked::first_marked;
use rl_ast::unit::Unit;
use rl_base::error::OutOfMemory;
use rl_base::stop::Stop;
use rl_base::text::Text;
use rl_code::code::at_of;
use rl_code::lowered::lowered_functions;
use rl_code::variables::Variables;
use rl_facts::unit_facts::UnitFacts;
use rl_names::names::FunctionNames;
use rl_resolver::resolver::ScopeResolver;
use rl_rows::supported::is_supported_by;
use rl_semantic::semantic::Semantic;
use rl_syntax::numbered::Numbered;
use std::alloc::Global;

/// True of a unit to whose marked function no row applies, nor in its inner functions, by the names `variables` of the unit. `function`
/// and `marked` are the marked function. On `OutOfMemory`, an allocation failed, or there are more symbols than ids, which no unit has.
#[tactic(auto, using(crate::proofs::Units::by_facts))]
fn is_supported_with(
    alloc: Global,
    unit: &Unit,
    variables: Variables<'_>,
    function: &FunctionNode<'_>,
    marked: &Numbered,
) -> Result<bool, OutOfMemory>
    requires function { seen_function_node function.now ≡ syntax marked.now }
    requires marked { first (marked_functions (syntax unit.now.tree)) ≡ Some (syntax marked.now) }
    ensures { IfOk result (λ b. b ≡ model.is_supported_by (facts_by (tables variables.entry) variables.entry.names.resolver.now.semantic.now.nodes.now (seen variables.entry.names) (syntax marked.now)) (syntax marked.now)) }
{
    let functions = lowered_functions(alloc, unit)?;
    match UnitFacts::of(alloc, variables, function, marked, functions.as_slice()) {
        Ok(facts) => {
            let known = KnownFacts { facts };
            let supported = is_supported_by(alloc, &known, unit)?;
            Ok(supported)
        }
        Err(Stop::Diagnostic(_)) => Ok(false),
        Err(Stop::OutOfMemory) => Err(OutOfMemory),
    }
}

/// As `is_supported_with`, by the semantic tables of the unit. On `OutOfMemory`, an allocation failed, or there are more scopes, symbols
/// or references than ids, which no unit has.
fn is_supported_in(
    alloc: Global,
    unit: &Unit,
    semantic: &Semantic<'_>,
    function: &FunctionNode<'_>,
    marked: &Numbered,
) -> Result<bool, OutOfMemory>
    requires function { seen_function_node function.now ≡ syntax marked.now }
    requires marked { first (marked_functions (syntax unit.now.tree)) ≡ Some (syntax marked.now) }
    ensures { IfOk result (λ b. b ≡ model.is_supported_by (facts_by (bare semantic.now.bindings) semantic.now.nodes.now (shown semantic.now (at_of (syntax marked.now))) (syntax marked.now)) (syntax marked.now)) }
{
    let text = Text::from_str(alloc, "")?;
    let resolver = ScopeResolver::new(alloc, semantic)?;
    let names = FunctionNames {
        resolver: &resolver,
        function: at_of(marked),
    };
    let variables = Variables { names, text: &text };
    let supported = is_supported_with(alloc, unit, variables, function, marked)?;
    Ok(supported)
}

/// True of a supported unit that keeps the binding rules: no row applies to its marked function, nor in its inner functions. `semantic`
/// are the semantic tables of the unit, as `Semantic::of` makes them. On `OutOfMemory`, an allocation failed, or there are more scopes,
/// symbols or references than ids, which no unit has.
#[tactic(auto, using(crate::proofs::Units::by_tables))]
pub fn is_supported(
    alloc: Global,
    unit: &Unit,
    semantic: &Semantic<'_>,
) -> Result<bool, OutOfMemory>
    ensures { IfOk result (λ b. IsSemanticOf semantic.now (syntax unit.now.tree) → b ≡ source.is_supported (syntax unit.now.tree)) }
{
    match unit.marked_function() {
        Some(function) => match first_marked(&unit.tree) {
            Some(marked) => {
                let supported = is_supported_in(alloc, unit, semantic, &function, marked)?;
                Ok(supported)
            }
            None => Ok(true),
        },
        None => Ok(true),
    }
}
