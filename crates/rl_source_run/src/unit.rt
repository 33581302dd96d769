//! The runs of the functions of a unit by their source.

ghost use Rattle.std.specs.Prelude.{◌≡◌, None, Some, true, map, option_map, IfOk, IsErrOf};
ghost use Rattle.rl_ast.specs.FunctionTrees.{is_function};
ghost use Rattle.rl_model.specs.Functions.{run_function};
ghost use Rattle.rl_model.specs.Marked.{marked};
ghost use Rattle.rl_model.specs.Scenes.{written_scene};
ghost use Rattle.rl_model.specs.Source as source;
ghost use Rattle.rl_names.specs.Names.{at_of};
ghost use Rattle.rl_semantic.specs.Rules.{least_broken};
ghost use Rattle.rl_syntax.specs.Syntax.{syntax};
ghost use Rattle.rl_worlds.specs.Units.{IsSemanticOf};

use crate::source::{Inputs, Surroundings, run_in};
use rl_ast::unit::Unit;
use rl_base::error::OutOfMemory;
use rl_base::ids::NodeId;
use rl_code::lowered::lowered_functions;
use rl_machine::trace::{Answer, Assignment, Trace, Value};
use rl_names::names::FunctionNames;
use rl_resolver::resolver::ScopeResolver;
use rl_semantic::semantic::Semantic;
use rl_source_scene::entities::entities_of;
use rl_source_scene::functions::function_view;
use rl_source_scene::shared::symbols_of;
use rl_source_scene::spaced::spaced_flags;
use rl_source_stack::texts::JsxTexts;
use rl_syntax::numbered::Numbered;
use rl_trace::error::RunError;
use rl_trace::shared::{Numbers, Shared};
use rl_worlds::function_at::function_at;
use rl_worlds::world::world_of;
use std::alloc::Global;

/// The names of a unit that keeps the rules, in the lowering of its marked function.
#[tactic(auto, using(crate::proofs::UnitRuns::marking))]
fn names_in<'s>(unit: &Unit, resolver: &'s ScopeResolver<'s>) -> FunctionNames<'s>
    requires rules { least_broken (syntax unit.now.tree) ≡ None }
    ensures resolver { result.resolver.now ≡ resolver.now }
    ensures function { result.function ≡ at_of (marked (syntax unit.now.tree)) }
{
    match unit.marked_function() {
        Some(function) => FunctionNames::of(resolver, function),
        None => unreachable!(),
    }
}

/// The trace of a function of a unit. `functions` are the marked function and its inner functions. On `OutOfMemory` an allocation
/// failed, or the run did not end within 2^64 steps.
fn run_function_in(
    alloc: Global,
    unit: &Unit,
    semantic: &Semantic<'_>,
    functions: &[&Numbered],
    function: &Numbered,
    inputs: Inputs<'_>,
) -> Result<Trace, OutOfMemory>
    requires tables { IsSemanticOf semantic.now (syntax unit.now.tree) }
    requires functions { map (λ t. syntax t.now) functions.now ≡ source.functions_of (syntax unit.now.tree) }
    requires fits { is_function (syntax function.now) ≡ true }
    ensures { IfOk result (λ t. t ≡ run_function (written_scene (syntax unit.now.tree) (syntax function.now)) (syntax function.now) inputs.entry.start.now inputs.entry.arguments.now inputs.entry.answers.now) }
{
    let resolver = ScopeResolver::new(alloc, semantic)?;
    let names = names_in(unit, &resolver);
    let world = world_of(alloc, &names, functions, function)?;
    let kept = symbols_of(alloc, world.keeps.as_slice())?;
    let entities = entities_of(alloc, unit)?;
    let spaced = spaced_flags(alloc, function)?;
    let texts = JsxTexts {
        entities: &entities,
        spaced: spaced.as_slice(),
    };
    let shared = Shared {
        numbers: Numbers::Own,
        open: world.opens.as_slice(),
        kept: kept.as_slice(),
    };
    let around = Surroundings {
        names,
        texts,
        shared,
    };
    run_in(alloc, around, function_view(function), inputs)
}

/// The trace of a function of a unit by its source: of the inner function with the node `function`, or of the marked function where no
/// node is given. `semantic` are the tables of the unit. `start` sets variables before the run, in order, and a symbol that the unit
/// does not have changes nothing; `arguments` are those of the call, and `answers` those of the outside. On `NoFunction`, the node is
/// that of no inner function that is lowered; on `OutOfMemory`, an allocation failed, or the run did not end within 2^64 steps.
pub fn run_source(
    alloc: Global,
    unit: &Unit,
    semantic: &Semantic<'_>,
    function: Option<NodeId>,
    start: &[Assignment],
    arguments: &[Value],
    answers: &[Answer],
) -> Result<Trace, RunError>
    requires tables { IsSemanticOf semantic.now (syntax unit.now.tree) }
    ensures trace { IfOk result (λ t. source.source_trace_of (syntax unit.now.tree) (option_map (λ n. n.0) function) start.now arguments.now answers.now ≡ Some t) }
    ensures no_function { IsErrOf result RunError.NoFunction → source.function_at (syntax unit.now.tree) (option_map (λ n. n.0) function) ≡ None }
{
    let functions = lowered_functions(alloc, unit)?;
    match function_at(functions.as_slice(), function) {
        None => Err(RunError::NoFunction),
        Some(found) => {
            let inputs = Inputs {
                start,
                arguments,
                answers,
            };
            let trace = run_function_in(
                alloc,
                unit,
                semantic,
                functions.as_slice(),
                found,
                inputs,
            )?;
            Ok(trace)
        }
    }
}
