//! Units, from their bytes to their results.

ghost use Rattle.std.specs.Prelude.{◌≡◌, ◌↔◌, [], false, Some, None, List, IfErr, IfOk, IsErrOf, IsTrue};
ghost use Rattle.rl_ast.specs.FunctionNodes.{seen_function_node};
ghost use Rattle.rl_ast.specs.Marked.{first, marked_functions};
ghost use Rattle.rl_base.specs.declared.diagnostic.Diagnostic.{Diagnostic};
ghost use Rattle.rl_base.specs.declared.ids.NodeId.{NodeId as Id};
ghost use Rattle.rl_promises.specs.Headline.{LowersTo};
ghost use Rattle.rl_semantic.specs.Rules.{least_broken};
ghost use Rattle.rl_syntax.specs.Limits.{IsTooLarge};
ghost use Rattle.rl_syntax.specs.Syntax.{syntax};
ghost use Rattle.rl_promises.specs.KnownSpans.{KnowsSpans};
ghost use Rattle.rl_unit.specs.Answers.{IsMalformed, IsPending, IsRefused, IsSkipped, IsStopped};
ghost use Rattle.rl_unit.specs.Functions.{IsFunctionError, IsRead, IsResultOf, IsUnitError, IsUnitResult, MayLower};
ghost use Rattle.rl_names.specs.Names.{at_of};
ghost use Rattle.rl_names.specs.Seen.{seen, shown};

use rl_ast::function_node::FunctionNode;
use rl_ast::read::{TreeError, read_tree};
use rl_ast::unit::Unit;
use rl_atoms::entity_table::EntityTable;
use rl_base::diagnostic::Diagnostic;
use rl_base::error::OutOfMemory;
use rl_base::ids::NodeId;
use rl_base::list::List;
use rl_base::stop::Stop;
use rl_covered::covered::least_uncovered;
use rl_hir::environment::Environment;
use rl_hir::function::{Lowered, ReactFunctionType};
use rl_lower::function::lower;
use rl_names::names::FunctionNames;
use rl_resolver::resolver::ScopeResolver;
use rl_semantic::semantic::{RuleError, Semantic};
use std::alloc::Global;
use thiserror::Error;

/// The cause for which bytes have no result. The first that applies is given, in this order, but for `OutOfMemory`.
#[derive(Debug, Drop, Error)]
pub enum LowerError {
    /// The bytes pass a limit: more than 2^24 bytes, 65,536 nodes, or 256 nodes open at once. Nothing is allocated before this
    /// is decided.
    #[error("TooLarge")]
    TooLarge,
    /// The bytes spell no unit, or one that breaks a binding rule, B1 to B9.
    #[error("Malformed")]
    Malformed,
    /// The lowering does not cover a node of the marked function: the least id of such a node.
    #[error("Pending({})", .0.0)]
    Pending(NodeId),
    /// A stop row applies to the unit: its diagnostic. Refusals that were recorded before it are dropped.
    #[error("Stopped")]
    Stopped(Diagnostic),
    /// Rows apply to the unit: the diagnostic of each node to which one does, in the order in which the lowering meets them. A
    /// variable `fbt` that gets another name, since one of that name has an identifier already, has row F40 where it is met first,
    /// and not again.
    #[error("Refused")]
    Refused(List<Diagnostic>),
    /// No row applies to the unit, and its marked function declares a variable by `using` or `await using`: what is done at the end of the
    /// variable's block is not lowered.
    #[error("Skipped")]
    Skipped,
    /// An allocation failed.
    #[error("OutOfMemory")]
    OutOfMemory,
}

impl From<OutOfMemory> for LowerError {
    ghost use Rattle.rl_unit.specs.declared.unit.LowerError.TheVariants.{OutOfMemory};
    ghost use Rattle.std.specs.Prelude.{◌≡◌};

    ghost from_gives = { λ _ e. e ≡ OutOfMemory };

    fn from(_e: OutOfMemory) -> LowerError {
        LowerError::OutOfMemory
    }
}

impl From<RuleError> for LowerError {
    ghost use Rattle.rl_unit.specs.Rules.{IsOfRule};

    ghost from_gives = { IsOfRule };

    fn from(e: RuleError) -> LowerError {
        match e {
            RuleError::Malformed(_) => LowerError::Malformed,
            RuleError::OutOfMemory => LowerError::OutOfMemory,
        }
    }
}

/// The marked function of a unit that keeps the binding rules.
#[tactic(auto, using(crate::proofs::Marked::none_breaks))]
fn function_of(unit: &Unit) -> FunctionNode<'_>
    requires rules { least_broken (syntax unit.now.tree) ≡ None }
    ensures { first (marked_functions (syntax unit.now.tree)) ≡ Some (seen_function_node result) }
{
    match unit.marked_function() {
        Some(function) => function,
        None => unreachable!(),
    }
}

/// The environment of a unit before its function is lowered. It has no entities: no text of JSX is lowered yet.
fn fresh_environment(alloc: Global) -> Environment
    ensures { result ≡ record {
      fn_type = ReactFunctionType.Other;
      next_block = 0;
      next_type = 0;
      identifiers = [];
      functions = [];
      pairs = [];
      diagnostics = [];
      entities = [];
      hoisted = [];
      renames = [];
      skip = false;
    } }
{
    match Environment::new(alloc, ReactFunctionType::Other, EntityTable::new(alloc)) {
        Ok(env) => env,
        Err(_) => unreachable!(),
    }
}

/// True if no diagnostic was recorded.
fn is_accepted(env: &Environment) -> bool
    ensures { IsTrue result ↔ (env.now.diagnostics ≡ []) }
{
    env.diagnostics().is_empty()
}

/// Lowers a function under the names of its unit.
fn lower_function(
    alloc: Global,
    names: &FunctionNames<'_>,
    function: FunctionNode<'_>,
) -> Result<Lowered, LowerError>
    requires may { MayLower (seen names.now) (seen_function_node function) }
    requires spans { KnowsSpans (seen names.now) names.now.resolver.now.semantic.now.bindings.symbols (seen_function_node function) }
    ensures lowered { IfOk result (λ l. IsResultOf (seen names.now) (seen_function_node function.entry) l) }
    ensures error { IfErr result (λ e. IsFunctionError (seen names.now) (seen_function_node function.entry) e) }
{
    let mut env = fresh_environment(alloc);
    let lowered = match lower(alloc, function, names, &mut env) {
        Ok(lowered) => lowered,
        Err(Stop::Diagnostic(diagnostic)) => return Err(LowerError::Stopped(diagnostic)),
        Err(Stop::OutOfMemory) => return Err(LowerError::OutOfMemory),
    };
    if !is_accepted(&env) {
        return Err(LowerError::Refused(env.into_diagnostics()));
    }
    if env.skip_compilation() {
        return Err(LowerError::Skipped);
    }
    Ok(env.into_lowered(lowered))
}

/// Lowers a function under the names that semantic tables show.
fn lower_in(
    alloc: Global,
    semantic: &Semantic<'_>,
    function: FunctionNode<'_>,
) -> Result<Lowered, LowerError>
    requires may { MayLower (shown semantic.now (at_of (seen_function_node function))) (seen_function_node function) }
    requires spans { KnowsSpans (shown semantic.now (at_of (seen_function_node function))) semantic.now.bindings.symbols (seen_function_node function) }
    ensures lowered { IfOk result (λ l. IsResultOf (shown semantic.now (at_of (seen_function_node function.entry))) (seen_function_node function.entry) l) }
    ensures error { IfErr result (λ e. IsFunctionError (shown semantic.now (at_of (seen_function_node function.entry))) (seen_function_node function.entry) e) }
{
    let resolver = ScopeResolver::new(alloc, semantic)?;
    let names = FunctionNames::of(&resolver, function);
    lower_function(alloc, &names, function)
}

/// Lowers the marked function of a unit that was read: `lower_unit`, for a caller that has other uses for the unit.
pub fn lower_tree(alloc: Global, unit: &Unit) -> Result<Lowered, LowerError>
    requires read { IsRead (syntax unit.now.tree) }
    ensures lowered { IfOk result (λ l. IsUnitResult (syntax unit.now.tree) l) }
    ensures error { IfErr result (λ e. IsUnitError (syntax unit.now.tree) e) }
{
    let semantic = Semantic::of(alloc, unit)?;
    let function = function_of(unit);
    if let Some(node) = least_uncovered(function) {
        return Err(LowerError::Pending(node));
    }
    lower_in(alloc, &semantic, function)
}

/// Lowers the marked function of the unit that `bytes`, all of them, spell (`lower` of the original, with its parser and its
/// environment). The result is a value of its own: nothing of `bytes` is kept, and nothing is left behind on an error.
pub fn lower_unit(alloc: Global, bytes: &[u8]) -> Result<Lowered, LowerError>
    ensures lowered { IfOk result (λ l. LowersTo bytes.now l) }
    ensures stopped { IfErr result (λ e. (d : Diagnostic) → e ≡ LowerError.Stopped d → IsStopped bytes.now d) }
    ensures refused { IfErr result (λ e. (said : List Diagnostic) → e ≡ LowerError.Refused said → IsRefused bytes.now said) }
    ensures skipped { IsErrOf result LowerError.Skipped → IsSkipped bytes.now }
    ensures pending { IfErr result (λ e. (node : Id) → e ≡ LowerError.Pending node → IsPending bytes.now node.0) }
    ensures too_large { IsErrOf result LowerError.TooLarge ↔ IsTooLarge bytes.now }
    ensures malformed { IsErrOf result LowerError.Malformed → IsMalformed bytes.now }
{
    match read_tree(alloc, bytes) {
        Ok(unit) => lower_tree(alloc, &unit),
        Err(TreeError::TooLarge) => Err(LowerError::TooLarge),
        Err(TreeError::Malformed) => Err(LowerError::Malformed),
        Err(TreeError::OutOfMemory) => Err(LowerError::OutOfMemory),
    }
}
