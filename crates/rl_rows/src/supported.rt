//! The test of a supported unit: no row applies to its marked function, nor in its inner functions.

ghost use Rattle.std.specs.Prelude.{◌≡◌, IfOk, is_some, map};
ghost use Rattle.std.specs.List.{list_all};
ghost use Rattle.rl_context.specs.Wrapped as wrapped;
ghost use Rattle.rl_model.specs.Marked.{marked};
ghost use Rattle.rl_model.specs.Supported as model;
ghost use Rattle.rl_rows.specs.Clean as spec;
ghost use Rattle.rl_syntax.specs.Syntax.{syntax};

use crate::tags::keeps_fbt;
use crate::walk::has_no_rows;
use rl_ast::marked::first_marked;
use rl_ast::unit::Unit;
use rl_base::error::OutOfMemory;
use rl_code::code::code_of;
use rl_code::lowered::lowered_functions;
use rl_context::index::IdentifierLocIndex;
use rl_context::site::Site;
use rl_row_names::chains::is_whole_chain;
use rl_row_names::facts::RowFacts;
use rl_row_names::order::stays;
use rl_syntax::numbered::Numbered;
use std::alloc::Global;

/// True of a node to which none of the rows F26, F29 and F44 applies. On `OutOfMemory`, an allocation failed.
fn node_is_clear<F: RowFacts>(
    alloc: Global,
    facts: &F,
    node: &Numbered,
) -> Result<bool, OutOfMemory>
    ensures { IfOk result (λ clear. clear ≡ spec.clear_node (F.facts facts.now) (syntax node.now)) }
{
    let fbt = keeps_fbt(alloc, node)?;
    Ok(stays(facts, node) && is_whole_chain(node) && fbt)
}

/// True of nodes to none of which one of these rows applies. On `OutOfMemory`, an allocation failed.
fn nodes_are_clear<F: RowFacts>(
    alloc: Global,
    facts: &F,
    nodes: &[&Numbered],
) -> Result<bool, OutOfMemory>
    ensures { IfOk result (λ clear. clear ≡ list_all (spec.clear_node (F.facts facts.now)) (map (λ t. syntax t.now) nodes.now)) }
{
    'nodes: for node in nodes {
        if !node_is_clear(alloc, facts, node)? {
            return Ok(false);
        }
    }
    Ok(true)
}

/// True of a function in whose code none of these rows applies. On `OutOfMemory`, an allocation failed.
fn code_is_clear<F: RowFacts>(
    alloc: Global,
    facts: &F,
    function: &Numbered,
) -> Result<bool, OutOfMemory>
    ensures { IfOk result (λ clear. clear ≡ spec.clear_code (F.facts facts.now) (syntax function.now)) }
{
    let nodes = code_of(alloc, function)?;
    Ok(nodes_are_clear(alloc, facts, nodes.as_slice())?)
}

/// True of functions in whose code none of these rows applies. On `OutOfMemory`, an allocation failed.
fn functions_are_clear<F: RowFacts>(
    alloc: Global,
    facts: &F,
    functions: &[&Numbered],
) -> Result<bool, OutOfMemory>
    ensures { IfOk result (λ clear. clear ≡ list_all (spec.clear_code (F.facts facts.now)) (map (λ t. syntax t.now) functions.now)) }
{
    'functions: for function in functions {
        if !code_is_clear(alloc, facts, function)? {
            return Ok(false);
        }
    }
    Ok(true)
}

/// True of sites with a wrapped target among them.
#[tactic(auto, using(crate::proofs::Clean::wrapping))]
fn has_wrapped(sites: &[Site]) -> bool
    ensures { result ≡ is_some (wrapped.first_wrapped sites.now) }
{
    'sites: for site in sites {
        match site {
            Site::Wrapped(_) => return true,
            Site::Reference(_) => {}
            Site::Declaration(_) => {}
        }
    }
    false
}

/// True of a unit whose marked function has a wrapped target. False where no function is marked. On `OutOfMemory`, an allocation
/// failed.
#[tactic(auto, using(crate::proofs::Clean::targets))]
fn has_wrapped_target(alloc: Global, unit: &Unit) -> Result<bool, OutOfMemory>
    ensures { IfOk result (λ has. has ≡ model.has_wrapped_target (marked (syntax unit.now.tree))) }
{
    match unit.marked_function() {
        Some(function) => {
            let index = IdentifierLocIndex::of(alloc, &function)?;
            Ok(has_wrapped(index.sites()))
        }
        None => Ok(false),
    }
}

/// True of a unit whose marked function has no rows but those of wrapped targets and of single nodes.
#[tactic(auto, using(crate::proofs::Clean::tops))]
fn marked_has_no_rows<F: RowFacts>(facts: &F, unit: &Unit) -> bool
    ensures { result ≡ spec.clear_top (F.facts facts.now) (marked (syntax unit.now.tree)) }
{
    match first_marked(&unit.tree) {
        Some(function) => has_no_rows(facts, function),
        None => true,
    }
}

/// True of a unit in the code of whose lowered functions no row of single nodes applies. On `OutOfMemory`, an allocation failed.
#[tactic(auto, using(crate::proofs::Clean::lowered))]
fn lowered_are_clear<F: RowFacts>(
    alloc: Global,
    facts: &F,
    unit: &Unit,
) -> Result<bool, OutOfMemory>
    ensures { IfOk result (λ clear. clear ≡ spec.clear_lowered (F.facts facts.now) (marked (syntax unit.now.tree))) }
{
    let functions = lowered_functions(alloc, unit)?;
    Ok(functions_are_clear(alloc, facts, functions.as_slice())?)
}

/// True of a unit whose marked function is supported: no row applies to it, nor in its inner functions. True where no function is
/// marked. On `OutOfMemory`, an allocation failed.
pub fn is_supported_by<F: RowFacts>(
    alloc: Global,
    facts: &F,
    unit: &Unit,
) -> Result<bool, OutOfMemory>
    ensures { IfOk result (λ supported. supported ≡ model.is_supported_by (F.facts facts.now) (marked (syntax unit.now.tree))) }
{
    if !marked_has_no_rows(facts, unit) {
        return Ok(false);
    }
    let wrapped = has_wrapped_target(alloc, unit)?;
    if wrapped {
        return Ok(false);
    }
    let clear = lowered_are_clear(alloc, facts, unit)?;
    Ok(clear)
}
