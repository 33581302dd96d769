//! Orderly functions of a unit.

ghost use Rattle.std.specs.Prelude.{◌≡◌, ◌&&◌, ◌∷◌, ℕ, Bool, true, false, map, option_map, IfOk};
ghost use Rattle.std.specs.List.{list_all};
ghost use Rattle.rl_model.specs.Code as code;
ghost use Rattle.rl_model.specs.Facts.{is_shadowed};
ghost use Rattle.rl_model.specs.Marked.{marked};
ghost use Rattle.rl_model.specs.Orderly as orderly;
ghost use Rattle.rl_model.specs.Source as source;
ghost use Rattle.rl_model.specs.Tables.{tables_of};
ghost use Rattle.rl_model.specs.Units.{names_of};
ghost use Rattle.rl_names.specs.Functions.{body_in, params_in};
ghost use Rattle.rl_names.specs.Names.{Names, at_of};
ghost use Rattle.rl_names.specs.Seen.{seen};
ghost use Rattle.rl_orderly.specs.Patterns.{are_orderly};
ghost use Rattle.rl_shadowed.specs.Shadowed.{is_shadowed_by};
ghost use Rattle.rl_orderly.specs.Whole as spec;
ghost use Rattle.rl_syntax.specs.Syntax.{Syntax, syntax};
ghost use Rattle.rl_worlds.specs.Units.{IsSemanticOf};

use crate::node::is_orderly_node;
use crate::pattern::is_orderly_pattern;
use crate::patterns::{push_pattern, push_patterns};
use rl_ast::unit::Unit;
use rl_base::error::OutOfMemory;
use rl_base::ids::NodeId;
use rl_base::text::Text;
use rl_code::code::{at_of, code_of};
use rl_code::lowered::lowered_functions;
use rl_code::numbers::Numbers;
use rl_code::parts::function_parts;
use rl_code::variables::Variables;
use rl_names::names::FunctionNames;
use rl_resolver::resolver::ScopeResolver;
use rl_semantic::semantic::Semantic;
use rl_shadowed::shadowed::are_orderly_names;
use rl_syntax::numbered::{At, Numbered};
use rl_worlds::function_at::function_at;
use rl_worlds::world::{assigned_by, assigned_by_others};
use std::alloc::Global;

/// True if each of some nodes is evaluated in the order in which it is written.
fn are_orderly_nodes(variables: &Variables<'_>, assigned: &Numbers, nodes: &[&Numbered]) -> bool
    ensures { result ≡ list_all (orderly.is_orderly_node (seen variables.now.names) assigned.now.list.items) (map (λ t. syntax t.now) nodes.now) }
{
    'nodes: for node in nodes {
        if !is_orderly_node(variables, assigned, node) {
            return false;
        }
    }
    true
}

/// True if each of some patterns stores its names in the order in which they are written. On `OutOfMemory`, an allocation failed.
fn are_orderly_patterns(
    alloc: Global,
    variables: &Variables<'_>,
    opens: &Numbers,
    patterns: &[(bool, &Numbered)],
) -> Result<bool, OutOfMemory>
    ensures { IfOk result (λ b. b ≡ are_orderly (seen variables.now.names) (code.contains opens.now.list.items) (map {B = Bool × Syntax} (λ p. (p.0, syntax p.1.now)) patterns.now)) }
{
    'patterns: for pattern in patterns {
        if !is_orderly_pattern(alloc, variables, opens, pattern.0, pattern.1)? {
            return Ok(false);
        }
    }
    Ok(true)
}

/// The parameter list of a function and the patterns in its body. Empty of any other tree. On `OutOfMemory`, an allocation failed.
#[tactic(auto, using(crate::proofs::Whole::patterns))]
fn patterns_of(alloc: Global, function: &Numbered) -> Result<Vec<(bool, &Numbered)>, OutOfMemory>
    ensures { IfOk result (λ found. (n : Names) (opens : ℕ → Bool) → are_orderly n opens (map {B = Bool × Syntax} (λ p. (p.0, syntax p.1.now)) found.items) ≡ are_orderly n opens ((false, params_in (syntax function.now)) ∷ orderly.patterns_in false (body_in (syntax function.now)))) }
{
    let mut found = Vec::new(alloc);
    match function_parts(function) {
        Some((params, body)) => {
            push_pattern(&mut found, false, params)?;
            push_patterns(&mut found, false, body)?;
            Ok(found)
        }
        None => Ok(found),
    }
}

/// True if each of some nodes is evaluated in the order in which it is written, and none is a function declaration with the name of
/// another symbol around it. On `OutOfMemory`, an allocation failed.
fn are_all_orderly(
    alloc: Global,
    variables: &Variables<'_>,
    assigned: &Numbers,
    nodes: &Vec<&Numbered>,
) -> Result<bool, OutOfMemory>
    ensures { IfOk result (λ b. b ≡ (list_all (orderly.is_orderly_node (seen variables.now.names) assigned.now.list.items) (map (λ t. syntax t.now) nodes.now.items) && list_all (orderly.is_orderly_name (is_shadowed_by variables.now.names.resolver.now.semantic.now.bindings.names variables.now.names.resolver.now.semantic.now.bindings.scopes variables.now.names.resolver.now.semantic.now.bindings.symbols (seen variables.now.names))) (map (λ t. syntax t.now) nodes.now.items))) }
{
    let named = are_orderly_names(alloc, variables, nodes.as_slice())?;
    Ok(are_orderly_nodes(variables, assigned, nodes.as_slice()) && named)
}

/// True if each node of a function is evaluated in the order in which it is written, and no function declaration in it has the name of
/// another symbol around it. `functions` are all lowered functions. On `OutOfMemory`, an allocation failed.
fn has_orderly_nodes(
    alloc: Global,
    variables: &Variables<'_>,
    functions: &[&Numbered],
    function: &Numbered,
) -> Result<bool, OutOfMemory>
    ensures { IfOk result (λ b. b ≡ spec.has_orderly_nodes (seen variables.now.names) (is_shadowed_by variables.now.names.resolver.now.semantic.now.bindings.names variables.now.names.resolver.now.semantic.now.bindings.scopes variables.now.names.resolver.now.semantic.now.bindings.symbols (seen variables.now.names)) (map (λ t. syntax t.now) functions.now) (syntax function.now)) }
{
    let list = assigned_by(alloc, variables, functions)?;
    let assigned = Numbers::of(alloc, list)?;
    let nodes = code_of(alloc, function)?;
    let result = are_all_orderly(alloc, variables, &assigned, &nodes)?;
    Ok(result)
}

/// True if each pattern of a function stores its names in the order in which they are written. `functions` are all lowered functions.
/// On `OutOfMemory`, an allocation failed.
fn has_orderly_patterns(
    alloc: Global,
    variables: &Variables<'_>,
    functions: &[&Numbered],
    function: &Numbered,
) -> Result<bool, OutOfMemory>
    ensures { IfOk result (λ b. b ≡ spec.has_orderly_patterns (seen variables.now.names) (map (λ t. syntax t.now) functions.now) (syntax function.now)) }
{
    let opens = assigned_by_others(alloc, variables, functions, function)?;
    let opens = Numbers::of(alloc, opens)?;
    let patterns = patterns_of(alloc, function)?;
    let result = are_orderly_patterns(alloc, variables, &opens, patterns.as_slice())?;
    Ok(result)
}

/// True of an orderly function. `names` are those of the marked function, `functions` all lowered functions. On `OutOfMemory`, an
/// allocation failed.
fn is_orderly_among(
    alloc: Global,
    names: &FunctionNames<'_>,
    functions: &[&Numbered],
    function: &Numbered,
) -> Result<bool, OutOfMemory>
    ensures { IfOk result (λ b. (m : Syntax) → map (λ t. syntax t.now) functions.now ≡ code.lowered_functions m → b ≡ orderly.is_orderly_by (seen names.now) (is_shadowed_by names.now.resolver.now.semantic.now.bindings.names names.now.resolver.now.semantic.now.bindings.scopes names.now.resolver.now.semantic.now.bindings.symbols (seen names.now)) m (syntax function.now)) }
{
    let text = Text::from_str(alloc, "")?;
    let variables = Variables {
        names: *names,
        text: &text,
    };
    let nodes = has_orderly_nodes(alloc, &variables, functions, function)?;
    let patterns = has_orderly_patterns(alloc, &variables, functions, function)?;
    Ok(nodes && patterns)
}

/// Ids and span of the marked function, the first of the lowered functions; those of `other` where there are none.
#[tactic(auto, using(crate::proofs::Whole::marked_ids))]
fn marked_at(functions: &[&Numbered], other: &Numbered) -> At
    ensures { (u : Syntax) → map (λ t. syntax t.now) functions.now ≡ source.functions_of u → result ≡ at_of (marked u) }
{
    match functions {
        [] => at_of(other),
        [marked, _inner @ ..] => at_of(marked),
    }
}

/// True of an orderly function of a unit with these semantic tables. `functions` are all its lowered functions. On `OutOfMemory`, an
/// allocation failed, or there are more scopes, symbols or references than ids, which no unit has.
fn is_orderly_in(
    alloc: Global,
    semantic: &Semantic<'_>,
    functions: &[&Numbered],
    function: &Numbered,
) -> Result<bool, OutOfMemory>
    ensures { IfOk result (λ b. (u : Syntax) → IsSemanticOf semantic.now u → map (λ t. syntax t.now) functions.now ≡ source.functions_of u → b ≡ orderly.is_orderly_by (names_of u) (is_shadowed (tables_of u) (names_of u)) (marked u) (syntax function.now)) }
{
    let resolver = ScopeResolver::new(alloc, semantic)?;
    let names = FunctionNames {
        resolver: &resolver,
        function: marked_at(functions, function),
    };
    let result = is_orderly_among(alloc, &names, functions, function)?;
    Ok(result)
}

/// As `is_orderly`; `None` where the node is that of no inner function that is lowered.
fn orderly_at(
    alloc: Global,
    unit: &Unit,
    semantic: &Semantic<'_>,
    function: Option<NodeId>,
) -> Result<Option<bool>, OutOfMemory>
    ensures { IfOk result (λ found. IsSemanticOf semantic.now (syntax unit.now.tree) → found ≡ spec.orderly_at (syntax unit.now.tree) (option_map (λ n. n.0) function)) }
{
    let functions = lowered_functions(alloc, unit)?;
    match function_at(functions.as_slice(), function) {
        Some(found) => {
            let result = is_orderly_in(alloc, semantic, functions.as_slice(), found)?;
            Ok(Some(result))
        }
        None => Ok(None),
    }
}

/// True of an orderly function of a unit that keeps the binding rules: the inner function with this node, or the marked function if
/// there is no node. False where the node is that of no inner function that is lowered. `semantic` are the semantic tables of the unit,
/// as `Semantic::of` makes them. On `OutOfMemory`, an allocation failed, or there are more scopes, symbols or references than ids, which
/// no unit has. It takes time that is linear in the nodes of the unit, up to the logarithms of look-ups, and in its symbols for each
/// function declaration in the function.
pub fn is_orderly(
    alloc: Global,
    unit: &Unit,
    semantic: &Semantic<'_>,
    function: Option<NodeId>,
) -> Result<bool, OutOfMemory>
    ensures { IfOk result (λ b. IsSemanticOf semantic.now (syntax unit.now.tree) → b ≡ source.is_orderly (syntax unit.now.tree) (option_map (λ n. n.0) function)) }
{
    let found = orderly_at(alloc, unit, semantic, function)?;
    match found {
        Some(orderly) => Ok(orderly),
        None => Ok(false),
    }
}
