//! Parameters that inner functions share, found by the names of `rl_scope`.

use rl_ast::read::{TreeError, read_tree};
use rl_scope::{
    BindingKind, FunctionNode, IdentifierLocIndex, List, OutOfMemory, RuleError, ScopeResolver,
    Semantic, Stop, SymbolId, Unit, find_context_identifiers,
};
use std::alloc::Global;
use std::collections::BTreeSet;
use std::process::Abort;
use std::test::Fail;
use thiserror::Error;

/// An import, and a marked function whose inner function assigns the import to the parameter.
const UNIT: &str =
    r#"(unit [] (program [(import "react" [(named "useState" (bind "s" -))]) (expr (arrow y n (params [(param (bind "p" -) -)] -) (body [] [(expr (arrow n n (params [] -) (assign "=" (id "p") (id "s"))))])))]))"#;

/// An error of `shared_parameters`. It leaves nothing behind.
#[derive(Debug, Drop, Error)]
enum NamesError {
    /// The bytes exceed a limit or spell no unit.
    #[error("{0}")]
    Tree(#[from] TreeError),
    /// The unit breaks a binding rule.
    #[error("{0}")]
    Rule(#[from] RuleError),
    /// A target that the marked function assigns is wrapped.
    #[error("{0}")]
    Stop(#[from] Stop),
    /// An allocation failed.
    #[error("OutOfMemory")]
    OutOfMemory,
}

impl From<OutOfMemory> for NamesError {
    fn from(_e: OutOfMemory) -> NamesError {
        NamesError::OutOfMemory
    }
}

/// The parameters of the marked function that it shares with its inner functions, in the order of their numbers. On `Tree`, the
/// bytes exceed a limit or spell no unit; on `Rule`, the unit breaks a binding rule; on `Stop`, a target that the function
/// assigns is wrapped; an allocation that failed is told by each of them, or by `OutOfMemory`.
fn shared_parameters(alloc: Global, bytes: &[u8]) -> Result<List<SymbolId>, NamesError> {
    let unit = read_tree(alloc, bytes)?;
    visit_unit(alloc, &unit)
}

/// As `shared_parameters`, of a unit that was read.
fn visit_unit(alloc: Global, unit: &Unit) -> Result<List<SymbolId>, NamesError> {
    let semantic = Semantic::of(alloc, unit)?;
    visit_names(alloc, unit, &semantic)
}

/// As `shared_parameters`, of a unit with its semantic tables.
fn visit_names(
    alloc: Global,
    unit: &Unit,
    semantic: &Semantic<'_>,
) -> Result<List<SymbolId>, NamesError> {
    let resolver = ScopeResolver::new(alloc, semantic)?;
    match unit.marked_function() {
        Some(function) => visit_function(alloc, &function, &resolver),
        None => Ok(List::new(alloc)),
    }
}

/// As `shared_parameters`, of the marked function.
fn visit_function(
    alloc: Global,
    func: &FunctionNode<'_>,
    resolver: &ScopeResolver<'_>,
) -> Result<List<SymbolId>, NamesError> {
    let shared = shared_names(alloc, func, resolver)?;
    let found = parameters_among(alloc, resolver, &shared)?;
    Ok(found)
}

/// The variables that a function shares with its inner functions. On `Diagnostic`, a target that the function assigns is wrapped;
/// on `OutOfMemory`, an allocation failed.
fn shared_names(
    alloc: Global,
    func: &FunctionNode<'_>,
    resolver: &ScopeResolver<'_>,
) -> Result<BTreeSet<SymbolId>, Stop> {
    let index = IdentifierLocIndex::of(alloc, func)?;
    let shared = find_context_identifiers(alloc, func, resolver, &index)?;
    Ok(shared)
}

/// The parameters among symbols, in the order of their numbers. On `OutOfMemory`, an allocation failed.
fn parameters_among(
    alloc: Global,
    resolver: &ScopeResolver<'_>,
    symbols: &BTreeSet<SymbolId>,
) -> Result<List<SymbolId>, OutOfMemory> {
    let mut found = List::new(alloc);
    for symbol in resolver.symbols() {
        if resolver.binding_kind(symbol) == BindingKind::Param && symbols.contains(&symbol) {
            found.push(symbol)?;
        }
    }
    Ok(found)
}

#[test]
fn parameters_are_shared(rt: HostRuntime) -> Result<(), Fail> {
    let found = shared_parameters(rt.alloc(), UNIT.as_bytes())?;
    assert_eq!(rt; found.as_slice(), [SymbolId(1)].as_slice());
    Ok(())
}

/// The text of an error of `shared_parameters`, or `Ok`.
fn told(alloc: Global, text: &str) -> Result<String, Fail> {
    match shared_parameters(alloc, text.as_bytes()) {
        Ok(_) => Ok(String::from_str(alloc, "Ok")?),
        Err(error) => Ok(format!(in alloc; "{error}")?),
    }
}

/// Checks the text of an error of `shared_parameters`, or `Ok`.
fn check_told(rt: &impl Abort, alloc: Global, text: &str, wanted: &str) -> Result<(), Fail> {
    let found = told(alloc, text)?;
    assert_eq!(rt; found.as_str(), wanted);
    Ok(())
}

#[test]
fn errors_have_causes(rt: HostRuntime) -> Result<(), Fail> {
    let rows = [
        (UNIT, "Ok"),
        ("(unit [] (program [])", "Malformed"),
        ("(unit [] (program []))", "B1"),
        (
            r#"(unit [] (program [(expr (arrow y n (params [] -) (assign "=" (nonnull (id "a")) (null))))]))"#,
            "Diagnostic",
        ),
    ];
    for (text, wanted) in rows {
        check_told(&rt, rt.alloc(), text, wanted)?;
    }
    Ok(())
}
