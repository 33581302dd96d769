//! Imports of small units.

use crate::listing::{MARKED, Table, check, check_before, read};
use rl_scope::{ScopeId, ScopeResolver, Semantic, SymbolId, Unit};
use std::alloc::Global;
use std::process::Abort;
use std::test::Fail;

/// An import, and a marked function whose inner function assigns the import to the parameter.
const ASSIGNED: &str =
    r#"(expr (arrow y n (params [(param (bind "p" -) -)] -) (body [] [(expr (arrow n n (params [] -) (assign "=" (id "p") (id "s"))))])))"#;

/// An import of one name.
const IMPORT: &str = r#"(import "react" [(named "useState" (bind "s" -))])"#;

#[test]
fn an_import_is_resolved(rt: HostRuntime) -> Result<(), Fail> {
    let rows = [
        (
            Table::Names,
            "Program - Function 0 Function 1; s 0 Module ImportSpecifier p 1 Param FormalParameter; 1 0",
        ),
        (Table::Imports, " react Named useState; -;"),
    ];
    for (table, wanted) in rows {
        check_before(&rt, rt.alloc(), IMPORT, ASSIGNED, table, wanted)?;
    }
    Ok(())
}

#[test]
fn specifiers_have_kinds(rt: HostRuntime) -> Result<(), Fail> {
    let rows = [
        (
            r#"(import "m" [(default (bind "a" -)) (namespace (bind "b" -)) (named "x" (bind "c" -))])"#,
            " m Default -; m Namespace -; m Named x;",
        ),
        (
            r#"(namespace (bind "N" -)) (import "m" []) (import "n" [(named "default" (bind "d" -))])"#,
            " -; n Named default;",
        ),
        (
            r#"(expr (arrow n n (params [] -) (body [] [(if (null) (import "m" [(default (bind "a" -))]) -)])))"#,
            " m Default -;",
        ),
        (
            r#"(block [(import "m" [(default (bind "a" -))])]) (var "var" [(declarator (bind "b" -) -)])"#,
            " m Default -; -;",
        ),
        (
            r#"(expr (assign "=" (arraytarget [(default (id "a") (null))] -) (null))) (var "let" [(declarator (bind "a" -) -)])"#,
            " -;",
        ),
    ];
    for (statements, wanted) in rows {
        check(&rt, rt.alloc(), statements, Table::Imports, wanted)?;
    }
    Ok(())
}

/// Checks the names of two symbols, the second of which is the only one of scope 1.
fn check_resolver(
    rt: &impl Abort,
    alloc: Global,
    resolver: &ScopeResolver<'_>,
) -> Result<(), Fail> {
    let symbol = SymbolId(1);
    let inner = ScopeId(1);
    let outer = resolver.program_scope();
    assert!(rt; resolver.import_entry(symbol).is_none());
    assert!(rt; resolver.import_entry(SymbolId(2)).is_none());
    assert_eq!(rt; resolver.get_binding(inner, "p"), Some(symbol));
    assert_eq!(rt; resolver.get_binding(outer, "p"), None);
    assert_eq!(rt; resolver.find_binding(ScopeId(2), "p"), Some(symbol));
    assert_eq!(rt; resolver.find_binding(outer, "p"), None);
    assert_eq!(rt; resolver.find_binding(ScopeId(3), "p"), None);
    assert_eq!(rt; resolver.ancestors(outer).next(), Some(outer));
    assert_eq!(rt; resolver.ancestors(ScopeId(3)).next(), None);
    assert_eq!(rt;
        resolver.find_binding_in_descendants("p", outer),
        Some(symbol)
    );
    assert_eq!(rt; resolver.find_binding_in_descendants("s", inner), None);
    assert!(rt; !resolver.has_unresolved_reference("p"));
    let bound = resolver.bindings_with_child_blocks(alloc, inner)?;
    assert_eq!(rt; bound.as_slice(), [symbol].as_slice());
    Ok(())
}

/// Checks the names of a unit's first symbol.
fn check_first(rt: &impl Abort, alloc: Global, resolver: &ScopeResolver<'_>) -> Result<(), Fail> {
    let name = resolver.symbol_ident(alloc, SymbolId(0))?;
    assert_eq!(rt; name.as_str(), "s");
    Ok(())
}

/// Checks the names of a unit.
fn check_semantic(rt: &impl Abort, alloc: Global, semantic: &Semantic<'_>) -> Result<(), Fail> {
    let resolver = ScopeResolver::new(alloc, semantic)?;
    check_first(rt, alloc, &resolver)?;
    check_resolver(rt, alloc, &resolver)
}

/// Checks the names of a unit.
fn check_unit(rt: &impl Abort, alloc: Global, unit: &Unit) -> Result<(), Fail> {
    let semantic = Semantic::of(alloc, unit)?;
    check_semantic(rt, alloc, &semantic)
}

#[test]
fn calls_answer_for_an_import(rt: HostRuntime) -> Result<(), Fail> {
    let unit = read(rt.alloc(), IMPORT, ASSIGNED)?;
    check_unit(&rt, rt.alloc(), &unit)
}
