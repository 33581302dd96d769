//! Binding rules: small units that break a rule and none with a lower number, and units that nearly do.

use crate::listing::{MARKED, read};
use rl_scope::{OutOfMemory, RuleError, Semantic, Unit};
use std::alloc::Global;
use std::process::Abort;
use std::test::Fail;

/// The least rule that a unit breaks; 0 if it keeps them all.
fn broken(alloc: Global, unit: &Unit) -> Result<u8, OutOfMemory> {
    match Semantic::of(alloc, unit) {
        Ok(_) => Ok(0),
        Err(RuleError::Malformed(rule)) => Ok(rule),
        Err(RuleError::OutOfMemory) => Err(OutOfMemory),
    }
}

/// Checks the least rule that a program of these statements breaks; 0 if it keeps them all. `last` stands behind them.
fn check_before(
    rt: &impl Abort,
    alloc: Global,
    statements: &str,
    last: &str,
    rule: u8,
) -> Result<(), Fail> {
    let unit = read(alloc, statements, last)?;
    let found = broken(alloc, &unit)?;
    assert_eq!(rt; found, rule, "{statements}");
    Ok(())
}

/// Checks, row by row, the least rule that a program of statements breaks, with a marked function behind them; 0 if it keeps them
/// all.
fn check(rt: &impl Abort, alloc: Global, rows: &[(&str, u8)]) -> Result<(), Fail> {
    for (statements, rule) in rows {
        check_before(rt, alloc, statements, MARKED, *rule)?;
    }
    Ok(())
}

#[test]
fn one_function_is_marked(rt: HostRuntime) -> Result<(), Fail> {
    let rows = [
        ("", "", 1),
        ("", MARKED, 0),
        (MARKED, MARKED, 1),
        ("", r#"(fundecl y n n (bind "f" -) (params [] -) -)"#, 1),
        (
            "",
            r#"(fundecl y n n (bind "f" -) (params [] -) (body [] []))"#,
            0,
        ),
        (r#"(fundecl n n n (bind "f" -) (params [] -) -)"#, MARKED, 0),
        (
            "",
            "(expr (arrow n n (params [] -) (arrow y n (params [] -) (null))))",
            0,
        ),
        (
            "",
            "(expr (arrow y n (params [] -) (arrow y n (params [] -) (null))))",
            1,
        ),
    ];
    for (statements, last, rule) in rows {
        check_before(&rt, rt.alloc(), statements, last, rule)?;
    }
    Ok(())
}

#[test]
fn lexical_names_are_distinct(rt: HostRuntime) -> Result<(), Fail> {
    let rows = [
        (
            r#"(var "let" [(declarator (bind "a" -) -) (declarator (bind "a" -) -)])"#,
            2,
        ),
        (
            r#"(var "let" [(declarator (bind "a" -) -) (declarator (bind "b" -) -)])"#,
            0,
        ),
        (
            r#"(var "var" [(declarator (bind "a" -) -) (declarator (bind "a" -) -)])"#,
            0,
        ),
        (
            r#"(var "var" [(declarator (bind "a" -) -)]) (var "let" [(declarator (bind "a" -) -)])"#,
            2,
        ),
        (
            r#"(var "let" [(declarator (bind "a" -) -)]) (block [(var "let" [(declarator (bind "a" -) -)])])"#,
            0,
        ),
        (
            r#"(import "m" [(default (bind "a" -)) (namespace (bind "a" -))])"#,
            2,
        ),
        (
            r#"(import "m" [(named "a" (bind "b" -)) (named "a" (bind "c" -))])"#,
            0,
        ),
        (
            r#"(classdecl (bind "a" -) - []) (fundecl n n n (bind "a" -) (params [] -) (body [] []))"#,
            2,
        ),
        (
            r#"(fundecl n n n (bind "a" -) (params [] -) (body [] [])) (var "var" [(declarator (bind "a" -) -)])"#,
            0,
        ),
        (
            r#"(block [(fundecl n n n (bind "a" -) (params [] -) (body [] [])) (fundecl n n n (bind "a" -) (params [] -) (body [] []))])"#,
            2,
        ),
        (
            r#"(expr (arrow n n (params [(param (bind "a" -) -)] -) (body [] [(var "let" [(declarator (bind "a" -) -)])])))"#,
            2,
        ),
        (
            r#"(expr (arrow n n (params [(param (bind "a" -) -)] -) (body [] [(fundecl n n n (bind "a" -) (params [] -) (body [] []))])))"#,
            0,
        ),
        (
            r#"(expr (funexpr n n n (bind "a" -) (params [] -) (body [] [(var "let" [(declarator (bind "a" -) -)])])))"#,
            0,
        ),
        (
            r#"(try (block []) (catch (arraypat [(bind "a" -) (bind "a" -)] -) (block [])) -)"#,
            2,
        ),
        (
            r#"(try (block []) (catch (bind "a" -) (block [(var "let" [(declarator (bind "a" -) -)])])) -)"#,
            0,
        ),
        (
            r#"(export (fundecl n n n (bind "a" -) (params [] -) (body [] []))) (var "var" [(declarator (bind "a" -) -)])"#,
            2,
        ),
    ];
    check(&rt, rt.alloc(), &rows)
}

#[test]
fn var_passes_no_lexical_name(rt: HostRuntime) -> Result<(), Fail> {
    let rows = [
        (
            r#"(block [(var "let" [(declarator (bind "a" -) -)]) (var "var" [(declarator (bind "a" -) -)])])"#,
            3,
        ),
        (
            r#"(block [(var "let" [(declarator (bind "a" -) -)]) (block [(var "var" [(declarator (bind "a" -) -)])])])"#,
            3,
        ),
        (
            r#"(block [(var "var" [(declarator (bind "a" -) -)]) (var "let" [(declarator (bind "a" -) -)])])"#,
            3,
        ),
        (
            r#"(block [(var "let" [(declarator (bind "a" -) -)])]) (var "var" [(declarator (bind "a" -) -)])"#,
            0,
        ),
        (
            r#"(block [(var "let" [(declarator (bind "a" -) -)]) (var "var" [(declarator (bind "b" -) -)])])"#,
            0,
        ),
        (
            r#"(try (block []) (catch (bind "a" -) (block [(var "var" [(declarator (bind "a" -) -)])])) -)"#,
            3,
        ),
        (
            r#"(try (block []) (catch - (block [(var "var" [(declarator (bind "a" -) -)])])) -)"#,
            0,
        ),
        (
            r#"(for (var "let" [(declarator (bind "a" -) -)]) - - (var "var" [(declarator (bind "a" -) -)]))"#,
            3,
        ),
        (
            r#"(block [(typealias (bind "a" -) (type "other" [])) (var "var" [(declarator (bind "a" -) -)])])"#,
            0,
        ),
        (
            r#"(var "let" [(declarator (bind "a" -) -)]) (expr (arrow n n (params [] -) (body [] [(var "var" [(declarator (bind "a" -) -)])])))"#,
            0,
        ),
        (
            r#"(block [(fundecl n n n (bind "a" -) (params [] -) (body [] [])) (block [(var "var" [(declarator (bind "a" -) -)])])])"#,
            3,
        ),
    ];
    check(&rt, rt.alloc(), &rows)
}

#[test]
fn parameters_are_distinct(rt: HostRuntime) -> Result<(), Fail> {
    let rows = [
        (
            r#"(expr (arrow n n (params [(param (bind "p" -) -) (param (bind "p" -) -)] -) (null)))"#,
            4,
        ),
        (
            r#"(expr (arrow n n (params [(param (bind "p" -) -) (param (bind "q" -) -)] -) (null)))"#,
            0,
        ),
        (
            r#"(expr (arrow n n (params [(param (bind "p" -) -)] (rest (bind "p" -))) (null)))"#,
            4,
        ),
        (
            r#"(expr (arrow n n (params [(param (arraypat [(bind "p" -) (bind "p" -)] -) -)] -) (null)))"#,
            4,
        ),
        (
            r#"(expr (arrow n n (params [(param (bind "p" -) -)] -) (body [] [(var "var" [(declarator (bind "p" -) -)])])))"#,
            0,
        ),
        (
            r#"(expr (funexpr n n n (bind "p" -) (params [(param (bind "p" -) -)] -) (body [] [])))"#,
            0,
        ),
        (
            r#"(expr (arrow n n (params [(param (bind "p" -) (arrow n n (params [(param (bind "p" -) -)] -) (null)))] -) (null)))"#,
            0,
        ),
    ];
    let marked =
        r#"(expr (arrow y n (params [(param (bind "p" -) -) (param (bind "p" -) -)] -) (null)))"#;
    check_before(&rt, rt.alloc(), "", marked, 4)?;
    check(&rt, rt.alloc(), &rows)
}

#[test]
fn type_names_stand_alone(rt: HostRuntime) -> Result<(), Fail> {
    let rows = [
        (
            r#"(typealias (bind "A" -) (type "other" [])) (interface (bind "A" -))"#,
            5,
        ),
        (r#"(enum (bind "A" -)) (block [(enum (bind "A" -))])"#, 0),
        (
            r#"(interface (bind "A" -)) (var "var" [(declarator (bind "A" -) -)])"#,
            5,
        ),
        (
            r#"(fundecl n n n (bind "A" -) (params [] -) (body [] [])) (enum (bind "A" -))"#,
            5,
        ),
        (r#"(namespace (bind "A" -)) (namespace (bind "B" -))"#, 0),
        (r#"(namespace (bind "A" -)) (namespace (bind "A" -))"#, 5),
        (r#"(block [(namespace (bind "A" -))])"#, 5),
        (r#"(export (namespace (bind "A" -)))"#, 5),
        (r#"(export (enum (bind "A" -)))"#, 0),
        (
            r#"(expr (funexpr n n n (bind "A" -) (params [] -) (body [] [(enum (bind "A" -))])))"#,
            5,
        ),
        (
            r#"(expr (funexpr n n n (bind "A" -) (params [] -) (body [] [(block [(enum (bind "A" -))])])))"#,
            0,
        ),
    ];
    check(&rt, rt.alloc(), &rows)
}

#[test]
fn optional_links_are_on_spines(rt: HostRuntime) -> Result<(), Fail> {
    let rows = [
        (r#"(expr (member y (id "a") "b"))"#, 6),
        (r#"(expr (chain (member y (id "a") "b")))"#, 0),
        (r#"(expr (chain (member n (id "a") "b")))"#, 6),
        (r#"(expr (chain (id "a")))"#, 6),
        (
            r#"(expr (chain (call n (index n (member y (id "a") "b") (null)) [])))"#,
            0,
        ),
        (
            r#"(expr (chain (call y (id "f") [(member y (id "a") "b")])))"#,
            6,
        ),
        (
            r#"(expr (chain (index y (id "a") (member y (id "a") "b"))))"#,
            6,
        ),
        (
            r#"(expr (chain (member n (nonnull (member y (id "a") "b")) "c")))"#,
            0,
        ),
        (r#"(expr (chain (nonnull (member y (id "a") "b"))))"#, 0),
        (
            r#"(expr (chain (member n (paren (member y (id "a") "b")) "c")))"#,
            6,
        ),
        (
            r#"(expr (chain (member n (chain (member y (id "a") "b")) "c")))"#,
            6,
        ),
        (
            r#"(expr (chain (member y (chain (member y (id "a") "b")) "c")))"#,
            0,
        ),
        (r#"(expr (chain (privatemember y (id "a") "b")))"#, 0),
    ];
    check(&rt, rt.alloc(), &rows)
}

#[test]
fn variables_have_declarators(rt: HostRuntime) -> Result<(), Fail> {
    let rows = [
        (r#"(var "var" [])"#, 7),
        (r#"(var "var" [(declarator (bind "a" -) -)])"#, 0),
        (r#"(var "let" [(declarator (bind "a" -) -)])"#, 0),
        (r#"(var "const" [(declarator (bind "a" -) -)])"#, 7),
        (r#"(var "const" [(declarator (bind "a" -) (null))])"#, 0),
        (r#"(var "using" [(declarator (bind "a" -) -)])"#, 7),
        (r#"(var "let" [(declarator (arraypat [] -) -)])"#, 7),
        (r#"(var "let" [(declarator (arraypat [] -) (null))])"#, 0),
        (
            r#"(for (var "const" [(declarator (bind "a" -) -)]) - - (empty))"#,
            7,
        ),
        (
            r#"(forin (var "const" [(declarator (bind "a" -) -)]) (null) (empty))"#,
            0,
        ),
        (
            r#"(forin (var "let" [(declarator (bind "a" -) (null))]) (null) (empty))"#,
            7,
        ),
        (
            r#"(forof n (var "let" [(declarator (bind "a" -) -) (declarator (bind "b" -) -)]) (null) (empty))"#,
            7,
        ),
        (
            r#"(forof n (var "let" [(declarator (arraypat [] -) -)]) (null) (empty))"#,
            0,
        ),
    ];
    check(&rt, rt.alloc(), &rows)
}

#[test]
fn declarations_stand_in_lists(rt: HostRuntime) -> Result<(), Fail> {
    let rows = [
        (
            r#"(if (null) (var "let" [(declarator (bind "a" -) -)]) -)"#,
            8,
        ),
        (
            r#"(if (null) (var "var" [(declarator (bind "a" -) -)]) -)"#,
            0,
        ),
        (
            r#"(if (null) (block [(var "let" [(declarator (bind "a" -) -)])]) -)"#,
            0,
        ),
        (
            r#"(labeled "l" (fundecl n n n (bind "f" -) (params [] -) (body [] [])))"#,
            8,
        ),
        (
            r#"(switch (null) [(case - [(classdecl (bind "C" -) - [])])])"#,
            0,
        ),
        ("(fundecl n n n - (params [] -) (body [] []))", 8),
        (
            "(exportdefault (fundecl n n n - (params [] -) (body [] [])))",
            0,
        ),
        ("(export (classdecl - - []))", 8),
        ("(exportdefault (classdecl - - []))", 0),
        ("(export (empty))", 8),
        (r#"(export (var "let" [(declarator (bind "a" -) -)]))"#, 0),
        (
            r#"(exportdefault (var "var" [(declarator (bind "a" -) -)]))"#,
            8,
        ),
        ("(exportdefault (null))", 0),
        (r#"(if (null) (import "m" []) -)"#, 0),
        (r#"(export (import "m" []))"#, 8),
    ];
    check(&rt, rt.alloc(), &rows)
}

#[test]
fn nodes_have_forms(rt: HostRuntime) -> Result<(), Fail> {
    let rows = [
        ("(expr (template [] []))", 9),
        (r#"(expr (template [(quasi "" "")] []))"#, 0),
        (r#"(expr (template [(quasi "" "")] [(null)]))"#, 9),
        ("(expr (seq []))", 9),
        ("(expr (seq [(null)]))", 0),
        ("(switch (null) [(case - []) (case - [])])", 9),
        ("(switch (null) [(case - []) (case (null) [])])", 0),
        (r#"(expr (object [(prop y (name "a") (null))]))"#, 9),
        (r#"(expr (object [(prop n (name "a") (null))]))"#, 0),
        (r#"(expr (object [(prop y (str "a") (null))]))"#, 0),
        (r#"(expr (update "++" n (arraytarget [] -)))"#, 9),
        (r#"(expr (update "++" n (id "a")))"#, 0),
        (r#"(expr (assign "=" (arraytarget [] -) (null)))"#, 0),
        (
            r#"(expr (element (opening (tagmember (tag "a") "b") []) [] -))"#,
            9,
        ),
        (
            r#"(expr (element (opening (tagmember (this) "b") []) [] -))"#,
            0,
        ),
    ];
    check(&rt, rt.alloc(), &rows)
}

#[test]
fn the_least_rule_is_told(rt: HostRuntime) -> Result<(), Fail> {
    let rows = [
        (r#"(expr (seq [])) (var "let" [])"#, 7),
        (
            r#"(expr (seq [])) (expr (member y (id "a") "b")) (enum (bind "A" -)) (enum (bind "A" -))"#,
            5,
        ),
        (
            r#"(var "let" [(declarator (bind "A" -) -)]) (enum (bind "A" -))"#,
            2,
        ),
        (r#"(export (namespace (bind "A" -))) (expr (seq []))"#, 5),
    ];
    check(&rt, rt.alloc(), &rows)
}
