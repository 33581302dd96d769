//! Tests of the builder's calls on small units.

use crate::calls::{Calls, check};
use std::test::Fail;

/// A statement with a marked function, `() => null`.
const MARKED: &str = "(expr (arrow y n (params [] -) (null)))";

#[test]
fn symbols_get_names_of_their_own(rt: HostRuntime) -> Result<(), Fail> {
    let rows = [
        (
            r#"(expr (arrow y n (params [] -) (body [] [(block [(var "let" [(declarator (bind "x" -) -)]) (expr (id "x"))]) (block [(var "let" [(declarator (bind "x" -) -)]) (expr (id "x"))]) (block [(var "let" [(declarator (bind "x" -) -)]) (expr (id "x"))])])))"#,
            "x x_0 x_1 1:x_0 2:x_1 ",
        ),
        (
            r#"(expr (arrow y n (params [(param (bind "await" -) -) (param (bind "this" -) -)] -) (null)))"#,
            "await S1 ",
        ),
        (
            r#"(expr (arrow y n (params [(param (bind "fbt" -) -)] -) (null)))"#,
            "fbt F40! ",
        ),
    ];
    for (statements, wanted) in rows {
        check(&rt, rt.alloc(), statements, Calls::Names, wanted)?;
    }
    Ok(())
}

#[test]
fn function_declarations_are_found_by_the_names_of_identifiers(
    rt: HostRuntime,
) -> Result<(), Fail> {
    let statements =
        r#"(expr (arrow y n (params [] -) (body [] [(fundecl n n n (bind "f" -) (params [] -) (body [] [])) (block [(fundecl n n n (bind "f" -) (params [] -) (body [] [])) (block [(expr (null))])])])))"#;
    check(
        &rt,
        rt.alloc(),
        statements,
        Calls::Functions,
        "- 0 0 1 1 1 f f_0 - 0 0 0 0 0 ",
    )
}

#[test]
fn merges_add_what_is_missing(rt: HostRuntime) -> Result<(), Fail> {
    check(&rt, rt.alloc(), MARKED, Calls::Merges, "x x_1 0 6 ")
}

/// A statement with a marked function that binds `x`, and uses `x`, `g`, an import `i` and a parameter `class`.
const USES: &str =
    r#"(import "m" [(named "j" (bind "i" -))]) (expr (arrow y n (params [(param (bind "class" -) -)] -) (body [] [(var "let" [(declarator (bind "x" -) -)]) (expr (id "x")) (expr (id "g")) (expr (id "i")) (expr (id "class"))])))"#;

#[test]
fn names_stand_for_variables(rt: HostRuntime) -> Result<(), Fail> {
    let rows = [
        (Calls::Uses, "0 Let global j S1 "),
        (Calls::Contexts, "no yes yes yes no "),
        (Calls::Spans, "150 150 3 "),
        (Calls::Captures, "x x_0 1 x_1 "),
    ];
    for (calls, wanted) in rows {
        check(&rt, rt.alloc(), USES, calls, wanted)?;
    }
    Ok(())
}

#[test]
fn tables_keep_what_they_are_given(rt: HostRuntime) -> Result<(), Fail> {
    let rows = [
        (Calls::Readers, "1 1 yes yes no no 0 "),
        (Calls::Records, "0 0 1 2 S4 F1 yes "),
        (Calls::Environment, "0 0 no yes no 6 2 no yes no yes S4 F1 "),
        (
            Calls::Table,
            "5 Block 3 Loop 9 Block 7 Block yes no 5 Block 7 Block ",
        ),
        (
            Calls::DenseTable,
            "5 Block 3 Loop 9 Block 7 Block yes no 5 Block 7 Block ",
        ),
    ];
    for (calls, wanted) in rows {
        check(&rt, rt.alloc(), USES, calls, wanted)?;
    }
    Ok(())
}
