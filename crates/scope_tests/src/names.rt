//! Scopes, symbols and references of small units. The marked function is the last scope of each.

use crate::listing::{Table, check};
use std::test::Fail;

#[test]
fn other_names_shadow_an_own_name(rt: HostRuntime) -> Result<(), Fail> {
    let rows = [
        (
            r#"(expr (funexpr n n n (bind "f" -) (params [] -) (body [] [(expr (id "f"))])))"#,
            "Program - Function 0 Function 0; f 1 Local FunctionExpression; 0",
        ),
        (
            r#"(expr (funexpr n n n (bind "f" -) (params [] -) (body [] [(expr (id "f")) (var "let" [(declarator (bind "f" -) -)])])))"#,
            "Program - Function 0 Function 0; f 0 Local FunctionExpression f 1 Let VariableDeclarator; 1",
        ),
        (
            r#"(expr (funexpr n n n (bind "f" -) (params [(param (bind "f" -) -)] -) (body [] [(expr (id "f"))])))"#,
            "Program - Function 0 Function 0; f 0 Local FunctionExpression f 1 Param FormalParameter; 1",
        ),
        (
            r#"(expr (funexpr n n n (bind "f" -) (params [] -) (body [] [(block [(var "let" [(declarator (bind "f" -) -)])]) (expr (id "f"))])))"#,
            "Program - Function 0 Block 1 Function 0; f 1 Local FunctionExpression f 2 Let VariableDeclarator; 0",
        ),
        (
            r#"(expr (classexpr (bind "C" -) (id "C") [])) (expr (id "C"))"#,
            "Program - Class 0 Function 0; C 1 Local ClassExpression; 0 -",
        ),
    ];
    for (statements, wanted) in rows {
        check(&rt, rt.alloc(), statements, Table::Names, wanted)?;
    }
    Ok(())
}

#[test]
fn var_is_seen_before_its_place_and_outside_blocks(rt: HostRuntime) -> Result<(), Fail> {
    let rows = [
        (
            r#"(expr (id "a")) (block [(var "var" [(declarator (bind "a" -) -)])]) (expr (id "a"))"#,
            "Program - Block 0 Function 0; a 0 Var VariableDeclarator; 0 0",
        ),
        (
            r#"(expr (id "a")) (block [(expr (id "a")) (var "let" [(declarator (bind "a" -) -)])]) (expr (id "a"))"#,
            "Program - Block 0 Function 0; a 1 Let VariableDeclarator; - 0 -",
        ),
        (
            r#"(expr (arrow n n (params [] -) (body [] [(for (var "var" [(declarator (bind "a" -) -)]) - - (expr (id "a"))) (expr (id "a"))]))) (expr (id "a"))"#,
            "Program - Function 0 For 1 Function 0; a 1 Var VariableDeclarator; 0 0 -",
        ),
        (
            r#"(for (var "let" [(declarator (bind "a" -) -)]) - - (expr (id "a"))) (expr (id "a"))"#,
            "Program - For 0 Function 0; a 1 Let VariableDeclarator; 0 -",
        ),
    ];
    for (statements, wanted) in rows {
        check(&rt, rt.alloc(), statements, Table::Names, wanted)?;
    }
    Ok(())
}

#[test]
fn nodes_make_scopes(rt: HostRuntime) -> Result<(), Fail> {
    let rows = [
        (
            r#"(classdecl (bind "C" -) - [(static [(var "var" [(declarator (bind "a" -) -)]) (expr (id "a"))])]) (expr (id "a"))"#,
            "Program - Class 0 Class 1 Function 0; C 0 Local ClassDeclaration a 2 Var VariableDeclarator; 1 -",
        ),
        (
            r#"(try (block []) (catch (bind "e" -) (block [(expr (id "e"))])) -) (expr (id "e"))"#,
            "Program - Block 0 Catch 0 Block 2 Function 0; e 2 Let CatchClause; 0 -",
        ),
        (
            r#"(try (block []) (catch (bind "e" -) (block [(var "let" [(declarator (bind "e" -) -)]) (expr (id "e"))])) -)"#,
            "Program - Block 0 Catch 0 Block 2 Function 0; e 2 Let CatchClause e 3 Let VariableDeclarator; 1",
        ),
        (
            r#"(switch (id "a") [(case (id "a") [(var "let" [(declarator (bind "a" -) -)])]) (case - [(expr (id "a"))])])"#,
            "Program - Switch 0 Function 0; a 1 Let VariableDeclarator; - 0 0",
        ),
        (
            r#"(switch (arrow n n (params [] -) (id "a")) [(case - [(var "const" [(declarator (bind "a" -) (null))])])])"#,
            "Program - Switch 0 Function 0 Function 0; a 1 Const VariableDeclarator; -",
        ),
        (
            r#"(forof n (var "const" [(declarator (bind "a" -) -)]) (id "a") (block [(var "using" [(declarator (bind "b" -) (id "a"))])]))"#,
            "Program - For 0 Block 1 Function 0; a 1 Const VariableDeclarator b 2 Const VariableDeclarator; 0 0",
        ),
    ];
    for (statements, wanted) in rows {
        check(&rt, rt.alloc(), statements, Table::Names, wanted)?;
    }
    Ok(())
}

#[test]
fn first_declarations_give_kinds(rt: HostRuntime) -> Result<(), Fail> {
    let rows = [
        (
            r#"(fundecl n n n (bind "f" -) (params [] -) (body [] [])) (var "var" [(declarator (bind "f" -) -)])"#,
            "Program - Function 0 Function 0; f 0 Hoisted FunctionDeclaration;",
        ),
        (
            r#"(var "var" [(declarator (bind "f" -) -)]) (fundecl n n n (bind "f" -) (params [] -) (body [] []))"#,
            "Program - Function 0 Function 0; f 0 Var VariableDeclarator;",
        ),
        (
            r#"(typealias (bind "A" -) (type "other" [(id "A")])) (interface (bind "B" -)) (enum (bind "C" -)) (namespace (bind "D" -))"#,
            "Program - Function 0; A 0 Local TSTypeAliasDeclaration B 0 Unknown Unknown C 0 Local TSEnumDeclaration D 0 Local TSModuleDeclaration; 0",
        ),
    ];
    for (statements, wanted) in rows {
        check(&rt, rt.alloc(), statements, Table::Names, wanted)?;
    }
    Ok(())
}
