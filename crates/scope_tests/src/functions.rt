//! Functions of small units, and the functions around their nodes.

use crate::listing::{Table, check};
use std::test::Fail;

#[test]
fn functions_of_properties_count_twice(rt: HostRuntime) -> Result<(), Fail> {
    let rows = [
        (
            r#"(expr (object [(method y (funexpr n n n - (params [] -) (body [] [])) (funexpr n n n - (params [] -) (body [] [(expr (id "a"))])))]))"#,
            " 4 4 14; 44..88 34..88 89..148 34..148 159..191; 5: 2; 6: 1 2; 7: 1 2; 8: 2; 9: 2 2; 10: 2 2; 11: 2 2; 12: 2 2; 15: 3; 16: 3",
        ),
        (
            r#"(expr (object [(get n (name "a") (funexpr n n n - (params [] -) (body [] []))) (set n (str "a") (funexpr n n n - (params [] -) (body [] []))) (prop n (name "b") (funexpr n n n - (params [] -) (body [] [])))]))"#,
            " 4 9 16 20; 52..96 34..96 115..159 98..159 180..224 235..267; 5: 1; 6: 1; 7: 1 1; 8: 1 1; 10: 2; 11: 2; 12: 2 2; 13: 2 2; 17: 3; 18: 3; 21: 4; 22: 4",
        ),
    ];
    for (statements, wanted) in rows {
        check(&rt, rt.alloc(), statements, Table::Functions, wanted)?;
    }
    Ok(())
}

#[test]
fn keys_that_are_function_expressions_count_from_the_property(rt: HostRuntime) -> Result<(), Fail> {
    let rows = [
        (
            r#"(expr (object [(method y (funexpr n n n - (params [] -) (body [] [])) (funexpr n n n - (params [] -) (body [] [])))]))"#,
            " 4 4 12; 44..88 34..88 89..133 34..133 144..176; 5: 2; 6: 1 2; 7: 1 2; 8: 2; 9: 2 2; 10: 2 2; 13: 3; 14: 3",
        ),
        (
            r#"(expr (object [(set y (paren (funexpr n n n - (params [] -) (body [] []))) (funexpr n n n - (params [] -) (body [] [])))]))"#,
            " 6 4 13; 48..92 94..138 34..138 149..181; 5: 2; 6: 2; 7: 1 2; 8: 1 2; 9: 2; 10: 2 2; 11: 2 2; 14: 3; 15: 3",
        ),
        (
            r#"(expr (object [(get y (arrow n n (params [] -) (null)) (funexpr n n n - (params [] -) (body [] [])))]))"#,
            " 5 4 12; 41..73 74..118 34..118 129..161; 5: 2; 6: 1 2; 7: 1 2; 8: 2; 9: 2 2; 10: 2 2; 13: 3; 14: 3",
        ),
    ];
    for (statements, wanted) in rows {
        check(&rt, rt.alloc(), statements, Table::Functions, wanted)?;
    }
    Ok(())
}

#[test]
fn other_functions_count_once(rt: HostRuntime) -> Result<(), Fail> {
    let rows = [
        (
            r#"(classdecl (bind "C" -) - [(method (funexpr n n n - (params [] -) (body [] [(expr (id "a"))]))) (field (arrow n n (params [] -) (null)))])"#,
            " 5 11 15; 54..113 122..154 164..196; 6: 2; 7: 2; 8: 2; 9: 2; 12: 3; 13: 3; 16: 4; 17: 4",
        ),
        (
            r#"(fundecl n n n (bind "f" -) (params [(param (bind "p" -) (arrow n n (params [] -) (null)))] -) (body [] []))"#,
            " 2 7 12; 19..127 76..108 134..166; 3: 1; 4: 1; 5: 1; 6: 1; 7: 1; 8: 2 1; 9: 2 1; 10: 1; 13: 3; 14: 3",
        ),
    ];
    for (statements, wanted) in rows {
        check(&rt, rt.alloc(), statements, Table::Functions, wanted)?;
    }
    Ok(())
}
