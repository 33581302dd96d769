//! Tests of the builder's calls on small units.

use crate::calls::{Calls, check};
use rl_atoms::entity_table::EntityTable;
use rl_base::span::Span;
use rl_base::text::Text;
use rl_bindings::symbol_kind::BindingKind as SymbolKind;
use rl_builder::resolve::convert_binding_kind;
use rl_hir::binding::BindingKind;
use rl_hir::environment::Environment;
use rl_hir::function::{IdentifierName, ReactFunctionType};
use std::test::Fail;

/// A statement with a marked function, `() => null`.
const MARKED: &str = "(expr (arrow y n (params [] -) (null)))";

#[test]
fn jumps_go_to_the_innermost_statement_that_takes_them(rt: HostRuntime) -> Result<(), Fail> {
    let rows = [
        (Calls::JumpsInSwitch, "2 1 0 0 "),
        (Calls::JumpsInLabel, "NoBreak 5 NoContinue NotALoop "),
        (Calls::JumpsBehindStop, "1 5 0 NotALoop "),
        (
            Calls::JumpsBehindScopes,
            "NoBreak NoBreak NoContinue NoContinue ",
        ),
    ];
    for (calls, wanted) in rows {
        check(&rt, rt.alloc(), MARKED, calls, wanted)?;
    }
    Ok(())
}

#[test]
fn an_instruction_under_a_handler_ends_its_block(rt: HostRuntime) -> Result<(), Fail> {
    check(&rt, rt.alloc(), MARKED, Calls::Handler, "1 2 7 ")
}

#[test]
fn moves_build_blocks(rt: HostRuntime) -> Result<(), Fail> {
    let rows = [
        (Calls::Blocks, "Value Block 0 Loop Sequence "),
        (Calls::Closures, "Block 2 yes Loop - yes - "),
        (Calls::Openings, "2 NoBreak "),
        (Calls::Closings, "- 2 NoBreak "),
        (Calls::Branches, "Block Block "),
        (Calls::Graph, "> 0 0 > 2 2 0 > 1 "),
        (Calls::DenseGraph, "> 0 0 > 2 2 0 > 1 "),
    ];
    for (calls, wanted) in rows {
        check(&rt, rt.alloc(), MARKED, calls, wanted)?;
    }
    Ok(())
}

/// A statement with a marked function that binds `x`, and uses `x`, `g`, an import `i` and a parameter `class`.
const USES: &str =
    r#"(import "m" [(named "j" (bind "i" -))]) (expr (arrow y n (params [(param (bind "class" -) -)] -) (body [] [(var "let" [(declarator (bind "x" -) -)]) (expr (id "x")) (expr (id "g")) (expr (id "i")) (expr (id "class"))])))"#;

#[test]
fn an_inner_function_is_built_over_the_same_environment(rt: HostRuntime) -> Result<(), Fail> {
    let rows = [
        (Calls::Inner, "0 yes x "),
        (Calls::Captures, "Sequence 5 0 x "),
        (Calls::Tables, "x yes "),
    ];
    for (calls, wanted) in rows {
        check(&rt, rt.alloc(), USES, calls, wanted)?;
    }
    Ok(())
}

#[test]
fn a_kind_is_that_of_its_name(rt: HostRuntime) -> Result<(), Fail> {
    let rows = [
        (SymbolKind::Var, BindingKind::Var),
        (SymbolKind::Let, BindingKind::Let),
        (SymbolKind::Const, BindingKind::Const),
        (SymbolKind::Param, BindingKind::Param),
        (SymbolKind::Module, BindingKind::Module),
        (SymbolKind::Hoisted, BindingKind::Hoisted),
        (SymbolKind::Local, BindingKind::Local),
        (SymbolKind::Unknown, BindingKind::Unknown),
    ];
    for (kind, wanted) in rows {
        assert_eq!(rt; convert_binding_kind(&kind), wanted);
    }
    Ok(())
}

#[test]
fn an_identifier_takes_a_name_and_a_span(rt: HostRuntime) -> Result<(), Fail> {
    let alloc = rt.alloc();
    let mut env = Environment::new(alloc, ReactFunctionType::Other, EntityTable::new(alloc))?;
    let id = env.next_identifier_id()?;
    if (id.0 as usize) < env.identifiers().len() {
        env.set_name(id, IdentifierName::Named(Text::from_str(alloc, "x")?));
        env.set_span(id, Span { start: 5, end: 6 });
    }
    for identifier in env.identifiers() {
        assert!(rt;
            matches!(&identifier.name, Some(IdentifierName::Named(name)) if name.as_str() == "x")
        );
        assert_eq!(rt; identifier.span, Some(Span { start: 5, end: 6 }));
    }
    assert_eq!(rt; env.identifiers().len(), 1);
    Ok(())
}
